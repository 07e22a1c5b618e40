// Parts of the lent work slice: numbers are stored, filled and copied in a slice, or in a part of it that is lent for that.
ghost use Rattle.std.specs.Prelude.{◌≡◌, ◌+◌, length, set, replicate};
ghost use Rattle.links.specs.Lists.{at};
ghost use Rattle.links.specs.Parts.{copied, filled_part, copied_part};

// The number in the place i, 0 past the end.
pub(crate) fn number_at(xs: &[u32], i: usize) -> u32
    ensures { result ≡ at xs.now i }
{
    xs.get(i).copied().unwrap_or(0)
}

// x in the place i; nothing past the end.
// Rules out: the number one place further on; a second number changed.
pub fn store(s: &mut [u32], i: usize, x: u32)
    ensures { s.new ≡ set s.old i x }
{
    if i < s.len() {
        s[i] = x;
    }
}

// Rules out: the last number left as it was; a longer slice.
pub fn fill(s: &mut [u32], x: u32)
    ensures { s.new ≡ replicate (length s.old) x }
{
    s.fill(x);
}

// src over the front of dst, as much of it as there is room for.
// Rules out: src at the end of dst; what lies beyond src cleared.
pub fn copy_into(dst: &mut [u32], src: &[u32])
    ensures { dst.new ≡ copied dst.old src.now }
{
    let n = src.len().min(dst.len());
    for i in 0..n {
        dst[i] = src[i];
    }
}

// x in the place i of the part that begins at a; nothing past the end.
// Rules out: a place counted from the slice's start; another number of the part changed.
pub fn store_part(work: &mut [u32], a: usize, i: usize, x: u32)
    ensures { work.new ≡ set work.old (a + i) x }
{
    if a < work.len() {
        store(&mut work[a..], i, x);
    }
}

// x in each place from a up to e, as far as the slice goes.
// Rules out: the part's last number left as it was; a number beyond the part changed.
pub fn fill_part(work: &mut [u32], a: usize, e: usize, x: u32)
    ensures { work.new ≡ filled_part work.old a e x }
{
    let end = e.min(work.len());
    if a < end {
        fill(&mut work[a..end], x);
    }
}

// src from a on, as much of it as there is room for up to e.
// Rules out: src from the slice's start on; a number beyond the part changed.
pub fn copy_part(work: &mut [u32], a: usize, e: usize, src: &[u32])
    ensures { work.new ≡ copied_part work.old a e src.now }
{
    let end = e.min(work.len());
    if a < end {
        copy_into(&mut work[a..end], src);
    }
}
