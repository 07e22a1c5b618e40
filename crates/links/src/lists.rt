// The neighbor query, and the list test (cause 4).
ghost use Rattle.std.specs.Prelude.{◌≡◌, ◌+◌, ◌≤◌, leb, length, IfOk};
ghost use Rattle.links.specs.Lists.{at, any};
ghost use Rattle.links.specs.Refusals.{number_of};
ghost use Rattle.links.specs.Graph.{vertex_count, neighbors_of, neighbors_cause, never_falling, bad_offsets, site_cause, ListsTested};
ghost use Rattle.links.specs.ListTest.{valid_row, valid_rows, mirrored_row, mirrored_rows, Rising, found};

use crate::refusal::Refusal;

// The most vertices of a site.
const MAX_VERTICES: usize = 16384;

// The most neighbor entries of a site.
const MAX_ENTRIES: usize = 131072;

// How many vertices the offsets have: their number less 1, 0 if there are none.
// Rules out: one vertex where there are no offsets; a vertex for the last offset.
pub fn vertex_count(offsets: &[u32]) -> usize
    ensures { result ≡ vertex_count offsets.now }
{
    offsets.len().saturating_sub(1)
}

// Where the row of v begins and ends among the neighbors; 11 if there is no vertex v, else 4 if its offsets fall or pass the slice's end.
#[tactic(auto, unfolding(crate::specs::Graph::neighbors_cause))]
fn row_bounds(offsets: &[u32], neighbors: &[u32], v: u64) -> Result<(usize, usize), Refusal>
    ensures cause { number_of result ≡ neighbors_cause offsets.now neighbors.now v }
    ensures bounds { IfOk result (λ b. (b.0 ≡ at offsets.now v) × (b.1 ≡ at offsets.now (v + 1)) × (b.0 ≤ b.1) × (b.1 ≤ length neighbors.now)) }
{
    let i = v as usize;
    if vertex_count(offsets) <= i {
        return Err(Refusal::VertexOutOfRange);
    }
    let a = offsets[i] as usize;
    let e = offsets[i + 1] as usize;
    if e < a || neighbors.len() < e {
        return Err(Refusal::InvalidLists);
    }
    Ok((a, e))
}

// 11 if there is no vertex v; else 4 if its offsets fall or pass the slice's end.
// Rules out: 4 for a vertex that is not there; no refusal where the last offset passes the slice's end.
pub fn neighbors_cause(offsets: &[u32], neighbors: &[u32], v: u64) -> Result<(), Refusal>
    ensures { number_of result ≡ neighbors_cause offsets.now neighbors.now v }
{
    row_bounds(offsets, neighbors, v)?;
    Ok(())
}

// The neighbors of vertex v: the caller's slice between two offsets, or its empty part.
// Rules out: a part that ends at the slice's end where the offsets pass it; the row of the next vertex.
#[tactic(auto, unfolding(crate::specs::Graph::neighbors_of))]
pub fn neighbors_of<'a, 'b>(offsets: &'b [u32], neighbors: &'a [u32], v: u64) -> &'a [u32]
    ensures { result.now ≡ neighbors_of offsets.now neighbors.now v }
{
    let Ok((a, e)) = row_bounds(offsets, neighbors, v) else {
        return &neighbors[..0];
    };
    &neighbors[a..e]
}

// Whether a number is the least one or above it.
// Rules out: the last number not looked at; the least one itself let through.
pub fn any_from(xs: &[u32], least: u32) -> bool
    ensures { result ≡ any (leb least) xs.now }
{
    xs.iter().any(|x| *x >= least)
}

// Whether a search by halves finds x; in a rising row, whether x is there.
// Its two ends move, so that no range is gone through; and the library's search promises nothing of a row that does not rise, as this one does.
// Rules out: a number of the row's last half missed; one found that is not there.
pub fn holds(row: &[u32], x: usize) -> bool
    ensures { result ≡ found row.now x }
{
    let mut low: usize = 0;
    let mut high: usize = row.len();
    while low < high {
        let middle = low + (high - low) / 2;
        let u = row[middle] as usize;
        if u == x {
            return true;
        }
        if u < x {
            low = middle + 1;
        } else {
            high = middle;
        }
    }
    false
}

// Whether no number is below one before it.
// Rules out: a repeat taken for a fall; the last number not looked at.
pub fn never_falls(xs: &[u32]) -> bool
    ensures { result ≡ never_falling xs.now }
{
    let mut least: u32 = 0;
    for x in xs {
        if *x < least {
            return false;
        }
        least = *x;
    }
    true
}

#[tactic(auto, unfolding(crate::specs::Graph::bad_offsets))]
fn bad_offsets(offsets: &[u32], m: usize) -> bool
    ensures { result ≡ bad_offsets offsets.now m }
{
    if offsets.is_empty() {
        return true;
    }
    let last = offsets.len() - 1;
    offsets[0] != 0 || !never_falls(offsets) || offsets[last] as usize != m
}

// Whether the row of v is strictly rising, below n and without v.
fn valid_row(row: &[u32], v: usize, n: usize) -> bool
    ensures { result ≡ valid_row n v row.now }
{
    let mut least: usize = 0;
    for x in row {
        let u = *x as usize;
        if u < least || n <= u || u == v {
            return false;
        }
        least = u + 1;
    }
    true
}

fn valid_rows(offsets: &[u32], neighbors: &[u32]) -> bool
    ensures { result ≡ valid_rows offsets.now neighbors.now }
{
    let n = vertex_count(offsets);
    (0..n).all(|v| valid_row(neighbors_of(offsets, neighbors, v as u64), v, n))
}

// Whether each neighbor of v has v in its own row.
fn mirrored_row(offsets: &[u32], neighbors: &[u32], v: usize) -> bool
    requires { Rising offsets.now neighbors.now }
    ensures { result ≡ mirrored_row offsets.now neighbors.now v }
{
    let row = neighbors_of(offsets, neighbors, v as u64);
    row.iter().all(|u| holds(neighbors_of(offsets, neighbors, u64::from(*u)), v))
}

fn mirrored_rows(offsets: &[u32], neighbors: &[u32]) -> bool
    requires { Rising offsets.now neighbors.now }
    ensures { result ≡ mirrored_rows offsets.now neighbors.now }
{
    (0..vertex_count(offsets)).all(|v| mirrored_row(offsets, neighbors, v))
}

// 4 for lists that are not those of a graph.
// Rules out: a list that is mirrored one way only; a repeat in a row.
pub fn lists_cause(offsets: &[u32], neighbors: &[u32]) -> Result<(), Refusal>
    ensures { ListsTested offsets.now neighbors.now result }
{
    if bad_offsets(offsets, neighbors.len())
        || !valid_rows(offsets, neighbors)
        || !mirrored_rows(offsets, neighbors)
    {
        return Err(Refusal::InvalidLists);
    }
    Ok(())
}

// The first of 3, more than 16,384 vertices or 131,072 neighbor entries, and 4.
// Rules out: 131,072 entries refused; 4 where there are too many vertices.
#[tactic(auto, unfolding(crate::specs::Graph::site_cause))]
pub fn site_cause(offsets: &[u32], neighbors: &[u32]) -> Result<(), Refusal>
    ensures { number_of result ≡ site_cause offsets.now neighbors.now }
{
    if vertex_count(offsets) > MAX_VERTICES || neighbors.len() > MAX_ENTRIES {
        return Err(Refusal::LimitPassed);
    }
    lists_cause(offsets, neighbors)
}
