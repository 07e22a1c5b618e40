// The renaming of ranks that turns one owner list into another.
ghost use Rattle.std.specs.Prelude.{◌≡◌, ◌<◌, length};
ghost use Rattle.links.specs.Lists.{All};
ghost use Rattle.links.specs.Parts.{table};
ghost use Rattle.compare.specs.Order.{renamed};

// For each rank of the first list, the second's for the first vertex that it owns; 0 for a rank that owns none. From the last vertex down, so that the
// first is written last.
pub(crate) fn renaming_of(first: &[u32], second: &[u32]) -> [u32; 256]
    requires { All (λ o. o < 256) first.now × (length first.now ≡ length second.now) }
    ensures { result ≡ table (renamed first.now second.now) 256 }
{
    let mut names = [0u32; 256];
    for v in (0..first.len()).rev() {
        names[first[v] as usize] = second[v];
    }
    names
}
