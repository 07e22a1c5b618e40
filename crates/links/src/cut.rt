// Rule 8: the cut.
ghost use Rattle.std.specs.Prelude.{◌≡◌};
ghost use Rattle.links.specs.Loads.{saturating};
ghost use Rattle.links.specs.Graph.{rows_of, foreign_in, cut_entries};

use crate::lists::{neighbors_of, vertex_count};
use crate::parts::number_at;

// How many of a row's vertices another rank than home owns.
fn foreign(row: &[u32], owners: &[u32], home: u32) -> u64
    ensures { result ≡ foreign_in row.now owners.now home }
{
    let mut x: u64 = 0;
    for u in row {
        if number_at(owners, *u as usize) != home {
            x += 1;
        }
    }
    x
}

// How many neighbor entries join two ranks: a cut link counts from both its ends.
// Rules out: a cut link counted once; entries inside a rank counted.
pub fn cut_entries(offsets: &[u32], neighbors: &[u32], owners: &[u32]) -> u64
    ensures { result ≡ saturating (cut_entries (rows_of offsets.now neighbors.now) owners.now) }
{
    let mut x: u64 = 0;
    for v in 0..vertex_count(offsets) {
        let row = neighbors_of(offsets, neighbors, v as u64);
        x = x.saturating_add(foreign(row, owners, number_at(owners, v)));
    }
    x
}
