// Two divisions of a site: their tests, and the answer.
ghost use Rattle.std.specs.Prelude.{◌≡◌, ◌<◌};
ghost use Rattle.links.specs.Lists.{All};
ghost use Rattle.links.specs.Graph.{rows_of, OwnedLists};
ghost use Rattle.links.specs.Refusals.{number_of};
ghost use Rattle.compare.specs.Order.{order_of};
ghost use Rattle.compare.specs.Comparison.{comparison_cause, Compared};

use crate::numbers::by_owners;
use crate::order::{Order, lesser_first};
use crate::renaming::renaming_of;
use links::{Refusal, cut_entries, from_owners, site_cause, vertex_count};

// The order, and the renaming if they are the same, else zeros.
#[derive(Clone, Copy)]
pub struct Comparison {
    pub order: Order,
    pub renaming: [u32; 256],
}

// The first of 3, 4, then of each list 2, 3, 12, 9, then 18.
fn comparison_cause(
    offsets: &[u32],
    neighbors: &[u32],
    ranks: u32,
    first: &[u32],
    second: &[u32],
) -> Result<(), Refusal>
    ensures { number_of result ≡ comparison_cause offsets.now neighbors.now ranks first.now second.now }
{
    site_cause(offsets, neighbors)?;
    from_owners(ranks, first)?;
    from_owners(ranks, second)?;
    let n = vertex_count(offsets);
    if first.len() != n || second.len() != n {
        return Err(Refusal::OwnersNotOnePerVertex);
    }
    Ok(())
}

// Fewer cut links first, then by renumbered owners. Each cut link is two entries.
fn order_of(offsets: &[u32], neighbors: &[u32], first: &[u32], second: &[u32]) -> Order
    requires { OwnedLists offsets.now neighbors.now first.now × OwnedLists offsets.now neighbors.now second.now × All (λ o. o < 256) first.now × All (λ o. o < 256) second.now }
    ensures { result ≡ order_of (rows_of offsets.now neighbors.now) first.now second.now }
{
    let a = cut_entries(offsets, neighbors, first);
    let b = cut_entries(offsets, neighbors, second);
    let order = lesser_first(a, b);
    if order != Order::Same {
        return order;
    }
    by_owners(first, second)
}

// Whether two divisions of a site are the same, and the renaming that turns the first into the second; else which comes first; or the first of 3, 4,
// 2, 3, 12, 9, 18.
// Rules out: the first's number for the second's rank; owners compared as they are; 18 for a first list whose second is refused by another number.
pub fn compare_divisions(
    offsets: &[u32],
    neighbors: &[u32],
    ranks: u32,
    first: &[u32],
    second: &[u32],
) -> Result<Comparison, Refusal>
    ensures { Compared offsets.now neighbors.now ranks first.now second.now result }
{
    comparison_cause(offsets, neighbors, ranks, first, second)?;
    let order = order_of(offsets, neighbors, first, second);
    let renaming = if order == Order::Same {
        renaming_of(first, second)
    } else {
        [0; 256]
    };
    Ok(Comparison { order, renaming })
}
