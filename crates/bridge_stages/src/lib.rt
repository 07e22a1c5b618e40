// The five stages over numbers and slices, on a level of any weights and owners, for a caller in another language: oracle/ links it and compares
// each stage with the Rust's. A level is its lists, a weight and an owner for each vertex, and the number of ranks. The answer is 0, or 3 for a
// level beyond the limits (the weights add up to less than 2^31), 4 for unsound lists, 5 where there is not a weight and an owner for each vertex
// or the work slice is too short, 12 for an owner that is no rank; or the stage's own number. What a stage makes is left in the work slice, at the
// places of specs/Lent.antt.
#![tactic(auto)]

mod lent;

ghost use Rattle.bridge_stages.specs.Lent.{lent};
ghost use Rattle.bridge_stages.specs.Stages.{CoarsenedHere, SeededHere, GrownHere, MovedHere, SwappedHere};

use crate::lent::{LentLevel, enter};
use links::{Refusal, bad_list_length, number_of};
use stages::{
    Limits, Swapping, coarsen_once_cached, farthest_seeds, refine_by_cut, refine_fine_pair_swaps,
    weighted_multisource_partition,
};

// Rule 3: the groups, the entries of their lists, the pairs and the singletons are written, or zeros where there are no fewer groups.
#[unsafe(no_mangle)]
pub extern "C" fn bridge_coarsen(
    offsets: &[u32],
    neighbors: &[u32],
    weights: &[u32],
    owners: &[u32],
    ranks: u32,
    work: &mut [u32],
    counts: &mut [u64; 4],
) -> u32
    ensures { CoarsenedHere (lent offsets.now neighbors.now weights.now owners.now ranks) work.old work.new counts.new result }
{
    *counts = [0; 4];
    let level = LentLevel::new(offsets, neighbors, weights, owners, ranks);
    let entered = enter(level, work);
    let Ok(p) = entered else {
        return number_of(entered);
    };
    let Some(step) = coarsen_once_cached(work, p.level, p.next, p.scratch) else {
        return 0;
    };
    *counts = [
        step.groups as u64,
        step.entries as u64,
        step.pairs as u64,
        step.singletons as u64,
    ];
    0
}

// Rule 4; 7 for fewer vertices than ranks.
#[unsafe(no_mangle)]
pub extern "C" fn bridge_seeds(
    offsets: &[u32],
    neighbors: &[u32],
    weights: &[u32],
    owners: &[u32],
    ranks: u32,
    work: &mut [u32],
) -> u32
    ensures { SeededHere (lent offsets.now neighbors.now weights.now owners.now ranks) work.old work.new result }
{
    let level = LentLevel::new(offsets, neighbors, weights, owners, ranks);
    let entered = enter(level, work);
    let Ok(p) = entered else {
        return number_of(entered);
    };
    if p.level.vertices < ranks as usize {
        return Refusal::FewerGroupsThanRanks.number();
    }
    farthest_seeds(work, p.level, p.scratch, ranks as usize);
    0
}

// Rule 5: the restarts, or 0, are written; 6, 7 or 8.
#[unsafe(no_mangle)]
pub extern "C" fn bridge_growth(
    offsets: &[u32],
    neighbors: &[u32],
    weights: &[u32],
    owners: &[u32],
    ranks: u32,
    cap: u64,
    work: &mut [u32],
    restarts: &mut u64,
) -> u32
    ensures { GrownHere (lent offsets.now neighbors.now weights.now owners.now ranks) cap work.old work.new restarts.new result }
{
    *restarts = 0;
    let level = LentLevel::new(offsets, neighbors, weights, owners, ranks);
    let entered = enter(level, work);
    let Ok(p) = entered else {
        return number_of(entered);
    };
    let grown = weighted_multisource_partition(work, p.level, p.scratch, ranks as usize, cap);
    let Ok(n) = grown else {
        return number_of(grown);
    };
    *restarts = n;
    0
}

// Rule 6: the number of moves, or 0, is written; the number is that of the check of the owners.
#[unsafe(no_mangle)]
pub extern "C" fn bridge_moves(
    offsets: &[u32],
    neighbors: &[u32],
    weights: &[u32],
    owners: &[u32],
    ranks: u32,
    floor: u64,
    cap: u64,
    passes: u64,
    work: &mut [u32],
    moves: &mut u64,
) -> u32
    ensures { MovedHere (lent offsets.now neighbors.now weights.now owners.now ranks) floor cap passes work.old work.new moves.new result }
{
    *moves = 0;
    let level = LentLevel::new(offsets, neighbors, weights, owners, ranks);
    let entered = enter(level, work);
    let Ok(p) = entered else {
        return number_of(entered);
    };
    let limits = Limits {
        ranks: ranks as usize,
        floor,
        cap,
    };
    let refined = refine_by_cut(work, p.level, p.scratch, limits, passes);
    let Ok(n) = refined else {
        return number_of(refined);
    };
    *moves = n;
    0
}

// Rule 7: the number of swaps, or 0, is written; 17, before all else, for a list length out of its range.
#[unsafe(no_mangle)]
pub extern "C" fn bridge_swaps(
    offsets: &[u32],
    neighbors: &[u32],
    weights: &[u32],
    owners: &[u32],
    ranks: u32,
    floor: u64,
    cap: u64,
    passes: u64,
    list_length: u32,
    work: &mut [u32],
    swaps: &mut u64,
) -> u32
    ensures { SwappedHere (lent offsets.now neighbors.now weights.now owners.now ranks) floor cap passes list_length work.old work.new swaps.new result }
{
    *swaps = 0;
    if bad_list_length(u64::from(list_length)) {
        return Refusal::InvalidSwaps.number();
    }
    let level = LentLevel::new(offsets, neighbors, weights, owners, ranks);
    let entered = enter(level, work);
    let Ok(p) = entered else {
        return number_of(entered);
    };
    let limits = Limits {
        ranks: ranks as usize,
        floor,
        cap,
    };
    let swapping = Swapping {
        list_length: list_length as usize,
        passes,
    };
    *swaps = refine_fine_pair_swaps(work, p.level, p.scratch, p.lists, limits, swapping);
    0
}
