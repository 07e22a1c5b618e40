// The five stages of a division: coarsening, seeds, growth, moves, swaps (rules 3 to 7 of document 01), over one lent work slice.
#![tactic(auto)]

mod coarsen;
mod growth;
mod keys;
mod level;
mod moves;
mod order;
mod seeds;
mod slots;
mod swaps;

pub use coarsen::{Smaller, coarsen_once_cached};
pub use growth::weighted_multisource_partition;
pub use level::{HierarchyLevel, Limits};
pub use moves::refine_by_cut;
pub use seeds::farthest_seeds;
pub use swaps::{Swapping, refine_fine_pair_swaps};
