// Loads and links: rules 1 and 2 of document 01, the neighbor query and the list test, workloads, options and stats, parts of the lent work slice.
#![tactic(auto)]

mod cut;
mod lists;
mod loads;
mod options;
mod owners;
mod parts;
mod refusal;
mod workloads;

pub use cut::cut_entries;
pub use lists::{
    any_from, holds, lists_cause, neighbors_cause, neighbors_of, never_falls, site_cause,
    vertex_count,
};
pub use loads::{load_cap, minimum_load};
pub use options::{AbtmMultilevelOptions, AbtmMultilevelStats, bad_list_length};
pub use owners::{from_owners, owned_count, owned_counts, owner_of, stray_owner};
pub use parts::{copy_into, copy_part, fill, fill_part, store, store_part};
pub use refusal::{Refusal, number_of};
pub use workloads::{bad_workload, workloads_cause};
