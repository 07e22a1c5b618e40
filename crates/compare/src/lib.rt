// Request P10: are two divisions of a site the same, and if not, which comes first?
#![tactic(auto)]

mod division;
mod numbers;
mod order;
mod renaming;

pub use division::{Comparison, compare_divisions};
pub use order::Order;
