// Telemetry: how evenly a site's vertices and entries are shared out, and the sums over several sites.
#![tactic(auto)]

mod ratio;
mod site;
mod sites;

pub use site::{PartitionTelemetry, partition_telemetry_assignment};
pub use sites::{Totals, sites_balance};
