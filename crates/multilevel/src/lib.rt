// The driver (rule 8 of document 01) and the link file (rule 9), over the promises of links and stages.
#![tactic(auto)]

mod causes;
mod driver;
mod file;
mod lay;
mod link_file;
mod measure;
mod takeover;
mod writeback;

pub use driver::abtm_multilevel_partition;
pub use file::{Sizes, link_file_cause, read_link_file};
