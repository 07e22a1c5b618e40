// Visits of a season, day by day: the day of each visit in its rank's windows, and the busiest days.
#![tactic(auto)]

mod crane;
mod season;
mod windows;

pub use crane::{Busiest, crane_week};
pub use season::season_days;
