// Document 02's workloads: one number for each vertex, from 1 to 10,000.
ghost use Rattle.std.specs.Prelude.{◌≡◌};
ghost use Rattle.links.specs.Lists.{any};
ghost use Rattle.links.specs.Refusals.{number_of};
ghost use Rattle.links.specs.Workloads.{bad_workload, workloads_cause};

use crate::refusal::Refusal;

// Whether a workload is 0 or above 10,000.
// Rules out: 10,001 taken; 0 taken.
#[tactic(auto, unfolding(crate::specs::Workloads::bad_workload))]
pub fn bad_workload(w: u32) -> bool
    ensures { result ≡ bad_workload w }
{
    w == 0 || 10000 < w
}

fn stray_workload(workloads: &[u32]) -> bool
    ensures { result ≡ any bad_workload workloads.now }
{
    workloads.iter().any(|w| bad_workload(*w))
}

// 13 for workloads that are not n numbers from 1 to 10,000.
// Rules out: more workloads than vertices; all workloads tested but the last.
#[tactic(auto, unfolding(crate::specs::Workloads::workloads_cause, crate::specs::Workloads::bad_workloads))]
pub fn workloads_cause(workloads: &[u32], n: usize) -> Result<(), Refusal>
    ensures { number_of result ≡ workloads_cause n workloads.now }
{
    if workloads.len() != n || stray_workload(workloads) {
        return Err(Refusal::InvalidWorkloads);
    }
    Ok(())
}
