// One site: its tests, its counts and its two ratios.
ghost use Rattle.std.specs.Prelude.{◌≡◌, ◌<◌, ◌≤◌, map};
ghost use Rattle.links.specs.Lists.{at, All, range, greatest};
ghost use Rattle.links.specs.Parts.{table};
ghost use Rattle.links.specs.Graph.{rows_of, OwnedLists};
ghost use Rattle.links.specs.Refusals.{number_of};
ghost use Rattle.telemetry.specs.Telemetry.{local_entries, most_owned, most_entries, telemetry_cause, TelemetryTold};

use crate::ratio::imbalance;
use links::{Refusal, from_owners, neighbors_of, owned_counts, site_cause, vertex_count};

// The two ratios of the Rust's struct of this name that management reads.
#[derive(Clone, Copy)]
pub struct PartitionTelemetry {
    pub owned_dof_imbalance: f64,
    pub local_nnz_imbalance: f64,
}

// The first of 3, 4, 2, 3, 12, 9, 18.
pub(crate) fn telemetry_cause(
    offsets: &[u32],
    neighbors: &[u32],
    ranks: u32,
    owners: &[u32],
) -> Result<(), Refusal>
    ensures { number_of result ≡ telemetry_cause offsets.now neighbors.now ranks owners.now }
{
    site_cause(offsets, neighbors)?;
    from_owners(ranks, owners)?;
    if owners.len() != vertex_count(offsets) {
        return Err(Refusal::OwnersNotOnePerVertex);
    }
    Ok(())
}

// The greatest of the first ranks' counts.
fn most_of(counts: &[u64; 256], ranks: usize) -> u64
    requires { ranks ≤ 256 }
    ensures { result ≡ greatest (map (at counts.now) (range 0 ranks)) }
{
    counts[..ranks].iter().copied().max().unwrap_or(0)
}

// The most vertices that a rank owns.
pub(crate) fn most_owned(ranks: u32, owners: &[u32]) -> u64
    requires { ranks ≤ 256 }
    ensures { result ≡ most_owned owners.now ranks }
{
    let counts = owned_counts(owners);
    most_of(&counts, ranks as usize)
}

// How many entries the rows of each of 256 ranks have.
fn entry_counts(offsets: &[u32], neighbors: &[u32], owners: &[u32]) -> [u64; 256]
    requires { OwnedLists offsets.now neighbors.now owners.now × All (λ o. o < 256) owners.now }
    ensures { result ≡ table (local_entries (rows_of offsets.now neighbors.now) owners.now) 256 }
{
    let mut counts = [0u64; 256];
    for (v, owner) in owners.iter().enumerate() {
        let row = neighbors_of(offsets, neighbors, v as u64);
        counts[*owner as usize] += row.len() as u64;
    }
    counts
}

// The most entries that a rank's rows have.
fn most_entries(offsets: &[u32], neighbors: &[u32], ranks: u32, owners: &[u32]) -> u64
    requires { OwnedLists offsets.now neighbors.now owners.now × All (λ o. o < ranks) owners.now × (ranks ≤ 256) }
    ensures { result ≡ most_entries (rows_of offsets.now neighbors.now) owners.now ranks }
{
    let counts = entry_counts(offsets, neighbors, owners);
    most_of(&counts, ranks as usize)
}

// The two ratios; or the first of 3, 4, 2, 3, 12, 9, 18.
// Rules out: a ratio by one division; entries counted without the cut ones; 18 before a stray owner's 12.
pub fn partition_telemetry_assignment(
    offsets: &[u32],
    neighbors: &[u32],
    ranks: u32,
    owners: &[u32],
) -> Result<PartitionTelemetry, Refusal>
    ensures { TelemetryTold offsets.now neighbors.now ranks owners.now result }
{
    telemetry_cause(offsets, neighbors, ranks, owners)?;
    let vertices = most_owned(ranks, owners);
    let entries = most_entries(offsets, neighbors, ranks, owners);
    Ok(PartitionTelemetry {
        owned_dof_imbalance: imbalance(vertices, owners.len() as u64, ranks),
        local_nnz_imbalance: imbalance(entries, neighbors.len() as u64, ranks),
    })
}
