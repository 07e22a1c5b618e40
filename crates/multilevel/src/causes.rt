// The causes that a division tests before its work: 1 to 5 of document 01's table, and document 02's 13 and 17.
ghost use Rattle.std.specs.Prelude.{◌≡◌, ◌||◌, ltb, ◌≤◌, ◌<◌, length};
ghost use Rattle.links.specs.Lists.{sum};
ghost use Rattle.links.specs.Refusals.{number_of};
ghost use Rattle.multilevel.specs.Causes.{call_of, bad_counts, over_limits, work_need, Limited, early_cause};

use links::{AbtmMultilevelOptions, Refusal, lists_cause, vertex_count, workloads_cause};

// The limits of a division.
const MAX_VERTICES: usize = 16384;

const MAX_ENTRIES: usize = 131072;

const MAX_RANKS: usize = 256;

const MAX_LEVELS: u64 = 32;

// What is asked of a division: for how many ranks, and by which options.
#[derive(Clone, Copy)]
pub struct Terms {
    pub ranks: u32,
    pub options: AbtmMultilevelOptions,
}

#[tactic(auto, unfolding(crate::specs::Causes::bad_counts))]
fn bad_counts(n: usize, ranks: usize) -> bool
    ensures { result ≡ bad_counts n ranks }
{
    n == 0 || ranks == 0 || n < ranks
}

#[tactic(auto, unfolding(crate::specs::Causes::over_limits))]
fn over_limits(n: usize, m: usize, ranks: usize, levels: u64) -> bool
    ensures { result ≡ over_limits n m ranks levels }
{
    n > MAX_VERTICES || m > MAX_ENTRIES || ranks > MAX_RANKS || levels > MAX_LEVELS
}

// The load of the whole site.
// Rules out: a sum that wraps.
pub(crate) fn total_of(workloads: &[u32]) -> u64
    requires { length workloads.now ≤ 16384 }
    ensures { result ≡ sum workloads.now }
{
    workloads.iter().map(|w| u64::from(*w)).sum()
}

// How many numbers a division's work takes.
// Rules out: a product that wraps to a small number.
pub(crate) fn work_need(n: usize, m: usize, ranks: usize, levels: usize) -> usize
    requires { Limited n m ranks levels }
    ensures { result ≡ work_need n m ranks levels }
{
    (levels + 6) * (4 * n + 2 * m + 2) + 24 * ranks * ranks
}

fn too_short(
    n: usize,
    m: usize,
    ranks: usize,
    levels: usize,
    owners_length: usize,
    work_length: usize,
) -> bool
    requires { Limited n m ranks levels }
    ensures { result ≡ (ltb owners_length n || ltb work_length (work_need n m ranks levels)) }
{
    owners_length < n || work_length < work_need(n, m, ranks, levels)
}

// The first of the causes 1, 17, 2, 3, 4, 13 and 5 that holds.
// Rules out: another order than the papers'; work counted before the limits were tested.
pub(crate) fn early_cause(
    offsets: &[u32],
    neighbors: &[u32],
    workloads: &[u32],
    asked: Terms,
    owners_length: usize,
    work_length: usize,
) -> Result<(), Refusal>
    ensures { number_of result ≡ early_cause (call_of offsets.now neighbors.now workloads.now asked.ranks asked.options owners_length work_length) }
{
    let n = vertex_count(offsets);
    let m = neighbors.len();
    let k = asked.ranks as usize;
    let levels = asked.options.max_levels;
    asked.options.validate()?;
    if bad_counts(n, k) {
        return Err(Refusal::InvalidRankCount);
    }
    if over_limits(n, m, k, levels) {
        return Err(Refusal::LimitPassed);
    }
    lists_cause(offsets, neighbors)?;
    workloads_cause(workloads, n)?;
    if too_short(n, m, k, levels as usize, owners_length, work_length) {
        return Err(Refusal::SliceTooShort);
    }
    Ok(())
}
