// Rule 8: the driver.
ghost use Rattle.std.specs.Prelude.{◌≡◌, ◌≤◌, length};
ghost use Rattle.multilevel.specs.Causes.{Limited, call_of};
ghost use Rattle.multilevel.specs.Contract.{Partitioned};
ghost use Rattle.multilevel.specs.Division.{swapping_of};
ghost use Rattle.multilevel.specs.DriverCode.{Placed, Refining, LevelRefined, LevelGrown, LevelSolved, Finishing, LevelFinished, Divisible, SiteDivided, rules_with};

use crate::causes::{Terms, early_cause, total_of, work_need};
use crate::lay::lay_site;
use crate::measure::measure_level;
use crate::takeover::take_over;
use crate::writeback::write_owners;
use links::{
    AbtmMultilevelOptions, AbtmMultilevelStats, Refusal, fill_part, load_cap, minimum_load,
    vertex_count,
};
use stages::{
    HierarchyLevel, Limits, Swapping, coarsen_once_cached, refine_by_cut, refine_fine_pair_swaps,
    weighted_multisource_partition,
};

// What a division goes by: the limits of a load, the passes of moves, what the swaps go by, where coarsening stops; and in the work slice the room
// of a level and where the stages' own room begins.
#[derive(Clone, Copy)]
pub struct Rules {
    pub limits: Limits,
    pub passes: u64,
    pub swapping: Swapping,
    pub stop: u64,
    pub unit: usize,
    pub scratch: usize,
}

// A level makes its moves; then the check.
fn refine_level(
    work: &mut [u32],
    q: Rules,
    l: HierarchyLevel,
    s: AbtmMultilevelStats,
) -> Result<AbtmMultilevelStats, Refusal>
    requires { Refining work.old l q }
    ensures { LevelRefined work.old work.new l q s result }
{
    let moves = refine_by_cut(work, l, q.scratch, q.limits, q.passes)?;
    Ok(s.added_moves(moves))
}

// What the swaps go by: the list length, and the pass factor × refinement_passes, saturating.
fn swapping_of(options: AbtmMultilevelOptions) -> Swapping
    ensures { result ≡ swapping_of options }
{
    let factor = options.swap_pass_factor;
    Swapping {
        list_length: options.swap_list_length as usize,
        passes: factor.saturating_mul(options.refinement_passes),
    }
}

fn rules_of(n: usize, m: usize, total: u64, ranks: u32, options: AbtmMultilevelOptions) -> Rules
    requires { Limited n m ranks options.max_levels × (options.imbalance_per_mille ≤ 500) }
    ensures { result ≡ rules_with n m total ranks options }
{
    let t = options.imbalance_per_mille as u32;
    let levels = options.max_levels as usize;
    let unit = 4 * n + 2 * m + 2;
    let limits = Limits {
        ranks: ranks as usize,
        floor: minimum_load(total, ranks, t),
        cap: load_cap(total, ranks, t),
    };
    Rules {
        limits,
        passes: options.refinement_passes,
        swapping: swapping_of(options),
        stop: options.stop_size(ranks),
        unit,
        scratch: (levels + 1) * unit,
    }
}

// Growth on the coarsest level, and its moves.
fn grow_level(work: &mut [u32], q: Rules, l: HierarchyLevel) -> Result<AbtmMultilevelStats, Refusal>
    requires { Placed work.old l q 0 }
    ensures { LevelGrown work.old work.new l q result }
{
    let restarts = weighted_multisource_partition(
        work,
        l,
        q.scratch,
        q.limits.ranks,
        q.limits.cap,
    )?;
    let s = AbtmMultilevelStats::default().grown(l.vertices as u64, restarts);
    refine_level(work, q, l, s)
}

// A level gets its owners: from the coarser level, if a coarsening step is kept, else by growth; then its moves. `left` more levels may be made.
fn solve(
    work: &mut [u32],
    q: Rules,
    left: usize,
    l: HierarchyLevel,
) -> Result<AbtmMultilevelStats, Refusal>
    requires { Placed work.old l q left × (left ≤ 32) }
    ensures { LevelSolved work.old work.new l q left result }
{
    if left == 0 {
        return grow_level(work, q, l);
    }
    if l.vertices as u64 <= q.stop {
        return grow_level(work, q, l);
    }
    let next = l.moved_up(q.unit);
    let Some(step) = coarsen_once_cached(work, l, next, q.scratch) else {
        return grow_level(work, q, l);
    };
    let coarse = next.sized(step.groups, step.entries);
    let s = solve(work, q, left - 1, coarse)?;
    take_over(work, l, coarse);
    let kept = s.added_pairs(step.pairs as u64, step.singletons as u64);
    refine_level(work, q, l, kept)
}

// The finest level's swaps and its measures: the stats of the division.
fn finish(
    work: &mut [u32],
    q: Rules,
    l: HierarchyLevel,
    lists: usize,
    s: AbtmMultilevelStats,
) -> AbtmMultilevelStats
    requires { Finishing work.old l q lists }
    ensures { LevelFinished work.old work.new l q s result }
{
    let swaps = refine_fine_pair_swaps(work, l, q.scratch, lists, q.limits, q.swapping);
    let m = measure_level(work, l, q.scratch, q.limits.ranks);
    s.added_moves(swaps).measured(m.cut, m.volume)
}

// The division of a site that passed the early tests, on a work slice of just the length that it needs.
fn divide(
    offsets: &[u32],
    neighbors: &[u32],
    workloads: &[u32],
    asked: Terms,
    owners: &mut [u32],
    work: &mut [u32],
) -> Result<AbtmMultilevelStats, Refusal>
    requires { Divisible (call_of offsets.now neighbors.now workloads.now asked.ranks asked.options (length owners.old) (length work.old)) work.old }
    ensures { SiteDivided (call_of offsets.now neighbors.now workloads.now asked.ranks asked.options (length owners.old) (length work.old)) owners.old owners.new result }
{
    let options = asked.options;
    let n = vertex_count(offsets);
    let m = neighbors.len();
    let q = rules_of(n, m, total_of(workloads), asked.ranks, options);
    let l = HierarchyLevel::at(n, m, 0);
    let levels = options.max_levels as usize;
    lay_site(work, l, offsets, neighbors, workloads);
    let s = solve(work, q, levels, l)?;
    let lists = q.scratch + 5 * q.unit;
    let t = finish(work, q, l, lists, s);
    write_owners(owners, work, l);
    Ok(t)
}

// Rule 8: the whole division. 1 to 5 and 13 touch nothing; past 5 the needed work numbers are zero at exit; owners are written only on success.
// Rules out: moves and swaps only feigned; moves or restarts invented; rank 0 for all; owners never written; every site refused.
pub fn abtm_multilevel_partition(
    offsets: &[u32],
    neighbors: &[u32],
    workloads: &[u32],
    ranks: u32,
    options: AbtmMultilevelOptions,
    owners: &mut [u32],
    work: &mut [u32],
) -> Result<AbtmMultilevelStats, Refusal>
    ensures { Partitioned (call_of offsets.now neighbors.now workloads.now ranks options (length owners.old) (length work.old)) owners.old owners.new work.old work.new result }
{
    let asked = Terms { ranks, options };
    early_cause(
        offsets,
        neighbors,
        workloads,
        asked,
        owners.len(),
        work.len(),
    )?;
    let levels = options.max_levels as usize;
    let need = work_need(
        vertex_count(offsets),
        neighbors.len(),
        ranks as usize,
        levels,
    );
    let answer = divide(
        offsets,
        neighbors,
        workloads,
        asked,
        owners,
        &mut work[..need],
    );
    fill_part(work, 0, need, 0);
    answer
}
