// The visits of a season, the telemetry and the comparison of divisions over numbers and slices, for a caller in another language: oracle/ links it and
// compares its answers with second readings, and the ratios with the Rust's.
#![tactic(auto)]

ghost use Rattle.std.specs.Prelude.{◌≡◌, cond, length};
ghost use Rattle.visits.specs.Crane.{bad_visits, most_visits, earliest_day};
ghost use Rattle.visits.specs.Season.{season_cause, visits_after};
ghost use Rattle.telemetry.specs.Telemetry.{telemetry_cause, telemetry_for, ratios_of};
ghost use Rattle.telemetry.specs.Sites.{sites_from, sites_cause, balance_totals, balance_of};
ghost use Rattle.compare.specs.Order.{renaming_of};
ghost use Rattle.compare.specs.Comparison.{comparison_cause, order_code, order_for};

use links::number_of;

// 0 and the day of each vertex is written over the front of visits; or the refusal, and nothing is.
// Rules out: a day written on a refusal; 20 for a season that is planned.
#[unsafe(no_mangle)]
pub extern "C" fn bridge_season_days(
    ranks: u32,
    owners: &[u32],
    counts: &[u32],
    days: &[u32],
    visits: &mut [u32],
) -> u32
    ensures number { result ≡ season_cause ranks owners.now counts.now days.now (length visits.old) }
    ensures visits { visits.new ≡ visits_after ranks owners.now counts.now days.now visits.old }
{
    number_of(visits::season_days(ranks, owners, counts, days, visits))
}

// 0, or the refusal; the most visits and their first day, or zeros, are written.
// Rules out: the two outputs unwritten on a refusal; the two numbers in each other's place.
#[unsafe(no_mangle)]
pub extern "C" fn bridge_crane_week(days: &[u32], w: u32, visits: &mut u64, day: &mut u32) -> u32
    ensures number { result ≡ cond (bad_visits w days.now) 21 0 }
    ensures visits { visits.new ≡ cond (bad_visits w days.now) 0 (most_visits w days.now) }
    ensures day { day.new ≡ cond (bad_visits w days.now) 0 (earliest_day w days.now) }
{
    *visits = 0;
    *day = 0;
    let answer = visits::crane_week(days, w);
    let Ok(busiest) = answer else {
        return number_of(answer);
    };
    *visits = busiest.visits;
    *day = busiest.day;
    0
}

// 0 and the two ratios are written; or the refusal, and zeros are.
// Rules out: the two ratios in each other's place; a ratio left behind by a refusal.
#[unsafe(no_mangle)]
pub extern "C" fn bridge_telemetry(
    offsets: &[u32],
    neighbors: &[u32],
    ranks: u32,
    owners: &[u32],
    ratios: &mut [f64; 2],
) -> u32
    ensures number { result ≡ telemetry_cause offsets.now neighbors.now ranks owners.now }
    ensures ratios { ratios.new ≡ ratios_of (telemetry_for offsets.now neighbors.now ranks owners.now) }
{
    *ratios = [0.0, 0.0];
    let answer = telemetry::partition_telemetry_assignment(offsets, neighbors, ranks, owners);
    let Ok(t) = answer else {
        return number_of(answer);
    };
    *ratios = [t.owned_dof_imbalance, t.local_nnz_imbalance];
    0
}

// 0 and the vertices, ranks, cut links and the named site are written; or the refusal, and zeros are.
// Rules out: the totals of the sites before a refusal; the site numbered from 1.
#[unsafe(no_mangle)]
pub extern "C" fn bridge_sites_balance(
    sizes: &[u32],
    offsets: &[u32],
    neighbors: &[u32],
    owners: &[u32],
    totals: &mut [u64; 4],
) -> u32
    ensures number { result ≡ sites_cause (sites_from sizes.now offsets.now neighbors.now owners.now) }
    ensures totals { totals.new ≡ balance_totals (balance_of (sites_from sizes.now offsets.now neighbors.now owners.now)) }
{
    *totals = [0, 0, 0, 0];
    let answer = telemetry::sites_balance(sizes, offsets, neighbors, owners);
    let Ok(t) = answer else {
        return number_of(answer);
    };
    *totals = [t.vertices, t.ranks, t.cut_links, t.site];
    0
}

// 0 and the order is written, 0 for the same, 1 or 2 for the one that comes first, and the renaming; or the refusal, and zeros are.
// Rules out: a renaming left behind by divisions that differ; 1 and 2 in each other's place.
#[unsafe(no_mangle)]
pub extern "C" fn bridge_compare_divisions(
    offsets: &[u32],
    neighbors: &[u32],
    ranks: u32,
    first: &[u32],
    second: &[u32],
    order: &mut u32,
    renaming: &mut [u32; 256],
) -> u32
    ensures number { result ≡ comparison_cause offsets.now neighbors.now ranks first.now second.now }
    ensures order { order.new ≡ order_code (order_for offsets.now neighbors.now ranks first.now second.now) }
    ensures renaming { renaming.new ≡ renaming_of ranks first.now second.now (order_for offsets.now neighbors.now ranks first.now second.now) }
{
    *order = 0;
    *renaming = [0; 256];
    let answer = compare::compare_divisions(offsets, neighbors, ranks, first, second);
    let Ok(comparison) = answer else {
        return number_of(answer);
    };
    let names = comparison.renaming;
    *order = comparison.order.code();
    *renaming = names;
    0
}
