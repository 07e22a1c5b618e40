// Season windows (request P11): each rank visits its vertices by number, one on each of its open days.
ghost use Rattle.std.specs.Prelude.{◌≡◌, ◌+◌, ◌≤◌, ◌<◌, ◌++◌, length, drop};
ghost use Rattle.links.specs.Lists.{at, any, range};
ghost use Rattle.links.specs.Parts.{part};
ghost use Rattle.links.specs.Refusals.{number_of};
ghost use Rattle.visits.specs.Season.{misplaced, bad_windows, too_few_days, windows_cause, season_cause, visit_days, SeasonTold};
ghost use Rattle.visits.specs.SeasonCode.{FewCounts, Laid, Good, Plannable, Started};

use crate::windows::{count_days, day_at, good_windows};
use links::{Refusal, any_from, from_owners, owned_counts};

// The most windows of a rank.
const MAX_WINDOWS: u32 = 32;

// Where the days of each rank begin, and where those of the last one end.
fn starts_of(counts: &[u32]) -> [usize; 257]
    requires { FewCounts counts.now }
    ensures { Started counts.now result (length counts.now) }
{
    let mut starts = [0usize; 257];
    for (rank, count) in counts.iter().enumerate() {
        starts[rank + 1] = starts[rank] + 2 * *count as usize;
    }
    starts
}

// The days of the rank's windows.
fn windows_of<'a>(starts: &[usize; 257], days: &'a [u32], rank: usize) -> &'a [u32]
    requires { (rank < 256) × (at starts.now rank ≤ at starts.now (rank + 1)) × (at starts.now (rank + 1) ≤ length days.now) }
    ensures { result.now ≡ part days.now (at starts.now rank) (at starts.now (rank + 1)) }
{
    &days[starts[rank]..starts[rank + 1]]
}

// Whether the windows of a rank break the rules.
fn any_misplaced(counts: &[u32], days: &[u32]) -> bool
    requires { Laid counts.now days.now }
    ensures { result ≡ any (misplaced counts.now days.now) (range 0 (length counts.now)) }
{
    let starts = starts_of(counts);
    (0..counts.len()).any(|rank| !good_windows(windows_of(&starts, days, rank)))
}

// Whether 19 refuses the windows.
#[tactic(auto, using(crate::proofs::SeasonLaws::from_all), unfolding(crate::specs::Season::bad_windows))]
fn bad_windows(ranks: u32, counts: &[u32], days: &[u32]) -> bool
    requires { ranks ≤ 256 }
    ensures { result ≡ bad_windows ranks counts.now days.now }
{
    if counts.len() != ranks as usize || any_from(counts, MAX_WINDOWS + 1) {
        return true;
    }
    let end = starts_of(counts)[counts.len()];
    days.len() != end || any_misplaced(counts, days)
}

// Whether 20 refuses: a rank has fewer open days than vertices.
fn too_few_days(owners: &[u32], counts: &[u32], days: &[u32]) -> bool
    requires { Good counts.now days.now }
    ensures { result ≡ too_few_days (length counts.now) owners.now counts.now days.now }
{
    let owned = owned_counts(owners);
    let starts = starts_of(counts);
    (0..counts.len()).any(|rank| count_days(windows_of(&starts, days, rank)) < owned[rank])
}

// The first of 19 and 20.
fn windows_cause(ranks: u32, owners: &[u32], counts: &[u32], days: &[u32]) -> Result<(), Refusal>
    requires { ranks ≤ 256 }
    ensures { number_of result ≡ windows_cause ranks owners.now counts.now days.now }
{
    if bad_windows(ranks, counts, days) {
        return Err(Refusal::InvalidWindows);
    }
    if too_few_days(owners, counts, days) {
        return Err(Refusal::TooFewDays);
    }
    Ok(())
}

// The first of 2, 3, 12, 9, 5, 19, 20, with room for so many days.
fn season_cause(
    ranks: u32,
    owners: &[u32],
    counts: &[u32],
    days: &[u32],
    room: usize,
) -> Result<(), Refusal>
    ensures { number_of result ≡ season_cause ranks owners.now counts.now days.now room }
{
    from_owners(ranks, owners)?;
    if room < owners.len() {
        return Err(Refusal::SliceTooShort);
    }
    windows_cause(ranks, owners, counts, days)
}

// The day of each vertex over the front of visits.
fn write_days(owners: &[u32], counts: &[u32], days: &[u32], visits: &mut [u32])
    requires { Plannable owners.now counts.now days.now (length visits.old) }
    ensures { visits.new ≡ visit_days owners.now counts.now days.now ++ drop (length owners.now) visits.old }
{
    let starts = starts_of(counts);
    let mut met = [0u64; 256];
    for (v, owner) in owners.iter().enumerate() {
        let rank = *owner as usize;
        visits[v] = day_at(windows_of(&starts, days, rank), met[rank]);
        met[rank] += 1;
    }
}

// The day of each vertex is written; or the first of 2, 3, 12, 9, 5, 19, 20 refuses, and nothing is.
// Rules out: the end day of a window taken for open; two vertices of a rank on one day; a day written on a refusal.
pub fn season_days(
    ranks: u32,
    owners: &[u32],
    counts: &[u32],
    days: &[u32],
    visits: &mut [u32],
) -> Result<(), Refusal>
    ensures { SeasonTold ranks owners.now counts.now days.now visits.old visits.new result }
{
    season_cause(ranks, owners, counts, days, visits.len())?;
    write_days(owners, counts, days, visits);
    Ok(())
}
