// Crane weeks (request P12): the w days from a visit on that have the most visits. The visits are counted between two places of the list, and the
// count is carried along: each step takes one visit in or one out.
ghost use Rattle.std.specs.Prelude.{◌≡◌, true, ◌≤◌, ◌<◌, length, ltb};
ghost use Rattle.links.specs.Lists.{any};
ghost use Rattle.links.specs.Graph.{never_falling};
ghost use Rattle.visits.specs.Crane.{bad_visits, visit_in, visit_out, sweep_step, CraneTold};
ghost use Rattle.visits.specs.CraneCode.{Underway, Swept};

use links::{Refusal, never_falls};

// The last day on which a visit may fall.
const LAST_DAY: u32 = 3660;

// The most visits of a list.
const MAX_VISITS: usize = 16384;

// The most visits in a block, and its first day.
#[derive(Clone, Copy, PartialEq, Eq, Debug)]
pub struct Busiest {
    pub visits: u64,
    pub day: u32,
}

// Two places in the list of visits, how many lie between them, and the most so far with their first day.
#[derive(Clone, Copy, Default)]
pub struct Sweep {
    pub from: usize,
    pub to: usize,
    pub count: u64,
    pub best: u64,
    pub day: u32,
}

impl Sweep {
    // The visit at `to` comes in; the first that is counted is on day `first`.
    #[tactic(auto, unfolding(crate::specs::Crane::visit_in))]
    fn visit_in(mut self, first: u32) -> Sweep
        requires { (self.to < 16384) × (self.count < 16384) }
        ensures { result ≡ visit_in first self }
    {
        self.to += 1;
        self.count += 1;
        if self.best < self.count {
            self.best = self.count;
            self.day = first;
        }
        self
    }

    // The visit at `from` goes out.
    #[tactic(auto, unfolding(crate::specs::Crane::visit_out))]
    fn visit_out(mut self) -> Sweep
        requires { (self.from < 16384) × (1 ≤ self.count) }
        ensures { result ≡ visit_out self }
    {
        self.from += 1;
        self.count -= 1;
        self
    }
}

// A visit out if it is w days or more before the next one, else the next one in.
fn step(days: &[u32], w: u32, s: Sweep) -> Sweep
    requires { Underway w days.now s }
    ensures { result ≡ sweep_step w days.now s }
{
    let first = days[s.from];
    if u64::from(first) + u64::from(w) <= u64::from(days[s.to]) {
        s.visit_out()
    } else {
        s.visit_in(first)
    }
}

// All visits in, one by one. A step moves one of the two places, so that none is gone through as a range.
fn sweep_all(days: &[u32], w: u32) -> Sweep
    requires { (1 ≤ w) × (length days.now ≤ 16384) }
    ensures { Swept w days.now result }
{
    let mut s = Sweep::default();
    while s.to < days.len() {
        s = step(days, w, s);
    }
    s
}

// Whether a day is too late: of days that never fall, whether the last one is.
fn any_late(days: &[u32]) -> bool
    requires { never_falling days.now ≡ true }
    ensures { result ≡ any (ltb 3660) days.now }
{
    days.last().is_some_and(|day| *day > LAST_DAY)
}

// Whether 21 refuses the days or the width of a block.
#[tactic(auto, unfolding(crate::specs::Crane::bad_visits))]
fn bad_visits(days: &[u32], w: u32) -> bool
    ensures { result ≡ bad_visits w days.now }
{
    !(1..=366).contains(&w) || days.len() > MAX_VISITS || !never_falls(days) || any_late(days)
}

// The most visits in w days that begin on a visit day, and the earliest such day; or 21.
// Rules out: the latest of equal days; a block that is one day too long.
pub fn crane_week(days: &[u32], w: u32) -> Result<Busiest, Refusal>
    ensures { CraneTold w days.now result }
{
    if bad_visits(days, w) {
        return Err(Refusal::InvalidVisits);
    }
    let s = sweep_all(days, w);
    Ok(Busiest {
        visits: s.best,
        day: s.day,
    })
}
