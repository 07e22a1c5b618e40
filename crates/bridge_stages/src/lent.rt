// A level as it is lent: tested, and laid into the work slice.
ghost use Rattle.std.specs.Prelude.{◌≡◌, ◌^◌, length, leb, IfOk};
ghost use Rattle.links.specs.Lists.{sum};
ghost use Rattle.links.specs.Graph.{vertex_count};
ghost use Rattle.links.specs.Refusals.{number_of};
ghost use Rattle.bridge_stages.specs.Lent.{lent, slices_of, place_of, place_for, need_for, Limited, over_limits, misfit, lent_cause, LevelFits, LevelLaid, Entered};

use links::{Refusal, copy_part, lists_cause, stray_owner, vertex_count};
use stages::HierarchyLevel;

// Document 01's limits.
const MAX_VERTICES: usize = 16384;

const MAX_ENTRIES: usize = 131072;

const MAX_RANKS: u32 = 256;

// Weights that add up to so much are too heavy for the stages.
const TOO_HEAVY: u64 = 2147483648;

// What a caller lends of a level: its lists, a weight and an owner for each vertex, and the number of ranks.
#[derive(Clone, Copy)]
pub struct LentLevel<'a> {
    pub offsets: &'a [u32],
    pub neighbors: &'a [u32],
    pub weights: &'a [u32],
    pub owners: &'a [u32],
    pub ranks: u32,
}

impl<'a> LentLevel<'a> {
    // The level of these slices.
    pub fn new(
        offsets: &'a [u32],
        neighbors: &'a [u32],
        weights: &'a [u32],
        owners: &'a [u32],
        ranks: u32,
    ) -> LentLevel<'a>
        ensures { slices_of result ≡ lent offsets.now neighbors.now weights.now owners.now ranks }
    {
        LentLevel {
            offsets,
            neighbors,
            weights,
            owners,
            ranks,
        }
    }
}

// Where things lie: the level, room for the next, the stages' own room, and that of the candidates' lists.
#[derive(Clone, Copy)]
pub struct Place {
    pub level: HierarchyLevel,
    pub next: HierarchyLevel,
    pub scratch: usize,
    pub lists: usize,
}

fn place_of(s: LentLevel) -> Place
    requires { Limited (vertex_count s.offsets.now) (length s.neighbors.now) s.ranks }
    ensures { result ≡ place_of (slices_of s.entry) }
{
    let n = vertex_count(s.offsets);
    let m = s.neighbors.len();
    let unit = 4 * n + m + 1;
    Place {
        level: HierarchyLevel::at(n, m, 0),
        next: HierarchyLevel::at(n, m, unit),
        scratch: 2 * unit,
        lists: 2 * unit + 3 * n + 6 * s.ranks as usize,
    }
}

// How many work numbers the five stages need, and the level with them.
fn need_for(n: usize, m: usize, k: usize) -> usize
    requires { Limited n m k }
    ensures { result ≡ need_for n m k }
{
    2 * (4 * n + m + 1) + 3 * n + 6 * k + 24 * (k * k)
}

// Whether the weights add up to 2^31 or more.
fn heavy(weights: &[u32]) -> bool
    ensures { result ≡ leb (2 ^ 31) (sum weights.now) }
{
    let mut total: u64 = 0;
    for weight in weights {
        total += u64::from(*weight);
        if total >= TOO_HEAVY {
            return true;
        }
    }
    false
}

// 3: document 01's limits, and the weight that the stages take.
#[tactic(auto, unfolding(crate::specs::Lent::over_limits))]
fn over_limits(s: LentLevel) -> bool
    ensures { result ≡ over_limits (slices_of s.entry) }
{
    vertex_count(s.offsets) > MAX_VERTICES
        || s.neighbors.len() > MAX_ENTRIES
        || s.ranks > MAX_RANKS
        || heavy(s.weights)
}

// 5: not a weight and an owner for each vertex, or too little work.
#[tactic(auto, unfolding(crate::specs::Lent::misfit))]
fn misfits(s: LentLevel, work: usize) -> bool
    requires { Limited (vertex_count s.offsets.now) (length s.neighbors.now) s.ranks }
    ensures { result ≡ misfit (slices_of s.entry) work }
{
    let n = vertex_count(s.offsets);
    s.weights.len() != n
        || s.owners.len() != n
        || work < need_for(n, s.neighbors.len(), s.ranks as usize)
}

// The first of 3, 4, 5, 12.
#[tactic(auto, unfolding(crate::specs::Lent::lent_cause, links::specs::Graph::lists_cause))]
fn lent_cause(s: LentLevel, work: usize) -> Result<(), Refusal>
    ensures { number_of result ≡ lent_cause (slices_of s.entry) work }
{
    if over_limits(s) {
        return Err(Refusal::LimitPassed);
    }
    lists_cause(s.offsets, s.neighbors)?;
    if misfits(s, work) {
        return Err(Refusal::SliceTooShort);
    }
    if stray_owner(s.owners, s.ranks) {
        return Err(Refusal::RankOutOfRange);
    }
    Ok(())
}

// Each list into its part of l.
fn lay_level(work: &mut [u32], l: HierarchyLevel, s: LentLevel)
    requires { LevelFits work.old l s.offsets.now s.neighbors.now s.weights.now s.owners.now }
    ensures { LevelLaid work.old work.new l s.entry.offsets.now s.entry.neighbors.now s.entry.weights.now s.entry.owners.now }
{
    let n = l.vertices;
    copy_part(work, l.offsets, l.offsets + (n + 1), s.offsets);
    copy_part(work, l.neighbors, l.neighbors + l.entries, s.neighbors);
    copy_part(work, l.weights, l.weights + n, s.weights);
    copy_part(work, l.owners, l.owners + n, s.owners);
}

// The level is laid at its place; or the first of 3, 4, 5, 12, and nothing is written.
pub(crate) fn enter(s: LentLevel, work: &mut [u32]) -> Result<Place, Refusal>
    ensures entered { Entered (slices_of s.entry) work.old work.new (number_of result) }
    ensures place { IfOk result (λ p. p ≡ place_of (slices_of s.entry)) }
{
    lent_cause(s, work.len())?;
    let place = place_of(s);
    lay_level(work, place.level, s);
    Ok(place)
}
