// Rule 6: moves.
ghost use Rattle.std.specs.Prelude.{◌≡◌, ◌+◌, ◌*◌, ◌≤◌, ◌<◌, [], ◌∷◌, length, leb};
ghost use Rattle.links.specs.Lists.{at};
ghost use Rattle.links.specs.Parts.{Kept};
ghost use Rattle.links.specs.Graph.{vertices};
ghost use Rattle.links.specs.Owners.{from_owners};
ghost use Rattle.links.specs.Refusals.{number_of};
ghost use Rattle.stages.specs.Level.{offsets_at, neighbors_at, rows_at, weights_at, owners_at, Ready, balance_in};
ghost use Rattle.stages.specs.Moves.{may_leave, target, move_pass};
ghost use Rattle.stages.specs.MovesCode.{Roomed, Clear, Loaded, Tallied, Weighed, Moving, Shifted, Stepped, tempts, tempting, offer_of, rank_offer, outbids, better_offer, best_rank, offered, moves_at, Refinable, RefinedByCut};

use super::level::{HierarchyLevel, Limits};
use links::{Refusal, from_owners};

// What a rank offers a vertex: the gain of the move there, which is above 0; and its load.
#[derive(Clone, Copy)]
pub struct Offer {
    pub gain: u32,
    pub load: u32,
    pub rank: usize,
}

// Where the moves of a level lie in the work slice: the level; from scratch on, the ranks' loads, then their tallies; and what a load is held to.
#[derive(Clone, Copy)]
pub struct MoveRoom {
    pub level: HierarchyLevel,
    pub scratch: usize,
    pub limits: Limits,
}

// Where the row of v starts among the neighbors; the row of v + 1 starts where it ends.
pub fn row_start(work: &[u32], l: HierarchyLevel, v: usize) -> usize
    requires { Ready work.now l (length work.now) × (v ≤ l.vertices) }
    ensures { result ≡ at (offsets_at work.now l) v }
{
    work[l.offsets + v] as usize
}

// The rank that owns v.
pub fn owner_in(work: &[u32], l: HierarchyLevel, v: usize) -> usize
    requires { Ready work.now l (length work.now) × (v < l.vertices) }
    ensures { result ≡ at (owners_at work.now l) v }
{
    work[l.owners + v] as usize
}

// The weight of v.
pub fn weight_in(work: &[u32], l: HierarchyLevel, v: usize) -> u32
    requires { Ready work.now l (length work.now) × (v < l.vertices) }
    ensures { result ≡ at (weights_at work.now l) v }
{
    work[l.weights + v]
}

// The rank that owns the vertex at entry i of the neighbors.
pub fn owner_at(work: &[u32], l: HierarchyLevel, i: usize) -> usize
    requires { Ready work.now l (length work.now) × (i < l.entries) × (at (neighbors_at work.now l) i < l.vertices) }
    ensures { result ≡ at (owners_at work.now l) (at (neighbors_at work.now l) i) }
{
    owner_in(work, l, work[l.neighbors + i] as usize)
}

// Counts v's neighbors by their owners. The tallies are 0 before.
pub fn tally(work: &mut [u32], l: HierarchyLevel, tallies: usize, ranks: usize, v: usize)
    requires { Roomed work.old l tallies ranks × (v < l.vertices) × Clear work.old tallies ranks }
    ensures { Tallied work.new l tallies ranks v × Kept tallies (tallies + ranks) work.new work.old }
{
    for i in row_start(work, l, v)..row_start(work, l, v + 1) {
        let r = owner_at(work, l, i);
        work[tallies + r] += 1;
    }
}

// Sets the tallies of v's neighbors' owners to 0.
// A loop beside tally's, not one with the step as a parameter: it stores 0 and takes nothing off, and what the two ask and promise is each other's opposite.
pub fn untally(work: &mut [u32], l: HierarchyLevel, tallies: usize, ranks: usize, v: usize)
    requires { Roomed work.old l tallies ranks × (v < l.vertices) × Tallied work.old l tallies ranks v }
    ensures { Clear work.new tallies ranks × Kept tallies (tallies + ranks) work.new work.old }
{
    for i in row_start(work, l, v)..row_start(work, l, v + 1) {
        let r = owner_at(work, l, i);
        work[tallies + r] = 0;
    }
}

// Sets n numbers from a on to 0.
pub fn clear(work: &mut [u32], a: usize, n: usize)
    requires { a + n ≤ length work.old }
    ensures { Clear work.new a n × Kept a (a + n) work.new work.old }
{
    work[a..a + n].fill(0);
}

// Sets v's tallies to 0: those of its neighbors' owners, or all, whichever takes fewer stores.
fn clear_tallies(work: &mut [u32], l: HierarchyLevel, tallies: usize, ranks: usize, v: usize)
    requires { Roomed work.old l tallies ranks × (v < l.vertices) × Tallied work.old l tallies ranks v }
    ensures { Clear work.new tallies ranks × Kept tallies (tallies + ranks) work.new work.old }
{
    if ranks < l.degree(work, v) {
        clear(work, tallies, ranks);
    } else {
        untally(work, l, tallies, ranks, v);
    }
}

// Adds up the ranks' loads. They are 0 before.
pub fn weigh(work: &mut [u32], l: HierarchyLevel, loads: usize, ranks: usize)
    requires { Roomed work.old l loads ranks × Clear work.old loads ranks }
    ensures { Loaded work.new l loads ranks × Kept loads (loads + ranks) work.new work.old }
{
    for v in 0..l.vertices {
        let r = owner_in(work, l, v);
        work[loads + r] += weight_in(work, l, v);
    }
}

// Whether a rank other than a vertex's own has room for its weight.
#[tactic(auto, unfolding(crate::specs::MovesCode::tempts))]
fn tempts(cap: u64, weight: u32, load: u32, home: usize, rank: usize) -> bool
    ensures { result ≡ tempts cap weight load home rank }
{
    rank != home && u64::from(load) + u64::from(weight) <= cap
}

// Whether v has a neighbor of another rank that has room for it. If not, it has no target, and nothing need be counted.
fn tempted(work: &[u32], s: MoveRoom, v: usize) -> bool
    requires { Weighed work.now s.level s.scratch s.limits.ranks × (v < s.level.vertices) }
    ensures { result ≡ tempting (balance_in s.limits) (rows_at work.now s.level) (weights_at work.now s.level)
        (owners_at work.now s.level) v }
{
    let weight = weight_in(work, s.level, v);
    let home = owner_in(work, s.level, v);
    let owners = &work[s.level.owners..s.level.owners + s.level.vertices];
    let loads = &work[s.scratch..s.scratch + s.limits.ranks];
    for u in s.level.row(work, v) {
        let r = owners[*u as usize] as usize;
        if tempts(s.limits.cap, weight, loads[r], home, r) {
            return true;
        }
    }
    false
}

// What a rank offers: a move there gains its neighbors there less those at home. It offers nothing unless there are more of them and its load
// has room for the weight.
#[tactic(auto, unfolding(crate::specs::MovesCode::offer_of))]
fn offer_of(cap: u64, weight: u32, load: u32, there: u32, home: u32, rank: usize) -> Option<Offer>
    ensures { result ≡ offer_of cap weight load there home rank }
{
    if home < there && u64::from(load) + u64::from(weight) <= cap {
        let gain = there - home;
        Some(Offer { gain, load, rank })
    } else {
        None
    }
}

// What a rank offers by its load from scratch on and the tally behind the loads.
fn offer_at(work: &[u32], s: MoveRoom, weight: u32, home: u32, rank: usize) -> Option<Offer>
    requires { (s.scratch + 2 * s.limits.ranks ≤ length work.now) × (rank < s.limits.ranks) }
    ensures { result ≡ rank_offer work.now s.scratch s.limits weight home rank }
{
    let tallies = s.scratch + s.limits.ranks;
    offer_of(
        s.limits.cap,
        weight,
        work[s.scratch + rank],
        work[tallies + rank],
        home,
        rank,
    )
}

// Whether x goes before y: greatest gain, then smaller load, then lower rank.
fn outbids(x: Offer, y: Offer) -> bool
    ensures { result ≡ outbids x y }
{
    (y.gain, x.load, x.rank) < (x.gain, y.load, y.rank)
}

// The better of two offers, the first one held so far.
#[tactic(auto, unfolding(crate::specs::MovesCode::better_offer))]
fn better(x: Option<Offer>, y: Option<Offer>) -> Option<Offer>
    ensures { result ≡ better_offer x y }
{
    match (x, y) {
        (Some(held), Some(offer)) => Some(if outbids(offer, held) { offer } else { held }),
        _ => x.or(y),
    }
}

// The best of what all ranks offer a vertex, by their loads from scratch on and its tallies behind them.
fn best_of_ranks(work: &[u32], s: MoveRoom, weight: u32, home: u32) -> Option<Offer>
    requires { s.scratch + 2 * s.limits.ranks ≤ length work.now }
    ensures { result ≡ best_rank work.now s.scratch s.limits weight home s.limits.ranks }
{
    let mut best = None;
    for r in 0..s.limits.ranks {
        best = better(best, offer_at(work, s, weight, home, r));
    }
    best
}

// The best of what the owners of v's neighbors offer it.
fn best_of_neighbors(work: &[u32], s: MoveRoom, v: usize) -> Option<Offer>
    requires { Weighed work.now s.level s.scratch s.limits.ranks × (v < s.level.vertices)
        × Tallied work.now s.level (s.scratch + s.limits.ranks) s.limits.ranks v }
    ensures { offered result
        ≡ target (balance_in s.limits) (rows_at work.now s.level) (weights_at work.now s.level) (owners_at work.now s.level) v }
{
    let tallies = s.scratch + s.limits.ranks;
    let weight = weight_in(work, s.level, v);
    let mine = owner_in(work, s.level, v);
    let home = work[tallies + mine];
    let mut best = None;
    for u in s.level.row(work, v) {
        let r = owner_in(work, s.level, *u as usize);
        best = better(best, offer_at(work, s, weight, home, r));
    }
    best
}

// The best offer for v, found along its row or along the ranks, whichever is shorter.
fn best_offer(work: &[u32], s: MoveRoom, v: usize) -> Option<Offer>
    requires { Weighed work.now s.level s.scratch s.limits.ranks × (v < s.level.vertices)
        × Tallied work.now s.level (s.scratch + s.limits.ranks) s.limits.ranks v }
    ensures { offered result
        ≡ target (balance_in s.limits) (rows_at work.now s.level) (weights_at work.now s.level) (owners_at work.now s.level) v }
{
    if s.limits.ranks < s.level.degree(work, v) {
        let tallies = s.scratch + s.limits.ranks;
        let weight = weight_in(work, s.level, v);
        let mine = owner_in(work, s.level, v);
        let home = work[tallies + mine];
        return best_of_ranks(work, s, weight, home);
    }
    best_of_neighbors(work, s, v)
}

// Whether a load less a weight is at least the floor.
fn keeps_floor(floor: u64, load: u32, weight: u32) -> bool
    requires { weight ≤ load }
    ensures { result ≡ leb (floor + weight) load }
{
    floor <= u64::from(load - weight)
}

// Whether v may leave its rank.
#[tactic(auto, unfolding(crate::specs::Moves::may_leave))]
fn may_leave(work: &[u32], s: MoveRoom, v: usize) -> bool
    requires { Weighed work.now s.level s.scratch s.limits.ranks × (v < s.level.vertices) }
    ensures { result ≡ may_leave (balance_in s.limits) (rows_at work.now s.level) (weights_at work.now s.level)
        (owners_at work.now s.level) v }
{
    let home = owner_in(work, s.level, v);
    let weight = weight_in(work, s.level, v);
    keeps_floor(s.limits.floor, work[s.scratch + home], weight)
}

// The offer that v takes, if any. The tallies are 0 before and after.
fn choose(work: &mut [u32], s: MoveRoom, v: usize) -> Option<Offer>
    requires { Moving work.old s.level s.scratch s.limits.ranks × (v < s.level.vertices) }
    ensures { (offered result
        ≡ target (balance_in s.limits) (rows_at work.old s.level) (weights_at work.old s.level) (owners_at work.old s.level) v)
        × (work.new ≡ work.old) }
{
    if !tempted(work, s, v) {
        return None;
    }
    let tallies = s.scratch + s.limits.ranks;
    tally(work, s.level, tallies, s.limits.ranks, v);
    let best = best_offer(work, s, v);
    clear_tallies(work, s.level, tallies, s.limits.ranks, v);
    best
}

// v goes over to a rank.
fn shift(work: &mut [u32], s: MoveRoom, v: usize, rank: usize)
    requires { Weighed work.old s.level s.scratch s.limits.ranks × (v < s.level.vertices) × (rank < s.limits.ranks) }
    ensures { Shifted work.old work.new s.level s.scratch s.limits.ranks v rank }
{
    let home = owner_in(work, s.level, v);
    let weight = weight_in(work, s.level, v);
    work[s.scratch + home] -= weight;
    work[s.scratch + rank] += weight;
    work[s.level.owners + v] = rank as u32;
}

// v's turn: the number of moves, 1 or 0, which a pass adds up.
fn visit(work: &mut [u32], s: MoveRoom, v: usize) -> u64
    requires { Moving work.old s.level s.scratch s.limits.ranks × (v < s.level.vertices) }
    ensures { Stepped work.old work.new s.level s.scratch s.limits.ranks
        (move_pass (balance_in s.limits) (rows_at work.old s.level) (weights_at work.old s.level) (v ∷ [])
        (owners_at work.old s.level)) result }
{
    if !may_leave(work, s, v) {
        return 0;
    }
    match choose(work, s, v) {
        Some(best) => {
            shift(work, s, v, best.rank);
            1
        }
        None => 0,
    }
}

// A pass over all vertices by number: the number of moves.
fn pass(work: &mut [u32], s: MoveRoom) -> u64
    requires { Moving work.old s.level s.scratch s.limits.ranks }
    ensures { Stepped work.old work.new s.level s.scratch s.limits.ranks
        (move_pass (balance_in s.limits) (rows_at work.old s.level) (weights_at work.old s.level) (vertices (rows_at work.old s.level))
        (owners_at work.old s.level)) result }
{
    let mut moved = 0;
    for v in 0..s.level.vertices {
        moved += visit(work, s, v);
    }
    moved
}

// Up to so many passes, ending after one without a move: the number of moves.
fn all_passes(work: &mut [u32], s: MoveRoom, passes: u64) -> u64
    requires { Moving work.old s.level s.scratch s.limits.ranks }
    ensures { Stepped work.old work.new s.level s.scratch s.limits.ranks
        (moves_at work.old s.level s.limits passes) result }
{
    let mut total = 0;
    for _ in 0..passes {
        let moved = pass(work, s);
        if moved == 0 {
            break;
        }
        total += moved;
    }
    total
}

// The check of a level's owners.
fn check_owners(work: &[u32], l: HierarchyLevel, ranks: usize) -> Result<(), Refusal>
    requires { Ready work.now l (length work.now) × (ranks ≤ 256) }
    ensures { number_of result ≡ from_owners ranks (owners_at work.now l) }
{
    from_owners(ranks as u32, &work[l.owners..l.owners + l.vertices])
}

// Rule 6: moves on a level's owners, and their number; or why the check refuses the owners after them. It uses two numbers for each rank from scratch on.
// Rules out: a move that is not made, or not there; a move to the heavier of two ranks with the same gain; a move that leaves a load below the
// floor or takes one above the cap; a pass after one without a move; a check that is left out.
pub fn refine_by_cut(
    work: &mut [u32],
    l: HierarchyLevel,
    scratch: usize,
    limits: Limits,
    passes: u64,
) -> Result<u64, Refusal>
    requires { Refinable work.old l scratch limits.ranks }
    ensures { RefinedByCut work.old work.new l scratch limits passes result }
{
    let s = MoveRoom {
        level: l,
        scratch,
        limits,
    };
    clear(work, scratch, 2 * limits.ranks);
    weigh(work, l, scratch, limits.ranks);
    let moves = all_passes(work, s, passes);
    check_owners(work, l, limits.ranks)?;
    Ok(moves)
}
