// Rule 5: growth. A rank's frontier is a chain of the groups that it claimed, with a place in the first one's row.
ghost use Rattle.std.specs.Prelude.{◌≡◌, true, ◌+◌, ◌-◌, ◌*◌, ◌≤◌, ◌<◌, ◌^◌, length, eqb, MatchOption};
ghost use Rattle.std.proofs.Math.Option.{none, some};
ghost use Rattle.links.specs.Lists.{at, unassigned, All};
ghost use Rattle.links.specs.Graph.{row, degree, rows_of, vertex_count, load, SoundLists};
ghost use Rattle.stages.specs.Level.{weights_at, owners_at};
ghost use Rattle.stages.specs.FrontierCode.{opens, stops_at, Onward, Chain, Sought, FirstOpen, candidate_at, Lent, rows_in, weights_in, order_in, memory_in, vacant_in, GrowthLaid, parked, owning, begun, appended, GrowthReady, Stored};
ghost use Rattle.stages.specs.GrowthCode.{open_in, open_now, SoughtIn, restart_in, Behind, Advanced, Claimed, TurnMade, Rounded, GrownTo, Sown, Blank, Cleared, Seated, Multisource, too_heavy, room_at, Growable, GrownTold};

use super::level::{HierarchyLevel, UNASSIGNED};
use super::order::order_by_degree;
use super::seeds::farthest_seeds;
use links::Refusal;

// How many neighbors v has, in lists cut from the slice, where no level is at hand.
fn degree_of(offsets: &[u32], neighbors: &[u32], v: u32) -> u32
    requires { SoundLists offsets.now neighbors.now × (v < vertex_count offsets.now) }
    ensures { result ≡ degree (rows_of offsets.now neighbors.now) v }
{
    let i = v as usize;
    offsets[i + 1] - offsets[i]
}

// Neighbor i of v.
fn neighbor(offsets: &[u32], neighbors: &[u32], v: u32, i: u32) -> u32
    requires { SoundLists offsets.now neighbors.now × (v < vertex_count offsets.now) × (i < degree (rows_of offsets.now neighbors.now) v) }
    ensures { result ≡ at (row (rows_of offsets.now neighbors.now) v) i }
{
    let start = offsets[v as usize] as usize;
    neighbors[start + i as usize]
}

// A place in a chain: an entry, a place in its row, and how many entries there are from this one on.
#[derive(Clone, Copy)]
pub struct Cursor {
    pub head: u32,
    pub place: u32,
    pub count: u32,
}

// One candidate on, or one entry on.
fn onward(offsets: &[u32], neighbors: &[u32], links: &[u32], here: Cursor) -> Cursor
    requires { SoundLists offsets.now neighbors.now × (length links.now ≡ vertex_count offsets.now) × (here.head < vertex_count offsets.now) × (0 < here.count) }
    ensures { Onward (rows_of offsets.now neighbors.now) links.now here.head here.place here.count result.head result.place result.count }
{
    if here.place < degree_of(offsets, neighbors, here.head) {
        Cursor {
            place: here.place + 1,
            ..here
        }
    } else {
        Cursor {
            head: links[here.head as usize],
            place: 0,
            count: here.count - 1,
        }
    }
}

// A rank that looks for a group to claim: the groups' weights and owners, the rank's load, and the cap.
#[derive(Clone, Copy)]
pub struct Claimant<'a> {
    pub weights: &'a [u32],
    pub owners: &'a [u32],
    pub load: u32,
    pub cap: u64,
}

impl<'a> Claimant<'a> {
    // Is g unowned, and does it fit the rank?
    #[tactic(auto, unfolding(crate::specs::FrontierCode::opens))]
    fn is_open(self, g: u32) -> bool
        requires { (g < length self.weights.now) × (g < length self.owners.now) }
        ensures { result ≡ opens self.entry.cap self.entry.weights.now self.entry.owners.now self.entry.load g }
    {
        let i = g as usize;
        self.owners[i] == UNASSIGNED
            && u64::from(self.load) + u64::from(self.weights[i]) <= self.cap
    }

    // Does a search stop here, at the chain's end or at a candidate that is open?
    #[tactic(auto, using(links::proofs::RowLaws::row_below), unfolding(crate::specs::FrontierCode::stops_at))]
    fn stops(self, offsets: &[u32], neighbors: &[u32], here: Cursor) -> bool
        requires { Lent offsets.now neighbors.now self.weights.now self.owners.now × (0 < here.count → here.head < vertex_count offsets.now) }
        ensures { result ≡ stops_at (rows_of offsets.now neighbors.now) (opens self.entry.cap self.entry.weights.now self.entry.owners.now self.entry.load) here.head here.place here.count }
    {
        here.count == 0
            || here.place < degree_of(offsets, neighbors, here.head)
                && self.is_open(neighbor(offsets, neighbors, here.head, here.place))
    }

    // From a place in a chain to the first candidate that is open, or to the chain's end.
    fn seek(self, offsets: &[u32], neighbors: &[u32], links: &[u32], from: Cursor) -> Cursor
        requires { Lent offsets.now neighbors.now self.weights.now self.owners.now × (length links.now ≡ vertex_count offsets.now)
            × Chain (rows_of offsets.now neighbors.now) links.now (vertex_count offsets.now) from.head from.place from.count }
        ensures { Sought (rows_of offsets.now neighbors.now) links.now (opens self.entry.cap self.entry.weights.now self.entry.owners.now self.entry.load)
            (vertex_count offsets.now) from.head from.place from.count result.head result.place result.count }
    {
        let mut here = from;
        while !self.stops(offsets, neighbors, here) {
            here = onward(offsets, neighbors, links, here);
        }
        here
    }

    // The place of the first group of the order, at or after `from`, that is open; the order's end where none is.
    fn first_open(self, order: &[u32], from: usize) -> usize
        requires { All (λ g. (g < length self.weights.now) × (g < length self.owners.now)) order.now × (from ≤ length order.now) }
        ensures { FirstOpen (opens self.entry.cap self.entry.weights.now self.entry.owners.now self.entry.load) order.now from result }
    {
        for p in from..order.len() {
            if self.is_open(order[p]) {
                return p;
            }
        }
        order.len()
    }
}

// Where a growth lies in the work slice: the level; its order by degree; the ranks' seeds; a link of a chain for each group; then, for each rank, its load, and its
// chain's head, tail, place in the head's row, and number of entries.
#[derive(Clone, Copy)]
pub struct GrowthRoom {
    pub level: HierarchyLevel,
    pub ranks: usize,
    pub order: usize,
    pub seeds: usize,
    pub links: usize,
    pub loads: usize,
    pub heads: usize,
    pub tails: usize,
    pub places: usize,
    pub counts: usize,
}

// Rank r's frontier goes on from c.
fn park(work: &mut [u32], room: GrowthRoom, r: usize, c: Cursor)
    requires { GrowthLaid room (length work.old) × (r < room.ranks) }
    ensures { Stored room work.old work.new (parked (memory_in room work.old) r c.head c.place c.count) }
{
    work[room.heads + r] = c.head;
    work[room.places + r] = c.place;
    work[room.counts + r] = c.count;
}

// Rank r owns group g.
fn own(work: &mut [u32], room: GrowthRoom, r: usize, g: u32)
    requires { GrowthLaid room (length work.old) × (r < room.ranks) × (g < room.level.vertices) × (at (memory_in room work.old).loads r + at (weights_in room work.old) g < 2 ^ 32) }
    ensures { Stored room work.old work.new (owning (memory_in room work.old) r g (at (weights_in room work.old) g)) }
{
    let i = g as usize;
    let load = work[room.loads + r] + work[room.level.weights + i];
    work[room.level.owners + i] = r as u32;
    work[room.loads + r] = load;
}

// g is the first entry of rank r's chain.
fn begin(work: &mut [u32], room: GrowthRoom, r: usize, g: u32)
    requires { GrowthLaid room (length work.old) × (r < room.ranks) }
    ensures { Stored room work.old work.new (begun (memory_in room work.old) r g) }
{
    work[room.heads + r] = g;
    work[room.tails + r] = g;
    work[room.places + r] = 0;
    work[room.counts + r] = 1;
}

// g goes after the last entry of rank r's chain.
fn append(work: &mut [u32], room: GrowthRoom, r: usize, g: u32)
    requires { GrowthLaid room (length work.old) × (r < room.ranks) × (at (memory_in room work.old).counts r < unassigned) × (at (memory_in room work.old).tails r < room.level.vertices) }
    ensures { Stored room work.old work.new (appended (memory_in room work.old) r g) }
{
    let tail = work[room.tails + r] as usize;
    let count = work[room.counts + r] + 1;
    work[room.links + tail] = g;
    work[room.tails + r] = g;
    work[room.counts + r] = count;
}

// Rank r, with the groups as they are now.
fn claimant_at<'a>(w: &'a [u32], room: GrowthRoom, cap: u64, r: usize) -> Claimant<'a>
    requires { GrowthLaid room (length w.now) × (r < room.ranks) }
    ensures weights { result.weights.now ≡ weights_at w.now room.level }
    ensures owners { result.owners.now ≡ owners_at w.now room.level }
    ensures load { result.load ≡ at w.now (room.loads + r) }
    ensures cap { result.cap ≡ cap }
{
    let l = room.level;
    Claimant {
        weights: &w[l.weights..l.weights + l.vertices],
        owners: &w[l.owners..l.owners + l.vertices],
        load: w[room.loads + r],
        cap,
    }
}

// The place of rank r's first open candidate in its chain.
fn sought(w: &[u32], room: GrowthRoom, cap: u64, r: usize) -> Cursor
    requires { GrowthReady room w.now × (r < room.ranks) }
    ensures { SoughtIn cap room w.now r result.head result.place result.count }
{
    let l = room.level;
    let n = l.vertices;
    let from = Cursor {
        head: w[room.heads + r],
        place: w[room.places + r],
        count: w[room.counts + r],
    };
    claimant_at(w, room, cap, r).seek(
        &w[l.offsets..l.offsets + (n + 1)],
        &w[l.neighbors..l.neighbors + l.entries],
        &w[room.links..room.links + n],
        from,
    )
}

// The candidate where the search stopped, none at the chain's end.
fn found(w: &[u32], room: GrowthRoom, here: Cursor) -> Option<u32>
    requires { GrowthReady room w.now × (0 < here.count → (here.head < room.level.vertices) × (here.place < degree (rows_in room w.now) here.head)) }
    ensures { result ≡ candidate_at (rows_in room w.now) here.head here.place here.count }
{
    if here.count == 0 {
        return None;
    }
    let l = room.level;
    let offsets = &w[l.offsets..l.offsets + (l.vertices + 1)];
    let neighbors = &w[l.neighbors..l.neighbors + l.entries];
    Some(neighbor(offsets, neighbors, here.head, here.place))
}

// The place in the order, at or after `from`, of the first group that is open to rank r; the order's end where none is.
fn open_from(w: &[u32], room: GrowthRoom, cap: u64, r: usize, from: usize) -> usize
    requires { GrowthReady room w.now × (r < room.ranks) × (from ≤ room.level.vertices) }
    ensures { FirstOpen (open_now cap room w.now r) (order_in room w.now) from result }
{
    let order = &w[room.order..room.order + room.level.vertices];
    claimant_at(w, room, cap, r).first_open(order, from)
}

// The group that rank r would restart from. The search begins at the rank's cursor in the order, and takes it along.
fn restart_for(
    w: &[u32],
    room: GrowthRoom,
    cap: u64,
    cursors: &mut [u32; 256],
    r: usize,
) -> Option<u32>
    requires { GrowthReady room w.now × (r < room.ranks) × Behind cap room w.now cursors.old }
    ensures { MatchOption result (restart_in cap room w.now r ≡ none) (λ g. restart_in cap room w.now r ≡ some g) × Behind cap room w.now cursors.new }
{
    let p = open_from(w, room, cap, r, cursors[r] as usize);
    cursors[r] = p as u32;
    if p < room.level.vertices {
        Some(w[room.order + p])
    } else {
        None
    }
}

// Rank r's frontier is brought to its first open candidate: that candidate, if there is one.
fn advance(work: &mut [u32], room: GrowthRoom, cap: u64, r: usize) -> Option<u32>
    requires { GrowthReady room work.old × (r < room.ranks) }
    ensures { Advanced room cap work.old work.new r result }
{
    let here = sought(work, room, cap, r);
    let g = found(work, room, here);
    park(work, room, r, here);
    g
}

// Rank r claims group g.
fn claim(work: &mut [u32], room: GrowthRoom, cap: u64, r: usize, g: u32)
    requires { GrowthReady room work.old × (r < room.ranks) × (open_in cap room work.old work.old r g ≡ true) }
    ensures { Claimed room work.old work.new r g }
{
    own(work, room, r, g);
    if work[room.counts + r] == 0 {
        begin(work, room, r, g);
    } else {
        append(work, room, r, g);
    }
}

// What a rank does at its turn: nothing, or it claims a group of its frontier, or another.
#[derive(Clone, Copy)]
enum TurnKind {
    Pass,
    Claim,
    Restart,
}

// A rank's turn.
fn turn(
    work: &mut [u32],
    room: GrowthRoom,
    cap: u64,
    cursors: &mut [u32; 256],
    r: usize,
) -> TurnKind
    requires { GrowthReady room work.old × (r < room.ranks) × Behind cap room work.old cursors.old }
    ensures { TurnMade room cap work.old work.new r result × Behind cap room work.new cursors.new }
{
    if let Some(g) = advance(work, room, cap, r) {
        claim(work, room, cap, r, g);
        return TurnKind::Claim;
    }
    if let Some(g) = restart_for(work, room, cap, cursors, r) {
        claim(work, room, cap, r, g);
        return TurnKind::Restart;
    }
    TurnKind::Pass
}

// What a round did.
#[derive(Clone, Copy)]
pub struct Tally {
    pub claims: u64,
    pub restarts: u64,
}

// The ranks take their turns.
fn round(work: &mut [u32], room: GrowthRoom, cap: u64, cursors: &mut [u32; 256]) -> Tally
    requires { GrowthReady room work.old × Behind cap room work.old cursors.old }
    ensures { Rounded room cap work.old work.new room.ranks result.claims result.restarts
        × Behind cap room work.new cursors.new }
{
    let mut claims: u64 = 0;
    let mut restarts: u64 = 0;
    for r in 0..room.ranks {
        match turn(work, room, cap, cursors, r) {
            TurnKind::Pass => {}
            TurnKind::Claim => claims += 1,
            TurnKind::Restart => {
                claims += 1;
                restarts += 1;
            }
        }
    }
    Tally { claims, restarts }
}

// How many groups nobody owns.
fn vacant_in(w: &[u32], room: GrowthRoom) -> u64
    requires { GrowthLaid room (length w.now) }
    ensures { result ≡ vacant_in (memory_in room w.now).owners }
{
    let l = room.level;
    let owners = &w[l.owners..l.owners + l.vertices];
    owners.iter().filter(|x| **x == UNASSIGNED).count() as u64
}

// Whether a round left as many groups as there were: it had no claim.
fn is_idle(before: u64, left: u64) -> bool
    ensures { result ≡ eqb left before }
{
    left == before
}

// Rounds until every group is owned; stuck where one passes without a claim.
fn grow(work: &mut [u32], room: GrowthRoom, cap: u64) -> Result<u64, Refusal>
    requires { GrowthReady room work.old }
    ensures { GrownTo room cap work.old work.new result }
{
    let mut cursors = [0u32; 256];
    let mut left = vacant_in(work, room);
    let mut restarts: u64 = 0;
    while 0 < left {
        let t = round(work, room, cap, &mut cursors);
        let rest = left - t.claims;
        if is_idle(left, rest) {
            return Err(Refusal::GrowthStuck);
        }
        restarts += t.restarts;
        left = rest;
    }
    Ok(restarts)
}

// Nobody owns a group, and the chains are empty.
fn clear(work: &mut [u32], room: GrowthRoom)
    requires { Sown room work.old }
    ensures { Cleared room work.old work.new }
{
    let l = room.level;
    let k = room.ranks;
    work[l.owners..l.owners + l.vertices].fill(UNASSIGNED);
    work[room.loads..room.loads + k].fill(0);
    work[room.counts..room.counts + k].fill(0);
}

// Rank r owns its seed, and the seed is its chain.
fn seat(work: &mut [u32], room: GrowthRoom, r: usize, g: u32)
    requires { GrowthLaid room (length work.old) × (r < room.ranks) × (g < room.level.vertices) × (at (memory_in room work.old).loads r ≡ 0) }
    ensures { Stored room work.old work.new (begun (owning (memory_in room work.old) r g (at (weights_in room work.old) g)) r g) }
{
    own(work, room, r, g);
    begin(work, room, r, g);
}

// Every rank owns its seed; the last rank comes first, as in the definition.
fn seat_all(work: &mut [u32], room: GrowthRoom)
    requires { Blank room work.old }
    ensures { Seated room work.old work.new 0 }
{
    for r in (0..room.ranks).rev() {
        let g = work[room.seeds + r];
        seat(work, room, r, g);
    }
}

// Growth from its seeds.
fn multisource(work: &mut [u32], room: GrowthRoom, cap: u64) -> Result<u64, Refusal>
    requires { Sown room work.old }
    ensures { Multisource room cap work.old work.new result }
{
    clear(work, room);
    seat_all(work, room);
    grow(work, room, cap)
}

// Is a weight above the cap?
fn heavy_in(w: &[u32], l: HierarchyLevel, cap: u64) -> bool
    requires { l.weights + l.vertices ≤ length w.now }
    ensures { result ≡ too_heavy cap (weights_at w.now l) }
{
    let weights = &w[l.weights..l.weights + l.vertices];
    weights.iter().any(|x| cap < u64::from(*x))
}

// Where a growth lies from `scratch` on.
fn room_at(l: HierarchyLevel, scratch: usize, ranks: usize) -> GrowthRoom
    requires { scratch + 3 * l.vertices + 5 * ranks < 2 ^ 64 }
    ensures { result ≡ room_at l scratch ranks }
{
    let n = l.vertices;
    let chains = scratch + 3 * n;
    GrowthRoom {
        level: l,
        ranks,
        order: scratch,
        seeds: scratch + 2 * n,
        links: scratch + 2 * n + ranks,
        loads: chains + ranks,
        heads: chains + 2 * ranks,
        tails: chains + 3 * ranks,
        places: chains + 4 * ranks,
        counts: chains + 5 * ranks,
    }
}

// Rule 5: the ranks grow from rule 4's seeds: the restarts. Refused in this order: a group weight above the cap, fewer groups than ranks, a round without
// a claim.
// Rules out: a restart while a group of the frontier fits; a refusal before a claim was tried; a claim beyond the cap.
pub fn weighted_multisource_partition(
    work: &mut [u32],
    l: HierarchyLevel,
    scratch: usize,
    ranks: usize,
    cap: u64,
) -> Result<u64, Refusal>
    requires { Growable work.old l scratch ranks }
    ensures { GrownTold work.old work.new l scratch ranks cap result }
{
    if heavy_in(work, l, cap) {
        return Err(Refusal::GroupAboveCap);
    }
    if l.vertices < ranks {
        return Err(Refusal::FewerGroupsThanRanks);
    }
    farthest_seeds(work, l, scratch, ranks);
    order_by_degree(work, l, scratch);
    multisource(work, room_at(l, scratch, ranks), cap)
}
