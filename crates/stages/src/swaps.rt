// Rule 7: swaps on the finest level, over one lent work slice.
ghost use Rattle.std.specs.Prelude.{◌≡◌, List, [], ◌∷◌, ℕ, ◌+◌, ◌-◌, ◌*◌, ◌≤◌, ◌<◌, ◌^◌, length};
ghost use Rattle.links.specs.Lists.{at, All, foldl};
ghost use Rattle.links.specs.Parts.{part};
ghost use Rattle.links.specs.Graph.{row, links_in, links_to, load};
ghost use Rattle.stages.specs.Level.{offsets_at, neighbors_at, rows_at, weights_at, owners_at, balance_in};
ghost use Rattle.stages.specs.Moves.{linked, gain, swap};
ghost use Rattle.stages.specs.Swaps.{applies, proposals, all_proposals};
ghost use Rattle.stages.specs.Keys.{filled, Falling};
ghost use Rattle.stages.specs.Slots.{proposal, slots};
ghost use Rattle.stages.specs.MovesCode.{Clear, Tallied};
ghost use Rattle.stages.specs.SwapsCode.{list_place, fair_trade, Given, AllSorted, FewTallied, bordering, Offered, OfferedEntry, Offering, Listed, Empty, ListedAll, Standing, Marked, Within, Named, proposed, changed, traded, Tradable, Swapped, Holding, Facing, Taken, rank_proposals, pass_from, Stepped, swapping_in, swaps_at, Swappable, RefinedBySwaps};

use crate::keys::{gain_of, key_of, offer, vertex_of};
use crate::level::{HierarchyLevel, Limits};
use crate::moves::{clear, owner_at, owner_in, row_start, tally, weigh, weight_in};
use crate::slots::add;
use links::holds;

// What the gains of two candidates that gain nothing add up to.
const NO_GAIN: u32 = 32768;

// The gain, reckoned from present owners, of a swap that is not made.
const NO_SWAP_GAIN: u32 = 0;

// What the swaps work on: the level and the limits; a used flag for each vertex; a load and a tally for each rank; for each ordered
// rank pair a list of so many candidates, in 12 numbers.
#[derive(Clone, Copy)]
pub struct SwapRoom {
    pub level: HierarchyLevel,
    pub limits: Limits,
    pub used: usize,
    pub loads: usize,
    pub tallies: usize,
    pub lists: usize,
    pub list_length: usize,
}

// What the swaps go by: how many candidates a list has, and the most passes.
#[derive(Clone, Copy)]
pub struct Swapping {
    pub list_length: usize,
    pub passes: u64,
}

// ---- links

// 1 where u and v are linked.
fn linked(w: &[u32], s: SwapRoom, u: usize, v: usize) -> u32
    requires { Given w.now s × (u < s.level.vertices) }
    ensures { (result ≤ 1) × (result ≡ linked (rows_at w.now s.level) u v) }
{
    u32::from(holds(s.level.row(w, u), v))
}

// ---- candidates

// Where the list of ranks a and b begins.
fn list_at(s: SwapRoom, a: usize, b: usize) -> usize
    requires { (a < s.limits.ranks) × (b < s.limits.ranks) × (s.lists + 12 * (s.limits.ranks * s.limits.ranks) < 2 ^ 64) }
    ensures { (result ≡ list_place s a b) × (result + 12 ≤ s.lists + 12 * (s.limits.ranks * s.limits.ranks)) }
{
    s.lists + 12 * (a * s.limits.ranks + b)
}

// A candidate is offered to the list of n that begins at a.
fn offer_part(work: &mut [u32], a: usize, n: usize, x: u32)
    requires { (a + n ≤ length work.old) × (0 < n) × (0 < x) × Falling (part work.old a (a + n)) }
    ensures { Offered work.old work.new a n x }
{
    offer(&mut work[a..a + n], x);
}

// v, of rank a, is offered to the owner of the neighbor at entry i, once: its tally is then 0.
fn offer_entry(work: &mut [u32], s: SwapRoom, a: usize, v: u32, i: usize)
    requires { Given work.old s × (a < s.limits.ranks) × (i < s.level.entries) × (at (neighbors_at work.old s.level) i < s.level.vertices)
        × AllSorted work.old s × FewTallied work.old s × (v < s.level.vertices) }
    ensures { OfferedEntry work.old work.new s a v i }
{
    let b = owner_at(work, s.level, i);
    if b == a {
        return;
    }
    let there = work[s.tallies + b];
    if there == 0 {
        return;
    }
    let home = work[s.tallies + a];
    work[s.tallies + b] = 0;
    offer_part(
        work,
        list_at(s, a, b),
        s.list_length,
        key_of(there, home, v),
    );
}

// v, of rank a, is offered to each other rank among its neighbors' owners.
fn offer_row(work: &mut [u32], s: SwapRoom, a: usize, v: usize)
    requires { Given work.old s × (v < s.level.vertices) × (a ≡ at (owners_at work.old s.level) v)
        × Tallied work.old s.level s.tallies s.limits.ranks v × AllSorted work.old s }
    ensures { Offering work.old work.new s a v (at (offsets_at work.old s.level) (v + 1))
        (at (offsets_at work.old s.level) (v + 1)) × AllSorted work.new s }
{
    for i in row_start(work, s.level, v)..row_start(work, s.level, v + 1) {
        offer_entry(work, s, a, v as u32, i);
    }
}

// v is listed as a candidate by its tallies, which are 0 before and after.
fn list_counted(work: &mut [u32], s: SwapRoom, v: usize)
    requires { Given work.old s × (v < s.level.vertices) × Clear work.old s.tallies s.limits.ranks × AllSorted work.old s }
    ensures { Listed work.old work.new s v }
{
    let a = owner_in(work, s.level, v);
    tally(work, s.level, s.tallies, s.limits.ranks, v);
    offer_row(work, s, a, v);
    work[s.tallies + a] = 0;
}

// Whether v has a neighbor of another rank.
fn borders(w: &[u32], s: SwapRoom, v: usize) -> bool
    requires { Given w.now s × (v < s.level.vertices) }
    ensures { result ≡ bordering (rows_at w.now s.level) (owners_at w.now s.level) v }
{
    let home = owner_in(w, s.level, v);
    s.level
        .row(w, v)
        .iter()
        .any(|u| owner_in(w, s.level, *u as usize) != home)
}

// v is listed as a candidate, which only a vertex on a border can be.
fn list_vertex(work: &mut [u32], s: SwapRoom, v: usize)
    requires { Given work.old s × (v < s.level.vertices) × Clear work.old s.tallies s.limits.ranks × AllSorted work.old s }
    ensures { Listed work.old work.new s v }
{
    if borders(work, s, v) {
        list_counted(work, s, v);
    }
}

// The candidates of all ordered rank pairs. The lists are empty before.
fn list_all(work: &mut [u32], s: SwapRoom)
    requires { Given work.old s × Clear work.old s.tallies s.limits.ranks × Empty work.old s × AllSorted work.old s }
    ensures { ListedAll work.old work.new s }
{
    for v in 0..s.level.vertices {
        list_vertex(work, s, v);
    }
}

// ---- proposals

// The product of two candidates joins the proposals. Whether they are linked is asked only where they gain without that.
#[tactic(auto, unfolding(crate::specs::SwapsCode::proposed, crate::specs::SwapsCode::product_of))]
fn propose(list: &mut [u32], room: usize, w: &[u32], s: SwapRoom, x: u32, y: u32)
    requires { Given w.now s × (length list.old ≡ 3 * room) × Within s.level.vertices x × Within s.level.vertices y }
    ensures { slots proposal room list.new
        ≡ proposed room (rows_at w.now s.level) x (slots proposal room list.old) y }
{
    let gains = gain_of(x) + gain_of(y);
    if gains <= NO_GAIN {
        return;
    }
    let u = vertex_of(x);
    let v = vertex_of(y);
    let none = NO_GAIN + 2 * linked(w, s, u as usize, v as usize);
    if none < gains {
        add(list, room, gains - none, u, v);
    }
}

// The products of one candidate and a list.
fn propose_row(list: &mut [u32], room: usize, w: &[u32], s: SwapRoom, x: u32, back: &[u32])
    requires { Given w.now s × (length list.old ≡ 3 * room) × Within s.level.vertices x
        × All (Within s.level.vertices) (filled back.now) }
    ensures { slots proposal room list.new
        ≡ foldl (proposed room (rows_at w.now s.level) x) (slots proposal room list.old) (filled back.now) }
{
    for y in back {
        if *y == 0 {
            return;
        }
        propose(list, room, w, s, x, *y);
    }
}

// All products of two lists.
fn propose_all(list: &mut [u32], room: usize, w: &[u32], s: SwapRoom, fore: &[u32], back: &[u32])
    requires { Given w.now s × (length list.old ≡ 3 * room)
        × All (Within s.level.vertices) (filled fore.now) × All (Within s.level.vertices) (filled back.now) }
    ensures { slots proposal room list.new
        ≡ foldl (λ ps x. foldl (proposed room (rows_at w.now s.level) x) ps (filled back.now))
        (slots proposal room list.old) (filled fore.now) }
{
    for x in fore {
        if *x == 0 {
            return;
        }
        propose_row(list, room, w, s, *x, back);
    }
}

// ---- whether a swap applies

// How many of a row's vertices rank r owns.
fn links_in(row: &[u32], owners: &[u32], r: u32) -> u32
    requires { (length row.now ≤ 131072) × ((i : ℕ) → i < length row.now → at row.now i < length owners.now) }
    ensures { (result ≤ length row.now) × (result ≡ links_in row.now owners.now r) }
{
    row.iter().filter(|u| owners[**u as usize] == r).count() as u32
}

// How many of v's neighbors rank r owns.
fn links_to(w: &[u32], s: SwapRoom, v: usize, r: u32) -> u32
    requires { Given w.now s × (v < s.level.vertices) }
    ensures { (result ≤ 131072) × (result ≡ links_to (rows_at w.now s.level) (owners_at w.now s.level) v r) }
{
    let a = s.level.owners;
    let e = a + s.level.vertices;
    links_in(s.level.row(w, v), &w[a..e], r)
}

// What a swap of u and v gains from present owners; 0 if that is not above 0.
#[tactic(auto, unfolding(crate::specs::Moves::gain))]
fn swap_gain(w: &[u32], s: SwapRoom, u: usize, v: usize) -> u32
    requires { Given w.now s × (u < s.level.vertices) × (v < s.level.vertices) }
    ensures { result ≡ gain (rows_at w.now s.level) (owners_at w.now s.level) (swap u v) }
{
    let a = w[s.level.owners + u];
    let b = w[s.level.owners + v];
    let x = links_to(w, s, u, b).saturating_sub(linked(w, s, u, v));
    let y = links_to(w, s, v, a).saturating_sub(linked(w, s, v, u));
    let home = links_to(w, s, u, a) + links_to(w, s, v, b);
    (x + y).saturating_sub(home)
}

// Whether a load is from floor to cap, and still is once it gives x for y.
#[tactic(auto, unfolding(crate::specs::SwapsCode::fair_trade))]
fn fair_trade(limits: Limits, load: u32, x: u32, y: u32) -> bool
    requires { x ≤ load }
    ensures { result ≡ fair_trade limits.floor limits.cap load x y }
{
    let fair = limits.floor..=limits.cap;
    let left = u64::from(load - x) + u64::from(y);
    fair.contains(&u64::from(load)) && fair.contains(&left)
}

// Whether u's rank gives u for v within floor and cap.
fn trades_fairly(w: &[u32], s: SwapRoom, u: usize, v: usize) -> bool
    requires { Standing w.now s × (u < s.level.vertices) × (v < s.level.vertices) }
    ensures { result ≡ fair_trade s.limits.floor s.limits.cap
        (load (weights_at w.now s.level) (owners_at w.now s.level) (at (owners_at w.now s.level) u))
        (at (weights_at w.now s.level) u) (at (weights_at w.now s.level) v) }
{
    let r = owner_in(w, s.level, u);
    let x = weight_in(w, s.level, u);
    let y = weight_in(w, s.level, v);
    fair_trade(s.limits, w[s.loads + r], x, y)
}

// Whether the swap of u and v applies.
fn applies(w: &[u32], s: SwapRoom, u: usize, v: usize) -> bool
    requires { Standing w.now s × (u < s.level.vertices) × (v < s.level.vertices) }
    ensures { (used : List ℕ) → Marked w.now s used
        → result ≡ applies (balance_in s.limits) (rows_at w.now s.level) (weights_at w.now s.level) used
        (owners_at w.now s.level) u v }
{
    w[s.used + u] == 0
        && w[s.used + v] == 0
        && swap_gain(w, s, u, v) != NO_SWAP_GAIN
        && trades_fairly(w, s, u, v)
        && trades_fairly(w, s, v, u)
}

// ---- one swap

// u and v change places, and are used.
fn change(work: &mut [u32], s: SwapRoom, u: usize, v: usize)
    requires { Given work.old s × (u < s.level.vertices) × (v < s.level.vertices) }
    ensures { work.new ≡ changed work.old s u v }
{
    work.swap(s.level.owners + u, s.level.owners + v);
    work[s.used + u] = 1;
    work[s.used + v] = 1;
}

// Rank a's load gives x for y, and rank b's y for x.
#[tactic(auto, unfolding(crate::specs::SwapsCode::traded))]
fn trade(work: &mut [u32], loads: usize, a: usize, b: usize, x: u32, y: u32)
    requires { Tradable work.old loads a b x y }
    ensures { work.new ≡ traded work.old loads a b x y }
{
    work[loads + a] = work[loads + a] - x + y;
    work[loads + b] = work[loads + b] - y + x;
}

// u and v change places, and their ranks' loads follow.
fn swap(work: &mut [u32], s: SwapRoom, u: usize, v: usize)
    requires { Standing work.old s × (u < s.level.vertices) × (v < s.level.vertices) }
    ensures { Swapped work.old work.new s u v }
{
    let a = owner_in(work, s.level, u);
    let b = owner_in(work, s.level, v);
    let x = weight_in(work, s.level, u);
    let y = weight_in(work, s.level, v);
    change(work, s, u, v);
    trade(work, s.loads, a, b, x, y);
}

// A proposal's turn: the number of swaps, 1 or 0, which a pass adds up.
fn try_swap(work: &mut [u32], s: SwapRoom, u: usize, v: usize) -> u32
    requires { Standing work.old s × (u < s.level.vertices) × (v < s.level.vertices) }
    ensures { (result ≤ 1) × ((g : ℕ) → Taken work.old work.new s result (proposal g u v ∷ [])) }
{
    if applies(work, s, u, v) {
        swap(work, s, u, v);
        1
    } else {
        0
    }
}

// The proposals of n slots are taken in their order: the number of swaps.
fn take_all(work: &mut [u32], s: SwapRoom, list: &[u32], n: usize) -> u32
    requires { Standing work.old s × (length list.now ≡ 3 * n) × (n < 2 ^ 32) × All (Named s.level.vertices) (slots proposal n list.now) }
    ensures { (result ≤ n) × Taken work.old work.new s result (slots proposal n list.now) }
{
    let mut done = 0;
    for j in 0..n {
        if list[3 * j] == 0 {
            break;
        }
        done += try_swap(work, s, list[3 * j + 1] as usize, list[3 * j + 2] as usize);
    }
    done
}

// ---- a pass

// How many products two lists of n can have.
fn product_count(n: usize) -> usize
    requires { n ≤ 12 }
    ensures { (result ≤ 144) × (result ≡ n * n) }
{
    n * n
}

// The swaps of two ranks, whose lists begin at x and at y, by way of room for their proposals, where there is none yet.
fn swap_proposed(work: &mut [u32], s: SwapRoom, x: usize, y: usize, list: &mut [u32]) -> u32
    requires { Standing work.old s × ((owners : List ℕ) × (a : ℕ) × (b : ℕ) × Facing work.old s x y owners a b)
        × (length list.old ≡ 3 * (s.list_length * s.list_length)) × (at list.old 0 ≡ 0) }
    ensures { (result ≤ 144) × ((owners : List ℕ) (a b : ℕ) → Facing work.old s x y owners a b
        → Taken work.old work.new s result (proposals s.list_length (rows_at work.old s.level) owners a b)) }
{
    let n = s.list_length;
    let room = product_count(n);
    let w = &work[..];
    propose_all(list, room, w, s, &w[x..x + n], &w[y..y + n]);
    take_all(work, s, list, room)
}

// The swaps of two ranks, whose lists begin at x and at y.
fn swap_listed(work: &mut [u32], s: SwapRoom, x: usize, y: usize) -> u32
    requires { Standing work.old s × ((owners : List ℕ) × (a : ℕ) × (b : ℕ) × Facing work.old s x y owners a b) }
    ensures { (result ≤ 144) × ((owners : List ℕ) (a b : ℕ) → Facing work.old s x y owners a b
        → Taken work.old work.new s result (proposals s.list_length (rows_at work.old s.level) owners a b)) }
{
    let mut list = [0u32; 432];
    let end = 3 * product_count(s.list_length);
    swap_proposed(work, s, x, y, &mut list[0..end])
}

// The swaps of ranks a and b.
fn swap_pair(work: &mut [u32], s: SwapRoom, a: usize, b: usize) -> u32
    requires { Standing work.old s × (a < s.limits.ranks) × (b < s.limits.ranks) × (a < b) × ((owners : List ℕ) × Holding work.old s owners) }
    ensures { (result ≤ 144) × ((owners : List ℕ) → Holding work.old s owners
        → Taken work.old work.new s result (proposals s.list_length (rows_at work.old s.level) owners a b)) }
{
    let x = list_at(s, a, b);
    let y = list_at(s, b, a);
    if work[x] == 0 || work[y] == 0 {
        return 0;
    }
    swap_listed(work, s, x, y)
}

// The swaps of rank a and each later one.
fn swap_rank(work: &mut [u32], s: SwapRoom, a: usize) -> u32
    requires { Standing work.old s × (a < s.limits.ranks) × ((owners : List ℕ) × Holding work.old s owners) }
    ensures { (result ≤ 36864) × ((owners : List ℕ) → Holding work.old s owners
        → Taken work.old work.new s result (rank_proposals s.list_length (rows_at work.old s.level) owners a s.limits.ranks)) }
{
    let mut done = 0;
    for b in a + 1..s.limits.ranks {
        done += swap_pair(work, s, a, b);
    }
    done
}

// The swaps of all ranks.
fn swap_ranks(work: &mut [u32], s: SwapRoom) -> u32
    requires { Standing work.old s × ((owners : List ℕ) × Holding work.old s owners) }
    ensures { (result ≤ 9437184) × ((owners : List ℕ) → Holding work.old s owners
        → Taken work.old work.new s result (all_proposals s.list_length (rows_at work.old s.level) s.limits.ranks owners)) }
{
    let mut done = 0;
    for a in 0..s.limits.ranks {
        done += swap_rank(work, s, a);
    }
    done
}

// A pass: the number of swaps.
fn swap_pass(work: &mut [u32], s: SwapRoom) -> u32
    requires { Standing work.old s × Clear work.old s.tallies s.limits.ranks }
    ensures { Stepped work.old work.new s (pass_from work.old s (owners_at work.old s.level)) result }
{
    let ranks = s.limits.ranks;
    clear(work, s.used, s.level.vertices);
    clear(work, s.lists, 12 * (ranks * ranks));
    list_all(work, s);
    swap_ranks(work, s)
}

// Up to so many passes, ending after one without a swap: the number of swaps.
fn swap_passes(work: &mut [u32], s: SwapRoom, passes: u64) -> u64
    requires { Standing work.old s × Clear work.old s.tallies s.limits.ranks }
    ensures { Stepped work.old work.new s (swaps_at work.old s.level s.limits (swapping_in s passes)) result }
{
    let mut total = 0;
    for _ in 0..passes {
        let swaps = swap_pass(work, s);
        if swaps == 0 {
            break;
        }
        total += u64::from(swaps);
    }
    total
}

// Rule 7: swaps on a level's owners, and their number. It uses a number for each vertex and two for each rank from scratch on, and 12 for each
// ordered rank pair from lists on.
// Rules out: a swap that is not made, or of other vertices; a swap from gains that do not hold any more; a vertex that is swapped twice in a
// pass; a pass after one without a swap; a candidate more in a list, or one left out.
pub fn refine_fine_pair_swaps(
    work: &mut [u32],
    l: HierarchyLevel,
    scratch: usize,
    lists: usize,
    limits: Limits,
    swapping: Swapping,
) -> u64
    requires { Swappable work.old l scratch lists limits.ranks swapping.list_length }
    ensures { RefinedBySwaps work.old work.new l scratch limits swapping result }
{
    let loads = scratch + l.vertices;
    let s = SwapRoom {
        level: l,
        limits,
        used: scratch,
        loads,
        tallies: loads + limits.ranks,
        lists,
        list_length: swapping.list_length,
    };
    clear(work, loads, 2 * limits.ranks);
    weigh(work, l, loads, limits.ranks);
    swap_passes(work, s, swapping.passes)
}
