// Rule 4: seeds. From `scratch` on lie the distance of each vertex to the nearest seed, the queue of a search, and the seeds.
ghost use Rattle.std.specs.Prelude.{◌≡◌, ℕ, ◌<◌};
ghost use Rattle.stages.specs.SeedsCode.{from, Search, Relaxing, Relaxed, Scannable, Scanned, Lowerable, Lowered, better_of, farthest, degree_at, Choosing, Seedable, Seeded};

use super::level::{HierarchyLevel, UNASSIGNED};
use links::fill_part;

// Lowers the distance of x to d + 1 and appends x to the queue, if x is farther. The queue's end.
fn relax(work: &mut [u32], l: HierarchyLevel, scratch: usize, x: u32, d: u32, t: usize) -> usize
    requires { Relaxing work.old l scratch x d t }
    ensures { Relaxed work.old work.new l scratch x d t result }
{
    let queue = scratch + l.vertices;
    let at = scratch + x as usize;
    if d + 1 < work[at] {
        work[at] = d + 1;
        work[queue + t] = x;
        return t + 1;
    }
    t
}

// Relaxes each neighbor of u. The queue's end.
fn scan(work: &mut [u32], l: HierarchyLevel, scratch: usize, u: usize, t: usize) -> usize
    requires { (g : Search) × (h : ℕ) × Scannable g h work.old l scratch u t }
    ensures { (g : Search) (h : ℕ) → Scannable g h work.old l scratch u t → Scanned g h work.old work.new l scratch result }
{
    let d = work[scratch + u];
    let a = work[l.offsets + u] as usize;
    let e = work[l.offsets + (u + 1)] as usize;
    let mut tail = t;
    for j in a..e {
        let x = work[l.neighbors + j];
        tail = relax(work, l, scratch, x, d, tail);
    }
    tail
}

// Lowers the distances from the new seed s, going on only from what it lowered. How many it lowered: each waited once.
// The queue grows while it is read, so that its end is no range's.
fn lower(work: &mut [u32], l: HierarchyLevel, scratch: usize, s: u32) -> usize
    requires { (g : Search) × Lowerable g work.old l scratch s }
    ensures { (g : Search) → Lowerable g work.old l scratch s → Lowered g work.old work.new l scratch result }
{
    let queue = scratch + l.vertices;
    let at = scratch + s as usize;
    work[at] = 0;
    work[queue] = s;
    let mut t = 1;
    let mut h = 0;
    while h < t {
        let u = work[queue + h] as usize;
        t = scan(work, l, scratch, u, t);
        h += 1;
    }
    t
}

// How many neighbors v has, as HierarchyLevel::degree says it; here nothing is known of the neighbors, only that the offsets rise.
fn degree_of(work: &[u32], l: HierarchyLevel, scratch: usize, v: u32) -> u32
    requires { Choosing work.now l scratch × (v < l.vertices) }
    ensures { result ≡ degree_at work.now l v }
{
    let i = v as usize;
    work[l.offsets + (i + 1)] - work[l.offsets + i]
}

// The better of the best so far and i, if i is no seed.
fn farther(work: &[u32], l: HierarchyLevel, scratch: usize, best: u32, i: u32) -> u32
    requires { Choosing work.now l scratch × (i < l.vertices) × (best < l.vertices) }
    ensures { result ≡ better_of (from work.now scratch) (degree_at work.now l) best i }
{
    let a = work[scratch + i as usize];
    if a == 0 {
        return best;
    }
    let b = work[scratch + best as usize];
    if b < a {
        return i;
    }
    if a == b && degree_of(work, l, scratch, best) < degree_of(work, l, scratch, i) {
        return i;
    }
    best
}

// The vertex farthest from the seeds, then of highest degree, then of lowest number. A seed is at 0, so that vertex 0 gives way to any that is none.
fn next_seed(work: &[u32], l: HierarchyLevel, scratch: usize) -> u32
    requires { Choosing work.now l scratch }
    ensures { result ≡ farthest (from work.now scratch) (degree_at work.now l) l.vertices }
{
    let mut best = 0;
    for i in 1..l.vertices {
        best = farther(work, l, scratch, best, i as u32);
    }
    best
}

// Rule 4: a seed for each rank.
// Rules out: a vertex that can be reached before one that cannot; of equals the one of higher number.
pub fn farthest_seeds(work: &mut [u32], l: HierarchyLevel, scratch: usize, ranks: usize)
    requires { Seedable work.old l scratch ranks }
    ensures { Seeded work.old work.new l scratch ranks }
{
    let seeds = scratch + 2 * l.vertices;
    fill_part(work, scratch, scratch + l.vertices, UNASSIGNED);
    for r in 0..ranks {
        let s = next_seed(work, l, scratch);
        work[seeds + r] = s;
        lower(work, l, scratch, s);
    }
}
