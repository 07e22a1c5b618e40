// Rule 8: the cut and the volume of a level's owners.
ghost use Rattle.std.specs.Prelude.{◌≡◌, ◌+◌, ◌<◌, length};
ghost use Rattle.links.specs.Lists.{at};
ghost use Rattle.links.specs.Graph.{cut_entries};
ghost use Rattle.stages.specs.Level.{rows_at, owners_at, Ready};
ghost use Rattle.multilevel.specs.Measure.{Met, Legible, RowMet, Measurable, Marked, VertexMet, VolumeMet, Measured};

use links::{cut_entries, fill_part};
use stages::HierarchyLevel;

#[derive(Clone, Copy)]
pub struct Measures {
    pub cut: u64,
    pub volume: u64,
}

fn cut_in(work: &[u32], l: HierarchyLevel) -> u64
    requires { Ready work.now l (length work.now) }
    ensures { result ≡ cut_entries (rows_at work.now l) (owners_at work.now l) }
{
    cut_entries(
        &work[l.offsets..l.offsets + (l.vertices + 1)],
        &work[l.neighbors..l.neighbors + l.entries],
        &work[l.owners..l.owners + l.vertices],
    )
}

// By which a vertex marks the ranks that it meets: where the owners and the ranks' marks lie, how many ranks there are, its own rank, and its mark.
#[derive(Clone, Copy)]
pub struct Marker {
    pub own: usize,
    pub seen: usize,
    pub ranks: usize,
    pub home: u32,
    pub mark: u32,
}

// 1 if u's owner is not home and has not the mark yet: it gets it.
fn meet(work: &mut [u32], by: Marker, u: usize) -> u64
    requires { (by.own + u < length work.old) × (by.seen + at work.old (by.own + u) < length work.old) }
    ensures { Met work.old work.new (at work.old (by.own + u)) by.home by.seen by.mark result }
{
    let rank = work[by.own + u];
    if rank == by.home {
        return 0;
    }
    let place = by.seen + rank as usize;
    if work[place] == by.mark {
        return 0;
    }
    work[place] = by.mark;
    1
}

// How many ranks other than home own a vertex of the row from a up to e.
fn meet_row(work: &mut [u32], by: Marker, a: usize, e: usize) -> u64
    requires { Legible work.old by.own by.seen by.ranks a e by.mark }
    ensures { RowMet work.old work.new by.own by.seen by.ranks a e by.home by.mark result }
{
    let mut x: u64 = 0;
    for i in a..e {
        let u = work[i] as usize;
        x += meet(work, by, u);
    }
    x
}

// To how many ranks v is a foreign neighbor.
fn meet_vertex(work: &mut [u32], l: HierarchyLevel, seen: usize, ranks: usize, v: usize) -> u64
    requires { Measurable work.old l seen ranks × (v < l.vertices) × Marked work.old seen ranks v }
    ensures { VertexMet work.old work.new l seen ranks v result }
{
    let a = l.neighbors + work[l.offsets + v] as usize;
    let e = l.neighbors + work[l.offsets + (v + 1)] as usize;
    let by = Marker {
        own: l.owners,
        seen,
        ranks,
        home: work[l.owners + v],
        mark: v as u32 + 1,
    };
    meet_row(work, by, a, e)
}

fn volume_in(work: &mut [u32], l: HierarchyLevel, seen: usize, ranks: usize) -> u64
    requires { Measurable work.old l seen ranks × Marked work.old seen ranks 0 }
    ensures { VolumeMet work.old work.new l seen ranks result }
{
    let mut x: u64 = 0;
    for v in 0..l.vertices {
        x += meet_vertex(work, l, seen, ranks, v);
    }
    x
}

// The cut and the volume; `ranks` numbers of the work slice from scratch on hold marks.
// Rules out: entries for volume, as where a rank meets one neighbor twice; a link counted once; a rank's own vertices counted.
pub(crate) fn measure_level(
    work: &mut [u32],
    l: HierarchyLevel,
    scratch: usize,
    ranks: usize,
) -> Measures
    requires { Measurable work.old l scratch ranks }
    ensures { Measured work.old work.new l scratch ranks result }
{
    let cut = cut_in(work, l);
    fill_part(work, scratch, scratch + ranks, 0);
    let volume = volume_in(work, l, scratch, ranks);
    Measures { cut, volume }
}
