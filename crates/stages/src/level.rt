// A level in the lent work slice.
ghost use Rattle.std.specs.Prelude.{◌≡◌, ◌+◌, ◌<◌, ◌^◌, length};
ghost use Rattle.links.specs.Lists.{at};
ghost use Rattle.links.specs.Graph.{row, degree};
ghost use Rattle.stages.specs.Level.{Laid, Ready, level_at, moved_up, resized, offsets_at, rows_at};
ghost use Rattle.stages.specs.CoarsenParts.{one_above, top_below};

// In a list in the work slice: no vertex, no rank, no distance.
pub const UNASSIGNED: u32 = u32::MAX;

// Where a level lies: n + 1 offsets and m neighbors; n weights; each vertex's group on the next coarser level; each vertex's owner.
#[derive(Clone, Copy, Debug, PartialEq, Eq)]
pub struct HierarchyLevel {
    pub vertices: usize,
    pub entries: usize,
    pub offsets: usize,
    pub neighbors: usize,
    pub weights: usize,
    pub fine_to_coarse: usize,
    pub owners: usize,
}

impl HierarchyLevel {
    // A level at base: its parts one after the other, where they end below 2^64.
    // Rules out: two parts that share a place; a level without room for the last offset.
    pub fn at(vertices: usize, entries: usize, base: usize) -> HierarchyLevel
        ensures { (level_at vertices entries base).owners < 2 ^ 64 → result ≡ level_at vertices entries base }
    {
        let neighbors = base.saturating_add(vertices).saturating_add(1);
        let weights = neighbors.saturating_add(entries);
        let fine_to_coarse = weights.saturating_add(vertices);
        HierarchyLevel {
            vertices,
            entries,
            offsets: base,
            neighbors,
            weights,
            fine_to_coarse,
            owners: fine_to_coarse.saturating_add(vertices),
        }
    }

    // The same level, unit numbers further up, where that is below 2^64.
    // Rules out: a part left where it was; fewer vertices.
    pub fn moved_up(self, unit: usize) -> HierarchyLevel
        ensures { Laid self (self.owners + self.vertices) × (self.owners + unit < 2 ^ 64) → result ≡ moved_up self unit }
    {
        HierarchyLevel {
            offsets: self.offsets.saturating_add(unit),
            neighbors: self.neighbors.saturating_add(unit),
            weights: self.weights.saturating_add(unit),
            fine_to_coarse: self.fine_to_coarse.saturating_add(unit),
            owners: self.owners.saturating_add(unit),
            ..self
        }
    }

    // A level in the same place, of so many vertices and entries.
    // Rules out: vertices and entries in each other's place; another place.
    pub fn sized(self, vertices: usize, entries: usize) -> HierarchyLevel
        ensures { result ≡ resized self vertices entries }
    {
        HierarchyLevel {
            vertices,
            entries,
            ..self
        }
    }

    // How many neighbors v has.
    pub(crate) fn degree(self, work: &[u32], v: usize) -> usize
        requires { Ready work.now self (length work.now) × (v < self.vertices) }
        ensures { result ≡ degree (rows_at work.now self) v }
    {
        (work[self.offsets + (v + 1)] - work[self.offsets + v]) as usize
    }

    // The neighbors of v.
    pub(crate) fn row<'a>(self, work: &'a [u32], v: usize) -> &'a [u32]
        requires { Ready work.now self (length work.now) × (v < self.vertices) }
        ensures { result.now ≡ row (rows_at work.now self) v }
    {
        let a = work[self.offsets + v] as usize;
        let e = work[self.offsets + (v + 1)] as usize;
        &work[self.neighbors + a..self.neighbors + e]
    }

    // The neighbor of v at i.
    pub(crate) fn neighbor(self, work: &[u32], v: usize, i: usize) -> u32
        requires { Ready work.now self (length work.now) × (v < self.vertices) × (i < degree (rows_at work.now self) v) }
        ensures { result ≡ at (row (rows_at work.now self) v) i }
    {
        self.row(work, v)[i]
    }

    // The highest degree below b that a vertex has; on the way one more than the highest so far, 0 for none.
    pub(crate) fn top_below(self, work: &[u32], b: usize) -> Option<usize>
        requires { Ready work.now self (length work.now) }
        ensures { one_above result ≡ top_below (offsets_at work.now self) b }
    {
        let mut above = 0;
        for v in 0..self.vertices {
            let d = self.degree(work, v);
            if d < b {
                above = above.max(d + 1);
            }
        }
        above.checked_sub(1)
    }
}

// What a rank's load is held to.
#[derive(Clone, Copy, Debug, PartialEq, Eq)]
pub struct Limits {
    pub ranks: usize,
    pub floor: u64,
    pub cap: u64,
}
