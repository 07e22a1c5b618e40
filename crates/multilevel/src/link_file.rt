// The numbers of a link file: its head, its links and its workloads (rule 9).
ghost use Rattle.std.specs.Prelude.{◌≡◌, true, ◌+◌, ◌*◌, ◌≤◌, ◌<◌, length};
ghost use Rattle.links.specs.Lists.{at, any};
ghost use Rattle.links.specs.Workloads.{bad_workload};
ghost use Rattle.multilevel.specs.File.{number, vertex_count_of, low_end, high_end, link_before, good_link, good_links, good_length, file_workloads, is_end, lone_in, has_lone, Sized};

use links::bad_workload;

// From how many vertices on each must have a link.
const LINKED_FROM: u32 = 2;

// The file's number at place i, its lowest byte first.
pub(crate) fn number_at(bytes: &[u8], i: usize) -> u32
    requires { 4 * i + 4 ≤ length bytes.now }
    ensures { result ≡ number bytes.now i }
{
    let a = 4 * i;
    u32::from_le_bytes([bytes[a], bytes[a + 1], bytes[a + 2], bytes[a + 3]])
}

// A file that has at least the bytes that its links ask for.
#[derive(Clone, Copy)]
pub struct LinkFile<'a> {
    pub bytes: &'a [u8],
    pub links: usize,
    ghost sized: { Sized bytes.now links },
}

impl<'a> LinkFile<'a> {
    pub(crate) fn vertices(self) -> u32
        ensures { result ≡ vertex_count_of self.entry.bytes.now }
    {
        number_at(self.bytes, 0)
    }

    #[tactic(auto, unfolding(crate::specs::File::low_end))]
    pub(crate) fn low_end(self, i: usize) -> u32
        requires { i < self.links }
        ensures { result ≡ low_end self.entry.bytes.now i }
    {
        number_at(self.bytes, 7 + i)
    }

    #[tactic(auto, unfolding(crate::specs::File::high_end))]
    pub(crate) fn high_end(self, i: usize) -> u32
        requires { i < self.links }
        ensures { result ≡ high_end self.entry.bytes.now i }
    {
        number_at(self.bytes, 7 + self.links + i)
    }

    // Whether link i comes before link j.
    #[tactic(auto, unfolding(crate::specs::File::link_before))]
    fn comes_before(self, i: usize, j: usize) -> bool
        requires { (i < self.links) × (j < self.links) }
        ensures { result ≡ link_before self.entry.bytes.now i j }
    {
        let x = self.low_end(i);
        let y = self.low_end(j);
        x < y || (y == x && self.high_end(i) < self.high_end(j))
    }

    #[tactic(auto, unfolding(crate::specs::File::good_link))]
    fn link_good(self, i: usize) -> bool
        requires { i < self.links }
        ensures { result ≡ good_link self.entry.bytes.now i }
    {
        let low = self.low_end(i);
        let high = self.high_end(i);
        low < high && high < self.vertices() && (i == 0 || self.comes_before(i - 1, i))
    }

    pub(crate) fn links_good(self) -> bool
        ensures { result ≡ good_links self.entry.bytes.now }
    {
        for i in 0..self.links {
            if !self.link_good(i) {
                return false;
            }
        }
        true
    }

    // v's workload: 1 in a file that carries none.
    pub(crate) fn workload(self, v: usize) -> u32
        requires { (good_length self.bytes.now ≡ true) × (v < vertex_count_of self.bytes.now) }
        ensures { result ≡ at (file_workloads self.entry.bytes.now) v }
    {
        if self.bytes.len() == 28 + 8 * self.links {
            1
        } else {
            number_at(self.bytes, 7 + 2 * self.links + v)
        }
    }

    // Whether one of the workloads is 0 or above 10,000.
    pub(crate) fn workload_bad(self) -> bool
        requires { good_length self.bytes.now ≡ true }
        ensures { result ≡ any bad_workload (file_workloads self.entry.bytes.now) }
    {
        for v in 0..self.vertices() as usize {
            if bad_workload(self.workload(v)) {
                return true;
            }
        }
        false
    }

    #[tactic(auto, unfolding(crate::specs::File::is_end))]
    fn is_end(self, i: usize, v: u32) -> bool
        requires { i < self.links }
        ensures { result ≡ is_end self.entry.bytes.now v i }
    {
        self.low_end(i) == v || self.high_end(i) == v
    }

    // Whether no link has v as an end.
    fn is_lone(self, v: u32) -> bool
        ensures { result ≡ lone_in self.entry.bytes.now v }
    {
        for i in 0..self.links {
            if self.is_end(i, v) {
                return false;
            }
        }
        true
    }

    // Whether one of two vertices or more is lone; the last is looked at first.
    pub(crate) fn has_lone(self) -> bool
        ensures { result ≡ has_lone self.entry.bytes.now }
    {
        let n = self.vertices();
        if n < LINKED_FROM {
            return false;
        }
        for v in (0..n).rev() {
            if self.is_lone(v) {
                return true;
            }
        }
        false
    }
}
