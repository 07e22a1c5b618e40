// Rule 9: the link file's check and its reader.
ghost use Rattle.std.specs.Prelude.{◌≡◌, true, ◌+◌, ◌*◌, ◌≤◌, ◌<◌, ◌++◌, length, drop};
ghost use Rattle.links.specs.Refusals.{number_of};
ghost use Rattle.multilevel.specs.File.{sizes_of, vertex_count_of, over_program_limits, good_length, good_links, file_workloads, file_cause, reader_cause, file_row, other_end, FileRead, Written, RowsWritten};

use crate::link_file::{LinkFile, number_at};
use links::{AbtmMultilevelOptions, Refusal};

// The swaps' options, which a file does not say: their defaults.
const LIST_LENGTH: u64 = 8;

const PASS_FACTOR: u64 = 4;

// The seven numbers of a file's head.
const HEAD_BYTES: usize = 28;

// The program's limits.
const MAX_VERTICES: u32 = 64;

const MAX_LINKS: u32 = 128;

const MAX_RANKS: u32 = 8;

const MAX_LEVELS: u32 = 12;

// What a file says of its site: sizes and options.
#[derive(Clone, Copy, Debug, PartialEq, Eq)]
pub struct Sizes {
    pub vertices: u32,
    pub links: u32,
    pub ranks: u32,
    pub options: AbtmMultilevelOptions,
}

#[tactic(auto, unfolding(crate::specs::File::sizes_of))]
fn sizes_of(bytes: &[u8]) -> Sizes
    requires { 28 ≤ length bytes.now }
    ensures { result ≡ sizes_of bytes.now }
{
    let options = AbtmMultilevelOptions {
        max_levels: u64::from(number_at(bytes, 3)),
        coarse_vertices_per_rank: u64::from(number_at(bytes, 4)),
        imbalance_per_mille: u64::from(number_at(bytes, 5)),
        refinement_passes: u64::from(number_at(bytes, 6)),
        swap_list_length: LIST_LENGTH,
        swap_pass_factor: PASS_FACTOR,
    };
    Sizes {
        vertices: number_at(bytes, 0),
        links: number_at(bytes, 1),
        ranks: number_at(bytes, 2),
        options,
    }
}

#[tactic(auto, unfolding(crate::specs::File::over_program_limits))]
fn over_limits(bytes: &[u8]) -> bool
    requires { 28 ≤ length bytes.now }
    ensures { result ≡ over_program_limits bytes.now }
{
    number_at(bytes, 0) > MAX_VERTICES
        || number_at(bytes, 1) > MAX_LINKS
        || number_at(bytes, 2) > MAX_RANKS
        || number_at(bytes, 3) > MAX_LEVELS
}

// Whether the file has one of its two lengths.
#[tactic(auto, unfolding(crate::specs::File::good_length))]
fn length_good(bytes: &[u8]) -> bool
    requires { 28 ≤ length bytes.now }
    ensures { result ≡ good_length bytes.now }
{
    let shorter = HEAD_BYTES + 8 * number_at(bytes, 1) as usize;
    bytes.len() == shorter || bytes.len() == shorter + 4 * number_at(bytes, 0) as usize
}

// The file check: 10, 3, 13 or 14.
// Rules out: a file with one workload too few; links in rising order of their low ends alone; a file whose last vertex is lone.
pub fn link_file_cause(bytes: &[u8]) -> Result<(), Refusal>
    ensures { number_of result ≡ file_cause bytes.now }
{
    if bytes.len() < HEAD_BYTES {
        return Err(Refusal::MalformedFile);
    }
    if over_limits(bytes) {
        return Err(Refusal::LimitPassed);
    }
    if !length_good(bytes) {
        return Err(Refusal::MalformedFile);
    }
    let links = number_at(bytes, 1) as usize;
    let file = LinkFile { bytes, links };
    if !file.links_good() {
        return Err(Refusal::MalformedFile);
    }
    if file.workload_bad() {
        return Err(Refusal::InvalidWorkloads);
    }
    if file.has_lone() {
        return Err(Refusal::LoneVertex);
    }
    Ok(())
}

// The file's refusal; or 5 where an output of these lengths is too short.
fn reader_cause(
    bytes: &[u8],
    offsets: usize,
    neighbors: usize,
    workloads: usize,
) -> Result<(), Refusal>
    ensures { number_of result ≡ reader_cause bytes.now offsets neighbors workloads }
{
    link_file_cause(bytes)?;
    let n = number_at(bytes, 0) as usize;
    let links = number_at(bytes, 1) as usize;
    if offsets < n + 1 || neighbors < 2 * links || workloads < n {
        return Err(Refusal::SliceTooShort);
    }
    Ok(())
}

// v's other end at link i, if v is an end of it, goes to `at`: the next place.
fn write_end(file: LinkFile, i: usize, v: u32, neighbors: &mut [u32], at: usize) -> usize
    requires { (i < file.links) × (at + length (other_end file.bytes.now v i) ≤ length neighbors.old) }
    ensures { Written (other_end file.entry.bytes.now v i) at neighbors.old neighbors.new result }
{
    let low = file.low_end(i);
    let high = file.high_end(i);
    if low == v {
        neighbors[at] = high;
        return at + 1;
    }
    if high == v {
        neighbors[at] = low;
        return at + 1;
    }
    at
}

// v's row, link by link: those of lower number come first, then those of higher number, both rising.
fn write_row(file: LinkFile, v: u32, neighbors: &mut [u32], from: usize) -> usize
    requires { (good_links file.bytes.now ≡ true) × (from + length (file_row file.bytes.now v) ≤ length neighbors.old) }
    ensures { Written (file_row file.entry.bytes.now v) from neighbors.old neighbors.new result }
{
    let mut at = from;
    for i in 0..file.links {
        at = write_end(file, i, v, neighbors, at);
    }
    at
}

fn write_rows(file: LinkFile, n: usize, offsets: &mut [u32], neighbors: &mut [u32])
    requires { (good_links file.bytes.now ≡ true) × (n ≡ vertex_count_of file.bytes.now) × (n ≤ 64) × (n + 1 ≤ length offsets.old) × (2 * file.links ≤ length neighbors.old) }
    ensures { RowsWritten file.entry.bytes.now offsets.old neighbors.old offsets.new neighbors.new }
{
    let mut at: usize = 0;
    offsets[0] = 0;
    for v in 0..n {
        at = write_row(file, v as u32, neighbors, at);
        offsets[v + 1] = at as u32;
    }
}

fn write_workloads(file: LinkFile, n: usize, workloads: &mut [u32])
    requires { (good_length file.bytes.now ≡ true) × (n ≡ vertex_count_of file.bytes.now) × (n ≤ length workloads.old) }
    ensures { workloads.new ≡ file_workloads file.entry.bytes.now ++ drop (vertex_count_of file.entry.bytes.now) workloads.old }
{
    for v in 0..n {
        workloads[v] = file.workload(v);
    }
}

// The reader: the sizes and options, and n + 1 offsets, 2e neighbors and n workloads written; or 10, 3, 13, 14 or 5, and nothing written.
// Rules out: a carried workload written as 1; an output changed by a refusal.
pub fn read_link_file(
    bytes: &[u8],
    offsets: &mut [u32],
    neighbors: &mut [u32],
    workloads: &mut [u32],
) -> Result<Sizes, Refusal>
    ensures { FileRead bytes.now offsets.old neighbors.old workloads.old offsets.new neighbors.new workloads.new result }
{
    reader_cause(bytes, offsets.len(), neighbors.len(), workloads.len())?;
    let sizes = sizes_of(bytes);
    let links = sizes.links as usize;
    let n = sizes.vertices as usize;
    let file = LinkFile { bytes, links };
    write_rows(file, n, offsets, neighbors);
    write_workloads(file, n, workloads);
    Ok(sizes)
}
