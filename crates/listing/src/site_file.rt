// From a link file's bytes to the text of its answer.
ghost use Rattle.std.specs.Prelude.{◌≡◌, ◌+◌, ◌≤◌, length};
ghost use Rattle.io.specs.Counts.{IsPrefixLen};
ghost use Rattle.listing.specs.Text.{Told};
ghost use Rattle.listing.specs.Share.{call_text, file_text, share_room};

use crate::lines::{write_refusal, write_site};
use links::number_of;
use multilevel::{Sizes, abtm_multilevel_partition, read_link_file};

// The text of a site's division.
fn tell_division(
    offsets: &[u32],
    neighbors: &[u32],
    workloads: &[u32],
    s: Sizes,
    text: &mut [u8],
) -> usize
    requires { (length offsets.now ≡ s.vertices + 1) × (s.vertices ≤ 64) × (share_room ≤ length text.old) }
    ensures { Told (call_text offsets.now neighbors.now workloads.now s) share_room text.old text.new result }
{
    let mut owners = [0u32; 64];
    let mut work = [0u32; 15396];
    let answer = abtm_multilevel_partition(
        offsets,
        neighbors,
        workloads,
        s.ranks,
        s.options,
        &mut owners,
        &mut work,
    );
    let Ok(stats) = answer else {
        return write_refusal(text, number_of(answer));
    };
    write_site(text, s.ranks, &owners[..s.vertices as usize], stats)
}

// The text of a link file's answer, for any bytes. A slice of less than 2,969 bytes is left as it was, and the answer is 0.
// Rules out: a listing of another division; a cut link counted from both ends; a refusal with another number.
pub fn share(file: &[u8], text: &mut [u8]) -> usize
    ensures told { Told (file_text file.now) share_room text.old text.new result }
    ensures prefix_len { IsPrefixLen result text.new }
{
    if text.len() < 2969 {
        return 0;
    }
    let mut offsets = [0u32; 65];
    let mut neighbors = [0u32; 256];
    let mut workloads = [0u32; 64];
    let read = read_link_file(file, &mut offsets, &mut neighbors, &mut workloads);
    let Ok(s) = read else {
        return write_refusal(text, number_of(read));
    };
    let n = s.vertices as usize;
    let m = 2 * s.links as usize;
    tell_division(&offsets[..n + 1], &neighbors[..m], &workloads[..n], s, text)
}
