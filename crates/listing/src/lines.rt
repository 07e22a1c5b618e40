// The lines of a listing: its head, a line for each vertex, the stats; and the line of a refusal.
ghost use Rattle.std.specs.Prelude.{◌≡◌, ◌+◌, ◌*◌, ◌/◌, ◌≤◌, length, leb};
ghost use Rattle.multilevel.specs.File.{Written};
ghost use Rattle.listing.specs.Text.{Told};
ghost use Rattle.listing.specs.Listing.{head_text, line_text, lines_text, coarse_text, fine_text, stats_text, site_text, refusal_text, site_room, refusal_room};

use crate::text::{put, put_field, put_number};
use links::AbtmMultilevelStats;

fn put_head(text: &mut [u8], n: u64, ranks: u32) -> usize
    requires { 57 ≤ length text.old }
    ensures written { Written (head_text n ranks) 0 text.old text.new result }
    ensures upper_bound { result ≤ 57 }
{
    let a = put_field(text, 0, b"turbines ", n);
    let b = put_field(text, a, b" crews ", u64::from(ranks));
    put(text, b, b"\n")
}

fn put_line(text: &mut [u8], at: usize, v: u64, rank: u32) -> usize
    requires { at + 42 ≤ length text.old }
    ensures written { Written (line_text v rank) at text.old text.new result }
    ensures upper_bound { result ≤ at + 42 }
{
    let a = put_number(text, at, v);
    let b = put_field(text, a, b" ", u64::from(rank));
    put(text, b, b"\n")
}

fn put_lines(text: &mut [u8], from: usize, owners: &[u32]) -> usize
    requires { from + 42 * length owners.now ≤ length text.old }
    ensures written { Written (lines_text owners.now (length owners.now)) from text.old text.new result }
    ensures upper_bound { result ≤ from + 42 * length owners.now }
{
    let mut at = from;
    for (v, &rank) in owners.iter().enumerate() {
        at = put_line(text, at, v as u64, rank);
    }
    at
}

fn put_coarse(text: &mut [u8], at: usize, s: AbtmMultilevelStats) -> usize
    requires { at + 113 ≤ length text.old }
    ensures written { Written (coarse_text s) at text.old text.new result }
    ensures upper_bound { result ≤ at + 113 }
{
    let a = put_field(text, at, b"levels ", s.levels_built);
    let b = put_field(text, a, b" coarsest ", s.coarsest_vertices);
    let c = put_field(text, b, b" pairs ", s.matched_pairs);
    put_field(text, c, b" singles ", s.singleton_aggregates)
}

// Behind `cut` stands half of the stats' cut, which counts each cut link from both ends.
fn put_fine(text: &mut [u8], at: usize, s: AbtmMultilevelStats) -> usize
    requires { at + 110 ≤ length text.old }
    ensures written { Written (fine_text (s.final_cut_nnz / 2) s) at text.old text.new result }
    ensures upper_bound { result ≤ at + 110 }
{
    let a = put_field(text, at, b" restarts ", s.coarse_restarts);
    let b = put_field(text, a, b" moves ", s.refinement_moves);
    let c = put_field(text, b, b" cut ", s.final_cut_nnz / 2);
    put_field(text, c, b" volume ", s.final_communication_volume)
}

fn put_stats(text: &mut [u8], at: usize, s: AbtmMultilevelStats) -> usize
    requires { at + 224 ≤ length text.old }
    ensures written { Written (stats_text (s.final_cut_nnz / 2) s) at text.old text.new result }
    ensures upper_bound { result ≤ at + 224 }
{
    let a = put_coarse(text, at, s);
    let b = put_fine(text, a, s);
    put(text, b, b"\n")
}

// Whether so many bytes hold the listing of n vertices.
fn has_room(bytes: usize, n: usize) -> bool
    ensures { result ≡ leb (site_room n) bytes }
{
    bytes >= 281 && n <= (bytes - 281) / 42
}

// The listing of a division. A slice of less than 281 + 42 for each vertex is left as it was, and the answer is 0.
// The half behind `cut` is rounded down; the stats of a division have it whole (law `half-told` of multilevel).
// Rules out: a vertex and its owner in the other's place; a stat left out; the cut not halved; a byte written beyond the text.
pub fn write_site(text: &mut [u8], ranks: u32, owners: &[u32], stats: AbtmMultilevelStats) -> usize
    ensures { Told (site_text ranks owners.now (stats.final_cut_nnz / 2) stats) (site_room (length owners.now)) text.old text.new result }
{
    if !has_room(text.len(), owners.len()) {
        return 0;
    }
    let a = put_head(text, owners.len() as u64, ranks);
    let b = put_lines(text, a, owners);
    put_stats(text, b, stats)
}

// The line of a refusal. A slice of less than 29 bytes is left as it was, and the answer is 0.
// Rules out: the number left out; a byte written beyond the line.
pub fn write_refusal(text: &mut [u8], number: u32) -> usize
    ensures { Told (refusal_text number) refusal_room text.old text.new result }
{
    if text.len() < 29 {
        return 0;
    }
    let a = put_field(text, 0, b"refused ", u64::from(number));
    put(text, a, b"\n")
}
