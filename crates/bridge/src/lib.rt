// The library over numbers and slices, for a caller in another language: oracle/ links it and compares its answers with the Rust's.
#![tactic(auto)]

ghost use Rattle.std.specs.Prelude.{◌≡◌, cond, length, ltb};
ghost use Rattle.links.specs.Lists.{at};
ghost use Rattle.links.specs.Loads.{load_cap, minimum_load};
ghost use Rattle.links.specs.Options.{options_cause};
ghost use Rattle.links.specs.Graph.{owned, neighbors_cause, neighbors_of, lists_cause};
ghost use Rattle.links.specs.Workloads.{workloads_cause};
ghost use Rattle.links.specs.Owners.{from_owners, owner_cause, count_cause};
ghost use Rattle.multilevel.specs.File.{file_cause};
ghost use Rattle.multilevel.specs.Causes.{call_of};
ghost use Rattle.bridge.specs.LinkFile.{header_of, ReadAsNumbers};
ghost use Rattle.bridge.specs.Division.{options_from, stats_numbers, DividedAsNumbers};

use links::{AbtmMultilevelOptions, AbtmMultilevelStats, number_of};
use multilevel::Sizes;

#[unsafe(no_mangle)]
pub extern "C" fn bridge_load_cap(total: u64, ranks: u32, imbalance_per_mille: u32) -> u64
    ensures { result ≡ load_cap total ranks imbalance_per_mille }
{
    links::load_cap(total, ranks, imbalance_per_mille)
}

#[unsafe(no_mangle)]
pub extern "C" fn bridge_minimum_load(total: u64, ranks: u32, imbalance_per_mille: u32) -> u64
    ensures { result ≡ minimum_load total ranks imbalance_per_mille }
{
    links::minimum_load(total, ranks, imbalance_per_mille)
}

// The options of six numbers, in their order. No `From`, since both types are other crates'; so with the two below.
fn options_of(numbers: &[u64; 6]) -> AbtmMultilevelOptions
    ensures { result ≡ options_from numbers.now }
{
    AbtmMultilevelOptions {
        max_levels: numbers[0],
        coarse_vertices_per_rank: numbers[1],
        imbalance_per_mille: numbers[2],
        refinement_passes: numbers[3],
        swap_list_length: numbers[4],
        swap_pass_factor: numbers[5],
    }
}

// 0, or the refusal.
#[unsafe(no_mangle)]
pub extern "C" fn bridge_validate(options: &[u64; 6]) -> u32
    ensures { result ≡ options_cause (options_from options.now) }
{
    number_of(options_of(options).validate())
}

// 0, or the refusal.
#[unsafe(no_mangle)]
pub extern "C" fn bridge_from_owners(ranks: u32, owners: &[u32]) -> u32
    ensures { result ≡ from_owners ranks owners.now }
{
    number_of(links::from_owners(ranks, owners))
}

// 0, or the refusal; the rank of vertex v, or 0, is written.
#[unsafe(no_mangle)]
pub extern "C" fn bridge_owner_of(owners: &[u32], v: u64, rank: &mut u32) -> u32
    ensures number { result ≡ owner_cause owners.now v }
    ensures written { rank.new ≡ at owners.now v }
{
    *rank = 0;
    let owner = links::owner_of(owners, v);
    let Ok(r) = owner else {
        return number_of(owner);
    };
    *rank = r;
    0
}

// 0, or the refusal; the rank's number of vertices, or 0, is written.
#[unsafe(no_mangle)]
pub extern "C" fn bridge_owned_count(ranks: u32, owners: &[u32], rank: u32, count: &mut u64) -> u32
    ensures number { result ≡ count_cause ranks rank }
    ensures written { count.new ≡ cond (ltb rank ranks) (owned owners.now rank) 0 }
{
    *count = 0;
    let counted = links::owned_count(ranks, owners, rank);
    let Ok(n) = counted else {
        return number_of(counted);
    };
    *count = n;
    0
}

// 0, or the refusal.
#[unsafe(no_mangle)]
pub extern "C" fn bridge_neighbors_cause(offsets: &[u32], neighbors: &[u32], v: u64) -> u32
    ensures { result ≡ neighbors_cause offsets.now neighbors.now v }
{
    number_of(links::neighbors_cause(offsets, neighbors, v))
}

// How many neighbors vertex v has.
#[unsafe(no_mangle)]
pub extern "C" fn bridge_neighbor_count(offsets: &[u32], neighbors: &[u32], v: u64) -> u64
    ensures { result ≡ length (neighbors_of offsets.now neighbors.now v) }
{
    links::neighbors_of(offsets, neighbors, v).len() as u64
}

// Vertex v's neighbor at i, 0 past the last.
#[unsafe(no_mangle)]
pub extern "C" fn bridge_neighbor(offsets: &[u32], neighbors: &[u32], v: u64, i: u64) -> u32
    ensures { result ≡ at (neighbors_of offsets.now neighbors.now v) i }
{
    let row = links::neighbors_of(offsets, neighbors, v);
    row.get(i as usize).copied().unwrap_or(0)
}

// 0, or the refusal.
#[unsafe(no_mangle)]
pub extern "C" fn bridge_lists_cause(offsets: &[u32], neighbors: &[u32]) -> u32
    ensures { result ≡ lists_cause offsets.now neighbors.now }
{
    number_of(links::lists_cause(offsets, neighbors))
}

// 0, or the refusal.
#[unsafe(no_mangle)]
pub extern "C" fn bridge_workloads_cause(workloads: &[u32], n: u64) -> u32
    ensures { result ≡ workloads_cause n workloads.now }
{
    number_of(links::workloads_cause(workloads, n as usize))
}

// 0, or the refusal.
#[unsafe(no_mangle)]
pub extern "C" fn bridge_link_file_cause(file: &[u8]) -> u32
    ensures { result ≡ file_cause file.now }
{
    number_of(multilevel::link_file_cause(file))
}

// The seven numbers of a header, in its order.
fn header_of(s: Sizes) -> [u64; 7]
    ensures { result ≡ header_of s }
{
    let o = s.options;
    [
        u64::from(s.vertices),
        u64::from(s.links),
        u64::from(s.ranks),
        o.max_levels,
        o.coarse_vertices_per_rank,
        o.imbalance_per_mille,
        o.refinement_passes,
    ]
}

// 0, or the refusal; the header's seven numbers, or zeros, are written.
#[unsafe(no_mangle)]
pub extern "C" fn bridge_read_link_file(
    file: &[u8],
    offsets: &mut [u32],
    neighbors: &mut [u32],
    workloads: &mut [u32],
    header: &mut [u64; 7],
) -> u32
    ensures { ReadAsNumbers file.now offsets.old neighbors.old workloads.old offsets.new neighbors.new workloads.new header.new result }
{
    *header = [0; 7];
    let read = multilevel::read_link_file(file, offsets, neighbors, workloads);
    let Ok(sizes) = read else {
        return number_of(read);
    };
    *header = header_of(sizes);
    0
}

// The eight stats, in their order.
fn numbers_of(s: AbtmMultilevelStats) -> [u64; 8]
    ensures { result ≡ stats_numbers s }
{
    [
        s.levels_built,
        s.coarsest_vertices,
        s.matched_pairs,
        s.singleton_aggregates,
        s.coarse_restarts,
        s.refinement_moves,
        s.final_cut_nnz,
        s.final_communication_volume,
    ]
}

// 0, or the refusal; the eight stats, or zeros, are written.
#[tactic(auto, unfolding(links::specs::Options::zero_stats))]
#[unsafe(no_mangle)]
pub extern "C" fn bridge_divide(
    offsets: &[u32],
    neighbors: &[u32],
    workloads: &[u32],
    ranks: u32,
    options: &[u64; 6],
    owners: &mut [u32],
    work: &mut [u32],
    stats: &mut [u64; 8],
) -> u32
    ensures { DividedAsNumbers (call_of offsets.now neighbors.now workloads.now ranks (options_from options.now) (length owners.old) (length work.old)) owners.old owners.new work.old work.new stats.new result }
{
    *stats = [0; 8];
    let answer = multilevel::abtm_multilevel_partition(
        offsets,
        neighbors,
        workloads,
        ranks,
        options_of(options),
        owners,
        work,
    );
    let Ok(s) = answer else {
        return number_of(answer);
    };
    *stats = numbers_of(s);
    0
}
