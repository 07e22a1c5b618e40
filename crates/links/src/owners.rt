// Rule 2: assignment. An owner list is checked, and asked for an owner and for a count.
ghost use Rattle.std.specs.Prelude.{◌≡◌, ℕ, ◌+◌, ◌<◌, length, set};
ghost use Rattle.links.specs.Lists.{at};
ghost use Rattle.links.specs.Parts.{table};
ghost use Rattle.links.specs.Graph.{owned};
ghost use Rattle.links.specs.Refusals.{number_of};
ghost use Rattle.links.specs.Owners.{counts_cause, stray_owner, from_owners, Marked, OwnerTold, CountTold};

use crate::lists::any_from;
use crate::refusal::Refusal;

// The most owners and the most ranks of an assignment.
const MAX_OWNERS: usize = 16384;

const MAX_RANKS: u32 = 256;

// How many ranks have a place in an array of counts.
const RANK_PLACES: usize = 256;

// The owner of vertex v, or 11.
// Rules out: 0 for a vertex that is not there; a refusal of an owner that is no rank.
#[tactic(auto, unfolding(crate::specs::Owners::owner_cause))]
pub fn owner_of(owners: &[u32], v: u64) -> Result<u32, Refusal>
    ensures { OwnerTold owners.now v result }
{
    owners
        .get(v as usize)
        .copied()
        .ok_or(Refusal::VertexOutOfRange)
}

// How many vertices the rank owns.
fn owned_by(owners: &[u32], rank: u32) -> u64
    ensures { result ≡ owned owners.now rank }
{
    let mut count: u64 = 0;
    for owner in owners {
        if *owner == rank {
            count += 1;
        }
    }
    count
}

// How many vertices the rank owns, or 12.
// Rules out: 0 for a rank that is not there; a refusal of a list with a stray owner.
#[tactic(auto, unfolding(crate::specs::Owners::count_cause))]
pub fn owned_count(ranks: u32, owners: &[u32], rank: u32) -> Result<u64, Refusal>
    ensures { CountTold ranks owners.now rank result }
{
    if rank < ranks {
        Ok(owned_by(owners, rank))
    } else {
        Err(Refusal::RankOutOfRange)
    }
}

// One vertex more for the rank; for none that is not there.
fn add_vertex(counts: &mut [u64; 256], rank: usize)
    requires { (length counts.old ≡ 256) × (at counts.old rank < 18446744073709551615) }
    ensures { counts.new ≡ set counts.old rank (at counts.old rank + 1) }
{
    if rank < RANK_PLACES {
        counts[rank] += 1;
    }
}

// How many vertices each of 256 ranks owns.
// Rules out: the last owner not counted; rank 255 left out.
pub fn owned_counts(owners: &[u32]) -> [u64; 256]
    ensures { result ≡ table (owned owners.now) 256 }
{
    let mut counts = [0u64; 256];
    for owner in owners {
        add_vertex(&mut counts, *owner as usize);
    }
    counts
}

// Marks each owner.
fn mark_owners(owners: &[u32], marks: &mut [u8; 256])
    requires { (length marks.old ≡ 256) × ((i : ℕ) → i < length owners.now → at owners.now i < 256) }
    ensures { Marked owners.now marks.new marks.old }
{
    for owner in owners {
        marks[*owner as usize] = 1;
    }
}

// Whether an owner is not below the number of ranks.
// Rules out: the last owner not looked at; an owner equal to the number of ranks let through.
pub fn stray_owner(owners: &[u32], ranks: u32) -> bool
    ensures { result ≡ stray_owner ranks owners.now }
{
    any_from(owners, ranks)
}

// 2 or 3 where the numbers of ranks and owners are refused.
#[tactic(auto, unfolding(crate::specs::Owners::counts_cause, crate::specs::Owners::bad_ranks, crate::specs::Owners::too_many))]
fn counts_cause(ranks: u32, n: usize) -> Result<(), Refusal>
    ensures { number_of result ≡ counts_cause ranks n }
{
    if ranks == 0 || ranks == u32::MAX || n < ranks as usize {
        return Err(Refusal::InvalidRankCount);
    }
    if n > MAX_OWNERS || ranks > MAX_RANKS {
        return Err(Refusal::LimitPassed);
    }
    Ok(())
}

// Whether each owner is a rank and each rank an owner; or the first of 2, 3, 12, 9.
// Rules out: an owner equal to the number of ranks taken; 9 where an owner is stray too.
pub fn from_owners(ranks: u32, owners: &[u32]) -> Result<(), Refusal>
    ensures { number_of result ≡ from_owners ranks owners.now }
{
    counts_cause(ranks, owners.len())?;
    if stray_owner(owners, ranks) {
        return Err(Refusal::RankOutOfRange);
    }
    let mut marks = [0u8; 256];
    mark_owners(owners, &mut marks);
    if marks[..ranks as usize].contains(&0) {
        return Err(Refusal::EmptyRank);
    }
    Ok(())
}
