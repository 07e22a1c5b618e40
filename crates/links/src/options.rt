// The options and the stats of a division, by value.
ghost use Rattle.std.specs.Prelude.{◌≡◌};
ghost use Rattle.links.specs.Refusals.{number_of};
ghost use Rattle.links.specs.Options.{bad_list_length, bad_swaps, options_cause, stop_size, added_pairs, added_moves, grown_stats, measured_stats};

use crate::refusal::Refusal;

// The largest imbalance.
const MAX_PER_MILLE: u64 = 500;

#[derive(Clone, Copy, Debug, PartialEq, Eq)]
pub struct AbtmMultilevelOptions {
    pub max_levels: u64,
    pub coarse_vertices_per_rank: u64,
    pub imbalance_per_mille: u64,
    pub refinement_passes: u64,
    pub swap_list_length: u64,
    pub swap_pass_factor: u64,
}

// Its default is what every refusal stands for: zeros.
#[derive(Clone, Copy, Debug, Default, PartialEq, Eq)]
pub struct AbtmMultilevelStats {
    pub levels_built: u64,
    pub coarsest_vertices: u64,
    pub matched_pairs: u64,
    pub singleton_aggregates: u64,
    pub coarse_restarts: u64,
    pub refinement_moves: u64,
    pub final_cut_nnz: u64,
    pub final_communication_volume: u64,
}

// Whether a list of the swaps' candidates may not be so long.
// Rules out: a list of 12 refused; one of 2^32 + 8 taken for 8.
#[tactic(auto, unfolding(crate::specs::Options::bad_list_length))]
pub fn bad_list_length(length: u64) -> bool
    ensures { result ≡ bad_list_length length }
{
    !(1..=12).contains(&length)
}

impl AbtmMultilevelOptions {
    // 1 or 17.
    // Rules out: an imbalance of 500 refused; one of 2^32 + 30 taken for 30; 17 where 1 holds too.
    #[tactic(auto, unfolding(crate::specs::Options::options_cause, crate::specs::Options::bad_options))]
    pub fn validate(self) -> Result<(), Refusal>
        ensures { number_of result ≡ options_cause self }
    {
        if self.max_levels == 0
            || self.coarse_vertices_per_rank == 0
            || self.refinement_passes == 0
            || self.imbalance_per_mille > MAX_PER_MILLE
        {
            return Err(Refusal::InvalidOptions);
        }
        if self.bad_swaps() {
            return Err(Refusal::InvalidSwaps);
        }
        Ok(())
    }

    // Whether the list length or the pass factor is out of its range.
    #[tactic(auto, unfolding(crate::specs::Options::bad_swaps))]
    fn bad_swaps(self) -> bool
        ensures { result ≡ bad_swaps self }
    {
        bad_list_length(self.swap_list_length) || !(1..=8).contains(&self.swap_pass_factor)
    }

    // Coarsening stops at so many groups.
    // Rules out: a product that wraps to a small number; 0 groups where the option is 0.
    #[tactic(auto, unfolding(crate::specs::Options::stop_size))]
    pub fn stop_size(self, ranks: u32) -> u64
        ensures { result ≡ stop_size self ranks }
    {
        let k = u64::from(ranks);
        k.max(k.saturating_mul(self.coarse_vertices_per_rank))
    }
}

impl AbtmMultilevelStats {
    // One level more, with its pairs and singletons.
    // Rules out: the counts of the last level in place of the sums; another count set back to 0.
    #[tactic(auto, unfolding(crate::specs::Options::added_pairs))]
    pub fn added_pairs(mut self, pairs: u64, singletons: u64) -> Self
        ensures { result ≡ added_pairs self pairs singletons }
    {
        self.levels_built = self.levels_built.saturating_add(1);
        self.matched_pairs = self.matched_pairs.saturating_add(pairs);
        self.singleton_aggregates = self.singleton_aggregates.saturating_add(singletons);
        self
    }

    // The moves and swaps of one level more.
    // Rules out: a sum that wraps; the last level's moves in place of the sum.
    #[tactic(auto, unfolding(crate::specs::Options::added_moves))]
    pub fn added_moves(mut self, moves: u64) -> Self
        ensures { result ≡ added_moves self moves }
    {
        self.refinement_moves = self.refinement_moves.saturating_add(moves);
        self
    }

    // The groups that growth met, and its restarts.
    // Rules out: the finest level's vertices; restarts added to what was there.
    #[tactic(auto, unfolding(crate::specs::Options::grown_stats))]
    pub fn grown(mut self, coarsest: u64, restarts: u64) -> Self
        ensures { result ≡ grown_stats self coarsest restarts }
    {
        self.coarsest_vertices = coarsest;
        self.coarse_restarts = restarts;
        self
    }

    // The cut and the volume of the owners at the end.
    // Rules out: cut and volume in each other's place; a count of moves set back to 0.
    #[tactic(auto, unfolding(crate::specs::Options::measured_stats))]
    pub fn measured(mut self, cut: u64, volume: u64) -> Self
        ensures { result ≡ measured_stats self cut volume }
    {
        self.final_cut_nnz = cut;
        self.final_communication_volume = volume;
        self
    }
}
