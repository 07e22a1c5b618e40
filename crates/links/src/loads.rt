// Rule 1: the cap and the floor of a rank's load.
ghost use Rattle.std.specs.Prelude.{◌≡◌, ◌+◌, ◌*◌};
ghost use Rattle.links.specs.Loads.{share, load_cap, minimum_load};

// The rule over either number of per mille.
#[tactic(auto, unfolding(crate::specs::Loads::share))]
fn share_of(total: u64, ranks: u32, imbalance_per_mille: u32, per_mille: u64) -> u64
    ensures { result ≡ share total ranks imbalance_per_mille per_mille }
{
    if imbalance_per_mille > 500 || ranks == 0 {
        return u64::MAX;
    }
    total.saturating_mul(per_mille) / (1000 * u64::from(ranks))
}

// The most that a rank may weigh.
// Rules out: a product that wraps; a quotient rounded up.
#[tactic(auto, unfolding(crate::specs::Loads::load_cap))]
pub fn load_cap(total: u64, ranks: u32, imbalance_per_mille: u32) -> u64
    ensures { result ≡ load_cap total ranks imbalance_per_mille }
{
    let t = u64::from(imbalance_per_mille);
    share_of(total, ranks, imbalance_per_mille, 1000 + t)
}

// The least that a move or a swap may leave a rank with.
// Rules out: the floor taken with 1000 + t; 0 for an imbalance above 500.
#[tactic(auto, unfolding(crate::specs::Loads::minimum_load))]
pub fn minimum_load(total: u64, ranks: u32, imbalance_per_mille: u32) -> u64
    ensures { result ≡ minimum_load total ranks imbalance_per_mille }
{
    let t = u64::from(imbalance_per_mille);
    share_of(total, ranks, imbalance_per_mille, 1000u64.saturating_sub(t))
}
