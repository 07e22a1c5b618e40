// A ratio of the telemetry.
ghost use Rattle.std.specs.Prelude.{◌≡◌};
ghost use Rattle.telemetry.specs.Telemetry.{ratio as ratio_of};

// The most over the average, all over ranks, each division rounded once; 1.0 where there is nothing to share.
// Rules out: most × ranks / all, which is rounded once only; 0.0 where there is nothing to share.
pub(crate) fn imbalance(most: u64, all: u64, ranks: u32) -> f64
    ensures { result ≡ ratio_of most all ranks }
{
    if all == 0 {
        return 1.0;
    }
    let average = std::num::nearest_u64_to_f64(all) / (ranks as f64);
    std::num::nearest_u64_to_f64(most) / average
}
