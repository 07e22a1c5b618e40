// The season planner's calls, for a program in C: the cap, the floor and the file check, over the promises of links and multilevel. Its archive is
// libmultilevel.a (planner/run.sh).
#![tactic(auto)]

ghost use Rattle.std.specs.Prelude.{◌≡◌};
ghost use Rattle.links.specs.Loads.{load_cap, minimum_load};
ghost use Rattle.multilevel.specs.File.{file_cause};

// Rules out: a product that wraps; a division by no ranks.
#[unsafe(no_mangle)]
pub extern "C" fn hipstern_load_cap(total: u64, ranks: u32, imbalance_per_mille: u32) -> u64
    ensures { result ≡ load_cap total ranks imbalance_per_mille }
{
    links::load_cap(total, ranks, imbalance_per_mille)
}

// Rules out: the cap in the floor's place; 0 for an imbalance above 500.
#[unsafe(no_mangle)]
pub extern "C" fn hipstern_minimum_load(total: u64, ranks: u32, imbalance_per_mille: u32) -> u64
    ensures { result ≡ minimum_load total ranks imbalance_per_mille }
{
    links::minimum_load(total, ranks, imbalance_per_mille)
}

// 0, or the refusal: 10, 3, 13 or 14.
// Rules out: a byte read beyond the file's end; the reader's 5.
#[unsafe(no_mangle)]
pub extern "C" fn hipstern_link_file_cause(file: &[u8]) -> u32
    ensures { result ≡ file_cause file.now }
{
    links::number_of(multilevel::link_file_cause(file))
}
