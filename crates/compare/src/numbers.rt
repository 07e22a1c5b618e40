// Ranks numbered by their first appearance, and owners ordered by these numbers.
ghost use Rattle.std.specs.Prelude.{◌≡◌, cond, map, ◌+◌, ◌≤◌, ◌<◌, length, set};
ghost use Rattle.links.specs.Lists.{at, All};
ghost use Rattle.links.specs.Parts.{table};
ghost use Rattle.compare.specs.Order.{appearing, renumbered, by_numbers};
ghost use Rattle.compare.specs.OrderCode.{number_in, is_new};

use crate::order::{Order, lesser_first};

// The number of a rank that has none. It is no vertex or rank of a level, as that of stages, over which this crate does not stand.
const UNASSIGNED: u32 = u32::MAX;

// Gives a rank without a number the next one; how many have one then.
fn meet(numbers: &mut [u32; 256], rank: usize, count: u32) -> u32
    requires { (rank < 256) × (count ≤ 16384) }
    ensures count { result ≡ cond (is_new numbers.old rank) (count + 1) count }
    ensures numbers { numbers.new ≡ cond (is_new numbers.old rank) (set numbers.old rank count) numbers.old }
{
    if numbers[rank] != UNASSIGNED {
        return count;
    }
    numbers[rank] = count;
    count + 1
}

// Each rank's number by first appearance.
fn numbers_of(owners: &[u32]) -> [u32; 256]
    requires { All (λ o. o < 256) owners.now × (length owners.now ≤ 16384) }
    ensures { result ≡ table (number_in (appearing owners.now)) 256 }
{
    let mut numbers = [UNASSIGNED; 256];
    let mut count: u32 = 0;
    for owner in owners {
        count = meet(&mut numbers, *owner as usize, count);
    }
    numbers
}

// A rank's number.
fn number_in(numbers: &[u32; 256], rank: u32) -> u64
    requires { rank < 256 }
    ensures { result ≡ at numbers.now rank }
{
    u64::from(numbers[rank as usize])
}

// Which owner list comes first by its ranks' numbers.
fn by_numbers(first: &[u32], second: &[u32], one: &[u32; 256], other: &[u32; 256]) -> Order
    requires { All (λ o. o < 256) first.now × All (λ o. o < 256) second.now × (length first.now ≡ length second.now) }
    ensures { result ≡ by_numbers (map (at one.now) first.now) (map (at other.now) second.now) }
{
    for (v, rank) in first.iter().enumerate() {
        let order = lesser_first(number_in(one, *rank), number_in(other, second[v]));
        if order != Order::Same {
            return order;
        }
    }
    Order::Same
}

// Which owner list comes first by its renumbered owners.
pub(crate) fn by_owners(first: &[u32], second: &[u32]) -> Order
    requires { All (λ o. o < 256) first.now × All (λ o. o < 256) second.now × (length first.now ≡ length second.now) × (length first.now ≤ 16384) }
    ensures { result ≡ by_numbers (renumbered first.now) (renumbered second.now) }
{
    let one = numbers_of(first);
    let other = numbers_of(second);
    by_numbers(first, second, &one, &other)
}
