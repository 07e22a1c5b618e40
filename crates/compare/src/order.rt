// What is told of two divisions.
ghost use Rattle.std.specs.Prelude.{◌≡◌, Some};
ghost use Rattle.compare.specs.Order.{lesser_first};
ghost use Rattle.compare.specs.Comparison.{order_code};

use std::cmp::Ordering;

// They are the same, or which comes first.
#[derive(Clone, Copy, PartialEq, Eq, Debug)]
pub enum Order {
    Same,
    First,
    Second,
}

impl Order {
    // The number that an export gives: 0 for the same, 1 or 2 for the one that comes first.
    // Rules out: 1 and 2 in each other's place; 1 for the same.
    pub fn code(self) -> u32
        ensures { result ≡ order_code (Some self) }
    {
        match self {
            Order::Same => 0,
            Order::First => 1,
            Order::Second => 2,
        }
    }
}

// The lesser of two numbers comes first.
pub(crate) fn lesser_first(a: u64, b: u64) -> Order
    ensures { result ≡ lesser_first a b }
{
    match a.cmp(&b) {
        Ordering::Less => Order::First,
        Ordering::Equal => Order::Same,
        Ordering::Greater => Order::Second,
    }
}
