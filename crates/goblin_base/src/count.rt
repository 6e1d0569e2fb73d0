//! A count of looks.
ghost use Rattle.std.specs.Prelude.{◌≡◌, ◌+◌, ◌*◌, ◌^◌, ◌≤◌, min};

use std::marker::Model;

/// A number up to `u128::MAX`, in two halves: so adding to it is one addition and a branch that is almost never taken.
#[derive(Drop)]
pub(crate) struct Count {
    low: u64,
    high: u64,
}

// In contracts it is the number.
impl Model for Count {
    ghost use Rattle.std.specs.Prelude.{◌+◌, ◌*◌, ◌^◌, ◌<◌, ℕ};

    ghost Value = { ℕ };

    ghost view = { λ c. c.low + 2 ^ 64 * c.high };

    ghost invariant = { λ c. (c.low < 2 ^ 64) × (c.high < 2 ^ 64) };
}

impl Count {
    /// Returns the count of no looks.
    pub(crate) fn none() -> Count
        ensures { result ≡ 0 }
    {
        Count { low: 0, high: 0 }
    }

    /// Adds a number, or stays at the greatest if the sum would pass it.
    #[inline]
    pub(crate) fn add(&mut self, more: u64)
        ensures value { self.new ≡ min (self.old + more) u128.MAX }
        ensures rising { self.old ≤ self.new }
    {
        match self.low.checked_add(more) {
            Some(low) => self.low = low,
            None => *self = carried(self.low, self.high, more),
        }
    }

    /// Returns the number.
    pub(crate) fn value(&self) -> u128
        ensures { result ≡ self.now }
    {
        u128::from(self.high) * (1 << 64) + u128::from(self.low)
    }
}

// Returns the sum of a number in two halves and one more, whose low half would not fit.
#[cold]
#[inline(never)]
fn carried(low: u64, high: u64, more: u64) -> Count
    requires { 2 ^ 64 ≤ low + more }
    ensures { result ≡ min (low + 2 ^ 64 * high + more) u128.MAX }
{
    match high.checked_add(1) {
        Some(high) => Count {
            low: low.wrapping_add(more),
            high,
        },
        None => Count {
            low: u64::MAX,
            high,
        },
    }
}
