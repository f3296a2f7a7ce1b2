ghost use Rattle.std.specs.Prelude.{◌≡◌, pos};
ghost use Rattle.ax_mean.specs.Arithmetic.{in_64_bits};
ghost use Rattle.ax_group.specs.Sums.{sum_with};

use std::marker::Model;

/// The most numbers that a sum has.
const MOST_NUMBERS: u64 = i64::MAX as u64;

/// The exact sum of numbers, which may pass 64 bits on its way, with how many there are.
#[derive(Debug, Drop)]
pub struct ExactSum {
    count: u64,
    sum: i128,
}

impl Model for ExactSum {
    ghost use Rattle.std.specs.Prelude.{ℕ, ℤ};
    ghost use Rattle.std.specs.Coded.{coded×, coded_ℕ, coded_ℤ};
    ghost use Rattle.ax_group.specs.Sums.{IsWithin};

    ghost Value = { ℕ × ℤ };

    ghost coded = { coded× coded_ℕ coded_ℤ };

    ghost view = { λ s. (s.count, s.sum) };

    ghost invariant = { λ s. IsWithin s.count s.sum };
}

impl ExactSum {
    pub fn nothing() -> ExactSum
        ensures { result ≡ (0, pos 0) }
    {
        ExactSum { count: 0, sum: 0 }
    }

    /// The sum with one number more; none where it has as many as it may.
    pub fn with(self, number: i64) -> Option<ExactSum>
        ensures { result ≡ sum_with self number }
    {
        if self.count < MOST_NUMBERS {
            Some(ExactSum {
                count: self.count + 1,
                sum: self.sum + number as i128,
            })
        } else {
            None
        }
    }

    /// The sum, where it fits 64 bits.
    pub fn number(self) -> Option<i64>
        ensures { result ≡ in_64_bits self.1 }
    {
        if self.sum < i64::MIN as i128 || self.sum > i64::MAX as i128 {
            None
        } else {
            Some(self.sum as i64)
        }
    }
}
