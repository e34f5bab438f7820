//! A number with its decimal digits.
ghost use Rattle.std.specs.Prelude.{◌≡◌, ◌≤◌, take, decimal};

use itoa::Buffer;
use std::marker::Model;

/// A number with its decimal digits, cheap if the next number is the same or one more. In contracts it is the number.
#[derive(Drop)]
pub(crate) struct Numeral {
    value: u64,
    count: usize,
    digits: [u8; 20],
}

impl Model for Numeral {
    ghost use Rattle.std.specs.Prelude.{◌≡◌, ◌≤◌, ◌<◌, ℕ, take, decimal};

    ghost Value = { ℕ };

    ghost view = { λ n. n.value };

    ghost invariant = { λ n. (0 < n.count) × (n.count ≤ 20) × (take n.count n.digits ≡ decimal n.value) };
}

impl Numeral {
    /// The number 0.
    #[tactic(auto, using(std::proofs::lemmas::Fmt::decimal_digit))]
    pub(crate) fn zero() -> Numeral
        ensures { result ≡ 0 }
    {
        Numeral {
            value: 0,
            count: 1,
            digits: [b'0'; 20],
        }
    }

    /// Takes this number in place of its own.
    #[tactic(auto, using(crate::proofs::Numbers::raised))]
    pub(crate) fn set(&mut self, n: u64)
        ensures { self.new ≡ n }
    {
        let last = self.digits[self.count - 1];
        if n != 0 && n - 1 == self.value && last < b'9' {
            self.digits[self.count - 1] = last + 1;
            self.value = n;
        } else if n != self.value {
            self.write(n);
        }
    }

    /// Writes this number anew, where more than the last digit differs.
    #[inline(never)]
    fn write(&mut self, n: u64)
        ensures { self.new ≡ n }
    {
        let mut buffer = Buffer::new();
        let digits = buffer.format(n).as_bytes();
        self.digits[..digits.len()].copy_from_slice(digits);
        self.count = digits.len();
        self.value = n;
    }

    /// Its digits, and what stands behind them; and how many its digits are.
    pub(crate) fn digits(&self) -> (&[u8; 20], usize)
        ensures digits { take result.1 result.0.now ≡ decimal self.now }
        ensures most { result.1 ≤ 20 }
    {
        (&self.digits, self.count)
    }
}
