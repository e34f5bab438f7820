//! The CRC byte by byte, as the bytes come.

ghost use Rattle.std.specs.Prelude.{◌≡◌, ℕ, List, [], ◌∷◌, ◌++◌};
ghost use Rattle.fsoe_crc.specs.Remainder.{rem};

use crate::table::{step, step_pair, step_pair_and_zeros};
use std::marker::Model;

/// The CRC of the bytes that were fed so far. In contracts the value is that number.
///
/// A register is copied where several lists of bytes begin alike: the common part is fed once.
#[derive(Clone, Copy)]
pub struct Register {
    value: u16,
}

impl Model for Register {
    ghost Value = { ℕ };

    ghost view = { λ r. r.value };

    ghost inverse = { λ v. record { value = v } };
}

impl Register {
    /// A register that no byte was fed to.
    pub fn new() -> Register
        ensures { result ≡ rem [] }
    {
        Register { value: 0 }
    }

    /// Feeds one byte more: a register of some bytes becomes that of these bytes and `b`.
    pub fn feed(&mut self, b: u8)
        ensures { (bytes : List ℕ) → self.old ≡ rem bytes → self.new ≡ rem (bytes ++ b ∷ []) }
    {
        self.value = step(self.value, b);
    }

    /// Feeds two bytes more at once, at less cost than one after the other.
    pub fn feed_pair(&mut self, first: u8, second: u8)
        ensures { (bytes : List ℕ) → self.old ≡ rem bytes → self.new ≡ rem (bytes ++ first ∷ second ∷ []) }
    {
        self.value = step_pair(self.value, first, second);
    }

    /// Feeds two bytes and three zero bytes more at once, at the cost of two bytes.
    pub fn feed_pair_and_zeros(&mut self, first: u8, second: u8)
        ensures { (bytes : List ℕ) → self.old ≡ rem bytes → self.new ≡ rem (bytes ++ first ∷ second ∷ 0 ∷ 0 ∷ 0 ∷ []) }
    {
        self.value = step_pair_and_zeros(self.value, first, second);
    }

    /// The CRC of the bytes that were fed.
    pub fn value(&self) -> u16
        ensures { result ≡ self.now }
    {
        self.value
    }

    /// Returns a second register of the same bytes, which continues by itself.
    pub fn copy(&self) -> Register
        ensures { result ≡ self.now }
    {
        *self
    }
}

/// The CRC of `bytes`.
pub fn crc(bytes: &[u8]) -> u16
    ensures { result ≡ rem bytes.now }
{
    let mut register = Register::new();
    for byte in bytes {
        register.feed(*byte);
    }
    register.value()
}
