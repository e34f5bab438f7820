//! A line of text as it is made.
ghost use Rattle.std.specs.Prelude.{◌≡◌, ◌+◌, ◌*◌, ◌≤◌, List, [], ◌++◌, ℕ, length, decimal};
ghost use Rattle.hex.specs.Hex.{encode_lower};

use crate::numeral::Numeral;
use std::marker::Model;

/// A line of text as it is made, of at most 1,024 bytes. In contracts the value is its bytes.
#[derive(Drop)]
pub struct LineText {
    bytes: [u8; 1024],
    len: usize,
    /// The number that was appended last.
    number: Numeral,
}

impl Model for LineText {
    ghost use Rattle.std.specs.Prelude.{◌≤◌, List, ℕ, take};

    ghost Value = { List ℕ };

    ghost view = { λ t. take t.len t.bytes };

    ghost invariant = { λ t. t.len ≤ 1024 };
}

impl LineText {
    /// An empty text.
    pub fn new() -> LineText
        ensures { result ≡ [] }
    {
        LineText {
            bytes: [0; 1024],
            len: 0,
            number: Numeral::zero(),
        }
    }

    /// Its bytes.
    pub fn bytes(&self) -> &[u8]
        ensures value { result.now ≡ self.now }
        ensures most { length result.now ≤ 1024 }
    {
        &self.bytes[..self.len]
    }

    /// Clears the text.
    pub fn clear(&mut self)
        ensures { self.new ≡ [] }
    {
        self.len = 0;
    }

    /// Appends bytes.
    pub fn push(&mut self, piece: &[u8])
        requires { length self.old + length piece.now ≤ 1024 }
        ensures { self.new ≡ self.old ++ piece.now }
    {
        self.bytes[self.len..self.len + piece.len()].copy_from_slice(piece);
        self.len += piece.len();
    }

    /// Appends a text.
    pub fn push_str(&mut self, piece: &str)
        requires { length self.old + length piece.now ≤ 1024 }
        ensures { self.new ≡ self.old ++ piece.now }
    {
        self.push(piece.as_bytes());
    }

    /// Appends a number in decimal digits.
    pub fn push_decimal(&mut self, n: u64)
        requires { length self.old + 20 ≤ 1024 }
        ensures text { self.new ≡ self.old ++ decimal n }
        ensures most { length self.new ≤ length self.old + 20 }
    {
        self.number.set(n);
        let (digits, count) = self.number.digits();
        // A copy of a fixed length is made of few instructions.
        self.bytes[self.len..self.len + 20].copy_from_slice(digits);
        self.len += count;
    }

    /// Appends a number in decimal digits that is mostly small, as that of a slot or a pair. The cached numeral is left
    /// to event numbers, since the next of these is mostly cheap to make from it.
    #[tactic(auto, using(std::proofs::lemmas::Fmt::decimal_digit, crate::proofs::Numbers::two_digits))]
    pub fn push_small(&mut self, n: u16)
        requires { length self.old + 20 ≤ 1024 }
        ensures text { self.new ≡ self.old ++ decimal n }
        ensures most { length self.new ≤ length self.old + 20 }
    {
        if n < 10 {
            self.push(&[b'0' + n as u8]);
        } else if n < 100 {
            self.push(&[b'0' + (n / 10) as u8, b'0' + (n % 10) as u8]);
        } else {
            self.push_decimal(u64::from(n));
        }
    }

    /// Appends bytes as lower-case hexadecimal digits, two a byte.
    pub fn push_hex(&mut self, bytes: &[u8])
        requires { length self.old + 2 * length bytes.now ≤ 1024 }
        ensures text { self.new ≡ self.old ++ encode_lower bytes.now }
        ensures most { length self.new ≡ length self.old + 2 * length bytes.now }
    {
        let end = self.len + 2 * bytes.len();
        let _ = hex::encode_to_slice(bytes, &mut self.bytes[self.len..end]);
        self.len = end;
    }
}
