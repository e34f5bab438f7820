//! A line of the input, and why there is none.
ghost use Rattle.std.specs.Prelude.{◌≡◌, ◌≤◌, length};

use fsoe_base::ByteList;
use std::marker::Model;

/// A line without its newline: at most 640 bytes, none of them a newline.
#[derive(Drop)]
pub struct Line {
    number: u64,
    bytes: ByteList<640>,
}

impl Model for Line {
    ghost use Rattle.fsoe_io.specs.LineReader.{Numbered};

    ghost Value = { Numbered };

    ghost view = { λ l. record { number = l.number; bytes = l.bytes } };
}

impl Line {
    /// A line of this number and these bytes.
    pub(crate) fn of(number: u64, from: &[u8]) -> Line
        requires { length from.now ≤ 640 }
        ensures number { result.number ≡ number }
        ensures bytes { result.bytes ≡ from.now }
    {
        let mut bytes = ByteList::new();
        bytes.push_all(from);
        Line { number, bytes }
    }

    /// Its number in the input, from 1.
    pub fn number(&self) -> u64
        ensures { result ≡ self.now.number }
    {
        self.number
    }

    /// Its bytes without the newline.
    pub fn bytes(&self) -> &[u8]
        ensures value { result.now ≡ self.now.bytes }
        ensures most { length result.now ≤ 640 }
    {
        self.bytes.bytes()
    }
}

/// Why there is no next line.
#[derive(Clone, Copy, Debug, PartialEq, Eq)]
pub enum LineFault {
    /// The source failed.
    Read,
    /// 641 bytes came without a newline.
    Long,
    /// The input ended inside a line.
    NoNewline,
}
