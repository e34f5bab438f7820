//! A bit of the safe data of many connections.

/// A bit of the image of a connection, which is numbered from 1. Bit `b` is bit `b % 8`, lowest first, of byte `b / 8`.
#[derive(Clone, Copy, Debug, PartialEq, Eq)]
pub struct Bit {
    /// The connection, from 1.
    pub link: u16,
    /// The bit of its image, from 0.
    pub bit: u16,
}
