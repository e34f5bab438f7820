//! Why there are no such images.

use thiserror::Error;

/// The first reason for which images with some slots aren't made.
#[derive(Clone, Copy, Debug, PartialEq, Eq, Error)]
pub enum SlotFault {
    /// There are more than 64 slots.
    #[error("there are more than 64 slots")]
    TooMany,
    /// A frame of this slot doesn't lie inside its image: the first such slot, counted from 1.
    #[error("a frame of slot {slot} doesn't lie inside its image")]
    Bounds { slot: u16 },
    /// Frames of two slots share a byte of one image: the first such pair, with the least `a` and for it the least `b`.
    #[error("slots {a} and {b} share a byte of one image")]
    Overlap { a: u16, b: u16 },
    /// There was no memory.
    #[error("there was no memory")]
    Memory,
}
