//! Why there is no such master of many connections.

use thiserror::Error;

/// The first reason for which a master of many connections isn't made.
#[derive(Clone, Copy, Debug, PartialEq, Eq, Error)]
pub enum NewFault {
    /// There are more than 64 connections.
    #[error("there are more than 64 connections")]
    TooMany,
    /// Two connections have the same connection id: `a` is the first position whose id occurs again later, `b` the next
    /// one with this id, both counted from 1.
    #[error("connections {a} and {b} have the same connection id")]
    SameConn { a: u16, b: u16 },
    /// There was no memory.
    #[error("there was no memory")]
    Memory,
}
