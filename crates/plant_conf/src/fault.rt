//! Why a configuration is refused.
use crate::key::Key;

/// The first reason for which a text is no configuration of a plant.
#[derive(Clone, Copy, Debug, PartialEq, Eq)]
pub enum ConfFault {
    /// The bytes aren't UTF-8, or no TOML document.
    Syntax,
    /// There are more than 64 connections, 256 blocks, 1,024 drives or 16 bounds.
    TooMany,
    /// A key or a table that has to be there isn't. An empty array of connections counts as missing.
    Missing(Key),
    /// The value of the key is of another kind; or `plant` is no table, or a list of tables isn't one.
    Kind(Key),
    /// The value of the key is outside its range, or not in its form.
    Range(Key),
    /// Two connections have one id: the first of them with another after it, and the first such.
    SameConn {
        /// The number of the first connection, from 1.
        a: u16,
        /// The number of the second.
        b: u16,
    },
    /// There was no memory.
    Memory,
}
