//! The one refusal that nothing in a contract can rule out.

/// There was no memory for a call that takes some.
#[derive(Clone, Copy, Debug, PartialEq, Eq)]
pub struct Memory;
