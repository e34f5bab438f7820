//! A frame that passed all tests except those of its contents.
use seq_chain::{Link, SessionFrame};

/// A received frame of a session that passed all tests up to and including the CRC test, with the result of that test.
/// Only the slave makes it; each transition requires that it passed the tests in this same state.
#[derive(Drop)]
pub struct Seen<'a> {
    pub(crate) frame: SessionFrame<'a>,
    pub(crate) link: Link,
}
