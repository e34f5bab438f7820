//! A recorded frame.
use fsoe_base::{End, FrameBuf};

/// A recorded frame, and the end that it was seen to come from.
#[derive(Drop)]
pub struct Noted {
    pub from: End,
    pub frame: FrameBuf,
}
