//! The events at an end, and the report of a step.

use crate::terms::Terms;
use fsoe_base::{Did, End, FrameBuf, Image, State};

/// One event at an end.
#[derive(Drop)]
pub enum Move {
    /// These bytes came as a frame of the peer.
    Deliver(FrameBuf),
    /// One tick passed.
    Tick,
    /// The safe data that the end offers from now on.
    Put(Image),
    /// True switches fail-safe data on, false switches them off.
    Hold(bool),
    /// The session id of all sessions that begin from now on.
    Nonce(u32),
    /// A local reset.
    Local,
}

/// The report of one step of an end.
#[derive(Drop)]
pub struct Entry {
    /// Which end it is.
    pub end: End,
    /// The event.
    pub what: Move,
    /// What the end did.
    pub did: Did,
    /// The frame that it sent, no bytes where it sent none.
    pub sent: FrameBuf,
    /// The state after it.
    pub state: State,
    /// The outputs after it.
    pub outputs: Image,
    /// The terms after it, which there are only in state Data.
    pub terms: Option<Terms>,
}
