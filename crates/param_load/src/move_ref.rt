//! An event at an end whose bytes stay where they lie, and what the end did then.
ghost use Rattle.std.specs.Prelude.{◌≡◌, []};
ghost use Rattle.fsoe_base.specs.Did.{nothing};
ghost use Rattle.param_load.specs.MoveRef.{HasShortBytes, owned_move};

use crate::entry::Move;
use fsoe_base::{Did, FrameBuf, Image};

/// One event at an end, as a `Move`, but the bytes stay where they lie.
#[derive(Clone, Copy)]
pub enum MoveRef<'a> {
    /// These bytes came as a frame of the peer.
    Deliver(&'a [u8]),
    /// One tick passed.
    Tick,
    /// The safe data that the end offers from now on.
    Put(&'a [u8]),
    /// True switches fail-safe data on, false switches them off.
    Hold(bool),
    /// The session id of all sessions that begin from now on.
    Nonce(u32),
    /// A local reset.
    Local,
}

/// What an end did at an event. It is kept from one event to the next, so that no frame is made anew.
#[derive(Drop)]
pub struct Answer {
    /// What was done.
    pub did: Did,
    /// The frame that was sent, no bytes if none was.
    pub sent: FrameBuf,
}

impl Answer {
    /// No answer yet.
    pub fn new() -> Answer
        ensures did { result.did ≡ nothing }
        ensures sent { result.sent ≡ [] }
    {
        Answer {
            did: Did::nothing(),
            sent: FrameBuf::new(),
        }
    }

    /// Overwrites the old contents: nothing was done, and nothing sent.
    pub fn clear(&mut self)
        ensures did { self.new.did ≡ nothing }
        ensures sent { self.new.sent ≡ [] }
    {
        self.did.clear();
        self.sent.clear();
    }
}

impl<'a> MoveRef<'a> {
    /// The same event, with the bytes copied: a frame has at most 255, an offer at most 126.
    pub fn to_move(self) -> Move
        requires { HasShortBytes (owned_move self) }
        ensures { result ≡ owned_move self.entry }
    {
        match self {
            MoveRef::Deliver(bytes) => {
                let mut frame = FrameBuf::new();
                frame.set(bytes);
                Move::Deliver(frame)
            }
            MoveRef::Tick => Move::Tick,
            MoveRef::Put(bytes) => {
                let mut load = Image::new();
                load.set(bytes);
                Move::Put(load)
            }
            MoveRef::Hold(failsafe) => Move::Hold(failsafe),
            MoveRef::Nonce(id) => Move::Nonce(id),
            MoveRef::Local => Move::Local,
        }
    }
}
