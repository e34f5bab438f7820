//! What a monitor keeps of one end.
ghost use Rattle.std.specs.Prelude.{◌≡◌, ◌<◌, ◌^◌, ◌&&◌, not, None, is_some};
ghost use Rattle.end_model.specs.Phases.{is_guarded_frame};
ghost use Rattle.exchange_model.specs.Monitor.{Side, side_by, next_number, is_answer, is_other_to, number_of, number_taken, sent_next, heard_next, own_after, peer_after};

use crate::kept::Kept;
use crate::reading::{is_guarded, is_guarded_frame, is_reset_frame};
use fsoe_base::{Did, FrameBuf, Took};
use std::marker::Model;

/// A frame that an end sent: its number among those of this end, from 1, and its bytes.
#[derive(Drop)]
pub struct Sent {
    pub(crate) number: u64,
    pub(crate) bytes: FrameBuf,
}

/// The newest item of an end, and the item of it that its peer awaits. Mostly these are one, which is kept once.
#[derive(Drop)]
pub struct Sender {
    pub(crate) newest: Kept,
    /// The item that the peer awaits if that isn't the newest.
    older: Kept,
    is_newest_awaited: bool,
}

impl Model for Sender {
    ghost use Rattle.std.specs.Prelude.{if◌then◌else◌};
    ghost use Rattle.exchange_model.specs.Monitor.{Side};

    ghost Value = { Side };

    ghost view = { λ s. record { newest = s.newest; awaited = if s.is_newest_awaited then s.newest else s.older } };
}

impl Sender {
    /// What is kept of an end that sent nothing.
    pub(crate) fn new() -> Sender
        ensures { result ≡ record { newest = None; awaited = None } }
    {
        Sender {
            newest: Kept::none(),
            older: Kept::none(),
            is_newest_awaited: false,
        }
    }

    /// The item that the peer awaits.
    pub(crate) fn awaited(&self) -> &Kept
        ensures { result.now ≡ self.now.awaited }
    {
        if self.is_newest_awaited {
            &self.newest
        } else {
            &self.older
        }
    }

    /// Whether an item that answers this one of the end's items answers the newest of them.
    fn is_answer(&self, answer: Option<u64>) -> bool
        ensures { result ≡ is_answer self.now.newest answer }
    {
        match (self.newest.number(), answer) {
            (Some(newest), Some(number)) => number == newest,
            _ => false,
        }
    }
}

/// Returns true if an entry is `other` at which these bytes came, by whether they passed their CRC test, and by the
/// number of the awaited item, where it has these bytes.
pub(crate) fn is_other(passed: bool, came: &[u8], awaited: Option<u64>) -> bool
    ensures { result ≡ (passed && is_guarded_frame came.now && not (is_some awaited)) }
{
    awaited.is_none() && passed && is_guarded_frame(came)
}

/// The number of the peer's item that was taken from these bytes, if one was, by that of the awaited item, where it has
/// these bytes.
pub(crate) fn number_taken(
    awaited: Option<u64>,
    newest: &Kept,
    bytes: &[u8],
    took: &Option<Took>,
) -> Option<u64>
    ensures { (own peer : Side) → awaited ≡ number_of bytes.now own.awaited → newest.now ≡ peer.newest → result ≡ number_taken own peer bytes.now took.now }
{
    match took {
        Some(took) if is_guarded(took.command) => awaited,
        Some(_) => newest.number_of(bytes),
        None => None,
    }
}

/// The end sends a frame: it has a newest item, and awaits none. Its peer awaits this item if it answers the peer's
/// newest one and isn't a Reset frame.
#[inline(always)]
fn send(own: &mut Sender, peer: &mut Sender, frame: &FrameBuf, answer: Option<u64>)
    requires { next_number own.old.newest < 2 ^ 64 }
    ensures own { side_by own.new peer.new ≡ sent_next (side_by own.old peer.old) frame.now }
    ensures peer { side_by peer.new own.new ≡ heard_next (side_by own.old peer.old) (side_by peer.old own.old) frame.now answer }
{
    let number = own.newest.next_number();
    let is_awaited = !is_reset_frame(frame.bytes()) && peer.is_answer(answer);
    if own.is_newest_awaited && !is_awaited {
        own.older.copy(&own.newest);
    }
    own.is_newest_awaited = is_awaited;
    own.newest.set(number, frame.bytes());
    peer.is_newest_awaited = false;
    peer.older.clear();
}

/// Notes an entry in what is kept of its end and of the peer: the bytes that came, what the end did, and the frame that
/// it sent. Returns true if the entry is `other`.
#[inline(always)]
pub(crate) fn note(
    own: &mut Sender,
    peer: &mut Sender,
    came: &[u8],
    did: &Did,
    sent: &FrameBuf,
) -> bool
    requires { next_number own.old.newest < 2 ^ 64 }
    ensures other { result ≡ is_other_to (side_by own.old peer.old) did.now.passed came.now }
    ensures own { side_by own.new peer.new ≡ own_after (side_by own.old peer.old) sent.now }
    ensures peer { side_by peer.new own.new ≡ peer_after (side_by own.old peer.old) (side_by peer.old own.old) came.now did.now.took sent.now }
{
    // The bytes are compared once with those of the awaited item.
    let awaited = peer.awaited().number_of(came);
    if !sent.is_empty() {
        let answer = number_taken(awaited, &peer.newest, came, &did.took);
        send(own, peer, sent, answer);
    }
    is_other(did.passed, came, awaited)
}
