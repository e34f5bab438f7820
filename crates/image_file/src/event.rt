//! The events of images: each is a call, as a line of a file gives it.

use fsoe_base::{ByteList, Image};

/// The most bytes that one event writes.
pub const MOST_WRITTEN: usize = 256;

/// The most events of an input of images.
pub const MOST_EVENTS: usize = 2_000;

/// One event of images. Slots are numbered from 1.
#[derive(Drop)]
pub enum ImageEvent {
    /// These bytes are written into the input image, from a place on.
    Write {
        at: u16,
        bytes: ByteList<MOST_WRITTEN>,
    },
    /// The input image is sampled.
    Sample,
    /// One tick passes at the end of each slot.
    Tick,
    /// The end of a slot offers these safe data from now on.
    Put {
        slot: u16,
        load: Image,
    },
    /// Switches fail-safe data of the end of a slot on or off.
    Hold {
        slot: u16,
        failsafe: bool,
    },
    /// Sets the session id of all sessions of a slot that begin from now on.
    Nonce {
        slot: u16,
        id: u32,
    },
    /// The end of a slot resets itself.
    Reset {
        slot: u16,
    },
}

/// What a line of a file says after its header.
#[derive(Drop)]
pub enum ImageLine {
    /// This event comes.
    Step(ImageEvent),
    /// There are no more events.
    End,
}
