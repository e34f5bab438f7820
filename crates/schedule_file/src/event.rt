//! The events of a schedule, and what one of its lines means.
use fsoe_base::{End, FrameBuf, Image};

/// The most events of an input, and of the schedule of a seed that a command is asked to run.
pub const MAX_EVENTS: u64 = 200_000;

/// The furthest back that an event may name a frame: this many of those that the peer sent, 1 being the last.
pub const MAX_BACK: u32 = 64;

/// What happens to one end of a pair.
#[derive(Drop)]
pub enum Event {
    /// The end `to` is delivered the `back`-th frame back, from 1 to 64, of those that its peer sent.
    Deliver {
        to: End,
        back: u8,
    },
    /// The end `to` is delivered the `back`-th frame back, with its byte `pos` altered by the mask.
    Altered {
        to: End,
        back: u8,
        pos: u8,
        mask: u8,
    },
    /// The end `to` is delivered these bytes, from 1 to 255.
    Raw {
        to: End,
        frame: FrameBuf,
    },
    /// The time of the end goes on by one tick.
    Tick {
        at: End,
    },
    /// The end sends these safe data bytes from now on: exactly as many as it sends.
    Put {
        at: End,
        load: Image,
    },
    /// The end sends fail-safe data from now on, or no longer.
    Hold {
        at: End,
        failsafe: bool,
    },
    /// The end begins its next session with this id.
    Nonce {
        at: End,
        id: u32,
    },
    /// The end is reset.
    Local {
        at: End,
    },
}

/// What a line after the header says.
#[derive(Drop)]
pub enum ScheduleLine {
    /// An event.
    Step(Event),
    /// The end of the schedule.
    End,
}
