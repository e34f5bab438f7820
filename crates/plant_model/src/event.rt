//! The events of a plant's script, and what one of its lines means.
use fsoe_base::{End, Image};
use schedule_file::LineBuf;

/// An event of a plant's script. Connections are numbered from 1.
#[derive(Drop)]
pub enum PlantEvent {
    /// The time of all ends goes on by one tick, and the channel brings what it does.
    Tick,
    /// The slave of the connection sends these safe data bytes from now on: exactly as many as it sends.
    Put { link: u16, load: Image },
    /// The slave of the connection sends fail-safe data from now on, or no longer.
    Hold { link: u16, failsafe: bool },
    /// The slave of the connection is reset.
    Local { link: u16 },
    /// This end of the connection begins its next session with this id.
    Nonce { link: u16, end: End, id: u16 },
    /// The frames that the ends of the connection send don't go to the channel from now on, or go again.
    Cut { link: u16, cut: bool },
}

/// What a line of a script means.
#[derive(Drop)]
pub enum PlantLine {
    /// An event.
    Step(PlantEvent),
    /// Another application runs from now on: the first of this name among those of the caller that isn't used yet.
    App(LineBuf),
    /// The end of the script.
    End,
}
