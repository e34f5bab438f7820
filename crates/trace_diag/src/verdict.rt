//! What is said of a trace.
use crate::field::Field;

/// What the handshake of a trace says of the settings: each number after its last payload byte has come. So with pieces
/// of one byte the connection id is unknown after the first Connection frame, though its field has it.
#[derive(Clone, Copy, Debug, PartialEq, Eq)]
pub struct ReadOff {
    /// The connection id.
    pub conn: Option<u16>,
    /// The address of the slave.
    pub address: Option<u16>,
    /// The watchdog in ticks.
    pub watchdog: Option<u16>,
    /// The number of application parameters.
    pub app: Option<u16>,
}

/// The verdict on a trace. A trace with a frame that was lost, or with a reset, differs.
#[derive(Clone, Copy, Debug, PartialEq, Eq)]
pub enum Verdict {
    /// Two ends set to what is read off the trace send exactly its frames, in lock step.
    Conforms(ReadOff),
    /// It isn't.
    Differs {
        /// The number of the first frame with which it isn't, from 1.
        frame: u64,
        /// The first field of that frame that isn't as it must be.
        field: Field,
    },
}
