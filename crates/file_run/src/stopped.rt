//! Why a machine stops.

/// Why an event isn't done, which ends the run.
#[derive(Clone, Copy, Debug)]
pub enum Stopped {
    /// The frame that it names wasn't sent.
    NoFrame,
    /// All applications of the name are used.
    NoApp,
    /// There is no memory for it.
    Memory,
}
