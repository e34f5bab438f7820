//! How a command ended.
ghost use Rattle.std.specs.Prelude.{◌≡◌};
ghost use Rattle.fsoe_io.specs.Status.{status_number};

/// How a command ended.
#[derive(Clone, Copy, Debug, PartialEq, Eq)]
pub enum Status {
    /// The input was read up to its `end` line, or all events were run, and no entry was `other`.
    Ok,
    /// As `Ok`, but an entry was `other`: a guarded frame that wasn't the awaited one passed a CRC test.
    Other,
    /// The arguments name no command.
    Usage,
    /// The configuration was refused.
    Config,
    /// A line was refused.
    Line,
    /// The configuration could not be loaded.
    Desk,
    /// The source failed.
    Read,
    /// The sink failed.
    Write,
    /// Memory ran out.
    Memory,
}

impl Status {
    /// Returns the number that a program ends with, from 0 for `Ok` to 8 for `Memory`, in the order of the variants.
    pub fn number(self) -> u8
        ensures { result ≡ status_number self }
    {
        self as u8
    }
}

/// How a command ended, and where.
#[derive(Clone, Copy, Debug, PartialEq, Eq)]
pub struct Ended {
    /// How it ended.
    pub status: Status,
    /// With `Other` the number of the `other` entry, with `Line` that of the refused line. With `Read` the complete
    /// lines read, with `Write` the bytes written. With every other status 0.
    pub place: u64,
}
