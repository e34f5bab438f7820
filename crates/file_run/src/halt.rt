//! Why reading of an input stopped.
ghost use Rattle.std.specs.Prelude.{◌≡◌, ◌-◌, ◌^◌, ◌<◌};
ghost use Rattle.file_run.specs.Stop.{halt_of, halt_stopped};

use crate::refusal::Refusal;
use crate::stopped::Stopped;
use fsoe_io::LineFault;

/// Why reading of the input stopped.
#[derive(Clone, Copy)]
pub enum Halt {
    /// The source failed after this many complete lines.
    Read(u64),
    /// The line of this number, from 1, is refused.
    Refused(u64, Refusal),
    /// There is no memory to continue.
    Memory,
}

/// Why reading stops if an event of the line of this number isn't done.
pub(crate) fn halt_stopped(why: Stopped, line: u64) -> Halt
    ensures { result ≡ halt_stopped why line }
{
    match why {
        Stopped::NoFrame => Halt::Refused(line, Refusal::NoFrame),
        Stopped::NoApp => Halt::Refused(line, Refusal::NoApp),
        Stopped::Memory => Halt::Memory,
    }
}

/// Why there is no next line after `before` complete lines.
pub(crate) fn halt_of(fault: LineFault, before: u64) -> Halt
    requires { before < 2 ^ 64 - 1 }
    ensures { result ≡ halt_of fault before }
{
    match fault {
        LineFault::Read => Halt::Read(before),
        LineFault::Long => Halt::Refused(before + 1, Refusal::Long),
        LineFault::NoNewline => Halt::Refused(before + 1, Refusal::NoNewline),
    }
}
