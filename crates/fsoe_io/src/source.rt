//! A byte input.
ghost use Rattle.std.specs.Prelude.{List, ℕ};
ghost use Rattle.std.specs.declared.option.Option.{Option};
ghost use Rattle.std.specs.Io.{ReadsAtMost};
ghost use Rattle.std.specs.Io.KnownBytes.{ReadConsumes};
ghost use Rattle.fsoe_io.specs.Calls.{HasCause};

/// A call of a source or a sink failed.
#[derive(Clone, Copy, Debug, PartialEq, Eq)]
pub struct Failed;

/// A byte input, like `io::Read`.
pub trait Source {
    /// The bytes not read yet, if known. Once known they stay known.
    ghost left: { Self → Option (List ℕ) };

    /// How often it failed: a call that fails counts one, up to 2^64 - 1. The count never falls.
    ghost faults: { Self → ℕ };

    /// Reads bytes into the front of the buffer and returns how many. If the buffer has room, 0 is the end of the
    /// input. `Failed` only if the count of faults rose by one or is 2^64 - 1; then no byte is consumed.
    fn read(&mut self, buffer: &mut [u8]) -> Result<usize, Failed>
        ensures bound { ReadsAtMost result buffer.new }
        ensures bytes { ReadConsumes (left self.old) (left self.new) result buffer.new }
        ensures cause { HasCause (faults self.old) (faults self.new) result };
}
