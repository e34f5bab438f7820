//! A byte output.
ghost use Rattle.std.specs.Prelude.{◌<◌, List, ℕ, length, take, MatchResult, IfErr};
ghost use Rattle.std.specs.declared.option.Option.{Option};
ghost use Rattle.fsoe_io.specs.Calls.{HasCause, WriteGrows, TakesSome};
ghost use Rattle.fsoe_io.specs.Sink.{Grew};

use crate::source::Failed;

/// A byte output, like `io::Write`.
pub trait Sink {
    /// The bytes that were written, if known. If known after a write, they were known before it.
    ghost written: { Self → Option (List ℕ) };

    /// How often it failed: a call that fails counts one, up to 2^64 - 1. The count never falls.
    ghost faults: { Self → ℕ };

    /// Takes the first bytes of the piece and returns how many: at least 1, unless the piece is empty. `Failed` only if
    /// the count of faults rose by one or is 2^64 - 1; then nothing is taken.
    fn write(&mut self, piece: &[u8]) -> Result<usize, Failed>
        ensures bound { TakesSome result piece.now }
        ensures bytes { WriteGrows (written self.old) (written self.new) result piece.now }
        ensures cause { HasCause (faults self.old) (faults self.new) result };
}

/// How many bytes were written before the sink failed.
#[derive(Clone, Copy, PartialEq, Eq)]
pub struct Partial {
    /// The number of bytes that were written.
    pub done: usize,
}

/// Writes all the bytes, in as many calls as needed, and in none after one that failed. `Partial` only if the sink's
/// count of faults rose by one or is 2^64 - 1; then exactly the first `done` bytes were written.
pub fn put_all<K: Sink>(sink: &mut K, bytes: &[u8]) -> Result<(), Partial>
    ensures bytes { MatchResult result
        (λ _. Grew (K.written sink.old) (K.written sink.new) bytes.now)
        (λ partial. Grew (K.written sink.old) (K.written sink.new) (take partial.done bytes.now)) }
    ensures partial { IfErr result (λ partial. partial.done < length bytes.now) }
    ensures cause { HasCause (K.faults sink.old) (K.faults sink.new) result }
{
    let mut done = 0;
    while done < bytes.len() {
        match sink.write(&bytes[done..]) {
            Ok(count) => done += count,
            Err(_) => return Err(Partial { done }),
        }
    }
    Ok(())
}
