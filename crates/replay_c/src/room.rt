//! Memory of the caller's as a sink.
ghost use Rattle.std.specs.Prelude.{◌≡◌, ◌≤◌, ◌<◌, Some, length, take, drop};
ghost use Rattle.replay_c.specs.Told.{told};

use crate::was::Was;
use fsoe_io::{Failed, Sink};

/// Memory that is written from its front, and fails once it is full.
///
/// In contracts no more is known of a sink after a call than its own list of written bytes. So this one also puts
/// before these bytes which memory it is and what that held. Then it is known to be the same after the call, and the
/// bytes behind those written to be unchanged.
#[derive(Drop)]
pub(crate) struct Room<'a> {
    pub(crate) memory: &'a mut [u8],
    pub(crate) len: usize,
    /// How many writes found no room, up to 2^64 - 1.
    pub(crate) refusals: u64,
    /// What the memory held before the first write.
    pub(crate) before: Was,
    ghost fits: { len ≤ length memory.now },
    ghost full: { 0 < refusals → len ≡ length memory.now },
    ghost past: { drop len memory.now ≡ drop len before.bytes },
}

impl<'a> Room<'a> {
    /// This memory, with nothing written.
    pub(crate) fn new(memory: &'a mut [u8]) -> Room<'a>
        ensures same_memory { result.memory.ghost_name ≡ memory.entry.ghost_name }
        ensures before { result.before.bytes ≡ memory.old }
        ensures now { result.memory.now ≡ memory.old }
        ensures len { result.len ≡ 0 }
        ensures refusals { result.refusals ≡ 0 }
    {
        let before = Was::of(memory);
        Room {
            memory,
            len: 0,
            refusals: 0,
            before,
        }
    }
}

impl Sink for Room<'_> {
    ghost written = { λ s. Some (told s.memory.ghost_name s.before.bytes (take s.len s.memory.now)) };

    ghost faults = { λ s. s.refusals };

    fn write(&mut self, piece: &[u8]) -> Result<usize, Failed> {
        let count = piece.len().min(self.memory.len() - self.len);
        if count == 0 && !piece.is_empty() {
            self.refusals = self.refusals.saturating_add(1);
            return Err(Failed);
        }
        self.memory[self.len..self.len + count].copy_from_slice(&piece[..count]);
        self.len += count;
        Ok(count)
    }
}
