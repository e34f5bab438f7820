//! The judge of a trace.
ghost use Rattle.std.specs.Prelude.{◌≡◌, ◌≤◌, ◌<◌, ◌^◌, ◌-◌, ◌+◌, [], ⊤, List, length};
ghost use Rattle.fsoe_base.specs.declared.lengths.Lengths.{Lengths};
ghost use Rattle.trace_diag.specs.Judged.{NotesFrame, TraceStands};
ghost use Rattle.trace_diag.specs.Trace.{Noted};
ghost use Rattle.trace_diag.specs.Verdicts.{IsVerdict};

use crate::difference::Difference;
use crate::known::{Known, Room};
use crate::verdict::Verdict;
use fsoe_base::{End, Lengths};
use std::alloc::AllocError;
use std::marker::Model;

/// Judges a recorded trace frame by frame, as they come; no frame is kept. It judges only the frames, and runs no end.
#[derive(Drop)]
pub struct Trace {
    lengths: Lengths,
    frames: u64,
    differs: Option<Difference>,
    known: Known,
    room: Room,
}

impl Model for Trace {
    ghost use Rattle.trace_diag.specs.Judged.{TraceView};

    ghost Value = { TraceView };

    ghost view = { λ t. record { lengths = t.lengths; frames = t.frames; differs = t.differs; known = t.known } };
}

impl Trace {
    /// A trace of a connection with these lengths, of which no frame was seen.
    pub fn new(lengths: Lengths) -> Trace
        ensures stands { TraceStands lengths [] result }
        ensures count { result.frames ≡ 0 }
    {
        Trace {
            lengths,
            frames: 0,
            differs: None,
            known: Known::new(),
            room: Room::new(),
        }
    }

    /// Notes the next frame, of 1 to 255 bytes, and its end. After a frame that differs, frames are only counted.
    pub fn note(&mut self, from: End, frame: &[u8])
        requires frame { (0 < length frame.now) × (length frame.now ≤ 255) }
        requires few { self.old.frames < 2 ^ 64 - 1 }
        ensures notes { NotesFrame self.old (record { from = from; frame = frame.now }) self.new }
        ensures count { self.new.frames ≡ self.old.frames + 1 }
    {
        self.frames += 1;
        if self.differs.is_none() {
            if let Some(field) = self.known.take(self.lengths, from, frame, &mut self.room) {
                self.differs = Some(Difference {
                    number: self.frames,
                    field,
                });
            }
        }
    }

    /// The verdict on all frames that were noted.
    pub fn verdict(&self) -> Verdict
        ensures { (lengths : Lengths) (t : List Noted) → TraceStands lengths t self.now → IsVerdict lengths t result }
    {
        match self.differs {
            Some(difference) => Verdict::Differs {
                frame: difference.number,
                field: difference.field,
            },
            None => Verdict::Conforms(self.known.read_off()),
        }
    }
}

/// A clone continues by itself, so that several possible next frames can each be judged. Doesn't allocate.
impl Clone for Trace {
    ghost is_clone = { λ trace clone. clone ≡ trace };

    ghost is_infallible = { λ _. ⊤ };

    fn clone(&self) -> Result<Trace, AllocError> {
        Ok(Trace {
            lengths: self.lengths,
            frames: self.frames,
            differs: self.differs,
            known: self.known.copy(),
            room: Room::new(),
        })
    }
}
