//! The pending text of an event or of the end, and how much was handed out: for machines with many lines an event.
ghost use Rattle.std.specs.Prelude.{◌≡◌, ◌≤◌, ◌+◌, ◌++◌, [], IfOk, length, take, drop};
ghost use Rattle.file_run.specs.Waiting.{waits};

use fsoe_base::Memory;
use fsoe_io::LineText;
use std::alloc::Global;
use std::marker::Model;

/// The maximum length of a pending text: 64 lines of at most 1,024 bytes each.
pub const MOST_TEXT: usize = 65_536;

/// Writes these bytes over those from a place on.
fn overwrite(room: &mut [u8], at: usize, bytes: &[u8])
    requires { at + length bytes.now ≤ length room.old }
    ensures { room.new ≡ take at room.old ++ bytes.now ++ drop (at + length bytes.now) room.old }
{
    room[at..at + bytes.len()].copy_from_slice(bytes);
}

/// A text of at most `MOST_TEXT` bytes, and how many of them were handed out.
#[derive(Drop)]
pub struct Waiting {
    bytes: Vec<u8>,
    len: usize,
    given: usize,
}

impl Model for Waiting {
    ghost use Rattle.std.specs.Prelude.{◌≡◌, ◌≤◌, length, take};
    ghost use Rattle.file_run.specs.Waiting.{WaitingText};
    ghost use Rattle.file_run.specs.declared.waiting.TheConstants.{MOST_TEXT};

    ghost Value = { WaitingText };

    ghost view = { λ w. record { text = take w.len w.bytes.items; given = w.given } };

    ghost invariant = { λ w. (w.given ≤ w.len) × (w.len ≤ MOST_TEXT) × (length w.bytes.items ≡ MOST_TEXT) };
}

impl Waiting {
    /// No text, with room for all of it.
    pub fn new(alloc: Global) -> Result<Waiting, Memory>
        ensures { IfOk result (λ w. w ≡ record { text = []; given = 0 }) }
    {
        match vec![in alloc; 0; MOST_TEXT] {
            Ok(bytes) => Ok(Waiting {
                bytes,
                len: 0,
                given: 0,
            }),
            Err(_) => Err(Memory),
        }
    }

    /// Clears the text.
    pub fn clear(&mut self)
        ensures { self.new ≡ record { text = []; given = 0 } }
    {
        self.len = 0;
        self.given = 0;
    }

    /// Begins to hand the text out.
    pub fn start(&mut self)
        ensures text { self.new ≡ record { text = self.old.text; given = 0 } }
        ensures most { length self.new.text ≤ MOST_TEXT }
    {
        self.given = 0;
    }

    /// Appends a piece.
    pub fn push(&mut self, piece: &[u8])
        requires { length self.old.text + length piece.now ≤ MOST_TEXT }
        ensures { self.new ≡ record { text = self.old.text ++ piece.now; given = self.old.given } }
    {
        overwrite(self.bytes.as_mut_slice(), self.len, piece);
        self.len += piece.len();
    }

    /// Writes over `part` the next 1,024 bytes that weren't handed out, or those that are left.
    pub fn give(&mut self, part: &mut LineText)
        ensures part { waits self.old ≡ part.new ++ waits self.new }
        ensures some { part.new ≡ [] → waits self.old ≡ [] }
        ensures most { length (waits self.new) ≤ MOST_TEXT }
    {
        part.clear();
        if self.given == self.len {
            return;
        }
        let count = (self.len - self.given).min(1024);
        part.push(&self.bytes[self.given..self.given + count]);
        self.given += count;
    }
}
