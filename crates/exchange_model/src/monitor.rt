//! The monitor of a run, which keeps no list.
ghost use Rattle.std.specs.Prelude.{◌≡◌};

use crate::reading::delivered;
use crate::side::{Sender, is_other, note};
use fsoe_base::{Did, End, FrameBuf};
use param_load::Entry;
use std::marker::Model;

/// Finds the first `other` entry of a run of both ends. It keeps of each end its newest item and the item that its peer
/// awaits. Doesn't allocate.
#[derive(Drop)]
pub struct Monitor {
    noted: u64,
    other: Option<u64>,
    master: Sender,
    slave: Sender,
}

impl Model for Monitor {
    ghost use Rattle.std.specs.Prelude.{◌≤◌, suc};
    ghost use Rattle.exchange_model.specs.Monitor.{MonitorView, next_number, side_by};

    ghost Value = { MonitorView };

    ghost view = { λ m. record { noted = m.noted; other = m.other; master = side_by m.master m.slave; slave = side_by m.slave m.master } };

    ghost invariant = { λ m. (next_number m.master.newest ≤ suc m.noted) × (next_number m.slave.newest ≤ suc m.noted) };
}

impl Monitor {
    ghost use Rattle.std.specs.Prelude.{◌<◌, ◌+◌, ◌^◌, ℕ, List, []};
    ghost use Rattle.param_load.specs.declared.entry.Entry.{Entry};
    ghost use Rattle.exchange_model.specs.Items.{items, awaited};
    ghost use Rattle.exchange_model.specs.Other.{is_other, first_other, item_number};
    ghost use Rattle.exchange_model.specs.Monitor.{noted_next, view_of, HasParts, NotesEntry, NotesParts};

    /// Creates a monitor that noted no entry.
    pub fn new() -> Monitor
        ensures { result ≡ view_of [] }
    {
        Monitor {
            noted: 0,
            other: None,
            master: Sender::new(),
            slave: Sender::new(),
        }
    }

    /// Notes the next entry of the run. Fewer than 2^64 - 1 entries were noted before.
    #[tactic(auto, using(crate::proofs::Monitors::Noted::notes_whole))]
    pub fn note(&mut self, entry: &Entry)
        requires { self.old.noted + 1 < 2 ^ 64 }
        ensures notes { NotesEntry self.old entry.now self.new }
        ensures noted { self.new.noted ≡ self.old.noted + 1 }
    {
        self.note_parts(entry.end, delivered(&entry.what), &entry.did, &entry.sent);
    }

    /// Notes the next entry of the run by its parts: its end, the bytes that came, none if nothing did, what the end
    /// did, and the frame that it sent. Fewer than 2^64 - 1 entries were noted before.
    #[inline(always)]
    pub fn note_parts(&mut self, at: End, came: &[u8], did: &Did, sent: &FrameBuf)
        requires { self.old.noted + 1 < 2 ^ 64 }
        ensures notes { NotesParts self.old at came.now did.now sent.now self.new }
        ensures noted { self.new.noted ≡ self.old.noted + 1 }
    {
        self.noted += 1;
        let other = match at {
            End::Master => note(&mut self.master, &mut self.slave, came, did, sent),
            End::Slave => note(&mut self.slave, &mut self.master, came, did, sent),
        };
        if other && self.other.is_none() {
            self.other = Some(self.noted);
        }
    }

    /// Returns the number, from 1, of the first `other` entry noted so far, or None if there is none.
    pub fn other(&self) -> Option<u64>
        ensures { (w : List Entry) → self.now ≡ view_of w → result ≡ first_other w }
    {
        self.other
    }

    /// Returns true if the next entry of the run would be `other`, by its parts: its end, the bytes that came, none if
    /// nothing did, and what the end did.
    #[tactic(auto, using(crate::proofs::Monitors::Noted::tells_other))]
    pub fn is_other(&self, at: End, came: &[u8], did: &Did) -> bool
        ensures { (w : List Entry) (x : Entry) (sent : List ℕ) → self.now ≡ view_of w → HasParts x at came.now did.now sent → result ≡ is_other (items w) x }
    {
        match at {
            End::Master => is_other(did.passed, came, self.slave.awaited().number_of(came)),
            End::Slave => is_other(did.passed, came, self.master.awaited().number_of(came)),
        }
    }

    /// Returns the number, from 1, of the item that an end awaits, among those of its peer, or None if it awaits none.
    #[tactic(auto, using(crate::proofs::Monitors::Noted::awaited_number))]
    pub fn awaited(&self, by: End) -> Option<u64>
        ensures { (w : List Entry) → self.now ≡ view_of w → result ≡ item_number (awaited (items w) by) }
    {
        match by {
            End::Master => self.slave.awaited().number(),
            End::Slave => self.master.awaited().number(),
        }
    }
}
