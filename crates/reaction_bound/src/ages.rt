//! The ages of both ends' outputs, reported while a run goes on.
ghost use Rattle.std.specs.Prelude.{◌≡◌};
ghost use Rattle.exchange_model.specs.Honest.{is_tick};
ghost use Rattle.reaction_bound.specs.Ages.{watchdog_in};

use crate::end_age::EndAge;
use exchange_model::{Monitor, delivered};
use fsoe_base::{Did, End, FrameBuf};
use param_load::{Entry, Move, Terms};
use std::marker::Model;

/// Counts how old the outputs of both ends of a connection are: the ticks of an end since its peer sent the item of
/// these outputs. It is also the connection's monitor, which finds the first `other` entry. Doesn't allocate.
#[derive(Drop)]
pub struct Ages {
    monitor: Monitor,
    master: EndAge,
    slave: EndAge,
}

impl Model for Ages {
    ghost use Rattle.reaction_bound.specs.Ages.{AgesView};

    ghost Value = { AgesView };

    ghost view = { λ a. record { monitor = a.monitor; master = a.master; slave = a.slave } };
}

impl Ages {
    ghost use Rattle.std.specs.Prelude.{◌<◌, ◌+◌, ◌^◌, List, []};
    ghost use Rattle.param_load.specs.declared.entry.Entry.{Entry};
    ghost use Rattle.exchange_model.specs.Other.{first_other};
    ghost use Rattle.exchange_model.specs.Monitor as monitor;
    ghost use Rattle.reaction_bound.specs.Age.{age_of, worst_of, told_age};
    ghost use Rattle.reaction_bound.specs.Ages.{view_of, NotesEntry, NotesParts};

    /// Creates ages that noted no entry.
    pub fn new() -> Ages
        ensures { result ≡ view_of [] }
    {
        Ages {
            monitor: Monitor::new(),
            master: EndAge::new(),
            slave: EndAge::new(),
        }
    }

    /// Notes the next entry of the run. Fewer than 2^64 - 1 entries were noted before.
    #[tactic(auto, using(crate::proofs::Noted::notes_whole))]
    pub fn note(&mut self, entry: &Entry)
        requires { self.old.monitor.noted + 1 < 2 ^ 64 }
        ensures notes { NotesEntry self.old entry.now self.new }
        ensures noted { self.new.monitor.noted ≡ self.old.monitor.noted + 1 }
    {
        let tick = is_tick(&entry.what);
        let watchdog = watchdog_in(&entry.terms);
        self.note_parts(
            entry.end,
            tick,
            delivered(&entry.what),
            &entry.did,
            &entry.sent,
            watchdog,
        );
    }

    /// Notes the next entry of the run by its parts, as `Monitor::note_parts` does, and whether it is a tick. If the
    /// end took ProcessData, `watchdog` is that of its terms after the entry, in ticks; at any different entry it isn't
    /// read. Fewer than 2^64 - 1 entries were noted before.
    pub fn note_parts(
        &mut self,
        at: End,
        tick: bool,
        came: &[u8],
        did: &Did,
        sent: &FrameBuf,
        watchdog: Option<u16>,
    )
        requires { self.old.monitor.noted + 1 < 2 ^ 64 }
        ensures notes { NotesParts self.old at tick came.now did.now sent.now watchdog self.new }
        ensures monitor { monitor.NotesParts self.old.monitor at came.now did.now sent.now self.new.monitor }
        ensures noted { self.new.monitor.noted ≡ self.old.monitor.noted + 1 }
    {
        let other = self.monitor.is_other(at, came, did);
        let master = self.monitor.awaited(End::Master);
        let slave = self.monitor.awaited(End::Slave);
        self.monitor.note_parts(at, came, did, sent);
        let next_master = self.monitor.awaited(End::Master);
        let next_slave = self.monitor.awaited(End::Slave);
        match at {
            End::Master => {
                self.master
                    .act(tick, other, did, watchdog, master, next_master);
                self.slave.hear(slave, next_slave);
            }
            End::Slave => {
                self.slave
                    .act(tick, other, did, watchdog, slave, next_slave);
                self.master.hear(master, next_master);
            }
        }
    }

    /// Returns the age of an end's outputs in its ticks, 2^32 - 1 for all greater ones. Returns None if they are from
    /// no item: they are zeros, or were taken in an `other` entry or while no item was awaited.
    #[tactic(auto, using(crate::proofs::Noted::age_is))]
    pub fn age(&self, at: End) -> Option<u32>
        ensures { (w : List Entry) → self.now ≡ view_of w → result ≡ told_age (age_of at w) }
    {
        match at {
            End::Master => self.master.age(),
            End::Slave => self.slave.age(),
        }
    }

    /// Returns the greatest age of an end's outputs after any entry that was noted, or None if there was no age.
    #[tactic(auto, using(crate::proofs::Noted::worst_is))]
    pub fn worst(&self, at: End) -> Option<u32>
        ensures { (w : List Entry) → self.now ≡ view_of w → result ≡ told_age (worst_of at w) }
    {
        match at {
            End::Master => self.master.worst,
            End::Slave => self.slave.worst,
        }
    }

    /// Returns the number, from 1, of the first `other` entry noted so far, or None if there is none.
    pub fn other(&self) -> Option<u64>
        ensures tells { (w : List Entry) → self.now ≡ view_of w → result ≡ first_other w }
        ensures monitor { (w : List Entry) → self.now.monitor ≡ monitor.view_of w → result ≡ first_other w }
    {
        self.monitor.other()
    }
}

/// Whether an event is a tick.
fn is_tick(what: &Move) -> bool
    ensures { result ≡ is_tick what.now }
{
    matches!(what, Move::Tick)
}

/// The watchdog in the terms, if there are some.
fn watchdog_in(terms: &Option<Terms>) -> Option<u16>
    ensures { result ≡ watchdog_in terms.now }
{
    match terms {
        Some(terms) => Some(terms.watchdog),
        None => None,
    }
}
