//! What notes the entries of the pair of a connection.
ghost use Rattle.std.specs.Prelude.{◌≡◌, ◌+◌, ◌<◌, ◌^◌, List, IsSome, IfSome, is_some};
ghost use Rattle.fsoe_base.specs.declared.command.End.{End};
ghost use Rattle.param_load.specs.declared.entry.Entry.{Entry};
ghost use Rattle.exchange_model.specs.Monitor.{NotesParts};
ghost use Rattle.exchange_model.specs.Monitor as monitor;
ghost use Rattle.exchange_model.specs.Other.{first_other};
ghost use Rattle.reaction_bound.specs.Age.{told_age, worst_of};
ghost use Rattle.reaction_bound.specs.Ages as ages;
ghost use Rattle.plant_core.specs.Link.{AgesNote, ages_in, monitor_in, new_ages};

use exchange_model::Monitor;
use fsoe_base::{Did, End, FrameBuf};
use reaction_bound::Ages;

/// What notes the entries of a pair: only a monitor, or also the ages of the outputs. A connection that no bound names
/// needs no ages.
#[derive(Drop)]
pub(crate) enum Watch {
    Plain(Monitor),
    Aged(Ages),
}

impl Watch {
    ghost use Rattle.std.specs.Prelude.{[]};

    /// Creates one that noted nothing yet, with ages or without.
    pub(crate) fn new(aged: bool) -> Watch
        ensures monitor { monitor_in result ≡ monitor.view_of [] }
        ensures ages { ages_in result ≡ new_ages aged }
    {
        if aged {
            Watch::Aged(Ages::new())
        } else {
            Watch::Plain(Monitor::new())
        }
    }

    /// Notes the next entry of the pair by its parts: its end, whether it is a tick, the bytes that came, what the end
    /// did, the frame sent. The watchdog in the terms after it is used only if the end took ProcessData.
    #[inline(always)]
    pub(crate) fn note_parts(
        &mut self,
        at: End,
        tick: bool,
        came: &[u8],
        did: &Did,
        sent: &FrameBuf,
        watchdog: Option<u16>,
    )
        requires few { (monitor_in self.old).noted + 1 < 2 ^ 64 }
        ensures monitor { NotesParts (monitor_in self.old) at came.now did.now sent.now (monitor_in self.new) }
        ensures ages { AgesNote (ages_in self.old) at tick came.now did.now sent.now watchdog (ages_in self.new) }
        ensures count { (monitor_in self.new).noted ≡ (monitor_in self.old).noted + 1 }
        ensures aged { is_some (ages_in self.new) ≡ is_some (ages_in self.old) }
    {
        match self {
            Watch::Plain(items) => items.note_parts(at, came, did, sent),
            Watch::Aged(ages) => ages.note_parts(at, tick, came, did, sent, watchdog),
        }
    }

    /// Returns true if an entry of the pair is `other`.
    pub(crate) fn has_other(&self) -> bool
        ensures { (w : List Entry) → monitor_in self.now ≡ monitor.view_of w → result ≡ is_some (first_other w) }
    {
        match self {
            Watch::Plain(items) => items.other().is_some(),
            Watch::Aged(ages) => ages.other().is_some(),
        }
    }

    /// The greatest age of an end's outputs, if ages are counted.
    pub(crate) fn worst(&self, at: End) -> Option<u32>
        requires { IsSome (ages_in self.now) }
        ensures { (w : List Entry) → IfSome (ages_in self.now) (λ a. a ≡ ages.view_of w) → result ≡ told_age (worst_of at w) }
    {
        match self {
            Watch::Plain(_) => None,
            Watch::Aged(ages) => ages.worst(at),
        }
    }
}
