//! Several pairs, each with its own channel.
ghost use Rattle.std.specs.Prelude.{◌≡◌, ◌≢◌, ◌≤◌, ◌<◌, ◌+◌, ◌^◌, ℕ, List, [], All, IfOk, IfSome, OnErr, OnOk, length};
ghost use Rattle.std.specs.List.{AllZip};
ghost use Rattle.exchange_model.specs.World.{SameLengths};
ghost use Rattle.duo_run.specs.Duo.{DuoStands};

use crate::duo::Duo;
use crate::fault::StepFault;
use fsoe_base::Memory;
use param_load::{Entry, MasterSettings, SlaveSettings};
use schedule_file::Event;
use std::marker::Model;

/// From 1 to 16 pairs, numbered from 1, each with its own channel and its own monitor. Only `new` allocates.
#[derive(Drop)]
pub struct Duos {
    pub(crate) pairs: Vec<Duo>,
}

impl Model for Duos {
    ghost use Rattle.std.specs.Prelude.{List};
    ghost use Rattle.duo_run.specs.Duo.{DuoView};

    ghost Value = { List DuoView };

    ghost view = { λ d. d.pairs.items };
}

/// New ends with each of these settings, in this order: the ends of each pair have the same lengths.
pub(crate) fn new_pairs(pairs: Vec<(MasterSettings, SlaveSettings)>) -> Result<Vec<Duo>, Memory>
    requires { All (λ pair. SameLengths pair.0 pair.1) pairs.items }
    ensures { IfOk result (λ duos. AllZip (λ pair v. DuoStands pair.0 pair.1 v []) pairs.items duos.items) }
{
    let Ok(mut duos) = Vec::with_capacity(*pairs.allocator(), pairs.len()) else {
        return Err(Memory);
    };
    for (master, slave) in pairs {
        if duos.push(Duo::new(master, slave)).is_err() {
            return Err(Memory);
        }
    }
    Ok(duos)
}

impl Duos {
    ghost use Rattle.std.specs.Prelude.{vec_len};
    ghost use Rattle.fsoe_base.specs.LengthsOf.{length_of};
    ghost use Rattle.param_load.specs.declared.entry.Entry.{Entry};
    ghost use Rattle.param_load.specs.declared.master_settings.MasterSettings.{MasterSettings};
    ghost use Rattle.param_load.specs.declared.slave_settings.SlaveSettings.{SlaveSettings};
    ghost use Rattle.schedule_file.specs.Event.{Fits, profile_of};
    ghost use Rattle.schedule_file.specs.PairsEvent.{numbered};
    ghost use Rattle.exchange_model.specs.Other.{first_other};
    ghost use Rattle.duo_run.specs.Duo.{Misses, lengths_of, profiles_of, steps_done};
    ghost use Rattle.duo_run.specs.PairsStanding.{StepsAt};

    /// Creates pairs of new ends with these settings, in this order: the ends of each have the same lengths.
    pub fn new(pairs: Vec<(MasterSettings, SlaveSettings)>) -> Result<Duos, Memory>
        requires some { 1 ≤ vec_len pairs }
        requires most { vec_len pairs ≤ 16 }
        requires lengths { All (λ pair. SameLengths pair.0 pair.1) pairs.items }
        ensures { IfOk result (λ duos. AllZip (λ pair v. DuoStands pair.0 pair.1 v []) pairs.items duos) }
    {
        Ok(Duos {
            pairs: new_pairs(pairs)?,
        })
    }

    /// Does one event of the pair of this number, as `Duo::step` does, and returns the entry. `NoSuchFrame` if and only
    /// if it names a frame further back than the peer sent; then nothing changes. The remaining pairs don't change. The
    /// event must fit the lengths and the profiles of the pair, after fewer than 2^64 - 1 steps of it.
    pub fn step(&mut self, pair: u16, event: &Event) -> Result<Entry, StepFault>
        requires first { 1 ≤ pair }
        requires last { pair ≤ length self.old }
        requires fits { IfSome (numbered pair self.old) (λ v. Fits (length_of (lengths_of v)) (profile_of (profiles_of v)) event.now) }
        requires fewer { IfSome (numbered pair self.old) (λ v. steps_done v + 1 < 2 ^ 64) }
        ensures steps { IfOk result (λ x. StepsAt pair self.old event.now x self.new) }
        ensures misses { OnErr result (IfSome (numbered pair self.old) (λ v. Misses v event.now)) }
        ensures kept { OnErr result (self.new ≡ self.old) }
        ensures others { (other : ℕ) → other ≢ pair → numbered other self.new ≡ numbered other self.old }
        ensures many { length self.new ≡ length self.old }
    {
        self.pairs[usize::from(pair) - 1].step(event)
    }

    /// Returns the number, from 1, of the first `other` entry among those of this pair, or None if there is none so
    /// far.
    pub fn other(&self, pair: u16) -> Option<u64>
        requires first { 1 ≤ pair }
        requires last { pair ≤ length self.now }
        ensures { IfSome (numbered pair self.now) (λ v. (ms : MasterSettings) (ss : SlaveSettings) (w : List Entry) → DuoStands ms ss v w → result ≡ first_other w) }
    {
        self.pairs[usize::from(pair) - 1].other()
    }
}
