//! Both ends of a connection over a schedule.
ghost use Rattle.std.specs.Prelude.{◌≡◌, ◌≤◌, ◌<◌, ◌+◌, ◌^◌, List, [], length, option_copied, IfOk, OnErr, OnOk};
ghost use Rattle.duo_run.specs.Acts.{Hears};

use crate::coming::{alter, came, end_of, move_at, moved};
use crate::fault::StepFault;
use black_channel::Window;
use exchange_model::Monitor;
use fsoe_base::{End, FrameBuf, Image, MOST_DATA, State};
use master_core::Master;
use param_load::{Answer, Entry, MasterSettings, SlaveSettings, Terms};
use schedule_file::Event;
use slave_core::Slave;
use std::marker::Model;

/// A copy of these terms, if there are some.
fn copied(terms: Option<&Terms>) -> Option<Terms>
    ensures { result ≡ option_copied terms.entry }
{
    match terms {
        Some(terms) => Some(terms.copy()),
        None => None,
    }
}

/// Stores the frame of a step in the window of its end, if one was sent.
#[tactic(auto, using(crate::proofs::Pair::Heard::hears_frame, crate::proofs::Pair::Heard::hears_none))]
fn hear(window: &mut Window, sent: &FrameBuf)
    ensures { Hears window.old sent.now window.new }
{
    if !sent.is_empty() {
        window.push(sent.bytes());
    }
}

/// Both ends of a connection, with a channel that stores the last frames of each end: any of these can be delivered to
/// the other end, also repeatedly. A monitor judges the run. No call allocates.
#[derive(Drop)]
pub struct Duo {
    master: Master,
    slave: Slave,
    master_sent: Window,
    slave_sent: Window,
    monitor: Monitor,
    /// Where a frame is copied to be altered.
    altered: FrameBuf,
}

impl Model for Duo {
    ghost use Rattle.duo_run.specs.Duo.{DuoView, IsDuo};

    ghost Value = { DuoView };

    ghost view = { λ d. record { master = d.master; slave = d.slave; master_sent = d.master_sent; slave_sent = d.slave_sent; monitor = d.monitor } };

    ghost invariant = { λ d. IsDuo (record { master = d.master; slave = d.slave; master_sent = d.master_sent; slave_sent = d.slave_sent; monitor = d.monitor }) };
}

impl Duo {
    ghost use Rattle.fsoe_base.specs.LengthsOf.{length_of};
    ghost use Rattle.param_load.specs.declared.entry.Entry.{Entry};
    ghost use Rattle.param_load.specs.declared.master_settings.MasterSettings.{MasterSettings};
    ghost use Rattle.param_load.specs.declared.slave_settings.SlaveSettings.{SlaveSettings};
    ghost use Rattle.schedule_file.specs.Event.{Fits, profile_of};
    ghost use Rattle.exchange_model.specs.Ends.{peer};
    ghost use Rattle.exchange_model.specs.World.{SameLengths};
    ghost use Rattle.exchange_model.specs.Other.{first_other};
    ghost use Rattle.duo_run.specs.Duo.{sent_by, lengths_of, profiles_of, steps_done, DuoStands, Steps, Advances, Misses, ShowsLast};

    /// Creates two new ends with these settings, which have the same lengths.
    #[tactic(auto, using(crate::proofs::Pair::Began::stands_new, crate::proofs::Pair::Began::is_duo))]
    pub fn new(master: MasterSettings, slave: SlaveSettings) -> Duo
        requires { SameLengths master slave }
        ensures stands { DuoStands master slave result [] }
        ensures lengths { lengths_of result ≡ master.lengths }
        ensures profiles { profiles_of result ≡ record { master = master.profile; slave = slave.profile } }
        ensures none { steps_done result ≡ 0 }
    {
        Duo {
            master: Master::new(master),
            slave: Slave::new(slave),
            master_sent: Window::new(),
            slave_sent: Window::new(),
            monitor: Monitor::new(),
            altered: FrameBuf::new(),
        }
    }

    /// Does one event, and returns the entry. `NoSuchFrame` if and only if it names a frame further back than the peer
    /// sent; then nothing changes. It must fit the lengths and the profiles, after fewer than 2^64 - 1 steps.
    pub fn step(&mut self, event: &Event) -> Result<Entry, StepFault>
        requires fits { Fits (length_of (lengths_of self.old)) (profile_of (profiles_of self.old)) event.now }
        requires fewer { steps_done self.old + 1 < 2 ^ 64 }
        ensures steps { IfOk result (λ x. Steps self.old event.now x self.new) }
        ensures misses { OnErr result (Misses self.old event.now) }
        ensures kept { OnErr result (self.new ≡ self.old) }
        ensures lengths { lengths_of self.new ≡ lengths_of self.old }
        ensures profiles { profiles_of self.new ≡ profiles_of self.old }
        ensures done { OnOk result (steps_done self.new ≡ steps_done self.old + 1) }
    {
        let at = end_of(event);
        let what = moved(event, self.heard(at))?;
        let mut answer = Answer::new();
        self.advance(event, &mut answer)?;
        let mut outputs = Image::new();
        outputs.set(self.outputs_of(at));
        Ok(Entry {
            end: at,
            what,
            did: answer.did,
            sent: answer.sent,
            state: self.state_of(at),
            outputs,
            terms: copied(self.terms_of(at)),
        })
    }

    /// Does one event, as `step` does, and makes no entry. What the end did and the frame that it sent are written to
    /// `answer`; the rest of the entry is read from the end.
    pub(crate) fn advance(&mut self, event: &Event, answer: &mut Answer) -> Result<(), StepFault>
        requires fits { Fits (length_of (lengths_of self.old)) (profile_of (profiles_of self.old)) event.now }
        requires fewer { steps_done self.old + 1 < 2 ^ 64 }
        ensures advances { OnOk result (Advances self.old event.now answer.new.did answer.new.sent self.new) }
        ensures misses { OnErr result (Misses self.old event.now) }
        ensures kept { OnErr result (self.new ≡ self.old) }
        ensures lengths { lengths_of self.new ≡ lengths_of self.old }
        ensures profiles { profiles_of self.new ≡ profiles_of self.old }
        ensures done { OnOk result (steps_done self.new ≡ steps_done self.old + 1) }
    {
        match end_of(event) {
            End::Master => {
                alter(event, &self.slave_sent, &mut self.altered);
                let came = came(event, &self.slave_sent, &self.altered)?;
                self.master.act(move_at(event, came), answer);
                self.monitor
                    .note_parts(End::Master, came, &answer.did, &answer.sent);
                hear(&mut self.master_sent, &answer.sent);
                Ok(())
            }
            End::Slave => {
                alter(event, &self.master_sent, &mut self.altered);
                let came = came(event, &self.master_sent, &self.altered)?;
                self.slave.act(move_at(event, came), answer);
                self.monitor
                    .note_parts(End::Slave, came, &answer.did, &answer.sent);
                hear(&mut self.slave_sent, &answer.sent);
                Ok(())
            }
        }
    }

    /// The last frames of the peer of an end.
    fn heard(&self, to: End) -> &Window
        ensures { result.now ≡ sent_by (peer to) self.now }
    {
        match to {
            End::Master => &self.slave_sent,
            End::Slave => &self.master_sent,
        }
    }

    /// The state of an end.
    #[tactic(auto, using(crate::proofs::Pair::Told::master_shows, crate::proofs::Pair::Told::slave_shows, crate::proofs::Pair::Told::tells_state))]
    pub(crate) fn state_of(&self, at: End) -> State
        ensures { ShowsLast self.now at result (λ x. x.state) }
    {
        match at {
            End::Master => self.master.state(),
            End::Slave => self.slave.state(),
        }
    }

    /// The outputs of an end.
    #[tactic(auto, using(crate::proofs::Pair::Told::master_shows, crate::proofs::Pair::Told::slave_shows, crate::proofs::Pair::Told::tells_outputs))]
    pub(crate) fn outputs_of(&self, at: End) -> &[u8]
        ensures shown { ShowsLast self.now at result.now (λ x. x.outputs) }
        ensures most { length result.now ≤ MOST_DATA }
    {
        match at {
            End::Master => self.master.outputs(),
            End::Slave => self.slave.outputs(),
        }
    }

    /// The terms of an end, None in every state except Data.
    #[tactic(auto, using(crate::proofs::Pair::Told::master_shows, crate::proofs::Pair::Told::slave_shows, crate::proofs::Pair::Told::tells_terms))]
    fn terms_of(&self, at: End) -> Option<&Terms>
        ensures { ShowsLast self.now at (option_copied result) (λ x. x.terms) }
    {
        match at {
            End::Master => self.master.terms(),
            End::Slave => self.slave.terms(),
        }
    }

    /// Returns the number, from 1, of the first `other` entry so far, or None if there is none.
    pub fn other(&self) -> Option<u64>
        ensures { (ms : MasterSettings) (ss : SlaveSettings) (w : List Entry) → DuoStands ms ss self.now w → result ≡ first_other w }
    {
        self.monitor.other()
    }

    /// Returns the master, to read it.
    pub fn master(&self) -> &Master
        ensures { result.now ≡ self.now.master }
    {
        &self.master
    }

    /// Returns the slave, to read it.
    pub fn slave(&self) -> &Slave
        ensures { result.now ≡ self.now.slave }
    {
        &self.slave
    }
}
