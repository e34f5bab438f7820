//! Many connections and an application.
ghost use Rattle.std.specs.Prelude.{◌≡◌, ◌≤◌, ◌⊎◌, All, List, length, map};
ghost use Rattle.end_model.specs.Outputs.{out};
ghost use Rattle.end_model.specs.Readiness.{state_of};
ghost use Rattle.fsoe_base.specs.declared.command.End.TheVariants as side;
ghost use Rattle.fsoe_base.specs.declared.lengths.TheConstants.{MOST_DATA};
ghost use Rattle.plant_conf.specs.Kept.{HasSameLengths};
ghost use Rattle.plant_conf.specs.declared.conf.LinkConf.{LinkConf};
ghost use Rattle.plant_model.specs.Pair.{state_at, end_outputs, lowest_other};
ghost use Rattle.black_channel.specs.Told.{ChannelTold};
ghost use Rattle.plant_core.specs.Standing.{AllNoted};
ghost use Rattle.plant_model.specs.declared.journal.JournalStep.{JournalStep};

use crate::ends::{Ends, room_for};
use crate::journal::{Journal, take_room};
use crate::link::{Link, bit_of};
use crate::offers::note_offers;
use black_channel::Channel;
use failsafe_io::{Application, Bit};
use fb_net::{EntryOf, KindOf};
use file_run::Stopped;
use fsoe_base::{End, Memory, State};
use multi_master::MultiMaster;
use param_load::Answer;
use plant_conf::{BoundSpec, PlantConf};
use plant_model::PlantEvent;
use plant_setup::take_app;
use std::alloc::Global;
use std::marker::Model;

/// Up to 64 connections, each with both its ends, and an application that computes the offers of all masters. Their
/// frames go through a channel that is passed in with each call. What was done is recorded in a journal.
#[derive(Drop)]
pub struct Plant<A> {
    ends: Ends<A>,
    journal: Journal,
}

impl<A> Model for Plant<A> {
    ghost use Rattle.std.specs.Prelude.{length};
    ghost use Rattle.plant_core.specs.Standing.{PlantValue, IsPlant};

    ghost Value = { PlantValue A };

    ghost view = { λ p. record { master = p.ends.master; links = p.ends.links.items; journal = p.journal } };

    ghost invariant = { λ p. IsPlant p.ends.master p.ends.links.items p.ends.dids.items p.ends.outs.items (length p.journal) };
}

impl<A: Application> Plant<A> {
    ghost use Rattle.std.specs.Prelude.{[], map, IfOk, OnOk, OnErr, option_copied};
    ghost use Rattle.multi_master.specs.Calls.{app_view};
    ghost use Rattle.plant_model.specs.Acts.{Event, App, begins_with};
    ghost use Rattle.plant_core.specs.Making.{links_made};
    ghost use Rattle.plant_core.specs.Standing.{Starts, TellsStill, seen, fixed_in, kept_at, lengths_kept, HasDoneNothing, HasLink, Follows, ShowsPair, TellsOther, IsAged, ShowsOn, ShowsWorst};
    ghost use Rattle.plant_model.specs.Fits.{Fits, lengths_in};

    /// Creates a plant of this configuration's connections with this application, which begins. After `Memory` the
    /// channel is unchanged, and the application is dropped.
    pub fn new<C: Channel>(
        alloc: Global,
        conf: &PlantConf,
        app: A,
        channel: &mut C,
    ) -> Result<Plant<A>, Memory>
        ensures starts { IfOk result (λ plant. Starts (begins_with conf.now (app_view A.rule A.holds A.guards app)) (seen A.rule A.holds A.guards plant) (C.told channel.old) (C.told channel.new)) }
        ensures lengths { IfOk result (λ plant. lengths_kept plant.links ≡ map lengths_in conf.now.links) }
        ensures aged { IfOk result (λ plant. fixed_in plant.links ≡ fixed_in (links_made 1 conf.now.bounds conf.now.links)) }
        ensures name_stays { C.name channel.new ≡ C.name channel.old }
        ensures kept { OnErr result (channel.new ≡ channel.old) }
    {
        let mut plant = Plant::unbegun(alloc, app);
        plant.begin(alloc, conf, channel)?;
        Ok(plant)
    }

    /// Creates a plant that hasn't begun: it has no connection and an empty journal. A step before it begins is done as
    /// by any plant without connections. Doesn't allocate.
    pub fn unbegun(alloc: Global, app: A) -> Plant<A>
        ensures app { result.master.app ≡ app }
        ensures journal { result.journal ≡ [] }
        ensures nothing { HasDoneNothing (app_view A.rule A.holds A.guards app) (seen A.rule A.holds A.guards result) }
    {
        let ends = Ends {
            master: MultiMaster::unconnected(alloc, app),
            links: Vec::new(alloc),
            dids: Vec::new(alloc),
            outs: Vec::new(alloc),
            answer: Answer::new(),
        };
        Plant {
            ends,
            journal: Journal::new(alloc),
        }
    }

    /// Begins with this configuration's connections, in place of those before, and an empty journal. All memory is
    /// allocated first, then the channel begins with the seed, and the application runs its first (unticked) cycle. The
    /// greatest ages of outputs are kept of connections that a bound names. After `Memory` nothing is changed.
    pub fn begin<C: Channel>(
        &mut self,
        alloc: Global,
        conf: &PlantConf,
        channel: &mut C,
    ) -> Result<(), Memory>
        ensures starts { let seen = seen A.rule A.holds A.guards in OnOk result (Starts (begins_with conf.now (seen self.old).master.app) (seen self.new) (C.told channel.old) (C.told channel.new)) }
        ensures fixed { OnOk result (fixed_in self.new.links ≡ fixed_in (links_made 1 conf.now.bounds conf.now.links)) }
        ensures same_lengths { OnOk result (All HasSameLengths conf.now.links) }
        ensures name_stays { C.name channel.new ≡ C.name channel.old }
        ensures kept { OnErr result (self.new ≡ self.old) }
        ensures unused { OnErr result (channel.new ≡ channel.old) }
    {
        let mut journal = Journal::new(alloc);
        let links = conf.links();
        take_room(&mut journal.steps, links.len())?;
        self.ends.connect(alloc, links, conf.bounds())?;
        channel.begin(conf.seed());
        self.ends.master.first_cycle();
        note_offers(&self.ends.master, &mut self.ends.links, &mut journal.steps);
        self.journal = journal;
        Ok(())
    }

    /// Does one event of the script, which must fit the connections. At a tick up to 64 parcels are pulled from the
    /// channel, until it gives none. All room in the journal is allocated first; after `Memory` the plant and the
    /// channel are unchanged.
    pub fn step<C: Channel>(&mut self, event: &PlantEvent, channel: &mut C) -> Result<(), Memory>
        requires fits { Fits (lengths_kept self.old.links) event.now }
        ensures follows { let seen = seen A.rule A.holds A.guards in OnOk result (Follows (seen self.old) (Event event.now) (seen self.new) (C.told channel.old) (C.told channel.new)) }
        ensures fixed { fixed_in self.new.links ≡ fixed_in self.old.links }
        ensures name_stays { C.name channel.new ≡ C.name channel.old }
        ensures kept { OnErr result (self.new ≡ self.old) }
        ensures unused { OnErr result (channel.new ≡ channel.old) }
    {
        let room = room_for(event, self.ends.links.len());
        take_room(&mut self.journal.steps, room)?;
        self.ends.happen(event, &mut self.journal.steps, channel);
        Ok(())
    }

    /// Replaces the running application with `app`, which runs its first (unticked) cycle, and drops the old one. After
    /// `Memory` `app` is dropped, and the plant is unchanged.
    pub fn change_app(&mut self, app: A) -> Result<(), Memory>
        ensures follows { let seen = seen A.rule A.holds A.guards in OnOk result ((told : ChannelTold) → Follows (seen self.old) (App (app_view A.rule A.holds A.guards app)) (seen self.new) told told) }
        ensures fixed { fixed_in self.new.links ≡ fixed_in self.old.links }
        ensures kept { OnErr result (self.new ≡ self.old) }
    {
        take_room(&mut self.journal.steps, 1 + self.ends.links.len())?;
        self.ends.change_app(app, &mut self.journal.steps);
        Ok(())
    }

    /// What was done so far.
    pub fn journal(&self) -> &Journal
        ensures { result.now ≡ self.now.journal }
    {
        &self.journal
    }

    /// Consumes the plant and returns its journal.
    pub fn into_journal(self) -> Journal
        ensures { result ≡ self.journal }
    {
        self.journal
    }

    /// The number of connections, which are numbered from 1.
    pub fn links(&self) -> u16
        ensures count { result ≡ length self.now.links }
        ensures most { result ≤ 64 }
    {
        self.ends.links.len() as u16
    }

    /// Returns the lowest connection whose pair has an `other` entry.
    #[tactic(auto, using(crate::proofs::Others::other_told))]
    pub fn other(&self) -> Option<u16>
        ensures { TellsOther (seen A.rule A.holds A.guards self.now) result }
    {
        lowest_other(self.ends.links.as_slice())
    }

    /// Returns the greatest age of the outputs of this end, over all its steps: the ticks of this end since its peer
    /// sent the data of the outputs. If the connection exists, a bound of the configuration must name it. Returns None
    /// if there was no age, and 2^32 - 1 for all greater ones.
    #[tactic(auto, using(crate::proofs::Found::no_worst))]
    pub fn worst(&self, link: u16, end: End) -> Option<u32>
        requires { IsAged self.now.links link }
        ensures { ShowsWorst (seen A.rule A.holds A.guards self.now) link end result }
    {
        match self.link(link) {
            Some(link) => link.worst(end),
            None => None,
        }
    }

    /// Returns true if the output bit is 1 at the slave of its connection, false if there is no such bit.
    pub fn is_on(&self, out: Bit) -> bool
        ensures { ShowsOn (seen A.rule A.holds A.guards self.now) out result }
    {
        match self.link(out.link) {
            Some(link) => bit_of(link.outputs(), out.bit),
            None => false,
        }
    }

    /// Returns true if the bound's stop is active, as `quiet` says. An e-stop without a connection counts as pressed.
    pub fn is_still(&self, bound: BoundSpec) -> bool
        ensures { TellsStill (seen A.rule A.holds A.guards self.now) bound result }
    {
        let (inp, out) = (bound.estop, bound.drive);
        match self.link(inp.link) {
            Some(link) => !link.offers(inp.bit) && self.ends.master.guards(out, inp),
            None => self.ends.master.guards(out, inp),
        }
    }

    /// What is kept of the connection with this number, if there is one.
    fn link(&self, link: u16) -> Option<&Link>
        ensures { option_copied result ≡ kept_at self.now.links link }
    {
        if link == 0 {
            return None;
        }
        self.ends.links.get(usize::from(link) - 1)
    }

    /// The state of the slave of this connection.
    pub fn slave_state(&self, link: u16) -> State
        requires { HasLink self.now link }
        ensures { ShowsPair (seen A.rule A.holds A.guards self.now) link result (λ l w. state_at l side.Slave w) }
    {
        self.ends.links[usize::from(link) - 1].state()
    }

    /// The outputs of the slave of this connection.
    pub fn slave_outputs(&self, link: u16) -> &[u8]
        requires { HasLink self.now link }
        ensures shown { ShowsPair (seen A.rule A.holds A.guards self.now) link result.now (λ l w. end_outputs l side.Slave w) }
        ensures most { length result.now ≤ MOST_DATA }
    {
        self.ends.links[usize::from(link) - 1].outputs()
    }

    /// The state of the master of this connection.
    #[tactic(auto, using(crate::proofs::Readers::master_has, crate::proofs::Readers::master_state_shown))]
    pub fn master_state(&self, link: u16) -> State
        requires { HasLink self.now link }
        ensures { ShowsPair (seen A.rule A.holds A.guards self.now) link result (λ l w. state_at l side.Master w) }
    {
        self.ends.master.state(link)
    }

    /// The outputs of the master of this connection, which are inputs of the application.
    #[tactic(auto, using(crate::proofs::Readers::master_has, crate::proofs::Readers::master_outputs_shown))]
    pub fn master_outputs(&self, link: u16) -> &[u8]
        requires { HasLink self.now link }
        ensures shown { ShowsPair (seen A.rule A.holds A.guards self.now) link result.now (λ l w. end_outputs l side.Master w) }
        ensures most { length result.now ≤ MOST_DATA }
    {
        self.ends.master.outputs(link)
    }

    /// Returns true if these bits' stop is active: the slave sends the input bit as 0 or fail-safe data, and the
    /// running application guards the output bit by it. The input bit's connection must exist; a bit that isn't there
    /// is 0.
    pub fn quiet(&self, inp: Bit, out: Bit) -> bool
        requires { HasLink self.now inp.link }
        ensures { TellsStill (seen A.rule A.holds A.guards self.now) (record { estop = inp; drive = out }) result }
    {
        self.is_still(BoundSpec {
            estop: inp,
            drive: out,
        })
    }
}

impl<H: Application> Plant<KindOf<H>> {
    ghost use Rattle.std.specs.Prelude.{OnOk, OnErr, IfErr, None, string_bytes};
    ghost use Rattle.multi_master.specs.Calls.{app_view};
    ghost use Rattle.fb_net.specs.declared.kind_of.EntryOf.{EntryOf};
    ghost use Rattle.fb_net.specs.declared.kind_of.KindOf.TheVariants as kind;
    ghost use Rattle.file_run.specs.declared.stopped.Stopped.TheVariants as stopped;
    ghost use Rattle.plant_setup.specs.Names.{name_place, IsTaken};
    ghost use Rattle.plant_model.specs.Acts.{App};
    ghost use Rattle.plant_core.specs.Standing.{seen, fixed_in, Follows};

    /// Replaces the running application with the first unused one of this name, as `change_app` does. `NoApp` if there
    /// is none of this name, or `Memory`; then nothing is changed.
    pub fn take_spare(&mut self, name: &[u8], spare: &mut Vec<EntryOf<H>>) -> Result<(), Stopped>
        ensures follows { let K = ⟦<KindOf<H> as Application>⟧ in let seen = seen K.rule K.holds K.guards in
            OnOk result ((entry : EntryOf H) × IsTaken (λ e. string_bytes e.name) name.now spare.old.items entry spare.new.items
            × ((told : ChannelTold) → Follows (seen self.old) (App (app_view K.rule K.holds K.guards (kind.Handed entry.app))) (seen self.new) told told)) }
        ensures fixed { fixed_in self.new.links ≡ fixed_in self.old.links }
        ensures none { IfErr result (λ why. (why ≡ stopped.Memory) ⊎ ((why ≡ stopped.NoApp) × (name_place name.now (map (λ e. string_bytes e.name) spare.old.items) ≡ None))) }
        ensures kept { OnErr result (self.new ≡ self.old) }
        ensures unused { OnErr result (spare.new.items ≡ spare.old.items) }
    {
        if take_room(&mut self.journal.steps, 1 + self.ends.links.len()).is_err() {
            return Err(Stopped::Memory);
        }
        match take_app(name, spare) {
            Some(entry) => {
                self.ends
                    .change_app(KindOf::Handed(entry.app), &mut self.journal.steps);
                Ok(())
            }
            None => Err(Stopped::NoApp),
        }
    }
}

/// The lowest of these connections whose pair has an `other` entry.
fn lowest_other(links: &[Link]) -> Option<u16>
    requires { length links.now ≤ 64 }
    ensures { (confs : List LinkConf) (steps : List JournalStep) → AllNoted confs links.now steps → result ≡ lowest_other 1 confs steps }
{
    for i in 0..links.len() {
        if links[i].has_other() {
            return Some(i as u16 + 1);
        }
    }
    None
}
