//! A plant that runs over its script.
ghost use Rattle.std.specs.Prelude.{false, ◌≡◌, ◌≤◌, ◌+◌, ◌++◌, length, map, codes, decimal};
ghost use Rattle.hex.specs.Hex.{encode_lower};
ghost use Rattle.fsoe_base.specs.Command.{state_name};
ghost use Rattle.fsoe_base.specs.declared.lengths.TheConstants.{MOST_DATA};
ghost use Rattle.multi_master.specs.Calls.{app_view};
ghost use Rattle.plant_model.specs.Pair.{is_tick_step};
ghost use Rattle.plant_run.specs.Given.{named, terms_of};
ghost use Rattle.plant_run.specs.Running.{RunCloses, RunStands, rest_in, rest_left};
ghost use Rattle.plant_model.specs.PlantReport.{link_line};
ghost use Rattle.plant_run.specs.Reporting.{plant_reporting};
ghost use Rattle.plant_core.specs.Standing.{HasLink, ShowsPair, TellsOther, seen};
ghost use Rattle.plant_model.specs.declared.journal.JournalStep.TheVariants as step;

use crate::script::{ScriptFormat, ScriptHeader};
use crate::watching::{Watched, hear, watched_made, write_bound};
use black_channel::Channel;
use failsafe_io::Application;
use fb_net::{EntryOf, KindOf};
use file_run::{Machine, Stopped, ended_with, push_other};
use fsoe_base::{Memory, State};
use fsoe_io::{Ended, LineText};
use plant_conf::PlantConf;
use plant_core::Plant;
use plant_model::{PlantEvent, PlantLine};
use std::alloc::Global;
use std::marker::PhantomData;

/// The most events of a script, its lines for applications among them.
pub const MAX_SCRIPT: u64 = 2_000;

/// What a plant is run with: the applications that its script may take, in their order, and the plant, which begins at
/// the script's first line, as do the bounds of its configuration to be watched. What a run owns is borrowed for a
/// lifetime of its own.
#[derive(Drop)]
pub(crate) struct PlantRun<'a, 'o, H: Application, C> {
    pub alloc: Global,
    pub conf: &'a PlantConf,
    pub channel: &'a mut C,
    pub spare: &'o mut Vec<EntryOf<H>>,
    pub plant: &'o mut Plant<KindOf<H>>,
    pub watched: &'o mut Vec<Watched>,
}

/// The lines of a report that come next.
#[derive(Clone, Copy)]
enum Rest {
    Nothing,
    /// Those of the connections, from this place on.
    Links(u16),
    /// Those of the bounds, from this place on.
    Bounds(usize),
}

/// How far the report of a plant is written.
#[derive(Drop)]
pub(crate) struct Telling<'a, 'o, H: Application, C> {
    /// The ticks so far.
    ticks: u64,
    rest: Rest,
    of: PhantomData<PlantRun<'a, 'o, H, C>>,
}

/// Appends the state and the outputs of an end.
fn push_end(state: State, outputs: &[u8], text: &mut LineText)
    requires outputs { length outputs.now ≤ MOST_DATA }
    requires room { length text.old ≤ 600 }
    ensures text { text.new ≡ text.old ++ (codes " " ++ state_name state ++ codes " " ++ encode_lower outputs.now) }
    ensures most { length text.new ≤ length text.old + 270 }
{
    text.push_str(" ");
    text.push_str(state.name());
    text.push_str(" ");
    text.push_hex(outputs);
}

/// Writes the line of a connection: its number, and the state and outputs of both ends, the master first.
fn write_link<A: Application>(plant: &Plant<A>, link: u16, text: &mut LineText)
    requires { HasLink plant.now link }
    ensures { ShowsPair (seen A.rule A.holds A.guards plant.now) link text.new (λ conf w. link_line conf link w) }
{
    text.clear();
    text.push_small(link);
    push_end(plant.master_state(link), plant.master_outputs(link), text);
    push_end(plant.slave_state(link), plant.slave_outputs(link), text);
    text.push_str("\n");
}

/// Whether an event of the script is a tick.
fn is_tick(event: &PlantEvent) -> bool
    ensures { result ≡ is_tick_step (step.Script event.now) }
{
    matches!(event, PlantEvent::Tick)
}

/// Writes a word and a number as a line.
fn write_count(word: &str, n: u64, text: &mut LineText)
    requires { length word.now ≤ 8 }
    ensures text { text.new ≡ word.now ++ codes " " ++ decimal n ++ codes "\n" }
    ensures most { length text.new ≤ 30 }
{
    text.clear();
    text.push_str(word);
    text.push_str(" ");
    text.push_decimal(n);
    text.push_str("\n");
}

/// The lowest connection of a plant whose pair has an `other` entry.
fn other_of<A: Application>(plant: &Plant<A>) -> Option<u64>
    ensures { TellsOther (seen A.rule A.holds A.guards plant.now) result }
{
    match plant.other() {
        Some(link) => Some(u64::from(link)),
        None => None,
    }
}

impl<'a, 'o, H: Application, C: Channel> Machine for Telling<'a, 'o, H, C> {
    type Format = ScriptFormat;

    type Handed = PlantRun<'a, 'o, H, C>;

    ghost reporting = { λ given. let K = ⟦<KindOf<H> as Application>⟧ in plant_reporting (terms_of (app_view K.rule K.holds K.guards) given.conf.now given.plant.now.master.app given.spare.now.items) };

    ghost stands = { λ first v now h log text. let K = ⟦<KindOf<H> as Application>⟧ in let view = app_view K.rule K.holds K.guards in
        ((now.channel.ghost_name ≡ first.channel.ghost_name) × (now.plant.ghost_name ≡ first.plant.ghost_name) × (C.name now.channel.now ≡ C.name first.channel.now)) × (now.conf ≡ first.conf)
        × RunStands (terms_of view first.conf.now first.plant.now.master.app first.spare.now.items) (C.told first.channel.now) (record { plant = seen K.rule K.holds K.guards now.plant.now; watched = now.watched.now.items; left = map (named view) now.spare.now.items; told = C.told now.channel.now }) v.ticks h log text };

    ghost waits = { λ v now. rest_in v.rest now.conf.now now.plant.now.journal now.watched.now.items };

    ghost parts = { λ v now. rest_left v.rest };

    ghost closes = { λ first now h log text ended. let K = ⟦<KindOf<H> as Application>⟧ in let view = app_view K.rule K.holds K.guards in
        RunCloses (terms_of view first.conf.now first.plant.now.master.app first.spare.now.items) (C.told first.channel.now) (record { plant = seen K.rule K.holds K.guards now.plant.now; watched = now.watched.now.items; left = map (named view) now.spare.now.items; told = C.told now.channel.now }) h log text ended };

    fn laws() {}

    fn open(given: &PlantRun<'a, 'o, H, C>) -> Result<ScriptHeader, Memory> {
        Ok(ScriptHeader::new(given.conf.links()))
    }

    fn begin(
        _: &ScriptHeader,
        given: &mut PlantRun<'a, 'o, H, C>,
    ) -> Result<Telling<'a, 'o, H, C>, Memory> {
        let mut watched = watched_made(given.alloc, given.conf.links(), given.conf.bounds())?;
        given.plant.begin(given.alloc, given.conf, given.channel)?;
        hear(&*given.plant, false, &mut watched);
        *given.watched = watched;
        Ok(Telling {
            ticks: 0,
            rest: Rest::Nothing,
            of: PhantomData,
        })
    }

    fn is_full(&self, _: &PlantRun<'a, 'o, H, C>, events: u64) -> bool {
        events >= MAX_SCRIPT
    }

    fn report(
        &mut self,
        given: &mut PlantRun<'a, 'o, H, C>,
        event: &PlantLine,
        _: u64,
        text: &mut LineText,
    ) -> Result<(), Stopped> {
        text.clear();
        self.rest = Rest::Nothing;
        match event {
            PlantLine::Step(event) => match given.plant.step(event, given.channel) {
                Ok(()) => {
                    let tick = is_tick(event);
                    hear(&*given.plant, tick, given.watched);
                    if tick {
                        self.ticks += 1;
                        self.rest = Rest::Links(0);
                        write_count("tick", self.ticks, text);
                    }
                    Ok(())
                }
                Err(_) => Err(Stopped::Memory),
            },
            PlantLine::App(name) => {
                given.plant.take_spare(name.bytes(), given.spare)?;
                hear(&*given.plant, false, given.watched);
                Ok(())
            }
            PlantLine::End => unreachable!(),
        }
    }

    fn close(&mut self, given: &PlantRun<'a, 'o, H, C>, _: u64, text: &mut LineText) -> Ended {
        self.rest = Rest::Bounds(0);
        let other = other_of(&*given.plant);
        write_count("ticks", self.ticks, text);
        push_other(other, text);
        ended_with(other)
    }

    fn more(&mut self, given: &PlantRun<'a, 'o, H, C>, text: &mut LineText) {
        text.clear();
        match self.rest {
            Rest::Links(place) if place < given.plant.links() => {
                write_link(&*given.plant, place + 1, text);
                self.rest = Rest::Links(place + 1);
            }
            Rest::Bounds(place) if place < given.conf.bounds().len() => {
                let watched = &given.watched[place];
                let broken = watched.reaction.broken();
                write_bound(&*given.plant, watched.bound, watched.limit, broken, text);
                self.rest = Rest::Bounds(place + 1);
            }
            _ => {}
        }
    }
}
