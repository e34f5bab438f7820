//! The bounds that a plant's run watches.
ghost use Rattle.std.specs.Prelude.{◌≡◌, ◌≢◌, ◌≤◌, ◌+◌, ◌++◌, [], All, IfOk, length, option_copied};
ghost use Rattle.std.specs.List.{AllZip};
ghost use Rattle.plant_model.specs.BoundLines.{age_text, bit_text, broken_text, limit_of};
ghost use Rattle.plant_model.specs.Pair.{link_at};
ghost use Rattle.plant_core.specs.Standing.{seen};
ghost use Rattle.plant_run.specs.Running.{AreAged, HasRoom, HearsOne, ShowsBound, watched_by};

use failsafe_io::{Application, Bit};
use fsoe_base::{End, Memory};
use fsoe_io::LineText;
use plant_conf::{BoundSpec, LinkConf};
use plant_core::Plant;
use reaction_bound::Reaction;
use std::alloc::Global;

/// The connection with this number, from 1, if there is one.
fn link_at(links: &[LinkConf], link: u16) -> Option<&LinkConf>
    ensures { option_copied result ≡ link_at links.now link }
{
    if link == 0 {
        return None;
    }
    links.get(usize::from(link) - 1)
}

/// The limit of a bound in ticks: twice both master watchdogs, or 0 if one of the connections doesn't exist.
fn limit_of(links: &[LinkConf], bound: BoundSpec) -> u32
    ensures { result ≡ limit_of links.now bound }
{
    let estop = link_at(links, bound.estop.link);
    let drive = link_at(links, bound.drive.link);
    match (estop, drive) {
        (Some(estop), Some(drive)) => {
            2 * u32::from(estop.master.watchdog()) + 2 * u32::from(drive.master.watchdog())
        }
        _ => 0,
    }
}

/// A bound that a plant's run watches, with its limit and its reaction.
#[derive(Drop)]
pub(crate) struct Watched {
    pub(crate) bound: BoundSpec,
    pub(crate) limit: u32,
    pub(crate) reaction: Reaction,
}

/// Watches these bounds, with reactions that have observed nothing.
pub(crate) fn watched_made(
    alloc: Global,
    links: &[LinkConf],
    bounds: &[BoundSpec],
) -> Result<Vec<Watched>, Memory>
    ensures { IfOk result (λ made. made.items ≡ watched_by links.now (λ bound. []) bounds.now) }
{
    let Ok(mut made) = Vec::with_capacity(alloc, bounds.len()) else {
        return Err(Memory);
    };
    for i in 0..bounds.len() {
        let bound = bounds[i];
        let limit = limit_of(links, bound);
        let watched = Watched {
            bound,
            limit,
            reaction: Reaction::new(limit),
        };
        if made.push(watched).is_err() {
            return Err(Memory);
        }
    }
    Ok(made)
}

/// Updates a reaction after a line of the script, by whether the stop is active, and after a tick by whether the drive
/// is on.
#[tactic(auto, using(crate::proofs::Hearing::tick_heard, crate::proofs::Hearing::other_heard))]
fn hear_one<A: Application>(plant: &Plant<A>, tick: bool, watched: &mut Watched)
    requires { HasRoom watched.old }
    ensures { HearsOne (seen A.rule A.holds A.guards plant.now) tick watched.old watched.new }
{
    let still = plant.is_still(watched.bound);
    if tick {
        watched.reaction.tick(plant.is_on(watched.bound.drive));
        watched.reaction.quiet(still);
    } else {
        watched.reaction.quiet(still);
    }
}

/// Updates the reactions of the bounds that are watched after a line of the script, which may be a tick. The plant did
/// it.
pub(crate) fn hear<A: Application>(plant: &Plant<A>, tick: bool, watched: &mut Vec<Watched>)
    requires { All HasRoom watched.old.items }
    ensures { AllZip (HearsOne (seen A.rule A.holds A.guards plant.now) tick) watched.old.items watched.new.items }
{
    let all = watched.as_mut_slice();
    for i in 0..all.len() {
        hear_one(plant, tick, &mut all[i]);
    }
}

/// Appends the connection of a bit, and its number there.
fn push_bit(bit: Bit, text: &mut LineText)
    requires { length text.old ≤ 200 }
    ensures text { text.new ≡ text.old ++ bit_text bit }
    ensures most { length text.new ≤ length text.old + 41 }
{
    text.push_decimal(u64::from(bit.link));
    text.push_str(".");
    text.push_decimal(u64::from(bit.bit));
}

/// Appends an age, or `-` if there was none.
fn push_age(age: Option<u32>, text: &mut LineText)
    requires { length text.old ≤ 200 }
    ensures text { text.new ≡ text.old ++ age_text age }
    ensures most { length text.new ≤ length text.old + 20 }
{
    match age {
        Some(age) => text.push_decimal(u64::from(age)),
        None => text.push_str("-"),
    }
}

/// Appends whether a bound was kept, or its first late tick.
fn push_broken(broken: Option<u64>, text: &mut LineText)
    requires { length text.old ≤ 400 }
    ensures text { text.new ≡ text.old ++ broken_text broken }
    ensures most { length text.new ≤ length text.old + 27 }
{
    match broken {
        Some(tick) => {
            text.push_str("broken ");
            text.push_decimal(tick);
        }
        None => text.push_str("kept"),
    }
}

/// Writes the line of a bound with this limit and this first late tick.
pub(crate) fn write_bound<A: Application>(
    plant: &Plant<A>,
    bound: BoundSpec,
    limit: u32,
    broken: Option<u64>,
    text: &mut LineText,
)
    requires { AreAged plant.now.links bound }
    ensures shown { ShowsBound (seen A.rule A.holds A.guards plant.now) bound limit broken text.new }
    ensures some { text.new ≢ [] }
{
    text.clear();
    text.push_str("bound i");
    push_bit(bound.estop, text);
    text.push_str(" o");
    push_bit(bound.drive, text);
    text.push_str(" ");
    text.push_decimal(u64::from(limit));
    text.push_str(" worst ");
    push_age(plant.worst(bound.estop.link, End::Master), text);
    text.push_str(" ");
    push_age(plant.worst(bound.drive.link, End::Slave), text);
    text.push_str(" ");
    push_broken(broken, text);
    text.push_str("\n");
}
