//! The run of a plant over the lines of its script.
ghost use Rattle.std.specs.Prelude.{◌≡◌, []};
ghost use Rattle.multi_master.specs.Calls.{app_view};
ghost use Rattle.plant_run.specs.Given.{terms_of};
ghost use Rattle.plant_run.specs.Ran.{RanPlant};
ghost use Rattle.file_run.specs.Outside.{told};

use crate::machine::{PlantRun, Telling};
use black_channel::Channel;
use failsafe_io::Application;
use fb_net::{EntryOf, KindOf};
use file_run::run_over;
use fsoe_io::{Ended, Sink, Source};
use plant_conf::PlantConf;
use plant_core::{Journal, Plant};
use std::alloc::Global;

/// Runs a plant of this configuration's connections over its script: reads its first line, begins the plant, and does
/// an event from each line up to `end`, at most 2,000. After each tick it writes `tick <n>`, and for each connection
/// `<k> <state> <outputs> <state> <outputs>`, its master first. At the end it writes `ticks <n>`, and `other none` or
/// `other <k>` with the lowest connection that has an `other` entry. For each bound it writes
/// `bound <estop> <drive> <limit> worst <master> <slave> kept`, or `broken <tick>` in place of `kept`. If a line is
/// refused, it writes `refused <line> <cause>`, with `NoApp` if no unused application has the name. Buffered output is
/// flushed before each read that may block, and at the end of the run.
///
/// The line of a bound has its limit in ticks, twice the watchdogs of both its connections. It has the greatest ages of
/// the outputs of the e-stop's master and of the drive's slave, `-` if there was none. The bound is broken at the first
/// tick that leaves the drive on although at least the limit of ticks, itself counted, came since the stop became
/// active. A bound without a connection has the limit 0, and without a drive it is never broken.
///
/// The status is `Ok` with place 0, or `Other` with the lowest connection that has an `other` entry. `Line` has the
/// number of the refused line. `Read` has the complete lines read, only if the source failed; `Write` has the bytes
/// written, only if the sink failed; `Memory` has place 0. In every case the journal has the steps that were done, also
/// of lines whose text a failed write left out. From the script's first line on it has the first cycle's offers.
pub fn run_plant<H: Application, C: Channel, S: Source, K: Sink>(
    alloc: Global,
    conf: &PlantConf,
    app: KindOf<H>,
    channel: &mut C,
    spare: Vec<EntryOf<H>>,
    source: &mut S,
    sink: &mut K,
    journal: &mut Journal,
) -> Ended
    requires empty { journal.old ≡ [] }
    ensures name_stays { C.name channel.new ≡ C.name channel.old }
    ensures ran { let A = ⟦<KindOf<H> as Application>⟧ in RanPlant (terms_of (app_view A.rule A.holds A.guards) conf.now app spare.items) result (record {
      source = told S.left S.faults source.old source.new;
      sink = told K.written K.faults sink.old sink.new;
    }) (C.told channel.old) (C.told channel.new) journal.new }
{
    let mut spare = spare;
    let mut plant = Plant::unbegun(alloc, app);
    let mut watched = Vec::new(alloc);
    let mut given = PlantRun {
        alloc,
        conf,
        channel,
        spare: &mut spare,
        plant: &mut plant,
        watched: &mut watched,
    };
    let ended = run_over::<Telling<'_, '_, H, C>, S, K>(&mut given, source, sink);
    *journal = plant.into_journal();
    ended
}
