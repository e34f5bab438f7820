//! The run of a plant by the configuration that a desk has.
ghost use Rattle.std.specs.Prelude.{◌≡◌, ◌≢◌, ◌≤◌, ℕ, List, [], Ok, map};
ghost use Rattle.fsoe_io.specs.declared.status.Status.TheVariants as status;
ghost use Rattle.file_run.specs.Ending.{Writes};
ghost use Rattle.file_run.specs.Outside as outside;
ghost use Rattle.plant_setup.specs.ConfigLine.{config_line};
ghost use Rattle.multi_master.specs.Calls.{app_view};
ghost use Rattle.plant_file.specs.Handed.{handed};
ghost use Rattle.plant_file.specs.Noted.{RanWanted};
ghost use Rattle.plant_file.specs.Plant.{RanFile, RanSaid};

use crate::noted::{Wanted, run_wanted};
use black_channel::Channel;
use failsafe_io::Application;
use fb_net::AppEntry;
use file_run::write_report;
use fsoe_io::{Desk, Ended, LineText, LoadFault, Sink, Source, Status};
use plant_conf::{ConfFault, PlantConf, read_conf};
use plant_run::Journal;
use plant_setup::{SetupFault, set_up, write_config_line};
use std::alloc::Global;

/// The most bytes of a configuration.
pub const MAX_CONFIG: usize = 262_144;

/// How a run ends that has no memory to begin with.
const NO_MEMORY: Ended = Ended {
    status: Status::Memory,
    place: 0,
};

/// Writes the line that reports why a configuration can't be run. The run ends so, unless the write fails.
fn refuse<K: Sink>(why: SetupFault, sink: &mut K) -> Ended
    ensures writes { Writes 0 (config_line why) (record { status = status.Config; place = 0 }) result (outside.told K.written K.faults sink.old sink.new) }
    ensures later { K.faults sink.old ≤ K.faults sink.new }
{
    let mut line = LineText::new();
    write_config_line(why, &mut line);
    let ended = Ended {
        status: Status::Config,
        place: 0,
    };
    write_report(sink, line.bytes(), ended)
}

/// Runs a plant of this configuration over its script, with the application and the channel that it names. If it can't
/// be run with those of the caller, the line that reports why is written.
fn run_conf<S: Source, K: Sink>(
    alloc: Global,
    mut conf: PlantConf,
    source: &mut S,
    sink: &mut K,
    apps: Vec<AppEntry>,
    channels: &mut Vec<Box<dyn Channel>>,
    journal: &mut Journal,
    wanted: Wanted,
) -> Ended
    requires empty { journal.old ≡ [] }
    ensures ran { let A = ⟦<Box<dyn Application> as Application>⟧ in let C = ⟦<Box<dyn Channel> as Channel>⟧ in
        RanSaid (RanWanted wanted) (Ok conf) result
        (record { source = outside.told S.left S.faults source.old source.new; sink = outside.told K.written K.faults sink.old sink.new })
        (handed (app_view A.rule A.holds A.guards) C.name C.told apps.items channels.old.items channels.new.items source.old source.new journal.new) }
    ensures names_stay { let C = ⟦<Box<dyn Channel> as Channel>⟧ in map C.name channels.new.items ≡ map C.name channels.old.items }
{
    match set_up(&mut conf, apps, channels.as_slice()) {
        Ok(setup) => {
            let channel = &mut channels[setup.channel];
            run_wanted(
                alloc,
                &conf,
                setup.app,
                channel,
                setup.spare,
                source,
                sink,
                journal,
                wanted,
            )
        }
        Err(why) => refuse(why, sink),
    }
}

/// Runs a plant by the configuration that a desk has under this name. If no plant runs, the source is unchanged. After
/// a run each channel has the name that it had.
pub fn run_file<D: Desk, S: Source, K: Sink>(
    alloc: Global,
    file: &str,
    desk: &mut D,
    source: &mut S,
    sink: &mut K,
    apps: Vec<AppEntry>,
    channels: &mut Vec<Box<dyn Channel>>,
    journal: &mut Journal,
    wanted: Wanted,
) -> Ended
    requires empty { journal.old ≡ [] }
    ensures ran { let A = ⟦<Box<dyn Application> as Application>⟧ in let C = ⟦<Box<dyn Channel> as Channel>⟧ in
        RanFile (RanWanted wanted) result
        (record { source = outside.told S.left S.faults source.old source.new; sink = outside.told K.written K.faults sink.old sink.new })
        (record { text = D.holds desk.old file.now; faults_before = D.faults desk.old file.now; faults_after = D.faults desk.new file.now })
        (handed (app_view A.rule A.holds A.guards) C.name C.told apps.items channels.old.items channels.new.items source.old source.new journal.new) }
    ensures names_stay { let C = ⟦<Box<dyn Channel> as Channel>⟧ in map C.name channels.new.items ≡ map C.name channels.old.items }
    ensures others { (other : List ℕ) → other ≢ file.now → D.faults desk.new other ≡ D.faults desk.old other }
{
    match desk.load(file, MAX_CONFIG) {
        Ok(text) => match read_conf(alloc, text.as_slice()) {
            Ok(conf) => run_conf(alloc, conf, source, sink, apps, channels, journal, wanted),
            Err(ConfFault::Memory) => NO_MEMORY,
            Err(why) => refuse(SetupFault::Conf(why), sink),
        },
        Err(LoadFault::Failed) => {
            let ended = Ended {
                status: Status::Desk,
                place: 0,
            };
            write_report(sink, b"desk failed\n", ended)
        }
        Err(LoadFault::TooLong) => refuse(SetupFault::TooLong, sink),
        Err(LoadFault::Memory) => NO_MEMORY,
    }
}
