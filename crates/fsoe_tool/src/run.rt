//! The run of a command.
ghost use Rattle.std.specs.Prelude.{◌≡◌, ◌≢◌, ℕ, List, [], false, map, string_bytes};
ghost use Rattle.file_run.specs.Outside as outside;
ghost use Rattle.multi_master.specs.Calls.{app_view};
ghost use Rattle.plant_file.specs.Handed.{desk_told, handed};
ghost use Rattle.fsoe_tool.specs.Command.{command_said, file_named};
ghost use Rattle.fsoe_tool.specs.Running.{Runs, ended_of, reads_input, runs_plant};

use crate::command::{Command, command_said, file_named};
use black_channel::Channel;
use duo_run::{run_bulk, run_replay};
use failsafe_io::Application;
use fb_net::AppEntry;
use file_run::write_report;
use fsoe_io::{Desk, Ended, Sink, Source, Status};
use node_runner::run_node;
use pair_convert::run_convert;
use plant_file::{Wanted, run_file};
use plant_run::Journal;
use process_image::run_image;
use std::alloc::Global;
use trace_diag::run_diagnose;

/// What is written if the arguments name no command.
const USAGE: &[u8] =
    b"usage: fsoe_tool node master|slave, replay, bulk <number> <events>, plant <file>, image, diagnose, convert\n";

/// How a run ended, and what it left.
#[derive(Drop)]
pub struct Outcome {
    /// The status, by whose number the program ends.
    pub status: Status,
    /// The place that is reported with it, or 0.
    pub place: u64,
    /// What a plant did. It is empty where none ran.
    pub journal: Journal,
}

/// What a run leaves that ended so and ran no plant.
fn without_journal(alloc: Global, ended: Ended) -> Outcome
    ensures ended { ended_of result ≡ ended }
    ensures journal { result.journal ≡ [] }
{
    Outcome {
        status: ended.status,
        place: ended.place,
        journal: Journal::new(alloc),
    }
}

/// Runs the command of the arguments after the program's name over what the source gives, and writes its report to the
/// sink.
///
/// - `node master`, `node slave`: runs this end over a node file. `image`: runs ends on fixed places of a cyclic image.
/// - `diagnose`: judges a recorded trace. `convert`: writes a pair file as a file of several pairs.
/// - `replay`: runs both ends of a pair over a schedule, or of several pairs with common ticks, as the first line says.
/// - `bulk <number> <events>`: runs both ends over the first events of the schedule of this seed, without the source.
/// - `plant <file>`: runs a plant over a script, by the configuration that the desk has under this name, of at most
///   262,144 bytes. If loading fails, it writes `desk failed`, with status `Desk`. If the plant can't be run with what
///   the caller gives, it writes `config <fault>`, with status `Config`. Then the source isn't read.
/// - If the arguments name no command, it writes the usage line, with status `Usage`, without the source.
///
/// The application of a plant that runs first is the net of the configuration if that names `net`, else the first of
/// `apps` of the name. The script takes others; the rest is dropped. The channel is the first of `channels` of the
/// name; all others are unchanged. The journal has what the plant did. Only `image`, `plant`, and `replay` of several
/// pairs allocate, and so can have the status `Memory`.
///
/// What holds of a command is its record in `Runs`. These are its laws, with the fields that state them:
///
/// - The law of the pair: an end takes data only from its peer's answer to its own last frame, unaltered and once,
///   under equal parameters. Its outputs are the data that it took last, and else zeros: outside state Data, after a
///   FailSafeData frame, and from the tick in which the watchdog expires. This holds of the entries before the first
///   `other` one, of all if there is none. An entry is `other` if a Connection, Parameter, ProcessData or FailSafeData
///   frame passed the test of its CRCs and wasn't the awaited one, which is that answer: `RanPair.fair`,
///   `RanPairs.fair` of several pairs, `RanBulk.fair`, `RanPlant.fair`.
/// - A run completes: let the source tell its bytes. Unless the source or the sink had a fault or memory was wanted, the
///   whole report is written, with its status. So an input without a refused line, and for `plant` a configuration
///   without a fault, has the status `Ok`, or `Other` if the command found what it looks for: `RanOver.completes` of all
///   commands over an input but `convert`, `RanConvert.completes`, `RanBulk.wrote`.
/// - Honest schedules serve: let the ends' settings match, let the master have a tick before all deliveries, let the
///   peer's last frames come unaltered to the slave and to the master in turn, and let no watchdog expire after that
///   tick. All else is puts, holds and session ids. Then each delivery is taken, no session ends and no entry is
///   `other`. The master is in state Data after exactly `exchanges` deliveries to each end. The next delivery brings the
///   slave there, and from it on each brings data: `RanPair.serves`, and `RanBulk.serves` for the number 0. If the
///   peer's last frame may come more than once, to either end, the same holds of the first delivery of each frame:
///   `RanPair.serves_steadily`.
pub fn run<D: Desk, S: Source, K: Sink>(
    alloc: Global,
    words: &[String],
    desk: &mut D,
    source: &mut S,
    sink: &mut K,
    apps: Vec<AppEntry>,
    channels: &mut Vec<Box<dyn Channel>>,
) -> Outcome
    // The arguments name a command, of which all holds that its own call promises, or none.
    ensures runs { let A = ⟦<Box<dyn Application> as Application>⟧ in let C = ⟦<Box<dyn Channel> as Channel>⟧ in
        let arguments = map string_bytes words.now in
        let streams : outside.Outside = record { source = outside.told S.left S.faults source.old source.new; sink = outside.told K.written K.faults sink.old sink.new } in
        let file = desk_told D.holds D.faults (file_named arguments) desk.old desk.new in
        let plant = handed (app_view A.rule A.holds A.guards) C.name C.told apps.items channels.old.items channels.new.items source.old source.new result.journal in
        Runs (command_said arguments) (ended_of result) streams file plant }
    ensures names_stay { let C = ⟦<Box<dyn Channel> as Channel>⟧ in map C.name channels.new.items ≡ map C.name channels.old.items }
    ensures unread { reads_input (command_said (map string_bytes words.now)) ≡ false → source.new ≡ source.old }
    ensures others { (other : List ℕ) → other ≢ file_named (map string_bytes words.now) → D.faults desk.new other ≡ D.faults desk.old other }
    ensures unasked { runs_plant (command_said (map string_bytes words.now)) ≡ false → desk.new ≡ desk.old }
    ensures unused { runs_plant (command_said (map string_bytes words.now)) ≡ false → channels.new.items ≡ channels.old.items }
    ensures no_journal { runs_plant (command_said (map string_bytes words.now)) ≡ false → result.journal ≡ [] }
{
    match command_said(words) {
        Some(Command::Node(end)) => without_journal(alloc, run_node(end, source, sink)),
        Some(Command::Replay) => without_journal(alloc, run_replay(alloc, source, sink)),
        Some(Command::Bulk { number, events }) => {
            without_journal(alloc, run_bulk(number, events, sink))
        }
        Some(Command::Image) => without_journal(alloc, run_image(alloc, source, sink)),
        Some(Command::Diagnose) => without_journal(alloc, run_diagnose(source, sink)),
        Some(Command::Convert) => without_journal(alloc, run_convert(source, sink)),
        Some(Command::Plant) => {
            let mut journal = Journal::new(alloc);
            let ended = run_file(
                alloc,
                file_named(words),
                desk,
                source,
                sink,
                apps,
                channels,
                &mut journal,
                Wanted::Report,
            );
            Outcome {
                status: ended.status,
                place: ended.place,
                journal,
            }
        }
        None => {
            let usage = Ended {
                status: Status::Usage,
                place: 0,
            };
            without_journal(alloc, write_report(sink, USAGE, usage))
        }
    }
}
