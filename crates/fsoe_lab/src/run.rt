//! The run of a command.
ghost use Rattle.std.specs.Prelude.{◌≡◌, ◌≢◌, ℕ, List, [], None, map, string_bytes};
ghost use Rattle.file_run.specs.Outside as outside;
ghost use Rattle.multi_master.specs.Calls.{app_view};
ghost use Rattle.plant_file.specs.Handed.{handed};
ghost use Rattle.fsoe_lab.specs.Command.{Runs, file_named, text_asked, trial_said};

use crate::command::{build_asked, counts_asked, file_named, trial_said};
use crate::counts::write_counts;
use black_channel::Channel;
use build_text::BUILD;
use failsafe_io::Application;
use fb_net::AppEntry;
use file_run::write_report;
use fsoe_io::{Desk, Ended, Sink, Source, Status};
use plant_file::run_file;
use plant_run::Journal;
use std::alloc::Global;

/// What is written if the arguments name no command.
const USAGE: &[u8] =
    b"usage: fsoe_lab build|crc, journal|rates <file> [<lose> <alter> <repeat> <late>]\n";

/// Runs the command of the arguments after the program's name: `rates <file>` runs a plant as `plant <file>` of
/// `fsoe_tool` does; `journal <file>` does so too, but writes the plant's journal in place of its report. After either,
/// the argument `journal` has the journal. The rates after the file are those of a channel that the caller hands in.
/// `crc` writes how many changes of data turn how many bits, and `build` what the program was made of. If the arguments
/// are others, it writes the usage line, with status `Usage`. None of these needs the source and the desk.
pub fn run<D: Desk, S: Source, K: Sink>(
    alloc: Global,
    words: &[String],
    desk: &mut D,
    source: &mut S,
    sink: &mut K,
    apps: Vec<AppEntry>,
    channels: &mut Vec<Box<dyn Channel>>,
    journal: &mut Journal,
) -> Ended
    requires empty { journal.old ≡ [] }
    ensures runs { let A = ⟦<Box<dyn Application> as Application>⟧ in let C = ⟦<Box<dyn Channel> as Channel>⟧ in
        Runs (text_asked (map string_bytes words.now)) (trial_said (map string_bytes words.now)) result
        (record { source = outside.told S.left S.faults source.old source.new; sink = outside.told K.written K.faults sink.old sink.new })
        (let file = file_named (map string_bytes words.now) in record { text = D.holds desk.old file; faults_before = D.faults desk.old file; faults_after = D.faults desk.new file })
        (handed (app_view A.rule A.holds A.guards) C.name C.told apps.items channels.old.items channels.new.items source.old source.new journal.new) }
    ensures names_stay { let C = ⟦<Box<dyn Channel> as Channel>⟧ in map C.name channels.new.items ≡ map C.name channels.old.items }
    ensures unasked { trial_said (map string_bytes words.now) ≡ None → desk.new ≡ desk.old }
    ensures others { (other : List ℕ) → other ≢ file_named (map string_bytes words.now) → D.faults desk.new other ≡ D.faults desk.old other }
{
    if build_asked(words) {
        let ended = Ended {
            status: Status::Ok,
            place: 0,
        };
        return write_report(sink, &BUILD, ended);
    }
    if counts_asked(words) {
        return write_counts(sink);
    }
    match trial_said(words) {
        Some(trial) => run_file(
            alloc,
            file_named(words),
            desk,
            source,
            sink,
            apps,
            channels,
            journal,
            trial.wanted,
        ),
        None => {
            let usage = Ended {
                status: Status::Usage,
                place: 0,
            };
            write_report(sink, USAGE, usage)
        }
    }
}
