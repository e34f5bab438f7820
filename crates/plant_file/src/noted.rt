//! The run of a plant whose report or whose journal is written.
ghost use Rattle.std.specs.Prelude.{◌≡◌, ◌+◌, ◌*◌, ◌^◌, ◌≤◌, ◌<◌, [], None, OnOk, length, take};
ghost use Rattle.fsoe_io.specs.Calls.{HasCause};
ghost use Rattle.fsoe_io.specs.Output.{Puts};
ghost use Rattle.file_run.specs.Ending.{Writes};
ghost use Rattle.file_run.specs.Outside as outside;
ghost use Rattle.multi_master.specs.Calls.{app_view};
ghost use Rattle.plant_run.specs.Given.{terms_of};
ghost use Rattle.plant_file.specs.JournalText.{journal_text};
ghost use Rattle.plant_file.specs.Noted.{RanWanted};

use crate::journal_line::write_line;
use black_channel::Channel;
use failsafe_io::Application;
use fb_net::{EntryOf, KindOf};
use file_run::{close, write_failed};
use fsoe_io::{Ended, Failed, LineText, Output, Sink, Source};
use plant_conf::PlantConf;
use plant_run::{Journal, JournalStep, run_plant};
use std::alloc::Global;

/// What is written of a plant that ran.
#[derive(Clone, Copy)]
pub enum Wanted {
    /// Its report.
    Report,
    /// Its journal, a line a step.
    Journal,
}

/// The most steps of a journal that are written. No memory holds as many.
const MOST_STEPS: usize = 1 << 52;

/// A sink that takes all and keeps nothing.
#[derive(Drop)]
struct Nowhere;

impl Sink for Nowhere {
    ghost written = { λ _. None };

    ghost faults = { λ _. 0 };

    fn write(&mut self, piece: &[u8]) -> Result<usize, Failed> {
        Ok(piece.len())
    }
}

/// Puts the lines of these steps.
fn put_steps<K: Sink>(
    steps: &[JournalStep],
    output: &mut Output,
    sink: &mut K,
) -> Result<(), Failed>
    requires { output.old.sent + length output.old.bytes + 1024 * length steps.now < 2 ^ 63 }
    ensures puts { Puts result output.old output.new (K.written sink.old) (K.written sink.new) (journal_text steps.now) }
    ensures count { OnOk result (output.new.sent + length output.new.bytes < 2 ^ 63) }
    ensures cause { HasCause (K.faults sink.old) (K.faults sink.new) result }
{
    let mut text = LineText::new();
    for step in steps {
        write_line(step, &mut text);
        let line = text.bytes();
        if let Err(failed) = output.put(sink, line) {
            return Err(failed);
        }
    }
    Ok(())
}

/// Writes the first steps of a journal. The run ends so; or with `Write`, where the sink fails.
fn write_journal<K: Sink>(steps: &[JournalStep], ended: Ended, sink: &mut K) -> Ended
    ensures wrote { Writes 0 (journal_text (take (2 ^ 52) steps.now)) ended result (outside.told K.written K.faults sink.old sink.new) }
    ensures later { K.faults sink.old ≤ K.faults sink.new }
{
    let mut output = Output::new();
    let first = &steps[..MOST_STEPS.min(steps.len())];
    match put_steps(first, &mut output, sink) {
        Ok(()) => close(&mut output, sink, b"", ended),
        Err(_) => write_failed(&output),
    }
}

/// Runs a plant, and writes what is wanted of it.
pub(crate) fn run_wanted<H: Application, C: Channel, S: Source, K: Sink>(
    alloc: Global,
    conf: &PlantConf,
    app: KindOf<H>,
    channel: &mut C,
    spare: Vec<EntryOf<H>>,
    source: &mut S,
    sink: &mut K,
    journal: &mut Journal,
    wanted: Wanted,
) -> Ended
    requires empty { journal.old ≡ [] }
    ensures name_stays { C.name channel.new ≡ C.name channel.old }
    ensures ran { let A = ⟦<KindOf<H> as Application>⟧ in RanWanted wanted (terms_of (app_view A.rule A.holds A.guards) conf.now app spare.items) result
        (record { source = outside.told S.left S.faults source.old source.new; sink = outside.told K.written K.faults sink.old sink.new })
        (C.told channel.old) (C.told channel.new) journal.new }
{
    match wanted {
        Wanted::Report => run_plant(alloc, conf, app, channel, spare, source, sink, journal),
        Wanted::Journal => {
            let ended = run_plant(
                alloc,
                conf,
                app,
                channel,
                spare,
                source,
                &mut Nowhere,
                journal,
            );
            write_journal(journal.steps(), ended, sink)
        }
    }
}
