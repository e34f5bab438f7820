//! The summary of a number's schedule.
ghost use Rattle.std.specs.Prelude.{◌≡◌, ◌≤◌, ◌+◌, ◌++◌, length};
ghost use Rattle.schedule_file.specs.Made.{made_master, made_slave};
ghost use Rattle.exchange_model.specs.Other.{first_other};
ghost use Rattle.exchange_model.specs.Worlds.{IsWorld};
ghost use Rattle.file_run.specs.Report.{other_line};
ghost use Rattle.duo_run.specs.Summary.{summary_of};
ghost use Rattle.duo_run.specs.Bulk.{bulk_entries, ends_line, state_line, number_line, summary_lines, RanBulk};
ghost use Rattle.file_run.specs.Outside.{told};

use crate::coming::end_of;
use crate::duo::Duo;
use crate::summary::Summary;
use file_run::{ended_with, push_other, write_report};
use fsoe_base::{End, State};
use fsoe_io::{Ended, LineText, Sink};
use param_load::Answer;
use schedule_file::{Event, Maker};

/// Runs a new pair on the first `events` events of a number: the summary, and the number of the first `other` entry.
fn summarize(number: u64, events: u64) -> (Summary, Option<u64>)
    ensures summary { result.0 ≡ summary_of (bulk_entries number events) }
    ensures other { result.1 ≡ first_other (bulk_entries number events) }
    ensures is_world { IsWorld made_master made_slave (bulk_entries number events) }
{
    let (master, slave) = Maker::settings();
    let mut maker = Maker::new(number);
    let mut duo = Duo::new(master, slave);
    let mut summary = Summary::new();
    let mut event = Event::Tick { at: End::Master };
    let mut answer = Answer::new();
    for _ in 0..events {
        maker.next_into(&mut event);
        duo.advance(&event, &mut answer).unwrap();
        let at = end_of(&event);
        summary.note(at, &answer.did, duo.state_of(at));
    }
    (summary, duo.other())
}

/// Appends a line with a number of each end.
fn push_ends(word: &str, master: u64, slave: u64, text: &mut LineText)
    requires word { length word.now ≤ 10 }
    requires room { length text.old ≤ 500 }
    ensures text { text.new ≡ text.old ++ ends_line word.now master slave }
    ensures most { length text.new ≤ length text.old + 70 }
{
    text.push_str(word);
    text.push(b" master ");
    text.push_decimal(master);
    text.push(b" slave ");
    text.push_decimal(slave);
    text.push(b"\n");
}

/// Appends the line with the state of each end.
fn push_states(master: State, slave: State, text: &mut LineText)
    requires { length text.old ≤ 500 }
    ensures text { text.new ≡ text.old ++ state_line master slave }
    ensures most { length text.new ≤ length text.old + 70 }
{
    text.push(b"state ");
    text.push_str(master.name());
    text.push(b" ");
    text.push_str(slave.name());
    text.push(b"\n");
}

fn push_summary(summary: &Summary, text: &mut LineText)
    requires { length text.old ≤ 100 }
    ensures text { text.new ≡ text.old ++ summary_lines summary.now }
    ensures most { length text.new ≤ length text.old + 280 }
{
    let Summary { master, slave } = summary;
    push_ends("data", master.taken, slave.taken, text);
    push_ends("resets", master.resets, slave.resets, text);
    push_ends("drops", master.drops, slave.drops, text);
    push_states(master.state, slave.state, text);
}

/// Writes the whole report over what `text` held.
fn write_summary(
    number: u64,
    events: u64,
    summary: &Summary,
    other: Option<u64>,
    text: &mut LineText,
)
    ensures { text.new ≡ number_line number events ++ summary_lines summary.now ++ other_line other }
{
    text.clear();
    text.push(b"bulk ");
    text.push_decimal(number);
    text.push(b" ");
    text.push_decimal(events);
    text.push(b"\n");
    push_summary(summary, text);
    push_other(other, text);
}

/// Makes the schedule of `number`, runs a new pair on its first `events` events, and writes a summary of six
/// lines. The first has both numbers, the last that of the first `other` entry, if any. The others have, of each end,
/// the data frames that it took, the events with a reset, those with a dropped frame, and the last state. No event
/// names a frame that wasn't sent, so all are done. Doesn't allocate.
///
/// The status is `Ok` with place 0, or `Other` with the number of the first `other` entry. `Write` has the bytes
/// written, only if the sink failed.
pub fn run_bulk<K: Sink>(number: u64, events: u64, sink: &mut K) -> Ended
    ensures { RanBulk number events result (told K.written K.faults sink.old sink.new) }
{
    let (summary, other) = summarize(number, events);
    let mut text = LineText::new();
    write_summary(number, events, &summary, other, &mut text);
    write_report(sink, text.bytes(), ended_with(other))
}
