//! The run of both ends over a pair file.
ghost use Rattle.std.specs.Prelude.{◌≡◌, ◌≤◌, ◌+◌, ◌++◌, length};
ghost use Rattle.duo_run.specs.Replay.{told_line, RanPair};
ghost use Rattle.file_run.specs.Outside.{told};

use crate::coming::end_of;
use crate::duo::Duo;
use crate::fault::StepFault;
use entry_text::push_entry;
use file_run::{Machine, Schedule, Stopped, ended_with, push_other, run_over, write_events};
use fsoe_base::{End, MOST_DATA, Memory, State};
use fsoe_io::{Ended, LineText, Sink, Source};
use param_load::Answer;
use schedule_file::{Event, Header, HeaderKind, MAX_EVENTS, end_letter};

/// Appends what the line of an entry has after its numbers, of an end with this state and these outputs.
pub(crate) fn push_told(at: End, state: State, outputs: &[u8], answer: &Answer, text: &mut LineText)
    requires outputs { length outputs.now ≤ MOST_DATA }
    requires room { length text.old ≤ 60 }
    ensures text { text.new ≡ text.old ++ told_line at answer.now.did state outputs.now answer.now.sent }
    ensures most { length text.new ≤ length text.old + 920 }
{
    text.push(end_letter(at));
    text.push(b" ");
    push_entry(&answer.did, state, outputs, answer.sent.bytes(), text);
    text.push(b"\n");
}

/// Both ends over the lines of a source.
#[derive(Drop)]
pub(crate) struct PairRun {
    duo: Duo,
    /// What an end did last.
    answer: Answer,
}

impl Machine for PairRun {
    ghost use Rattle.std.specs.Prelude.{[]};
    ghost use Rattle.file_run.specs.Machine.{EndsReport};
    ghost use Rattle.duo_run.specs.Replay.{replay_reporting};
    ghost use Rattle.duo_run.specs.Duo.{ReplayStands};

    type Format = Schedule;

    type Handed = ();

    ghost reporting = { λ handed. replay_reporting };

    ghost stands = { λ first run now. ReplayStands run.duo };

    ghost waits = { λ run now. [] };

    ghost parts = { λ run now. 0 };

    ghost closes = { λ first now. EndsReport replay_reporting };

    fn laws() {}

    fn open(_: &()) -> Result<Header, Memory> {
        Ok(Header::new(HeaderKind::Pair))
    }

    fn begin(header: &Header, _: &mut ()) -> Result<PairRun, Memory> {
        Ok(PairRun {
            duo: Duo::new(header.master(), header.slave()),
            answer: Answer::new(),
        })
    }

    fn is_full(&self, _: &(), events: u64) -> bool {
        events == MAX_EVENTS
    }

    fn report(
        &mut self,
        _: &mut (),
        event: &Event,
        number: u64,
        text: &mut LineText,
    ) -> Result<(), Stopped> {
        match self.duo.advance(event, &mut self.answer) {
            Ok(()) => {
                let at = end_of(event);
                let outputs = self.duo.outputs_of(at);
                text.clear();
                text.push_decimal(number);
                text.push(b" ");
                push_told(at, self.duo.state_of(at), outputs, &self.answer, text);
                Ok(())
            }
            Err(StepFault::NoSuchFrame) => Err(Stopped::NoFrame),
        }
    }

    fn close(&mut self, _: &(), events: u64, text: &mut LineText) -> Ended {
        let other = self.duo.other();
        write_events(events, text);
        push_other(other, text);
        ended_with(other)
    }

    fn more(&mut self, _: &(), text: &mut LineText) {
        text.clear();
    }
}

/// Runs both ends over a pair file: reads its header, then an event from each line up to `end`. For each entry it
/// writes a line `<n> <m or s> <did> <state> <outputs>`, with ` > <frame>` if a frame was sent. At the end it writes
/// `events <n>`, and `other none` or `other <n>` with the number of the first `other` entry. If a line is refused, also
/// because it names a frame that wasn't sent, it writes `refused <line> <cause>`. Buffered output is flushed before
/// each read that may block, and at the end of the run.
///
/// The status is `Ok` with place 0, or `Other` with the number of the first `other` entry. `Line` has the number of the
/// refused line. `Read` has the complete lines read, only if the source failed; `Write` has the bytes written, only if
/// the sink failed.
pub fn run_pair<S: Source, K: Sink>(source: &mut S, sink: &mut K) -> Ended
    ensures { RanPair result (record { source = told S.left S.faults source.old source.new; sink = told K.written K.faults sink.old sink.new }) }
{
    run_over::<PairRun, S, K>(&mut (), source, sink)
}
