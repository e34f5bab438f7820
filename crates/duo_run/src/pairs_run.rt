//! The run of several pairs with common ticks over their file.
ghost use Rattle.std.specs.Prelude.{◌≡◌, ◌≤◌, [], IfOk, length, vec_len};
ghost use Rattle.std.specs.List.{AllZip};
ghost use Rattle.schedule_file.specs.PairsHeader.{pairs_of};
ghost use Rattle.schedule_file.specs.declared.pairs_header.TheConstants.{MOST_PAIRS};
ghost use Rattle.duo_run.specs.Pairs.{least, less_of};
ghost use Rattle.duo_run.specs.PairsReport.{closing_lines};
ghost use Rattle.duo_run.specs.Replay.{AreSetTo};

use crate::duo::Duo;
use crate::duos::new_pairs;
use crate::telling::{PairsTelling, step_pair, tick_pairs};
use file_run::{Format, Machine, Stopped, ended_with, push_other, write_events};
use fsoe_base::Memory;
use fsoe_io::{Ended, LineText};
use param_load::{MasterSettings, SlaveSettings};
use schedule_file::{
    LineCause, MAX_EVENTS, PairsEnds, PairsEvent, PairsHeader, PairsSaid, read_pairs_event_into,
};
use std::alloc::Global;

/// How the lines of several pairs are read.
pub(crate) struct PairsFormat;

impl Format for PairsFormat {
    ghost use Rattle.std.specs.Prelude.{false, map};
    ghost use Rattle.fsoe_base.specs.LengthsOf.{length_of};
    ghost use Rattle.schedule_file.specs.Event.{profile_of};
    ghost use Rattle.schedule_file.specs.PairsEvent.{pairs_line};
    ghost use Rattle.schedule_file.specs.PairsInput.{pairs_format};
    ghost use Rattle.schedule_file.specs.PairsLinesLeft.{pairs_lines_left};

    type Header = PairsHeader;

    type Grammar = PairsEnds;

    type Line = PairsSaid;

    type Event = PairsEvent;

    ghost Kind = { Unit {0} };

    ghost format = { λ kind. pairs_format };

    ghost kind = { λ h. tt };

    ghost lines_left = { pairs_lines_left };

    ghost says = { λ ends text. pairs_line (map length_of ends.lengths) (map profile_of ends.profiles) text };

    fn line(header: &mut PairsHeader, line: &[u8]) -> Result<bool, LineCause> {
        header.line(line)
    }

    fn grammar(header: &PairsHeader) -> PairsEnds {
        header.ends()
    }

    fn end() -> PairsSaid {
        PairsSaid::end()
    }

    fn read(ends: &PairsEnds, line: &[u8], said: &mut PairsSaid) -> Result<(), LineCause> {
        read_pairs_event_into(line, ends.lengths(), ends.profiles(), said)
    }

    fn event(line: &PairsSaid) -> Option<&PairsEvent> {
        line.event()
    }
}

/// What the ends of each pair of a header are set to.
fn settings_of(
    header: &PairsHeader,
    alloc: Global,
) -> Result<Vec<(MasterSettings, SlaveSettings)>, Memory>
    ensures set { IfOk result (λ settings. AllZip (λ h own. AreSetTo h own.0 own.1) (pairs_of header.now) settings.items) }
    ensures most { IfOk result (λ settings. vec_len settings ≤ MOST_PAIRS) }
{
    let count = header.count();
    let Ok(mut settings) = Vec::with_capacity(alloc, usize::from(count)) else {
        return Err(Memory);
    };
    for before in 0..count {
        let own = (header.master(before + 1), header.slave(before + 1));
        if settings.push(own).is_err() {
            return Err(Memory);
        }
    }
    Ok(settings)
}

/// The less of two numbers, where there are any.
fn less_of(a: Option<u64>, b: Option<u64>) -> Option<u64>
    ensures { result ≡ less_of a b }
{
    match (a, b) {
        (None, b) => b,
        (a, None) => a,
        (Some(a), Some(b)) => Some(a.min(b)),
    }
}

/// The least of numbers, where there are any.
fn least(numbers: &[Option<u64>]) -> Option<u64>
    ensures { result ≡ least numbers.now }
{
    let mut least = None;
    for number in numbers {
        least = less_of(least, *number);
    }
    least
}

/// Appends the closing line of each pair to the pending text.
fn push_closing(others: &[Option<u64>], telling: &mut PairsTelling)
    requires few { length others.now ≤ 16 }
    requires empty { telling.old.waiting.text ≡ [] }
    ensures { telling.new.waiting.text ≡ closing_lines 1 others.now }
{
    let PairsTelling { line, waiting, .. } = telling;
    for i in 0..others.len() {
        line.clear();
        line.push(b"pair ");
        line.push_decimal(i as u64 + 1);
        line.push(b" ");
        push_other(others[i], line);
        waiting.push(line.bytes());
    }
}

/// Several pairs over the lines of a source. All memory is allocated before the first event.
#[derive(Drop)]
pub(crate) struct PairsRun {
    duos: Vec<Duo>,
    /// The number of the event with the first `other` entry of each pair.
    others: Vec<Option<u64>>,
    /// How many entries were made.
    entries: u64,
    telling: PairsTelling,
    ghost few: { vec_len others ≤ MOST_PAIRS },
}

impl Machine for PairsRun {
    ghost use Rattle.std.specs.Prelude.{length};
    ghost use Rattle.file_run.specs.Machine.{EndsReport};
    ghost use Rattle.file_run.specs.Waiting.{waits};
    ghost use Rattle.duo_run.specs.PairsReport.{pairs_reporting};
    ghost use Rattle.duo_run.specs.PairsStanding.{PairsStand};

    type Format = PairsFormat;

    type Handed = Global;

    ghost reporting = { λ alloc. pairs_reporting };

    ghost stands = { λ first run now. PairsStand run.duos.items run.others.items run.entries };

    ghost waits = { λ run now. waits run.telling.waiting };

    ghost parts = { λ run now. length (waits run.telling.waiting) };

    ghost closes = { λ first now. EndsReport pairs_reporting };

    fn laws() {}

    fn open(alloc: &Global) -> Result<PairsHeader, Memory> {
        PairsHeader::new(*alloc)
    }

    fn begin(header: &PairsHeader, alloc: &mut Global) -> Result<PairsRun, Memory> {
        let settings = settings_of(header, *alloc)?;
        let Ok(others) = vec![in *alloc; None; settings.len()] else {
            return Err(Memory);
        };
        Ok(PairsRun {
            duos: new_pairs(settings)?,
            others,
            entries: 0,
            telling: PairsTelling::new(*alloc)?,
        })
    }

    fn is_full(&self, _: &Global, events: u64) -> bool {
        // An event makes an entry at least, so the entries decide; that of events is what any input has room for.
        self.entries >= MAX_EVENTS || events >= MAX_EVENTS
    }

    fn report(
        &mut self,
        _: &mut Global,
        event: &PairsEvent,
        number: u64,
        text: &mut LineText,
    ) -> Result<(), Stopped> {
        text.clear();
        self.telling.waiting.clear();
        match event {
            PairsEvent::Tick => {
                tick_pairs(
                    self.duos.as_mut_slice(),
                    self.others.as_mut_slice(),
                    &mut self.entries,
                    number,
                    &mut self.telling,
                );
                self.telling.waiting.start();
                Ok(())
            }
            PairsEvent::One { pair, event } => step_pair(
                self.duos.as_mut_slice(),
                self.others.as_mut_slice(),
                &mut self.entries,
                *pair,
                event,
                number,
                &mut self.telling.answer,
                text,
            ),
        }
    }

    fn close(&mut self, _: &Global, events: u64, text: &mut LineText) -> Ended {
        write_events(events, text);
        self.telling.waiting.clear();
        push_closing(self.others.as_slice(), &mut self.telling);
        self.telling.waiting.start();
        ended_with(least(self.others.as_slice()))
    }

    fn more(&mut self, _: &Global, text: &mut LineText) {
        self.telling.waiting.give(text);
    }
}
