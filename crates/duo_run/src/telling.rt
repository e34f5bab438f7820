//! What several pairs do at an event, with the lines of their entries.
ghost use Rattle.std.specs.Prelude.{◌≡◌, ◌<◌, ◌≤◌, ◌+◌, ◌*◌, ◌^◌, ℕ, List, [], IfErr, OnErr, OnOk, is_some, length};
ghost use Rattle.fsoe_base.specs.LengthsOf.{length_of};
ghost use Rattle.schedule_file.specs.Event.{Fits, profile_of};
ghost use Rattle.schedule_file.specs.PairsHeader.{PairsHeading};
ghost use Rattle.schedule_file.specs.PairsInput.{pairs_format};
ghost use Rattle.schedule_file.specs.declared.pairs_line.PairsEvent.{PairsEvent};
ghost use Rattle.schedule_file.specs.declared.pairs_line.PairsEvent.TheVariants as common;
ghost use Rattle.file_run.specs.Machine.{MayCome, TakesEvent, EndsStopped};
ghost use Rattle.file_run.specs.declared.waiting.TheConstants.{MOST_TEXT};
ghost use Rattle.exchange_model.specs.Other.{first_of_both};
ghost use Rattle.duo_run.specs.Duo.{Misses, lengths_of, profiles_of, steps_done};
ghost use Rattle.duo_run.specs.PairsReport.{pairs_reporting};
ghost use Rattle.duo_run.specs.PairsStanding.{CanStep, NotesOthers, PairsStand, TellsNext, Ticks};

use crate::coming::end_of;
use crate::duo::Duo;
use crate::fault::StepFault;
use crate::pair_run::push_told;
use file_run::{MOST_TEXT, Stopped, Waiting};
use fsoe_base::{End, Memory};
use fsoe_io::LineText;
use param_load::Answer;
use schedule_file::Event;
use std::alloc::Global;

/// What a run keeps to tell of its pairs, so that nothing of it is made anew.
#[derive(Drop)]
pub(crate) struct PairsTelling {
    /// What an end did last.
    pub(crate) answer: Answer,
    /// A line on its way to the buffered ones.
    pub(crate) line: LineText,
    /// The lines of an event, or of the end, that aren't written where they are handed out.
    pub(crate) waiting: Waiting,
}

impl PairsTelling {
    ghost use Rattle.std.specs.Prelude.{◌≡◌, [], IfOk};

    /// Nothing is told yet.
    pub(crate) fn new(alloc: Global) -> Result<PairsTelling, Memory>
        ensures { IfOk result (λ t. t.waiting.text ≡ []) }
    {
        Ok(PairsTelling {
            answer: Answer::new(),
            line: LineText::new(),
            waiting: Waiting::new(alloc)?,
        })
    }
}

/// Does an event at the pair of this number, and writes the line of its entry, at the event of all of this number.
fn tell(
    duo: &mut Duo,
    event: &Event,
    number: u64,
    pair: u16,
    answer: &mut Answer,
    line: &mut LineText,
) -> Result<(), StepFault>
    requires fits { Fits (length_of (lengths_of duo.old)) (profile_of (profiles_of duo.old)) event.now }
    requires fewer { steps_done duo.old + 1 < 2 ^ 64 }
    ensures tells { OnOk result (TellsNext duo.old event.now number pair duo.new line.new) }
    ensures misses { OnErr result (Misses duo.old event.now) }
    ensures kept { OnErr result (duo.new ≡ duo.old) }
{
    match duo.advance(event, answer) {
        Ok(()) => {
            let at = end_of(event);
            line.clear();
            line.push_decimal(number);
            line.push(b" ");
            line.push_small(pair);
            line.push(b" ");
            push_told(at, duo.state_of(at), duo.outputs_of(at), answer, line);
            Ok(())
        }
        Err(why) => Err(why),
    }
}

/// Ticks this end of each pair, in their order, and appends the lines to the pending text.
fn tick_all(duos: &mut [Duo], at: End, number: u64, telling: &mut PairsTelling)
    requires stand { CanStep duos.old }
    requires few { length duos.old ≤ 16 }
    requires room { length telling.old.waiting.text + 1024 * length duos.old ≤ MOST_TEXT }
    ensures ticks { Ticks at number duos.old telling.old.waiting.text duos.new telling.new.waiting.text }
    ensures room { length telling.new.waiting.text ≤ length telling.old.waiting.text + 1024 * length duos.old }
{
    let event = Event::Tick { at };
    let PairsTelling {
        answer,
        line,
        waiting,
    } = telling;
    for i in 0..duos.len() {
        tell(&mut duos[i], &event, number, i as u16 + 1, answer, line).unwrap();
        waiting.push(line.bytes());
    }
}

/// The number of the event with the first `other` entry of a pair, by the one before, and by the pair's first `other`
/// entry at this event.
fn noted(before: Option<u64>, other: Option<u64>, number: u64) -> Option<u64>
    ensures { result ≡ first_of_both before (is_some other) number }
{
    match before {
        Some(first) => Some(first),
        None if other.is_some() => Some(number),
        None => None,
    }
}

/// Notes this event for each pair that has an `other` entry and had none before.
fn note_others(duos: &[Duo], number: u64, others: &mut [Option<u64>])
    requires { length others.old ≡ length duos.now }
    ensures { NotesOthers number duos.now others.old others.new }
{
    for i in 0..duos.len() {
        others[i] = noted(others[i], duos[i].other(), number);
    }
}

/// Ticks all slaves, in the order of pairs, and then all masters. Their lines are buffered.
pub(crate) fn tick_pairs(
    duos: &mut [Duo],
    others: &mut [Option<u64>],
    entries: &mut u64,
    number: u64,
    telling: &mut PairsTelling,
)
    requires come { MayCome (PairsStand duos.old others.old entries.old) pairs_format common.Tick number }
    requires empty { telling.old.waiting.text ≡ [] }
    ensures { TakesEvent (PairsStand duos.old others.old entries.old) (PairsStand duos.new others.new entries.new) common.Tick number telling.new.waiting.text }
{
    tick_all(duos, End::Slave, number, telling);
    tick_all(duos, End::Master, number, telling);
    *entries += 2 * duos.len() as u64;
    note_others(duos, number, others);
}

/// Does an event of the pair of this number, and writes its line.
pub(crate) fn step_pair(
    duos: &mut [Duo],
    others: &mut [Option<u64>],
    entries: &mut u64,
    pair: u16,
    event: &Event,
    number: u64,
    answer: &mut Answer,
    text: &mut LineText,
) -> Result<(), Stopped>
    requires { MayCome (PairsStand duos.old others.old entries.old) pairs_format (common.One pair event.now) number }
    ensures takes_event { OnOk result (TakesEvent (PairsStand duos.old others.old entries.old) (PairsStand duos.new others.new entries.new) (common.One pair event.now) number text.new) }
    ensures stopped { IfErr result (λ why. (h : PairsHeading) (log : List PairsEvent) (text : List ℕ) → PairsStand duos.old others.old entries.old h log text → EndsStopped pairs_reporting h log text (common.One pair event.now) why) }
    ensures duos { OnErr result (duos.new ≡ duos.old) }
    ensures others { OnErr result (others.new ≡ others.old) }
    ensures entries { OnErr result (entries.new ≡ entries.old) }
{
    let at = usize::from(pair) - 1;
    match tell(&mut duos[at], event, number, pair, answer, text) {
        Ok(()) => {
            *entries += 1;
            note_others(duos, number, others);
            Ok(())
        }
        Err(StepFault::NoSuchFrame) => Err(Stopped::NoFrame),
    }
}
