//! The run of a command over its input.
ghost use Rattle.std.specs.Prelude.{◌≡◌, ◌+◌, ◌≤◌, ℕ, List, Option, length};
ghost use Rattle.fsoe_io.specs.Line.{IsLine, most_held};
ghost use Rattle.file_run.specs.Ending.{Writes};
ghost use Rattle.file_run.specs.Running.{Leaves, LeavesDone, HasRead, Runs, Start, StepsTo, since};
ghost use Rattle.file_run.specs.NextLine.{IsLent};
ghost use Rattle.file_run.specs.Outside.{Outside, told};
ghost use Rattle.file_run.specs.Ran.{RanOver};
ghost use Rattle.file_run.specs.Stop.{halted_by, last_of};

use crate::begin::begin_over;
use crate::event::next_event;
use crate::format::Format;
use crate::halt::{Halt, halt_stopped};
use crate::line::next_line;
use crate::machine::Machine;
use crate::parts::{close_run, put_text};
use crate::stop::{halt, send_before_read, write_failed};
use fsoe_io::{Ended, LineReader, LineText, Output, Sink, Source};

/// A run after its header: the machine, what lines are read by, what waits for the sink, the last line, and its text.
#[derive(Drop)]
struct Run<M, G, L> {
    machine: M,
    grammar: G,
    output: Output,
    said: L,
    text: LineText,
}

/// How a run ends that began no machine.
pub(crate) fn end_unread<K: Sink>(sink: &mut K, why: Halt) -> Ended
    ensures writes { Writes 0 (last_of why) (halted_by why) result (told K.written K.faults sink.old sink.new) }
    ensures later { K.faults sink.old ≤ K.faults sink.new }
{
    halt(&mut Output::new(), sink, why)
}

/// Reads the next line, which comes after so many events, once what waits is sent. Or tells how the run ends.
fn read_line<M: Machine, S: Source, K: Sink>(
    run: &mut Run<M, <M::Format as Format>::Grammar, <M::Format as Format>::Line>,
    events: u64,
    handed: &M::Handed,
    reader: &mut LineReader,
    source: &mut S,
    sink: &mut K,
) -> Option<Ended>
    requires { (first : M.Handed) × (k : M.Format.Kind) × (s : Start) × (M.Format.format k ≡ (M.reporting first).format) × Runs (M.reporting first) (M.stands first run.old.machine handed.now) (M.Format.says run.old.grammar) (since s (S.left source.old) (S.faults source.old) (K.written sink.old) (K.faults sink.old)) reader.old.bytes run.old.output events reader.old.lines }
    ensures { (first : M.Handed) (k : M.Format.Kind) (s : Start) → M.Format.format k ≡ (M.reporting first).format
        → Runs (M.reporting first) (M.stands first run.old.machine handed.now) (M.Format.says run.old.grammar) (since s (S.left source.old) (S.faults source.old) (K.written sink.old) (K.faults sink.old)) reader.old.bytes run.old.output events reader.old.lines
        → let outside : Outside = since s (S.left source.new) (S.faults source.new) (K.written sink.new) (K.faults sink.new) in
        StepsTo result
        (HasRead (M.reporting first) (M.stands first run.new.machine handed.now) (M.Format.says run.new.grammar) outside reader.new.bytes run.new.output events reader.new.lines ((M.reporting first).format.event run.new.said))
        (λ ended. RanOver (M.reporting first) ended outside × LeavesDone (M.reporting first) (λ h log text. (v : M) × M.stands first v handed.now h log text) (M.closes first handed.now) ended outside) }
{
    M::laws();
    if let Err(_) = send_before_read(reader, &mut run.output, sink) {
        return Some(write_failed(&run.output));
    }
    let full = run.machine.is_full(handed, events);
    if let Err(why) = next_event::<M::Format, S>(
        reader,
        source,
        full,
        &run.grammar,
        &mut run.said,
    ) {
        return Some(halt(&mut run.output, sink, why));
    }
    None
}

/// Does the event of the line that was read after so many events, and writes its text. Or tells how the run ends.
fn take_line<M: Machine, K: Sink>(
    run: &mut Run<M, <M::Format as Format>::Grammar, <M::Format as Format>::Line>,
    events: u64,
    handed: &mut M::Handed,
    reader: &LineReader,
    sink: &mut K,
) -> Option<Ended>
    requires { (first : M.Handed) × (k : M.Format.Kind) × (s : Start) × (left : Option (List ℕ)) × (faults : ℕ) × (M.Format.format k ≡ (M.reporting first).format) × HasRead (M.reporting first) (M.stands first run.old.machine handed.old) (M.Format.says run.old.grammar) (since s left faults (K.written sink.old) (K.faults sink.old)) reader.now.bytes run.old.output events reader.now.lines ((M.reporting first).format.event run.old.said) }
    ensures { (first : M.Handed) (k : M.Format.Kind) (s : Start) (left : Option (List ℕ)) (faults : ℕ) → M.Format.format k ≡ (M.reporting first).format
        → HasRead (M.reporting first) (M.stands first run.old.machine handed.old) (M.Format.says run.old.grammar) (since s left faults (K.written sink.old) (K.faults sink.old)) reader.now.bytes run.old.output events reader.now.lines ((M.reporting first).format.event run.old.said)
        → let outside : Outside = since s left faults (K.written sink.new) (K.faults sink.new) in
        StepsTo result
        (Runs (M.reporting first) (M.stands first run.new.machine handed.new) (M.Format.says run.new.grammar) outside reader.now.bytes run.new.output (events + 1) reader.now.lines)
        (λ ended. RanOver (M.reporting first) ended outside × LeavesDone (M.reporting first) (λ h log text. (v : M) × M.stands first v handed.new h log text) (M.closes first handed.new) ended outside) }
{
    M::laws();
    let Some(event) = M::Format::event(&run.said) else {
        let ended = run.machine.close(handed, events, &mut run.text);
        return Some(close_run(
            &mut run.machine,
            handed,
            &mut run.text,
            &mut run.output,
            sink,
            ended,
        ));
    };
    if let Err(why) = run.machine.report(handed, event, events + 1, &mut run.text) {
        return Some(halt(&mut run.output, sink, halt_stopped(why, reader.lines())));
    }
    if let Err(_) = put_text(
        &mut run.machine,
        handed,
        &mut run.text,
        &mut run.output,
        sink,
    ) {
        return Some(write_failed(&run.output));
    }
    None
}

/// Runs a machine over an input whose first line the reader lends.
pub(crate) fn run_on<M: Machine, S: Source, K: Sink>(
    handed: &mut M::Handed,
    reader: &mut LineReader,
    source: &mut S,
    sink: &mut K,
) -> Ended
    requires line { IsLine reader.old.line }
    requires lines { reader.old.lines ≡ 1 }
    requires held { length reader.old.bytes ≤ most_held }
    ensures { (input : Option (List ℕ)) → IsLent input reader.old (S.left source.old) → let outside : Outside = record {
      source = record { before = input; after = S.left source.new; faults_before = S.faults source.old; faults_after = S.faults source.new };
      sink = told K.written K.faults sink.old sink.new;
    } in
        RanOver (M.reporting handed.old) result outside
        × Leaves (handed.new ≡ handed.old) (M.reporting handed.old) (λ h log text. (v : M) × M.stands handed.old v handed.new h log text) (M.closes handed.old handed.new) result outside }
{
    M::laws();
    let (machine, grammar) = match begin_over::<M, S>(handed, reader, source) {
        Ok(begun) => begun,
        Err(why) => return end_unread(sink, why),
    };
    let mut run = Run {
        machine,
        grammar,
        output: Output::new(),
        said: M::Format::end(),
        text: LineText::new(),
    };
    let mut events = 0;
    loop {
        if let Some(ended) = read_line::<M, S, K>(&mut run, events, handed, reader, source, sink) {
            return ended;
        }
        if let Some(ended) = take_line::<M, K>(&mut run, events, handed, reader, sink) {
            return ended;
        }
        events += 1;
    }
}

/// Runs a machine over an input: reads its header, then an event from each line up to the last, and writes what the
/// machine reports. If a line is refused, also because it names a frame or an application that isn't there at this
/// point, it writes `refused <line> <cause>`. Buffered output is flushed before each read that may block, and at the
/// end of the run.
///
/// The status is `Ok` or `Other` as the machine says. `Line` has the number of the refused line. `Read` has the
/// complete lines read, only if the source failed; `Write` has the bytes written, only if the sink failed. `Memory`
/// comes only from a command that allocates. If all is allocated before the first event, nothing was written then.
pub fn run_over<M: Machine, S: Source, K: Sink>(
    handed: &mut M::Handed,
    source: &mut S,
    sink: &mut K,
) -> Ended
    ensures ran { RanOver (M.reporting handed.old) result (record { source = told S.left S.faults source.old source.new; sink = told K.written K.faults sink.old sink.new }) }
    ensures leaves { Leaves (handed.new ≡ handed.old) (M.reporting handed.old) (λ h log text. (v : M) × M.stands handed.old v handed.new h log text) (M.closes handed.old handed.new) result (record {
      source = told S.left S.faults source.old source.new;
      sink = told K.written K.faults sink.old sink.new;
    }) }
{
    M::laws();
    let mut reader = LineReader::new();
    match next_line(&mut reader, source) {
        Ok(()) => run_on::<M, S, K>(handed, &mut reader, source, sink),
        Err(why) => end_unread(sink, why),
    }
}
