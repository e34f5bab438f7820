//! A pair file written as a file of several pairs, of which it is the only one.
ghost use Rattle.std.specs.Io.KnownBytes.{prepend_known};
ghost use Rattle.std.specs.Prelude.{◌≡◌, ◌+◌, ◌-◌, ◌^◌, ◌≤◌, ◌<◌, IfOk, false, length};
ghost use Rattle.fsoe_io.specs.Line.{IsLine, most_held};
ghost use Rattle.schedule_file.specs.declared.header_kind.HeaderKind.TheVariants as kind;
ghost use Rattle.schedule_file.specs.declared.line_buf.TheConstants.{MAX_LINE};
ghost use Rattle.schedule_file.specs.Input.{AtEnd, said_after};
ghost use Rattle.file_run.specs.Halt.{Blames, Goes, Stalls};
ghost use Rattle.pair_convert.specs.Convert.{RanConvert, event_text, last_text};
ghost use Rattle.pair_convert.specs.Converting.{FindsTaken, Takes, event_taken, header_piece, later_taken, left_to_take, line_taken, read_none};
ghost use Rattle.file_run.specs.Outside.{told};

use file_run::{Halt, Refusal, close, halt_run, next_line, send_before_read, write_failed};
use fsoe_io::{Ended, LineReader, LineText, Output, Sink, Source, Status};
use schedule_file::{Header, HeaderKind, MAX_EVENTS, ScheduleLine, read_event_into};
use std::marker::Model;

/// What was read of a pair file, line by line.
#[derive(Drop)]
struct PairReading {
    header: Header,
    events: u64,
    /// What the last line after the header said.
    said: ScheduleLine,
}

impl Model for PairReading {
    ghost use Rattle.std.specs.Prelude.{◌≡◌, ◌≤◌};
    ghost use Rattle.schedule_file.specs.declared.event.TheConstants.{MAX_EVENTS};
    ghost use Rattle.schedule_file.specs.declared.header_kind.HeaderKind.TheVariants as kind;
    ghost use Rattle.pair_convert.specs.Converting.{PairRead};

    ghost Value = { PairRead };

    ghost view = { λ r. record { heading = r.header; events = r.events } };

    ghost invariant = { λ r. (r.events ≤ MAX_EVENTS) × (r.header.kind ≡ kind.Pair) };
}

/// Writes what a line of a header is converted to, which has this number, from 1.
fn write_header_line(number: u64, line: &[u8], text: &mut LineText)
    requires { length line.now ≤ MAX_LINE }
    ensures { text.new ≡ header_piece number line.now }
{
    text.clear();
    if number == 1 {
        text.push(b"fsoe 2 pairs\npair 1\n");
    } else {
        text.push(line);
        text.push(b"\n");
    }
}

/// Writes what the line of an event is converted to.
fn write_event_line(line: &[u8], text: &mut LineText)
    requires { length line.now ≤ MAX_LINE }
    ensures { text.new ≡ event_text line.now }
{
    text.clear();
    text.push(b"1 ");
    text.push(line);
    text.push(b"\n");
}

/// Writes the last line.
fn write_last_line(text: &mut LineText)
    ensures { text.new ≡ last_text AtEnd }
{
    text.clear();
    text.push(b"end\n");
}

impl PairReading {
    /// Nothing is read.
    fn new() -> PairReading
        ensures { result ≡ read_none }
    {
        PairReading {
            header: Header::new(HeaderKind::Pair),
            events: 0,
            said: ScheduleLine::End,
        }
    }

    /// Takes a line, with its number from 1, and converts it. Returns whether it is the last, or why it is refused.
    fn take(&mut self, number: u64, line: &[u8], text: &mut LineText) -> Result<bool, Refusal>
        requires { length line.now ≤ MAX_LINE }
        ensures takes { Takes result self.new text.new (line_taken number self.old line.now) }
        ensures fewer { IfOk result (λ ends. ends ≡ false → left_to_take self.new < left_to_take self.old) }
    {
        if self.header.is_done() {
            self.take_later(line, text)
        } else {
            self.header.line(line).map_err(Refusal::Line)?;
            write_header_line(number, line, text);
            Ok(false)
        }
    }

    /// Takes a line after the header.
    fn take_later(&mut self, line: &[u8], text: &mut LineText) -> Result<bool, Refusal>
        requires { length line.now ≤ MAX_LINE }
        ensures takes { Takes result self.new text.new (later_taken self.old line.now) }
        ensures fewer { IfOk result (λ ends. ends ≡ false → left_to_take self.new < left_to_take self.old) }
    {
        if self.events < MAX_EVENTS {
            return self.take_event(line, text);
        }
        if line != b"end".as_slice() {
            return Err(Refusal::TooMany);
        }
        write_last_line(text);
        Ok(true)
    }

    /// Takes an event, or the end.
    fn take_event(&mut self, line: &[u8], text: &mut LineText) -> Result<bool, Refusal>
        requires short { length line.now ≤ MAX_LINE }
        requires few { self.old.events < MAX_EVENTS }
        ensures takes { Takes result self.new text.new (event_taken self.old line.now (said_after kind.Pair self.old.heading line.now)) }
        ensures fewer { IfOk result (λ ends. ends ≡ false → left_to_take self.new < left_to_take self.old) }
    {
        let lengths = self.header.lengths();
        let profiles = self.header.profiles();
        if let Err(cause) = read_event_into(line, &lengths, &profiles, &mut self.said) {
            return Err(Refusal::Line(cause));
        }
        match self.said {
            ScheduleLine::Step(_) => {
                self.events += 1;
                write_event_line(line, text);
                Ok(false)
            }
            ScheduleLine::End => {
                write_last_line(text);
                Ok(true)
            }
        }
    }
}

/// Takes the next line, and writes what it is converted to. Returns whether it is the last, or why there is none.
fn next_taken<S: Source>(
    reader: &mut LineReader,
    source: &mut S,
    reading: &mut PairReading,
    text: &mut LineText,
) -> Result<bool, Halt>
    requires { reader.old.lines < 2 ^ 64 - 1 }
    ensures finds { FindsTaken (reader.old.lines + 1) reading.old result reading.new text.new
        (prepend_known reader.old.bytes (S.left source.old))
        (prepend_known reader.new.bytes (S.left source.new)) }
    ensures goes { Goes result reader.old.lines reader.new.lines
        (prepend_known reader.old.bytes (S.left source.old))
        (prepend_known reader.new.bytes (S.left source.new)) }
    ensures fewer { IfOk result (λ ends. ends ≡ false → left_to_take reading.new < left_to_take reading.old) }
    ensures stalls { Stalls result reader.new.bytes }
    ensures most { length reader.new.bytes ≤ most_held }
    ensures unread { ¬ IsLine reader.old.bytes → source.new ≡ source.old }
    ensures later { S.faults source.old ≤ S.faults source.new }
    ensures cause { Blames result (S.faults source.old) (S.faults source.new) }
{
    next_line(reader, source)?;
    match reading.take(reader.lines(), reader.line(), text) {
        Ok(ends) => Ok(ends),
        Err(cause) => Err(Halt::Refused(reader.lines(), cause)),
    }
}

/// Converts a pair file into a file of several pairs with this single pair. The first line becomes the lines
/// `fsoe 2 pairs` and `pair 1`. The other header lines and `end` are copied, and each event line gets `1 ` before it.
/// If a replay would refuse a line without looking at the frames that were sent, it writes `refused <line> <cause>` in
/// its place. Buffered output is flushed before each read that may block, and at the end of the run. Doesn't allocate.
///
/// The status is `Ok` if and only if the input ends with `end` and neither the source nor the sink failed. `Line` has
/// the number of the refused line. `Read` has the complete lines read, only if the source failed; `Write` has the bytes
/// written, only if the sink failed.
pub fn run_convert<S: Source, K: Sink>(source: &mut S, sink: &mut K) -> Ended
    ensures { RanConvert result (record { source = told S.left S.faults source.old source.new; sink = told K.written K.faults sink.old sink.new }) }
{
    let mut reader = LineReader::new();
    let mut output = Output::new();
    let mut reading = PairReading::new();
    let mut text = LineText::new();
    loop {
        if let Err(_) = send_before_read(&reader, &mut output, sink) {
            return write_failed(&output);
        }
        let ends = match next_taken(&mut reader, source, &mut reading, &mut text) {
            Ok(ends) => ends,
            Err(why) => return halt_run(&mut output, sink, why),
        };
        if ends {
            let ended = Ended {
                status: Status::Ok,
                place: 0,
            };
            return close(&mut output, sink, text.bytes(), ended);
        }
        if let Err(_) = output.put(sink, text.bytes()) {
            return write_failed(&output);
        }
    }
}
