//! How a run ends: its last line and all that waits is sent.
ghost use Rattle.std.specs.Prelude.{◌≡◌, ◌+◌, ◌++◌, ◌^◌, ◌≤◌, ◌<◌, [], length, OnOk};
ghost use Rattle.fsoe_io.specs.Calls.{HasCause};
ghost use Rattle.fsoe_io.specs.Line.{IsLine};
ghost use Rattle.fsoe_io.specs.Output.{Puts};
ghost use Rattle.file_run.specs.Ending.{Writes};
ghost use Rattle.file_run.specs.Stop.{halted_by, last_of};
ghost use Rattle.file_run.specs.Outside.{told};

use crate::halt::Halt;
use crate::report::write_refusal;
use fsoe_io::{Ended, Failed, LineReader, LineText, Output, Sink, Status, put_all};

/// Flushes the output if the next line needs a read, which may block.
pub fn send_before_read<K: Sink>(
    reader: &LineReader,
    output: &mut Output,
    sink: &mut K,
) -> Result<(), Failed>
    requires { output.old.sent + length output.old.bytes < 2 ^ 63 }
    ensures puts { Puts result output.old output.new (K.written sink.old) (K.written sink.new) [] }
    ensures count { OnOk result (output.new.sent + length output.new.bytes ≡ output.old.sent + length output.old.bytes) }
    // A source is read only where what is held is no more than a part of a line: then nothing waits.
    ensures sent { OnOk result (IsLine reader.now.bytes → output.new.bytes ≡ []) }
    ensures cause { HasCause (K.faults sink.old) (K.faults sink.new) result }
{
    if reader.holds_line() {
        Ok(())
    } else {
        output.flush(sink)
    }
}

/// How a run ends whose sink failed.
pub fn write_failed(output: &Output) -> Ended
    ensures status { result.status ≡ Status.Write }
    ensures place { result.place ≡ output.now.sent }
{
    Ended {
        status: Status::Write,
        place: output.sent(),
    }
}

/// Sends the last piece and flushes the output. If that fails, the run ends so.
pub fn close<K: Sink>(output: &mut Output, sink: &mut K, last: &[u8], ended: Ended) -> Ended
    requires short { length last.now ≤ 1024 }
    requires count { output.old.sent + length output.old.bytes < 2 ^ 63 }
    ensures writes { Writes output.old.sent (output.old.bytes ++ last.now) ended result (told K.written K.faults sink.old sink.new) }
    ensures later { K.faults sink.old ≤ K.faults sink.new }
{
    match output.finish(sink, last) {
        Ok(()) => ended,
        Err(_) => write_failed(output),
    }
}

/// Ends a run of whose input no more is read.
pub fn halt<K: Sink>(output: &mut Output, sink: &mut K, why: Halt) -> Ended
    requires { output.old.sent + length output.old.bytes < 2 ^ 63 }
    ensures writes { Writes output.old.sent (output.old.bytes ++ last_of why) (halted_by why) result (told K.written K.faults sink.old sink.new) }
    ensures later { K.faults sink.old ≤ K.faults sink.new }
{
    let mut text = LineText::new();
    let ended = match why {
        Halt::Read(lines) => Ended {
            status: Status::Read,
            place: lines,
        },
        Halt::Memory => Ended {
            status: Status::Memory,
            place: 0,
        },
        Halt::Refused(line, cause) => {
            write_refusal(line, cause, &mut text);
            Ended {
                status: Status::Line,
                place: line,
            }
        }
    };
    close(output, sink, text.bytes(), ended)
}

/// Writes a whole report. The run ends so; or with `Write` and the bytes written, where the sink fails.
pub fn write_report<K: Sink>(sink: &mut K, report: &[u8], ended: Ended) -> Ended
    ensures writes { Writes 0 report.now ended result (told K.written K.faults sink.old sink.new) }
    ensures later { K.faults sink.old ≤ K.faults sink.new }
{
    match put_all(sink, report) {
        Ok(()) => ended,
        Err(partial) => Ended {
            status: Status::Write,
            place: partial.done as u64,
        },
    }
}
