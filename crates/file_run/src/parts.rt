//! The text of an event, or of the end, in its parts.
ghost use Rattle.std.specs.Prelude.{◌≡◌, ◌+◌, ◌*◌, ◌++◌, ◌^◌, ◌≤◌, ◌<◌, length, OnOk};
ghost use Rattle.fsoe_io.specs.Calls.{HasCause};
ghost use Rattle.fsoe_io.specs.Output.{Puts};
ghost use Rattle.fsoe_io.specs.Sink.{most_waiting};
ghost use Rattle.file_run.specs.Ending.{Writes};
ghost use Rattle.file_run.specs.Machine.{IsStanding, StandsAsBefore};
ghost use Rattle.file_run.specs.Outside.{told};

use crate::machine::Machine;
use crate::stop::{close, write_failed};
use fsoe_io::{Ended, Failed, LineText, Output, Sink};

/// Writes a first part, and then the pending text, part by part.
pub(crate) fn put_text<M: Machine, K: Sink>(
    machine: &mut M,
    handed: &M::Handed,
    text: &mut LineText,
    output: &mut Output,
    sink: &mut K,
) -> Result<(), Failed>
    requires stands { (first : M.Handed) × IsStanding (M.stands first machine.old handed.now) }
    requires room { output.old.sent + length output.old.bytes + 1024 * M.parts machine.old handed.now < 2 ^ 62 }
    ensures puts { Puts result output.old output.new (K.written sink.old) (K.written sink.new) (text.old ++ M.waits machine.old handed.now) }
    ensures count { OnOk result (output.new.sent + length output.new.bytes ≤ output.old.sent + length output.old.bytes + 1024 + 1024 * M.parts machine.old handed.now) }
    ensures most { OnOk result (length output.new.bytes ≤ most_waiting) }
    ensures kept { (first : M.Handed) → StandsAsBefore (M.stands first machine.old handed.now) (M.stands first machine.new handed.now) }
    ensures cause { HasCause (K.faults sink.old) (K.faults sink.new) result }
{
    loop {
        let part = text.bytes();
        output.put(sink, part)?;
        machine.more(handed, text);
        if text.bytes().is_empty() {
            return Ok(());
        }
    }
}

/// Writes the last lines from their first part on, and flushes the output. If that fails, the run ends so.
pub(crate) fn close_run<M: Machine, K: Sink>(
    machine: &mut M,
    handed: &M::Handed,
    text: &mut LineText,
    output: &mut Output,
    sink: &mut K,
    ended: Ended,
) -> Ended
    requires stands { (first : M.Handed) × IsStanding (M.stands first machine.old handed.now) }
    requires room { output.old.sent + length output.old.bytes + 1024 * M.parts machine.old handed.now < 2 ^ 62 }
    ensures writes { Writes output.old.sent (output.old.bytes ++ (text.old ++ M.waits machine.old handed.now)) ended result (told K.written K.faults sink.old sink.new) }
    ensures later { K.faults sink.old ≤ K.faults sink.new }
{
    match put_text(machine, handed, text, output, sink) {
        Ok(()) => close(output, sink, b"", ended),
        Err(_) => write_failed(output),
    }
}
