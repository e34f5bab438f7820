//! The next line of an input.
ghost use Rattle.std.specs.Io.KnownBytes.{prepend_known};
ghost use Rattle.std.specs.Prelude.{◌≡◌, ◌-◌, ◌^◌, ◌≤◌, ◌<◌, length};
ghost use Rattle.fsoe_io.specs.Line.{IsLine, most_held};
ghost use Rattle.file_run.specs.Halt.{Blames, Goes, Stalls};
ghost use Rattle.file_run.specs.NextLine.{FindsLine};

use crate::halt::{Halt, halt_of};
use crate::refusal::Refusal;
use fsoe_io::{LineReader, Source};

/// Reads the next line, which `LineReader::line` returns then, or returns why there is none.
#[inline(always)]
pub fn next_line<S: Source>(reader: &mut LineReader, source: &mut S) -> Result<(), Halt>
    requires { reader.old.lines < 2 ^ 64 - 1 }
    ensures finds { FindsLine result reader.new.line
        (prepend_known reader.old.bytes (S.left source.old))
        (prepend_known reader.new.bytes (S.left source.new)) }
    ensures goes { Goes result reader.old.lines reader.new.lines
        (prepend_known reader.old.bytes (S.left source.old))
        (prepend_known reader.new.bytes (S.left source.new)) }
    ensures stalls { Stalls result reader.new.bytes }
    ensures most { length reader.new.bytes ≤ most_held }
    ensures unread { ¬ IsLine reader.old.bytes → source.new ≡ source.old }
    ensures later { S.faults source.old ≤ S.faults source.new }
    ensures cause { Blames result (S.faults source.old) (S.faults source.new) }
{
    let before = reader.lines();
    match reader.advance(source) {
        Ok(true) => Ok(()),
        Ok(false) => Err(Halt::Refused(before + 1, Refusal::NoLine)),
        Err(fault) => Err(halt_of(fault, before)),
    }
}
