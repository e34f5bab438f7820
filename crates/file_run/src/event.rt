//! The events of an input.
ghost use Rattle.std.specs.Io.KnownBytes.{prepend_known};
ghost use Rattle.std.specs.Prelude.{◌≡◌, ◌-◌, ◌^◌, ◌≤◌, ◌<◌, length};
ghost use Rattle.fsoe_io.specs.Line.{IsLine, most_held};
ghost use Rattle.schedule_file.specs.declared.line_buf.TheConstants.{MAX_LINE};
ghost use Rattle.file_run.specs.Event.{FindsEvent, says_after, what_event};
ghost use Rattle.file_run.specs.Halt.{Blames, Goes, Stalls};

use crate::format::Format;
use crate::halt::Halt;
use crate::line::next_line;
use crate::refusal::Refusal;
use fsoe_io::{LineReader, Source};

/// What a line says that stands where there may be no event more, or may be, written over `said`; or why it is refused.
fn read_after<F: Format>(
    line: &[u8],
    full: bool,
    grammar: &F::Grammar,
    said: &mut F::Line,
) -> Result<(), Refusal>
    requires { length line.now ≤ MAX_LINE }
    ensures { (k : F.Kind) → what_event (F.format k).event result said.new ≡ says_after (F.format k).event (F.says grammar.now) full line.now }
{
    if !full {
        F::read(grammar, line, said).map_err(Refusal::Line)
    } else if line == b"end".as_slice() {
        *said = F::end();
        Ok(())
    } else {
        Err(Refusal::TooMany)
    }
}

/// What the next line says, written over `said`, where there may be no event more, or may be.
pub(crate) fn next_event<F: Format, S: Source>(
    reader: &mut LineReader,
    source: &mut S,
    full: bool,
    grammar: &F::Grammar,
    said: &mut F::Line,
) -> Result<(), Halt>
    requires { reader.old.lines < 2 ^ 64 - 1 }
    ensures finds { (k : F.Kind) → FindsEvent (F.format k).event (F.says grammar.now) full (what_event (F.format k).event result said.new)
        (prepend_known reader.old.bytes (S.left source.old))
        (prepend_known reader.new.bytes (S.left source.new)) }
    ensures goes { Goes result reader.old.lines reader.new.lines
        (prepend_known reader.old.bytes (S.left source.old))
        (prepend_known reader.new.bytes (S.left source.new)) }
    ensures stalls { Stalls result reader.new.bytes }
    ensures most { length reader.new.bytes ≤ most_held }
    ensures unread { ¬ IsLine reader.old.bytes → source.new ≡ source.old }
    ensures later { S.faults source.old ≤ S.faults source.new }
    ensures cause { Blames result (S.faults source.old) (S.faults source.new) }
{
    next_line(reader, source)?;
    match read_after::<F>(reader.line(), full, grammar, said) {
        Ok(()) => Ok(()),
        Err(cause) => Err(Halt::Refused(reader.lines(), cause)),
    }
}
