//! The header of an input.
ghost use Rattle.std.specs.Prelude.{◌≡◌, ◌≤◌, ℕ, List, Option, IsTrue, OnOk, length};
ghost use Rattle.std.specs.Io.KnownBytes.{prepend_known};
ghost use Rattle.fsoe_io.specs.Line.{IsLine, most_held};
ghost use Rattle.file_run.specs.Halt.{Halts, Blames, Stalls};
ghost use Rattle.file_run.specs.Header.{ReadsHeader};
ghost use Rattle.file_run.specs.Machine.{most_lines};
ghost use Rattle.file_run.specs.NextLine.{IsLent};

use crate::format::Format;
use crate::halt::Halt;
use crate::line::next_line;
use crate::refusal::Refusal;
use fsoe_io::{LineReader, Source};

/// Reads a header, of which no line is taken, up to its last line. The reader lends its first.
pub(crate) fn read_header<F: Format, S: Source>(
    header: &mut F::Header,
    reader: &mut LineReader,
    source: &mut S,
) -> Result<(), Halt>
    requires line { IsLine reader.old.line }
    requires lines { reader.old.lines ≡ 1 }
    requires held { length reader.old.bytes ≤ most_held }
    requires few { F.lines_left header.old ≤ most_lines }
    requires start { header.old ≡ (F.format (F.kind header.old)).start }
    ensures most { OnOk result (reader.new.lines ≤ most_lines) }
    ensures done { OnOk result (IsTrue ((F.format (F.kind header.old)).is_whole header.new)) }
    ensures kind { F.kind header.new ≡ F.kind header.old }
    ensures heads { (input : Option (List ℕ)) → IsLent input reader.old (S.left source.old) → ReadsHeader (F.format (F.kind header.old)) result header.new reader.new.lines input (prepend_known reader.new.bytes (S.left source.new)) }
    ensures stalls { Stalls result reader.new.bytes }
    ensures halts { (input : Option (List ℕ)) → IsLent input reader.old (S.left source.old) → Halts result input (S.left source.new) }
    ensures later { S.faults source.old ≤ S.faults source.new }
    ensures cause { Blames result (S.faults source.old) (S.faults source.new) }
{
    loop {
        match F::line(header, reader.line()) {
            Ok(true) => return Ok(()),
            Ok(false) => {}
            Err(cause) => return Err(Halt::Refused(reader.lines(), Refusal::Line(cause))),
        }
        if let Err(why) = next_line(reader, source) {
            return Err(why);
        }
    }
}
