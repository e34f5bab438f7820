//! How a run begins.
ghost use Rattle.std.specs.Io.KnownBytes.{prepend_known};
ghost use Rattle.std.specs.Prelude.{◌≡◌, ◌≤◌, ℕ, List, Option, IfErr, IfOk, OnErr, OnOk, length};
ghost use Rattle.fsoe_io.specs.Line.{IsLine, most_held};
ghost use Rattle.file_run.specs.Halt.{Halts, Blames, Stalls};
ghost use Rattle.file_run.specs.Header.{Begins};
ghost use Rattle.file_run.specs.Left.{HaltsHeader};
ghost use Rattle.file_run.specs.NextLine.{IsLent};
ghost use Rattle.file_run.specs.Reporting.{TakesMemory};

use crate::format::Format;
use crate::halt::Halt;
use crate::header::read_header;
use crate::machine::Machine;
use fsoe_io::{LineReader, Source};

/// Reads a header, whose first line the reader lends, and begins a machine with its settings. Also returns what lines
/// after it are parsed by, or why there is no machine.
pub(crate) fn begin_over<M: Machine, S: Source>(
    handed: &mut M::Handed,
    reader: &mut LineReader,
    source: &mut S,
) -> Result<(M, <M::Format as Format>::Grammar), Halt>
    requires line { IsLine reader.old.line }
    requires lines { reader.old.lines ≡ 1 }
    requires held { length reader.old.bytes ≤ most_held }
    ensures begins { (input : Option (List ℕ)) → IsLent input reader.old (S.left source.old) → IfOk result (λ begun. Begins (M.reporting handed.old) (M.stands handed.old begun.0 handed.new) (M.Format.says begun.1) reader.new.lines input (prepend_known reader.new.bytes (S.left source.new))) }
    ensures kind { OnOk result ((k : M.Format.Kind) × (M.Format.format k ≡ (M.reporting handed.old).format)) }
    ensures kept { OnErr result (handed.new ≡ handed.old) }
    ensures headless { (input : Option (List ℕ)) → IsLent input reader.old (S.left source.old) → IfErr result (λ why. HaltsHeader (M.reporting handed.old).format (TakesMemory (M.reporting handed.old).memory) why input (prepend_known reader.new.bytes (S.left source.new))) }
    ensures stalls { Stalls result reader.new.bytes }
    ensures halts { (input : Option (List ℕ)) → IsLent input reader.old (S.left source.old) → Halts result input (S.left source.new) }
    ensures later { S.faults source.old ≤ S.faults source.new }
    ensures cause { Blames result (S.faults source.old) (S.faults source.new) }
{
    M::laws();
    let Ok(mut header) = M::open(handed) else {
        return Err(Halt::Memory);
    };
    read_header::<M::Format, S>(&mut header, reader, source)?;
    let grammar = M::Format::grammar(&header);
    match M::begin(&header, handed) {
        Ok(machine) => Ok((machine, grammar)),
        Err(_) => Err(Halt::Memory),
    }
}
