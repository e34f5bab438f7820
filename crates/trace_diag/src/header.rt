//! The header of a recorded trace, line by line.
ghost use Rattle.std.specs.Prelude.{◌≡◌, ◌<◌, IfOk, OnOk};
ghost use Rattle.schedule_file.specs.FieldsRead.{Becomes};
ghost use Rattle.trace_diag.specs.Lines.{trace_heading_new, trace_heading_after, trace_is_whole};
ghost use Rattle.trace_diag.specs.LinesLeft.{trace_lines_left};
ghost use Rattle.trace_diag.specs.Report.{AreLengths};

use fsoe_base::Lengths;
use schedule_file::{LengthsLine, LineCause, cut, no_field, read_lengths};
use std::marker::Model;

/// How far a header is read.
#[derive(Clone, Copy)]
pub enum Stage {
    /// No line yet.
    Start,
    /// The first line.
    Title,
    /// `lengths`.
    Lengths,
    /// `go`.
    Done,
}

/// A header that is read line by line, without newlines: `fsoe 1 trace`, `lengths <master> <slave>` and `go`. The
/// fields of a line are separated by exactly one space.
#[derive(Drop)]
pub struct TraceHeader {
    stage: Stage,
    lengths: Lengths,
}

impl Model for TraceHeader {
    ghost use Rattle.trace_diag.specs.Lines.{TraceHeading};

    ghost Value = { TraceHeading };

    ghost view = { λ h. record { stage = h.stage; master = h.lengths.master; slave = h.lengths.slave } };
}

impl TraceHeader {
    /// A header of which no line is read.
    pub fn new() -> TraceHeader
        ensures { result ≡ trace_heading_new }
    {
        TraceHeader {
            stage: Stage::Start,
            lengths: Lengths::new(1, 1).unwrap(),
        }
    }

    /// Whether the line `go` is read.
    pub fn is_done(&self) -> bool
        ensures { result ≡ trace_is_whole self.now }
    {
        matches!(self.stage, Stage::Done)
    }

    /// The lengths, 1 and 1 before their line.
    pub fn lengths(&self) -> Lengths
        ensures { AreLengths self.now result }
    {
        self.lengths
    }

    /// Reads the next line. Returns true if and only if it is `go`, which ends the header. An error is the first of
    /// these causes that applies: `Header` if its first word isn't allowed here, `Fields`, `Number`, `Length`. Every
    /// line after `go` is refused as `Header`; after a refused line don't read further.
    pub fn line(&mut self, line: &[u8]) -> Result<bool, LineCause>
        ensures next { Becomes result self.new (trace_heading_after self.old line.now) }
        ensures done { IfOk result (λ done. done ≡ trace_is_whole self.new) }
        ensures fewer { OnOk result (trace_lines_left self.new < trace_lines_left self.old) }
    {
        let (word, fields) = cut(line);
        match self.stage {
            Stage::Start if line == b"fsoe 1 trace".as_slice() => self.stage = Stage::Title,
            Stage::Title if word == b"lengths".as_slice() => {
                let LengthsLine { master, slave } = read_lengths(fields)?;
                self.lengths = Lengths::new(usize::from(master), usize::from(slave)).unwrap();
                self.stage = Stage::Lengths;
            }
            Stage::Lengths if word == b"go".as_slice() => {
                no_field(fields)?;
                self.stage = Stage::Done;
            }
            _ => return Err(LineCause::Header),
        }
        Ok(self.is_done())
    }
}
