//! How the lines of a recorded trace are read.
ghost use Rattle.std.specs.Prelude.{◌≡◌, ◌≤◌, length};
ghost use Rattle.file_run.specs.Machine.{what_says};
ghost use Rattle.schedule_file.specs.declared.line_buf.TheConstants.{MAX_LINE};
ghost use Rattle.trace_diag.specs.Lines.{trace_line};

use crate::header::TraceHeader;
use crate::noted::Noted;
use crate::trace_line::{TraceLine, read_trace_line};
use file_run::Format;
use schedule_file::LineCause;

/// How the lines of a recorded trace are read.
pub struct TraceFormat;

impl Format for TraceFormat {
    ghost use Rattle.std.specs.Prelude.{false};
    ghost use Rattle.trace_diag.specs.Lines.{trace_format, trace_line};
    ghost use Rattle.trace_diag.specs.LinesLeft.{trace_lines_left};

    type Header = TraceHeader;

    type Grammar = ();

    type Line = TraceLine;

    type Event = Noted;

    ghost Kind = { Unit {0} };

    ghost format = { λ kind. trace_format };

    ghost kind = { λ h. tt };

    ghost lines_left = { trace_lines_left };

    ghost says = { λ grammar. trace_line };

    fn line(header: &mut TraceHeader, line: &[u8]) -> Result<bool, LineCause> {
        header.line(line)
    }

    fn grammar(_: &TraceHeader) {}

    fn end() -> TraceLine {
        TraceLine::Last
    }

    fn read(_: &(), line: &[u8], said: &mut TraceLine) -> Result<(), LineCause> {
        read_trace_line(line, said)
    }

    fn event(line: &TraceLine) -> Option<&Noted> {
        match line {
            TraceLine::Sent(noted) => Some(noted),
            TraceLine::Last => None,
        }
    }
}
