//! What is reported of a trace.
ghost use Rattle.std.specs.Prelude.{◌≡◌, ◌≤◌, ◌+◌, ◌++◌, length, codes, decimal};
ghost use Rattle.trace_diag.specs.Report.{ended_by, field_text, frames_line, told_text, verdict_lines};
ghost use Rattle.trace_diag.specs.declared.verdict.Verdict.TheVariants as verdict_of;

use crate::field::Field;
use crate::verdict::{ReadOff, Verdict};
use fsoe_io::{Ended, LineText, Status};

/// Appends a number, or a minus where none is told.
fn push_told(told: Option<u16>, text: &mut LineText)
    requires { length text.old ≤ 512 }
    ensures text { text.new ≡ text.old ++ told_text told }
    ensures most { length text.new ≤ length text.old + 20 }
{
    match told {
        None => text.push(b"-"),
        Some(n) => text.push_decimal(u64::from(n)),
    }
}

/// Appends the name of a field, with the place of a data byte or of a group.
fn push_field(field: Field, text: &mut LineText)
    requires { length text.old ≤ 512 }
    ensures text { text.new ≡ text.old ++ field_text field }
    ensures most { length text.new ≤ length text.old + 30 }
{
    match field {
        Field::Turn => text.push(b"Turn"),
        Field::Length => text.push(b"Length"),
        Field::Command => text.push(b"Command"),
        Field::Conn => text.push(b"Conn"),
        Field::Data(place) => {
            text.push(b"Data ");
            text.push_decimal(u64::from(place));
        }
        Field::Crc(group) => {
            text.push(b"Crc ");
            text.push_decimal(u64::from(group));
        }
    }
}

/// Appends the lines of a trace that conforms.
fn push_read(read: &ReadOff, text: &mut LineText)
    requires { length text.old ≤ 100 }
    ensures { text.new ≡ text.old ++ verdict_lines (verdict_of.Conforms read.now) }
{
    text.push(b"read ");
    push_told(read.conn, text);
    text.push(b" ");
    push_told(read.address, text);
    text.push(b" ");
    push_told(read.watchdog, text);
    text.push(b" ");
    push_told(read.app, text);
    text.push(b"\nconforms\n");
}

/// Appends the line of the first frame that differs.
fn push_differs(frame: u64, field: Field, text: &mut LineText)
    requires { length text.old ≤ 100 }
    ensures { text.new ≡ text.old ++ verdict_lines (verdict_of.Differs frame field) }
{
    text.push(b"frame ");
    text.push_decimal(frame);
    text.push(b" ");
    push_field(field, text);
    text.push(b"\n");
}

/// Writes the report of a trace with so many frames, and tells how its run ends.
pub(crate) fn write_verdict(frames: u64, verdict: &Verdict, text: &mut LineText) -> Ended
    ensures text { text.new ≡ frames_line frames ++ verdict_lines verdict.now }
    ensures ended { result ≡ ended_by verdict.now }
{
    text.clear();
    text.push(b"frames ");
    text.push_decimal(frames);
    text.push(b"\n");
    match verdict {
        Verdict::Conforms(read) => {
            push_read(read, text);
            Ended {
                status: Status::Ok,
                place: 0,
            }
        }
        Verdict::Differs { frame, field } => {
            push_differs(*frame, *field, text);
            Ended {
                status: Status::Other,
                place: *frame,
            }
        }
    }
}
