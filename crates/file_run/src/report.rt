//! The closing lines of a report, and how a run ends that looks for `other` entries.
ghost use Rattle.std.specs.Prelude.{◌≡◌, ◌≤◌, ◌+◌, ◌++◌, length};
ghost use Rattle.file_run.specs.Refusal.{input_cause};
ghost use Rattle.file_run.specs.Report.{ended_with, events_line, other_line, refused_line};

use crate::refusal::Refusal;
use fsoe_io::{Ended, LineText, Status};

/// The line that counts the events of an input that was read up to its `end`.
pub fn write_events(events: u64, text: &mut LineText)
    ensures text { text.new ≡ events_line events }
    ensures most { length text.new ≤ 28 }
{
    text.clear();
    text.push_str("events ");
    text.push_decimal(events);
    text.push_str("\n");
}

/// The last line where a line is refused, with its number from 1.
pub fn write_refusal(line: u64, refusal: Refusal, text: &mut LineText)
    ensures text { text.new ≡ refused_line line (input_cause refusal) }
{
    text.clear();
    text.push_str("refused ");
    text.push_decimal(line);
    text.push_str(" ");
    text.push_str(refusal.name());
    text.push_str("\n");
}

/// Appends the line `other <n>` with the number of the first `other` entry, or `other none`.
pub fn push_other(other: Option<u64>, text: &mut LineText)
    requires { length text.old ≤ 500 }
    ensures text { text.new ≡ text.old ++ other_line other }
    ensures most { length text.new ≤ length text.old + 30 }
{
    match other {
        Some(number) => {
            text.push(b"other ");
            text.push_decimal(number);
            text.push(b"\n");
        }
        None => text.push(b"other none\n"),
    }
}

/// How a complete run ends, by the number of its first `other` entry.
pub fn ended_with(other: Option<u64>) -> Ended
    ensures { result ≡ ended_with other }
{
    match other {
        None => Ended {
            status: Status::Ok,
            place: 0,
        },
        Some(number) => Ended {
            status: Status::Other,
            place: number,
        },
    }
}
