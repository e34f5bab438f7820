//! What an event line of a node says.
ghost use Rattle.std.specs.Prelude.{◌≡◌, IfOk, OnOk, OnErr};
ghost use Rattle.fsoe_base.specs.LengthsOf.{length_of};
ghost use Rattle.schedule_file.specs.Event.{LineFits};
ghost use Rattle.schedule_file.specs.FieldsRead.{Becomes};
ghost use Rattle.schedule_file.specs.NodeEvent.{node_line};

use crate::event::ScheduleLine;
use crate::event_line::{EventWord, read_end, read_said};
use crate::field::{cut, find_word};
use crate::line_cause::LineCause;
use fsoe_base::{End, Lengths};
use param_load::Profile;

/// The words of events.
const WORDS: [(&[u8], EventWord); 6] = [
    (b"t", EventWord::Tick),
    (b"d", EventWord::Raw),
    (b"p", EventWord::Put),
    (b"h", EventWord::Hold),
    (b"n", EventWord::Nonce),
    (b"z", EventWord::Local),
];

/// Parses a line after the header, without its newline: an event at the node at `end`, or the end of the schedule. An
/// error is the first of these causes that applies: `Word`, `Fields`, `Number`, `Hex`, `Length`. The lines are:
/// - `d <hex>`, a frame of 1 to 255 bytes; `t`, a tick; `z`, a local reset; and `end`;
/// - `p <hex>`, exactly the end's own number of safe data bytes; `h 0` and `h 1`, fail-safe data off and on;
/// - `n <id>`, a session id that the profile allows.
pub fn read_node_event(
    line: &[u8],
    end: End,
    lengths: &Lengths,
    profile: Profile,
) -> Result<ScheduleLine, LineCause>
    ensures value { result ≡ node_line end (length_of lengths.now) profile line.now }
    ensures fits { IfOk result (LineFits end lengths.now profile) }
{
    let mut says = ScheduleLine::End;
    read_node_event_into(line, end, lengths, profile, &mut says)?;
    Ok(says)
}

/// Parses a line as `read_node_event` does, and writes what it says over `says`, which is as it was after an error. A
/// frame stays in its place where `says` has one.
pub fn read_node_event_into(
    line: &[u8],
    end: End,
    lengths: &Lengths,
    profile: Profile,
    says: &mut ScheduleLine,
) -> Result<(), LineCause>
    ensures value { Becomes result says.new (node_line end (length_of lengths.now) profile line.now) }
    ensures fits { OnOk result (LineFits end lengths.now profile says.new) }
    ensures unwritten { OnErr result (says.new ≡ says.old) }
{
    let (first, fields) = cut(line);
    if first == b"end".as_slice() {
        return read_end(fields, says);
    }
    let word = find_word(&WORDS, first).ok_or(LineCause::Word)?;
    read_said((word, end), fields, lengths, profile, says)
}
