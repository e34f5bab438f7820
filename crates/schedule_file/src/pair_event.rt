//! What an event line of both ends says.
ghost use Rattle.std.specs.Prelude.{◌≡◌, IfOk, OnOk, OnErr};
ghost use Rattle.fsoe_base.specs.LengthsOf.{length_of};
ghost use Rattle.schedule_file.specs.Event.{PairLineFits, profile_of};
ghost use Rattle.schedule_file.specs.FieldsRead.{Becomes};
ghost use Rattle.schedule_file.specs.PairEvent.{pair_word_of, pair_line};

use crate::event::ScheduleLine;
use crate::event_line::{EventWord, read_end, read_said};
use crate::field::{cut, find_word};
use crate::line_cause::LineCause;
use fsoe_base::{End, Lengths};
use param_load::{Profile, Profiles};

/// The words of events, each with the letter of its end.
const WORDS: [(&[u8], (EventWord, End)); 16] = [
    (b"dm", (EventWord::Deliver, End::Master)),
    (b"ds", (EventWord::Deliver, End::Slave)),
    (b"am", (EventWord::Altered, End::Master)),
    (b"as", (EventWord::Altered, End::Slave)),
    (b"rm", (EventWord::Raw, End::Master)),
    (b"rs", (EventWord::Raw, End::Slave)),
    (b"tm", (EventWord::Tick, End::Master)),
    (b"ts", (EventWord::Tick, End::Slave)),
    (b"pm", (EventWord::Put, End::Master)),
    (b"ps", (EventWord::Put, End::Slave)),
    (b"hm", (EventWord::Hold, End::Master)),
    (b"hs", (EventWord::Hold, End::Slave)),
    (b"nm", (EventWord::Nonce, End::Master)),
    (b"ns", (EventWord::Nonce, End::Slave)),
    (b"zm", (EventWord::Local, End::Master)),
    (b"zs", (EventWord::Local, End::Slave)),
];

/// The word of an event, and its end.
pub fn read_pair_word(text: &[u8]) -> Option<(EventWord, End)>
    ensures { result ≡ pair_word_of text.now }
{
    find_word(&WORDS, text)
}

/// The profile of an end.
pub fn profile_of(profiles: &Profiles, at: End) -> Profile
    ensures { result ≡ profile_of profiles.now at }
{
    match at {
        End::Master => profiles.master,
        End::Slave => profiles.slave,
    }
}

/// Parses a line after the header, without its newline: an event at one of both ends, or the end of the schedule. An
/// error is the first of these causes that applies: `Word`, `Fields`, `Number`, `Reference`, `Hex`, `Length`,
/// `Position`. The lines for the master, with `s` for `m` those for the slave, and `end`:
/// - `dm -<back>`, the frame 1 to 64 back of those that the peer sent; `rm <hex>`, a frame of 1 to 255 bytes;
/// - `am -<back> <place> <mask>`, the frame back with one byte altered by a mask of two digits;
/// - `tm`, a tick; `zm`, a local reset; `pm <hex>`, exactly the end's own number of safe data bytes;
/// - `hm 0` and `hm 1`, fail-safe data off and on; `nm <id>`, a session id that the end's profile allows.
pub fn read_event(
    line: &[u8],
    lengths: &Lengths,
    profiles: &Profiles,
) -> Result<ScheduleLine, LineCause>
    ensures value { result ≡ pair_line (length_of lengths.now) (profile_of profiles.now) line.now }
    ensures fits { IfOk result (PairLineFits (length_of lengths.now) (profile_of profiles.now)) }
{
    let mut says = ScheduleLine::End;
    read_event_into(line, lengths, profiles, &mut says)?;
    Ok(says)
}

/// Parses a line as `read_event` does, and writes what it says over `says`, which is as it was after an error. A frame
/// stays in its place where `says` has one.
pub fn read_event_into(
    line: &[u8],
    lengths: &Lengths,
    profiles: &Profiles,
    says: &mut ScheduleLine,
) -> Result<(), LineCause>
    ensures value { Becomes result says.new (pair_line (length_of lengths.now) (profile_of profiles.now) line.now) }
    ensures fits { OnOk result (PairLineFits (length_of lengths.now) (profile_of profiles.now) says.new) }
    ensures unwritten { OnErr result (says.new ≡ says.old) }
{
    let (first, fields) = cut(line);
    if first == b"end".as_slice() {
        return read_end(fields, says);
    }
    let word = read_pair_word(first).ok_or(LineCause::Word)?;
    let profile = profile_of(profiles, word.1);
    read_said(word, fields, lengths, profile, says)
}
