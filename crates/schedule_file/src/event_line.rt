//! What an event's line says by its word and the fields after it: one reader for each kind of event. Each writes the
//! event over `event`, which is as it was after an error.
ghost use Rattle.std.specs.Prelude.{◌≡◌, [], ◌∷◌, OnErr, option_map};
ghost use Rattle.fsoe_base.specs.LengthsOf.{length_of};
ghost use Rattle.schedule_file.specs.EventLine.{switch_of, reference_of, delivered_len, bare_line, deliver_line, altered_line, raw_line, put_line, hold_line, nonce_line, event_said};
ghost use Rattle.schedule_file.specs.Field.{bytes_said};
ghost use Rattle.schedule_file.specs.Fields.{map_ok};
ghost use Rattle.schedule_file.specs.FieldsRead.{fields_after, Becomes};

use crate::event::{Event, MAX_BACK, ScheduleLine};
use crate::field::{
    bytes_field, find_word, next_field, no_field, number_16, number_32, one_field, read_number,
};
use crate::hex_digits::read_hex;
use crate::line_cause::LineCause;
use fsoe_base::{End, FrameBuf, Image, Lengths};
use param_load::Profile;

/// What happens at an end, as the word of a line says it.
#[derive(Clone, Copy)]
pub enum EventWord {
    Deliver,
    Altered,
    Raw,
    Tick,
    Put,
    Hold,
    Nonce,
    Local,
}

/// The texts of a switch.
const SWITCHES: [(&[u8], bool); 2] = [(b"0", false), (b"1", true)];

/// Off or on: `0` or `1`.
pub fn read_switch(text: &[u8]) -> Option<bool>
    ensures { result ≡ switch_of text.now }
{
    find_word(&SWITCHES, text)
}

/// How many frames back, from 1 to 64.
fn read_reference(text: &[u8]) -> Option<u8>
    ensures { result ≡ reference_of text.now }
{
    let (sign, digits) = text.split_first()?;
    if *sign != b'-' {
        return None;
    }
    let back = read_number(digits, u64::from(MAX_BACK))?;
    if back == 0 {
        return None;
    }
    Some(back as u8)
}

/// One byte in two digits.
fn read_mask(text: &[u8]) -> Option<u8>
    ensures { option_map (λ mask. mask ∷ []) result ≡ bytes_said 1 text.now }
{
    let mut mask = [0];
    read_hex(text, &mut mask)?;
    Some(mask[0])
}

/// The number of bytes of a frame that is delivered to this end, which its peer sent.
fn delivered_len(to: End, lengths: &Lengths) -> usize
    ensures { result ≡ delivered_len (length_of lengths.now) to }
{
    match to {
        End::Master => lengths.frame_len(End::Slave),
        End::Slave => lengths.frame_len(End::Master),
    }
}

/// `-<back>`: a frame that the peer sent.
#[inline(never)]
fn read_deliver(to: End, fields: Option<&[u8]>, event: &mut Event) -> Result<(), LineCause>
    ensures value { Becomes result event.new (deliver_line to (fields_after fields.entry)) }
    ensures unwritten { OnErr result (event.new ≡ event.old) }
{
    let field = one_field(fields)?;
    let back = read_reference(field).ok_or(LineCause::Reference)?;
    *event = Event::Deliver { to, back };
    Ok(())
}

/// `-<back> <place> <mask>`: the same with one byte altered.
#[inline(never)]
fn read_altered(
    to: End,
    lengths: &Lengths,
    fields: Option<&[u8]>,
    event: &mut Event,
) -> Result<(), LineCause>
    ensures value { Becomes result event.new (altered_line to (delivered_len (length_of lengths.now) to) (fields_after fields.entry)) }
    ensures unwritten { OnErr result (event.new ≡ event.old) }
{
    let (reference, rest) = next_field(fields)?;
    let (place, rest) = next_field(rest)?;
    let digits = one_field(rest)?;
    let pos = number_16(place)?;
    let back = read_reference(reference).ok_or(LineCause::Reference)?;
    let mask = read_mask(digits).ok_or(LineCause::Hex)?;
    if usize::from(pos) >= delivered_len(to, lengths) {
        return Err(LineCause::Position);
    }
    *event = Event::Altered {
        to,
        back,
        pos: pos as u8,
        mask,
    };
    Ok(())
}

/// `<hex>`: a frame of from 1 to 255 bytes. It stays in its place where `event` has one.
#[inline(never)]
fn read_raw(to: End, fields: Option<&[u8]>, event: &mut Event) -> Result<(), LineCause>
    ensures value { Becomes result event.new (raw_line to (fields_after fields.entry)) }
    ensures unwritten { OnErr result (event.new ≡ event.old) }
{
    match event {
        Event::Raw { to: end, frame } => {
            bytes_field(fields, frame)?;
            *end = to;
            Ok(())
        }
        _ => read_first_raw(to, fields, event),
    }
}

/// `<hex>`: a frame of from 1 to 255 bytes, where the line before had none.
#[inline(never)]
fn read_first_raw(to: End, fields: Option<&[u8]>, event: &mut Event) -> Result<(), LineCause>
    ensures value { Becomes result event.new (raw_line to (fields_after fields.entry)) }
    ensures unwritten { OnErr result (event.new ≡ event.old) }
{
    let mut frame = FrameBuf::new();
    bytes_field(fields, &mut frame)?;
    *event = Event::Raw { to, frame };
    Ok(())
}

/// `<hex>`: so many safe data bytes.
#[inline(never)]
fn read_put(
    at: End,
    lengths: &Lengths,
    fields: Option<&[u8]>,
    event: &mut Event,
) -> Result<(), LineCause>
    ensures value { Becomes result event.new (put_line at (length_of lengths.now at) (fields_after fields.entry)) }
    ensures unwritten { OnErr result (event.new ≡ event.old) }
{
    let mut load = Image::new();
    bytes_field(fields, &mut load)?;
    if load.len() != lengths.of(at) {
        return Err(LineCause::Length);
    }
    *event = Event::Put { at, load };
    Ok(())
}

/// `0` or `1`: fail-safe data off or on.
#[inline(never)]
fn read_hold(at: End, fields: Option<&[u8]>, event: &mut Event) -> Result<(), LineCause>
    ensures value { Becomes result event.new (hold_line at (fields_after fields.entry)) }
    ensures unwritten { OnErr result (event.new ≡ event.old) }
{
    let field = one_field(fields)?;
    let failsafe = read_switch(field).ok_or(LineCause::Number)?;
    *event = Event::Hold { at, failsafe };
    Ok(())
}

/// `<id>`: a session id that the profile allows.
#[inline(never)]
fn read_nonce(
    at: End,
    profile: Profile,
    fields: Option<&[u8]>,
    event: &mut Event,
) -> Result<(), LineCause>
    ensures value { Becomes result event.new (nonce_line at profile (fields_after fields.entry)) }
    ensures unwritten { OnErr result (event.new ≡ event.old) }
{
    let field = one_field(fields)?;
    let id = number_32(field)?;
    if !profile.allows_id(id) {
        return Err(LineCause::Number);
    }
    *event = Event::Nonce { at, id };
    Ok(())
}

/// No field: the end of the schedule.
pub fn read_end(fields: Option<&[u8]>, says: &mut ScheduleLine) -> Result<(), LineCause>
    ensures value { Becomes result says.new (bare_line ScheduleLine.End (fields_after fields.entry)) }
    ensures unwritten { OnErr result (says.new ≡ says.old) }
{
    no_field(fields)?;
    *says = ScheduleLine::End;
    Ok(())
}

/// What a word says of an event at an end with its fields, written over what a line said, which is as it was after an
/// error. The end has this profile.
pub fn read_said(
    word: (EventWord, End),
    fields: Option<&[u8]>,
    lengths: &Lengths,
    profile: Profile,
    says: &mut ScheduleLine,
) -> Result<(), LineCause>
    ensures value { Becomes result says.new (map_ok ScheduleLine.Step (event_said (length_of lengths.now) profile word (fields_after fields.entry))) }
    ensures unwritten { OnErr result (says.new ≡ says.old) }
{
    match says {
        ScheduleLine::Step(event) => read_step(word, fields, lengths, profile, event),
        ScheduleLine::End => read_first(word, fields, lengths, profile, says),
    }
}

/// What a word says of an event where none was said before. It alone makes one anew.
#[inline(never)]
fn read_first(
    word: (EventWord, End),
    fields: Option<&[u8]>,
    lengths: &Lengths,
    profile: Profile,
    says: &mut ScheduleLine,
) -> Result<(), LineCause>
    ensures value { Becomes result says.new (map_ok ScheduleLine.Step (event_said (length_of lengths.now) profile word (fields_after fields.entry))) }
    ensures unwritten { OnErr result (says.new ≡ says.old) }
{
    let mut event = Event::Tick { at: word.1 };
    read_step(word, fields, lengths, profile, &mut event)?;
    *says = ScheduleLine::Step(event);
    Ok(())
}

/// What a word says of an event at an end with its fields, written over an event. A new kind of event is blanked in
/// full.
#[inline(always)]
pub fn read_step(
    word: (EventWord, End),
    fields: Option<&[u8]>,
    lengths: &Lengths,
    profile: Profile,
    event: &mut Event,
) -> Result<(), LineCause>
    ensures value { Becomes result event.new (event_said (length_of lengths.now) profile word (fields_after fields.entry)) }
    ensures unwritten { OnErr result (event.new ≡ event.old) }
{
    let (word, at) = word;
    match word {
        EventWord::Deliver => read_deliver(at, fields, event),
        EventWord::Altered => read_altered(at, lengths, fields, event),
        EventWord::Raw => read_raw(at, fields, event),
        EventWord::Tick => {
            no_field(fields)?;
            match event {
                Event::Tick { at: end } => *end = at,
                _ => *event = Event::Tick { at },
            }
            Ok(())
        }
        EventWord::Put => read_put(at, lengths, fields, event),
        EventWord::Hold => read_hold(at, fields, event),
        EventWord::Nonce => read_nonce(at, profile, fields, event),
        EventWord::Local => {
            no_field(fields)?;
            *event = Event::Local { at };
            Ok(())
        }
    }
}
