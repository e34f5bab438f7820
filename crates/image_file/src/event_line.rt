//! Lines of events.
ghost use Rattle.std.specs.Prelude.{◌≡◌};
ghost use Rattle.schedule_file.specs.FieldsRead.{fields_after, Becomes};
ghost use Rattle.image_file.specs.EventLine.{IsSlotAndField, slot_and_field, write_line, slot_put_line, slot_hold_line, slot_nonce_line, reset_line, image_line};
ghost use Rattle.image_file.specs.Places.{slot_numbered};

use crate::event::ImageEvent;
use crate::said::Said;
use fsoe_base::Image;
use param_load::Profile;
use schedule_file::{
    LineCause, cut, find_word, next_field, no_field, number_16, number_32, one_field, read_bytes,
    read_switch,
};

/// The word that begins a line of an event, or `end`.
#[derive(Clone, Copy)]
pub enum Word {
    Write,
    Sample,
    Tick,
    Put,
    Hold,
    Nonce,
    Reset,
    End,
}

/// The words of events, and `end`.
const WORDS: [(&[u8], Word); 8] = [
    (b"w", Word::Write),
    (b"s", Word::Sample),
    (b"t", Word::Tick),
    (b"p", Word::Put),
    (b"h", Word::Hold),
    (b"n", Word::Nonce),
    (b"z", Word::Reset),
    (b"end", Word::End),
];

/// What lines of events look at of the end of a slot.
#[derive(Clone, Copy)]
pub struct SlotEnd {
    /// How many safe data bytes it sends.
    pub(crate) sends: usize,
    /// Its profile.
    pub(crate) profile: Profile,
}

impl Default for SlotEnd {
    fn default() -> SlotEnd {
        SlotEnd {
            sends: 1,
            profile: Profile::One,
        }
    }
}

/// The end of the slot of this number, where there is one.
fn find_end(slot: u16, ends: &[SlotEnd]) -> Option<SlotEnd>
    ensures { result ≡ slot_numbered slot ends.now }
{
    if slot == 0 {
        return None;
    }
    ends.get(usize::from(slot) - 1).copied()
}

/// `<at> <hex>`: from 1 to 256 bytes inside the input image.
#[tactic(auto, using(crate::proofs::Written::placed))]
fn read_write(size: u16, fields: Option<&[u8]>, says: &mut Said) -> Result<(), LineCause>
    ensures { Becomes result says.new (write_line size (fields_after fields.entry)) }
{
    let (place, rest) = next_field(fields)?;
    match rest {
        Some(digits) => says.read_write(size, place, digits),
        None => Err(LineCause::Fields),
    }
}

/// `<k>` and the one field behind it: the number of a slot, and that field.
fn slot_and_field(fields: Option<&[u8]>) -> Result<(u16, &[u8]), LineCause>
    ensures { IsSlotAndField result (slot_and_field (fields_after fields.entry)) }
{
    let (first, rest) = next_field(fields)?;
    let field = one_field(rest)?;
    Ok((number_16(first)?, field))
}

/// `<k> <hex>`: as many safe data bytes as the end of the slot sends.
fn read_put(ends: &[SlotEnd], fields: Option<&[u8]>, says: &mut Said) -> Result<(), LineCause>
    ensures { Becomes result says.new (slot_put_line ends.now (fields_after fields.entry)) }
{
    let (slot, digits) = slot_and_field(fields)?;
    let end = find_end(slot, ends).ok_or(LineCause::NoLink)?;
    let mut load = Image::new();
    read_bytes(digits, &mut load)?;
    if load.len() != end.sends {
        return Err(LineCause::Length);
    }
    says.set(ImageEvent::Put { slot, load });
    Ok(())
}

/// `<k> 0` or `<k> 1`: fail-safe data off or on.
fn read_hold(ends: &[SlotEnd], fields: Option<&[u8]>, says: &mut Said) -> Result<(), LineCause>
    ensures { Becomes result says.new (slot_hold_line ends.now (fields_after fields.entry)) }
{
    let (slot, field) = slot_and_field(fields)?;
    let failsafe = read_switch(field).ok_or(LineCause::Number)?;
    find_end(slot, ends).ok_or(LineCause::NoLink)?;
    says.set(ImageEvent::Hold { slot, failsafe });
    Ok(())
}

/// `<k> <id>`: a session id that the profile of the slot's end allows.
fn read_nonce(ends: &[SlotEnd], fields: Option<&[u8]>, says: &mut Said) -> Result<(), LineCause>
    ensures { Becomes result says.new (slot_nonce_line ends.now (fields_after fields.entry)) }
{
    let (slot, field) = slot_and_field(fields)?;
    let id = number_32(field)?;
    match find_end(slot, ends) {
        Some(end) if end.profile.allows_id(id) => {
            says.set(ImageEvent::Nonce { slot, id });
            Ok(())
        }
        None if id <= 65535 => Err(LineCause::NoLink),
        _ => Err(LineCause::Number),
    }
}

/// `<k>`: the slot that resets itself.
fn read_reset(ends: &[SlotEnd], fields: Option<&[u8]>, says: &mut Said) -> Result<(), LineCause>
    ensures { Becomes result says.new (reset_line ends.now (fields_after fields.entry)) }
{
    let field = one_field(fields)?;
    let slot = number_16(field)?;
    find_end(slot, ends).ok_or(LineCause::NoLink)?;
    says.set(ImageEvent::Reset { slot });
    Ok(())
}

/// Parses a line after the header, without its newline, where the input image has this size and the slots have these
/// ends. Writes its meaning over `says`. An error is the first of these causes that applies: `Word`, `Fields`,
/// `Number`, `NoLink`, `Hex`, `Length`, `Position`. Lines:
/// - `w <at> <hex>`, from 1 to 256 bytes inside the input image; `s`, a sample; `t`, a tick; and `end`;
/// - for slot `k`: `p <k> <hex>`, exactly as many safe data bytes as its end sends; `z <k>`, a local reset;
/// - `h <k> 0` and `h <k> 1`, fail-safe data off and on; `n <k> <id>`, a session id that its profile allows.
pub(crate) fn read_image_line(
    line: &[u8],
    size: u16,
    ends: &[SlotEnd],
    says: &mut Said,
) -> Result<(), LineCause>
    ensures { Becomes result says.new (image_line size ends.now line.now) }
{
    let (first, fields) = cut(line);
    match find_word(&WORDS, first) {
        Some(Word::Write) => read_write(size, fields, says),
        Some(Word::Sample) => {
            no_field(fields)?;
            says.set_sample();
            Ok(())
        }
        Some(Word::Tick) => {
            no_field(fields)?;
            says.set_tick();
            Ok(())
        }
        Some(Word::Put) => read_put(ends, fields, says),
        Some(Word::Hold) => read_hold(ends, fields, says),
        Some(Word::Nonce) => read_nonce(ends, fields, says),
        Some(Word::Reset) => read_reset(ends, fields, says),
        Some(Word::End) => {
            no_field(fields)?;
            says.set_end();
            Ok(())
        }
        None => Err(LineCause::Word),
    }
}
