//! The header of images, line by line.
ghost use Rattle.std.specs.Prelude.{◌≡◌, ◌≤◌, ◌<◌, ◌⊎◌, IsTrue, IfOk, OnOk, None, length, map};
ghost use Rattle.std.specs.List.{AllZip, list_any};
ghost use Rattle.schedule_file.specs.FieldsRead.{fields_after, Becomes};
ghost use Rattle.schedule_file.specs.NodeHeader.{may_end};
ghost use Rattle.image_file.specs.Fault.{first_fault, plan_of, IsMadeOf};
ghost use Rattle.image_file.specs.Header.{image_heading_new, image_heading_is_whole, image_heading_after, size_line, slot_line, slot_begun, size_taken, slot_taken, two_numbers, own_taken, slots_of, fits_images, heading_spans, slot_end};
ghost use Rattle.image_file.specs.LinesLeft.{image_lines_left};
ghost use Rattle.image_file.specs.Places.{overlap};
ghost use Rattle.image_file.specs.Input.{end_terms};

use crate::event_line::SlotEnd;
use crate::slot::Slot;
use crate::spans::{MOST_SLOTS, Spans, lie_inside, overlap};
use arrayvec::ArrayVec;
use end_core::Core;
use fsoe_base::{End, Memory, frame_len};
use schedule_file::{
    Header, HeaderKind, LineCause, cut, next_field, number_16, one_field, profile_of,
};
use std::alloc::Global;
use std::marker::Model;
use std::mem;

/// The most bytes of an image that a header says.
pub const MOST_SIZE: u16 = 4096;

/// How far a header is read.
#[derive(Clone, Copy)]
pub enum Stage {
    /// No line yet.
    Start,
    /// The first line.
    Title,
    /// `size`.
    Size,
    /// A line of the last slot.
    Slots,
    /// `go`.
    Done,
}

/// A slot as its lines say it, as far as they are read.
#[derive(Drop)]
pub struct SlotHeader {
    /// Where a frame that comes to its end begins in the input image.
    pub(crate) at_in: u16,
    /// Where a frame that its end sends begins in the output image.
    pub(crate) at_out: u16,
    /// The lines of its end.
    pub(crate) own: Header,
}

impl SlotHeader {
    /// A slot of which its own line alone is read.
    fn begun(at_in: u16, at_out: u16) -> SlotHeader
        ensures { result ≡ slot_begun at_in at_out }
    {
        SlotHeader {
            at_in,
            at_out,
            own: Header::begun(),
        }
    }

    /// The end of the slot, once its `master` or `slave` line is read.
    pub(crate) fn end(&self) -> End
        ensures { result ≡ slot_end self.now }
    {
        match self.own.kind() {
            HeaderKind::Node(end) => end,
            HeaderKind::Pair => End::Slave,
        }
    }

    /// What lines of events look at of its end.
    fn end_terms(&self) -> SlotEnd
        ensures { result ≡ end_terms self.now }
    {
        let profiles = self.own.profiles();
        let end = self.end();
        SlotEnd {
            sends: self.own.lengths().of(end),
            profile: profile_of(&profiles, end),
        }
    }

    /// The slot with a new end that is set to what its lines say.
    #[tactic(auto, using(crate::proofs::Slots::made))]
    fn slot(&self) -> Slot
        ensures { IsMadeOf self.now result }
    {
        let core = match self.end() {
            End::Master => Core::new_master(self.own.master()),
            End::Slave => Core::new_slave(self.own.slave()),
        };
        Slot {
            at_in: self.at_in,
            at_out: self.at_out,
            core,
        }
    }

    /// The bytes that the frames of the slot take.
    #[tactic(auto, using(crate::proofs::Slots::frame_most))]
    fn spans(&self) -> Spans
        ensures { result ≡ heading_spans self.now }
    {
        let lengths = self.own.lengths();
        let (comes, goes) = match self.end() {
            End::Master => (End::Slave, End::Master),
            End::Slave => (End::Master, End::Slave),
        };
        Spans {
            at_in: self.at_in,
            len_in: frame_len(lengths.of(comes)) as u16,
            at_out: self.at_out,
            len_out: frame_len(lengths.of(goes)) as u16,
        }
    }
}

/// A header that is read line by line, without newlines, from its first line to `go`. The fields of a line are
/// separated by exactly one space. This is the order of the lines:
///
/// - `fsoe 1 image`;
/// - `size <in> <out>`, the bytes of both images, from 1 to 4,096 each;
/// - from 1 to 64 slots, each with `slot <k> <at_in> <at_out>`: its number, from 1 in their order, and where its frames
///   begin in both images. Then come the lines that the header of a node has from `lengths` to before `go`;
/// - `go`.
///
/// Room for all slots is allocated when the header is made, so that no line allocates.
#[derive(Drop)]
pub struct ImageHeader {
    stage: Stage,
    size_in: u16,
    size_out: u16,
    before: Vec<SlotHeader>,
    last: SlotHeader,
}

impl Model for ImageHeader {
    ghost use Rattle.std.specs.Prelude.{◌≤◌, ◌<◌, length, vec_capacity, vec_len};
    ghost use Rattle.image_file.specs.Header.{ImageHeading};
    ghost use Rattle.image_file.specs.Tested.{IsTested};
    ghost use Rattle.image_file.specs.declared.header.TheConstants.{MOST_SIZE};
    ghost use Rattle.image_file.specs.declared.spans.TheConstants.{MOST_SLOTS};

    ghost Value = { ImageHeading };

    ghost view = { λ h.
        record {
          stage = h.stage;
          size_in = h.size_in;
          size_out = h.size_out;
          before = h.before.items;
          last = h.last;
        } };

    ghost invariant = { λ h.
        (MOST_SLOTS ≤ vec_capacity h.before)
        × (vec_len h.before < MOST_SLOTS)
        × (h.size_out ≤ MOST_SIZE)
        × IsTested (record {
          stage = h.stage;
          size_in = h.size_in;
          size_out = h.size_out;
          before = h.before.items;
          last = h.last;
        }) };
}

/// Two numbers.
fn read_two(fields: Option<&[u8]>) -> Result<(u16, u16), LineCause>
    ensures { result ≡ two_numbers (fields_after fields.entry) }
{
    let (first, rest) = next_field(fields)?;
    let second = one_field(rest)?;
    Ok((number_16(first)?, number_16(second)?))
}

/// `<in> <out>`: the sizes of both images.
fn read_size(fields: Option<&[u8]>) -> Result<(u16, u16), LineCause>
    ensures value { result ≡ size_line (fields_after fields.entry) }
    ensures most { IfOk result (λ sizes. sizes.1 ≤ MOST_SIZE) }
{
    let (size_in, size_out) = read_two(fields)?;
    if size_in >= 1 && size_in <= MOST_SIZE && size_out >= 1 && size_out <= MOST_SIZE {
        Ok((size_in, size_out))
    } else {
        Err(LineCause::Range)
    }
}

/// `<k> <at_in> <at_out>`: where the frames of the slot of this number begin.
fn read_slot(number: u16, fields: Option<&[u8]>) -> Result<(u16, u16), LineCause>
    ensures value { result ≡ slot_line number (fields_after fields.entry) }
    ensures number { OnOk result (number ≤ MOST_SLOTS) }
{
    let (first, rest) = next_field(fields)?;
    let places = read_two(rest)?;
    let n = number_16(first)?;
    if n == number && usize::from(n) <= MOST_SLOTS {
        Ok(places)
    } else {
        Err(LineCause::Range)
    }
}

impl ImageHeader {
    /// A header of which no line is read, with room for all slots.
    pub fn new(alloc: Global) -> Result<ImageHeader, Memory>
        ensures { IfOk result (λ h. h ≡ image_heading_new) }
    {
        let Ok(before) = Vec::with_capacity(alloc, MOST_SLOTS) else {
            return Err(Memory);
        };
        Ok(ImageHeader {
            stage: Stage::Start,
            size_in: 1,
            size_out: 1,
            before,
            last: SlotHeader::begun(0, 0),
        })
    }

    /// Whether the line `go` is read.
    pub fn is_done(&self) -> bool
        ensures { result ≡ image_heading_is_whole self.now }
    {
        matches!(self.stage, Stage::Done)
    }

    /// Reads the next line. Returns true if and only if it is `go`, the last one. An error is the first of these causes
    /// that applies: `Header` if its first word isn't allowed here, `Fields`, `Number`, `Hex`, `Length`, `Range`.
    /// `Range` also if the slot of a `master` or `slave` line isn't inside both images or shares a byte with one
    /// before. Every line after `go` is refused as `Header`; after a refused line don't read further.
    pub fn line(&mut self, line: &[u8]) -> Result<bool, LineCause>
        ensures next { Becomes result self.new (image_heading_after self.old line.now) }
        ensures done { IfOk result (λ done. done ≡ image_heading_is_whole self.new) }
        ensures fewer { OnOk result (image_lines_left self.new < image_lines_left self.old) }
    {
        let (first, fields) = cut(line);
        match self.stage {
            Stage::Start if line == b"fsoe 1 image".as_slice() => self.stage = Stage::Title,
            Stage::Title if first == b"size".as_slice() => self.take_size(fields)?,
            Stage::Size if first == b"slot".as_slice() => self.take_slot(fields)?,
            Stage::Slots if first == b"slot".as_slice() && self.last.own.may_end() => {
                self.take_slot(fields)?;
            }
            Stage::Slots => self.take_own(line)?,
            _ => return Err(LineCause::Header),
        }
        Ok(self.is_done())
    }

    /// Takes a `size` line.
    fn take_size(&mut self, fields: Option<&[u8]>) -> Result<(), LineCause>
        requires { self.old.stage ≡ Stage.Title }
        ensures next { Becomes result self.new (size_taken self.old (fields_after fields.entry)) }
        ensures fewer { OnOk result (image_lines_left self.new < image_lines_left self.old) }
    {
        let (size_in, size_out) = read_size(fields)?;
        self.size_in = size_in;
        self.size_out = size_out;
        self.stage = Stage::Size;
        Ok(())
    }

    /// The number of slots whose lines were read.
    fn count(&self) -> u16
        ensures value { result ≡ length (slots_of self.now) }
        ensures most { result ≤ MOST_SLOTS }
    {
        match self.stage {
            Stage::Slots | Stage::Done => self.before.len() as u16 + 1,
            Stage::Start | Stage::Title | Stage::Size => 0,
        }
    }

    /// Takes a `slot` line.
    fn take_slot(&mut self, fields: Option<&[u8]>) -> Result<(), LineCause>
        requires turn { (self.old.stage ≡ Stage.Size) ⊎ (self.old.stage ≡ Stage.Slots) }
        requires before { self.old.stage ≡ Stage.Slots → IsTrue (may_end self.old.last.own) }
        ensures next { Becomes result self.new (slot_taken self.old (fields_after fields.entry)) }
        ensures fewer { OnOk result (image_lines_left self.new < image_lines_left self.old) }
    {
        let (at_in, at_out) = read_slot(self.count() + 1, fields)?;
        if self.last.own.wants_profile() {
            return Err(LineCause::Range);
        }
        self.begin_slot(at_in, at_out);
        Ok(())
    }

    /// Goes on with a slot whose frames begin here.
    fn begin_slot(&mut self, at_in: u16, at_out: u16)
        requires room { length (slots_of self.old) < MOST_SLOTS }
        requires before { self.old.stage ≡ Stage.Slots → IsTrue (may_end self.old.last.own) }
        ensures { self.new ≡ record self.old { stage = Stage.Slots; before = slots_of self.old; last = slot_begun at_in at_out } }
    {
        let last = mem::replace(&mut self.last, SlotHeader::begun(at_in, at_out));
        match self.stage {
            Stage::Slots | Stage::Done => self.before.push_reserved(last),
            Stage::Start | Stage::Title | Stage::Size => self.before.clear(),
        }
        self.stage = Stage::Slots;
    }

    /// Takes a line of the last slot's end.
    fn take_own(&mut self, line: &[u8]) -> Result<(), LineCause>
        requires { self.old.stage ≡ Stage.Slots }
        ensures next { Becomes result self.new (own_taken self.old line.now) }
        ensures fewer { OnOk result (image_lines_left self.new < image_lines_left self.old) }
    {
        // So it stays where the line isn't taken. No slot counts then: the last one may not fit.
        self.stage = Stage::Size;
        let done = self.last.own.node_line(line)?;
        if self.last.own.is_end_line() && !self.fits() {
            return Err(LineCause::Range);
        }
        self.stage = if done { Stage::Done } else { Stage::Slots };
        Ok(())
    }

    /// The sizes of the input image and of the output image.
    pub fn sizes(&self) -> (u16, u16)
        ensures size_in { result.0 ≡ self.now.size_in }
        ensures size_out { result.1 ≡ self.now.size_out }
        ensures most { result.1 ≤ MOST_SIZE }
    {
        (self.size_in, self.size_out)
    }

    /// What lines of events look at of the ends of a complete header's slots, in their order.
    #[tactic(auto, using(crate::proofs::Tested::whole_slots))]
    pub(crate) fn ends(&self) -> ArrayVec<SlotEnd, MOST_SLOTS>
        requires { IsTrue (image_heading_is_whole self.now) }
        ensures { result.items ≡ map end_terms (slots_of self.now) }
    {
        let mut ends = ArrayVec::new();
        for slot in self.before.as_slice() {
            ends.push(slot.end_terms());
        }
        ends.push(self.last.end_terms());
        ends
    }

    /// Returns the slots of a complete header, in their order, each with a new end with the settings of its lines. They
    /// have no fault: each was tested at its `master` or `slave` line.
    pub fn slots(&self, alloc: Global) -> Result<Vec<Slot>, Memory>
        requires { IsTrue (image_heading_is_whole self.now) }
        ensures made { IfOk result (λ slots. AllZip IsMadeOf (slots_of self.now) slots.items) }
        ensures fit { IfOk result (λ slots. first_fault (plan_of self.now.size_in self.now.size_out slots.items) ≡ None) }
    {
        let Ok(mut slots) = Vec::with_capacity(alloc, self.before.len() + 1) else {
            return Err(Memory);
        };
        for slot in self.before.as_slice() {
            slots.push_reserved(slot.slot());
        }
        slots.push_reserved(self.last.slot());
        Ok(slots)
    }

    /// Whether the frames of the last slot lie inside both images, and share no byte with a slot before.
    fn fits(&self) -> bool
        ensures { result ≡ fits_images self.now self.now.last }
    {
        let own = self.last.spans();
        lie_inside(self.size_in, self.size_out, &own) && !shares(self.before.as_slice(), &own)
    }
}

/// Whether one of these slots shares one of these bytes.
fn shares(before: &[SlotHeader], own: &Spans) -> bool
    ensures { result ≡ list_any (λ t. overlap (heading_spans t) own.now) before.now }
{
    for slot in before {
        if overlap(&slot.spans(), own) {
            return true;
        }
    }
    false
}
