//! Which bytes of both images the frames of a slot take, and why there are no images with some slots.
ghost use Rattle.std.specs.Prelude.{◌≡◌, ◌≤◌, ◌<◌, ◌+◌, ◌^◌, length, nat_le};
ghost use Rattle.image_file.specs.Fault.{first_outside, first_with, first_pair, first_fault, places_from, plan_of, slot_spans};
ghost use Rattle.image_file.specs.Places.{share, overlap, lie_inside};

use crate::fault::SlotFault;
use crate::slot::Slot;
use fsoe_base::frame_len;

/// The most slots.
pub const MOST_SLOTS: usize = 64;

/// The bytes of a slot's frames: in the input image those of a frame that its end gets, in the output image those of
/// one that it sends. Both images count from 0.
#[derive(Clone, Copy)]
pub(crate) struct Spans {
    pub(crate) at_in: u16,
    pub(crate) len_in: u16,
    pub(crate) at_out: u16,
    pub(crate) len_out: u16,
}

/// Returns true if `len` bytes from `at` and `more` bytes from `other` share a byte.
fn share(at: u16, len: u16, other: u16, more: u16) -> bool
    ensures { result ≡ share at len other more }
{
    u32::from(at) < u32::from(other) + u32::from(more)
        && u32::from(other) < u32::from(at) + u32::from(len)
}

/// Returns true if `len` bytes from `at` on are inside an image of this size.
fn reaches_into(size: u16, at: u16, len: u16) -> bool
    ensures { result ≡ nat_le (at + len) size }
{
    u32::from(at) + u32::from(len) <= u32::from(size)
}

/// Whether these bytes lie inside images of these sizes.
pub(crate) fn lie_inside(size_in: u16, size_out: u16, spans: &Spans) -> bool
    ensures { result ≡ lie_inside size_in size_out spans.now }
{
    reaches_into(size_in, spans.at_in, spans.len_in)
        && reaches_into(size_out, spans.at_out, spans.len_out)
}

/// Whether slots whose frames take these bytes share a byte of one image.
pub(crate) fn overlap(one: &Spans, other: &Spans) -> bool
    ensures { result ≡ overlap one.now other.now }
{
    share(one.at_in, one.len_in, other.at_in, other.len_in)
        || share(one.at_out, one.len_out, other.at_out, other.len_out)
}

/// The bytes that the frames of this slot take.
#[tactic(auto, using(crate::proofs::Slots::frame_most))]
fn slot_spans(slot: &Slot) -> Spans
    ensures { result ≡ slot_spans slot.now }
{
    Spans {
        at_in: slot.at_in,
        len_in: frame_len(slot.core.peer_len()) as u16,
        at_out: slot.at_out,
        len_out: frame_len(slot.core.own_len()) as u16,
    }
}

/// The number of the first of these slots whose frames don't lie inside both images.
fn first_outside(size_in: u16, size_out: u16, slots: &[Slot]) -> Option<u16>
    requires { length slots.now ≤ MOST_SLOTS }
    ensures { result ≡ first_outside size_in size_out (places_from 1 slots.now) }
{
    for i in 0..slots.len() {
        if !lie_inside(size_in, size_out, &slot_spans(&slots[i])) {
            return Some(i as u16 + 1);
        }
    }
    None
}

/// The number, from `n` on, of the first of these slots that shares one of these bytes.
fn first_with(own: &Spans, n: u16, rest: &[Slot]) -> Option<u16>
    requires { n + length rest.now < 2 ^ 16 }
    ensures { result ≡ first_with own.now (places_from n rest.now) }
{
    for i in 0..rest.len() {
        if overlap(own, &slot_spans(&rest[i])) {
            return Some(n + i as u16);
        }
    }
    None
}

/// The first pair of slots that share a byte.
fn first_pair(slots: &[Slot]) -> Option<SlotFault>
    requires { length slots.now ≤ MOST_SLOTS }
    ensures { result ≡ first_pair (places_from 1 slots.now) }
{
    for i in 0..slots.len() {
        let a = i as u16 + 1;
        if let Some(b) = first_with(&slot_spans(&slots[i]), a + 1, &slots[i + 1..]) {
            return Some(SlotFault::Overlap { a, b });
        }
    }
    None
}

/// The first fault of these slots in images of these sizes.
pub fn first_fault(size_in: u16, size_out: u16, slots: &[Slot]) -> Option<SlotFault>
    ensures { result ≡ first_fault (plan_of size_in size_out slots.now) }
{
    if slots.len() > MOST_SLOTS {
        return Some(SlotFault::TooMany);
    }
    if let Some(slot) = first_outside(size_in, size_out, slots) {
        return Some(SlotFault::Bounds { slot });
    }
    first_pair(slots)
}
