//! A slot with what it saw last, and its part of each call.
ghost use Rattle.std.specs.Prelude.{◌≡◌, ◌≤◌, ◌+◌, None, length, All};
ghost use Rattle.process_image.specs.Image.{with_bytes};
ghost use Rattle.process_image.specs.Sound.{IsNewSeat, IsSoundSeat, MaySend};
ghost use Rattle.param_load.specs.declared.entry.Move.TheVariants as move;
ghost use Rattle.process_image.specs.Steps.{DoesEach, IsSampleStep, IsStepOf, told_by, did_in};

use end_core::Core;
use fsoe_base::{Did, FrameBuf, frame_len};
use image_file::Slot;

/// Writes these bytes into an image from this place on, and changes no other.
pub(crate) fn overwrite(image: &mut [u8], at: usize, bytes: &[u8])
    requires { at + length bytes.now ≤ length image.old }
    ensures { image.new ≡ with_bytes at bytes.now image.old }
{
    image[at..at + bytes.len()].copy_from_slice(bytes);
}

/// Empties a place. One that is empty isn't written again.
fn empty(told: &mut Option<Did>)
    ensures { told.new ≡ None }
{
    if told.is_some() {
        *told = None;
    }
}

/// A slot, with its contents at the last sample, by which a new frame is recognized.
#[derive(Drop)]
pub(crate) struct Seat {
    pub(crate) at_in: usize,
    pub(crate) at_out: usize,
    /// The bytes of the frames that the end sends.
    pub(crate) len_out: usize,
    pub(crate) core: Core,
    pub(crate) seen: FrameBuf,
}

impl Seat {
    ghost use Rattle.std.specs.Prelude.{nat_eq, false};
    ghost use Rattle.std.specs.Cmp.Lexicographic.{pointwise};
    ghost use Rattle.process_image.specs.Steps.{with_sent, Does, seat_contents};

    /// A slot of which nothing is sampled yet.
    #[tactic(auto, using(image_file::proofs::Slots::frame_most))]
    pub(crate) fn new(slot: Slot) -> Seat
        ensures { IsNewSeat slot result }
    {
        let len_in = frame_len(slot.core.peer_len());
        Seat {
            at_in: usize::from(slot.at_in),
            at_out: usize::from(slot.at_out),
            len_out: frame_len(slot.core.own_len()),
            seen: FrameBuf::zeros(len_in),
            core: slot.core,
        }
    }

    /// Writes a frame that the end sent to its place in the output image. If `sent` is empty, the image doesn't change.
    pub(crate) fn give(&self, sent: &FrameBuf, output: &mut [u8])
        requires { self.now.at_out + self.now.len_out ≤ length output.old }
        ensures { output.new ≡ with_sent self.now sent.now output.old }
    {
        if sent.len() == self.len_out {
            overwrite(output, self.at_out, sent.bytes());
        }
    }

    /// Delivers the slot's contents, which differ from those that it saw last, and writes what its end did to `told`.
    #[inline(never)]
    fn deliver(
        &mut self,
        input: &[u8],
        output: &mut [u8],
        sent: &mut FrameBuf,
        told: &mut Option<Did>,
    )
        requires sound { IsSoundSeat (length input.now) (length output.old) self.old }
        requires changed { pointwise nat_eq self.old.seen (seat_contents self.old input.now) ≡ false }
        ensures { Does (IsSampleStep input.now) told_by self.old output.old self.new output.new told.new }
    {
        let now = &input[self.at_in..self.at_in + self.seen.len()];
        let did = told.insert(Did::nothing());
        self.seen.set(now);
        self.core.deliver_into(now, did, sent);
        self.give(sent, output);
    }

    /// Delivers the slot's contents if they differ from those that it saw last, and writes what its end did to `told`.
    fn sample(
        &mut self,
        input: &[u8],
        output: &mut [u8],
        sent: &mut FrameBuf,
        told: &mut Option<Did>,
    )
        requires { IsSoundSeat (length input.now) (length output.old) self.old }
        ensures { Does (IsSampleStep input.now) told_by self.old output.old self.new output.new told.new }
    {
        let now = &input[self.at_in..self.at_in + self.seen.len()];
        if self.seen.bytes() == now {
            empty(told);
            return;
        }
        self.deliver(input, output, sent, told);
    }

    /// Counts a tick at the slot, and writes what its end did to `did`.
    fn tick(&mut self, output: &mut [u8], sent: &mut FrameBuf, did: &mut Did)
        requires { MaySend (length output.old) self.old }
        ensures { Does (IsStepOf move.Tick) did_in self.old output.old self.new output.new did.new }
    {
        self.core.tick_into(did, sent);
        self.give(sent, output);
    }
}

/// Samples each slot, one after another, and writes what each end did whose contents were delivered.
pub(crate) fn sample_all(
    seats: &mut [Seat],
    input: &[u8],
    output: &mut [u8],
    sent: &mut FrameBuf,
    told: &mut [Option<Did>],
)
    requires sound { All (IsSoundSeat (length input.now) (length output.old)) seats.old }
    requires told { length told.old ≡ length seats.old }
    ensures does { DoesEach (IsSampleStep input.now) told_by seats.old output.old seats.new output.new told.new }
    ensures size { length output.new ≡ length output.old }
{
    for i in 0..seats.len() {
        seats[i].sample(input, output, sent, &mut told[i]);
    }
}

/// Counts a tick at each slot, one after another, and writes what its end did.
pub(crate) fn tick_all(seats: &mut [Seat], output: &mut [u8], sent: &mut FrameBuf, dids: &mut [Did])
    requires send { All (MaySend (length output.old)) seats.old }
    requires dids { length dids.old ≡ length seats.old }
    ensures does { DoesEach (IsStepOf move.Tick) did_in seats.old output.old seats.new output.new dids.new }
    ensures size { length output.new ≡ length output.old }
{
    for i in 0..seats.len() {
        seats[i].tick(output, sent, &mut dids[i]);
    }
}
