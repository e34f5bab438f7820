//! The images.
ghost use Rattle.std.specs.Prelude.{◌≡◌, ◌≤◌, ◌+◌, ◌<◌, [], map, length, vec_len, IsTrue, IfOk, IfErr, IfSome, None, Some, All};
ghost use Rattle.std.specs.Result.{result_err};
ghost use Rattle.param_load.specs.Profile.{allows_id};
ghost use Rattle.end_model.specs.Outputs.{out};
ghost use Rattle.end_model.specs.Readiness.{state_of};
ghost use Rattle.end_model.specs.Setup.{sends, receives};
ghost use Rattle.end_model.specs.Runs.{profile_of};
ghost use Rattle.end_core.specs.Core.{setup_of};
ghost use Rattle.end_core.specs.Standing.{IsNew};
ghost use Rattle.image_file.specs.declared.event.ImageEvent.TheVariants as event;
ghost use Rattle.image_file.specs.declared.fault.SlotFault.TheVariants as fault;

use crate::making::{seats_of, zeros};
use crate::seat::{Seat, overwrite, sample_all, tick_all};
use crate::told_lines::write_line;
use fsoe_base::{Did, FrameBuf, MOST_DATA, MOST_FRAME, State};
use fsoe_io::LineText;
use image_file::{Slot, SlotFault, first_fault};
use std::marker::Model;

/// An input image and an output image of up to 64 slots, no two of which share a byte. Only `new` allocates.
#[derive(Drop)]
pub struct Images {
    seats: Vec<Seat>,
    input: Vec<u8>,
    output: Vec<u8>,
    /// The frame that an end sends, on its way into the output image.
    sent: FrameBuf,
}

impl Model for Images {
    ghost use Rattle.process_image.specs.Standing.{ImagesView};
    ghost use Rattle.process_image.specs.Sound.{IsSound};

    ghost Value = { ImagesView };

    ghost view = { λ m. record { seats = m.seats.items; input = m.input.items; output = m.output.items } };

    ghost invariant = { λ m. IsSound (record { seats = m.seats.items; input = m.input.items; output = m.output.items }) };
}

impl Images {
    ghost use Rattle.process_image.specs.Calls.{last_frame, output};
    ghost use Rattle.image_file.specs.Fault.{first_fault, plan_of};
    ghost use Rattle.process_image.specs.Standing.{setups_of, slots_in, StandsFor, HasSlot, Follows, Keeps, AnswersSample, AnswersTick, AnswersReset, ShowsAt, ShowsImage, ShowsFrames};
    ghost use Rattle.image_file.specs.Places.{most_slots, slot_numbered};
    ghost use Rattle.process_image.specs.SlotLines.{told_line};
    ghost use Rattle.process_image.specs.Sound.{IsSoundSeat};

    /// Creates images of these sizes with these slots, in this order. Both images and the last sample are zeros. There
    /// may be no slot. The first refusal is returned: more than 64 slots, a slot that isn't inside both images, two
    /// slots that share a byte of one image, no memory. The slots are dropped then. Each end is as its `new` left it.
    pub fn new(size_in: u16, size_out: u16, slots: Vec<Slot>) -> Result<Images, SlotFault>
        requires { All (λ slot. IsNew slot.core) slots.items }
        ensures refused { IfSome (first_fault (plan_of size_in size_out slots.items)) (λ found. result_err result ≡ Some found) }
        ensures memory_alone { IfErr result (λ found. first_fault (plan_of size_in size_out slots.items) ≡ None → found ≡ fault.Memory) }
        ensures stands { IfOk result (λ images. StandsFor (plan_of size_in size_out slots.items) images []) }
        ensures setups { IfOk result (λ images. setups_of images ≡ map (λ slot. setup_of slot.core) slots.items) }
        ensures size_in { IfOk result (λ images. length images.input ≡ size_in) }
        ensures size_out { IfOk result (λ images. length images.output ≡ size_out) }
    {
        if let Some(found) = first_fault(size_in, size_out, slots.as_slice()) {
            return Err(found);
        }
        let alloc = *slots.allocator();
        let seats = seats_of(slots)?;
        let input = zeros(alloc, size_in)?;
        let output = zeros(alloc, size_out)?;
        Ok(Images {
            seats,
            input,
            output,
            sent: FrameBuf::new(),
        })
    }

    /// Writes these bytes into the input image from this place on, and changes no other. They wait there for a sample.
    pub fn write(&mut self, at: u16, bytes: &[u8])
        requires { at + length bytes.now ≤ length self.old.input }
        ensures follows { Follows self.old (event.Write at bytes.now) self.new }
        ensures keeps { Keeps self.old self.new }
    {
        overwrite(self.input.as_mut_slice(), usize::from(at), bytes);
    }

    /// Samples the input image. Each slot whose contents differ from those of the last sample gets them delivered, in
    /// the order of slots. The result of its end is written to its place in `dids`, and a frame that it sent to its
    /// place in the output image. Every other slot gets None, and stays as it is. `dids` has a place for each slot.
    ///
    /// A frame that equals the one before it in its place isn't seen. If an end must get the same bytes again, as a
    /// Reset frame that answers another, other bytes must be sampled between them. After the first sample zeros are
    /// contents as any other, and a frame that is overwritten before a sample is lost.
    pub fn sample(&mut self, dids: &mut [Option<Did>])
        requires { length dids.old ≡ slots_in self.old }
        ensures follows { Follows self.old event.Sample self.new }
        ensures answers { AnswersSample self.old dids.new }
        ensures keeps { Keeps self.old self.new }
    {
        sample_all(
            self.seats.as_mut_slice(),
            self.input.as_slice(),
            self.output.as_mut_slice(),
            &mut self.sent,
            dids,
        );
    }

    /// Counts a tick at the end of each slot, in their order. Writes the result of each to `dids`, which has a place
    /// for each slot, and a frame that it sent to its place in the output image.
    pub fn tick(&mut self, dids: &mut [Did])
        requires { length dids.old ≡ slots_in self.old }
        ensures follows { Follows self.old event.Tick self.new }
        ensures answers { AnswersTick self.old dids.new }
        ensures keeps { Keeps self.old self.new }
    {
        tick_all(
            self.seats.as_mut_slice(),
            self.output.as_mut_slice(),
            &mut self.sent,
            dids,
        );
    }

    /// Sets the safe data that this slot's end sends from now on, as many as its frames have. They outlast resets.
    pub fn put(&mut self, slot: u16, load: &[u8])
        requires slot { HasSlot self.old slot }
        requires len { IfSome (slot_numbered slot (setups_of self.old)) (λ s. length load.now ≡ sends s) }
        ensures follows { Follows self.old (event.Put slot load.now) self.new }
        ensures keeps { Keeps self.old self.new }
    {
        self.seats[usize::from(slot) - 1].core.put(load);
    }

    /// Switches fail-safe data of this slot's end on or off: while on, zeros replace its offer. It outlasts resets.
    pub fn hold(&mut self, slot: u16, failsafe: bool)
        requires { HasSlot self.old slot }
        ensures follows { Follows self.old (event.Hold slot failsafe) self.new }
        ensures keeps { Keeps self.old self.new }
    {
        self.seats[usize::from(slot) - 1].core.hold(failsafe);
    }

    /// Sets the session id of all sessions of this slot that begin after this call, at most 65,535 in profile One. It
    /// outlasts resets: give a fresh one before each session.
    pub fn nonce(&mut self, slot: u16, id: u32)
        requires slot { HasSlot self.old slot }
        requires allowed { IfSome (slot_numbered slot (setups_of self.old)) (λ s. IsTrue (allows_id (profile_of s) id)) }
        ensures follows { Follows self.old (event.Nonce slot id) self.new }
        ensures keeps { Keeps self.old self.new }
    {
        self.seats[usize::from(slot) - 1].core.nonce(id);
    }

    /// Ends the session of this slot, if there is one, and puts Reset(0) in its place in the output image.
    pub fn reset(&mut self, slot: u16) -> Did
        requires { HasSlot self.old slot }
        ensures follows { Follows self.old (event.Reset slot) self.new }
        ensures answers { AnswersReset self.old slot result }
        ensures keeps { Keeps self.old self.new }
    {
        let seat = &mut self.seats[usize::from(slot) - 1];
        let did = seat.core.reset(&mut self.sent);
        seat.give(&self.sent, self.output.as_mut_slice());
        did
    }

    /// The number of slots.
    pub(crate) fn count(&self) -> usize
        ensures value { result ≡ slots_in self.now }
        ensures most { result ≤ most_slots }
    {
        self.seats.len()
    }

    /// The seat of this slot.
    fn seat(&self, slot: u16) -> &Seat
        requires { HasSlot self.now slot }
        ensures there { slot_numbered slot self.now.seats ≡ Some result.now }
        ensures sound { IsSoundSeat (length self.now.input) (length self.now.output) result.now }
    {
        &self.seats[usize::from(slot) - 1]
    }

    /// The state of the end of this slot.
    #[tactic(auto, using(crate::proofs::Reading::shown_at))]
    pub fn state(&self, slot: u16) -> State
        requires { HasSlot self.now slot }
        ensures { ShowsAt self.now slot result state_of }
    {
        self.seat(slot).core.state()
    }

    /// Returns the outputs of this slot's end, as many as its peer's frames have, zeros in every state except Data.
    #[tactic(auto, using(crate::proofs::Reading::shown_at))]
    pub fn outputs(&self, slot: u16) -> &[u8]
        requires { HasSlot self.now slot }
        ensures shown { ShowsAt self.now slot result.now out }
        ensures len { IfSome (slot_numbered slot (setups_of self.now)) (λ s. length result.now ≡ receives s) }
        ensures most { length result.now ≤ MOST_DATA }
    {
        self.seat(slot).core.outputs()
    }

    /// Returns the last frame that the end of this slot sent, zeros if none: what is in its place in the output image.
    pub fn frame(&self, slot: u16) -> &[u8]
        requires { HasSlot self.now slot }
        ensures shown { ShowsAt self.now slot result.now last_frame }
        ensures most { length result.now ≤ MOST_FRAME }
    {
        let seat = self.seat(slot);
        &self.output[seat.at_out..seat.at_out + seat.len_out]
    }

    /// The output image: at each slot the last frame that its end sent, and zeros elsewhere.
    #[tactic(auto, using(crate::proofs::Frames::shows_frames))]
    pub fn out(&self) -> &[u8]
        ensures image { ShowsImage self.now result.now output }
        ensures frames { ShowsFrames self.now result.now }
        ensures value { result.now ≡ self.now.output }
    {
        self.output.as_slice()
    }

    /// Writes over `text` what the end of this slot did at the event of this number.
    pub(crate) fn write_line(&self, slot: u16, number: u64, did: &Did, text: &mut LineText)
        requires { HasSlot self.now slot }
        ensures line { ShowsAt self.now slot text.new (told_line number slot did.now) }
        ensures some { 0 < length text.new }
        ensures most { length text.new ≤ 1024 }
    {
        let sent: &[u8] = if did.sent { self.frame(slot) } else { b"" };
        write_line(&self.seat(slot).core, slot, number, did, sent, text);
    }
}
