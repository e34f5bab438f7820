//! A channel with chosen rates.
ghost use Rattle.std.specs.Prelude.{◌≡◌, ◌≤◌, [], codes, length, IfOk};
ghost use Rattle.rand_pcg.specs.Pcg.{pcg32};
ghost use Rattle.black_channel.specs.Calls.{empties_after};
ghost use Rattle.black_channel.specs.Told.{parcel_of, ChannelTold, Begins, PushesParcel, PullsParcel};
ghost use Rattle.black_channel.specs.Holds.{seed_generator, turned_frame};
ghost use Rattle.rate_channel.specs.Rated.{RateView, pulled, pushed, told_of};

use black_channel::{Channel, PerfectChannel, Place, altered};
use fsoe_base::{FrameBuf, MOST_FRAME, Memory};
use rand_core::SeedableRng;
use rand_core::utils::NextWord;
use rand_pcg::Pcg32;
use std::alloc::Global;
use std::marker::Model;

/// Of 10,000 pushed frames, about how many a channel loses, alters and repeats; and of 10,000 pulls, about how many
/// give nothing, so that all that is under way is late.
#[derive(Clone, Copy, Default, PartialEq, Eq)]
pub struct Rates {
    pub lose: u16,
    pub alter: u16,
    pub repeat: u16,
    pub late: u16,
}

/// A channel by the name `rates` that keeps order, but loses, alters, repeats and delays frames by chosen rates and the
/// words of a generator. The same seed gives the same words. With all rates 0 it gives what `perfect` gives.
#[derive(Drop)]
pub struct RateChannel {
    rates: Rates,
    channel: PerfectChannel,
    words: Pcg32,
    empties: u64,
}

impl Model for RateChannel {
    ghost use Rattle.std.specs.Prelude.{◌≡◌, Some};
    ghost use Rattle.black_channel.specs.Holds.{Ring};
    ghost use Rattle.rate_channel.specs.Rated.{RateView, ring_of};

    ghost Value = { RateView };

    ghost view = { λ c. record { rates = c.rates; ring = ring_of c.channel.holds; words = c.words; empties = c.empties } };

    ghost invariant = { λ c. c.channel.holds ≡ Some (Ring (ring_of c.channel.holds)) };
}

/// A frame of 1 to 255 bytes with one bit flipped, which a word names.
fn turned_frame(word: u32, frame: &[u8]) -> FrameBuf
    requires some { 1 ≤ length frame.now }
    requires fits { length frame.now ≤ MOST_FRAME }
    ensures { result ≡ turned_frame word frame.now }
{
    let mut turned = FrameBuf::new();
    turned.set(frame);
    let place = (word >> 8) as usize % frame.len();
    altered(&mut turned, place as u8, 1 << ((word >> 16) % 8));
    turned
}

impl RateChannel {
    /// Creates a channel as after a begin with seed 0, with nothing under way. `Memory` without room for 1,024 frames.
    pub fn new(alloc: Global, rates: Rates) -> Result<RateChannel, Memory>
        ensures { IfOk result (λ c. c ≡ record { rates = rates; ring = []; words = seed_generator 0; empties = 0 }) }
    {
        Ok(RateChannel {
            rates,
            channel: PerfectChannel::new(alloc)?,
            words: Pcg32::seed_from_u64(0),
            empties: 0,
        })
    }
}

impl Channel for RateChannel {
    ghost name = { λ _. codes "rates" };

    ghost told = { told_of };

    fn name(&self) -> &str {
        "rates"
    }

    fn begin(&mut self, seed: u64)
        ensures { self.new ≡ record self.old { ring = []; words = seed_generator seed } }
    {
        self.channel.begin(seed);
        self.words = Pcg32::seed_from_u64(seed);
    }

    fn push(&mut self, to: Place, frame: &[u8])
        requires some { 1 ≤ length frame.now }
        requires fits { length frame.now ≤ MOST_FRAME }
        ensures { let draw = pcg32 self.old.words in
            self.new ≡ record self.old { ring = pushed self.old.rates draw.0 (record { to = to; frame = frame.now }) self.old.ring; words = draw.1 } }
    {
        let word = self.words.next_word();
        let rest = word % 10_000;
        let lost_or_altered = u32::from(self.rates.lose) + u32::from(self.rates.alter);
        if rest < u32::from(self.rates.lose) {
            return;
        }
        if rest < lost_or_altered {
            self.channel.push(to, turned_frame(word, frame).bytes());
            return;
        }
        if rest < lost_or_altered + u32::from(self.rates.repeat) {
            self.channel.push(to, frame);
        }
        self.channel.push(to, frame);
    }

    fn pull(&mut self, out: &mut FrameBuf) -> Option<Place>
        ensures pulls { PullsParcel (parcel_of result out.new) (told_of self.old) (told_of self.new) }
        ensures gift { parcel_of result out.new ≡ (pulled self.old.rates (pcg32 self.old.words).0 self.old.ring).gift }
        ensures after { let draw = pcg32 self.old.words in
            self.new ≡ record self.old { ring = (pulled self.old.rates draw.0 self.old.ring).left; words = draw.1; empties = empties_after result self.old.empties } }
    {
        let is_late = self.words.next_word() % 10_000 < u32::from(self.rates.late);
        let place = if is_late {
            None
        } else {
            self.channel.pull(out)
        };
        if place.is_none() {
            self.empties = self.empties.saturating_add(1);
        }
        place
    }
}
