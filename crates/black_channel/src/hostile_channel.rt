//! A channel of chance.
ghost use Rattle.std.specs.Prelude.{◌≡◌, ◌≤◌, ◌%◌, [], ◌∷◌, None, codes, length, List, IfOk};
ghost use Rattle.std.specs.Option.{option_or};
ghost use Rattle.black_channel.specs.Holds.{Chance, IsRing, seed_generator, given_by, pulled, turned_frame};
ghost use Rattle.black_channel.specs.Told.{ChannelTold, Begins, PushesParcel, PullsParcel, parcel_of};
ghost use Rattle.black_channel.specs.Calls.{empties_after, holding};
ghost use Rattle.black_channel.specs.declared.channel.Parcel.{Parcel};

use crate::altering::altered;
use crate::channel::{Channel, Parcel, Place, empties_after};
use crate::parcel_ring::ParcelRing;
use fsoe_base::{FrameBuf, MOST_FRAME, Memory};
use rand_core::SeedableRng;
use rand_core::utils::NextWord;
use rand_pcg::Pcg32;
use std::alloc::Global;
use std::marker::Model;

/// A channel by the name `hostile` that loses frames, repeats them, changes their order and flips bits, by the words of
/// a generator. The same seed gives the same words. In contracts the value is what is known of it.
#[derive(Drop)]
pub struct HostileChannel {
    ring: ParcelRing,
    last: GivenLast,
    words: Pcg32,
    empties: u64,
}

impl Model for HostileChannel {
    ghost use Rattle.black_channel.specs.Holds.{Chance, IsForm};
    ghost use Rattle.black_channel.specs.Told.{ChannelTold};
    ghost use Rattle.black_channel.specs.Calls.{holding};

    ghost Value = { ChannelTold };

    ghost view = { λ c. holding (Chance c.ring c.last c.words) c.empties };

    ghost invariant = { λ c. IsForm (Chance c.ring c.last c.words) };
}

/// The parcel that was given last, if any.
#[derive(Drop)]
struct GivenLast {
    parcel: Option<Parcel>,
}

impl Model for GivenLast {
    ghost use Rattle.std.specs.Prelude.{Option};
    ghost use Rattle.black_channel.specs.declared.channel.Parcel.{Parcel};

    ghost Value = { Option Parcel };

    ghost view = { λ l. l.parcel };
}

impl GivenLast {
    /// No parcel.
    fn new() -> GivenLast
        ensures { result ≡ None }
    {
        GivenLast { parcel: None }
    }

    /// Stores the parcel that was given, if any, in place of the one before.
    fn note(&mut self, place: Option<Place>, frame: &[u8])
        requires { length frame.now ≤ MOST_FRAME }
        ensures { self.new ≡ option_or (parcel_of place frame.now) self.old }
    {
        let Some(to) = place else { return };
        if let Some(parcel) = &mut self.parcel {
            parcel.to = to;
            parcel.frame.set(frame);
        } else {
            let mut parcel = Parcel {
                to,
                frame: FrameBuf::new(),
            };
            parcel.frame.set(frame);
            self.parcel = Some(parcel);
        }
    }

    /// Writes the frame of the parcel to `out` and returns where it goes, or None if there is no parcel.
    fn copy(&self, out: &mut FrameBuf) -> Option<Place>
        ensures { parcel_of result out.new ≡ self.now }
    {
        match &self.parcel {
            Some(parcel) => {
                out.set(parcel.frame.bytes());
                Some(parcel.to)
            }
            None => None,
        }
    }
}

/// Flips the bit of a frame of 1 to 255 bytes that a word names.
fn turn(word: u32, frame: &mut FrameBuf)
    requires { 1 ≤ length frame.old }
    ensures { frame.new ≡ turned_frame word frame.old }
{
    let place = (word >> 8) as usize % frame.len();
    altered(frame, place as u8, 1 << ((word >> 16) % 8));
}

/// Gives a parcel by a word, if one is under way. It takes the oldest, throws it away, leaves it, or moves it to the
/// end and takes the next one. Or it takes it with a flipped bit, gives the last one again, or gives none.
fn give_by(word: u32, ring: &mut ParcelRing, last: &GivenLast, out: &mut FrameBuf) -> Option<Place>
    requires some { 1 ≤ length ring.old }
    requires frames { IsRing ring.old }
    ensures gift { (oldest : Parcel) (others : List Parcel) → ring.old ≡ oldest ∷ others → parcel_of result out.new ≡ (given_by (word % 16) word oldest others last.now).gift }
    ensures left { (oldest : Parcel) (others : List Parcel) → ring.old ≡ oldest ∷ others → ring.new ≡ (given_by (word % 16) word oldest others last.now).left }
{
    match word % 16 {
        0..=8 => ring.take(out),
        9 => {
            ring.forget_oldest();
            None
        }
        10 => ring.copy_oldest(out),
        11 => {
            ring.move_oldest();
            ring.take(out)
        }
        12 | 13 => {
            let place = ring.take(out);
            turn(word, out);
            place
        }
        14 => last.copy(out),
        _ => None,
    }
}

/// Gives a parcel by the generator's next word. Nothing is drawn where none is under way.
fn give(
    words: &mut Pcg32,
    ring: &mut ParcelRing,
    last: &GivenLast,
    out: &mut FrameBuf,
) -> Option<Place>
    requires { IsRing ring.old }
    ensures gift { parcel_of result out.new ≡ (pulled (Chance ring.old last.now words.old)).gift }
    ensures holds { Chance ring.new (option_or (parcel_of result out.new) last.now) words.new ≡ (pulled (Chance ring.old last.now words.old)).holds }
{
    if ring.is_empty() {
        return None;
    }
    give_by(words.next_word(), ring, last, out)
}

impl HostileChannel {
    /// Creates a channel as after a begin with seed 0, with nothing under way. `Memory` without room for 1,024 frames.
    pub fn new(alloc: Global) -> Result<HostileChannel, Memory>
        ensures { IfOk result (λ c. c ≡ holding (Chance [] None (seed_generator 0)) 0) }
    {
        Ok(HostileChannel {
            ring: ParcelRing::new(alloc)?,
            last: GivenLast::new(),
            words: Pcg32::seed_from_u64(0),
            empties: 0,
        })
    }
}

impl Channel for HostileChannel {
    ghost name = { λ _. codes "hostile" };

    ghost told = { λ c. c };

    fn name(&self) -> &str {
        "hostile"
    }

    fn begin(&mut self, seed: u64) {
        self.ring.clear();
        self.last = GivenLast::new();
        self.words = Pcg32::seed_from_u64(seed);
    }

    fn push(&mut self, to: Place, frame: &[u8]) {
        self.ring.push(to, frame);
    }

    fn pull(&mut self, out: &mut FrameBuf) -> Option<Place>
        ensures pulls { PullsParcel (parcel_of result out.new) self.old self.new }
        ensures counts { self.new.empties ≡ empties_after result self.old.empties }
    {
        let place = give(&mut self.words, &mut self.ring, &self.last, out);
        self.last.note(place, out.bytes());
        self.empties = empties_after(place, self.empties);
        place
    }
}
