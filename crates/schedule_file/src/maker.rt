//! A schedule that is made from a number.
ghost use Rattle.std.specs.Prelude.{◌≡◌, suc, if◌then◌else◌};
ghost use Rattle.schedule_file.specs.Made.{event_in_turn, event_of_word, is_switch_on, load_of, mask_of, altered_place};
ghost use Rattle.schedule_file.specs.Event.{FitsMade};
ghost use Rattle.fsoe_base.specs.declared.command.End.TheVariants as side;
ghost use Rattle.schedule_file.specs.declared.event.Event.TheVariants as event;

use crate::event::Event;
use fsoe_base::{End, Image, Lengths};
use param_load::{AppBytes, AppRule, MasterSettings, SlaveSettings};
use rand_core::SeedableRng;
use rand_core::utils::NextWord;
use rand_pcg::Pcg32;
use std::marker::Model;

/// Makes the events of a number's schedule, one after another, without an end.
#[derive(Drop)]
pub struct Maker {
    /// Whether all events are in turn.
    endless: bool,
    /// How many events in turn were made. Of endless ones 1 and 2 stand for each odd and each later even count.
    turns: u8,
    words: Pcg32,
}

impl Model for Maker {
    ghost use Rattle.std.specs.Prelude.{◌≤◌};
    ghost use Rattle.schedule_file.specs.Maker.{MakerView};

    ghost Value = { MakerView };

    ghost view = { λ m. record { endless = m.endless; turns = m.turns; words = m.words } };

    ghost invariant = { λ m. m.turns ≤ 4 };
}

impl Maker {
    ghost use Rattle.schedule_file.specs.Made.{made_master, made_slave};
    ghost use Rattle.schedule_file.specs.Event.{FitsMade};
    ghost use Rattle.schedule_file.specs.Maker.{IsMaker, Makes};

    /// Creates the maker of a number's events, of which none is made yet.
    #[tactic(auto, using(crate::proofs::Making::new_of))]
    pub fn new(number: u64) -> Maker
        ensures { IsMaker number 0 result }
    {
        Maker {
            endless: number == 0,
            turns: 0,
            words: Pcg32::seed_from_u64(number),
        }
    }

    /// Returns the next event of the number, whose schedule has no end. It fits ends that are set to `settings`.
    pub fn next(&mut self) -> Event
        ensures makes { Makes self.old result self.new }
        ensures fits { FitsMade result }
    {
        let mut event = Event::Tick { at: End::Master };
        self.next_into(&mut event);
        event
    }

    /// Writes the next event of the number to `out`, whose old contents are lost. It fits ends with these `settings`.
    #[tactic(auto, using(crate::proofs::Making::by_word))]
    pub fn next_into(&mut self, out: &mut Event)
        ensures makes { Makes self.old out.new self.new }
        ensures fits { FitsMade out.new }
    {
        if self.turns == 4 {
            event_of(self.words.next_word(), out);
            return;
        }
        event_in_turn(self.turns, out);
        if self.endless && self.turns == 2 {
            self.turns = 1;
        } else {
            self.turns += 1;
        }
    }

    /// Returns the settings of both ends in each number's schedule. Two safe data bytes each way, connection 1, address
    /// 2, watchdog 100, handshake timeout 100, watchdogs up to 1000, no application parameters, session ids 1 and 2.
    pub fn settings() -> (MasterSettings, SlaveSettings)
        ensures master { result.0 ≡ made_master }
        ensures slave { result.1 ≡ made_slave }
    {
        let lengths = Lengths::new(2, 2).unwrap();
        (
            MasterSettings::new(lengths, 1, 2, 100, AppBytes::new(), 1).unwrap(),
            SlaveSettings::new(lengths, 2, 100, 1000, AppRule::Any(0), 2).unwrap(),
        )
    }
}

/// Writes to `out` the event that comes after so many in turn.
fn event_in_turn(turns: u8, out: &mut Event)
    ensures value { out.new ≡ event_in_turn (suc turns) }
    ensures fits { FitsMade out.new }
{
    if turns == 0 {
        *out = Event::Tick { at: End::Master };
    } else if turns % 2 == 1 {
        deliver(End::Slave, 1, out);
    } else {
        deliver(End::Master, 1, out);
    }
}

/// Writes to `out` that an end gets the peer's frame `back` frames back. Most events are such: if `out` has one, only
/// its fields are written, and not the room for the longest event.
fn deliver(to: End, back: u8, out: &mut Event)
    ensures { out.new ≡ event.Deliver to back }
{
    if let Event::Deliver {
        to: last_to,
        back: last_back,
    } = out
    {
        *last_to = to;
        *last_back = back;
    } else {
        *out = Event::Deliver { to, back };
    }
}

/// The peer's last frame comes to an end with one bit turned, at the place and by the mask of a word.
fn altered_to(to: End, word: u32) -> Event
    ensures { result ≡ event.Altered to 1 (altered_place word) (mask_of word) }
{
    Event::Altered {
        to,
        back: 1,
        pos: ((word >> 8) % 7) as u8,
        mask: 1 << ((word >> 16) % 8),
    }
}

/// A put at an end of bytes 1 and 2 of a word.
fn put_at(at: End, word: u32) -> Event
    ensures { result ≡ event.Put at (load_of word) }
{
    let mut load = Image::new();
    load.push(((word >> 8) % 256) as u8);
    load.push(((word >> 16) % 256) as u8);
    Event::Put { at, load }
}

/// Whether bit 8 of a word is 1.
fn is_switch_on(word: u32) -> bool
    ensures { result ≡ is_switch_on word }
{
    (word >> 8) % 2 == 1
}

/// Writes the event of a word of the generator to `out`.
fn event_of(word: u32, out: &mut Event)
    ensures value { out.new ≡ event_of_word word }
    ensures fits { FitsMade out.new }
{
    match word % 64 {
        0..=21 => deliver(End::Slave, 1, out),
        22..=43 => deliver(End::Master, 1, out),
        44..=47 => *out = Event::Tick { at: End::Master },
        48..=51 => *out = Event::Tick { at: End::Slave },
        52 => deliver(End::Slave, 2, out),
        53 => deliver(End::Master, 2, out),
        54 => *out = altered_to(End::Slave, word),
        55 => *out = altered_to(End::Master, word),
        56 | 57 => *out = put_at(End::Master, word),
        58 | 59 => *out = put_at(End::Slave, word),
        60 => *out = hold_at(End::Master, word),
        61 => *out = hold_at(End::Slave, word),
        62 => {
            *out = Event::Nonce {
                at: End::Master,
                id: word >> 16,
            }
        }
        _ => *out = reset_by(word),
    }
}

/// An end is held, or no longer, by bit 8 of a word.
fn hold_at(at: End, word: u32) -> Event
    ensures { result ≡ event.Hold at (is_switch_on word) }
{
    Event::Hold {
        at,
        failsafe: is_switch_on(word),
    }
}

/// A reset of the end that bit 8 of a word names.
fn reset_by(word: u32) -> Event
    ensures { result ≡ event.Local (if is_switch_on word then side.Slave else side.Master) }
{
    Event::Local {
        at: if is_switch_on(word) {
            End::Slave
        } else {
            End::Master
        },
    }
}
