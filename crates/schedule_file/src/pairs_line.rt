//! What a line of several pairs says after the header.
ghost use Rattle.std.specs.Prelude.{◌≡◌, MatchOption, None, OnErr, Some};
ghost use Rattle.fsoe_base.specs.LengthsOf.{length_of};
ghost use Rattle.schedule_file.specs.Event.{profile_of};
ghost use Rattle.schedule_file.specs.Fields.{map_ok};
ghost use Rattle.schedule_file.specs.FieldsRead.{fields_after, Becomes};
ghost use Rattle.schedule_file.specs.PairEvent.{pair_event};
ghost use Rattle.schedule_file.specs.PairsEvent.{common_line};
ghost use Rattle.schedule_file.specs.PairsLine.{pairs_event_of};

use crate::event::Event;
use crate::event_line::{EventWord, read_step};
use crate::field::no_field;
use crate::line_cause::LineCause;
use crate::pair_event::profile_of;
use fsoe_base::{End, Lengths};
use param_load::Profiles;
use std::marker::Model;

/// What a line after the header of several pairs says.
#[derive(Drop)]
pub enum PairsLine {
    /// The time of all pairs goes on by one tick: of every slave in the order of pairs, and then of every master.
    Tick,
    /// An event of the pair of this number, from 1.
    One { pair: u16, event: Event },
    /// The end of the schedule.
    End,
}

/// What happens to several pairs: a line that isn't the end.
#[derive(Drop)]
pub enum PairsEvent {
    /// The time of all pairs goes on by one tick.
    Tick,
    /// An event of the pair of this number, from 1.
    One { pair: u16, event: Event },
}

/// The meaning of a line after the header, a `PairsLine`, in room that is kept from one line to the next. An event of a
/// pair is written over that of the line before, if this has one.
#[derive(Drop)]
pub struct PairsSaid {
    ended: bool,
    event: PairsEvent,
}

impl Model for PairsSaid {
    ghost use Rattle.schedule_file.specs.PairsFit.{said_in};
    ghost use Rattle.schedule_file.specs.declared.pairs_line.PairsLine.{PairsLine};

    ghost Value = { PairsLine };

    ghost view = { λ s. said_in s.ended s.event };
}

impl PairsSaid {
    /// The end.
    pub fn end() -> PairsSaid
        ensures { result ≡ PairsLine.End }
    {
        PairsSaid {
            ended: true,
            event: PairsEvent::Tick,
        }
    }

    /// The event that is said. The end is none.
    pub fn event(&self) -> Option<&PairsEvent>
        ensures { MatchOption result (pairs_event_of self.now ≡ None) (λ event. pairs_event_of self.now ≡ Some event.now) }
    {
        if self.ended {
            return None;
        }
        Some(&self.event)
    }

    /// What is said, as a line by itself.
    pub fn into_line(self) -> PairsLine
        ensures { result ≡ self }
    {
        if self.ended {
            return PairsLine::End;
        }
        match self.event {
            PairsEvent::Tick => PairsLine::Tick,
            PairsEvent::One { pair, event } => PairsLine::One { pair, event },
        }
    }

    /// Says a tick of all pairs or the end, by the word of a line and the fields after it. After an error it says what
    /// it said.
    pub(crate) fn read_common(
        &mut self,
        first: &[u8],
        fields: Option<&[u8]>,
    ) -> Result<(), LineCause>
        ensures value { Becomes result self.new (common_line first.now (fields_after fields.entry)) }
        ensures unwritten { OnErr result (self.new ≡ self.old) }
    {
        if first == b"t".as_slice() {
            no_field(fields)?;
            self.ended = false;
            self.event = PairsEvent::Tick;
            Ok(())
        } else if first == b"end".as_slice() {
            no_field(fields)?;
            self.ended = true;
            Ok(())
        } else {
            Err(LineCause::Word)
        }
    }

    /// Says the event of a pair by its word and the fields after it. After an error it says what it said.
    pub(crate) fn read_one(
        &mut self,
        pair: u16,
        word: (EventWord, End),
        fields: Option<&[u8]>,
        lengths: &Lengths,
        profiles: &Profiles,
    ) -> Result<(), LineCause>
        ensures value { Becomes result self.new (map_ok (PairsLine.One pair) (pair_event (length_of lengths.now) (profile_of profiles.now) word (fields_after fields.entry))) }
        ensures unwritten { OnErr result (self.new ≡ self.old) }
    {
        let profile = profile_of(profiles, word.1);
        match &mut self.event {
            PairsEvent::One {
                pair: last_pair,
                event,
            } => {
                read_step(word, fields, lengths, profile, event)?;
                *last_pair = pair;
            }
            PairsEvent::Tick => {
                let mut event = Event::Tick { at: word.1 };
                read_step(word, fields, lengths, profile, &mut event)?;
                self.event = PairsEvent::One { pair, event };
            }
        }
        self.ended = false;
        Ok(())
    }
}
