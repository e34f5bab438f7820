//! What a line says, in room that is kept from one line to the next.
ghost use Rattle.std.specs.Prelude.{◌≡◌, MatchOption, None, Some};
ghost use Rattle.schedule_file.specs.Field.{fields_of};
ghost use Rattle.schedule_file.specs.FieldsRead.{Becomes};
ghost use Rattle.image_file.specs.EventLine.{write_behind};
ghost use Rattle.image_file.specs.Said.{not_written};

use crate::event::ImageEvent;
use fsoe_base::ByteList;
use schedule_file::{LineCause, number_16, one_field, read_bytes};
use std::marker::Model;

/// Of which kind is what was said last.
#[derive(Clone, Copy)]
pub(crate) enum Kind {
    Write,
    Other,
    End,
}

/// The meaning of a line after the header, an `ImageLine`. An event that is made anew is blanked in full. So a write
/// has its own place, which other events leave, and where the next write is written over it.
#[derive(Drop)]
pub struct Said {
    kind: Kind,
    write: ImageEvent,
    other: ImageEvent,
}

impl Model for Said {
    ghost use Rattle.image_file.specs.Said.{IsWrite, said_in};
    ghost use Rattle.image_file.specs.declared.event.ImageLine.{ImageLine};

    ghost Value = { ImageLine };

    ghost view = { λ s. said_in s.kind s.write s.other };

    ghost invariant = { λ s. IsWrite s.write };
}

/// Why a place with what stands behind it, which isn't bytes, says nothing that is written.
#[cold]
#[inline(never)]
fn not_written(place: &[u8], rest: &[u8]) -> LineCause
    ensures { result ≡ not_written place.now (fields_of rest.now) }
{
    match one_field(Some(rest)) {
        Ok(_) => match number_16(place) {
            Ok(_) => LineCause::Hex,
            Err(cause) => cause,
        },
        Err(cause) => cause,
    }
}

impl Said {
    ghost use Rattle.image_file.specs.Input.{event_in};
    ghost use Rattle.image_file.specs.declared.event.ImageEvent.TheVariants as event;
    ghost use Rattle.image_file.specs.declared.event.ImageLine.TheVariants as line;

    /// The end.
    pub(crate) fn end() -> Said
        ensures { result ≡ line.End }
    {
        Said {
            kind: Kind::End,
            write: ImageEvent::Write {
                at: 0,
                bytes: ByteList::new(),
            },
            other: ImageEvent::Sample,
        }
    }

    /// The event that is said. The end is none.
    pub(crate) fn event(&self) -> Option<&ImageEvent>
        ensures { MatchOption result (event_in self.now ≡ None) (λ said. event_in self.now ≡ Some said.now) }
    {
        match self.kind {
            Kind::Write => Some(&self.write),
            Kind::Other => Some(&self.other),
            Kind::End => None,
        }
    }

    /// Says that the bytes of these digits, from 1 to 256, are written from this place on, where they lie inside an
    /// input image of this size. Digits have no space among them, so one is sought only where they aren't digits. What
    /// is said after an error is left open.
    #[tactic(auto, using(crate::proofs::Written::written, crate::proofs::Written::unplaced, crate::proofs::Written::unsaid))]
    pub(crate) fn read_write(
        &mut self,
        size: u16,
        place: &[u8],
        digits: &[u8],
    ) -> Result<(), LineCause>
        ensures { Becomes result self.new (write_behind size place.now (fields_of digits.now)) }
    {
        let ImageEvent::Write { at, bytes } = &mut self.write else {
            unreachable!();
        };
        match read_bytes(digits, bytes) {
            Ok(()) => {}
            Err(_) => return Err(not_written(place, digits)),
        }
        match number_16(place) {
            Ok(first) if usize::from(first) + bytes.len() <= usize::from(size) => {
                *at = first;
                self.kind = Kind::Write;
                Ok(())
            }
            Ok(_) => Err(LineCause::Position),
            Err(cause) => Err(cause),
        }
    }

    /// Says that the image is sampled.
    pub(crate) fn set_sample(&mut self)
        ensures { self.new ≡ line.Step event.Sample }
    {
        if !matches!(self.other, ImageEvent::Sample) {
            self.other = ImageEvent::Sample;
        }
        self.kind = Kind::Other;
    }

    /// Says that a tick passes.
    pub(crate) fn set_tick(&mut self)
        ensures { self.new ≡ line.Step event.Tick }
    {
        if !matches!(self.other, ImageEvent::Tick) {
            self.other = ImageEvent::Tick;
        }
        self.kind = Kind::Other;
    }

    /// Says this event.
    pub(crate) fn set(&mut self, event: ImageEvent)
        ensures { self.new ≡ line.Step event }
    {
        self.other = event;
        self.kind = Kind::Other;
    }

    /// Says that there are no more events.
    pub(crate) fn set_end(&mut self)
        ensures { self.new ≡ line.End }
    {
        self.kind = Kind::End;
    }
}
