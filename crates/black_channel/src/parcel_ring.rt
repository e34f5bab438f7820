//! The parcels that are under way in a channel.
ghost use Rattle.std.specs.Prelude.{◌≡◌, ◌≤◌, ◌<◌, ◌==◌, [], ◌++◌, length, take, drop, slice_get, IfOk};
ghost use Rattle.black_channel.specs.Holds.{ring_with, oldest_taken};
ghost use Rattle.black_channel.specs.Told.{parcel_of};

use crate::channel::{Parcel, Place};
use circular_buffer::HeapCircularBuffer;
use fsoe_base::{End, FrameBuf, MOST_FRAME, Memory};
use std::alloc::{AllocError, Global};
use std::marker::Model;

/// How many parcels may be under way.
const MOST_PARCELS: usize = 1024;

/// At most 1,024 parcels in their order. In contracts the value is their list, oldest first. Each lies in a box that is
/// kept, so that none is moved.
#[derive(Drop)]
pub(crate) struct ParcelRing {
    ring: HeapCircularBuffer<Box<Parcel>>,
    /// The boxes of no parcel under way, at least one.
    spare: Vec<Box<Parcel>>,
}

impl Model for ParcelRing {
    ghost use Rattle.std.specs.Prelude.{◌≡◌, ◌≤◌, ◌+◌, List, length, map, vec_capacity};
    ghost use Rattle.black_channel.specs.declared.channel.Parcel.{Parcel};

    ghost Value = { List Parcel };

    ghost view = { λ r. map (λ b. b.value) r.ring.items };

    ghost invariant = { λ r. (r.ring.capacity ≡ 1024) × (length r.ring.items ≤ 1024)
        × (length r.ring.items + length r.spare.items ≡ 1025) × (1025 ≤ vec_capacity r.spare) };
}

/// A box in which a parcel can lie.
fn empty_box(alloc: Global) -> Result<Box<Parcel>, AllocError> {
    let to = Place {
        link: 0,
        end: End::Master,
    };
    let frame = FrameBuf::new();
    Ok(Box::new(alloc, Parcel { to, frame })?)
}

/// No parcels, and all boxes.
fn empty_ring(alloc: Global) -> Result<ParcelRing, AllocError>
    ensures { IfOk result (λ r. r ≡ []) }
{
    let ring = HeapCircularBuffer::with_capacity(alloc, MOST_PARCELS)?;
    let mut spare = Vec::new(alloc);
    spare.try_resize_with(MOST_PARCELS + 1, || empty_box(alloc))?;
    Ok(ParcelRing { ring, spare })
}

impl ParcelRing {
    /// No parcels, with room for all that may be under way.
    pub(crate) fn new(alloc: Global) -> Result<ParcelRing, Memory>
        ensures { IfOk result (λ r. r ≡ []) }
    {
        empty_ring(alloc).map_err(|_| Memory)
    }

    /// Forgets all parcels.
    pub(crate) fn clear(&mut self)
        ensures { self.new ≡ [] }
    {
        while !self.is_empty() {
            self.forget_oldest();
        }
    }

    /// Takes a parcel after all others, and forgets the oldest one where there are 1,024.
    pub(crate) fn push(&mut self, to: Place, frame: &[u8])
        requires { length frame.now ≤ MOST_FRAME }
        ensures { self.new ≡ ring_with (record { to = to; frame = frame.now }) self.old }
    {
        let mut parcel = self.spare.pop().unwrap();
        parcel.to = to;
        parcel.frame.set(frame);
        if let Some(lost) = self.ring.push_back(parcel) {
            self.spare.push_reserved(lost);
        }
    }

    /// Whether there is no parcel.
    pub(crate) fn is_empty(&self) -> bool
        ensures { result ≡ (length self.now == 0) }
    {
        self.ring.is_empty()
    }

    /// Writes the frame of the oldest parcel to `out` and returns where it goes, or None if there is no parcel.
    pub(crate) fn copy_oldest(&self, out: &mut FrameBuf) -> Option<Place>
        ensures { parcel_of result out.new ≡ slice_get self.now 0 }
    {
        let oldest = self.ring.front()?;
        out.set(oldest.frame.bytes());
        Some(oldest.to)
    }

    /// Forgets the oldest parcel.
    pub(crate) fn forget_oldest(&mut self)
        ensures left { self.new ≡ drop 1 self.old }
        ensures room { length self.new < 1024 }
    {
        if let Some(oldest) = self.ring.pop_front() {
            self.spare.push_reserved(oldest);
        }
    }

    /// Writes the frame of the oldest parcel to `out`, returns where it goes, and forgets it. None if there is none.
    pub(crate) fn take(&mut self, out: &mut FrameBuf) -> Option<Place>
        ensures gift { parcel_of result out.new ≡ (oldest_taken self.old).gift }
        ensures left { self.new ≡ (oldest_taken self.old).left }
        ensures room { length self.new < 1024 }
    {
        let oldest = self.ring.pop_front()?;
        out.set(oldest.frame.bytes());
        let to = oldest.to;
        self.spare.push_reserved(oldest);
        Some(to)
    }

    /// Moves the oldest parcel behind all others.
    pub(crate) fn move_oldest(&mut self)
        ensures { self.new ≡ drop 1 self.old ++ take 1 self.old }
    {
        if let Some(oldest) = self.ring.pop_front() {
            self.ring.push_back(oldest);
        }
    }
}
