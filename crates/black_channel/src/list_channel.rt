//! A channel that gives listed parcels.
ghost use Rattle.std.specs.Prelude.{◌≡◌, ◌≤◌, codes, length, IfOk};
ghost use Rattle.black_channel.specs.Listed.{ListView, listing, pushed_within, told_of};
ghost use Rattle.black_channel.specs.Told.{ChannelTold, Begins, PushesParcel, PullsParcel, parcel_of};
ghost use Rattle.black_channel.specs.Calls.{empties_after};

use crate::channel::{Channel, Parcel, Place, empties_after};
use fsoe_base::{FrameBuf, MOST_FRAME, Memory};
use std::alloc::Global;
use std::marker::Model;

/// A channel by the name `list` that gives listed parcels in order, whatever is pushed. What was pushed and what was
/// given is known.
#[derive(Drop)]
pub struct ListChannel {
    gifts: Vec<Parcel>,
    /// How many of the gifts were given.
    given: usize,
    /// The parcels that were pushed, `None` once they were more than `room`.
    pushed: Option<Vec<Parcel>>,
    room: usize,
    empties: u64,
}

impl Model for ListChannel {
    ghost use Rattle.std.specs.Prelude.{◌≤◌, take, drop, option_map, IfSome, vec_len, vec_capacity};
    ghost use Rattle.black_channel.specs.Listed.{ListView};

    ghost Value = { ListView };

    ghost view = { λ c. record {
      gifts = drop c.given c.gifts.items;
      given = take c.given c.gifts.items;
      pushed = option_map (λ list. list.items) c.pushed;
      room = c.room;
      empties = c.empties;
    } };

    ghost invariant = { λ c. (c.given ≤ vec_len c.gifts) × IfSome c.pushed (λ list. c.room ≤ vec_capacity list) };
}

impl ListChannel {
    /// Creates a channel that gives these parcels. What is pushed is known as long as it is at most `room` parcels.
    /// `Memory` if there is none for so many.
    pub fn new(alloc: Global, gifts: Vec<Parcel>, room: usize) -> Result<ListChannel, Memory>
        ensures { IfOk result (λ c. c ≡ listing gifts.items room) }
    {
        match Vec::with_capacity(alloc, room) {
            Ok(pushed) => Ok(ListChannel {
                gifts,
                given: 0,
                pushed: Some(pushed),
                room,
                empties: 0,
            }),
            Err(_) => Err(Memory),
        }
    }
}

impl Channel for ListChannel {
    ghost name = { λ _. codes "list" };

    ghost told = { told_of };

    fn name(&self) -> &str {
        "list"
    }

    fn begin(&mut self, _seed: u64)
        ensures { self.new ≡ self.old }
    {}

    fn push(&mut self, to: Place, frame: &[u8])
        requires some { 1 ≤ length frame.now }
        requires fits { length frame.now ≤ MOST_FRAME }
        ensures pushes { PushesParcel (record { to = to; frame = frame.now }) (told_of self.old) (told_of self.new) }
        ensures list { self.new ≡ record self.old { pushed = pushed_within self.old.room (record { to = to; frame = frame.now }) self.old.pushed } }
    {
        match &mut self.pushed {
            Some(pushed) if pushed.len() < self.room => {
                let mut parcel = Parcel {
                    to,
                    frame: FrameBuf::new(),
                };
                parcel.frame.set(frame);
                pushed.push_reserved(parcel);
            }
            _ => self.pushed = None,
        }
    }

    fn pull(&mut self, out: &mut FrameBuf) -> Option<Place>
        ensures pulls { PullsParcel (parcel_of result out.new) (told_of self.old) (told_of self.new) }
        ensures counts { self.new.empties ≡ empties_after result self.old.empties }
        ensures room { self.new.room ≡ self.old.room }
    {
        if self.given == self.gifts.len() {
            self.empties = empties_after(None, self.empties);
            return None;
        }
        let gift = &self.gifts[self.given];
        out.set(gift.frame.bytes());
        let to = gift.to;
        self.given += 1;
        Some(to)
    }
}
