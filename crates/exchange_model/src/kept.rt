//! An item that is kept in place.
ghost use Rattle.std.specs.Prelude.{◌≡◌, ◌<◌, ◌≤◌, ◌^◌, Some, None, length};
ghost use Rattle.exchange_model.specs.Monitor.{sent_number, number_of, next_number};

use crate::side::Sent;
use fsoe_base::{FrameBuf, MOST_FRAME};
use std::marker::Model;

/// An item, or none. The next one is written over it, so that only its bytes are copied.
#[derive(Drop)]
pub struct Kept {
    there: bool,
    sent: Sent,
}

impl Model for Kept {
    ghost use Rattle.std.specs.Prelude.{Option, Some, None, if◌then◌else◌};
    ghost use Rattle.exchange_model.specs.declared.side.Sent.{Sent};

    ghost Value = { Option Sent };

    ghost view = { λ k. if k.there then Some k.sent else None };
}

impl Kept {
    /// No item.
    pub(crate) fn none() -> Kept
        ensures { result ≡ None }
    {
        Kept {
            there: false,
            sent: Sent {
                number: 0,
                bytes: FrameBuf::new(),
            },
        }
    }

    /// A copy of this item.
    pub(crate) fn of(sent: &Sent) -> Kept
        ensures { result ≡ Some sent.now }
    {
        Kept {
            there: true,
            sent: Sent {
                number: sent.number,
                bytes: sent.bytes.copy(),
            },
        }
    }

    /// Keeps the item of this number and these bytes, in place of another.
    pub(crate) fn set(&mut self, number: u64, bytes: &[u8])
        requires { length bytes.now ≤ MOST_FRAME }
        ensures { self.new ≡ Some (record { number = number; bytes = bytes.now }) }
    {
        self.there = true;
        self.sent.number = number;
        self.sent.bytes.set(bytes);
    }

    /// Keeps a copy of this item, if there is one, in place of another. It isn't inlined, since it is rare.
    #[inline(never)]
    pub(crate) fn copy(&mut self, item: &Kept)
        ensures { self.new ≡ item.now }
    {
        self.there = item.there;
        self.sent.number = item.sent.number;
        self.sent.bytes.set(item.sent.bytes.bytes());
    }

    /// Keeps no item any longer.
    pub(crate) fn clear(&mut self)
        ensures { self.new ≡ None }
    {
        self.there = false;
    }

    /// The number of the item.
    pub(crate) fn number(&self) -> Option<u64>
        ensures { result ≡ sent_number self.now }
    {
        self.there.then_some(self.sent.number)
    }

    /// The number of the item, where it has these bytes.
    pub(crate) fn number_of(&self, bytes: &[u8]) -> Option<u64>
        ensures { result ≡ number_of bytes.now self.now }
    {
        (self.there && self.sent.bytes.bytes() == bytes).then_some(self.sent.number)
    }

    /// The number of the item after this one.
    pub(crate) fn next_number(&self) -> u64
        requires { next_number self.now < 2 ^ 64 }
        ensures { result ≡ next_number self.now }
    {
        if self.there { self.sent.number + 1 } else { 1 }
    }
}
