//! What an end sends in state Data, and what it may take there.
ghost use Rattle.std.specs.Prelude.{◌≡◌, ◌≤◌, replicate};
ghost use Rattle.fsoe_base.specs.Data.{data_holds};

use fsoe_base::{Command, Image, MOST_DATA, is_all_zero};
use std::marker::Model;

/// The fail-safe value of the longest safe data.
const ZEROS: [u8; MOST_DATA] = [0; MOST_DATA];

/// The fail-safe value of `len` bytes, at most 126: zeros.
pub fn zeros(len: usize) -> &'static [u8]
    requires { len ≤ MOST_DATA }
    ensures { result.now ≡ replicate len 0 }
{
    &ZEROS[..len]
}

/// Whether the safe data of a data frame are right: those of a FailSafeData frame are zeros.
pub fn data_holds(command: Command, load: &[u8]) -> bool
    ensures { result ≡ data_holds command load.now }
{
    match command {
        Command::FailSafeData => is_all_zero(load),
        _ => true,
    }
}

/// The safe data that an end offers, and whether fail-safe data are on (held): then it sends zeros in their place.
#[derive(Drop)]
pub struct Offer {
    image: Image,
    held: bool,
}

impl Model for Offer {
    ghost use Rattle.std.specs.Prelude.{IsTrue, length};
    ghost use Rattle.fsoe_base.specs.Lengths.{is_length};
    ghost use Rattle.failsafe_io.specs.Offer.{OfferView};

    ghost Value = { OfferView };

    ghost view = { λ o. record { load = o.image; held = o.held } };

    ghost invariant = { λ o. IsTrue (is_length (length o.image)) };
}

impl Offer {
    ghost use Rattle.std.specs.Prelude.{◌≡◌, ◌≤◌, IsTrue, length};
    ghost use Rattle.fsoe_base.specs.Lengths.{is_length};
    ghost use Rattle.failsafe_io.specs.Offer.{first_offer, data_command, data_load};

    /// Creates an offer of `l` zeros, 1 or an even number from 2 to 126, with fail-safe data off.
    pub fn new(l: usize) -> Offer
        requires { IsTrue (is_length l) }
        ensures { result ≡ first_offer l }
    {
        Offer {
            image: Image::zeros(l),
            held: false,
        }
    }

    /// The safe data that were put last.
    pub fn bytes(&self) -> &[u8]
        ensures { result.now ≡ self.now.load }
    {
        self.image.bytes()
    }

    /// Returns true if zeros are sent in place of the offer.
    pub fn held(&self) -> bool
        ensures { result ≡ self.now.held }
    {
        self.held
    }

    /// Offers these safe data, as many as before.
    pub fn put(&mut self, load: &[u8])
        requires { length load.now ≡ length self.old.load }
        ensures { self.new ≡ record self.old { load = load.now } }
    {
        self.image.set(load);
    }

    /// Switches fail-safe data on or off.
    pub fn hold(&mut self, failsafe: bool)
        ensures { self.new ≡ record self.old { held = failsafe } }
    {
        self.held = failsafe;
    }

    /// The command of the data frames that the end sends.
    pub fn command(&self) -> Command
        ensures { result ≡ data_command self.now }
    {
        if self.held {
            Command::FailSafeData
        } else {
            Command::ProcessData
        }
    }

    /// The safe data of the data frames that the end sends.
    pub fn load(&self) -> &[u8]
        ensures value { result.now ≡ data_load self.now }
        ensures valid { IsTrue (is_length (length result.now)) }
    {
        if self.held {
            zeros(self.image.len())
        } else {
            self.image.bytes()
        }
    }
}
