//! What an end gives to its application.
ghost use Rattle.std.specs.Prelude.{◌≡◌, ◌≤◌, ◌<◌, ◌*◌, length, replicate};
ghost use Rattle.fsoe_base.specs.Image.{bit_of};
ghost use Rattle.failsafe_io.specs.Outputs.{outputs_of};

use crate::offer::zeros;
use fsoe_base::{Command, Image, MOST_DATA};
use std::marker::Model;

/// The outputs of an end: the load of the last ProcessData frame taken, or zeros. In contracts the value is the list of
/// these bytes.
#[derive(Drop)]
pub struct Outputs {
    image: Image,
}

impl Model for Outputs {
    ghost use Rattle.std.specs.Prelude.{ℕ, ◌≤◌, List, length};
    ghost use Rattle.fsoe_base.specs.declared.lengths.TheConstants.{MOST_DATA};

    ghost Value = { List ℕ };

    ghost view = { λ o. o.image };

    ghost invariant = { λ o. length o.image ≤ MOST_DATA };
}

impl Outputs {
    /// `l` zeros, at most 126.
    pub fn new(l: usize) -> Outputs
        requires { l ≤ MOST_DATA }
        ensures { result ≡ replicate l 0 }
    {
        Outputs {
            image: Image::zeros(l),
        }
    }

    /// Takes the load of a data frame, which must have the length of the outputs: ProcessData gives its bytes,
    /// FailSafeData gives zeros.
    pub fn take(&mut self, command: Command, load: &[u8])
        requires { length load.now ≡ length self.old }
        ensures { self.new ≡ outputs_of command load.now }
    {
        match command {
            Command::ProcessData => self.image.set(load),
            _ => self.fail(),
        }
    }

    /// Sets all outputs to zeros.
    pub fn fail(&mut self)
        ensures { self.new ≡ replicate (length self.old) 0 }
    {
        self.image.set(zeros(self.image.len()));
    }

    /// The bytes.
    pub fn bytes(&self) -> &[u8]
        ensures value { result.now ≡ self.now }
        ensures most { length result.now ≤ MOST_DATA }
    {
        self.image.bytes()
    }

    /// The value of an output bit that exists: bit `b % 8`, lowest first, of byte `b / 8`.
    pub fn bit(&self, b: u16) -> bool
        requires { b < 8 * length self.now }
        ensures { result ≡ bit_of self.now b }
    {
        self.image.bit(b)
    }
}
