//! How many safe data bytes each end of a connection sends.
ghost use Rattle.std.specs.Prelude.{◌≡◌, IsTrue, min, ◌&&◌, ◌↔◌, IfOk, IsOk};
ghost use Rattle.fsoe_base.specs.Lengths.{is_length, frame_len};

use crate::command::End;
use thiserror::Error;

/// The most safe data bytes of a frame.
pub const MOST_DATA: usize = 126;

/// The most bytes of a frame.
pub const MOST_FRAME: usize = 255;

/// The number of bytes of a frame that carries `l` safe data bytes: 6 for 1, else 3 + 2l, so 7 to 255.
pub fn frame_len(l: usize) -> usize
    requires { IsTrue (is_length l) }
    ensures { result ≡ frame_len l }
{
    if l == 1 { 6 } else { 3 + 2 * l }
}

/// Whether frames can carry this many safe data bytes.
fn is_length(l: usize) -> bool
    ensures { result ≡ is_length l }
{
    l == 1 || (l.is_multiple_of(2) && (2..=MOST_DATA).contains(&l))
}

/// A number of safe data bytes is neither 1 nor even and from 2 to 126.
#[derive(Clone, Copy, Debug, PartialEq, Eq, Error)]
#[error("a length is 1 or an even number from 2 to 126")]
pub struct BadLength;

/// The numbers of safe data bytes that the master and the slave of a connection send: each is 1, or
/// even and from 2 to 126.
#[derive(Clone, Copy, Debug, PartialEq, Eq)]
pub struct Lengths {
    master: usize,
    slave: usize,
    pub ghost valid_master: { IsTrue (is_length master) },
    pub ghost valid_slave: { IsTrue (is_length slave) },
}

impl Lengths {
    ghost use Rattle.fsoe_base.specs.LengthsOf.{length_of};

    /// Returns the lengths of a connection whose master sends `lm` safe data bytes, and whose slave sends `ls`, or
    /// `BadLength` if one of them isn't valid.
    pub fn new(lm: usize, ls: usize) -> Result<Lengths, BadLength>
        ensures valid { IsOk result ↔ (IsTrue (is_length lm) × IsTrue (is_length ls)) }
        ensures lengths { IfOk result (λ lengths. (lengths.master ≡ lm) × (lengths.slave ≡ ls)) }
    {
        if is_length(lm) && is_length(ls) {
            Ok(Lengths {
                master: lm,
                slave: ls,
            })
        } else {
            Err(BadLength)
        }
    }

    /// The number of safe data bytes that this end sends.
    pub fn of(&self, from: End) -> usize
        ensures value { result ≡ length_of self.now from }
        ensures valid { IsTrue (is_length result) }
    {
        match from {
            End::Master => self.master,
            End::Slave => self.slave,
        }
    }

    /// The number of bytes of a frame that this end sends.
    pub fn frame_len(&self, from: End) -> usize
        ensures { result ≡ frame_len (length_of self.now from) }
    {
        frame_len(self.of(from))
    }

    /// The most bytes of a payload that one frame carries in a handshake: the smaller of both lengths.
    pub fn piece(&self) -> usize
        ensures { result ≡ min self.now.master self.now.slave }
    {
        self.master.min(self.slave)
    }
}
