//! The bytes of an upload so far.
ghost use Rattle.std.specs.Prelude.{◌≡◌, ◌<◌, ◌+◌, length, drop};
ghost use Rattle.param_load.specs.Payload.{number_at};

use byteorder::{ByteOrder, LittleEndian};
use fsoe_base::ByteList;

/// The first bytes of each frame of an upload, joined: at most a byte less than the longest payload, and one
/// more piece.
pub(crate) type Joined = ByteList<645>;

/// The bytes after the first `len`, none where there are fewer.
#[tactic(auto, using(std::proofs::lemmas::List::drop_min))]
pub(crate) fn past(bytes: &[u8], len: usize) -> &[u8]
    ensures { result.now ≡ drop len bytes.now }
{
    &bytes[len.min(bytes.len())..]
}

/// The number in the two bytes from a place on, low byte first.
pub(crate) fn number_at(bytes: &[u8], place: usize) -> u16
    requires { place + 1 < length bytes.now }
    ensures { result ≡ number_at place bytes.now }
{
    LittleEndian::read_u16(&bytes[place..])
}
