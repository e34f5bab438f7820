//! Frames that a channel alters.
ghost use Rattle.std.specs.Prelude.{◌≡◌, ◌<◌, length};
ghost use Rattle.black_channel.specs.Altered.{altered};

use fsoe_base::FrameBuf;

/// Flips the bits of the mask in the byte at place `pos`, from 0, of a frame that has this place.
pub fn altered(frame: &mut FrameBuf, pos: u8, mask: u8)
    requires { pos < length frame.old }
    ensures { frame.new ≡ altered pos mask frame.old }
{
    frame.bytes_mut()[usize::from(pos)] ^= mask;
}
