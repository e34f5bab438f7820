//! Reading a frame in place.

ghost use Rattle.std.specs.Prelude.{◌≡◌, ◌↔◌, ◌≤◌, ◌<◌, ◌+◌, ◌*◌, length, IsTrue, IsSome, IfSome, slice_index};
ghost use Rattle.fsoe_base.specs.Lengths.{is_length, group_count, frame_len};
ghost use Rattle.fsoe_frame.specs.Parts.{frame_of, bytes_of};

use byteorder::{ByteOrder, LittleEndian};
use fsoe_base::{Image, MOST_FRAME};
use std::marker::Model;

/// The bytes of a frame with a known number of safe data bytes, read in place. In contracts the value is the command
/// byte, the load, the CRCs and the connection id that the bytes lay out.
#[derive(Drop)]
pub struct FrameView<'a> {
    bytes: &'a [u8],
    l: usize,
}

impl<'a> Model for FrameView<'a> {
    ghost use Rattle.std.specs.Prelude.{◌≡◌, length, IsTrue};
    ghost use Rattle.fsoe_base.specs.Lengths.{is_length, frame_len};
    ghost use Rattle.fsoe_frame.specs.Parts.{Frame, frame_of, AreBytes};

    ghost Value = { Frame };

    ghost view = { λ v. frame_of v.l v.bytes.now };

    ghost invariant = { λ v. IsTrue (is_length v.l) × (length v.bytes.now ≡ frame_len v.l) × AreBytes v.bytes.now };
}

/// Returns the frame in these bytes, or None if `bytes` hasn't the length of a frame with `l` safe data bytes. `l` is 1
/// or an even number from 2 to 126.
pub fn view<'a>(bytes: &'a [u8], l: usize) -> Option<FrameView<'a>>
    requires { IsTrue (is_length l) }
    ensures some { IsSome result ↔ (length bytes.now ≡ frame_len l) }
    ensures frame { IfSome result (λ v. v ≡ frame_of l bytes.now) }
    ensures same_bytes { IfSome result (λ v. bytes_of v ≡ bytes.now) }
{
    if bytes.len() == fsoe_base::frame_len(l) {
        Some(FrameView { bytes, l })
    } else {
        None
    }
}

impl<'a> FrameView<'a> {
    /// Returns the first byte of the frame, unchecked: it may be that of no command.
    pub fn command_byte(&self) -> u8
        ensures { result ≡ self.now.cmd }
    {
        self.bytes[0]
    }

    /// Copies the safe data into `out`, whose old contents are lost. Their number is one that a frame can have, and
    /// there is a CRC for each group of them.
    pub fn load_into(&self, out: &mut Image)
        ensures value { out.new ≡ self.now.load }
        ensures valid { IsTrue (is_length (length out.new)) }
        ensures groups { length self.now.crcs ≡ group_count (length out.new) }
    {
        out.resize(self.l);
        read_load(self.bytes, out.bytes_mut());
    }

    /// Returns the CRC of this group, which must exist.
    #[tactic(auto, using(crate::proofs::Places::crc_within))]
    pub fn crc_at(&self, group: usize) -> u16
        requires { group < length self.now.crcs }
        ensures { result ≡ slice_index self.now.crcs group }
    {
        if self.l == 1 {
            LittleEndian::read_u16(&self.bytes[2..])
        } else {
            LittleEndian::read_u16(&self.bytes[3 + 4 * group..])
        }
    }

    /// The connection id.
    pub fn conn(&self) -> u16
        ensures { result ≡ self.now.conn }
    {
        LittleEndian::read_u16(&self.bytes[self.bytes.len() - 2..])
    }

    /// The bytes, at most 255.
    pub fn bytes(&self) -> &'a [u8]
        ensures value { result.now ≡ bytes_of self.now }
        ensures most { length result.now ≤ MOST_FRAME }
    {
        self.bytes
    }
}

/// Copies the safe data of a frame over bytes that are as many.
fn read_load(bytes: &[u8], out: &mut [u8])
    requires valid { IsTrue (is_length (length out.old)) }
    requires right { length bytes.now ≡ frame_len (length out.old) }
    ensures { out.new ≡ (frame_of (length out.old) bytes.now).load }
{
    if out.len() == 1 {
        out[0] = bytes[1];
    } else {
        for group in 0..out.len() / 2 {
            let pair = [bytes[1 + 4 * group], bytes[2 + 4 * group]];
            out[2 * group..2 * group + 2].copy_from_slice(&pair);
        }
    }
}
