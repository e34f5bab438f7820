//! The CRCs of a frame, over what they cover.

ghost use Rattle.std.specs.Prelude.{◌≡◌, ◌<◌, [], ◌∷◌, ◌++◌, ℕ, List, length, replicate, IsTrue, nat_eq};
ghost use Rattle.fsoe_base.specs.Command.{command_byte};
ghost use Rattle.fsoe_frame.specs.Layout.{layout};
ghost use Rattle.fsoe_base.specs.Lengths.{is_length, group_count};
ghost use Rattle.fsoe_crc.specs.Remainder.{rem};
ghost use Rattle.fsoe_base.specs.Bytes.{low_high};
ghost use Rattle.seq_chain.specs.Cover.{place, covered, crcs, crc_0};
ghost use Rattle.seq_chain.specs.Cover as covers;
ghost use Rattle.seq_chain.specs.Numbered.{IsNumbered};
ghost use Rattle.std.specs.Cmp.Lexicographic.{pointwise};

use crate::link::Numbered;
use arrayvec::ArrayVec;
use byteorder::{ByteOrder, LittleEndian};
use fsoe_base::{Command, FrameBuf};
use fsoe_crc::Register;
use fsoe_frame::FrameView;

/// Writes a frame with its CRCs to `out`, whose old contents are lost.
#[inline(always)]
pub(crate) fn write_frame(
    frame: &Numbered,
    command: Command,
    conn: u16,
    load: &[u8],
    out: &mut FrameBuf,
)
    requires { IsTrue (is_length (length load.now)) }
    ensures { (last : ℕ) → IsNumbered frame.now last conn (command_byte command) load.now → out.new ≡ layout (command_byte command) load.now (crcs last conn frame.now.number (command_byte command) load.now) conn }
{
    if load.len() <= 2 {
        // A list of CRCs would be blanked first.
        fsoe_frame::write(command, load, &[frame.first], conn, out);
        return;
    }
    let mut crcs: ArrayVec<u16, 63> = ArrayVec::new();
    crcs.push(frame.first);
    let advanced = common_and_zeros(&frame.common);
    for group in 1..load.len() / 2 {
        crcs.push(later_crc(advanced, group, load[2 * group], load[2 * group + 1]));
    }
    fsoe_frame::write(command, load, crcs.as_slice(), conn, out);
}

/// Whether the CRCs of a frame with this load are those that come, one for each group.
#[inline(always)]
pub(crate) fn crcs_are(view: &FrameView<'_>, frame: &Numbered, load: &[u8]) -> bool
    requires valid { IsTrue (is_length (length load.now)) }
    requires groups { length view.now.crcs ≡ group_count (length load.now) }
    ensures { (last conn command : ℕ) → IsNumbered frame.now last conn command load.now → result ≡ pointwise nat_eq view.now.crcs (crcs last conn frame.now.number command load.now) }
{
    if view.crc_at(0) != frame.first {
        return false;
    }
    let advanced = common_and_zeros(&frame.common);
    for group in 1..load.len() / 2 {
        if view.crc_at(group) != later_crc(advanced, group, load[2 * group], load[2 * group + 1]) {
            return false;
        }
    }
    true
}

/// The register of the part that all groups of a frame cover first.
pub(crate) fn common_part(last: u16, conn: u16, number: u16, command: u8) -> Register
    ensures { result ≡ rem (covers.common last conn number command) }
{
    let mut register = Register::new();
    feed_number(&mut register, last);
    feed_number(&mut register, conn);
    feed_number(&mut register, number);
    register.feed(command);
    register
}

/// The CRC of the first group of a load, after the common part.
#[inline(always)]
pub(crate) fn first_crc(common: &Register, load: &[u8]) -> u16
    requires { IsTrue (is_length (length load.now)) }
    ensures { (last conn number command : ℕ) → common.now ≡ rem (covers.common last conn number command) → result ≡ crc_0 last conn number command load.now }
{
    let mut register = common.copy();
    if load.len() == 1 {
        register.feed_pair(load[0], 0);
        register.feed_pair(0, 0);
    } else {
        register.feed_pair_and_zeros(load[0], load[1]);
    }
    register.value()
}

/// The CRC of the common part with zeros in place of all that a later group covers after it.
fn common_and_zeros(common: &Register) -> u16
    ensures { (begun : List ℕ) → common.now ≡ rem begun → result ≡ rem (begun ++ replicate 7 0) }
{
    let mut register = common.copy();
    register.feed_pair(0, 0);
    register.feed_pair_and_zeros(0, 0);
    register.value()
}

/// The CRC of a later group of two bytes at this place, after the common part, of which `advanced` is the CRC with
/// zeros.
fn later_crc(advanced: u16, index: usize, first: u8, second: u8) -> u16
    requires later { 0 < index }
    requires place { index < 63 }
    ensures { (begun : List ℕ) → advanced ≡ rem (begun ++ replicate 7 0) → result ≡ rem (covered begun index (first ∷ second ∷ [])) }
{
    // The CRC is linear: each of the three parts decides what it adds by exclusive-or, whatever the others are.
    advanced ^ place_and_zeros(index) ^ pair_and_zeros(first, second)
}

/// The CRC of the place of each group with zeros in place of its two bytes, and of the three zeros after them.
static PLACES: [u16; 63] = [
    0x0000, 0x0DE3, 0x1BC6, 0x1625, 0x378C, 0x3A6F, 0x2C4A, 0x21A9, 0x6F18, 0x62FB, 0x74DE, 0x793D,
    0x5894, 0x5577, 0x4352, 0x4EB1, 0xDE30, 0xD3D3, 0xC5F6, 0xC815, 0xE9BC, 0xE45F, 0xF27A, 0xFF99,
    0xB128, 0xBCCB, 0xAAEE, 0xA70D, 0x86A4, 0x8B47, 0x9D62, 0x9081, 0x85D7, 0x8834, 0x9E11, 0x93F2,
    0xB25B, 0xBFB8, 0xA99D, 0xA47E, 0xEACF, 0xE72C, 0xF109, 0xFCEA, 0xDD43, 0xD0A0, 0xC685, 0xCB66,
    0x5BE7, 0x5604, 0x4021, 0x4DC2, 0x6C6B, 0x6188, 0x77AD, 0x7A4E, 0x34FF, 0x391C, 0x2F39, 0x22DA,
    0x0373, 0x0E90, 0x18B5,
];

/// The CRC of the place of a group with zeros in place of its two bytes, and of the three zeros after them.
fn place_and_zeros(index: usize) -> u16
    requires { index < 63 }
    ensures { result ≡ rem (place index ++ replicate 5 0) }
{
    PLACES[index]
}

/// The CRC of two bytes and three zeros.
fn pair_and_zeros(first: u8, second: u8) -> u16
    ensures { result ≡ rem (first ∷ second ∷ 0 ∷ 0 ∷ 0 ∷ []) }
{
    let mut register = Register::new();
    register.feed_pair_and_zeros(first, second);
    register.value()
}

/// Feeds a number of 16 bits, low byte first.
fn feed_number(register: &mut Register, n: u16)
    ensures { (fed : List ℕ) → register.old ≡ rem fed → register.new ≡ rem (fed ++ low_high n) }
{
    let mut bytes = [0; 2];
    LittleEndian::write_u16(&mut bytes, n);
    register.feed_pair(bytes[0], bytes[1]);
}
