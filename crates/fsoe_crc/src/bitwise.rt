//! The CRC bit by bit, as it is defined.

ghost use Rattle.std.specs.Prelude.{◌≡◌, ◌<◌};
ghost use Rattle.fsoe_crc.specs.Remainder.{rem, fed, fed_bits, bits_of};

/// The CRC of `bytes`, bit by bit: the plain program beside the faster `crc`, with the same value.
pub fn crc_bitwise(bytes: &[u8]) -> u16
    ensures { result ≡ rem bytes.now }
{
    let mut value = 0;
    for byte in bytes {
        value = feed_byte(value, *byte);
    }
    feed_byte(feed_byte(value, 0), 0)
}

/// The value after the bits of one byte, highest first.
fn feed_byte(value: u16, byte: u8) -> u16
    ensures { result ≡ fed_bits value (bits_of byte) }
{
    let mut value = value;
    for place in 0..8u32 {
        value = feed_bit(value, (byte >> (7 - place)) as u16 & 1);
    }
    value
}

/// The value after one bit.
#[tactic(auto, unfolding(crate::specs::Remainder::fed))]
fn feed_bit(value: u16, bit: u16) -> u16
    requires { bit < 2 }
    ensures { result ≡ fed value bit }
{
    let doubled = 2 * value as u32 + bit as u32;
    if doubled < 0x10000 {
        doubled as u16
    } else {
        (doubled ^ 0x139B7) as u16
    }
}
