//! What one direction of a session stores of its last frame, and the numbers of its frames.

ghost use Rattle.std.specs.Prelude.{◌≡◌, length, IsTrue};
ghost use Rattle.fsoe_base.specs.Lengths.{is_length};
ghost use Rattle.seq_chain.specs.Numbered.{IsNumbered};
ghost use Rattle.seq_chain.specs.Numbers.{next, following, last_crc, number_of};
ghost use Rattle.seq_chain.specs.Session.{crc_noted};

use crate::cover::{common_part, first_crc};
use fsoe_crc::Register;

/// What one direction of a session stores of its last frame. Only a seal or a passed CRC test creates it.
#[derive(Clone, Copy, PartialEq, Eq)]
pub struct Link {
    /// The sequence number, 1 to 65,535, which isn't on the wire.
    pub(crate) number: u16,
    /// The CRC of the first group.
    pub(crate) crc: u16,
}

/// The number after this one: 1 after 65,535.
fn next_number(number: u16) -> u16
    ensures { result ≡ next number }
{
    if number == u16::MAX { 1 } else { number + 1 }
}

/// Returns the number of the next frame without the extra increment, 1 if there was no frame.
pub(crate) fn following_number(before: Option<Link>) -> u16
    ensures { result ≡ following before }
{
    match before {
        None => 1,
        Some(link) => next_number(link.number),
    }
}

/// The CRC of the last frame's first group, 0 where there was no frame.
pub(crate) fn crc_or_zero(before: Option<Link>) -> u16
    ensures { result ≡ last_crc before }
{
    match before {
        None => 0,
        Some(link) => link.crc,
    }
}

/// The CRC of the last frame's first group, None where there was no frame.
pub(crate) fn crc_of(before: Option<Link>) -> Option<u16>
    ensures { result ≡ crc_noted before }
{
    match before {
        None => None,
        Some(link) => Some(link.crc),
    }
}

/// The number of a frame, and what its CRCs are made of.
#[derive(Drop)]
pub(crate) struct Numbered {
    /// The sequence number.
    pub(crate) number: u16,
    /// The register of the part that all groups cover first.
    pub(crate) common: Register,
    /// The CRC of the first group.
    pub(crate) first: u16,
}

/// Numbers the frame after `before`. If its CRC_0 would equal the one before, the number is incremented once more, and
/// only then the CRC_0 is made twice.
#[inline(always)]
pub(crate) fn number_frame(
    before: Option<Link>,
    last: u16,
    conn: u16,
    command: u8,
    load: &[u8],
) -> Numbered
    requires { IsTrue (is_length (length load.now)) }
    ensures number { result.number ≡ number_of last before conn command load.now }
    ensures frame { IsNumbered result last conn command load.now }
{
    let mut number = following_number(before);
    let mut common = common_part(last, conn, number, command);
    let mut first = first_crc(&common, load);
    if crc_of(before) == Some(first) {
        number = next_number(number);
        common = common_part(last, conn, number, command);
        first = first_crc(&common, load);
    }
    Numbered {
        number,
        common,
        first,
    }
}
