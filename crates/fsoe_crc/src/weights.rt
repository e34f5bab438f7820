//! How many changes of data turn how many bits, counted.

ghost use Rattle.std.specs.Prelude.{◌≡◌, ◌≤◌, ◌<◌, ℕ, get_or};
ghost use Rattle.fsoe_crc.specs.Weights.{bits_turned_by, changes_turning};

use crate::register::crc;

/// How many bits a change of two data bytes turns, in them and in their CRC.
fn bits_turned_by(change: u16) -> u32
    ensures value { result ≡ bits_turned_by change }
    ensures most { result ≤ 32 }
{
    let crc = crc(&[(change / 256) as u8, (change % 256) as u8, 0, 0, 0]);
    change.count_ones() + crc.count_ones()
}

/// Goes through the changes of two data bytes from 1 to `most`: at each place of the result stands how many of them
/// turn so many bits, in the data and in their CRC. Up to 255 these are the changes of one data byte.
pub fn changes_by_bits(most: u16) -> [u16; 33]
    ensures { (bits : ℕ) → bits < 33 → get_or result bits 0 ≡ changes_turning most bits }
{
    let mut counts = [0; 33];
    for before in 0..most {
        counts[bits_turned_by(before + 1) as usize] += 1;
    }
    counts
}
