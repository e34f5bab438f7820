//! Bytes from hexadecimal digits, by a table: `hex::decode_to_slice` tests each digit, at more than twice the cost.
ghost use Rattle.std.specs.Prelude.{◌≡◌, ◌≤◌, ◌<◌, length, take, unwrap_or, option_map, IfSome};
ghost use Rattle.hex.specs.Hex.{hex_digit_value};
ghost use Rattle.schedule_file.specs.Field.{bytes_said};

/// The value of each digit, in either case, and 256 where a character is none.
static VALUES: [u16; 256] = [
    256, 256, 256, 256, 256, 256, 256, 256, 256, 256, 256, 256, 256, 256, 256, 256, 256, 256, 256,
    256, 256, 256, 256, 256, 256, 256, 256, 256, 256, 256, 256, 256, 256, 256, 256, 256, 256, 256,
    256, 256, 256, 256, 256, 256, 256, 256, 256, 256, 0, 1, 2, 3, 4, 5, 6, 7, 8, 9, 256, 256, 256,
    256, 256, 256, 256, 10, 11, 12, 13, 14, 15, 256, 256, 256, 256, 256, 256, 256, 256, 256, 256,
    256, 256, 256, 256, 256, 256, 256, 256, 256, 256, 256, 256, 256, 256, 256, 256, 10, 11, 12, 13,
    14, 15, 256, 256, 256, 256, 256, 256, 256, 256, 256, 256, 256, 256, 256, 256, 256, 256, 256,
    256, 256, 256, 256, 256, 256, 256, 256, 256, 256, 256, 256, 256, 256, 256, 256, 256, 256, 256,
    256, 256, 256, 256, 256, 256, 256, 256, 256, 256, 256, 256, 256, 256, 256, 256, 256, 256, 256,
    256, 256, 256, 256, 256, 256, 256, 256, 256, 256, 256, 256, 256, 256, 256, 256, 256, 256, 256,
    256, 256, 256, 256, 256, 256, 256, 256, 256, 256, 256, 256, 256, 256, 256, 256, 256, 256, 256,
    256, 256, 256, 256, 256, 256, 256, 256, 256, 256, 256, 256, 256, 256, 256, 256, 256, 256, 256,
    256, 256, 256, 256, 256, 256, 256, 256, 256, 256, 256, 256, 256, 256, 256, 256, 256, 256, 256,
    256, 256, 256, 256, 256, 256, 256, 256, 256, 256, 256, 256, 256, 256, 256, 256, 256, 256, 256,
    256, 256, 256,
];

/// The value of a digit, and 256 where it is none.
fn value(c: u8) -> u16
    ensures value { result ≡ unwrap_or (hex_digit_value c) 256 }
    ensures most { result ≤ 256 }
{
    VALUES[c as usize]
}

/// Writes the bytes that a field says in digits of either case, at least one, to the front of `out`, and gives their
/// number. None where it says none, or more than there is room for: what `out` holds is then left open.
pub(crate) fn read_hex(text: &[u8], out: &mut [u8]) -> Option<usize>
    ensures value { option_map (λ count. take count out.new) result ≡ bytes_said (length out.old) text.now }
    ensures count { IfSome result (λ count. (0 < count) × (count ≤ length out.old)) }
{
    let count = text.len() / 2;
    if count == 0 || count > out.len() || text.len() % 2 != 0 {
        return None;
    }
    // The loop costs least with no branch in it, so whether all are digits is seen after it.
    let mut seen = 0;
    for i in 0..count {
        let byte = value(text[2 * i]) * 16 + value(text[2 * i + 1]);
        seen |= byte;
        out[i] = (byte % 256) as u8;
    }
    if seen < 256 { Some(count) } else { None }
}
