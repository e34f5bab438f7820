use fsoe_crc::{crc, crc_bitwise};

/// Bytes and their CRC: each byte with one bit, and a byte with two; two pairs of bytes. Then the CRC's input of a data
/// frame with number 65,535, and of the same with number 1, the next one.
const ROWS: [(&[u8], u16); 13] = [
    (&[0x01], 0x39B7),
    (&[0x02], 0x736E),
    (&[0x04], 0xE6DC),
    (&[0x08], 0xF40F),
    (&[0x10], 0xD1A9),
    (&[0x20], 0x9AE5),
    (&[0x40], 0x0C7D),
    (&[0x80], 0x18FA),
    (&[0x03], 0x4AD9),
    (&[0x01, 0x02], 0x429A),
    (&[0x01, 0x03], 0x7B2D),
    (&[0, 0, 1, 0, 0xFF, 0xFF, 0x36, 1, 0, 0, 0, 0], 0x321C),
    (&[0, 0, 1, 0, 1, 0, 0x36, 1, 0, 0, 0, 0], 0x82A1),
];

/// The CRC by the table, and bit by bit.
fn both(bytes: &[u8]) -> (u16, u16) {
    (crc(bytes), crc_bitwise(bytes))
}

#[test]
fn worked_remainders(rt: HostRuntime) {
    for (bytes, value) in ROWS {
        assert_eq!(rt; both(bytes), (value, value), "of {bytes:?}");
    }
}
