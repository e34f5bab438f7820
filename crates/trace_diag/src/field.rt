//! The fields of a frame that may differ.

/// What of a frame isn't as it must be: the first of these that applies, in this order.
#[derive(Clone, Copy, Debug, PartialEq, Eq)]
pub enum Field {
    /// It is the other end's turn.
    Turn,
    /// The number of its bytes.
    Length,
    /// The command byte.
    Command,
    /// The connection id.
    Conn,
    /// The safe data byte at this place, from 0, the lowest that is wrong.
    Data(u8),
    /// The CRC of this group, from 0, the first that is wrong.
    Crc(u8),
}
