//! The 16-bit CRC of frames. The bytes, followed by sixteen zero bits, are divided by the polynomial 139B7h: the CRC is
//! the remainder. The highest bit of a byte comes first, and the start value is 0.
//!
//! ```rust
//! use fsoe_crc::crc;
//! let covered = [0x00, 0x00, 0x00, 0x00, 0x01, 0x00, 0x4E, 0x01, 0x00, 0x00, 0x00, 0x00];
//! assert_eq!(rt; crc(&covered), 0x3E12);
//! ```
#![tactic(auto)]

pub use bitwise::crc_bitwise;
pub use register::{Register, crc};
pub use weights::changes_by_bits;

mod bitwise;
pub mod laws;
mod register;
mod table;
mod weights;
