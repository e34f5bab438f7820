//! The byte layout of a frame: the command byte, groups of safe data each followed by its CRC, and the connection id.
//! Nothing here computes or tests a CRC.
//!
//! ```rust
//! use fsoe_base::{Command, FrameBuf};
//! use fsoe_frame::{view, write};
//! let mut out = FrameBuf::new();
//! write(Command::Session, &[0x01, 0x00], &[0x3E12], 0, &mut out);
//! assert_eq!(rt; out.bytes(), [0x4E, 0x01, 0x00, 0x12, 0x3E, 0x00, 0x00].as_slice());
//! assert_eq!(rt; view(out.bytes(), 2).map(|frame| frame.crc_at(0)), Some(0x3E12));
//! ```
#![tactic(auto)]

pub mod laws;

pub use reading::{FrameView, view};
pub use writing::write;

mod reading;
mod writing;
