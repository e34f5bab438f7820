//! Basic types of the whole stack: states, commands and codes of the protocol, lengths of a connection, bytes of a
//! frame, safe data, and the result of a step. Nothing here does a step.
//!
//! ```rust
//! use fsoe_base::{End, Lengths};
//! let lengths = Lengths::new(1, 126)?;
//! assert_eq!(rt; lengths.frame_len(End::Master), 6);
//! assert_eq!(rt; lengths.frame_len(End::Slave), 255);
//! ```
#![tactic(auto)]

mod byte_list;
mod bytes;
mod command;
mod did;
pub mod laws;
mod lengths;
mod memory;

pub use byte_list::{ByteList, FrameBuf, Image};
pub use bytes::is_all_zero;
pub use command::{Code, Command, End, State};
pub use did::{Cause, Did, Dropped, Took};
pub use lengths::{BadLength, Lengths, MOST_DATA, MOST_FRAME, frame_len};
pub use memory::Memory;
