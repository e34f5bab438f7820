//! The CRC chain of a session, in both directions: how frames get their CRCs, how those of received frames are tested,
//! and what is stored for the next frame. `slave_core` and `master_core` use it. It knows no states and no parameters.
//!
//! ```rust
//! use fsoe_base::{Command, FrameBuf};
//! use seq_chain::Chain;
//! let (mut master, slave) = (Chain::new(), Chain::new());
//! let mut out = FrameBuf::new();
//! master.seal(Command::Session, 0, &[0x01, 0x00], &mut out);
//! assert_eq!(rt; out.bytes(), [0x4E, 0x01, 0x00, 0x12, 0x3E, 0x00, 0x00].as_slice());
//! let frame = fsoe_frame::view(out.bytes(), 2).ok_or("length")?;
//! assert!(rt; slave.test(&frame, 0));
//! ```
#![tactic(auto)]

pub use chain::Chain;
pub use link::Link;
pub use opened::{Opened, open};
pub use reset::{reset_frame, reset_view};
pub use session::{Session, is_repeat, test_session};
pub use session_frame::{SessionFrame, UnreadFrame};

mod chain;
mod cover;
pub mod laws;
mod link;
mod opened;
mod reset;
mod session;
mod session_frame;
