//! Black channels for trials: they stand for the network between ends. They may delay, repeat, reorder, corrupt,
//! misdirect, invent or lose frames. A `Channel` carries the frames of all connections of a plant. A `Window` has the
//! last 64 frames of one end, any of which may reach the other. Nothing here tests a frame.
//!
//! ```rust
//! use black_channel::{Channel, PerfectChannel, Place};
//! use fsoe_base::{End, FrameBuf};
//! let mut channel = PerfectChannel::new(rt.alloc())?;
//! let to = Place { link: 1, end: End::Slave };
//! channel.push(to, &[0x2A, 0x00, 0x00, 0xC4, 0x2D, 0x00, 0x00]);
//! let mut out = FrameBuf::new();
//! assert_eq!(rt; channel.pull(&mut out), Some(to));
//! assert_eq!(rt; channel.pull(&mut out), None);
//! ```
#![tactic(auto)]

mod altering;
mod channel;
mod hostile_channel;
pub mod laws;
mod list_channel;
mod parcel_ring;
mod perfect_channel;
mod window;

pub use altering::altered;
pub use channel::{Channel, Parcel, Place};
pub use hostile_channel::HostileChannel;
pub use list_channel::ListChannel;
pub use perfect_channel::PerfectChannel;
pub use window::Window;
