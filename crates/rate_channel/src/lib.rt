//! A black channel for trials. The user gives four rates: about how many of 10,000 frames are lost, altered and
//! repeated, and about how many of 10,000 pulls give nothing, so that frames come late. Nothing here tests a frame.
//!
//! ```rust
//! use black_channel::{Channel, Place};
//! use fsoe_base::{End, FrameBuf};
//! use rate_channel::{RateChannel, Rates};
//! let rates = Rates { lose: 0, alter: 0, repeat: 10_000, late: 0 };
//! let mut channel = RateChannel::new(rt.alloc(), rates)?;
//! let to = Place { link: 1, end: End::Slave };
//! channel.push(to, &[0x2A, 0x00, 0x00, 0xC4, 0x2D, 0x00, 0x00]);
//! let mut out = FrameBuf::new();
//! assert_eq!(rt; channel.pull(&mut out), Some(to));
//! assert_eq!(rt; channel.pull(&mut out), Some(to));
//! assert_eq!(rt; channel.pull(&mut out), None);
//! ```
#![tactic(auto)]

pub mod laws;
mod rate_channel;

pub use rate_channel::{RateChannel, Rates};
