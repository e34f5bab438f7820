//! The FSoE masters of up to 64 connections, with one application. From the data that all masters received (SafeInputs
//! in ETG.5100) the application computes the data that all send. It runs once per tick. It runs once for each frame
//! that is taken or ends a session, before the reply is built, and once for each `reset`. And it runs once when
//! `change_app` puts it in place of another, and when `first_cycle` is called. Nothing passes from one connection to
//! another but the data that the application computes. The program passes in frames and ticks, and sends what is
//! written:
//!
//! ```text
//! let mut multi = MultiMaster::new(settings, app)?;
//! loop {
//!     match wait() {
//!         Frame(link, bytes) => {
//!             let did = multi.deliver(link, &bytes, &mut out);
//!             if did.sent {
//!                 send(link, out.bytes());
//!             }
//!         }
//!         Tick => {
//!             multi.tick(&mut outs, &mut dids);
//!             for place in 0..dids.len() {
//!                 if dids[place].sent {
//!                     send(place + 1, outs[place].bytes());
//!                 }
//!             }
//!         }
//!     }
//!     for link in multi.changed() {
//!         note(*link, multi.offer(*link));        // the offers that the last call changed
//!     }
//! }
//! ```
//!
//! ```rust
//! use fb_net::Mirror;
//! use fsoe_base::{Did, FrameBuf, Lengths};
//! use multi_master::MultiMaster;
//! use param_load::{AppBytes, MasterSettings};
//! let settings = MasterSettings::new(Lengths::new(2, 2)?, 1, 2, 100, AppBytes::new(), 1)?;
//! let mut multi = MultiMaster::new(vec![in rt.alloc(); settings]?, Mirror)?;
//! let mut outs = [FrameBuf::new()];
//! multi.tick(&mut outs, &mut [Did::nothing()]);
//! assert_eq!(rt; outs[0].bytes(), [0x2A, 0x00, 0x00, 0xC4, 0x2D, 0x00, 0x00].as_slice());
//! ```
#![tactic(auto)]

mod cycle;
mod fault;
pub mod laws;
mod making;
mod multi_master;

pub use fault::NewFault;
pub use multi_master::MultiMaster;
