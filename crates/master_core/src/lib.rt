//! The FSoE master of one connection: its five states, the tests of received answers, the frame that is due after each
//! answer, its watchdog and its outputs. `outputs()` are the data received from the slave (SafeInputs in ETG.5100),
//! `put` sets the data to send (SafeOutputs).
//!
//! It has no clock and no communication interface. The program passes in frames and ticks, and sends what the master
//! writes; the first tick sends the Reset frame after which a session begins:
//!
//! ```text
//! let mut master = Master::new(settings);
//! let mut out = FrameBuf::new();
//! loop {
//!     let event = wait();
//!     master.put(&commands());                            // fresh data to send, settings().own_len() bytes
//!     let did = match event {
//!         Frame(bytes) => master.deliver(&bytes, &mut out), // the bytes that came, whichever and however many
//!         Tick => master.tick(&mut out),                    // the watchdog counts these
//!         Stop => master.reset(&mut out),
//!     };
//!     take(master.outputs());                             // the slave's data; zeros in every state but Data
//!     if did.sent {
//!         send(out.bytes());
//!     }
//!     match did.reset {
//!         Some(Cause::Found(code)) => report(code),       // this master found a fault, 05h for its watchdog
//!         Some(Cause::Peer(code)) => report(code),        // the slave sent a Reset frame with this code
//!         Some(Cause::Local) | None => {}
//!     }
//! }
//! ```
//!
//! A program whose next data depend on the received frame calls `accept` in place of `deliver`, reads `outputs`, and
//! calls `put`. If `due()` is then true, it calls `reply`: if that sends a ProcessData frame, the frame carries what
//! was put. `hold(true)` makes the master send fail-safe data (zeros) in place of what was put, until `hold(false)`.
//! `nonce` sets the session id. When the master sends the first Session frame of a session, the id that was set last
//! becomes the id of this session. The master never makes an id itself: call `nonce` with a fresh one before each
//! session. A reset changes neither what was put, nor the hold, nor the id.
//!
//! ```rust
//! use fsoe_base::{FrameBuf, Lengths};
//! use master_core::Master;
//! use param_load::{AppBytes, MasterSettings};
//! let settings = MasterSettings::new(Lengths::new(2, 2)?, 1, 2, 100, AppBytes::new(), 1)?;
//! let mut master = Master::new(settings);
//! let mut out = FrameBuf::new();
//! master.tick(&mut out);
//! assert_eq!(rt; out.bytes(), [0x2A, 0x00, 0x00, 0xC4, 0x2D, 0x00, 0x00].as_slice());
//! master.deliver(&[0x2A, 0x00, 0x00, 0xC4, 0x2D, 0x00, 0x00], &mut out);
//! assert_eq!(rt; out.bytes(), [0x4E, 0x01, 0x00, 0x12, 0x3E, 0x00, 0x00].as_slice());
//! ```
#![tactic(auto)]

mod acting;
mod kit;
pub mod laws;
mod master;
mod phase;
pub mod states;

pub use master::Master;
