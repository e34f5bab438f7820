//! The FSoE slave of one connection: its five states, the tests of received frames, its watchdog and its outputs.
//! `outputs()` are the data received from the master (SafeOutputs in ETG.5100), `put` sets the data to send
//! (SafeInputs). It has no clock and no communication interface. The program passes in frames and ticks, and sends what
//! the slave writes:
//!
//! ```text
//! let mut slave = Slave::new(settings);
//! let mut out = FrameBuf::new();
//! loop {
//!     let event = wait();
//!     slave.put(&inputs());                             // fresh data to send, settings().own_len() bytes
//!     let did = match event {
//!         Frame(bytes) => slave.deliver(&bytes, &mut out),  // the bytes that came, whichever and however many
//!         Tick => slave.tick(&mut out),                     // the watchdog counts these
//!         Stop => slave.reset(&mut out),
//!     };
//!     drive(slave.outputs());                           // before a send or a report; zeros in every state but Data
//!     if did.sent {
//!         send(out.bytes());
//!     }
//!     match did.reset {
//!         Some(Cause::Found(code)) => report(code),     // this slave found a fault, 05h for its watchdog
//!         Some(Cause::Peer(code)) => report(code),      // the master sent a Reset frame with this code
//!         Some(Cause::Local) | None => {}
//!     }
//! }
//! ```
//!
//! `hold(true)` makes the slave send fail-safe data (zeros) in place of what was put, until `hold(false)`. `nonce` sets
//! the session id. When the slave sends the first Session frame of a session, the id that was set last becomes the id
//! of this session. The slave never makes an id itself: call `nonce` with a fresh one before each session. A reset
//! changes neither what was put, nor the hold, nor the id.
//!
//! ```rust
//! use fsoe_base::{FrameBuf, Lengths, State};
//! use param_load::{AppRule, SlaveSettings};
//! use slave_core::Slave;
//! let settings = SlaveSettings::new(Lengths::new(2, 2)?, 2, 200, 1000, AppRule::Any(0), 2)?;
//! let mut slave = Slave::new(settings);
//! let mut out = FrameBuf::new();
//! slave.deliver(&[0x4E, 0x01, 0x00, 0x12, 0x3E, 0x00, 0x00], &mut out);
//! assert_eq!(rt; out.bytes(), [0x4E, 0x02, 0x00, 0x90, 0x47, 0x00, 0x00].as_slice());
//! assert_eq!(rt; slave.state(), State::Session);
//! ```
#![tactic(auto)]

mod acting;
mod kit;
pub mod laws;
mod phase;
mod seen;
mod slave;
pub mod states;

pub use kit::Kit;
pub use seen::Seen;
pub use slave::Slave;
