//! The fail-safe part of an end. When its watchdog expires, it goes to state Reset. Its outputs are zeros unless the
//! last frame that it took in the session was ProcessData. While it is held, its data frames are FailSafeData with
//! zeros. An `Application` computes the data that all masters send, from what they received.
//!
//! ```rust
//! use failsafe_io::{Outputs, Watchdog};
//! use fsoe_base::Command;
//! let mut outputs = Outputs::new(2);
//! outputs.take(Command::ProcessData, &[0x01, 0x80]);
//! let mut watchdog = Watchdog::new(2, 0);
//! assert!(rt; !watchdog.tick() && watchdog.tick());
//! outputs.fail();
//! assert_eq!(rt; outputs.bytes(), [0x00, 0x00].as_slice());
//! ```
#![tactic(auto)]

mod application;
mod bit;
mod offer;
mod outputs;
mod watchdog;

pub use application::Application;
pub use bit::Bit;
pub use offer::{Offer, data_holds, zeros};
pub use outputs::Outputs;
pub use watchdog::Watchdog;
