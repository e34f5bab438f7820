//! Runs both ends of a connection over a schedule. Each event is at one end. The frame that is delivered may be any
//! bytes, or a frame that the peer sent, unaltered or with one byte altered. The command `replay` runs a pair file or a
//! file of several pairs, and `bulk` runs a schedule made from a number. A run is proved to be the world that
//! `exchange_model` defines.
//!
//! ```rust
//! use duo_run::Duo;
//! use fsoe_base::End;
//! use schedule_file::{Event, Maker};
//! let (master, slave) = Maker::settings();
//! let mut duo = Duo::new(master, slave);
//! duo.step(&Event::Tick { at: End::Master })?;
//! let entry = duo.step(&Event::Deliver { to: End::Slave, back: 1 })?;
//! assert_eq!(rt; entry.sent.bytes(), [0x2A, 0x00, 0x00, 0xC4, 0x2D, 0x00, 0x00].as_slice());
//! ```
#![tactic(auto)]

mod bulk;
mod coming;
mod duo;
mod duos;
mod fault;
pub mod laws;
mod pair_run;
mod pairs_run;
mod replay;
mod summary;
mod telling;

pub use bulk::run_bulk;
pub use duo::Duo;
pub use duos::Duos;
pub use fault::StepFault;
pub use pair_run::run_pair;
pub use replay::run_replay;
