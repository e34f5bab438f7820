//! One end of a connection, master or slave, for crates that treat both kinds in the same way. A program that runs only
//! one kind uses `Master` or `Slave` directly.
//!
//! ```rust
//! use end_core::Core;
//! use fsoe_base::{Did, FrameBuf, Lengths, State};
//! use param_load::{AppRule, SlaveSettings};
//! let settings = SlaveSettings::new(Lengths::new(2, 2)?, 2, 200, 1000, AppRule::Any(0), 2)?;
//! let mut core = Core::new_slave(settings);
//! core.deliver_into(&[0x4E, 0x01, 0x00, 0x12, 0x3E, 0x00, 0x00], &mut Did::nothing(), &mut FrameBuf::new());
//! assert_eq!(rt; core.state(), State::Session);
//! ```
#![tactic(auto)]

mod one_end;

pub use one_end::Core;
