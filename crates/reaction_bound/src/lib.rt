//! How old the outputs of both ends of a connection are, and whether an emergency stop switches a drive off in time.
//! The laws say how old outputs can be. The configuration of a plant may have bounds. A bound names a stop and a drive,
//! mostly of two connections. For each bound the plant counts the age of the outputs of these connections, and watches
//! whether the drive is off in time. Time is counted in ticks; no clock is read.
//!
//! ```rust
//! use reaction_bound::Reaction;
//! let mut reaction = Reaction::new(2);
//! reaction.quiet(true); // the stop is pressed: its bit is 0
//! reaction.tick(true);
//! assert_eq!(rt; reaction.broken(), None);
//! reaction.tick(true);
//! assert_eq!(rt; reaction.broken(), Some(2));
//! ```
#![tactic(auto)]

mod ages;
mod end_age;
pub mod laws;
mod reaction;

pub use ages::Ages;
pub use reaction::Reaction;
