//! The definition of a run of both ends, and of when it is correct (fair). The laws say what is true of all runs and of
//! examples; the main one is the law of the pair. An entry is `other` if a guarded frame other than the awaited one
//! passed the test of the CRCs. Two monitors find the first such entry during a run. Nothing here runs an end.
//!
//! ```rust
//! use exchange_model::Monitor;
//! use fsoe_base::{Command, Did, End, FrameBuf};
//! let mut monitor = Monitor::new();
//! let did = Did::took(Command::ProcessData, &[0xFF, 0x00], true);
//! monitor.note_parts(End::Slave, &[0x36, 0xFF, 0x00, 0x4E, 0xE9, 0x01, 0x00], &did, &FrameBuf::new());
//! assert_eq!(rt; monitor.other(), Some(1));
//! ```
#![tactic(auto)]

mod kept;
pub mod laws;
mod list_monitor;
mod monitor;
mod reading;
mod side;

pub use list_monitor::ListMonitor;
pub use monitor::Monitor;
pub use reading::delivered;
