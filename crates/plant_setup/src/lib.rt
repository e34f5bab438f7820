//! Prepares a plant (many connections with both ends, an application and a channel) for a run. It selects the channel
//! and the application with which the plant starts, by their names in the configuration. If the configuration can't be
//! run, it gives the first reason, and the line of the report that says it. It runs nothing.
//!
//! ```rust
//! use black_channel::{Channel, PerfectChannel};
//! let text = b"plant = { app = 'net', channel = 'perfect' }
//!     connection = [{ id = 1, address = 11, watchdog = 5, master_length = 2, slave_length = 2 }]";
//! let mut conf = plant_conf::read_conf(rt.alloc(), text)?;
//! let mut channels: Vec<Box<dyn Channel>> = Vec::new(rt.alloc());
//! channels.push(Box::new(rt.alloc(), PerfectChannel::new(rt.alloc())?)?)?;
//! let setup = plant_setup::set_up(&mut conf, Vec::new(rt.alloc()), channels.as_slice())?;
//! assert_eq!(rt; setup.channel, 0);
//! ```
#![tactic(auto)]

mod bits;
mod fault;
mod named;
mod setup;

pub use fault::{SetupFault, write_config_line};
pub use named::take_app;
pub use setup::{Setup, set_up};
