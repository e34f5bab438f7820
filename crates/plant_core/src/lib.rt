//! A plant: many connections with both ends, and an application, over a black channel. `Plant` does each event of a
//! script, as `plant_model` defines it, and records it in a `Journal`. It reads no scripts and writes no reports.
//!
//! ```rust
//! use fb_net::{KindOf, Zeros};
//! let text = b"plant = { app = 'zeros', channel = 'perfect' }
//!     connection = [{ id = 1, address = 11, watchdog = 5, master_length = 2, slave_length = 2 }]";
//! let conf = plant_conf::read_conf(rt.alloc(), text)?;
//! let mut channel = black_channel::PerfectChannel::new(rt.alloc())?;
//! let mut plant = plant_core::Plant::new(rt.alloc(), &conf, KindOf::Handed(Zeros), &mut channel)?;
//! plant.step(&plant_model::PlantEvent::Tick, &mut channel)?;
//! plant.change_app(KindOf::Handed(Zeros))?;
//! assert_eq!(rt; plant.slave_state(1).name(), "Data");
//! ```
#![tactic(auto)]

mod ends;
mod journal;
pub mod laws;
mod link;
mod making;
mod offers;
mod plant;
mod ticking;
mod watch;

pub use journal::Journal;
pub use plant::Plant;
