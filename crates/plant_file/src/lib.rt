//! Runs a plant by a configuration that is loaded from a desk, a store of texts by name. The plant runs over its
//! script, and its report or its journal is written.
//!
//! ```rust
//! use black_channel::{Channel, PerfectChannel};
//! use fb_net::{AppEntry, Zeros};
//! use fsoe_io::{SureDesk, SureSink, SureSource};
//! use plant_file::{Wanted, run_file};
//! let alloc = rt.alloc();
//! let text = b"plant = { app = 'zeros', channel = 'perfect' }
//!     connection = [{ id = 1, address = 11, watchdog = 5, master_length = 2, slave_length = 2 }]";
//! let mut desk = SureDesk::new(text.to_vec(alloc)?);
//! let mut script = SureSource::new(b"fsoe 1 plant\nz 1\ncut 1 1\nend\n".to_vec(alloc)?);
//! let mut sink = SureSink::new(alloc, 100)?;
//! let mut apps = Vec::new(alloc);
//! apps.push(AppEntry { name: "zeros".to_string(alloc)?, app: Box::new(alloc, Zeros)? })?;
//! let mut channels: Vec<Box<dyn Channel>> = Vec::new(alloc);
//! channels.push(Box::new(alloc, PerfectChannel::new(alloc)?)?)?;
//! let mut journal = plant_run::Journal::new(alloc);
//! run_file(alloc, "file", &mut desk, &mut script, &mut sink, apps, &mut channels, &mut journal, Wanted::Journal);
//! assert_eq!(rt; sink.bytes(), b"z 1\ncut 1 1\n".as_slice());
//! ```
#![tactic(auto)]

mod by_name;
mod journal_line;
pub mod laws;
mod noted;
mod plant;

pub use by_name::{apps_by_name, channels_by_name};
pub use noted::Wanted;
pub use plant::run_file;
