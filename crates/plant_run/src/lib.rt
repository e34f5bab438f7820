//! Runs a plant over its script, for the command `plant`. `run_plant` reads the lines of a source, executes each with a
//! plant, and writes its report to a sink. It watches the bounds of the configuration, and writes a line for each.
//!
//! ```rust
//! use fb_net::{KindOf, Zeros};
//! use fsoe_io::{SureSink, SureSource};
//! use plant_run::{Journal, run_plant};
//! let text = b"plant = { app = 'zeros', channel = 'perfect' }
//!     connection = [{ id = 1, address = 11, watchdog = 5, master_length = 2, slave_length = 2 }]";
//! let conf = plant_conf::read_conf(rt.alloc(), text)?;
//! let mut channel = black_channel::PerfectChannel::new(rt.alloc())?;
//! let mut script = SureSource::new(b"fsoe 1 plant\nt\nend\n".to_vec(rt.alloc())?);
//! let mut sink = SureSink::new(rt.alloc(), 100)?;
//! let (app, spare, mut journal) = (KindOf::Handed(Zeros), Vec::new(rt.alloc()), Journal::new(rt.alloc()));
//! run_plant(rt.alloc(), &conf, app, &mut channel, spare, &mut script, &mut sink, &mut journal);
//! assert_eq!(rt; sink.bytes(), b"tick 1\n1 Data 0000 Data 0000\nticks 1\nother none\n".as_slice());
//! ```
#![tactic(auto)]

pub mod laws;
mod machine;
mod run;
mod script;
mod script_line;
mod watching;

pub use machine::MAX_SCRIPT;
pub use plant_core::{Journal, Plant};
pub use plant_model::{JournalStep, PlantEvent, PlantLine};
pub use run::run_plant;
pub use script_line::read_plant_event;
