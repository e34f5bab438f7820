//! Reads the configuration of a plant from TOML text. A plant is many connections with both ends, an application and a
//! channel. The result has the connections, the net of function blocks, the bounds that are watched, and the names of
//! the application and of the channel. If the text has faults, the result is the first of them, with its key if it has
//! one.
//!
//! ```rust
//! use plant_conf::read_conf;
//! let text = b"plant = { app = 'zeros', channel = 'perfect' }
//!     connection = [{ id = 1, address = 11, watchdog = 5, master_length = 2, slave_length = 2 }]";
//! let conf = read_conf(rt.alloc(), text)?;
//! assert_eq!(rt; conf.channel(), "perfect");
//! assert_eq!(rt; conf.links()[0].slave.hand(), 5);
//! ```
#![tactic(auto)]

mod arrays;
mod conf;
mod fault;
mod forms;
mod key;
mod read;
mod tables;
mod words;

pub use conf::{BoundSpec, LinkConf, PlantConf};
pub use fault::ConfFault;
pub use key::{Key, KeyName, KeyTable};
pub use read::read_conf;
