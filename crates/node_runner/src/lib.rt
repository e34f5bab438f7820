//! Runs one FSoE master or slave over a node file, for the command `node`. After the header, each line up to `end` is
//! an event, and gives a line of the report. It needs no bus and no clock: ticks are lines too.
//!
//! ```rust
//! use fsoe_base::End;
//! use fsoe_io::{SureSink, SureSource};
//! use node_runner::run_node;
//! let text = b"fsoe 1 node slave\nlengths 2 2\nslave 2 200 1000 2\nrule any 0\ngo\nd 4e0100123e0000\nend\n";
//! let mut source = SureSource::new(text.to_vec(rt.alloc())?);
//! let mut sink = SureSink::new(rt.alloc(), 100)?;
//! run_node(End::Slave, &mut source, &mut sink);
//! assert_eq!(rt; sink.bytes(), b"1 took Session Session 0000 > 4e020090470000\nevents 1\n".as_slice());
//! ```
#![tactic(auto)]

pub mod laws;
mod node;
mod run;

pub use run::run_node;
