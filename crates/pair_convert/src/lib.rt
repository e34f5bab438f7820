//! Writes a pair file as a file of several pairs, of which it is the only one, for the command `convert`. It runs
//! neither end. Both files are proved to say the same.
//!
//! ```rust
//! use fsoe_io::{SureSink, SureSource};
//! use pair_convert::run_convert;
//! let text = b"fsoe 1 pair\nlengths 2 2\nmaster 1 2 100 1\nslave 2 200 1000 2\nrule any 0\ngo\ntm\nend\n";
//! let mut source = SureSource::new(text.to_vec(rt.alloc())?);
//! let mut sink = SureSink::new(rt.alloc(), 200)?;
//! run_convert(&mut source, &mut sink);
//! assert_eq!(rt; sink.bytes().ends_with(b"rule any 0\ngo\n1 tm\nend\n"), true);
//! ```
#![tactic(auto)]

mod convert;
pub mod laws;

pub use convert::run_convert;
