//! Input and output of all commands, in memory and on `std`: sources and sinks of bytes, texts that are loaded by name,
//! lines, and buffered text. Nothing here knows frames or ends.
//!
//! ```rust
//! use fsoe_io::{Desk, LineReader, LoadFault, MemDesk, SureSource};
//! let mut source = SureSource::new(b"go\nend\n".to_vec(rt.alloc())?);
//! let mut reader = LineReader::new();
//! reader.advance(&mut source)?;
//! reader.advance(&mut source)?;
//! assert_eq!(rt; (reader.lines(), reader.line()), (2, b"end".as_slice()));
//! let mut files = Vec::new(rt.alloc());
//! files.push((String::from_str(rt.alloc(), "plan")?, b"go".to_vec(rt.alloc())?))?;
//! let mut desk = MemDesk::new(files, vec![in rt.alloc(); 3]?); // its third call fails
//! assert_eq!(rt; desk.load("plant", 2).err(), Some(LoadFault::Failed));
//! assert_eq!(rt; desk.load("plan", 2)?.as_slice(), b"go".as_slice());
//! assert_eq!(rt; desk.load("plan", 2).err(), Some(LoadFault::Failed));
//! assert_eq!(rt; desk.load("plan", 1).err(), Some(LoadFault::TooLong));
//! ```
#![tactic(auto)]

mod desk;
mod failed_loads;
mod file_desk;
mod line;
mod line_reader;
mod line_text;
mod memory_desk;
mod memory_sink;
mod memory_source;
mod numeral;
mod output;
mod planned;
mod sink;
mod source;
mod status;
mod streams;
mod words;

pub use desk::{Desk, LoadFault};
pub use file_desk::FileDesk;
pub use line::{Line, LineFault};
pub use line_reader::LineReader;
pub use line_text::LineText;
pub use memory_desk::{MemDesk, SureDesk};
pub use memory_sink::{MemSink, SureSink};
pub use memory_source::{MemSource, SureSource};
pub use output::Output;
pub use sink::{Partial, Sink, put_all};
pub use source::{Failed, Source};
pub use status::{Ended, Status};
pub use streams::{StdSink, StdSource};
pub use words::words_of;
