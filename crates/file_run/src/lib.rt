//! The loop that commands share. It reads the header and the events of an input line by line, and ends the report. A
//! `Format` says how lines are parsed. A `Machine` says what an event does, and what is written of it. `convert` also
//! writes the header's lines. So it has a loop of its own, which calls the functions here.
//!
//! ```rust
//! use file_run::{halt_run, next_line};
//! use fsoe_io::{LineReader, Output, SureSink, SureSource};
//! let mut source = SureSource::new(Vec::new(rt.alloc()));
//! let mut sink = SureSink::new(rt.alloc(), 100)?;
//! if let Err(why) = next_line(&mut LineReader::new(), &mut source) {
//!     halt_run(&mut Output::new(), &mut sink, why);
//! }
//! assert_eq!(rt; sink.bytes(), b"refused 1 End\n".as_slice());
//! ```
#![tactic(auto)]

mod begin;
mod either;
mod event;
mod format;
mod halt;
mod header;
mod line;
mod machine;
mod parts;
mod refusal;
mod report;
mod run;
mod schedule;
mod stop;
mod stopped;
mod waiting;

pub use either::run_either;
pub use format::Format;
pub use halt::Halt;
pub use line::next_line;
pub use machine::Machine;
pub use refusal::Refusal;
pub use report::{ended_with, push_other, write_events};
pub use run::run_over;
pub use schedule::{Grammar, Schedule};
pub use stop::{close, halt as halt_run, send_before_read, write_failed, write_report};
pub use stopped::Stopped;
pub use waiting::{MOST_TEXT, Waiting};
