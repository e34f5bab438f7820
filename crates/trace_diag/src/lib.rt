//! Judges a recorded trace of one connection in profile One, for the command `diagnose`. The trace conforms if two ends
//! of this profile would send exactly these frames, with no loss and no reset. Else the verdict names the first frame
//! that differs, and the field. The judge sees only the frames, and runs no end.
//!
//! ```rust
//! use fsoe_base::{End, Lengths};
//! use trace_diag::{Field, Trace, Verdict};
//! let mut trace = Trace::new(Lengths::new(2, 2)?);
//! trace.note(End::Master, &[0x2A, 0x00, 0x00, 0xC4, 0x2D, 0x00, 0x00]);
//! trace.note(End::Slave, &[0x2A, 0x00, 0x00, 0xC4, 0x2D, 0x00, 0x00]);
//! trace.note(End::Master, &[0x4E, 0x01, 0x00, 0x12, 0x3F, 0x00, 0x00]);
//! assert_eq!(rt; trace.verdict(), Verdict::Differs { frame: 3, field: Field::Crc(0) });
//! ```
#![tactic(auto)]

mod diagnosis;
mod difference;
mod field;
mod format;
mod header;
mod known;
pub mod laws;
mod noted;
mod report;
mod rows;
mod run;
mod trace;
mod trace_line;
mod verdict;

pub use difference::Difference;
pub use field::Field;
pub use format::TraceFormat;
pub use header::{Stage, TraceHeader};
pub use noted::Noted;
pub use run::run_diagnose;
pub use trace::Trace;
pub use trace_line::TraceLine;
pub use verdict::{ReadOff, Verdict};
