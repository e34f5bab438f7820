//! Parses the lines of node files, pair files and files of several pairs: the header with the settings, and then the
//! events. A refused line has one cause. A `Maker` makes a schedule from a number. Only `PairsHeader` allocates.
//!
//! ```rust
//! use fsoe_base::End;
//! use schedule_file::{Header, HeaderKind};
//! let mut header = Header::new(HeaderKind::Node(End::Slave));
//! for line in ["fsoe 1 node slave", "lengths 2 2", "slave 2 200 1000 2", "rule any 0"] {
//!     header.line(line.as_bytes())?;
//! }
//! assert_eq!(rt; header.line(b"go"), Ok(true));
//! assert_eq!(rt; header.slave().most(), 1000);
//! ```
#![tactic(auto)]

mod event;
mod event_line;
mod event_text;
mod field;
mod header;
mod header_kind;
mod header_line;
mod header_part;
mod hex_digits;
pub mod laws;
mod line_buf;
mod line_cause;
mod maker;
mod node_event;
mod pair_event;
mod pairs_ends;
mod pairs_event;
mod pairs_header;
mod pairs_line;
mod place;

pub use event::{Event, MAX_BACK, MAX_EVENTS, ScheduleLine};
pub use event_line::read_switch;
pub use event_text::{end_letter, write_event};
pub use field::{
    HexBytes, MAX_HEX, bytes_field, cut, find_word, next_field, no_field, number_16, number_32,
    one_field, read_bytes, read_number,
};
pub use header::Header;
pub use header_kind::HeaderKind;
pub use header_line::{LengthsLine, read_lengths};
pub use line_buf::{LineBuf, MAX_LINE};
pub use line_cause::LineCause;
pub use maker::Maker;
pub use node_event::{read_node_event, read_node_event_into};
pub use pair_event::{profile_of, read_event, read_event_into};
pub use pairs_ends::PairsEnds;
pub use pairs_event::{read_pairs_event, read_pairs_event_into};
pub use pairs_header::{MOST_PAIRS, PairsHeader};
pub use pairs_line::{PairsEvent, PairsLine, PairsSaid};
