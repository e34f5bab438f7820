//! Parses the lines of a file of images: the header, which says where the frames of masters and slaves lie in a cyclic
//! process image, and then the events. Slots that don't fit their images or share a byte of one are refused. A refused
//! line has one cause.
//!
//! ```rust
//! use image_file::ImageHeader;
//! let mut header = ImageHeader::new(rt.alloc())?;
//! for line in ["fsoe 1 image", "size 7 7", "slot 1 0 0", "lengths 2 2", "slave 2 200 1000 2", "rule any 0"] {
//!     header.line(line.as_bytes())?;
//! }
//! assert_eq!(rt; header.line(b"go"), Ok(true));
//! assert_eq!(rt; header.sizes(), (7, 7));
//! ```
#![tactic(auto)]

mod event;
mod event_line;
mod fault;
mod format;
mod header;
pub mod laws;
mod said;
mod slot;
mod spans;

pub use event::{ImageEvent, ImageLine, MOST_EVENTS, MOST_WRITTEN};
pub use fault::SlotFault;
pub use format::ImageFormat;
pub use header::ImageHeader;
pub use slot::Slot;
pub use spans::{MOST_SLOTS, first_fault};
