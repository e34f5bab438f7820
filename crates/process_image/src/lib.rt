//! Masters and slaves whose frames are at fixed places (slots) of a cyclic process image, which a fieldbus copies in
//! and out at each of its cycles. A new frame is recognized only by a change of its bytes: `sample` delivers a slot's
//! contents if and only if they differ from the sample before. The first sample compares with zeros. The program writes
//! what came, calls `sample`, and passes on the output image:
//!
//! ```text
//! let mut images = Images::new(size_in, size_out, slots)?;
//! loop {
//!     images.write(0, &cycle.input());          // or only the slots that came whole
//!     images.sample(&mut dids);                 // for each end whose slot has changed, what it did
//!     cycle.give(images.out());                 // returns when the fieldbus has copied it
//!     if clock.ticked() {
//!         images.tick(&mut told);
//!         cycle.give(images.out());
//!     }
//! }
//! ```
//!
//! It is for trials of what changes in an image. A device that calls an end itself delivers the bytes of its slot in
//! each cycle, changed or not: an end drops the frame that it took last, and so nothing waits for a change. `sample`
//! has consequences that the program has to know:
//!
//! - Two equal frames one after the other are seen as one. A slave's Reset frame after a local reset has the same bytes
//!   as its answer to the master's Reset(0). So the master doesn't see that answer. The master waits for ever: its next
//!   Reset frames have the same bytes as its last one, so the slave doesn't see them either. Write other bytes into the
//!   master's slot, call `sample`, and write the answer again.
//! - Zeros are a frame, too, if the slot had other bytes at the sample before. A bus that fills its image with zeros
//!   ends each session.
//! - Bytes of the input image that are overwritten before they were sampled are lost. A frame in the output image is
//!   lost, too, if its end sends the next one before the image was passed on. Pass it on after each sample and each
//!   tick.
//! - If only a part of a frame was written before the sample, the end reads the bytes that are there as another frame.
//!   That ends the session, unless the end is in state Reset or the bytes happen to pass all tests.
//!
//! ```rust
//! use fsoe_base::Lengths;
//! use param_load::{AppRule, SlaveSettings};
//! use process_image::{Core, Images, Slot};
//! let core = Core::new_slave(SlaveSettings::new(Lengths::new(2, 2)?, 2, 200, 1000, AppRule::Any(0), 2)?);
//! let mut images = Images::new(7, 7, vec![in rt.alloc(); Slot { at_in: 0, at_out: 0, core }]?)?;
//! images.write(0, &[0x4E, 0x01, 0x00, 0x12, 0x3E, 0x00, 0x00]);
//! images.sample(&mut [None]);
//! assert_eq!(rt; images.out(), [0x4E, 0x02, 0x00, 0x90, 0x47, 0x00, 0x00].as_slice());
//! ```
#![tactic(auto)]

mod event_run;
mod images;
pub mod laws;
mod making;
mod run;
mod seat;
mod told_lines;

pub use end_core::Core;
pub use image_file::{ImageEvent, ImageHeader, ImageLine, MOST_WRITTEN, Slot, SlotFault};
pub use images::Images;
pub use run::run_image;
