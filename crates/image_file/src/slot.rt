//! What a slot is made of.

use end_core::Core;

/// One end, and where its frames lie: those that come to it in the input image, those that it sends in the output
/// image. Both count from 0.
#[derive(Drop)]
pub struct Slot {
    /// Where a frame that comes to the end begins in the input image.
    pub at_in: u16,
    /// Where a frame that the end sends begins in the output image.
    pub at_out: u16,
    /// The end.
    pub core: Core,
}
