//! How much a controller is to have room for.

/// The most connections, blocks and drives that a controller has room for.
#[repr(C)]
#[derive(Drop)]
pub struct GpMost {
    pub connections: u16,
    pub blocks: u16,
    pub drives: u16,
}
