//! The numbers by which only a controller answers. `embed/gatepast_controller.h` has them as `GP_NO_MEMORY` and so on.

/// The region has no room. No other refusal applies.
pub const NO_MEMORY: u8 = 20;

/// The controller runs already.
pub const RUNNING: u8 = 21;

/// This call wants a controller that runs.
pub const NOT_RUNNING: u8 = 22;

/// No connection has this number.
pub const NO_CONNECTION: u8 = 23;

/// There would be more than 64 connections, 256 blocks, 1024 drives, or 8 inputs of a block.
pub const TOO_MANY: u8 = 24;

/// Another connection has this connection id.
pub const SAME_CONN: u8 = 25;

/// No kind of block has this number.
pub const BAD_KIND: u8 = 26;

/// No block has this number.
pub const NO_BLOCK: u8 = 27;

/// A block of this kind may not have so many inputs.
pub const ARITY: u8 = 28;

/// A wire reads its own block, a later one, or one that doesn't exist.
pub const LATER: u8 = 29;

/// A wire reads an input bit that no connection has, or a call names one.
pub const NO_INPUT: u8 = 30;

/// A drive sets an output bit that no connection has, or a call names one.
pub const NO_OUTPUT: u8 = 31;

/// Two drives set this bit.
pub const TWICE: u8 = 32;
