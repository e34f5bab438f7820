//! Function blocks of a safety application. `fb_net` makes nets of connected blocks. Each block is stepped once per
//! cycle with its inputs, and gives one output. A block has no clock: `step` is told whether the cycle counts as one
//! unit of time.
//!
//! ```rust
//! use fb_lib::{Block, BlockKind};
//! let mut stop = Block::new(BlockKind::Estop, 0);
//! assert!(rt; !stop.step(true, &[true, false]));
//! assert!(rt; stop.step(true, &[true, true]));
//! ```
#![tactic(auto)]

mod block;
mod delays;
mod estop;
mod feedback;
mod held;
mod kind;
mod latch;
pub mod laws;
mod two_hand;

pub use block::Block;
pub use kind::{BlockKind, MOST_INPUTS};
