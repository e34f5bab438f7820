//! An allocator over memory that a program hands in, for collections that one thread uses. It only gives: a block that
//! was given out never comes back, and a request for which no room is left is refused, as is each one once it is closed.
//! So it needs no heap, and firmware can say at which address its collections lie.
#![tactic(auto)]

mod allocator;
mod memory;

pub use allocator::Region;
pub use memory::Memory;
