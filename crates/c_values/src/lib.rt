//! What C code reads and writes: settings, frames, what a step did, terms, and the numbers that stand for words. The
//! static libraries `fsoe_c` and `controller_c` hand these over.
#![tactic(auto)]

pub mod laws;
pub mod numbers;
pub mod settings;
pub mod told;
