//! The definition of what one end (master or slave) does: a function of the list of its past steps (deeds).
//! `slave_core` and `master_core` are proved to do the same. There is no code to run here. `specs` has the definitions.
//! The laws say what follows from the definitions, in all runs and in examples.
#![tactic(auto)]

pub mod laws;
pub mod session_laws;
