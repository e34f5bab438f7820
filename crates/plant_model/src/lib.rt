//! A plant is many connections, an application and a channel. What it does is defined here, as a function of its past
//! acts and of its journal. Its acts are its start, the lines of its script, and the pulls from its channel.
//! `plant_core` is proved to do the same. There is no code to run here. `specs` has the definitions, `src` the types of
//! events and of steps. The laws say what follows from the definitions, in all plants and in examples.
#![tactic(auto)]

pub mod act_laws;
mod event;
mod journal;
pub mod laws;

pub use event::{PlantEvent, PlantLine};
pub use journal::JournalStep;
