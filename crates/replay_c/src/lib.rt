//! The command `replay` for a pair file as a function for C. It reads a text in memory and writes the report into
//! memory of the caller. It allocates nothing and keeps nothing. Another function writes what the archive was made
//! of. `embed/replay.h` declares both, and says what their callers must do.
#![tactic(auto)]

pub mod build;
pub mod replay;
mod room;
mod text;
mod was;
