//! FSoE master and slave as a library for C, in the caller's memory; nothing here allocates. A handle says where the
//! memory of an end is, and whether an end is in it. A function takes a handle and returns a number (`enum gp_answer`):
//! `GP_OK`, or why it refused. Only the functions for the version, and for size and alignment of that memory, take no
//! handle. A refused call changes nothing. `embed/gatepast.h` declares the functions, and says what their callers must
//! do.
#![tactic(auto)]

mod ids;
mod lent;
pub mod master;
mod master_place;
mod master_room;
pub mod master_shown;
pub mod names;
pub mod slave;
mod slave_place;
mod slave_room;
pub mod slave_shown;
pub mod version;
