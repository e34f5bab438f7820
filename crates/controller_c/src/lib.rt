//! A controller for C, in the program's memory: FSoE masters of up to 64 connections, and a net of function blocks that
//! decides what they send. A handle says where the controller's memory is, and whether a controller is in it. A function
//! takes a handle and returns a number: `GP_OK`, or why it refused. A refused call changes nothing. What a controller
//! lists lies in a region that the program hands in when it opens the controller: no function calls a heap.
//! `embed/gatepast_controller.h` declares the functions, and says what their callers must do.
#![tactic(auto)]

pub mod controller;
mod controller_place;
mod controller_room;
pub mod counts;
pub mod laws;
mod lent;
pub mod most;
pub mod numbers;
pub mod plan;
pub mod shown;
pub mod start;
pub mod steps;
pub mod wire;
