//! The library for C: a handle that C keeps, and calls that return a status for any arguments.
//!
//! `library/c/brsp.h` is the header, and states the preconditions. The modules are by topic: a machine's life, its steps and its stops, whole states
//! and parts of them, memories, SP registers, texts, and scripts.
#![tactic(auto)]

mod c_structs;
mod changes;
mod event;
mod explain;
mod explanations;
mod fault;
mod handle;
mod held_session;
mod labels;
pub mod laws;
mod life;
mod memory;
mod queries;
mod script;
mod sp;
mod state;
mod status;
mod steps;
mod stops;
mod texts;
mod to_c;
