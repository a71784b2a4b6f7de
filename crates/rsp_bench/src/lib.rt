//! Answering a script: commands to replies.
//!
//! [`run_bench`] answers a whole script over an image of the RDRAM. Its contract is the main theorem: the replies are those that
//! the definitions of the machine and of the commands give. [`MachineRunner`] calls it for crates that don't use this one. A
//! [`Session`] answers one command at a time; [`laws`] has what holds of all sessions and scripts.
#![tactic(auto)]

mod commands;
mod faults;
pub mod laws;
mod looks;
mod replies;
mod run;
mod runner;
mod session;
mod vector_looks;
mod words;

pub use rsp_commands::{Command, LineFault, Look, SourceLine, parse_line};
pub use rsp_script_io::{EndFault, FromRead, MemSink, MemSource, Reply, Sink, Source, ToWrite};
pub use run::{BenchEnd, run_bench};
pub use runner::MachineRunner;
pub use session::Session;
