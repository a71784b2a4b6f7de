//! Commands: what a line of a script asks the emulator to do.
//!
//! [`parse_line`] turns a line into a [`Command`], or into a [`LineFault`]. The table of all commands, by name, is in `parse.rt`.
//! Nothing here knows a machine: `rsp_bench` carries the commands out.
#![tactic(auto)]

mod command;
mod fault;
mod line;
mod operands;
mod parse;
mod source_line;

pub use command::{Command, Look};
pub use fault::LineFault;
pub use line::parse_line;
pub use operands::instruction_address;
pub use source_line::SourceLine;
