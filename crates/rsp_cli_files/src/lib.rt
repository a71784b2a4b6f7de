//! The files of the program `rsp`, read and saved whole, and the work of `asm` and `dis`, which is from file to file or stream.
//!
//! It is apart from `rsp_cli` since it doesn't wait for the machine.
#![tactic(auto)]

mod assemble;
mod beside;
mod cause;
mod dis;
mod fault;
mod files;
mod listing;
mod origin;
mod overwriting;
mod same;
mod save;
mod target;

pub use assemble::assemble_file;
pub use cause::Cause;
pub use dis::disassemble_file;
pub use fault::{Fault, FileLength, Overwritten, Position};
pub use files::{FileFault, FileStore, SystemFiles, Terminals, read_file, write_file};
pub use origin::origin_of;
pub use overwriting::refuse_overwriting;
