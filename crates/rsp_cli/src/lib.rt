//! The work of the program `rsp`: it does what the command line requests, with files and streams, and reports messages and an exit
//! status. [`work`] is generic over all files and streams, so that tests give it fakes and need no program, and over what answers a
//! script, so that it is proved beside the machine.
//!
//! It is apart from `rsp_main` since its tests are a crate above it, and a crate of tests can't use a program.
#![tactic(auto)]

mod explaining;
mod faults;
mod greeting;
mod inputs;
mod program;
mod run;
mod save;
mod status;
mod watch;
mod wrapped;

pub use program::{refuse_arguments, work};
pub use rsp_cli_files::{FileFault, FileStore, SystemFiles, Terminals};
pub use run::{Ended, run_request};
pub use status::Status;
