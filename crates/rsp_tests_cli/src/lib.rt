//! Tests of the work of the program `rsp`, over fake files and streams. They are in a crate of their own since a crate with tests is
//! proved twice.
#![tactic(auto)]

#[cfg(test)]
mod program;
