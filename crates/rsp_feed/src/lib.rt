//! Answering a script that comes in pieces of any size.
//!
//! A [`Bench`] is given the bytes of a script by calls, and replies to each line when it has ended. [`laws`] has the theorem: however
//! the bytes are cut, the replies are those that [`rsp_bench::run_bench`] writes for the whole script. [`run_pieces`] makes the calls
//! for a script in memory.
#![tactic(auto)]

mod bench;
pub mod laws;
mod pieces;

pub use bench::{Bench, BenchFault, Stage};
pub use pieces::run_pieces;
