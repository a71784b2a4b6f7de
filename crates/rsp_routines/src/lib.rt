//! Routines of microcode, each with a theorem about all inputs that meet its premises: those to paste, with their texts
//! in the folder `microcode`, and models for authors of theorems.
//!
//! A routine is a module whose `words` returns its words. The contract says which text they are assembled from, and
//! what steps over them do, from every state that meets the preconditions. A routine for any number of bytes stores whole
//! vectors, because masking the stores would cost instructions in every round.
#![tactic(auto)]

pub mod add_buffers;
pub mod add_lanes;
pub mod blocks;
pub mod clip;
pub mod copy;
pub mod dot;
pub mod dot_buffers;
pub mod fetch_row;
pub mod fill;
pub mod filter;
pub mod find_zero;
pub mod mix;
pub mod mix_buffers;
pub mod mix_lanes;
pub mod mix_ramp;
pub mod multiply;
pub mod reciprocal;
pub mod resample;
pub mod root;
mod running;
pub mod transform;
pub mod transform_fixed;

pub use running::{ready_to_multiply, run_multiply};
