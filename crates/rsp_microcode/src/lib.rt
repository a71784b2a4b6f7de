//! Laws of runs of microcode, with which theorems about routines are proved.
#![tactic(auto)]

pub mod laws;
