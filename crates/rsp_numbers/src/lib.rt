//! Numbers of 16, 32 and 48 bits: signed values, the high, middle and low parts of an accumulator, and the clamp to 16
//! bits.
//!
//! The definitions are in `specs/Numbers.antt`, for the contracts of all crates; `laws` proves what characterizes them.
//! Of code there is only [`sign_extend`], which scalar instructions and moves share.
//!
//! `specs/Roots.antt` defines the roots of the root table, and `proofs/Roots.antt` proves that there is one for each
//! index. They are here since the definition of a table entry names that proof, which has to be in a crate below.
//!
//! It is a crate since an `impl Model` may cite lemmas of other crates only.
#![tactic(auto)]

pub mod laws;
mod sign;

pub use sign::sign_extend;
