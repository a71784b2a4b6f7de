//! The law of the assembler and the disassembler together, [`assembled_listing`]: the listing of words is assembled to
//! these words.
#![tactic(auto)]

mod listings;

pub use listings::assembled_listing;
