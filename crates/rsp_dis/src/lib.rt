//! The disassembler: each word has one canonical text, and that assembles back to the word.
//!
//! [`text_of`] finds the word's instruction in the instruction table, and writes its name and its operands. What it writes is the
//! definition `disassembly` of `rsp_syntax/specs/Disassembly.antt`.
//!
//! [`Targets`] are the addresses of words that their jumps and branches lead to. With a label at each, as [`label_of`] names it,
//! the words are disassembled by [`labelled_text_of`]: the definition is `labelled_listing` of `specs/Labels.antt`.
#![tactic(auto)]

pub mod laws;
mod line;
mod numbers;
mod operand;
mod targets;
mod text;

pub use line::Line;
pub use targets::Targets;
pub use text::{label_of, labelled_text_of, text_of};
