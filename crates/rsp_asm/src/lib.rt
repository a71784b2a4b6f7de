//! The assembler: from a source text to its words, or to the fault of the lowest line that has one.
//!
//! [`assemble`] makes two passes over the lines. The first finds the address of each label and each fault that needs no label,
//! the second writes the words. Each pass reads a line anew, so labels and words alone are stored. The meaning of a text is the
//! definition `meaning_of_text` of `rsp_syntax/specs/SourceText.antt`.
#![tactic(auto)]

mod assembler;
mod block;
mod check;
mod explanation;
mod labels;
pub mod laws;
mod line;
mod numbers;
mod operand_faults;
mod operands;
mod push;
mod row;
mod statement;
mod text_faults;
mod words;

pub use assembler::assemble;
pub use block::{Block, BlockFault};
pub use explanation::{Bounds, Expected, FaultyOperand, explain, operand_text, statement_name};
pub use labels::{Label, labels_of};
pub use line::{LineLayout, read_line};
pub use operand_faults::{OperandFault, operand_fault};
pub use rsp_syntax::{AsmFault, AsmFaultKind};
pub use text_faults::{TextFaults, faults_of};
pub use words::Words;
