//! Operands of a statement: what their text means, whether a number is in its range, and their fields in a word.
//!
//! An assembler calls this crate in both of its passes: `is_out_of_range` in the first, when not all labels are known, and
//! `put_operand` in the second. Each reads the operand's text anew, so nothing has to be stored between the passes.
//!
//! It is apart since the check of `rsp_asm` would take twice as long with it.
#![tactic(auto)]

mod fields;
mod labels;
mod numbers;
mod operand_value;
mod operands;
mod ranges;
mod values;

pub use labels::Labels;
pub use numbers::{is_number_out_of_range, number_word};
pub use operands::{is_out_of_range, put_operand};
