//! The syntax of the assembler: lines, numbers, expressions, and the names of registers and instructions.
//!
//! The functions here read one piece of a text each. Assembler, disassembler and the readers of scripts share them.
//!
//! The definitions in `specs` are the whole syntax. Which words a source text assembles to, or at which line it is refused and
//! why, is in `rsp_syntax/specs/SourceText.antt`; how a word is disassembled in `rsp_syntax/specs/Disassembly.antt`. No function of this crate
//! does either as a whole.
#![tactic(auto)]

mod expression;
mod fault;
mod hex;
mod line_bytes;
mod name_bytes;
mod names;
mod numbers;
mod operand_range;
mod table;

pub use expression::{Expression, is_label, read_expression};
pub use fault::{AsmFault, AsmFaultKind};
pub use hex::hex_digit;
pub use line_bytes::{
    Boundary, MAX_LINE_LEN, cut, has_line_bytes, is_line, is_same, len_before, len_before_blank,
    skip_blanks, trim, without_return,
};
pub use names::{
    read_control, read_element, read_scalar, read_sp_register, read_vector, small_number,
};
pub use numbers::read_unsigned;
pub use operand_range::OperandRange;
pub use table::{find_row, select_row};
