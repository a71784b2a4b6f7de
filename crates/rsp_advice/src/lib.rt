//! What `--explain` says in words: what may be in the place of an operand, what to write in place of a text of another assembler, the
//! forms of the commands of scripts, and what helps after a fault.
//!
//! It knows the kinds of operands and no source text, so it is proved beside the assembler and not after it.
#![tactic(auto)]

mod advice;
mod allowed;
mod commands;
mod fits;
mod names;
mod nearest;
mod readings;
mod spelling;
mod statements;
mod tables;
mod visible;

pub use advice::{NO_MARK, lacks_comma, of_accumulator, of_comment, of_line, of_name, of_operand};
pub use allowed::form_of;
pub use commands::{
    CommandForm, FaultText, command_forms, command_named, fault_numbered, of_number, of_words,
};
pub use fits::{Filled, Operands};
pub use nearest::{is_instruction, nearest_command, nearest_statement};
pub use readings::{
    Apart, Lanes, Moved, Readings, Shortened, of_apart, of_extra, of_lanes, of_moved, of_shortened,
};
pub use spelling::{Spelling, respelled, respelled_in_range, respelled_label, sp_number};
pub use statements::{Statement, is_other, of_other, of_reshaped};
pub use visible::{Label, Labelled, Visible};
