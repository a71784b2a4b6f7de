// What helps with a text of another assembler. Each function returns an empty text if there is nothing to say.

use crate::commands::command_named;
use crate::fits::{is_label, number_of};
use crate::names::is_same;
use crate::nearest::is_instruction;
use rsp_decode::Operand;

const COLON: &str = "the colon follows the label directly";

const COMMAS: &str = "write a comma between operands";

const COMMENT: &str = "a comment begins with # or ;";

const COMMAND: &str =
    "this is a command of scripts: in a script, write end before it, which closes the block";

const DOLLAR: &str = "a register begins with $, as $8";

const ELEMENT: &str =
    "leave out what follows the dot of the name; an element follows a register, as $v3[0]";

const HALT: &str = "break halts the RSP; in a script, end closes the block";

const LABEL: &str = "a label has letters, digits and _, no digit first, and at most 32 bytes";

const LINE: &str = "a line has at most 256 bytes, each a tab or 20 to 7e hexadecimal";

/// What helps with a name that the linker of another assembler makes a number.
const LINKED: &str =
    "write the address in DMEM as a number; to use a name, assemble by Python's rsp.assemble(text, symbols=..) or by make_elf.py TEXT ELF DATA";

const MEMORY: &str = "write a number, a label, or a label + or - a number, and ($r) after it";

/// What helps with a byte-order mark.
pub const NO_MARK: &str = "save the file without a byte-order mark";

const ITSELF: &str =
    "write the number or the register itself, or let a preprocessor such as m4 replace the name";

const ONE_LABEL: &str = "write one label a line";

const REGISTERS: &str =
    "write each operand, here a register; addiu, andi, ori and xori take a number last";

const SUM: &str = "write a number, a label, or a label + or - a number";

/// What helps with another assembler's comment; empty if the text has none.
pub fn of_comment(text: &str) -> &'static str {
    if text.contains("//") || text.contains("/*") {
        COMMENT
    } else {
        ""
    }
}

/// What helps where the name of a statement is unknown, and none of another assembler's. `operand` is its first operand.
pub fn of_name(name: &str, operand: &str) -> &'static str {
    let comment = of_comment(name);
    if !comment.is_empty() {
        comment
    } else if name.ends_with(':') {
        ONE_LABEL
    } else if name.starts_with("emux_") || name.starts_with("assert") {
        "leave the line out"
    } else if operand.starts_with("equ ") || operand.starts_with('=') {
        ITSELF
    } else if has_element(name) {
        ELEMENT
    } else if is_same(name, "quit") || is_same(name, "exit") {
        HALT
    } else if command_named(name).is_some() {
        COMMAND
    } else {
        ""
    }
}

/// Whether a name is that of a vector instruction with an element after it, as `vadd.e`.
fn has_element(name: &str) -> bool {
    match name.split_once('.') {
        Some((instruction, _)) => { instruction.starts_with('v') && is_instruction(instruction) }
        None => false,
    }
}

/// Whether a text has a label, and a blank before its colon.
fn has_apart_colon(line: &str) -> bool {
    match line.split_once(':') {
        Some((label, _)) => label.ends_with([' ', '\t']) && is_label(label.trim()),
        None => false,
    }
}

/// What helps with a line that is none.
pub fn of_line(line: &str) -> &'static str {
    if line.starts_with('\u{feff}') {
        NO_MARK
    } else if line.len() > 256 || !line.bytes().all(|byte| matches!(byte, b'\t' | b' '..=b'~')) {
        LINE
    } else {
        match of_comment(line) {
            "" if has_apart_colon(line) => COLON,
            "" => LABEL,
            comment => comment,
        }
    }
}

/// What helps with an operand of this kind that can't be read.
pub fn of_operand(kind: Operand, text: &str) -> &'static str {
    let comment = of_comment(text);
    if !comment.is_empty() {
        return comment;
    }
    if text.contains("%lo(") || text.contains("%hi(") {
        return LINKED;
    }
    match kind {
        Operand::Scalar(_) if lacks_comma(text) => COMMAS,
        Operand::Scalar(_) if matches!(number_of(text), Some(0..=31)) => DOLLAR,
        Operand::Scalar(_) => REGISTERS,
        Operand::ShiftAmount | Operand::Signed | Operand::Unsigned => SUM,
        Operand::JumpTarget | Operand::BranchTarget => of_target(text),
        Operand::ScalarMemory | Operand::VectorMemory(_) => MEMORY,
        _ if lacks_comma(text) => COMMAS,
        _ => "",
    }
}

/// Whether a text is a register, and another operand after a blank.
pub fn lacks_comma(text: &str) -> bool {
    match text.split_once([' ', '\t']) {
        Some((register, rest)) => {
            let starts = matches!(
                rest.trim().as_bytes(),
                [b'$' | b'-' | b'_' | b'0'..=b'9' | b'a'..=b'z' | b'A'..=b'Z', ..]
            );
            starts && register.starts_with(['$', 'v'])
        }
        None => false,
    }
}

/// The target of a jump or a branch: labels that begin with a digit, a dot or @ are none here.
fn of_target(text: &str) -> &'static str {
    match text.as_bytes() {
        [b'0'..=b'9', b'b' | b'f'] | [b'.' | b'@', ..] => LABEL,
        _ => SUM,
    }
}

/// The operands of `vsar` in place of a part of the accumulator.
pub fn of_accumulator(text: &str) -> &'static str {
    match text.strip_prefix("COP2_ACC_") {
        Some("HI") => "$v0, $v0[0]",
        Some("MD") => "$v0, $v0[1]",
        Some("LO") => "$v0, $v0[2]",
        _ => "",
    }
}
