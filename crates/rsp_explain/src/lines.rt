// What is said of a line that has a fault.

use crate::allowed::{Allowed, kind_of};
use rsp_advice::{
    Label, Labelled, Operands, Visible, is_instruction, lacks_comma, nearest_statement,
    of_accumulator, of_apart, of_comment, of_extra, of_lanes, of_line, of_moved, of_name,
    of_operand, of_other, of_reshaped, of_shortened, respelled, respelled_in_range,
    respelled_label,
};
use rsp_asm::{
    AsmFaultKind, Expected, FaultyOperand, OperandFault, operand_fault, operand_text,
    statement_name,
};
use rsp_decode::Operand;
use std::alloc::{AllocError, Global};
use std::fmt::Display;
use std::str;

/// More operands than a line of 256 bytes has.
const OPERANDS: usize = 260;

const PAST_END: &str =
    "the last word of IMEM is at 4092: shorten the text, or begin at a lower address";

/// What `--explain` says of a line that the first pass refuses: its text, and what is wrong in it. For an operand that is its number,
/// its text, and what may be there, each time; for a statement whose name is unknown, the name. Then what to write or what helps, where
/// the text is one of another assembler.
pub(crate) fn refused_line(
    alloc: Global,
    line: &str,
    fault: AsmFaultKind,
) -> Result<String, AllocError> {
    let mut said = line_text(alloc, line)?;
    let reason = match fault {
        AsmFaultKind::BadOperand | AsmFaultKind::OutOfRange => operand_reasons(alloc, line)?,
        _ => statement_reason(alloc, line, fault)?,
    };
    said.push_str(reason.as_str())?;
    Ok(said)
}

/// The same of a line that the second pass refuses, for this operand.
pub(crate) fn refused_operand(
    alloc: Global,
    line: &str,
    faulty: FaultyOperand,
    fault: AsmFaultKind,
) -> Result<String, AllocError> {
    let mut said = line_text(alloc, line)?;
    let reason = operand_reason(alloc, line, faulty, fault, "")?;
    said.push_str(reason.as_str())?;
    Ok(said)
}

/// The text of a line.
pub(crate) fn line_text(alloc: Global, line: &str) -> Result<String, AllocError> {
    let shown = Visible(line.trim());
    format!(in alloc; "\n  | {shown}")
}

/// The operand of a line with this number, from 1. None if the line has fewer.
fn found_operand(line: &str, number: usize) -> Option<&str> {
    let text = operand_text(line.as_bytes(), number.saturating_sub(1))?;
    Some(str::from_utf8(text).unwrap_or(""))
}

/// The same, empty if the line has fewer.
fn operand(line: &str, number: usize) -> &str {
    found_operand(line, number).unwrap_or("")
}

/// The name of a line's statement.
fn name_of(line: &str) -> &str {
    str::from_utf8(statement_name(line.as_bytes())).unwrap_or("")
}

/// The operands of a line's statement.
fn operands_of(line: &str) -> Operands<'_> {
    let mut count = 0;
    for index in 0..OPERANDS {
        if operand_text(line.as_bytes(), index).is_none() {
            break;
        }
        count = index + 1;
    }
    Operands {
        first: [
            operand(line, 1),
            operand(line, 2),
            operand(line, 3),
            operand(line, 4),
        ],
        count,
    }
}

/// The name of a statement that is unknown, and what to write in its place; what helps with a line that is none.
fn statement_reason(alloc: Global, line: &str, fault: AsmFaultKind) -> Result<String, AllocError> {
    match fault {
        AsmFaultKind::UnknownName => {
            let name = Visible(name_of(line));
            let (label, text) = meant(alloc, line)?;
            let advice = Labelled(label, text.as_str());
            format!(in alloc; "\n  name: {name}{advice}")
        }
        AsmFaultKind::BadLine => {
            let advice = Labelled(Label::Help, of_line(line));
            format!(in alloc; "{advice}")
        }
        AsmFaultKind::PastEnd => {
            let advice = Labelled(Label::Help, PAST_END);
            format!(in alloc; "{advice}")
        }
        _ => Ok(String::new(alloc)),
    }
}

/// What to write in place of a statement whose name is unknown: what is known of the name, otherwise the nearest name as a question.
fn meant(alloc: Global, line: &str) -> Result<(Label, String), AllocError> {
    let name = name_of(line);
    if let Some(statement) = of_other(name, &operands_of(line)) {
        return Ok((statement.label(), format!(in alloc; "{statement}")?));
    }
    let known = of_name(name, operand(line, 1));
    if !known.is_empty() {
        return Ok((Label::Help, String::from_str(alloc, known)?));
    }
    let text = match nearest_statement(alloc, name)? {
        Some(nearest) if has_form(alloc, nearest, line)? => asked(alloc, nearest, line)?,
        _ => String::new(alloc),
    };
    Ok((Label::Help, text))
}

/// The question whether a name was meant. If no statement has this name, what to write then.
fn asked(alloc: Global, name: &str, line: &str) -> Result<String, AllocError> {
    match of_other(name, &operands_of(line)) {
        Some(statement) => format!(in alloc; "is `{name}` meant? Then write:\n{statement}"),
        None => format!(in alloc; "is `{name}` meant?"),
    }
}

/// Whether the operands of a line are those of the statement with this name.
fn has_form(alloc: Global, name: &str, line: &str) -> Result<bool, AllocError> {
    let operands = operands_of(line);
    if !is_instruction(name) && name != ".word" && name != "nop" {
        return Ok(match of_other(name, &operands) {
            Some(statement) => statement.is_sure(),
            None => false,
        });
    }
    let mut statement = String::from_str(alloc, name)?;
    for index in 0..operands.count {
        statement.push_str(if index == 0 { " " } else { ", " })?;
        statement.push_str(operand(line, index + 1))?;
    }
    Ok(!has_faulty_operand(statement.as_str()))
}

/// Whether the first pass refuses an operand of a line, or the line lacks one.
fn has_faulty_operand(line: &str) -> bool {
    for index in 0..OPERANDS {
        if operand_fault(line.as_bytes(), index).is_some() {
            return true;
        }
        if operand_text(line.as_bytes(), index).is_none() {
            return false;
        }
    }
    true
}

/// What is wrong with each operand of a line that is refused. One too many is said only if no other is wrong: an operand that is written
/// as two may be the cause. If one explains those after it, they aren't said.
fn operand_reasons(alloc: Global, line: &str) -> Result<String, AllocError> {
    let mut said = String::new(alloc);
    for index in 0..OPERANDS {
        let Some(OperandFault { expected, kind }) = operand_fault(line.as_bytes(), index) else {
            if operand_text(line.as_bytes(), index).is_none() {
                break;
            }
            continue;
        };
        if matches!(expected, Expected::Nothing) && !said.is_empty() {
            break;
        }
        let number = index + 1;
        let faulty = FaultyOperand { number, expected };
        let reason = operand_reason(alloc, line, faulty, kind, said.as_str())?;
        said.push_str(reason.as_str())?;
        if explains_others(line, faulty) {
            break;
        }
    }
    Ok(said)
}

/// Whether an operand at fault explains those after it.
fn explains_others(line: &str, faulty: FaultyOperand) -> bool {
    let FaultyOperand { number, expected } = faulty;
    let is_lane = matches!(expected, Expected::Kind(Operand::VectorLane));
    lacks_comma(operand(line, number))
        || is_lane && of_lanes(name_of(line), &operands_of(line)).is_some()
}

/// An operand that is at fault, what may be there, and what to write, unless that is said already.
fn operand_reason(
    alloc: Global,
    line: &str,
    faulty: FaultyOperand,
    fault: AsmFaultKind,
    said: &str,
) -> Result<String, AllocError> {
    let FaultyOperand { number, expected } = faulty;
    let shown = Visible(found_operand(line, number).unwrap_or("(none)"));
    let allowed = Allowed { expected, fault };
    let (label, text) = written(alloc, line, faulty, fault)?;
    let advice = Labelled(label, text.as_str());
    let advice = format!(in alloc; "{advice}")?;
    let new = if said.contains(advice.as_str()) {
        ""
    } else {
        advice.as_str()
    };
    format!(in alloc; "\n  operand {number}: {shown}\n  expected: {allowed}{new}")
}

/// What to write in place of an operand; empty if there is nothing to say.
fn written(
    alloc: Global,
    line: &str,
    faulty: FaultyOperand,
    fault: AsmFaultKind,
) -> Result<(Label, String), AllocError> {
    let FaultyOperand { number, expected } = faulty;
    let text = operand(line, number);
    match (fault, kind_of(expected)) {
        (AsmFaultKind::BadOperand, Some(kind)) => unread(alloc, line, kind, text),
        (AsmFaultKind::OutOfRange, Some(kind)) => match respelled_in_range(kind, text) {
            Some(spelling) => labelled(alloc, spelling.is_sure(), spelling),
            None => nothing(alloc),
        },
        (_, Some(_)) => match respelled_label(text) {
            Some(spelling) => labelled(alloc, spelling.is_sure(), spelling),
            None => nothing(alloc),
        },
        (_, None) => extra(alloc, line, number),
    }
}

/// What to write in place of an operand that can't be read.
fn unread(
    alloc: Global,
    line: &str,
    kind: Operand,
    text: &str,
) -> Result<(Label, String), AllocError> {
    if let Some(spelling) = respelled(kind, text) {
        return labelled(alloc, spelling.is_sure(), spelling);
    }
    let (name, operands) = (name_of(line), operands_of(line));
    if let Operand::ScalarMemory | Operand::VectorMemory(_) = kind {
        if let Some(apart) = of_apart(kind, &operands) {
            return labelled(alloc, apart.is_sure(), apart);
        }
    }
    if let Operand::VectorLane = kind {
        if let Some(lanes) = of_lanes(name, &operands) {
            return labelled(alloc, false, lanes);
        }
    }
    if let Some(statement) = of_reshaped(name, &operands) {
        return labelled(alloc, statement.is_sure(), statement);
    }
    match kind {
        Operand::Vector(_) | Operand::VectorElement | Operand::VectorByte(..) => {
            unread_vector(alloc, name, kind, &operands, text)
        }
        _ => labelled(alloc, false, of_operand(kind, text)),
    }
}

/// The same of a vector register, or where one lacks.
fn unread_vector(
    alloc: Global,
    name: &str,
    kind: Operand,
    operands: &Operands<'_>,
    text: &str,
) -> Result<(Label, String), AllocError> {
    if let Operand::VectorByte(..) = kind {
        if let Some(moved) = of_moved(name, text) {
            return labelled(alloc, false, moved);
        }
    } else if let Some(shortened) = of_shortened(name, operands) {
        return labelled(alloc, false, shortened);
    }
    match of_accumulator(text) {
        "" => labelled(alloc, false, of_operand(kind, text)),
        operands => labelled(alloc, true, operands),
    }
}

/// What an operand too many may mean.
fn extra(alloc: Global, line: &str, number: usize) -> Result<(Label, String), AllocError> {
    let text = operand(line, number);
    let before = operand(line, number.saturating_sub(1));
    if let Some(readings) = of_extra(name_of(line), before, text) {
        return labelled(alloc, false, readings);
    }
    match of_reshaped(name_of(line), &operands_of(line)) {
        Some(statement) => labelled(alloc, statement.is_sure(), statement),
        None => labelled(alloc, false, of_comment(text)),
    }
}

/// A text with its label.
fn labelled<T: Display + Drop>(
    alloc: Global,
    is_sure: bool,
    text: T,
) -> Result<(Label, String), AllocError> {
    let label = if is_sure { Label::Try } else { Label::Help };
    Ok((label, format!(in alloc; "{text}")?))
}

/// Nothing to say.
fn nothing(alloc: Global) -> Result<(Label, String), AllocError> {
    Ok((Label::Help, String::new(alloc)))
}
