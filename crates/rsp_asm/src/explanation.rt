// The operand for which a text is refused.

ghost use Rattle.std.specs.Prelude.{◌≡◌, ◌≤◌, ◌-◌, ◌==◌, ℕ, None, Some, IfOk, OnErr, length, option_map};
ghost use Rattle.std.specs.Str.Lines.{lines};
ghost use Rattle.rsp_syntax.specs.Statement.{operand_texts, form_named};
ghost use Rattle.rsp_syntax.specs.SourceText.{line_at};
ghost use Rattle.rsp_asm.specs.AssembleFaults.{HidesNoFault};
ghost use Rattle.rsp_asm.specs.Forms.{form};
ghost use Rattle.rsp_asm.specs.Explanations.{bounds_of_range, text_at, is_required, verdict, operand_text, statement_name, faulty_in_operands, faulty_in_line, is_of_operand, operand_of_fault, explanation};
ghost use Rattle.rsp_asm.specs.FormOperands.{expected_in, IsUsable, AreUsable, faulty_in_shape};

use crate::assembler::{first_pass, next_line, second_pass};
use crate::line::split_line;
use crate::operands::Operands;
use crate::statement::{Form, form_of, split};
use rsp_decode::Operand;
use rsp_operands::{Labels, is_number_out_of_range, is_out_of_range, number_word, put_operand};
use rsp_syntax::{AsmFault, AsmFaultKind, OperandRange};
use std::alloc::{AllocError, Global};

/// What a statement takes as an operand.
#[derive(Clone, Copy)]
pub enum Expected {
    /// An operand of this kind.
    Kind(Operand),
    /// A number of `.word`.
    Number,
    /// Nothing: it has operands enough.
    Nothing,
}

/// The numbers that an operand may have: the multiples of `step` from `low` to `high`.
#[derive(Clone, Copy)]
pub struct Bounds {
    /// The lowest.
    pub low: i64,
    /// The highest.
    pub high: i64,
    /// Each is a multiple of this.
    pub step: u8,
}

impl Expected {
    ghost use Rattle.std.specs.Prelude.{◌≡◌};
    ghost use Rattle.rsp_asm.specs.Explanations.{bounds, range_of};

    /// The range of the operand's value; None of a register, of a register with an element, and of nothing.
    pub fn range(self) -> Option<OperandRange>
        ensures { result ≡ range_of self }
    {
        match self {
            Expected::Number => Some(OperandRange::Word),
            Expected::Nothing => None,
            Expected::Kind(kind) => match kind {
                Operand::ShiftAmount => Some(OperandRange::Amount),
                Operand::Signed | Operand::Unsigned | Operand::ScalarMemory => Some(
                    OperandRange::Half,
                ),
                Operand::JumpTarget => Some(OperandRange::Jump),
                Operand::BranchTarget => Some(OperandRange::Branch),
                Operand::VectorMemory(scale) => Some(OperandRange::Scaled(scale)),
                _ => None,
            },
        }
    }

    /// The numbers that the operand's value may be, if it has one.
    pub fn bounds(self) -> Option<Bounds>
        ensures { result ≡ bounds self }
    {
        Some(bounds_of_range(self.range()?))
    }
}

/// The numbers of a range.
fn bounds_of_range(range: OperandRange) -> Bounds
    ensures { result ≡ bounds_of_range range }
{
    let (low, high, step) = match range {
        OperandRange::Half => (-32768, 65535, 1),
        OperandRange::Amount => (0, 31, 1),
        OperandRange::Jump | OperandRange::Branch => (0, 4092, 4),
        OperandRange::Scaled(scale) => (-(64 * i64::from(scale)), 63 * i64::from(scale), scale),
        OperandRange::Word => (-2147483648, 4294967295, 1),
    };
    Bounds { low, high, step }
}

/// The operand for which a line is refused.
#[derive(Clone, Copy)]
pub struct FaultyOperand {
    /// Which one of the line it is, from 1. It may be one that the line lacks.
    pub number: usize,
    /// What the statement takes there.
    pub expected: Expected,
}

/// What a statement takes as its operand `index`.
pub(crate) fn expected_at(named: Form, index: usize) -> Expected
    ensures { result ≡ expected_in (form named) index }
{
    match named {
        Form::NoOperation => Expected::Nothing,
        Form::Numbers => Expected::Number,
        Form::Row(row) => match row.operands.get(index) {
            Some(kind) => Expected::Kind(*kind),
            None => Expected::Nothing,
        },
    }
}

/// Whether a line without the operand `index` lacks it.
pub(crate) fn is_required(expected: Expected, index: usize) -> bool
    ensures { result ≡ is_required expected index }
{
    match expected {
        Expected::Kind(_) => true,
        Expected::Number => index == 0,
        Expected::Nothing => false,
    }
}

/// Whether an operand is out of its range, or its label is missing; without labels only a number can be. None if it can't be read.
pub(crate) fn is_refused(
    expected: Expected,
    text: &[u8],
    labels: Option<&Labels<'_>>,
) -> Option<bool>
    requires { IsUsable expected }
    ensures { result ≡ verdict (option_map (λ t. t.now) labels.entry) expected text.now }
{
    match expected {
        Expected::Nothing => None,
        Expected::Number => match labels {
            None => is_number_out_of_range(text),
            Some(labels) => Some(number_word(text, labels)?.is_err()),
        },
        Expected::Kind(kind) => match labels {
            None => is_out_of_range(kind, text, 0),
            Some(labels) => Some(put_operand(kind, text, 0, labels, 0)?.is_err()),
        },
    }
}

/// The operand of a statement that has a fault: the first that is missing or can't be read, else the first that is refused.
fn faulty_in_form(named: Form, text: &[u8], labels: Option<&Labels<'_>>) -> Option<FaultyOperand>
    requires { AreUsable (form named) }
    ensures { result ≡ faulty_in_shape (option_map (λ t. t.now) labels.entry) (form named) (operand_texts text.now) }
{
    let mut index = 0;
    let mut refused = None;
    let mut operands = Operands::new(text);
    while let Some(operand) = operands.next() {
        let expected = expected_at(named, index);
        let here = FaultyOperand {
            number: index + 1,
            expected,
        };
        let Some(beyond) = is_refused(expected, operand, labels) else {
            return Some(here);
        };
        if beyond {
            refused = refused.or(Some(here));
        }
        index += 1;
    }
    let expected = expected_at(named, index);
    if is_required(expected, index) {
        return Some(FaultyOperand {
            number: index + 1,
            expected,
        });
    }
    refused
}

/// The operand of a line that has a fault.
fn faulty_in_line(line: &[u8], labels: Option<&Labels<'_>>) -> Option<FaultyOperand>
    ensures { result ≡ faulty_in_line (option_map (λ t. t.now) labels.entry) line.now }
{
    let Some(parts) = split_line(line) else {
        return None;
    };
    let (name, operands) = split(parts.body);
    match form_of(name, operands) {
        Some(named) => faulty_in_form(named, operands, labels),
        None => None,
    }
}

/// The text of operand `index` of a line, counted from 0. None if the line has fewer.
pub fn operand_text(line: &[u8], index: usize) -> Option<&[u8]>
    ensures { option_map (λ t. t.now) result ≡ operand_text line.now index }
{
    let Some(parts) = split_line(line) else {
        return None;
    };
    let (_, operands) = split(parts.body);
    nth(operands, index)
}

/// The name of a line's statement: what is before the first blank after its label. Empty if it has no statement, or is no line.
pub fn statement_name(line: &[u8]) -> &[u8]
    ensures { result.now ≡ statement_name line.now }
{
    match split_line(line) {
        Some(parts) => split(parts.body).0,
        None => &[],
    }
}

/// The operand `index` in the text after a statement's name, counted from 0.
pub(crate) fn nth(text: &[u8], index: usize) -> Option<&[u8]>
    ensures { option_map (λ t. t.now) result ≡ text_at (operand_texts text.now) index }
{
    let mut left = index;
    let mut operands = Operands::new(text);
    while let Some(operand) = operands.next() {
        if left == 0 {
            return Some(operand);
        }
        left -= 1;
    }
    None
}

/// The line with this number, from 1; empty if the text has fewer.
fn numbered_line(text: &[u8], number: usize) -> &[u8]
    ensures { result.now ≡ line_at (lines text.now) (number - 1) }
{
    let mut left = number;
    let mut rest = text;
    while let Some((line, more)) = next_line(rest) {
        if left <= 1 {
            return line;
        }
        left -= 1;
        rest = more;
    }
    &[]
}

/// The operand for which a line is refused, if the fault is one of an operand.
fn operand_of_fault(
    text: &[u8],
    fault: AsmFault,
    labels: Option<&Labels<'_>>,
) -> Option<FaultyOperand>
    ensures { result ≡ operand_of_fault (option_map (λ t. t.now) labels.entry) (lines text.now) fault }
{
    match fault.kind {
        AsmFaultKind::BadOperand | AsmFaultKind::OutOfRange | AsmFaultKind::LabelMissing => {
            faulty_in_line(numbered_line(text, fault.line), labels)
        }
        _ => None,
    }
}

/// The operand for which [`assemble`](crate::assemble) refuses a text whose first word is at `origin`, and what the statement takes
/// there. None if it doesn't refuse the text, or for another reason than an operand. AllocError if there is no memory for a label: no
/// line up to the one with that label has a fault of the first pass.
pub fn explain(alloc: Global, origin: u16, text: &str) -> Result<Option<FaultyOperand>, AllocError>
    requires { origin ≤ 4096 }
    ensures value { IfOk result (λ found. found ≡ explanation origin (lines text.now)) }
    ensures hides { OnErr result ((line : ℕ) × HidesNoFault origin (lines text.now) line) }
{
    let bytes = text.as_bytes();
    match first_pass(alloc, origin, bytes) {
        Err(fault) => match fault.kind {
            AsmFaultKind::OutOfMemory => Err(AllocError),
            _ => Ok(operand_of_fault(bytes, fault, None)),
        },
        Ok(labels) => match second_pass(origin, bytes, &labels) {
            Ok(_) => Ok(None),
            Err(fault) => Ok(operand_of_fault(bytes, fault, Some(&labels))),
        },
    }
}
