// Operands as their texts give them, by their kinds.

ghost use Rattle.std.specs.Prelude.{◌≡◌, [], Some, None, option_map};
ghost use Rattle.rsp_syntax.specs.declared.line_bytes.Boundary.TheVariants.{Bracket, Parenthesis};
ghost use Rattle.rsp_syntax.specs.Cuts.{cut};
ghost use Rattle.rsp_syntax.specs.Names.{vector_named, element_named};
ghost use Rattle.rsp_syntax.specs.Numbers.{expression_of};
ghost use Rattle.rsp_syntax.specs.Capping.{expression, capped_expression};
ghost use Rattle.rsp_syntax.specs.Statement.{base_of, offset_of, bracketed, byte_named, lane_named, with_element, bracket_of, memory_operand, ranged_value, read};
ghost use Rattle.rsp_operands.specs.OperandValues.{reading, capped_value};

use rsp_decode::{ByteElements, Operand};
use rsp_syntax::{
    Boundary, Expression, OperandRange, cut, read_control, read_element, read_expression,
    read_scalar, read_sp_register, read_vector, small_number,
};

/// What an operand means, before its label is searched for and its range is checked.
#[derive(Clone, Copy)]
pub(crate) enum OperandValue<'a> {
    /// A register.
    Register(u8),
    /// A vector register, with an element, a byte or a lane.
    Pair(u8, u8),
    /// A value with its range.
    Value(OperandRange, Expression<'a>),
    /// An offset with its range, and a base register.
    Memory(OperandRange, Expression<'a>, u8),
}

/// The base register of a memory operand, by the text after its `(`.
fn base(text: &[u8]) -> Option<u8>
    ensures { result ≡ base_of text.now }
{
    match text {
        [name @ .., b')'] => read_scalar(name),
        _ => None,
    }
}

/// A byte of a vector register, by the text after `[`. Some instructions take the first byte of a half alone, 0 or 8.
fn bracketed_byte(elements: ByteElements, text: &[u8]) -> Option<u8>
    ensures { result ≡ bracketed (byte_named elements) text.now }
{
    let [number @ .., b']'] = text else {
        return None;
    };
    let byte = small_number(number, 16)?;
    match elements {
        ByteElements::Halves if !byte.is_multiple_of(8) => None,
        _ => Some(byte),
    }
}

/// The element of a computing instruction, by the text after `[`.
fn bracketed_element(text: &[u8]) -> Option<u8>
    ensures { result ≡ bracketed element_named text.now }
{
    match text {
        [name @ .., b']'] => read_element(name),
        _ => None,
    }
}

/// A lane, by the text after `[`.
fn bracketed_lane(text: &[u8]) -> Option<u8>
    ensures { result ≡ bracketed lane_named text.now }
{
    match text {
        [number @ .., b']'] => small_number(number, 8),
        _ => None,
    }
}

fn with_element(name: &[u8], element: Option<u8>) -> Option<OperandValue<'_>>
    ensures { option_map reading result ≡ option_map capped_value (with_element (vector_named name.now) element) }
{
    Some(OperandValue::Pair(read_vector(name)?, element?))
}

/// A vector register with a byte of it, which is 0 without brackets.
fn vector_byte(elements: ByteElements, text: &[u8]) -> Option<OperandValue<'_>>
    ensures { option_map reading result ≡ option_map capped_value (bracket_of (byte_named elements) (Some 0) (cut Bracket text.now) text.now) }
{
    match cut(text, Boundary::Bracket) {
        None => with_element(text, Some(0)),
        Some((name, rest)) => with_element(name, bracketed_byte(elements, rest)),
    }
}

/// A vector register with the element of a computing instruction, which is 0 without brackets.
fn vector_element(text: &[u8]) -> Option<OperandValue<'_>>
    ensures { option_map reading result ≡ option_map capped_value (bracket_of element_named (Some 0) (cut Bracket text.now) text.now) }
{
    match cut(text, Boundary::Bracket) {
        None => with_element(text, Some(0)),
        Some((name, rest)) => with_element(name, bracketed_element(rest)),
    }
}

/// A vector register with a lane, which is required.
fn vector_lane(text: &[u8]) -> Option<OperandValue<'_>>
    ensures { option_map reading result ≡ option_map capped_value (bracket_of lane_named None (cut Bracket text.now) text.now) }
{
    match cut(text, Boundary::Bracket) {
        None => with_element(text, None),
        Some((name, rest)) => with_element(name, bracketed_lane(rest)),
    }
}

fn value(range: OperandRange, text: &[u8]) -> Option<OperandValue<'_>>
    ensures { option_map reading result ≡ option_map capped_value (option_map (ranged_value range []) (expression_of text.now)) }
{
    Some(OperandValue::Value(range, read_expression(text)?))
}

/// The offset of a memory operand, by the text before its `(`: 0 if there is none.
fn offset(text: &[u8]) -> Option<Expression<'_>>
    ensures { option_map expression result ≡ option_map capped_expression (offset_of text.now) }
{
    if text.is_empty() {
        return Some(Expression {
            label: None,
            offset: 0,
        });
    }
    read_expression(text)
}

fn memory(range: OperandRange, text: &[u8]) -> Option<OperandValue<'_>>
    ensures { option_map reading result ≡ option_map capped_value (memory_operand range (cut Parenthesis text.now)) }
{
    let (prefix, rest) = cut(text, Boundary::Parenthesis)?;
    Some(OperandValue::Memory(range, offset(prefix)?, base(rest)?))
}

/// What the text of an operand means; None if it is no operand of this kind.
pub(crate) fn read_operand(kind: Operand, text: &[u8]) -> Option<OperandValue<'_>>
    ensures { option_map reading result ≡ option_map capped_value (read kind text.now) }
{
    match kind {
        Operand::Scalar(_) => Some(OperandValue::Register(read_scalar(text)?)),
        Operand::ShiftAmount => value(OperandRange::Amount, text),
        Operand::Signed | Operand::Unsigned => value(OperandRange::Half, text),
        Operand::JumpTarget => value(OperandRange::Jump, text),
        Operand::BranchTarget => value(OperandRange::Branch, text),
        Operand::ScalarMemory => memory(OperandRange::Half, text),
        Operand::VectorMemory(scale) => memory(OperandRange::Scaled(scale), text),
        Operand::SpRegister => Some(OperandValue::Register(read_sp_register(text)?)),
        Operand::ControlRegister => Some(OperandValue::Register(read_control(text)?)),
        Operand::Vector(_) => Some(OperandValue::Register(read_vector(text)?)),
        Operand::VectorByte(_, elements) => vector_byte(elements, text),
        Operand::VectorElement => vector_element(text),
        Operand::VectorLane => vector_lane(text),
    }
}
