// The fields of an operand, and their bits in the word.

ghost use Rattle.std.specs.Prelude.{◌≡◌, ◌≤◌, ◌*◌, ◌^◌, ◌∷◌, [], ℕ, true, bit_or};
ghost use Rattle.rsp_decode.specs.Table.{bit_fields, with_fields, is_row_operand};
ghost use Rattle.rsp_syntax.specs.Statement as statement;
ghost use Rattle.rsp_syntax.specs.Statement.{fields_of};
ghost use Rattle.rsp_operands.specs.OperandValues.{reading, capped_value};
ghost use Rattle.rsp_operands.specs.Fields.{field_values, fields_in};
ghost use Rattle.rsp_operands.specs.FieldsFit.{FitWord};

use crate::labels::Labels;
use crate::operand_value::OperandValue;
use crate::values::expression_field;
use rsp_decode::{ByteElements, Operand};
use rsp_syntax::AsmFaultKind;

/// The values of an operand's one or two fields, in the order of its text.
#[derive(Clone, Copy)]
pub(crate) struct Fields {
    first: u32,
    second: Option<u32>,
}

fn one(first: u32) -> Fields
    ensures { field_values result ≡ first ∷ [] }
{
    Fields {
        first,
        second: None,
    }
}

fn two(first: u32, second: u32) -> Fields
    ensures { field_values result ≡ first ∷ second ∷ [] }
{
    Fields {
        first,
        second: Some(second),
    }
}

/// The fields of an operand that was read, for a statement at `address`. A label that no line has is refused as LabelMissing,
/// and a value out of its range as OutOfRange.
pub(crate) fn reading_fields(
    said: OperandValue<'_>,
    address: u16,
    labels: &Labels<'_>,
) -> Result<Fields, AsmFaultKind>
    requires { address ≤ 4096 }
    ensures { (r : statement.OperandValue) → reading said.entry ≡ capped_value r → fields_in result ≡ fields_of labels.now address r }
{
    match said {
        OperandValue::Register(number) => Ok(one(u32::from(number))),
        OperandValue::Pair(number, element) => Ok(two(u32::from(number), u32::from(element))),
        OperandValue::Value(range, e) => Ok(one(expression_field(range, e, address, labels)?)),
        OperandValue::Memory(range, e, base) => {
            let offset = expression_field(range, e, address, labels)?;
            Ok(two(offset, u32::from(base)))
        }
    }
}

/// The lowest bit of an operand's first field.
fn first_low(kind: Operand) -> u8
    requires { is_row_operand kind ≡ true }
    ensures low { result ≤ 27 }
    ensures bits { (w v : ℕ) → with_fields w (bit_fields kind) (v ∷ []) ≡ bit_or w (v * 2 ^ result) }
{
    match kind {
        Operand::Scalar(low) | Operand::Vector(low) | Operand::VectorByte(low, _) => low,
        Operand::ShiftAmount | Operand::VectorLane => 6,
        Operand::Signed | Operand::Unsigned | Operand::JumpTarget | Operand::BranchTarget => 0,
        Operand::ScalarMemory | Operand::VectorMemory(_) => 0,
        Operand::SpRegister | Operand::ControlRegister => 11,
        Operand::VectorElement => 16,
    }
}

/// The second field's value at its bits in the word; 0 of a kind with one field.
#[tactic(auto, using(crate::proofs::Words::or_none))]
fn second_bits(kind: Operand, value: u32) -> u32
    requires { value ≤ 31 }
    ensures { (w v : ℕ) → with_fields w (bit_fields kind) (v ∷ value ∷ []) ≡ bit_or (with_fields w (bit_fields kind) (v ∷ [])) result }
{
    match kind {
        Operand::ScalarMemory | Operand::VectorMemory(_) | Operand::VectorElement => value << 21,
        Operand::VectorLane => value << 11,
        Operand::VectorByte(_, ByteElements::All) => value << 7,
        Operand::VectorByte(_, ByteElements::Halves) => value / 8 << 10,
        Operand::Scalar(_) | Operand::Vector(_) | Operand::SpRegister | Operand::ControlRegister =>
            0,
        Operand::ShiftAmount | Operand::Signed | Operand::Unsigned => 0,
        Operand::JumpTarget | Operand::BranchTarget => 0,
    }
}

/// The word with the fields set too.
pub(crate) fn put(kind: Operand, values: Fields, word: u32) -> u32
    requires room { is_row_operand kind ≡ true }
    requires fit { FitWord kind (field_values values) }
    ensures { result ≡ with_fields word (bit_fields kind) (field_values values) }
{
    let with_first = word | values.first << first_low(kind);
    match values.second {
        None => with_first,
        Some(value) => with_first | second_bits(kind, value),
    }
}
