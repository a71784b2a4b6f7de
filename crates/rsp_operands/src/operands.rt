// The operands of instructions.

ghost use Rattle.std.specs.Prelude.{◌≡◌, ◌≤◌, true, option_map};
ghost use Rattle.rsp_decode.specs.Table.{bit_fields, is_row_operand};
ghost use Rattle.rsp_syntax.specs.Statement as statement;
ghost use Rattle.rsp_syntax.specs.Statement.{read, fields_of};
ghost use Rattle.rsp_syntax.specs.OperandResults.{operand_fails, with_values};

use crate::fields::{put, reading_fields};
use crate::labels::Labels;
use crate::operand_value::{OperandValue, read_operand};
use crate::values::is_beyond;
use rsp_decode::Operand;
use rsp_syntax::AsmFaultKind;

/// Whether an operand is out of its range whatever the labels are: it names no label, and its number is out of the range that
/// the kind has in a statement at `address`, at most 4096. None if the text is no operand of this kind.
pub fn is_out_of_range(kind: Operand, text: &[u8], address: u16) -> Option<bool>
    requires { address ≤ 4096 }
    ensures { result ≡ option_map (operand_fails address) (read kind text.now) }
{
    match read_operand(kind, text)? {
        OperandValue::Value(range, e) | OperandValue::Memory(range, e, _) => Some(is_beyond(
            range, e, address,
        )),
        OperandValue::Register(_) | OperandValue::Pair(_, _) => Some(false),
    }
}

/// `word` with the fields of an operand set too, for a statement at `address`, at most 4096. None if the text is no operand of
/// this kind.
///
/// A label that isn't in `labels` is refused as LabelMissing, and a value out of its range as OutOfRange. The kind has to be one
/// of those that the instruction table has; so its fields are inside the word.
pub fn put_operand(
    kind: Operand,
    text: &[u8],
    address: u16,
    labels: &Labels<'_>,
    word: u32,
) -> Option<Result<u32, AsmFaultKind>>
    requires inside { address ≤ 4096 }
    requires room { is_row_operand kind ≡ true }
    ensures { result ≡ option_map (λ (r : statement.OperandValue). with_values word (bit_fields kind) (fields_of labels.now address r)) (read kind text.now) }
{
    let reading = read_operand(kind, text)?;
    match reading_fields(reading, address, labels) {
        Ok(fields) => Some(Ok(put(kind, fields, word))),
        Err(fault) => Some(Err(fault)),
    }
}
