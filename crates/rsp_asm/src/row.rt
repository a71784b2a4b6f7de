// The operands of an instruction. One that can't be read is reported before one that is out of range, wherever they are. So a
// fault of range is kept until all operands are read.

ghost use Rattle.std.specs.Prelude.{◌≡◌, ◌≤◌, false, true};
ghost use Rattle.std.specs.List.{list_all};
ghost use Rattle.rsp_decode.specs.Table.{entry, is_row_operand};
ghost use Rattle.rsp_syntax.specs.Statement.{read_all, operand_texts};
ghost use Rattle.rsp_asm.specs.Statements.{count_or_fault, row_word};

use crate::operands::Operands;
use rsp_decode::{Operand, TableRow};
use rsp_operands::{Labels, is_out_of_range, put_operand};
use rsp_syntax::AsmFaultKind;

/// How many words an instruction at `address` with operands of these kinds gives: one.
///
/// Refused are operands that can't be read, or too few or too many, as BadOperand, and then a number that is out of its range
/// whatever the labels are, as OutOfRange.
pub fn check_row(kinds: &[Operand], text: &[u8], address: u16) -> Result<usize, AsmFaultKind>
    requires { address ≤ 4096 }
    ensures { result ≡ count_or_fault address false 1 (read_all kinds.now (operand_texts text.now)) }
{
    let mut bad = false;
    let mut operands = Operands::new(text);
    for kind in kinds {
        let Some(operand) = operands.next() else {
            return Err(AsmFaultKind::BadOperand);
        };
        let Some(beyond) = is_out_of_range(*kind, operand, address) else {
            return Err(AsmFaultKind::BadOperand);
        };
        bad |= beyond;
    }
    if operands.next().is_some() {
        return Err(AsmFaultKind::BadOperand);
    }
    if bad {
        return Err(AsmFaultKind::OutOfRange);
    }
    Ok(1)
}

/// The word of an instruction at `address`.
///
/// Refused are operands that can't be read, or too few or too many, as BadOperand, and then the leftmost operand whose label is
/// missing, as LabelMissing, or whose value is out of its range, as OutOfRange.
pub fn row_word(
    row: TableRow,
    text: &[u8],
    address: u16,
    labels: &Labels<'_>,
) -> Result<u32, AsmFaultKind>
    requires address { address ≤ 4096 }
    requires fit { list_all is_row_operand row.operands.now ≡ true }
    ensures { result ≡ row_word labels.now address (entry row) (operand_texts text.now) }
{
    let mut word = row.value;
    let mut fault = None;
    let mut operands = Operands::new(text);
    for kind in row.operands {
        let Some(operand) = operands.next() else {
            return Err(AsmFaultKind::BadOperand);
        };
        let Some(put) = put_operand(*kind, operand, address, labels, word) else {
            return Err(AsmFaultKind::BadOperand);
        };
        fault = fault.or(put.err());
        word = put.unwrap_or(word);
    }
    if operands.next().is_some() {
        return Err(AsmFaultKind::BadOperand);
    }
    match fault {
        None => Ok(word),
        Some(kind) => Err(kind),
    }
}
