// The second pass over a statement: its words.

ghost use Rattle.std.specs.Prelude.{◌≡◌, ℕ, ◌+◌, ◌≤◌, true};
ghost use Rattle.std.specs.List.{list_all};
ghost use Rattle.arrayvec.specs.ArrayVec.{array_vec_len};
ghost use Rattle.rsp_decode.specs.Table.{entry, is_row_operand};
ghost use Rattle.rsp_syntax.specs.SourceLine.{statement_size, statement_words};
ghost use Rattle.rsp_syntax.specs.Statement.{Labels, statement_of, operand_texts, statement_of_form, with_operands, no_operation};
ghost use Rattle.rsp_asm.specs.Statements.{Puts, row_size, row_words};

use crate::numbers::push_numbers;
use crate::row::row_word;
use crate::statement::{Form, Statement, read_statement};
use crate::words::Words;
use rsp_decode::TableRow;
use rsp_operands::Labels;
use rsp_syntax::AsmFaultKind;

/// Appends the one word of `nop`, which takes no operands.
fn push_nothing(operands: &[u8], words: &mut Words) -> Result<(), AsmFaultKind>
    requires { array_vec_len words.old + statement_size (with_operands (statement_of_form no_operation (operand_texts operands.now))) ≤ 1024 }
    ensures { (labels : Labels) (address : ℕ) → Puts (statement_words labels address (with_operands (statement_of_form no_operation (operand_texts operands.now))))
        (statement_size (with_operands (statement_of_form no_operation (operand_texts operands.now)))) words.old.items words.new.items result }
{
    if !operands.is_empty() {
        return Err(AsmFaultKind::BadOperand);
    }
    words.push(0);
    Ok(())
}

/// Appends the one word of an instruction.
fn push_row(
    row: TableRow,
    operands: &[u8],
    address: u16,
    labels: &Labels<'_>,
    words: &mut Words,
) -> Result<(), AsmFaultKind>
    requires address { address ≤ 4096 }
    requires fit { list_all is_row_operand row.operands.now ≡ true }
    requires room { array_vec_len words.old + row_size (entry row) (operand_texts operands.now) ≤ 1024 }
    ensures { Puts (row_words labels.now address (entry row) (operand_texts operands.now)) (row_size (entry row) (operand_texts operands.now)) words.old.items words.new.items result }
{
    let word = row_word(row, operands, address, labels)?;
    words.push(word);
    Ok(())
}

/// Appends the words of a statement at `address` to `words`, which must have room for them.
///
/// Refused are a name that no statement has as UnknownName, operands that can't be read as BadOperand, and then the leftmost
/// operand whose label is missing, as LabelMissing, or whose value is out of its range, as OutOfRange.
pub fn push_statement(
    text: &[u8],
    address: u16,
    labels: &Labels<'_>,
    words: &mut Words,
) -> Result<(), AsmFaultKind>
    requires address { address ≤ 4096 }
    requires room { array_vec_len words.old + statement_size (statement_of text.now) ≤ 1024 }
    ensures { Puts (statement_words labels.now address (statement_of text.now)) (statement_size (statement_of text.now)) words.old.items words.new.items result }
{
    let statement = read_statement(text)?;
    let Some(Statement { form, operands }) = statement else {
        return Ok(());
    };
    match form {
        Form::NoOperation => push_nothing(operands, words),
        Form::Numbers => push_numbers(operands, labels, words),
        Form::Row(row) => push_row(row, operands, address, labels, words),
    }
}
