// The first pass over a statement: how many words it gives, and each fault that needs no label.

ghost use Rattle.std.specs.Prelude.{◌≡◌, ◌≤◌, ℕ};
ghost use Rattle.rsp_syntax.specs.Statement.{statement_of, operand_texts, statement_of_form, with_operands, no_operation};
ghost use Rattle.rsp_asm.specs.Statements.{size_or_fault};

use crate::numbers::check_numbers;
use crate::row::check_row;
use crate::statement::{Form, Statement, read_statement};
use rsp_syntax::AsmFaultKind;

/// The one word of `nop`, which takes no operands.
fn check_nothing(operands: &[u8]) -> Result<usize, AsmFaultKind>
    ensures { (address : ℕ) → result ≡ size_or_fault address (with_operands (statement_of_form no_operation (operand_texts operands.now))) }
{
    if !operands.is_empty() {
        return Err(AsmFaultKind::BadOperand);
    }
    Ok(1)
}

/// How many words a statement at `address` gives.
///
/// Refused are, in this order: a name that no statement has as UnknownName, operands that can't be read or are too few or too
/// many as BadOperand, and a number that is out of its range whatever the labels are as OutOfRange.
pub fn check_statement(text: &[u8], address: u16) -> Result<usize, AsmFaultKind>
    requires { address ≤ 4096 }
    ensures { result ≡ size_or_fault address (statement_of text.now) }
{
    let statement = read_statement(text)?;
    let Some(Statement { form, operands }) = statement else {
        return Ok(0);
    };
    match form {
        Form::NoOperation => check_nothing(operands),
        Form::Numbers => check_numbers(operands),
        Form::Row(row) => check_row(row.operands, operands, address),
    }
}
