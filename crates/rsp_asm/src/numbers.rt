// The operands of `.word`. One that can't be read is reported before one that is out of range, wherever they are. So a fault of
// range is kept until all operands are read.

ghost use Rattle.std.specs.Prelude.{◌≡◌, ℕ, ◌+◌, ◌≤◌};
ghost use Rattle.arrayvec.specs.ArrayVec.{array_vec_len};
ghost use Rattle.rsp_syntax.specs.SourceLine.{statement_size, statement_words};
ghost use Rattle.rsp_syntax.specs.Statement.{operand_texts, statement_of_form, with_operands, numbers_form};
ghost use Rattle.rsp_asm.specs.Statements.{size_or_fault, Puts};

use crate::operands::Operands;
use crate::words::Words;
use rsp_operands::{Labels, is_number_out_of_range, number_word};
use rsp_syntax::AsmFaultKind;

/// How many operands `.word` has. Each gives a word.
///
/// Refused are no operands, or one that can't be read, as BadOperand, and then a number without a label that no word holds, as
/// OutOfRange.
pub fn check_numbers(text: &[u8]) -> Result<usize, AsmFaultKind>
    ensures { (address : ℕ) → result ≡ size_or_fault address (with_operands (statement_of_form numbers_form (operand_texts text.now))) }
{
    if text.is_empty() {
        return Err(AsmFaultKind::BadOperand);
    }
    let mut count = 0;
    let mut bad = false;
    let mut operands = Operands::new(text);
    while let Some(operand) = operands.next() {
        let Some(beyond) = is_number_out_of_range(operand) else {
            return Err(AsmFaultKind::BadOperand);
        };
        bad |= beyond;
        count += 1;
    }
    if bad {
        return Err(AsmFaultKind::OutOfRange);
    }
    Ok(count)
}

/// Appends the words of the operands of `.word` to `words`, which must have room for them.
///
/// Refused are no operands, or one that can't be read, as BadOperand, and then the leftmost operand whose label is missing, as
/// LabelMissing, or whose value no word holds, as OutOfRange.
pub fn push_numbers(text: &[u8], labels: &Labels<'_>, words: &mut Words) -> Result<(), AsmFaultKind>
    requires { array_vec_len words.old + statement_size (with_operands (statement_of_form numbers_form (operand_texts text.now))) ≤ 1024 }
    ensures { (address : ℕ) → Puts (statement_words labels.now address (with_operands (statement_of_form numbers_form (operand_texts text.now))))
        (statement_size (with_operands (statement_of_form numbers_form (operand_texts text.now)))) words.old.items words.new.items result }
{
    if text.is_empty() {
        return Err(AsmFaultKind::BadOperand);
    }
    let mut fault = None;
    let mut operands = Operands::new(text);
    while let Some(operand) = operands.next() {
        match number_word(operand, labels) {
            None => return Err(AsmFaultKind::BadOperand),
            Some(Err(kind)) => fault = fault.or(Some(kind)),
            Some(Ok(word)) => {
                // there is room if all operands can be read, so if there is none, a later one can't be
                if words.try_push(word).is_err() {
                    return Err(AsmFaultKind::BadOperand);
                }
            }
        }
    }
    match fault {
        None => Ok(()),
        Some(kind) => Err(kind),
    }
}
