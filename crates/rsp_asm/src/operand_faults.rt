// The fault of each operand of a line, for messages: `explain` has the first.

ghost use Rattle.std.specs.Prelude.{◌≡◌};
ghost use Rattle.rsp_syntax.specs.Statement.{operand_texts};
ghost use Rattle.rsp_asm.specs.Forms.{form};
ghost use Rattle.rsp_asm.specs.FormOperands.{AreUsable};
ghost use Rattle.rsp_asm.specs.OperandFaults.{operand_fault, fault_in_shape};

use crate::explanation::{Expected, expected_at, is_refused, is_required, nth};
use crate::line::split_line;
use crate::statement::{Form, form_of, split};
use rsp_syntax::AsmFaultKind;

/// Why the first pass refuses an operand of a line.
#[derive(Clone, Copy)]
pub struct OperandFault {
    /// What the statement takes there.
    pub expected: Expected,
    /// BadOperand or OutOfRange.
    pub kind: AsmFaultKind,
}

/// The fault of operand `index` of a statement, which may lack it.
fn fault_in_form(named: Form, text: &[u8], index: usize) -> Option<OperandFault>
    requires { AreUsable (form named) }
    ensures { result ≡ fault_in_shape (form named) (operand_texts text.now) index }
{
    let expected = expected_at(named, index);
    let kind = match nth(text, index) {
        Some(operand) => match is_refused(expected, operand, None) {
            None => AsmFaultKind::BadOperand,
            Some(true) => AsmFaultKind::OutOfRange,
            Some(false) => return None,
        },
        None if is_required(expected, index) => AsmFaultKind::BadOperand,
        None => return None,
    };
    Some(OperandFault { expected, kind })
}

/// The fault of operand `index` of a line, counted from 0, whatever the other operands are: BadOperand if the line lacks it or if it
/// can't be read, OutOfRange if it is a number that is out of its range. None if the first pass doesn't refuse it, if the line has and
/// needs no such operand, or if no statement has the line's name.
pub fn operand_fault(line: &[u8], index: usize) -> Option<OperandFault>
    ensures { result ≡ operand_fault line.now index }
{
    let Some(parts) = split_line(line) else {
        return None;
    };
    let (name, operands) = split(parts.body);
    match form_of(name, operands) {
        Some(named) => fault_in_form(named, operands, index),
        None => None,
    }
}
