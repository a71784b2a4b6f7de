// The name of a statement, and the text of its operands. Both passes begin here.

ghost use Rattle.std.specs.Prelude.{◌≡◌, ◌==◌, length, option_map, Err, IfOk, IfErr};
ghost use Rattle.std.specs.List.{before_first, after_first};
ghost use Rattle.rsp_syntax.specs.Cuts.{is_boundary};
ghost use Rattle.rsp_syntax.specs.declared.line_bytes.Boundary.TheVariants.{Blank};
ghost use Rattle.rsp_syntax.specs.Statement.{statement_of, form_named, operand_texts};
ghost use Rattle.rsp_asm.specs.Forms.{form, form_shape, Says};

use crate::operands::Operands;
use rsp_decode::{Operand, TableRow};
use rsp_syntax::{AsmFaultKind, Boundary, cut, find_row, is_same};

/// What the name of a statement is.
#[derive(Clone, Copy)]
pub enum Form {
    /// `nop`, which takes no operands.
    NoOperation,
    /// `.word`, which takes one or more numbers.
    Numbers,
    /// An instruction.
    Row(TableRow),
}

/// A statement whose operands are still to be read.
#[derive(Clone, Copy)]
pub struct Statement<'a> {
    /// What its name is.
    pub form: Form,
    /// The text of its operands, after the blank that ends the name.
    pub operands: &'a [u8],
}

/// Cuts a statement at its first blank: its name, and the text of its operands.
pub(crate) fn split(text: &[u8]) -> (&[u8], &[u8])
    ensures name { result.0.now ≡ before_first (is_boundary Blank) text.now }
    ensures operands { result.1.now ≡ after_first (is_boundary Blank) text.now }
{
    match cut(text, Boundary::Blank) {
        Some(parts) => parts,
        None => (text, &[]),
    }
}

/// `jalr` with one operand, which links in register 31. The table has `jalr` with two.
const LINKING_ROW: TableRow = TableRow {
    name: "jalr",
    mask: 0xfc00_f83f,
    value: 0x0000_f809,
    operands: &[Operand::Scalar(21)],
};

/// Whether there is exactly one operand.
fn is_single(operands: &[u8]) -> bool
    ensures { result ≡ (length (operand_texts operands.now) == 1) }
{
    let mut operands = Operands::new(operands);
    operands.next().is_some() && operands.next().is_none()
}

/// What a name is, in either case, before these operands; None if no statement has it.
pub(crate) fn form_of(name: &[u8], operands: &[u8]) -> Option<Form>
    ensures { option_map form result ≡ option_map form_shape (form_named name.now (length (operand_texts operands.now))) }
{
    if is_same(name, b"nop") {
        return Some(Form::NoOperation);
    }
    if is_same(name, b".word") {
        return Some(Form::Numbers);
    }
    if is_same(name, b"jalr") && is_single(operands) {
        return Some(Form::Row(LINKING_ROW));
    }
    Some(Form::Row(find_row(name)?))
}

/// Reads a statement up to its operands: None of an empty text. A name that no statement has is refused as UnknownName.
pub fn read_statement(text: &[u8]) -> Result<Option<Statement<'_>>, AsmFaultKind>
    ensures ok { IfOk result (λ statement. Says statement (statement_of text.now)) }
    ensures err { IfErr result (λ kind. statement_of text.now ≡ Err kind) }
{
    if text.is_empty() {
        return Ok(None);
    }
    let (name, operands) = split(text);
    match form_of(name, operands) {
        Some(form) => Ok(Some(Statement { form, operands })),
        None => Err(AsmFaultKind::UnknownName),
    }
}
