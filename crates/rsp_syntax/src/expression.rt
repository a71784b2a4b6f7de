// Expressions: operands that are a number, a label, or a label and a number.

ghost use Rattle.std.specs.Prelude.{◌≡◌, ◌≤◌, length, option_map, slice_index, Some};
ghost use Rattle.std.specs.List.{list_all};
ghost use Rattle.rsp_syntax.specs.Chars.{is_name_byte, is_name_start};
ghost use Rattle.rsp_syntax.specs.Numbers.{is_label, expression_of, label_and_number};
ghost use Rattle.rsp_syntax.specs.Capping.{expression, capped_expression};

use crate::line_bytes::{Boundary, cut, skip_blanks, trim};
use crate::name_bytes::{is_name_byte, is_name_start};
use crate::numbers::{number, read_unsigned, signed};

/// The value of an expression: a number, or the address of a label plus a number.
#[derive(Clone, Copy)]
pub struct Expression<'a> {
    /// The label's name, or None if the expression is a number alone.
    pub label: Option<&'a [u8]>,
    /// The number, clamped to -2^40 to 2^40. No operand range holds either end, so a clamped number is always out of range,
    /// whichever label it is added to.
    pub offset: i64,
}

/// Whether a label may contain each byte.
fn has_name_bytes(text: &[u8]) -> bool
    ensures { result ≡ list_all is_name_byte text.now }
{
    for c in text {
        if !is_name_byte(*c) {
            return false;
        }
    }
    true
}

/// Whether there is a first byte, and a label may begin with it.
fn begins_name(text: &[u8]) -> bool
    ensures { result ≡ is_name_start (slice_index text.now 0) }
{
    match text {
        [first, ..] => is_name_start(*first),
        [] => false,
    }
}

/// Whether a text is a label's name: a letter or `_`, then letters, digits and `_`, 1 to 32 bytes in all. Case counts.
pub fn is_label(text: &[u8]) -> bool
    ensures { result ≡ is_label text.now }
{
    begins_name(text) && has_name_bytes(text) && text.len() <= 32
}

/// A constructor with a contract in the words of the definitions.
fn numbered(label: Option<&[u8]>, offset: i64) -> Expression<'_>
    ensures { expression result ≡ record { label = option_map (λ t. t.now) label.entry; offset = offset } }
{
    Expression { label, offset }
}

/// A label plus or minus the number that `text` writes without a sign; None if either can't be read.
fn label_and_number<'a>(name: &'a [u8], negative: bool, text: &[u8]) -> Option<Expression<'a>>
    ensures { option_map expression result ≡ option_map capped_expression (label_and_number name.now negative text.now) }
{
    if !is_label(name) {
        return None;
    }
    let number = read_unsigned(text)?;
    Some(numbered(Some(name), signed(number, negative)))
}

/// Reads an expression: a number, a label, or a label, `+` or `-`, and a number without a sign. Blanks are allowed around that
/// sign and nowhere else. None if the text is no expression.
///
/// The first `+` is the sign, or the first `-` if there is no `+`; so `x+-5` and `x+1-1` are no expressions.
pub fn read_expression(text: &[u8]) -> Option<Expression<'_>>
    ensures { option_map expression result ≡ option_map capped_expression (expression_of text.now) }
{
    if is_label(text) {
        return Some(numbered(Some(text), 0));
    }
    if let Some(offset) = number(text) {
        return Some(numbered(None, offset));
    }
    if let Some((name, rest)) = cut(text, Boundary::Plus) {
        return label_and_number(trim(name), false, skip_blanks(rest));
    }
    let (name, rest) = cut(text, Boundary::Minus)?;
    label_and_number(trim(name), true, skip_blanks(rest))
}
