// The operands of `.word`.

ghost use Rattle.std.specs.Prelude.{◌≡◌, option_map};
ghost use Rattle.rsp_syntax.specs.Numbers.{expression_of};
ghost use Rattle.rsp_syntax.specs.OperandResults.{word_fails, word_value};

use crate::labels::Labels;
use crate::values::{expression_field, is_beyond};
use rsp_syntax::{AsmFaultKind, OperandRange, read_expression};

/// Whether an operand of `.word` is out of range whatever the labels are: it names no label, and isn't from -2^31 to 2^32 - 1.
/// None if the text is no expression.
pub fn is_number_out_of_range(text: &[u8]) -> Option<bool>
    ensures { result ≡ option_map word_fails (expression_of text.now) }
{
    let e = read_expression(text)?;
    Some(is_beyond(OperandRange::Word, e, 0))
}

/// The word of an operand of `.word`, its value modulo 2^32. None if the text is no expression.
///
/// A label that isn't in `labels` is refused as LabelMissing, and a value below -2^31 or above 2^32 - 1 as OutOfRange.
pub fn number_word(text: &[u8], labels: &Labels<'_>) -> Option<Result<u32, AsmFaultKind>>
    ensures { result ≡ option_map (word_value labels.now) (expression_of text.now) }
{
    let e = read_expression(text)?;
    Some(expression_field(OperandRange::Word, e, 0, labels))
}
