// The fields of expressions.

ghost use Rattle.std.specs.Prelude.{◌≡◌, ◌≤◌, ℤ, pos, ◌+ℤ◌, Some};
ghost use Rattle.rsp_syntax.specs.Capping.{capped_ℤ};
ghost use Rattle.rsp_syntax.specs.Numbers as numbers;
ghost use Rattle.rsp_syntax.specs.Capping.{expression, capped_expression};
ghost use Rattle.rsp_syntax.specs.Statement.{field, evaluate, field_of, number_fails};

use crate::labels::Labels;
use crate::ranges::{amount, branch, half, jump, scaled_offset, word};
use rsp_syntax::{AsmFaultKind, Expression, OperandRange};

/// The field of `label_address + offset`, for a statement at `address`; None if that is out of the range. A sum that saturates is
/// out of each range too.
fn field(range: OperandRange, address: u16, label_address: u16, offset: i64) -> Option<u32>
    requires { address ≤ 4096 }
    ensures { (z : ℤ) → offset ≡ capped_ℤ z → result ≡ field range address (pos label_address +ℤ z) }
{
    let value = i64::from(label_address).saturating_add(offset);
    match range {
        OperandRange::Half => half(value),
        OperandRange::Amount => amount(value),
        OperandRange::Jump => jump(value),
        OperandRange::Branch => branch(address, value),
        OperandRange::Scaled(scale) => scaled_offset(scale, value),
        OperandRange::Word => word(value),
    }
}

/// Whether an expression is out of the range whatever the labels are: it names no label, and its number is out of the range.
pub(crate) fn is_beyond(range: OperandRange, e: Expression<'_>, address: u16) -> bool
    requires { address ≤ 4096 }
    ensures { (x : numbers.Expression) → expression e.entry ≡ capped_expression x → result ≡ number_fails address (Some (range, x)) }
{
    e.label.is_none() && field(range, address, 0, e.offset).is_none()
}

/// The field of an expression, for a statement at `address`. A label that no line has is refused as LabelMissing, and a value
/// out of the range as OutOfRange.
pub(crate) fn expression_field(
    range: OperandRange,
    e: Expression<'_>,
    address: u16,
    labels: &Labels<'_>,
) -> Result<u32, AsmFaultKind>
    requires { address ≤ 4096 }
    ensures { (x : numbers.Expression) → expression e.entry ≡ capped_expression x → result ≡ field_of range address (evaluate labels.now x) }
{
    let label_address = match e.label {
        None => 0,
        Some(name) => labels.find(name).ok_or(AsmFaultKind::LabelMissing)?,
    };
    field(range, address, label_address, e.offset).ok_or(AsmFaultKind::OutOfRange)
}
