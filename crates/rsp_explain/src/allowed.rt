use rsp_advice::form_of;
use rsp_asm::{AsmFaultKind, Bounds, Expected};
use rsp_decode::Operand;
use std::fmt::{self, Display, Formatter, Write};

/// What may be in the place of an operand that has a fault: the form of one that can't be read, the range of one that can.
#[derive(Clone, Copy)]
pub(crate) struct Allowed {
    pub(crate) expected: Expected,
    pub(crate) fault: AsmFaultKind,
}

/// The kind of operand whose text has the same form as what a statement takes. None if it takes nothing.
pub(crate) fn kind_of(expected: Expected) -> Option<Operand> {
    match expected {
        Expected::Kind(kind) => Some(kind),
        Expected::Number => Some(Operand::Signed),
        Expected::Nothing => None,
    }
}

impl Display for Allowed {
    fn fmt<W: Write>(&self, f: &mut Formatter<W>) -> fmt::Result {
        let (before, after) = match (self.fault, kind_of(self.expected)) {
            (AsmFaultKind::BadOperand, Some(kind)) => form_of(kind),
            (AsmFaultKind::BadOperand, None) => ("nothing", ""),
            (AsmFaultKind::LabelMissing, _) => ("the label of a line, or ", ""),
            _ => ("", ""),
        };
        f.write_str(before)?;
        if let Some(bounds) = self.expected.bounds() {
            write_bounds(f, bounds)?;
        }
        f.write_str(after)
    }
}

fn write_bounds<W: Write>(f: &mut Formatter<W>, bounds: Bounds) -> fmt::Result {
    let Bounds { low, high, step } = bounds;
    if step > 1 {
        write!(f, "{low} to {high}, a multiple of {step}")
    } else {
        write!(f, "{low} to {high}")
    }
}
