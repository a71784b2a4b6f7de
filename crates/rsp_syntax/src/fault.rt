use thiserror::Error;

/// Why a source text is refused. The number is the fault's, as a script and the program print it.
#[derive(Clone, Copy, PartialEq, Eq, Debug, Error)]
#[error("{}", self.as_str())]
pub enum AsmFaultKind {
    /// 10: the line has more than 256 bytes, or a byte that is neither a tab nor 20 to 7e hexadecimal, or the text before its
    /// first colon is no label's name.
    BadLine,
    /// 11: no instruction has this name, nor is it `nop` or `.word`.
    UnknownName,
    /// 12: there are too few or too many operands, or one that isn't of the kind that the statement has there.
    BadOperand,
    /// 13: the value of an operand is out of its range.
    OutOfRange,
    /// 14: an earlier line has the same label.
    LabelTwice,
    /// 15: no line of the text has the label that an operand names.
    LabelMissing,
    /// 16: a word would be at address 4096 or higher, after the end of IMEM.
    PastEnd,
    /// 17: there was no memory for the line's label. It is the one fault that isn't the text's.
    OutOfMemory,
}

impl AsmFaultKind {
    ghost use Rattle.std.specs.Prelude.{◌≡◌, ◌≤◌, length};
    ghost use Rattle.rsp_syntax.specs.Faults.{kind_name};

    /// The fault's number, a space and its name, at most 15 bytes: `10 BadLine`.
    pub fn as_str(self) -> &'static str
        ensures text { result.now ≡ kind_name self }
        ensures short { length result.now ≤ 15 }
    {
        match self {
            AsmFaultKind::BadLine => "10 BadLine",
            AsmFaultKind::UnknownName => "11 UnknownName",
            AsmFaultKind::BadOperand => "12 BadOperand",
            AsmFaultKind::OutOfRange => "13 OutOfRange",
            AsmFaultKind::LabelTwice => "14 LabelTwice",
            AsmFaultKind::LabelMissing => "15 LabelMissing",
            AsmFaultKind::PastEnd => "16 PastEnd",
            AsmFaultKind::OutOfMemory => "17 OutOfMemory",
        }
    }
}

/// Why a source text is refused, and at which line.
#[derive(Clone, Copy, PartialEq, Eq, Debug, Error)]
#[error("fault {kind} line {line}")]
pub struct AsmFault {
    /// The line's number, from 1.
    pub line: usize,
    /// What is wrong with the line.
    pub kind: AsmFaultKind,
}
