use thiserror::Error;

/// Why a line of a script is no command. If several apply, it is the first of LineTooLong, NotText, BadCommand, BadNumber.
#[derive(Clone, Copy, Debug, PartialEq, Eq, Error)]
#[error("{}", self.as_str())]
pub enum LineFault {
    /// Fault 30: an unknown name, a wrong count of operands or a wrong bank.
    BadCommand,
    /// Fault 31: an operand that is no number, one out of its range, or bad hexadecimal bytes.
    BadNumber,
    /// Fault 32: more than 256 bytes.
    LineTooLong,
    /// Fault 33: a byte other than a tab and the printable ones of ASCII, 20 to 7e hexadecimal.
    NotText,
}

impl LineFault {
    ghost use Rattle.std.specs.Prelude.{◌≡◌, ◌≤◌, length};
    ghost use Rattle.rsp_commands.specs.Faults.{line_fault_name};

    /// The number and the name of the fault, as a reply prints them.
    pub fn as_str(self) -> &'static str
        ensures text { result.now ≡ line_fault_name self }
        ensures short { length result.now ≤ 14 }
    {
        match self {
            LineFault::BadCommand => "30 BadCommand",
            LineFault::BadNumber => "31 BadNumber",
            LineFault::LineTooLong => "32 LineTooLong",
            LineFault::NotText => "33 NotText",
        }
    }
}
