ghost use Rattle.std.specs.Prelude.{◌≡◌};
ghost use Rattle.rsp_cli.specs.Ends.{status_code};

/// The exit status of the program.
#[derive(Clone, Copy, Debug, PartialEq, Eq)]
pub enum Status {
    /// 0: all is done, or the version printed. A fault in a reply to a script doesn't change that.
    Done,
    /// 1: a fault. A line on standard error names it.
    Faulted,
    /// 2: the command line is refused, or asked for help.
    Refused,
}

impl Status {
    /// The number that the process ends with.
    pub fn code(self) -> u8
        ensures { result ≡ status_code self }
    {
        match self {
            Status::Done => 0,
            Status::Faulted => 1,
            Status::Refused => 2,
        }
    }
}
