// Each fault names itself, as a reply prints it. Faults of the assembler have a line too, and name themselves in `rsp_syntax`.

ghost use Rattle.std.specs.Prelude.{◌≡◌, ℕ, ◌≤◌, List, length};
ghost use Rattle.rsp_commands.specs.Faults.{line_fault_name};
ghost use Rattle.rsp_bench.specs.Faults.{range_name, task_fault_name, break_fault_name, no_break_name, watch_fault_name, no_watch_name, count_name, back_fault_name};

use rsp_commands::LineFault;
use rsp_debug::{BackFault, BreakFault, CountFault, NoBreak, NoWatch, WatchFault};
use rsp_machine::{RangeFault, TaskFault};

/// A fault that a reply names.
pub(crate) trait NamedFault {
    /// Its number and its name.
    ghost text: { Self → List ℕ };

    /// The number and the name of the fault, as in `6 RangeFault`.
    fn name(self) -> &'static str
        ensures text { result.now ≡ text self }
        ensures short { length result.now ≤ 32 };
}

impl NamedFault for LineFault {
    ghost text = { line_fault_name };

    fn name(self) -> &'static str {
        self.as_str()
    }
}

impl NamedFault for RangeFault {
    ghost text = { λ _. range_name };

    fn name(self) -> &'static str {
        "6 RangeFault"
    }
}

impl NamedFault for TaskFault {
    ghost text = { task_fault_name };

    fn name(self) -> &'static str {
        match self {
            TaskFault::TaskPlace => "4 TaskPlace",
            TaskFault::TaskSize => "5 TaskSize",
        }
    }
}

impl NamedFault for BreakFault {
    ghost text = { break_fault_name };

    fn name(self) -> &'static str {
        match self {
            BreakFault::BreakFull => "20 BreakFull",
            BreakFault::BreakTwice => "21 BreakTwice",
        }
    }
}

impl NamedFault for NoBreak {
    ghost text = { λ _. no_break_name };

    fn name(self) -> &'static str {
        "22 NoBreak"
    }
}

impl NamedFault for WatchFault {
    ghost text = { watch_fault_name };

    fn name(self) -> &'static str {
        match self {
            WatchFault::WatchFull => "23 WatchFull",
            WatchFault::WatchRange => "25 WatchRange",
        }
    }
}

impl NamedFault for NoWatch {
    ghost text = { λ _. no_watch_name };

    fn name(self) -> &'static str {
        "24 NoWatch"
    }
}

impl NamedFault for CountFault {
    ghost text = { λ _. count_name };

    fn name(self) -> &'static str {
        "26 Count"
    }
}

impl NamedFault for BackFault {
    ghost text = { back_fault_name };

    fn name(self) -> &'static str {
        match self {
            BackFault::Count => "26 Count",
            BackFault::ShortHistory => "27 ShortHistory",
        }
    }
}
