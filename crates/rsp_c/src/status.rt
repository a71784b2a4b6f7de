// What a call returns: 0, or a number above 100, because the numbers of faults are below 100.

ghost use Rattle.std.specs.Prelude.{◌≡◌, ◌<◌, ◌%◌, IsTrue, Some, Err};
ghost use Rattle.rsp_c.specs.Answers.{step_status, pass_fault_status, bank_of, is_imem_address, task_status, break_fault_status, add_watch_status, bench_fault_status, fault_number};

use rsp_asm::AsmFaultKind;
use rsp_debug::{BreakFault, WatchFault};
use rsp_feed::BenchFault;
use rsp_machine::{PassFault, StepEnd, TaskFault};
use rsp_memory::Bank;

/// The call succeeded.
pub const OK: u32 = 0;
/// The handle holds no machine.
pub const NO_MACHINE: u32 = 101;
/// An allocation failed.
pub const NO_MEMORY: u32 = 102;
/// An argument is out of its range.
pub const OUT_OF_RANGE: u32 = 103;
/// The machine is halted.
pub const HALTED: u32 = 104;
/// The word at pc is reserved.
pub const RESERVED: u32 = 105;
/// A text has a fault.
pub const NO_MEANING: u32 = 106;
/// A task's structure is at a wrong address.
pub const TASK_PLACE: u32 = 107;
/// A task's boot code has a wrong size.
pub const TASK_SIZE: u32 = 108;
/// Sixteen addresses have a breakpoint.
pub const BREAK_FULL: u32 = 109;
/// The address has a breakpoint.
pub const BREAK_TWICE: u32 = 110;
/// The address has no breakpoint.
pub const NO_BREAK: u32 = 111;
/// There are eight watches.
pub const WATCH_FULL: u32 = 112;
/// The number has no watch.
pub const NO_WATCH: u32 = 113;
/// The history holds fewer states.
pub const SHORT_HISTORY: u32 = 114;
/// A buffer is too short for what there is.
pub const NO_ROOM: u32 = 115;
/// The end of a script was met.
pub const ENDED: u32 = 116;
/// A script has more than 1048576 bytes.
pub const TOO_LONG: u32 = 117;
/// Another word is at pc than the call passes.
pub const OTHER_WORD: u32 = 118;

/// The status of a step.
pub fn status_of_step(end: StepEnd) -> u32
    ensures { result ≡ step_status end }
{
    match end {
        StepEnd::Done => OK,
        StepEnd::Halted => HALTED,
        StepEnd::Reserved { word: _ } => RESERVED,
    }
}

/// The status of a word that can't be passed.
pub fn status_of_pass(fault: PassFault) -> u32
    ensures { result ≡ pass_fault_status fault }
{
    match fault {
        PassFault::Halted => HALTED,
        PassFault::OtherWord => OTHER_WORD,
    }
}

/// The status of a task that can't start.
pub fn status_of_task(fault: TaskFault) -> u32
    ensures { result ≡ task_status (Some fault) }
{
    match fault {
        TaskFault::TaskPlace => TASK_PLACE,
        TaskFault::TaskSize => TASK_SIZE,
    }
}

/// The status of a breakpoint that can't be added.
pub fn status_of_break(fault: BreakFault) -> u32
    ensures { result ≡ break_fault_status (Some fault) }
{
    match fault {
        BreakFault::BreakFull => BREAK_FULL,
        BreakFault::BreakTwice => BREAK_TWICE,
    }
}

/// The status of a watch that can't be added.
pub fn status_of_watch(fault: WatchFault) -> u32
    ensures { result ≡ add_watch_status (Err fault) }
{
    match fault {
        WatchFault::WatchRange => OUT_OF_RANGE,
        WatchFault::WatchFull => WATCH_FULL,
    }
}

/// The status of a bench that refuses.
pub fn status_of_bench(fault: BenchFault) -> u32
    ensures { result ≡ bench_fault_status fault }
{
    match fault {
        BenchFault::Ended => ENDED,
        BenchFault::ScriptTooLong => TOO_LONG,
        BenchFault::OutOfMemory => NO_MEMORY,
    }
}

/// The bank of a number: 0 for DMEM, 1 for IMEM, 2 for the RDRAM.
pub fn bank_of(number: u32) -> Option<Bank>
    ensures { result ≡ bank_of number }
{
    match number {
        0 => Some(Bank::Dmem),
        1 => Some(Bank::Imem),
        2 => Some(Bank::Rdram),
        _ => None,
    }
}

/// Whether a number is an address of a word of IMEM, a multiple of 4 below 4096.
pub fn is_imem_address(number: u32) -> bool
    ensures value { result ≡ is_imem_address number }
    ensures below { IsTrue result → number < 4096 }
    ensures whole { IsTrue result → number % 4 ≡ 0 }
{
    number < 4096 && number % 4 == 0
}

/// The number of a fault of a text.
pub fn fault_number(kind: AsmFaultKind) -> u32
    ensures { result ≡ fault_number kind }
{
    match kind {
        AsmFaultKind::BadLine => 10,
        AsmFaultKind::UnknownName => 11,
        AsmFaultKind::BadOperand => 12,
        AsmFaultKind::OutOfRange => 13,
        AsmFaultKind::LabelTwice => 14,
        AsmFaultKind::LabelMissing => 15,
        AsmFaultKind::PastEnd => 16,
        AsmFaultKind::OutOfMemory => 17,
    }
}
