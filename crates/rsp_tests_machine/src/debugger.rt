use crate::machines::machine_of;
use rsp_acc::PlaneAcc;
use rsp_debug::{BackFault, CountFault, Debugger, Reason, Stop};
use rsp_machine::{Machine, StepEnd};
use std::alloc::{AllocError, Global};
use std::process::Abort;

/// `addiu $1, $1, 1`, `j 0` and `nop`.
pub const COUNTING: [u32; 3] = [0x2421_0001, 0x0800_0000, 0];

/// A debugger that keeps so many states, of a machine with these words.
pub fn debugger_of(
    rt: &impl Abort,
    alloc: Global,
    words: &[u32],
    depth: u8,
) -> Result<Debugger<PlaneAcc>, AllocError> {
    let machine: Machine<PlaneAcc> = machine_of(rt, alloc, words)?;
    match Debugger::try_new(alloc, machine, usize::from(depth)) {
        Ok(debugger) => Ok(debugger),
        Err((_, fault)) => Err(fault),
    }
}

/// A way back: over how many steps, and the answer.
type Back = (u32, Result<(), BackFault>);

/// How many states are kept, a way back after the first step, a run of so many steps and pc then, three more ways back, and pc, npc
/// and register 1 at the end.
const WALKS: [(u8, Back, u32, u16, [Back; 3], (u16, u16, u32)); 3] = [
    (
        0,
        (1, Err(BackFault::ShortHistory)),
        9,
        4,
        [
            (1, Err(BackFault::ShortHistory)),
            (0, Err(BackFault::Count)),
            (1, Err(BackFault::ShortHistory)),
        ],
        (4, 8, 4),
    ),
    (
        1,
        (2, Err(BackFault::ShortHistory)),
        3,
        4,
        [
            (2, Err(BackFault::ShortHistory)),
            (1, Ok(())),
            (1, Err(BackFault::ShortHistory)),
        ],
        (0, 4, 1),
    ),
    (
        2,
        (2, Err(BackFault::ShortHistory)),
        4,
        8,
        [
            (0, Err(BackFault::Count)),
            (3, Err(BackFault::ShortHistory)),
            (2, Ok(())),
        ],
        (0, 4, 1),
    ),
];

/// A run that makes all its steps.
fn whole(steps: u32, pc: u16) -> Result<Stop, CountFault> {
    let reason = Reason::Limit;
    Ok(Stop { reason, steps, pc })
}

#[test]
fn goes_back_as_far_as_it_keeps(rt: HostRuntime) -> Result<(), AllocError> {
    for (depth, early, steps, pc, [first, second, third], place) in WALKS {
        let mut debugger = debugger_of(&rt, rt.alloc(), &COUNTING, depth)?;
        let is_run = debugger.step() == StepEnd::Done
            && debugger.back(early.0) == early.1
            && debugger.run(steps) == whole(steps, pc);
        let is_back = debugger.back(first.0) == first.1
            && debugger.back(second.0) == second.1
            && debugger.back(third.0) == third.1;
        let regs = debugger.regs();
        assert!(rt;
            is_run && is_back && (regs.pc, regs.npc, regs.words[1]) == place,
            "{depth}"
        );
    }
    Ok(())
}
