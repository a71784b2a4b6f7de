// Steps, runs, traces and steps back.

ghost use Rattle.std.specs.Prelude.{◌≡◌, ◌<◌, ◌≤◌, ◌↔◌, ◌⊎◌, Some, IfSome, IfNone, IfOk, length, take, drop, option_map};
ghost use Rattle.rsp_machine.specs.Step.{step_of};
ghost use Rattle.rsp_machine.specs.Pass.{pass_of};
ghost use Rattle.rsp_debug.specs.Debugging.{after_debugger_step, after_run, stop_in, move_end_in, after_run_until_move, after_back, set_by_host};
ghost use Rattle.rsp_debug.specs.Traces.{trace_of};
ghost use Rattle.rsp_c.specs.Answers.{step_status, pass_status, moves_from_c};
ghost use Rattle.rsp_c.specs.Calls.{status_of, IsDoneIf, IsNext, IsFilled};
ghost use Rattle.rsp_c.specs.ToC.{c_stop, c_move};

use crate::c_structs::{RspMove, RspStop};
use crate::handle::{RspMachine, with_held};
use crate::status::{NO_MACHINE, OK, OUT_OF_RANGE, SHORT_HISTORY, status_of_pass, status_of_step};
use crate::to_c::{c_move, c_stop};
use rsp_debug::{BackFault, Moves, TraceEntry as RspTraced};
use std::alloc::Global;

/// Makes one step. HALTED or RESERVED if the machine can't, and then nothing changes.
#[unsafe(no_mangle)]
pub extern "C" fn brsp_step(handle: &mut RspMachine, alloc: Global) -> u32
    ensures answer { result ≡ status_of (λ d. step_status (step_of d.state).0) handle.old.debugger }
    ensures next { handle.new.debugger ≡ option_map after_debugger_step handle.old.debugger }
{
    with_held!(handle, alloc, |debugger| {
        status_of_step(debugger.step())
    })
}

/// Makes steps up to a breakpoint, a watch, a halt, a reserved word, or `n` of them, 1 to 1000000, and reports where it stopped.
#[unsafe(no_mangle)]
pub extern "C" fn brsp_run(handle: &mut RspMachine, alloc: Global, n: u32, out: &mut RspStop) -> u32
    ensures range { IsDoneIf (λ d. (1 ≤ n) × (n ≤ 1000000)) handle.old.debugger result }
    ensures stop { IsFilled result (λ d. c_stop (stop_in n d) (after_run n d).state.imem) handle.old.debugger out.old out.new }
    ensures next { IsNext result (after_run n) handle.old.debugger handle.new.debugger }
{
    with_held!(handle, alloc, |debugger| match debugger.run(n) {
        Err(_) => OUT_OF_RANGE,
        Ok(stop) => {
            *out = c_stop(stop, debugger.machine().imem());
            OK
        }
    })
}

/// Runs as `brsp_run` does, and also ends before an MFC0 whose SP register has its bit in `reads`, or an MTC0 whose register has it in
/// `writes`, also before the first step. Such a move comes before the limit, and after the other reasons. OUT_OF_RANGE unless `n` is 1 to
/// 1000000 and both masks are below 65536.
#[unsafe(no_mangle)]
pub extern "C" fn brsp_run_until_move(
    handle: &mut RspMachine,
    alloc: Global,
    n: u32,
    reads: u32,
    writes: u32,
    out: &mut RspMove,
) -> u32
    ensures range { IsDoneIf (λ d. (1 ≤ n) × (n ≤ 1000000) × (reads < 65536) × (writes < 65536)) handle.old.debugger result }
    ensures end { IsFilled result (λ d. c_move (move_end_in n (moves_from_c reads writes) d) (after_run_until_move n (moves_from_c reads writes) d).state.imem) handle.old.debugger out.old out.new }
    ensures next { IsNext result (after_run_until_move n (moves_from_c reads writes)) handle.old.debugger handle.new.debugger }
{
    with_held!(handle, alloc, |debugger| if reads <= 0xffff && writes <= 0xffff => {
        let (reads, writes) = (reads as u16, writes as u16);
        match debugger.run_until_move(n, Moves { reads, writes }) {
            Err(_) => OUT_OF_RANGE,
            Ok(end) => {
                *out = c_move(end, debugger.machine().imem());
                OK
            }
        }
    })
}

/// Runs as `brsp_run` does, for as many steps as `out` has entries, and writes the entry of each step; the other entries stay.
/// OUT_OF_RANGE unless there are 1 to 1000000.
#[unsafe(no_mangle)]
pub extern "C" fn brsp_trace(
    handle: &mut RspMachine,
    alloc: Global,
    out: &mut [RspTraced],
    stop: &mut RspStop,
) -> u32
    ensures range { IsDoneIf (λ d. (1 ≤ length out.old) × (length out.old ≤ 1000000)) handle.old.debugger result }
    ensures stop { IsFilled result (λ d. c_stop (stop_in (length out.old) d) (after_run (length out.old) d).state.imem) handle.old.debugger stop.old stop.new }
    ensures next { IsNext result (after_run (length out.old)) handle.old.debugger handle.new.debugger }
    ensures entries { result ≡ OK → IfSome handle.old.debugger (λ d. take stop.new.steps out.new ≡ trace_of stop.new.steps d.state) }
    ensures rest { result ≡ OK → drop stop.new.steps out.new ≡ drop stop.new.steps out.old }
    ensures refused { (result ≡ OK → ⊥) → out.new ≡ out.old }
{
    with_held!(handle, alloc, |debugger| match debugger.trace(out) {
        Err(_) => OUT_OF_RANGE,
        Ok(found) => {
            *stop = c_stop(found, debugger.machine().imem());
            OK
        }
    })
}

/// Skips the MFC0 or MTC0 at pc, and empties the history: pc and npc advance, and the register of an MFC0 becomes the value. SP registers
/// stay, but single step halts as after any instruction. HALTED if the machine is halted, OTHER_WORD if another word is at pc.
#[unsafe(no_mangle)]
pub extern "C" fn brsp_pass_move(handle: &mut RspMachine, alloc: Global, value: u32) -> u32
    ensures answer { result ≡ status_of (λ d. pass_status (pass_of value d.state)) handle.old.debugger }
    ensures next { IfSome handle.old.debugger (λ d. IfOk (pass_of value d.state) (λ s. handle.new.debugger ≡ Some (set_by_host s d))) }
    ensures same { (result ≡ OK → ⊥) → handle.new.debugger ≡ handle.old.debugger }
{
    with_held!(handle, alloc, |debugger| match debugger.pass(value) {
        Ok(()) => OK,
        Err(fault) => status_of_pass(fault),
    })
}

/// Undoes `n` steps, 1 to 1000000. SHORT_HISTORY if the history holds fewer.
#[unsafe(no_mangle)]
pub extern "C" fn brsp_back(handle: &mut RspMachine, alloc: Global, n: u32) -> u32
    ensures none { IfNone handle.old.debugger (result ≡ NO_MACHINE) }
    ensures count { IfSome handle.old.debugger (λ d. (result ≡ OUT_OF_RANGE) ↔ ((n ≡ 0) ⊎ (1000000 < n))) }
    ensures short { IfSome handle.old.debugger (λ d. (result ≡ SHORT_HISTORY) ↔ ((0 < n) × (n ≤ 1000000) × (length d.past < n))) }
    ensures answer { IfSome handle.old.debugger (λ d. (result ≡ OK) ⊎ (result ≡ OUT_OF_RANGE) ⊎ (result ≡ SHORT_HISTORY)) }
    ensures next { IsNext result (after_back n) handle.old.debugger handle.new.debugger }
{
    with_held!(handle, alloc, |debugger| match debugger.back(n) {
        Ok(()) => OK,
        Err(BackFault::Count) => OUT_OF_RANGE,
        Err(BackFault::ShortHistory) => SHORT_HISTORY,
    })
}

/// How many states the history has: so many steps can be undone.
#[unsafe(no_mangle)]
pub extern "C" fn brsp_history(handle: &mut RspMachine, alloc: Global, out: &mut usize) -> u32
    ensures answer { result ≡ status_of (λ _. OK) handle.old.debugger }
    ensures value { IsFilled result (λ d. length d.past) handle.old.debugger out.old out.new }
    ensures same { handle.new.debugger ≡ handle.old.debugger }
{
    with_held!(handle, alloc, |debugger| do *out = debugger.history_len())
}
