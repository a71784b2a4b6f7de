// Runs to the next event, for a host that owns the RDRAM, and passes over a DMA whose bytes it moves.

ghost use Rattle.std.specs.Prelude.{◌≡◌, ◌<◌, ◌≤◌, ◌⊎◌, Some, IfSome, IfOk};
ghost use Rattle.rsp_machine.specs.Laws.{steps_of};
ghost use Rattle.rsp_machine.specs.Pass.{pass_dma_of};
ghost use Rattle.rsp_debug.specs.Debugging.{after_run, set_by_host};
ghost use Rattle.rsp_c.specs.Answers.{pass_status};
ghost use Rattle.rsp_c.specs.Calls.{status_of, IsDoneIf, IsNext, IsFilled};
ghost use Rattle.rsp_c.specs.Events.{event_end, c_reached, is_status_write, c_after_status, event_of, after_event};

use crate::c_structs::RspMove;
use crate::handle::{RspMachine, with_held};
use crate::status::{OK, OUT_OF_RANGE, status_of_pass};
use crate::to_c::{AT_DMA, AT_INTERRUPT, AT_STATUS, c_move};
use rsp_acc::Acc;
use rsp_debug::{Debugger, MoveEnd, Moves, Reason, Stop};
use rsp_machine::Machine;
use rsp_regs::Dma as RspDma;
use std::alloc::Global;

/// What a run reached.
#[repr(C)]
#[derive(Clone, Copy, Drop)]
pub struct RspReached {
    /// Where it stopped, with the move that is next, if one is. Before a DMA the reason is 6. After a write of SP_STATUS it is one of a run, such
    /// as 1 if the machine is then halted; else 7 if that step raised the interrupt; else 8.
    pub at: RspMove,
    /// The DMA that is next; zeros if none is.
    pub dma: RspDma,
    /// SP_STATUS.
    pub status: u32,
    /// 1 if the interrupt flag is set, else 0, whatever the reason is.
    pub interrupt: u32,
}

/// The length registers, as a mask.
const LENGTH_REGISTERS: u16 = 12;
/// The same with SP_STATUS.
const STATUS_AND_LENGTH_REGISTERS: u16 = 28;
/// The bit of `writes` that asks for the writes of SP_STATUS.
const STATUS_WRITES: u32 = 0x1_0000;

/// The end of a run of at most `n` steps. If all of them are made, it is at the limit, and a move that is next isn't reported.
fn event_end(n: u32, end: MoveEnd) -> MoveEnd
    ensures { result ≡ event_end n end }
{
    match end {
        MoveEnd::Move { steps, pc, .. } if steps == n => MoveEnd::Stop(Stop {
            reason: Reason::Limit,
            steps,
            pc,
        }),
        _ => end,
    }
}

/// What a run reached that ended so.
#[inline(always)]
fn c_reached<A: Acc>(end: MoveEnd, machine: &Machine<A>) -> RspReached
    ensures { result ≡ c_reached end machine.now }
{
    let sp = machine.sp_regs();
    let mut at = c_move(end, machine.imem());
    let mut dma = RspDma::none();
    if at.writes == 1
        && let Some(found) = sp.described(at.number, at.value)
    {
        at.stop.reason = AT_DMA;
        dma = found;
    }
    RspReached {
        at,
        dma,
        status: sp.peek(4),
        interrupt: if sp.interrupt() { 1 } else { 0 },
    }
}

/// Whether a run ended before a write of SP_STATUS.
fn is_status_write(end: MoveEnd) -> bool
    ensures { result ≡ is_status_write end }
{
    matches!(
        end,
        MoveEnd::Move {
            register: 4,
            writes: true,
            ..
        }
    )
}

/// Makes the step of a write of SP_STATUS, after a run of `steps`, and reports what that comes to. The call makes this step itself,
/// because the step alone knows whether the interrupt was raised, and a breakpoint after it would be missed if the caller made it. It
/// ends after each such write, because a loop inside the call would need a definition of its own. It isn't inlined, so that an event
/// without it saves few registers of the host.
#[inline(never)]
fn step_status<A: Acc>(debugger: &mut Debugger<A>, steps: u32) -> RspReached
    requires { steps < 1000000 }
    ensures reached { result ≡ c_after_status steps debugger.old }
    ensures next { debugger.new ≡ after_run 1 debugger.old }
{
    let before = debugger.machine().sp_regs().interrupt();
    let Ok(stop) = debugger.run(1) else {
        unreachable!()
    };
    let machine = debugger.machine();
    let steps = steps + 1;
    let mut reached = c_reached(MoveEnd::Stop(Stop { steps, ..stop }), machine);
    if matches!(stop.reason, Reason::Limit) {
        let raised = machine.sp_regs().interrupt() && !before;
        reached.at.stop.reason = if raised { AT_INTERRUPT } else { AT_STATUS };
    }
    reached
}

/// Runs as `brsp_run_until_move` does, also up to each DMA, and reports what is next. A move or a DMA is reported only if fewer than `n`
/// steps are made: if all are, the end is at the limit. So passing over it is one of the `n` steps too. With bit 16 of `writes` a run also
/// ends after each write of SP_STATUS, whose step it makes and counts. OUT_OF_RANGE unless `n` is 1 to 1000000, `reads` is below 65536 and
/// `writes` is below 131072.
#[unsafe(no_mangle)]
pub extern "C" fn brsp_event(
    handle: &mut RspMachine,
    alloc: Global,
    n: u32,
    reads: u32,
    writes: u32,
    out: &mut RspReached,
) -> u32
    ensures range { IsDoneIf (λ d. (1 ≤ n) × (n ≤ 1000000) × (reads < 65536) × (writes < 131072)) handle.old.debugger result }
    ensures event { IsFilled result (event_of n reads writes) handle.old.debugger out.old out.new }
    ensures reached { result ≡ OK → IfSome handle.old.debugger (λ d. IfSome handle.new.debugger (λ e. e.state ≡ steps_of out.new.at.stop.steps d.state)) }
    ensures within { result ≡ OK → out.new.at.stop.steps ≤ n }
    ensures counted { result ≡ OK → (out.new.at.stop.reason ≡ 5) ⊎ (out.new.at.stop.reason ≡ 6) → out.new.at.stop.steps < n }
    ensures next { IsNext result (after_event n reads writes) handle.old.debugger handle.new.debugger }
{
    with_held!(handle, alloc, |debugger| if reads <= 0xffff && writes <= 0x1_ffff => {
        let asked = writes >= STATUS_WRITES;
        let more = if asked { STATUS_AND_LENGTH_REGISTERS } else { LENGTH_REGISTERS };
        let moves = Moves { reads: reads as u16, writes: (writes % 0x1_0000) as u16 | more };
        match debugger.run_until_move(n, moves) {
            Err(_) => OUT_OF_RANGE,
            Ok(end) => {
                let end = event_end(n, end);
                // Each arm writes `out` itself, because LLVM copies a value that both make.
                match end {
                    MoveEnd::Move { steps, .. } if asked && is_status_write(end) => *out = step_status(&mut debugger, steps),
                    _ => *out = c_reached(end, debugger.machine()),
                }
                OK
            }
        }
    })
}

/// Passes over the DMA at pc, whose bytes the host then moves, and empties the history. All is as after a step, the SP registers too, but
/// the memories stay. HALTED if the machine is halted, OTHER_WORD if the word at pc starts no DMA.
#[unsafe(no_mangle)]
pub extern "C" fn brsp_pass_dma(handle: &mut RspMachine, alloc: Global) -> u32
    ensures answer { result ≡ status_of (λ d. pass_status (pass_dma_of d.state)) handle.old.debugger }
    ensures next { IfSome handle.old.debugger (λ d. IfOk (pass_dma_of d.state) (λ s. handle.new.debugger ≡ Some (set_by_host s d))) }
    ensures same { (result ≡ OK → ⊥) → handle.new.debugger ≡ handle.old.debugger }
{
    with_held!(handle, alloc, |debugger| match debugger.pass_dma() {
        Ok(()) => OK,
        Err(fault) => status_of_pass(fault),
    })
}
