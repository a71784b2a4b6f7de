// Runs, which make steps in stretches. After each stretch a run tests whether there is a reason to stop.
//
// The debugger lends the machine the entries up to the ring's end, and inspects it between stretches. A stretch also
// ends at an address that has a breakpoint, and after a step that may have changed DMEM, so watched bytes are compared
// only there. If there is neither and no history is kept, the machine makes all its steps by one call.

ghost use Rattle.std.specs.Prelude.{◌≡◌, None, unwrap_or};
ghost use Rattle.rsp_debug.specs.Moves.{steps_to_move};
ghost use Rattle.rsp_debug.specs.Snapshots.{differs, watches_of};
ghost use Rattle.rsp_debug.specs.Runs.{step_refusal, Asks, Refuses, IsRun};

use crate::breaks::Breaks;
use crate::conditions::StopConditions;
use crate::history::History;
use crate::moves::{Moves, is_reserved};
use crate::stop::{Reason, Stop};
use crate::watches::Watches;
use rsp_acc::Acc;
use rsp_machine::{Machine, Never, Until};

/// A stop at the machine's pc: it can't make a step, or there is another reason.
#[inline(always)]
pub(crate) fn stopped_here<A: Acc>(machine: &Machine<A>, otherwise: Reason, steps: u32) -> Stop
    ensures { result ≡ record { reason = unwrap_or (step_refusal machine.now) otherwise; steps = steps; pc = machine.now.pc } }
{
    // A reserved word is a reason only if the machine isn't halted. So this is tested first.
    let reason = if machine.sp_regs().halted() {
        Reason::Halted
    } else if is_reserved(machine.imem().aligned_word(usize::from(machine.pc()))) {
        Reason::Reserved
    } else {
        otherwise
    };
    Stop {
        reason,
        steps,
        pc: machine.pc(),
    }
}

/// Runs until one of the conditions holds. `until` ends a stretch of steps wherever one may hold, and refuses the moves. It isn't inlined, so
/// that a run by one call saves few registers of the host.
#[inline(never)]
fn run_to<A: Acc, U: Until>(
    machine: &mut Machine<A>,
    history: &mut History,
    conditions: &StopConditions,
    until: &U,
    n: u32,
) -> Stop
    requires same { differs conditions.now.snapshots.now machine.old.dmem ≡ None }
    requires asks { Asks (U.ends until.now) conditions.now.breaks.now conditions.now.snapshots.now }
    requires refuses { Refuses (U.refuses until.now) conditions.now.moves }
    ensures { IsRun conditions.now.breaks.now (watches_of conditions.now.snapshots.now) (steps_to_move conditions.now.moves n machine.old) machine.old machine.new history.old history.new result }
{
    let mut left = n;
    let mut found = None;
    while left > 0 && found.is_none() {
        let steps = history.stretch(machine, left, until);
        if steps == 0 {
            break;
        }
        left -= steps;
        found = conditions.hit(machine);
    }
    stopped_here(machine, found.unwrap_or(Reason::Limit), n - left)
}

/// [`run`] with watches.
#[inline(never)]
fn run_watching<A: Acc>(
    machine: &mut Machine<A>,
    history: &mut History,
    breaks: &Breaks,
    watches: &Watches,
    moves: Moves,
    n: u32,
) -> Stop
    ensures { IsRun breaks.now watches.now (steps_to_move moves n machine.old) machine.old machine.new history.old history.new result }
{
    let snapshots = watches.snapshots(machine.dmem().bytes());
    let conditions = StopConditions {
        breaks,
        snapshots: &snapshots,
        moves,
    };
    run_to(machine, history, &conditions, &conditions, n)
}

/// Makes the least number of steps, at most `n`, after which there is a reason to stop or one of the moves is next. It is inlined, as are
/// the methods that call it and what they answer by, because a run of few steps costs as much as these calls.
#[inline(always)]
#[tactic(auto, unfolding(crate::specs::Snapshots::differs))]
pub fn run<A: Acc>(
    machine: &mut Machine<A>,
    history: &mut History,
    breaks: &Breaks,
    watches: &Watches,
    moves: Moves,
    n: u32,
) -> Stop
    ensures { IsRun breaks.now watches.now (steps_to_move moves n machine.old) machine.old machine.new history.old history.new result }
{
    if !watches.is_empty() {
        return run_watching(machine, history, breaks, watches, moves, n);
    }
    let conditions = StopConditions {
        breaks,
        snapshots: &[],
        moves,
    };
    if !breaks.is_empty() {
        return run_to(machine, history, &conditions, &conditions, n);
    }
    // At most moves end this run. With a depth of 0 nothing is kept between two steps, so one call makes them all.
    if moves.is_empty() {
        if history.depth() == 0 {
            let steps = machine.steps_until(u64::from(n), &Never) as u32;
            return stopped_here(machine, Reason::Limit, steps);
        }
        return run_to(machine, history, &conditions, &Never, n);
    }
    if history.depth() == 0 {
        let steps = machine.steps_until(u64::from(n), &moves) as u32;
        return stopped_here(machine, Reason::Limit, steps);
    }
    run_to(machine, history, &conditions, &moves, n)
}
