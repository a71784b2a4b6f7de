// A run that writes an entry for each step.

ghost use Rattle.std.specs.Prelude.{◌≡◌, ◌≤◌, ◌↔◌, length, take, drop, IsOk, IfOk, OnOk, OnErr};
ghost use Rattle.rsp_debug.specs.Debugging.{stop_in, after_run};
ghost use Rattle.rsp_debug.specs.Runs.{IsRun};
ghost use Rattle.rsp_debug.specs.Traces.{trace_of};

use crate::breaks::Breaks;
use crate::conditions::StopConditions;
use crate::debugger::{CountFault, Debugger, RUN_LIMIT};
use crate::history::History;
use crate::moves::Moves;
use crate::run::stopped_here;
use crate::stop::{Reason, Stop};
use crate::trace_entry::{TraceEntry, entry_of};
use crate::watches::Watches;
use rsp_acc::Acc;
use rsp_machine::{Machine, StepEnd, Writes};

/// Makes the least number of steps after which there is a reason to stop, at most as many as there are entries, and writes an entry for each.
fn trace<A: Acc>(
    machine: &mut Machine<A>,
    history: &mut History,
    breaks: &Breaks,
    watches: &Watches,
    out: &mut [TraceEntry],
) -> Stop
    requires { length out.old ≤ 1000000 }
    ensures run { IsRun breaks.now watches.now (length out.old) machine.old machine.new history.old history.new result }
    ensures entries { take result.steps out.new ≡ trace_of result.steps machine.old }
    ensures rest { drop result.steps out.new ≡ drop result.steps out.old }
{
    let snapshots = watches.snapshots(machine.dmem().bytes());
    let conditions = StopConditions {
        breaks,
        snapshots: if watches.is_empty() { &[] } else { &snapshots },
        moves: Moves::none(),
    };
    let n = out.len();
    let tests = !conditions.is_empty();
    let mut made = 0;
    let mut found = None;
    while made < n && found.is_none() {
        let pc = machine.pc();
        let word = machine.imem().aligned_word(usize::from(pc));
        let writes = Writes::of(machine);
        let StepEnd::Done = history.recorded_step(machine) else {
            break;
        };
        out[made] = entry_of(pc, word, writes, machine);
        if tests {
            found = conditions.hit(machine);
        }
        made += 1;
    }
    stopped_here(machine, found.unwrap_or(Reason::Limit), made as u32)
}

impl<A: Acc> Debugger<A> {
    /// As [`Debugger::run`] of as many steps as `out` has entries, and writes the entry of each step; the other entries stay. CountFault
    /// unless there are 1 to 1000000 entries.
    pub fn trace(&mut self, out: &mut [TraceEntry]) -> Result<Stop, CountFault>
        ensures count { IsOk result ↔ ((1 ≤ length out.old) × (length out.old ≤ 1000000)) }
        ensures stop { IfOk result (λ stop. stop ≡ stop_in (length out.old) self.old) }
        ensures next { OnOk result (self.new ≡ after_run (length out.old) self.old) }
        ensures entries { IfOk result (λ stop. take stop.steps out.new ≡ trace_of stop.steps self.old.state) }
        ensures rest { IfOk result (λ stop. drop stop.steps out.new ≡ drop stop.steps out.old) }
        ensures err { OnErr result (self.new ≡ self.old) }
        ensures kept { OnErr result (out.new ≡ out.old) }
    {
        if out.is_empty() || out.len() > RUN_LIMIT as usize {
            return Err(CountFault);
        }
        Ok(trace(
            &mut self.machine,
            &mut self.history,
            &self.breaks,
            &self.watches,
            out,
        ))
    }
}
