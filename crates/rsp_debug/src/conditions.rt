// What ends a run between two of its steps.

ghost use Rattle.std.specs.Prelude.{◌≡◌, ◌==◌, ◌&&◌, length};
ghost use Rattle.rsp_debug.specs.Breaks.{break_count};
ghost use Rattle.rsp_debug.specs.Runs.{hit_in};

use crate::breaks::Breaks;
use crate::moves::Moves;
use crate::snapshot::{Snapshot, differs};
use crate::stop::Reason;
use rsp_acc::Acc;
use rsp_decode::MoveOp;
use rsp_machine::{Machine, Until};

/// The breakpoints, watches and moves that can end a run, with the watched bytes as they were when the run began.
#[derive(Drop)]
pub(crate) struct StopConditions<'a> {
    pub(crate) breaks: &'a Breaks,
    /// Empty if there is no watch.
    pub(crate) snapshots: &'a [Option<Snapshot>],
    pub(crate) moves: Moves,
}

impl<'a> StopConditions<'a> {
    /// Whether there is neither a breakpoint nor a watch.
    pub(crate) fn is_empty(&self) -> bool
        ensures { result ≡ ((break_count self.now.breaks.now == 0) && (length self.now.snapshots.now == 0)) }
    {
        self.breaks.is_empty() && self.snapshots.is_empty()
    }

    /// The watch or the breakpoint that ends a run after a step.
    #[inline(always)]
    #[tactic(auto, using(crate::proofs::Hits::hits))]
    pub(crate) fn hit<A: Acc>(&self, machine: &Machine<A>) -> Option<Reason>
        ensures { result ≡ hit_in self.now.breaks.now self.now.snapshots.now machine.now }
    {
        if let Some(k) = differs(self.snapshots, machine.dmem().bytes()) {
            return Some(Reason::Watched(k));
        }
        if self.breaks.contains(machine.pc()) {
            return Some(Reason::Break);
        }
        None
    }
}

impl<'a> Until for StopConditions<'a> {
    ghost use Rattle.std.specs.Prelude.{◌||◌, ◌&&◌, ◌==◌, not, length};
    ghost use Rattle.rsp_debug.specs.Stops.{is_break};
    ghost use Rattle.rsp_debug.specs.Runs.{has_move};

    ghost ends = { λ s pc word changes_memory. (changes_memory && not (length s.snapshots.now == 0)) || is_break s.breaks.now pc };

    ghost refuses = { λ s op register. has_move s.moves op register };

    #[inline(always)]
    fn ends(&self, pc: u16, _word: u32, changes_memory: bool) -> bool {
        // In this order a store under a watch doesn't read the table of breakpoints.
        (changes_memory && !self.snapshots.is_empty()) || self.breaks.contains(pc)
    }

    #[inline(always)]
    fn refuses(&self, op: MoveOp, register: u8) -> bool {
        self.moves.refuses(op, register)
    }
}
