// A machine that can be stopped and stepped back.

ghost use Rattle.std.specs.Prelude.{◌≡◌, ◌<◌, ◌≤◌, ◌%◌, ◌⊎◌, ◌↔◌, Some, None, length, OnOk, OnErr, IfOk, IfErr, IsOk, IsErrOf, IsTrue, MatchResult};
ghost use Rattle.rsp_machine.specs.Step.{step_of};
ghost use Rattle.rsp_machine.specs.Laws.{steps_of};
ghost use Rattle.rsp_debug.specs.Stops.{is_break};
ghost use Rattle.rsp_debug.specs.Moves.{end_steps};
ghost use Rattle.rsp_debug.specs.Breaks.{break_count, break_fault};
ghost use Rattle.rsp_debug.specs.Watches.{number_for, has_watch};
ghost use Rattle.rsp_debug.specs.Debugging.{debugging_of, after_debugger_step, stop_in, move_end_in, after_run, after_run_until_move, with_breakpoint, without_breakpoint, with_new_watch, with_watch_dropped, after_back};

use crate::breaks::{BreakFault, Breaks, NoBreak};
use crate::history::History;
use crate::moves::{MoveEnd, Moves};
use crate::run::run;
use crate::stop::Stop;
use crate::watches::{NoWatch, WatchFault, Watches};
use rsp_acc::Acc;
use rsp_machine::{Machine, StepEnd};
use std::alloc::{AllocError, Global};
use std::marker::Model;

/// The most steps of a run, and of a step back.
pub(crate) const RUN_LIMIT: u32 = 1_000_000;

/// Fault 26, Count: a run of no steps, or of more than 1000000.
#[derive(Clone, Copy, Debug, PartialEq, Eq, Drop)]
pub struct CountFault;

/// Why steps can't be undone. Count comes first.
#[derive(Clone, Copy, Debug, PartialEq, Eq, Drop)]
pub enum BackFault {
    /// Fault 26: the count isn't 1 to 1000000.
    Count,
    /// Fault 27: the history has fewer states.
    ShortHistory,
}

/// A machine with breakpoints, watches and a history. Contracts see the record `Debugging`: the machine's state; for each of the
/// 1024 words of IMEM whether it has a breakpoint; the watches of the numbers 0 to 7; `past`, the states of the history, the newest
/// first; and how many of them are kept at most.
///
/// The history is empty at the start. A step that returns Done adds the state before it, and drops the oldest state if there were as
/// many as are kept. A step that starts a DMA empties it. So do a read of the semaphore, and each accepted load, task, new pc, and
/// write of an SP register or of all registers.
#[derive(Drop)]
pub struct Debugger<A: Acc> {
    pub(crate) machine: Machine<A>,
    pub(crate) breaks: Breaks,
    pub(crate) watches: Watches,
    pub(crate) history: History,
}

impl<A: Acc> Model for Debugger<A> {
    ghost use Rattle.rsp_debug.specs.HistoryRing.{states_before};
    ghost use Rattle.rsp_debug.specs.Debugging.{Debugging};

    ghost Value = { Debugging };

    ghost view = { λ d. record {
      state = d.machine;
      breaks = d.breaks;
      watches = d.watches;
      past = states_before d.machine d.history.newest;
      depth = d.history.depth;
    } };
}

impl<A: Acc> Debugger<A> {
    /// A debugger of a machine, without breakpoints and watches, with an empty history of at most `depth` states. `depth` is 0 to
    /// 4096. All memory is allocated here; if that fails, the machine is returned with the fault.
    pub fn try_new(
        alloc: Global,
        machine: Machine<A>,
        depth: usize,
    ) -> Result<Debugger<A>, (Machine<A>, AllocError)>
        ensures ok { IfOk result (λ d. d ≡ debugging_of depth machine) }
        ensures err { IfErr result (λ e. e.0 ≡ machine) }
    {
        match History::try_new(alloc, depth) {
            Ok(history) => Ok(Debugger {
                machine,
                breaks: Breaks::new(),
                watches: Watches::new(),
                history,
            }),
            Err(fault) => Err((machine, fault)),
        }
    }

    /// How many states a step back can reach at most.
    #[tactic(auto, using(crate::proofs::HistoryRecords::more))]
    pub fn depth(&self) -> usize
        ensures value { result ≡ self.now.depth }
        ensures within { length self.now.past ≤ result }
    {
        self.history.depth()
    }

    /// How many states the history has: so many steps can be undone.
    #[tactic(auto, using(crate::proofs::HistoryRecords::more))]
    pub fn history_len(&self) -> usize
        ensures value { result ≡ length self.now.past }
        ensures within { result ≤ self.now.depth }
    {
        self.history.len()
    }

    /// Makes one step, as [`Machine::step`] does.
    pub fn step(&mut self) -> StepEnd
        ensures answer { result ≡ (step_of self.old.state).0 }
        ensures next { self.new ≡ after_debugger_step self.old }
    {
        self.history.recorded_step(&mut self.machine)
    }

    /// Adds a breakpoint at an address of IMEM, a multiple of 4 below 4096: a run stops when a step leads there. BreakTwice if the
    /// address has one, else BreakFull if sixteen addresses have one.
    pub fn add_break(&mut self, address: u16) -> Result<(), BreakFault>
        requires below { address < 4096 }
        requires whole { address % 4 ≡ 0 }
        ensures fault { MatchResult result (λ _. break_fault address self.old.breaks ≡ None) (λ f. break_fault address self.old.breaks ≡ Some f) }
        ensures ok { OnOk result (self.new ≡ with_breakpoint address self.old) }
        ensures err { OnErr result (self.new ≡ self.old) }
        ensures few { break_count self.new.breaks ≤ 16 }
    {
        self.breaks.add(address)
    }

    /// Removes the breakpoint of an address of IMEM, a multiple of 4 below 4096. NoBreak if it has none.
    pub fn drop_break(&mut self, address: u16) -> Result<(), NoBreak>
        requires below { address < 4096 }
        requires whole { address % 4 ≡ 0 }
        ensures had { IsOk result ↔ IsTrue (is_break self.old.breaks address) }
        ensures ok { OnOk result (self.new ≡ without_breakpoint address self.old) }
        ensures err { OnErr result (self.new ≡ self.old) }
    {
        self.breaks.remove(address)
    }

    /// Watches `len` bytes of DMEM from an address on, and returns the watch's number, the lowest that is free: a run stops after a step that changes
    /// one of them. WatchRange unless they are 1 to 64 bytes inside DMEM, else WatchFull if there are eight watches.
    pub fn add_watch(&mut self, address: u32, len: u32) -> Result<usize, WatchFault>
        ensures answer { result ≡ number_for address len self.old.watches }
        ensures ok { IfOk result (λ k. self.new ≡ with_new_watch k address len self.old) }
        ensures err { OnErr result (self.new ≡ self.old) }
    {
        self.watches.add(address, len)
    }

    /// Removes the watch of a number. NoWatch if there is none.
    pub fn drop_watch(&mut self, k: u32) -> Result<(), NoWatch>
        ensures had { IsOk result ↔ IsTrue (has_watch k self.old.watches) }
        ensures ok { OnOk result (self.new ≡ with_watch_dropped k self.old) }
        ensures err { OnErr result (self.new ≡ self.old) }
    {
        self.watches.remove(k)
    }

    /// Makes steps until there is a reason to stop, at most `n`. The reasons, in their order: the word at pc is reserved and the
    /// machine isn't halted; it is halted; the last step changed a byte of a watch (the stop has the lowest number of such a watch);
    /// the last step led to a breakpoint; `n` steps are made. CountFault unless `n` is 1 to 1000000.
    #[inline(always)]
    pub fn run(&mut self, n: u32) -> Result<Stop, CountFault>
        ensures count { IsOk result ↔ ((1 ≤ n) × (n ≤ 1000000)) }
        ensures stop { IfOk result (λ stop. stop ≡ stop_in n self.old) }
        ensures reached { IfOk result (λ stop. self.new.state ≡ steps_of stop.steps self.old.state) }
        ensures next { OnOk result (self.new ≡ after_run n self.old) }
        ensures err { OnErr result (self.new ≡ self.old) }
    {
        if n == 0 || n > RUN_LIMIT {
            return Err(CountFault);
        }
        Ok(run(
            &mut self.machine,
            &mut self.history,
            &self.breaks,
            &self.watches,
            Moves::none(),
            n,
        ))
    }

    /// Runs as [`Debugger::run`] does, and also ends before an MFC0 or MTC0 of an SP register that `moves` names, which isn't executed, also before
    /// the first step. The reasons, in their order: the word at pc is reserved and the machine isn't halted; it is halted; the last step changed a
    /// byte of a watch; it led to a breakpoint; such a move is next; `n` steps are made. CountFault unless `n` is 1 to 1000000.
    #[inline(always)]
    pub fn run_until_move(&mut self, n: u32, moves: Moves) -> Result<MoveEnd, CountFault>
        ensures count { IsOk result ↔ ((1 ≤ n) × (n ≤ 1000000)) }
        ensures end { IfOk result (λ end. end ≡ move_end_in n moves self.old) }
        ensures reached { IfOk result (λ end. self.new.state ≡ steps_of (end_steps end) self.old.state) }
        ensures within { IfOk result (λ end. end_steps end ≤ n) }
        ensures next { OnOk result (self.new ≡ after_run_until_move n moves self.old) }
        ensures err { OnErr result (self.new ≡ self.old) }
    {
        if n == 0 || n > RUN_LIMIT {
            return Err(CountFault);
        }
        let stop = run(
            &mut self.machine,
            &mut self.history,
            &self.breaks,
            &self.watches,
            moves,
            n,
        );
        Ok(moves.end(stop, &self.machine))
    }

    /// Undoes the last `n` steps, whose states leave the history. Breakpoints and watches stay. Count unless `n` is 1 to 1000000,
    /// else ShortHistory if the history has fewer states.
    #[tactic(auto, using(crate::proofs::HistoryRecords::more))]
    pub fn back(&mut self, n: u32) -> Result<(), BackFault>
        ensures ok { OnOk result (self.new ≡ after_back n self.old) }
        ensures err { OnErr result (self.new ≡ self.old) }
        ensures count { IsErrOf result BackFault.Count ↔ ((n ≡ 0) ⊎ (1000000 < n)) }
        ensures short { IsErrOf result BackFault.ShortHistory ↔ ((0 < n) × (n ≤ 1000000) × (length self.old.past < n)) }
    {
        if n == 0 || n > RUN_LIMIT {
            return Err(BackFault::Count);
        }
        if self.history_len() < n as usize {
            return Err(BackFault::ShortHistory);
        }
        for _ in 0..n {
            self.history.undo(&mut self.machine);
        }
        Ok(())
    }
}
