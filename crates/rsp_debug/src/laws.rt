//! Laws over the definitions alone.

ghost use Rattle.rsp_debug.specs.Calls.{RunsAreSteps, RunsStopFirst, Undoes};
ghost use Rattle.rsp_debug.specs.Traces.{EntriesShowStores};

/// Cuts: for every list of steps and runs, each run with breakpoints, watches and a count of its own, if n steps returned
/// Done in all, the state at the end is that after n plain steps, which all return Done.
#[tactic(auto, using(crate::proofs::DoneSteps::afters))]
pub fn l5()
    ensures { RunsAreSteps }
{}

/// Undo: from any state with an empty history, after any list of steps, runs and steps back, each run with breakpoints, watches and a count of its
/// own, the state is that after as many plain steps as returned Done, less those that were undone. These plain steps all return Done.
#[tactic(auto, using(crate::proofs::UndoLaw::undoes))]
pub fn l7()
    ensures { Undoes }
{}

/// A run stops at the least number of steps, at most its count, after which there is a reason to stop, and for the first such reason.
#[tactic(auto, using(crate::proofs::DoneSteps::afters))]
pub fn runs_stop_first()
    ensures { RunsStopFirst }
{}

/// The entry of a store has the address: the store writes only to the quadword that has this address, and to the next one.
#[tactic(auto, using(crate::proofs::Traces::stores_shown))]
pub fn entries_show_stores()
    ensures { EntriesShowStores }
{}
