//! Laws over the definitions alone.

ghost use Rattle.rsp_c.specs.Statuses.{AreNumbers};
ghost use Rattle.rsp_c.specs.Changes.{ChangesShowStores};
ghost use Rattle.rsp_c.specs.Laws.{SetAsGot, GotAsSet, EventsAreSteps, DmaWritesAreWrites};

/// What `brsp_get` gives, `brsp_set` takes, and the machine stays as it is.
pub fn set_as_got()
    ensures { SetAsGot }
{}

/// What `brsp_set` takes, `brsp_get` then gives, with 0 for `zero`.
pub fn got_as_set()
    ensures { GotAsSet }
{}

/// The statuses and the length of a buffer for replies have the numbers of `brsp.h`.
pub fn numbers()
    ensures { AreNumbers }
{}

/// What `brsp_step_changes` reports of a store has all that the store wrote: two quadwords of DMEM after the step, and the step
/// leaves all other bytes.
#[tactic(auto, using(crate::proofs::Stores::stores_shown))]
pub fn changes_show_stores()
    ensures { ChangesShowStores }
{}

/// Where `brsp_event` reports a DMA, a host that passes over it by `brsp_pass_dma`, and then copies the bytes as the event describes them, has
/// made a step.
#[tactic(auto, using(crate::proofs::Events::events))]
pub fn events_are_steps()
    ensures { EventsAreSteps }
{}

/// What `brsp_write_dma` leaves is, once a host has copied the bytes as the call describes them, what `brsp_write` leaves.
#[tactic(auto, using(crate::proofs::DmaWrites::dma_writes))]
pub fn dma_writes_are_writes()
    ensures { DmaWritesAreWrites }
{}
