//! Laws about steps. They hold for every representation of the accumulators.

ghost use Rattle.std.specs.Prelude.{◌≡◌};
ghost use Rattle.rsp_machine.specs.Step.{step_of};
ghost use Rattle.rsp_machine.specs.Laws.{steps_of, done_of};
ghost use Rattle.rsp_machine.specs.Registers.{SetAsRead};
ghost use Rattle.rsp_machine.specs.DescribedDmas.{DescribedDmasMove};
ghost use Rattle.rsp_machine.specs.Footprints.{FootprintsHold, WritesHold, PassesAreSteps};

use crate::{Machine, StepEnd};
use rsp_acc::Acc;

/// One step is the same over any two kinds of accumulators, such as planes and whole numbers: machines in equal states give equal
/// answers, and come to equal states.
pub fn same_step<A: Acc, B: Acc>(a: &mut Machine<A>, b: &mut Machine<B>) -> (StepEnd, StepEnd)
    requires same { a.old ≡ b.old }
    ensures answer { result.0 ≡ (step_of a.old).0 }
    ensures answers { result.0 ≡ result.1 }
    ensures state { a.new ≡ (step_of a.old).1 }
    ensures states { a.new ≡ b.new }
{
    (a.step(), b.step())
}

/// Any number of steps is the same over any two kinds of accumulators: machines in equal states make equally many steps, and come
/// to equal states.
pub fn same_steps<A: Acc, B: Acc>(a: &mut Machine<A>, b: &mut Machine<B>, n: u64) -> (u64, u64)
    requires same { a.old ≡ b.old }
    ensures done { result.0 ≡ done_of n a.old }
    ensures equally { result.0 ≡ result.1 }
    ensures state { a.new ≡ steps_of n a.old }
    ensures states { a.new ≡ b.new }
{
    (a.steps(n), b.steps(n))
}

/// Registers that are read and set again are never refused, and leave the machine as it was.
pub fn set_as_read()
    ensures { SetAsRead }
{}

/// A step changes nothing but pc, npc and what its footprint names: registers, lanes, parts of the accumulators, flags, the divider,
/// bytes of DMEM, SP registers. After a step that starts a DMA this says what the DMA leaves.
#[tactic(auto, using(crate::proofs::Footprints::footprints))]
pub fn footprints()
    ensures { FootprintsHold }
{}

/// What a trace says of a step: it writes no other register, and leaves DMEM if it neither stores nor starts a DMA. A store writes
/// only to the quadword that has its address, and to the next one.
#[tactic(auto, using(crate::proofs::Footprints::footprints))]
pub fn writes()
    ensures { WritesHold }
{}

/// Passing over a move of an SP register is a step, but for the SP registers, the memories and the register that the move writes.
#[tactic(auto, using(crate::proofs::Passing::passing))]
pub fn passes()
    ensures { PassesAreSteps }
{}

/// A host that moves the bytes of a described DMA itself, row by row, leaves what the machine's own DMA leaves.
#[tactic(auto, using(crate::proofs::Described::described_moves))]
pub fn described_dmas_move()
    ensures { DescribedDmasMove }
{}
