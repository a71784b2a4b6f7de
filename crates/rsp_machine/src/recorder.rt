// Savers of the values that the steps of a loop change.

ghost use Rattle.std.specs.Prelude.{◌≡◌, ℕ, Bool};
ghost use Rattle.rsp_machine.specs.State.{State};
ghost use Rattle.rsp_machine.specs.ProgramCounters.{with_counters};
ghost use Rattle.rsp_machine.specs.LoopTests.{IsFootprint};
ghost use Rattle.rsp_machine.specs.declared.footprint.Footprint.{Footprint};

use crate::footprint::Footprint;
use crate::machine::Machine;
use crate::program_counters::ProgramCounters;
use rsp_acc::Acc;

/// A recorder. It gets each instruction's footprint before the instruction is executed, and may save the values that the instruction
/// overwrites.
pub(crate) trait Recorder {
    /// The recorder after an instruction with a footprint.
    ghost saves: { Footprint → State → Self → Self };

    /// The index of the recorder that gets step `n` of a loop.
    ghost slot: { ℕ → ℕ };

    /// Whether a loop ends after a step that starts a DMA.
    ghost ends_at_dma: { Bool };

    /// Saves what it needs of the values before the instruction. The machine's pc and npc are those of `before`.
    fn save<A: Acc>(&mut self, machine: &Machine<A>, before: ProgramCounters, footprint: Footprint)
        requires { IsFootprint footprint }
        ensures { self.new ≡ saves footprint (with_counters before machine.now) self.old };

    /// The index of the recorder that gets step `n` of a loop.
    fn slot(n: u64) -> usize
        ensures { result ≡ slot n };

    /// Whether a loop ends after a step that starts a DMA.
    fn ends_at_dma() -> bool
        ensures { result ≡ ends_at_dma };
}

/// Saves nothing. One such recorder gets all steps.
#[derive(Clone, Copy, Drop)]
pub(crate) struct NoRecord;

impl Recorder for NoRecord {
    ghost use Rattle.std.specs.Prelude.{false};

    ghost saves = { λ p s k. k };

    ghost slot = { λ n. 0 };

    ghost ends_at_dma = { false };

    #[inline(always)]
    fn save<A: Acc>(
        &mut self,
        _machine: &Machine<A>,
        _before: ProgramCounters,
        _footprint: Footprint,
    ) {}

    #[inline(always)]
    fn slot(_n: u64) -> usize {
        0
    }

    #[inline(always)]
    fn ends_at_dma() -> bool {
        false
    }
}
