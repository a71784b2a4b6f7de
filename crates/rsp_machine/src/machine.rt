ghost use Rattle.std.specs.Prelude.{◌≡◌, ◌<◌, ◌%◌};
ghost use Rattle.rsp_machine.specs.State.{IsState, start_of};
ghost use Rattle.rsp_machine.specs.LoopTests.{IsRanged};
ghost use Rattle.rsp_machine.specs.ProgramCounters.{with_counters, counters_of};
ghost use Rattle.rsp_memory.specs.Memory.{word_at};
ghost use Rattle.rsp_scalar.specs.Registers.{register};
ghost use Rattle.rsp_loadstore.specs.File.{vector};

use crate::program_counters::{InstructionAddress, ProgramCounters};
use rsp_acc::{Acc, Part};
use rsp_divide::Divider;
use rsp_lanes::{Flags, VReg};
use rsp_loadstore::VFile;
use rsp_memory::{Rdram, SpMem};
use rsp_regs::SpRegs;
use rsp_scalar::Regs;
use std::marker::Model;

/// The signal processor, over accumulators of the kind `A`: pc and npc, 32 scalar registers, 32 vector registers of eight lanes, eight
/// accumulators, the flags, the divider, DMEM, IMEM, the image of the RDRAM and the SP registers. Contracts see it as a `State`.
#[derive(Drop)]
pub struct Machine<A: Acc> {
    pub(crate) pc: InstructionAddress,
    pub(crate) npc: InstructionAddress,
    pub(crate) regs: Regs,
    pub(crate) vregs: VFile,
    pub(crate) acc: A,
    pub(crate) flags: Flags,
    pub(crate) divider: Divider,
    pub(crate) dmem: SpMem,
    pub(crate) imem: SpMem,
    pub(crate) rdram: Rdram,
    pub(crate) sp: SpRegs,
}

impl<A: Acc> Model for Machine<A> {
    ghost use Rattle.rsp_machine.specs.State.{State};

    ghost Value = { State };

    ghost view = { λ m. record {
      pc = m.pc;
      npc = m.npc;
      registers = m.regs;
      vectors = m.vregs;
      accumulators = A.numbers m.acc;
      flags = m.flags;
      divider = m.divider;
      dmem = m.dmem;
      imem = m.imem;
      rdram = m.rdram;
      sp = m.sp;
    } };
}

impl<A: Acc> Machine<A> {
    /// A machine with this image of the RDRAM, and all else 0 but npc, which is 4. It isn't halted.
    #[tactic(auto, unfolding(crate::specs::State::start_of))]
    pub fn new(rdram: Rdram) -> Machine<A>
        ensures { result ≡ start_of rdram }
    {
        Machine {
            pc: InstructionAddress::new(0),
            npc: InstructionAddress::new(4),
            regs: Regs::new(),
            vregs: VFile::new(),
            acc: A::zero(),
            flags: Flags::new(),
            divider: Divider::new(),
            dmem: SpMem::new(),
            imem: SpMem::new(),
            rdram,
            sp: SpRegs::new(),
        }
    }

    /// The address in IMEM of the next instruction, a multiple of 4 below 4096.
    #[inline]
    pub fn pc(&self) -> u16
        ensures value { result ≡ self.now.pc }
        ensures below { result < 4096 }
        ensures whole { result % 4 ≡ 0 }
    {
        self.pc.get()
    }

    /// The address in IMEM of the instruction after the next, a multiple of 4 below 4096.
    #[inline]
    pub fn npc(&self) -> u16
        ensures value { result ≡ self.now.npc }
        ensures below { result < 4096 }
        ensures whole { result % 4 ≡ 0 }
    {
        self.npc.get()
    }

    /// Scalar register `n`, below 32. Register 0 is 0.
    #[inline]
    pub fn reg(&self, n: u8) -> u32
        requires { n < 32 }
        ensures { result ≡ register self.now.registers n }
    {
        self.regs.get(n)
    }

    /// Vector register `n`, below 32.
    #[inline]
    pub fn vreg(&self, n: u8) -> VReg
        requires { n < 32 }
        ensures { result ≡ vector self.now.vectors n }
    {
        self.vregs.reg(n)
    }

    /// The flags of the eight lanes: carry, not-equal, compare, clip and extra.
    #[inline]
    pub fn flags(&self) -> &Flags
        ensures { result.now ≡ self.now.flags }
    {
        &self.flags
    }

    /// What the divide instructions keep from one to the next.
    #[inline]
    pub fn divider(&self) -> &Divider
        ensures { result.now ≡ self.now.divider }
    {
        &self.divider
    }

    /// The SP registers, with the interrupt flag. Their `peek` doesn't set the semaphore.
    #[inline]
    pub fn sp_regs(&self) -> &SpRegs
        ensures { result.now ≡ self.now.sp }
    {
        &self.sp
    }

    /// The data memory, DMEM.
    #[inline]
    pub fn dmem(&self) -> &SpMem
        ensures { result.now ≡ self.now.dmem }
    {
        &self.dmem
    }

    /// The instruction memory, IMEM.
    #[inline]
    pub fn imem(&self) -> &SpMem
        ensures { result.now ≡ self.now.imem }
    {
        &self.imem
    }

    /// The image of the RDRAM.
    #[inline]
    pub fn rdram(&self) -> &Rdram
        ensures { result.now ≡ self.now.rdram }
    {
        &self.rdram
    }

    /// The eight accumulators.
    #[inline]
    pub fn acc(&self) -> &A
        ensures { A.numbers result.now ≡ self.now.accumulators }
    {
        &self.acc
    }

    /// The image of the RDRAM; the rest of the machine is dropped.
    pub fn into_rdram(self) -> Rdram
        ensures { result ≡ self.rdram }
    {
        self.rdram
    }

    /// pc and npc, which the loop of steps keeps apart.
    #[inline(always)]
    pub(crate) fn counters(&self) -> ProgramCounters
        ensures { result ≡ counters_of self.now }
    {
        ProgramCounters {
            pc: self.pc,
            npc: self.npc,
        }
    }

    /// Sets pc and npc, which the loop of steps has kept apart.
    #[inline(always)]
    pub(crate) fn set_counters(&mut self, counters: ProgramCounters)
        ensures { self.new ≡ with_counters counters self.old }
    {
        self.pc = counters.pc;
        self.npc = counters.npc;
    }

    /// The word of IMEM that a machine with this pc executes next.
    #[inline(always)]
    pub(crate) fn word_at(&self, counters: ProgramCounters) -> u32
        ensures { result ≡ word_at self.now.imem counters.pc }
    {
        self.imem.aligned_word(counters.pc.index())
    }

    /// For the prover: reads what the ranges of the state follow from.
    #[inline(always)]
    pub(crate) fn in_range(&self)
        ensures { IsState self.now }
    {
        let _pc = self.pc.get();
        let _npc = self.npc.get();
        let _registers = self.regs.words();
        self.vector_ranges();
        let _input = self.divider.input;
        let _output = self.divider.output;
        let _dmem = self.dmem.bytes()[0];
        let _imem = self.imem.bytes()[0];
        let _rdram = self.rdram.bytes();
        let _sp = self.sp.parts();
    }

    /// For the prover: reads what the ranges of the vector registers, the accumulators and the flags follow from.
    #[inline(always)]
    pub(crate) fn vector_ranges(&self)
        ensures { IsRanged self.now }
    {
        let _vector = self.vregs.reg(0);
        let _low = self.acc.part(Part::Low);
        let _vco = self.flags.vco();
    }
}
