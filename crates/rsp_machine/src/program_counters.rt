ghost use Rattle.std.specs.Prelude.{◌≡◌, ◌<◌, ◌%◌};
ghost use Rattle.rsp_scalar.specs.Flow.{address_after};

use std::marker::Model;

/// The address of an instruction in IMEM: a multiple of 4 below 4096. It is kept as the index that a fetch takes.
#[derive(Clone, Copy, Drop)]
pub(crate) struct InstructionAddress {
    address: usize,
}

impl Model for InstructionAddress {
    ghost use Rattle.std.specs.Prelude.{ℕ};
    ghost use Rattle.rsp_machine.specs.State.{IsInstructionAddress};

    ghost Value = { ℕ };

    ghost view = { λ p. p.address };

    ghost invariant = { λ p. IsInstructionAddress p.address };

    ghost inverse = { λ n. record { address = n } };
}

impl InstructionAddress {
    /// The address with this number.
    #[inline(always)]
    pub(crate) fn new(address: u16) -> InstructionAddress
        requires below { address < 4096 }
        requires whole { address % 4 ≡ 0 }
        ensures { result ≡ address }
    {
        InstructionAddress {
            address: usize::from(address),
        }
    }

    /// Its number.
    #[inline(always)]
    pub(crate) fn get(self) -> u16
        ensures value { result ≡ self }
        ensures below { result < 4096 }
        ensures whole { result % 4 ≡ 0 }
    {
        self.address as u16
    }

    /// The same as an index into IMEM.
    #[inline(always)]
    pub(crate) fn index(self) -> usize
        ensures value { result ≡ self }
        ensures below { result < 4096 }
        ensures whole { result % 4 ≡ 0 }
    {
        self.address
    }

    /// The next address, modulo 4096.
    #[inline(always)]
    pub(crate) fn next(self) -> InstructionAddress
        ensures { result ≡ address_after self }
    {
        InstructionAddress {
            address: (self.address + 4) % 4096,
        }
    }
}

/// pc and npc, the addresses of the next two instructions. The loop of steps keeps them apart from its machine, in registers of the host.
#[derive(Clone, Copy, Drop)]
pub(crate) struct ProgramCounters {
    pub(crate) pc: InstructionAddress,
    pub(crate) npc: InstructionAddress,
}

impl Model for ProgramCounters {
    ghost use Rattle.rsp_machine.specs.ProgramCounters.{ProgramCounters};

    ghost Value = { ProgramCounters };

    ghost view = { λ p. record { pc = p.pc; npc = p.npc } };

    ghost inverse = { λ p. record { pc = p.pc; npc = p.npc } };
}

impl ProgramCounters {
    /// pc and npc after an instruction that neither jumps nor branches.
    #[inline(always)]
    pub(crate) fn next(self) -> ProgramCounters
        ensures { result ≡ record { pc = self.npc; npc = address_after self.npc } }
    {
        ProgramCounters {
            pc: self.npc,
            npc: self.npc.next(),
        }
    }
}
