// All registers at once: all of a machine but its memories.

ghost use Rattle.std.specs.Prelude.{◌≡◌, Some, None, IfNone};
ghost use Rattle.rsp_machine.specs.Registers.{AreRegisters, registers_fault, sp_fault};
ghost use Rattle.rsp_regs.specs.Sp.{AreSpRanges};

use rsp_divide::Divider;
use rsp_lanes::Flags;
use rsp_regs::SpParts;
use thiserror::Error;

/// All of a machine but its three memories, for a program that saves or sets a whole state.
#[derive(Clone, Copy, PartialEq, Drop)]
pub struct AllRegisters {
    /// The address of the next instruction, a multiple of 4 below 4096.
    pub pc: u16,
    /// The address of the one after it, a multiple of 4 below 4096.
    pub npc: u16,
    /// The 32 scalar registers. Number 0 is 0.
    pub registers: [u32; 32],
    /// The 32 vector registers, lane 0 of each first.
    pub vectors: [[u16; 8]; 32],
    /// Bits 47 to 32 of the eight accumulators.
    pub accumulators_high: [u16; 8],
    /// Bits 31 to 16 of the eight accumulators.
    pub accumulators_middle: [u16; 8],
    /// Bits 15 to 0 of the eight accumulators.
    pub accumulators_low: [u16; 8],
    /// The flags of the eight lanes: carry, not-equal, compare, clip and extra.
    pub flags: Flags,
    /// What the divide instructions keep from one to the next.
    pub divider: Divider,
    /// The SP registers, with the interrupt flag.
    pub sp: SpParts,
}

/// Why registers can't be those of a machine. If several hold, the first in this order is reported.
#[derive(Clone, Copy, Debug, PartialEq, Eq, Error)]
pub enum RegistersFault {
    /// `pc` or `npc` isn't a multiple of 4 below 4096.
    #[error("Place")]
    Place,
    /// Scalar register 0 isn't 0.
    #[error("RegisterZero")]
    RegisterZero,
    /// SP_MEM_ADDR has more than bits 12 to 3.
    #[error("MemoryAddress")]
    MemoryAddress,
    /// SP_DRAM_ADDR has more than bits 23 to 3.
    #[error("DramAddress")]
    DramAddress,
    /// The skip has more than bits 11 to 3.
    #[error("Skip")]
    Skip,
}

/// Why registers can't be those of a machine.
pub(crate) fn fault_of(given: &AllRegisters) -> Option<RegistersFault>
    ensures fault { result ≡ registers_fault given.now }
    ensures none { IfNone result (AreRegisters given.now) }
{
    if given.pc >= 4096 || given.pc % 4 != 0 || given.npc >= 4096 || given.npc % 4 != 0 {
        return Some(RegistersFault::Place);
    }
    if given.registers[0] != 0 {
        return Some(RegistersFault::RegisterZero);
    }
    sp_fault(&given.sp)
}

/// Why SP registers can't be those of a machine.
pub(crate) fn sp_fault(given: &SpParts) -> Option<RegistersFault>
    ensures fault { result ≡ sp_fault given.now }
    ensures none { IfNone result (AreSpRanges given.now.memory given.now.dram given.now.skip) }
{
    if given.memory >= 0x2000 || given.memory % 8 != 0 {
        return Some(RegistersFault::MemoryAddress);
    }
    if given.dram >= 0x100_0000 || given.dram % 8 != 0 {
        return Some(RegistersFault::DramAddress);
    }
    if given.skip >= 0x1000 || given.skip % 8 != 0 {
        return Some(RegistersFault::Skip);
    }
    None
}
