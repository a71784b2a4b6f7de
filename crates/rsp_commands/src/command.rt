use crate::SourceLine;
use arrayvec::ArrayVec;
use rsp_memory::Bank;

/// A command that shows a part of the session. It changes nothing.
#[derive(Drop, Debug)]
pub enum Look {
    /// `regs`: pc, npc and the 32 scalar registers.
    Regs,
    /// `vregs`: the 32 vector registers.
    Vregs,
    /// `acc`: the eight accumulators.
    Acc,
    /// `flags`: the three flag registers and the divider.
    Flags,
    /// `sp`: the 16 SP registers, as reads would return them, and the interrupt flag.
    Sp,
    /// `mem BANK ADDR LEN`: 1 to 256 bytes. The address is at most 16,777,215.
    Mem { bank: Bank, address: u32, len: u32 },
    /// `dis ADDR N`: 1 to 64 words of IMEM with their disassembly. The address is a multiple of 4 from 0 to 4092.
    Dis { address: u16, count: u32 },
}

/// What a line of a script requests. `parse_line` makes none with an operand out of the range given here; it checks no
/// more: whether an address is inside its bank, and a count in its limits, is for whoever carries the command out.
#[derive(Drop, Debug)]
pub enum Command {
    /// A line without words, or with a comment alone.
    Nothing,
    /// `load BANK ADDR HEX`: writes 1 to 128 bytes. The address is at most 16,777,215.
    Load {
        bank: Bank,
        address: u32,
        bytes: ArrayVec<u8, 128>,
    },
    /// `step`: executes one instruction.
    Step,
    /// `run N`: executes instructions until there is a reason to stop, at most `limit`.
    Run {
        limit: u32,
    },
    /// `break ADDR`: sets a breakpoint at a multiple of 4 from 0 to 4092.
    Break {
        address: u16,
    },
    /// `unbreak ADDR`: removes the breakpoint at a multiple of 4 from 0 to 4092.
    Unbreak {
        address: u16,
    },
    /// `watch ADDR LEN`: watches bytes of DMEM.
    Watch {
        address: u32,
        len: u32,
    },
    /// `unwatch N`: removes the watch of a number.
    Unwatch {
        number: u32,
    },
    /// `back N`: undoes `count` steps.
    Back {
        count: u32,
    },
    /// `read N`: reads SP register 0 to 15. That can change it: a read of register 7 takes the semaphore.
    Read {
        register: u8,
    },
    /// `write N VALUE`: writes SP register 0 to 15.
    Write {
        register: u8,
        value: u32,
    },
    /// `pc ADDR`: sets pc to a multiple of 4 from 0 to 4092.
    SetPc {
        address: u16,
    },
    /// `task ADDR`: starts the task whose structure is at an address of the RDRAM, at most 16,777,215.
    Task {
        address: u32,
    },
    /// Shows a part of the session.
    Show(Look),
    /// `asm ADDR`: opens a block of source text. Its first word goes to a multiple of 4 from 0 to 4092.
    Asm {
        address: u16,
    },
    /// A line of the open block.
    BlockLine(SourceLine),
    /// `end`: closes the block and assembles it.
    End,
}
