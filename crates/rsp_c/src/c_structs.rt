// The structs of `library/c/brsp.h`.

/// Where a run stopped.
#[repr(C)]
#[derive(Clone, Copy, Drop)]
pub struct RspStop {
    /// 0 at a reserved word, 1 halted, 2 at a watch, 3 at a breakpoint, 4 if all steps are made.
    pub reason: u32,
    /// How many steps it made.
    pub steps: u32,
    /// The watch's number, if it stopped at one; else 0.
    pub watch: usize,
    /// The address of the next instruction.
    pub pc: u16,
    /// The word at pc, if it is reserved and the run stopped there; else 0.
    pub word: u32,
}

/// Where a run stopped that also ends before moves of SP registers.
#[repr(C)]
#[derive(Clone, Copy, Drop)]
pub struct RspMove {
    /// Where it stopped; its reason is 5 before a move.
    pub stop: RspStop,
    /// The word of the move, if it stopped before one; else 0.
    pub word: u32,
    /// The number of the move's SP register, if it stopped before one; else 0.
    pub number: u32,
    /// 1 before an MTC0, else 0.
    pub writes: u32,
    /// The value of the move's scalar register, if it stopped before one; else 0.
    pub value: u32,
}

/// pc, npc and the scalar registers.
#[repr(C)]
#[derive(Clone, Copy, Drop)]
pub struct RspScalars {
    /// The 32 scalar registers.
    pub words: [u32; 32],
    /// The address of the next instruction.
    pub pc: u16,
    /// The address of the one after it.
    pub npc: u16,
}

/// A vector register.
#[repr(C)]
#[derive(Clone, Copy, Drop)]
pub struct RspLanes {
    /// Its lanes.
    pub lanes: [u16; 8],
}

/// The accumulators.
#[repr(C)]
#[derive(Clone, Copy, Drop)]
pub struct RspAccumulators {
    /// Bits 32 to 47 of each.
    pub high: [u16; 8],
    /// Bits 16 to 31 of each.
    pub middle: [u16; 8],
    /// Bits 0 to 15 of each.
    pub low: [u16; 8],
}

/// The flags, a bit for each lane.
#[repr(C)]
#[derive(Clone, Copy, Drop)]
pub struct RspFlagBits {
    /// Bits 0 to 7 of VCO.
    pub carry: u8,
    /// Bits 8 to 15 of VCO.
    pub differ: u8,
    /// Bits 0 to 7 of VCC.
    pub compare: u8,
    /// Bits 8 to 15 of VCC.
    pub clip: u8,
    /// VCE.
    pub extra: u8,
}

/// What the divide instructions keep from one to the next.
#[repr(C)]
#[derive(Clone, Copy, Drop)]
pub struct RspDivideState {
    /// DIV_IN.
    pub input: u16,
    /// DIV_OUT.
    pub output: u16,
    /// 1 if DIV_IN is loaded, else 0.
    pub loaded: u16,
}

/// All registers.
#[repr(C)]
#[derive(Clone, Copy, Drop)]
pub struct RspState {
    /// The 32 scalar registers, number 0 is 0.
    pub words: [u32; 32],
    /// The lanes of the 32 vector registers.
    pub vectors: [[u16; 8]; 32],
    /// The accumulators.
    pub accumulators: RspAccumulators,
    /// The flags.
    pub flags: RspFlagBits,
    /// Always 0; nothing reads it.
    pub zero: u8,
    /// What the divide instructions keep.
    pub divider: RspDivideState,
    /// The address of the next instruction.
    pub pc: u16,
    /// The address of the one after it.
    pub npc: u16,
    /// The sixteen SP registers as they read: eight, and then those of the DPC.
    pub sp: [u32; 16],
    /// 1 if the interrupt flag is set, else 0.
    pub interrupt: u32,
}

/// The SP registers.
#[repr(C)]
#[derive(Clone, Copy, Drop)]
pub struct RspSpWords {
    /// The sixteen as they read: eight, and then those of the DPC.
    pub words: [u32; 16],
    /// 1 if the interrupt flag is set, else 0.
    pub interrupt: u32,
}

/// What an assembly came to.
#[repr(C)]
#[derive(Clone, Copy, Drop)]
pub struct RspAssembled {
    /// How many words there are.
    pub count: usize,
    /// The number of the line that has a fault, from 1; else 0.
    pub line: usize,
    /// The number of the fault, 10 to 17, or 33 if the text isn't UTF-8; else 0.
    pub fault: u32,
}

/// A word with its disassembly.
#[repr(C)]
#[derive(Clone, Copy, Drop)]
pub struct RspLine {
    /// The word.
    pub word: u32,
    /// Its address in IMEM.
    pub address: u16,
    /// How many bytes its text has, at most 64.
    pub len: u16,
    /// The text, and zeros after it.
    pub text: [u8; 68],
}
