// Where and why a run stops.

/// Some bytes of DMEM that a run watches.
#[derive(Clone, Copy, Debug, PartialEq, Eq, Drop)]
pub struct Watch {
    /// The address of the first, below 4096.
    pub address: u16,
    /// How many they are, 1 to 64.
    pub len: u8,
}

/// Why a run stops.
#[derive(Clone, Copy, Debug, PartialEq, Eq, Drop)]
pub enum Reason {
    /// The word at pc is reserved, and the machine isn't halted.
    Reserved,
    /// The machine is halted.
    Halted,
    /// The last step changed a byte of the watch with this number.
    Watched(usize),
    /// The last step led to an address that has a breakpoint.
    Break,
    /// All steps that the run may make are made.
    Limit,
}

/// Where a run stopped.
#[derive(Clone, Copy, Debug, PartialEq, Eq, Drop)]
pub struct Stop {
    /// Why it did.
    pub reason: Reason,
    /// How many steps it made.
    pub steps: u32,
    /// The address of the next instruction.
    pub pc: u16,
}
