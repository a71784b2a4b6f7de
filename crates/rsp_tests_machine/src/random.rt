ghost use Rattle.std.specs.Prelude.{◌<◌};

use rsp_divide::Divider;
use rsp_lanes::{Flags, Mask8};
use rsp_machine::AllRegisters;
use rsp_regs::SpParts;

/// Numbers that look random: xorshift over 64 bits. The same seed gives the same numbers.
#[derive(Drop)]
pub struct Random {
    state: u64,
}

impl Random {
    /// The numbers of a seed, which isn't 0.
    pub fn new(seed: u64) -> Random {
        Random { state: seed }
    }

    /// The next 32 bits.
    pub fn bits(&mut self) -> u32 {
        self.state ^= self.state << 13;
        self.state ^= self.state >> 7;
        self.state ^= self.state << 17;
        (self.state >> 32) as u32
    }

    /// A number below `n`.
    pub fn below(&mut self, n: u32) -> u32
        requires { 0 < n }
        ensures { result < n }
    {
        self.bits() % n
    }

    /// A lane: a quarter of them are the numbers at which rules change.
    pub fn lane(&mut self) -> u16 {
        match self.below(24) {
            0 => 0,
            1 => 1,
            2 => 0x7fff,
            3 => 0x8000,
            4 => 0x8001,
            5 => 0xffff,
            _ => (self.bits() & 0xffff) as u16,
        }
    }

    /// Eight lanes.
    fn lanes(&mut self) -> [u16; 8] {
        let mut lanes = [0; 8];
        for i in 0..8 {
            lanes[i] = self.lane();
        }
        lanes
    }

    /// The lanes of all vector registers.
    fn vectors(&mut self) -> [[u16; 8]; 32] {
        let mut vectors = [[0; 8]; 32];
        for n in 0..32 {
            vectors[n] = self.lanes();
        }
        vectors
    }

    /// All scalar registers, each of two lanes.
    pub fn scalars(&mut self) -> [u32; 32] {
        let mut words = [0; 32];
        for n in 1..32 {
            words[n] = u32::from(self.lane()) << 16 | u32::from(self.lane());
        }
        words
    }

    /// A flag for each lane.
    fn mask(&mut self) -> Mask8 {
        let [_, bits] = self.lane().to_be_bytes();
        Mask8::from_bits(bits)
    }

    /// Registers of a machine that has just started, with these in SP.
    pub fn registers(&mut self, sp: SpParts) -> AllRegisters {
        AllRegisters {
            pc: 0,
            npc: 4,
            registers: self.scalars(),
            vectors: self.vectors(),
            accumulators_high: self.lanes(),
            accumulators_middle: self.lanes(),
            accumulators_low: self.lanes(),
            flags: Flags {
                carry: self.mask(),
                differ: self.mask(),
                compare: self.mask(),
                clip: self.mask(),
                extra: self.mask(),
            },
            divider: Divider::new(),
            sp,
        }
    }
}
