ghost use Rattle.std.specs.Prelude.{◌≡◌, ◌<◌, slice_index};
ghost use Rattle.rsp_scalar.specs.Registers.{IsRegisters, empty_registers, register, with_register};

use std::marker::Model;

/// The 32 scalar registers of 32 bits. Register 0 is always 0.
///
/// Contracts see the list of 32 numbers.
#[derive(Clone, Copy, PartialEq, Eq, Debug, Drop)]
pub struct Regs {
    words: [u32; 32],
}

impl Model for Regs {
    ghost use Rattle.std.specs.Prelude.{List, ℕ};
    ghost use Rattle.rsp_scalar.specs.Registers.{IsRegisters};

    ghost Value = { List ℕ };

    ghost view = { λ r. r.words };

    ghost invariant = { λ r. IsRegisters r.words };

    ghost inverse = { λ l. record { words = l } };
}

impl Regs {
    /// Registers of zeros, as at the start.
    pub fn new() -> Self
        ensures { result ≡ empty_registers }
    {
        Regs { words: [0; 32] }
    }

    /// The registers with these words. Requires that register 0 is 0.
    pub fn from_words(words: [u32; 32]) -> Self
        requires { slice_index words 0 ≡ 0 }
        ensures { result ≡ words }
    {
        Regs { words }
    }

    /// All 32 registers.
    pub fn words(&self) -> [u32; 32]
        ensures value { result ≡ self.now }
        ensures within { IsRegisters result }
    {
        self.words
    }

    /// Register `n`, below 32.
    #[inline(always)]
    pub fn get(&self, n: u8) -> u32
        requires { n < 32 }
        ensures { result ≡ register self.now n }
    {
        self.words[n as usize]
    }

    /// Writes register `n`, below 32. A write of register 0 is dropped.
    #[inline(always)]
    pub fn set(&mut self, n: u8, value: u32)
        requires { n < 32 }
        ensures { self.new ≡ with_register self.old n value }
    {
        self.words[n as usize] = value;
        // Without a test of `n`: one more store is faster.
        self.words[0] = 0;
    }
}
