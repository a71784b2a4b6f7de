ghost use Rattle.std.specs.Prelude.{◌≡◌, ◌<◌};
ghost use Rattle.rsp_loadstore.specs.File.{IsFile, vector, with_vector, empty_file, bits_14_to_7};

use byteorder::{BigEndian, ByteOrder};
use rsp_lanes::VReg;
use std::marker::Model;

/// The 32 vector registers. Contracts see a list of 32 lists of eight lanes, lane 0 first.
#[derive(Drop)]
pub struct VFile {
    registers: [VReg; 32],
}

impl Model for VFile {
    ghost use Rattle.std.specs.Prelude.{List, ℕ};
    ghost use Rattle.rsp_loadstore.specs.File.{IsFile};

    ghost Value = { List (List ℕ) };

    ghost view = { λ f. f.registers };

    ghost invariant = { λ f. IsFile f.registers };
}

impl VFile {
    /// Registers of zeros, as at the start.
    #[tactic(auto, unfolding(crate::specs::File::empty_file))]
    pub fn new() -> VFile
        ensures { result ≡ empty_file }
    {
        VFile {
            registers: [VReg::new(); 32],
        }
    }

    /// The registers with these lanes, lane 0 of each first.
    pub fn from_lanes(lanes: &[[u16; 8]; 32]) -> VFile
        ensures { result ≡ lanes.now }
    {
        let mut file = VFile::new();
        for n in 0..32 {
            file.put(n, VReg::from_array(lanes[n]));
        }
        file
    }

    /// The lanes of all registers, lane 0 of each first.
    pub fn lanes(&self) -> [[u16; 8]; 32]
        ensures { result ≡ self.now }
    {
        let mut lanes = [[0; 8]; 32];
        for n in 0..32 {
            lanes[n] = self.registers[n].to_array();
        }
        lanes
    }

    /// Register `n`, below 32.
    #[inline(always)]
    pub fn reg(&self, n: u8) -> VReg
        requires { n < 32 }
        ensures value { result ≡ vector self.now n }
        ensures within { IsFile self.now }
    {
        self.at(n as usize)
    }

    /// Register `n`, below 32, by an index. From an index LLVM sees that consecutive registers are at fixed distances.
    #[inline(always)]
    #[tactic(auto, using(std::proofs::lemmas::List::get_or_default), unfolding(crate::specs::File::vector))]
    pub(crate) fn at(&self, n: usize) -> VReg
        requires { n < 32 }
        ensures value { result ≡ vector self.now n }
        ensures within { IsFile self.now }
    {
        self.registers[n]
    }

    /// Writes register `n`, below 32. The others are kept.
    #[inline(always)]
    pub fn set_reg(&mut self, n: u8, v: VReg)
        requires { n < 32 }
        ensures value { self.new ≡ with_vector self.old n v }
        ensures within { IsFile self.old }
    {
        self.put(n as usize, v);
    }

    /// Writes register `n`, below 32, by an index. The others are kept.
    #[inline(always)]
    #[tactic(auto, unfolding(crate::specs::File::with_vector))]
    pub(crate) fn put(&mut self, n: usize, v: VReg)
        requires { n < 32 }
        ensures value { self.new ≡ with_vector self.old n v }
        ensures within { IsFile self.old }
    {
        // `to_simd` says that v has eight lanes below 2^16, as each register has
        self.registers[n] = VReg::from_simd(v.to_simd());
    }

    /// Bits 14 to 7 of the sixteen bits at bytes `i` and `i + 1` modulo 16 of register `n`.
    #[inline(always)]
    #[tactic(auto, unfolding(crate::specs::File::bits_14_to_7))]
    pub(crate) fn bits_14_to_7(&self, n: u8, i: usize) -> u8
        requires register { n < 32 }
        requires byte { i < 16 }
        ensures { result ≡ bits_14_to_7 (vector self.now n) i }
    {
        let v = self.reg(n);
        let bits = BigEndian::read_u16(&[v.byte(i), v.byte((i + 1) % 16)]);
        (bits / 128 % 256) as u8
    }
}
