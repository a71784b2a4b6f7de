// Queries of the machine's state, which change nothing.

ghost use Rattle.std.specs.Prelude.{◌≡◌, ◌<◌, ◌≤◌, ◌+◌, ◌*◌, ◌%◌, ◌↔◌, ℕ, length, slice_index, IsOk, IfOk, IsTrue};
ghost use Rattle.rsp_acc.specs.Parts.{part_of};
ghost use Rattle.rsp_numbers.specs.Numbers.{number};
ghost use Rattle.rsp_lanes.specs.Lanes.{each_lane};
ghost use Rattle.rsp_acc.specs.declared.parts.Part.TheVariants as part;
ghost use Rattle.rsp_scalar.specs.Registers.{register};
ghost use Rattle.rsp_loadstore.specs.File.{vector};
ghost use Rattle.rsp_machine.specs.Host.{is_inside};
ghost use Rattle.rsp_debug.specs.Queries.{memory_of, listing_line, listing_of};

use crate::debugger::Debugger;
use arrayvec::ArrayVec;
use rsp_acc::{Acc, Part};
use rsp_dis::{Line, text_of};
use rsp_divide::Divider;
use rsp_lanes::{Flags, VReg};
use rsp_machine::{Machine, RangeFault};
use rsp_memory::Bank;
use rsp_regs::SpRegs;
use std::marker::Model;

/// pc, npc and the scalar registers of a machine.
#[derive(Clone, Copy, Debug, PartialEq, Eq, Drop)]
pub struct Scalars {
    /// The address of the next instruction.
    pub pc: u16,
    /// The address of the one after it.
    pub npc: u16,
    /// The 32 scalar registers.
    pub words: [u32; 32],
}

/// A word of IMEM with its disassembly. Contracts see the bytes of the text.
#[derive(Drop, Default)]
pub struct ListingLine {
    /// Its address.
    pub place: u16,
    /// The word.
    pub word: u32,
    /// Its canonical text.
    pub text: Line,
}

impl Model for ListingLine {
    ghost use Rattle.rsp_debug.specs.Queries.{ListedWord};

    ghost Value = { ListedWord };

    ghost view = { λ l. record { place = l.place; word = l.word; text = l.text.bytes } };
}

/// The bytes of a bank from an address on, in place: `n` of them, at least one, and all inside.
#[tactic(auto, using(crate::proofs::QueryAnswers::runs))]
fn run_of<A: Acc>(machine: &Machine<A>, bank: Bank, a: u32, n: usize) -> &[u8]
    requires some { 1 ≤ n }
    requires inside { IsTrue (is_inside bank a n machine.now) }
    ensures { result.now ≡ memory_of bank machine.now a n }
{
    match bank {
        Bank::Dmem => machine.dmem().run(a, n),
        Bank::Imem => machine.imem().run(a, n),
        Bank::Rdram => machine.rdram().run(a, n),
    }
}

/// The word at an address of IMEM, with its text.
fn read_word<A: Acc>(machine: &Machine<A>, address: u16) -> ListingLine
    requires { address < 4096 }
    ensures { result ≡ listing_line machine.now address }
{
    let word = machine.imem().word(u32::from(address));
    ListingLine {
        place: address,
        word,
        text: text_of(word, address),
    }
}

impl<A: Acc> Debugger<A> {
    /// The machine.
    #[inline]
    pub fn machine(&self) -> &Machine<A>
        ensures { result.now ≡ self.now.state }
    {
        &self.machine
    }

    /// pc, npc and the scalar registers.
    pub fn regs(&self) -> Scalars
        ensures pc { result.pc ≡ self.now.state.pc }
        ensures npc { result.npc ≡ self.now.state.npc }
        ensures words { (n : ℕ) → n < 32 → slice_index result.words n ≡ register self.now.state.registers n }
    {
        let mut words = [0; 32];
        for n in 0..32 {
            words[usize::from(n)] = self.machine.reg(n);
        }
        Scalars {
            pc: self.machine.pc(),
            npc: self.machine.npc(),
            words,
        }
    }

    /// Vector register `n`, below 32.
    pub fn vreg(&self, n: u8) -> VReg
        requires { n < 32 }
        ensures { result ≡ vector self.now.state.vectors n }
    {
        self.machine.vreg(n)
    }

    /// The high, the middle and the low 16 bits of each accumulator.
    pub fn acc(&self) -> (VReg, VReg, VReg)
        ensures high { result.0 ≡ each_lane (λ i. part_of part.High (number self.now.state.accumulators i)) }
        ensures middle { result.1 ≡ each_lane (λ i. part_of part.Middle (number self.now.state.accumulators i)) }
        ensures low { result.2 ≡ each_lane (λ i. part_of part.Low (number self.now.state.accumulators i)) }
    {
        let acc = self.machine.acc();
        (
            acc.part(Part::High),
            acc.part(Part::Middle),
            acc.part(Part::Low),
        )
    }

    /// The flags of the eight lanes, and what the divide instructions keep from one to the next.
    pub fn flags(&self) -> (&Flags, &Divider)
        ensures flags { result.0.now ≡ self.now.state.flags }
        ensures divider { result.1.now ≡ self.now.state.divider }
    {
        (self.machine.flags(), self.machine.divider())
    }

    /// The SP registers, whose `peek` takes no semaphore, with the interrupt flag.
    pub fn sp_regs(&self) -> &SpRegs
        ensures { result.now ≡ self.now.state.sp }
    {
        self.machine.sp_regs()
    }

    /// `len` bytes of a bank from an address on, 1 to 256 of them. RangeFault if they pass the bank's end.
    #[tactic(auto, using(crate::proofs::QueryAnswers::bytes))]
    pub fn memory(&self, bank: Bank, a: u32, len: usize) -> Result<ArrayVec<u8, 256>, RangeFault>
        requires some { 1 ≤ len }
        requires few { len ≤ 256 }
        ensures inside { IsOk result ↔ IsTrue (is_inside bank a len self.now.state) }
        ensures bytes { IfOk result (λ bytes. bytes.items ≡ memory_of bank self.now.state a len) }
        ensures count { IfOk result (λ bytes. length bytes.items ≡ len) }
    {
        if !self.machine.is_inside(bank, a, len) {
            return Err(RangeFault);
        }
        let mut bytes = ArrayVec::new();
        let _ = bytes.try_extend_from_slice(run_of(&self.machine, bank, a, len));
        Ok(bytes)
    }

    /// `n` words of IMEM from an address on, a multiple of 4 below 4096, 1 to 64 of them, each with its canonical text.
    /// RangeFault if they pass the end of IMEM. The words are read at each call.
    #[tactic(auto, using(crate::proofs::QueryAnswers::words))]
    pub fn listing(&self, address: u16, n: u16) -> Result<ArrayVec<ListingLine, 64>, RangeFault>
        requires below { address < 4096 }
        requires whole { address % 4 ≡ 0 }
        requires some { 1 ≤ n }
        requires few { n ≤ 64 }
        ensures inside { IsOk result ↔ (address + 4 * n ≤ 4096) }
        ensures words { IfOk result (λ words. words.items ≡ listing_of self.now.state address n) }
        ensures count { IfOk result (λ words. length words.items ≡ n) }
    {
        if address + 4 * n > 4096 {
            return Err(RangeFault);
        }
        let mut words = ArrayVec::new();
        for i in 0..n {
            words.push(read_word(&self.machine, address + 4 * i));
        }
        Ok(words)
    }
}
