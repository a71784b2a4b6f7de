// What a host does with the machine of a debugger: the N64's CPU, or a program that owns the SP registers.

ghost use Rattle.std.specs.Prelude.{◌≡◌, ◌<◌, ◌*◌, ◌%◌, ◌↔◌, Ok, Err, Some, None, length, OnOk, OnErr, IfErr, IsOk, IsTrue, MatchResult};
ghost use Rattle.rsp_memory.specs.Words.{words_bytes};
ghost use Rattle.rsp_regs.specs.Sp.{read_value};
ghost use Rattle.rsp_regs.specs.Parts.{sp_of};
ghost use Rattle.rsp_machine.specs.State.{IsState};
ghost use Rattle.rsp_machine.specs.Host.{register_written, is_inside, with_bank_bytes, task_fault, with_task, with_pc};
ghost use Rattle.rsp_machine.specs.Registers.{registers_of, with_registers, registers_fault, sp_fault};
ghost use Rattle.rsp_machine.specs.Pass.{pass_of, pass_dma_of};
ghost use Rattle.rsp_debug.specs.Debugging.{set_by_host, after_register_read};

use crate::debugger::Debugger;
use rsp_acc::Acc;
use rsp_machine::{AllRegisters, PassFault, RangeFault, RegistersFault, TaskFault};
use rsp_memory::{Bank, Rdram};
use rsp_regs::SpParts;

impl<A: Acc> Debugger<A> {
    /// Reads an SP register, as [`rsp_machine::Machine::read_reg`] does; its number `n` is taken modulo 16. A read of the
    /// semaphore, register 7, empties the history; no other read does.
    #[tactic(auto, using(crate::proofs::Hosts::hosts))]
    pub fn read_reg(&mut self, n: u32) -> u32
        ensures value { result ≡ read_value n self.old.state.sp }
        ensures next { self.new ≡ after_register_read n self.old }
    {
        if n % 16 == 7 {
            self.history.clear();
        }
        self.machine.read_reg(n)
    }

    /// Writes an SP register, as [`rsp_machine::Machine::write_reg`] does, and empties the history.
    pub fn write_reg(&mut self, n: u32, value: u32)
        ensures { self.new ≡ set_by_host (register_written n value self.old.state) self.old }
    {
        self.history.clear();
        self.machine.write_reg(n, value);
    }

    /// Sets pc to an address of IMEM, a multiple of 4 below 4096, as [`rsp_machine::Machine::set_pc`] does, and empties the history.
    pub fn set_pc(&mut self, pc: u16)
        requires below { pc < 4096 }
        requires whole { pc % 4 ≡ 0 }
        ensures { self.new ≡ set_by_host (with_pc pc self.old.state) self.old }
    {
        self.history.clear();
        self.machine.set_pc(pc);
    }

    /// All registers, as [`rsp_machine::Machine::all_registers`] returns them. Changes nothing.
    pub fn all_registers(&self) -> AllRegisters
        ensures value { result ≡ registers_of self.now.state }
        ensures ranges { IsState self.now.state }
    {
        self.machine.all_registers()
    }

    /// Sets all registers, as [`rsp_machine::Machine::set_all_registers`] does, and empties the history. Returns the
    /// [`RegistersFault`] of registers that no machine can have, and then nothing changes.
    #[inline(always)]
    pub fn set_all_registers(&mut self, given: &AllRegisters) -> Result<(), RegistersFault>
        ensures fault { MatchResult result (λ _. registers_fault given.now ≡ None) (λ f. registers_fault given.now ≡ Some f) }
        ensures ok { OnOk result (self.new ≡ set_by_host (with_registers given.now self.old.state) self.old) }
        ensures err { OnErr result (self.new ≡ self.old) }
    {
        self.machine.set_all_registers(given)?;
        self.history.clear();
        Ok(())
    }

    /// Writes bytes to a bank from an address on, as [`rsp_machine::Machine::load_bytes`] does, and empties the history, also
    /// if there are no bytes. RangeFault, and nothing changes, if they pass the bank's end.
    pub fn load_bytes(&mut self, bank: Bank, a: u32, bytes: &[u8]) -> Result<(), RangeFault>
        ensures inside { IsOk result ↔ IsTrue (is_inside bank a (length bytes.now) self.old.state) }
        ensures ok { OnOk result (self.new ≡ set_by_host (with_bank_bytes bank a bytes.now self.old.state) self.old) }
        ensures err { OnErr result (self.new ≡ self.old) }
    {
        self.machine.load_bytes(bank, a, bytes)?;
        self.history.clear();
        Ok(())
    }

    /// The same for words, as [`rsp_machine::Machine::load_words`] writes them.
    pub fn load_words(&mut self, bank: Bank, a: u32, words: &[u32]) -> Result<(), RangeFault>
        ensures inside { IsOk result ↔ IsTrue (is_inside bank a (4 * length words.now) self.old.state) }
        ensures ok { OnOk result (self.new ≡ set_by_host (with_bank_bytes bank a (words_bytes words.now) self.old.state) self.old) }
        ensures err { OnErr result (self.new ≡ self.old) }
    {
        self.machine.load_words(bank, a, words)?;
        self.history.clear();
        Ok(())
    }

    /// Starts the task whose structure of 64 bytes is at an address of the RDRAM, as [`rsp_machine::Machine::start_task`] does, and empties the
    /// history. TaskPlace or TaskSize, and nothing changes, if it can't start.
    pub fn start_task(&mut self, a: u32) -> Result<(), TaskFault>
        ensures fault { MatchResult result (λ _. task_fault a self.old.state.rdram ≡ None) (λ f. task_fault a self.old.state.rdram ≡ Some f) }
        ensures ok { OnOk result (self.new ≡ set_by_host (with_task a self.old.state) self.old) }
        ensures err { OnErr result (self.new ≡ self.old) }
    {
        self.machine.start_task(a)?;
        self.history.clear();
        Ok(())
    }

    /// Sets the SP registers, as [`rsp_machine::Machine::set_sp_parts`] does, and empties the history. If a [`RegistersFault`] is
    /// returned, nothing changes.
    pub fn set_sp_parts(&mut self, given: &SpParts) -> Result<(), RegistersFault>
        ensures fault { MatchResult result (λ _. sp_fault given.now ≡ None) (λ f. sp_fault given.now ≡ Some f) }
        ensures ok { OnOk result (self.new ≡ set_by_host (record self.old.state { sp = sp_of given.now }) self.old) }
        ensures err { OnErr result (self.new ≡ self.old) }
    {
        self.machine.set_sp_parts(given)?;
        self.history.clear();
        Ok(())
    }

    /// Passes over the MFC0 or MTC0 at pc, as [`rsp_machine::Machine::pass`] does, and empties the history.
    pub fn pass(&mut self, value: u32) -> Result<(), PassFault>
        ensures fault { IfErr result (λ f. pass_of value self.old.state ≡ Err f) }
        ensures ok { OnOk result (pass_of value self.old.state ≡ Ok self.new.state) }
        ensures next { OnOk result (self.new ≡ set_by_host self.new.state self.old) }
        ensures err { OnErr result (self.new ≡ self.old) }
    {
        self.machine.pass(value)?;
        self.history.clear();
        Ok(())
    }

    /// Passes over the DMA at pc, whose bytes the host then moves, as [`rsp_machine::Machine::pass_dma`] does, and empties the history.
    pub fn pass_dma(&mut self) -> Result<(), PassFault>
        ensures fault { IfErr result (λ f. pass_dma_of self.old.state ≡ Err f) }
        ensures ok { OnOk result (pass_dma_of self.old.state ≡ Ok self.new.state) }
        ensures next { OnOk result (self.new ≡ set_by_host self.new.state self.old) }
        ensures err { OnErr result (self.new ≡ self.old) }
    {
        self.machine.pass_dma()?;
        self.history.clear();
        Ok(())
    }

    /// The image of the RDRAM; the rest of the debugger is dropped.
    pub fn into_rdram(self) -> Rdram
        ensures { result ≡ self.state.rdram }
    {
        let Debugger { machine, .. } = self;
        machine.into_rdram()
    }
}
