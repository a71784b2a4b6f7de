ghost use Rattle.std.specs.Prelude.{◌≡◌, ◌<◌, ◌≤◌, ◌%◌, [], None};
ghost use Rattle.rsp_commands.specs.Command.{IsLook};
ghost use Rattle.rsp_machine.specs.Host.{task_fault};
ghost use Rattle.rsp_debug.specs.Breaks.{break_fault};
ghost use Rattle.rsp_debug.specs.Watches.{number_for};
ghost use Rattle.rsp_bench.specs.Session.{load_answer, step_answer, read_answer, task_answer, run_answer, break_answer, unbreak_answer, watch_answer, unwatch_answer, back_fault, back_answer, memory_text, dis_text, look_text};

use crate::looks::{push_sp_line, put_dump, put_listing, put_registers, put_sp_registers};
use crate::replies::{put_fault, put_ok, put_step, put_stop, put_watch};
use crate::session::Session;
use crate::vector_looks::{put_accumulators, put_flags, put_vector_registers};
use rsp_commands::Look;
use rsp_memory::Bank;
use rsp_script_io::Reply;

/// What each command does if no block is open. Each call takes an empty reply, and writes the whole of the command's reply.
impl Session {
    /// `load`: RangeFault if a byte is outside the bank.
    #[tactic(auto, unfolding(crate::specs::Session::load_answer))]
    pub(crate) fn load(&mut self, bank: Bank, address: u32, bytes: &[u8], reply: &mut Reply)
        requires { reply.old ≡ [] }
        ensures reply { reply.new ≡ (load_answer bank address bytes.now self.old).reply }
        ensures next { self.new ≡ (load_answer bank address bytes.now self.old).next }
    {
        match self.debugger.load_bytes(bank, address, bytes) {
            Ok(()) => put_ok(reply),
            Err(fault) => put_fault(reply, fault),
        }
    }

    /// `step`.
    #[tactic(auto, unfolding(crate::specs::Session::step_answer))]
    pub(crate) fn step(&mut self, reply: &mut Reply)
        requires { reply.old ≡ [] }
        ensures reply { reply.new ≡ (step_answer self.old).reply }
        ensures next { self.new ≡ (step_answer self.old).next }
    {
        let end = self.debugger.step();
        put_step(reply, end, self.debugger.machine().pc())
    }

    /// `run`: Count if the limit is out of its range.
    #[tactic(auto, unfolding(crate::specs::Session::run_answer))]
    pub(crate) fn run(&mut self, limit: u32, reply: &mut Reply)
        requires { reply.old ≡ [] }
        ensures reply { reply.new ≡ (run_answer limit self.old).reply }
        ensures next { self.new ≡ (run_answer limit self.old).next }
    {
        match self.debugger.run(limit) {
            Ok(stop) => put_stop(reply, stop),
            Err(fault) => put_fault(reply, fault),
        }
    }

    /// `break`: BreakTwice or BreakFull.
    pub(crate) fn add_break(&mut self, address: u16, reply: &mut Reply)
        requires below { address < 4096 }
        requires whole { address % 4 ≡ 0 }
        requires empty { reply.old ≡ [] }
        ensures reply { reply.new ≡ (break_answer (break_fault address self.old.debugging.breaks) address self.old).reply }
        ensures next { self.new ≡ (break_answer (break_fault address self.old.debugging.breaks) address self.old).next }
    {
        match self.debugger.add_break(address) {
            Ok(()) => put_ok(reply),
            Err(fault) => put_fault(reply, fault),
        }
    }

    /// `unbreak`: NoBreak.
    pub(crate) fn drop_break(&mut self, address: u16, reply: &mut Reply)
        requires below { address < 4096 }
        requires whole { address % 4 ≡ 0 }
        requires empty { reply.old ≡ [] }
        ensures reply { reply.new ≡ (unbreak_answer address self.old).reply }
        ensures next { self.new ≡ (unbreak_answer address self.old).next }
    {
        match self.debugger.drop_break(address) {
            Ok(()) => put_ok(reply),
            Err(fault) => put_fault(reply, fault),
        }
    }

    /// `watch`: WatchRange or WatchFull. The reply has the number of the watch.
    pub(crate) fn add_watch(&mut self, address: u32, len: u32, reply: &mut Reply)
        requires { reply.old ≡ [] }
        ensures reply { reply.new ≡ (watch_answer (number_for address len self.old.debugging.watches) address len self.old).reply }
        ensures next { self.new ≡ (watch_answer (number_for address len self.old.debugging.watches) address len self.old).next }
    {
        match self.debugger.add_watch(address, len) {
            Ok(number) => put_watch(reply, number),
            Err(fault) => put_fault(reply, fault),
        }
    }

    /// `unwatch`: NoWatch.
    pub(crate) fn drop_watch(&mut self, number: u32, reply: &mut Reply)
        requires { reply.old ≡ [] }
        ensures reply { reply.new ≡ (unwatch_answer number self.old).reply }
        ensures next { self.new ≡ (unwatch_answer number self.old).next }
    {
        match self.debugger.drop_watch(number) {
            Ok(()) => put_ok(reply),
            Err(fault) => put_fault(reply, fault),
        }
    }

    /// `back`: Count or ShortHistory.
    pub(crate) fn back(&mut self, count: u32, reply: &mut Reply)
        requires { reply.old ≡ [] }
        ensures reply { reply.new ≡ (back_answer (back_fault count self.old.debugging.past) count self.old).reply }
        ensures next { self.new ≡ (back_answer (back_fault count self.old.debugging.past) count self.old).next }
    {
        match self.debugger.back(count) {
            Ok(()) => put_ok(reply),
            Err(fault) => put_fault(reply, fault),
        }
    }

    /// `read`: a read of register 7 takes the semaphore.
    pub(crate) fn read(&mut self, register: u8, reply: &mut Reply)
        requires register { register < 16 }
        requires empty { reply.old ≡ [] }
        ensures reply { reply.new ≡ (read_answer register self.old).reply }
        ensures next { self.new ≡ (read_answer register self.old).next }
    {
        let value = self.debugger.read_reg(u32::from(register));
        push_sp_line(reply, register, value);
    }

    /// `task`: TaskPlace or TaskSize.
    pub(crate) fn start(&mut self, address: u32, reply: &mut Reply)
        requires { reply.old ≡ [] }
        ensures reply { reply.new ≡ (task_answer (task_fault address self.old.debugging.state.rdram) address self.old).reply }
        ensures next { self.new ≡ (task_answer (task_fault address self.old.debugging.state.rdram) address self.old).next }
    {
        match self.debugger.start_task(address) {
            Ok(()) => put_ok(reply),
            Err(fault) => put_fault(reply, fault),
        }
    }

    /// `mem`. It isn't inlined, since its local of 256 bytes would slow all other commands down.
    #[inline(never)]
    fn memory(&self, bank: Bank, address: u32, len: u32, reply: &mut Reply)
        requires address { address ≤ 16777215 }
        requires some { 1 ≤ len }
        requires few { len ≤ 256 }
        requires empty { reply.old ≡ [] }
        ensures { reply.new ≡ memory_text bank address len self.now.debugging.state }
    {
        match self.debugger.memory(bank, address, len as usize) {
            Ok(bytes) => put_dump(reply, address, bytes.as_slice()),
            Err(fault) => put_fault(reply, fault),
        }
    }

    /// `dis`. It isn't inlined, since its local of 64 lines would slow all other commands down.
    #[inline(never)]
    fn disassembly(&self, address: u16, count: u32, reply: &mut Reply)
        requires below { address < 4096 }
        requires whole { address % 4 ≡ 0 }
        requires some { 1 ≤ count }
        requires few { count ≤ 64 }
        requires empty { reply.old ≡ [] }
        ensures { reply.new ≡ dis_text address count self.now.debugging.state }
    {
        match self.debugger.listing(address, count as u16) {
            Ok(words) => put_listing(reply, words.as_slice()),
            Err(fault) => put_fault(reply, fault),
        }
    }

    /// The commands that show a part of the session, and change nothing.
    pub(crate) fn show(&self, look: &Look, reply: &mut Reply)
        requires look { IsLook look.now }
        requires empty { reply.old ≡ [] }
        ensures { reply.new ≡ look_text look.now self.now.debugging.state }
    {
        match look {
            Look::Regs => put_registers(reply, &self.debugger),
            Look::Vregs => put_vector_registers(reply, &self.debugger),
            Look::Acc => put_accumulators(reply, &self.debugger),
            Look::Flags => {
                let (flags, divider) = self.debugger.flags();
                put_flags(reply, flags, divider)
            }
            Look::Sp => put_sp_registers(reply, self.debugger.sp_regs()),
            Look::Mem { bank, address, len } => self.memory(*bank, *address, *len, reply),
            Look::Dis { address, count } => self.disassembly(*address, *count, reply),
        }
    }
}
