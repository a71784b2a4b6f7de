ghost use Rattle.std.specs.Prelude.{◌≡◌, ◌≤◌, true, None, IsOk, IsSome, IfSome, IfOk, IfErr, OnOk, OnErr, List, ℕ, length, []};
ghost use Rattle.std.specs.List.{list_all};
ghost use Rattle.rsp_commands.specs.Command.{IsCommand};
ghost use Rattle.rsp_syntax.specs.Chars.{is_line_byte};
ghost use Rattle.rsp_asm.specs.Block.{with_line, meaning_of_block};
ghost use Rattle.rsp_bench.specs.Session.{NeedsNoMemory, HidesNoBlockFault, EndHidesNoBlockFault, answer_of, plain_answer, block_answer, with_block, end_answer, line_answer, lacks_memory, CommandLacksMemory, first_session, end_reply, in_block};
ghost use Rattle.rsp_bench.specs.Replies.{line_fault_text};

use crate::replies::{put_asm_fault, put_fault, put_ok, put_words};
use crate::words::load_words;
use rsp_acc::PlaneAcc;
use rsp_asm::{AsmFault, AsmFaultKind, Block, BlockFault};
use rsp_commands::{Command, LineFault, SourceLine, parse_line};
use rsp_debug::Debugger;
use rsp_machine::Machine;
use rsp_memory::Rdram;
use rsp_script_io::{LineHandler, Reply};
use std::alloc::{AllocError, Global};
use std::marker::Model;

/// How many steps a session can undo.
const HISTORY_DEPTH: usize = 256;

/// What answers the commands of a script: a machine in a debugger, and the block of source text that is open. Contracts see it
/// as the record `SessionState`.
#[derive(Drop)]
pub struct Session {
    pub(crate) debugger: Debugger<PlaneAcc>,
    block: Option<Block>,
}

impl Model for Session {
    ghost use Rattle.rsp_bench.specs.Session.{SessionState};

    ghost Value = { SessionState };

    ghost view = { λ s. record { debugging = s.debugger; block = s.block } };
}

impl Session {
    /// A session whose machine has this image of the RDRAM, and all else as at the start: no breakpoint, no watch, no history and
    /// no open block. The memory for its history of 256 steps is taken here, so that no step can run out of memory. If there is none,
    /// the image is handed back.
    #[tactic(auto, unfolding(rsp_machine::specs::State::start_of))]
    pub fn try_new(alloc: Global, image: Rdram) -> Result<Session, (Rdram, AllocError)>
        ensures ok { IfOk result (λ session. session ≡ first_session image) }
        ensures err { IfErr result (λ refused. refused.0 ≡ image) }
    {
        match Debugger::try_new(alloc, Machine::new(image), HISTORY_DEPTH) {
            Ok(debugger) => Ok(Session {
                debugger,
                block: None,
            }),
            Err((machine, fault)) => Err((machine.into_rdram(), fault)),
        }
    }

    /// Whether a block of source text is open.
    pub fn in_block(&self) -> bool
        ensures { result ≡ in_block self.now }
    {
        self.block.is_some()
    }

    /// Carries out a command while no block is open.
    fn answer_plain(&mut self, alloc: Global, command: &Command, reply: &mut Reply)
        requires command { IsCommand command.now }
        requires closed { self.old.block ≡ None }
        requires empty { reply.old ≡ [] }
        ensures reply { reply.new ≡ (plain_answer command.now self.old).reply }
        ensures next { self.new ≡ (plain_answer command.now self.old).next }
    {
        match command {
            Command::Nothing => {}
            Command::Load {
                bank,
                address,
                bytes,
            } => self.load(*bank, *address, bytes.as_slice(), reply),
            Command::Step => self.step(reply),
            Command::Run { limit } => self.run(*limit, reply),
            Command::Break { address } => self.add_break(*address, reply),
            Command::Unbreak { address } => self.drop_break(*address, reply),
            Command::Watch { address, len } => self.add_watch(*address, *len, reply),
            Command::Unwatch { number } => self.drop_watch(*number, reply),
            Command::Back { count } => self.back(*count, reply),
            Command::Read { register } => self.read(*register, reply),
            Command::Write { register, value } => {
                self.debugger.write_reg(u32::from(*register), *value);
                put_ok(reply);
            }
            Command::SetPc { address } => {
                self.debugger.set_pc(*address);
                put_ok(reply);
            }
            Command::Task { address } => self.start(*address, reply),
            Command::Show(look) => self.show(look, reply),
            Command::Asm { address } => self.block = Some(Block::new(alloc, *address)),
            Command::BlockLine(_) | Command::End => put_fault(reply, LineFault::BadCommand),
        }
    }

    /// Appends a line to the open block. AllocError if there is no memory for it: then nothing changes.
    fn keep(&mut self, line: &SourceLine) -> Result<(), AllocError>
        requires open { IsSome self.old.block }
        requires text { list_all is_line_byte line.now ≡ true }
        ensures next { OnOk result (IfSome self.old.block (λ b. self.new ≡ (with_block (with_line line.now b) self.old).next)) }
        ensures err { OnErr result (self.new ≡ self.old) }
    {
        if let Some(block) = &mut self.block {
            block.push(line.as_str())?;
        }
        Ok(())
    }

    /// Closes the open block and assembles it: its words go to IMEM, or the reply is its fault. AllocError if there is no memory
    /// for that: then nothing changes.
    fn end(&mut self, alloc: Global, reply: &mut Reply) -> Result<(), AllocError>
        requires open { IsSome self.old.block }
        requires empty { reply.old ≡ [] }
        ensures reply { OnOk result (IfSome self.old.block (λ b. reply.new ≡ (end_answer b (meaning_of_block b) self.old).reply)) }
        ensures next { OnOk result (IfSome self.old.block (λ b. self.new ≡ (end_answer b (meaning_of_block b) self.old).next)) }
        ensures err { OnErr result (self.new ≡ self.old) }
        ensures hides { OnErr result (IfSome self.old.block HidesNoBlockFault) }
    {
        let Some(block) = &self.block else {
            unreachable!();
        };
        match block.assemble(alloc) {
            Ok(words) => {
                load_words(&mut self.debugger, block.origin(), words.as_slice());
                put_words(reply, words.len());
            }
            Err(BlockFault::Text(fault)) => put_asm_fault(reply, fault),
            Err(BlockFault::OutOfMemory { .. }) => return Err(AllocError),
        }
        self.block = None;
        Ok(())
    }

    /// Carries out a command, and returns its reply. The operands must be in the ranges that `parse_line` promises. Every command is
    /// taken, because a caller may make commands without `parse_line`: one that makes no sense at this moment, such as a line of a
    /// block while none is open, gets the reply BadCommand.
    ///
    /// AllocError if there is no memory: then the session stays as it was, and a block stays open. Only a line of an open block
    /// and its `end` may need memory. AllocError hides no fault of the block's text: at an `end` it comes at a line with a label,
    /// if no line up to that one has a fault of the first pass.
    #[tactic(auto, unfolding(crate::specs::Session::answer_of))]
    pub fn exec(&mut self, alloc: Global, command: &Command) -> Result<Reply, AllocError>
        requires { IsCommand command.now }
        ensures answer_to { NeedsNoMemory command.now self.old → IsOk result }
        ensures reply { IfOk result (λ reply. reply ≡ (answer_of command.now self.old).reply) }
        ensures next { OnOk result (self.new ≡ (answer_of command.now self.old).next) }
        ensures err { OnErr result (self.new ≡ self.old) }
        ensures hides { OnErr result (EndHidesNoBlockFault command.now self.old) }
    {
        let mut reply = Reply::new();
        let is_open = self.in_block();
        self.exec_to(alloc, command, is_open, &mut reply)?;
        Ok(reply)
    }

    /// Carries out a command as `exec` does, and writes its reply into an empty one. `is_open` is whether a block is open.
    #[tactic(auto, unfolding(crate::specs::Session::answer_of))]
    fn exec_to(
        &mut self,
        alloc: Global,
        command: &Command,
        is_open: bool,
        reply: &mut Reply,
    ) -> Result<(), AllocError>
        requires command { IsCommand command.now }
        requires open { is_open ≡ in_block self.old }
        requires empty { reply.old ≡ [] }
        ensures answer_to { NeedsNoMemory command.now self.old → IsOk result }
        ensures reply { OnOk result (reply.new ≡ (answer_of command.now self.old).reply) }
        ensures next { OnOk result (self.new ≡ (answer_of command.now self.old).next) }
        ensures err { OnErr result (self.new ≡ self.old) }
        ensures cause { OnErr result (in_block self.old ≡ true) }
        ensures lacks { OnErr result (CommandLacksMemory command.now self.old) }
    {
        match (command, is_open) {
            (command, false) => self.answer_plain(alloc, command, reply),
            (Command::BlockLine(line), true) => self.keep(line)?,
            (Command::End, true) => self.end(alloc, reply)?,
            _ => put_fault(reply, LineFault::BadCommand),
        }
        Ok(())
    }

    /// Whether a line is empty outside a block, so that it has no reply and no effect.
    #[tactic(auto, using(crate::proofs::Blank::reply, crate::proofs::Blank::next))]
    fn says_nothing(&self, line: &[u8], is_open: bool) -> bool
        requires { is_open ≡ in_block self.now }
        ensures reply { result ≡ true → (line_answer line.now self.now).reply ≡ [] }
        ensures next { result ≡ true → (line_answer line.now self.now).next ≡ self.now }
    {
        if line.is_empty() { !is_open } else { false }
    }

    /// Answers a line in an empty reply. It isn't inlined, since a command's locals would slow empty lines down.
    #[inline(never)]
    #[tactic(auto, unfolding(crate::specs::Session::line_answer, crate::specs::Session::lacks_memory))]
    fn answer_text(
        &mut self,
        alloc: Global,
        line: &[u8],
        is_open: bool,
        reply: &mut Reply,
    ) -> Result<(), AllocError>
        requires open { is_open ≡ in_block self.old }
        requires empty { reply.old ≡ [] }
        ensures reply { OnOk result (reply.new ≡ (line_answer line.now self.old).reply) }
        ensures next { OnOk result (self.new ≡ (line_answer line.now self.old).next) }
        ensures err { OnErr result (self.new ≡ self.old) }
        ensures lacks { OnErr result (lacks_memory line.now self.old) }
    {
        match &parse_line(line, is_open) {
            Ok(command) => self.exec_to(alloc, command, is_open, reply)?,
            Err(fault) => put_fault(reply, *fault),
        }
        Ok(())
    }

    /// The machine, with all that the commands so far did.
    pub fn machine(&self) -> &Machine<PlaneAcc>
        ensures { result.now ≡ self.now.debugging.state }
    {
        self.debugger.machine()
    }

    /// The reply at the end of a script: the fault BadLine if a block is still open, with the line after its last, else nothing.
    pub fn finish(&self) -> Reply
        ensures { result ≡ end_reply self.now }
    {
        let mut reply = Reply::new();
        self.put_end_reply(&mut reply);
        reply
    }

    /// The image of the RDRAM. The rest of the session is dropped.
    pub fn into_rdram(self) -> Rdram
        ensures { result ≡ self.debugging.state.rdram }
    {
        let Session { debugger, .. } = self;
        debugger.into_rdram()
    }
}

impl LineHandler for Session {
    ghost use Rattle.rsp_bench.specs.Session.{line_answer, end_reply, lacks_memory};
    ghost use Rattle.rsp_bench.specs.LongLineAnswers.{long_alike, long_lack_alike};

    ghost answer_to = { line_answer };

    ghost end_reply = { end_reply };

    ghost lacks_memory = { lacks_memory };

    fn answer(&mut self, alloc: Global, line: &[u8], reply: &mut Reply) -> Result<(), AllocError> {
        reply.clear();
        let is_open = self.in_block();
        if self.says_nothing(line, is_open) {
            return Ok(());
        }
        self.answer_text(alloc, line, is_open, reply)
    }

    fn put_end_reply(&self, reply: &mut Reply) {
        reply.clear();
        if let Some(block) = &self.block {
            let fault = AsmFault {
                line: block.line_count() + 1,
                kind: AsmFaultKind::BadLine,
            };
            put_asm_fault(reply, fault);
        }
    }

    ghost alike = { long_alike };

    ghost lack_alike = { long_lack_alike };
}
