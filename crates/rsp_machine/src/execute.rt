// What an instruction does.
//
// The decoder hands each instruction to one method, `take`, and one match executes it. LLVM puts the match into each arm of the decoder, so
// no `Option<Inst>` is written and matched again. That holds up to some 8,000 instructions of LLVM's: for a longer function the kit drops
// `inline(always)`, and a step costs 60 host instructions more. So multiplies, loads, stores and divides are `inline`, and LLVM chooses.

ghost use Rattle.std.specs.Prelude.{◌≡◌, ◌<◌, Some};
ghost use Rattle.rsp_decode.specs.Table.{IsInstruction, inst_of};
ghost use Rattle.rsp_decode.specs.declared.scalar.MoveOp.TheVariants as op;
ghost use Rattle.rsp_machine.specs.Step.{moves_sp, instruction_effect};
ghost use Rattle.rsp_machine.specs.ProgramCounters.{with_counters, counters_of};
ghost use Rattle.rsp_machine.specs.Undo.{after_instruction};
ghost use Rattle.rsp_machine.specs.LoopTests.{tests_of, tests_in, state_after};
ghost use Rattle.rsp_machine.specs.Until.{refuses_by, permitted};

use crate::footprint::{Footprint, StepTests, footprint_of};
use crate::machine::Machine;
use crate::program_counters::{InstructionAddress, ProgramCounters};
use crate::recorder::Recorder;
use crate::until::Until;
use rsp_acc::Acc;
use rsp_decode::{Inst, MoveOp, Visitor, visit};
use rsp_scalar::{alu, jump, load, store};

/// A machine as the visitor of its instructions, and the recorder of what they overwrite. It is a type of its own because an
/// embedder may step a machine, but must not execute an instruction without the fetch and the test of halted.
#[derive(Drop)]
struct Executor<'a, 'b, A: Acc, K: Recorder, U: Until> {
    machine: &'a mut Machine<A>,
    recorder: &'a mut K,
    /// The test that may refuse a move. Its type gives each loop its own copy of the decoder, which LLVM then inlines.
    until: &'b U,
    /// pc and npc before the instruction.
    before: ProgramCounters,
    /// pc and npc after the instruction. Those in `machine` are stale while the loop runs.
    counters: ProgramCounters,
    /// What the loop tests after the instruction; None if none was executed.
    tests: Option<StepTests>,
}

impl<'a, 'b, A: Acc, K: Recorder, U: Until> Executor<'a, 'b, A, K, U> {
    /// For the prover: pc and npc after the instruction, because the proof of `execute` needs a call here, and not the field.
    #[inline(always)]
    fn counters(&self) -> ProgramCounters
        ensures { result ≡ self.now.counters }
    {
        self.counters
    }
}

impl<A: Acc> Machine<A> {
    /// A read of an SP register into scalar register `rt`. It is apart from the write, whose DMA makes it long.
    #[tactic(auto, unfolding(crate::specs::Step::moves_sp))]
    fn move_from_sp(&mut self, rt: u8, register: u8)
        requires { rt < 32 }
        ensures { self.new ≡ moves_sp op.From rt register self.old }
    {
        let value = self.sp.host_read(u32::from(register));
        self.regs.set(rt, value);
    }

    /// A write of an SP register from scalar register `rt`.
    #[inline(never)]
    #[tactic(auto, unfolding(crate::specs::Step::moves_sp))]
    fn move_to_sp(&mut self, rt: u8, register: u8)
        requires { rt < 32 }
        ensures { self.new ≡ moves_sp op.To rt register self.old }
    {
        let value = self.regs.get(rt);
        self.write_reg(u32::from(register), value);
    }

    /// Does what an instruction does. pc and npc have advanced in `counters`, and the machine's own aren't used.
    #[inline(always)]
    #[tactic(auto, unfolding(crate::specs::Step::instruction_effect, crate::specs::Step::computes, crate::specs::Step::loads_scalar, crate::specs::Step::stores_scalar, crate::specs::Step::jumps, crate::specs::Step::break_instruction, crate::specs::Step::moves_sp, crate::specs::Vector::multiplies, crate::specs::Vector::rounds, crate::specs::Vector::multiplies_mpeg, crate::specs::Vector::reads_accumulator, crate::specs::Vector::ruled, crate::specs::Vector::divides, crate::specs::Vector::loads_vector, crate::specs::Vector::stores_vector))]
    fn perform(&mut self, inst: &Inst, counters: &mut ProgramCounters)
        requires { IsInstruction inst.now }
        ensures state { self.new ≡ with_counters (counters_of self.old) (instruction_effect inst.now (with_counters counters.old self.old)) }
        ensures counters { counters.new ≡ counters_of (instruction_effect inst.now (with_counters counters.old self.old)) }
    {
        match *inst {
            Inst::Shift { .. }
            | Inst::ShiftBy { .. }
            | Inst::Register { .. }
            | Inst::Immediate { .. }
            | Inst::LoadUpper { .. } => alu(inst, &mut self.regs),
            Inst::Load { .. } => load(inst, &mut self.regs, &self.dmem),
            Inst::Store { .. } => store(inst, &self.regs, &mut self.dmem),
            Inst::JumpRegister { .. }
            | Inst::JumpLinkRegister { .. }
            | Inst::BranchSign { .. }
            | Inst::BranchEqual { .. }
            | Inst::Jump { .. } => {
                // The instruction at this pc is the delay slot, which is executed before the target.
                let target = jump(inst, &mut self.regs, counters.pc.get());
                counters.npc = InstructionAddress::new(target);
            }
            Inst::Break => self.sp.on_break(),
            Inst::MoveSp { op, rt, register } => match op {
                MoveOp::From => self.move_from_sp(rt, register),
                MoveOp::To => self.move_to_sp(rt, register),
            },
            Inst::MoveVector { op, rt, .. } => self.move_lanes(*inst, op, rt),
            Inst::MoveControl { op, rt, .. } => self.move_flags(*inst, op, rt),
            Inst::Multiply { op, fields } => self.multiply_lanes(op, fields),
            Inst::Round { op, fields } => self.round_lanes(op, fields),
            Inst::MpegMultiply { op, fields } => self.multiply_mpeg(op, fields),
            Inst::ReadAccumulator { fields } => self.read_part(fields),
            Inst::VectorAdd { op, fields } => self.add_lanes(op, fields),
            Inst::VectorSelect { op, fields } => self.select_lanes(op, fields),
            Inst::VectorClip { op, fields } => self.clip_lanes(op, fields),
            Inst::VectorMerge { fields } => self.merge_lanes(fields),
            Inst::VectorLogic { op, fields } => self.logic_lanes(op, fields),
            Inst::Divide {
                op,
                vd,
                lane,
                vt,
                element,
            } => self.divide(op, vd, lane, vt, element),
            Inst::Idle { op } => self.idle(op),
            Inst::VectorLoad { op, fields } => self.load_vector(op, fields),
            Inst::VectorStore { op, fields } => self.store_vector(op, fields),
        }
    }

    /// Executes the word at `counters`, and returns what the loop tests after it. A recorder gets its footprint first. None for a
    /// reserved word, and for a move that `until` refuses: both change nothing. The machine's own pc and npc aren't used.
    #[inline(always)]
    #[tactic(auto, unfolding(crate::specs::Step::executed))]
    pub(crate) fn execute<K: Recorder, U: Until>(
        &mut self,
        counters: &mut ProgramCounters,
        word: u32,
        recorder: &mut K,
        until: &U,
    ) -> Option<StepTests>
        ensures answer { result ≡ tests_in (with_counters counters.old self.old) (permitted (U.refuses until.now) (inst_of word)) }
        ensures state { with_counters counters.new self.new ≡ state_after (with_counters counters.old self.old) (permitted (U.refuses until.now) (inst_of word)) }
        ensures recorder { recorder.new ≡ after_instruction K.saves (permitted (U.refuses until.now) (inst_of word)) (with_counters counters.old self.old) recorder.old }
    {
        let before = *counters;
        let next = counters.next();
        let mut executor: Executor<A, K, U> = Executor {
            machine: self,
            recorder,
            until,
            before,
            counters: next,
            tests: None,
        };
        visit(word, &mut executor);
        let tests = executor.tests?;
        *counters = executor.counters();
        Some(tests)
    }
}

impl<'a, 'b, A: Acc, K: Recorder, U: Until> Visitor for Executor<'a, 'b, A, K, U> {
    ghost use Rattle.rsp_machine.specs.ProgramCounters.{with_counters, counters_of};
    ghost use Rattle.rsp_machine.specs.Step.{instruction_effect};
    ghost use Rattle.rsp_machine.specs.Footprint.{footprint_of};
    ghost use Rattle.std.specs.Prelude.{Some, if◌then◌else◌};
    ghost use Rattle.rsp_machine.specs.LoopTests.{tests_of};
    ghost use Rattle.rsp_machine.specs.Until.{refuses_by};

    ghost after = { λ i e.
        let before = with_counters e.before e.machine.now in
        let next = instruction_effect i (with_counters e.counters e.machine.now) in
        if refuses_by (U.refuses e.until.now) (Some i) then e else record {
          machine = record e.machine { now = with_counters (counters_of e.machine.now) next };
          recorder = record e.recorder { now = K.saves (footprint_of i before) before e.recorder.now };
          until = e.until;
          before = e.before;
          counters = counters_of next;
          tests = Some (tests_of (footprint_of i before));
        } };

    #[inline(always)]
    fn take(&mut self, inst: Inst) {
        // Each arm of the decoder knows whether its instruction is a move, so the others pay nothing.
        if let Inst::MoveSp { op, register, .. } = inst {
            if self.until.refuses(op, register) {
                return;
            }
        }
        let footprint = footprint_of(&inst, self.machine);
        self.recorder.save(self.machine, self.before, footprint);
        self.tests = Some(footprint.tests());
        self.machine.perform(&inst, &mut self.counters);
    }
}
