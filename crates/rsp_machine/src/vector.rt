ghost use Rattle.std.specs.Prelude.{◌≡◌, ◌<◌};
ghost use Rattle.rsp_decode.specs.declared.inst.Inst.{Inst};
ghost use Rattle.rsp_decode.specs.Table.{IsInstruction, IsVectorFields};
ghost use Rattle.rsp_lanes.specs.Lanes.{selected};
ghost use Rattle.rsp_loadstore.specs.File.{vector};
ghost use Rattle.rsp_compare.specs.Adds.{add_rule};
ghost use Rattle.rsp_compare.specs.Selects.{select_rule, merge_rule};
ghost use Rattle.rsp_compare.specs.Clips.{clip_rule};
ghost use Rattle.rsp_compare.specs.Logic.{logic_rule};
ghost use Rattle.rsp_compare.specs.declared.selects.MergeOp.TheVariants.{Vmrg};
ghost use Rattle.rsp_machine.specs.Operations.{add_of, select_of, clip_of, logic_of};
ghost use Rattle.rsp_machine.specs.Vector.{multiplies, rounds, multiplies_mpeg, reads_accumulator, ruled, divides, loads_vector, stores_vector, moves_vector, moves_control};

use crate::machine::Machine;
use crate::operation::{
    add_of, clip_of, divide_of, idle_of, logic_of, mpeg_of, multiply_of, round_of, select_of,
};
use rsp_acc::Acc;
use rsp_compare::{MergeOp, add_op, clip_op, logic_op, merge_op, select_op};
use rsp_decode::{
    Inst, MoveOp, VectorAddOp, VectorClipOp, VectorDivideOp, VectorFields, VectorLoadOp,
    VectorLogicOp, VectorMemoryFields, VectorMpegOp, VectorMultiplyOp, VectorNopOp, VectorRoundOp,
    VectorSelectOp, VectorStoreOp,
};
use rsp_divide::divide_op;
use rsp_lanes::{VReg, select};
use rsp_loadstore::{self, address, control_from, control_to, move_from, move_to};
use rsp_multiply::{mpeg_op, multiply, round_op, sar};

impl<A: Acc> Machine<A> {
    /// Vector register `vs`, and `vt` with its lanes as the element selects them.
    #[inline(always)]
    fn sources(&self, fields: VectorFields) -> (VReg, VReg)
        requires { IsVectorFields fields }
        ensures vs { result.0 ≡ vector self.now.vectors fields.vs }
        ensures vt { result.1 ≡ selected (vector self.now.vectors fields.vt) fields.element }
    {
        let b = select(&self.vregs.reg(fields.vt), usize::from(fields.element));
        (self.vregs.reg(fields.vs), b)
    }

    /// One of the twelve multiplies.
    #[inline]
    #[tactic(auto, unfolding(crate::specs::Vector::multiplies))]
    pub(crate) fn multiply_lanes(&mut self, op: VectorMultiplyOp, fields: VectorFields)
        requires { IsVectorFields fields }
        ensures { self.new ≡ multiplies op fields self.old }
    {
        let (a, b) = self.sources(fields);
        let result = multiply(multiply_of(op), &a, &b, &mut self.acc);
        self.vregs.set_reg(fields.vd, result);
    }

    /// Rounds the accumulators by their sign.
    #[inline]
    #[tactic(auto, unfolding(crate::specs::Vector::rounds))]
    pub(crate) fn round_lanes(&mut self, op: VectorRoundOp, fields: VectorFields)
        requires { IsVectorFields fields }
        ensures { self.new ≡ rounds op fields self.old }
    {
        let (_, b) = self.sources(fields);
        let odd = fields.vs % 2 == 1;
        let result = round_op(round_of(op), odd, &b, &mut self.acc);
        self.vregs.set_reg(fields.vd, result);
    }

    /// An MPEG multiply.
    #[inline]
    #[tactic(auto, unfolding(crate::specs::Vector::multiplies_mpeg))]
    pub(crate) fn multiply_mpeg(&mut self, op: VectorMpegOp, fields: VectorFields)
        requires { IsVectorFields fields }
        ensures { self.new ≡ multiplies_mpeg op fields self.old }
    {
        let (a, b) = self.sources(fields);
        let result = mpeg_op(mpeg_of(op), &a, &b, &mut self.acc);
        self.vregs.set_reg(fields.vd, result);
    }

    /// Reads a part of the accumulators.
    #[inline(always)]
    #[tactic(auto, unfolding(crate::specs::Vector::reads_accumulator))]
    pub(crate) fn read_part(&mut self, fields: VectorFields)
        requires { IsVectorFields fields }
        ensures { self.new ≡ reads_accumulator fields self.old }
    {
        let result = sar(usize::from(fields.element), &self.acc);
        self.vregs.set_reg(fields.vd, result);
    }

    /// A sum or a difference.
    #[inline(always)]
    #[tactic(auto, unfolding(crate::specs::Vector::ruled))]
    pub(crate) fn add_lanes(&mut self, op: VectorAddOp, fields: VectorFields)
        requires { IsVectorFields fields }
        ensures { self.new ≡ ruled (add_rule (add_of op)) fields self.old }
    {
        let (a, b) = self.sources(fields);
        let result = add_op(add_of(op), &a, &b, &mut self.flags, &mut self.acc);
        self.vregs.set_reg(fields.vd, result);
    }

    /// A comparison.
    #[inline(always)]
    #[tactic(auto, unfolding(crate::specs::Vector::ruled))]
    pub(crate) fn select_lanes(&mut self, op: VectorSelectOp, fields: VectorFields)
        requires { IsVectorFields fields }
        ensures { self.new ≡ ruled (select_rule (select_of op)) fields self.old }
    {
        let (a, b) = self.sources(fields);
        let result = select_op(select_of(op), &a, &b, &mut self.flags, &mut self.acc);
        self.vregs.set_reg(fields.vd, result);
    }

    /// A clip.
    #[inline(always)]
    #[tactic(auto, unfolding(crate::specs::Vector::ruled))]
    pub(crate) fn clip_lanes(&mut self, op: VectorClipOp, fields: VectorFields)
        requires { IsVectorFields fields }
        ensures { self.new ≡ ruled (clip_rule (clip_of op)) fields self.old }
    {
        let (a, b) = self.sources(fields);
        let result = clip_op(clip_of(op), &a, &b, &mut self.flags, &mut self.acc);
        self.vregs.set_reg(fields.vd, result);
    }

    /// A merge by the compare flags.
    #[inline(always)]
    #[tactic(auto, unfolding(crate::specs::Vector::ruled))]
    pub(crate) fn merge_lanes(&mut self, fields: VectorFields)
        requires { IsVectorFields fields }
        ensures { self.new ≡ ruled (merge_rule Vmrg) fields self.old }
    {
        let (a, b) = self.sources(fields);
        let result = merge_op(MergeOp::Vmrg, &a, &b, &mut self.flags, &mut self.acc);
        self.vregs.set_reg(fields.vd, result);
    }

    /// A logic instruction.
    #[inline(always)]
    #[tactic(auto, unfolding(crate::specs::Vector::ruled))]
    pub(crate) fn logic_lanes(&mut self, op: VectorLogicOp, fields: VectorFields)
        requires { IsVectorFields fields }
        ensures { self.new ≡ ruled (logic_rule (logic_of op)) fields self.old }
    {
        let (a, b) = self.sources(fields);
        let result = logic_op(logic_of(op), &a, &b, &mut self.flags, &mut self.acc);
        self.vregs.set_reg(fields.vd, result);
    }

    /// A divide instruction, which writes one lane.
    #[inline]
    #[tactic(auto, unfolding(crate::specs::Vector::divides), using(crate::proofs::Divides::written))]
    pub(crate) fn divide(&mut self, op: VectorDivideOp, vd: u8, lane: u8, vt: u8, element: u8)
        requires { IsInstruction (Inst.Divide op vd lane vt element) }
        ensures { self.new ≡ divides op vd lane vt element self.old }
    {
        let source = self.vregs.reg(vt);
        let mut register = self.vregs.reg(vd);
        divide_op(
            divide_of(op),
            usize::from(element),
            usize::from(lane),
            &source,
            &mut register,
            &mut self.divider,
            &mut self.acc,
        );
        self.vregs.set_reg(vd, register);
    }

    /// VNOP or VNULL, which changes nothing, whatever registers it is given.
    #[inline(always)]
    #[tactic(auto, using(crate::proofs::Divides::idle_divider, crate::proofs::Divides::idle_accumulators))]
    pub(crate) fn idle(&mut self, op: VectorNopOp)
        ensures { self.new ≡ self.old }
    {
        let op = idle_of(op);
        let (a, mut b) = (self.vregs.reg(0), self.vregs.reg(0));
        divide_op(op, 0, 0, &a, &mut b, &mut self.divider, &mut self.acc);
    }

    /// A vector load.
    #[inline]
    #[tactic(auto, unfolding(crate::specs::Vector::loads_vector))]
    pub(crate) fn load_vector(&mut self, op: VectorLoadOp, fields: VectorMemoryFields)
        requires { IsInstruction (Inst.VectorLoad op fields) }
        ensures { self.new ≡ loads_vector op fields self.old }
    {
        let inst = Inst::VectorLoad { op, fields };
        let a = address(&inst, self.regs.get(fields.base));
        rsp_loadstore::load(&inst, a, &self.dmem, &mut self.vregs);
    }

    /// A vector store.
    #[inline]
    #[tactic(auto, unfolding(crate::specs::Vector::stores_vector))]
    pub(crate) fn store_vector(&mut self, op: VectorStoreOp, fields: VectorMemoryFields)
        requires { IsInstruction (Inst.VectorStore op fields) }
        ensures { self.new ≡ stores_vector op fields self.old }
    {
        let inst = Inst::VectorStore { op, fields };
        let a = address(&inst, self.regs.get(fields.base));
        rsp_loadstore::store(&inst, a, &self.vregs, &mut self.dmem);
    }

    /// A move between scalar register `rt` and a vector register. The instruction is passed as a copy: calls that aren't inlined
    /// take a reference to it, and the decoder's own would be in memory.
    #[inline(always)]
    #[tactic(auto, unfolding(crate::specs::Vector::moves_vector))]
    pub(crate) fn move_lanes(&mut self, inst: Inst, op: MoveOp, rt: u8)
        requires inst { IsInstruction inst }
        requires rt { rt < 32 }
        ensures { self.new ≡ moves_vector op inst rt self.old }
    {
        match op {
            MoveOp::From => self.regs.set(rt, move_from(&inst, &self.vregs)),
            MoveOp::To => move_to(&inst, self.regs.get(rt), &mut self.vregs),
        }
    }

    /// A move between scalar register `rt` and a control register. The instruction is passed as a copy here too.
    #[inline(always)]
    #[tactic(auto, unfolding(crate::specs::Vector::moves_control))]
    pub(crate) fn move_flags(&mut self, inst: Inst, op: MoveOp, rt: u8)
        requires inst { IsInstruction inst }
        requires rt { rt < 32 }
        ensures { self.new ≡ moves_control op inst rt self.old }
    {
        match op {
            MoveOp::From => self.regs.set(rt, control_from(&inst, &self.flags)),
            MoveOp::To => control_to(&inst, self.regs.get(rt), &mut self.flags),
        }
    }
}
