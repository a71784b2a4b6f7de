// What is done with an instruction as soon as its word is decoded.

ghost use Rattle.std.specs.Prelude.{◌≡◌, Some};
ghost use Rattle.rsp_decode.specs.declared.inst.Inst.{Inst};
ghost use Rattle.rsp_decode.specs.Table.{IsInstruction};

use crate::inst::Inst;

/// Takes the instruction of a word from [`visit`](crate::visit). The call is inlined there with the variant known, so one match
/// decodes and executes a word, and no [`Inst`] is in memory between.
pub trait Visitor {
    /// The visitor after an instruction.
    ghost after: { Inst → Self → Self };

    /// Takes an instruction.
    fn take(&mut self, inst: Inst)
        requires { IsInstruction inst }
        ensures { self.new ≡ after inst self.old };
}

/// Keeps the last instruction.
#[derive(Drop)]
pub struct LastInst {
    pub inst: Option<Inst>,
}

impl Visitor for LastInst {
    ghost after = { λ i _. record { inst = Some i } };

    #[inline(always)]
    fn take(&mut self, inst: Inst) {
        self.inst = Some(inst);
    }
}
