// Moves between the scalar registers and the SP registers, before which a run can end.

ghost use Rattle.std.specs.Prelude.{◌≡◌, ◌<◌, ◌==◌, ◌&&◌, IsTrue, IfSome, is_none};
ghost use Rattle.rsp_decode.specs.Table.{inst_of, IsInstruction};
ghost use Rattle.rsp_debug.specs.Moves.{no_moves, end_by};
ghost use Rattle.rsp_debug.specs.Runs.{move_of, has_move};

use crate::stop::{Reason, Stop};
use rsp_acc::Acc;
use rsp_decode::{Inst, MoveOp, Visitor, visit};
use rsp_machine::{Machine, Until};

/// A run ends before these moves: bit r of `reads` names each MFC0 from SP register r, bit r of `writes` each MTC0 to it.
#[derive(Clone, Copy, Debug, PartialEq, Eq, Drop)]
pub struct Moves {
    /// The SP registers that are read.
    pub reads: u16,
    /// The SP registers that are written.
    pub writes: u16,
}

/// Where a run ends that also ends before moves.
#[derive(Clone, Copy, Debug, PartialEq, Eq, Drop)]
pub enum MoveEnd {
    /// At a stop, as [`crate::Debugger::run`] does.
    Stop(Stop),
    /// Before a move, which isn't executed.
    Move {
        /// How many steps the run made.
        steps: u32,
        /// The address of the move.
        pc: u16,
        /// The number of its SP register, 0 to 15.
        register: u8,
        /// Whether it writes the SP register: it is an MTC0.
        writes: bool,
        /// The value of its scalar register.
        value: u32,
    },
}

/// Keeps the instruction of a word, if it is an MFC0 or MTC0.
#[derive(Drop)]
struct KeptMove {
    inst: Option<Inst>,
}

impl Visitor for KeptMove {
    ghost use Rattle.std.specs.Prelude.{Some};
    ghost use Rattle.rsp_debug.specs.Runs.{move_of};

    ghost after = { λ i _. record { inst = move_of (Some i) } };

    #[inline(always)]
    fn take(&mut self, inst: Inst) {
        self.inst = match inst {
            Inst::MoveSp { op, rt, register } => Some(Inst::MoveSp { op, rt, register }),
            _ => None,
        };
    }
}

/// The instruction of a word, if it is an MFC0 or MTC0.
#[inline(always)]
fn move_of(word: u32) -> Option<Inst>
    ensures value { result ≡ move_of (inst_of word) }
    ensures instruction { IfSome result IsInstruction }
{
    let mut kept = KeptMove { inst: None };
    visit(word, &mut kept);
    kept.inst
}

/// Whether a word has no instruction. It isn't inlined, since it is a decoder.
#[inline(never)]
pub(crate) fn is_reserved(word: u32) -> bool
    ensures { result ≡ is_none (inst_of word) }
{
    !visit(word, &mut KeptMove { inst: None })
}

impl Moves {
    /// No move.
    pub(crate) fn none() -> Moves
        ensures { result ≡ no_moves }
    {
        Moves {
            reads: 0,
            writes: 0,
        }
    }

    /// Whether there is none.
    pub(crate) fn is_empty(self) -> bool
        ensures value { result ≡ ((self.reads == 0) && (self.writes == 0)) }
        ensures none { IsTrue result → self ≡ no_moves }
    {
        self.reads == 0 && self.writes == 0
    }

    /// Whether a move of an SP register is one of them.
    #[inline(always)]
    fn has_move(self, op: MoveOp, register: u8) -> bool
        requires { register < 16 }
        ensures { result ≡ has_move self op register }
    {
        match op {
            MoveOp::From => self.reads >> register & 1 == 1,
            MoveOp::To => self.writes >> register & 1 == 1,
        }
    }

    /// The end of a run that made no more steps than to the first of the moves.
    #[inline(always)]
    #[tactic(auto, using(crate::proofs::Moving::moving))]
    pub(crate) fn end<A: Acc>(self, stop: Stop, machine: &Machine<A>) -> MoveEnd
        ensures { result ≡ end_by self stop machine.now }
    {
        if !matches!(stop.reason, Reason::Limit) || machine.sp_regs().halted() {
            return MoveEnd::Stop(stop);
        }
        match move_of(machine.imem().aligned_word(usize::from(machine.pc()))) {
            Some(Inst::MoveSp { op, rt, register }) if self.has_move(op, register) => {
                MoveEnd::Move {
                    steps: stop.steps,
                    pc: stop.pc,
                    register,
                    writes: matches!(op, MoveOp::To),
                    value: machine.reg(rt),
                }
            }
            _ => MoveEnd::Stop(stop),
        }
    }
}

impl Until for Moves {
    ghost use Rattle.std.specs.Prelude.{false};
    ghost use Rattle.rsp_debug.specs.Runs.{has_move};

    ghost ends = { λ m pc word changes_memory. false };

    ghost refuses = { λ m op register. has_move m op register };

    #[inline(always)]
    fn ends(&self, _pc: u16, _word: u32, _changes_memory: bool) -> bool {
        false
    }

    #[inline(always)]
    fn refuses(&self, op: MoveOp, register: u8) -> bool {
        self.has_move(op, register)
    }
}
