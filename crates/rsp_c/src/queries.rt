// Queries of the machine's state, which change nothing.

ghost use Rattle.std.specs.Prelude.{◌≡◌, ℕ, ◌<◌, IfSome, slice_index};
ghost use Rattle.rsp_scalar.specs.Registers.{register};
ghost use Rattle.rsp_loadstore.specs.File.{vector};
ghost use Rattle.rsp_c.specs.Calls.{status_of, IsDoneIf, IsFilled};
ghost use Rattle.rsp_c.specs.ToC.{c_accumulators, c_flags, c_divider};

use crate::c_structs::{RspAccumulators, RspDivideState, RspFlagBits, RspLanes, RspScalars};
use crate::handle::{RspMachine, with_held};
use crate::status::OK;
use crate::to_c::{c_accumulators, c_divider, c_flags};
use rsp_debug::Scalars;
use std::alloc::Global;

/// Scalar register `n`, below 32.
#[unsafe(no_mangle)]
pub extern "C" fn brsp_reg(handle: &mut RspMachine, alloc: Global, n: u32, out: &mut u32) -> u32
    ensures range { IsDoneIf (λ d. n < 32) handle.old.debugger result }
    ensures value { IsFilled result (λ d. register d.state.registers n) handle.old.debugger out.old out.new }
    ensures same { handle.new.debugger ≡ handle.old.debugger }
{
    with_held!(handle, alloc, |debugger| if n < 32 => do *out = debugger.machine().reg(n as u8))
}

/// pc, npc and the scalar registers.
#[unsafe(no_mangle)]
pub extern "C" fn brsp_regs(handle: &mut RspMachine, alloc: Global, out: &mut RspScalars) -> u32
    ensures answer { result ≡ status_of (λ _. OK) handle.old.debugger }
    ensures pc { IfSome handle.old.debugger (λ d. out.new.pc ≡ d.state.pc) }
    ensures npc { IfSome handle.old.debugger (λ d. out.new.npc ≡ d.state.npc) }
    ensures words { IfSome handle.old.debugger (λ d. (n : ℕ) → n < 32 → slice_index out.new.words n ≡ register d.state.registers n) }
    ensures refused { (result ≡ OK → ⊥) → out.new ≡ out.old }
    ensures same { handle.new.debugger ≡ handle.old.debugger }
{
    with_held!(handle, alloc, |debugger| do {
        let Scalars { pc, npc, words } = debugger.regs();
        *out = RspScalars { words, pc, npc };
    })
}

/// Vector register `n`, below 32.
#[unsafe(no_mangle)]
pub extern "C" fn brsp_vreg(
    handle: &mut RspMachine,
    alloc: Global,
    n: u32,
    out: &mut RspLanes,
) -> u32
    ensures range { IsDoneIf (λ d. n < 32) handle.old.debugger result }
    ensures value { result ≡ OK → IfSome handle.old.debugger (λ d. out.new.lanes ≡ vector d.state.vectors n) }
    ensures refused { (result ≡ OK → ⊥) → out.new ≡ out.old }
    ensures same { handle.new.debugger ≡ handle.old.debugger }
{
    with_held!(handle, alloc, |debugger| if n < 32 => do {
        *out = RspLanes { lanes: debugger.vreg(n as u8).to_array() }
    })
}

/// The accumulators.
#[unsafe(no_mangle)]
pub extern "C" fn brsp_acc(handle: &mut RspMachine, alloc: Global, out: &mut RspAccumulators) -> u32
    ensures answer { result ≡ status_of (λ _. OK) handle.old.debugger }
    ensures value { IsFilled result (λ d. c_accumulators d.state.accumulators) handle.old.debugger out.old out.new }
    ensures same { handle.new.debugger ≡ handle.old.debugger }
{
    with_held!(handle, alloc, |debugger| do *out = c_accumulators(&debugger))
}

/// The flags, a bit for each lane.
#[unsafe(no_mangle)]
pub extern "C" fn brsp_flags(handle: &mut RspMachine, alloc: Global, out: &mut RspFlagBits) -> u32
    ensures answer { result ≡ status_of (λ _. OK) handle.old.debugger }
    ensures value { IsFilled result (λ d. c_flags d.state.flags) handle.old.debugger out.old out.new }
    ensures same { handle.new.debugger ≡ handle.old.debugger }
{
    with_held!(handle, alloc, |debugger| do *out = c_flags(debugger.flags().0))
}

/// What the divide instructions keep from one to the next.
#[unsafe(no_mangle)]
pub extern "C" fn brsp_divider(
    handle: &mut RspMachine,
    alloc: Global,
    out: &mut RspDivideState,
) -> u32
    ensures answer { result ≡ status_of (λ _. OK) handle.old.debugger }
    ensures value { IsFilled result (λ d. c_divider d.state.divider) handle.old.debugger out.old out.new }
    ensures same { handle.new.debugger ≡ handle.old.debugger }
{
    with_held!(handle, alloc, |debugger| do *out = c_divider(debugger.flags().1))
}
