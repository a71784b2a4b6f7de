// SP registers, as the CPU reads and writes them. Their numbers are taken modulo 16. Calls on all registers pass sixteen words, each
// as a read returns it, because emulators and test vectors have the registers in this form.

ghost use Rattle.std.specs.Prelude.{◌≡◌, IsTrue, None, option_map};
ghost use Rattle.rsp_machine.specs.Host.{register_written};
ghost use Rattle.rsp_machine.specs.Registers.{sp_fault};
ghost use Rattle.rsp_regs.specs.Parts.{sp_of};
ghost use Rattle.rsp_regs.specs.Sp.{read_value, transfer, after_dma};
ghost use Rattle.rsp_debug.specs.Debugging.{set_by_host, after_register_read};
ghost use Rattle.rsp_c.specs.Calls.{status_of, IsDoneIf, IsNext, IsFilled};
ghost use Rattle.rsp_c.specs.DmaWrites.{dma_written, dma_of_write};
ghost use Rattle.rsp_c.specs.Faults.{are_sp};
ghost use Rattle.rsp_c.specs.States.{c_sp, sp_from_c};

use crate::c_structs::RspSpWords;
use crate::fault::are_sp;
use crate::handle::{RspMachine, with_held};
use crate::status::OK;
use crate::to_c::{c_sp, sp_from_c};
use rsp_acc::Acc;
use rsp_debug::Debugger;
use rsp_regs::{Dma as RspDma, SpParts, SpRegs};
use std::alloc::Global;

/// Reads an SP register. A read of the semaphore, register 7, takes it and empties the history.
#[unsafe(no_mangle)]
pub extern "C" fn brsp_read(handle: &mut RspMachine, alloc: Global, n: u32, out: &mut u32) -> u32
    ensures answer { result ≡ status_of (λ _. OK) handle.old.debugger }
    ensures value { IsFilled result (λ d. read_value n d.state.sp) handle.old.debugger out.old out.new }
    ensures next { handle.new.debugger ≡ option_map (after_register_read n) handle.old.debugger }
{
    with_held!(handle, alloc, |debugger| do *out = debugger.read_reg(n))
}

/// The word that a read of an SP register would give. Nothing changes.
#[unsafe(no_mangle)]
pub extern "C" fn brsp_peek(handle: &mut RspMachine, alloc: Global, n: u32, out: &mut u32) -> u32
    ensures answer { result ≡ status_of (λ _. OK) handle.old.debugger }
    ensures value { IsFilled result (λ d. read_value n d.state.sp) handle.old.debugger out.old out.new }
    ensures same { handle.new.debugger ≡ handle.old.debugger }
{
    with_held!(handle, alloc, |debugger| do *out = debugger.sp_regs().peek(n))
}

/// Writes an SP register, and empties the history. A write of a length register, 2 or 3, does its DMA.
#[unsafe(no_mangle)]
pub extern "C" fn brsp_write(handle: &mut RspMachine, alloc: Global, n: u32, value: u32) -> u32
    ensures answer { result ≡ status_of (λ _. OK) handle.old.debugger }
    ensures next { handle.new.debugger ≡ option_map (λ d. set_by_host (register_written n value d.state) d) handle.old.debugger }
{
    with_held!(handle, alloc, |debugger| do debugger.write_reg(n, value))
}

/// The SP registers after the DMA that a word starts when it is written to a length register.
#[tactic(auto, using(crate::proofs::DmaWrites::dma_writes))]
fn parts_after_dma(before: &SpRegs, value: u32) -> SpParts
    ensures value { sp_of result ≡ after_dma (transfer value before.now) before.now }
    ensures fault { sp_fault result ≡ None }
{
    let mut sp = *before;
    let transfer = sp.transfer(value);
    sp.advance(&transfer);
    sp.parts()
}

/// Writes an SP register, and returns the DMA that the write starts, whose bytes the host moves; zeros if it starts none.
#[tactic(auto, using(crate::proofs::DmaWrites::dma_writes))]
fn write_dma<A: Acc>(debugger: &mut Debugger<A>, n: u32, value: u32) -> RspDma
    ensures dma { result ≡ dma_of_write n value debugger.old.state }
    ensures next { debugger.new ≡ set_by_host (dma_written n value debugger.old.state) debugger.old }
{
    let Some(dma) = debugger.sp_regs().described(n, value) else {
        debugger.write_reg(n, value);
        return RspDma::none();
    };
    let after = parts_after_dma(debugger.sp_regs(), value);
    let Ok(()) = debugger.set_sp_parts(&after) else {
        unreachable!()
    };
    dma
}

/// Writes an SP register, and empties the history. All is as after `brsp_write`, but the memories stay. `out` is the DMA that the write starts,
/// whose bytes the host then moves; zeros if it starts none.
#[unsafe(no_mangle)]
pub extern "C" fn brsp_write_dma(
    handle: &mut RspMachine,
    alloc: Global,
    n: u32,
    value: u32,
    out: &mut RspDma,
) -> u32
    ensures answer { result ≡ status_of (λ _. OK) handle.old.debugger }
    ensures dma { IsFilled result (λ d. dma_of_write n value d.state) handle.old.debugger out.old out.new }
    ensures next { handle.new.debugger ≡ option_map (λ d. set_by_host (dma_written n value d.state) d) handle.old.debugger }
{
    with_held!(handle, alloc, |debugger| do *out = write_dma(&mut debugger, n, value))
}

/// All SP registers, each as `brsp_peek` gives it, with the interrupt flag. Nothing changes.
#[unsafe(no_mangle)]
pub extern "C" fn brsp_sp(handle: &mut RspMachine, alloc: Global, out: &mut RspSpWords) -> u32
    ensures answer { result ≡ status_of (λ _. OK) handle.old.debugger }
    ensures value { IsFilled result (λ d. c_sp d.state.sp) handle.old.debugger out.old out.new }
    ensures same { handle.new.debugger ≡ handle.old.debugger }
{
    with_held!(handle, alloc, |debugger| do *out = c_sp(debugger.sp_regs()))
}

/// Sets all SP registers and the interrupt flag, without a DMA, and empties the history. All else stays. OUT_OF_RANGE if they can't be
/// those of a machine.
#[unsafe(no_mangle)]
#[tactic(auto, using(crate::proofs::Fields::fields))]
pub extern "C" fn brsp_set_sp(handle: &mut RspMachine, alloc: Global, given: &RspSpWords) -> u32
    ensures range { IsDoneIf (λ d. IsTrue (are_sp given.now)) handle.old.debugger result }
    ensures next { IsNext result (λ d. set_by_host (record d.state { sp = sp_of (sp_from_c given.now) }) d) handle.old.debugger handle.new.debugger }
{
    with_held!(handle, alloc, |debugger| if are_sp(given) => do {
        let Ok(()) = debugger.set_sp_parts(&sp_from_c(given)) else {
            unreachable!()
        };
    })
}
