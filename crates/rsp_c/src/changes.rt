// A step with what it changed.

ghost use Rattle.std.specs.Prelude.{◌≡◌, ◌<◌, option_map};
ghost use Rattle.rsp_memory.specs.Memory.{bytes_at};
ghost use Rattle.rsp_machine.specs.Step.{step_of};
ghost use Rattle.rsp_debug.specs.Debugging.{after_debugger_step};
ghost use Rattle.rsp_c.specs.Answers.{step_status};
ghost use Rattle.rsp_c.specs.Calls.{status_of, IsFilled};
ghost use Rattle.rsp_c.specs.Changes.{quadwords_of, changes_by, c_changes};

use crate::c_structs::{RspAccumulators, RspDivideState};
use crate::handle::{RspMachine, with_held};
use crate::status::{OK, status_of_step};
use crate::to_c::{c_accumulators, c_divider};
use rsp_acc::PlaneAcc;
use rsp_debug::{Debugger, TraceEntry as RspTraced, entry_of};
use rsp_machine::{StepEnd, Writes};
use rsp_memory::SpMem;
use std::alloc::Global;

/// What a step changed.
#[repr(C)]
#[derive(Clone, Copy, Drop)]
pub struct RspChanges {
    /// Its entry in a trace.
    pub traced: RspTraced,
    /// The address of the next instruction.
    pub pc: u16,
    /// The address of the one after it.
    pub npc: u16,
    /// What the divide instructions keep, after the step.
    pub divider: RspDivideState,
    /// Of a store the address of the quadword that has its address; else 0.
    pub quadword: u16,
    /// The accumulators after the step.
    pub accumulators: RspAccumulators,
    /// Of a store that quadword and the next one after the step, modulo 4096; else 0.
    pub bytes: [[u8; 16]; 2],
}

/// The sixteen bytes of DMEM from an address on.
fn bytes_at(dmem: &SpMem, a: u32) -> [u8; 16]
    ensures { result ≡ bytes_at dmem.now a 16 }
{
    match dmem.whole_window(a) {
        Some(bytes) => *bytes,
        None => dmem.window(a),
    }
}

/// The quadword from an address on and the next one, of a store; else 0.
fn quadwords_of(stored: bool, a: u16, dmem: &SpMem) -> [[u8; 16]; 2]
    ensures { result ≡ quadwords_of stored a dmem.now }
{
    if stored {
        let a = u32::from(a);
        return [bytes_at(dmem, a), bytes_at(dmem, a + 16)];
    }
    [[0; 16]; 2]
}

/// What a step of the word at an address changed, that wrote this and ended in this machine.
fn changes_by(pc: u16, word: u32, writes: Writes, debugger: &Debugger<PlaneAcc>) -> RspChanges
    requires { writes.scalar < 32 }
    ensures { result ≡ changes_by pc word writes debugger.now.state }
{
    let machine = debugger.machine();
    let quadword = writes.address / 16 * 16;
    RspChanges {
        traced: entry_of(pc, word, writes, machine),
        pc: machine.pc(),
        npc: machine.npc(),
        divider: c_divider(machine.divider()),
        quadword,
        accumulators: c_accumulators(debugger),
        bytes: quadwords_of(writes.stored, quadword, machine.dmem()),
    }
}

/// Makes one step, as `brsp_step` does, and reports what it changed. Nothing is reported if the machine can't.
#[unsafe(no_mangle)]
pub extern "C" fn brsp_step_changes(
    handle: &mut RspMachine,
    alloc: Global,
    out: &mut RspChanges,
) -> u32
    ensures answer { result ≡ status_of (λ d. step_status (step_of d.state).0) handle.old.debugger }
    ensures next { handle.new.debugger ≡ option_map after_debugger_step handle.old.debugger }
    ensures changes { IsFilled result (λ d. c_changes d.state (step_of d.state).1) handle.old.debugger out.old out.new }
{
    with_held!(handle, alloc, |debugger| {
        let pc = debugger.machine().pc();
        let word = debugger.machine().imem().aligned_word(usize::from(pc));
        let writes = Writes::of(debugger.machine());
        match debugger.step() {
            StepEnd::Done => {
                *out = changes_by(pc, word, writes, &debugger);
                OK
            }
            end => status_of_step(end),
        }
    })
}
