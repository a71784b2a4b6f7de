// Whole states, all registers at once, and where the machine continues.

ghost use Rattle.std.specs.Prelude.{◌≡◌, option_map, if◌then◌else◌};
ghost use Rattle.rsp_machine.specs.Host.{task_fault, with_task, with_pc};
ghost use Rattle.rsp_machine.specs.Registers.{registers_of, with_registers};
ghost use Rattle.rsp_debug.specs.Debugging.{set_by_host};
ghost use Rattle.rsp_c.specs.Answers.{is_imem_address, address_status, task_status};
ghost use Rattle.rsp_c.specs.Calls.{status_of, IsDoneIf, IsNext, IsFilled};
ghost use Rattle.rsp_c.specs.Faults.{state_fault};
ghost use Rattle.rsp_c.specs.States.{c_state, registers_from_c};

use crate::c_structs::RspState;
use crate::fault::state_fault;
use crate::handle::{RspMachine, with_held};
use crate::status::{OK, is_imem_address, status_of_task};
use crate::to_c::{c_state, registers_from_c};
use std::alloc::Global;

/// All registers. Nothing changes.
#[unsafe(no_mangle)]
pub extern "C" fn brsp_get(handle: &mut RspMachine, alloc: Global, out: &mut RspState) -> u32
    ensures answer { result ≡ status_of (λ _. OK) handle.old.debugger }
    ensures value { IsFilled result (λ d. c_state (registers_of d.state) d.state.sp) handle.old.debugger out.old out.new }
    ensures same { handle.new.debugger ≡ handle.old.debugger }
{
    with_held!(handle, alloc, |debugger| do {
        *out = c_state(&debugger.all_registers(), debugger.sp_regs())
    })
}

/// Sets all registers, and empties the history; the memories stay. OUT_OF_RANGE exactly if `brsp_state_fault` gives a field.
#[unsafe(no_mangle)]
#[tactic(auto, using(crate::proofs::Fields::fields))]
pub extern "C" fn brsp_set(handle: &mut RspMachine, alloc: Global, state: &RspState) -> u32
    ensures range { IsDoneIf (λ d. state_fault state.now ≡ 0) handle.old.debugger result }
    ensures next { IsNext result (λ d. set_by_host (with_registers (registers_from_c state.now) d.state) d) handle.old.debugger handle.new.debugger }
{
    with_held!(handle, alloc, |debugger| if state_fault(state) == 0 => do {
        let Ok(()) = debugger.set_all_registers(&registers_from_c(state)) else {
            unreachable!()
        };
    })
}

/// Starts the task whose structure of 64 bytes is at an address of the RDRAM, and empties the history. TASK_PLACE or TASK_SIZE if it can't
/// start.
#[unsafe(no_mangle)]
pub extern "C" fn brsp_start_task(handle: &mut RspMachine, alloc: Global, address: u32) -> u32
    ensures answer { result ≡ status_of (λ d. task_status (task_fault address d.state.rdram)) handle.old.debugger }
    ensures next { IsNext result (λ d. set_by_host (with_task address d.state) d) handle.old.debugger handle.new.debugger }
{
    with_held!(handle, alloc, |debugger| {
        match debugger.start_task(address) {
            Ok(()) => OK,
            Err(fault) => status_of_task(fault),
        }
    })
}

/// Goes on at an address of IMEM, a multiple of 4 below 4096, and empties the history.
#[unsafe(no_mangle)]
pub extern "C" fn brsp_set_pc(handle: &mut RspMachine, alloc: Global, pc: u32) -> u32
    ensures answer { result ≡ status_of (λ _. address_status pc) handle.old.debugger }
    ensures next { IsNext result (λ d. set_by_host (with_pc pc d.state) d) handle.old.debugger handle.new.debugger }
{
    with_held!(handle, alloc, |debugger| if is_imem_address(pc) => do debugger.set_pc(pc as u16))
}
