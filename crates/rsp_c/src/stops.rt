// Breakpoints and watches.

ghost use Rattle.std.specs.Prelude.{◌≡◌, ◌<◌, ◌%◌, IfSome, Ok, Some, IsTrue, option_map};
ghost use Rattle.rsp_debug.specs.Breaks.{break_fault};
ghost use Rattle.rsp_debug.specs.Stops.{is_break};
ghost use Rattle.rsp_debug.specs.Watches.{number_for, has_watch};
ghost use Rattle.rsp_debug.specs.Debugging.{with_breakpoint, without_breakpoint, with_new_watch, with_watch_dropped};
ghost use Rattle.rsp_c.specs.Answers.{is_imem_address, add_break_status, drop_break_status, add_watch_status, drop_watch_status};
ghost use Rattle.rsp_c.specs.Calls.{status_of, IsNext};

use crate::handle::{RspMachine, with_held};
use crate::status::{NO_BREAK, NO_WATCH, OK, is_imem_address, status_of_break, status_of_watch};
use std::alloc::Global;

/// Sets a breakpoint at an address of IMEM, a multiple of 4 below 4096. BREAK_TWICE if it has one, else BREAK_FULL if sixteen addresses have
/// one.
#[unsafe(no_mangle)]
pub extern "C" fn brsp_add_break(handle: &mut RspMachine, alloc: Global, address: u32) -> u32
    ensures answer { result ≡ status_of (λ d. add_break_status address d.breaks) handle.old.debugger }
    ensures next { IsNext result (with_breakpoint address) handle.old.debugger handle.new.debugger }
{
    with_held!(handle, alloc, |debugger| if is_imem_address(address) => {
        match debugger.add_break(address as u16) {
            Ok(()) => OK,
            Err(fault) => status_of_break(fault),
        }
    })
}

/// Removes the breakpoint of an address of IMEM. NO_BREAK if it has none.
#[unsafe(no_mangle)]
pub extern "C" fn brsp_drop_break(handle: &mut RspMachine, alloc: Global, address: u32) -> u32
    ensures answer { result ≡ status_of (λ d. drop_break_status address d.breaks) handle.old.debugger }
    ensures next { IsNext result (without_breakpoint address) handle.old.debugger handle.new.debugger }
{
    with_held!(handle, alloc, |debugger| if is_imem_address(address) => {
        match debugger.drop_break(address as u16) {
            Ok(()) => OK,
            Err(_) => NO_BREAK,
        }
    })
}

/// Watches `len` bytes of DMEM from an address on, 1 to 64 of them, and gives the watch's number, the lowest that is free. WATCH_FULL if
/// there are eight watches.
#[unsafe(no_mangle)]
pub extern "C" fn brsp_add_watch(
    handle: &mut RspMachine,
    alloc: Global,
    address: u32,
    len: u32,
    number: &mut usize,
) -> u32
    ensures answer { result ≡ status_of (λ d. add_watch_status (number_for address len d.watches)) handle.old.debugger }
    ensures number { result ≡ OK → IfSome handle.old.debugger (λ d. number_for address len d.watches ≡ Ok number.new) }
    ensures refused { (result ≡ OK → ⊥) → number.new ≡ number.old }
    ensures next { IsNext result (with_new_watch number.new address len) handle.old.debugger handle.new.debugger }
{
    with_held!(handle, alloc, |debugger| {
        match debugger.add_watch(address, len) {
            Err(fault) => status_of_watch(fault),
            Ok(k) => {
                *number = k;
                OK
            }
        }
    })
}

/// Removes the watch of a number. NO_WATCH if there is none.
#[unsafe(no_mangle)]
pub extern "C" fn brsp_drop_watch(handle: &mut RspMachine, alloc: Global, number: u32) -> u32
    ensures answer { result ≡ status_of (λ d. drop_watch_status number d.watches) handle.old.debugger }
    ensures next { IsNext result (with_watch_dropped number) handle.old.debugger handle.new.debugger }
{
    with_held!(handle, alloc, |debugger| {
        match debugger.drop_watch(number) {
            Ok(()) => OK,
            Err(_) => NO_WATCH,
        }
    })
}
