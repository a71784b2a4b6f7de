// A machine's life.

ghost use Rattle.std.specs.Prelude.{◌≡◌, ◌<◌, ◌↔◌, ◌⊎◌, IsTrue, Some, None, IfSome, IfNone, IfOk, length};
ghost use Rattle.rsp_machine.specs.State.{start_of};
ghost use Rattle.rsp_memory.specs.Image.{IsImageLength};
ghost use Rattle.rsp_debug.specs.Debugging.{debugging_of};

use crate::handle::{RspMachine, with_held};
use crate::status::{NO_MACHINE, NO_MEMORY, OK, OUT_OF_RANGE};
use rsp_acc::{Acc, PlaneAcc};
use rsp_debug::Debugger;
use rsp_machine::Machine;
use rsp_memory::{Bank, Rdram};
use std::alloc::{AllocError, Global};

/// The version of the interface: a call, a struct or a number that changes its meaning raises it.
const VERSION: u32 = 1;

/// The version of the interface.
#[unsafe(no_mangle)]
pub extern "C" fn brsp_version() -> u32
    ensures { result ≡ 1 }
{
    VERSION
}

/// Whether an image can have this length: a multiple of 8 from 64 to 8388608.
pub fn is_image_length(n: usize) -> bool
    ensures { IsTrue result ↔ IsImageLength n }
{
    n >= 64 && n <= 0x80_0000 && n % 8 == 0
}

/// A copy of an image of the RDRAM. AllocError if out of memory.
#[inline(always)]
pub fn rdram_of(alloc: Global, image: &[u8]) -> Result<Rdram, AllocError>
    requires { IsImageLength (length image.now) }
    ensures { IfOk result (λ rdram. rdram ≡ image.now) }
{
    let Ok(rdram) = Rdram::from_bytes(Vec::from_slice(alloc, image)?) else {
        unreachable!()
    };
    Ok(rdram)
}

/// A debugger of a machine with a copy of an image of the RDRAM, and a history of `depth` states. AllocError if out of memory.
#[inline(always)]
fn new_debugger(
    alloc: Global,
    image: &[u8],
    depth: usize,
) -> Result<Box<Debugger<PlaneAcc>, Global>, AllocError>
    requires { IsImageLength (length image.now) }
    ensures { IfOk result (λ debugger. debugger.value ≡ debugging_of depth (start_of image.now)) }
{
    let machine = Machine::new(rdram_of(alloc, image)?);
    let Ok(debugger) = Debugger::try_new(alloc, machine, depth) else {
        return Err(AllocError);
    };
    match Box::new(alloc, debugger) {
        Err(_) => Err(AllocError),
        Ok(debugger) => Ok(debugger),
    }
}

/// Makes a machine with a copy of an image of the RDRAM, 64 to 8388608 bytes and a multiple of 8, and a history of `depth` states, at most
/// 4096. What the handle held is freed. OUT_OF_RANGE for another length or depth, before anything is copied.
#[unsafe(no_mangle)]
pub extern "C" fn brsp_new(handle: &mut RspMachine, alloc: Global, image: &[u8], depth: u32) -> u32
    ensures ok { result ≡ OK → handle.new.debugger ≡ Some (debugging_of depth (start_of image.now)) }
    ensures range { (result ≡ OUT_OF_RANGE) ↔ ((4096 < depth) ⊎ ¬ (IsImageLength (length image.now))) }
    ensures answer { (result ≡ OK) ⊎ (result ≡ NO_MEMORY) ⊎ (result ≡ OUT_OF_RANGE) }
    ensures same { (result ≡ OK → ⊥) → handle.new.debugger ≡ handle.old.debugger }
{
    if depth > 4096 || !is_image_length(image.len()) {
        return OUT_OF_RANGE;
    }
    match new_debugger(alloc, image, depth as usize) {
        Err(_) => NO_MEMORY,
        Ok(debugger) => {
            let _freed = handle.take(alloc);
            handle.put(debugger);
            OK
        }
    }
}

/// Puts the state of a machine into a debugger that was just made, with the same image.
#[inline(always)]
fn put_state<A: Acc>(to: &mut Debugger<A>, machine: &Machine<A>)
    requires { to.old ≡ debugging_of to.old.depth (start_of machine.now.rdram) }
    ensures { to.new ≡ debugging_of to.old.depth machine.now }
{
    let Ok(()) = to.load_bytes(Bank::Dmem, 0, machine.dmem().bytes()) else {
        unreachable!()
    };
    let Ok(()) = to.load_bytes(Bank::Imem, 0, machine.imem().bytes()) else {
        unreachable!()
    };
    let Ok(()) = to.set_all_registers(&machine.all_registers()) else {
        unreachable!()
    };
}

/// A debugger of a machine in the same state, with as long a history, which is empty, and without breakpoints and watches. AllocError if
/// there is no memory for it.
#[inline(always)]
fn copy_of(
    debugger: &Debugger<PlaneAcc>,
    alloc: Global,
) -> Result<Box<Debugger<PlaneAcc>, Global>, AllocError>
    ensures { IfOk result (λ copy. copy.value ≡ debugging_of debugger.now.depth debugger.now.state) }
{
    let mut copy = new_debugger(alloc, debugger.machine().rdram().bytes(), debugger.depth())?;
    put_state(&mut copy, debugger.machine());
    Ok(copy)
}

/// Makes in `to` a second machine in the same state, memories included, with as long a history, which is empty, and without breakpoints and
/// watches. What `to` held is freed.
#[unsafe(no_mangle)]
pub extern "C" fn brsp_copy(to: &mut RspMachine, alloc: Global, from: &mut RspMachine) -> u32
    ensures none { IfNone from.old.debugger (result ≡ NO_MACHINE) }
    ensures ok { result ≡ OK → IfSome from.old.debugger (λ d. to.new.debugger ≡ Some (debugging_of d.depth d.state)) }
    ensures answer { IfSome from.old.debugger (λ d. (result ≡ OK) ⊎ (result ≡ NO_MEMORY)) }
    ensures kept { from.new.debugger ≡ from.old.debugger }
    ensures same { (result ≡ OK → ⊥) → to.new.debugger ≡ to.old.debugger }
{
    with_held!(from, alloc, |debugger| match copy_of(&debugger, alloc) {
        Err(_) => NO_MEMORY,
        Ok(copy) => {
            let _freed = to.take(alloc);
            to.put(copy);
            OK
        }
    })
}

/// Frees the machine, if the handle holds one. It holds none afterwards.
#[unsafe(no_mangle)]
pub extern "C" fn brsp_free(handle: &mut RspMachine, alloc: Global)
    ensures { handle.new.debugger ≡ None }
{
    drop(handle.take(alloc));
}
