ghost use Rattle.std.specs.Prelude.{◌≡◌, IfOk, replicate};
ghost use Rattle.rsp_machine.specs.State.{start_of};

use rsp_acc::Acc;
use rsp_machine::Machine;
use rsp_memory::{Bank, Rdram};
use std::alloc::{AllocError, Global};
use std::process::Abort;

/// A machine over an image of 128 zero bytes.
pub fn start<A: Acc>(rt: &impl Abort, alloc: Global) -> Result<Machine<A>, AllocError>
    ensures { IfOk result (λ m. m ≡ start_of (replicate 128 0)) }
{
    let mut bytes = Vec::new(alloc);
    bytes.resize(128, 0)?;
    let image = Rdram::from_bytes(bytes).ok();
    Ok(Machine::new(image.expect(rt, "128 bytes are an image")))
}

/// The same with these words in IMEM, from 0 on.
pub fn machine_of<A: Acc>(
    rt: &impl Abort,
    alloc: Global,
    words: &[u32],
) -> Result<Machine<A>, AllocError> {
    let mut machine = start(rt, alloc)?;
    assert!(rt; machine.load_words(Bank::Imem, 0, words).is_ok());
    Ok(machine)
}
