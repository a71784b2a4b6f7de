// The product on a machine.

ghost use Rattle.std.specs.Prelude.{ℕ, ◌≡◌, ◌<◌, IfOk, IsOk};
ghost use Rattle.rsp_lanes.specs.Lanes.{each_lane};
ghost use Rattle.rsp_loadstore.specs.File.{vector};
ghost use Rattle.rsp_machine.specs.Laws.{steps_of};
ghost use Rattle.rsp_microcode.specs.Fixed.{fixed, fixed_product};
ghost use Rattle.rsp_routines.specs.Multiply.{words};
ghost use Rattle.rsp_microcode.specs.Runs.{IsAt};

use rsp_acc::Acc;
use rsp_machine::{Machine, RangeFault};
use rsp_memory::{Bank, Rdram};
use rsp_multiply::laws::l4;

/// Takes five steps over the words of [`crate::multiply::words`].
pub fn run_multiply<A: Acc>(machine: &mut Machine<A>)
    requires at { IsAt words machine.old }
    requires zero { vector machine.old.vectors 0 ≡ each_lane (λ _. 0) }
    ensures state { machine.new ≡ steps_of 5 machine.old }
    ensures product { (i : ℕ) → i < 8 → fixed (vector machine.new.vectors 9) (vector machine.new.vectors 10) i
        ≡ fixed_product (fixed (vector machine.old.vectors 1) (vector machine.old.vectors 2) i) (fixed (vector machine.old.vectors 3) (vector machine.old.vectors 4) i) }
{
    let _ = machine.steps(5);
    l4();
}

/// The words' bytes.
const BYTES: [u8; 20] = [
    0x4a, 0x04, 0x12, 0x84, 0x4a, 0x04, 0x0a, 0x8d, 0x4a, 0x03, 0x12, 0x8e, 0x4a, 0x03, 0x0a, 0x4f,
    0x4a, 0x00, 0x02, 0x8e,
];

/// A machine that is ready for [`run_multiply`].
pub fn ready_to_multiply<A: Acc>(rdram: Rdram) -> Result<Machine<A>, RangeFault>
    ensures ok { IsOk result }
    ensures at { IfOk result (λ m. IsAt words m) }
    ensures zero { IfOk result (λ m. vector m.vectors 0 ≡ each_lane (λ _. 0)) }
{
    let mut machine = Machine::new(rdram);
    match machine.load_bytes(Bank::Imem, 0, &BYTES) {
        Ok(()) => Ok(machine),
        Err(fault) => Err(fault),
    }
}
