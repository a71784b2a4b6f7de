// Calls that allocate. `tests/program/test_failing_allocations.py` runs these tests many times, and each time another allocation fails: a test then
// prints the answer on standard output, and calls again.

use rsp_acc::PlaneAcc;
use rsp_debug::Debugger;
use rsp_listings::assembled_listing;
use rsp_machine::{Machine, StepEnd};
use rsp_memory::{Bank, Rdram};
use std::test::Fail;

/// An image whose bytes are all 7. This is an allocation of the test itself: if it fails, it is made again.
fn image(rt: &HostRuntime) -> Result<Rdram, Fail> {
    let bytes = match vec![in rt.alloc(); 7; 64] {
        Ok(bytes) => bytes,
        Err(_) => vec![in rt.alloc(); 7; 64]?,
    };
    Rdram::from_bytes(bytes).map_err(|_| Fail::new("the image is refused"))
}

#[test]
fn a_machine_comes_back_when_there_is_no_memory(rt: HostRuntime) -> Result<(), Fail> {
    for depth in [0, 1, 256, 4096] {
        let mut machine: Machine<PlaneAcc> = Machine::new(image(&rt)?);
        machine.set_pc(8);
        let loaded = machine.load_bytes(Bank::Dmem, 4092, &[1, 2, 3, 4]);
        let mut debugger = match Debugger::try_new(rt.alloc(), machine, depth) {
            Ok(debugger) => debugger,
            Err((machine, _)) => {
                println!(rt; "no debugger of depth {depth}")?;
                Debugger::try_new(rt.alloc(), machine, depth).map_err(|_| Fail::new(
                    "still no debugger",
                ))?
            }
        };
        let machine = debugger.machine();
        let is_same = machine.dmem().word(4092) == 0x0102_0304 && machine.rdram().byte(63) == 7;
        assert!(rt; loaded.is_ok() && is_same && machine.pc() == 8, "{depth}");
        assert!(rt;
            debugger.step() == StepEnd::Done && debugger.back(1).is_ok() == (depth > 0),
            "{depth}"
        );
    }
    Ok(())
}

#[test]
fn a_listing_is_assembled_when_memory_is_there(rt: HostRuntime) -> Result<(), Fail> {
    let words = [0x1000_ffff, 0, 0xffff_ffff, 0x4ac3_1050];
    for _ in 0..2 {
        match assembled_listing(rt.alloc(), 8, &words) {
            Ok(again) => assert!(rt; again.as_slice() == words.as_slice()),
            Err(_) => println!(rt; "no memory for a listing")?,
        }
    }
    Ok(())
}
