//! An example of the machine in a Rattle program: it assembles a text, loads it, runs to a breakpoint, inspects two
//! registers, and steps back.
//!
//! Once `./rsp` has proved the crates below, `rt try` in this folder runs the example without a proof, `rt check`
//! proves it, and `rt run` proves, builds and runs it. The file `stdout` contains what it has to print; `rt ci`
//! compares them.
//!
//! # A program of your own
//!
//! Put your crate into `crates/` and add a line to `crates.txt` that lists the crates that it uses:
//!
//! | Crate | What it contains for you |
//! |---|---|
//! | `rsp_memory` | `Rdram`, the contents of RDRAM; `Bank`, a memory's name; `SpMem`, by which DMEM and IMEM are read |
//! | `rsp_acc` | the kinds of accumulators, which differ only in speed: `PlaneAcc`, which `rsp` uses, and `PlainAcc` |
//! | `rsp_machine` | `Machine<A>` over accumulators `A`, and its results `StepEnd`, `RangeFault` and `TaskFault` |
//! | `rsp_debug` | `Debugger<A>`, for runs, breakpoints, watches and steps back; without these, `Machine` is faster |
//! | `rsp_asm` | `assemble`, from a source text to words |
//! | `rsp_dis` | `text_of`, from a word to its source text |
//! | `rsp_bench` | `run_bench` and `Session`, for scripts and their replies |
//! | `rsp_feed` | `Bench`, for scripts that arrive in pieces |
//!
//! The doc comment of a call says what the call refuses; a refused call changes nothing. docs/data/preconditions.tsv
//! lists the calls that have a precondition instead: the check requires it of the caller, so pass a constant, or test
//! the value before the call. No step, run or query allocates memory.
//!
//! # What you can prove
//!
//! Contracts describe a machine as a record `State` (`rsp_machine/specs/State.antt`), and a debugger as a record
//! `Debugging` (`rsp_debug/specs/Debugging.antt`), which contains a `State`, the breakpoints, the watches and the
//! history. `self.old` is the machine or the debugger before the call, and `self.new` after it. If a call isn't
//! refused, then
//!
//! | Call | Its contract |
//! |---|---|
//! | `Machine::new(rdram)` | `result ≡ start_of rdram` |
//! | `Machine::step()` | `result ≡ (step_of self.old).0`, `self.new ≡ (step_of self.old).1` |
//! | `Machine::steps(n)` | `result ≡ done_of n self.old`, `self.new ≡ steps_of n self.old` |
//! | `Debugger::step()` | `result ≡ (step_of self.old.state).0`, `self.new ≡ after_debugger_step self.old` |
//! | `Debugger::run(n)` | `stop ≡ stop_in n self.old`, `self.new ≡ after_run n self.old` |
//! | `assemble(alloc, origin, text)` | `meaning_of_text text.now origin ≡ Ok words.items` |
//! | a query, such as `vreg(n)` | `result` is this part of the state |
//!
//! The equations are the same for both kinds of accumulators. No contract promises that an allocation succeeds. Two
//! laws of `rsp_debug::laws` help with proofs about runs: `l5` says that n steps, however they are divided into runs,
//! lead to the state after n plain steps, and `l7` that n steps, b of which were undone, lead to the state after n - b.
#![tactic(auto)]

use anyhow::{Context, Result, bail};
use byteorder::{BigEndian, ByteOrder};
use rsp_acc::PlaneAcc;
use rsp_asm::{Words, assemble};
use rsp_debug::Debugger;
use rsp_machine::Machine;
use rsp_memory::{Bank, Rdram};
use std::alloc::Global;

/// Adds 3 to each lane of $v1, five times.
const TEXT: &str = "
    addiu $1, $0, 5
    addiu $2, $0, 3
    mtc2 $2, $v2[0]
loop:
    vadd $v1, $v1, $v2[0]
    addiu $1, $1, -1
    bne $1, $0, loop
    nop
    break
";

/// The address of the `break`.
const LAST: u16 = 0x01c;

/// A debugger of a new machine, with an image of 64 zeros and a history of 100 states.
fn new_debugger(alloc: Global) -> Result<Debugger<PlaneAcc>> {
    let Ok(rdram) = Rdram::from_bytes(vec![in alloc; 0; 64]?) else {
        bail!("no image has this length");
    };
    let Ok(debugger) = Debugger::try_new(alloc, Machine::new(rdram), 100) else {
        bail!("no memory for a past");
    };
    Ok(debugger)
}

/// Writes words to IMEM from address 0 on, big-endian.
fn load(alloc: Global, debugger: &mut Debugger<PlaneAcc>, words: &Words) -> Result<()> {
    let mut bytes = vec![in alloc; 0; 4 * words.len()]?;
    BigEndian::write_u32_into(words, &mut bytes);
    if debugger.load_bytes(Bank::Imem, 0, &bytes).is_err() {
        bail!("the words pass the end of IMEM");
    }
    Ok(())
}

fn main(rt: HostRuntime) -> Result<()> {
    let words = assemble(rt.alloc(), 0, TEXT).context("assembling")?;
    let mut debugger = new_debugger(rt.alloc())?;
    load(rt.alloc(), &mut debugger, &words)?;
    if debugger.add_break(LAST).is_err() {
        bail!("no room for a breakpoint");
    }
    let Ok(stop) = debugger.run(1000) else {
        bail!("a run makes 1 to 1000000 steps");
    };
    println!(rt;
        "{:?} after {} steps, pc {:03x}",
        stop.reason, stop.steps, stop.pc
    )?;
    let count = debugger.machine().reg(1);
    let lane = debugger.vreg(1).lane(0);
    println!(rt; "$1 {count:08x}, lane 0 of $v1 {lane:04x}")?;
    if debugger.back(2).is_err() {
        bail!("the past holds fewer states");
    }
    println!(rt; "two steps back: pc {:03x}", debugger.machine().pc())?;
    Ok(())
}
