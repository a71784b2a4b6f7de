// An entry of a trace.

ghost use Rattle.std.specs.Prelude.{◌≡◌, ◌<◌};
ghost use Rattle.rsp_debug.specs.Traces.{lanes_in, entry_made_of};

use rsp_acc::Acc;
use rsp_machine::{Machine, Writes};

/// What a step did, in plain numbers, as a log has them. Its bytes have no gaps: equal entries have equal bytes.
#[repr(C)]
#[derive(Clone, Copy, Debug, PartialEq, Eq, Drop)]
pub struct TraceEntry {
    /// The word that was executed.
    pub word: u32,
    /// The scalar register after the step; 0 without one.
    pub value: u32,
    /// The address of the word.
    pub pc: u16,
    /// The address in DMEM of a store, below 4096; else 0.
    pub address: u16,
    /// VCO after the step.
    pub vco: u16,
    /// VCC after the step.
    pub vcc: u16,
    /// VCE after the step.
    pub vce: u8,
    /// The number of the scalar register that the step wrote, 1 to 31; 0 if it wrote none.
    pub scalar: u8,
    /// The number of the vector register that the step wrote, the first of eight for LTV; 32 if it wrote none.
    pub vector: u8,
    /// 1 for a store, else 0.
    pub stored: u8,
    /// The lanes of the vector register after the step; 0 without one.
    pub lanes: [u16; 8],
}

/// The lanes of vector register `n`, if that is below 32, else 0.
#[inline(always)]
fn lanes_in<A: Acc>(n: u8, machine: &Machine<A>) -> [u16; 8]
    ensures { result ≡ lanes_in n machine.now.vectors }
{
    if n < 32 {
        return machine.vreg(n).to_array();
    }
    [0; 8]
}

/// The entry of a step of the word at an address, that wrote this and ended in this machine.
#[inline(always)]
pub fn entry_of<A: Acc>(pc: u16, word: u32, writes: Writes, machine: &Machine<A>) -> TraceEntry
    requires { writes.scalar < 32 }
    ensures { result ≡ entry_made_of pc word writes machine.now }
{
    let flags = machine.flags();
    TraceEntry {
        word,
        value: machine.reg(writes.scalar),
        pc,
        address: writes.address,
        vco: flags.vco(),
        vcc: flags.vcc(),
        vce: flags.extra.bits(),
        scalar: writes.scalar,
        vector: writes.vector,
        stored: if writes.stored { 1 } else { 0 },
        lanes: lanes_in(writes.vector, machine),
    }
}
