ghost use Rattle.std.specs.Prelude.{◌≡◌, slice_index};
ghost use Rattle.rsp_lanes.specs.Lanes.{each_lane};
ghost use Rattle.rsp_lanes.specs.Outcome.{results_of, lows_of, flags_after};
ghost use Rattle.rsp_acc.specs.Planes.{with_low};
ghost use Rattle.rsp_compare.specs.Logic.{bits_of, logic_rule};

use rsp_acc::Acc;
use rsp_lanes::{Flags, VReg};

/// Bitwise logic of two registers.
#[derive(Clone, Copy)]
pub enum LogicOp {
    /// `vand`: the bits set in both.
    Vand,
    /// `vnand`: the bits not set in both.
    Vnand,
    /// `vor`: the bits set in either.
    Vor,
    /// `vnor`: the bits set in neither.
    Vnor,
    /// `vxor`: the bits that differ.
    Vxor,
    /// `vnxor`: the bits that agree.
    Vnxor,
}

/// Executes a logic instruction: `a` is the register vs, `b` the selected vt.
///
/// The results are also written to the low sixteen bits of the accumulators. All flags are kept.
#[inline]
pub fn logic_op<A: Acc>(op: LogicOp, a: &VReg, b: &VReg, flags: &mut Flags, acc: &mut A) -> VReg
    ensures value { result ≡ results_of (logic_rule op) a.now b.now flags.old }
    ensures flags { flags.new ≡ flags_after (logic_rule op) a.now b.now flags.old }
    ensures accumulator { A.numbers acc.new ≡ with_low (A.numbers acc.old) (lows_of (logic_rule op) a.now b.now flags.old) }
{
    let result = bits(op, a, b);
    // For the prover: the flags are kept, and the contract of `vco` says that they are those of eight lanes.
    let _ = flags.vco();
    acc.set_low(&result);
    result
}

/// The results.
#[inline(always)]
fn bits(op: LogicOp, a: &VReg, b: &VReg) -> VReg
    ensures { result ≡ each_lane (λ i. bits_of op (slice_index a.now i) (slice_index b.now i)) }
{
    match op {
        LogicOp::Vand => a.and(b),
        LogicOp::Vnand => a.and(b).not(),
        LogicOp::Vor => a.or(b),
        LogicOp::Vnor => a.or(b).not(),
        LogicOp::Vxor => a.xor(b),
        LogicOp::Vnxor => a.xor(b).not(),
    }
}
