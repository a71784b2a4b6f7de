ghost use Rattle.std.specs.Prelude.{◌≡◌, ◌<◌};
ghost use Rattle.rsp_divide.specs.DivideRules.{writes, division, vd_after, divider_after, accumulators_after};

use crate::Divider;
use crate::divider::signed;
use crate::op::DivideOp;
use crate::quotients::{reciprocal, root};
use rsp_acc::Acc;
use rsp_lanes::{VReg, select};

/// Executes a divide instruction, VMOV, VNOP or VNULL: writes lane `de` of `vd`, and the divider. VNOP and VNULL change nothing.
///
/// The source is lane `e` modulo 8 of `vt`, the register as it was before the instruction. The lanes of `vt` that
/// element `e` selects are written to the low sixteen bits of the accumulators. Requires `e` below 16 and `de` below 8.
#[inline(always)]
#[tactic(auto, unfolding(crate::specs::DivideRules::vd_after, crate::specs::DivideRules::divider_after, crate::specs::DivideRules::accumulators_after))]
pub fn divide_op<A: Acc>(
    op: DivideOp,
    e: usize,
    de: usize,
    vt: &VReg,
    vd: &mut VReg,
    divider: &mut Divider,
    acc: &mut A,
)
    requires element { e < 16 }
    requires lane { de < 8 }
    ensures lane { vd.new ≡ vd_after op e de vt.now divider.old vd.old }
    ensures divider { divider.new ≡ divider_after op e de vt.now divider.old }
    ensures accumulator { A.numbers acc.new ≡ accumulators_after op e vt.now (A.numbers acc.old) }
{
    if !writes(op) {
        return;
    }
    let source = vt.lane(e % 8);
    let selected = select(vt, e);
    vd.set_lane(de, division(op, divider, source, selected.lane(de)));
    acc.set_low(&selected);
}

/// Whether the instruction writes a lane.
#[inline(always)]
fn writes(op: DivideOp) -> bool
    ensures { result ≡ writes op }
{
    !matches!(op, DivideOp::Vnop | DivideOp::Vnull)
}

/// What the instruction writes to its lane, from the source and the selected lane. It also updates the divider.
#[inline(always)]
fn division(op: DivideOp, divider: &mut Divider, source: u16, selected: u16) -> u16
    ensures lane { result ≡ (division op divider.old source selected).lane }
    ensures divider { divider.new ≡ (division op divider.old source selected).divider }
{
    match op {
        DivideOp::Vrcp => divider.divided(reciprocal(signed(source))),
        DivideOp::Vrcpl => divider.divided(reciprocal(divider.operand(source))),
        DivideOp::Vrcph | DivideOp::Vrsqh => divider.load(source),
        DivideOp::Vmov | DivideOp::Vnop | DivideOp::Vnull => selected,
        DivideOp::Vrsq => divider.divided(root(signed(source))),
        DivideOp::Vrsql => divider.divided(root(divider.operand(source))),
    }
}
