ghost use Rattle.std.specs.Prelude.{◌≡◌, cond, false, slice_index, slice_index_or};
ghost use Rattle.rsp_lanes.specs.Lanes.{each_lane, IsVector};
ghost use Rattle.rsp_numbers.specs.Numbers.{sixteen_bits};
ghost use Rattle.rsp_compare.specs.Clips.{signs_differ};
ghost use Rattle.rsp_compare.specs.ClipParts.{sum_or_difference};

use rsp_lanes::{Mask8, VReg};

/// The lanes that are negative in just one of both.
#[inline(always)]
pub(crate) fn signs_differ(a: &VReg, b: &VReg) -> Mask8
    ensures { result ≡ each_lane (λ i. signs_differ (slice_index a.now i) (slice_index b.now i)) }
{
    a.is_negative().xor(b.is_negative())
}

/// The sum in lanes whose signs differ, else the difference: a - (-b) or a - b. Both fit into 16 bits as signed values,
/// so no bit is lost.
#[inline(always)]
pub(crate) fn sum_or_difference(a: &VReg, b: &VReg) -> VReg
    ensures value { result ≡ each_lane (λ i. sixteen_bits (sum_or_difference (slice_index a.now i) (slice_index b.now i))) }
    ensures within { IsVector a.now × IsVector b.now }
{
    a.subtract(&signs_differ(a, b).merge(&b.negate(), b))
}

/// Lane i of `a` if lane i of `at` is set, else lane i of `b`.
#[inline(always)]
pub(crate) fn choose(at: Mask8, a: Mask8, b: Mask8) -> Mask8
    ensures { result ≡ each_lane (λ i. cond (slice_index_or at i false) (slice_index_or a i false) (slice_index_or b i false)) }
{
    at.and(a).or(at.not().and(b))
}

/// `a` and `b`, exchanged in the lanes that are set in `at`.
#[inline(always)]
pub(crate) fn exchanged(at: Mask8, a: Mask8, b: Mask8) -> (Mask8, Mask8)
    ensures first { result.0 ≡ each_lane (λ i. cond (slice_index_or at i false) (slice_index_or b i false) (slice_index_or a i false)) }
    ensures second { result.1 ≡ each_lane (λ i. cond (slice_index_or at i false) (slice_index_or a i false) (slice_index_or b i false)) }
{
    let difference = a.xor(b).and(at);
    (a.xor(difference), b.xor(difference))
}
