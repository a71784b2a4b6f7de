ghost use Rattle.std.specs.Prelude.{◌≡◌, ◌<◌, ◌&&◌, ◌||◌, not, length, slice_index, slice_index_or, false, cond};
ghost use Rattle.std.specs.Simd.Lanes.{mask_l};
ghost use Rattle.rsp_lanes.specs.Lanes.{each_lane, IsMask, truth_values, bool_xor};
ghost use Rattle.rsp_numbers.specs.Numbers.{bit_set};

use crate::VReg;
use std::marker::Model;
use std::simd::prelude::*;

/// Eight truth values, one for each lane, as one lane mask. Contracts see the list of them, lane 0 first.
#[derive(Clone, Copy, PartialEq, Drop)]
pub struct Mask8 {
    lanes: mask16x8,
}

impl Model for Mask8 {
    ghost use Rattle.std.specs.Prelude.{List, Bool, map};
    ghost use Rattle.rsp_lanes.specs.Lanes.{IsMask, truth_values, mask_lane};
    ghost use Rattle.std.proofs.Common.{ap};

    ghost Value = { List Bool };

    ghost view = { λ m. truth_values m.lanes };

    ghost invariant = { λ m. IsMask m.lanes };

    ghost inverse = { λ l. record { lanes = map mask_lane l } };

    ghost inverse_ok = { λ a h. ap (λ l. record { lanes = l }) h.1 };
}

impl Mask8 {
    /// The mask of these lanes.
    ///
    /// Requires that each lane is all ones (set) or 0 (clear), as a comparison returns them.
    #[inline(always)]
    pub fn from_simd(lanes: mask16x8) -> Self
        requires { IsMask lanes }
        ensures { result ≡ truth_values lanes }
    {
        Mask8 { lanes }
    }

    /// The eight lanes, each all ones if it is set, else 0.
    #[inline(always)]
    pub fn to_simd(self) -> mask16x8
        ensures value { truth_values result ≡ self }
        ensures mask { IsMask result }
        ensures eight { length self ≡ 8 }
    {
        self.lanes
    }

    /// A copy of the mask through a vector register. A copy of the struct would go from memory to memory.
    #[inline(always)]
    pub(crate) fn read(&self) -> Self
        ensures value { result ≡ self.now }
        ensures eight { length self.now ≡ 8 }
    {
        Mask8 { lanes: self.lanes }
    }

    /// The lanes that are set in both.
    #[inline(always)]
    pub fn and(self, other: Self) -> Self
        ensures { result ≡ each_lane (λ i. slice_index_or self i false && slice_index_or other i false) }
    {
        Mask8 {
            lanes: self.lanes & other.lanes,
        }
    }

    /// Lane i of `a` if lane i is set, else lane i of `b`.
    #[inline(always)]
    pub fn merge(self, a: &VReg, b: &VReg) -> VReg
        ensures { result ≡ each_lane (λ i. cond (slice_index_or self i false) (slice_index a.now i) (slice_index b.now i)) }
    {
        VReg::from_simd(self.lanes.select(a.to_simd(), b.to_simd()))
    }

    /// The lanes that are set in one or both.
    #[inline(always)]
    pub fn or(self, other: Self) -> Self
        ensures { result ≡ each_lane (λ i. slice_index_or self i false || slice_index_or other i false) }
    {
        Mask8 {
            lanes: self.lanes | other.lanes,
        }
    }

    /// The lanes that are clear.
    #[inline(always)]
    pub fn not(self) -> Self
        ensures { result ≡ each_lane (λ i. not (slice_index_or self i false)) }
    {
        Mask8 { lanes: !self.lanes }
    }

    /// All lanes set, or all clear.
    #[inline(always)]
    pub fn splat(value: bool) -> Self
        ensures { result ≡ each_lane (λ _. value) }
    {
        Mask8 {
            lanes: mask16x8::splat(value),
        }
    }

    /// The lanes that are set in just one.
    #[inline(always)]
    pub fn xor(self, other: Self) -> Self
        ensures { result ≡ each_lane (λ i. bool_xor (slice_index_or self i false) (slice_index_or other i false)) }
    {
        Mask8 {
            lanes: self.lanes ^ other.lanes,
        }
    }

    /// The number from 0 to 255 whose bit `i` is 1 if lane `i` is set.
    #[inline(always)]
    pub fn bits(self) -> u8
        ensures { result ≡ mask_l self }
    {
        self.lanes.to_bitmask() as u8
    }

    /// The mask whose lane `i` is set if bit `i` of the number is 1.
    #[inline(always)]
    pub fn from_bits(bits: u8) -> Self
        ensures { result ≡ each_lane (λ i. bit_set bits i) }
    {
        let powers = u16x8::from_array([1, 2, 4, 8, 16, 32, 64, 128]);
        Mask8::from_simd((u16x8::splat(u16::from(bits)) & powers).simd_ne(u16x8::splat(0)))
    }
}

#[cfg(test)]
mod tests {
    use super::*;

    // compiles only if the struct has exactly this field
    #[test]
    fn holds_one_mask(rt: HostRuntime) {
        let m = Mask8 {
            lanes: mask16x8::splat(true),
        };
        let Mask8 { lanes: taken } = m;
        let again: mask16x8 = taken;
        assert!(rt; again.all());
        assert_eq!(rt; m.bits(), 255);
    }
}
