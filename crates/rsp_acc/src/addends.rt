ghost use Rattle.std.specs.Prelude.{◌≡◌, pos};
ghost use Rattle.rsp_lanes.specs.Lanes.{each_lane};
ghost use Rattle.rsp_acc.specs.Planes.{joined, ArePlanes, wrapped_sums, low_lanes, with_low};

use crate::{Acc, Part};
use rsp_lanes::{Mask8, VReg, u16x8};
use std::marker::Model;

/// What is written or added to the eight accumulators: eight numbers from -2^47 to 2^47 - 1, as three planes of sixteen
/// bits. Contracts see the list of numbers, lane 0 first.
#[derive(Drop)]
pub struct Addends {
    high: u16x8,
    middle: u16x8,
    low: u16x8,
}

impl Model for Addends {
    ghost use Rattle.std.specs.Prelude.{List, ℤ};
    ghost use Rattle.rsp_acc.specs.Planes.{joined, ArePlanes};

    ghost Value = { List ℤ };

    ghost view = { λ a. joined a.high a.middle a.low };

    ghost invariant = { λ a. ArePlanes a.high a.middle a.low };
}

impl Addends {
    /// Eight zeros.
    #[inline(always)]
    pub fn zero() -> Self
        ensures { result ≡ each_lane (λ _. pos 0) }
    {
        let zeros = VReg::splat(0);
        Addends::from_planes(&zeros, &zeros, &zeros)
    }

    /// The numbers with these high, middle and low sixteen bits, lane by lane.
    #[inline(always)]
    pub fn from_planes(high: &VReg, middle: &VReg, low: &VReg) -> Self
        ensures { result ≡ joined high.now middle.now low.now }
    {
        Addends {
            high: high.to_simd(),
            middle: middle.to_simd(),
            low: low.to_simd(),
        }
    }

    /// The numbers of eight accumulators, whatever the implementation. [`Acc::replace`] with them restores the
    /// accumulators.
    #[inline(always)]
    pub fn of<A: Acc>(acc: &A) -> Self
        ensures { result ≡ A.numbers acc.now }
    {
        let high = acc.part(Part::High);
        let middle = acc.part(Part::Middle);
        let low = acc.part(Part::Low);
        Addends::from_planes(&high, &middle, &low)
    }

    /// The high, middle and low sixteen bits of each number.
    #[inline(always)]
    pub(crate) fn planes(&self) -> (VReg, VReg, VReg)
        ensures joined { self.now ≡ joined result.0 result.1 result.2 }
        ensures planes { ArePlanes result.0 result.1 result.2 }
    {
        (
            VReg::from_simd(self.high),
            VReg::from_simd(self.middle),
            VReg::from_simd(self.low),
        )
    }

    /// The low sixteen bits of each number.
    #[inline(always)]
    pub fn low(&self) -> VReg
        ensures { result ≡ low_lanes self.now }
    {
        VReg::from_simd(self.low)
    }

    /// Writes the low sixteen bits of each number. The high and middle ones are kept.
    #[inline(always)]
    pub fn set_low(&mut self, low: &VReg)
        ensures { self.new ≡ with_low self.old low.now }
    {
        self.low = low.to_simd();
    }

    /// The sums with other numbers, each modulo 2^48 as a signed value.
    #[inline(always)]
    pub(crate) fn plus(&self, other: &Addends) -> Addends
        ensures { result ≡ wrapped_sums self.now other.now }
    {
        let (a_high, a_middle, a_low) = self.planes();
        let (b_high, b_middle, b_low) = other.planes();
        let (low, carry) = a_low.add_carrying(&b_low, Mask8::splat(false));
        let (middle, carry) = a_middle.add_carrying(&b_middle, carry);
        let (high, _) = a_high.add_carrying(&b_high, carry);
        Addends::from_planes(&high, &middle, &low)
    }
}

#[cfg(test)]
mod tests {
    use super::*;

    // compiles only if the struct has exactly these fields
    #[test]
    fn holds_three_planes(rt: HostRuntime) {
        let addends = Addends {
            high: u16x8::splat(1),
            middle: u16x8::splat(2),
            low: u16x8::splat(3),
        };
        let Addends { high, middle, low } = addends;
        let planes: (u16x8, u16x8, u16x8) = (high, middle, low);
        let (high, middle, low) = planes;
        assert_eq!(rt; high.to_array(), [1; 8]);
        assert_eq!(rt; middle.to_array(), [2; 8]);
        assert_eq!(rt; low.to_array(), [3; 8]);
    }
}
