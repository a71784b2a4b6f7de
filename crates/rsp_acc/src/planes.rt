// Each clamp is a selection: the sign of the high plane, and whether that plane is the sign extension of the middle
// one, decide which of three values a lane takes. Packing two planes as numbers of 32 bits would need wider lanes.

ghost use Rattle.std.specs.Prelude.{◌≡◌, slice_index_or, []};
ghost use Rattle.rsp_numbers.specs.Numbers.{AreNumbers};
ghost use Rattle.rsp_acc.specs.Planes.{joined};

use crate::{Acc, Addends, Clamp, Part};
use rsp_lanes::{VReg, u16x8};
use std::marker::Model;

/// The accumulators as three planes: lane i of `high`, `middle` and `low` is bits 47 to 32, 31 to 16 and 15 to 0 of
/// accumulator i.
#[derive(Drop)]
pub struct PlaneAcc {
    high: u16x8,
    middle: u16x8,
    low: u16x8,
}

impl Model for PlaneAcc {
    ghost use Rattle.std.specs.Prelude.{List, ℤ};
    ghost use Rattle.rsp_acc.specs.Planes.{joined, ArePlanes};

    ghost Value = { List ℤ };

    ghost view = { λ a. joined a.high a.middle a.low };

    ghost invariant = { λ a. ArePlanes a.high a.middle a.low };
}

impl PlaneAcc {
    /// The high, middle and low sixteen bits of each accumulator, in this order.
    #[inline(always)]
    pub fn planes(&self) -> [VReg; 3]
        ensures { self.now ≡ joined (slice_index_or result 0 []) (slice_index_or result 1 []) (slice_index_or result 2 []) }
    {
        let high = VReg::from_simd(self.high);
        let middle = VReg::from_simd(self.middle);
        let low = VReg::from_simd(self.low);
        [high, middle, low]
    }

    /// The accumulators as addends.
    #[inline(always)]
    fn as_addends(&self) -> Addends
        ensures value { result ≡ self.now }
        ensures within { AreNumbers self.now }
    {
        let high = VReg::from_simd(self.high);
        let middle = VReg::from_simd(self.middle);
        let low = VReg::from_simd(self.low);
        Addends::from_planes(&high, &middle, &low)
    }
}

impl Acc for PlaneAcc {
    ghost numbers = { λ a. a };

    #[inline(always)]
    fn zero() -> Self {
        PlaneAcc {
            high: u16x8::splat(0),
            middle: u16x8::splat(0),
            low: u16x8::splat(0),
        }
    }

    #[inline(always)]
    fn replace(&mut self, addends: &Addends) {
        let (high, middle, low) = addends.planes();
        self.high = high.to_simd();
        self.middle = middle.to_simd();
        self.low = low.to_simd();
    }

    #[inline(always)]
    fn add(&mut self, addends: &Addends) {
        let sums = self.as_addends().plus(addends);
        self.replace(&sums);
    }

    #[inline(always)]
    fn set_low(&mut self, low: &VReg) {
        self.low = low.to_simd();
    }

    #[inline(always)]
    fn part(&self, part: Part) -> VReg {
        match part {
            Part::High => VReg::from_simd(self.high),
            Part::Middle => VReg::from_simd(self.middle),
            Part::Low => VReg::from_simd(self.low),
        }
    }

    /// An accumulator fits if its high plane is the sign extension of its middle one. If it doesn't, the high plane's
    /// sign says at which end it is clamped.
    #[inline(always)]
    fn clamp(&self, clamp: Clamp) -> VReg {
        let high = VReg::from_simd(self.high);
        let middle = VReg::from_simd(self.middle);
        let zeros = VReg::splat(0);
        let ones = VReg::splat(0xffff);
        let is_negative = high.is_negative();
        let extension = middle.is_negative().merge(&ones, &zeros);
        let fits = high.is_equal(&extension);
        match clamp {
            Clamp::Signed => {
                let least = VReg::splat(0x8000);
                let most = VReg::splat(0x7fff);
                let ends = is_negative.merge(&least, &most);
                fits.merge(&middle, &ends)
            }
            Clamp::Unsigned => {
                let inside = fits.merge(&middle, &ones);
                is_negative.merge(&zeros, &inside)
            }
            Clamp::LowKind => {
                let low = VReg::from_simd(self.low);
                let ends = is_negative.merge(&zeros, &ones);
                fits.merge(&low, &ends)
            }
        }
    }
}

#[cfg(test)]
mod tests {
    use super::*;

    // compiles only if the struct has exactly these fields
    #[test]
    fn holds_three_planes(rt: HostRuntime) {
        let acc = PlaneAcc {
            high: u16x8::splat(1),
            middle: u16x8::splat(2),
            low: u16x8::splat(3),
        };
        let PlaneAcc { high, middle, low } = acc;
        let planes: (u16x8, u16x8, u16x8) = (high, middle, low);
        let (high, middle, low) = planes;
        assert_eq!(rt; high.to_array(), [1; 8]);
        assert_eq!(rt; middle.to_array(), [2; 8]);
        assert_eq!(rt; low.to_array(), [3; 8]);
        assert_eq!(rt;
            acc.planes(),
            [VReg::splat(1), VReg::splat(2), VReg::splat(3)]
        );
    }
}
