ghost use Rattle.std.specs.Prelude.{◌≡◌, ℤ, List, pos};
ghost use Rattle.rsp_lanes.specs.Lanes.{each_lane};
ghost use Rattle.rsp_numbers.specs.Numbers.{number, AreNumbers};
ghost use Rattle.rsp_acc.specs.Parts.{part_of, clamp_of};
ghost use Rattle.rsp_acc.specs.Planes.{wrapped_sums, with_low};

use crate::{Addends, Clamp, Part};
use rsp_lanes::VReg;

/// The vector unit's eight accumulators: a signed number of 48 bits for each lane.
///
/// `PlainAcc` keeps them as whole numbers, `PlaneAcc` as three vectors of sixteen bits. A caller sees only the list
/// `numbers`, so both implementations give the same answers.
pub trait Acc: Drop {
    /// The accumulators, lane 0 first, each from -2^47 to 2^47 - 1.
    ghost numbers: { Self → List ℤ };

    /// Eight zeros.
    fn zero() -> Self
        ensures { numbers result ≡ each_lane (λ _. pos 0) };

    /// Replaces each accumulator by its addend.
    fn replace(&mut self, addends: &Addends)
        ensures { numbers self.new ≡ addends.now };

    /// Adds its addend to each accumulator: the sum modulo 2^48, as a signed value.
    fn add(&mut self, addends: &Addends)
        ensures value { numbers self.new ≡ wrapped_sums (numbers self.old) addends.now }
        ensures within { AreNumbers (numbers self.old) };

    /// Writes the low sixteen bits of each accumulator. The high and middle ones are kept.
    fn set_low(&mut self, low: &VReg)
        ensures { numbers self.new ≡ with_low (numbers self.old) low.now };

    /// The high, middle or low sixteen bits of each accumulator.
    fn part(&self, part: Part) -> VReg
        ensures value { result ≡ each_lane (λ i. part_of part (number (numbers self.now) i)) }
        ensures within { AreNumbers (numbers self.now) };

    /// Each accumulator clamped to sixteen bits.
    fn clamp(&self, clamp: Clamp) -> VReg
        ensures { result ≡ each_lane (λ i. clamp_of clamp (number (numbers self.now) i)) };
}
