ghost use Rattle.std.specs.Prelude.{◌≡◌, ◌<ℤ◌, ◌≤ℤ◌, pos, negsuc, ◌^◌, ◌-◌};
ghost use Rattle.rsp_numbers.specs.Numbers.{s48, IsNumber, AreNumbers, join, sixteen_bits};
ghost use Rattle.rsp_acc.specs.Parts.{part_of, clamp_of, clamp_by};
ghost use Rattle.rsp_acc.specs.Planes.{with_low_bits};

use crate::{Acc, Addends, Clamp, Part};
use rsp_lanes::VReg;
use std::marker::Model;

/// The accumulators as eight whole numbers from -2^47 to 2^47 - 1, as the rules state them.
#[derive(Clone, Copy, PartialEq, Eq, Debug, Drop)]
pub struct PlainAcc {
    numbers: [i64; 8],
}

impl Model for PlainAcc {
    ghost use Rattle.std.specs.Prelude.{List, ℤ};
    ghost use Rattle.rsp_numbers.specs.Numbers.{AreNumbers};

    ghost Value = { List ℤ };

    ghost view = { λ a. a.numbers };

    ghost invariant = { λ a. AreNumbers a.numbers };

    ghost inverse = { λ l. record { numbers = l } };
}

impl Acc for PlainAcc {
    ghost numbers = { λ a. a };

    fn zero() -> Self {
        PlainAcc { numbers: [0; 8] }
    }

    fn replace(&mut self, addends: &Addends) {
        self.numbers = whole_numbers(addends);
    }

    fn add(&mut self, addends: &Addends) {
        let added = whole_numbers(addends);
        let mut numbers = [0; 8];
        for i in 0..8 {
            numbers[i] = wrap48(self.numbers[i] + added[i]);
        }
        self.numbers = numbers;
    }

    fn set_low(&mut self, low: &VReg) {
        let mut numbers = [0; 8];
        for i in 0..8 {
            numbers[i] = with_low(self.numbers[i], low.lane(i));
        }
        self.numbers = numbers;
    }

    fn part(&self, part: Part) -> VReg {
        let mut lanes = [0; 8];
        for i in 0..8 {
            lanes[i] = part_of(part, self.numbers[i]);
        }
        VReg::from_array(lanes)
    }

    fn clamp(&self, clamp: Clamp) -> VReg {
        let mut lanes = [0; 8];
        for i in 0..8 {
            lanes[i] = clamp_of(clamp, self.numbers[i]);
        }
        VReg::from_array(lanes)
    }
}

/// The signed value of `n` modulo 2^48: from -2^47 to 2^47 - 1.
fn wrap48(n: i64) -> i64
    requires { (negsuc (2 ^ 48 - 1) ≤ℤ n) × (n <ℤ pos (2 ^ 48)) }
    ensures value { result ≡ s48 n }
    ensures number { IsNumber result }
{
    (n + (1 << 47)).rem_euclid(1 << 48) - (1 << 47)
}

/// The addends as whole numbers.
fn whole_numbers(addends: &Addends) -> [i64; 8]
    ensures value { result ≡ addends.now }
    ensures within { AreNumbers result }
{
    let (high, middle, low) = addends.planes();
    let mut numbers = [0; 8];
    for i in 0..8 {
        numbers[i] = join(high.lane(i), middle.lane(i), low.lane(i));
    }
    numbers
}

/// The number with these high, middle and low sixteen bits.
fn join(high: u16, middle: u16, low: u16) -> i64
    ensures value { result ≡ join high middle low }
    ensures number { IsNumber result }
{
    let bits = high as i64 * 0x1_0000_0000 + middle as i64 * 0x1_0000 + low as i64;
    if high < 32768 {
        bits
    } else {
        bits - 0x1_0000_0000_0000
    }
}

/// A number with its low sixteen bits replaced.
fn with_low(number: i64, low: u16) -> i64
    requires { IsNumber number }
    ensures value { result ≡ with_low_bits number low }
    ensures number { IsNumber result }
{
    number - number.rem_euclid(65536) + low as i64
}

/// The low sixteen bits of a number.
fn low16(n: i64) -> u16
    ensures { result ≡ sixteen_bits n }
{
    n.rem_euclid(65536) as u16
}

/// The high, middle or low sixteen bits of a number.
fn part_of(part: Part, number: i64) -> u16
    requires { IsNumber number }
    ensures { result ≡ part_of part number }
{
    match part {
        Part::High => low16(number.div_euclid(1 << 32)),
        Part::Middle => low16(number.div_euclid(1 << 16)),
        Part::Low => low16(number),
    }
}

/// A number clamped to sixteen bits.
fn clamp_of(clamp: Clamp, number: i64) -> u16
    requires { IsNumber number }
    ensures { result ≡ clamp_of clamp number }
{
    clamped(clamp, number.div_euclid(65536), low16(number))
}

/// The clamp, by the number divided by 65536 and by its low sixteen bits.
fn clamped(clamp: Clamp, upper: i64, low: u16) -> u16
    ensures { result ≡ clamp_by clamp upper low }
{
    match clamp {
        Clamp::Signed => low16(upper.clamp(-32768, 32767)),
        Clamp::Unsigned => {
            if upper < 0 {
                0
            } else if upper > 32767 {
                65535
            } else {
                low16(upper)
            }
        }
        Clamp::LowKind => {
            if upper < -32768 {
                0
            } else if upper > 32767 {
                65535
            } else {
                low
            }
        }
    }
}
