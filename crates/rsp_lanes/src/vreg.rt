ghost use Rattle.std.specs.Prelude.{◌≡◌, ◌+◌, ◌-◌, ◌*◌, ◌/◌, ◌%◌, ◌<◌, slice_index, slice_index_or, slice_set, nat_lt, nat_eq, nat_le, int_lt, false};
ghost use Rattle.std.specs.Int.Bits.{bit_and, bit_or, bit_xor};
ghost use Rattle.rsp_lanes.specs.Lanes.{each_lane, bit, IsVector, register_byte, with_register_byte};
ghost use Rattle.rsp_numbers.specs.Numbers.{s16, complement, negated};

use crate::Mask8;
use byteorder::{BigEndian, ByteOrder};
use std::marker::Model;
use std::simd::prelude::*;

/// A vector register: eight 16-bit lanes in one vector. Contracts see the list of them, each from 0 to 65535, lane 0
/// first.
#[derive(Clone, Copy, PartialEq, Eq, Debug, Drop)]
pub struct VReg {
    lanes: u16x8,
}

impl Model for VReg {
    ghost use Rattle.std.specs.Prelude.{List, ℕ};
    ghost use Rattle.rsp_lanes.specs.Lanes.{IsVector};

    ghost Value = { List ℕ };

    ghost view = { λ v. v.lanes };

    ghost invariant = { λ v. IsVector v.lanes };

    ghost inverse = { λ l. record { lanes = l } };
}

impl VReg {
    /// A register of zeros.
    #[inline(always)]
    pub fn new() -> Self
        ensures { result ≡ each_lane (λ _. 0) }
    {
        VReg::splat(0)
    }

    /// A register with the same number in all lanes.
    #[inline(always)]
    pub fn splat(value: u16) -> Self
        ensures { result ≡ each_lane (λ _. value) }
    {
        VReg {
            lanes: u16x8::splat(value),
        }
    }

    /// The register with these lanes.
    #[inline(always)]
    pub fn from_simd(lanes: u16x8) -> Self
        ensures { result ≡ lanes }
    {
        VReg { lanes }
    }

    /// The register with these lanes, lane 0 first.
    #[inline(always)]
    pub fn from_array(lanes: [u16; 8]) -> Self
        ensures { result ≡ lanes }
    {
        VReg {
            lanes: u16x8::from_array(lanes),
        }
    }

    /// The register with these bytes. Byte 0 is the high byte of lane 0, byte 15 the low byte of lane 7.
    #[inline(always)]
    #[tactic(auto, unfolding(crate::specs::Lanes::each_lane))]
    pub fn from_bytes(bytes: [u8; 16]) -> Self
        ensures { result ≡ each_lane (λ i. slice_index bytes (2 * i) * 256 + slice_index bytes (2 * i + 1)) }
    {
        VReg::from_array([
            BigEndian::read_u16(&[bytes[0], bytes[1]]),
            BigEndian::read_u16(&[bytes[2], bytes[3]]),
            BigEndian::read_u16(&[bytes[4], bytes[5]]),
            BigEndian::read_u16(&[bytes[6], bytes[7]]),
            BigEndian::read_u16(&[bytes[8], bytes[9]]),
            BigEndian::read_u16(&[bytes[10], bytes[11]]),
            BigEndian::read_u16(&[bytes[12], bytes[13]]),
            BigEndian::read_u16(&[bytes[14], bytes[15]]),
        ])
    }

    /// The lanes, lane 0 first.
    #[inline(always)]
    pub fn to_array(&self) -> [u16; 8]
        ensures { result ≡ self.now }
    {
        self.lanes.to_array()
    }

    /// The eight lanes, each below 65536.
    #[inline(always)]
    pub fn to_simd(&self) -> u16x8
        ensures value { result ≡ self.now }
        ensures vector { IsVector self.now }
    {
        self.lanes
    }

    /// Lane `i`, from 0 to 7.
    #[inline(always)]
    pub fn lane(&self, i: usize) -> u16
        requires { i < 8 }
        ensures { result ≡ slice_index self.now i }
    {
        self.lanes[i]
    }

    /// Writes lane `i`, from 0 to 7. The others are kept. The merge stays in vector registers: a write of one lane in
    /// memory would be read back as a vector, and the processor waits for that.
    #[inline(always)]
    pub fn set_lane(&mut self, i: usize, value: u16)
        requires { i < 8 }
        ensures { self.new ≡ slice_set self.old i value }
    {
        let places = VReg::from_array([0, 1, 2, 3, 4, 5, 6, 7]);
        let old = VReg::from_simd(self.to_simd());
        *self = places
            .is_equal(&VReg::splat(i as u16))
            .merge(&VReg::splat(value), &old);
    }

    /// Byte `i`, from 0 to 15: byte 0 is the high byte of lane 0, byte 15 the low byte of lane 7.
    #[inline(always)]
    #[tactic(auto, unfolding(crate::specs::Lanes::register_byte))]
    pub fn byte(&self, i: usize) -> u8
        requires { i < 16 }
        ensures { result ≡ register_byte self.now i }
    {
        let mut bytes = [0; 2];
        BigEndian::write_u16(&mut bytes, self.lane(i / 2));
        let [high, low] = bytes;
        if i % 2 == 0 { high } else { low }
    }

    /// Writes byte `i`, from 0 to 15. The others are kept.
    #[inline(always)]
    #[tactic(auto, unfolding(crate::specs::Lanes::with_register_byte))]
    pub fn set_byte(&mut self, i: usize, value: u8)
        requires { i < 16 }
        ensures { self.new ≡ with_register_byte self.old i value }
    {
        let mut bytes = [0; 2];
        BigEndian::write_u16(&mut bytes, self.lane(i / 2));
        let [high, low] = bytes;
        let bytes = if i % 2 == 0 {
            [value, low]
        } else {
            [high, value]
        };
        self.set_lane(i / 2, BigEndian::read_u16(&bytes));
    }

    /// The sums of the lanes, modulo 65536.
    #[inline(always)]
    pub fn add(&self, other: &VReg) -> VReg
        ensures value { result ≡ each_lane (λ i. (slice_index self.now i + slice_index other.now i) % 65536) }
        ensures within { IsVector self.now × IsVector other.now }
    {
        VReg::from_simd(self.lanes + other.lanes)
    }

    /// The differences of the lanes, modulo 65536.
    #[inline(always)]
    pub fn subtract(&self, other: &VReg) -> VReg
        ensures value { result ≡ each_lane (λ i. (slice_index self.now i + (65536 - slice_index other.now i)) % 65536) }
        ensures within { IsVector self.now × IsVector other.now }
    {
        VReg::from_simd(self.lanes - other.lanes)
    }

    /// Bitwise and.
    #[inline(always)]
    pub fn and(&self, other: &VReg) -> VReg
        ensures value { result ≡ each_lane (λ i. bit_and (slice_index self.now i) (slice_index other.now i)) }
        ensures within { IsVector self.now × IsVector other.now }
    {
        VReg::from_simd(self.lanes & other.lanes)
    }

    /// Bitwise or.
    #[inline(always)]
    pub fn or(&self, other: &VReg) -> VReg
        ensures { result ≡ each_lane (λ i. bit_or (slice_index self.now i) (slice_index other.now i)) }
    {
        VReg::from_simd(self.lanes | other.lanes)
    }

    /// Bitwise exclusive or.
    #[inline(always)]
    pub fn xor(&self, other: &VReg) -> VReg
        ensures { result ≡ each_lane (λ i. bit_xor (slice_index self.now i) (slice_index other.now i)) }
    {
        VReg::from_simd(self.lanes ^ other.lanes)
    }

    /// Bitwise not.
    #[inline(always)]
    pub fn not(&self) -> VReg
        ensures value { result ≡ each_lane (λ i. complement (slice_index self.now i)) }
        ensures within { IsVector self.now }
    {
        VReg::from_simd(!self.lanes)
    }

    /// The lanes negated, modulo 65536: 8000 hex is its own negative.
    #[inline(always)]
    pub fn negate(&self) -> VReg
        ensures value { result ≡ each_lane (λ i. negated (slice_index self.now i)) }
        ensures within { IsVector self.now }
    {
        VReg::new().subtract(self)
    }

    /// The lanes that are 0.
    #[inline(always)]
    pub fn is_zero(&self) -> Mask8
        ensures value { result ≡ each_lane (λ i. nat_eq (slice_index self.now i) 0) }
        ensures within { IsVector self.now }
    {
        self.is_equal(&VReg::new())
    }

    /// The lanes that are below the other's, as unsigned values.
    #[inline(always)]
    pub fn is_below(&self, other: &VReg) -> Mask8
        ensures value { result ≡ each_lane (λ i. nat_lt (slice_index self.now i) (slice_index other.now i)) }
        ensures within { IsVector self.now × IsVector other.now }
    {
        Mask8::from_simd(self.lanes.simd_lt(other.lanes))
    }

    /// The lanes that are below the other's, as signed values.
    #[inline(always)]
    pub fn is_below_signed(&self, other: &VReg) -> Mask8
        ensures { result ≡ each_lane (λ i. int_lt (s16 (slice_index self.now i)) (s16 (slice_index other.now i))) }
    {
        let half = VReg::splat(0x8000);
        self.add(&half).is_below(&other.add(&half))
    }

    /// The lanes that are equal to the other's.
    #[inline(always)]
    pub fn is_equal(&self, other: &VReg) -> Mask8
        ensures value { result ≡ each_lane (λ i. nat_eq (slice_index self.now i) (slice_index other.now i)) }
        ensures within { IsVector self.now × IsVector other.now }
    {
        Mask8::from_simd(self.lanes.simd_eq(other.lanes))
    }

    /// The sums of the lanes and a carry, modulo 65536, and the carries out of them.
    #[inline(always)]
    pub fn add_carrying(&self, other: &VReg, carry: Mask8) -> (VReg, Mask8)
        ensures sum { result.0 ≡ each_lane (λ i. (slice_index self.now i + slice_index other.now i + bit (slice_index_or carry i false)) % 65536) }
        ensures carry { result.1 ≡ each_lane (λ i. nat_le 65536 (slice_index self.now i + slice_index other.now i + bit (slice_index_or carry i false))) }
        ensures within { IsVector self.now × IsVector other.now }
    {
        let plain = self.add(other);
        let sum = plain.add(&carry.merge(&VReg::splat(1), &VReg::new()));
        (sum, plain.is_below(self).or(sum.is_below(&plain)))
    }

    /// The lanes that are negative as signed values: their top bit is set.
    #[inline(always)]
    pub fn is_negative(&self) -> Mask8
        ensures value { result ≡ each_lane (λ i. nat_lt 32767 (slice_index self.now i)) }
        ensures within { IsVector self.now }
    {
        VReg::splat(0x7fff).is_below(self)
    }

    /// The high and the low halves of the products of the lanes as unsigned values.
    #[inline(always)]
    pub fn product(&self, other: &VReg) -> (VReg, VReg)
        ensures high { result.0 ≡ each_lane (λ i. slice_index self.now i * slice_index other.now i / 65536) }
        ensures low { result.1 ≡ each_lane (λ i. slice_index self.now i * slice_index other.now i % 65536) }
        ensures within { IsVector self.now × IsVector other.now }
    {
        let product = self.lanes.cast::<u32>() * other.lanes.cast::<u32>();
        (
            VReg::from_simd((product >> u32x8::splat(16)).cast::<u16>()),
            VReg::from_simd(self.lanes * other.lanes),
        )
    }
}

#[cfg(test)]
mod tests {
    use super::*;

    // compiles only if the struct has exactly this field
    #[test]
    fn holds_one_vector(rt: HostRuntime) {
        let v = VReg {
            lanes: u16x8::splat(7),
        };
        let VReg { lanes: taken } = v;
        let again: u16x8 = taken;
        assert_eq!(rt; again.to_array(), [7; 8]);
        assert_eq!(rt; v, VReg::splat(7));
    }
}
