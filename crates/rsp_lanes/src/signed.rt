//! Lanes as signed values.

ghost use Rattle.std.specs.Prelude.{ℕ, ◌≡◌, ◌<◌, ◌^◌, ◌-◌, ◌*ℤ◌, ◌+ℤ◌, ◌≤ℤ◌, ◌<ℤ◌, pos, negsuc, cond, nat_lt, slice_index, slice_index_or, false};
ghost use Rattle.std.specs.Int.{int_min, int_max};
ghost use Rattle.rsp_lanes.specs.Lanes.{each_lane, bit, IsVector};
ghost use Rattle.rsp_numbers.specs.Numbers.{s16, upper_bits, sixteen_bits, clamp16, number};

use crate::{Mask8, VReg};
use std::simd::prelude::*;

/// The lanes as signed values, in 16 bits.
#[inline(always)]
fn signed(v: &VReg) -> i16x8
    ensures value { result ≡ each_lane (λ i. s16 (slice_index v.now i)) }
    ensures within { IsVector v.now }
{
    i16x8::from_le_bytes(v.to_simd().to_le_bytes())
}

/// The lanes as signed values, in 32 bits.
#[inline(always)]
fn wide(v: &VReg) -> i32x8
    ensures value { result ≡ each_lane (λ i. s16 (slice_index v.now i)) }
    ensures within { IsVector v.now }
{
    signed(v).cast::<i32>()
}

/// The lesser of both lanes as signed values, clamped to 32766 so that a carry can be added without overflow.
#[inline(always)]
fn clamped_lesser(a: &VReg, b: &VReg) -> VReg
    ensures { (i : ℕ) → i < 8 → s16 (slice_index result i) ≡ int_min (int_min (s16 (slice_index a.now i)) (s16 (slice_index b.now i))) (pos 32766) }
{
    let lesser = signed(a).simd_min(signed(b)).simd_min(i16x8::splat(0x7ffe));
    VReg::from_simd(u16x8::from_le_bytes(lesser.to_le_bytes()))
}

/// The greater of both lanes as signed values, in 32 bits.
#[inline(always)]
fn greater(a: &VReg, b: &VReg) -> i32x8
    ensures value { result ≡ each_lane (λ i. int_max (s16 (slice_index a.now i)) (s16 (slice_index b.now i))) }
    ensures within { IsVector a.now × IsVector b.now }
{
    signed(a).simd_max(signed(b)).cast::<i32>()
}

/// The numbers clamped to -32768..=32767. If they are sums of two lanes, LLVM compiles sum and clamp to one
/// instruction.
#[inline(always)]
fn saturated(numbers: i32x8) -> VReg
    requires lanes { numbers ≡ each_lane (number numbers) }
    requires range { (i : ℕ) → i < 8 → (negsuc (2 ^ 31 - 1) ≤ℤ number numbers i) × (number numbers i <ℤ pos (2 ^ 31)) }
    ensures { result ≡ each_lane (λ i. sixteen_bits (clamp16 (number numbers i))) }
{
    let saturated = numbers
        .simd_max(i32x8::splat(-32768))
        .simd_min(i32x8::splat(32767));
    VReg::from_simd(u16x8::from_le_bytes(saturated.cast::<i16>().to_le_bytes()))
}

impl VReg {
    /// The sums of the lanes as signed values and a carry, clamped to -32768..=32767.
    ///
    /// The lesser lane is clamped to 32766, and the carry is added to it. If that lane is 32767, both are, and the clamped
    /// sum is 32767 in any case.
    #[inline(always)]
    pub fn add_clamped(&self, other: &VReg, carry: Mask8) -> VReg
        ensures { result ≡ each_lane (λ i. sixteen_bits (clamp16 (s16 (slice_index self.now i) +ℤ s16 (slice_index other.now i) +ℤ pos (bit (slice_index_or carry i false))))) }
    {
        let lesser = clamped_lesser(self, other);
        // -1 where the carry is set, else 0. To subtract it adds the carry.
        let minus_carry = carry.merge(&VReg::splat(0xffff), &VReg::new());
        let carried = lesser.subtract(&minus_carry);
        saturated(greater(self, other) + wide(&carried))
    }

    /// The high halves of the products of the lanes as signed values. LLVM compiles the body to one instruction.
    #[inline(always)]
    pub fn signed_product_high(&self, other: &VReg) -> VReg
        ensures { result ≡ each_lane (λ i. upper_bits (s16 (slice_index self.now i) *ℤ s16 (slice_index other.now i))) }
    {
        let product = signed(self)
            .cast::<i32>()
            .strict_mul(signed(other).cast::<i32>());
        let high = (product >> i32x8::splat(16)).cast::<i16>();
        VReg::from_simd(u16x8::from_le_bytes(high.to_le_bytes()))
    }

    /// All ones in each lane that is negative as a signed value, else 0.
    #[inline(always)]
    pub fn sign(&self) -> VReg
        ensures { result ≡ each_lane (λ i. cond (nat_lt 32767 (slice_index self.now i)) 65535 0) }
    {
        let sign = signed(self) >> i16x8::splat(15);
        VReg::from_simd(u16x8::from_le_bytes(sign.to_le_bytes()))
    }
}
