ghost use Rattle.std.specs.Prelude.{◌≡◌, ◌<◌, ◌^◌};
ghost use Rattle.rsp_divide.specs.Quotients.{nine_bits, scaled, reciprocal_bits, root_bits, reciprocal_of, inverse_root_of};

use crate::entries::{rcp_entry, rsq_entry};

/// The nine bits below the leading one. Zeros follow if `y` has fewer.
fn nine_bits(y: u32) -> usize
    requires { 0 < y }
    ensures value { result ≡ nine_bits y }
    ensures bound { result < 512 }
{
    (((y as u64) << 9 >> (31 - y.leading_zeros())) & 511) as usize
}

/// An entry with its leading one, `(65536 + entry) * 2^14`, shifted right.
fn scaled(entry: u16, shift: u32) -> u32
    requires { shift < 32 }
    ensures value { result ≡ scaled entry shift }
    ensures bound { result < 2 ^ 31 }
{
    (0x1_0000 + entry as u32) << 14 >> shift
}

/// The reciprocal of a positive number.
#[tactic(auto, unfolding(crate::specs::Quotients::reciprocal_bits))]
fn reciprocal_bits(y: u32) -> u32
    requires { 0 < y }
    ensures value { result ≡ reciprocal_bits y }
    ensures bound { result < 2 ^ 31 }
{
    scaled(rcp_entry(nine_bits(y)), 31 - y.leading_zeros())
}

/// The inverse square root of a positive number.
#[tactic(auto, unfolding(crate::specs::Quotients::root_bits))]
fn root_bits(y: u32) -> u32
    requires { 0 < y }
    ensures value { result ≡ root_bits y }
    ensures bound { result < 2 ^ 31 }
{
    let zeros = y.leading_zeros();
    let index = nine_bits(y) / 2 * 2 + (zeros % 2) as usize;
    scaled(rsq_entry(index), (31 - zeros) / 2)
}

/// The reciprocal of a signed number, by the reciprocal table.
///
/// For 0 it is 7FFFFFFF hex, the greatest number, and for -32768 FFFF0000 hex. For another negative number it is the
/// complement of the reciprocal of its magnitude, which counts one less below -32768.
pub fn reciprocal(x: i32) -> i32
    ensures { result ≡ reciprocal_of x }
{
    match x {
        0 => i32::MAX,
        -32768 => -65536,
        1.. => reciprocal_bits(x as u32) as i32,
        -32767..=-1 => !(reciprocal_bits(-x as u32) as i32),
        _ => !(reciprocal_bits(!x as u32) as i32),
    }
}

/// The inverse square root of a signed number, by the root table, with the same cases as [`reciprocal`].
pub fn root(x: i32) -> i32
    ensures { result ≡ inverse_root_of x }
{
    match x {
        0 => i32::MAX,
        -32768 => -65536,
        1.. => root_bits(x as u32) as i32,
        -32767..=-1 => !(root_bits(-x as u32) as i32),
        _ => !(root_bits(!x as u32) as i32),
    }
}
