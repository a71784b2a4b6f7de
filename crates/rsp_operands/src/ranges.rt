// The ranges of operands: the field of a value, or None if the value is out of range.

ghost use Rattle.std.specs.Prelude.{◌≡◌, ◌==◌, ◌≤◌, ◌%◌, ◌/◌, Some, None, if◌then◌else◌};
ghost use Rattle.rsp_syntax.specs.Statement.{half, word, amount, jump, branch, scaled_offset};

/// The field of a 16-bit immediate: -32768 to 65535, modulo 65536.
pub(crate) fn half(value: i64) -> Option<u32>
    ensures { result ≡ half value }
{
    match value {
        0..=65535 => Some(value as u32),
        -32768..=-1 => Some((65536 + value) as u32),
        _ => None,
    }
}

/// The word of a number of `.word`: -2147483648 to 4294967295, modulo 2^32.
pub(crate) fn word(value: i64) -> Option<u32>
    ensures { result ≡ word value }
{
    match value {
        0..=4294967295 => Some(value as u32),
        -2147483648..=-1 => Some((4294967296 + value) as u32),
        _ => None,
    }
}

/// The field of a shift amount, 0 to 31.
pub(crate) fn amount(value: i64) -> Option<u32>
    ensures { result ≡ amount value }
{
    match value {
        0..=31 => Some(value as u32),
        _ => None,
    }
}

/// The field of a jump: its target, a multiple of 4 from 0 to 4092, in words.
pub(crate) fn jump(target: i64) -> Option<u32>
    ensures { result ≡ jump target }
{
    if !(0..4096).contains(&target) || target % 4 != 0 {
        return None;
    }
    Some(target as u32 / 4)
}

/// The field of a branch at `address`: the distance in words from the delay slot after the branch to the target, modulo 65536.
/// The target is a multiple of 4 from 0 to 4092.
pub(crate) fn branch(address: u16, target: i64) -> Option<u32>
    requires { address ≤ 4096 }
    ensures { result ≡ branch address target }
{
    let target = jump(target)?;
    let delay_slot = u32::from(address) / 4 + 1;
    Some((target + 65536 - delay_slot) % 65536)
}

/// The distance divided by the scale; None if it is no multiple. A scale of 0 divides 0 alone, as in the definition.
fn steps(scale: u8, distance: u64) -> Option<u64>
    ensures { result ≡ (if distance % scale == 0 then Some (distance / scale) else None) }
{
    let scale = u64::from(scale);
    if distance.is_multiple_of(scale) {
        Some(distance / scale.max(1))
    } else {
        None
    }
}

/// The field of an offset of a vector load or store: a multiple of its scale, -64 to 63 times it, modulo 128.
pub(crate) fn scaled_offset(scale: u8, value: i64) -> Option<u32>
    ensures { result ≡ scaled_offset scale value }
{
    let steps = steps(scale, value.unsigned_abs())?;
    match value {
        0.. if steps < 64 => Some(steps as u32),
        ..=-1 if steps <= 64 => Some(128 - steps as u32),
        _ => None,
    }
}
