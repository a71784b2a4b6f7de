// Numbers, of any length.

ghost use Rattle.std.specs.Prelude.{◌≡◌, ◌≤◌, ◌^◌, pos, neg_ℤ, IfSome, option_map};
ghost use Rattle.rsp_syntax.specs.Numbers.{numeral, signed_number, unsigned_of, signed_of};
ghost use Rattle.rsp_syntax.specs.Capping.{capped, capped_ℤ, number_cap};

/// The greatest number that is kept. It is out of each operand's range, so a greater one may be replaced by it, and a number of
/// any length can be read without overflow.
const NUMBER_CAP: u64 = 1 << 40;

/// The number that one or more digits write in this radix, clamped to `NUMBER_CAP`. None of another text.
fn numeral(text: &[u8], radix: u32) -> Option<u64>
    requires low { 2 ≤ radix }
    requires high { radix ≤ 16 }
    ensures value { result ≡ option_map capped (numeral radix text.now) }
    ensures below { IfSome result (λ n. n ≤ number_cap) }
{
    if text.is_empty() {
        return None;
    }
    let mut value = 0;
    for c in text {
        let digit = char::from(*c).to_digit(radix)?;
        value = (value * u64::from(radix) + u64::from(digit)).min(NUMBER_CAP);
    }
    Some(value)
}

/// Reads a number without a sign, of any length: decimal digits, or `0x` and hexadecimal digits in either case. A number above
/// 2^40 is returned as 2^40. None if the text is no number; so of `0X10`, whose prefix is in upper case.
pub fn read_unsigned(text: &[u8]) -> Option<u64>
    ensures value { result ≡ option_map capped (unsigned_of text.now) }
    ensures below { IfSome result (λ n. n ≤ number_cap) }
{
    match text {
        [b'0', b'x', digits @ ..] => numeral(digits, 16),
        _ => numeral(text, 10),
    }
}

/// The number as a signed one.
fn positive(n: u64) -> i64
    requires { n ≤ number_cap }
    ensures { result ≡ pos n }
{
    n as i64
}

/// The number with a minus.
fn negative(n: u64) -> i64
    requires { n ≤ number_cap }
    ensures { result ≡ neg_ℤ (pos n) }
{
    -(n as i64)
}

/// The number with a sign.
pub(crate) fn signed(n: u64, is_negative: bool) -> i64
    requires { n ≤ number_cap }
    ensures { result ≡ signed_number is_negative n }
{
    if is_negative {
        negative(n)
    } else {
        positive(n)
    }
}

/// The number that `-` and these digits write.
fn negated(digits: &[u8]) -> Option<i64>
    ensures { result ≡ option_map capped_ℤ (option_map (λ n. neg_ℤ (pos n)) (unsigned_of digits.now)) }
{
    Some(negative(read_unsigned(digits)?))
}

/// Reads a number as [`read_unsigned`] does, with an optional `-` before it.
pub(crate) fn number(text: &[u8]) -> Option<i64>
    ensures { result ≡ option_map capped_ℤ (signed_of text.now) }
{
    if let [b'-', digits @ ..] = text {
        return negated(digits);
    }
    Some(positive(read_unsigned(text)?))
}
