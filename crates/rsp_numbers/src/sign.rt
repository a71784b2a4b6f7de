ghost use Rattle.rsp_numbers.specs.Numbers.{sign_extended};
ghost use Rattle.std.specs.Int.{w16};
ghost use Rattle.std.specs.Prelude.{◌≡◌};

/// Sixteen bits sign-extended to 32: bit 15 is repeated in bits 31 to 16.
#[inline(always)]
pub fn sign_extend(n: u16) -> u32
    ensures { result ≡ sign_extended w16 n }
{
    (n.cast_signed() as i32).cast_unsigned()
}
