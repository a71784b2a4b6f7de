// The bytes of a label's name.

ghost use Rattle.std.specs.Prelude.{◌≡◌};
ghost use Rattle.rsp_syntax.specs.Chars.{is_name_byte, is_name_start};

/// Whether a name may begin with this byte: a letter or `_`.
#[inline]
pub(crate) fn is_name_start(c: u8) -> bool
    ensures { result ≡ is_name_start c }
{
    matches!(c, b'A'..=b'Z' | b'a'..=b'z' | b'_')
}

/// Whether a name may contain this byte: a letter, a digit or `_`.
#[inline]
pub(crate) fn is_name_byte(c: u8) -> bool
    ensures { result ≡ is_name_byte c }
{
    is_name_start(c) || matches!(c, b'0'..=b'9')
}
