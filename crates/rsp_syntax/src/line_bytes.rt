// Bytes of a line: which a line may have, whitespace at its ends, the first byte of a kind, and where it is cut.

ghost use Rattle.std.specs.Prelude.{◌≡◌, ◌≤◌, ◌==◌, length, reverse, option_map};
ghost use Rattle.std.specs.List.{list_all, position_or_len};
ghost use Rattle.std.specs.Str.{str_eq_ignore_ascii_case};
ghost use Rattle.std.specs.Str.Lines.{strip_carriage_return};
ghost use Rattle.rsp_syntax.specs.Chars.{is_blank, is_line, is_line_byte, skip_blanks, trim};
ghost use Rattle.rsp_syntax.specs.Cuts.{cut};

use memchr::{memchr, memchr2};

/// The greatest length of a line in bytes, without its line ending.
pub const MAX_LINE_LEN: usize = 256;

/// Whether a line may contain this byte: a tab, or printable ASCII, which is 20 to 7e hexadecimal.
#[inline]
pub(crate) fn is_line_byte(c: u8) -> bool
    ensures { result ≡ is_line_byte c }
{
    c == b'\t' || matches!(c, b' '..=b'~')
}

/// Whether a line may contain each of the bytes: tabs and 20 to 7e hexadecimal. It doesn't stop at the first other byte, so
/// that the loop has no branch and takes many bytes at a time.
pub fn has_line_bytes(line: &[u8]) -> bool
    ensures { result ≡ list_all is_line_byte line.now }
{
    let mut plain = true;
    for c in line {
        plain &= is_line_byte(*c);
    }
    plain
}

/// Whether `line`, given without its line ending, has at most 256 bytes, all of them tabs and 20 to 7e hexadecimal.
pub fn is_line(line: &[u8]) -> bool
    ensures { result ≡ is_line line.now }
{
    line.len() <= MAX_LINE_LEN && has_line_bytes(line)
}

/// `line` without the carriage return at its end, if there is one. Only the last is removed.
pub fn without_return(line: &[u8]) -> &[u8]
    ensures { result.now ≡ strip_carriage_return line.now }
{
    match line {
        [prefix @ .., b'\r'] => prefix,
        _ => line,
    }
}

/// A space or a tab.
#[inline]
pub(crate) fn is_blank(c: u8) -> bool
    ensures { result ≡ is_blank c }
{
    c == b' ' || c == b'\t'
}

/// `text` without the blanks at its start.
pub fn skip_blanks(text: &[u8]) -> &[u8]
    ensures value { result.now ≡ skip_blanks text.now }
    ensures len { length result.now ≤ length text.now }
{
    let mut text = text;
    while let [first, rest @ ..] = text {
        if !is_blank(*first) {
            break;
        }
        text = rest;
    }
    text
}

/// `text` without the blanks at its end.
fn drop_last_blanks(text: &[u8]) -> &[u8]
    ensures value { result.now ≡ reverse (skip_blanks (reverse text.now)) }
    ensures len { length result.now ≤ length text.now }
{
    let mut text = text;
    while let [rest @ .., last] = text {
        if !is_blank(*last) {
            break;
        }
        text = rest;
    }
    text
}

/// `text` without the blanks at both ends.
pub fn trim(text: &[u8]) -> &[u8]
    ensures value { result.now ≡ trim text.now }
    ensures len { length result.now ≤ length text.now }
{
    drop_last_blanks(skip_blanks(text))
}

/// How many bytes are before the first `byte`: all of them if the text has none.
#[tactic(auto, using(crate::proofs::Trims::first_places))]
pub fn len_before(byte: u8, text: &[u8]) -> usize
    ensures value { result ≡ position_or_len (λ b. b == byte) text.now }
    ensures within { result ≤ length text.now }
{
    match memchr(byte, text) {
        Some(at) => at,
        None => text.len(),
    }
}

/// How many bytes are before the first blank, a space or a tab: all of them if the text has none.
#[tactic(auto, using(crate::proofs::Trims::first_places))]
pub fn len_before_blank(text: &[u8]) -> usize
    ensures value { result ≡ position_or_len is_blank text.now }
    ensures within { result ≤ length text.now }
{
    match memchr2(b' ', b'\t', text) {
        Some(at) => at,
        None => text.len(),
    }
}

/// The separators of the assembler's syntax.
#[derive(Clone, Copy, PartialEq, Eq, Debug)]
pub enum Boundary {
    /// A space or a tab.
    Blank,
    /// `:` after a label.
    Colon,
    /// A line feed.
    Newline,
    /// `,` between operands.
    Comma,
    /// `#` or `;`, which begin a comment.
    Comment,
    /// `[` before an element, a byte or a lane.
    Bracket,
    /// `(` before a base register.
    Parenthesis,
    /// `+`
    Plus,
    /// `-`
    Minus,
}

impl Boundary {
    ghost use Rattle.rsp_syntax.specs.Cuts.{is_boundary};

    /// Whether this byte is such a separator.
    fn is_at(self, c: u8) -> bool
        ensures { result ≡ is_boundary self c }
    {
        match self {
            Boundary::Blank => is_blank(c),
            Boundary::Colon => c == b':',
            Boundary::Newline => c == b'\n',
            Boundary::Comma => c == b',',
            Boundary::Comment => c == b'#' || c == b';',
            Boundary::Bracket => c == b'[',
            Boundary::Parenthesis => c == b'(',
            Boundary::Plus => c == b'+',
            Boundary::Minus => c == b'-',
        }
    }
}

/// Cuts a text at its first separator of this kind: the part before it, and the part after it. None if the text has none.
pub fn cut(text: &[u8], boundary: Boundary) -> Option<(&[u8], &[u8])>
    ensures { option_map (λ p. (p.0.now, p.1.now)) result ≡ cut boundary text.now }
{
    for (at, c) in text.iter().enumerate() {
        if boundary.is_at(*c) {
            return Some((&text[..at], &text[at + 1..]));
        }
    }
    None
}

/// Whether two names are equal, with ASCII letters in either case.
pub fn is_same(a: &[u8], b: &[u8]) -> bool
    ensures { result ≡ str_eq_ignore_ascii_case a.now b.now }
{
    a.eq_ignore_ascii_case(b)
}
