// Whether operands are what a statement takes, and a text with them in it.

use crate::spelling::{numbered_scalar, scalar, vector_register};
use std::fmt::{self, Display, Formatter, Write};

/// The operands of a statement.
#[derive(Clone, Copy)]
pub struct Operands<'a> {
    /// The first four; empty of a statement that has fewer.
    pub first: [&'a str; 4],
    /// How many there are.
    pub count: usize,
}

/// A text in which `%1` to `%3` are operands. Of the number among them `%h` is the upper half and `%l` the lower one, `%a` is an address in
/// IMEM, `%p` two to its power, `%q` two to the power that makes it 16, and `%s` the number after it.
#[derive(Clone, Copy)]
pub struct Filled<'a> {
    written: &'static str,
    operands: [&'a str; 4],
    number: u32,
    /// What is between two statements.
    between: &'static str,
}

impl<'a> Filled<'a> {
    /// The text with sample operands, in one line.
    pub(crate) fn sample(written: &'static str, letters: &str) -> Filled<'a> {
        let operands = [
            sample_at(letters, 0),
            sample_at(letters, 1),
            sample_at(letters, 2),
            sample_at(letters, 3),
        ];
        Filled {
            written,
            operands,
            number: 3,
            between: ", then ",
        }
    }

    /// Writes what a letter stands for.
    fn write_part<W: Write>(&self, letter: u8, f: &mut Formatter<W>) -> fmt::Result {
        let number = self.number;
        match letter {
            b'1' => f.write_str(self.operands[0]),
            b'2' => f.write_str(self.operands[1]),
            b'3' => f.write_str(self.operands[2]),
            b'h' => write!(f, "{:#x}", number >> 16),
            b'l' => write!(f, "{:#x}", number & 0xffff),
            b'a' => write!(f, "{:#05x}", number & 0xffc),
            b'p' => write!(f, "{}", 1_u32 << number.min(16)),
            b's' => write!(f, "{}", number.wrapping_add(1).cast_signed()),
            _ => write!(f, "{}", 0x10000_u32 >> number.min(16)),
        }
    }
}

impl Display for Filled<'_> {
    fn fmt<W: Write>(&self, f: &mut Formatter<W>) -> fmt::Result {
        let mut is_letter = false;
        for byte in self.written.as_bytes() {
            if is_letter {
                self.write_part(*byte, f)?;
                is_letter = false;
            } else if *byte == b'%' {
                is_letter = true;
            } else if *byte == b'\n' {
                f.write_str(self.between)?;
            } else {
                f.write_char(char::from(*byte))?;
            }
        }
        Ok(())
    }
}

/// The text with these operands, if they are what its letters take. `*` is any operands, `=` any of which the first begins with what
/// follows it, and of one operand each letter is
///   - `r` a scalar register, `v` a vector register, in the form of this or of another assembler;
///   - `t` the target of a branch or a jump: a label or an address in IMEM;
///   - `i` a number of 16 bits with a sign, `n` one from 0 on that fits with the other sign, `m` one below 0 that does;
///   - `j` as `i`, and `k` as `n`, if the number after it is one, too;
///   - `u` a number of 16 bits that needs no sign, `z` one that has none, `w` one of 32 bits;
///   - `a` an address in IMEM, maybe with more bits; `s` a shift amount from 1 to 15, `f` one from 0 to 31;
///   - `.` anything.
pub(crate) fn fill<'a>(
    written: &'static str,
    letters: &str,
    operands: &Operands<'a>,
) -> Option<Filled<'a>> {
    let is_any = match letters.strip_prefix('=') {
        Some(start) => operands.first[0].starts_with(start),
        None => letters == "*",
    };
    if is_any {
        return Some(Filled {
            written,
            operands: operands.first,
            number: 0,
            between: "\n",
        });
    }
    if letters.len() != operands.count {
        return None;
    }
    let [first, second, third, _] = operands.first;
    let (first, one) = part_at(letters, 0, first)?;
    let (second, two) = part_at(letters, 1, second)?;
    let (third, three) = part_at(letters, 2, third)?;
    let operands = [first, second, third, ""];
    Some(Filled {
        written,
        operands,
        number: one.or(two).or(three).unwrap_or(0),
        between: "\n",
    })
}

/// What the letter of this index takes of the text of an operand; nothing if there are fewer letters.
fn part_at<'a>(letters: &str, index: usize, text: &'a str) -> Option<(&'a str, Option<u32>)> {
    match letters.as_bytes().get(index) {
        Some(letter) => fitting(*letter, text),
        None => Some(("", None)),
    }
}

/// What a letter takes of the text of an operand, and its number, if it has one.
fn fitting(letter: u8, text: &str) -> Option<(&str, Option<u32>)> {
    let number = number_of(text);
    let bits = match number {
        Some(number) => Some((number & 0xffff_ffff) as u32),
        None => None,
    };
    match (letter, number) {
        (b'.', _) => Some((text, None)),
        (b'r', _) => Some((scalar(text)?, None)),
        (b'v', _) => match vector_register(text.as_bytes())? {
            (register, []) => Some((numbered_scalar(usize::from(register))?, None)),
            _ => None,
        },
        (b't', Some(address @ 0..=4092)) if address % 4 == 0 => Some((text, None)),
        (b't', None) if is_label(text) => Some((text, None)),
        (b'i', Some(-32768..=32767)) | (b'n', Some(0..=32768)) => Some((text, None)),
        (b'z', Some(0..=65535)) | (b'f', Some(0..=31)) => Some((text, None)),
        (b'j', Some(-32768..=32766)) | (b'k', Some(0..=32766)) => Some((text, bits)),
        (b'm', Some(-32767..=-1)) => Some((text.strip_prefix('-')?, None)),
        (b'a', Some(address @ 0..=0x0fff_ffff)) if address % 4 == 0 => Some((text, bits)),
        (b'u', Some(32768..=65535)) | (b's', Some(1..=15)) => Some((text, bits)),
        (b'w', Some(-0x8000_0000..=-32769 | 65536..=0xffff_ffff)) => Some((text, bits)),
        _ => None,
    }
}

/// The number of a text that is one in each assembler: no digit 0 is before another digit.
pub(crate) fn number_of(text: &str) -> Option<i64> {
    let digits = text.strip_prefix('-').unwrap_or(text);
    let (digits, radix) = match digits.strip_prefix("0x") {
        Some(hexadecimal) => (hexadecimal, 16),
        None => (digits, 10),
    };
    let is_octal = radix == 10 && digits.len() > 1 && digits.starts_with('0');
    if is_octal || digits.starts_with('+') {
        return None;
    }
    let number = i64::from(u32::from_str_radix(digits, radix).ok()?);
    Some(if text.starts_with('-') {
        -number
    } else {
        number
    })
}

/// Whether a text is a label, or a label and a number after `+` or `-`.
pub(crate) fn is_sum(text: &str) -> bool {
    match text.split_once('+').or(text.split_once('-')) {
        Some((label, number)) => {
            is_label(label) && !number.starts_with('-') && number_of(number).is_some()
        }
        None => is_label(text),
    }
}

/// Whether a text is a label.
pub(crate) fn is_label(text: &str) -> bool {
    let starts = matches!(text.as_bytes(), [b'a'..=b'z' | b'A'..=b'Z' | b'_', ..]);
    starts
        && text.len() <= 32
        && text
            .bytes()
            .all(|byte| byte.is_ascii_alphanumeric() || byte == b'_')
}

/// An operand that fits a letter, without its `$` or `$v`.
pub(crate) fn sample(letter: u8, index: usize) -> &'static str {
    match (letter, index) {
        (b'r' | b'v', 0) => "1",
        (b'r' | b'v', 1) => "2",
        (b'r' | b'v' | b's', _) => "3",
        (b'n', _) => "4",
        (b't', _) => "x",
        _ => "100",
    }
}

/// The same for the letter of this index; empty if there are fewer letters.
fn sample_at<'a>(letters: &str, index: usize) -> &'a str {
    match letters.as_bytes().get(index) {
        Some(letter) => sample(*letter, index),
        None => "",
    }
}
