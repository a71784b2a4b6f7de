// How an operand is written here that a text of another assembler writes otherwise.

use crate::fits::{is_sum, number_of};
use crate::names::is_same;
use crate::readings::{Offset, Readings, offset_of};
use rsp_decode::{ByteElements, Operand};
use std::fmt::{self, Display, Formatter, Write};

/// The names of scalar registers, without `$`. `v0` and `v1` are not among them: `$v0` is a vector register here.
const SCALARS: [&str; 31] = [
    "zero", "at", "a0", "a1", "a2", "a3", "t0", "t1", "t2", "t3", "t4", "t5", "t6", "t7", "t8",
    "t9", "s0", "s1", "s2", "s3", "s4", "s5", "s6", "s7", "s8", "k0", "k1", "gp", "sp", "fp", "ra",
];

/// The names of the first scalar registers, in order.
const FIRST_SCALARS: [&str; 4] = ["zero", "at", "v0", "v1"];

/// The scalar registers by their numbers, without `$`.
const SCALAR_NUMBERS: [&str; 32] = [
    "0", "1", "2", "3", "4", "5", "6", "7", "8", "9", "10", "11", "12", "13", "14", "15", "16",
    "17", "18", "19", "20", "21", "22", "23", "24", "25", "26", "27", "28", "29", "30", "31",
];

/// The names of the SP registers, in order.
const SP_REGISTERS: [&str; 16] = [
    "SP_MEM_ADDR",
    "SP_DRAM_ADDR",
    "SP_RD_LEN",
    "SP_WR_LEN",
    "SP_STATUS",
    "SP_DMA_FULL",
    "SP_DMA_BUSY",
    "SP_SEMAPHORE",
    "DPC_START",
    "DPC_END",
    "DPC_CURRENT",
    "DPC_STATUS",
    "DPC_CLOCK",
    "DPC_BUFBUSY",
    "DPC_PIPEBUSY",
    "DPC_TMEM",
];

/// libdragon's names of them, after `COP0_`.
const COP0_REGISTERS: [&str; 16] = [
    "DMA_SPADDR",
    "DMA_RAMADDR",
    "DMA_READ",
    "DMA_WRITE",
    "SP_STATUS",
    "DMA_FULL",
    "DMA_BUSY",
    "SEMAPHORE",
    "DP_START",
    "DP_END",
    "DP_CURRENT",
    "DP_STATUS",
    "DP_CLOCK",
    "DP_BUSY",
    "DP_PIPE_BUSY",
    "DP_TMEM_BUSY",
];

/// The SP registers by their numbers, without `$`.
const SP_NUMBERS: [&str; 16] = [
    "c0", "c1", "c2", "c3", "c4", "c5", "c6", "c7", "c8", "c9", "c10", "c11", "c12", "c13", "c14",
    "c15",
];

/// The names of the control registers, without `$`.
const CONTROLS: [&str; 3] = ["vco", "vcc", "vce"];

/// The elements of computing instructions, by their codes.
pub(crate) const ELEMENTS: [&str; 16] = [
    "", "[v]", "[0q]", "[1q]", "[0h]", "[1h]", "[2h]", "[3h]", "[0]", "[1]", "[2]", "[3]", "[4]",
    "[5]", "[6]", "[7]",
];

/// The bytes of a vector register, and its lanes.
pub(crate) const BYTES: [&str; 16] = [
    "[0]", "[1]", "[2]", "[3]", "[4]", "[5]", "[6]", "[7]", "[8]", "[9]", "[10]", "[11]", "[12]",
    "[13]", "[14]", "[15]",
];

/// How an operand is written here. Its text is what [`Display`] writes.
#[derive(Clone, Copy)]
pub enum Spelling<'a> {
    /// A register of one number, by its name without `$`.
    Register(&'a str),
    /// The same of a scalar register, if a text means that one and no vector register.
    Scalar(&'static str, &'a str),
    /// A vector register by its number, and the text after it.
    Vector(u8, &'static str),
    /// An offset, and the name of a base register without `$`.
    Memory(&'a str, &'a str),
    /// The digits of a hexadecimal number.
    Hexadecimal(&'a str),
    /// The same, and a text that is it if it is hexadecimal.
    Digits(&'a str, &'a str),
    /// A number.
    Number(u32),
    /// An offset in bytes, if its number counts steps.
    Steps {
        /// The offset.
        bytes: i64,
        /// The name of the base register without `$`.
        base: &'a str,
        /// How many steps it has.
        count: &'a str,
        /// The bytes of a step.
        step: u8,
    },
    /// A vector register with an element that may be either of two.
    Either(Readings),
}

impl Spelling<'_> {
    /// Whether the text of the other assembler has no other meaning.
    pub fn is_sure(&self) -> bool {
        !matches!(
            self,
            Spelling::Scalar(..)
                | Spelling::Digits(..)
                | Spelling::Steps { .. }
                | Spelling::Either(_)
        )
    }
}

impl Display for Spelling<'_> {
    fn fmt<W: Write>(&self, f: &mut Formatter<W>) -> fmt::Result {
        match self {
            Spelling::Register(name) => write!(f, "${name}"),
            Spelling::Scalar(name, text) => write!(f, "${name} if {text} is a scalar register"),
            Spelling::Vector(number, element) => write!(f, "$v{number}{element}"),
            Spelling::Memory(offset, base) => write!(f, "{offset}(${base})"),
            Spelling::Hexadecimal(digits) => write!(f, "0x{digits}"),
            Spelling::Digits(digits, text) => write!(f, "0x{digits} if {text} is hexadecimal"),
            Spelling::Number(number) => write!(f, "{number}"),
            Spelling::Steps {
                bytes,
                base,
                count,
                step,
            } => write!(
                f,
                "{bytes}(${base}) if {count} counts steps of {step} bytes"
            ),
            Spelling::Either(readings) => write!(f, "{readings}"),
        }
    }
}

/// What other assemblers write after a vector register: a letter and a number.
#[derive(Clone, Copy)]
enum Element {
    /// Nothing.
    Whole,
    /// `.e0`
    Dotted(u8, u8),
    /// `[e0]` or `[0e]`; the letter of `[0]` is a space.
    Bracketed(u8, u8),
}

/// How an operand of this kind is written here, if its text is one of another assembler's.
pub fn respelled(kind: Operand, text: &str) -> Option<Spelling<'_>> {
    match kind {
        Operand::Scalar(_) => match first_scalar(text) {
            Some(name) => Some(Spelling::Scalar(name, text)),
            None => scalar(text).map(Spelling::Register),
        },
        Operand::SpRegister => sp_register(text).map(Spelling::Register),
        Operand::ControlRegister => control(text).map(Spelling::Register),
        Operand::ScalarMemory | Operand::VectorMemory(_) => memory_operand(kind, text),
        Operand::ShiftAmount | Operand::Signed | Operand::Unsigned => number(kind, text),
        Operand::JumpTarget | Operand::BranchTarget => number(kind, text),
        _ => vector(kind, text.as_bytes()),
    }
}

/// The index of a name in a list, in either case.
fn index_of(name: &str, names: &[&str]) -> Option<usize> {
    for (index, other) in names.iter().enumerate() {
        if is_same(name, other) {
            return Some(index);
        }
    }
    None
}

/// The number at the start of a text, of one or two digits, and what follows it.
pub(crate) fn leading_number(text: &[u8]) -> Option<(u8, &[u8])> {
    match text {
        [a @ b'0'..=b'9', b @ b'0'..=b'9', rest @ ..] => {
            Some(((*a - b'0') * 10 + (*b - b'0'), rest))
        }
        [a @ b'0'..=b'9', rest @ ..] => Some((*a - b'0', rest)),
        _ => None,
    }
}

/// A text that is a number of one or two digits, and nothing else.
fn small_number(text: &str) -> Option<usize> {
    match leading_number(text.as_bytes()) {
        Some((number, [])) => Some(usize::from(number)),
        _ => None,
    }
}

/// The number of a register that is written as a scalar one.
pub(crate) fn scalar_number(text: &str) -> Option<usize> {
    small_number(text.strip_prefix('$')?)
}

/// A scalar register without `$`, by its name: `t0`, `r8`, `$08`, and `$v0` for `$2`. A number without a letter before it is none.
pub(crate) fn scalar(text: &str) -> Option<&str> {
    let name = text.strip_prefix('$').unwrap_or(text);
    if index_of(name, &SCALARS).is_some() {
        return Some(name);
    }
    let digits = name.strip_prefix(['r', 'R']).unwrap_or(name);
    let number = match index_of(name, &FIRST_SCALARS) {
        Some(number) => number,
        None if digits.len() < text.len() => small_number(digits)?,
        None => return None,
    };
    numbered_scalar(number)
}

/// The number of `v0` or `v1`, which are vector registers here.
fn first_scalar(text: &str) -> Option<&'static str> {
    match index_of(text.strip_prefix('$').unwrap_or(text), &["v0", "v1"])? {
        0 => Some("2"),
        _ => Some("3"),
    }
}

pub(crate) fn numbered_scalar(number: usize) -> Option<&'static str> {
    SCALAR_NUMBERS.get(number).copied()
}

/// An offset and a base register: with blanks, without an offset, or with a base that is written otherwise.
fn memory_operand(kind: Operand, text: &str) -> Option<Spelling<'_>> {
    let (offset, rest) = text.split_once('(')?;
    let (offset, base) = (offset.trim(), rest.trim().strip_suffix(')')?.trim());
    let base = scalar(base)?;
    match number_of(offset) {
        None if offset.is_empty() => Some(Spelling::Memory("0", base)),
        None if is_sum(offset) => Some(Spelling::Memory(offset, base)),
        None => None,
        Some(number) => match offset_of(kind, number)? {
            Offset::Bytes | Offset::Either(..) => Some(Spelling::Memory(offset, base)),
            Offset::Steps(bytes, step) => Some(Spelling::Steps {
                bytes,
                base,
                count: offset,
                step,
            }),
        },
    }
}

/// A number that is written otherwise: hexadecimal with `0X`, `$` or `h`, or binary.
fn number(kind: Operand, text: &str) -> Option<Spelling<'_>> {
    if let Some(digits) = text.strip_prefix("0X") {
        let value = i64::from(u32::from_str_radix(digits, 16).ok()?);
        return Some(if is_in_range(kind, value) {
            Spelling::Hexadecimal(digits)
        } else {
            Spelling::Digits(digits, text)
        });
    }
    if let Some(digits) = text.strip_prefix("0b").or(text.strip_prefix("0B")) {
        let value = u32::from_str_radix(digits, 2).ok()?;
        return if is_in_range(kind, i64::from(value)) {
            Some(Spelling::Number(value))
        } else {
            None
        };
    }
    let digits = match text.strip_suffix('h').or(text.strip_suffix('H')) {
        Some(digits) if digits.starts_with(|first: char| first.is_ascii_digit()) => digits,
        _ => text.strip_prefix('$')?,
    };
    if scalar(text).is_some() || scalar_number(text).is_some() {
        return None;
    }
    hexadecimal(digits, text)
}

/// Digits that a text has if it is a hexadecimal number.
fn hexadecimal<'a>(digits: &'a str, text: &'a str) -> Option<Spelling<'a>> {
    match u32::from_str_radix(digits, 16) {
        Ok(_) if !digits.starts_with('+') => Some(Spelling::Digits(digits, text)),
        _ => None,
    }
}

/// How a label that is missing is written if it was meant to be a hexadecimal number.
pub fn respelled_label(text: &str) -> Option<Spelling<'_>> {
    hexadecimal(text, text)
}

/// Whether an operand of this kind may be this number.
fn is_in_range(kind: Operand, number: i64) -> bool {
    match kind {
        Operand::ShiftAmount => matches!(number, 0..=31),
        Operand::JumpTarget | Operand::BranchTarget => {
            matches!(number, 0..=4092) && number % 4 == 0
        }
        _ => matches!(number, -32768..=65535),
    }
}

/// The number of an SP register, by its name.
pub fn sp_number(text: &str) -> Option<usize> {
    let name = text.strip_prefix('$').unwrap_or(text);
    let name = name.strip_prefix("COP0_").unwrap_or(name);
    index_of(name, &SP_REGISTERS)
        .or(index_of(name, &COP0_REGISTERS))
        .or(index_of(name, &SP_NUMBERS))
}

/// An SP register without `$`, by its name, or by its number as that of a scalar register.
fn sp_register(text: &str) -> Option<&'static str> {
    SP_NUMBERS
        .get(sp_number(text).or(scalar_number(text))?)
        .copied()
}

/// A control register without `$`, by its name, or by its number as that of a scalar register.
fn control(text: &str) -> Option<&'static str> {
    let name = text.strip_prefix("COP2_CTRL_").unwrap_or(text);
    let named = index_of(name, &CONTROLS);
    CONTROLS.get(named.or(scalar_number(text))?).copied()
}

/// A vector register of an instruction that takes this kind of one.
fn vector<'a>(kind: Operand, text: &[u8]) -> Option<Spelling<'a>> {
    let (register, rest) = vector_register(text)?;
    let element = element_of(rest)?;
    if let Some(readings) = readings_of(kind, register, element) {
        return Some(Spelling::Either(readings));
    }
    let shown = match kind {
        Operand::Vector(_) if matches!(element, Element::Whole) => Some(""),
        Operand::VectorElement => ELEMENTS.get(code_of(element)).copied(),
        Operand::VectorByte(_, elements) => byte_of(element, elements),
        Operand::VectorLane => lane_of(element),
        _ => None,
    };
    Some(Spelling::Vector(register, shown?))
}

/// A vector register whose element is written as a code or as a lane, by the same letter or by none.
fn readings_of(kind: Operand, register: u8, element: Element) -> Option<Readings> {
    match (kind, element) {
        (
            Operand::VectorElement,
            Element::Bracketed(b'e', number @ 0..=7) | Element::Bracketed(b' ', number @ 8..=15),
        ) => Readings::of_computing(register, number),
        (Operand::VectorByte(_, ByteElements::All), Element::Bracketed(b'e', number @ 1..=7)) => {
            Readings::of_transfer(register, number)
        }
        _ => None,
    }
}

/// The number of a vector register, with or without `$`, and what follows it.
pub(crate) fn vector_register(text: &[u8]) -> Option<(u8, &[u8])> {
    let digits = match text {
        [b'$', b'v' | b'V', rest @ ..] => rest,
        [b'v' | b'V', rest @ ..] => rest,
        _ => return None,
    };
    match leading_number(digits) {
        Some((number, rest)) if number < 32 => Some((number, rest)),
        _ => None,
    }
}

/// The element by the text after a vector register.
fn element_of(text: &[u8]) -> Option<Element> {
    match text {
        [] => Some(Element::Whole),
        [b'.', letter, digits @ ..] => match leading_number(digits) {
            Some((number, [])) => Some(Element::Dotted(letter.to_ascii_lowercase(), number)),
            _ => None,
        },
        [b'[', inside @ .., b']'] => bracketed(inside),
        _ => None,
    }
}

/// The element by the text between brackets, with the letter before or after the number.
fn bracketed(inside: &[u8]) -> Option<Element> {
    match leading_number(inside) {
        Some((number, [])) => Some(Element::Bracketed(b' ', number)),
        Some((number, [letter])) => Some(Element::Bracketed(letter.to_ascii_lowercase(), number)),
        Some(_) => None,
        None => match inside {
            [letter, digits @ ..] => match leading_number(digits) {
                Some((number, [])) => Some(Element::Bracketed(letter.to_ascii_lowercase(), number)),
                _ => None,
            },
            [] => None,
        },
    }
}

/// The code of a computing instruction's element; 16 of what is none.
fn code_of(element: Element) -> usize {
    let code = match element {
        Element::Whole => 0,
        Element::Dotted(b'e', lane @ 0..=7) => 8 + lane,
        Element::Bracketed(b'w' | b' ', lane @ 0..=7) => 8 + lane,
        Element::Dotted(b'h', half @ 0..=3) | Element::Bracketed(b'h', half @ 0..=3) => 4 + half,
        Element::Dotted(b'q', pair @ 0..=1) | Element::Bracketed(b'q', pair @ 0..=1) => 2 + pair,
        Element::Bracketed(b'e', code @ 8..=15) => code,
        _ => 16,
    };
    usize::from(code)
}

/// The byte of a vector register in loads, stores and moves, where others may write a lane.
fn byte_of(element: Element, elements: ByteElements) -> Option<&'static str> {
    let byte = match element {
        Element::Whole => return Some(""),
        Element::Dotted(b'e', lane @ 0..=7) => 2 * lane,
        Element::Bracketed(b'e' | b' ', byte) => byte,
        _ => return None,
    };
    match elements {
        ByteElements::Halves if !byte.is_multiple_of(8) => None,
        _ => BYTES.get(usize::from(byte)).copied(),
    }
}

/// The lane of a vector register in divides.
fn lane_of(element: Element) -> Option<&'static str> {
    let lane = match element {
        Element::Dotted(b'e', lane @ 0..=7) => lane,
        Element::Bracketed(b'e' | b'w' | b' ', lane @ 0..=7) => lane,
        _ => return None,
    };
    BYTES.get(usize::from(lane)).copied()
}

/// How an operand of this kind is written here, if it is out of its range as another assembler's is.
pub fn respelled_in_range<'a>(kind: Operand, text: &'a str) -> Option<Spelling<'a>> {
    match kind {
        Operand::JumpTarget | Operand::BranchTarget => target_in_imem(text),
        Operand::VectorMemory(_) => match memory_operand(kind, text) {
            Some(spelling) if !spelling.is_sure() => Some(spelling),
            _ => None,
        },
        _ => None,
    }
}

/// The target of a jump of code that was linked elsewhere. The last three digits are its address in IMEM.
fn target_in_imem(text: &str) -> Option<Spelling<'_>> {
    match text.as_bytes() {
        [b'0', b'x', _, .., _, _, b'0' | b'4' | b'8' | b'c' | b'C'] => {
            let (_, digits) = text.split_at(text.floor_char_boundary(text.len() - 3));
            Some(Spelling::Hexadecimal(digits))
        }
        _ => None,
    }
}
