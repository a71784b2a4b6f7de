// What may be meant where a text of another assembler has the element of a vector register, or an offset, as an operand of its own.

use crate::fits::{Operands, is_label, number_of};
use crate::names::is_same;
use crate::spelling::{
    BYTES, ELEMENTS, Spelling, leading_number, respelled, scalar, scalar_number, vector_register,
};
use rsp_decode::Operand;
use std::fmt::{self, Display, Formatter, Write};

/// A vector register with an element: the two that the element's number may be.
#[derive(Clone, Copy)]
pub struct Readings {
    register: u8,
    number: u8,
    /// What the number is in the first case, and the element then.
    meaning: &'static str,
    element: &'static str,
    /// The element if the number is that of a lane; empty if no lane has it.
    lane: &'static str,
}

impl Readings {
    /// Of a computing instruction: the number is in the instruction, or a lane.
    pub(crate) fn of_computing(register: u8, number: u8) -> Option<Readings> {
        Some(Readings {
            register,
            number,
            meaning: "the element's code",
            element: ELEMENTS.get(usize::from(number))?,
            lane: if number < 8 {
                BYTES.get(usize::from(number))?
            } else {
                ""
            },
        })
    }

    /// Of a load, a store or a move: the number is a byte, or a lane.
    pub(crate) fn of_transfer(register: u8, number: u8) -> Option<Readings> {
        Some(Readings {
            register,
            number,
            meaning: "a byte",
            element: BYTES.get(usize::from(number))?,
            lane: if number < 8 {
                BYTES.get(2 * usize::from(number))?
            } else {
                ""
            },
        })
    }
}

impl Display for Readings {
    fn fmt<W: Write>(&self, f: &mut Formatter<W>) -> fmt::Result {
        let Readings {
            register,
            number,
            meaning,
            element,
            lane,
        } = self;
        write!(f, "$v{register}{element} if {number} is {meaning}")?;
        if lane.is_empty() {
            return Ok(());
        }
        write!(f, ", $v{register}{lane} if it is a lane")
    }
}

/// The number of an element that is an operand: `3`, `0x3`, `[3]`, `e3` or `e(3)`.
fn element_number(text: &str) -> Option<u8> {
    let text = text.strip_prefix('e').unwrap_or(text);
    let inside = text
        .strip_prefix('(')
        .or(text.strip_prefix('['))
        .unwrap_or(text);
    let digits = inside
        .strip_suffix(')')
        .or(inside.strip_suffix(']'))
        .unwrap_or(inside);
    match (leading_number(digits.as_bytes()), number_of(digits)) {
        (Some((number @ 0..=15, [])), _) => Some(number),
        (_, Some(number @ 0..=15)) => u8::try_from(number).ok(),
        _ => None,
    }
}

/// The vector register of a text, if nothing follows it.
fn whole_register(text: &str) -> Option<u8> {
    match vector_register(text.as_bytes())? {
        (register, []) => Some(register),
        _ => None,
    }
}

/// What an operand too many may mean, which follows an operand of this text. None if it means nothing that is known.
pub fn of_extra(name: &str, before: &str, text: &str) -> Option<Readings> {
    let number = element_number(text)?;
    let register = whole_register(before)?;
    if name.ends_with("c2") {
        Readings::of_transfer(register, number)
    } else {
        Readings::of_computing(register, number)
    }
}

/// The registers of a divide or a `vmov`, each with its element as an operand of its own.
#[derive(Clone, Copy)]
pub struct Lanes<'a> {
    name: &'a str,
    register: u8,
    lane: &'static str,
    source: Readings,
}

impl Display for Lanes<'_> {
    fn fmt<W: Write>(&self, f: &mut Formatter<W>) -> fmt::Result {
        let Lanes {
            name,
            register,
            lane,
            source,
        } = self;
        write!(f, "{name} $v{register}{lane}, {source}")
    }
}

/// The two registers of an instruction whose four operands are each of them and its element. None if one can't be read.
pub fn of_lanes<'a>(name: &'a str, operands: &Operands<'a>) -> Option<Lanes<'a>> {
    let [register, lane, source, element] = operands.first;
    let lane = element_number(lane)?;
    if operands.count != 4 || lane > 7 {
        return None;
    }
    Some(Lanes {
        name,
        register: whole_register(register)?,
        lane: BYTES.get(usize::from(lane))?,
        source: Readings::of_computing(whole_register(source)?, element_number(element)?)?,
    })
}

/// A computing instruction without one of its three operands, as another assembler writes it whose first source is the first operand.
#[derive(Clone, Copy)]
pub struct Shortened<'a> {
    name: &'a str,
    register: u8,
    source: Spelling<'a>,
}

impl Display for Shortened<'_> {
    fn fmt<W: Write>(&self, f: &mut Formatter<W>) -> fmt::Result {
        let Shortened {
            name,
            register,
            source,
        } = self;
        write!(
            f,
            "{name} $v{register}, $v{register}, {source} if $v{register} is a source, too"
        )
    }
}

/// The three operands of a computing instruction that has two. None if it has more or fewer, or one of them can't be read.
pub fn of_shortened<'a>(name: &'a str, operands: &Operands<'a>) -> Option<Shortened<'a>> {
    let [register, source, _, _] = operands.first;
    let register = whole_register(register)?;
    let source = respelled(Operand::VectorElement, source)?;
    if operands.count != 2 || !source.is_sure() {
        return None;
    }
    Some(Shortened {
        name,
        register,
        source,
    })
}

/// The vector register of a move, which another assembler writes by its number and without an element.
#[derive(Clone, Copy)]
pub struct Moved(usize);

impl Display for Moved {
    fn fmt<W: Write>(&self, f: &mut Formatter<W>) -> fmt::Result {
        let register = self.0;
        write!(
            f,
            "$v{register}[0] for lane 0, $v{register}[2] for lane 1, .. $v{register}[14] for lane 7: the element is a byte"
        )
    }
}

/// The vector register of `mtc2` or `mfc2` that has the text of a scalar one. None of another instruction or text.
pub fn of_moved(name: &str, text: &str) -> Option<Moved> {
    let register = scalar_number(text)?;
    if register < 32 && (is_same(name, "mtc2") || is_same(name, "mfc2")) {
        Some(Moved(register))
    } else {
        None
    }
}

/// What the number of an offset may be.
#[derive(Clone, Copy)]
pub(crate) enum Offset {
    /// Bytes.
    Bytes,
    /// Steps: so many bytes, in steps of so many.
    Steps(i64, u8),
    /// Bytes, or the same steps.
    Either(i64, u8),
}

/// What the offset of a load or a store may be. None if it is out of range either way.
pub(crate) fn offset_of(kind: Operand, offset: i64) -> Option<Offset> {
    let Operand::VectorMemory(step) = kind else {
        return if matches!(offset, -32768..=65535) {
            Some(Offset::Bytes)
        } else {
            None
        };
    };
    if step == 0 {
        return None;
    }
    let size = i64::from(step);
    let is_bytes = offset % size == 0 && offset >= -64 * size && offset <= 63 * size;
    if !matches!(offset, -64..=63) || size == 1 || offset == 0 {
        return if is_bytes { Some(Offset::Bytes) } else { None };
    }
    let bytes = offset.saturating_mul(size);
    Some(if is_bytes {
        Offset::Either(bytes, step)
    } else {
        Offset::Steps(bytes, step)
    })
}

/// The offset and the base of a load or a store that are two operands.
#[derive(Clone, Copy)]
pub struct Apart<'a> {
    /// The register with its element, if that is an operand before the offset, and not 0.
    register: Option<Readings>,
    offset: &'a str,
    base: &'a str,
    /// What the number of the offset may be.
    meaning: Offset,
}

impl Apart<'_> {
    /// Whether the text has one meaning.
    pub fn is_sure(&self) -> bool {
        self.register.is_none() && matches!(self.meaning, Offset::Bytes)
    }
}

impl Display for Apart<'_> {
    fn fmt<W: Write>(&self, f: &mut Formatter<W>) -> fmt::Result {
        let Apart { offset, base, .. } = *self;
        if let Some(register) = self.register {
            write!(f, "{register}; with ")?;
        }
        match self.meaning {
            Offset::Bytes => write!(f, "{offset}(${base})"),
            Offset::Steps(bytes, step) => write!(
                f,
                "{bytes}(${base}) if {offset} counts steps of {step} bytes"
            ),
            Offset::Either(bytes, step) => write!(
                f,
                "{offset}(${base}) if {offset} is bytes, {bytes}(${base}) if it counts steps of {step} bytes"
            ),
        }
    }
}

/// The offset and the base of a load or a store that has them as its last two operands, maybe after the element of its register. None if
/// one of them can't be read, or isn't in its range.
pub fn of_apart<'a>(kind: Operand, operands: &Operands<'a>) -> Option<Apart<'a>> {
    let [register, second, third, fourth] = operands.first;
    let (element, offset, base) = match operands.count {
        3 => (0, second, third),
        4 => (element_number(second)?, third, fourth),
        _ => return None,
    };
    let meaning = match number_of(offset) {
        Some(number) => offset_of(kind, number)?,
        None if is_label(offset) => Offset::Bytes,
        None => return None,
    };
    let register = if element == 0 {
        None
    } else {
        Some(Readings::of_transfer(whole_register(register)?, element)?)
    };
    Some(Apart {
        register,
        offset,
        base: scalar(base)?,
        meaning,
    })
}
