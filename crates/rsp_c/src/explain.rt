// The operand for which a text is refused.

ghost use Rattle.std.specs.Prelude.{◌≡◌, ◌<◌, ◌%◌, ◌↔◌, ◌⊎◌, ℕ, Some};
ghost use Rattle.std.specs.Str.{IsUtf8};
ghost use Rattle.std.specs.Str.Lines.{lines};
ghost use Rattle.rsp_asm.specs.AssembleFaults.{HidesNoFault};
ghost use Rattle.rsp_asm.specs.Explanations.{explanation};
ghost use Rattle.rsp_c.specs.Explained.{kind_number, c_operand};

use crate::status::{NO_MEANING, NO_MEMORY, OK, OUT_OF_RANGE};
use rsp_asm::{Bounds, Expected, FaultyOperand, explain};
use rsp_decode::Operand;
use std::alloc::Global;
use std::str;

/// The operand for which a text is refused.
#[repr(C)]
#[derive(Clone, Copy, Drop)]
pub struct RspOperand {
    /// The lowest number that it may be, if it has a range; else 0.
    pub low: i64,
    /// The highest one.
    pub high: i64,
    /// Its number in its line, from 1; 0 if the text isn't refused for an operand.
    pub number: usize,
    /// What the statement takes there: a `BRSP_OPERAND_` of `brsp.h`.
    pub kind: u32,
    /// If it has a range, each number is a multiple of this; else 0.
    pub step: u32,
}

/// The number of what a statement takes.
fn kind_number(expected: Expected) -> u32
    ensures { result ≡ kind_number expected }
{
    match expected {
        Expected::Nothing => 0,
        Expected::Number => 1,
        Expected::Kind(kind) => match kind {
            Operand::Scalar(_) => 2,
            Operand::ShiftAmount => 3,
            Operand::Signed | Operand::Unsigned => 4,
            Operand::JumpTarget => 5,
            Operand::BranchTarget => 6,
            Operand::ScalarMemory => 7,
            Operand::VectorMemory(_) => 8,
            Operand::SpRegister => 9,
            Operand::ControlRegister => 10,
            Operand::Vector(_) => 11,
            Operand::VectorByte(_, _) => 12,
            Operand::VectorElement => 13,
            Operand::VectorLane => 14,
        },
    }
}

/// An operand as the header has it.
fn operand_of(found: Option<FaultyOperand>) -> RspOperand
    ensures { result ≡ c_operand found }
{
    let Some(FaultyOperand { number, expected }) = found else {
        return RspOperand {
            low: 0,
            high: 0,
            number: 0,
            kind: 0,
            step: 0,
        };
    };
    let kind = kind_number(expected);
    match expected.bounds() {
        None => RspOperand {
            low: 0,
            high: 0,
            number,
            kind,
            step: 0,
        },
        Some(Bounds { low, high, step }) => RspOperand {
            low,
            high,
            number,
            kind,
            step: u32::from(step),
        },
    }
}

/// The operand for which `brsp_assemble` refuses a text, and what it may be. NO_MEANING if the text isn't UTF-8, NO_MEMORY if an
/// allocation failed: no line up to one with a label has a fault that is found without the other lines' labels.
#[unsafe(no_mangle)]
pub extern "C" fn brsp_explain(alloc: Global, origin: u32, text: &[u8], out: &mut RspOperand) -> u32
    ensures range { (result ≡ OUT_OF_RANGE) ↔ ((4096 < origin) ⊎ ¬ (origin % 4 ≡ 0)) }
    ensures value { result ≡ OK → out.new ≡ c_operand (explanation origin (lines text.now)) }
    ensures no_text { ¬ (IsUtf8 text.now) → (result ≡ OUT_OF_RANGE) ⊎ (result ≡ NO_MEANING) }
    ensures text { IsUtf8 text.now → ¬ (result ≡ NO_MEANING) }
    ensures hides { result ≡ NO_MEMORY → (line : ℕ) × HidesNoFault origin (lines text.now) line }
    ensures refused { (result ≡ OK → ⊥) → out.new ≡ out.old }
    ensures answer { (result ≡ OK) ⊎ (result ≡ NO_MEMORY) ⊎ (result ≡ OUT_OF_RANGE) ⊎ (result ≡ NO_MEANING) }
{
    if origin > 4096 || origin % 4 != 0 {
        return OUT_OF_RANGE;
    }
    let Ok(text) = str::from_utf8(text) else {
        return NO_MEANING;
    };
    match explain(alloc, origin as u16, text) {
        Ok(found) => {
            *out = operand_of(found);
            OK
        }
        Err(_) => NO_MEMORY,
    }
}
