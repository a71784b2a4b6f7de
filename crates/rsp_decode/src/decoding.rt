// Words to instructions, by nested matches on fields.

ghost use Rattle.std.specs.Prelude.{◌≡◌, ◌↔◌, IfSome, IsTrue};
ghost use Rattle.rsp_decode.specs.Visit.{is_instruction, after_visit};
ghost use Rattle.rsp_decode.specs.Table.{inst_of, canonical_of, word_of, IsInstruction};

mod scalar;
mod vector;

use crate::bit_fields::bits;
use crate::encoding::encode;
use crate::inst::Inst;
use crate::visitor::{LastInst, Visitor};
use scalar::{visit_cop0, visit_opcode, visit_regimm, visit_special};
use vector::{visit_computing, visit_cop2, visit_lwc2, visit_swc2};

/// The instruction of a word, by the instruction table: None exactly for a reserved word, which no row of the table fits.
/// Bits that neither select the row nor belong to a named field are ignored.
#[inline]
#[tactic(auto, using(crate::proofs::InstructionOfWord::decoded, crate::proofs::InstructionOfWord::decoded_instruction))]
pub fn decode(word: u32) -> Option<Inst>
    ensures value { result ≡ inst_of word }
    // The fields are in the ranges of `Inst`, and `encode` gives the word's canonical form.
    ensures instruction { IfSome result IsInstruction }
    ensures canonical { IfSome result (λ i. canonical_of word ≡ Some (word_of i)) }
{
    let mut kept = LastInst { inst: None };
    visit(word, &mut kept);
    kept.inst
}

/// Decodes a word and hands its instruction, that of [`decode`], to a visitor. Returns whether there is one: for a reserved
/// word it returns false, and the visitor is unchanged.
#[inline(always)]
#[tactic(auto, using(crate::proofs::Keys::keys))]
pub fn visit<V: Visitor>(word: u32, visitor: &mut V) -> bool
    ensures known { result ≡ is_instruction (inst_of word) }
    ensures state { visitor.new ≡ after_visit V.after (inst_of word) visitor.old }
{
    let opcode = bits(word, 26, 6);
    match opcode {
        0 => visit_special(word, visitor),
        1 => visit_regimm(word, visitor),
        16 => visit_cop0(word, visitor),
        18 => {
            if bits(word, 25, 1) == 1 {
                visit_computing(word, visitor)
            } else {
                visit_cop2(word, visitor)
            }
        }
        50 => visit_lwc2(word, visitor),
        58 => visit_swc2(word, visitor),
        _ => visit_opcode(word, visitor),
    }
}

/// Whether a word is the canonical one of its instruction: each bit that neither selects the row nor belongs to a named
/// field is 0. False for a reserved word.
#[inline]
#[tactic(auto, using(crate::proofs::InstructionOfWord::reserved))]
pub fn is_canonical(word: u32) -> bool
    ensures { IsTrue result ↔ (canonical_of word ≡ Some word) }
{
    match decode(word) {
        Some(inst) => encode(&inst) == word,
        None => false,
    }
}
