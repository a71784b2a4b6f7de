// Texts: from a source to words, and from words to their disassembly.

ghost use Rattle.std.specs.Prelude.{◌≡◌, ◌+◌, ◌-◌, ◌*◌, ◌++◌, ◌<◌, ◌≤◌, ◌%◌, ◌↔◌, ◌⊎◌, All, Ok, MatchResult, length, take, drop, replicate};
ghost use Rattle.std.specs.Str.{IsUtf8};
ghost use Rattle.std.specs.Str.Lines.{lines};
ghost use Rattle.rsp_syntax.specs.SourceText.{meaning_of_text};
ghost use Rattle.rsp_asm.specs.AssembleFaults.{HidesNoFault};
ghost use Rattle.rsp_c.specs.Answers.{fault_number, address_status};
ghost use Rattle.rsp_c.specs.Calls.{IsDoneIf, IsFilled};
ghost use Rattle.rsp_c.specs.ToC.{c_line, c_lines, IsEnded, assembled_words, assembled_fault, assembled_no_memory, assembled_no_text};

use crate::c_structs::{RspAssembled, RspLine};
use crate::handle::{RspMachine, with_held};
use crate::status::{
    NO_MEANING, NO_MEMORY, NO_ROOM, OK, OUT_OF_RANGE, fault_number, is_imem_address,
};
use rsp_asm::{AsmFaultKind, assemble};
use rsp_dis::text_of;
use rsp_memory::SpMem;
use std::alloc::Global;
use std::str;

/// The number of the fault of a text that isn't UTF-8.
const NOT_TEXT: u32 = 33;

/// The words of a text in UTF-8, at most 1024; the first one is for the address `origin`, a multiple of 4 up to 4096. NO_MEANING if the
/// text has a fault, which `out` then has. NO_ROOM if there are more words than the buffer has: `out` then has their count. NO_MEMORY if an
/// allocation failed: `out` then has fault 17 and the line of the label that had no memory, and no line up to that one has a fault that is
/// found without the other lines' labels.
#[unsafe(no_mangle)]
pub extern "C" fn brsp_assemble(
    alloc: Global,
    origin: u32,
    text: &[u8],
    words: &mut [u32],
    out: &mut RspAssembled,
) -> u32
    ensures range { (result ≡ OUT_OF_RANGE) ↔ ((4096 < origin) ⊎ ¬ (origin % 4 ≡ 0)) }
    ensures words { result ≡ OK → meaning_of_text text.now origin ≡ Ok (take out.new.count words.new) }
    ensures rest { result ≡ OK → drop out.new.count words.new ≡ drop out.new.count words.old }
    ensures count { result ≡ OK → out.new.count ≤ length words.new }
    ensures told { result ≡ OK → out.new ≡ assembled_words out.new.count }
    ensures fault { result ≡ NO_MEANING → IsUtf8 text.now → MatchResult (meaning_of_text text.now origin) (λ _. ⊥) (λ f. out.new ≡ assembled_fault f) }
    ensures no_text { ¬ (IsUtf8 text.now) → (result ≡ OUT_OF_RANGE) ⊎ ((result ≡ NO_MEANING) × (out.new ≡ assembled_no_text)) }
    ensures room { result ≡ NO_ROOM → MatchResult (meaning_of_text text.now origin) (λ found. length words.old < length found) (λ _. ⊥) }
    ensures needed { result ≡ NO_ROOM → MatchResult (meaning_of_text text.now origin) (λ found. out.new ≡ assembled_words (length found)) (λ _. ⊥) }
    ensures memory { result ≡ NO_MEMORY → out.new ≡ assembled_no_memory out.new.line }
    ensures hides { result ≡ NO_MEMORY → HidesNoFault origin (lines text.now) out.new.line }
    ensures refused { (result ≡ OK → ⊥) → words.new ≡ words.old }
    ensures unreported { result ≡ OUT_OF_RANGE → out.new ≡ out.old }
    ensures answer { (result ≡ OK) ⊎ (result ≡ NO_MEMORY) ⊎ (result ≡ OUT_OF_RANGE) ⊎ (result ≡ NO_MEANING) ⊎ (result ≡ NO_ROOM) }
{
    if origin > 4096 || origin % 4 != 0 {
        return OUT_OF_RANGE;
    }
    let Ok(text) = str::from_utf8(text) else {
        *out = RspAssembled {
            count: 0,
            line: 0,
            fault: NOT_TEXT,
        };
        return NO_MEANING;
    };
    match assemble(alloc, origin as u16, text) {
        Err(fault) => {
            *out = RspAssembled {
                count: 0,
                line: fault.line,
                fault: fault_number(fault.kind),
            };
            match fault.kind {
                AsmFaultKind::OutOfMemory => NO_MEMORY,
                _ => NO_MEANING,
            }
        }
        Ok(found) => {
            let count = found.len();
            *out = RspAssembled {
                count,
                line: 0,
                fault: 0,
            };
            if count > words.len() {
                return NO_ROOM;
            }
            words[..count].copy_from_slice(found.as_slice());
            OK
        }
    }
}

/// At most 64 bytes, and zeros after them.
fn padded(bytes: &[u8]) -> [u8; 68]
    requires { length bytes.now ≤ 64 }
    ensures { result ≡ bytes.now ++ replicate (68 - length bytes.now) 0 }
{
    let mut text = [0; 68];
    text[..bytes.len()].copy_from_slice(bytes);
    text
}

/// A word of IMEM with its disassembly.
fn line_of(word: u32, address: u16) -> RspLine
    requires { address < 4096 }
    ensures value { result ≡ c_line word address }
    ensures ended { IsEnded result }
{
    let line = text_of(word, address);
    let bytes = line.as_str().as_bytes();
    let text = padded(bytes);
    RspLine {
        word,
        address,
        len: bytes.len() as u16,
        text,
    }
}

/// Disassembles a word for an address of IMEM, a multiple of 4 below 4096. The text has at most 64 bytes, and a zero after it.
#[unsafe(no_mangle)]
pub extern "C" fn brsp_text(word: u32, address: u32, out: &mut RspLine) -> u32
    ensures answer { result ≡ address_status address }
    ensures value { result ≡ OK → out.new ≡ c_line word address }
    ensures ended { result ≡ OK → IsEnded out.new }
    ensures refused { (result ≡ OK → ⊥) → out.new ≡ out.old }
{
    if !is_imem_address(address) {
        return OUT_OF_RANGE;
    }
    *out = line_of(word, address as u16);
    OK
}

/// The words of IMEM from an address on, with their disassembly.
#[tactic(auto, using(crate::proofs::Lines::listing))]
fn fill_lines(imem: &SpMem, address: u16, lines: &mut [RspLine])
    requires { address + 4 * length lines.old ≤ 4096 }
    ensures value { lines.new ≡ c_lines imem.now address (length lines.old) }
    ensures ended { All IsEnded lines.new }
{
    for i in 0..lines.len() {
        let at = address + 4 * i as u16;
        lines[i] = line_of(imem.word(u32::from(at)), at);
    }
}

/// Disassembles the words of IMEM from an address on, a multiple of 4 below 4096, as many as there are lines for them. Each text has at most
/// 64 bytes, and a zero after it. OUT_OF_RANGE if the words pass the end of IMEM.
#[unsafe(no_mangle)]
pub extern "C" fn brsp_listing(
    handle: &mut RspMachine,
    alloc: Global,
    address: u32,
    lines: &mut [RspLine],
) -> u32
    ensures range { IsDoneIf (λ d. (address % 4 ≡ 0) × (address < 4096) × (address + 4 * length lines.old ≤ 4096)) handle.old.debugger result }
    ensures value { IsFilled result (λ d. c_lines d.state.imem address (length lines.old)) handle.old.debugger lines.old lines.new }
    ensures ended { result ≡ OK → All IsEnded lines.new }
    ensures same { handle.new.debugger ≡ handle.old.debugger }
{
    let is_right = is_imem_address(address) && lines.len() <= (4096 - address as usize) / 4;
    with_held!(handle, alloc, |debugger| if is_right => do {
        fill_lines(debugger.machine().imem(), address as u16, lines)
    })
}
