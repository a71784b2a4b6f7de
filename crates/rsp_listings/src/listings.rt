// Listings, and the words that they assemble to.

ghost use Rattle.std.specs.Prelude.{◌≡◌, ◌+◌, ◌*◌, ◌%◌, ◌≤◌, length, IfOk};
ghost use Rattle.std.specs.String.{string_bytes};
ghost use Rattle.rsp_syntax.specs.SourceLine.{text_of_lines};
ghost use Rattle.rsp_syntax.specs.Disassembly.{listing};

use rsp_asm::{AsmFaultKind, Words, assemble};
use rsp_dis::text_of;
use std::alloc::{AllocError, Global};

/// The disassembly of words in IMEM from an address on, with an LF after each line.
fn listing_of(alloc: Global, origin: u16, words: &[u32]) -> Result<String, AllocError>
    requires aligned { origin % 4 ≡ 0 }
    requires room { origin + 4 * length words.now ≤ 4096 }
    ensures { IfOk result (λ text. string_bytes text ≡ text_of_lines (listing origin words.now)) }
{
    let mut text = String::new(alloc);
    for i in 0..words.len() {
        text.push_str(text_of(words[i], origin + 4 * i as u16).as_str())?;
        text.push_str("\n")?;
    }
    Ok(text)
}

/// Disassembles words of IMEM from an address on and assembles the listing at that address. The result is the same words.
/// AllocError if there is no memory for the text or for the assembler.
pub fn assembled_listing(alloc: Global, origin: u16, words: &[u32]) -> Result<Words, AllocError>
    requires aligned { origin % 4 ≡ 0 }
    requires room { origin + 4 * length words.now ≤ 4096 }
    ensures { IfOk result (λ again. again.items ≡ words.now) }
{
    let text = listing_of(alloc, origin, words)?;
    match assemble(alloc, origin, &text) {
        Ok(again) => Ok(again),
        Err(fault) => match fault.kind {
            AsmFaultKind::OutOfMemory => Err(AllocError),
            _ => unreachable!(),
        },
    }
}
