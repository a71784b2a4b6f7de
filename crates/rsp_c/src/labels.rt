// The labels of a text.

ghost use Rattle.std.specs.Prelude.{◌≡◌, ◌<◌, ◌%◌, ◌↔◌, ◌⊎◌, ℕ, IsOk, length, map, take, drop};
ghost use Rattle.std.specs.Str.{IsUtf8};
ghost use Rattle.std.specs.Str.Lines.{lines};
ghost use Rattle.rsp_syntax.specs.SourceText.{meaning_of_text, all_labels};
ghost use Rattle.rsp_asm.specs.AssembleFaults.{HidesNoFault};
ghost use Rattle.rsp_asm.specs.LabelList.{listed};

use crate::status::{NO_MEANING, NO_MEMORY, NO_ROOM, OK, OUT_OF_RANGE};
use rsp_asm::{AsmFaultKind, Label as RspLabel, assemble, labels_of};
use std::alloc::Global;
use std::str;

/// The labels of a text in UTF-8 with their addresses, in the order of their lines; the first word is for the address `origin`, a multiple of
/// 4 up to 4096. `count` gets how many they are, also with NO_ROOM, if they are more than the buffer has. NO_MEANING if the text isn't UTF-8
/// or has a fault, which `brsp_assemble` reports. NO_MEMORY if an allocation failed: the text has no fault,
/// or no line up to one with a label has a fault that is found without the other lines' labels.
#[unsafe(no_mangle)]
pub extern "C" fn brsp_labels(
    alloc: Global,
    origin: u32,
    text: &[u8],
    labels: &mut [RspLabel],
    count: &mut usize,
) -> u32
    ensures range { (result ≡ OUT_OF_RANGE) ↔ ((4096 < origin) ⊎ ¬ (origin % 4 ≡ 0)) }
    ensures means { (result ≡ OK) ⊎ (result ≡ NO_ROOM) → IsOk (meaning_of_text text.now origin) }
    ensures labels { result ≡ OK → take count.new labels.new ≡ map listed (all_labels origin (lines text.now)) }
    ensures rest { result ≡ OK → drop count.new labels.new ≡ drop count.new labels.old }
    ensures count { (result ≡ OK) ⊎ (result ≡ NO_ROOM) → count.new ≡ length (all_labels origin (lines text.now)) }
    ensures room { result ≡ NO_ROOM → length labels.old < count.new }
    ensures fault { result ≡ NO_MEANING → IsUtf8 text.now → ¬ (IsOk (meaning_of_text text.now origin)) }
    ensures no_text { ¬ (IsUtf8 text.now) → (result ≡ OUT_OF_RANGE) ⊎ (result ≡ NO_MEANING) }
    ensures hides { result ≡ NO_MEMORY → IsOk (meaning_of_text text.now origin) ⊎ ((line : ℕ) × HidesNoFault origin (lines text.now) line) }
    ensures refused { (result ≡ OK → ⊥) → labels.new ≡ labels.old }
    ensures kept { (result ≡ OK → ⊥) → (result ≡ NO_ROOM → ⊥) → count.new ≡ count.old }
    ensures answer { (result ≡ OK) ⊎ (result ≡ NO_MEMORY) ⊎ (result ≡ OUT_OF_RANGE) ⊎ (result ≡ NO_MEANING) ⊎ (result ≡ NO_ROOM) }
{
    if origin > 4096 || origin % 4 != 0 {
        return OUT_OF_RANGE;
    }
    let Ok(text) = str::from_utf8(text) else {
        return NO_MEANING;
    };
    if let Err(fault) = assemble(alloc, origin as u16, text) {
        return match fault.kind {
            AsmFaultKind::OutOfMemory => NO_MEMORY,
            _ => NO_MEANING,
        };
    }
    let Ok(found) = labels_of(alloc, origin as u16, text) else {
        return NO_MEMORY;
    };
    let n = found.len();
    *count = n;
    if n > labels.len() {
        return NO_ROOM;
    }
    labels[..n].copy_from_slice(found.as_slice());
    OK
}
