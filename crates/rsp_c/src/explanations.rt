// What is said of the faults of a text, and of a reply to a script.

ghost use Rattle.std.specs.Prelude.{◌≡◌, ◌<◌, ◌≤◌, ◌%◌, ◌++◌, ◌↔◌, ◌⊎◌, ℕ, List, length, take, drop};
ghost use Rattle.std.specs.Str.{IsUtf8};
ghost use Rattle.rsp_syntax.specs.SourceText.{meaning_of_text};
ghost use Rattle.rsp_explain.specs.declared.head.Head.TheVariants.{Input};
ghost use Rattle.rsp_explain.specs.Said.{AreExplained, IsExplained, text_faults};
ghost use Rattle.rsp_explain.specs.Replies.{AreLinesExplained};

use crate::status::{NO_MEANING, NO_MEMORY, NO_ROOM, OK, OUT_OF_RANGE};
use rsp_explain::{Head, explain_lines, explain_text};
use std::alloc::Global;
use std::str;

/// Copies a text to the start of a buffer. `count` gets how many bytes it has, also with NO_ROOM, if they are more than the buffer has.
fn fill(text: &[u8], out: &mut [u8], count: &mut usize) -> u32
    ensures count { count.new ≡ length text.now }
    ensures value { result ≡ OK → out.new ≡ text.now ++ drop (length text.now) out.old }
    ensures fits { result ≡ OK → length text.now ≤ length out.old }
    ensures room { result ≡ NO_ROOM → length out.old < length text.now }
    ensures refused { (result ≡ OK → ⊥) → out.new ≡ out.old }
    ensures answer { (result ≡ OK) ⊎ (result ≡ NO_ROOM) }
{
    let n = text.len();
    *count = n;
    if n > out.len() {
        return NO_ROOM;
    }
    out[..n].copy_from_slice(text);
    OK
}

/// What `rsp asm --explain` says of a text in UTF-8 from standard input, whose first word is for the address `origin`, a multiple of 4 up to
/// 4096: nothing if the text has no fault. `count` gets how many bytes that is, also with NO_ROOM, if they are more than the buffer has.
/// NO_MEANING if the text isn't UTF-8, NO_MEMORY if an allocation failed.
#[unsafe(no_mangle)]
pub extern "C" fn brsp_explain_text(
    alloc: Global,
    origin: u32,
    text: &[u8],
    said: &mut [u8],
    count: &mut usize,
) -> u32
    ensures range { (result ≡ OUT_OF_RANGE) ↔ ((4096 < origin) ⊎ ¬ (origin % 4 ≡ 0)) }
    ensures faults { result ≡ OK → AreExplained Input 0 (text_faults text.now origin) (take count.new said.new) }
    ensures first { result ≡ OK → IsExplained Input 0 (meaning_of_text text.now origin) (take count.new said.new) }
    ensures fits { result ≡ OK → count.new ≤ length said.old }
    ensures rest { result ≡ OK → drop count.new said.new ≡ drop count.new said.old }
    ensures room { result ≡ NO_ROOM → length said.old < count.new }
    ensures needed { result ≡ NO_ROOM → (whole : List ℕ) × (count.new ≡ length whole) × AreExplained Input 0 (text_faults text.now origin) whole }
    ensures no_text { ¬ (IsUtf8 text.now) → (result ≡ OUT_OF_RANGE) ⊎ (result ≡ NO_MEANING) }
    ensures text { IsUtf8 text.now → ¬ (result ≡ NO_MEANING) }
    ensures refused { (result ≡ OK → ⊥) → said.new ≡ said.old }
    ensures kept { (result ≡ OK → ⊥) → (result ≡ NO_ROOM → ⊥) → count.new ≡ count.old }
    ensures answer { (result ≡ OK) ⊎ (result ≡ NO_MEMORY) ⊎ (result ≡ OUT_OF_RANGE) ⊎ (result ≡ NO_MEANING) ⊎ (result ≡ NO_ROOM) }
{
    if origin > 4096 || origin % 4 != 0 {
        return OUT_OF_RANGE;
    }
    let Ok(text) = str::from_utf8(text) else {
        return NO_MEANING;
    };
    match explain_text(alloc, Head::Input, 0, origin as u16, text) {
        Ok(found) => fill(found.as_str().as_bytes(), said, count),
        Err(_) => NO_MEMORY,
    }
}

/// What `rsp run --explain` says of a reply to these lines of a script from standard input, which has so many lines before them: a line with
/// a command, or a block from its `asm` on. It says nothing if the reply is no fault, or no line has a reply. `count` gets how many bytes
/// that is, also with NO_ROOM, if they are more than the buffer has. NO_MEMORY if an allocation failed.
#[unsafe(no_mangle)]
pub extern "C" fn brsp_explain_reply(
    alloc: Global,
    before: usize,
    lines: &[u8],
    reply: &[u8],
    said: &mut [u8],
    count: &mut usize,
) -> u32
    ensures said { result ≡ OK → AreLinesExplained Input before lines.now reply.now (take count.new said.new) }
    ensures fits { result ≡ OK → count.new ≤ length said.old }
    ensures rest { result ≡ OK → drop count.new said.new ≡ drop count.new said.old }
    ensures room { result ≡ NO_ROOM → length said.old < count.new }
    ensures needed { result ≡ NO_ROOM → (whole : List ℕ) × (count.new ≡ length whole) × AreLinesExplained Input before lines.now reply.now whole }
    ensures refused { (result ≡ OK → ⊥) → said.new ≡ said.old }
    ensures kept { (result ≡ OK → ⊥) → (result ≡ NO_ROOM → ⊥) → count.new ≡ count.old }
    ensures answer { (result ≡ OK) ⊎ (result ≡ NO_MEMORY) ⊎ (result ≡ NO_ROOM) }
{
    match explain_lines(alloc, Head::Input, before, lines, reply) {
        Ok(found) => fill(found.as_str().as_bytes(), said, count),
        Err(_) => NO_MEMORY,
    }
}
