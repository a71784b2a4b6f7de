ghost use Rattle.std.specs.Prelude.{◌≡◌, ℕ, ◌+◌, ◌-◌, ◌*◌, ◌/◌, ◌^◌, ◌<◌, ◌≤◌, [], ◌++◌, take, drop, length, slice_index};
ghost use Rattle.hex.specs.Hex.{encode_lower};
ghost use Rattle.rsp_regs.specs.Sp.{read_value};
ghost use Rattle.rsp_script_io.specs.Text.{each_text, hex_text};
ghost use Rattle.rsp_bench.specs.Looks.{word_text, register_line, registers_text, sp_line, sp_text, dump_line, dump_text, listed_line, listing_text};

use rsp_acc::Acc;
use rsp_debug::{Debugger, ListingLine};
use rsp_regs::SpRegs;
use rsp_script_io::{REPLY_LIMIT, Reply};

#[tactic(auto, using(rsp_script_io::proofs::Texts::parts), unfolding(crate::specs::Looks::word_text))]
fn push_word(reply: &mut Reply, word: u32)
    requires { length reply.old + 9 ≤ REPLY_LIMIT }
    ensures text { reply.new ≡ reply.old ++ word_text word }
    ensures len { length reply.new ≡ length reply.old + 9 }
{
    reply.push_text(b" ");
    reply.push_hex(word, 8);
}

/// Four registers, from `first` on.
#[tactic(auto, using(rsp_script_io::proofs::Texts::parts))]
fn push_four(reply: &mut Reply, words: &[u32; 32], first: u8)
    requires registers { first + 4 ≤ 32 }
    requires room { length reply.old + 36 ≤ REPLY_LIMIT }
    ensures text { reply.new ≡ reply.old ++ each_text (λ j. word_text (slice_index words.now (first + j))) 4 }
    ensures len { length reply.new ≡ length reply.old + 36 }
{
    for j in 0..4 {
        push_word(reply, words[usize::from(first + j)]);
    }
}

#[tactic(auto, using(rsp_script_io::proofs::Texts::parts), unfolding(crate::specs::Looks::register_line))]
fn push_register_line(reply: &mut Reply, words: &[u32; 32], k: u8)
    requires registers { k < 8 }
    requires room { length reply.old + 40 ≤ REPLY_LIMIT }
    ensures text { reply.new ≡ reply.old ++ register_line (λ n. slice_index words.now n) k }
    ensures len { length reply.new ≡ length reply.old + 40 }
{
    reply.push_text(b"r");
    reply.push_two_digits(4 * k);
    push_four(reply, words, 4 * k);
    reply.push_text(b"\n");
}

#[tactic(auto, using(rsp_script_io::proofs::Texts::parts))]
fn push_register_lines(reply: &mut Reply, words: &[u32; 32])
    requires { length reply.old + 320 ≤ REPLY_LIMIT }
    ensures { reply.new ≡ reply.old ++ each_text (register_line (λ n. slice_index words.now n)) 8 }
{
    for k in 0..8 {
        push_register_line(reply, words, k);
    }
}

/// `regs`: the program counters and the scalar registers.
#[tactic(auto, using(rsp_script_io::proofs::Texts::parts), unfolding(crate::specs::Looks::registers_text))]
pub(crate) fn put_registers<A: Acc>(reply: &mut Reply, debugger: &Debugger<A>)
    requires { reply.old ≡ [] }
    ensures { reply.new ≡ registers_text debugger.now.state }
{
    let registers = debugger.regs();
    reply.push_text(b"pc ");
    reply.push_hex(u32::from(registers.pc), 3);
    reply.push_text(b" npc ");
    reply.push_hex(u32::from(registers.npc), 3);
    reply.push_text(b"\n");
    push_register_lines(reply, &registers.words);
}

/// One SP register: its number, below 16, and its value.
#[tactic(auto, using(rsp_script_io::proofs::Texts::parts), unfolding(crate::specs::Looks::sp_line))]
pub(crate) fn push_sp_line(reply: &mut Reply, n: u8, value: u32)
    requires register { n < 16 }
    requires room { length reply.old + 13 ≤ REPLY_LIMIT }
    ensures text { reply.new ≡ reply.old ++ sp_line n value }
    ensures len { length reply.new ≤ length reply.old + 13 }
{
    reply.push_text(b"c");
    reply.push_decimal(n);
    push_word(reply, value);
    reply.push_text(b"\n");
}

#[tactic(auto, using(rsp_script_io::proofs::Texts::parts))]
fn push_sp_lines(reply: &mut Reply, sp: &SpRegs)
    requires { length reply.old + 208 ≤ REPLY_LIMIT }
    ensures text { reply.new ≡ reply.old ++ each_text (λ n. sp_line n (read_value n sp.now)) 16 }
    ensures len { length reply.new ≤ length reply.old + 208 }
{
    for n in 0..16 {
        push_sp_line(reply, n, sp.peek(u32::from(n)));
    }
}

/// The SP registers as they would read, and the interrupt flag.
#[tactic(auto, using(rsp_script_io::proofs::Texts::parts), unfolding(crate::specs::Looks::sp_text))]
pub(crate) fn put_sp_registers(reply: &mut Reply, sp: &SpRegs)
    requires { reply.old ≡ [] }
    ensures { reply.new ≡ sp_text sp.now }
{
    push_sp_lines(reply, sp);
    reply.push_text(b"interrupt ");
    reply.push_text(if sp.interrupt() { b"1\n" } else { b"0\n" });
}

/// Sixteen bytes, each as two hexadecimal digits. As many as most rows have, so that the loop over them is unrolled.
#[tactic(auto, using(crate::proofs::Digits::digits))]
fn push_row(reply: &mut Reply, row: &[u8; 16])
    requires { length reply.old + 32 ≤ REPLY_LIMIT }
    ensures text { reply.new ≡ reply.old ++ encode_lower row.now }
    ensures len { length reply.new ≡ length reply.old + 32 }
{
    let bytes: &[u8] = row;
    let mut digits = [0; 32];
    let _ = hex::encode_to_slice(bytes, &mut digits);
    reply.push_text(&digits);
}

/// At most 16 bytes, each as two hexadecimal digits.
#[tactic(auto, using(crate::proofs::Digits::digits))]
fn push_bytes(reply: &mut Reply, bytes: &[u8])
    requires few { length bytes.now ≤ 16 }
    requires room { length reply.old + 2 * length bytes.now ≤ REPLY_LIMIT }
    ensures text { reply.new ≡ reply.old ++ encode_lower bytes.now }
    ensures len { length reply.new ≡ length reply.old + 2 * length bytes.now }
{
    if let Some(row) = bytes.as_array::<16>() {
        return push_row(reply, row);
    }
    let mut digits = [0; 32];
    let text = &mut digits[..2 * bytes.len()];
    let _ = hex::encode_to_slice(bytes, text);
    reply.push_text(text);
}

#[tactic(auto, using(rsp_script_io::proofs::Texts::parts), unfolding(crate::specs::Looks::dump_line))]
fn push_dump_line(reply: &mut Reply, a: u32, bytes: &[u8])
    requires few { length bytes.now ≤ 16 }
    requires room { length reply.old + 41 ≤ REPLY_LIMIT }
    ensures text { reply.new ≡ reply.old ++ dump_line a bytes.now }
    ensures len { length reply.new ≤ length reply.old + 41 }
{
    reply.push_hex(a, 6);
    reply.push_text(b": ");
    push_bytes(reply, bytes);
    reply.push_text(b"\n");
}

/// The first bytes, at most 16.
fn first_line(bytes: &[u8]) -> &[u8]
    ensures value { result.now ≡ take 16 bytes.now }
    ensures few { length result.now ≤ 16 }
{
    &bytes[..bytes.len().min(16)]
}

/// Line `k` of the bytes at an address.
fn push_dump_row(reply: &mut Reply, a: u32, bytes: &[u8], k: usize)
    requires inside { 16 * k ≤ length bytes.now }
    requires below { a + length bytes.now < 2 ^ 31 }
    requires room { length reply.old + 41 ≤ REPLY_LIMIT }
    ensures text { reply.new ≡ reply.old ++ dump_line (a + 16 * k) (take 16 (drop (16 * k) bytes.now)) }
    ensures len { length reply.new ≤ length reply.old + 41 }
{
    let start = 16 * k;
    push_dump_line(reply, a + start as u32, first_line(&bytes[start..]));
}

/// `mem`: at most 256 bytes at an address, 16 in a line.
#[tactic(auto, using(rsp_script_io::proofs::Texts::parts), unfolding(crate::specs::Looks::dump_text))]
pub(crate) fn put_dump(reply: &mut Reply, a: u32, bytes: &[u8])
    requires below { a + length bytes.now < 2 ^ 31 }
    requires few { length bytes.now ≤ 256 }
    requires empty { reply.old ≡ [] }
    ensures { reply.new ≡ dump_text a bytes.now }
{
    for k in 0..(bytes.len() + 15) / 16 {
        push_dump_row(reply, a, bytes, k);
    }
}

#[tactic(auto, using(rsp_script_io::proofs::Texts::parts), unfolding(crate::specs::Looks::listed_line))]
fn push_listed_line(reply: &mut Reply, listed: &ListingLine)
    requires { length reply.old + 78 ≤ REPLY_LIMIT }
    ensures text { reply.new ≡ reply.old ++ listed_line listed.now }
    ensures len { length reply.new ≤ length reply.old + 78 }
{
    reply.push_hex(u32::from(listed.place), 3);
    push_word(reply, listed.word);
    reply.push_text(b" ");
    reply.push_text(listed.text.as_str().as_bytes());
    reply.push_text(b"\n");
}

/// `dis`: at most 64 words of IMEM with their disassembly, a line each.
#[tactic(auto, using(rsp_script_io::proofs::Texts::parts), unfolding(crate::specs::Looks::listing_text))]
pub(crate) fn put_listing(reply: &mut Reply, words: &[ListingLine])
    requires few { length words.now ≤ 64 }
    requires empty { reply.old ≡ [] }
    ensures { reply.new ≡ listing_text words.now }
{
    for listed in words {
        push_listed_line(reply, listed);
    }
}
