// Scripts: a bench that is given a script in pieces, and its replies.

ghost use Rattle.std.specs.Prelude.{◌≡◌, ◌+◌, ◌++◌, ◌<◌, ◌≤◌, ◌↔◌, ◌⊎◌, Some, None, true, IfSome, IfNone, IfOk, IsTrue, IsSomeAnd, length, take, drop, option_map};
ghost use Rattle.rsp_machine.specs.Host.{is_inside};
ghost use Rattle.rsp_memory.specs.Image.{IsImageLength};
ghost use Rattle.rsp_feed.specs.Bench.{first_bench, reply_to, bench_after, last_reply, bench_ended, bench_too_long, IsTooLong, LacksMemoryFor, LacksMemoryAtEnd};
ghost use Rattle.rsp_feed.specs.declared.bench.Stage.TheVariants as stage;
ghost use Rattle.rsp_bench.specs.Session.{in_block};
ghost use Rattle.rsp_script_io.specs.Feeds.{script_limit, taken_of};
ghost use Rattle.rsp_c.specs.Answers.{bank_of};
ghost use Rattle.rsp_c.specs.Bytes.{bank_bytes};
ghost use Rattle.rsp_c.specs.Calls.{IsDoneIf, IsNext};

use crate::handle::{RspSession, with_held};
use crate::held_session::HeldSession;
use crate::life::{is_image_length, rdram_of};
use crate::memory::bytes_of;
use crate::status::{
    ENDED, NO_MACHINE, NO_MEMORY, NO_ROOM, OK, OUT_OF_RANGE, TOO_LONG, bank_of, status_of_bench,
};
use rsp_bench::Reply;
use rsp_feed::Bench;
use std::alloc::{AllocError, Global};

/// How many bytes a buffer for replies needs: two replies.
const REPLIES: usize = 16384;

/// A bench whose machine has a copy of an image of the RDRAM. AllocError if out of memory.
#[inline(always)]
fn new_bench(alloc: Global, image: &[u8]) -> Result<Box<HeldSession, Global>, AllocError>
    requires { IsImageLength (length image.now) }
    ensures { IfOk result (λ held. held.value ≡ first_bench image.now) }
{
    let Ok(bench) = Bench::try_new(alloc, rdram_of(alloc, image)?) else {
        return Err(AllocError);
    };
    let reply = Reply::new();
    match Box::new(alloc, HeldSession { bench, reply }) {
        Err(_) => Err(AllocError),
        Ok(held) => Ok(held),
    }
}

/// Makes a bench whose machine has a copy of an image of the RDRAM, 64 to 8388608 bytes and a multiple of 8. What the handle held is
/// freed. OUT_OF_RANGE for another length, before anything is copied.
#[unsafe(no_mangle)]
pub extern "C" fn brsp_session_new(handle: &mut RspSession, alloc: Global, image: &[u8]) -> u32
    ensures ok { result ≡ OK → handle.new.bench ≡ Some (first_bench image.now) }
    ensures range { (result ≡ OUT_OF_RANGE) ↔ (¬ (IsImageLength (length image.now))) }
    ensures answer { (result ≡ OK) ⊎ (result ≡ NO_MEMORY) ⊎ (result ≡ OUT_OF_RANGE) }
    ensures same { (result ≡ OK → ⊥) → handle.new.bench ≡ handle.old.bench }
{
    if !is_image_length(image.len()) {
        return OUT_OF_RANGE;
    }
    match new_bench(alloc, image) {
        Err(_) => NO_MEMORY,
        Ok(held) => {
            let _freed = handle.take(alloc);
            handle.put(held);
            OK
        }
    }
}

/// Takes the next bytes of the script up to the first LF and with it, or all of them: `used` gets how many, none only if there were
/// none. `reply` gets the reply to the line that the LF ended, and `written` its length. NO_ROOM if `reply` has fewer than 16384 bytes,
/// ENDED after the end of input, NO_MEMORY if an allocation failed. TOO_LONG if 1048576 bytes were taken and these are more: then the
/// bench takes nothing more.
#[unsafe(no_mangle)]
pub extern "C" fn brsp_session_take(
    handle: &mut RspSession,
    alloc: Global,
    bytes: &[u8],
    used: &mut usize,
    reply: &mut [u8],
    written: &mut usize,
) -> u32
    ensures none { IfNone handle.old.bench (result ≡ NO_MACHINE) }
    ensures room { IfSome handle.old.bench (λ b. (result ≡ NO_ROOM) ↔ (length reply.old < REPLIES)) }
    ensures ended { IfSome handle.old.bench (λ b. (result ≡ ENDED) ↔ ((REPLIES ≤ length reply.old) × (b.stage ≡ stage.Ended))) }
    ensures long { IfSome handle.old.bench (λ b. (result ≡ TOO_LONG) ↔ ((REPLIES ≤ length reply.old) × IsTooLong (length bytes.now) b)) }
    ensures answer { IfSome handle.old.bench (λ b. (result ≡ OK) ⊎ (result ≡ NO_MEMORY) ⊎ (result ≡ NO_ROOM) ⊎ (result ≡ ENDED) ⊎ (result ≡ TOO_LONG)) }
    ensures some { result ≡ OK → used.new ≤ length bytes.now }
    ensures goes_on { result ≡ OK → 0 < length bytes.now → 0 < used.new }
    ensures limit { result ≡ OK → IfSome handle.old.bench (λ b. b.fed.count + used.new ≤ script_limit) }
    ensures taken { result ≡ OK → IfSome handle.old.bench (λ b. used.new ≡ taken_of bytes.now b.fed) }
    ensures reply { result ≡ OK → IfSome handle.old.bench (λ b. reply.new ≡ reply_to (take used.new bytes.now) b ++ drop written.new reply.old) }
    ensures len { result ≡ OK → IfSome handle.old.bench (λ b. written.new ≡ length (reply_to (take used.new bytes.now) b)) }
    ensures next { result ≡ OK → handle.new.bench ≡ option_map (bench_after (take used.new bytes.now)) handle.old.bench }
    ensures memory { result ≡ NO_MEMORY → IfSome handle.old.bench (λ b. in_block b.session ≡ true) }
    ensures lacks { result ≡ NO_MEMORY → IfSome handle.old.bench (λ b. LacksMemoryFor (take (taken_of bytes.now b.fed) bytes.now) b) }
    ensures past { result ≡ TOO_LONG → handle.new.bench ≡ option_map bench_too_long handle.old.bench }
    ensures same { (result ≡ OK → ⊥) → (result ≡ TOO_LONG → ⊥) → handle.new.bench ≡ handle.old.bench }
    ensures refused { (result ≡ OK → ⊥) → (used.new ≡ used.old) × (reply.new ≡ reply.old) × (written.new ≡ written.old) }
{
    with_held!(handle, alloc, |held| {
        if reply.len() < REPLIES {
            NO_ROOM
        } else {
            let inside = &mut *held;
            match inside.bench.take(alloc, bytes, &mut inside.reply) {
                Ok(n) => {
                    let text = inside.reply.bytes();
                    reply[..text.len()].copy_from_slice(text);
                    *used = n;
                    *written = text.len();
                    OK
                }
                Err(fault) => status_of_bench(fault),
            }
        }
    })
}

/// Copies two texts to the start of a buffer, one after the other, and returns how many bytes they have.
fn put_both(first: &[u8], second: &[u8], out: &mut [u8]) -> usize
    requires { length first.now + length second.now ≤ length out.old }
    ensures count { result ≡ length (first.now ++ second.now) }
    ensures value { out.new ≡ (first.now ++ second.now) ++ drop (length first.now + length second.now) out.old }
{
    let (start, rest) = out.split_at_mut(first.len());
    start.copy_from_slice(first);
    rest[..second.len()].copy_from_slice(second);
    first.len() + second.len()
}

/// Meets the end of input: `reply` gets the reply to the line that no LF ended, if it has any bytes, and the fault of a block that is
/// still open, and `written` the length of both. It refuses as brsp_session_take does.
#[unsafe(no_mangle)]
pub extern "C" fn brsp_session_end(
    handle: &mut RspSession,
    alloc: Global,
    reply: &mut [u8],
    written: &mut usize,
) -> u32
    ensures none { IfNone handle.old.bench (result ≡ NO_MACHINE) }
    ensures room { IfSome handle.old.bench (λ b. (result ≡ NO_ROOM) ↔ (length reply.old < REPLIES)) }
    ensures ended { IfSome handle.old.bench (λ b. (result ≡ ENDED) ↔ ((REPLIES ≤ length reply.old) × (b.stage ≡ stage.Ended))) }
    ensures long { IfSome handle.old.bench (λ b. (result ≡ TOO_LONG) ↔ ((REPLIES ≤ length reply.old) × (b.stage ≡ stage.TooLong))) }
    ensures answer { IfSome handle.old.bench (λ b. (result ≡ OK) ⊎ (result ≡ NO_MEMORY) ⊎ (result ≡ NO_ROOM) ⊎ (result ≡ ENDED) ⊎ (result ≡ TOO_LONG)) }
    ensures reply { result ≡ OK → IfSome handle.old.bench (λ b. reply.new ≡ last_reply b ++ drop written.new reply.old) }
    ensures len { result ≡ OK → IfSome handle.old.bench (λ b. written.new ≡ length (last_reply b)) }
    ensures memory { result ≡ NO_MEMORY → IfSome handle.old.bench (λ b. in_block b.session ≡ true) }
    ensures lacks { result ≡ NO_MEMORY → IfSome handle.old.bench LacksMemoryAtEnd }
    ensures next { IsNext result bench_ended handle.old.bench handle.new.bench }
    ensures refused { (result ≡ OK → ⊥) → (reply.new ≡ reply.old) × (written.new ≡ written.old) }
{
    with_held!(handle, alloc, |held| {
        if reply.len() < REPLIES {
            NO_ROOM
        } else {
            let inside = &mut *held;
            let mut fault = Reply::new();
            match inside.bench.end(alloc, &mut inside.reply, &mut fault) {
                Ok(()) => {
                    *written = put_both(inside.reply.bytes(), fault.bytes(), reply);
                    OK
                }
                Err(refusal) => status_of_bench(refusal),
            }
        }
    })
}

/// Reads bytes of a bank of the bench's machine from an address on, as many as the buffer has.
#[unsafe(no_mangle)]
pub extern "C" fn brsp_session_memory(
    handle: &mut RspSession,
    alloc: Global,
    number: u32,
    address: u32,
    bytes: &mut [u8],
) -> u32
    ensures inside { IsDoneIf (λ b. IsSomeAnd (bank_of number) (λ k. IsTrue (is_inside k address (length bytes.old) b.session.debugging.state))) handle.old.bench result }
    ensures value { result ≡ OK → IfSome handle.old.bench (λ b. IfSome (bank_of number) (λ k. bytes.new ≡ take (length bytes.old) (drop address (bank_bytes k b.session.debugging.state)))) }
    ensures refused { (result ≡ OK → ⊥) → bytes.new ≡ bytes.old }
    ensures same { handle.new.bench ≡ handle.old.bench }
{
    with_held!(handle, alloc, |held| match bank_of(number) {
        None => OUT_OF_RANGE,
        Some(bank) => match bytes_of(held.bench.machine(), bank, address, bytes.len()) {
            None => OUT_OF_RANGE,
            Some(found) => {
                bytes.copy_from_slice(found);
                OK
            }
        },
    })
}

/// Frees the bench, if the handle holds one. It holds none afterwards.
#[unsafe(no_mangle)]
pub extern "C" fn brsp_session_free(handle: &mut RspSession, alloc: Global)
    ensures { handle.new.bench ≡ None }
{
    drop(handle.take(alloc));
}
