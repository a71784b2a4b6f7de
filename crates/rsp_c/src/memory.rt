// The memories: bytes in and bytes out, and words, the highest byte of each first.

ghost use Rattle.std.specs.Prelude.{◌≡◌, ◌*◌, ◌≤◌, ◌↔◌, IsSome, IfSome, length, take, drop, option_map, IsTrue, IsSomeAnd};
ghost use Rattle.rsp_machine.specs.Host.{with_bank_bytes, bank_length, is_inside};
ghost use Rattle.rsp_debug.specs.Debugging.{set_by_host};
ghost use Rattle.rsp_c.specs.Answers.{bank_of};
ghost use Rattle.rsp_c.specs.Bytes.{bank_bytes};
ghost use Rattle.rsp_c.specs.Calls.{status_of, IsDoneIf, IsFilled};
ghost use Rattle.rsp_memory.specs.Words.{words_bytes};
ghost use Rattle.byteorder.specs.Endian.{IsRead, big_number};

use crate::handle::{RspMachine, with_held};
use crate::status::{OK, OUT_OF_RANGE, bank_of};
use byteorder::{BigEndian, ByteOrder};
use rsp_acc::{Acc, PlaneAcc};
use rsp_machine::Machine;
use rsp_memory::Bank;
use std::alloc::Global;

/// All bytes of a bank.
fn all_bytes<A: Acc>(machine: &Machine<A>, bank: Bank) -> &[u8]
    ensures bytes { result.now ≡ bank_bytes bank machine.now }
    ensures len { length result.now ≡ bank_length bank machine.now }
{
    match bank {
        Bank::Dmem => machine.dmem().bytes(),
        Bank::Imem => machine.imem().bytes(),
        Bank::Rdram => machine.rdram().bytes(),
    }
}

/// The bytes of a bank from an address on, `n` of them; None if they aren't all inside.
pub fn bytes_of<A: Acc>(machine: &Machine<A>, bank: Bank, a: u32, n: usize) -> Option<&[u8]>
    ensures inside { IsSome result ↔ IsTrue (is_inside bank a n machine.now) }
    ensures bytes { IfSome result (λ bytes. bytes.now ≡ take n (drop a (bank_bytes bank machine.now))) }
    ensures len { IfSome result (λ bytes. length bytes.now ≡ n) }
{
    let all = all_bytes(machine, bank);
    let from = a as usize;
    if n > all.len() || from > all.len() - n {
        return None;
    }
    Some(&all[from..from + n])
}

/// The number of bytes of the image of RDRAM.
#[unsafe(no_mangle)]
pub extern "C" fn brsp_image_length(handle: &mut RspMachine, alloc: Global, out: &mut usize) -> u32
    ensures answer { result ≡ status_of (λ _. OK) handle.old.debugger }
    ensures value { IsFilled result (λ d. length d.state.rdram) handle.old.debugger out.old out.new }
    ensures same { handle.new.debugger ≡ handle.old.debugger }
{
    with_held!(handle, alloc, |debugger| do *out = debugger.machine().rdram().len())
}

/// Writes bytes to a bank from an address on, and empties the history.
#[unsafe(no_mangle)]
pub extern "C" fn brsp_load(
    handle: &mut RspMachine,
    alloc: Global,
    number: u32,
    address: u32,
    bytes: &[u8],
) -> u32
    ensures inside { IsDoneIf (λ d. IsSomeAnd (bank_of number) (λ b. IsTrue (is_inside b address (length bytes.now) d.state))) handle.old.debugger result }
    ensures next { result ≡ OK → IfSome (bank_of number) (λ b. handle.new.debugger ≡ option_map (λ d. set_by_host (with_bank_bytes b address bytes.now d.state) d) handle.old.debugger) }
    ensures same { (result ≡ OK → ⊥) → handle.new.debugger ≡ handle.old.debugger }
{
    with_held!(handle, alloc, |debugger| match bank_of(number) {
        None => OUT_OF_RANGE,
        Some(bank) => match debugger.load_bytes(bank, address, bytes) {
            Err(_) => OUT_OF_RANGE,
            Ok(()) => OK,
        },
    })
}

/// Copies bytes. A word, which a CPU reads often, is copied without a call of memcpy, because the call takes longer than the copy.
#[inline(always)]
fn copy(from: &[u8], to: &mut [u8])
    requires { length from.now ≡ length to.old }
    ensures { to.new ≡ from.now }
{
    if to.len() == 4 {
        to.copy_from_slice(&from[..4]);
    } else {
        to.copy_from_slice(from);
    }
}

/// Reads bytes of a bank from an address on, as many as the buffer has.
#[unsafe(no_mangle)]
pub extern "C" fn brsp_memory(
    handle: &mut RspMachine,
    alloc: Global,
    number: u32,
    address: u32,
    bytes: &mut [u8],
) -> u32
    ensures inside { IsDoneIf (λ d. IsSomeAnd (bank_of number) (λ b. IsTrue (is_inside b address (length bytes.old) d.state))) handle.old.debugger result }
    ensures value { result ≡ OK → IfSome handle.old.debugger (λ d. IfSome (bank_of number) (λ b. bytes.new ≡ take (length bytes.old) (drop address (bank_bytes b d.state)))) }
    ensures refused { (result ≡ OK → ⊥) → bytes.new ≡ bytes.old }
    ensures same { handle.new.debugger ≡ handle.old.debugger }
{
    with_held!(handle, alloc, |debugger| match bank_of(number) {
        None => OUT_OF_RANGE,
        Some(bank) => match bytes_of(debugger.machine(), bank, address, bytes.len()) {
            None => OUT_OF_RANGE,
            Some(found) => {
                copy(found, bytes);
                OK
            }
        },
    })
}

/// Whether a bank has `n` words from an address on. C may give any number, also one whose bytes are more than a number can count.
#[tactic(auto, using(crate::proofs::Words::words))]
fn has_words(machine: &Machine<PlaneAcc>, bank: Bank, address: u32, n: usize) -> bool
    ensures value { result ≡ is_inside bank address (4 * n) machine.now }
    ensures few { IsTrue result → n ≤ 2097152 }
{
    let _longest = machine.rdram().len();
    n <= 0x20_0000 && machine.is_inside(bank, address, 4 * n)
}

/// Reads words of a bank from an address on.
fn read_words(machine: &Machine<PlaneAcc>, bank: Bank, address: u32, words: &mut [u32])
    requires { IsTrue (is_inside bank address (4 * length words.old) machine.now) }
    ensures { IsRead big_number 4 (take (4 * length words.old) (drop address (bank_bytes bank machine.now))) words.new }
{
    let Some(bytes) = bytes_of(machine, bank, address, 4 * words.len()) else {
        unreachable!()
    };
    BigEndian::read_u32_into(bytes, words);
}

/// Writes words to a bank from an address on, and empties the history.
#[unsafe(no_mangle)]
pub extern "C" fn brsp_load_words(
    handle: &mut RspMachine,
    alloc: Global,
    number: u32,
    address: u32,
    words: &[u32],
) -> u32
    ensures inside { IsDoneIf (λ d. IsSomeAnd (bank_of number) (λ b. IsTrue (is_inside b address (4 * length words.now) d.state))) handle.old.debugger result }
    ensures next { result ≡ OK → IfSome (bank_of number) (λ b. handle.new.debugger ≡ option_map (λ d. set_by_host (with_bank_bytes b address (words_bytes words.now) d.state) d) handle.old.debugger) }
    ensures same { (result ≡ OK → ⊥) → handle.new.debugger ≡ handle.old.debugger }
{
    with_held!(handle, alloc, |debugger| match bank_of(number) {
        Some(bank) if has_words(debugger.machine(), bank, address, words.len()) => {
            let Ok(()) = debugger.load_words(bank, address, words) else {
                unreachable!()
            };
            OK
        }
        _ => OUT_OF_RANGE,
    })
}

/// Reads words of a bank from an address on, as many as the buffer has.
#[unsafe(no_mangle)]
pub extern "C" fn brsp_memory_words(
    handle: &mut RspMachine,
    alloc: Global,
    number: u32,
    address: u32,
    words: &mut [u32],
) -> u32
    ensures inside { IsDoneIf (λ d. IsSomeAnd (bank_of number) (λ b. IsTrue (is_inside b address (4 * length words.old) d.state))) handle.old.debugger result }
    ensures value { result ≡ OK → IfSome handle.old.debugger (λ d. IfSome (bank_of number) (λ b. IsRead big_number 4 (take (4 * length words.old) (drop address (bank_bytes b d.state))) words.new)) }
    ensures refused { (result ≡ OK → ⊥) → words.new ≡ words.old }
    ensures same { handle.new.debugger ≡ handle.old.debugger }
{
    with_held!(handle, alloc, |debugger| match bank_of(number) {
        Some(bank) if has_words(debugger.machine(), bank, address, words.len()) => {
            read_words(debugger.machine(), bank, address, words);
            OK
        }
        _ => OUT_OF_RANGE,
    })
}
