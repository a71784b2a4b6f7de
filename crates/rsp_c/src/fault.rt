// Which field of a state no machine can have.

ghost use Rattle.std.specs.Prelude.{◌≡◌, ◌<◌};
ghost use Rattle.rsp_machine.specs.Registers.{is_whole};
ghost use Rattle.rsp_c.specs.Faults.{sp_word_fault, are_sp, state_fault};

use crate::c_structs::{RspSpWords, RspState};
use crate::status::OK;

/// Register 0 isn't 0.
const ZERO: u32 = 1;
/// `divider.loaded` isn't 0 or 1.
const LOADED: u32 = 2;
/// `pc` is no multiple of 4 below 4096.
const PC: u32 = 3;
/// `npc` is no multiple of 4 below 4096.
const NPC: u32 = 4;
/// `interrupt` isn't 0 or 1.
const INTERRUPT: u32 = 5;
/// The number of `sp[0]`; those of the others follow.
const SP: u32 = 16;

/// Whether a number is a multiple of `step`, below `limit`.
fn is_whole(step: u32, limit: u32, number: u32) -> bool
    requires { 0 < step }
    ensures { result ≡ is_whole step limit number }
{
    number < limit && number % step == 0
}

/// The first SP register from which its word can't be read.
fn sp_word_fault(words: &[u32; 16]) -> Option<u32>
    ensures { result ≡ sp_word_fault words.now }
{
    let status = words[4];
    if !is_whole(8, 0x2000, words[0]) {
        Some(0)
    } else if !is_whole(8, 0x100_0000, words[1]) {
        Some(1)
    } else if words[2] % 0x10_0000 != 0xff8 || !is_whole(8, 0x1000, words[2] / 0x10_0000) {
        Some(2)
    } else if words[3] != words[2] {
        Some(3)
    } else if status != status % 4 + status / 32 % 1024 * 32 {
        Some(4)
    } else if words[5] != 0 {
        Some(5)
    } else if words[6] != 0 {
        Some(6)
    } else if words[7] > 1 {
        Some(7)
    } else {
        None
    }
}

/// Whether SP registers and an interrupt flag can be those of a machine.
pub fn are_sp(given: &RspSpWords) -> bool
    ensures { result ≡ are_sp given.now }
{
    sp_word_fault(&given.words).is_none() && given.interrupt <= 1
}

/// The number of the first field that no machine can have, and 0 if a machine can have them all.
pub fn state_fault(state: &RspState) -> u32
    ensures { result ≡ state_fault state.now }
{
    if state.words[0] != 0 {
        ZERO
    } else if state.divider.loaded > 1 {
        LOADED
    } else if !is_whole(4, 4096, u32::from(state.pc)) {
        PC
    } else if !is_whole(4, 4096, u32::from(state.npc)) {
        NPC
    } else if state.interrupt > 1 {
        INTERRUPT
    } else {
        match sp_word_fault(&state.sp) {
            None => 0,
            Some(n) => SP + n,
        }
    }
}

/// Which field of a state no machine can have: `out` gets the number of the first one, and 0 if `brsp_set` takes the state. Always OK.
#[unsafe(no_mangle)]
pub extern "C" fn brsp_state_fault(state: &RspState, out: &mut u32) -> u32
    ensures ok { result ≡ OK }
    ensures value { out.new ≡ state_fault state.now }
{
    *out = state_fault(state);
    OK
}
