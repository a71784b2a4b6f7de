// Parts of the machine in the shapes that cross to C, and back.

ghost use Rattle.std.specs.Prelude.{◌≡◌};
ghost use Rattle.rsp_c.specs.States.{c_state, c_sp, sp_words, sp_parts, sp_from_c, registers_from_c};
ghost use Rattle.rsp_c.specs.ToC.{c_accumulators, c_flags, c_divider, c_stop, c_move};

use crate::c_structs::{
    RspAccumulators, RspDivideState, RspFlagBits, RspMove, RspSpWords, RspState, RspStop,
};
use rsp_acc::Acc;
use rsp_debug::{Debugger, MoveEnd, Reason, Stop};
use rsp_divide::Divider;
use rsp_lanes::{Flags, Mask8};
use rsp_machine::AllRegisters;
use rsp_memory::SpMem;
use rsp_regs::{SpParts, SpRegs};

/// The accumulators.
pub fn c_accumulators<A: Acc>(debugger: &Debugger<A>) -> RspAccumulators
    ensures { result ≡ c_accumulators debugger.now.state.accumulators }
{
    let (high, middle, low) = debugger.acc();
    let high = high.to_array();
    let middle = middle.to_array();
    let low = low.to_array();
    RspAccumulators { high, middle, low }
}

/// The flags.
pub fn c_flags(flags: &Flags) -> RspFlagBits
    ensures { result ≡ c_flags flags.now }
{
    RspFlagBits {
        carry: flags.carry.bits(),
        differ: flags.differ.bits(),
        compare: flags.compare.bits(),
        clip: flags.clip.bits(),
        extra: flags.extra.bits(),
    }
}

/// What the divide instructions keep.
pub fn c_divider(divider: &Divider) -> RspDivideState
    ensures { result ≡ c_divider divider.now }
{
    RspDivideState {
        input: divider.input,
        output: divider.output,
        loaded: if divider.loaded { 1 } else { 0 },
    }
}

/// A stop of a machine with this IMEM.
#[inline(always)]
pub fn c_stop(stop: Stop, imem: &SpMem) -> RspStop
    ensures { result ≡ c_stop stop imem.now }
{
    let (reason, watch, word) = match stop.reason {
        Reason::Reserved => (0, 0, imem.word(u32::from(stop.pc))),
        Reason::Halted => (1, 0, 0),
        Reason::Watched(k) => (2, k, 0),
        Reason::Break => (3, 0, 0),
        Reason::Limit => (4, 0, 0),
    };
    RspStop {
        reason,
        steps: stop.steps,
        watch,
        pc: stop.pc,
        word,
    }
}

/// The reason of a run that ends before a move.
const AT_MOVE: u32 = 5;
/// The reason of a run that ends before a DMA.
pub const AT_DMA: u32 = 6;
/// The reason after a write of SP_STATUS that raised the interrupt, unless a run of that step has another reason than its limit.
pub const AT_INTERRUPT: u32 = 7;
/// The reason after another write of SP_STATUS, unless the same.
pub const AT_STATUS: u32 = 8;

/// The end of a run that also ends before moves, of a machine with this IMEM.
#[inline(always)]
pub fn c_move(end: MoveEnd, imem: &SpMem) -> RspMove
    ensures { result ≡ c_move end imem.now }
{
    match end {
        MoveEnd::Stop(stop) => RspMove {
            stop: c_stop(stop, imem),
            word: 0,
            number: 0,
            writes: 0,
            value: 0,
        },
        MoveEnd::Move {
            steps,
            pc,
            register,
            writes,
            value,
        } => RspMove {
            stop: RspStop {
                reason: AT_MOVE,
                steps,
                watch: 0,
                pc,
                word: 0,
            },
            word: imem.word(u32::from(pc)),
            number: u32::from(register),
            writes: if writes { 1 } else { 0 },
            value,
        },
    }
}

/// The sixteen SP registers as they read.
fn sp_words(sp: &SpRegs) -> [u32; 16]
    ensures { result ≡ sp_words sp.now }
{
    [
        sp.peek(0),
        sp.peek(1),
        sp.peek(2),
        sp.peek(3),
        sp.peek(4),
        sp.peek(5),
        sp.peek(6),
        sp.peek(7),
        sp.peek(8),
        sp.peek(9),
        sp.peek(10),
        sp.peek(11),
        sp.peek(12),
        sp.peek(13),
        sp.peek(14),
        sp.peek(15),
    ]
}

/// The SP registers as C sees them.
pub fn c_sp(sp: &SpRegs) -> RspSpWords
    ensures { result ≡ c_sp sp.now }
{
    RspSpWords {
        words: sp_words(sp),
        interrupt: if sp.interrupt() { 1 } else { 0 },
    }
}

/// All registers as C sees them.
pub fn c_state(all: &AllRegisters, sp: &SpRegs) -> RspState
    ensures { result ≡ c_state all.now sp.now }
{
    let words = all.registers;
    let vectors = all.vectors;
    let high = all.accumulators_high;
    let middle = all.accumulators_middle;
    let low = all.accumulators_low;
    let sp_words = c_sp(sp);
    let sp = sp_words.words;
    RspState {
        words,
        vectors,
        accumulators: RspAccumulators { high, middle, low },
        flags: c_flags(&all.flags),
        zero: 0,
        divider: c_divider(&all.divider),
        pc: all.pc,
        npc: all.npc,
        sp,
        interrupt: sp_words.interrupt,
    }
}

/// The SP registers that read these words.
fn sp_parts(words: &[u32; 16], interrupt: u32) -> SpParts
    ensures { result ≡ sp_parts words.now interrupt }
{
    let status = words[4];
    SpParts {
        memory: words[0],
        dram: words[1],
        skip: words[2] / 0x10_0000,
        halted: status % 2 == 1,
        broke: status / 2 % 2 == 1,
        single_step: status / 32 % 2 == 1,
        intbreak: status / 64 % 2 == 1,
        signals: [
            status / 128 % 2 == 1,
            status / 256 % 2 == 1,
            status / 512 % 2 == 1,
            status / 1024 % 2 == 1,
            status / 2048 % 2 == 1,
            status / 4096 % 2 == 1,
            status / 8192 % 2 == 1,
            status / 16384 % 2 == 1,
        ],
        interrupt: interrupt == 1,
        semaphore: words[7] == 1,
        dpc: [
            words[8], words[9], words[10], words[11], words[12], words[13], words[14], words[15],
        ],
    }
}

/// The SP registers that C gives. Their ranges aren't tested here.
pub fn sp_from_c(given: &RspSpWords) -> SpParts
    ensures { result ≡ sp_from_c given.now }
{
    sp_parts(&given.words, given.interrupt)
}

/// The registers that C gives. Their ranges aren't tested here.
pub fn registers_from_c(state: &RspState) -> AllRegisters
    ensures { result ≡ registers_from_c state.now }
{
    AllRegisters {
        pc: state.pc,
        npc: state.npc,
        registers: state.words,
        vectors: state.vectors,
        accumulators_high: state.accumulators.high,
        accumulators_middle: state.accumulators.middle,
        accumulators_low: state.accumulators.low,
        flags: Flags {
            carry: Mask8::from_bits(state.flags.carry),
            differ: Mask8::from_bits(state.flags.differ),
            compare: Mask8::from_bits(state.flags.compare),
            clip: Mask8::from_bits(state.flags.clip),
            extra: Mask8::from_bits(state.flags.extra),
        },
        divider: Divider {
            input: state.divider.input,
            output: state.divider.output,
            loaded: state.divider.loaded == 1,
        },
        sp: sp_parts(&state.sp, state.interrupt),
    }
}
