//! Worked cases of instructions that compute, over both kinds of accumulators. Each machine shows all its registers before and
//! after, so a case also shows that no other register changes.

use crate::machines::start;
use rsp_acc::{Acc, PlainAcc, PlaneAcc};
use rsp_divide::Divider;
use rsp_lanes::{Flags, Mask8};
use rsp_machine::{AllRegisters, Machine, StepEnd};
use rsp_memory::Bank;
use std::alloc::{AllocError, Global};
use std::process::Abort;

// The functions of vector instructions.
const VMULF: u16 = 0x00;

const VMULU: u16 = 0x01;

const VRNDP: u16 = 0x02;

const VMULQ: u16 = 0x03;

const VMUDN: u16 = 0x06;

const VMUDH: u16 = 0x07;

const VMACU: u16 = 0x09;

const VRNDN: u16 = 0x0a;

const VMACQ: u16 = 0x0b;

const VMADL: u16 = 0x0c;

const VMADH: u16 = 0x0f;

const VADD: u16 = 0x10;

const VSUB: u16 = 0x11;

const VABS: u16 = 0x13;

const VADDC: u16 = 0x14;

const VSUBC: u16 = 0x15;

const VLT: u16 = 0x20;

const VEQ: u16 = 0x21;

const VNE: u16 = 0x22;

const VGE: u16 = 0x23;

const VCL: u16 = 0x24;

const VCH: u16 = 0x25;

const VCR: u16 = 0x26;

const VMRG: u16 = 0x27;

const VAND: u16 = 0x28;

const VNAND: u16 = 0x29;

const VOR: u16 = 0x2a;

const VNOR: u16 = 0x2b;

const VXOR: u16 = 0x2c;

const VNXOR: u16 = 0x2d;

/// What an instruction reads or writes beside its operands.
#[derive(Clone, Copy)]
pub struct Side {
    /// The high, middle and low sixteen bits of each accumulator.
    pub accumulators: [[u16; 8]; 3],
    /// VCO, VCC and VCE.
    pub flags: [u16; 3],
    pub divider: Divider,
}

impl Side {
    /// All is 0 but these.
    fn of(accumulators: [[u16; 8]; 3], flags: [u16; 3]) -> Side {
        Side {
            accumulators,
            flags,
            divider: Divider::new(),
        }
    }

    /// Puts it into registers.
    fn put(&self, registers: &mut AllRegisters) {
        let [high, middle, low] = self.accumulators;
        registers.accumulators_high = high;
        registers.accumulators_middle = middle;
        registers.accumulators_low = low;
        let [vco, vcc, vce] = self.flags;
        registers.flags = Flags {
            carry: mask(vco),
            differ: mask(vco >> 8),
            compare: mask(vcc),
            clip: mask(vcc >> 8),
            extra: mask(vce),
        };
        registers.divider = self.divider;
    }
}

/// The flags of the low eight bits.
fn mask(bits: u16) -> Mask8 {
    let [_, low] = bits.to_be_bytes();
    Mask8::from_bits(low)
}

/// An instruction that reads $v1 and $v2, or $v2 alone, and writes $v3, which had sevens.
#[derive(Clone, Copy)]
pub struct Case {
    pub word: u32,
    pub operands: [[u16; 8]; 2],
    pub before: Side,
    pub after: Side,
    pub result: [u16; 8],
}

impl Case {
    /// Whether a step over the word gives all that it should, and nothing else.
    fn holds<A: Acc>(&self, machine: &mut Machine<A>) -> bool {
        let mut registers = machine.all_registers();
        registers.pc = 0;
        registers.npc = 4;
        registers.vectors[1] = self.operands[0];
        registers.vectors[2] = self.operands[1];
        registers.vectors[3] = [7; 8];
        self.before.put(&mut registers);
        let is_begun = machine.load_words(Bank::Imem, 0, &[self.word]).is_ok()
            && machine.set_all_registers(&registers).is_ok();
        registers.pc = 4;
        registers.npc = 8;
        registers.vectors[3] = self.result;
        self.after.put(&mut registers);
        is_begun && machine.step() == StepEnd::Done && machine.all_registers() == registers
    }
}

/// A machine of each kind.
#[derive(Drop)]
pub struct Both {
    planes: Machine<PlaneAcc>,
    plain: Machine<PlainAcc>,
}

impl Both {
    pub fn new(rt: &impl Abort, alloc: Global) -> Result<Both, AllocError> {
        Ok(Both {
            planes: start(rt, alloc)?,
            plain: start(rt, alloc)?,
        })
    }

    /// Whether the case holds over both.
    pub fn agree(&mut self, case: &Case) -> bool {
        case.holds(&mut self.planes) && case.holds(&mut self.plain)
    }
}

/// The word of `function $v3, $vs, $v2`.
fn word_of(function: u16, vs: u16) -> u32 {
    0x4a02_00c0 | u32::from(vs) << 11 | u32::from(function)
}

/// Eight like lanes whose flags matter: function, a, b, then VCO, VCC and VCE before it, the same after it, the low sixteen bits of
/// the accumulator, and the result.
const FLAGGED: [[u16; 11]; 19] = [
    [VCH, 4, 0xfffb, 0, 0, 0, 0x00ff, 0xffff, 0xff, 5, 5],
    [VCH, 5, 0xfffb, 0, 0, 0, 0x00ff, 0xffff, 0, 5, 5],
    [VCL, 3, 4, 0x00ff, 0, 0xff, 0, 0x00ff, 0, 0xfffc, 0xfffc],
    [VCL, 3, 4, 0x00ff, 0, 0, 0, 0, 0, 3, 3],
    [VCL, 1, 0xffff, 0x00ff, 0, 0xff, 0, 0x00ff, 0, 1, 1],
    [VCL, 1, 0xffff, 0x00ff, 0, 0, 0, 0, 0, 1, 1],
    [VCR, 4, 0xfffb, 0xffff, 0, 0xff, 0, 0xffff, 0, 4, 4],
    [VCR, 5, 0xfffb, 0xffff, 0, 0xff, 0, 0xff00, 0, 5, 5],
    [VADDC, 0xffff, 1, 0, 0, 0, 0x00ff, 0, 0, 0, 0],
    [VADD, 0x7fff, 0, 0x00ff, 0, 0, 0, 0, 0, 0x8000, 0x7fff],
    [VABS, 0xffff, 0x8000, 0, 0, 0, 0, 0, 0, 0x8000, 0x7fff],
    [VSUBC, 3, 5, 0, 0, 0, 0xffff, 0, 0, 0xfffe, 0xfffe],
    [VSUB, 0x8000, 0, 0xffff, 0, 0, 0, 0, 0, 0x7fff, 0x8000],
    [VAND, 0x0ff0, 0x3c3c, 0, 0, 0, 0, 0, 0, 0x0c30, 0x0c30],
    [VNAND, 0x0ff0, 0x3c3c, 0, 0, 0, 0, 0, 0, 0xf3cf, 0xf3cf],
    [VOR, 0x0ff0, 0x3c3c, 0, 0, 0, 0, 0, 0, 0x3ffc, 0x3ffc],
    [VNOR, 0x0ff0, 0x3c3c, 0, 0, 0, 0, 0, 0, 0xc003, 0xc003],
    [VXOR, 0x0ff0, 0x3c3c, 0, 0, 0, 0, 0, 0, 0x33cc, 0x33cc],
    [VNXOR, 0x0ff0, 0x3c3c, 0, 0, 0, 0, 0, 0, 0xcc33, 0xcc33],
];

fn flagged(row: [u16; 11]) -> Case {
    let [
        function,
        a,
        b,
        vco,
        vcc,
        vce,
        vco_after,
        vcc_after,
        vce_after,
        low,
        result,
    ] = row;
    Case {
        word: word_of(function, 1),
        operands: [[a; 8], [b; 8]],
        before: Side::of([[0; 8]; 3], [vco, vcc, vce]),
        after: Side::of(
            [[0; 8], [0; 8], [low; 8]],
            [vco_after, vcc_after, vce_after],
        ),
        result: [result; 8],
    }
}

#[test]
fn sums_clips_and_bits(rt: HostRuntime) -> Result<(), AllocError> {
    let mut both = Both::new(&rt, rt.alloc())?;
    for n in 0..19 {
        assert!(rt; both.agree(&flagged(FLAGGED[n])), "row {n}");
    }
    Ok(())
}

/// Lanes that are compared, the lower and the higher of them, and lanes that are merged.
const LEFT: [u16; 8] = [5, 0xffff, 1, 0x8000, 0x7fff, 0, 5, 5];

const RIGHT: [u16; 8] = [5, 1, 0xffff, 0x7fff, 0x8000, 0, 6, 4];

const COMPARED: [[u16; 8]; 2] = [LEFT, RIGHT];

const LOWER: [u16; 8] = [5, 0xffff, 0xffff, 0x8000, 0x8000, 0, 5, 4];

const HIGHER: [u16; 8] = [5, 1, 1, 0x7fff, 0x7fff, 0, 6, 5];

const MERGED: [u16; 8] = [1, 1, 2, 1, 2, 1, 1, 2];

/// Function, operands, VCO and VCC before it, VCC after it, and the result. If all of VCO is set, equal lanes are less, and not at
/// least.
const SELECTIONS: [(u16, [[u16; 8]; 2], [u16; 2], u16, [u16; 8]); 6] = [
    (VLT, COMPARED, [0, 0], 0b0100_1010, LOWER),
    (VEQ, COMPARED, [0, 0], 0b0010_0001, RIGHT),
    (VNE, COMPARED, [0, 0], 0b1101_1110, LEFT),
    (VGE, COMPARED, [0, 0], 0b1011_0101, HIGHER),
    (VLT, COMPARED, [0xffff, 0], 0b0110_1011, LOWER),
    (VMRG, [[1; 8], [2; 8]], [0, 0x6b], 0b0110_1011, MERGED),
];

#[test]
fn selections(rt: HostRuntime) -> Result<(), AllocError> {
    let mut both = Both::new(&rt, rt.alloc())?;
    for (function, operands, [vco, vcc], compare, result) in SELECTIONS {
        let case = Case {
            word: word_of(function, 1),
            operands,
            before: Side::of([[0; 8]; 3], [vco, vcc, 0]),
            after: Side::of([[0; 8], [0; 8], result], [0, compare, 0]),
            result,
        };
        assert!(rt; both.agree(&case), "function {function:02x}, VCO {vco:x}");
    }
    Ok(())
}

/// Eight like lanes: function, vs, a, b, the accumulator before it, the same after it, and the result.
const ACCUMULATED: [[u16; 11]; 36] = [
    [VMULF, 1, 0x8000, 0x8000, 0, 0, 0, 0, 0x8000, 0x8000, 0x7fff],
    [
        VMULU, 1, 0x8000, 0x8000, 0, 0x8000, 0x8000, 0, 0x8000, 0x8000, 0xffff,
    ],
    [
        VMUDH, 1, 0x7fff, 0x7fff, 0, 0x8000, 0x8000, 0x3fff, 1, 0, 0x7fff,
    ],
    [VMADH, 1, 0x7fff, 0x7fff, 0x3fff, 1, 0, 0x7ffe, 2, 0, 0x7fff],
    [VMADH, 1, 0x7fff, 0x7fff, 0x7ffe, 2, 0, 0xbffd, 3, 0, 0x8000],
    [VMUDN, 1, 0xffff, 1, 0xbffd, 3, 0, 0, 0, 0xffff, 0xffff],
    [VMADL, 1, 0xffff, 0xffff, 0, 0, 0xffff, 0, 1, 0xfffd, 0xfffd],
    [VMUDH, 1, 0x0100, 0x0100, 0, 1, 0xfffd, 1, 0, 0, 0x7fff],
    [VMACU, 1, 0, 0, 1, 0, 0, 1, 0, 0, 0xffff],
    [VMUDH, 1, 0xffff, 1, 1, 0, 0, 0xffff, 0xffff, 0, 0xffff],
    [VMACU, 1, 0, 0, 0xffff, 0xffff, 0, 0xffff, 0xffff, 0, 0],
    // An odd vs multiplies the lane by 65536.
    [VRNDP, 1, 0, 1, 0, 0, 0, 0, 1, 0, 1],
    [VRNDP, 1, 0, 1, 0xffff, 0xffff, 0, 0xffff, 0xffff, 0, 0xffff],
    [VRNDN, 2, 0, 1, 0xffff, 0xffff, 0, 0xffff, 0xffff, 1, 0xffff],
    // An accumulator of 0 or more stays under VRNDN.
    [VRNDN, 1, 0, 1, 0, 0, 0, 0, 0, 0, 0],
    [VRNDN, 2, 0, 1, 0, 5, 0, 0, 5, 0, 5],
    // A negative lane, alone and 65536 times as much.
    [VRNDP, 2, 0, 0xffff, 0, 0, 0, 0xffff, 0xffff, 0xffff, 0xffff],
    [VRNDP, 1, 0, 0xfffe, 0, 0, 7, 0xffff, 0xfffe, 7, 0xfffe],
    [
        VRNDN, 1, 0, 0x8000, 0xffff, 0xffff, 0xffff, 0xffff, 0x7fff, 0xffff, 0x8000,
    ],
    // Sums wrap at 48 bits.
    [VRNDP, 2, 0, 1, 0x7fff, 0xffff, 0xffff, 0x8000, 0, 0, 0x8000],
    [
        VRNDN, 2, 0, 0xffff, 0x8000, 0, 0, 0x7fff, 0xffff, 0xffff, 0x7fff,
    ],
    [VMULQ, 1, 0x0010, 0x0010, 1, 2, 3, 0, 0x0100, 0, 0x0080],
    [VMULQ, 1, 0xfff0, 0x0010, 1, 2, 3, 0xffff, 0xff1f, 0, 0xff80],
    [VMULQ, 1, 0x7fff, 0x7fff, 1, 2, 3, 0x3fff, 1, 0, 0x7ff0],
    [VMULQ, 1, 0x8000, 0x8000, 0, 0, 0, 0x4000, 0, 0, 0x7ff0],
    [VMULQ, 1, 0x8000, 0x7fff, 0, 0, 0, 0xc000, 0x801f, 0, 0x8000],
    [VMULQ, 1, 0xffff, 1, 0x8000, 0, 0, 0, 0x001e, 0, 0],
    [VMACQ, 1, 9, 9, 0, 0x0100, 0x1234, 0, 0x00e0, 0x1234, 0x0070],
    [VMACQ, 1, 9, 9, 0, 0x0120, 0, 0, 0x0120, 0, 0x0090],
    [VMACQ, 1, 9, 9, 0xffff, 0xff1f, 0, 0xffff, 0xff3f, 0, 0xff90],
    // From 0 to 31 nothing is added, and from 64 on 32 is taken away.
    [VMACQ, 1, 9, 9, 0, 31, 5, 0, 31, 5, 0],
    [VMACQ, 1, 9, 9, 0, 64, 0xffff, 0, 32, 0xffff, 16],
    // Bit 5 of a negative number is that of its two's complement.
    [VMACQ, 1, 9, 9, 0xffff, 0xffff, 1, 0xffff, 0xffff, 1, 0xfff0],
    [VMACQ, 1, 9, 9, 0xffff, 0xffdf, 1, 0xffff, 0xffff, 1, 0xfff0],
    [VMACQ, 1, 9, 9, 0x7fff, 0xffff, 1, 0x7fff, 0xffff, 1, 0x7ff0],
    [VMACQ, 1, 9, 9, 0x8000, 0, 1, 0x8000, 0x0020, 1, 0x8000],
];

fn accumulated(row: [u16; 11]) -> Case {
    let [
        function,
        vs,
        a,
        b,
        high,
        middle,
        low,
        high_after,
        middle_after,
        low_after,
        result,
    ] = row;
    Case {
        word: word_of(function, vs),
        operands: [[a; 8], [b; 8]],
        before: Side::of([[high; 8], [middle; 8], [low; 8]], [0; 3]),
        after: Side::of([[high_after; 8], [middle_after; 8], [low_after; 8]], [0; 3]),
        result: [result; 8],
    }
}

#[test]
fn multiplies_and_roundings(rt: HostRuntime) -> Result<(), AllocError> {
    let mut both = Both::new(&rt, rt.alloc())?;
    for n in 0..36 {
        assert!(rt; both.agree(&accumulated(ACCUMULATED[n])), "row {n}");
    }
    Ok(())
}

/// The high and the middle sixteen bits of accumulators that differ in sign.
const SIGNS: [u16; 8] = [0, 0, 0xffff, 0xffff, 0, 0xffff, 0, 0];

const MIDDLES: [u16; 8] = [0, 1, 0xffff, 0x8000, 0x7fff, 0xfffe, 2, 3];

/// The middles when 65536 is added to those of 0 and more, and the same as results.
const ADDED: [u16; 8] = [1, 2, 0xffff, 0x8000, 0x8000, 0xfffe, 3, 4];

const ROUNDED: [u16; 8] = [1, 2, 0xffff, 0x8000, 0x7fff, 0xfffe, 3, 4];

#[test]
fn each_lane_is_rounded_by_its_own_sign(rt: HostRuntime) -> Result<(), AllocError> {
    let mut both = Both::new(&rt, rt.alloc())?;
    let negative = [0, 0, 1, 1, 0, 1, 0, 0];
    for (function, vs, before, after) in [
        (VRNDP, 1, [SIGNS, MIDDLES, [0; 8]], [SIGNS, ADDED, [0; 8]]),
        (VRNDN, 2, [SIGNS, ADDED, [0; 8]], [SIGNS, ADDED, negative]),
    ] {
        let case = Case {
            word: word_of(function, vs),
            operands: [MIDDLES, [1; 8]],
            before: Side::of(before, [0; 3]),
            after: Side::of(after, [0; 3]),
            result: ROUNDED,
        };
        assert!(rt; both.agree(&case), "function {function:02x}");
    }
    Ok(())
}
