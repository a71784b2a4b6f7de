use crate::worked::{Both, Case, Side};
use rsp_divide::{Divider, rcp_entry, reciprocal, root, rsq_entry};
use std::alloc::AllocError;

// The functions of divide instructions.
const VRCP: u16 = 0x30;

const VRCPL: u16 = 0x31;

const VRCPH: u16 = 0x32;

const VRSQ: u16 = 0x34;

#[test]
fn entries_of_both_tables(rt: HostRuntime) {
    for (entry, value) in [
        (rcp_entry(1), 0xff00),
        (rcp_entry(256), 0x5555),
        (rsq_entry(0), 0x6a09),
        (rsq_entry(1), 0xffff),
        (rsq_entry(2), 0x6955),
        (rsq_entry(3), 0xff00),
    ] {
        assert!(rt; entry == value, "{value:04x}");
    }
}

/// Function, operand and quotient.
const QUOTIENTS: [(u16, i16, u32); 8] = [
    (VRCP, 0, 0x7fff_ffff),
    (VRCP, -32768, 0xffff_0000),
    (VRCP, 1, 0x7fff_c000),
    (VRCP, 3, 0x2aaa_a000),
    (VRCP, -3, 0xd555_5fff),
    (VRSQ, 2, 0x5a82_4000),
    (VRSQ, 4, 0x3fff_e000),
    (VRSQ, -1, 0x8000_3fff),
];

/// The word of `function $v3[lane], $v2[element]`.
fn word_of(function: u16, element: u16, lane: u16) -> u32 {
    0x4a02_00c0 | u32::from(element) << 21 | u32::from(lane) << 11 | u32::from(function)
}

/// What a divide reads or writes.
fn side(low: [u16; 8], input: u16, output: u16, loaded: bool) -> Side {
    Side {
        accumulators: [[0; 8], [0; 8], low],
        flags: [0; 3],
        divider: Divider {
            input,
            output,
            loaded,
        },
    }
}

#[test]
fn quotients_of_short_operands(rt: HostRuntime) -> Result<(), AllocError> {
    let mut both = Both::new(&rt, rt.alloc())?;
    for (function, x, quotient) in QUOTIENTS {
        let value = if function == VRCP {
            reciprocal(i32::from(x))
        } else {
            root(i32::from(x))
        };
        let lanes = [x.cast_unsigned(); 8];
        let [output, result] = [(quotient >> 16) as u16, (quotient & 0xffff) as u16];
        let case = Case {
            word: word_of(function, 0, 5),
            operands: [[0; 8], lanes],
            before: side([0; 8], 0, 0, false),
            after: side(lanes, 0, output, false),
            result: [7, 7, 7, 7, 7, result, 7, 7],
        };
        assert!(rt;
            value.cast_unsigned() == quotient && both.agree(&case),
            "{x}"
        );
    }
    Ok(())
}

/// Instructions with long operands, which read these lanes.
const LONG: [u16; 8] = [1, 0, 3, 0, 0, 0, 0, 9];

#[test]
fn quotients_of_long_operands(rt: HostRuntime) -> Result<(), AllocError> {
    let mut both = Both::new(&rt, rt.alloc())?;
    for (word, before, after, result) in [
        (
            word_of(VRCPH, 8, 2),
            side([0; 8], 0, 0, false),
            side([1; 8], 1, 0, true),
            [7, 7, 0, 7, 7, 7, 7, 7],
        ),
        (
            word_of(VRCPL, 9, 3),
            side([1; 8], 1, 0, true),
            side([0; 8], 1, 0, false),
            [7, 7, 7, 0x7fff, 7, 7, 7, 7],
        ),
        (
            word_of(VRCPL, 2, 4),
            side([0; 8], 0x1234, 0, false),
            side([1, 1, 3, 3, 0, 0, 0, 0], 0x1234, 0x2aaa, false),
            [7, 7, 7, 7, 0xa000, 7, 7, 7],
        ),
    ] {
        let operands = [[0; 8], LONG];
        let case = Case {
            word,
            operands,
            before,
            after,
            result,
        };
        assert!(rt; both.agree(&case), "{word:08x}");
    }
    Ok(())
}
