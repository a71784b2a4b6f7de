use super::case::{ASSEMBLY, Case, check};
use rsp_cli::{FileFault, Status};
use std::io::ErrorKind;
use std::test::Fail;

const FAULTED: Case = Case {
    image: b"nop\n",
    status: Status::Faulted,
    ..ASSEMBLY
};

static CASES: [Case; 10] = [
    // A text with a carriage return, and a loop of three instructions and a `break`; their words by hand.
    Case {
        image: b"j x\r\nnop\nx: break",
        script: b"step\n",
        output: Some(b"ok 3 words\n"),
        written: 1,
        saved: Some(&[8, 0, 0, 2, 0, 0, 0, 0, 0, 0, 0, 13]),
        ..ASSEMBLY
    },
    Case {
        image: b"loop: addiu $1, $1, 1\nbne $1, $2, loop\nnop\nbreak\n",
        output: Some(b"ok 4 words\n"),
        written: 1,
        saved: Some(&[
            0x24, 0x21, 0x00, 0x01, 0x14, 0x22, 0xff, 0xfe, 0x00, 0x00, 0x00, 0x00, 0x00, 0x00,
            0x00, 0x0d,
        ]),
        ..ASSEMBLY
    },
    // A text that means nothing, or isn't read, writes nothing.
    Case {
        image: b"nop\nfoo\n",
        message: Some(b"rsp: fault 11 UnknownName line 2\n"),
        ..FAULTED
    },
    Case {
        line: "rsp asm --explain image words",
        image: b"lvq $v1, 0($2)\nnop\nx: jr 5\n",
        message: Some(
            b"image:1: fault 11 UnknownName line 1\n  | lvq $v1, 0($2)\n  name: lvq\n  help: is `lqv` meant?\nimage:3: fault 12 BadOperand line 3\n  | x: jr 5\n  operand 1: 5\n  expected: a scalar register, $0 to $31 or as $t0, but not $v0 and $v1\n  help: a register begins with $, as $8\n",
        ),
        ..FAULTED
    },
    Case {
        image: b"j x",
        message: Some(b"rsp: fault 15 LabelMissing line 1\n"),
        ..FAULTED
    },
    Case {
        image: b"nop # \xff\n",
        message: Some(b"rsp: fault 33 NotText\n"),
        ..FAULTED
    },
    Case {
        line: "rsp asm missing words",
        message: Some(b"rsp: cannot read missing\n"),
        ..FAULTED
    },
    Case {
        read_fault: Some(FileFault::OutOfMemory),
        message: Some(b"rsp: fault 17 OutOfMemory\n"),
        ..FAULTED
    },
    // Words may not be written or reported.
    Case {
        image: b"nop",
        write_fault: Some(FileFault::Refused(ErrorKind::PermissionDenied)),
        message: Some(b"rsp: cannot write words\n"),
        ..FAULTED
    },
    Case {
        image: b"nop",
        room: 4,
        message: Some(b"rsp: fault 41 WriteFault\n"),
        output: Some(b"ok 1"),
        written: 1,
        saved: Some(&[0; 4]),
        ..FAULTED
    },
];

#[test]
fn texts_are_assembled(rt: HostRuntime) -> Result<(), Fail> {
    check(&rt, &CASES)
}
