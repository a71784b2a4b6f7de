use super::case::{Case, NO_TERMINALS, RUN, check};
use super::fakes::AfterBytes;
use rsp_cli::{FileFault, Status, Terminals};
use std::io::ErrorKind;
use std::test::Fail;

/// The most bytes of an image that the program reads: one more than the longest has.
pub(super) const IMAGE_LIMIT: u64 = 8_388_609;

/// The same of a script in a file.
pub(super) const SCRIPT_LIMIT: u64 = 1_048_577;

/// 64 bytes of zeros after the script of the first case.
const SAVED: [u8; 64] = [
    0, 0, 0, 0, 0, 0, 0, 0, 1, 2, 0, 0, 0, 0, 0, 0, 0, 0, 0, 0, 0, 0, 0, 0, 0, 0, 0, 0, 0, 0, 0, 0,
    0, 0, 0, 0, 0, 0, 0, 0, 0, 0, 0, 0, 0, 0, 0, 0, 0, 0, 0, 0, 0, 0, 0, 0, 0, 0, 0, 0, 0, 0, 0, 0,
];

/// A run that ends before it reads the script.
const UNREAD: Case = Case {
    line: "rsp run --save saved --rdram image",
    image: &[0; 60],
    script: b"step\n",
    status: Status::Faulted,
    is_script_read: false,
    limit: IMAGE_LIMIT,
    ..RUN
};

/// A run that answers one line and breaks off.
const BROKEN_OFF: Case = Case {
    line: "rsp run --save saved",
    script: b"step\nst",
    status: Status::Faulted,
    output: Some(b"step Done pc 004\n"),
    ..RUN
};

/// A run of the script in the file `image`. Standard input isn't read.
const FILE: Case = Case {
    line: "rsp run image",
    image: b"step\nfoo",
    script: b"regs\n",
    output: Some(b"step Done pc 004\nfault 30 BadCommand\n"),
    is_script_read: false,
    limit: SCRIPT_LIMIT,
    ..RUN
};

/// A run in which replies come byte by byte. It saves 4 MB.
const STRICT: Case = Case {
    line: "rsp run --strict --save saved",
    width: 1,
    status: Status::Faulted,
    output: None,
    written: 1,
    saved: None,
    ..RUN
};

/// A script that is typed, of which standard error is in a file.
const TYPED: Terminals = Terminals {
    input: true,
    ..NO_TERMINALS
};

static CASES: [Case; 26] = [
    // The image is saved after a run, and is zeros where no file is named.
    Case {
        line: "rsp run --rdram image --save=saved",
        image: &[0; 64],
        script: b"load rdram 8 0102\nfoo\n",
        output: Some(b"ok\nfault 30 BadCommand\n"),
        limit: IMAGE_LIMIT,
        written: 1,
        saved: Some(&SAVED),
        ..RUN
    },
    Case {
        script: b"mem rdram 4194303 1\nmem rdram 4194303 2\n",
        output: Some(b"3fffff: 00\nfault 6 RangeFault\n"),
        ..RUN
    },
    // The image is read before the script.
    Case {
        message: Some(b"rsp: fault 7 SizeFault\n"),
        ..UNREAD
    },
    Case {
        line: "rsp run --save saved --rdram missing",
        message: Some(b"rsp: cannot read missing\n"),
        ..UNREAD
    },
    Case {
        read_fault: Some(FileFault::OutOfMemory),
        message: Some(b"rsp: fault 17 OutOfMemory\n"),
        ..UNREAD
    },
    // A run that breaks off saves nothing. In the last of these, as in the first script up to its third line, the reply to each
    // line is there before the next read.
    Case {
        after_script: AfterBytes::Fault,
        message: Some(b"rsp: fault 40 ReadFault\n"),
        ..BROKEN_OFF
    },
    Case {
        room: 17,
        message: Some(b"rsp: fault 41 WriteFault\n"),
        ..BROKEN_OFF
    },
    Case {
        after_script: AfterBytes::Hashes,
        message: Some(b"rsp: fault 42 ScriptTooLong\n"),
        ..BROKEN_OFF
    },
    Case {
        line: "rsp run",
        script: b"load imem 0 34021234ac0200000000000d\nstep\n",
        after_script: AfterBytes::Fault,
        message: Some(b"rsp: fault 40 ReadFault\n"),
        output: Some(b"ok\nstep Done pc 004\n"),
        ..BROKEN_OFF
    },
    // An image may not be saved.
    Case {
        script: b"step",
        write_fault: Some(FileFault::Refused(ErrorKind::PermissionDenied)),
        message: Some(b"rsp: cannot write saved\n"),
        ..BROKEN_OFF
    },
    Case {
        script: b"step",
        write_fault: Some(FileFault::OutOfMemory),
        message: Some(b"rsp: fault 17 OutOfMemory\n"),
        ..BROKEN_OFF
    },
    // A script in a file. It is read before the image, as the limit of the last read shows.
    FILE,
    Case {
        line: "rsp run --strict --save saved -- image",
        status: Status::Faulted,
        message: Some(b"rsp: faults in replies: 1, the first in line 2: fault 30 BadCommand\n"),
        written: 1,
        saved: None,
        ..FILE
    },
    Case {
        line: "rsp run missing --rdram image",
        status: Status::Faulted,
        message: Some(b"rsp: cannot read missing\n"),
        output: Some(b""),
        ..FILE
    },
    Case {
        line: "rsp run image --rdram image",
        status: Status::Faulted,
        message: Some(b"rsp: fault 7 SizeFault\n"),
        output: Some(b""),
        limit: IMAGE_LIMIT,
        ..FILE
    },
    Case {
        room: 20,
        status: Status::Faulted,
        message: Some(b"rsp: fault 41 WriteFault\n"),
        output: Some(b"step Done pc 004\nfau"),
        ..FILE
    },
    // Whoever types a script is greeted, but not if the script is in a file, or if the run doesn't begin.
    Case {
        terminals: TYPED,
        script: b"step\n",
        output: Some(b"step Done pc 004\n"),
        message: None,
        ..RUN
    },
    Case {
        terminals: TYPED,
        ..FILE
    },
    Case {
        terminals: TYPED,
        message: Some(b"rsp: fault 7 SizeFault\n"),
        ..UNREAD
    },
    // Faults are explained, whatever the pieces of the reply.
    Case {
        line: "rsp run --explain",
        script: b"step\nregs 1\n",
        width: 7,
        message: Some(b"line 2: fault 30 BadCommand\n  | regs 1\n  expected: regs\n"),
        output: Some(b"step Done pc 004\nfault 30 BadCommand\n"),
        ..RUN
    },
    Case {
        line: "rsp run --explain image",
        image: b"asm 0\n# nothing\n  nop 1\n end",
        message: Some(
            b"image:3: fault 12 BadOperand line 2\n  | nop 1\n  operand 1: 1\n  expected: nothing\n",
        ),
        output: Some(b"fault 12 BadOperand line 2\n"),
        ..FILE
    },
    Case {
        line: "rsp run --strict --explain image",
        image: b"asm 0\nend 1",
        status: Status::Faulted,
        message: Some(
            b"image:3: fault 10 BadLine line 2\n  | (none)\n  expected: end, for the block of line 1\n  help: write end in lower case, alone in line 2, which is: end 1\nrsp: faults in replies: 1, the first in line 3: fault 10 BadLine line 2\n",
        ),
        output: Some(b"fault 10 BadLine line 2\n"),
        ..FILE
    },
    // A strict run counts faults, and none of them twice.
    Case {
        script: b"step\nfoo # no command\n",
        message: Some(b"rsp: faults in replies: 1, the first in line 2: fault 30 BadCommand\n"),
        ..STRICT
    },
    Case {
        script: b"pc 2\nregs\nfoo",
        message: Some(b"rsp: faults in replies: 2, the first in line 1: fault 31 BadNumber\n"),
        ..STRICT
    },
    Case {
        script: b"asm 0\nnop",
        message: Some(b"rsp: faults in replies: 1, the first in line 3: fault 10 BadLine line 2\n"),
        ..STRICT
    },
    Case {
        script: b"step\nregs",
        status: Status::Done,
        ..STRICT
    },
];

#[test]
fn scripts_are_answered(rt: HostRuntime) -> Result<(), Fail> {
    check(&rt, &CASES)
}
