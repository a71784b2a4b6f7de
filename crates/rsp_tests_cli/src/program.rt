mod asm;
mod case;
mod dis;
mod fakes;
mod long_files;
mod out_of_memory;
mod run;

use case::{Case, RUN, check};
use fakes::FakeWriter;
use rsp_cli::{Status, refuse_arguments};
use std::io::{self, ErrorKind};
use std::test::Fail;

/// A command line that is refused, or asks for help.
const REFUSED: Case = Case {
    script: b"step\n",
    status: Status::Refused,
    message: None,
    is_script_read: false,
    ..RUN
};

static REFUSALS: [Case; 10] = [
    Case {
        line: "rsp",
        ..REFUSED
    },
    Case {
        line: "rsp asm source",
        ..REFUSED
    },
    Case {
        line: "rsp dis words more",
        ..REFUSED
    },
    Case {
        line: "rsp run image image",
        ..REFUSED
    },
    Case {
        line: "rsp run --fast",
        ..REFUSED
    },
    Case {
        line: "rsp run --help",
        ..REFUSED
    },
    Case {
        line: "rsp asm image words --at 2",
        ..REFUSED
    },
    Case {
        line: "rsp asm image image",
        ..REFUSED
    },
    Case {
        line: "rsp run image --save image",
        ..REFUSED
    },
    Case {
        line: "rsp run --save /dev/stdin",
        ..REFUSED
    },
];

#[test]
fn other_command_lines_are_refused(rt: HostRuntime) -> Result<(), Fail> {
    check(&rt, &REFUSALS)
}

#[test]
fn an_argument_may_be_no_text(rt: HostRuntime) {
    for (kind, status) in [
        (ErrorKind::InvalidData, Status::Refused),
        (ErrorKind::OutOfMemory, Status::Faulted),
    ] {
        let mut room = [0; 64];
        let mut errors = FakeWriter::new(&mut room, usize::MAX);
        let ended = refuse_arguments(&io::Error::from(kind), &mut errors);
        assert!(rt; ended == status && errors.bytes().ends_with(b"\n"));
    }
}
