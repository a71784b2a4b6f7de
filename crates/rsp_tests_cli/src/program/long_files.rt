use super::case::{ASSEMBLY, Case, LISTING, RUN, is_as_wanted};
use super::run::{IMAGE_LIMIT, SCRIPT_LIMIT};
use rsp_cli::Status;
use std::test::Fail;

/// How long the file `image` is. Its bytes are no text, so a source that isn't too long is refused for that.
static CASES: [(usize, Case); 7] = [
    (
        8_388_608,
        Case {
            line: "rsp run --rdram image",
            limit: IMAGE_LIMIT,
            ..RUN
        },
    ),
    (
        8_388_616,
        Case {
            line: "rsp run --rdram image",
            limit: IMAGE_LIMIT,
            status: Status::Faulted,
            message: Some(b"rsp: fault 7 SizeFault\n"),
            is_script_read: false,
            ..RUN
        },
    ),
    (
        1_048_576,
        Case {
            line: "rsp run image",
            output: Some(b"fault 32 LineTooLong\n"),
            is_script_read: false,
            limit: SCRIPT_LIMIT,
            ..RUN
        },
    ),
    (
        1_048_577,
        Case {
            line: "rsp run --save saved image --rdram missing",
            status: Status::Faulted,
            message: Some(b"rsp: fault 42 ScriptTooLong\n"),
            is_script_read: false,
            limit: SCRIPT_LIMIT,
            ..RUN
        },
    ),
    (
        1_048_576,
        Case {
            status: Status::Faulted,
            message: Some(b"rsp: fault 33 NotText\n"),
            ..ASSEMBLY
        },
    ),
    (
        1_048_577,
        Case {
            status: Status::Faulted,
            message: Some(b"rsp: fault 42 ScriptTooLong\n"),
            ..ASSEMBLY
        },
    ),
    (
        4_104,
        Case {
            status: Status::Faulted,
            message: Some(b"rsp: bad size\n"),
            ..LISTING
        },
    ),
];

#[test]
fn a_file_may_be_too_long(rt: HostRuntime) -> Result<(), Fail> {
    for (length, case) in &CASES {
        let image = vec![in rt.alloc(); 0xff; *length]?;
        assert!(rt; is_as_wanted(&rt, case, &image)?, "{}, {length}", case.line);
    }
    Ok(())
}
