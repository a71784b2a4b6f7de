// Calls that allocate. `tests/program/test_failing_allocations.py` runs these tests many times, and each time another allocation fails: a test then
// prints the answer on standard output, and calls again. When memory is there, the answers must be the usual ones.

use super::case::{ASSEMBLY, Case, LISTING, NO_TERMINALS, RUN, separated};
use super::fakes::FakeWriter;
use super::run::IMAGE_LIMIT;
use clap::error::ErrorKind;
use rsp_cli::{FileFault, FileStore, SystemFiles};
use rsp_cli_args::{Request, read_arguments};
use std::alloc::AllocError;
use std::test::Fail;

/// The words of a command line. They are allocations of the test itself: if one fails, all are made again.
fn words(rt: &HostRuntime, line: &str) -> Result<Vec<String>, AllocError> {
    separated(rt, line).or_else(|_| separated(rt, line))
}

const SCRIPT: &[u8] = b"step\nasm 8\nx: .word x, x+4, -1\nj x\nnop\nend\nmem imem 8 20\n";

const PRINTED: &[u8] =
    b"step Done pc 004\nok 5 words\n000008: 000000080000000cffffffff08000002\n000018: 00000000\n";

static CASES: [Case; 3] = [
    Case {
        line: "rsp run --rdram image",
        image: &[0; 64],
        script: SCRIPT,
        output: Some(PRINTED),
        limit: IMAGE_LIMIT,
        ..RUN
    },
    Case {
        image: b"x: j x\nnop\n",
        output: Some(b"ok 2 words\n"),
        written: 1,
        saved: Some(&[8, 0, 0, 0, 0, 0, 0, 0]),
        ..ASSEMBLY
    },
    Case {
        image: &[0; 4],
        output: Some(b"nop\n"),
        ..LISTING
    },
];

/// Prints the fault that the program ends with, and how many bytes it had printed: they are the first of all.
fn report(rt: &HostRuntime, case: &Case, output: &[u8], errors: &[u8]) -> Result<(), Fail> {
    if !case.output.unwrap_or(b"").starts_with(output) {
        return Err(Fail::new("something else is printed"));
    }
    let number = if errors == b"rsp: fault 17 OutOfMemory\n".as_slice() {
        17
    } else if errors == b"rsp: fault 43 OutOfMemory\n".as_slice() {
        43
    } else {
        return Err(Fail::new("the program ends otherwise"));
    };
    println!(rt; "{number} after {}", output.len())?;
    Ok(())
}

/// Does the work of a case, and reports the fault if it isn't all done.
fn check(rt: &HostRuntime, words: &[String], case: &Case) -> Result<(), Fail> {
    let mut room = [0; 128];
    let mut error_room = [0; 64];
    let mut output = FakeWriter::new(&mut room, usize::MAX);
    let mut errors = FakeWriter::new(&mut error_room, usize::MAX);
    let end = case.work(rt, words, case.image, &mut output, &mut errors);
    if case.is_met(&end, output.bytes(), errors.bytes()) {
        return Ok(());
    }
    report(rt, case, output.bytes(), errors.bytes())
}

#[test]
fn work_is_done_when_memory_is_there(rt: HostRuntime) -> Result<(), Fail> {
    for case in &CASES {
        let words = words(&rt, case.line)?;
        check(&rt, &words, case)?;
        check(&rt, &words, case)?;
    }
    Ok(())
}

#[test]
fn arguments_are_read_when_memory_is_there(rt: HostRuntime) -> Result<(), Fail> {
    let words = words(&rt, "rsp dis image --listing")?;
    for _ in 0..2 {
        match read_arguments(rt.alloc(), &words) {
            Ok(Request::Disassemble(named)) => assert!(rt; named.words == "image"),
            Ok(_) => return Err(Fail::new("the arguments are read otherwise")),
            Err(error) => {
                assert!(rt; error.kind() == ErrorKind::OutOfMemory);
                println!(rt; "no memory for arguments")?;
            }
        }
    }
    Ok(())
}

#[test]
fn a_file_is_read_when_memory_is_there(rt: HostRuntime) -> Result<(), Fail> {
    for _ in 0..2 {
        match SystemFiles::new(&rt, NO_TERMINALS).read(rt.alloc(), "/dev/zero", 100) {
            Ok(bytes) => assert!(rt; bytes.as_slice() == [0u8; 100].as_slice()),
            Err(fault) => {
                assert!(rt; matches!(fault, FileFault::OutOfMemory));
                println!(rt; "no memory for a file")?;
            }
        }
    }
    Ok(())
}
