use super::fakes::{AfterBytes, FakeFiles, FakeReader, FakeWriter};
use rsp_bench::MachineRunner;
use rsp_cli::{FileFault, Status, Terminals, work};
use std::alloc::AllocError;
use std::test::Fail;

/// How many bytes standard output has room for, if a case doesn't say less.
const ROOM: usize = 1024;

/// A command line, what the program finds when it does the work, and what it must do. What it writes is `None` where that is too
/// long to be given here, and then it must only be something.
#[derive(Drop)]
pub(super) struct Case {
    /// The words of the command line, separated by spaces.
    pub(super) line: &'static str,
    /// The bytes of the file `image`, the only one that can be read.
    pub(super) image: &'static [u8],
    /// What each read of a file ends with.
    pub(super) read_fault: Option<FileFault>,
    /// What each write of a file ends with.
    pub(super) write_fault: Option<FileFault>,
    /// Which standard streams are terminals.
    pub(super) terminals: Terminals,
    pub(super) script: &'static [u8],
    pub(super) after_script: AfterBytes,
    /// How many bytes standard output has room for.
    pub(super) room: usize,
    /// The most bytes that standard output takes of a write.
    pub(super) width: usize,
    pub(super) status: Status,
    /// What it writes to standard error.
    pub(super) message: Option<&'static [u8]>,
    pub(super) output: Option<&'static [u8]>,
    /// Whether it reads from standard input.
    pub(super) is_script_read: bool,
    /// How many bytes it asks of the file that it reads; 0 if it reads none.
    pub(super) limit: u64,
    /// How many files it writes.
    pub(super) written: u64,
    /// The bytes of the last of them.
    pub(super) saved: Option<&'static [u8]>,
}

pub(super) const NO_TERMINALS: Terminals = Terminals {
    input: false,
    output: false,
    errors: false,
};

/// A run without files of a script without lines. The other cases say how they differ from this one.
pub(super) const RUN: Case = Case {
    line: "rsp run",
    image: b"",
    read_fault: None,
    write_fault: None,
    terminals: NO_TERMINALS,
    script: b"",
    after_script: AfterBytes::End,
    room: ROOM,
    width: usize::MAX,
    status: Status::Done,
    message: Some(b""),
    output: Some(b""),
    is_script_read: true,
    limit: 0,
    written: 0,
    saved: Some(b""),
};

/// An assembly that writes nothing.
pub(super) const ASSEMBLY: Case = Case {
    line: "rsp asm image words",
    is_script_read: false,
    limit: 1_048_577,
    ..RUN
};

/// A listing of no words.
pub(super) const LISTING: Case = Case {
    line: "rsp dis image",
    is_script_read: false,
    limit: 4_097,
    ..RUN
};

/// How the work ended, and what it did with files and the script.
#[derive(Drop)]
pub(super) struct Outcome<'a> {
    pub(super) status: Status,
    pub(super) files: FakeFiles<'a>,
    reads: u64,
}

impl Case {
    /// Does the work that these words of a command line ask for, where the program finds this image, and all else as the case says.
    /// It allocates nothing of its own.
    pub(super) fn work<'a>(
        &self,
        rt: &HostRuntime,
        words: &[String],
        image: &'a [u8],
        output: &mut FakeWriter,
        errors: &mut FakeWriter,
    ) -> Outcome<'a> {
        let alloc = rt.alloc();
        let mut files = FakeFiles::new(
            alloc,
            image,
            self.read_fault,
            self.write_fault,
            self.terminals,
        );
        let mut script = FakeReader::new(self.script, self.after_script);
        let status = work(
            alloc,
            words,
            &MachineRunner,
            &mut files,
            &mut script,
            output,
            errors,
        );
        Outcome {
            status,
            files,
            reads: script.reads,
        }
    }

    /// Whether all is as the case says.
    pub(super) fn is_met(&self, end: &Outcome, output: &[u8], errors: &[u8]) -> bool {
        end.status == self.status
            && is_wanted(self.message, errors)
            && is_wanted(self.output, output)
            && self.is_script_read == (end.reads > 0)
            && self.limit == end.files.limit
            && self.written == end.files.written
            && is_wanted(self.saved, &end.files.saved)
    }
}

fn is_wanted(wanted: Option<&[u8]>, found: &[u8]) -> bool {
    match wanted {
        Some(wanted) => wanted == found,
        None => !found.is_empty(),
    }
}

/// The words of a command line.
pub(super) fn separated(rt: &HostRuntime, line: &str) -> Result<Vec<String>, AllocError> {
    let mut words = Vec::new(rt.alloc());
    for word in line.split(' ') {
        words.push(word.to_string(rt.alloc())?)?;
    }
    Ok(words)
}

/// Does the work of a case over an image: whether all is as the case says.
pub(super) fn is_as_wanted(
    rt: &HostRuntime,
    case: &Case,
    image: &[u8],
) -> Result<bool, AllocError> {
    let words = separated(rt, case.line)?;
    let mut room = [0; ROOM];
    let mut error_room = [0; ROOM];
    let mut output = FakeWriter::new(&mut room[..case.room.min(ROOM)], case.width);
    let mut errors = FakeWriter::new(&mut error_room, usize::MAX);
    let end = case.work(rt, &words, image, &mut output, &mut errors);
    Ok(case.is_met(&end, output.bytes(), errors.bytes()))
}

/// Fails at the first case that isn't as it says. The first has the number 0.
pub(super) fn check(rt: &HostRuntime, cases: &[Case]) -> Result<(), Fail> {
    for (number, case) in cases.iter().enumerate() {
        if !is_as_wanted(rt, case, case.image)? {
            let told = format!(in rt.alloc(); "case {number}, {}", case.line)?;
            return Err(Fail::new(told));
        }
    }
    Ok(())
}
