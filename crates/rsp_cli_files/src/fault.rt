use rsp_asm::AsmFault;
use rsp_cli_args::Escaped;
use std::fmt::{self, Display, Formatter, Write};
use std::io::ErrorKind;

/// Why the program ends with a fault. The text is that of its line on standard error.
#[derive(Drop)]
pub enum Fault<'a> {
    /// The value of `--at` is no multiple of 4 from 0 to 4092.
    NoAddress(&'a str),
    /// The command line would overwrite a file that it reads.
    Overwrites(&'a str, Overwritten),
    /// A file couldn't be read, for this reason.
    CannotRead(&'a str, ErrorKind),
    /// A file couldn't be written, for this reason.
    CannotWrite(&'a str, ErrorKind),
    /// The length of the file for the RDRAM is no multiple of 8 from 64 to 8,388,608.
    ImageSize(FileLength<'a>),
    /// The length of a file of words is no multiple of 4, or the words don't fit into IMEM from their address on, where there is room for so
    /// many bytes.
    WordsSize(FileLength<'a>, usize),
    /// The source text has a fault.
    Source(AsmFault),
    /// The source text has faults, which are explained: a message of several lines.
    Explained(String),
    /// The source text isn't UTF-8, from this character on.
    NotText(Position),
    /// There was no memory, outside the run of a script.
    OutOfMemory,
    /// A read of the script failed.
    RunRead,
    /// A write to standard output failed.
    RunWrite,
    /// The script or the source text has more than 1,048,576 bytes.
    ScriptTooLong,
    /// There was no memory in the run of a script.
    RunOutOfMemory,
    /// A strict run has faults among its replies.
    Replies {
        /// How many replies are faults.
        count: u64,
        /// The line of the first of them, if it is known.
        line: Option<usize>,
        /// The first of them.
        first: String,
    },
}

/// What a command line would overwrite although it reads it.
#[derive(Clone, Copy)]
pub enum Overwritten {
    /// The source text, by its words.
    SourceText,
    /// The script, by the contents of RDRAM after it.
    Script,
}

/// How many bytes of a file were read, which are all of it unless it is too long.
#[derive(Clone, Copy)]
pub struct FileLength<'a> {
    /// The file.
    pub name: &'a str,
    /// How many bytes of it were read.
    pub bytes: usize,
}

/// A character of a text.
#[derive(Clone, Copy)]
pub struct Position {
    /// Its line, from 1 on.
    pub line: usize,
    /// How many characters of the line are before it, and 1.
    pub column: usize,
}

impl Display for Fault<'_> {
    fn fmt<W: Write>(&self, f: &mut Formatter<W>) -> fmt::Result {
        let text = match self {
            Fault::NoAddress(value) => {
                let value = Escaped(value);
                return write!(
                    f,
                    "invalid value '{value}' for '--at <ADDR>': not a multiple of 4 from 0 to 4092"
                );
            }
            Fault::Overwrites(name, what) => {
                let name = Escaped(name);
                let (argument, input) = match what {
                    Overwritten::SourceText => ("<OUT>", "source text"),
                    Overwritten::Script => ("--save <FILE>", "script"),
                };
                return write!(
                    f,
                    "invalid value '{name}' for '{argument}': it would overwrite the {input}"
                );
            }
            Fault::CannotRead(name, _) => return write!(f, "cannot read {}", Escaped(name)),
            Fault::CannotWrite(name, _) => return write!(f, "cannot write {}", Escaped(name)),
            Fault::Replies { count, line, first } => {
                return match line {
                    Some(line) => write!(
                        f,
                        "faults in replies: {count}, the first in line {line}: {first}"
                    ),
                    None => write!(f, "faults in replies: {count}, the first: {first}"),
                };
            }
            Fault::Source(fault) => return write!(f, "{fault}"),
            Fault::Explained(said) => return f.write_str(said.as_str()),
            Fault::ImageSize(_) => "fault 7 SizeFault",
            Fault::WordsSize(..) => "bad size",
            Fault::NotText(_) => "fault 33 NotText",
            Fault::OutOfMemory => "fault 17 OutOfMemory",
            Fault::RunRead => "fault 40 ReadFault",
            Fault::RunWrite => "fault 41 WriteFault",
            Fault::ScriptTooLong => "fault 42 ScriptTooLong",
            Fault::RunOutOfMemory => "fault 43 OutOfMemory",
        };
        f.write_str(text)
    }
}
