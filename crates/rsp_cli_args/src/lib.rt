//! The command line of the program `rsp`: what its arguments ask for. This is a crate of its own since it needs the library for
//! command lines alone: it is checked beside the crates of the machine and not after them.
#![tactic(auto)]

mod escaped;

use clap::builder::ValueParser;
use clap::error::ErrorKind;
use clap::{Arg, ArgAction, ArgMatches, Command, Error};
pub use escaped::Escaped;
use std::alloc::{AllocError, Global};

/// The version of everything in this repository, with its day or `unreleased`: what the file VERSION at the top says.
const VERSION: &str = "0.9.0 (unreleased)";

/// The files of a run, and how it ends.
#[derive(Drop)]
pub struct RunFiles<'a> {
    /// The file of the script; without one it is standard input.
    pub script: Option<&'a str>,
    /// The file with the bytes of the RDRAM before the run; without one they are zeros.
    pub rdram: Option<&'a str>,
    /// The file that the bytes of the RDRAM are written to after the run.
    pub save: Option<&'a str>,
    /// Whether a fault in a reply makes the run end with status 1.
    pub is_strict: bool,
    /// Whether each fault is explained, in a reply or of the run.
    pub with_explanation: bool,
}

/// The files of an assembly, and what is printed of it.
#[derive(Drop)]
pub struct AssembleFiles<'a> {
    /// The file of the source text.
    pub source: &'a str,
    /// The file that the words are written to.
    pub out: &'a str,
    /// The address of the first word in IMEM, as it was written; without it 0.
    pub at: Option<&'a str>,
    /// Whether each word is listed, with its address and its source line.
    pub with_listing: bool,
    /// Whether a fault is explained.
    pub with_explanation: bool,
}

/// The file of a disassembly, and how it is printed.
#[derive(Drop)]
pub struct DisassembleFiles<'a> {
    /// The file of the words.
    pub words: &'a str,
    /// The address of the first word in IMEM, as it was written; without it 0.
    pub at: Option<&'a str>,
    /// Whether each word is listed, with its address before its text.
    pub with_listing: bool,
    /// Whether the targets among the words are labels.
    pub with_labels: bool,
    /// Whether a fault is explained.
    pub with_explanation: bool,
}

/// What the command line requests.
#[derive(Drop)]
pub enum Request<'a> {
    /// `rsp run`: answering a script.
    Run(RunFiles<'a>),
    /// `rsp asm`: assembling a file of source text into a file of words.
    Assemble(AssembleFiles<'a>),
    /// `rsp dis`: printing the disassembly of a file of words.
    Disassemble(DisassembleFiles<'a>),
}

impl Request<'_> {
    /// Whether faults are explained.
    pub fn with_explanation(&self) -> bool {
        match self {
            Request::Run(asked) => asked.with_explanation,
            Request::Assemble(asked) => asked.with_explanation,
            Request::Disassemble(asked) => asked.with_explanation,
        }
    }
}

/// What an argument of a subcommand is.
#[derive(Clone, Copy)]
enum Kind {
    /// A file that must be named, by its position.
    File,
    /// A file that may be named, by its position.
    OptionalFile,
    /// An option with a value, which the help calls by this name.
    Value(&'static str),
    /// An option without a value.
    Flag,
    /// The same, with another name that the help doesn't show.
    FlagOrAlias(&'static str),
}

/// An argument of a subcommand: its name, its kind, and what the help says of it.
type ArgumentForm = (&'static str, Kind, &'static str);

struct SubcommandForm {
    name: &'static str,
    about: &'static str,
    arguments: &'static [ArgumentForm],
    /// What the help ends with.
    after: &'static str,
}

const SUBCOMMANDS: [SubcommandForm; 3] = [
    SubcommandForm {
        name: "run",
        about: "Reads a script, and prints a reply to each command",
        arguments: &RUN,
        after: SCRIPTS,
    },
    SubcommandForm {
        name: "asm",
        about: "Assembles source text into a file of words, high byte first",
        arguments: &ASM,
        after: "Example:\n  rsp asm my.s my.bin --explain\n",
    },
    SubcommandForm {
        name: "dis",
        about: "Prints a file of words, high byte first, as assembly text",
        arguments: &DIS,
        after: "Example:\n  rsp dis my.bin --labels\n",
    },
];

const RUN: [ArgumentForm; 5] = [
    (
        "SCRIPT",
        Kind::OptionalFile,
        "The script [default: standard input]",
    ),
    (
        "rdram",
        Kind::Value("FILE"),
        "RDRAM before the run [default: 4194304 zero bytes]",
    ),
    (
        "save",
        Kind::Value("FILE"),
        "The file for RDRAM after the run, which is overwritten",
    ),
    (
        "strict",
        Kind::Flag,
        "Ends with status 1 if a reply is a fault",
    ),
    (
        "explain",
        Kind::Flag,
        "Explains faults; always on if you type at a terminal",
    ),
];

/// What the help of `run` ends with.
const SCRIPTS: &str = "\
Commands of a script:
  Fill memory   load BANK ADDR HEX, asm ADDR (then lines of source text), end
  Run           task ADDR, step, run N, back N
  Stop a run    break ADDR, unbreak ADDR, watch ADDR LEN, unwatch K
  Inspect       regs, vregs, acc, flags, sp, mem BANK ADDR LEN, dis ADDR N
  Change        pc ADDR, read N, write N VALUE
BANK is dmem, imem or rdram. Numbers are decimal, or 0x and hexadecimal digits.

Example of a script:
  asm 0
    addiu $1, $0, 5
    break
  end
  run 10
  regs
";

const ASM: [ArgumentForm; 5] = [
    ("SRC", Kind::File, "The source text"),
    (
        "OUT",
        Kind::File,
        "The file for the words, which is overwritten",
    ),
    ADDRESS,
    (
        "listing",
        Kind::Flag,
        "Prints each word with its address and its source line",
    ),
    EXPLANATION,
];

const DIS: [ArgumentForm; 5] = [
    ("FILE", Kind::File, "The words, at most 1024"),
    ADDRESS,
    (
        "listing",
        Kind::FlagOrAlias("places"),
        "Prints each word with its address before its text",
    ),
    (
        "labels",
        Kind::Flag,
        "Gives labels to the words that jumps and branches lead to",
    ),
    EXPLANATION,
];

/// The address of the first word, as text. It is read and refused where it is used.
const ADDRESS: ArgumentForm = (
    "at",
    Kind::Value("ADDR"),
    "The address of the first word: 0, 4, .. 4092 [default: 0]",
);

const EXPLANATION: ArgumentForm = ("explain", Kind::Flag, "Explains faults");

fn argument<'a>(alloc: Global, form: ArgumentForm) -> Result<Arg<'a>, AllocError> {
    let (name, kind, about) = form;
    let argument = Arg::new(alloc, name).help(about);
    match kind {
        Kind::File => Ok(with_value(argument.required(true))),
        Kind::OptionalFile => Ok(with_value(argument)),
        Kind::Value(value) => Ok(with_value(argument.long(name).value_name(value))),
        Kind::Flag => Ok(argument.long(name).action(ArgAction::SetTrue)),
        Kind::FlagOrAlias(other) => argument.long(name).action(ArgAction::SetTrue).alias(other),
    }
}

/// The argument with a value, which isn't empty. It needs no action: without one, `clap` sets an argument's value.
fn with_value(argument: Arg<'_>) -> Arg<'_> {
    argument.value_parser(ValueParser::NonEmptyString)
}

fn subcommand<'a>(alloc: Global, given: &SubcommandForm) -> Result<Command<'a>, AllocError> {
    let mut command = Command::new(alloc, given.name)
        .about(given.about)
        .after_help(given.after);
    for &form in given.arguments {
        command = command.arg(argument(alloc, form)?)?;
    }
    Ok(command)
}

fn subcommands<'a>(alloc: Global) -> Result<Vec<Command<'a>>, AllocError> {
    let mut made = Vec::new(alloc);
    for given in &SUBCOMMANDS {
        made.push(subcommand(alloc, given)?)?;
    }
    Ok(made)
}

/// The forms of the command line.
fn command<'a>(alloc: Global) -> Result<Command<'a>, AllocError> {
    let subcommands = subcommands(alloc)?;
    Command::new(alloc, "rsp")
        .about("Emulates, debugs, assembles and disassembles programs for the Nintendo 64's RSP")
        .version(VERSION)
        .subcommand_required(true)
        .subcommands(subcommands)?
        .bin_name("rsp")
}

/// An assembly. None if the source text or the file of the words isn't named.
fn assembly<'a>(given: &ArgMatches<'a>) -> Option<Request<'a>> {
    Some(Request::Assemble(AssembleFiles {
        source: given.get_str("SRC")?,
        out: given.get_str("OUT")?,
        at: given.get_str("at"),
        with_listing: given.get_flag("listing"),
        with_explanation: given.get_flag("explain"),
    }))
}

/// A disassembly. None if its file isn't named.
fn disassembly<'a>(given: &ArgMatches<'a>) -> Option<Request<'a>> {
    Some(Request::Disassemble(DisassembleFiles {
        words: given.get_str("FILE")?,
        at: given.get_str("at"),
        with_listing: given.get_flag("listing"),
        with_labels: given.get_flag("labels"),
        with_explanation: given.get_flag("explain"),
    }))
}

fn run<'a>(given: &ArgMatches<'a>) -> Request<'a> {
    Request::Run(RunFiles {
        script: given.get_str("SCRIPT"),
        rdram: given.get_str("rdram"),
        save: given.get_str("save"),
        is_strict: given.get_flag("strict"),
        with_explanation: given.get_flag("explain"),
    })
}

/// What the matches of the command line ask for. None if they are of no subcommand, or lack one of its files.
fn request_in<'a>(matches: &ArgMatches<'a>) -> Option<Request<'a>> {
    let (name, given) = matches.subcommand()?;
    match name {
        "run" => Some(run(given)),
        "asm" => assembly(given),
        "dis" => disassembly(given),
        _ => None,
    }
}

/// The error if the matches ask for nothing. No command line leads to it, because the forms require a subcommand and its files.
fn nothing_asked(alloc: Global) -> Result<Error, AllocError> {
    Command::new(alloc, "rsp").error(
        ErrorKind::MissingSubcommand,
        "the command line asks for nothing that is known",
    )
}

fn matches_of<'a>(alloc: Global, words: &'a [String]) -> Result<ArgMatches<'a>, Error> {
    match command(alloc)?.try_get_matches_from(words) {
        Ok(matches) => Ok(matches),
        Err(error) => Err(with_tip(alloc, words, error)?),
    }
}

/// The error, with a tip if a file is where a subcommand has to be.
fn with_tip(alloc: Global, words: &[String], error: Error) -> Result<Error, AllocError> {
    if error.kind() == ErrorKind::InvalidSubcommand {
        if let Some(file) = file_first(words) {
            return subcommand_before(alloc, file);
        }
    }
    Ok(error)
}

/// The first argument, if it looks like the name of a file.
fn file_first(words: &[String]) -> Option<&str> {
    let word = words.get(1)?.as_str();
    if word.contains(['.', '/']) {
        Some(word)
    } else {
        None
    }
}

/// The error of arguments that begin with a file, and not with a subcommand.
fn subcommand_before(alloc: Global, file: &str) -> Result<Error, AllocError> {
    let message = format!(in alloc;
        "\
unrecognized subcommand '{file}'

  tip: to answer a script, use 'rsp run {file}'
  tip: to assemble a source text, use 'rsp asm {file} <OUT>'"
    )?;
    command(alloc)?.error(ErrorKind::InvalidSubcommand, message.as_str())
}

fn read_words<'a>(alloc: Global, words: &'a [String]) -> Result<Request<'a>, Error> {
    let matches = matches_of(alloc, words)?;
    match request_in(&matches) {
        Some(asked) => Ok(asked),
        None => Err(nothing_asked(alloc)?),
    }
}

fn escaped_words(alloc: Global, words: &[String]) -> Result<Vec<String>, AllocError> {
    let mut escaped = Vec::new(alloc);
    for word in words {
        let shown = Escaped(word.as_str());
        escaped.push(format!(in alloc; "{shown}")?)?;
    }
    Ok(escaped)
}

/// Reads the arguments, the first of which is the program's name. The error has the text to print and its kind: why the arguments
/// are refused, or the help or the version that they ask for. It shows the arguments as [`Escaped`] does, because they are read in
/// that form first.
pub fn read_arguments<'a>(alloc: Global, words: &'a [String]) -> Result<Request<'a>, Error> {
    let escaped = escaped_words(alloc, words)?;
    read_words(alloc, &escaped)?;
    read_words(alloc, words)
}
