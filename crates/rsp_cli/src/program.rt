ghost use Rattle.std.specs.Prelude.{◌≡◌, ◌≢◌, ◌⊎◌, ◌<◌, ℕ, List, Option, false, None, length, IfSome, IfOk, IfErr, MatchResult, OnOk, IsErrOf, option_map};
ghost use Rattle.rsp_cli_args.specs.declared.Request.{Request};
ghost use Rattle.rsp_cli_files.specs.Files.{SameFiles};
ghost use Rattle.rsp_cli_files.specs.Overwriting.{overwrites};
ghost use Rattle.rsp_cli_files.specs.Words.{origin_of};
ghost use Rattle.rsp_script_io.specs.Faults.{failed_reads, failed_writes};
ghost use Rattle.rsp_script_io.specs.Feeds.{script_limit};
ghost use Rattle.rsp_cli.specs.Ends.{at_of, ended_status, IsWork, IsRefused, IsCarriedOut};
ghost use Rattle.rsp_cli.specs.Inputs.{IsScriptFault};
ghost use Rattle.rsp_cli.specs.Runs.{IfRun, IsUnfit, script_of};
ghost use Rattle.rsp_cli.specs.Streams.{run_end};

use crate::run::{Ended, run_request};
use crate::status::Status;
use clap::Error;
use clap::error::ErrorKind;
use rsp_cli_args::{Request, read_arguments};
use rsp_cli_files::{
    Cause, Fault, FileStore, assemble_file, disassemble_file, origin_of, refuse_overwriting,
};
use rsp_script_io::{FromRead, RunFault, ScriptRunner, ToWrite};
use std::alloc::Global;
use std::io::{self, Read, Write};

/// Does what the arguments ask for; the first of them is the program's name. `runner` answers the script of a run, which is `input`
/// if no file is named, `output` takes replies and listings. A fault, or why the arguments are refused, is written to `errors`. If they are
/// refused, no file was read or written. Otherwise the status is that of what happened: a request that was carried out, or, if the
/// arguments have none, of printing the version. (No contract says which arguments make which request.)
pub fn work<S: ScriptRunner, F: FileStore, R: Read + Drop, W: Write + Drop, E: Write>(
    alloc: Global,
    args: &[String],
    runner: &S,
    files: &mut F,
    input: R,
    output: W,
    errors: &mut E,
) -> Status
    ensures refused { result ≡ Status.Refused → files.new ≡ files.old }
    ensures worked { ((files.new ≡ files.old) × (result ≡ Status.Done → errors.new ≡ errors.old))
        ⊎ ((asked : Request) × (written : Option (List ℕ)) × IsCarriedOut (F.same files.old) S.out_of S.image_of asked
        (record { before = F.content files.old; after = F.content files.new; input = R.remaining input; output = W.contents output; written = written }) result) }
{
    match read_arguments(alloc, args) {
        Ok(asked) => carry_out(alloc, &asked, runner, files, input, output, errors),
        Err(error) => answer_words(&error, output, errors),
    }
}

/// Does what is requested, unless it is refused, and reports how it ended.
fn carry_out<'a, S: ScriptRunner, F: FileStore, R: Read + Drop, W: Write + Drop, E: Write>(
    alloc: Global,
    asked: &Request<'a>,
    runner: &S,
    files: &mut F,
    input: R,
    output: W,
    errors: &mut E,
) -> Status
    ensures refused { result ≡ Status.Refused → files.new ≡ files.old }
    ensures worked { (written : Option (List ℕ)) × IsCarriedOut (F.same files.old) S.out_of S.image_of asked.now
        (record { before = F.content files.old; after = F.content files.new; input = R.remaining input; output = W.contents output; written = written }) result }
{
    if let Err(fault) = check_request(files, asked) {
        return refuse(&fault, errors);
    }
    let ended = answer_request(alloc, asked, runner, files, input, output, &mut *errors);
    status_after(ended.result, asked.with_explanation(), errors)
}

/// Refuses what the forms of the command line allow: a wrong address, or a file that is read and would be overwritten.
fn check_request<'a, F: FileStore>(files: &F, asked: &Request<'a>) -> Result<(), Fault<'a>>
    ensures address { OnOk result (origin_of (at_of asked.now) ≢ None) }
    ensures inputs { IfSome (overwrites (F.same files.now) asked.now) (λ does. IfOk result (λ _. does ≡ false)) }
    ensures refused { IfErr result (λ _. IsRefused (F.same files.now) asked.now) }
{
    let at = match asked {
        Request::Run(_) => None,
        Request::Assemble(named) => named.at,
        Request::Disassemble(named) => named.at,
    };
    origin_of(at)?;
    refuse_overwriting(files, asked)
}

/// The status after work that was requested. A fault is written to `errors`, and its cause if that is asked for.
fn status_after<E: Write>(
    ended: Result<(), Fault>,
    with_explanation: bool,
    errors: &mut E,
) -> Status
    ensures { result ≡ ended_status ended.entry }
{
    match ended {
        Ok(()) => Status::Done,
        Err(fault) => faulted(&fault, with_explanation, errors),
    }
}

/// Does the work that is requested. Returns how it ended, with the streams: what has read from the input, and the output, which has the
/// replies or the listing.
fn answer_request<'a, S: ScriptRunner, F: FileStore, R: Read + Drop, W: Write + Drop, E: Write>(
    alloc: Global,
    asked: &Request<'a>,
    runner: &S,
    files: &mut F,
    input: R,
    mut output: W,
    errors: &mut E,
) -> Ended<'a, FromRead<R>, ToWrite<W>>
    ensures work { IsWork S.out_of S.image_of asked.now
        (record { before = F.content files.old; after = F.content files.new; input = R.remaining input; output = W.contents output; written = W.contents result.sink.inner }) result.result }
    ensures unfit { IfRun asked.now (λ named. IfSome (option_map (λ t. t.now) named.script) (λ name. IsUnfit (F.content files.old name) →
        MatchResult result.result (λ _. ⊥) (IsScriptFault name (F.content files.old name))
        × (result.sink.inner ≡ output) × SameFiles (F.content files.old) (F.content files.new))) }
    ensures reads { IfRun asked.now (λ _. result.source.failures ≡ failed_reads (run_end result.result)) }
    ensures writes { IfRun asked.now (λ _. result.sink.failures ≡ failed_writes (run_end result.result)) }
    ensures long { IfRun asked.now (λ named. IsErrOf (run_end result.result) RunFault.ScriptTooLong
        → IfSome (script_of named (F.content files.old) (R.remaining input)) (λ script. script_limit < length script)) }
{
    let result = match asked {
        Request::Run(named) => {
            return run_request(alloc, named, runner, files, input, output, errors);
        }
        Request::Assemble(named) => assemble_file(alloc, files, named, &mut output),
        Request::Disassemble(named) => disassemble_file(alloc, files, named, &mut output),
    };
    Ended {
        result,
        source: FromRead::new(input),
        sink: ToWrite::new(output),
    }
}

/// Answers arguments that ask for no work: prints the version if they ask for it, else why they are refused.
fn answer_words<W: Write + Drop, E: Write>(error: &Error, mut output: W, errors: &mut E) -> Status
    ensures { result ≡ Status.Done → errors.new ≡ errors.old }
{
    match error.kind() {
        ErrorKind::OutOfMemory => faulted(&Fault::OutOfMemory, false, errors),
        ErrorKind::DisplayVersion => match write!(output, "{error}") {
            Ok(()) => Status::Done,
            Err(_) => faulted(&Fault::RunWrite, false, errors),
        },
        _ => {
            let _ = write!(errors, "{error}");
            Status::Refused
        }
    }
}

/// Reports why the arguments could not be read.
pub fn refuse_arguments<E: Write>(error: &io::Error, errors: &mut E) -> Status
    ensures { result ≢ Status.Done }
{
    if error.kind() == io::ErrorKind::OutOfMemory {
        return faulted(&Fault::OutOfMemory, false, errors);
    }
    let _ = writeln!(errors, "error: an argument isn't UTF-8");
    Status::Refused
}

/// Writes to `errors` why a command line is refused, in the form of the refusals of `clap`.
fn refuse<E: Write>(fault: &Fault, errors: &mut E) -> Status
    ensures { result ≡ Status.Refused }
{
    let _ = writeln!(
        errors,
        "error: {fault}\n\nFor more information, try '--help'."
    );
    Status::Refused
}

/// Writes a fault to `errors`, on a line of its own, and its cause after it if that is asked for; what explains the faults of a text, as it is.
/// If the line can't be written, the status still reports the fault.
fn faulted<E: Write>(fault: &Fault, with_explanation: bool, errors: &mut E) -> Status
    ensures { result ≡ Status.Faulted }
{
    if let Fault::Explained(said) = fault {
        let _ = errors.write_all(said.as_str().as_bytes());
        return Status::Faulted;
    }
    let _ = writeln!(errors, "rsp: {fault}");
    if with_explanation {
        let _ = write!(errors, "{}", Cause(fault));
    }
    Status::Faulted
}
