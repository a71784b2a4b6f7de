ghost use Rattle.std.specs.Prelude.{◌≡◌, ◌⊎◌, ◌+◌, ◌-◌, ◌<◌, ◌≤◌, ◌^◌, IsTrue, false, length, None, Some, Ok, MatchResult, IfSome, MatchOption, OnOk, OnErr, IfOk, IfErr, IsErrOf, option_map};
ghost use Rattle.std.specs.Io.KnownBytes.{Appends};
ghost use Rattle.rsp_script_io.specs.EarlyEnd.{TakesAtMost, Takes};
ghost use Rattle.rsp_script_io.specs.Faults.{failed_reads, failed_writes};
ghost use Rattle.rsp_script_io.specs.Feeds.{script_limit};
ghost use Rattle.rsp_cli_files.specs.Files.{Holds, SameFiles};
ghost use Rattle.rsp_cli.specs.Faults.{IsRefusal};
ghost use Rattle.rsp_cli.specs.Inputs.{default_image, IsScriptFault};
ghost use Rattle.rsp_cli.specs.Runs.{script_of, image_of, IfKnown, IsAnswered, IsUnfit, IsSaved, IsRunFault, IsStrictFault, IsInputFault, IsFaultOver, IsRequestFault, IsLate, LeavesFiles, told_bytes};
ghost use Rattle.rsp_cli.specs.Streams.{run_end, streams_of, RunsOver};

use crate::explaining::{Explainer, Style};
use crate::faults::{CountingSink, Faults};
use crate::greeting::greet;
use crate::inputs::{read_image, read_script};
use crate::save::save_left;
use crate::watch::{Heard, Listener, Text, Watch, Watcher};
use rsp_cli_args::{Escaped, RunFiles};
use rsp_cli_files::{Fault, FileStore};
use rsp_explain::Head;
use rsp_memory::Rdram;
use rsp_script_io::{FromRead, MemSource, RunFault, ScriptRunner, Sink, Source, ToWrite};
use std::alloc::Global;
use std::cell::RefCell;
use std::io::{Read, Write};

/// How a run ended, with its streams.
#[derive(Drop)]
pub struct Ended<'a, R: Drop, W: Drop> {
    /// Why it failed, if it did.
    pub result: Result<(), Fault<'a>>,
    /// What the input has left, and whether a read of it failed.
    pub source: R,
    /// What has the replies, and whether a write to it failed.
    pub sink: W,
}

/// Answers a script. Its file is read first, if one is named, and then that of the image. Whoever types the script is greeted.
///
/// If the bytes of the script and of the image are known, a run that ends well has written exactly the replies that the runner's
/// definitions give for them, and has saved the image that they give. If the script's file is too long or can't be read, that is the
/// fault (or there is no memory to read it), and nothing was written. RunRead and RunWrite come exactly after a read or a write that
/// failed. A run that fails changes no file, unless it is a strict one, which is refused when its image is saved.
pub fn run_request<'a, S: ScriptRunner, F: FileStore, R: Read + Drop, W: Write + Drop, E: Write>(
    alloc: Global,
    asked: &RunFiles<'a>,
    runner: &S,
    files: &mut F,
    input: R,
    output: W,
    errors: &mut E,
) -> Ended<'a, FromRead<R>, ToWrite<W>>
    ensures answered { OnOk result.result (IsAnswered S.out_of S.image_of asked.now (F.content files.old) (F.content files.new) (R.remaining input) (W.contents output) (W.contents result.sink.inner)) }
    ensures unfit { IfSome (option_map (λ t. t.now) asked.now.script) (λ name. IsUnfit (F.content files.old name) →
        MatchResult result.result (λ _. ⊥) (IsScriptFault name (F.content files.old name))
        × (result.sink.inner ≡ output) × SameFiles (F.content files.old) (F.content files.new)) }
    ensures reads { result.source.failures ≡ failed_reads (run_end result.result) }
    ensures writes { result.sink.failures ≡ failed_writes (run_end result.result) }
    ensures long { IsErrOf (run_end result.result) RunFault.ScriptTooLong → IfSome (script_of asked.now (F.content files.old) (R.remaining input)) (λ script. script_limit < length script) }
    ensures past { IsErrOf (run_end result.result) RunFault.ScriptTooLong → asked.now.script ≡ None → Takes (script_limit + 1) (R.remaining input) (R.remaining result.source.inner) }
    ensures few { TakesAtMost (script_limit + 1) (R.remaining input) (R.remaining result.source.inner) }
    ensures err { IfErr result.result (IsRequestFault (option_map (λ t. t.now) asked.now.script) asked.now (F.content files.old)) }
    ensures same { IfErr result.result (LeavesFiles asked.now.is_strict (F.content files.old) (F.content files.new)) }
{
    let source = FromRead::new(input);
    let sink = ToWrite::new(output);
    match asked.script {
        Some(name) => run_file(alloc, asked, name, runner, files, source, sink, errors),
        None => run_input(alloc, asked, runner, files, source, sink, errors),
    }
}

/// Answers the script in the file of this name. The input isn't read.
fn run_file<'a, S: ScriptRunner, F: FileStore, R: Source + Drop, W: Sink + Drop, E: Write>(
    alloc: Global,
    asked: &RunFiles<'a>,
    name: &'a str,
    runner: &S,
    files: &mut F,
    input: R,
    sink: W,
    errors: &mut E,
) -> Ended<'a, R, W>
    requires sink { W.fault_count sink < 2 ^ 64 - 1 }
    ensures answered { OnOk result.result (IfKnown (told_bytes (F.content files.old name.now)) (image_of asked.now (F.content files.old)) (λ script image.
        Appends (W.written sink) (W.written result.sink) (S.out_of script image)
        × IsSaved (option_map (λ t. t.now) asked.now.save) (F.content files.old) (F.content files.new) (S.image_of script image))) }
    ensures unfit { IsUnfit (F.content files.old name.now) →
        MatchResult result.result (λ _. ⊥) (IsScriptFault name.now (F.content files.old name.now))
        × (result.sink ≡ sink) × SameFiles (F.content files.old) (F.content files.new) }
    ensures input { result.source ≡ input }
    ensures reads { failed_reads (run_end result.result) ≡ 0 }
    ensures writes { W.fault_count result.sink ≡ W.fault_count sink + failed_writes (run_end result.result) }
    ensures long { IsErrOf (run_end result.result) RunFault.ScriptTooLong → IfSome (told_bytes (F.content files.old name.now)) (λ script. script_limit < length script) }
    ensures err { IfErr result.result (IsRequestFault (Some name.now) asked.now (F.content files.old)) }
    ensures same { IfErr result.result (LeavesFiles asked.now.is_strict (F.content files.old) (F.content files.new)) }
{
    match read_inputs(alloc, files, name, asked.rdram) {
        Ok((bytes, image)) => {
            let script = bytes.as_slice();
            let style = Style::asked(asked.with_explanation);
            let ended = run_over(
                alloc,
                asked,
                image,
                runner,
                files,
                MemSource::new(script),
                Some(script),
                sink,
                errors,
                style,
            );
            Ended {
                result: ended.result,
                source: input,
                sink: ended.sink,
            }
        }
        Err(fault) => Ended {
            result: Err(fault),
            source: input,
            sink,
        },
    }
}

/// The bytes of a script's file, and the image.
fn read_inputs<'a, F: FileStore>(
    alloc: Global,
    files: &mut F,
    script: &'a str,
    rdram: Option<&'a str>,
) -> Result<(Vec<u8>, Rdram), Fault<'a>>
    ensures script { IfOk result (λ read. Holds (F.content files.old script.now) (Ok read.0.items)) }
    ensures few { IfOk result (λ read. length read.0.items ≤ script_limit) }
    ensures image { IfOk result (λ read. MatchOption (option_map (λ t. t.now) rdram.entry) (read.1 ≡ default_image) (λ named.
        Holds (F.content files.old named) (Ok read.1))) }
    ensures unfit { IsUnfit (F.content files.old script.now) → MatchResult result (λ _. ⊥) (IsScriptFault script.now (F.content files.old script.now)) }
    ensures err { IfErr result (IsInputFault (Some script.now) (option_map (λ t. t.now) rdram.entry) (F.content files.old)) }
    ensures same { SameFiles (F.content files.old) (F.content files.new) }
{
    let bytes = read_script(alloc, files, script)?;
    let image = read_image(alloc, files, rdram)?;
    Ok((bytes, image))
}

/// Answers the script that the input gives.
fn run_input<'a, S: ScriptRunner, F: FileStore, R: Source + Drop, W: Sink + Drop, E: Write>(
    alloc: Global,
    asked: &RunFiles<'a>,
    runner: &S,
    files: &mut F,
    source: R,
    sink: W,
    errors: &mut E,
) -> Ended<'a, R, W>
    requires source { R.fault_count source < 2 ^ 64 - 1 }
    requires sink { W.fault_count sink < 2 ^ 64 - 1 }
    ensures answered { OnOk result.result (IfKnown (R.rest source) (image_of asked.now (F.content files.old)) (λ script image.
        Appends (W.written sink) (W.written result.sink) (S.out_of script image)
        × IsSaved (option_map (λ t. t.now) asked.now.save) (F.content files.old) (F.content files.new) (S.image_of script image))) }
    ensures streams { RunsOver (run_end result.result) (streams_of R.fault_count R.rest W.fault_count source sink) (streams_of R.fault_count R.rest W.fault_count result.source result.sink) }
    ensures err { IfErr result.result (IsRequestFault None asked.now (F.content files.old)) }
    ensures same { IfErr result.result (LeavesFiles asked.now.is_strict (F.content files.old) (F.content files.new)) }
{
    let image = match read_image(alloc, files, asked.rdram) {
        Ok(image) => image,
        Err(fault) => {
            return Ended {
                result: Err(fault),
                source,
                sink,
            };
        }
    };
    let style = Style::of_input(asked.with_explanation, files.terminals());
    if files.terminals().input {
        greet(errors, style.is_some());
    }
    run_over(
        alloc, asked, image, runner, files, source, None, sink, errors, style,
    )
}

/// Answers a script over an image, which is saved after a run that finished. `whole` is the script if it is in memory.
fn run_over<'a, S: ScriptRunner, F: FileStore, R: Source + Drop, W: Sink + Drop, E: Write>(
    alloc: Global,
    asked: &RunFiles<'a>,
    image: Rdram,
    runner: &S,
    files: &mut F,
    source: R,
    whole: Option<&[u8]>,
    sink: W,
    errors: &mut E,
    style: Option<Style>,
) -> Ended<'a, R, W>
    requires source { R.fault_count source < 2 ^ 64 - 1 }
    requires sink { W.fault_count sink < 2 ^ 64 - 1 }
    ensures replies { OnOk result.result (IfSome (R.rest source) (λ bytes. Appends (W.written sink) (W.written result.sink) (S.out_of bytes image))) }
    ensures saved { OnOk result.result (IfSome (R.rest source) (λ bytes. IsSaved (option_map (λ t. t.now) asked.now.save) (F.content files.old) (F.content files.new) (S.image_of bytes image))) }
    ensures streams { RunsOver (run_end result.result) (streams_of R.fault_count R.rest W.fault_count source sink) (streams_of R.fault_count R.rest W.fault_count result.source result.sink) }
    ensures err { IfErr result.result (IsFaultOver (option_map (λ t. t.now) asked.now.save) asked.now.is_strict) }
    ensures same { IfErr result.result (LeavesFiles asked.now.is_strict (F.content files.old) (F.content files.new)) }
{
    if let Some(style) = style {
        let explainer = Some(Explainer {
            errors: &mut *errors,
            style,
        });
        return run_watched(
            alloc, asked, image, runner, files, source, whole, sink, explainer,
        );
    }
    if asked.is_strict {
        return run_watched(
            alloc,
            asked,
            image,
            runner,
            files,
            source,
            whole,
            sink,
            None::<Explainer<&mut E>>,
        );
    }
    run_plainly(alloc, image, asked.save, runner, files, source, sink)
}

/// The same, while the replies are watched: a strict run ends with a fault if one was a fault, and `explainer` explains faults, if there is one.
fn run_watched<
    'a,
    S: ScriptRunner,
    F: FileStore,
    R: Source + Drop,
    W: Sink + Drop,
    E: Write + Drop,
>(
    alloc: Global,
    asked: &RunFiles<'a>,
    image: Rdram,
    runner: &S,
    files: &mut F,
    source: R,
    whole: Option<&[u8]>,
    sink: W,
    explainer: Option<Explainer<E>>,
) -> Ended<'a, R, W>
    requires source { R.fault_count source < 2 ^ 64 - 1 }
    requires sink { W.fault_count sink < 2 ^ 64 - 1 }
    ensures replies { OnOk result.result (IfSome (R.rest source) (λ bytes. Appends (W.written sink) (W.written result.sink) (S.out_of bytes image))) }
    ensures saved { OnOk result.result (IfSome (R.rest source) (λ bytes. IsSaved (option_map (λ t. t.now) asked.now.save) (F.content files.old) (F.content files.new) (S.image_of bytes image))) }
    ensures streams { RunsOver (run_end result.result) (streams_of R.fault_count R.rest W.fault_count source sink) (streams_of R.fault_count R.rest W.fault_count result.source result.sink) }
    ensures err { IfErr result.result (IsFaultOver (option_map (λ t. t.now) asked.now.save) asked.now.is_strict) }
    ensures same { IfErr result.result (LeavesFiles asked.now.is_strict (F.content files.old) (F.content files.new)) }
{
    let name = match escaped(alloc, asked.script) {
        Ok(name) => name,
        Err(fault) => {
            return Ended {
                result: Err(fault),
                source,
                sink,
            };
        }
    };
    let head = head_of(asked.script, name.as_str());
    match whole {
        Some(bytes) => {
            let watch = Watch::new(alloc, Text::Whole(bytes), head, explainer);
            run_under(alloc, asked, image, runner, files, source, sink, watch)
        }
        None => {
            let heard = RefCell::new(Heard::new(alloc));
            let watch = Watch::new(alloc, Text::Heard(&heard), head, explainer);
            let source = Listener::new(source, &heard);
            let ended = run_under(alloc, asked, image, runner, files, source, sink, watch);
            Ended {
                result: ended.result,
                source: ended.source.into_source(),
                sink: ended.sink,
            }
        }
    }
}

/// The same, under a watch that is made.
fn run_under<'a, S: ScriptRunner, F: FileStore, R: Source + Drop, W: Sink + Drop, E: Write + Drop>(
    alloc: Global,
    asked: &RunFiles<'a>,
    image: Rdram,
    runner: &S,
    files: &mut F,
    source: R,
    sink: W,
    watch: Watch<'_, '_, E>,
) -> Ended<'a, R, W>
    requires source { R.fault_count source < 2 ^ 64 - 1 }
    requires sink { W.fault_count sink < 2 ^ 64 - 1 }
    ensures replies { OnOk result.result (IfSome (R.rest source) (λ bytes. Appends (W.written sink) (W.written result.sink) (S.out_of bytes image))) }
    ensures saved { OnOk result.result (IfSome (R.rest source) (λ bytes. IsSaved (option_map (λ t. t.now) asked.now.save) (F.content files.old) (F.content files.new) (S.image_of bytes image))) }
    ensures streams { RunsOver (run_end result.result) (streams_of R.fault_count R.rest W.fault_count source sink) (streams_of R.fault_count R.rest W.fault_count result.source result.sink) }
    ensures err { IfErr result.result (IsFaultOver (option_map (λ t. t.now) asked.now.save) asked.now.is_strict) }
    ensures same { IfErr result.result (LeavesFiles asked.now.is_strict (F.content files.old) (F.content files.new)) }
{
    let sink = CountingSink::new(Watcher::new(sink, watch));
    let ended = run_counted(alloc, asked, image, runner, files, source, sink);
    let mut watcher = ended.sink.into_sink();
    watcher.end();
    Ended {
        result: ended.result,
        source: ended.source,
        sink: watcher.into_sink(),
    }
}

/// The same, with a sink that watches the replies and counts the faults among them.
fn run_counted<
    'a,
    't,
    'n,
    S: ScriptRunner,
    F: FileStore,
    R: Source + Drop,
    W: Sink + Drop,
    E: Write + Drop,
>(
    alloc: Global,
    asked: &RunFiles<'a>,
    image: Rdram,
    runner: &S,
    files: &mut F,
    source: R,
    sink: CountingSink<Watcher<'t, 'n, W, E>>,
) -> Ended<'a, R, CountingSink<Watcher<'t, 'n, W, E>>>
    requires source { R.fault_count source < 2 ^ 64 - 1 }
    requires sink { W.fault_count sink.sink.sink < 2 ^ 64 - 1 }
    ensures replies { OnOk result.result (IfSome (R.rest source) (λ bytes. Appends (W.written sink.entry.sink.sink) (W.written result.sink.sink.sink) (S.out_of bytes image))) }
    ensures saved { OnOk result.result (IfSome (R.rest source) (λ bytes. IsSaved (option_map (λ t. t.now) asked.now.save) (F.content files.old) (F.content files.new) (S.image_of bytes image))) }
    ensures streams { RunsOver (run_end result.result) (streams_of R.fault_count R.rest W.fault_count source sink.entry.sink.sink) (streams_of R.fault_count R.rest W.fault_count result.source result.sink.sink.sink) }
    ensures strict { IsTrue asked.now.is_strict → OnOk result.result (result.sink.faults.count ≡ 0) }
    ensures err { IfErr result.result (IsFaultOver (option_map (λ t. t.now) asked.now.save) asked.now.is_strict) }
    ensures same { IfErr result.result (LeavesFiles asked.now.is_strict (F.content files.old) (F.content files.new)) }
{
    if asked.is_strict {
        run_strictly(alloc, image, asked.save, runner, files, source, sink)
    } else {
        run_plainly(alloc, image, asked.save, runner, files, source, sink)
    }
}

/// The name of a script's file as messages show it; empty without one.
fn escaped<'a>(alloc: Global, name: Option<&str>) -> Result<String, Fault<'a>>
    ensures { IfErr result (λ fault. fault ≡ Fault.OutOfMemory) }
{
    let shown = Escaped(name.unwrap_or(""));
    match format!(in alloc; "{shown}") {
        Ok(shown) => Ok(shown),
        Err(_) => Err(Fault::OutOfMemory),
    }
}

/// How the lines of a script are named, whose file has this name in messages.
fn head_of<'a>(script: Option<&str>, name: &'a str) -> Head<'a> {
    match script {
        Some(_) => Head::File(name),
        None => Head::Input,
    }
}

/// Answers a script over an image, and saves the image. A run that ends early saves nothing.
fn run_plainly<'a, S: ScriptRunner, F: FileStore, R: Source + Drop, W: Sink + Drop>(
    alloc: Global,
    image: Rdram,
    saved: Option<&'a str>,
    runner: &S,
    files: &mut F,
    mut source: R,
    mut sink: W,
) -> Ended<'a, R, W>
    requires source { R.fault_count source < 2 ^ 64 - 1 }
    requires sink { W.fault_count sink < 2 ^ 64 - 1 }
    ensures replies { OnOk result.result (IfSome (R.rest source) (λ bytes. Appends (W.written sink) (W.written result.sink) (S.out_of bytes image))) }
    ensures saved { OnOk result.result (IfSome (R.rest source) (λ bytes. IsSaved (option_map (λ t. t.now) saved.entry) (F.content files.old) (F.content files.new) (S.image_of bytes image))) }
    ensures streams { RunsOver (run_end result.result) (streams_of R.fault_count R.rest W.fault_count source sink) (streams_of R.fault_count R.rest W.fault_count result.source result.sink) }
    ensures err { IfErr result.result (IsRunFault (option_map (λ t. t.now) saved.entry)) }
    ensures same { OnErr result.result (SameFiles (F.content files.old) (F.content files.new)) }
{
    let ran = runner.run_script(alloc, image, &mut source, &mut sink);
    Ended {
        result: save_left(files, saved, ran),
        source,
        sink,
    }
}

/// The same, and then ends with a fault if `sink` counted one among the replies.
fn run_strictly<
    'a,
    't,
    'n,
    S: ScriptRunner,
    F: FileStore,
    R: Source + Drop,
    W: Sink + Drop,
    E: Write + Drop,
>(
    alloc: Global,
    image: Rdram,
    saved: Option<&'a str>,
    runner: &S,
    files: &mut F,
    source: R,
    sink: CountingSink<Watcher<'t, 'n, W, E>>,
) -> Ended<'a, R, CountingSink<Watcher<'t, 'n, W, E>>>
    requires source { R.fault_count source < 2 ^ 64 - 1 }
    requires sink { W.fault_count sink.sink.sink < 2 ^ 64 - 1 }
    ensures replies { OnOk result.result (IfSome (R.rest source) (λ bytes. Appends (W.written sink.entry.sink.sink) (W.written result.sink.sink.sink) (S.out_of bytes image))) }
    ensures saved { OnOk result.result (IfSome (R.rest source) (λ bytes. IsSaved (option_map (λ t. t.now) saved.entry) (F.content files.old) (F.content files.new) (S.image_of bytes image))) }
    ensures streams { RunsOver (run_end result.result) (streams_of R.fault_count R.rest W.fault_count source sink.entry.sink.sink) (streams_of R.fault_count R.rest W.fault_count result.source result.sink.sink.sink) }
    ensures strict { OnOk result.result (result.sink.faults.count ≡ 0) }
    ensures err { IfErr result.result (IsStrictFault (option_map (λ t. t.now) saved.entry) result.sink.faults result.sink.sink.watch.first) }
    ensures same { IfErr result.result (λ fault. IsLate fault ⊎ SameFiles (F.content files.old) (F.content files.new)) }
{
    let ended = run_plainly(alloc, image, saved, runner, files, source, sink);
    if ended.result.is_err() {
        return ended;
    }
    let line = ended.sink.sink().first();
    Ended {
        result: refuse_faults(alloc, ended.sink.faults(), line),
        source: ended.source,
        sink: ended.sink,
    }
}

/// Ends a strict run with a fault if a reply was one, the first of them in this line if it is known.
fn refuse_faults<'a>(alloc: Global, faults: &Faults, line: Option<usize>) -> Result<(), Fault<'a>>
    ensures none { OnOk result (faults.now.count ≡ 0) }
    ensures some { IfErr result (IsRefusal faults.now line) }
    ensures late { IfErr result IsLate }
    ensures end { run_end result ≡ Ok tt }
{
    let count = faults.count();
    if count == 0 {
        return Ok(());
    }
    match String::from_utf8_lossy(alloc, faults.first().trim_ascii_end()) {
        Ok(first) => Err(Fault::Replies { count, line, first }),
        Err(_) => Err(Fault::OutOfMemory),
    }
}
