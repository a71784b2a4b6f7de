ghost use Rattle.std.specs.Prelude.{◌≡◌, ◌≤◌, ◌⊎◌, false, length, Ok, IfSome, IfOk, OnOk, IfErr, OnErr, option_map, string_bytes};
ghost use Rattle.std.specs.Io.KnownBytes.{Appends};
ghost use Rattle.rsp_memory.specs.Words.{words_bytes};
ghost use Rattle.rsp_syntax.specs.SourceText.{meaning_of_text};
ghost use Rattle.rsp_cli_files.specs.Files.{IfHeld, IsSavedAs, SameFiles};
ghost use Rattle.rsp_cli_files.specs.Faults.{IsWriteFault};
ghost use Rattle.rsp_cli_files.specs.Words.{MeansWords, count_line, source_limit, IsTextFault, IsTextExplained, IsSourceFault, IsAssembleFault};

use crate::fault::{Fault, Position};
use crate::files::{FileStore, read_file, write_file};
use crate::listing::print_listing;
use crate::origin::origin_of;
use byteorder::{BigEndian, ByteOrder};
use rsp_asm::{AsmFaultKind, Words, assemble};
use rsp_cli_args::{AssembleFiles, Escaped};
use rsp_explain::{Head, explain_text};
use std::alloc::{AllocError, Global};
use std::io::{self, Write};
use std::str;

/// The most bytes of a source text.
const SOURCE_LIMIT: usize = 1_048_576;

/// One byte more, since a file of which so many were read is too long.
const SOURCE_READ_LIMIT: u64 = 1_048_577;

/// Assembles the file `source`, its first word at the address `at` of IMEM, and writes the words to the file `out`, the high byte
/// first. Then prints how many words there are and, if it is asked for, the listing. After a fault of the text no file is written.
pub fn assemble_file<'a, F: FileStore, W: Write>(
    alloc: Global,
    files: &mut F,
    asked: &AssembleFiles<'a>,
    output: &mut W,
) -> Result<(), Fault<'a>>
    ensures words { OnOk result (IfHeld (F.content files.old asked.now.source.now) (λ text. MeansWords (option_map (λ t. t.now) asked.now.at) text (λ words.
        IsSavedAs asked.now.out.now (F.content files.old) (F.content files.new) (words_bytes words)))) }
    ensures printed { asked.now.with_listing ≡ false → OnOk result (IfHeld (F.content files.old asked.now.source.now) (λ text. MeansWords (option_map (λ t. t.now) asked.now.at) text (λ words.
        Appends (W.contents output.old) (W.contents output.new) (count_line (length words))))) }
    ensures err { IfErr result (IsAssembleFault (option_map (λ t. t.now) asked.now.at) asked.now.source.now asked.now.out.now (F.content files.old asked.now.source.now)) }
    ensures same { IfErr result (λ fault. (fault ≡ Fault.RunWrite) ⊎ SameFiles (F.content files.old) (F.content files.new)) }
{
    let origin = origin_of(asked.at)?;
    let bytes = read_file(alloc, files, asked.source, SOURCE_READ_LIMIT)?;
    let text = text_in(bytes.as_slice())?;
    let words = assembled(alloc, origin, text, asked)?;
    let words = words.as_slice();
    write_words(alloc, files, asked.out, words)?;
    match report(alloc, origin, text, words, asked.with_listing, output) {
        Ok(()) => Ok(()),
        Err(_) => Err(Fault::RunWrite),
    }
}

/// Writes words to the file of this name, the high byte of each first.
fn write_words<'a, F: FileStore>(
    alloc: Global,
    files: &mut F,
    name: &'a str,
    words: &[u32],
) -> Result<(), Fault<'a>>
    ensures ok { OnOk result (IsSavedAs name.now (F.content files.old) (F.content files.new) (words_bytes words.now)) }
    ensures err { IfErr result (IsWriteFault name.now) }
    ensures same { OnErr result (SameFiles (F.content files.old) (F.content files.new)) }
{
    let Ok(mut bytes) = vec![in alloc; 0; 4 * words.len()] else {
        return Err(Fault::OutOfMemory);
    };
    BigEndian::write_u32_into(words, &mut bytes);
    write_file(files, name, bytes.as_slice())
}

/// Prints how many words there are and, if it is asked for, the listing.
fn report<W: Write>(
    alloc: Global,
    origin: u16,
    text: &str,
    words: &[u32],
    with_listing: bool,
    output: &mut W,
) -> io::Result<()>
    requires { origin ≤ 4096 }
    ensures { with_listing ≡ false → OnOk result (Appends (W.contents output.old) (W.contents output.new) (count_line (length words.now))) }
{
    let count = words.len();
    writeln!(output, "ok {count} words")?;
    if with_listing {
        print_listing(alloc, origin, text, words, output)?;
    }
    Ok(())
}

/// The text of a file. If it has too many bytes it is refused for that, also if it isn't UTF-8.
fn text_in<'a>(bytes: &[u8]) -> Result<&str, Fault<'a>>
    ensures ok { IfOk result (λ text. text.now ≡ bytes.now) }
    ensures few { OnOk result (length bytes.now ≤ source_limit) }
    ensures err { IfErr result (IsTextFault bytes.now) }
{
    if bytes.len() > SOURCE_LIMIT {
        return Err(Fault::ScriptTooLong);
    }
    match str::from_utf8(bytes) {
        Ok(text) => Ok(text),
        Err(error) => Err(Fault::NotText(end_of(&bytes[..error.valid_up_to()]))),
    }
}

/// Where a text goes on after these bytes, which are UTF-8.
fn end_of(before: &[u8]) -> Position {
    let mut end = Position { line: 1, column: 1 };
    for &byte in before {
        match byte {
            b'\n' => {
                end.line = end.line.saturating_add(1);
                end.column = 1;
            }
            // All bytes of a character but its first.
            0x80..=0xbf => {}
            _ => end.column = end.column.saturating_add(1),
        }
    }
    end
}

/// The words of a source text. Its faults are explained if that is asked for and there is memory for it.
fn assembled<'a>(
    alloc: Global,
    origin: u16,
    text: &str,
    asked: &AssembleFiles<'a>,
) -> Result<Words, Fault<'a>>
    requires { origin ≤ 4092 }
    ensures ok { IfOk result (λ words. meaning_of_text text.now origin ≡ Ok words.items) }
    ensures err { IfErr result (IsSourceFault text.now origin) }
{
    match assemble(alloc, origin, text) {
        Ok(words) => Ok(words),
        Err(fault) => match fault.kind {
            AsmFaultKind::OutOfMemory => Err(Fault::OutOfMemory),
            _ => Err(match explanation(alloc, origin, text, asked) {
                Ok(Some(said)) => Fault::Explained(said),
                _ => Fault::Source(fault),
            }),
        },
    }
}

/// What explains the faults of a source text, if that is asked for.
fn explanation(
    alloc: Global,
    origin: u16,
    text: &str,
    asked: &AssembleFiles<'_>,
) -> Result<Option<String>, AllocError>
    requires { origin ≤ 4092 }
    ensures { IfOk result (λ explained. IfSome explained (λ said. IsTextExplained text.now origin (string_bytes said))) }
{
    if !asked.with_explanation {
        return Ok(None);
    }
    let shown = Escaped(asked.source);
    let name = format!(in alloc; "{shown}")?;
    let said = explain_text(alloc, Head::File(name.as_str()), 0, origin, text)?;
    Ok(if said.is_empty() { None } else { Some(said) })
}
