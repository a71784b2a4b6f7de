ghost use Rattle.std.specs.Prelude.{◌≡◌, ◌+◌, ◌*◌, ◌<◌, ◌≤◌, ◌%◌, ◌↔◌, false, length, IsTrue, OnOk, IfErr, option_map};
ghost use Rattle.std.specs.Io.KnownBytes.{Appends};
ghost use Rattle.rsp_syntax.specs.SourceLine.{text_of_lines};
ghost use Rattle.rsp_syntax.specs.Disassembly.{listing};
ghost use Rattle.rsp_cli_files.specs.Files.{IfHeld, SameFiles};
ghost use Rattle.rsp_cli_files.specs.Words.{AtOrigin, FitsImem, words_of, IsDisassembleFault};

use crate::fault::{Fault, FileLength};
use crate::files::{FileStore, read_file};
use crate::origin::origin_of;
use byteorder::{BigEndian, ByteOrder};
use rsp_cli_args::DisassembleFiles;
use rsp_dis::{Targets, label_of, labelled_text_of, text_of};
use std::alloc::Global;
use std::io::{self, Write};

/// The bytes of IMEM, and so the most bytes of a file of words.
const WORDS_LIMIT: usize = 4096;

/// One byte more, since a file of which so many were read is too long.
const WORDS_READ_LIMIT: u64 = 4097;

/// Prints the disassembly of the words of a file, a line each, for the words at the address `at` of IMEM and after it. The high
/// byte of a word comes first in the file. With `with_listing` a line begins with the address and the word. With `with_labels` a
/// word that a jump or a branch of the file leads to has a label, on a line before it, and a comment says where a jump leads that is
/// shown as `.word`. WordsSize if the file has no whole number of words, or more than fit from that address to the end of IMEM.
pub fn disassemble_file<'a, F: FileStore, W: Write>(
    alloc: Global,
    files: &mut F,
    asked: &DisassembleFiles<'a>,
    output: &mut W,
) -> Result<(), Fault<'a>>
    ensures fits { OnOk result (IfHeld (F.content files.old asked.now.words.now) (λ bytes. AtOrigin (option_map (λ t. t.now) asked.now.at) (λ origin. FitsImem origin bytes))) }
    ensures printed { asked.now.with_labels ≡ false → asked.now.with_listing ≡ false →
        OnOk result (IfHeld (F.content files.old asked.now.words.now) (λ bytes. AtOrigin (option_map (λ t. t.now) asked.now.at) (λ origin.
        Appends (W.contents output.old) (W.contents output.new) (text_of_lines (listing origin (words_of bytes)))))) }
    ensures err { IfErr result (IsDisassembleFault (option_map (λ t. t.now) asked.now.at) asked.now.words.now (F.content files.old asked.now.words.now)) }
    ensures same { SameFiles (F.content files.old) (F.content files.new) }
{
    let origin = origin_of(asked.at)?;
    let bytes = read_file(alloc, files, asked.words, WORDS_READ_LIMIT)?;
    let bytes = bytes.as_slice();
    if !fits(origin, bytes) {
        let length = FileLength {
            name: asked.words,
            bytes: bytes.len(),
        };
        return Err(Fault::WordsSize(length, WORDS_LIMIT - usize::from(origin)));
    }
    match print_file(output, origin, bytes, asked) {
        Ok(()) => Ok(()),
        Err(_) => Err(Fault::RunWrite),
    }
}

/// Whether the bytes are whole words that fit from this address on to the end of IMEM.
fn fits(origin: u16, bytes: &[u8]) -> bool
    ensures { IsTrue result ↔ FitsImem origin bytes.now }
{
    bytes.len() <= WORDS_LIMIT
        && usize::from(origin) + bytes.len() <= WORDS_LIMIT
        && bytes.len() % 4 == 0
}

/// Prints the disassembly of the bytes of a file.
fn print_file<W: Write>(
    output: &mut W,
    origin: u16,
    bytes: &[u8],
    asked: &DisassembleFiles<'_>,
) -> io::Result<()>
    requires aligned { origin % 4 ≡ 0 }
    requires whole { length bytes.now % 4 ≡ 0 }
    requires room { origin + length bytes.now ≤ 4096 }
    ensures { asked.now.with_labels ≡ false → asked.now.with_listing ≡ false →
        OnOk result (Appends (W.contents output.old) (W.contents output.new) (text_of_lines (listing origin (words_of bytes.now)))) }
{
    let mut room = [0; 1024];
    let words = &mut room[..bytes.len() / 4];
    BigEndian::read_u32_into(bytes, words);
    if asked.with_labels {
        print_labelled(output, origin, words, asked.with_listing)
    } else {
        print_plain(output, origin, words, asked.with_listing)
    }
}

/// The address in IMEM of the word `index` of a file whose first word is at `origin`.
pub(crate) fn address_of(origin: u16, index: usize) -> u16
    ensures below { result < 4096 }
    ensures value { origin + 4 * index < 4096 → result ≡ origin + 4 * index }
{
    ((usize::from(origin) + index % 1024 * 4) % 4096) as u16
}

fn print_plain<W: Write>(
    output: &mut W,
    origin: u16,
    words: &[u32],
    with_addresses: bool,
) -> io::Result<()>
    ensures { origin + 4 * length words.now ≤ 4096 → with_addresses ≡ false →
        OnOk result (Appends (W.contents output.old) (W.contents output.new) (text_of_lines (listing origin words.now))) }
{
    for index in 0..words.len() {
        let address = address_of(origin, index);
        let text = text_of(words[index], address);
        print_word(output, address, words[index], text.as_str(), with_addresses)?;
        writeln!(output)?;
    }
    Ok(())
}

fn print_labelled<W: Write>(
    output: &mut W,
    origin: u16,
    words: &[u32],
    with_addresses: bool,
) -> io::Result<()>
    requires aligned { origin % 4 ≡ 0 }
    requires room { origin + 4 * length words.now ≤ 4096 }
{
    let targets = Targets::of(origin, words);
    for (index, &word) in words.iter().enumerate() {
        let address = address_of(origin, index);
        if targets.contains(address) {
            print_label(output, address, label_of(address).as_str(), with_addresses)?;
        }
        let text = labelled_text_of(word, address, &targets);
        print_word(output, address, word, text.as_str(), with_addresses)?;
        print_comment(output, address, word)?;
    }
    Ok(())
}

/// The word of a jump with 0 in the bits of its target that are ignored, as code that was linked elsewhere has them. None of a jump
/// without such bits, and of any other word.
fn plain_jump(word: u32) -> Option<u32> {
    let plain = word & 0xfc00_03ff;
    if matches!(word >> 26, 2 | 3) && plain != word {
        Some(plain)
    } else {
        None
    }
}

/// Ends a line with what a jump that is shown as `.word` executes as, in a comment.
fn print_comment<W: Write>(output: &mut W, address: u16, word: u32) -> io::Result<()>
    requires { address < 4096 }
{
    match plain_jump(word) {
        Some(plain) => {
            let text = text_of(plain, address);
            writeln!(
                output,
                " # executes as {text}, which would be the word 0x{plain:08x}"
            )
        }
        None => writeln!(output),
    }
}

/// Prints the name of a label, with its address before it if that is asked for.
pub(crate) fn print_label<W: Write>(
    output: &mut W,
    address: u16,
    name: &str,
    with_addresses: bool,
) -> io::Result<()> {
    if with_addresses {
        write!(output, "{address:03x} ")?;
    }
    writeln!(output, "{name}:")
}

/// Prints the text of a word, with its address and itself before it if that is asked for. It doesn't end the line.
pub(crate) fn print_word<W: Write>(
    output: &mut W,
    address: u16,
    word: u32,
    text: &str,
    with_addresses: bool,
) -> io::Result<()>
    ensures { with_addresses ≡ false → OnOk result (Appends (W.contents output.old) (W.contents output.new) text.now) }
{
    if with_addresses {
        write!(output, "{address:03x} {word:08x} ")?;
    }
    write!(output, "{text}")
}
