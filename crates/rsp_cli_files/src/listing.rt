ghost use Rattle.std.specs.Prelude.{◌≤◌};

use crate::dis::{address_of, print_label, print_word};
use rsp_asm::read_line;
use std::alloc::Global;
use std::io::{self, Write};
use std::str;

/// Prints the listing of a text that was assembled: for each label its address and its name, and for each word its address, the
/// word, and the source line of the word without its label.
pub(crate) fn print_listing<W: Write>(
    alloc: Global,
    origin: u16,
    text: &str,
    words: &[u32],
    output: &mut W,
) -> io::Result<()>
    requires { origin ≤ 4096 }
{
    let mut address = origin;
    let mut rest = words;
    for line in text.lines() {
        let Ok(found) = read_line(alloc, line.as_bytes(), address) else {
            return Ok(());
        };
        if let Some(name) = found.label {
            print_label(output, address, str::from_utf8(name).unwrap_or(""), true)?;
        }
        let (given, more) = rest.split_at(usize::from(found.size).min(rest.len()));
        print_words(
            output,
            address,
            given,
            without_label(line, found.label.is_some()),
        )?;
        address += 4 * found.size;
        rest = more;
    }
    Ok(())
}

/// What follows the label of a line, if it has one.
fn without_label(line: &str, has_label: bool) -> &str {
    match line.split_once(':') {
        Some((_, statement)) if has_label => statement.trim(),
        _ => line.trim(),
    }
}

fn print_words<W: Write>(output: &mut W, first: u16, words: &[u32], line: &str) -> io::Result<()> {
    for (index, &word) in words.iter().enumerate() {
        let address = address_of(first, index);
        print_word(output, address, word, line, true)?;
        writeln!(output)?;
    }
    Ok(())
}
