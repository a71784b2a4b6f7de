ghost use Rattle.std.specs.Prelude.{◌≡◌, ◌≤◌, length, Ok, IfOk};
ghost use Rattle.std.specs.List.{list_all};
ghost use Rattle.rsp_syntax.specs.Chars.{is_line_byte};
ghost use Rattle.rsp_commands.specs.LineWords.{words_in, is_end};
ghost use Rattle.rsp_commands.specs.Line.{block_command, command_of};
ghost use Rattle.rsp_commands.specs.Command.{IsCommand};

use crate::operands::LineWords;
use crate::parse::parse_words;
use crate::{Command, LineFault, SourceLine};
use rsp_syntax::{MAX_LINE_LEN, has_line_bytes, is_line, len_before};

/// Whether a line is `end`, surrounded by any whitespace.
fn is_end(line: &[u8]) -> bool
    requires { length line.now ≤ 256 }
    ensures { result ≡ is_end (words_in line.now) }
{
    let mut words = LineWords::new(line);
    match (words.next(), words.next()) {
        (Some(word), None) => word == b"end".as_slice(),
        _ => false,
    }
}

/// What a line in a block says. It isn't inlined, since its locals of 256 bytes would slow all other lines down.
#[inline(never)]
#[tactic(auto, unfolding(crate::specs::Line::block_command))]
fn block_command(line: &[u8]) -> Result<Command, LineFault>
    ensures value { result ≡ Ok (block_command line.now) }
    ensures ranges { IfOk result IsCommand }
{
    if !is_line(line) {
        return Ok(Command::BlockLine(SourceLine::new(b":")));
    }
    if is_end(line) {
        Ok(Command::End)
    } else {
        Ok(Command::BlockLine(SourceLine::new(line)))
    }
}

/// The command of a line of a script, which comes without its line end. `in_block` is whether a block of source text is open.
///
/// In a block every line is accepted: it is `End` if it is `end`, surrounded by any whitespace, else a `BlockLine`. A line of
/// more than 256 bytes or with a byte that is no text becomes the line `:`, which no assembler accepts, so that the block's
/// `end` reports the fault BadLine there.
///
/// Outside a block what follows a `#` is a comment, and a line is refused with the first of these faults: `LineTooLong` for
/// more than 256 bytes; `NotText` for a byte other than a tab and 20 to 7e hexadecimal; `BadCommand` for an unknown name, a
/// wrong count of operands or a wrong bank; `BadNumber` for an operand that is no number, or out of its range.
#[tactic(auto, unfolding(crate::specs::Line::command_of))]
pub fn parse_line(line: &[u8], in_block: bool) -> Result<Command, LineFault>
    ensures value { result ≡ command_of line.now in_block }
    ensures ranges { IfOk result IsCommand }
{
    if in_block {
        return block_command(line);
    }
    if line.len() > MAX_LINE_LEN {
        return Err(LineFault::LineTooLong);
    }
    if !has_line_bytes(line) {
        return Err(LineFault::NotText);
    }
    parse_words(LineWords::new(&line[..len_before(b'#', line)]))
}
