// The replies to a script that are faults.

ghost use Rattle.std.specs.Prelude.{◌≡◌, ◌<◌, ◌^◌, ℕ, List, [], ◌∷◌, IfOk, length};
ghost use Rattle.std.specs.String.{string_bytes};
ghost use Rattle.std.specs.Str.Lines.{lines};
ghost use Rattle.rsp_explain.specs.Places.{answered_at};
ghost use Rattle.rsp_explain.specs.Said.{AreExplained};
ghost use Rattle.rsp_explain.specs.Replies.{readable, line_said, reply_said, open_fault, block_faults, IsFaultExplained, IsReplyExplained, AreLinesExplained};

use crate::head::{Head, LineHead};
use crate::lines::line_text;
use crate::places::{Place, Places, without_newline};
use crate::texts::{explain_text, push_fault};
use rsp_advice::{
    CommandForm, FaultText, Label, Labelled, NO_MARK, Visible, command_forms, command_named,
    fault_numbered, is_instruction, is_other, nearest_command, of_number, of_words, sp_number,
};
use rsp_asm::{AsmFault, AsmFaultKind};
use std::alloc::{AllocError, Global};
use std::str;

/// The fault of a line that is no command.
const BAD_COMMAND: u32 = 30;

/// The fault of a number that is none, or out of its range.
const BAD_NUMBER: u32 = 31;

/// U+FEFF in UTF-8.
const BYTE_ORDER_MARK: &[u8] = b"\xef\xbb\xbf";

/// The fault of a watch of no bytes, among others.
const WATCH_RANGE: u32 = 25;

/// The fault of a number of steps that is 0 or too high.
const COUNT: u32 = 26;

/// What `--explain` says of a reply, and of what it answers; nothing if the reply is no fault. It begins with the head and the number of
/// the line, which is the line of the block that is at fault if the reply answers a block. AllocError if out of memory.
pub fn explain_reply(
    alloc: Global,
    head: Head<'_>,
    place: Place<'_>,
    reply: &[u8],
) -> Result<String, AllocError>
    ensures { IfOk result (λ said. IsReplyExplained head.entry (answered_at place.entry) reply.now (string_bytes said)) }
{
    if !reply.starts_with(b"fault ") {
        return Ok(String::new(alloc));
    }
    let said = explain_fault(alloc, head, place, reply)?;
    Ok(said)
}

/// What is said of a reply that is a fault.
fn explain_fault(
    alloc: Global,
    head: Head<'_>,
    place: Place<'_>,
    reply: &[u8],
) -> Result<String, AllocError>
    ensures { IfOk result (λ said. IsFaultExplained head.entry (answered_at place.entry) reply.now (string_bytes said)) }
{
    match place {
        Place::Line(number, line) => explain_line(alloc, LineHead { head, number }, line, reply),
        Place::Block {
            number,
            origin,
            text,
            is_closed,
        } => explain_block(alloc, head, number, origin, text, is_closed),
    }
}

/// What is said of a block that has a fault, after the `asm` in the line of this number.
fn explain_block(
    alloc: Global,
    head: Head<'_>,
    number: usize,
    origin: u16,
    text: &[u8],
    is_closed: bool,
) -> Result<String, AllocError>
    ensures { IfOk result (λ said. AreExplained head.entry number (block_faults origin text.now is_closed) (string_bytes said)) }
{
    let text = readable(alloc, text)?;
    if is_closed {
        explain_text(alloc, head, number, origin.min(4092), text.as_str())
    } else {
        explain_open(alloc, head, number, text.as_str())
    }
}

/// What `--explain` says of a reply to these lines of a script, of which so many lines are before them: a line with a command, or a block
/// from its `asm` on. Nothing if the reply is no fault, or no line has a reply. AllocError if out of memory.
pub fn explain_lines(
    alloc: Global,
    head: Head<'_>,
    before: usize,
    lines: &[u8],
    reply: &[u8],
) -> Result<String, AllocError>
    ensures { IfOk result (λ said. AreLinesExplained head.entry before lines.now reply.now (string_bytes said)) }
{
    match Places::new().next(lines) {
        Some(place) => {
            let said = explain_reply(alloc, head, place.after(before), reply)?;
            Ok(said)
        }
        None => Ok(String::new(alloc)),
    }
}

/// Bytes as a text: in place of each that isn't ASCII another one that no line may have.
fn readable(alloc: Global, bytes: &[u8]) -> Result<String, AllocError>
    ensures { IfOk result (λ text. string_bytes text ≡ readable bytes.now) }
{
    let mut text = String::new(alloc);
    for byte in bytes {
        let shown = if byte.is_ascii() { *byte } else { 1 };
        text.push(char::from(shown))?;
    }
    Ok(text)
}

/// What is said of a line that has a fault.
fn explain_line(
    alloc: Global,
    head: LineHead<'_>,
    bytes: &[u8],
    reply: &[u8],
) -> Result<String, AllocError>
    ensures { IfOk result (λ said. (reason : List ℕ) × (string_bytes said ≡ reply_said head.entry.head head.entry.number reply.now reason)) }
{
    let line = readable(alloc, bytes)?;
    let mut reason = line_text(alloc, line.as_str())?;
    let cause = if bytes.starts_with(BYTE_ORDER_MARK) {
        labelled(alloc, Label::Help, NO_MARK)?
    } else {
        line_reason(alloc, line.as_str(), reply)?
    };
    reason.push_str(cause.as_str())?;
    let shown = readable(alloc, without_newline(reply))?;
    let text = shown.as_str();
    let why = reason.as_str();
    let said = said_of_line(alloc, head, text, why)?;
    Ok(said)
}

/// The line that gets a reply, the reply, and what is wrong there.
fn said_of_line(
    alloc: Global,
    head: LineHead<'_>,
    reply: &str,
    reason: &str,
) -> Result<String, AllocError>
    ensures { IfOk result (λ said. string_bytes said ≡ line_said head.entry.head head.entry.number reply.now reason.now) }
{
    let said = format!(in alloc; "{head}: {reply}{reason}\n")?;
    Ok(said)
}

/// What is wrong with a line that gets this fault.
fn line_reason(alloc: Global, line: &str, reply: &[u8]) -> Result<String, AllocError> {
    let (words, _) = line.split_once('#').unwrap_or((line, ""));
    let mut reason = match fault_number(reply) {
        BAD_COMMAND => command_reason(alloc, words)?,
        BAD_NUMBER => number_reason(alloc, words)?,
        number => fault_reason(alloc, number, words)?,
    };
    if let Some((word, number)) = with_zeros(words) {
        let help = format!(in alloc;
            "\n  help: {word} is {number} in decimal; write 0x{word} if it is hexadecimal, as in replies"
        )?;
        reason.push_str(help.as_str())?;
    }
    Ok(reason)
}

/// The number of a fault in its reply; 0 if it has none.
fn fault_number(reply: &[u8]) -> u32 {
    let reply = str::from_utf8(reply).unwrap_or("");
    match reply.split_ascii_whitespace().nth(1) {
        Some(number) => number.parse::<u32>().unwrap_or(0),
        None => 0,
    }
}

fn first_word(line: &str) -> &str {
    line.split_ascii_whitespace().next().unwrap_or("")
}

/// What is wrong with a line that is no command: of a known name its form, otherwise what was probably meant.
fn command_reason(alloc: Global, words: &str) -> Result<String, AllocError> {
    let name = first_word(words);
    if let Some(help) = help_of(name) {
        return labelled(alloc, Label::Help, help);
    }
    if let Some(command) = command_named(name) {
        return form_reason(alloc, command, words);
    }
    if is_statement(name) {
        return labelled(
            alloc,
            Label::Help,
            "write asm ADDR, then lines of assembly text, then end",
        );
    }
    match nearest_command(alloc, name)? {
        Some(command) => {
            let form = command.form;
            format!(in alloc; "\n  help: is `{form}` meant?")
        }
        None => all_names(alloc, name),
    }
}

/// What helps with a name that is no command, but is known.
fn help_of(name: &str) -> Option<&'static str> {
    match name {
        "end" | "END" | "End" => Some("end comes only after asm ADDR and the lines of its block"),
        "quit" | "exit" | "q" | "bye" => {
            Some("Ctrl-D ends the script if you type it; from a file, leave the line out")
        }
        _ => None,
    }
}

/// Whether a line that begins with this name is one of assembly text.
fn is_statement(name: &str) -> bool {
    is_instruction(name) || is_other(name) || matches!(name, "nop" | ".word") || name.ends_with(':')
}

/// A text after its label.
fn labelled(alloc: Global, label: Label, text: &str) -> Result<String, AllocError> {
    let line = Labelled(label, text);
    format!(in alloc; "{line}")
}

/// The form of a command, and what helps with these words.
fn form_reason(alloc: Global, command: CommandForm, words: &str) -> Result<String, AllocError> {
    let form = command.form;
    let banks = if form.contains(" BANK ") {
        ", and BANK is dmem, imem or rdram"
    } else {
        ""
    };
    if form == "step" {
        if let Some(count) = count_of(words) {
            return format!(in alloc;
                "\n  expected: {form}\n  help: run {count} makes {count} steps"
            );
        }
    }
    let help = Labelled(Label::Help, of_words(words));
    format!(in alloc; "\n  expected: {form}{banks}{help}")
}

/// The second word, if it is a number other than 0.
fn count_of(words: &str) -> Option<u32> {
    let word = words.split_ascii_whitespace().nth(1)?;
    match word.parse::<u32>() {
        Ok(0) | Err(_) => None,
        Ok(count) => Some(count),
    }
}

/// The names of all commands, in lines of at most 80 characters.
fn all_names(alloc: Global, name: &str) -> Result<String, AllocError> {
    let mut said = String::from_str(alloc, "\n  expected:")?;
    let mut column = 11_usize;
    for command in command_forms() {
        let width = command.name.len().saturating_add(1);
        if column.saturating_add(width) > 80 {
            said.push_str("\n           ")?;
            column = 11;
        }
        said.push(' ')?;
        said.push_str(command.name)?;
        column = column.saturating_add(width);
    }
    if matches!(name, "help" | "?") {
        said.push_str("\n  help: Ctrl-D ends the script")?;
    }
    Ok(said)
}

/// What is wrong with a number: the range of the command's, and what helps unless a zero is before it.
fn number_reason(alloc: Global, words: &str) -> Result<String, AllocError> {
    let Some(CommandForm { form, range, .. }) = command_named(first_word(words)) else {
        return Ok(String::new(alloc));
    };
    if with_zeros(words).is_some() {
        return format!(in alloc; "\n  expected: {form}: {range}");
    }
    if let Some((command, register, number)) = with_register(words) {
        return format!(in alloc;
            "\n  expected: {form}: {range}\n  help: {register} is SP register {number}: {command} {number}"
        );
    }
    let help = match (of_number(words), fault_numbered(BAD_NUMBER)) {
        ("", Some(fault)) => fault.help,
        (help, _) => help,
    };
    format!(in alloc; "\n  expected: {form}: {range}\n  help: {help}")
}

/// The first word of a command that is a decimal number with a zero before it, and the number, if hexadecimal it would be another. (The
/// fourth word of `load` is bytes.)
fn with_zeros(words: &str) -> Option<(&str, u64)> {
    let command = command_named(first_word(words))?;
    for (index, word) in words.split_ascii_whitespace().enumerate() {
        if command.name == "load" && index > 2 {
            break;
        }
        if word.starts_with('0') {
            if let Ok(number @ 10..) = word.parse::<u64>() {
                return Some((word, number));
            }
        }
    }
    None
}

/// The command, the name and the number of an SP register that is a command's second word.
fn with_register(words: &str) -> Option<(&str, &str, usize)> {
    let mut words = words.split_ascii_whitespace();
    let (command, register) = (words.next()?, words.next()?);
    if matches!(command, "read" | "write") {
        Some((command, register, sp_number(register)?))
    } else {
        None
    }
}

/// What is known of another fault.
fn fault_reason(alloc: Global, number: u32, words: &str) -> Result<String, AllocError> {
    let Some(FaultText { cause, help, .. }) = fault_numbered(number) else {
        return Ok(String::new(alloc));
    };
    let last = words.split_ascii_whitespace().last().unwrap_or("");
    let is_too_few = matches!(number, WATCH_RANGE | COUNT) && last.parse::<u64>() == Ok(0);
    if is_too_few {
        return format!(in alloc; "\n  note: {cause}");
    }
    format!(in alloc; "\n  note: {cause}\n  help: {help}")
}

/// What is said of a block that the end of the script leaves open: its line after the last one lacks `end`, which a line of the block
/// may have been meant to be.
fn explain_open(
    alloc: Global,
    head: Head<'_>,
    number: usize,
    text: &str,
) -> Result<String, AllocError>
    ensures { IfOk result (λ said. AreExplained head.entry number (open_fault text.now ∷ []) (string_bytes said)) }
{
    let fault = AsmFault {
        line: line_count(text) + 1,
        kind: AsmFaultKind::BadLine,
    };
    let reason = open_reason(alloc, number, text)?;
    let mut said = String::new(alloc);
    push_fault(alloc, &mut said, head, number, fault, &reason)?;
    Ok(said)
}

/// How many lines a text has.
fn line_count(text: &str) -> usize
    ensures value { result ≡ length (lines text.now) }
    ensures range { result < 2 ^ 63 }
{
    text.lines().count()
}

/// Whether a line was meant to close a block: `end` in either case, maybe with more after it.
fn is_end(line: &str) -> bool {
    let (text, _) = line.split_once('#').unwrap_or((line, ""));
    let (text, _) = text.split_once(';').unwrap_or((text, ""));
    first_word(text).eq_ignore_ascii_case("end")
}

/// What closes the open block after the `asm` in the line of this number: `end`, or the line in which it has more words.
fn open_reason(alloc: Global, number: usize, text: &str) -> Result<String, AllocError> {
    let mut at = number;
    for line in text.lines() {
        at = at.saturating_add(1);
        if is_end(line) {
            return format!(in alloc;
                "\n  | (none)\n  expected: end, for the block of line {number}\n  help: write end in lower case, alone in line {at}, which is: {}",
                Visible(line)
            );
        }
    }
    format!(in alloc; "\n  | (none)\n  expected: end, for the block of line {number}")
}
