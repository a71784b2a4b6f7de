// The lines of a script that have a reply.

ghost use Rattle.std.specs.Prelude.{◌≡◌, ℕ, ◌+◌, ◌^◌, ◌<◌, ◌≤◌, ◌==◌, [], ◌∷◌, None, IfSome, option_map, length};
ghost use Rattle.std.specs.List.{after_first};
ghost use Rattle.std.specs.Str.Lines.{lines};
ghost use Rattle.rsp_explain.specs.Places.{answered_at, at_start, command_at, line_end, past_line, block_to, answered_by, next_place, without_newline, number_after, last_number, EndsWithNumber, line_in};
ghost use Rattle.rsp_explain.specs.Replies.{answered_after};

use rsp_commands::{Command, parse_line};
use rsp_syntax::{Boundary, cut, without_return};
use std::marker::Model;

/// What a reply answers.
#[derive(Clone, Copy)]
pub enum Place<'a> {
    /// A line of the script, by its number from 1, without its line end.
    Line(usize, &'a [u8]),
    /// A block, after the `asm` in the line of this number. Its first word is at the origin, and its text is the lines up to `end`, or
    /// to the end of the script.
    Block {
        /// The number of its `asm`.
        number: usize,
        /// The address of the first word.
        origin: u16,
        /// Its lines.
        text: &'a [u8],
        /// Whether `end` closes it.
        is_closed: bool,
    },
}

impl<'a> Place<'a> {
    /// The same in a script that has so many lines more before it. Its number is at most 2^64 - 1.
    pub fn after(self, before: usize) -> Place<'a>
        ensures { answered_at result ≡ answered_after before (answered_at self.entry) }
    {
        match self {
            Place::Line(number, line) => Place::Line(before.saturating_add(number), line),
            Place::Block {
                number,
                origin,
                text,
                is_closed,
            } => Place::Block {
                number: before.saturating_add(number),
                origin,
                text,
                is_closed,
            },
        }
    }
}

impl Place<'_> {
    /// The number of the line in the script that has the fault of this reply: of a block that of the line which the reply names. It is
    /// at most 2^64 - 1.
    pub fn line(&self, reply: &[u8]) -> usize
        ensures value { result ≡ line_in (answered_at self.now) (last_number reply.now) }
        ensures named { (n : ℕ) → n < 2 ^ 64 → EndsWithNumber n reply.now → last_number reply.now ≡ n }
    {
        match self {
            Place::Line(number, _) => *number,
            Place::Block { number, .. } => number.saturating_add(last_number(reply)),
        }
    }
}

/// The number at the end of a reply; 0 if there is none, and at most 2^64 - 1.
fn last_number(reply: &[u8]) -> usize
    ensures { result ≡ last_number reply.now }
{
    let mut number = 0_usize;
    for byte in without_newline(reply) {
        number = number_after(number, *byte);
    }
    number
}

/// A reply without the LF at its end.
pub(crate) fn without_newline(reply: &[u8]) -> &[u8]
    ensures { result.now ≡ without_newline reply.now }
{
    match reply {
        [text @ .., b'\n'] => text,
        _ => reply,
    }
}

/// The number of the digits at the end of a text, if this byte follows it.
fn number_after(number: usize, byte: u8) -> usize
    ensures { result ≡ number_after number byte }
{
    match byte {
        b'0'..=b'9' => number
            .saturating_mul(10)
            .saturating_add(usize::from(byte - b'0')),
        _ => 0,
    }
}

/// A block that is open.
#[derive(Clone, Copy)]
struct OpenBlock {
    /// The number of its `asm`.
    number: usize,
    /// The address of its first word.
    origin: u16,
    /// Where its lines begin in the script.
    start: usize,
}

/// How far a script was gone through for the lines that have a reply.
#[derive(Drop)]
pub struct Places {
    /// How many bytes.
    at: usize,
    /// How many lines.
    lines: usize,
    block: Option<OpenBlock>,
}

impl Model for Places {
    ghost use Rattle.std.specs.Prelude.{◌≤◌, IfSome};
    ghost use Rattle.rsp_explain.specs.Places.{Progress};

    ghost Value = { Progress };

    ghost view = { λ p. record { bytes = p.at; lines = p.lines; block = p.block } };

    ghost invariant = { λ p. (p.lines ≤ p.at) × IfSome p.block (λ b. b.start ≤ p.at) };
}

impl Places {
    /// The start of a script.
    pub fn new() -> Places
        ensures { result ≡ at_start }
    {
        Places {
            at: 0,
            lines: 0,
            block: None,
        }
    }

    /// What the next reply answers: the first line or block after the last one that has a reply. `script` is the script as far as it was
    /// read when the reply came. None if there is none, as it was read no farther.
    pub fn next<'a>(&mut self, script: &'a [u8]) -> Option<Place<'a>>
        ensures place { option_map answered_at result ≡ (next_place script.now self.old).place }
        ensures progress { self.new ≡ (next_place script.now self.old).progress }
    {
        let mut rest = script.get(self.at..).unwrap_or(&[]);
        while let Some((line, more)) = next_line(rest) {
            let end = script.len() - more.len();
            if let Some(place) = self.pass(script, line, end) {
                return Some(place);
            }
            rest = more;
        }
        match self.block.take() {
            Some(block) => Some(block_to(script, script.len(), false, block)),
            None => None,
        }
    }

    /// Goes through the next line, which ends before byte `end` of the script with its LF. What a reply to it answers; None if it has no
    /// reply.
    fn pass<'a>(&mut self, script: &'a [u8], line: &'a [u8], end: usize) -> Option<Place<'a>>
        requires after { self.old.bytes < end }
        requires inside { end ≤ length script.now }
        requires same { end ≡ line_end script.now self.old.bytes }
        ensures place { option_map answered_at result ≡ answered_by script.now line.now (command_at line.now self.old) self.old }
        ensures progress { self.new ≡ past_line script.now line.now self.old }
    {
        let start = self.at;
        self.at = end;
        self.lines += 1;
        match parse_line(line, self.block.is_some()) {
            Ok(Command::Nothing) | Ok(Command::BlockLine(_)) => None,
            Ok(Command::Asm { address }) => {
                self.block = Some(OpenBlock {
                    number: self.lines,
                    origin: address,
                    start: end,
                });
                None
            }
            Ok(Command::End) => {
                let block = self.block.take()?;
                Some(block_to(script, start, true, block))
            }
            _ => Some(Place::Line(self.lines, line)),
        }
    }
}

/// The first line without its ending, and what follows it; None of no bytes. It ends with LF, or CR and LF.
fn next_line(text: &[u8]) -> Option<(&[u8], &[u8])>
    ensures none { result ≡ None → text.now ≡ [] }
    ensures line { IfSome result (λ p. lines text.now ≡ p.0.now ∷ lines p.1.now) }
    ensures rest { IfSome result (λ p. p.1.now ≡ after_first (λ b. b == 10) text.now) }
    ensures shorter { IfSome result (λ p. length p.1.now < length text.now) }
{
    if text.is_empty() {
        return None;
    }
    match cut(text, Boundary::Newline) {
        Some((line, rest)) => Some((without_return(line), rest)),
        None => Some((text, &[])),
    }
}

/// A block whose text ends after so many bytes of the script.
fn block_to(script: &[u8], end: usize, is_closed: bool, block: OpenBlock) -> Place<'_>
    requires { end ≤ length script.now }
    ensures { answered_at result ≡ block_to script.now end is_closed block }
{
    Place::Block {
        number: block.number,
        origin: block.origin,
        text: script.get(block.start..end).unwrap_or(&[]),
        is_closed,
    }
}
