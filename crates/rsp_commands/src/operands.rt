// Operands of commands: the words of a line, the number, bank or bytes that a word is, and as many words as a command takes.

ghost use Rattle.std.specs.Prelude.{◌≡◌, ℕ, List, [], ◌∷◌, ◌≤◌, ◌%◌, ◌<◌, length, Result, Ok, Err, IfOk, IfSome, MatchOption, MatchResult};
ghost use Rattle.arrayvec.specs.ArrayVec.{array_vec_len};
ghost use Rattle.rsp_commands.specs.LineWords.{words_in};
ghost use Rattle.rsp_commands.specs.Number.{number_of};
ghost use Rattle.rsp_commands.specs.Operand.{bank_of, ranged_of, instruction_address_of, bytes_of};
ghost use Rattle.rsp_commands.specs.Command.{IsCommand, without_operands, one_number, one_address, two_words, on_bank};

use crate::{Command, LineFault};
use arrayvec::ArrayVec;
use rsp_memory::Bank;
use rsp_syntax::{len_before_blank, read_unsigned, skip_blanks};
use std::marker::Model;

/// The words that are left of a line of at most 256 bytes: its parts between whitespace. Contracts see them as a list.
#[derive(Drop)]
pub struct LineWords<'a> {
    text: &'a [u8],
}

impl<'a> Model for LineWords<'a> {
    ghost Value = { List (List ℕ) };

    ghost view = { λ w. words_in w.text.now };

    ghost invariant = { λ w. length w.text.now ≤ 256 };
}

impl<'a> LineWords<'a> {
    /// The words of a line.
    pub fn new(text: &'a [u8]) -> LineWords<'a>
        requires { length text.now ≤ 256 }
        ensures { result ≡ words_in text.now }
    {
        LineWords { text }
    }

    /// Takes the next word, if there is one.
    #[tactic(auto, using(crate::proofs::WordCuts::cuts))]
    pub fn next(&mut self) -> Option<&'a [u8]>
        ensures word { MatchOption result (self.old ≡ []) (λ w. self.old ≡ w.now ∷ self.new) }
        ensures fits { IfSome result (λ w. length w.now ≤ 256) }
    {
        let text = skip_blanks(self.text);
        if text.is_empty() {
            self.text = text;
            return None;
        }
        let (word, rest) = text.split_at(len_before_blank(text));
        self.text = rest;
        Some(word)
    }
}

/// The most bytes of a number: 10 decimal digits, or `0x` and 8 hexadecimal ones.
const NUMBER_LIMIT: usize = 10;

/// The number that a word is: 1 to 10 decimal digits, or `0x` and 1 to 8 hexadecimal digits. None for any other word.
#[tactic(auto, using(crate::proofs::Numbers::short_number), unfolding(crate::specs::Number::number_of))]
fn number(word: &[u8]) -> Option<u64>
    ensures { result ≡ number_of word.now }
{
    if word.len() > NUMBER_LIMIT {
        return None;
    }
    read_unsigned(word)
}

/// The bank that a word names, in lower case. None for another word.
#[tactic(auto, unfolding(crate::specs::Operand::bank_of))]
fn bank(word: &[u8]) -> Option<Bank>
    ensures { result ≡ bank_of word.now }
{
    if word == b"dmem".as_slice() {
        Some(Bank::Dmem)
    } else if word == b"imem".as_slice() {
        Some(Bank::Imem)
    } else if word == b"rdram".as_slice() {
        Some(Bank::Rdram)
    } else {
        None
    }
}

/// The number that a word is. None if it is no number, or not from `low` to `high`.
#[tactic(auto, unfolding(crate::specs::Operand::ranged_of))]
pub fn ranged(low: u32, high: u32, word: &[u8]) -> Option<u32>
    ensures value { result ≡ ranged_of low high word.now }
    ensures range { IfSome result (λ n. (low ≤ n) × (n ≤ high)) }
{
    let n = number(word)?;
    if n >= u64::from(low) && n <= u64::from(high) {
        Some(n as u32)
    } else {
        None
    }
}

/// The address of an instruction in IMEM: a number as scripts write it, which is a multiple of 4 from 0 to 4092. None for any
/// other word.
#[tactic(auto, unfolding(crate::specs::Operand::instruction_address_of))]
pub fn instruction_address(word: &[u8]) -> Option<u16>
    ensures value { result ≡ instruction_address_of word.now }
    ensures range { IfSome result (λ n. (n ≤ 4092) × (n % 4 ≡ 0)) }
{
    let n = ranged(0, 4092, word)?;
    if n % 4 == 0 { Some(n as u16) } else { None }
}

/// One or more bytes, each of two hexadecimal digits in either case. None for any other word.
#[tactic(auto, unfolding(crate::specs::Operand::bytes_of))]
pub fn bytes(word: &[u8]) -> Option<ArrayVec<u8, 128>>
    requires { length word.now ≤ 256 }
    ensures value { result ≡ bytes_of word.now }
    ensures some { IfSome result (λ bytes. 0 < array_vec_len bytes) }
{
    let mut bytes = ArrayVec::from([0; 128]);
    bytes.truncate(word.len() / 2);
    if hex::decode_to_slice(word, bytes.as_mut_slice()).is_err() || bytes.is_empty() {
        return None;
    }
    Some(bytes)
}

/// The command, which takes no operands.
pub(crate) fn without_operands(command: Command, mut words: LineWords) -> Result<Command, LineFault>
    requires { IsCommand command }
    ensures value { result ≡ without_operands command words.entry }
    ensures ranges { IfOk result IsCommand }
{
    match words.next() {
        None => Ok(command),
        Some(_) => Err(LineFault::BadCommand),
    }
}

/// The only operand, a number from `low` to `high`.
#[tactic(auto, unfolding(crate::specs::Command::one_number))]
pub(crate) fn one_number(low: u32, high: u32, mut words: LineWords) -> Result<u32, LineFault>
    ensures value { result ≡ one_number low high words.entry }
    ensures range { IfOk result (λ n. n ≤ high) }
{
    let (Some(word), None) = (words.next(), words.next()) else {
        return Err(LineFault::BadCommand);
    };
    ranged(low, high, word).ok_or(LineFault::BadNumber)
}

/// The only operand, the address of an instruction.
#[tactic(auto, unfolding(crate::specs::Command::one_address))]
pub(crate) fn one_address(mut words: LineWords) -> Result<u16, LineFault>
    ensures value { result ≡ one_address words.entry }
    ensures range { IfOk result (λ n. (n ≤ 4092) × (n % 4 ≡ 0)) }
{
    let (Some(word), None) = (words.next(), words.next()) else {
        return Err(LineFault::BadCommand);
    };
    instruction_address(word).ok_or(LineFault::BadNumber)
}

/// The two operands, as words.
pub(crate) fn two_words(mut words: LineWords<'_>) -> Result<(&[u8], &[u8]), LineFault>
    ensures words { (command : List ℕ → List ℕ → Result Command LineFault) → MatchResult result
        (λ w. two_words command words.entry ≡ command w.0.now w.1.now)
        (λ fault. two_words command words.entry ≡ Err fault) }
    ensures fits { IfOk result (λ w. length w.1.now ≤ 256) }
{
    match (words.next(), words.next(), words.next()) {
        (Some(first), Some(second), None) => Ok((first, second)),
        _ => Err(LineFault::BadCommand),
    }
}

/// A bank, and the two operands after it, as words.
pub(crate) fn on_bank(mut words: LineWords<'_>) -> Result<(Bank, &[u8], &[u8]), LineFault>
    ensures words { (command : Bank → List ℕ → List ℕ → Result Command LineFault) → MatchResult result
        (λ w. on_bank command words.entry ≡ command w.0 w.1.now w.2.now)
        (λ fault. on_bank command words.entry ≡ Err fault) }
    ensures fits { IfOk result (λ w. length w.2.now ≤ 256) }
{
    let Some(name) = words.next() else {
        return Err(LineFault::BadCommand);
    };
    let (first, second) = two_words(words)?;
    match bank(name) {
        Some(bank) => Ok((bank, first, second)),
        None => Err(LineFault::BadCommand),
    }
}
