// The two passes over a source text.

ghost use Rattle.std.specs.Prelude.{◌≡◌, ◌+◌, ◌*◌, ◌<◌, ◌≤◌, [], ◌∷◌, ◌⊎◌, None, Some, Ok, Err, length, ◌++◌, MatchOption, IfOk, IfErr, OnOk, OnErr, option_map, is_some, true};
ghost use Rattle.arrayvec.specs.ArrayVec.{array_vec_len};
ghost use Rattle.std.specs.Str.Lines.{lines};
ghost use Rattle.rsp_syntax.specs.SourceText.{fault_before, words_before, meaning_of_text, labelled, all_labels, address_of_line};
ghost use Rattle.rsp_operands.specs.Labels.{SameAddresses};
ghost use Rattle.rsp_asm.specs.AssembleFaults.{IsFault, IsOutOfMemory};

use crate::line::{check_line, push_words};
use crate::words::Words;
use rsp_operands::Labels;
use rsp_syntax::{AsmFault, AsmFaultKind, Boundary, cut, without_return};
use std::alloc::{AllocError, Global};

/// The first line without its ending, and the text after it; None of an empty text. It ends with LF, or CR and LF.
pub(crate) fn next_line(text: &[u8]) -> Option<(&[u8], &[u8])>
    ensures { MatchOption result (lines text.now ≡ []) (λ p. (lines text.now ≡ p.0.now ∷ lines p.1.now) × (length p.1.now < length text.now)) }
{
    if text.is_empty() {
        return None;
    }
    match cut(text, Boundary::Newline) {
        Some((line, rest)) => Some((without_return(line), rest)),
        None => Some((text, &[])),
    }
}

/// Adds the label of a line, if it has one. If there is no memory for it, the labels are unchanged.
pub(crate) fn add_label<'a>(
    labels: &mut Labels<'a>,
    name: Option<&'a [u8]>,
    address: u16,
) -> Result<(), AllocError>
    ensures ok { OnOk result (SameAddresses labels.new (labelled (option_map (λ t. t.now) name.entry) address ++ labels.old)) }
    ensures err { OnErr result (is_some (option_map (λ t. t.now) name.entry) ≡ true) }
{
    if let Some(name) = name {
        labels.add(name, address)?;
    }
    Ok(())
}

/// The labels of all lines, or the fault of the lowest line that has one without regard to labels; OutOfMemory at the line of a
/// label for which there is no memory.
pub(crate) fn first_pass<'a>(
    alloc: Global,
    origin: u16,
    text: &'a [u8],
) -> Result<Labels<'a>, AsmFault>
    requires { origin ≤ 4096 }
    ensures clean { IfOk result (λ v. fault_before origin (lines text.now) (length (lines text.now)) ≡ None) }
    ensures labels { IfOk result (λ v. SameAddresses v (all_labels origin (lines text.now))) }
    ensures room { IfOk result (λ v. address_of_line origin (lines text.now) (length (lines text.now)) ≤ 4096) }
    ensures err { IfErr result (λ f. (fault_before origin (lines text.now) (length (lines text.now)) ≡ Some f) ⊎ IsOutOfMemory origin text.now f) }
{
    let mut labels = Labels::new(alloc);
    let mut address = origin;
    let mut number = 0;
    let mut rest = text;
    while let Some((line, more)) = next_line(rest) {
        number += 1;
        let found = match check_line(line, address, &labels) {
            Ok(found) => found,
            Err(kind) => return Err(AsmFault { line: number, kind }),
        };
        if add_label(&mut labels, found.label, address).is_err() {
            return Err(AsmFault {
                line: number,
                kind: AsmFaultKind::OutOfMemory,
            });
        }
        address += 4 * found.size;
        rest = more;
    }
    Ok(labels)
}

/// The words of all lines, or the fault of the lowest line with an operand that has one.
pub(crate) fn second_pass(origin: u16, text: &[u8], labels: &Labels<'_>) -> Result<Words, AsmFault>
    requires { address_of_line origin (lines text.now) (length (lines text.now)) ≤ 4096 }
    ensures ok { IfOk result (λ w. words_before labels.now origin (lines text.now) (length (lines text.now)) ≡ Ok w.items) }
    ensures room { IfOk result (λ w. origin + 4 * array_vec_len w ≤ 4096) }
    ensures err { IfErr result (λ f. words_before labels.now origin (lines text.now) (length (lines text.now)) ≡ Err f) }
{
    let mut words = Words::new();
    let mut number = 0;
    let mut rest = text;
    while let Some((line, more)) = next_line(rest) {
        number += 1;
        let address = origin + 4 * words.len() as u16;
        if let Err(kind) = push_words(line, address, labels, &mut words) {
            return Err(AsmFault { line: number, kind });
        }
        rest = more;
    }
    Ok(words)
}

/// Assembles a source text whose first word is at `origin`, a byte address in IMEM of at most 4096. The result has at most 1024
/// words, and they end at 4096 at the latest.
///
/// If a line has a fault that needs no label, the lowest such line is refused: as BadLine, LabelTwice, UnknownName, BadOperand,
/// OutOfRange of a number without a label, or PastEnd. Otherwise it is the lowest line with an operand whose label no line has,
/// as LabelMissing, or whose value is out of its range, as OutOfRange.
///
/// Memory is needed for labels alone. If there is none, the fault is OutOfMemory at the label's line, and no line up to that one
/// has a fault that needs no label.
pub fn assemble(alloc: Global, origin: u16, text: &str) -> Result<Words, AsmFault>
    requires { origin ≤ 4096 }
    ensures ok { IfOk result (λ words. meaning_of_text text.now origin ≡ Ok words.items) }
    ensures room { IfOk result (λ words. origin + 4 * array_vec_len words ≤ 4096) }
    ensures err { IfErr result (IsFault origin text.now) }
{
    let bytes = text.as_bytes();
    let labels = first_pass(alloc, origin, bytes)?;
    second_pass(origin, bytes, &labels)
}
