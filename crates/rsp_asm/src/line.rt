// A line of a source text, in both passes.

ghost use Rattle.std.specs.Prelude.{◌≡◌, ◌+◌, ◌*◌, ◌≤◌, [], None, Some, Ok, Err, option_map, IfOk, IfErr, OnOk, drop, ◌++◌};
ghost use Rattle.arrayvec.specs.ArrayVec.{array_vec_len};
ghost use Rattle.rsp_syntax.specs.SourceLine.{without_comment, split_line, is_label_taken, first_fault, label_of, line_size, line_words};
ghost use Rattle.rsp_asm.specs.LineParts.{seen_parts};

use crate::check::check_statement;
use crate::push::push_statement;
use crate::words::Words;
use rsp_operands::Labels;
use rsp_syntax::{AsmFaultKind, Boundary, cut, is_label, is_line, skip_blanks, trim};
use std::alloc::Global;

/// The label of a line, and how many words it gives.
#[derive(Clone, Copy)]
pub struct LineLayout<'a> {
    /// The label's name, if the line has one.
    pub label: Option<&'a [u8]>,
    /// How many words the line gives, at most 1024.
    pub size: u16,
}

/// A line without its comment, and without blanks at both ends.
fn without_comment(line: &[u8]) -> &[u8]
    ensures { result.now ≡ without_comment line.now }
{
    match cut(line, Boundary::Comment) {
        Some((prefix, _)) => trim(prefix),
        None => trim(line),
    }
}

/// The label of a line, and the text of its statement.
#[derive(Clone, Copy)]
pub(crate) struct LineParts<'a> {
    pub(crate) label: Option<&'a [u8]>,
    pub(crate) body: &'a [u8],
}

/// Cuts a line at its first colon. None if it is no line, or if what is before the colon is no label's name.
pub(crate) fn split_line(line: &[u8]) -> Option<LineParts<'_>>
    ensures { option_map seen_parts result ≡ split_line line.now }
{
    if !is_line(line) {
        return None;
    }
    let text = without_comment(line);
    let Some((name, rest)) = cut(text, Boundary::Colon) else {
        return Some(LineParts {
            label: None,
            body: text,
        });
    };
    if !is_label(name) {
        return None;
    }
    Some(LineParts {
        label: Some(name),
        body: skip_blanks(rest),
    })
}

/// The label of a line; None if it has none, or is no line.
#[tactic(auto, unfolding(rsp_syntax::specs::SourceLine::label_of))]
pub(crate) fn label_of(line: &[u8]) -> Option<&[u8]>
    ensures { option_map (λ t. t.now) result ≡ label_of line.now }
{
    match split_line(line) {
        Some(parts) => parts.label,
        None => None,
    }
}

/// Whether the line's label is already among the labels.
pub(crate) fn is_label_taken(labels: &Labels<'_>, name: Option<&[u8]>) -> bool
    ensures { result ≡ is_label_taken labels.now (option_map (λ t. t.now) name.entry) }
{
    match name {
        None => false,
        Some(name) => labels.find(name).is_some(),
    }
}

/// The first pass over a line at `address`, given the labels of the lines before it.
///
/// The first of these faults is returned: BadLine, LabelTwice, UnknownName, BadOperand, OutOfRange of a number without a label,
/// and PastEnd if the last word would be at 4096 or higher.
#[tactic(auto, unfolding(rsp_syntax::specs::SourceLine::first_fault, rsp_syntax::specs::SourceLine::label_of, rsp_syntax::specs::SourceLine::line_size))]
pub fn check_line<'a>(
    line: &'a [u8],
    address: u16,
    labels: &Labels<'_>,
) -> Result<LineLayout<'a>, AsmFaultKind>
    requires { address ≤ 4096 }
    ensures fault { IfOk result (λ l. first_fault labels.now address line.now ≡ None) }
    ensures label { IfOk result (λ l. option_map (λ t. t.now) l.label ≡ label_of line.now) }
    ensures size { IfOk result (λ l. l.size ≡ line_size line.now) }
    ensures room { IfOk result (λ l. address + 4 * l.size ≤ 4096) }
    ensures err { IfErr result (λ kind. first_fault labels.now address line.now ≡ Some kind) }
{
    let Some(parts) = split_line(line) else {
        return Err(AsmFaultKind::BadLine);
    };
    if is_label_taken(labels, parts.label) {
        return Err(AsmFaultKind::LabelTwice);
    }
    let size = check_statement(parts.body, address)?;
    if size > usize::from(4096 - address) / 4 {
        return Err(AsmFaultKind::PastEnd);
    }
    Ok(LineLayout {
        label: parts.label,
        size: size as u16,
    })
}

/// The label of a line at `address`, a byte address in IMEM of at most 4096, and how many words it gives. It doesn't allocate.
///
/// A listing goes over a text with it, beside the words that [`assemble`](crate::assemble) returned: each line is at the address
/// of the line before it plus four bytes for each of its words.
///
/// The first of these faults is returned: BadLine, UnknownName, BadOperand, OutOfRange of a number without a label, and PastEnd
/// if the last word would be at 4096 or higher.
pub fn read_line<'a>(
    alloc: Global,
    line: &'a [u8],
    address: u16,
) -> Result<LineLayout<'a>, AsmFaultKind>
    requires { address ≤ 4096 }
    ensures fault { IfOk result (λ l. first_fault [] address line.now ≡ None) }
    ensures label { IfOk result (λ l. option_map (λ t. t.now) l.label ≡ label_of line.now) }
    ensures size { IfOk result (λ l. l.size ≡ line_size line.now) }
    ensures room { IfOk result (λ l. address + 4 * l.size ≤ 4096) }
    ensures err { IfErr result (λ kind. first_fault [] address line.now ≡ Some kind) }
{
    check_line(line, address, &Labels::new(alloc))
}

/// The second pass over a line at `address`: appends its words to `words`, which must have room for them.
///
/// Refused is the leftmost operand whose label is missing, as LabelMissing, or whose value is out of its range, as OutOfRange;
/// before that, what the first pass refuses in a line alone.
#[tactic(auto, unfolding(rsp_syntax::specs::SourceLine::line_words, rsp_syntax::specs::SourceLine::line_size))]
pub fn push_words(
    line: &[u8],
    address: u16,
    labels: &Labels<'_>,
    words: &mut Words,
) -> Result<(), AsmFaultKind>
    requires address { address ≤ 4096 }
    requires room { array_vec_len words.old + line_size line.now ≤ 1024 }
    ensures ok { OnOk result (line_words labels.now address line.now ≡ Ok (drop (array_vec_len words.old) words.new.items)) }
    ensures kept { OnOk result (words.new.items ≡ words.old.items ++ drop (array_vec_len words.old) words.new.items) }
    ensures len { OnOk result (array_vec_len words.new ≡ array_vec_len words.old + line_size line.now) }
    ensures err { IfErr result (λ kind. line_words labels.now address line.now ≡ Err kind) }
{
    let Some(parts) = split_line(line) else {
        return Err(AsmFaultKind::BadLine);
    };
    push_statement(parts.body, address, labels, words)
}
