// The faults of a source text.

ghost use Rattle.std.specs.Prelude.{◌≡◌, ◌≤◌, ◌++◌, ◌-◌, IfOk, OnOk, length};
ghost use Rattle.std.specs.String.{string_bytes};
ghost use Rattle.rsp_syntax.specs.SourceText.{meaning_of_text};
ghost use Rattle.rsp_explain.specs.Said.{AreSaid, AreExplained, IsExplained, count_said, fault_in, fault_said, text_faults};

use crate::head::{Head, LineHead};
use crate::lines::{refused_line, refused_operand};
use rsp_asm::{AsmFault, AsmFaultKind, assemble, explain, faults_of};
use std::alloc::{AllocError, Global};

/// The most faults of a text that are explained.
const LIMIT: usize = 20;

/// What `--explain` says of a text that the assembler refuses, whose first word is at `origin`: each fault of the first pass, at most 20
/// of them and how many more there are, otherwise the fault of the second pass. A fault begins with the head and the number of its line;
/// `before` lines are before the text.
///
/// The first is the fault for which the assembler refuses the text. Empty if the assembler doesn't refuse it. AllocError if out of
/// memory.
#[tactic(auto, using(crate::proofs::SaidFirst::said_all, crate::proofs::SaidFirst::said_none, crate::proofs::SaidFirst::first_said))]
pub fn explain_text(
    alloc: Global,
    head: Head<'_>,
    before: usize,
    origin: u16,
    text: &str,
) -> Result<String, AllocError>
    requires { origin ≤ 4096 }
    ensures faults { IfOk result (λ said. AreExplained head.entry before (text_faults text.now origin) (string_bytes said)) }
    ensures first { IfOk result (λ said. IsExplained head.entry before (meaning_of_text text.now origin) (string_bytes said)) }
{
    let found = faults_of(alloc, origin, text)?;
    if found.count == 0 {
        return explain_second(alloc, head, before, origin, text);
    }
    let mut said = explain_each(alloc, head, before, text, found.first.as_slice())?;
    push_count(alloc, &mut said, found.count.saturating_sub(LIMIT))?;
    Ok(said)
}

/// What is said of faults of the first pass, one after another.
fn explain_each(
    alloc: Global,
    head: Head<'_>,
    before: usize,
    text: &str,
    faults: &[AsmFault],
) -> Result<String, AllocError>
    ensures { IfOk result (λ said. AreSaid head.entry before faults.now (string_bytes said)) }
{
    let mut said = String::new(alloc);
    for fault in faults {
        let reason = first_reason(alloc, before, text, *fault)?;
        push_fault(alloc, &mut said, head, before, *fault, &reason)?;
    }
    Ok(said)
}

/// What is wrong with a line that the first pass refuses, and the line before it that has the same label.
fn first_reason(
    alloc: Global,
    before: usize,
    text: &str,
    fault: AsmFault,
) -> Result<String, AllocError> {
    let line = numbered_line(text, fault.line);
    let mut reason = refused_line(alloc, line, fault.kind)?;
    if let (AsmFaultKind::LabelTwice, Some(label)) = (fault.kind, label_of(line)) {
        let number = before.saturating_add(labelled_line(text, label));
        let other = format!(in alloc; "\n  help: line {number} has the label {label}: rename one")?;
        reason.push_str(other.as_str())?;
    }
    Ok(reason)
}

/// The number, from 1, of the first line with this label.
fn labelled_line(text: &str, label: &str) -> usize {
    let mut number = 0_usize;
    for line in text.lines() {
        number = number.saturating_add(1);
        if label_of(line) == Some(label) {
            break;
        }
    }
    number
}

/// The label of a line. None if the line has none, or more bytes or other ones than a line may have.
fn label_of(line: &str) -> Option<&str> {
    if line.len() > 256 || !line.bytes().all(|byte| matches!(byte, b'\t' | b' '..=b'~')) {
        return None;
    }
    let (code, _) = line.split_once(['#', ';']).unwrap_or((line, ""));
    let (label, _) = code.split_once(':')?;
    Some(label.trim())
}

/// Appends how many faults more there are.
fn push_count(alloc: Global, said: &mut String, more: usize) -> Result<(), AllocError>
    ensures { OnOk result (string_bytes said.new ≡ string_bytes said.old ++ count_said more) }
{
    if more == 0 {
        return Ok(());
    }
    let rest = format!(in alloc; ".. and {more} more\n")?;
    said.push_str(rest.as_str())
}

/// Appends a fault, and what is said of its line.
pub(crate) fn push_fault(
    alloc: Global,
    said: &mut String,
    head: Head<'_>,
    before: usize,
    fault: AsmFault,
    reason: &String,
) -> Result<(), AllocError>
    ensures { OnOk result (string_bytes said.new ≡ string_bytes said.old ++ fault_said head.entry before fault (string_bytes reason.now)) }
{
    let number = before.saturating_add(fault.line);
    let head = LineHead { head, number };
    let kind = fault.kind.as_str();
    let line = fault.line;
    let reason = reason.as_str();
    let first = format!(in alloc; "{head}: fault {kind} line {line}{reason}\n")?;
    said.push_str(first.as_str())
}

/// What is said of a text in which the first pass finds no fault.
#[tactic(auto, using(crate::proofs::SaidFirst::said_second))]
fn explain_second(
    alloc: Global,
    head: Head<'_>,
    before: usize,
    origin: u16,
    text: &str,
) -> Result<String, AllocError>
    requires { origin ≤ 4096 }
    ensures { IfOk result (λ said. AreExplained head.entry before (fault_in (meaning_of_text text.now origin)) (string_bytes said)) }
{
    let mut said = String::new(alloc);
    let Err(fault) = assemble(alloc, origin, text) else {
        return Ok(said);
    };
    if let AsmFaultKind::OutOfMemory = fault.kind {
        return Err(AllocError);
    }
    let reason = second_reason(alloc, origin, text, fault)?;
    push_fault(alloc, &mut said, head, before, fault, &reason)?;
    Ok(said)
}

/// What is wrong with the operand for which the second pass refuses a text.
fn second_reason(
    alloc: Global,
    origin: u16,
    text: &str,
    fault: AsmFault,
) -> Result<String, AllocError>
    requires { origin ≤ 4096 }
{
    match explain(alloc, origin, text)? {
        Some(faulty) => {
            let line = numbered_line(text, fault.line);
            refused_operand(alloc, line, faulty, fault.kind)
        }
        None => Ok(String::new(alloc)),
    }
}

/// The line with this number, from 1.
fn numbered_line(text: &str, number: usize) -> &str {
    let mut left = number;
    for line in text.lines() {
        if left <= 1 {
            return line;
        }
        left -= 1;
    }
    ""
}
