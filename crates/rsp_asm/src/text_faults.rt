// Each fault that the first pass finds in a text, for messages: `assemble` ends at the first.

ghost use Rattle.std.specs.Prelude.{◌≡◌, ◌+◌, ◌<◌, ◌≤◌, ◌^◌, ◌++◌, ◌||◌, ◌⊎◌, None, true, IfOk, OnOk, OnErr, length, take, is_some, option_map};
ghost use Rattle.std.specs.List.{list_any};
ghost use Rattle.std.specs.Str.Lines.{lines};
ghost use Rattle.rsp_syntax.specs.SourceLine.{first_fault, label_of};
ghost use Rattle.rsp_operands.specs.Labels.{SameAddresses};
ghost use Rattle.rsp_asm.specs.TextFaults.{is_past_end, counted, labels_after, address_after, reported, faults_from, all_faults};

use crate::assembler::{add_label, next_line};
use crate::line::{check_line, is_label_taken, label_of};
use rsp_operands::Labels;
use rsp_syntax::{AsmFault, AsmFaultKind};
use std::alloc::{AllocError, Global};

/// The most faults of a text that are listed.
const LIMIT: usize = 20;

/// The faults that the first pass finds in a text, if it continues after each.
#[derive(Drop)]
pub struct TextFaults {
    /// The first twenty, in the order of their lines.
    pub first: Vec<AsmFault>,
    /// How many there are.
    pub count: usize,
}

impl TextFaults {
    /// Adds the fault of the line with this number, if it has one.
    fn add(&mut self, number: usize, found: Option<AsmFaultKind>) -> Result<(), AllocError>
        requires few { length self.old.first.items ≤ 20 }
        requires count { self.old.count < 2 ^ 63 }
        ensures first { OnOk result (self.new.first.items ≡ take 20 (self.old.first.items ++ reported number found)) }
        ensures count { OnOk result (self.new.count ≡ self.old.count + length (reported number found)) }
        ensures err { OnErr result (is_some found ≡ true) }
    {
        if let Some(kind) = found {
            if self.first.len() < LIMIT {
                self.first.push(AsmFault { line: number, kind })?;
            }
            self.count += 1;
        }
        Ok(())
    }
}

/// The first pass over a text, which continues after a fault. A line with a fault gives no words.
#[derive(Drop)]
struct FirstPass<'a> {
    labels: Labels<'a>,
    /// The address of the next word, at most 4096.
    address: u16,
    /// Whether a line so far was refused as PastEnd.
    is_full: bool,
}

impl<'a> FirstPass<'a> {
    /// Takes the next line, and returns its fault. Of PastEnd only the first is returned.
    fn take(&mut self, line: &'a [u8]) -> Result<Option<AsmFaultKind>, AllocError>
        requires { self.old.address ≤ 4096 }
        ensures low { self.new.address ≤ 4096 }
        ensures fault { IfOk result (λ found. found ≡ counted self.old.is_full (first_fault self.old.labels self.old.address line.now)) }
        ensures labels { OnOk result (SameAddresses self.new.labels (labels_after self.old.labels self.old.address line.now)) }
        ensures address { OnOk result (self.new.address ≡ address_after (first_fault self.old.labels self.old.address line.now) self.old.address line.now) }
        ensures full { OnOk result (self.new.is_full ≡ (self.old.is_full || is_past_end (first_fault self.old.labels self.old.address line.now))) }
        ensures err { OnErr result (is_some (label_of line.now) ≡ true) }
    {
        let found = check_line(line, self.address, &self.labels);
        let label = label_of(line);
        if !is_label_taken(&self.labels, label) {
            add_label(&mut self.labels, label, self.address)?;
        }
        match found {
            Ok(layout) => {
                self.address += 4 * layout.size;
                Ok(None)
            }
            Err(AsmFaultKind::PastEnd) if self.is_full => Ok(None),
            Err(kind) => {
                self.is_full |= matches!(kind, AsmFaultKind::PastEnd);
                Ok(Some(kind))
            }
        }
    }
}

/// The faults that the first pass finds in a text whose first word is at `origin`, if it continues after each: the first twenty, and how
/// many there are. A line with a fault gives no words, but its label counts. Of PastEnd only the first is a fault.
///
/// The first is the one for which [`assemble`](crate::assemble) refuses the text, unless that depends on a label. AllocError if there is
/// no memory for a label or for a fault.
pub fn faults_of(alloc: Global, origin: u16, text: &str) -> Result<TextFaults, AllocError>
    requires { origin ≤ 4096 }
    ensures first { IfOk result (λ found. found.first.items ≡ take 20 (all_faults origin (lines text.now))) }
    ensures count { IfOk result (λ found. found.count ≡ length (all_faults origin (lines text.now))) }
    ensures err { OnErr result ((list_any (λ line. is_some (label_of line)) (lines text.now) ≡ true) ⊎ (0 < length (all_faults origin (lines text.now)))) }
{
    let mut faults = TextFaults {
        first: Vec::new(alloc),
        count: 0,
    };
    let mut pass = FirstPass {
        labels: Labels::new(alloc),
        address: origin,
        is_full: false,
    };
    let mut number = 0;
    let mut rest = text.as_bytes();
    while let Some((line, more)) = next_line(rest) {
        number += 1;
        let found = pass.take(line)?;
        faults.add(number, found)?;
        rest = more;
    }
    Ok(faults)
}
