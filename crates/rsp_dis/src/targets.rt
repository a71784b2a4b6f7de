// Where words lead, and which of their addresses have labels.

ghost use Rattle.std.specs.Prelude.{◌≡◌, ◌+◌, ◌*◌, ◌<◌, ◌≤◌, ◌%◌, ℕ, true, length, IfSome};
ghost use Rattle.std.specs.List.{list_all};
ghost use Rattle.rsp_decode.specs.Table.{is_row_operand};
ghost use Rattle.rsp_dis.specs.Labels.{operand_target, operands_target, word_target, has_label};
ghost use Rattle.rsp_dis.specs.LabelTests.{marked};

use crate::operand::operand_target;
use rsp_decode::{Operand, is_canonical};
use rsp_syntax::select_row;
use std::marker::Model;

/// The addresses of words that have labels: those that a jump or a branch of the words leads to. Contracts see a mark for each word
/// of IMEM.
#[derive(Drop)]
pub struct Targets {
    marks: [bool; 1024],
}

impl Model for Targets {
    ghost use Rattle.std.specs.Prelude.{Bool, List, length, ◌≡◌};

    ghost Value = { List Bool };

    ghost view = { λ t. t.marks };

    ghost invariant = { λ t. length t.marks ≡ 1024 };
}

/// The address that the first operand with a target leads to.
fn operands_target(kinds: &[Operand], word: u32, address: u16) -> Option<u16>
    requires inside { address < 4096 }
    ensures { result ≡ operands_target word address kinds.now }
{
    for kind in kinds {
        if let Some(target) = operand_target(*kind, word, address) {
            return Some(target);
        }
    }
    None
}

/// The address that a word leads to: the target of a jump, or of a branch if that is in IMEM. None for any other word.
fn word_target(word: u32, address: u16) -> Option<u16>
    requires inside { address < 4096 }
    ensures { result ≡ word_target word address }
{
    match select_row(word) {
        Some(row) if is_canonical(word) => operands_target(row.operands, word, address),
        _ => None,
    }
}

impl Targets {
    /// The targets of words from `origin` on, a multiple of 4; they must end at 4096 at the latest. A target that is the address of
    /// none of them isn't among these.
    pub fn of(origin: u16, words: &[u32]) -> Targets
        requires aligned { origin % 4 ≡ 0 }
        requires room { origin + 4 * length words.now ≤ 4096 }
        ensures { (address : ℕ) → address % 4 ≡ 0 → address < 4096 → marked result address ≡ has_label origin words.now address }
    {
        let end = origin + 4 * words.len() as u16;
        let mut marks = [false; 1024];
        for i in 0..words.len() {
            if let Some(target) = word_target(words[i], origin + 4 * i as u16) {
                if origin <= target && target < end {
                    marks[usize::from(target / 4)] = true;
                }
            }
        }
        Targets { marks }
    }

    /// Whether an address, a multiple of 4, has a label.
    pub fn contains(&self, address: u16) -> bool
        requires { address < 4096 }
        ensures { result ≡ marked self.now address }
    {
        self.marks[usize::from(address / 4)]
    }
}
