// The operands of a statement, taken one after another.

ghost use Rattle.std.specs.Prelude.{◌≡◌, ◌+◌, ◌≤◌, [], ◌∷◌, length, MatchOption};
ghost use Rattle.rsp_syntax.specs.Statement.{operand_texts};

use rsp_syntax::{Boundary, cut, trim};
use std::marker::Model;

/// The operands of a statement that haven't been taken yet. Contracts see a list of their texts.
#[derive(Drop)]
pub struct Operands<'a> {
    rest: Option<&'a [u8]>,
}

impl<'a> Model for Operands<'a> {
    ghost use Rattle.std.specs.Prelude.{ℕ, List, option_map};
    ghost use Rattle.rsp_asm.specs.Operands.{texts_in};

    ghost Value = { List (List ℕ) };

    ghost view = { λ o. texts_in (option_map (λ t. t.now) o.rest) };
}

impl<'a> Operands<'a> {
    /// The operands in the text after a statement's name: between commas, without blanks at their ends. An empty text has none.
    pub fn new(text: &'a [u8]) -> Operands<'a>
        ensures texts { result ≡ operand_texts text.now }
        ensures few { length result ≤ length text.now + 1 }
    {
        if text.is_empty() {
            return Operands { rest: None };
        }
        Operands { rest: Some(text) }
    }

    /// Takes the next operand; None if none is left.
    pub fn next(&mut self) -> Option<&'a [u8]>
        ensures { MatchOption result (self.old ≡ []) (λ text. self.old ≡ text.now ∷ self.new) }
    {
        let Some(text) = self.rest else {
            return None;
        };
        let Some((first, rest)) = cut(text, Boundary::Comma) else {
            self.rest = None;
            return Some(trim(text));
        };
        self.rest = Some(rest);
        Some(trim(first))
    }
}
