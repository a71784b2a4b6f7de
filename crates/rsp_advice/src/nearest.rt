// The name that was probably meant by one that is unknown.

ghost use Rattle.std.specs.Prelude.{◌≡◌, map};
ghost use Rattle.std.specs.List.{list_any};
ghost use Rattle.std.specs.Str.{str_eq_ignore_ascii_case};
ghost use Rattle.rsp_decode.specs.Table.{rows, entry_of};

use crate::commands::{CommandForm, command_forms, command_named};
use crate::names::is_same;
use crate::statements::other_names;
use rsp_decode::table;
use std::alloc::{AllocError, Global};
use strsim::osa_distance;

/// The longest name with which another one is compared. No name that is known has half as many bytes.
const LONGEST: usize = 20;

/// What other debuggers call the commands: their names, and the command.
const CALLED: &[(&str, &str)] = &[
    ("breakpoint bp br tbreak", "break"),
    ("c cont continue r g go", "run"),
    ("s n si ni next stepi nexti", "step"),
    ("disassemble disas disasm u", "dis"),
    ("memory x dump hexdump", "mem"),
    ("info i p print register registers", "regs"),
    ("delete clear", "unbreak"),
    ("undo reverse rs rsi", "back"),
];

/// The search for the nearest name. An edit adds or drops a character, or exchanges two.
#[derive(Drop)]
struct Search<'a> {
    alloc: Global,
    name: &'a str,
    /// The nearest one so far.
    found: Option<&'static str>,
    /// How far it is. A name that is farther isn't meant.
    distance: usize,
    /// Whether another one is as near, so that neither is meant more than the other.
    is_tied: bool,
}

impl<'a> Search<'a> {
    /// The search for a name in lower case. One edit may lead to what is meant; two, if the name has more than four letters; none, if it
    /// has at most two.
    fn new(alloc: Global, name: &'a str) -> Search<'a> {
        let edits = match name.len() {
            0..=2 => 0,
            3..=4 => 1,
            _ => 2,
        };
        Search {
            alloc,
            name,
            found: None,
            distance: 2 * edits + 2,
            is_tied: false,
        }
    }

    /// Takes another name if it begins with the same letter, is nearer, and a slip of the keys may have changed it. Of two with as few
    /// edits the one of the same length is nearer.
    fn see(&mut self, other: &'static str) -> Result<(), AllocError> {
        if self.name.as_bytes().first() != other.as_bytes().first() || !is_slip(self.name, other) {
            return Ok(());
        }
        let edits = osa_distance(self.alloc, self.name, other)?;
        let is_longer = usize::from(other.len() != self.name.len());
        let distance = edits.saturating_mul(2).saturating_add(is_longer);
        let is_another = match self.found {
            Some(found) => found != other,
            None => false,
        };
        if distance < self.distance {
            self.distance = distance;
            self.found = Some(other);
            self.is_tied = false;
        } else if distance == self.distance && is_another {
            self.is_tied = true;
        }
        Ok(())
    }

    /// The name that is nearer than each other one.
    fn nearest(&self) -> Option<&'static str> {
        if self.is_tied { None } else { self.found }
    }
}

/// Whether one of two names has all letters of the other, and as many `n`: a letter in place of another often makes the name of another
/// kind, as those that `vaddc` and `vmudn` end with, and an `n` negates, as in `nor` and `vne`.
fn is_slip(name: &str, other: &str) -> bool {
    (has_letters(name, other) || has_letters(other, name))
        && count_of(name, b'n') == count_of(other, b'n')
}

/// Whether a name has each letter of another one as often.
fn has_letters(name: &str, other: &str) -> bool {
    other
        .bytes()
        .all(|letter| count_of(name, letter) >= count_of(other, letter))
}

/// How often a name has a letter.
fn count_of(name: &str, letter: u8) -> usize {
    let mut count = 0_usize;
    for byte in name.bytes() {
        if byte == letter {
            count = count.saturating_add(1);
        }
    }
    count
}

/// Whether an instruction has this name, in either case.
pub fn is_instruction(name: &str) -> bool
    ensures { result ≡ list_any (λ row. str_eq_ignore_ascii_case name.now row.name) (map entry_of rows) }
{
    for row in table() {
        if is_same(name, row.name) {
            return true;
        }
    }
    false
}

/// The name of an instruction, or one for which [`of_other`](crate::of_other) has something to say, that is nearest to an unknown one.
/// None if none that begins with the same letter is near: two edits away or less, of an unknown name of three or four bytes one edit, and
/// of a shorter one none. An edit adds or drops a character other than `n`, or exchanges two. None, too, if two are as near as each other.
/// AllocError if there is no memory for the name in lower case, or to compare it.
pub fn nearest_statement(alloc: Global, name: &str) -> Result<Option<&'static str>, AllocError> {
    if name.len() > LONGEST {
        return Ok(None);
    }
    let name = name.to_ascii_lowercase(alloc)?;
    let mut search = Search::new(alloc, name.as_str());
    for row in table() {
        search.see(row.name)?;
    }
    see_others(&mut search)?;
    Ok(search.nearest())
}

/// The names that aren't those of instructions.
fn see_others(search: &mut Search<'_>) -> Result<(), AllocError> {
    search.see("nop")?;
    search.see(".word")?;
    for (names, _, _, _) in other_names() {
        for other in names.split(' ') {
            search.see(other)?;
        }
    }
    Ok(())
}

/// The command that other debuggers call by an unknown name, or whose name is nearest to it. None if none is near, and AllocError, as
/// [`nearest_statement`] has them.
pub fn nearest_command(alloc: Global, name: &str) -> Result<Option<CommandForm>, AllocError> {
    if name.len() > LONGEST {
        return Ok(None);
    }
    for (names, command) in CALLED {
        for other in names.split(' ') {
            if is_same(name, other) {
                return Ok(command_named(command));
            }
        }
    }
    let name = name.to_ascii_lowercase(alloc)?;
    let mut search = Search::new(alloc, name.as_str());
    for command in command_forms() {
        search.see(command.name)?;
    }
    Ok(match search.nearest() {
        Some(found) => command_named(found),
        None => None,
    })
}
