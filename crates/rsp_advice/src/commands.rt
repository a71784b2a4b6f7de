// What the tables of the pages say of the commands of scripts and of faults.

ghost use Rattle.std.specs.Prelude.{◌≡◌, ◌==◌, map, option_map};
ghost use Rattle.std.specs.List.{find};
ghost use Rattle.std.specs.Str.{str_eq_ignore_ascii_case};
ghost use Rattle.rsp_advice.specs.Tables.{command_names, fault_numbers};

use crate::names::is_same;
use crate::tables::{COMMANDS, FAULTS};

const HEX: &str = "HEX has no 0x and no blanks";

const LOWER_CASE: &str = "write commands and banks in lower case";

/// A command of scripts.
#[derive(Clone, Copy)]
pub struct CommandForm {
    /// Its first word.
    pub name: &'static str,
    /// All its words, those in capitals for what a script gives.
    pub form: &'static str,
    /// The range of its numbers; empty if it takes none.
    pub range: &'static str,
}

/// A fault of a reply.
#[derive(Clone, Copy)]
pub struct FaultText {
    /// Its number.
    pub number: u32,
    /// When it comes.
    pub cause: &'static str,
    /// What to do.
    pub help: &'static str,
}

/// The command with this name, in either case. None if no command has it.
pub fn command_named(name: &str) -> Option<CommandForm>
    ensures { option_map (λ row. row.name.now) result ≡ find (str_eq_ignore_ascii_case name.now) command_names }
{
    for command in command_forms() {
        if is_same(name, command.name) {
            return Some(*command);
        }
    }
    None
}

/// The commands of scripts.
pub fn command_forms() -> &'static [CommandForm]
    ensures { map (λ row. row.name.now) result.now ≡ command_names }
{
    COMMANDS
}

/// What helps with a line of a script that has the name of a command, and is none; empty if there is nothing to say.
pub fn of_words(words: &str) -> &'static str {
    let mut first = words.split_ascii_whitespace();
    let (name, bank) = (first.next().unwrap_or(""), first.next().unwrap_or(""));
    if has_capital(name) || has_capital(bank) && is_bank(bank) {
        LOWER_CASE
    } else if name == "load" {
        HEX
    } else {
        ""
    }
}

fn has_capital(word: &str) -> bool {
    word.bytes().any(|byte| byte.is_ascii_uppercase())
}

fn is_bank(word: &str) -> bool {
    is_same(word, "dmem") || is_same(word, "imem") || is_same(word, "rdram")
}

/// What helps with a line of a script in which a number can't be read; empty if nothing but what is known of the fault.
pub fn of_number(words: &str) -> &'static str {
    let last = words.split_ascii_whitespace().last().unwrap_or("");
    if words.starts_with("load") && (last.starts_with("0x") || last.starts_with("0X")) {
        HEX
    } else {
        ""
    }
}

/// What is known of faults.
fn fault_texts() -> &'static [FaultText]
    ensures { map (λ row. row.number) result.now ≡ fault_numbers }
{
    FAULTS
}

/// What is known of the fault with this number. None if nothing is.
pub fn fault_numbered(number: u32) -> Option<FaultText>
    ensures { option_map (λ row. row.number) result ≡ find (λ n. n == number) fault_numbers }
{
    for fault in fault_texts() {
        if fault.number == number {
            return Some(*fault);
        }
    }
    None
}
