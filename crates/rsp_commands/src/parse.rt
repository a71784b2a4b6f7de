// The table of commands: what each name takes, and what it makes of its operands.

ghost use Rattle.std.specs.Prelude.{◌≡◌, IfOk};
ghost use Rattle.rsp_commands.specs.Command.{IsCommand, load, mem, write, dis, watch, command_of_words, command_named, debug_named, look_named};

use crate::operands::{
    LineWords, bytes, instruction_address, on_bank, one_address, one_number, ranged, two_words,
    without_operands,
};
use crate::{Command, LineFault, Look};

/// The last address of the 16 MB that an address of a script reaches.
const LAST_ADDRESS: u32 = 16_777_215;

/// `load BANK ADDR HEX`
#[tactic(auto, unfolding(crate::specs::Command::load))]
fn parse_load(words: LineWords) -> Result<Command, LineFault>
    ensures value { result ≡ load words.entry }
    ensures ranges { IfOk result IsCommand }
{
    let (bank, address, digits) = on_bank(words)?;
    match (ranged(0, LAST_ADDRESS, address), bytes(digits)) {
        (Some(address), Some(bytes)) => Ok(Command::Load {
            bank,
            address,
            bytes,
        }),
        _ => Err(LineFault::BadNumber),
    }
}

/// `mem BANK ADDR LEN`
#[tactic(auto, unfolding(crate::specs::Command::mem))]
fn parse_mem(words: LineWords) -> Result<Command, LineFault>
    ensures value { result ≡ mem words.entry }
    ensures ranges { IfOk result IsCommand }
{
    let (bank, address, len) = on_bank(words)?;
    match (ranged(0, LAST_ADDRESS, address), ranged(1, 256, len)) {
        (Some(address), Some(len)) => Ok(Command::Show(Look::Mem { bank, address, len })),
        _ => Err(LineFault::BadNumber),
    }
}

/// `write N VALUE`
#[tactic(auto, unfolding(crate::specs::Command::write))]
fn parse_write(words: LineWords) -> Result<Command, LineFault>
    ensures value { result ≡ write words.entry }
    ensures ranges { IfOk result IsCommand }
{
    let (register, value) = two_words(words)?;
    match (ranged(0, 15, register), ranged(0, u32::MAX, value)) {
        (Some(register), Some(value)) => Ok(Command::Write {
            register: register as u8,
            value,
        }),
        _ => Err(LineFault::BadNumber),
    }
}

/// `dis ADDR N`
#[tactic(auto, unfolding(crate::specs::Command::dis))]
fn parse_dis(words: LineWords) -> Result<Command, LineFault>
    ensures value { result ≡ dis words.entry }
    ensures ranges { IfOk result IsCommand }
{
    let (address, count) = two_words(words)?;
    match (instruction_address(address), ranged(1, 64, count)) {
        (Some(address), Some(count)) => Ok(Command::Show(Look::Dis { address, count })),
        _ => Err(LineFault::BadNumber),
    }
}

/// `watch ADDR LEN`
#[tactic(auto, unfolding(crate::specs::Command::watch))]
fn parse_watch(words: LineWords) -> Result<Command, LineFault>
    ensures value { result ≡ watch words.entry }
    ensures ranges { IfOk result IsCommand }
{
    let (address, len) = two_words(words)?;
    match (ranged(0, u32::MAX, address), ranged(0, u32::MAX, len)) {
        (Some(address), Some(len)) => Ok(Command::Watch { address, len }),
        _ => Err(LineFault::BadNumber),
    }
}

/// The table's last part: the commands that show something.
#[tactic(auto, unfolding(crate::specs::Command::look_named))]
fn parse_look(name: &[u8], words: LineWords) -> Result<Command, LineFault>
    ensures value { result ≡ look_named name.now words.entry }
    ensures ranges { IfOk result IsCommand }
{
    if name == b"regs".as_slice() {
        without_operands(Command::Show(Look::Regs), words)
    } else if name == b"vregs".as_slice() {
        without_operands(Command::Show(Look::Vregs), words)
    } else if name == b"acc".as_slice() {
        without_operands(Command::Show(Look::Acc), words)
    } else if name == b"flags".as_slice() {
        without_operands(Command::Show(Look::Flags), words)
    } else if name == b"sp".as_slice() {
        without_operands(Command::Show(Look::Sp), words)
    } else if name == b"mem".as_slice() {
        parse_mem(words)
    } else if name == b"dis".as_slice() {
        parse_dis(words)
    } else {
        Err(LineFault::BadCommand)
    }
}

/// The table's second part: the commands of the debugger.
#[tactic(auto, unfolding(crate::specs::Command::debug_named))]
fn parse_debug(name: &[u8], words: LineWords) -> Result<Command, LineFault>
    ensures value { result ≡ debug_named name.now words.entry }
    ensures ranges { IfOk result IsCommand }
{
    if name == b"run".as_slice() {
        let limit = one_number(0, u32::MAX, words)?;
        Ok(Command::Run { limit })
    } else if name == b"break".as_slice() {
        let address = one_address(words)?;
        Ok(Command::Break { address })
    } else if name == b"unbreak".as_slice() {
        let address = one_address(words)?;
        Ok(Command::Unbreak { address })
    } else if name == b"watch".as_slice() {
        parse_watch(words)
    } else if name == b"unwatch".as_slice() {
        let number = one_number(0, u32::MAX, words)?;
        Ok(Command::Unwatch { number })
    } else if name == b"back".as_slice() {
        let count = one_number(0, u32::MAX, words)?;
        Ok(Command::Back { count })
    } else {
        parse_look(name, words)
    }
}

/// The command of a name and its operands. The table's first part: the commands of the machine, and `asm`.
#[tactic(auto, unfolding(crate::specs::Command::command_named))]
fn parse_command(name: &[u8], words: LineWords) -> Result<Command, LineFault>
    ensures value { result ≡ command_named name.now words.entry }
    ensures ranges { IfOk result IsCommand }
{
    if name == b"load".as_slice() {
        parse_load(words)
    } else if name == b"step".as_slice() {
        without_operands(Command::Step, words)
    } else if name == b"read".as_slice() {
        let register = one_number(0, 15, words)? as u8;
        Ok(Command::Read { register })
    } else if name == b"write".as_slice() {
        parse_write(words)
    } else if name == b"pc".as_slice() {
        let address = one_address(words)?;
        Ok(Command::SetPc { address })
    } else if name == b"task".as_slice() {
        let address = one_number(0, LAST_ADDRESS, words)?;
        Ok(Command::Task { address })
    } else if name == b"asm".as_slice() {
        let address = one_address(words)?;
        Ok(Command::Asm { address })
    } else {
        parse_debug(name, words)
    }
}

/// The command of a line outside a block, by its words: `Nothing` of none, else the one that the first word names.
///
/// `BadCommand` for an unknown name, a wrong count of operands or a wrong bank; else `BadNumber` for an operand that is no
/// number, or out of its range.
#[tactic(auto, unfolding(crate::specs::Command::command_of_words))]
pub fn parse_words(mut words: LineWords) -> Result<Command, LineFault>
    ensures value { result ≡ command_of_words words.entry }
    ensures ranges { IfOk result IsCommand }
{
    match words.next() {
        Some(name) => parse_command(name, words),
        None => Ok(Command::Nothing),
    }
}
