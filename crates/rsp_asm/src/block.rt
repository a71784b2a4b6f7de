ghost use Rattle.std.specs.Prelude.{◌≡◌, ◌+◌, ◌*◌, ◌^◌, ◌<◌, ◌≤◌, ◌++◌, ◌∷◌, [], true, Ok, IfOk, IfErr, OnOk, OnErr, length};
ghost use Rattle.std.specs.List.{list_all};
ghost use Rattle.std.specs.String.{string_bytes};
ghost use Rattle.rsp_syntax.specs.Chars.{is_line_byte};
ghost use Rattle.rsp_asm.specs.Block.{empty_block, with_line, meaning_of_block};
ghost use Rattle.rsp_asm.specs.BlockFault.{IsBlockFault};

use crate::assembler::assemble;
use crate::words::Words;
use rsp_syntax::{AsmFault, AsmFaultKind};
use std::alloc::{AllocError, Global};
use std::marker::Model;

/// An open block of source text: the address of its first word, and its lines so far. Contracts see it as an `OpenBlock`.
///
/// It is what a script has between `asm` and `end`. Lines are kept as text, and read when the block is assembled.
#[derive(Drop)]
pub struct Block {
    origin: u16,
    text: String,
}

impl Model for Block {
    ghost use Rattle.std.specs.Prelude.{◌≤◌};
    ghost use Rattle.std.specs.String.{string_bytes};
    ghost use Rattle.std.specs.Str.Lines.{lines};
    ghost use Rattle.rsp_asm.specs.Block.{OpenBlock};
    ghost use Rattle.rsp_asm.specs.Block.{IsText};

    ghost Value = { OpenBlock };

    ghost view = { λ b. record { origin = b.origin; lines = lines (string_bytes b.text) } };

    ghost invariant = { λ b. (b.origin ≤ 4092) × IsText (string_bytes b.text) };
}

/// Why a block can't be assembled.
#[derive(Clone, Copy, PartialEq, Eq, Debug)]
pub enum BlockFault {
    /// The fault of its text, with the number of the line in the block, from 1.
    Text(AsmFault),
    /// There was no memory for a label. No line up to the label's has a fault that needs no label.
    OutOfMemory {
        /// The number of the label's line, from 1.
        line: usize,
    },
}

/// Appends a line and LF. If there is no memory for both, nothing is appended.
fn push_line(text: &mut String, line: &str) -> Result<(), AllocError>
    ensures ok { OnOk result (string_bytes text.new ≡ string_bytes text.old ++ line.now ++ 10 ∷ []) }
    ensures err { OnErr result (string_bytes text.new ≡ string_bytes text.old) }
{
    text.reserve(line.len() + 1)?;
    text.push_str(line)?;
    text.push('\n')
}

impl Block {
    /// A block without lines, whose first word will be at `origin`, a byte address in IMEM of at most 4092. It doesn't allocate.
    pub fn new(alloc: Global, origin: u16) -> Block
        requires { origin ≤ 4092 }
        ensures { result ≡ empty_block origin }
    {
        Block {
            origin,
            text: String::new(alloc),
        }
    }

    /// Appends a line, given without its ending: tabs and bytes 20 to 7e hexadecimal. If there is no memory for it, the block is
    /// unchanged. A line of more than 256 bytes is accepted here, and refused as BadLine when the block is assembled.
    pub fn push(&mut self, line: &str) -> Result<(), AllocError>
        requires { list_all is_line_byte line.now ≡ true }
        ensures ok { OnOk result (self.new ≡ with_line line.now self.old) }
        ensures err { OnErr result (self.new ≡ self.old) }
    {
        push_line(&mut self.text, line)
    }

    /// The address of the first word, at most 4092.
    pub fn origin(&self) -> u16
        ensures value { result ≡ self.now.origin }
        ensures range { result ≤ 4092 }
    {
        self.origin
    }

    /// How many lines the block has.
    pub fn line_count(&self) -> usize
        ensures value { result ≡ length self.now.lines }
        ensures range { result < 2 ^ 63 }
    {
        self.text.as_str().lines().count()
    }

    /// Assembles the lines as [`assemble`](crate::assemble) does a text, from the block's address on. Memory is needed for labels
    /// alone.
    #[tactic(auto, unfolding(crate::specs::Block::meaning_of_block))]
    pub fn assemble(&self, alloc: Global) -> Result<Words, BlockFault>
        ensures ok { IfOk result (λ words. meaning_of_block self.now ≡ Ok words.items) }
        ensures room { IfOk result (λ words. self.now.origin + 4 * length words.items ≤ 4096) }
        ensures err { IfErr result (IsBlockFault self.now) }
    {
        match assemble(alloc, self.origin, self.text.as_str()) {
            Ok(words) => Ok(words),
            Err(fault) => match fault.kind {
                AsmFaultKind::OutOfMemory => Err(BlockFault::OutOfMemory { line: fault.line }),
                _ => Err(BlockFault::Text(fault)),
            },
        }
    }
}
