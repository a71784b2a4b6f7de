// The labels of a text, in the order of its lines.

ghost use Rattle.std.specs.Prelude.{◌≡◌, ◌≤◌, ◌++◌, ◌-◌, length, map, replicate, option_map, IfSome, IsOk, IfOk, OnOk};
ghost use Rattle.std.specs.Str.Lines.{lines};
ghost use Rattle.rsp_syntax.specs.SourceText.{meaning_of_text, labelled, all_labels};
ghost use Rattle.rsp_asm.specs.LabelList.{listed};

use crate::assembler::next_line;
use crate::line::read_line;
use std::alloc::{AllocError, Global};

/// A label of a text.
#[repr(C)]
#[derive(Clone, Copy, Debug, PartialEq, Eq, Drop)]
pub struct Label {
    /// Its address in IMEM, at most 4096.
    pub address: u16,
    /// How many bytes its name has, 1 to 32.
    pub len: u16,
    /// The name, and zeros after it.
    pub name: [u8; 36],
}

/// At most 32 bytes, and zeros after them.
fn padded(bytes: &[u8]) -> [u8; 36]
    requires { length bytes.now ≤ 32 }
    ensures { result ≡ bytes.now ++ replicate (36 - length bytes.now) 0 }
{
    let mut name = [0; 36];
    name[..bytes.len()].copy_from_slice(bytes);
    name
}

/// A label as it is listed.
fn listed(name: &[u8], address: u16) -> Label
    requires { length name.now ≤ 32 }
    ensures { result ≡ listed (name.now, address) }
{
    Label {
        address,
        len: name.len() as u16,
        name: padded(name),
    }
}

/// Adds the label of a line, if it has one.
fn add_label(found: &mut Vec<Label>, name: Option<&[u8]>, address: u16) -> Result<(), AllocError>
    requires { IfSome (option_map (λ t. t.now) name) (λ n. length n ≤ 32) }
    ensures { OnOk result (found.new.items ≡ found.old.items ++ map listed (labelled (option_map (λ t. t.now) name.entry) address)) }
{
    if let Some(name) = name {
        found.push(listed(name, address))?;
    }
    Ok(())
}

/// The labels of a text that assembles at `origin`, a byte address in IMEM of at most 4096, in the order of their lines. AllocError if out of
/// memory.
pub fn labels_of(alloc: Global, origin: u16, text: &str) -> Result<Vec<Label>, AllocError>
    requires origin { origin ≤ 4096 }
    requires assembles { IsOk (meaning_of_text text.now origin) }
    ensures { IfOk result (λ found. found.items ≡ map listed (all_labels origin (lines text.now))) }
{
    let mut found = Vec::new(alloc);
    let mut address = origin;
    let mut rest = text.as_bytes();
    while let Some((line, more)) = next_line(rest) {
        let Ok(layout) = read_line(alloc, line, address) else {
            unreachable!()
        };
        add_label(&mut found, layout.label, address)?;
        address += 4 * layout.size;
        rest = more;
    }
    Ok(found)
}
