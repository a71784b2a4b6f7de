// The labels of a source text.

ghost use Rattle.std.specs.Prelude.{◌≡◌, ◌∷◌, [], OnOk, OnErr};
ghost use Rattle.rsp_syntax.specs.Statement.{find_label};
ghost use Rattle.rsp_operands.specs.Labels.{SameAddresses};

use std::alloc::{AllocError, Global};
use std::collections::BTreeMap;
use std::marker::Model;

/// The labels of a source text, with their addresses in IMEM. Contracts see them as a list of names and addresses.
///
/// A map, not a list: a text may have thousands of labels, and each is searched for when its line and each operand with it is
/// read. A hash map's time would depend on the names.
#[derive(Drop)]
pub struct Labels<'a> {
    addresses: BTreeMap<&'a [u8], u16>,
}

impl<'a> Model for Labels<'a> {
    ghost use Rattle.std.specs.Prelude.{ℕ, List};
    ghost use Rattle.rsp_operands.specs.Labels.{named_addresses};

    ghost Value = { List (List ℕ × ℕ) };

    ghost view = { λ l. named_addresses l.addresses.entries };
}

impl<'a> Labels<'a> {
    /// No labels. It doesn't allocate.
    pub fn new(alloc: Global) -> Labels<'a>
        ensures { result ≡ [] }
    {
        Labels {
            addresses: BTreeMap::new(alloc),
        }
    }

    /// The address of the label with this name; None if there is none. Case counts.
    pub fn find(&self, name: &[u8]) -> Option<u16>
        ensures { result ≡ find_label self.now name.now }
    {
        self.addresses.get(name).copied()
    }

    /// Adds a label, or changes the address of the label with this name. If there is no memory for it, the labels are unchanged.
    pub fn add(&mut self, name: &'a [u8], address: u16) -> Result<(), AllocError>
        ensures ok { OnOk result (SameAddresses self.new ((name.now, address) ∷ self.old)) }
        ensures err { OnErr result (self.new ≡ self.old) }
    {
        self.addresses.insert(name, address)?;
        Ok(())
    }
}
