ghost use Rattle.std.specs.Prelude.{◌≡◌, ◌≤◌, [], ◌++◌, length, take};
ghost use Rattle.std.specs.Str.Lines.{strip_carriage_return};
ghost use Rattle.rsp_script_io.specs.Lines.{kept, IsSameOrLong};

use arrayvec::ArrayVec;
use rsp_syntax::without_return;
use std::marker::Model;

/// What a run keeps of a line that no LF has ended yet: its first 258 bytes, and a flag that there were more. Contracts see the
/// bytes. 258 are enough: without a CR at their end they are still 257, one more than the longest line has.
#[derive(Drop)]
pub(crate) struct LineSoFar {
    bytes: ArrayVec<u8, 258>,
    longer: bool,
}

impl Model for LineSoFar {
    ghost use Rattle.std.specs.Prelude.{ℕ, ◌≡◌, List, true, length};

    ghost Value = { List ℕ };

    ghost view = { λ l. l.bytes.items };

    ghost invariant = { λ l. l.longer ≡ true → length l.bytes.items ≡ 258 };
}

impl LineSoFar {
    /// An empty line.
    pub(crate) fn new() -> LineSoFar
        ensures { result ≡ [] }
    {
        LineSoFar {
            bytes: ArrayVec::new(),
            longer: false,
        }
    }

    /// Empties the line, for the next one.
    pub(crate) fn clear(&mut self)
        ensures { self.new ≡ [] }
    {
        self.bytes.clear();
        self.longer = false;
    }

    /// Appends the line's next bytes.
    #[tactic(auto, using(crate::proofs::Kept::kept_bytes))]
    pub(crate) fn push(&mut self, bytes: &[u8])
        ensures { self.new ≡ kept (self.old ++ bytes.now) }
    {
        let room = self.bytes.remaining_capacity();
        if bytes.len() > room {
            self.longer = true;
            let _ = self.bytes.try_extend_from_slice(&bytes[..room]);
        } else {
            let _ = self.bytes.try_extend_from_slice(bytes);
        }
    }

    /// The line, if the script ends here: itself or, if it has more than 258 bytes, another that is answered alike.
    pub(crate) fn last(&self) -> &[u8]
        ensures { result.now ≡ self.now }
    {
        self.bytes.as_slice()
    }

    /// The line, if an LF follows: without the CR at its end or, if it has more than 258 bytes, another that is answered
    /// alike.
    #[tactic(auto, using(crate::proofs::Kept::kept_line))]
    pub(crate) fn ended(&self) -> &[u8]
        ensures { IsSameOrLong result.now (strip_carriage_return self.now) }
    {
        if self.longer {
            self.bytes.as_slice()
        } else {
            without_return(self.bytes.as_slice())
        }
    }
    /// How many bytes it keeps.
    pub(crate) fn len(&self) -> usize
        ensures value { result ≡ length self.now }
        ensures most { result ≤ 258 }
    {
        self.bytes.len()
    }

    /// Drops the bytes from `len` on.
    pub(crate) fn truncate(&mut self, len: usize)
        ensures { self.new ≡ take len self.old }
    {
        self.bytes.truncate(len);
        self.longer = false;
    }
}
