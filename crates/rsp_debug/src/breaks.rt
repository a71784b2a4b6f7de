// The breakpoints of a debugger.

ghost use Rattle.std.specs.Prelude.{◌≡◌, ◌<◌, ◌≤◌, ◌==◌, Some, None, MatchResult, OnOk, OnErr, IsOk, IsTrue, ◌↔◌};
ghost use Rattle.rsp_debug.specs.Stops.{is_break};
ghost use Rattle.rsp_debug.specs.Breaks.{no_breaks, break_count, with_break, without_break, break_fault};

use std::marker::Model;

/// Why an address can't get a breakpoint.
#[derive(Clone, Copy, Debug, PartialEq, Eq, Drop)]
pub enum BreakFault {
    /// Fault 21: the address has one.
    BreakTwice,
    /// Fault 20: sixteen addresses have one.
    BreakFull,
}

/// Fault 22: the address has no breakpoint.
#[derive(Clone, Copy, Debug, PartialEq, Eq, Drop)]
pub struct NoBreak;

/// The addresses of IMEM that have a breakpoint. Contracts see a list of 1024 truth values, one for each word of IMEM in the order of addresses.
#[derive(Drop)]
pub struct Breaks {
    bits: [u64; 16],
    count: u16,
}

impl Model for Breaks {
    ghost use Rattle.std.specs.Prelude.{List, Bool, ◌≡◌, ◌≤◌};
    ghost use Rattle.rsp_debug.specs.Breaks.{break_count};
    ghost use Rattle.rsp_debug.specs.BreakBits.{breaks_of};

    ghost Value = { List Bool };

    ghost view = { λ b. breaks_of b.bits };

    ghost invariant = { λ b. (b.count ≡ break_count (breaks_of b.bits)) × (b.count ≤ 16) };
}

impl Breaks {
    /// No breakpoints.
    #[tactic(auto, using(crate::proofs::BreakTable::tables))]
    pub fn new() -> Breaks
        ensures { result ≡ no_breaks }
    {
        Breaks {
            bits: [0; 16],
            count: 0,
        }
    }

    /// Whether there is no breakpoint.
    pub fn is_empty(&self) -> bool
        ensures { result ≡ (break_count self.now == 0) }
    {
        self.count == 0
    }

    /// Whether the word at an address below 4096 has a breakpoint. The two lowest bits of the address don't count.
    #[inline]
    #[tactic(auto, using(crate::proofs::BreakTable::tables))]
    pub fn contains(&self, address: u16) -> bool
        requires { address < 4096 }
        ensures { result ≡ is_break self.now address }
    {
        let at = address / 4;
        (self.bits[(at / 64) as usize] >> (at % 64)) & 1 == 1
    }

    /// Adds a breakpoint at an address. BreakTwice if it has one, else BreakFull if there are sixteen.
    #[tactic(auto, using(crate::proofs::BreakTable::tables))]
    pub fn add(&mut self, address: u16) -> Result<(), BreakFault>
        requires { address < 4096 }
        ensures fault { MatchResult result (λ _. break_fault address self.old ≡ None) (λ f. break_fault address self.old ≡ Some f) }
        ensures ok { OnOk result (self.new ≡ with_break address self.old) }
        ensures err { OnErr result (self.new ≡ self.old) }
        ensures few { break_count self.new ≤ 16 }
    {
        if self.contains(address) {
            return Err(BreakFault::BreakTwice);
        }
        if self.count >= 16 {
            return Err(BreakFault::BreakFull);
        }
        let at = address / 4;
        self.bits[(at / 64) as usize] |= 1 << (at % 64);
        self.count += 1;
        Ok(())
    }

    /// Removes the breakpoint of an address. NoBreak if it has none.
    #[tactic(auto, using(crate::proofs::BreakTable::tables))]
    pub fn remove(&mut self, address: u16) -> Result<(), NoBreak>
        requires { address < 4096 }
        ensures had { IsOk result ↔ IsTrue (is_break self.old address) }
        ensures ok { OnOk result (self.new ≡ without_break address self.old) }
        ensures err { OnErr result (self.new ≡ self.old) }
    {
        if !self.contains(address) {
            return Err(NoBreak);
        }
        let at = address / 4;
        self.bits[(at / 64) as usize] &= !(1 << (at % 64));
        self.count -= 1;
        Ok(())
    }
}
