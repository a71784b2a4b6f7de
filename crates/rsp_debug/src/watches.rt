// The watches of a debugger.

ghost use Rattle.std.specs.Prelude.{◌≡◌, ◌≤◌, ◌<◌, IsTrue, IsNone, All, map, IfOk, IfSome, OnOk, OnErr, IsOk, ◌↔◌};
ghost use Rattle.rsp_debug.specs.Watches.{no_watches, is_watchable, free_number, number_for, with_watch, has_watch, without_watch};
ghost use Rattle.rsp_debug.specs.Snapshots.{snapshot_of};

use crate::snapshot::{Snapshot, snapshot_of};
use crate::stop::Watch;
use std::marker::Model;

/// Why there is no further watch.
#[derive(Clone, Copy, Debug, PartialEq, Eq, Drop)]
pub enum WatchFault {
    /// Fault 25: it isn't 1 to 64 bytes inside DMEM.
    WatchRange,
    /// Fault 23: there are eight watches.
    WatchFull,
}

/// Fault 24: the number has no watch.
#[derive(Clone, Copy, Debug, PartialEq, Eq, Drop)]
pub struct NoWatch;

/// The watches of the numbers 0 to 7.
#[derive(Drop)]
pub struct Watches {
    numbers: [Option<Watch>; 8],
}

impl Model for Watches {
    ghost use Rattle.std.specs.Prelude.{List, Option, All};
    ghost use Rattle.rsp_debug.specs.declared.stop.Watch.{Watch};
    ghost use Rattle.rsp_debug.specs.Snapshots.{IsShort};

    ghost Value = { List (Option Watch) };

    ghost view = { λ w. w.numbers };

    ghost invariant = { λ w. All IsShort w.numbers };
}

/// Whether a watch is 1 to 64 bytes inside DMEM.
fn is_watchable(address: u32, len: u32) -> bool
    ensures value { result ≡ is_watchable address len }
    ensures short { IsTrue result → len ≤ 64 }
    ensures inside { IsTrue result → address ≤ 4096 }
{
    1 <= len && len <= 64 && address <= 4096 - len
}

impl Watches {
    /// No watch.
    pub fn new() -> Watches
        ensures { result ≡ no_watches }
    {
        Watches { numbers: [None; 8] }
    }

    /// Whether there is no watch.
    pub fn is_empty(&self) -> bool
        ensures { IsTrue result ↔ All IsNone self.now }
    {
        self.numbers.iter().all(|watch| watch.is_none())
    }

    /// The watches with their bytes.
    pub fn snapshots(&self, dmem: &[u8]) -> [Option<Snapshot>; 8]
        ensures { result ≡ map (snapshot_of dmem.now) self.now }
    {
        let [a, b, c, d, e, f, g, h] = self.numbers;
        [
            snapshot_of(a, dmem),
            snapshot_of(b, dmem),
            snapshot_of(c, dmem),
            snapshot_of(d, dmem),
            snapshot_of(e, dmem),
            snapshot_of(f, dmem),
            snapshot_of(g, dmem),
            snapshot_of(h, dmem),
        ]
    }

    /// The lowest number that has no watch.
    fn free_number(&self) -> Option<usize>
        ensures value { result ≡ free_number self.now }
        ensures below { IfSome result (λ k. k < 8) }
    {
        self.numbers.iter().position(|watch| watch.is_none())
    }

    /// Adds a watch, under the lowest free number.
    pub fn add(&mut self, address: u32, len: u32) -> Result<usize, WatchFault>
        ensures answer { result ≡ number_for address len self.old }
        ensures ok { IfOk result (λ k. self.new ≡ with_watch k address len self.old) }
        ensures err { OnErr result (self.new ≡ self.old) }
    {
        if !is_watchable(address, len) {
            return Err(WatchFault::WatchRange);
        }
        match self.free_number() {
            None => Err(WatchFault::WatchFull),
            Some(k) => {
                self.numbers[k] = Some(Watch {
                    address: address as u16,
                    len: len as u8,
                });
                Ok(k)
            }
        }
    }

    /// Whether a number has a watch.
    fn has(&self, k: u32) -> bool
        ensures value { result ≡ has_watch k self.now }
        ensures below { IsTrue result → k < 8 }
    {
        match self.numbers.get(k as usize) {
            None => false,
            Some(watch) => watch.is_some(),
        }
    }

    /// Removes the watch of a number. NoWatch if there is none.
    pub fn remove(&mut self, k: u32) -> Result<(), NoWatch>
        ensures had { IsOk result ↔ IsTrue (has_watch k self.old) }
        ensures ok { OnOk result (self.new ≡ without_watch k self.old) }
        ensures err { OnErr result (self.new ≡ self.old) }
    {
        if !self.has(k) {
            return Err(NoWatch);
        }
        self.numbers[k as usize] = None;
        Ok(())
    }
}
