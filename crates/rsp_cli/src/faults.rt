ghost use Rattle.std.specs.Prelude.{◌≡◌, ◌+◌, ◌-◌, ◌<◌, ◌≤◌, ◌^◌, [], true, length, IfOk, OnErr};
ghost use Rattle.std.specs.Io.KnownBytes.{Appends};
ghost use Rattle.rsp_script_io.specs.Ends.{write_failures, taken};
ghost use Rattle.rsp_cli.specs.Faults.{after_reply, after_write, starts_line};

use rsp_script_io::{EndFault, Sink};
use std::marker::Model;

/// The most bytes of a fault that are kept. No fault of a reply has more.
const LONGEST: usize = 64;

/// The faults among the replies of a run.
#[derive(Drop)]
pub(crate) struct Faults {
    count: u64,
    first: [u8; LONGEST],
    length: usize,
}

impl Model for Faults {
    ghost use Rattle.std.specs.Prelude.{◌≤◌, take};
    ghost use Rattle.rsp_cli.specs.Faults.{NotedFaults};

    ghost Value = { NotedFaults };

    ghost view = { λ s. record {
      count = s.count;
      first = take s.length s.first;
    } };

    ghost invariant = { λ s. s.length ≤ 64 };
}

impl Faults {
    /// No faults.
    pub(crate) fn new() -> Faults
        ensures { result ≡ record { count = 0; first = [] } }
    {
        Faults {
            count: 0,
            first: [0; LONGEST],
            length: 0,
        }
    }

    /// How many replies were faults.
    pub(crate) fn count(&self) -> u64
        ensures { result ≡ self.now.count }
    {
        self.count
    }

    /// The first 64 bytes of the first fault; nothing if there was none.
    pub(crate) fn first(&self) -> &[u8]
        ensures { result.now ≡ self.now.first }
    {
        &self.first[..self.length]
    }

    /// Counts a reply if it is a fault.
    fn note(&mut self, reply: &[u8])
        ensures { self.new ≡ after_reply reply.now self.old }
    {
        if !reply.starts_with(b"fault ") {
            return;
        }
        if self.count == 0 {
            let length = reply.len().min(LONGEST);
            self.first[..length].copy_from_slice(&reply[..length]);
            self.length = length;
        }
        self.count = self.count.saturating_add(1);
    }
}

/// A sink that passes replies on to another one, and counts the faults among them.
///
/// The bench begins each reply with a write of its own, so a reply begins where a write begins a line.
#[derive(Drop)]
pub(crate) struct CountingSink<W> {
    sink: W,
    faults: Faults,
    is_line_start: bool,
}

impl<W> CountingSink<W> {
    /// A sink that took nothing: no faults, and a reply may begin.
    pub(crate) fn new(sink: W) -> CountingSink<W>
        ensures faults { result.faults ≡ record { count = 0; first = [] } }
        ensures start { result.is_line_start ≡ true }
        ensures sink { result.sink ≡ sink }
    {
        CountingSink {
            sink,
            faults: Faults::new(),
            is_line_start: true,
        }
    }

    /// The other sink.
    pub(crate) fn sink(&self) -> &W
        ensures { result.now ≡ self.now.sink }
    {
        &self.sink
    }

    /// The other sink, when all is written.
    pub(crate) fn into_sink(self) -> W
        ensures { result ≡ self.sink }
    {
        self.sink
    }

    /// The faults among the replies that were written.
    pub(crate) fn faults(&self) -> &Faults
        ensures { result.now ≡ self.now.faults }
    {
        &self.faults
    }
}

impl<W: Sink> Sink for CountingSink<W> {
    /// The bytes that the other sink has taken.
    ghost written = { λ s. W.written s.sink };

    /// How many of its writes failed.
    ghost fault_count = { λ s. W.fault_count s.sink };

    /// Passes the piece on in one write, and counts the reply if a line begins with it and any of it was taken.
    fn write(&mut self, piece: &[u8]) -> Result<usize, EndFault>
        requires { W.fault_count self.old.sink < 2 ^ 64 - 1 }
        ensures bound { IfOk result (λ n. n ≤ length piece.now) }
        ensures told { Appends (W.written self.old.sink) (W.written self.new.sink) (taken result piece.now) }
        ensures counted { W.fault_count self.new.sink ≡ W.fault_count self.old.sink + write_failures result piece.now }
        ensures noted { IfOk result (λ n. self.new.faults ≡ after_write piece.now n self.old.is_line_start self.old.faults) }
        ensures start { IfOk result (λ n. self.new.is_line_start ≡ starts_line piece.now n self.old.is_line_start) }
        ensures err { OnErr result ((self.new.faults ≡ self.old.faults) × (self.new.is_line_start ≡ self.old.is_line_start)) }
    {
        let taken = self.sink.write(piece)?;
        if taken > 0 {
            if self.is_line_start {
                self.faults.note(piece);
            }
            self.is_line_start = piece[taken - 1] == b'\n';
        }
        Ok(taken)
    }

    fn failures(&self) -> u64 {
        self.sink.failures()
    }
}
