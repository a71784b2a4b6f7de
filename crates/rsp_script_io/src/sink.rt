ghost use Rattle.std.specs.Prelude.{◌≡◌, ℕ, ◌+◌, ◌-◌, ◌<◌, ◌≤◌, ◌^◌, List, [], ◌++◌, Option, Some, length, IfOk, IsErr, min};
ghost use Rattle.std.specs.Io.KnownBytes.{Appends};
ghost use Rattle.rsp_script_io.specs.Ends.{write_failures, taken};

use crate::source::EndFault;
use std::alloc::{AllocError, Global};
use std::io::Write;
use std::marker::Model;

/// Where replies are written to.
pub trait Sink {
    /// The bytes that were written, if the sink names them.
    ghost written: { Self → Option (List ℕ) };

    /// How many writes failed so far, or took nothing of a piece that isn't empty.
    ghost fault_count: { Self → ℕ };

    /// Writes a prefix of the piece, and returns its length. EndFault if the write failed: then nothing was written. A fault
    /// is counted, and so is the result 0 for a piece that isn't empty.
    fn write(&mut self, piece: &[u8]) -> Result<usize, EndFault>
        requires { fault_count self.old < 2 ^ 64 - 1 }
        ensures bound { IfOk result (λ n. n ≤ length piece.now) }
        ensures told { Appends (written self.old) (written self.new) (taken result piece.now) }
        ensures counted { fault_count self.new ≡ fault_count self.old + write_failures result piece.now };

    /// How many writes failed so far, or took nothing of a piece that isn't empty.
    fn failures(&self) -> u64
        ensures { result ≡ fault_count self.now };
}

/// A sink in memory with room for a fixed number of bytes. A write to a full sink takes nothing. It names its bytes.
#[derive(Drop)]
pub struct MemSink {
    buffer: Vec<u8>,
    used: usize,
    failures: u64,
}

impl Model for MemSink {
    ghost use Rattle.std.specs.Prelude.{◌≤◌, length, take};
    ghost use Rattle.rsp_script_io.specs.Views.{MemoryWritten};

    ghost Value = { MemoryWritten };

    ghost view = { λ s. record {
      bytes = take s.used s.buffer.items;
      room = length s.buffer.items;
      failures = s.failures;
    } };

    ghost invariant = { λ s. s.used ≤ length s.buffer.items };
}

impl MemSink {
    /// An empty sink with room for `n` bytes. AllocError if there is no memory for it.
    pub fn new(alloc: Global, n: usize) -> Result<MemSink, AllocError>
        ensures { IfOk result (λ s. s ≡ record { bytes = []; room = n; failures = 0 }) }
    {
        Ok(MemSink {
            buffer: vec![in alloc; 0; n]?,
            used: 0,
            failures: 0,
        })
    }

    /// The bytes that were written.
    pub fn bytes(&self) -> &[u8]
        ensures { result.now ≡ self.now.bytes }
    {
        &self.buffer[..self.used]
    }
}

impl Sink for MemSink {
    ghost written = { λ s. Some s.bytes };

    ghost fault_count = { λ s. s.failures };

    /// Takes as many bytes as there is room for.
    fn write(&mut self, piece: &[u8]) -> Result<usize, EndFault>
        requires { self.old.failures < 2 ^ 64 - 1 }
        ensures fits { result ≡ Ok (min (length piece.now) (self.old.room - length self.old.bytes)) }
        ensures told { self.new.bytes ≡ self.old.bytes ++ taken result piece.now }
        ensures room { self.new.room ≡ self.old.room }
        ensures counted { self.new.failures ≡ self.old.failures + write_failures result piece.now }
    {
        let n = piece.len().min(self.buffer.len() - self.used);
        let end = self.used + n;
        self.buffer[self.used..end].copy_from_slice(&piece[..n]);
        self.used = end;
        if n == 0 && !piece.is_empty() {
            self.failures += 1;
        }
        Ok(n)
    }

    fn failures(&self) -> u64 {
        self.failures
    }
}

/// A sink over a writer of the standard library. It names the bytes that the writer names, and counts the writes that failed or took
/// nothing. After a failure it leaves the writer alone: each further write is refused, and counted as one more failure.
#[derive(Drop)]
pub struct ToWrite<W> {
    writer: W,
    failures: u64,
}

impl<W> Model for ToWrite<W> {
    ghost use Rattle.rsp_script_io.specs.Views.{Counted};

    ghost Value = { Counted W };

    ghost view = { λ s. record {
      inner = s.writer;
      failures = s.failures;
    } };
}

impl<W: Write> ToWrite<W> {
    /// A sink that gives its bytes to the writer, with no failure so far.
    pub fn new(writer: W) -> ToWrite<W>
        ensures { result ≡ record { inner = writer; failures = 0 } }
    {
        ToWrite {
            writer,
            failures: 0,
        }
    }

    /// The writer.
    pub fn into_inner(self) -> W
        ensures { result ≡ self.inner }
    {
        self.writer
    }
}

impl<W: Write> Sink for ToWrite<W> {
    ghost written = { λ s. W.contents s.inner };

    ghost fault_count = { λ s. s.failures };

    /// Writes once to the writer, or not at all if a write has failed before.
    fn write(&mut self, piece: &[u8]) -> Result<usize, EndFault>
        requires { self.old.failures < 2 ^ 64 - 1 }
        ensures bound { IfOk result (λ n. n ≤ length piece.now) }
        ensures told { Appends (W.contents self.old.inner) (W.contents self.new.inner) (taken result piece.now) }
        ensures counted { self.new.failures ≡ self.old.failures + write_failures result piece.now }
        ensures refused { 0 < self.old.failures → IsErr result }
        ensures alone { 0 < self.old.failures → self.new.inner ≡ self.old.inner }
    {
        if self.failures > 0 {
            self.failures += 1;
            return Err(EndFault);
        }
        match self.writer.write(piece) {
            Ok(n) => {
                if n == 0 && !piece.is_empty() {
                    self.failures += 1;
                }
                Ok(n)
            }
            Err(_) => {
                self.failures += 1;
                Err(EndFault)
            }
        }
    }

    fn failures(&self) -> u64 {
        self.failures
    }
}
