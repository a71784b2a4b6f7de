ghost use Rattle.std.specs.Prelude.{◌≡◌, ℕ, ◌+◌, ◌-◌, ◌<◌, ◌≤◌, ◌^◌, List, Option, Some, ◌++◌, length, IfOk, IsErr, min};
ghost use Rattle.std.specs.Io.KnownBytes.{Consumes};
ghost use Rattle.rsp_script_io.specs.Ends.{read_failures, given, EndsAt};

use std::io::Read;
use std::marker::Model;

/// A read or a write that failed.
#[derive(Clone, Copy, Debug, PartialEq, Eq)]
pub struct EndFault;

/// Where a script comes from.
pub trait Source {
    /// The bytes that are left, if the source names them.
    ghost rest: { Self → Option (List ℕ) };

    /// How many reads failed so far.
    ghost fault_count: { Self → ℕ };

    /// Moves some of the next bytes to the start of the buffer, and returns how many. 0 only at the end, or if the buffer is
    /// empty. EndFault if the read failed: then no byte was moved, and the fault is counted.
    fn read(&mut self, buf: &mut [u8]) -> Result<usize, EndFault>
        requires { fault_count self.old < 2 ^ 64 - 1 }
        ensures bound { IfOk result (λ n. n ≤ length buf.old) }
        ensures told { Consumes (rest self.old) (rest self.new) (given result buf.new) }
        ensures end { EndsAt result buf.new (rest self.new) }
        ensures counted { fault_count self.new ≡ fault_count self.old + read_failures result };

    /// How many reads failed so far.
    fn failures(&self) -> u64
        ensures { result ≡ fault_count self.now };
}

/// A script in memory. It names its bytes and never fails. Contracts see the bytes that are left.
#[derive(Drop)]
pub struct MemSource<'a> {
    bytes: &'a [u8],
}

impl<'a> Model for MemSource<'a> {
    ghost use Rattle.std.specs.Prelude.{ℕ, List};

    ghost Value = { List ℕ };

    ghost view = { λ s. s.bytes.now };
}

impl<'a> MemSource<'a> {
    /// A source of these bytes.
    pub fn new(bytes: &'a [u8]) -> MemSource<'a>
        ensures { result ≡ bytes.now }
    {
        MemSource { bytes }
    }
}

impl Source for MemSource<'_> {
    ghost rest = { Some };

    ghost fault_count = { λ _. 0 };

    /// Moves as many bytes as are left and fit.
    fn read(&mut self, buf: &mut [u8]) -> Result<usize, EndFault>
        ensures bound { IfOk result (λ n. n ≤ length buf.old) }
        ensures told { self.old ≡ given result buf.new ++ self.new }
        ensures end { EndsAt result buf.new (Some self.new) }
        ensures fits { result ≡ Ok (min (length self.old) (length buf.old)) }
    {
        let n = self.bytes.len().min(buf.len());
        let (first, others) = self.bytes.split_at(n);
        buf[..n].copy_from_slice(first);
        self.bytes = others;
        Ok(n)
    }

    fn failures(&self) -> u64 {
        0
    }
}

/// A source over a reader of the standard library. It names the bytes that the reader names, and counts the reads that failed. After
/// a failure it leaves the reader alone: each further read is refused, and counted as one more failure.
#[derive(Drop)]
pub struct FromRead<R> {
    reader: R,
    failures: u64,
}

impl<R> Model for FromRead<R> {
    ghost use Rattle.rsp_script_io.specs.Views.{Counted};

    ghost Value = { Counted R };

    ghost view = { λ s. record {
      inner = s.reader;
      failures = s.failures;
    } };
}

impl<R: Read> FromRead<R> {
    /// A source of the reader's bytes, with no failure so far.
    pub fn new(reader: R) -> FromRead<R>
        ensures { result ≡ record { inner = reader; failures = 0 } }
    {
        FromRead {
            reader,
            failures: 0,
        }
    }
}

impl<R: Read> Source for FromRead<R> {
    ghost rest = { λ s. R.remaining s.inner };

    ghost fault_count = { λ s. s.failures };

    /// Reads once from the reader, or not at all if a read has failed before.
    fn read(&mut self, buf: &mut [u8]) -> Result<usize, EndFault>
        requires { self.old.failures < 2 ^ 64 - 1 }
        ensures bound { IfOk result (λ n. n ≤ length buf.old) }
        ensures told { Consumes (R.remaining self.old.inner) (R.remaining self.new.inner) (given result buf.new) }
        ensures end { EndsAt result buf.new (R.remaining self.new.inner) }
        ensures counted { self.new.failures ≡ self.old.failures + read_failures result }
        ensures refused { 0 < self.old.failures → IsErr result }
        ensures alone { 0 < self.old.failures → self.new.inner ≡ self.old.inner }
    {
        if self.failures > 0 {
            self.failures += 1;
            return Err(EndFault);
        }
        match self.reader.read(buf) {
            Ok(n) => Ok(n),
            Err(_) => {
                self.failures += 1;
                Err(EndFault)
            }
        }
    }

    fn failures(&self) -> u64 {
        self.failures
    }
}
