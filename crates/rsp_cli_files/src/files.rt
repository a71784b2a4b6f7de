ghost use Rattle.std.specs.Prelude.{◌≡◌, ℕ, List, Bool, Option, None, IfSome, Result, IfOk, IfErr, OnOk, OnErr};
ghost use Rattle.rsp_cli_files.specs.declared.files.FileFault.{FileFault};
ghost use Rattle.rsp_cli_files.specs.Files.{BeginsWith, MayFail, IsWritten, WritesOneFile, SameFiles};
ghost use Rattle.rsp_cli_files.specs.Faults.{IsReadFault, IsWriteFault};

use crate::fault::Fault;
use crate::same::is_same_file;
use crate::save::save;
use std::alloc::{AllocGlobal, Global};
use std::fs::File;
use std::io::{self, ErrorKind, Read};
use std::rt::Files;

/// Why a file wasn't read or written, as the messages distinguish it.
#[derive(Clone, Copy)]
pub enum FileFault {
    /// The system refused it, for this reason.
    Refused(ErrorKind),
    /// There was no memory for it.
    OutOfMemory,
}

/// Which standard streams are terminals.
#[derive(Clone, Copy)]
pub struct Terminals {
    /// Standard input: a script is typed.
    pub input: bool,
    /// Standard output: who types sees the replies there.
    pub output: bool,
    /// Standard error.
    pub errors: bool,
}

/// The files that the program reads and writes, and what it asks of its standard streams.
pub trait FileStore {
    /// The bytes of the file with this name, or why it can't be read, if the store tells it.
    ghost content: { Self → List ℕ → Option (Result (List ℕ) FileFault) };

    /// The first bytes of a file, at most `limit`. No more are read, and no file changes.
    fn read(&mut self, alloc: Global, name: &str, limit: u64) -> Result<Vec<u8>, FileFault>
        ensures ok { IfOk result (λ bytes. BeginsWith (content self.old name.now) limit bytes.items) }
        ensures err { IfErr result (MayFail (content self.old name.now)) }
        ensures same { SameFiles (content self.old) (content self.new) };

    /// Makes a file of these bytes. It replaces a file of that name. After a fault the store doesn't tell of another file than before.
    fn write(&mut self, name: &str, bytes: &[u8]) -> Result<(), FileFault>
        ensures ok { OnOk result (IsWritten (content self.old name.now) (content self.new name.now) bytes.now) }
        ensures others { OnOk result (WritesOneFile (content self.old) (content self.new) bytes.now) }
        ensures err { OnErr result (SameFiles (content self.old) (content self.new)) };

    /// Whether two names lead to one regular file, if the store tells it.
    ghost same: { Self → List ℕ → List ℕ → Option Bool };

    /// Whether two names lead to one regular file, through links and by any of its names. False if one of them leads to no file.
    fn is_same(&self, one: &str, other: &str) -> bool
        ensures { IfSome (same self.now one.now other.now) (λ is. result ≡ is) };

    /// Which standard streams are terminals.
    fn terminals(&self) -> Terminals;
}

/// The files of the system. One that is written keeps its old bytes until the new ones are whole, unless no new file can replace it.
#[derive(Drop)]
pub struct SystemFiles<'a, R> {
    runtime: &'a R,
    terminals: Terminals,
}

impl<'a, R> SystemFiles<'a, R> {
    /// The files that this runtime reaches, where these streams are terminals.
    pub fn new(runtime: &'a R, terminals: Terminals) -> Self {
        SystemFiles { runtime, terminals }
    }
}

/// The first bytes of a file, at most `limit`. CannotRead if the system refused it, OutOfMemory if there was no memory.
pub fn read_file<'a, F: FileStore>(
    alloc: Global,
    files: &mut F,
    name: &'a str,
    limit: u64,
) -> Result<Vec<u8>, Fault<'a>>
    ensures ok { IfOk result (λ bytes. BeginsWith (F.content files.old name.now) limit bytes.items) }
    ensures err { IfErr result (IsReadFault name.now (F.content files.old name.now)) }
    ensures same { SameFiles (F.content files.old) (F.content files.new) }
{
    match files.read(alloc, name, limit) {
        Ok(bytes) => Ok(bytes),
        Err(FileFault::Refused(reason)) => Err(Fault::CannotRead(name, reason)),
        Err(FileFault::OutOfMemory) => Err(Fault::OutOfMemory),
    }
}

/// Makes a file of these bytes. CannotWrite if the system refused it, OutOfMemory if there was no memory.
pub fn write_file<'a, F: FileStore>(
    files: &mut F,
    name: &'a str,
    bytes: &[u8],
) -> Result<(), Fault<'a>>
    ensures ok { OnOk result (IsWritten (F.content files.old name.now) (F.content files.new name.now) bytes.now) }
    ensures others { OnOk result (WritesOneFile (F.content files.old) (F.content files.new) bytes.now) }
    ensures err { IfErr result (IsWriteFault name.now) }
    ensures same { OnErr result (SameFiles (F.content files.old) (F.content files.new)) }
{
    match files.write(name, bytes) {
        Ok(()) => Ok(()),
        Err(FileFault::Refused(reason)) => Err(Fault::CannotWrite(name, reason)),
        Err(FileFault::OutOfMemory) => Err(Fault::OutOfMemory),
    }
}

impl From<io::Error> for FileFault {
    fn from(error: io::Error) -> FileFault {
        match error.kind() {
            ErrorKind::OutOfMemory => FileFault::OutOfMemory,
            reason => FileFault::Refused(reason),
        }
    }
}

impl<R: Files + AllocGlobal> FileStore for SystemFiles<'_, R> {
    /// No contract says what the system has in a file.
    ghost content = { λ _ _. None };

    /// Or which of its names lead to one.
    ghost same = { λ _ _ _. None };

    fn read(&mut self, alloc: Global, name: &str, limit: u64) -> Result<Vec<u8>, FileFault> {
        let mut bytes = Vec::new(alloc);
        File::open(self.runtime, name)?
            .take(limit)
            .read_to_end(&mut bytes)?;
        Ok(bytes)
    }

    fn write(&mut self, name: &str, bytes: &[u8]) -> Result<(), FileFault> {
        Ok(save(self.runtime, name, bytes)?)
    }

    fn is_same(&self, one: &str, other: &str) -> bool {
        is_same_file(self.runtime, one, other)
    }

    fn terminals(&self) -> Terminals {
        self.terminals
    }
}
