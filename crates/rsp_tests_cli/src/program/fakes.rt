ghost use Rattle.std.specs.Prelude.{Some, Ok, Err, IfOk, IfErr, option_map, string_bytes, ◌≡◌};
ghost use Rattle.std.specs.Str.{bytes_eq};
ghost use Rattle.rsp_tests_cli.specs.Files.{may_save, file_of};

use rsp_cli::{FileFault, FileStore, Terminals};
use std::alloc::Global;
use std::io::{self, ErrorKind, Read, Write};

/// Files in memory: one with the name `image` can be read, and one can be written.
#[derive(Drop)]
pub(super) struct FakeFiles<'a> {
    alloc: Global,
    image: &'a [u8],
    read_fault: Option<FileFault>,
    write_fault: Option<FileFault>,
    terminals: Terminals,
    /// How many bytes the last read asked for.
    pub(super) limit: u64,
    /// How many files were written.
    pub(super) written: u64,
    /// The name of the file that was written.
    saved_name: Option<String>,
    /// Its bytes.
    pub(super) saved: Vec<u8>,
}

impl<'a> FakeFiles<'a> {
    /// Files of which `image` has these bytes. If a fault is given, each read of a file that wasn't written, or each write, ends with it.
    pub(super) fn new(
        alloc: Global,
        image: &'a [u8],
        read_fault: Option<FileFault>,
        write_fault: Option<FileFault>,
        terminals: Terminals,
    ) -> FakeFiles<'a> {
        FakeFiles {
            alloc,
            image,
            read_fault,
            write_fault,
            terminals,
            limit: 0,
            written: 0,
            saved_name: None,
            saved: Vec::new(alloc),
        }
    }

    /// Whether a file with this name may be written. There is room for one.
    fn may_save(&self, name: &str) -> bool
        ensures { result ≡ may_save (option_map string_bytes self.now.saved_name) name.now }
    {
        match &self.saved_name {
            Some(saved) => saved.as_str() == name,
            None => true,
        }
    }

    /// The bytes of the file with this name, or why it can't be read.
    fn held(&self, name: &str) -> Result<&[u8], FileFault>
        ensures ok { IfOk result (λ held. file_of (option_map string_bytes self.now.saved_name) self.now.saved.items self.now.read_fault self.now.image.now name.now ≡ Ok held.now) }
        ensures err { IfErr result (λ fault. file_of (option_map string_bytes self.now.saved_name) self.now.saved.items self.now.read_fault self.now.image.now name.now ≡ Err fault) }
    {
        if let Some(saved) = &self.saved_name {
            if saved.as_str() == name {
                return Ok(&self.saved);
            }
        }
        if let Some(fault) = self.read_fault {
            return Err(fault);
        }
        if name == "image" {
            Ok(self.image)
        } else {
            Err(FileFault::Refused(ErrorKind::NotFound))
        }
    }
}

impl FileStore for FakeFiles<'_> {
    /// It tells of each name what a file with it holds.
    ghost content = { λ s name. Some (file_of (option_map string_bytes s.saved_name) s.saved.items s.read_fault s.image.now name) };

    /// Each name leads to a file of its own.
    ghost same = { λ s one other. Some (bytes_eq one other) };

    fn read(&mut self, alloc: Global, name: &str, limit: u64) -> Result<Vec<u8>, FileFault> {
        self.limit = limit;
        let held = self.held(name)?;
        let end = (limit as usize).min(held.len());
        match Vec::from_slice(alloc, &held[..end]) {
            Ok(bytes) => Ok(bytes),
            Err(_) => Err(FileFault::OutOfMemory),
        }
    }

    fn write(&mut self, name: &str, bytes: &[u8]) -> Result<(), FileFault> {
        if let Some(fault) = self.write_fault {
            return Err(fault);
        }
        if !self.may_save(name) {
            return Err(FileFault::Refused(ErrorKind::StorageFull));
        }
        let (Ok(name), Ok(saved)) = (
            String::from_str(self.alloc, name),
            Vec::from_slice(self.alloc, bytes),
        ) else {
            return Err(FileFault::OutOfMemory);
        };
        self.written = self.written.saturating_add(1);
        self.saved_name = Some(name);
        self.saved = saved;
        Ok(())
    }

    fn is_same(&self, one: &str, other: &str) -> bool {
        one == other
    }

    fn terminals(&self) -> Terminals {
        self.terminals
    }
}

/// What a reader does after its bytes.
#[derive(Clone, Copy)]
pub(super) enum AfterBytes {
    End,
    Fault,
    /// Bytes without end, and no newline among them.
    Hashes,
}

/// A reader that counts its reads.
#[derive(Drop)]
pub(super) struct FakeReader<'a> {
    bytes: &'a [u8],
    after: AfterBytes,
    pub(super) reads: u64,
}

impl<'a> FakeReader<'a> {
    pub(super) fn new(bytes: &'a [u8], after: AfterBytes) -> FakeReader<'a> {
        FakeReader {
            bytes,
            after,
            reads: 0,
        }
    }
}

impl Read for FakeReader<'_> {
    fn read(&mut self, buf: &mut [u8]) -> io::Result<usize> {
        self.reads = self.reads.saturating_add(1);
        if !self.bytes.is_empty() {
            return self.bytes.read(buf);
        }
        match self.after {
            AfterBytes::End => Ok(0),
            AfterBytes::Fault => Err(io::Error::from(ErrorKind::BrokenPipe)),
            AfterBytes::Hashes => {
                buf.fill(b'#');
                Ok(buf.len())
            }
        }
    }
}

/// A writer that takes no more bytes than it has room for. It allocates nothing, so that it also serves where allocations fail.
#[derive(Drop)]
pub(super) struct FakeWriter<'a> {
    room: &'a mut [u8],
    /// The most bytes that it takes of a write.
    width: usize,
    taken: usize,
}

impl<'a> FakeWriter<'a> {
    pub(super) fn new(room: &'a mut [u8], width: usize) -> FakeWriter<'a> {
        FakeWriter {
            room,
            width,
            taken: 0,
        }
    }

    /// The bytes that it took.
    pub(super) fn bytes(&self) -> &[u8] {
        &self.room[..self.taken.min(self.room.len())]
    }
}

impl Write for FakeWriter<'_> {
    fn write(&mut self, buf: &[u8]) -> io::Result<usize> {
        let start = self.taken.min(self.room.len());
        let free = &mut self.room[start..];
        let count = buf.len().min(self.width).min(free.len());
        free[..count].copy_from_slice(&buf[..count]);
        self.taken = start + count;
        Ok(count)
    }

    fn flush(&mut self) -> io::Result<()> {
        Ok(())
    }
}
