// A source and a sink that move few bytes, fail, or never end.

ghost use Rattle.std.specs.Prelude.{◌≡◌, ℕ, ◌+◌, Some, None};

use rsp_script_io::{EndFault, MemSink, MemSource, Sink, Source};

/// A script, of which each read moves as much as there is room for, and none fails. Its fields make it otherwise.
#[derive(Drop)]
pub(crate) struct FakeSource<'a> {
    script: MemSource<'a>,
    /// A byte that it gives without end in place of the script.
    pub(crate) endless: Option<u8>,
    /// The most bytes of a read.
    pub(crate) step: usize,
    /// After how many reads it fails.
    pub(crate) reads_left: u64,
    /// How many bytes were read.
    pub(crate) given: usize,
    failures: u64,
}

impl<'a> FakeSource<'a> {
    pub(crate) fn new(script: &'a [u8]) -> FakeSource<'a>
        ensures { result.failures ≡ 0 }
    {
        FakeSource {
            script: MemSource::new(script),
            endless: None,
            step: usize::MAX,
            reads_left: u64::MAX,
            given: 0,
            failures: 0,
        }
    }
}

impl Source for FakeSource<'_> {
    ghost rest = { λ _. None };

    ghost fault_count = { λ s. s.failures };

    fn read(&mut self, buf: &mut [u8]) -> Result<usize, EndFault> {
        if self.reads_left == 0 {
            self.failures += 1;
            return Err(EndFault);
        }
        self.reads_left -= 1;
        let room = buf.len().min(self.step);
        let n = match self.endless {
            Some(byte) => {
                buf[..room].fill(byte);
                room
            }
            None => self.script.read(&mut buf[..room])?,
        };
        self.given = self.given.saturating_add(n);
        Ok(n)
    }

    fn failures(&self) -> u64 {
        self.failures
    }
}

/// A sink in memory, of which each write takes as much as there is room for. Its fields make it otherwise.
#[derive(Drop)]
pub(crate) struct FakeSink {
    replies: MemSink,
    /// The most bytes of a write.
    pub(crate) step: usize,
    /// After how many writes it fails, or takes nothing.
    pub(crate) writes_left: u64,
    /// Whether it then takes nothing, in place of a fault.
    pub(crate) takes_nothing: bool,
    failures: u64,
}

impl FakeSink {
    pub(crate) fn new(replies: MemSink) -> FakeSink
        ensures { result.failures ≡ 0 }
    {
        FakeSink {
            replies,
            step: usize::MAX,
            writes_left: u64::MAX,
            takes_nothing: false,
            failures: 0,
        }
    }

    pub(crate) fn bytes(&self) -> &[u8] {
        self.replies.bytes()
    }
}

impl Sink for FakeSink {
    ghost written = { λ _. None };

    ghost fault_count = { λ s. s.failures };

    fn write(&mut self, piece: &[u8]) -> Result<usize, EndFault> {
        if piece.is_empty() {
            return Ok(0);
        }
        if self.writes_left == 0 || self.replies.failures() > 0 {
            self.failures += 1;
            return if self.takes_nothing {
                Ok(0)
            } else {
                Err(EndFault)
            };
        }
        self.writes_left -= 1;
        let n = self.replies.write(&piece[..piece.len().min(self.step)])?;
        if n == 0 {
            self.failures += 1;
        }
        Ok(n)
    }

    fn failures(&self) -> u64 {
        self.failures
    }
}
