use rsp_script_io::{EndFault, FromRead, MemSink, MemSource, Sink, Source, ToWrite};
use std::io;
use std::io::{ErrorKind, Read, Write};
use std::test::Fail;

/// A reader or a writer whose second call fails. All other calls serve.
#[derive(Drop)]
struct Faltering<S> {
    stream: S,
    calls: u64,
}

impl<S> Faltering<S> {
    fn new(stream: S) -> Faltering<S> {
        Faltering { stream, calls: 0 }
    }

    fn call(&mut self) -> io::Result<()> {
        self.calls = self.calls.saturating_add(1);
        if self.calls == 2 {
            return Err(io::Error::from(ErrorKind::BrokenPipe));
        }
        Ok(())
    }
}

impl<S: Read> Read for Faltering<S> {
    fn read(&mut self, buf: &mut [u8]) -> io::Result<usize> {
        self.call()?;
        self.stream.read(buf)
    }
}

impl<S: Write> Write for Faltering<S> {
    fn write(&mut self, buf: &[u8]) -> io::Result<usize> {
        self.call()?;
        self.stream.write(buf)
    }

    fn flush(&mut self) -> io::Result<()> {
        self.stream.flush()
    }
}

#[test]
fn memory_gives_and_takes_what_fits(rt: HostRuntime) -> Result<(), Fail> {
    let mut source = MemSource::new(b"step\n");
    let mut sink = MemSink::new(rt.alloc(), 6)?;
    let mut buffer = [0u8; 4];
    let moved = [
        (source.read(&mut buffer), sink.write(&buffer)),
        (source.read(&mut buffer), sink.write(&buffer)),
        (source.read(&mut buffer), sink.write(b"x")),
    ];
    assert!(rt; moved == [(Ok(4), Ok(4)), (Ok(1), Ok(2)), (Ok(0), Ok(0))]);
    assert!(rt; sink.bytes() == b"step\nt".as_slice());
    assert!(rt; source.failures() == 0 && sink.failures() == 1);
    Ok(())
}

#[test]
fn a_reader_and_a_writer_serve_until_they_fail(rt: HostRuntime) {
    let mut source = FromRead::new(Faltering::new(b"regs\nstep\n".as_slice()));
    let mut written = [0u8; 8];
    let mut sink = ToWrite::new(Faltering::new(written.as_mut_slice()));
    let mut buffer = [0u8; 5];
    let served = (source.read(&mut buffer), sink.write(&buffer));
    let no_failures = (source.failures(), sink.failures());
    // The second call of each would serve if it were tried again, and so would the third if it weren't refused.
    let failed = (source.read(&mut buffer), sink.write(b"x"));
    let refused = (source.read(&mut buffer), sink.write(b"x"));
    let failures = (source.failures(), sink.failures());
    assert!(rt; served == (Ok(5), Ok(5)) && no_failures == (0, 0));
    assert!(rt;
        failed == (Err(EndFault), Err(EndFault)) && refused == failed && failures == (2, 2)
    );
    assert!(rt; sink.into_inner().calls == 2);
    assert!(rt; written == *b"regs\n\0\0\0");
}

#[test]
fn a_writer_that_takes_nothing_has_failed(rt: HostRuntime) {
    let mut written = [0u8; 5];
    let mut sink = ToWrite::new(written.as_mut_slice());
    let taken = (sink.write(b"regs\n"), sink.write(b""));
    let no_failures = sink.failures();
    let failed = (sink.write(b"x"), sink.write(b""));
    assert!(rt; taken == (Ok(5), Ok(0)) && no_failures == 0);
    assert!(rt; failed == (Ok(0), Err(EndFault)) && sink.failures() == 2);
    assert!(rt; written.as_slice() == b"regs\n".as_slice());
}
