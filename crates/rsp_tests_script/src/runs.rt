// Runs over sources and sinks in memory, and over some that fail, that move few bytes, and that never end.

ghost use Rattle.std.specs.Prelude.{◌≡◌, ◌<◌, IfOk};

use crate::fakes::{FakeSink, FakeSource};
use rsp_bench::{BenchEnd, MemSink, MemSource, Sink, Source, run_bench};
use rsp_memory::Rdram;
use rsp_script_io::RunFault;
use std::test::Fail;

/// A script that starts a task.
const TASK: &[u8] =
    b"load rdram 8 0000004000000008\nload rdram 0x40 340100070000000d\ntask 4\ntask 0x40\ntask 0\nrun 10\nread 4\nmem dmem 0xfc8 8\n";

/// Its replies: a line for each of its lines.
const REPLIES: &[u8] =
    b"ok\nok\nfault 4 TaskPlace\nfault 5 TaskSize\nok\nstop Halted steps 2 pc 008\nc4 00000043\n000fc8: 0000004000000008\n";

/// A script that steps through three words, and past the last.
const STEPS: &[u8] =
    b"load imem 0 34021234ac0200000000000d\nstep\nstep\nstep\r\nmem dmem 0 4\nstep";

/// Its replies.
const STEPS_REPLIES: &[u8] =
    b"ok\nstep Done pc 004\nstep Done pc 008\nstep Done pc 00c\n000000: 00001234\nstep Halted pc 00c\n";

fn line_count(text: &[u8]) -> usize {
    text.iter().filter(|byte| **byte == b'\n').count()
}

/// The first of the replies.
fn first_replies(count: usize) -> &'static [u8] {
    let mut length = 0usize;
    let mut left = count;
    for byte in REPLIES {
        if left == 0 {
            break;
        }
        if *byte == b'\n' {
            left -= 1;
        }
        length = length.saturating_add(1);
    }
    REPLIES.get(..length).unwrap_or_default()
}

fn sink(rt: &HostRuntime) -> Result<FakeSink, Fail>
    ensures { IfOk result (λ s. s.failures ≡ 0) }
{
    Ok(FakeSink::new(MemSink::new(rt.alloc(), 4096)?))
}

/// Runs a script. Returns why the run ended early, if it did.
pub(crate) fn run(
    rt: &HostRuntime,
    image: Rdram,
    source: &mut FakeSource,
    sink: &mut FakeSink,
) -> Option<RunFault>
    requires source { source.old.failures ≡ 0 }
    requires sink { sink.old.failures ≡ 0 }
{
    match run_bench(rt.alloc(), image, source, sink) {
        BenchEnd::Finished(_) => None,
        BenchEnd::ReadFault => Some(RunFault::ReadFault),
        BenchEnd::WriteFault => Some(RunFault::WriteFault),
        BenchEnd::ScriptTooLong => Some(RunFault::ScriptTooLong),
        BenchEnd::OutOfMemory => Some(RunFault::OutOfMemory),
    }
}

/// An image of so many zeros.
fn zeros(rt: &HostRuntime, length: usize) -> Result<Rdram, Fail> {
    match Rdram::from_bytes(vec![in rt.alloc(); 0; length]?) {
        Ok(image) => Ok(image),
        Err(_) => Err(Fail::new("the image is refused")),
    }
}

/// Whether a script in memory finishes, with these replies in memory. There is memory for the run and for the sink.
fn gives(rt: &HostRuntime, script: &[u8], replies: &[u8]) -> Result<bool, Fail> {
    let mut source = MemSource::new(script);
    let mut sink = MemSink::new(rt.alloc(), 4096)?;
    let end = run_bench(rt.alloc(), zeros(rt, 64)?, &mut source, &mut sink);
    Ok(matches!(end, BenchEnd::Finished(_)) && sink.bytes() == replies)
}

#[test]
fn streams_in_memory_serve_a_run(rt: HostRuntime) -> Result<(), Fail> {
    let cases = [(b"".as_slice(), b"".as_slice()), (STEPS, STEPS_REPLIES)];
    for (script, replies) in cases {
        let is_right = gives(&rt, script, replies)?;
        assert!(rt; is_right);
    }
    Ok(())
}

/// Whether a script is answered as far as so many reads of so many bytes go, after which a read fails.
fn is_answered(rt: &HostRuntime, step: usize, reads: usize) -> Result<bool, Fail>
    requires { 0 < step }
{
    let mut source = FakeSource::new(TASK);
    source.step = step;
    source.reads_left = reads as u64;
    let mut sink = sink(rt)?;
    let end = run(rt, zeros(rt, 128)?, &mut source, &mut sink);
    // The read after the last byte meets the end.
    let fault = if reads > TASK.len().div_ceil(step) {
        None
    } else {
        Some(RunFault::ReadFault)
    };
    let taken = step.saturating_mul(reads).min(TASK.len());
    let replies = first_replies(line_count(&TASK[..taken]));
    let is_counted = source.failures() == u64::from(fault.is_some());
    Ok(end == fault && is_counted && sink.bytes() == replies)
}

#[test]
fn each_read_may_fail(rt: HostRuntime) -> Result<(), Fail> {
    for step in [1, 2, 3, 7, 4096] {
        for reads in 0..=TASK.len().div_ceil(step) + 1 {
            let is_right = is_answered(&rt, step, reads)?;
            assert!(rt; is_right, "{reads} reads of {step} bytes");
        }
    }
    Ok(())
}

/// Whether the replies are written as far as so many writes of so many bytes go, after which a write fails or takes nothing.
fn is_written(
    rt: &HostRuntime,
    step: usize,
    writes: usize,
    takes_nothing: bool,
) -> Result<bool, Fail> {
    let mut sink = sink(rt)?;
    sink.step = step;
    sink.writes_left = writes as u64;
    sink.takes_nothing = takes_nothing;
    let end = run(rt, zeros(rt, 128)?, &mut FakeSource::new(TASK), &mut sink);
    let replies = if step == 1 {
        REPLIES.get(..writes).unwrap_or_default()
    } else {
        first_replies(writes)
    };
    let fault = if replies == REPLIES {
        None
    } else {
        Some(RunFault::WriteFault)
    };
    let is_counted = sink.failures() == u64::from(fault.is_some());
    Ok(end == fault && is_counted && sink.bytes() == replies)
}

#[test]
fn each_write_may_fail_or_take_nothing(rt: HostRuntime) -> Result<(), Fail> {
    for (step, needed) in [(1, REPLIES.len()), (4096, 8)] {
        for writes in 0..=needed {
            let is_right = is_written(&rt, step, writes, false)?
                && is_written(&rt, step, writes, true)?;
            assert!(rt; is_right, "{writes} writes of {step} bytes");
        }
    }
    Ok(())
}

#[test]
fn a_reader_need_not_end(rt: HostRuntime) -> Result<(), Fail> {
    for (byte, step) in [(b'x', 1), (b'x', 4096), (b'\n', 1), (b'\n', 4096)] {
        let mut source = FakeSource::new(b"");
        source.endless = Some(byte);
        source.step = step;
        let mut sink = sink(&rt)?;
        let end = run(&rt, zeros(&rt, 128)?, &mut source, &mut sink);
        let is_right = end == Some(RunFault::ScriptTooLong) && sink.bytes().is_empty();
        assert!(rt; is_right && source.given == 1_048_577, "{byte} without end");
    }
    Ok(())
}
