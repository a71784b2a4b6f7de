// Calls that allocate. `tests/program/test_failing_allocations.py` runs these tests many times, and each time another allocation fails: a test then
// prints the answer on standard output, and calls again. When memory is there, the answers must be the usual ones.

ghost use Rattle.std.specs.Prelude.{◌≡◌, IfOk};

use crate::fakes::{FakeSink, FakeSource};
use crate::runs::run;
use rsp_asm::{
    AsmFaultKind, Block, BlockFault, FaultyOperand, Label, assemble, explain, labels_of,
};
use rsp_bench::{MemSink, Session, parse_line};
use rsp_feed::{Bench, BenchFault, run_pieces};
use rsp_memory::Rdram;
use rsp_operands::Labels;
use rsp_script_io::{LineHandler, Reply, RunFault, answer_script};
use rsp_syntax::has_line_bytes;
use std::test::Fail;

/// An image whose bytes are all 7. This is an allocation of the test itself: if it fails, it is made again.
fn image(rt: &HostRuntime) -> Result<Rdram, Fail> {
    let bytes = match vec![in rt.alloc(); 7; 64] {
        Ok(bytes) => bytes,
        Err(_) => vec![in rt.alloc(); 7; 64]?,
    };
    match Rdram::from_bytes(bytes) {
        Ok(image) => Ok(image),
        Err(_) => Err(Fail::new("the image is refused")),
    }
}

fn sink(rt: &HostRuntime) -> Result<FakeSink, Fail>
    ensures { IfOk result (λ s. s.failures ≡ 0) }
{
    if let Ok(replies) = MemSink::new(rt.alloc(), 256) {
        return Ok(FakeSink::new(replies));
    }
    println!(rt; "no sink")?;
    Ok(FakeSink::new(MemSink::new(rt.alloc(), 256)?))
}

fn session(rt: &HostRuntime) -> Result<Session, Fail> {
    let image = match Session::try_new(rt.alloc(), image(rt)?) {
        Ok(session) => return Ok(session),
        Err((image, _)) => image,
    };
    println!(rt; "no session")?;
    match Session::try_new(rt.alloc(), image) {
        Ok(session) => Ok(session),
        Err(_) => Err(Fail::new("still no session")),
    }
}

/// A label on each even line, from `a` to `x`, at 4, 8 and so on up to 96.
const LABELS: &str =
    "nop\na:\nnop\nb:\nnop\nc:\nnop\nd:\nnop\ne:\nnop\nf:\nnop\ng:\nnop\nh:\nnop\ni:\nnop\nj:\nnop\nk:\nnop\nl:\nnop\nm:\nnop\nn:\nnop\no:\nnop\np:\nnop\nq:\nnop\nr:\nnop\ns:\nnop\nt:\nnop\nu:\nnop\nv:\nnop\nw:\nnop\nx:\n.word a, x";

#[test]
fn a_text_is_assembled_when_memory_is_there(rt: HostRuntime) -> Result<(), Fail> {
    let mut expected = [0u32; 26];
    expected[24] = 4;
    expected[25] = 96;
    for _ in 0..2 {
        match assemble(rt.alloc(), 0, LABELS) {
            Ok(words) => assert!(rt; words.as_slice() == expected.as_slice()),
            Err(fault) => {
                assert!(rt; fault.kind == AsmFaultKind::OutOfMemory);
                println!(rt; "no memory at line {}", fault.line)?;
            }
        }
    }
    Ok(())
}

#[test]
fn a_text_is_explained_when_memory_is_there(rt: HostRuntime) -> Result<(), Fail> {
    for _ in 0..2 {
        match explain(rt.alloc(), 0, "a: nop\nb: nop\nbeq $1, $2, c") {
            Ok(found) => assert!(rt; matches!(found, Some(FaultyOperand { number: 3, .. }))),
            Err(_) => println!(rt; "no memory for a label")?,
        }
    }
    Ok(())
}

#[test]
fn labels_are_listed_when_memory_is_there(rt: HostRuntime) -> Result<(), Fail> {
    let text = "nop\na: nop\nb: j a";
    for _ in 0..2 {
        let Ok(_) = assemble(rt.alloc(), 8, text) else {
            println!(rt; "no memory for a label")?;
            continue;
        };
        match labels_of(rt.alloc(), 8, text) {
            Ok(found) => assert!(rt; matches!(found.last(), Some(Label { address: 16, .. }))),
            Err(_) => println!(rt; "no memory for the list")?,
        }
    }
    Ok(())
}

/// Adds a label, and again if there is no memory.
fn add<'a>(
    rt: &HostRuntime,
    labels: &mut Labels<'a>,
    name: &'a [u8],
    address: u16,
) -> Result<(), Fail> {
    if labels.add(name, address).is_err() {
        println!(rt; "no memory for a label at {address}")?;
        if labels.find(name).is_some() {
            return Err(Fail::new("a label is there that was refused"));
        }
        labels.add(name, address)?;
    }
    Ok(())
}

#[test]
fn labels_are_added_when_memory_is_there(rt: HostRuntime) -> Result<(), Fail> {
    let mut labels = Labels::new(rt.alloc());
    add(&rt, &mut labels, b"loop", 0)?;
    add(&rt, &mut labels, b"end", 12)?;
    assert!(rt; labels.find(b"loop") == Some(0) && labels.find(b"end") == Some(12));
    Ok(())
}

/// A block at 8 of three lines.
fn block(rt: &HostRuntime) -> Result<Block, Fail> {
    let mut block = Block::new(rt.alloc(), 8);
    for line in [
        "loop: j end # the first line of the block",
        "nop",
        "end: j loop",
    ] {
        if !has_line_bytes(line.as_bytes()) {
            return Err(Fail::new("a line has a byte that no line has"));
        }
        if block.push(line).is_err() {
            println!(rt; "no memory for {line}")?;
            block.push(line)?;
        }
    }
    Ok(block)
}

#[test]
fn a_block_is_assembled_when_memory_is_there(rt: HostRuntime) -> Result<(), Fail> {
    let block = block(&rt)?;
    for _ in 0..2 {
        match block.assemble(rt.alloc()) {
            Ok(words) => {
                assert!(rt; words.as_slice() == [0x0800_0004, 0, 0x0800_0002].as_slice())
            }
            Err(BlockFault::OutOfMemory { line }) => println!(rt; "no memory at line {line}")?,
            Err(_) => return Err(Fail::new("the block has a fault")),
        }
    }
    Ok(())
}

/// Lines, and the reply to each.
const LINES: &[(&str, &str)] = &[
    ("asm 0", ""),
    ("loop: addiu $1, $1, 1 # the first line of the block", ""),
    ("bne $1, $2, loop      # the second line of the block", ""),
    ("nop                   # the third line of the block", ""),
    ("break", ""),
    ("end", "ok 4 words\n"),
    (
        "mem imem 0 16",
        "000000: 242100011422fffe000000000000000d\n",
    ),
    ("mem rdram 60 4", "00003c: 07070707\n"),
];

/// Fails if a line has another reply.
fn check_reply(line: &'static str, reply: &Reply, expected: &str) -> Result<(), Fail> {
    if reply.bytes() == expected.as_bytes() {
        Ok(())
    } else {
        Err(Fail::new(line))
    }
}

/// Carries out a line, and again if there is no memory.
fn carry_out(
    rt: &HostRuntime,
    session: &mut Session,
    line: &'static str,
    expected: &str,
) -> Result<(), Fail> {
    let Ok(command) = parse_line(line.as_bytes(), session.in_block()) else {
        return Err(Fail::new("a line is no command"));
    };
    let reply = match session.exec(rt.alloc(), &command) {
        Ok(reply) => reply,
        Err(_) => {
            println!(rt; "no memory for {line}")?;
            session.exec(rt.alloc(), &command)?
        }
    };
    check_reply(line, &reply, expected)
}

fn carry_out_lines(rt: &HostRuntime, session: &mut Session) -> Result<(), Fail> {
    for &(line, expected) in LINES {
        carry_out(rt, session, line, expected)?;
    }
    Ok(())
}

#[test]
fn a_session_goes_on_when_memory_is_there(rt: HostRuntime) -> Result<(), Fail> {
    carry_out_lines(&rt, &mut session(&rt)?)
}

fn bench(rt: &HostRuntime) -> Result<Bench, Fail> {
    let image = match Bench::try_new(rt.alloc(), image(rt)?) {
        Ok(bench) => return Ok(bench),
        Err((image, _)) => image,
    };
    println!(rt; "no session")?;
    match Bench::try_new(rt.alloc(), image) {
        Ok(bench) => Ok(bench),
        Err(_) => Err(Fail::new("still no session")),
    }
}

/// Gives all bytes of a piece without an LF before its end, and again if there is no memory.
fn give(rt: &HostRuntime, bench: &mut Bench, piece: &[u8], reply: &mut Reply) -> Result<(), Fail> {
    let taken = match bench.take(rt.alloc(), piece, reply) {
        Err(BenchFault::OutOfMemory) => {
            println!(rt; "no memory for a piece")?;
            bench.take(rt.alloc(), piece, reply)
        }
        first => first,
    };
    if taken == Ok(piece.len()) {
        Ok(())
    } else {
        Err(Fail::new("a piece isn't taken"))
    }
}

/// Gives a line, which nothing replies to, and then its LF.
fn give_line(
    rt: &HostRuntime,
    bench: &mut Bench,
    line: &'static str,
    expected: &str,
    reply: &mut Reply,
) -> Result<(), Fail> {
    give(rt, bench, line.as_bytes(), reply)?;
    check_reply(line, reply, "")?;
    give(rt, bench, b"\n", reply)?;
    check_reply(line, reply, expected)
}

/// Gives a block whose `end` has no LF, and then the end of input.
fn give_end(rt: &HostRuntime, bench: &mut Bench, reply: &mut Reply) -> Result<(), Fail> {
    for piece in [b"asm 0\n".as_slice(), b"nop\n", b"end"] {
        give(rt, bench, piece, reply)?;
    }
    let mut fault = Reply::new();
    let mut ended = bench.end(rt.alloc(), reply, &mut fault);
    if ended.is_err() {
        println!(rt; "no memory for the end")?;
        ended = bench.end(rt.alloc(), reply, &mut fault);
    }
    if ended.is_ok() && reply.bytes() == b"ok 1 words\n".as_slice() && fault.bytes().is_empty() {
        Ok(())
    } else {
        Err(Fail::new("the end is answered otherwise"))
    }
}

fn give_lines(rt: &HostRuntime, bench: &mut Bench) -> Result<(), Fail> {
    let mut reply = Reply::new();
    for &(line, expected) in LINES {
        give_line(rt, bench, line, expected, &mut reply)?;
    }
    give_end(rt, bench, &mut reply)
}

#[test]
fn a_bench_goes_on_when_memory_is_there(rt: HostRuntime) -> Result<(), Fail> {
    give_lines(&rt, &mut bench(&rt)?)
}

/// Answers a script in pieces. Returns whether the replies are the right ones, if memory is there.
fn answers_pieces(rt: &HostRuntime) -> Result<bool, Fail> {
    let script = b"step\nasm 8\nx: j x\nend\nstep".as_slice();
    let replies = b"step Done pc 004\nok 1 words\nstep Done pc 008\n".as_slice();
    match run_pieces(rt.alloc(), image(rt)?, script, 3) {
        Ok(run) => Ok(run.0.as_slice() == replies),
        Err(BenchFault::OutOfMemory) => {
            println!(rt; "no memory for the script")?;
            Ok(true)
        }
        Err(_) => Ok(false),
    }
}

#[test]
fn a_script_in_pieces_is_answered_when_memory_is_there(rt: HostRuntime) -> Result<(), Fail> {
    for _ in 0..2 {
        let is_right = answers_pieces(&rt)?;
        assert!(rt; is_right);
    }
    Ok(())
}

/// Runs a script, with a block that needs memory. Returns whether the replies are the whole ones, or those before memory was short.
fn runs(rt: &HostRuntime) -> Result<bool, Fail> {
    let script = b"step\nasm 8\nx: .word x, x+4, -1\nj x\nnop\nend\nmem imem 8 20\n";
    let replies =
        b"step Done pc 004\nok 5 words\n000008: 000000080000000cffffffff08000002\n000018: 00000000\n".as_slice();
    let mut source = FakeSource::new(script);
    let mut sink = sink(rt)?;
    match run(rt, image(rt)?, &mut source, &mut sink) {
        None => Ok(sink.bytes() == replies),
        Some(RunFault::OutOfMemory) => {
            println!(rt; "no memory after {} bytes", sink.bytes().len())?;
            // the first line needs no memory: where it isn't answered, the session was refused, and nothing was read
            let is_unread = source.given == 0;
            Ok(replies.starts_with(sink.bytes()) && is_unread == sink.bytes().is_empty())
        }
        Some(_) => Ok(false),
    }
}

#[test]
fn a_run_is_whole_when_memory_is_there(rt: HostRuntime) -> Result<(), Fail> {
    for _ in 0..2 {
        let is_right = runs(&rt)?;
        assert!(rt; is_right);
    }
    Ok(())
}

/// Answers a line, and again if there is no memory.
fn answer(
    rt: &HostRuntime,
    session: &mut Session,
    line: &'static str,
    expected: &str,
    reply: &mut Reply,
) -> Result<(), Fail> {
    if session.answer(rt.alloc(), line.as_bytes(), reply).is_err() {
        println!(rt; "no memory for {line}")?;
        session.answer(rt.alloc(), line.as_bytes(), reply)?;
    }
    check_reply(line, reply, expected)
}

fn answer_lines(rt: &HostRuntime, session: &mut Session) -> Result<(), Fail> {
    let mut reply = Reply::new();
    for &(line, expected) in LINES {
        answer(rt, session, line, expected, &mut reply)?;
    }
    Ok(())
}

#[test]
fn a_line_is_answered_when_memory_is_there(rt: HostRuntime) -> Result<(), Fail> {
    answer_lines(&rt, &mut session(&rt)?)
}

/// Answers a script whose block needs memory. Returns whether the replies are the whole ones, or those before memory was short.
fn answers_script(rt: &HostRuntime, session: &mut Session) -> Result<bool, Fail> {
    let replies = b"step Done pc 004\nok 1 words\n".as_slice();
    let mut source = FakeSource::new(b"step\nasm 8\nx: j x\nend\n");
    let mut sink = sink(rt)?;
    match answer_script(rt.alloc(), session, &mut source, &mut sink) {
        Ok(()) => Ok(sink.bytes() == replies),
        Err(RunFault::OutOfMemory) => {
            println!(rt; "no memory after {} bytes", sink.bytes().len())?;
            Ok(replies.starts_with(sink.bytes()) && session.in_block())
        }
        Err(_) => Ok(false),
    }
}

#[test]
fn a_script_is_answered_when_memory_is_there(rt: HostRuntime) -> Result<(), Fail> {
    for _ in 0..2 {
        let is_right = answers_script(&rt, &mut session(&rt)?)?;
        assert!(rt; is_right);
    }
    Ok(())
}
