ghost use Rattle.std.specs.Prelude.{◌≡◌, ℕ, ◌+◌, ◌-◌, ◌<◌, ◌≤◌, ◌^◌, ◌++◌, length, OnOk, OnErr, IfErr, IsErrOf};
ghost use Rattle.std.specs.Io.KnownBytes.{Appends};
ghost use Rattle.rsp_script_io.specs.Pieces.{PieceAnswered, NoMemoryIn};
ghost use Rattle.rsp_script_io.specs.Faults.{failed_writes, IsAnswerFault};
ghost use Rattle.rsp_script_io.specs.EarlyEnd.{WritesPrefix};
ghost use Rattle.rsp_script_io.specs.Feeds.{script_limit};
ghost use Rattle.rsp_script_io.specs.Lines.{ended_after, last_line};
ghost use Rattle.rsp_script_io.specs.Replies.{replies, final, OfFirst};

use crate::feed::Feed;
use crate::line_handler::LineHandler;
use crate::reply::Reply;
use crate::run::RunFault;
use crate::sink::Sink;
use crate::source::EndFault;
use std::alloc::Global;

/// Writes all bytes. A write that fails, or takes nothing, is not tried again.
fn write_all<W: Sink>(sink: &mut W, bytes: &[u8]) -> Result<(), EndFault>
    requires { W.fault_count sink.old < 2 ^ 64 - 1 }
    ensures written { OnOk result (Appends (W.written sink.old) (W.written sink.new) bytes.now) }
    ensures prefix { OnErr result (WritesPrefix (W.written sink.old) (W.written sink.new) bytes.now) }
    ensures same { OnOk result (W.fault_count sink.new ≡ W.fault_count sink.old) }
    ensures failed { OnErr result (W.fault_count sink.new ≡ W.fault_count sink.old + 1) }
{
    let mut rest = bytes;
    while !rest.is_empty() {
        let n = sink.write(rest)?;
        if n == 0 {
            return Err(EndFault);
        }
        rest = &rest[n..];
    }
    Ok(())
}

/// Answers each line that ends in the next piece of a script, which must be within the limit.
pub(crate) fn answer_piece<S: LineHandler, W: Sink>(
    alloc: Global,
    session: &mut S,
    feed: &mut Feed,
    piece: &[u8],
    reply: &mut Reply,
    sink: &mut W,
) -> Result<(), RunFault>
    requires sink { W.fault_count sink.old < 2 ^ 64 - 1 }
    requires room { feed.old.count + length piece.now ≤ script_limit }
    ensures answers { OnOk result (PieceAnswered S.answer_to (W.written sink.old) (W.written sink.new) feed.old.line feed.new.line session.old session.new piece.now) }
    ensures bytes { OnOk result (feed.new.count ≡ feed.old.count + length piece.now) }
    ensures prefix { OnErr result (WritesPrefix (W.written sink.old) (W.written sink.new) (replies S.answer_to (ended_after feed.old.line piece.now) session.old)) }
    ensures count { W.fault_count sink.new ≡ W.fault_count sink.old + failed_writes result }
    ensures cause { IfErr result IsAnswerFault }
    ensures memory { IsErrOf result RunFault.OutOfMemory → NoMemoryIn S.answer_to S.lacks_memory (W.written sink.old) (W.written sink.new) feed.old.line session.old piece.now }
{
    let mut rest = piece;
    while !rest.is_empty() {
        let n = match feed.take(alloc, session, rest, reply) {
            Ok(n) => n,
            Err(_) => return Err(RunFault::OutOfMemory),
        };
        let Ok(()) = write_all(sink, reply.bytes()) else {
            return Err(RunFault::WriteFault);
        };
        rest = &rest[n..];
    }
    Ok(())
}

/// Answers the line that no LF ended, and writes what is written at the end of a script.
pub(crate) fn answer_end<S: LineHandler, W: Sink>(
    alloc: Global,
    session: &mut S,
    feed: &Feed,
    reply: &mut Reply,
    sink: &mut W,
) -> Result<(), RunFault>
    requires { W.fault_count sink.old < 2 ^ 64 - 1 }
    ensures written { OnOk result (Appends (W.written sink.old) (W.written sink.new)
        (replies S.answer_to (last_line feed.now.line) session.old ++ S.end_reply (final S.answer_to (last_line feed.now.line) session.old))) }
    ensures session { OnOk result (session.new ≡ final S.answer_to (last_line feed.now.line) session.old) }
    ensures prefix { OnErr result (WritesPrefix (W.written sink.old) (W.written sink.new)
        (replies S.answer_to (last_line feed.now.line) session.old ++ S.end_reply (final S.answer_to (last_line feed.now.line) session.old))) }
    ensures count { W.fault_count sink.new ≡ W.fault_count sink.old + failed_writes result }
    ensures cause { IfErr result IsAnswerFault }
    ensures memory { IsErrOf result RunFault.OutOfMemory → (W.written sink.new ≡ W.written sink.old) × OfFirst S.lacks_memory (last_line feed.now.line) session.old }
{
    let Ok(()) = feed.end(alloc, session, reply) else {
        return Err(RunFault::OutOfMemory);
    };
    let Ok(()) = write_all(sink, reply.bytes()) else {
        return Err(RunFault::WriteFault);
    };
    session.put_end_reply(reply);
    let Ok(()) = write_all(sink, reply.bytes()) else {
        return Err(RunFault::WriteFault);
    };
    Ok(())
}
