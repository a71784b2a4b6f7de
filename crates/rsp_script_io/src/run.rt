ghost use Rattle.std.specs.Prelude.{◌≡◌, ℕ, ◌+◌, ◌-◌, ◌<◌, ◌≤◌, ◌^◌, List, length, OnOk, IfSome, IsErrOf};
ghost use Rattle.std.specs.Io.KnownBytes.{Appends};
ghost use Rattle.std.specs.Str.Lines.{lines};
ghost use Rattle.rsp_script_io.specs.Faults.{failed_reads, failed_writes};
ghost use Rattle.rsp_script_io.specs.EarlyEnd.{TakesAtMost, Takes, LeavesWritten, NoMemoryLeft};
ghost use Rattle.rsp_script_io.specs.Feeds.{script_limit};
ghost use Rattle.rsp_script_io.specs.Replies.{final, written_of};

use crate::answer::{answer_end, answer_piece};
use crate::feed::{Feed, SCRIPT_LIMIT};
use crate::line_handler::LineHandler;
use crate::reply::Reply;
use crate::sink::Sink;
use crate::source::Source;
use std::alloc::Global;

/// The most bytes of one read.
const PIECE_LENGTH: usize = 4096;

/// Why a run ended early.
#[derive(Clone, Copy, Debug, PartialEq, Eq)]
pub enum RunFault {
    /// Fault 40: a read failed. The lines that had ended were answered in full.
    ReadFault,
    /// Fault 41: a write failed, or took nothing of a piece that isn't empty.
    WriteFault,
    /// Fault 42: the script has more than `SCRIPT_LIMIT` bytes. The lines that ended within the limit were answered in full.
    ScriptTooLong,
    /// Fault 43: there was no memory to answer a line.
    OutOfMemory,
}

/// Reads a script in pieces of at most 4096 bytes, and writes the reply to each line that ends in a piece before it reads the
/// next. At the end it answers the line that no LF ended, and writes what is written at the end of a script.
///
/// It ends early with the first read or write that fails, if there is no memory to answer a line, or when it has read a byte
/// more than `SCRIPT_LIMIT` and answered the lines that ended within the limit. It never reads more than that byte.
pub fn answer_script<S: LineHandler, R: Source, W: Sink>(
    alloc: Global,
    session: &mut S,
    source: &mut R,
    sink: &mut W,
) -> Result<(), RunFault>
    requires source { R.fault_count source.old < 2 ^ 64 - 1 }
    requires sink { W.fault_count sink.old < 2 ^ 64 - 1 }

    // A run that ends well has answered the whole script.
    ensures fits { IfSome (R.rest source.old) (λ script. OnOk result (length script ≤ script_limit)) }
    ensures written { IfSome (R.rest source.old) (λ script. OnOk result (
        Appends (W.written sink.old) (W.written sink.new) (written_of S.answer_to S.end_reply script session.old))) }
    ensures session { IfSome (R.rest source.old) (λ script. OnOk result (session.new ≡ final S.answer_to (lines script) session.old)) }

    // A fault has its cause, and a read or a write that failed is not tried again.
    ensures reads { R.fault_count source.new ≡ R.fault_count source.old + failed_reads result }
    ensures writes { W.fault_count sink.new ≡ W.fault_count sink.old + failed_writes result }
    ensures long { IfSome (R.rest source.old) (λ script. IsErrOf result RunFault.ScriptTooLong → script_limit < length script) }
    ensures past { IsErrOf result RunFault.ScriptTooLong → Takes (script_limit + 1) (R.rest source.old) (R.rest source.new) }
    ensures few { TakesAtMost (script_limit + 1) (R.rest source.old) (R.rest source.new) }

    // What a run that ends early has written.
    ensures left { LeavesWritten result (record {
      answer_to = S.answer_to;
      end_reply = S.end_reply;
      session = session.old;
      script = R.rest source.old;
      unread = R.rest source.new;
      before = W.written sink.old;
      written = W.written sink.new;
    }) }

    // Out of memory comes only at a line that may need some, and after all lines before it are answered.
    ensures memory { IsErrOf result RunFault.OutOfMemory → NoMemoryLeft S.lacks_memory (record {
      answer_to = S.answer_to;
      end_reply = S.end_reply;
      session = session.old;
      script = R.rest source.old;
      unread = R.rest source.new;
      before = W.written sink.old;
      written = W.written sink.new;
    }) }
{
    let mut feed = Feed::new();
    let mut buffer = [0u8; PIECE_LENGTH];
    let mut reply = Reply::new();
    loop {
        let room = feed.room();
        let most = PIECE_LENGTH.min(room + 1);
        let Ok(n) = source.read(&mut buffer[..most]) else {
            return Err(RunFault::ReadFault);
        };
        if n == 0 {
            answer_end(alloc, session, &feed, &mut reply, sink)?;
            return Ok(());
        }
        let within = n.min(room);
        answer_piece(
            alloc,
            session,
            &mut feed,
            &buffer[..within],
            &mut reply,
            sink,
        )?;
        if n > room {
            return Err(RunFault::ScriptTooLong);
        }
    }
}
