ghost use Rattle.std.specs.Prelude.{◌≡◌, ◌<◌, ◌≤◌, ◌+◌, ◌-◌, ◌^◌, length, IfSome};
ghost use Rattle.std.specs.Io.KnownBytes.{Appends};
ghost use Rattle.rsp_script_io.specs.Faults.{failed_reads, failed_writes};
ghost use Rattle.rsp_script_io.specs.EarlyEnd.{TakesAtMost, Takes, LeavesWritten};
ghost use Rattle.rsp_script_io.specs.Feeds.{script_limit};
ghost use Rattle.rsp_bench.specs.Run.{out_of, session_of, outcome, IfFinished, LacksMemory};
ghost use Rattle.rsp_bench.specs.Session.{line_answer, end_reply, first_session};

use crate::session::Session;
use rsp_memory::Rdram;
use rsp_script_io::{RunFault, Sink, Source, answer_script};
use std::alloc::Global;

/// How a run of a script ended. What it had written is a clause of [`run_bench`]. Each call that can meet the end of a script has a
/// type of its own for that end, because with one type for all each caller would have to exclude ends that can't occur.
#[derive(Drop)]
pub enum BenchEnd {
    /// The whole script is answered. The session is the one that its lines left.
    Finished(Session),
    /// Fault 40: a read failed.
    ReadFault,
    /// Fault 41: a write failed, or took nothing of a piece that isn't empty.
    WriteFault,
    /// Fault 42: the script has more than 1,048,576 bytes.
    ScriptTooLong,
    /// Fault 43: there was no memory for the session, or for an open block.
    OutOfMemory,
}

/// Answers a script. It reads pieces of at most 4096 bytes, carries out each line on a machine that begins with this image of
/// the RDRAM, and writes the reply to each line before it reads the next piece. A read or a write that fails ends the run.
///
/// The main theorem: if source and sink name their bytes, what a finished run wrote is what the definitions of the machine and of
/// the commands give for the script and the image.
#[tactic(auto, using(crate::proofs::Starts::starts))]
pub fn run_bench<R: Source, W: Sink>(
    alloc: Global,
    image: Rdram,
    source: &mut R,
    sink: &mut W,
) -> BenchEnd
    requires source { R.fault_count source.old < 2 ^ 64 - 1 }
    requires sink { W.fault_count sink.old < 2 ^ 64 - 1 }

    // A finished run wrote the replies to the whole script, which is within the limit, and left its session.
    ensures fits { IfSome (R.rest source.old) (λ script. IfFinished result (λ _. length script ≤ script_limit)) }
    ensures finished { IfSome (R.rest source.old) (λ script. IfFinished result (λ session.
        Appends (W.written sink.old) (W.written sink.new) (out_of script image)
        × (session ≡ session_of script image))) }

    // Each other end has its cause. A read or a write that failed is not tried again, so a finished run had none.
    ensures reads { R.fault_count source.new ≡ R.fault_count source.old + failed_reads (outcome result) }
    ensures writes { W.fault_count sink.new ≡ W.fault_count sink.old + failed_writes (outcome result) }
    ensures long { IfSome (R.rest source.old) (λ script. result ≡ BenchEnd.ScriptTooLong → script_limit < length script) }
    ensures past { result ≡ BenchEnd.ScriptTooLong → Takes (script_limit + 1) (R.rest source.old) (R.rest source.new) }
    ensures few { TakesAtMost (script_limit + 1) (R.rest source.old) (R.rest source.new) }

    // What a run that ends early has written.
    ensures left { LeavesWritten (outcome result) (record {
      answer_to = line_answer;
      end_reply = end_reply;
      session = first_session image;
      script = R.rest source.old;
      unread = R.rest source.new;
      before = W.written sink.old;
      written = W.written sink.new;
    }) }

    // A run out of memory had none for its session, or for a line of an open block or its end.
    ensures memory { result ≡ BenchEnd.OutOfMemory → LacksMemory (record {
      answer_to = line_answer;
      end_reply = end_reply;
      session = first_session image;
      script = R.rest source.old;
      unread = R.rest source.new;
      before = W.written sink.old;
      written = W.written sink.new;
    }) }
{
    let Ok(mut session) = Session::try_new(alloc, image) else {
        return BenchEnd::OutOfMemory;
    };
    match answer_script(alloc, &mut session, source, sink) {
        Ok(()) => BenchEnd::Finished(session),
        Err(RunFault::ReadFault) => BenchEnd::ReadFault,
        Err(RunFault::WriteFault) => BenchEnd::WriteFault,
        Err(RunFault::ScriptTooLong) => BenchEnd::ScriptTooLong,
        Err(RunFault::OutOfMemory) => BenchEnd::OutOfMemory,
    }
}
