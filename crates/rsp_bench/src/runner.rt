ghost use Rattle.std.specs.Prelude.{◌≡◌, ◌<◌, ◌≤◌, ◌+◌, ◌-◌, ◌^◌, length, IfSome, IfOk, OnOk, IsErrOf};
ghost use Rattle.std.specs.Io.KnownBytes.{Appends};
ghost use Rattle.rsp_script_io.specs.Faults.{failed_reads, failed_writes};
ghost use Rattle.rsp_script_io.specs.EarlyEnd.{TakesAtMost, Takes, LeavesWritten};
ghost use Rattle.rsp_script_io.specs.Feeds.{script_limit};
ghost use Rattle.rsp_bench.specs.Run.{out_of, session_of, LacksMemory};
ghost use Rattle.rsp_bench.specs.Session.{line_answer, end_reply, first_session};

use crate::run::{BenchEnd, run_bench};
use rsp_memory::Rdram;
use rsp_script_io::{RunFault, ScriptRunner, Sink, Source};
use std::alloc::Global;

/// Answers whole scripts with [`run_bench`]. The program `rsp` passes it to its work.
#[derive(Drop)]
pub struct MachineRunner;

impl ScriptRunner for MachineRunner {
    ghost out_of = { out_of };

    ghost image_of = { λ script image. (session_of script image).debugging.state.rdram };

    fn run_script<R: Source, W: Sink>(
        &self,
        alloc: Global,
        image: Rdram,
        source: &mut R,
        sink: &mut W,
    ) -> Result<Rdram, RunFault>
        requires source { R.fault_count source.old < 2 ^ 64 - 1 }
        requires sink { W.fault_count sink.old < 2 ^ 64 - 1 }
        ensures fits { IfSome (R.rest source.old) (λ script. OnOk result (length script ≤ script_limit)) }
        ensures finished { IfSome (R.rest source.old) (λ script. IfOk result (λ rdram.
            Appends (W.written sink.old) (W.written sink.new) (out_of script image)
            × (rdram ≡ (session_of script image).debugging.state.rdram))) }
        ensures reads { R.fault_count source.new ≡ R.fault_count source.old + failed_reads result }
        ensures writes { W.fault_count sink.new ≡ W.fault_count sink.old + failed_writes result }
        ensures long { IfSome (R.rest source.old) (λ script. IsErrOf result RunFault.ScriptTooLong → script_limit < length script) }
        ensures past { IsErrOf result RunFault.ScriptTooLong → Takes (script_limit + 1) (R.rest source.old) (R.rest source.new) }
        ensures few { TakesAtMost (script_limit + 1) (R.rest source.old) (R.rest source.new) }
        ensures left { LeavesWritten result (record {
          answer_to = line_answer;
          end_reply = end_reply;
          session = first_session image;
          script = R.rest source.old;
          unread = R.rest source.new;
          before = W.written sink.old;
          written = W.written sink.new;
        }) }
        ensures memory { IsErrOf result RunFault.OutOfMemory → LacksMemory (record {
          answer_to = line_answer;
          end_reply = end_reply;
          session = first_session image;
          script = R.rest source.old;
          unread = R.rest source.new;
          before = W.written sink.old;
          written = W.written sink.new;
        }) }
    {
        match run_bench(alloc, image, source, sink) {
            BenchEnd::Finished(session) => Ok(session.into_rdram()),
            BenchEnd::ReadFault => Err(RunFault::ReadFault),
            BenchEnd::WriteFault => Err(RunFault::WriteFault),
            BenchEnd::ScriptTooLong => Err(RunFault::ScriptTooLong),
            BenchEnd::OutOfMemory => Err(RunFault::OutOfMemory),
        }
    }
}
