ghost use Rattle.std.specs.Prelude.{◌≡◌, ℕ, ◌+◌, ◌-◌, ◌<◌, ◌^◌, List, length, IfSome, IfOk, IsErrOf};
ghost use Rattle.std.specs.Io.KnownBytes.{Appends};
ghost use Rattle.rsp_script_io.specs.Faults.{failed_reads, failed_writes};
ghost use Rattle.rsp_script_io.specs.EarlyEnd.{TakesAtMost, Takes};
ghost use Rattle.rsp_script_io.specs.Feeds.{script_limit};

use crate::run::RunFault;
use crate::sink::Sink;
use crate::source::Source;
use rsp_memory::Rdram;
use std::alloc::Global;

/// What answers whole scripts. `rsp_bench` implements it, so that the program's work, which is generic over it, is proved without
/// the machine, and tests may give it another.
pub trait ScriptRunner {
    /// What is written for a script over an image.
    ghost out_of: { List ℕ → List ℕ → List ℕ };

    /// The image that a script leaves of one.
    ghost image_of: { List ℕ → List ℕ → List ℕ };

    /// Answers a script over this image of the RDRAM, and returns the image that it leaves. The first read or write that fails ends
    /// the run. OutOfMemory also if there is no memory for what answers the lines.
    fn run_script<R: Source, W: Sink>(
        &self,
        alloc: Global,
        image: Rdram,
        source: &mut R,
        sink: &mut W,
    ) -> Result<Rdram, RunFault>
        requires source { R.fault_count source.old < 2 ^ 64 - 1 }
        requires sink { W.fault_count sink.old < 2 ^ 64 - 1 }
        ensures finished { IfSome (R.rest source.old) (λ script. IfOk result (λ rdram.
            Appends (W.written sink.old) (W.written sink.new) (out_of script image)
            × (rdram ≡ image_of script image))) }
        ensures reads { R.fault_count source.new ≡ R.fault_count source.old + failed_reads result }
        ensures writes { W.fault_count sink.new ≡ W.fault_count sink.old + failed_writes result }
        ensures long { IfSome (R.rest source.old) (λ script. IsErrOf result RunFault.ScriptTooLong → script_limit < length script) }
        ensures past { IsErrOf result RunFault.ScriptTooLong → Takes (script_limit + 1) (R.rest source.old) (R.rest source.new) }
        ensures few { TakesAtMost (script_limit + 1) (R.rest source.old) (R.rest source.new) };
}
