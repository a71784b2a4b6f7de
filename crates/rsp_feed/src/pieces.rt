ghost use Rattle.std.specs.Prelude.{◌≡◌, ◌<◌, ◌≤◌, ◌++◌, length, IfOk, IfErr, OnOk, IsErrOf};
ghost use Rattle.rsp_script_io.specs.Feeds.{script_limit};
ghost use Rattle.rsp_bench.specs.Run.{out_of, session_of};

use crate::bench::{Bench, BenchFault};
use rsp_bench::{Reply, Session};
use rsp_memory::Rdram;
use std::alloc::Global;

/// Appends a text. OutOfMemory if there is no memory for it.
fn append(replies: &mut Vec<u8>, text: &[u8]) -> Result<(), BenchFault>
    ensures ok { OnOk result (replies.new.items ≡ replies.old.items ++ text.now) }
    ensures err { IfErr result (λ fault. fault ≡ BenchFault.OutOfMemory) }
{
    match replies.extend_from_slice(text) {
        Ok(()) => Ok(()),
        Err(_) => Err(BenchFault::OutOfMemory),
    }
}

/// Answers a script on a machine that begins with this image of the RDRAM, by calls of [`Bench::take`] that are given at most `size`
/// bytes each. Returns the replies, one after the other, and the session that the script leaves.
pub fn run_pieces(
    alloc: Global,
    image: Rdram,
    script: &[u8],
    size: usize,
) -> Result<(Vec<u8>, Session), BenchFault>
    requires { 0 < size }
    ensures replies { IfOk result (λ run. run.0.items ≡ out_of script.now image) }
    ensures session { IfOk result (λ run. run.1 ≡ session_of script.now image) }
    ensures fits { OnOk result (length script.now ≤ script_limit) }
    ensures long { IsErrOf result BenchFault.ScriptTooLong → script_limit < length script.now }
    ensures cause { IsErrOf result BenchFault.Ended → ⊥ }
{
    let Ok(mut bench) = Bench::try_new(alloc, image) else {
        return Err(BenchFault::OutOfMemory);
    };
    let mut replies = Vec::new(alloc);
    let mut reply = Reply::new();
    let mut rest = script;
    while !rest.is_empty() {
        let most = size.min(rest.len());
        let n = bench.take(alloc, &rest[..most], &mut reply)?;
        append(&mut replies, reply.bytes())?;
        rest = &rest[n..];
    }
    let mut fault = Reply::new();
    bench.end(alloc, &mut reply, &mut fault)?;
    append(&mut replies, reply.bytes())?;
    append(&mut replies, fault.bytes())?;
    Ok((replies, bench.into_session()))
}
