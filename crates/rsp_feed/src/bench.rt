ghost use Rattle.std.specs.Prelude.{◌≡◌, ◌+◌, ◌<◌, ◌≤◌, ◌↔◌, true, length, take, IfOk, IfErr, OnOk, OnErr, IsErrOf};
ghost use Rattle.rsp_script_io.specs.Feeds.{script_limit, taken_of};
ghost use Rattle.rsp_bench.specs.Session.{in_block, end_reply};
ghost use Rattle.rsp_feed.specs.Bench.{first_bench, reply_to, bench_after, last_session, last_line_reply, bench_ended, IsTooLong, LacksMemoryFor, LacksMemoryAtEnd, after_refusal};

use rsp_acc::PlaneAcc;
use rsp_bench::{Reply, Session};
use rsp_machine::Machine;
use rsp_memory::Rdram;
use rsp_script_io::{Feed, LineHandler};
use std::alloc::{AllocError, Global};
use std::marker::Model;

/// Why a bench refuses bytes, or the end of input.
#[derive(Clone, Copy, PartialEq, Eq)]
pub enum BenchFault {
    /// The end of input was met.
    Ended,
    /// Fault 42: the script has more than 1,048,576 bytes.
    ScriptTooLong,
    /// Fault 43: there was no memory for the session, or for an open block.
    OutOfMemory,
}

/// Whether a bench takes more of a script.
#[derive(Clone, Copy)]
pub enum Stage {
    /// It takes bytes, and the end of input.
    Open,
    /// The end of input was met.
    Ended,
    /// The script has more than 1,048,576 bytes.
    TooLong,
}

/// Answers a script that comes in pieces of any size. Contracts see it as the record `BenchState`.
#[derive(Drop)]
pub struct Bench {
    session: Session,
    feed: Feed,
    stage: Stage,
}

impl Model for Bench {
    ghost use Rattle.rsp_feed.specs.Bench.{BenchState};

    ghost Value = { BenchState };

    ghost view = { λ b. record { session = b.session; fed = b.feed; stage = b.stage } };
}

impl Bench {
    /// A bench whose machine has this image of the RDRAM, and all else as at the start. If there is no memory for its history of 256
    /// steps, the image is handed back.
    pub fn try_new(alloc: Global, image: Rdram) -> Result<Bench, (Rdram, AllocError)>
        ensures ok { IfOk result (λ bench. bench ≡ first_bench image) }
        ensures err { IfErr result (λ refused. refused.0 ≡ image) }
    {
        let session = Session::try_new(alloc, image)?;
        Ok(Bench {
            session,
            feed: Feed::new(),
            stage: Stage::Open,
        })
    }

    /// Takes the next bytes of the script up to the first LF and with it, or all of them, and overwrites the reply with that to the
    /// line that the LF ended. Returns how many bytes it took: none only if there were none.
    ///
    /// OutOfMemory changes nothing: the call may be made again. Only a line of an open block and its `end` may need memory. After
    /// ScriptTooLong the bench takes nothing more, and not the end of input either.
    #[tactic(auto, using(rsp_bench::proofs::Lacks::first_in_block))]
    pub fn take(
        &mut self,
        alloc: Global,
        bytes: &[u8],
        reply: &mut Reply,
    ) -> Result<usize, BenchFault>
        ensures some { IfOk result (λ n. n ≤ length bytes.now) }
        ensures goes_on { IfOk result (λ n. 0 < length bytes.now → 0 < n) }
        ensures limit { IfOk result (λ n. self.old.fed.count + n ≤ script_limit) }
        ensures taken { IfOk result (λ n. n ≡ taken_of bytes.now self.old.fed) }
        ensures reply { IfOk result (λ n. reply.new ≡ reply_to (take n bytes.now) self.old) }
        ensures next { IfOk result (λ n. self.new ≡ bench_after (take n bytes.now) self.old) }
        ensures ended { IsErrOf result BenchFault.Ended ↔ (self.old.stage ≡ Stage.Ended) }
        ensures long { IsErrOf result BenchFault.ScriptTooLong ↔ IsTooLong (length bytes.now) self.old }
        ensures memory { IsErrOf result BenchFault.OutOfMemory → in_block self.old.session ≡ true }
        ensures lacks { IsErrOf result BenchFault.OutOfMemory → LacksMemoryFor (take (taken_of bytes.now self.old.fed) bytes.now) self.old }
        ensures err { IfErr result (λ fault. self.new ≡ after_refusal fault self.old) }
    {
        match self.stage {
            Stage::Ended => return Err(BenchFault::Ended),
            Stage::TooLong => return Err(BenchFault::ScriptTooLong),
            Stage::Open => {}
        }
        let within = bytes.len().min(self.feed.room());
        if within == 0 && !bytes.is_empty() {
            self.stage = Stage::TooLong;
            return Err(BenchFault::ScriptTooLong);
        }
        match self
            .feed
            .take(alloc, &mut self.session, &bytes[..within], reply)
        {
            Ok(n) => Ok(n),
            Err(_) => Err(BenchFault::OutOfMemory),
        }
    }

    /// Meets the end of input: overwrites the first reply with that to the line that no LF ended, if it has any bytes, and the
    /// second one with the fault of a block that is still open. OutOfMemory as of [`Bench::take`].
    #[tactic(auto, using(rsp_bench::proofs::Lacks::first_in_block))]
    pub fn end(
        &mut self,
        alloc: Global,
        reply: &mut Reply,
        fault: &mut Reply,
    ) -> Result<(), BenchFault>
        ensures reply { OnOk result (reply.new ≡ last_line_reply self.old) }
        ensures fault { OnOk result (fault.new ≡ end_reply (last_session self.old)) }
        ensures next { OnOk result (self.new ≡ bench_ended self.old) }
        ensures ended { IsErrOf result BenchFault.Ended ↔ (self.old.stage ≡ Stage.Ended) }
        ensures long { IsErrOf result BenchFault.ScriptTooLong ↔ (self.old.stage ≡ Stage.TooLong) }
        ensures memory { IsErrOf result BenchFault.OutOfMemory → in_block self.old.session ≡ true }
        ensures lacks { IsErrOf result BenchFault.OutOfMemory → LacksMemoryAtEnd self.old }
        ensures err { OnErr result (self.new ≡ self.old) }
    {
        match self.stage {
            Stage::Ended => return Err(BenchFault::Ended),
            Stage::TooLong => return Err(BenchFault::ScriptTooLong),
            Stage::Open => {}
        }
        let Ok(()) = self.feed.end(alloc, &mut self.session, reply) else {
            return Err(BenchFault::OutOfMemory);
        };
        self.session.put_end_reply(fault);
        self.stage = Stage::Ended;
        Ok(())
    }

    /// The machine, with all that the lines so far did.
    pub fn machine(&self) -> &Machine<PlaneAcc>
        ensures { result.now ≡ self.now.session.debugging.state }
    {
        self.session.machine()
    }

    /// The session that the lines left. The rest of the bench is dropped.
    pub fn into_session(self) -> Session
        ensures { result ≡ self.session }
    {
        let Bench { session, .. } = self;
        session
    }
}
