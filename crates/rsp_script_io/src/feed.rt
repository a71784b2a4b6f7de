ghost use Rattle.std.specs.Prelude.{◌≡◌, ◌+◌, ◌-◌, ◌<◌, ◌≤◌, length, take, IfOk, OnOk, OnErr};
ghost use Rattle.rsp_script_io.specs.Lines.{through_newline, ended_after, open_after, kept, last_line};
ghost use Rattle.rsp_script_io.specs.Replies.{replies, final, OfFirst};
ghost use Rattle.rsp_script_io.specs.Feeds.{script_limit, no_bytes, bytes_after};

use crate::line::LineSoFar;
use crate::line_handler::LineHandler;
use crate::reply::Reply;
use rsp_syntax::len_before;
use std::alloc::{AllocError, Global};
use std::marker::Model;

/// The most bytes of a script: 1 MiB.
pub const SCRIPT_LIMIT: usize = 1_048_576;

/// Takes bytes up to the first LF and with it, or all of them. `line` is what the bytes before left of the first line, and then
/// what these leave. The reply is overwritten with that to the line that the LF ended. AllocError if there is no memory to answer
/// it: then neither the line nor the session changes.
fn take_line<S: LineHandler>(
    alloc: Global,
    session: &mut S,
    line: &mut LineSoFar,
    bytes: &[u8],
    reply: &mut Reply,
) -> Result<usize, AllocError>
    ensures some { IfOk result (λ n. n ≤ length bytes.now) }
    ensures goes_on { IfOk result (λ n. 0 < length bytes.now → 0 < n) }
    ensures taken { IfOk result (λ n. n ≡ through_newline bytes.now) }
    ensures reply { IfOk result (λ n. reply.new ≡ replies S.answer_to (ended_after line.old (take n bytes.now)) session.old) }
    ensures session { IfOk result (λ n. session.new ≡ final S.answer_to (ended_after line.old (take n bytes.now)) session.old) }
    ensures line { IfOk result (λ n. line.new ≡ kept (open_after line.old (take n bytes.now))) }
    ensures same { OnErr result (line.new ≡ line.old) }
    ensures same_session { OnErr result (session.new ≡ session.old) }
    ensures lacks { OnErr result (OfFirst S.lacks_memory (ended_after line.old (take (through_newline bytes.now) bytes.now)) session.old) }
{
    let end = len_before(b'\n', bytes);
    let before = line.len();
    line.push(&bytes[..end]);
    if end == bytes.len() {
        reply.clear();
        return Ok(end);
    }
    match session.answer(alloc, line.ended(), reply) {
        Ok(()) => {
            line.clear();
            Ok(end + 1)
        }
        Err(fault) => {
            line.truncate(before);
            Err(fault)
        }
    }
}

/// Answers the line that no LF ended, if it has any bytes, and overwrites the reply.
#[tactic(auto, using(crate::proofs::LongLineReplies::last_lines))]
fn answer_last<S: LineHandler>(
    alloc: Global,
    session: &mut S,
    line: &[u8],
    reply: &mut Reply,
) -> Result<(), AllocError>
    ensures reply { OnOk result (reply.new ≡ replies S.answer_to (last_line line.now) session.old) }
    ensures session { OnOk result (session.new ≡ final S.answer_to (last_line line.now) session.old) }
    ensures same { OnErr result (session.new ≡ session.old) }
    ensures lacks { OnErr result (OfFirst S.lacks_memory (last_line line.now) session.old) }
{
    if line.is_empty() {
        reply.clear();
        return Ok(());
    }
    session.answer(alloc, line, reply)
}

/// What is kept of a script that comes in pieces of any size.
#[derive(Drop)]
pub struct Feed {
    line: LineSoFar,
    count: usize,
}

impl Model for Feed {
    ghost use Rattle.std.specs.Prelude.{◌≤◌};
    ghost use Rattle.rsp_script_io.specs.Feeds.{FedBytes, script_limit};

    ghost Value = { FedBytes };

    ghost view = { λ f. record { line = f.line; count = f.count } };

    ghost invariant = { λ f. f.count ≤ script_limit };
}

impl Feed {
    /// No bytes so far.
    pub fn new() -> Feed
        ensures { result ≡ no_bytes }
    {
        Feed {
            line: LineSoFar::new(),
            count: 0,
        }
    }

    /// How many bytes it still takes.
    pub fn room(&self) -> usize
        ensures value { result ≡ script_limit - self.now.count }
        ensures limit { self.now.count ≤ script_limit }
    {
        SCRIPT_LIMIT - self.count
    }

    /// Takes the next bytes of a script, of which it must have room for all, up to the first LF and with it, or all of them, and
    /// overwrites the reply with that to the line that the LF ended. Returns how many bytes it took: none only if there were none.
    /// AllocError if there is no memory to answer the line: then nothing changes.
    pub fn take<S: LineHandler>(
        &mut self,
        alloc: Global,
        session: &mut S,
        bytes: &[u8],
        reply: &mut Reply,
    ) -> Result<usize, AllocError>
        requires { self.old.count + length bytes.now ≤ script_limit }
        ensures some { IfOk result (λ n. n ≤ length bytes.now) }
        ensures goes_on { IfOk result (λ n. 0 < length bytes.now → 0 < n) }
        ensures taken { IfOk result (λ n. n ≡ through_newline bytes.now) }
        ensures reply { IfOk result (λ n. reply.new ≡ replies S.answer_to (ended_after self.old.line (take n bytes.now)) session.old) }
        ensures session { IfOk result (λ n. session.new ≡ final S.answer_to (ended_after self.old.line (take n bytes.now)) session.old) }
        ensures fed { IfOk result (λ n. self.new ≡ bytes_after (take n bytes.now) self.old) }
        ensures same { OnErr result (self.new ≡ self.old) }
        ensures same_session { OnErr result (session.new ≡ session.old) }
        ensures lacks { OnErr result (OfFirst S.lacks_memory (ended_after self.old.line (take (through_newline bytes.now) bytes.now)) session.old) }
    {
        let n = take_line(alloc, session, &mut self.line, bytes, reply)?;
        self.count += n;
        Ok(n)
    }

    /// At the end of a script: overwrites the reply with that to the line that no LF ended, if it has any bytes. AllocError if there
    /// is no memory to answer it: then nothing changes.
    pub fn end<S: LineHandler>(
        &self,
        alloc: Global,
        session: &mut S,
        reply: &mut Reply,
    ) -> Result<(), AllocError>
        ensures reply { OnOk result (reply.new ≡ replies S.answer_to (last_line self.now.line) session.old) }
        ensures session { OnOk result (session.new ≡ final S.answer_to (last_line self.now.line) session.old) }
        ensures same { OnErr result (session.new ≡ session.old) }
        ensures lacks { OnErr result (OfFirst S.lacks_memory (last_line self.now.line) session.old) }
    {
        answer_last(alloc, session, self.line.last(), reply)
    }
}
