ghost use Rattle.std.specs.Prelude.{◌≡◌, ℕ, List, OnOk, OnErr};
ghost use Rattle.rsp_script_io.specs.Replies.{Answer, LongLinesAlike, LongLinesLackAlike};

use crate::reply::Reply;
use std::alloc::{AllocError, Global};

/// What answers the lines of a script, one after another.
pub trait LineHandler {
    /// The reply to a line, and what answers the next line.
    ghost answer_to: { List ℕ → Self → Answer Self };

    /// What is written at the end of a script, after the replies to all its lines: a fault if something is still open,
    /// else nothing.
    ghost end_reply: { Self → List ℕ };

    /// What is known of a line and of what answers it, if there was no memory for the answer.
    ghost lacks_memory: { List ℕ → Self → Type 0 };

    /// Answers a line, which comes without its LF and without the one CR before that. It may be any line; of one with more
    /// than 258 bytes only the first 258 come. The answer overwrites the reply: one reply serves for all lines, since it is too
    /// large to be moved for each. AllocError if there is no memory for the answer: then it stays as it was.
    fn answer(&mut self, alloc: Global, line: &[u8], reply: &mut Reply) -> Result<(), AllocError>
        ensures reply { OnOk result (reply.new ≡ (answer_to line.now self.old).reply) }
        ensures next { OnOk result (self.new ≡ (answer_to line.now self.old).next) }
        ensures same { OnErr result (self.new ≡ self.old) }
        ensures lacks { OnErr result (lacks_memory line.now self.old) };

    /// Overwrites the reply with what is written at the end of a script.
    fn put_end_reply(&self, reply: &mut Reply)
        ensures { reply.new ≡ end_reply self.now };

    /// Lines of more than 256 bytes are answered alike, whatever they say. So a run need not keep them whole.
    ghost alike: { LongLinesAlike answer_to };

    /// The same of those for which there was no memory.
    ghost lack_alike: { LongLinesLackAlike lacks_memory };
}
