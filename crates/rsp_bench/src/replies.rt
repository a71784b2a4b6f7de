ghost use Rattle.std.specs.Prelude.{◌≡◌, ◌+◌, ◌≤◌, [], ◌++◌, length, decimal};
ghost use Rattle.rsp_bench.specs.Replies.{ok_text, fault_line, step_text, reason_text, stop_text, watch_text, words_text, asm_fault_text};

use crate::faults::NamedFault;
use itoa::Buffer;
use rsp_asm::AsmFault;
use rsp_debug::{Reason, Stop};
use rsp_machine::StepEnd;
use rsp_script_io::{REPLY_LIMIT, Reply};

/// The reply that refuses a command: the number and the name of the fault.
#[tactic(auto, using(rsp_script_io::proofs::Texts::parts))]
pub(crate) fn put_fault<F: NamedFault>(reply: &mut Reply, fault: F)
    requires { reply.old ≡ [] }
    ensures { reply.new ≡ fault_line (F.text fault) }
{
    reply.push_text(b"fault ");
    reply.push_text(fault.name().as_bytes());
    reply.push_text(b"\n");
}

/// The reply to a command that shows nothing.
pub(crate) fn put_ok(reply: &mut Reply)
    requires { reply.old ≡ [] }
    ensures { reply.new ≡ ok_text }
{
    reply.push_text(b"ok\n");
}

/// How a step ended, and pc after it.
pub(crate) fn put_step(reply: &mut Reply, end: StepEnd, pc: u16)
    requires { reply.old ≡ [] }
    ensures { reply.new ≡ step_text end pc }
{
    reply.push_text(b"step ");
    match end {
        StepEnd::Done => reply.push_text(b"Done"),
        StepEnd::Halted => reply.push_text(b"Halted"),
        StepEnd::Reserved { word } => {
            reply.push_text(b"Reserved ");
            reply.push_hex(word, 8);
        }
    }
    reply.push_text(b" pc ");
    reply.push_hex(u32::from(pc), 3);
    reply.push_text(b"\n");
}

/// Appends a number in decimal.
fn push_number(reply: &mut Reply, n: usize)
    requires { length reply.old + 40 ≤ REPLY_LIMIT }
    ensures text { reply.new ≡ reply.old ++ decimal n }
    ensures len { length reply.new ≤ length reply.old + 40 }
{
    let mut buffer = Buffer::new();
    reply.push_text(buffer.format(n).as_bytes());
}

#[tactic(auto, using(rsp_script_io::proofs::Texts::parts))]
fn push_reason(reply: &mut Reply, reason: Reason)
    requires { length reply.old + 46 ≤ REPLY_LIMIT }
    ensures text { reply.new ≡ reply.old ++ reason_text reason }
    ensures len { length reply.new ≤ length reply.old + 46 }
{
    match reason {
        Reason::Reserved => reply.push_text(b"Reserved"),
        Reason::Halted => reply.push_text(b"Halted"),
        Reason::Watched(k) => {
            reply.push_text(b"Watch ");
            push_number(reply, k);
        }
        Reason::Break => reply.push_text(b"Break"),
        Reason::Limit => reply.push_text(b"Limit"),
    }
}

/// Why a run stopped, how many steps it made, and pc after it.
#[tactic(auto, using(rsp_script_io::proofs::Texts::parts))]
pub(crate) fn put_stop(reply: &mut Reply, stop: Stop)
    requires { reply.old ≡ [] }
    ensures { reply.new ≡ stop_text stop }
{
    reply.push_text(b"stop ");
    push_reason(reply, stop.reason);
    reply.push_text(b" steps ");
    push_number(reply, stop.steps as usize);
    reply.push_text(b" pc ");
    reply.push_hex(u32::from(stop.pc), 3);
    reply.push_text(b"\n");
}

/// The number of a new watch.
#[tactic(auto, using(rsp_script_io::proofs::Texts::parts))]
pub(crate) fn put_watch(reply: &mut Reply, number: usize)
    requires { reply.old ≡ [] }
    ensures { reply.new ≡ watch_text number }
{
    reply.push_text(b"ok watch ");
    push_number(reply, number);
    reply.push_text(b"\n");
}

/// How many words a block has.
#[tactic(auto, using(rsp_script_io::proofs::Texts::parts))]
pub(crate) fn put_words(reply: &mut Reply, count: usize)
    requires { reply.old ≡ [] }
    ensures { reply.new ≡ words_text count }
{
    reply.push_text(b"ok ");
    push_number(reply, count);
    reply.push_text(b" words\n");
}

/// Why a block has no words, and the number of the line in the block.
#[tactic(auto, using(rsp_script_io::proofs::Texts::parts))]
pub(crate) fn put_asm_fault(reply: &mut Reply, fault: AsmFault)
    requires { reply.old ≡ [] }
    ensures { reply.new ≡ asm_fault_text fault }
{
    reply.push_text(b"fault ");
    reply.push_text(fault.kind.as_str().as_bytes());
    reply.push_text(b" line ");
    push_number(reply, fault.line);
    reply.push_text(b"\n");
}
