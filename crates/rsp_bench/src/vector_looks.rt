ghost use Rattle.std.specs.Prelude.{◌≡◌, ℕ, ◌+◌, ◌*◌, ◌<◌, ◌≤◌, [], ◌++◌, List, length, slice_index};
ghost use Rattle.rsp_loadstore.specs.File.{vector};
ghost use Rattle.rsp_script_io.specs.Text.{each_text};
ghost use Rattle.rsp_bench.specs.Looks.{half_text, vector_line, vectors_text, accumulator_line, accumulators_text, flags_text};

use rsp_acc::Acc;
use rsp_debug::Debugger;
use rsp_divide::Divider;
use rsp_lanes::{Flags, VReg};
use rsp_script_io::{REPLY_LIMIT, Reply};
use rsp_syntax::hex_digit;

/// A blank and four digits, appended at once: `vregs` has 256 of them.
#[tactic(auto, unfolding(crate::specs::Looks::half_text, rsp_script_io::specs::Text::hex_text))]
fn push_half(reply: &mut Reply, half: u16)
    requires { length reply.old + 5 ≤ REPLY_LIMIT }
    ensures text { reply.new ≡ reply.old ++ half_text half }
    ensures len { length reply.new ≡ length reply.old + 5 }
{
    let n = u32::from(half);
    reply.push_text(&[
        b' ',
        hex_digit(n / 16 / 16 / 16 % 16),
        hex_digit(n / 16 / 16 % 16),
        hex_digit(n / 16 % 16),
        hex_digit(n % 16),
    ]);
}

#[tactic(auto, using(rsp_script_io::proofs::Texts::parts))]
fn push_lanes(reply: &mut Reply, register: &VReg)
    requires { length reply.old + 40 ≤ REPLY_LIMIT }
    ensures text { reply.new ≡ reply.old ++ each_text (λ i. half_text (slice_index register.now i)) 8 }
    ensures len { length reply.new ≡ length reply.old + 40 }
{
    for i in 0..8 {
        push_half(reply, register.lane(i));
    }
}

#[tactic(auto, using(rsp_script_io::proofs::Texts::parts), unfolding(crate::specs::Looks::vector_line))]
fn push_vector_line(reply: &mut Reply, n: u8, register: &VReg)
    requires register { n < 32 }
    requires room { length reply.old + 44 ≤ REPLY_LIMIT }
    ensures text { reply.new ≡ reply.old ++ vector_line n register.now }
    ensures len { length reply.new ≡ length reply.old + 44 }
{
    reply.push_text(b"v");
    reply.push_two_digits(n);
    push_lanes(reply, register);
    reply.push_text(b"\n");
}

/// `vregs`: the 32 vector registers.
#[tactic(auto, using(rsp_script_io::proofs::Texts::parts), unfolding(crate::specs::Looks::vectors_text))]
pub(crate) fn put_vector_registers<A: Acc>(reply: &mut Reply, debugger: &Debugger<A>)
    requires { reply.old ≡ [] }
    ensures { reply.new ≡ vectors_text debugger.now.state.vectors }
{
    for n in 0..32 {
        push_vector_line(reply, n, &debugger.vreg(n));
    }
}

/// One accumulator, by its three parts of 16 bits.
#[tactic(auto, using(rsp_script_io::proofs::Texts::parts), unfolding(crate::specs::Looks::accumulator_line))]
fn push_accumulator_line(reply: &mut Reply, i: u8, high: u16, middle: u16, low: u16)
    requires lane { i < 8 }
    requires room { length reply.old + 17 ≤ REPLY_LIMIT }
    ensures text { reply.new ≡ reply.old ++ accumulator_line i high middle low }
    ensures len { length reply.new ≤ length reply.old + 17 }
{
    reply.push_text(b"a");
    reply.push_decimal(i);
    reply.push_text(b" ");
    reply.push_hex(u32::from(high), 4);
    reply.push_hex(u32::from(middle), 4);
    reply.push_hex(u32::from(low), 4);
    reply.push_text(b"\n");
}

/// Eight accumulators, by their three parts of 16 bits.
#[tactic(auto, using(rsp_script_io::proofs::Texts::parts))]
fn push_accumulator_lines(reply: &mut Reply, high: &VReg, middle: &VReg, low: &VReg)
    requires { length reply.old + 136 ≤ REPLY_LIMIT }
    ensures { reply.new ≡ reply.old ++ each_text (λ i. accumulator_line i (slice_index high.now i) (slice_index middle.now i) (slice_index low.now i)) 8 }
{
    for i in 0..8 {
        let lane = usize::from(i);
        push_accumulator_line(reply, i, high.lane(lane), middle.lane(lane), low.lane(lane));
    }
}

/// `acc`: the eight accumulators.
#[tactic(auto, using(rsp_script_io::proofs::Texts::parts))]
pub(crate) fn put_accumulators<A: Acc>(reply: &mut Reply, debugger: &Debugger<A>)
    requires { reply.old ≡ [] }
    ensures { reply.new ≡ accumulators_text debugger.now.state.accumulators }
{
    let (high, middle, low) = debugger.acc();
    push_accumulator_lines(reply, &high, &middle, &low);
}

/// `flags`: the control registers, and the divider.
#[tactic(auto, using(rsp_script_io::proofs::Texts::parts), unfolding(crate::specs::Looks::flags_text))]
pub(crate) fn put_flags(reply: &mut Reply, flags: &Flags, divider: &Divider)
    requires { reply.old ≡ [] }
    ensures { reply.new ≡ flags_text flags.now divider.now }
{
    reply.push_text(b"vco ");
    reply.push_hex(u32::from(flags.vco()), 4);
    reply.push_text(b" vcc ");
    reply.push_hex(u32::from(flags.vcc()), 4);
    reply.push_text(b" vce ");
    reply.push_hex(u32::from(flags.extra.bits()), 2);
    reply.push_text(b" in ");
    reply.push_hex(u32::from(divider.input), 4);
    reply.push_text(b" out ");
    reply.push_hex(u32::from(divider.output), 4);
    reply.push_text(b" loaded ");
    reply.push_text(if divider.loaded { b"1\n" } else { b"0\n" });
}
