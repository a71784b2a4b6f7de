// The vector unit's instructions: the moves of opcode 18 by rs, its computing instructions by their function, the loads of opcode 50
// and the stores of opcode 58 by their operation.

ghost use Rattle.std.specs.Prelude.{true, false, ◌≡◌, ◌↔◌, ◌*◌, ◌+◌, ◌^◌, ◌<◌, ◌≤◌, IsTrue};
ghost use Rattle.rsp_decode.specs.declared.inst.Inst.{Inst};
ghost use Rattle.rsp_decode.specs.Visit.{is_instruction, after_visit};
ghost use Rattle.rsp_decode.specs.Table.{IsInstruction, value_at, whole, pick, pick_by_operation, meaning_of, vector_memory_in, cop2_rows, computing_rows, lwc2_rows, swc2_rows, move_vector_row, move_control_row, multiply_row, round_row, mpeg_row, read_accumulator_row, vector_add_row, vector_select_row, vector_clip_row, vector_merge_row, vector_logic_row, divide_row, idle_row};

use crate::bit_fields::{
    begins_half, bits, control, function, vector_fields, vector_memory_fields,
};
use crate::inst::Inst;
use crate::rows::{arms, instruction_table};
use crate::scalar::MoveOp;
use crate::vector::{
    VectorAddOp, VectorClipOp, VectorDivideOp, VectorLoadOp, VectorLogicOp, VectorMpegOp,
    VectorMultiplyOp, VectorNopOp, VectorRoundOp, VectorSelectOp, VectorStoreOp,
};
use crate::visitor::Visitor;

/// `mfc2` and `mtc2`: hands the visitor the operation, rt, the vector register and the byte element.
#[inline]
fn move_vector<V: Visitor>(word: u32, op: MoveOp, visitor: &mut V)
    ensures { visitor.new ≡ V.after (meaning_of (move_vector_row op) word) visitor.old }
{
    visitor.take(Inst::MoveVector {
        op,
        rt: bits(word, 16, 5),
        vector: bits(word, 11, 5),
        element: bits(word, 7, 4),
    });
}

/// `cfc2` and `ctc2`: hands the visitor the operation, rt and the control register.
#[inline]
fn move_control<V: Visitor>(word: u32, op: MoveOp, visitor: &mut V)
    ensures { visitor.new ≡ V.after (meaning_of (move_control_row op) word) visitor.old }
{
    visitor.take(Inst::MoveControl {
        op,
        rt: bits(word, 16, 5),
        control: control(word),
    });
}

/// Opcode 18 without bit 25: hands the visitor the move that rs selects, and returns true. If rs is reserved it returns false,
/// and the visitor is unchanged.
#[inline(always)]
pub fn visit_cop2<V: Visitor>(word: u32, visitor: &mut V) -> bool
    ensures known { result ≡ is_instruction (pick cop2_rows (18 * 2 ^ 26 + value_at word (whole 21 5) * 2 ^ 21) word) }
    ensures state { visitor.new ≡ after_visit V.after (pick cop2_rows (18 * 2 ^ 26 + value_at word (whole 21 5) * 2 ^ 21) word) visitor.old }
{
    instruction_table!(arms(cop2(bits(word, 21, 5), word, visitor)))
}

/// The multiplies: hands the visitor the operation, vd, vs, vt and the element.
#[inline]
fn multiply<V: Visitor>(word: u32, op: VectorMultiplyOp, visitor: &mut V)
    ensures { visitor.new ≡ V.after (meaning_of (multiply_row op) word) visitor.old }
{
    let fields = vector_fields(word);
    visitor.take(Inst::Multiply { op, fields });
}

/// `vrndp` and `vrndn`: hands the visitor the operation, vd, vs, vt and the element.
#[inline]
fn round<V: Visitor>(word: u32, op: VectorRoundOp, visitor: &mut V)
    ensures { visitor.new ≡ V.after (meaning_of (round_row op) word) visitor.old }
{
    let fields = vector_fields(word);
    visitor.take(Inst::Round { op, fields });
}

/// `vmulq` and `vmacq`: hands the visitor the operation, vd, vs, vt and the element.
#[inline]
fn mpeg_multiply<V: Visitor>(word: u32, op: VectorMpegOp, visitor: &mut V)
    ensures { visitor.new ≡ V.after (meaning_of (mpeg_row op) word) visitor.old }
{
    let fields = vector_fields(word);
    visitor.take(Inst::MpegMultiply { op, fields });
}

/// `vsar`: hands the visitor vd, vs, vt and the element.
#[inline]
fn read_accumulator<V: Visitor>(word: u32, visitor: &mut V)
    ensures { visitor.new ≡ V.after (meaning_of read_accumulator_row word) visitor.old }
{
    let fields = vector_fields(word);
    visitor.take(Inst::ReadAccumulator { fields });
}

/// The sums, the differences and `vabs`: hands the visitor the operation, vd, vs, vt and the element.
#[inline]
fn vector_add<V: Visitor>(word: u32, op: VectorAddOp, visitor: &mut V)
    ensures { visitor.new ≡ V.after (meaning_of (vector_add_row op) word) visitor.old }
{
    let fields = vector_fields(word);
    visitor.take(Inst::VectorAdd { op, fields });
}

/// The comparisons: hands the visitor the operation, vd, vs, vt and the element.
#[inline]
fn vector_select<V: Visitor>(word: u32, op: VectorSelectOp, visitor: &mut V)
    ensures { visitor.new ≡ V.after (meaning_of (vector_select_row op) word) visitor.old }
{
    let fields = vector_fields(word);
    visitor.take(Inst::VectorSelect { op, fields });
}

/// The clips: hands the visitor the operation, vd, vs, vt and the element.
#[inline]
fn vector_clip<V: Visitor>(word: u32, op: VectorClipOp, visitor: &mut V)
    ensures { visitor.new ≡ V.after (meaning_of (vector_clip_row op) word) visitor.old }
{
    let fields = vector_fields(word);
    visitor.take(Inst::VectorClip { op, fields });
}

/// `vmrg`: hands the visitor vd, vs, vt and the element.
#[inline]
fn vector_merge<V: Visitor>(word: u32, visitor: &mut V)
    ensures { visitor.new ≡ V.after (meaning_of vector_merge_row word) visitor.old }
{
    let fields = vector_fields(word);
    visitor.take(Inst::VectorMerge { fields });
}

/// The logic instructions: hands the visitor the operation, vd, vs, vt and the element.
#[inline]
fn vector_logic<V: Visitor>(word: u32, op: VectorLogicOp, visitor: &mut V)
    ensures { visitor.new ≡ V.after (meaning_of (vector_logic_row op) word) visitor.old }
{
    let fields = vector_fields(word);
    visitor.take(Inst::VectorLogic { op, fields });
}

/// The divides and `vmov`: hands the visitor the operation, vd, the lane, vt and the element.
#[inline]
fn divide<V: Visitor>(word: u32, op: VectorDivideOp, visitor: &mut V)
    ensures { visitor.new ≡ V.after (meaning_of (divide_row op) word) visitor.old }
{
    visitor.take(Inst::Divide {
        op,
        vd: bits(word, 6, 5),
        lane: bits(word, 11, 3),
        vt: bits(word, 16, 5),
        element: bits(word, 21, 4),
    });
}

/// `vnop` and `vnull`, whose fields are ignored: hands the visitor the operation.
#[inline]
fn idle<V: Visitor>(word: u32, op: VectorNopOp, visitor: &mut V)
    ensures { visitor.new ≡ V.after (meaning_of (idle_row op) word) visitor.old }
{
    visitor.take(Inst::Idle { op });
}

/// The functions below 16, the multiplies and the roundings, of which none is reserved. Returns whether the function is one of
/// these; for another one the visitor is unchanged.
#[inline]
fn visit_products<V: Visitor>(word: u32, visitor: &mut V) -> bool
    ensures which { IsTrue result ↔ (value_at word (whole 0 6) < 16) }
    ensures known { IsTrue result → is_instruction (pick computing_rows (18 * 2 ^ 26 + 2 ^ 25 + value_at word (whole 0 6)) word) ≡ true }
    ensures state { IsTrue result → visitor.new ≡ after_visit V.after (pick computing_rows (18 * 2 ^ 26 + 2 ^ 25 + value_at word (whole 0 6)) word) visitor.old }
    ensures others { result ≡ false → visitor.new ≡ visitor.old }
{
    instruction_table!(arms(products(function(word), word, visitor)))
}

/// The functions from 16 on.
#[inline]
fn visit_others<V: Visitor>(word: u32, visitor: &mut V) -> bool
    requires { 16 ≤ value_at word (whole 0 6) }
    ensures known { result ≡ is_instruction (pick computing_rows (18 * 2 ^ 26 + 2 ^ 25 + value_at word (whole 0 6)) word) }
    ensures state { visitor.new ≡ after_visit V.after (pick computing_rows (18 * 2 ^ 26 + 2 ^ 25 + value_at word (whole 0 6)) word) visitor.old }
{
    instruction_table!(arms(others(function(word), word, visitor)))
}

/// The computing instructions. Two functions share them: each is small enough to be inlined into the loop over steps. Inlined,
/// their two matches become one jump.
#[inline(always)]
pub fn visit_computing<V: Visitor>(word: u32, visitor: &mut V) -> bool
    ensures known { result ≡ is_instruction (pick computing_rows (18 * 2 ^ 26 + 2 ^ 25 + value_at word (whole 0 6)) word) }
    ensures state { visitor.new ≡ after_visit V.after (pick computing_rows (18 * 2 ^ 26 + 2 ^ 25 + value_at word (whole 0 6)) word) visitor.old }
{
    visit_products(word, visitor) || visit_others(word, visitor)
}

/// The vector loads: hands the visitor the operation, vt, the element, the offset and the base.
#[inline]
fn vector_load<V: Visitor>(word: u32, op: VectorLoadOp, visitor: &mut V)
    requires { IsInstruction (Inst.VectorLoad op (vector_memory_in word)) }
    ensures { visitor.new ≡ V.after (Inst.VectorLoad op (vector_memory_in word)) visitor.old }
{
    let fields = vector_memory_fields(word);
    visitor.take(Inst::VectorLoad { op, fields });
}

/// Opcode 50: hands the visitor the load that the operation selects, and returns true. If the word is reserved it returns false,
/// and the visitor is unchanged.
#[inline(always)]
pub fn visit_lwc2<V: Visitor>(word: u32, visitor: &mut V) -> bool
    ensures known { result ≡ is_instruction (pick_by_operation lwc2_rows 50 word) }
    ensures state { visitor.new ≡ after_visit V.after (pick_by_operation lwc2_rows 50 word) visitor.old }
{
    instruction_table!(arms(lwc2(bits(word, 11, 5), word, visitor)))
}

/// The vector stores: hands the visitor the operation, vt, the element, the offset and the base.
#[inline]
fn vector_store<V: Visitor>(word: u32, op: VectorStoreOp, visitor: &mut V)
    requires { IsInstruction (Inst.VectorStore op (vector_memory_in word)) }
    ensures { visitor.new ≡ V.after (Inst.VectorStore op (vector_memory_in word)) visitor.old }
{
    let fields = vector_memory_fields(word);
    visitor.take(Inst::VectorStore { op, fields });
}

/// Opcode 58: hands the visitor the store that the operation selects, and returns true. If the word is reserved it returns false,
/// and the visitor is unchanged.
#[inline(always)]
pub fn visit_swc2<V: Visitor>(word: u32, visitor: &mut V) -> bool
    ensures known { result ≡ is_instruction (pick_by_operation swc2_rows 58 word) }
    ensures state { visitor.new ≡ after_visit V.after (pick_by_operation swc2_rows 58 word) visitor.old }
{
    instruction_table!(arms(swc2(bits(word, 11, 5), word, visitor)))
}
