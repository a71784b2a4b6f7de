ghost use Rattle.std.specs.Prelude.{◌≡◌, ◌<◌};
ghost use Rattle.rsp_decode.specs.Table.{IsInstruction};
ghost use Rattle.rsp_loadstore.specs.File.{vector, with_vector};
ghost use Rattle.rsp_loadstore.specs.Moves.{file_after_move, moved_value, register_half, with_register_half};

use crate::VFile;
use byteorder::{BigEndian, ByteOrder};
use rsp_decode::{Inst, MoveOp};
use rsp_lanes::{Bytes16, VReg};
use rsp_numbers::sign_extend;

/// What MFC2 reads: the sixteen bits at bytes `element` and `element + 1` modulo 16 of a vector register,
/// sign-extended. For another instruction it is 0.
#[tactic(auto, unfolding(crate::specs::Moves::moved_value))]
pub fn move_from(inst: &Inst, file: &VFile) -> u32
    requires { IsInstruction inst.now }
    ensures { result ≡ moved_value inst.now file.now }
{
    match *inst {
        Inst::MoveVector {
            op: MoveOp::From,
            vector,
            element,
            ..
        } => sign_extend(half(&file.reg(vector), element as usize)),
        _ => 0,
    }
}

/// The sixteen bits at bytes `e` and `e + 1` modulo 16 of a register: one lane from an even byte on, otherwise parts of two.
#[inline(always)]
fn half(v: &VReg, e: usize) -> u16
    requires { e < 16 }
    ensures { result ≡ register_half v.now e }
{
    let lane = v.lane(e / 2);
    if e % 2 == 0 {
        lane
    } else {
        lane % 256 * 256 + v.lane((e + 1) / 2 % 8) / 256
    }
}

/// Executes MTC2: byte `element` of a vector register takes bits 15 to 8 of `value`, and the next byte bits 7 to 0.
/// What would be byte 16 is dropped. Another instruction changes nothing.
#[tactic(auto, unfolding(crate::specs::Moves::file_after_move))]
pub fn move_to(inst: &Inst, value: u32, file: &mut VFile)
    requires { IsInstruction inst.now }
    ensures { file.new ≡ file_after_move inst.now value file.old }
{
    if let Inst::MoveVector {
        op: MoveOp::To,
        vector,
        element,
        ..
    } = *inst
    {
        set_half(vector, element, value, file);
    }
}

/// Writes the low sixteen bits of `value` to bytes `e` and `e + 1` of register `n`. What would be byte 16 is dropped.
#[inline(always)]
fn set_half(n: u8, e: u8, value: u32, file: &mut VFile)
    requires register { n < 32 }
    requires byte { e < 16 }
    ensures { file.new ≡ with_vector file.old n (with_register_half (vector file.old n) e value) }
{
    let v = file.reg(n);
    let mut half = [0; 16];
    BigEndian::write_u16(&mut half, (value % 65536) as u16);
    file.set_reg(n, v.with_bytes(Bytes16::from_array(half), e, 2));
}
