//! Buffers added in a loop.

ghost use Rattle.rsp_routines.specs.AddBuffers.{text, AddsAllBuffers};
ghost use Rattle.rsp_microcode.specs.Text.{Assembles};

use rsp_multiply::laws::l4;

const WORDS: [u32; 9] = [
    0xc8212000, // loop: lqv $v1[0], 0($1)
    0xc8422000, // lqv $v2[0], 0($2)
    0x4a0208d0, // vadd $v3, $v1, $v2
    0xe8632000, // sqv $v3[0], 0($3)
    0x24210010, // addiu $1, $1, 16
    0x24420010, // addiu $2, $2, 16
    0x2484ffff, // addiu $4, $4, -1
    0x1480fff8, // bne $4, $0, loop
    0x24630010, // addiu $3, $3, 16
];

// The theorem without the text: other words break it too, and not the text alone.
fn theorem()
    ensures { AddsAllBuffers WORDS }
{
    l4();
}

/// The words of microcode that adds `$4` vectors of eight lanes at `$1` to those at `$2`, and stores the sums
/// at `$3`: as signed numbers, clamped to -32768 .. 32767. The count isn't 0, all buffers are inside DMEM,
/// and the sums overwrite no vector that is still to be added. All else in DMEM stays as it was.
pub fn words() -> [u32; 9]
    ensures text { Assembles text result }
    ensures theorem { AddsAllBuffers result }
{
    theorem();
    WORDS
}
