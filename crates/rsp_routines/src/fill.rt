//! Bytes of DMEM filled.

ghost use Rattle.rsp_microcode.specs.Text.{Assembles};
ghost use Rattle.rsp_routines.specs.Fill.{text, FillsBytes};

use rsp_multiply::laws::l4;

const WORDS: [u32; 7] = [
    0x00642821, // addu $5, $3, $4
    0xc8be2000, // lqv $v30[0], 0($5)
    0xe8612000, // fill: sqv $v1[0], 0($3)
    0x2484fff0, // addiu $4, $4, -16
    0x1c80fffd, // bgtz $4, fill
    0x24630010, // addiu $3, $3, 16
    0xe8be2000, // sqv $v30[0], 0($5)
];

// The theorem without the text: other words break it too, and not the text alone.
fn theorem()
    ensures { FillsBytes WORDS }
{
    l4();
}

/// The words of microcode that fills `$4` bytes of DMEM from `$3` on, a multiple of 16, with the sixteen bytes
/// of `$v1`, over and over. The count is below 4096, 0 too, and the bytes are inside DMEM. All else in DMEM
/// stays as it was.
pub fn words() -> [u32; 7]
    ensures text { Assembles text result }
    ensures theorem { FillsBytes result }
{
    theorem();
    WORDS
}
