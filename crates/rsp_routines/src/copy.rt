//! Bytes copied in DMEM.

ghost use Rattle.rsp_microcode.specs.Text.{Assembles};
ghost use Rattle.rsp_routines.specs.Copy.{text, CopiesBytes};

use rsp_multiply::laws::l4;

const WORDS: [u32; 9] = [
    0x00642821, // addu $5, $3, $4
    0xc8be2000, // lqv $v30[0], 0($5)
    0xc8212000, // copy: lqv $v1[0], 0($1)
    0x2484fff0, // addiu $4, $4, -16
    0x24210010, // addiu $1, $1, 16
    0xe8612000, // sqv $v1[0], 0($3)
    0x1c80fffb, // bgtz $4, copy
    0x24630010, // addiu $3, $3, 16
    0xe8be2000, // sqv $v30[0], 0($5)
];

// The theorem without the text: other words break it too, and not the text alone.
fn theorem()
    ensures { CopiesBytes WORDS }
{
    l4();
}

/// The words of microcode that copies `$4` bytes in DMEM from `$1` to `$3`, both multiples of 16. The count is
/// below 4096, 0 too, both are inside DMEM, and the copy overwrites no byte that is still to be read. All else
/// in DMEM stays as it was.
pub fn words() -> [u32; 9]
    ensures text { Assembles text result }
    ensures theorem { CopiesBytes result }
{
    theorem();
    WORDS
}
