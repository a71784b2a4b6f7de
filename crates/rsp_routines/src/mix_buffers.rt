//! Two buffers mixed in a loop.

ghost use Rattle.rsp_routines.specs.MixBuffers.{text, MixesAll};
ghost use Rattle.rsp_microcode.specs.Text.{Assembles};

use rsp_multiply::laws::l4;

const WORDS: [u32; 10] = [
    0xc8212000, // mix: lqv $v1[0], 0($1)
    0xc8422000, // lqv $v2[0], 0($2)
    0x4b030900, // vmulf $v4, $v1, $v3[0]
    0x4b231108, // vmacf $v4, $v2, $v3[1]
    0xe8642000, // sqv $v4[0], 0($3)
    0x2484fff8, // addiu $4, $4, -8
    0x24210010, // addiu $1, $1, 16
    0x24420010, // addiu $2, $2, 16
    0x1c80fff7, // bgtz $4, mix
    0x24630010, // addiu $3, $3, 16
];

// The theorem without the text: other words break it too, and not the text alone.
fn theorem()
    ensures { MixesAll WORDS }
{
    l4();
}

/// The words of microcode that mixes `$4` samples at `$1` and `$2` by the volumes in lanes 0 and 1 of `$v3`,
/// and stores them at `$3`. The count is a positive multiple of eight, all buffers are inside DMEM, and the
/// mix overwrites no vector that is still to be mixed. All else in DMEM stays as it was.
pub fn words() -> [u32; 10]
    ensures text { Assembles text result }
    ensures theorem { MixesAll result }
{
    theorem();
    WORDS
}
