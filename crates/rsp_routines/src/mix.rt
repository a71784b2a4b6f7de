//! A sound mixed into another.

ghost use Rattle.rsp_microcode.specs.Text.{Assembles};
ghost use Rattle.rsp_routines.specs.Mix.{text, MixesSound};

use rsp_multiply::laws::l4;

const WORDS: [u32; 13] = [
    0x00642821, // addu $5, $3, $4
    0xc8be2000, // lqv $v30[0], 0($5)
    0xc8212000, // mix: lqv $v1[0], 0($1)
    0xc8422000, // lqv $v2[0], 0($2)
    0x2484fff0, // addiu $4, $4, -16
    0x24210010, // addiu $1, $1, 16
    0x4b030900, // vmulf $v4, $v1, $v3[0]
    0x4b23110f, // vmadh $v4, $v2, $v3[1]
    0x24420010, // addiu $2, $2, 16
    0xe8642000, // sqv $v4[0], 0($3)
    0x1c80fff7, // bgtz $4, mix
    0x24630010, // addiu $3, $3, 16
    0xe8be2000, // sqv $v30[0], 0($5)
];

// The theorem without the text: other words break it too, and not the text alone.
fn theorem()
    ensures { MixesSound WORDS }
{
    l4();
}

/// The words of microcode that mixes the sound of `$4` bytes at `$1`, times the fraction of 32768 in lane 0 of
/// `$v3`, with the one at `$2`, times the whole number in lane 1, into `$3`: rounded to the nearest, and
/// clamped to 16 bits. The count is below 4096, 0 too, all three are inside DMEM at multiples of 16, and the
/// mix overwrites no byte that is still to be read. All else in DMEM stays as it was.
pub fn words() -> [u32; 13]
    ensures text { Assembles text result }
    ensures theorem { MixesSound result }
{
    theorem();
    WORDS
}
