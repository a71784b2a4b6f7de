//! Matrices times vectors.

ghost use Rattle.rsp_microcode.specs.Text.{Assembles};
ghost use Rattle.rsp_routines.specs.Transform.{text, TransformsVectors};

use rsp_multiply::laws::l4;

const WORDS: [u32; 20] = [
    0xc8212000, // lqv $v1[0], 0($1)
    0xc8222001, // lqv $v2[0], 16($1)
    0xc8232002, // lqv $v3[0], 32($1)
    0xc8242003, // lqv $v4[0], 48($1)
    0xc8252004, // lqv $v5[0], 64($1)
    0xc8262005, // lqv $v6[0], 80($1)
    0xc8272006, // lqv $v7[0], 96($1)
    0xc8282007, // lqv $v8[0], 112($1)
    0xc8492000, // lqv $v9[0], 0($2)
    0x4a892ac6, // vmudn $v11, $v5, $v9[0h]
    0x4a890a8f, // vmadh $v10, $v1, $v9[0h]
    0x4aa932ce, // vmadn $v11, $v6, $v9[1h]
    0x4aa9128f, // vmadh $v10, $v2, $v9[1h]
    0x4ac93ace, // vmadn $v11, $v7, $v9[2h]
    0x4ac91a8f, // vmadh $v10, $v3, $v9[2h]
    0x4ae942ce, // vmadn $v11, $v8, $v9[3h]
    0x4ae9228f, // vmadh $v10, $v4, $v9[3h]
    0x4a0002ce, // vmadn $v11, $v0, $v0
    0xe86a2000, // sqv $v10[0], 0($3)
    0xe86b2001, // sqv $v11[0], 16($3)
];

// The theorem without the text: other words break it too, and not the text alone.
fn theorem()
    ensures { TransformsVectors WORDS }
{
    l4();
}

/// The words of microcode that multiplies two vectors of four whole numbers by a matrix each, of four by four
/// numbers with sixteen bits of fraction: from DMEM at `$1` and `$2` to DMEM at `$3`. For all inputs each of
/// the eight results is the sum of its four products modulo 2^48, with its sign, clamped to 32 signed bits.
pub fn words() -> [u32; 20]
    ensures text { Assembles text result }
    ensures theorem { TransformsVectors result }
{
    theorem();
    WORDS
}
