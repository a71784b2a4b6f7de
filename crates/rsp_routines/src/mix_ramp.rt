//! A sound mixed into another, at volumes that grow.

ghost use Rattle.rsp_microcode.specs.Text.{Assembles};
ghost use Rattle.rsp_routines.specs.MixRamp.{text, MixesRamps};

use rsp_multiply::laws::l4;

const WORDS: [u32; 15] = [
    0x00642821, // addu $5, $3, $4
    0xc8be2000, // lqv $v30[0], 0($5)
    0xc8212000, // ramp: lqv $v1[0], 0($1)
    0xc8422000, // lqv $v2[0], 0($2)
    0x2484fff0, // addiu $4, $4, -16
    0x24210010, // addiu $1, $1, 16
    0x4a0309c0, // vmulf $v7, $v1, $v3
    0x4b0811cf, // vmadh $v7, $v2, $v8[0]
    0x4a062114, // vaddc $v4, $v4, $v6
    0x4a0518d0, // vadd $v3, $v3, $v5
    0x24420010, // addiu $2, $2, 16
    0xe8672000, // sqv $v7[0], 0($3)
    0x1c80fff5, // bgtz $4, ramp
    0x24630010, // addiu $3, $3, 16
    0xe8be2000, // sqv $v30[0], 0($5)
];

// The theorem without the text: other words break it too, and not the text alone.
fn theorem()
    ensures { MixesRamps WORDS }
{
    l4();
}

/// The words of microcode that mixes the sound of `$4` bytes at `$1` with the one at `$2` into `$3`. Each lane
/// has a volume for the first sound, high half in `$v3` and low one in `$v4`, of which the high half counts, as
/// a fraction of 32768; after each eight samples it grows by the number in `$v5` and `$v6`: the high half is
/// clamped, the low half wraps. The second sound is multiplied by the whole number in lane 0 of `$v8`. The mix is rounded to the
/// nearest, and clamped to 16 bits. What `mix` says of the addresses and the count holds here too.
pub fn words() -> [u32; 15]
    ensures text { Assembles text result }
    ensures theorem { MixesRamps result }
{
    theorem();
    WORDS
}
