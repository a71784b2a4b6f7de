//! A step of Newton's method.

ghost use Rattle.rsp_routines.specs.Reciprocal.{text, ImprovesReciprocal};
ghost use Rattle.rsp_microcode.specs.Text.{Assembles};

use rsp_multiply::laws::l4;

const WORDS: [u32; 17] = [
    0x4b0100f2, // vrcph $v3[0], $v1[0]
    0x4b020131, // vrcpl $v4[0], $v2[0]
    0x4b0000f2, // vrcph $v3[0], $v0[0]
    0x4a041184, // vmudl $v6, $v2, $v4
    0x4a04098d, // vmadm $v6, $v1, $v4
    0x4a03118e, // vmadn $v6, $v2, $v3
    0x4a03094f, // vmadh $v5, $v1, $v3
    0x4a00018e, // vmadn $v6, $v0, $v0
    0x4b284247, // vmudh $v9, $v8, $v8[1]
    0x4b48328e, // vmadn $v10, $v6, $v8[2]
    0x4b482a4f, // vmadh $v9, $v5, $v8[2]
    0x4a00028e, // vmadn $v10, $v0, $v0
    0x4a0a2304, // vmudl $v12, $v4, $v10
    0x4a0a1b0d, // vmadm $v12, $v3, $v10
    0x4a09230e, // vmadn $v12, $v4, $v9
    0x4a091acf, // vmadh $v11, $v3, $v9
    0x4a00030e, // vmadn $v12, $v0, $v0
];

// The theorem without the text: other words break it too, and not the text alone.
fn theorem()
    ensures { ImprovesReciprocal WORDS }
{
    l4();
}

/// The words of microcode that takes the reciprocal of the number in lane 0 of `$v1` and `$v2` from the table,
/// and makes it better by one step of Newton's method: the exact value, with each rounding and clamp of the
/// code. The result is one half of the reciprocal, in lane 0 of `$v11` and `$v12`. For a number x other than 0
/// it differs from 1 / 2x by no more than (2 + 1 / |x|) / 65536.
pub fn words() -> [u32; 17]
    ensures text { Assembles text result }
    ensures theorem { ImprovesReciprocal result }
{
    theorem();
    WORDS
}
