//! A square root by a step of Newton's method.

ghost use Rattle.rsp_routines.specs.Root.{text, TakesRoots};
ghost use Rattle.rsp_microcode.specs.Text.{Assembles};

use rsp_multiply::laws::l4;

const WORDS: [u32; 24] = [
    0x4b0100f6, // vrsqh $v3[0], $v1[0]
    0x4b020135, // vrsql $v4[0], $v2[0]
    0x4b0000f6, // vrsqh $v3[0], $v0[0]
    0x4a041184, // vmudl $v6, $v2, $v4
    0x4a04098d, // vmadm $v6, $v1, $v4
    0x4a03118e, // vmadn $v6, $v2, $v3
    0x4a03094f, // vmadh $v5, $v1, $v3
    0x4a00018e, // vmadn $v6, $v0, $v0
    0x4a043284, // vmudl $v10, $v6, $v4
    0x4a042a8d, // vmadm $v10, $v5, $v4
    0x4a03328e, // vmadn $v10, $v6, $v3
    0x4a032a4f, // vmadh $v9, $v5, $v3
    0x4a00028e, // vmadn $v10, $v0, $v0
    0x4b484a86, // vmudn $v10, $v9, $v8[2]
    0x4b28424d, // vmadm $v9, $v8, $v8[1]
    0x4a00028e, // vmadn $v10, $v0, $v0
    0x4a0a3304, // vmudl $v12, $v6, $v10
    0x4a0a2b0d, // vmadm $v12, $v5, $v10
    0x4a09330e, // vmadn $v12, $v6, $v9
    0x4a092acf, // vmadh $v11, $v5, $v9
    0x4a00030e, // vmadn $v12, $v0, $v0
    0x4b686304, // vmudl $v12, $v12, $v8[3]
    0x4b685acd, // vmadm $v11, $v11, $v8[3]
    0x4a00030e, // vmadn $v12, $v0, $v0
];

// The theorem without the text: other words break it too, and not the text alone.
fn theorem()
    ensures { TakesRoots WORDS }
{
    l4();
}

/// The words of microcode that takes the square root of the number in lane 0 of `$v1` and `$v2`, which isn't
/// negative: the table's inverse root, made better by one step of Newton's method, times the number. The
/// result, in lane 0 of `$v11` and `$v12`, is exact with each rounding on the way. Its square is no larger than
/// x + 7 x / 65536, and that of the next number no smaller than x - 6 x / 65536.
pub fn words() -> [u32; 24]
    ensures text { Assembles text result }
    ensures theorem { TakesRoots result }
{
    theorem();
    WORDS
}
