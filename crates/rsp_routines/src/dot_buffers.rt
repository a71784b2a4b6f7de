//! The dot product of two buffers.

ghost use Rattle.rsp_microcode.specs.Text.{Assembles};
ghost use Rattle.rsp_routines.specs.DotBuffers.{text, DotsBuffers};

use rsp_multiply::laws::l4;

const WORDS: [u32; 34] = [
    0x00242821, // addu $5, $1, $4
    0x00443021, // addu $6, $2, $4
    0x4a000068, // vand $v1, $v0, $v0
    0x4a0000a8, // vand $v2, $v0, $v0
    0x4a0000c7, // vmudh $v3, $v0, $v0
    0xc8a12800, // lrv $v1[0], 0($5)
    0xc8c22800, // lrv $v2[0], 0($6)
    0x4a0208cf, // dot: vmadh $v3, $v1, $v2
    0xc8212000, // lqv $v1[0], 0($1)
    0xc8422000, // lqv $v2[0], 0($2)
    0x2484fff0, // addiu $4, $4, -16
    0x24210010, // addiu $1, $1, 16
    0x0481fffa, // bgez $4, dot
    0x24420010, // addiu $2, $2, 16
    0x4b0318dd, // vsar $v3, $v3, $v3[0]
    0x4b24211d, // vsar $v4, $v4, $v4[1]
    0x4b04f985, // vmudm $v6, $v31, $v4[0]
    0x4b03f94f, // vmadh $v5, $v31, $v3[0]
    0x4b24f98d, // vmadm $v6, $v31, $v4[1]
    0x4b23f94f, // vmadh $v5, $v31, $v3[1]
    0x4b44f98d, // vmadm $v6, $v31, $v4[2]
    0x4b43f94f, // vmadh $v5, $v31, $v3[2]
    0x4b64f98d, // vmadm $v6, $v31, $v4[3]
    0x4b63f94f, // vmadh $v5, $v31, $v3[3]
    0x4b84f98d, // vmadm $v6, $v31, $v4[4]
    0x4b83f94f, // vmadh $v5, $v31, $v3[4]
    0x4ba4f98d, // vmadm $v6, $v31, $v4[5]
    0x4ba3f94f, // vmadh $v5, $v31, $v3[5]
    0x4bc4f98d, // vmadm $v6, $v31, $v4[6]
    0x4bc3f94f, // vmadh $v5, $v31, $v3[6]
    0x4be4f98d, // vmadm $v6, $v31, $v4[7]
    0x4be3f94f, // vmadh $v5, $v31, $v3[7]
    0x4b25295d, // vsar $v5, $v5, $v5[1]
    0x4b46319d, // vsar $v6, $v6, $v6[2]
];

// The theorem without the text: other words break it too, and not the text alone.
fn theorem()
    ensures { DotsBuffers WORDS }
{
    l4();
}

/// The words of microcode that multiplies the numbers of two bytes at `$1` by those at `$2` and adds the
/// products, of buffers of `$4` bytes each: the sum modulo 2^32, its high half in each lane of `$v5`, its low
/// half in each lane of `$v6`. The count is even and below 4096, 0 too, both buffers are inside DMEM at
/// multiples of 16, 0 is in `$v0` and 1 in each lane of `$v31`. DMEM doesn't change.
pub fn words() -> [u32; 34]
    ensures text { Assembles text result }
    ensures theorem { DotsBuffers result }
{
    theorem();
    WORDS
}
