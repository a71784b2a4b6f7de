//! Matrices times vectors, both of fixed-point numbers.

ghost use Rattle.rsp_microcode.specs.Text.{Assembles};
ghost use Rattle.rsp_routines.specs.TransformFixed.{text, TransformsFixed};

use rsp_multiply::laws::l4;

const WORDS: [u32; 17] = [
    0x4a8aa084, // vmudl $v2, $v20, $v10[0h]
    0x4a8a808d, // vmadm $v2, $v16, $v10[0h]
    0x4a89a08e, // vmadn $v2, $v20, $v9[0h]
    0x4a89804f, // vmadh $v1, $v16, $v9[0h]
    0x4aaaa88c, // vmadl $v2, $v21, $v10[1h]
    0x4aaa888d, // vmadm $v2, $v17, $v10[1h]
    0x4aa9a88e, // vmadn $v2, $v21, $v9[1h]
    0x4aa9884f, // vmadh $v1, $v17, $v9[1h]
    0x4acab08c, // vmadl $v2, $v22, $v10[2h]
    0x4aca908d, // vmadm $v2, $v18, $v10[2h]
    0x4ac9b08e, // vmadn $v2, $v22, $v9[2h]
    0x4ac9904f, // vmadh $v1, $v18, $v9[2h]
    0x4aeab88c, // vmadl $v2, $v23, $v10[3h]
    0x4aea988d, // vmadm $v2, $v19, $v10[3h]
    0x4ae9b88e, // vmadn $v2, $v23, $v9[3h]
    0x4ae9984f, // vmadh $v1, $v19, $v9[3h]
    0x4a00008e, // vmadn $v2, $v0, $v0
];

// The theorem without the text: other words break it too, and not the text alone.
fn theorem()
    ensures { TransformsFixed WORDS }
{
    l4();
}

/// The words of microcode that multiplies two vectors of four numbers by a matrix each, of four by four
/// numbers, all with sixteen bits of fraction and in registers: the columns of both matrices in `$v16` to
/// `$v19` (high halves) and `$v20` to `$v23` (low ones), the vectors in `$v9` and `$v10`, the result in `$v1`
/// and `$v2`. For all inputs each of the eight results is the sum of its four products, each rounded down;
/// the sum is taken modulo 2^48, with its sign, and clamped to 32 signed bits.
pub fn words() -> [u32; 17]
    ensures text { Assembles text result }
    ensures theorem { TransformsFixed result }
{
    theorem();
    WORDS
}
