//! The dot product of two vectors of eight numbers.

ghost use Rattle.rsp_microcode.specs.Text.{Assembles};
ghost use Rattle.rsp_routines.specs.Dot.{text, DotsNumbers};

use rsp_multiply::laws::l4;

const WORDS: [u32; 20] = [
    0x4a0208c7, // vmudh $v3, $v1, $v2
    0x4b0318dd, // vsar $v3, $v3, $v3[0]
    0x4b24211d, // vsar $v4, $v4, $v4[1]
    0x4b04f985, // vmudm $v6, $v31, $v4[0]
    0x4b03f94f, // vmadh $v5, $v31, $v3[0]
    0x4b24f98d, // vmadm $v6, $v31, $v4[1]
    0x4b23f94f, // vmadh $v5, $v31, $v3[1]
    0x4b44f98d, // vmadm $v6, $v31, $v4[2]
    0x4b43f94f, // vmadh $v5, $v31, $v3[2]
    0x4b64f98d, // vmadm $v6, $v31, $v4[3]
    0x4b63f94f, // vmadh $v5, $v31, $v3[3]
    0x4b84f98d, // vmadm $v6, $v31, $v4[4]
    0x4b83f94f, // vmadh $v5, $v31, $v3[4]
    0x4ba4f98d, // vmadm $v6, $v31, $v4[5]
    0x4ba3f94f, // vmadh $v5, $v31, $v3[5]
    0x4bc4f98d, // vmadm $v6, $v31, $v4[6]
    0x4bc3f94f, // vmadh $v5, $v31, $v3[6]
    0x4be4f98d, // vmadm $v6, $v31, $v4[7]
    0x4be3f94f, // vmadh $v5, $v31, $v3[7]
    0x4a00018e, // vmadn $v6, $v0, $v0
];

// The theorem without the text: other words break it too, and not the text alone.
fn theorem()
    ensures { DotsNumbers WORDS }
{
    l4();
}

/// The words of microcode that multiplies eight whole numbers in `$v1` by those in `$v2` and adds the products:
/// exactly, and clamped to 32 signed bits; 0 is in `$v0`, and 1 in each lane of `$v31`. The high half of the sum
/// is in each lane of `$v5`, the low half in each lane of `$v6`, and nothing else changes but `$v3`, `$v4`, the
/// accumulators, pc and npc.
pub fn words() -> [u32; 20]
    ensures text { Assembles text result }
    ensures theorem { DotsNumbers result }
{
    theorem();
    WORDS
}
