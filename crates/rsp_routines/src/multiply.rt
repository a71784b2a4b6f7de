//! The product of fixed-point numbers.

ghost use Rattle.rsp_routines.specs.Multiply.{text, MultipliesFixed};
ghost use Rattle.rsp_microcode.specs.Text.{Assembles};

use rsp_multiply::laws::l4;

const WORDS: [u32; 5] = [
    0x4a041284, // vmudl $v10, $v2, $v4
    0x4a040a8d, // vmadm $v10, $v1, $v4
    0x4a03128e, // vmadn $v10, $v2, $v3
    0x4a030a4f, // vmadh $v9, $v1, $v3
    0x4a00028e, // vmadn $v10, $v0, $v0
];

// The theorem without the text: other words break it too, and not the text alone.
fn theorem()
    ensures { MultipliesFixed WORDS }
{
    l4();
}

/// The words of microcode that multiplies numbers with sixteen bits of fraction, eight at once: high halves in
/// `$v1` and `$v3`, low ones in `$v2` and `$v4`, 0 in `$v0`; the product in `$v9` and `$v10`. For all inputs it
/// is rounded down and clamped to 32 signed bits, and nothing else changes but the accumulators, pc and npc.
pub fn words() -> [u32; 5]
    ensures text { Assembles text result }
    ensures theorem { MultipliesFixed result }
{
    theorem();
    WORDS
}
