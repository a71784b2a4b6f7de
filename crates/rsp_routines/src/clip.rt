//! Clip codes.

ghost use Rattle.rsp_microcode.specs.Text.{Assembles};
ghost use Rattle.rsp_routines.specs.Clip.{text, ClipsAll};

use rsp_multiply::laws::l4;

const WORDS: [u32; 3] = [
    0x4a030965, // vch $v5, $v1, $v3
    0x4a0411a4, // vcl $v6, $v2, $v4
    0x48410800, // cfc2 $1, $vcc
];

// The theorem without the text: other words break it too, and not the text alone.
fn theorem()
    ensures { ClipsAll WORDS }
{
    l4();
}

/// The words of microcode that compares eight numbers x of 32 bits, high halves in `$v1` and low ones in `$v2`,
/// with -w and w, for w in `$v3` and `$v4`. Bit i of `$1` is 1 if x <= -w in lane i, and not both are 0. Bit
/// 8 + i is 1 if x >= w. Nothing else changes but `$v5`, `$v6`, the flags, the accumulators, pc and npc.
pub fn words() -> [u32; 3]
    ensures text { Assembles text result }
    ensures theorem { ClipsAll result }
{
    theorem();
    WORDS
}
