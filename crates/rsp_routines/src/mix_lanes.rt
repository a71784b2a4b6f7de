//! Two sounds mixed.

ghost use Rattle.rsp_routines.specs.MixLanes.{text, MixesLanes};
ghost use Rattle.rsp_microcode.specs.Text.{Assembles};

use rsp_multiply::laws::l4;

const WORDS: [u32; 2] = [
    0x4b030900, // vmulf $v4, $v1, $v3[0]
    0x4b231108, // vmacf $v4, $v2, $v3[1]
];

// The theorem without the text: other words break it too, and not the text alone.
fn theorem()
    ensures { MixesLanes WORDS }
{
    l4();
}

/// The words of microcode that mixes eight samples of two sounds, in `$v1` and `$v2`, by the volumes in lanes
/// 0 and 1 of `$v3`, into `$v4`: rounded, and clamped to 16 bits.
pub fn words() -> [u32; 2]
    ensures text { Assembles text result }
    ensures theorem { MixesLanes result }
{
    theorem();
    WORDS
}
