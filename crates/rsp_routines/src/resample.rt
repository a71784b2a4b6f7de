//! Samples between samples.

ghost use Rattle.rsp_microcode.specs.Text.{Assembles};
ghost use Rattle.rsp_routines.specs.Resample.{text, ResamplesSound};

use rsp_multiply::laws::l4;

const WORDS: [u32; 4] = [
    0x4a0019ab, // vnor $v6, $v3, $v0
    0x4a060905, // vmudm $v4, $v1, $v6
    0x4b05090d, // vmadm $v4, $v1, $v5[0]
    0x4a03110d, // vmadm $v4, $v2, $v3
];

// The theorem without the text: other words break it too, and not the text alone.
fn theorem()
    ensures { ResamplesSound WORDS }
{
    l4();
}

/// The words of microcode that puts into `$v4` eight samples between those of `$v1` and those of `$v2`, on a
/// straight line, by the fractions of 65536 in `$v3`, rounded down; 0 is in `$v0`, and 1 in lane 0 of `$v5`.
/// Nothing else changes but `$v6`, the accumulators, pc and npc.
pub fn words() -> [u32; 4]
    ensures text { Assembles text result }
    ensures theorem { ResamplesSound result }
{
    theorem();
    WORDS
}
