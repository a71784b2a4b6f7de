//! One VADD.

ghost use Rattle.rsp_routines.specs.AddLanes.{text, AddsLanes, SubtractingDiffers};
ghost use Rattle.rsp_microcode.specs.Text.{Assembles};

const WORDS: [u32; 1] = [
    0x4a0208d0, // vadd $v3, $v1, $v2
];

// The theorem without the text: other words break it too, and not the text alone.
fn theorem()
    ensures { AddsLanes WORDS }
{}

// The theorem can fail: the word of a VSUB doesn't meet it.
fn subtracting_differs()
    ensures { SubtractingDiffers }
{}

/// The word of microcode that adds the lanes of `$v1` and `$v2` into `$v3`: the sums as signed numbers,
/// clamped to -32768 .. 32767, if the carry flags are clear.
pub fn words() -> [u32; 1]
    ensures text { Assembles text result }
    ensures theorem { AddsLanes result }
{
    theorem();
    subtracting_differs();
    WORDS
}
