//! A row of bytes from RDRAM.

ghost use Rattle.rsp_routines.specs.FetchRow.{text, FetchesRows};
ghost use Rattle.rsp_microcode.specs.Text.{Assembles};

use rsp_multiply::laws::l4;

const WORDS: [u32; 6] = [
    0x40810000, // mtc0 $1, $c0
    0x40820800, // mtc0 $2, $c1
    0x40831000, // mtc0 $3, $c2
    0x40043000, // wait: mfc0 $4, $c6
    0x1480fffe, // bne $4, $0, wait
    0x00000000, // nop
];

// The theorem without the text: other words break it too, and not the text alone.
fn theorem()
    ensures { FetchesRows WORDS }
{
    l4();
}

/// The words of microcode that fetches a row of bytes from RDRAM and waits until they have come. The address
/// in DMEM is in `$1`, that in RDRAM in `$2`, and the number of bytes less 1 in `$3`. All else in DMEM stays
/// as it was, and nothing else changes but `$4`, the SP registers, pc and npc.
pub fn words() -> [u32; 6]
    ensures text { Assembles text result }
    ensures theorem { FetchesRows result }
{
    theorem();
    WORDS
}
