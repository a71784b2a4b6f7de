//! The first byte that is 0.

ghost use Rattle.rsp_microcode.specs.Text.{Assembles};
ghost use Rattle.rsp_routines.specs.FindZero.{text, FindsZeros};

use rsp_multiply::laws::l4;

const WORDS: [u32; 6] = [
    0x90220000, // find: lbu $2, 0($1)
    0x10400004, // beq $2, $0, out
    0x00000000, // nop
    0x24210001, // addiu $1, $1, 1
    0x1423fffb, // bne $1, $3, find
    0x00000000, // nop
];

// The theorem without the text: other words break it too, and not the text alone.
fn theorem()
    ensures { FindsZeros WORDS }
{
    l4();
}

/// The words of microcode that finds the first byte in DMEM that is 0, from the address in `$1` on and before the
/// one in `$3`, and leaves its address in `$1`; or that in `$3` if there is none. At least one byte is there.
/// Nothing else changes but `$2`, pc and npc.
pub fn words() -> [u32; 6]
    ensures text { Assembles text result }
    ensures theorem { FindsZeros result }
{
    theorem();
    WORDS
}
