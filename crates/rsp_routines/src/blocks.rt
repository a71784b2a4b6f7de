//! Blocks of RDRAM, through two buffers in turn.

ghost use Rattle.rsp_routines.specs.Blocks.{text, CopiesAllBlocks};
ghost use Rattle.rsp_microcode.specs.Text.{Assembles};

use rsp_multiply::laws::l4;

const WORDS: [u32; 18] = [
    0x40850000, // next: mtc0 $5, $c0
    0x40810800, // mtc0 $1, $c1
    0x40831000, // mtc0 $3, $c2
    0x40043000, // come: mfc0 $4, $c6
    0x1480fffe, // bne $4, $0, come
    0x00000000, // nop
    0x40850000, // mtc0 $5, $c0
    0x40820800, // mtc0 $2, $c1
    0x40831800, // mtc0 $3, $c3
    0x00260821, // addu $1, $1, $6
    0x00461021, // addu $2, $2, $6
    0x00e52823, // subu $5, $7, $5
    0x2508ffff, // addiu $8, $8, -1
    0x1500fff2, // bne $8, $0, next
    0x00000000, // nop
    0x40043000, // sent: mfc0 $4, $c6
    0x1480fffe, // bne $4, $0, sent
    0x00000000, // nop
];

// The theorem without the text: other words break it too, and not the text alone.
fn theorem()
    ensures { CopiesAllBlocks WORDS }
{
    l4();
}

/// The words of microcode that copies blocks of RDRAM to another address there, through two buffers of DMEM in
/// turn: while one block is sent from one buffer, the next comes to the other. The address of the first block
/// is in `$1`, the address that it goes to in `$2`, the number of bytes of a block in `$6` and less 1 in `$3`,
/// the address of a buffer in `$5`, the sum of the addresses of both in `$7`, and the number of blocks in `$8`.
/// No other byte of RDRAM changes, and no byte of DMEM outside of the buffers.
pub fn words() -> [u32; 18]
    ensures text { Assembles text result }
    ensures theorem { CopiesAllBlocks result }
{
    theorem();
    WORDS
}
