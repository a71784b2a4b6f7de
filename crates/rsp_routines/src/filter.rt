//! A filter of four coefficients.

ghost use Rattle.rsp_microcode.specs.Text.{Assembles};
ghost use Rattle.rsp_routines.specs.Filter.{text, FiltersSound};

use rsp_multiply::laws::l4;

const WORDS: [u32; 22] = [
    0x00642821, // addu $5, $3, $4
    0xc8be2000, // lqv $v30[0], 0($5)
    0xc8212000, // filter: lqv $v1[0], 0($1)
    0x24260002, // addiu $6, $1, 2
    0x24270004, // addiu $7, $1, 4
    0x24280006, // addiu $8, $1, 6
    0xc8c22000, // lqv $v2[0], 0($6)
    0xc8c22801, // lrv $v2[0], 16($6)
    0xc8e32000, // lqv $v3[0], 0($7)
    0xc8e32801, // lrv $v3[0], 16($7)
    0xc9042000, // lqv $v4[0], 0($8)
    0xc9042801, // lrv $v4[0], 16($8)
    0x2484fff0, // addiu $4, $4, -16
    0x24210010, // addiu $1, $1, 16
    0x4b060940, // vmulf $v5, $v1, $v6[0]
    0x4b261148, // vmacf $v5, $v2, $v6[1]
    0x4b461948, // vmacf $v5, $v3, $v6[2]
    0x4b662148, // vmacf $v5, $v4, $v6[3]
    0xe8652000, // sqv $v5[0], 0($3)
    0x1c80ffee, // bgtz $4, filter
    0x24630010, // addiu $3, $3, 16
    0xe8be2000, // sqv $v30[0], 0($5)
];

// The theorem without the text: other words break it too, and not the text alone.
fn theorem()
    ensures { FiltersSound WORDS }
{
    l4();
}

/// The words of microcode that filters the sound of `$4` bytes at `$1` into `$3`, by the four coefficients in
/// lanes 0 to 3 of `$v6`, fractions of 32768. Each result is the sum of the sample at its position and the
/// three after it, each times its coefficient, rounded to the nearest number and clamped to 16 bits. The count
/// may be 0; 32 bytes more than it are inside DMEM at `$1`, and the result overwrites no byte that is still to
/// be read. All else in DMEM stays as it was.
pub fn words() -> [u32; 22]
    ensures text { Assembles text result }
    ensures theorem { FiltersSound result }
{
    theorem();
    WORDS
}
