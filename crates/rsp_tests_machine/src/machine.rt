use crate::machines::{machine_of, start};
use rsp_acc::{Acc, Part, PlainAcc, PlaneAcc};
use rsp_machine::Machine;
use rsp_machine::laws::same_steps;
use rsp_memory::Bank;
use std::alloc::AllocError;

/// addiu $1, $1, 1
const UP: u32 = 0x2421_0001;

/// SP_STATUS, the address of the first of three words (they may wrap), the words, how many steps are wanted and made, and then pc
/// and npc, register 1, and whether the machine is halted.
const RUNS: [(u32, u16, [u32; 3], u64, u64, [u16; 2], u32, bool); 9] = [
    // addiu; j 0; addiu
    (0, 0, [UP, 0x0800_0000, UP], 7, 7, [4, 8], 5, false),
    // ends at a jump: its delay slot is next
    (0, 0, [UP, 0x0800_0000, UP], 2, 2, [8, 0], 1, false),
    // nop; nop; addiu, after the end of IMEM
    (0, 0xff8, [0, 0, UP], 3, 3, [4, 8], 1, false),
    // addiu; break; addiu
    (0, 0, [UP, 0x0000_000d, UP], 10, 2, [8, 0xc], 1, true),
    // addiu; addiu; a reserved word
    (0, 0, [UP, UP, 0xffff_ffff], 10, 2, [8, 0xc], 2, false),
    // ori $3, $0, 0x40; mtc0 $3, $4, which sets single step; addiu
    (
        0,
        0,
        [0x3403_0040, 0x4083_2000, UP],
        10,
        2,
        [8, 0xc],
        0,
        true,
    ),
    // in single step; halted
    (0x40, 0, [UP; 3], 10, 1, [4, 8], 1, true),
    (0x02, 0, [UP; 3], 10, 0, [0, 4], 0, true),
    (0, 0, [UP; 3], 0, 0, [0, 4], 0, false),
];

#[test]
fn makes_steps_at_once(rt: HostRuntime) -> Result<(), AllocError> {
    for (status, address, [first, second, third], n, made, [pc, npc], count, halted) in RUNS {
        let mut machine: Machine<PlaneAcc> = start(&rt, rt.alloc())?;
        let at = u32::from(address);
        let _ = machine.load_words(Bank::Imem, at, &[first, second]);
        let _ = machine.load_words(Bank::Imem, (at + 8) % 4096, &[third]);
        machine.set_pc(address);
        machine.write_reg(4, status);
        let is_made = machine.steps(n) == made && machine.sp_regs().halted() == halted;
        let is_there = machine.pc() == pc && machine.npc() == npc && machine.reg(1) == count;
        assert!(rt;
            is_made && is_there,
            "{n} of {first:08x} {second:08x} {third:08x}"
        );
    }
    Ok(())
}

/// Three programs, one after the other.
const PROGRAM: [u32; 12] = [
    // ori $1, $0, 0x1234; mtc2 $1, $v2[0]; mtc2 $1, $v2[15]; mfc2 $3, $v2[15]
    0x3401_1234,
    0x4881_1000,
    0x4881_1780,
    0x4803_1780,
    // ori $1, $0, 0x8000; mtc2 $1, $v4[0]; vmulf $v5, $v4, $v4; vmulu $v6, $v4, $v4
    0x3401_8000,
    0x4881_2000,
    0x4a04_2140,
    0x4a04_2181,
    // ori $1, $0, 0xff00; ctc2 $1, $vcc; cfc2 $2, $vcc; vrcp $v1[3], $v2[5], of 0
    0x3401_ff00,
    0x48c1_0800,
    0x4842_0800,
    0x4ba2_1870,
];

/// Runs the programs. Returns whether registers 2 and 3, lanes that the programs write, the three parts of accumulator 0, clip and
/// DIV_OUT are right.
fn is_computed<A: Acc>(machine: &mut Machine<A>) -> bool {
    machine.set_pc(0);
    let made = machine.steps(12);
    let lanes = [
        machine.vreg(1).lane(3),
        machine.vreg(2).lane(7),
        machine.vreg(5).lane(0),
        machine.vreg(6).lane(0),
        machine.acc().part(Part::High).lane(0),
        machine.acc().part(Part::Middle).lane(0),
        machine.acc().part(Part::Low).lane(0),
        machine.divider().output,
    ];
    made == 12
        && machine.reg(2) == 0xffff_ff00
        && machine.reg(3) == 0x1212
        && lanes == [0xffff, 0x0012, 0x7fff, 0xffff, 0, 0x8000, 0, 0x7fff]
        && machine.flags().clip.bits() == 0xff
}

#[test]
fn computes_in_both_forms(rt: HostRuntime) -> Result<(), AllocError> {
    let mut plain: Machine<PlainAcc> = machine_of(&rt, rt.alloc(), &PROGRAM)?;
    let mut planes: Machine<PlaneAcc> = machine_of(&rt, rt.alloc(), &PROGRAM)?;
    assert!(rt; is_computed(&mut plain) && is_computed(&mut planes));
    Ok(())
}

#[test]
fn steps_over_zeros_in_both_forms(rt: HostRuntime) -> Result<(), AllocError> {
    let mut plain: Machine<PlainAcc> = start(&rt, rt.alloc())?;
    let mut planes: Machine<PlaneAcc> = start(&rt, rt.alloc())?;
    same_steps(&mut plain, &mut planes, 3);
    assert!(rt; plain.pc() == 0xc && planes.pc() == 0xc);
    Ok(())
}
