use crate::debugger::{COUNTING, debugger_of};
use crate::machines::start;
use rsp_acc::{Acc, Part, PlainAcc, PlaneAcc};
use rsp_debug::BackFault;
use rsp_divide::Divider;
use rsp_lanes::{Flags, Mask8};
use rsp_machine::{AllRegisters, Machine, RegistersFault, StepEnd};
use rsp_memory::Bank;
use rsp_regs::SpParts;
use std::alloc::AllocError;

/// SP registers of which no two parts are the same.
fn sp_parts() -> SpParts {
    SpParts {
        memory: 0x1ff8,
        dram: 0xff_fff8,
        skip: 0xff8,
        halted: false,
        broke: true,
        single_step: false,
        intbreak: true,
        signals: [true, false, false, false, false, false, false, true],
        interrupt: true,
        semaphore: true,
        dpc: [1, 2, 3, 4, 5, 6, 7, 0xffff_ffff],
    }
}

/// Five flags that differ.
fn flags() -> Flags {
    Flags {
        carry: Mask8::from_bits(0x01),
        differ: Mask8::from_bits(0x83),
        compare: Mask8::from_bits(0x0f),
        clip: Mask8::from_bits(0xf0),
        extra: Mask8::from_bits(0x55),
    }
}

/// Registers of which no two parts are the same. pc is the delay slot of a jump from the end of IMEM to its start.
fn registers() -> AllRegisters {
    let mut registers = [0; 32];
    registers[1] = 0xffff_fffe;
    registers[31] = 0x8000_0001;
    let mut vectors = [[0; 8]; 32];
    vectors[0] = [1, 2, 3, 4, 5, 6, 7, 8];
    vectors[31] = [0xffff, 0x8000, 0x7fff, 0, 0x1234, 0x5678, 0x9abc, 0xdef0];
    AllRegisters {
        pc: 0xffc,
        npc: 0,
        registers,
        vectors,
        accumulators_high: [0x8000, 0x7fff, 0xffff, 0, 1, 2, 3, 4],
        accumulators_middle: [5, 6, 7, 8, 9, 10, 11, 0xffff],
        accumulators_low: [0xfff0, 12, 13, 14, 15, 16, 17, 18],
        flags: flags(),
        divider: Divider {
            input: 0x1111,
            output: 0x2222,
            loaded: true,
        },
        sp: sp_parts(),
    }
}

/// Whether each part of the vector unit, and pc and npc, is read by its own reader.
fn are_vectors_read<A: Acc>(machine: &Machine<A>) -> bool {
    let lanes = [
        machine.pc(),
        machine.npc(),
        machine.vreg(31).lane(7),
        machine.acc().part(Part::High).lane(0),
        machine.acc().part(Part::Middle).lane(7),
        machine.acc().part(Part::Low).lane(0),
        machine.divider().output,
        machine.flags().vco(),
        machine.flags().vcc(),
    ];
    lanes
        == [
            0xffc, 0, 0xdef0, 0x8000, 0xffff, 0xfff0, 0x2222, 0x8301, 0xf00f,
        ]
        && machine.flags().extra.bits() == 0x55
        && machine.vreg(0).to_array() == [1, 2, 3, 4, 5, 6, 7, 8]
}

/// Whether each scalar register and each SP register is read by its own reader.
fn are_words_read<A: Acc>(machine: &Machine<A>) -> bool {
    let sp = machine.sp_regs();
    let scalars = [machine.reg(0), machine.reg(1), machine.reg(31)];
    let transfer = [sp.peek(0), sp.peek(1), sp.peek(2), sp.peek(3)];
    let others = [sp.peek(4), sp.peek(7), sp.peek(8), sp.peek(15)];
    let is_read = scalars == [0, 0xffff_fffe, 0x8000_0001] && sp.interrupt();
    let is_shown = transfer == [0x1ff8, 0xff_fff8, 0xff80_0ff8, 0xff80_0ff8];
    is_read && is_shown && others == [0x40c2, 1, 1, 0xffff_ffff]
}

/// Whether a machine takes the registers, and returns them all.
fn is_taken<A: Acc>(machine: &mut Machine<A>) -> bool {
    let given = registers();
    let answer = machine.set_all_registers(&given);
    answer.is_ok() && machine.all_registers() == given
}

/// Whether two steps continue from there, over words at both ends of IMEM.
fn is_continued<A: Acc>(machine: &mut Machine<A>) -> bool {
    let _ = machine.load_bytes(Bank::Imem, 0, &[0x24, 0x21, 0, 1]);
    let _ = machine.load_bytes(Bank::Imem, 0xffc, &[0x24, 0x42, 0, 2]);
    let made = machine.steps(2);
    let shown = [machine.reg(1), machine.reg(2), u32::from(machine.pc())];
    made == 2 && shown == [0xffff_ffff, 2, 4]
}

/// Whether a machine that has a byte in DMEM is set, and all its readers show it.
fn is_set<A: Acc>(machine: &mut Machine<A>) -> bool {
    let _ = machine.load_bytes(Bank::Dmem, 8, &[0xab]);
    let is_taken = is_taken(machine);
    let are_read = are_vectors_read(machine) && are_words_read(machine);
    let is_kept = machine.dmem().byte(8) == 0xab;
    is_taken && are_read && is_kept && is_continued(machine)
}

/// Whether the planes are the accumulators that were set, the high ones first.
fn are_planes(acc: &PlaneAcc) -> bool {
    let [high, middle, low] = acc.planes();
    let given = registers();
    high.to_array() == given.accumulators_high
        && middle.to_array() == given.accumulators_middle
        && low.to_array() == given.accumulators_low
}

#[test]
fn sets_each_part(rt: HostRuntime) -> Result<(), AllocError> {
    let mut planes: Machine<PlaneAcc> = start(&rt, rt.alloc())?;
    let mut plain: Machine<PlainAcc> = start(&rt, rt.alloc())?;
    assert!(rt; is_set(&mut planes) && are_planes(planes.acc()) && is_set(&mut plain));
    Ok(())
}

/// pc, npc, register 0, SP_MEM_ADDR, SP_DRAM_ADDR and the skip, with something out of its range, and the fault that is returned. Of
/// two faults, the first.
const REFUSED: [([u16; 2], [u32; 4], RegistersFault); 12] = [
    ([2, 0], [0, 0, 0, 0], RegistersFault::Place),
    ([4096, 0], [0, 0, 0, 0], RegistersFault::Place),
    ([0, 0xffd], [0, 0, 0, 0], RegistersFault::Place),
    ([0, 0xfffc], [0, 0, 0, 0], RegistersFault::Place),
    ([0, 4], [1, 0, 0, 0], RegistersFault::RegisterZero),
    ([0, 4], [0, 0x2000, 0, 0], RegistersFault::MemoryAddress),
    ([0, 4], [0, 4, 0, 0], RegistersFault::MemoryAddress),
    ([0, 4], [0, 0, 0x100_0000, 0], RegistersFault::DramAddress),
    ([0, 4], [0, 0, 0xff_ffff, 0], RegistersFault::DramAddress),
    ([0, 4], [0, 0, 0, 0x1000], RegistersFault::Skip),
    ([0, 4], [0, 0, 0, 1], RegistersFault::Skip),
    ([0, 4], [1, 0, 0, 0x1000], RegistersFault::RegisterZero),
];

/// Registers with these in place of their own.
fn with(
    registers: &AllRegisters,
    [pc, npc]: [u16; 2],
    [zero, memory, dram, skip]: [u32; 4],
) -> AllRegisters {
    let mut given = *registers;
    given.pc = pc;
    given.npc = npc;
    given.registers[0] = zero;
    given.sp = SpParts {
        memory,
        dram,
        skip,
        ..sp_parts()
    };
    given
}

#[test]
fn refuses_what_no_machine_holds(rt: HostRuntime) -> Result<(), AllocError> {
    let mut debugger = debugger_of(&rt, rt.alloc(), &COUNTING, 4)?;
    let _ = debugger.step();
    let before = debugger.all_registers();
    for (place, words, fault) in REFUSED {
        let given = with(&before, place, words);
        assert!(rt; debugger.set_all_registers(&given) == Err(fault));
        assert!(rt; debugger.all_registers() == before);
    }
    Ok(())
}

#[test]
fn a_debugger_has_no_way_back_from_there(rt: HostRuntime) -> Result<(), AllocError> {
    let mut debugger = debugger_of(&rt, rt.alloc(), &COUNTING, 4)?;
    assert!(rt; debugger.add_break(8) == Ok(()) && debugger.step() == StepEnd::Done);
    let now = debugger.all_registers();
    assert!(rt; now.registers[1] == 1 && now.pc == 4);
    let given = registers();
    assert!(rt; debugger.set_all_registers(&given) == Ok(()) && debugger.all_registers() == given);
    assert!(rt; debugger.back(1) == Err(BackFault::ShortHistory));
    assert!(rt; debugger.drop_break(8) == Ok(()));
    Ok(())
}
