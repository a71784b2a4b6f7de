use crate::machines::machine_of;
use crate::random::Random;
use rsp_acc::{Acc, PlainAcc, PlaneAcc};
use rsp_decode::table;
use rsp_machine::{AllRegisters, Machine, Record, StepEnd};
use rsp_memory::Bank;
use std::alloc::{AllocError, Global};
use std::process::Abort;

/// How many programs are tried.
const PROGRAMS: u32 = 1000;

/// How many steps of a program are recorded at most.
const STEPS: u32 = 12;

/// A word of any instruction, with fields that look random.
fn any_word(random: &mut Random) -> u32 {
    let rows = table();
    let bits = random.bits();
    match rows.get(random.bits() as usize % rows.len().max(1)) {
        Some(row) => row.value | bits & !row.mask,
        None => 0,
    }
}

/// Words that look random.
fn any_words(random: &mut Random) -> [u32; 64] {
    let mut words = [0; 64];
    for i in 0..64 {
        words[i] = any_word(random);
    }
    words
}

/// A machine at the first of these words, with this in SP_STATUS, all registers and flags loaded, and random lanes in the first 512
/// bytes of DMEM.
fn loaded<A: Acc>(
    rt: &impl Abort,
    alloc: Global,
    random: &mut Random,
    words: &[u32],
    status: u32,
) -> Result<Machine<A>, AllocError> {
    let mut machine = machine_of(rt, alloc, words)?;
    let given = random.registers(machine.all_registers().sp);
    assert!(rt; machine.set_all_registers(&given).is_ok());
    for i in 0..4 {
        let lanes = random.scalars();
        assert!(rt; machine.load_words(Bank::Dmem, 128 * i, &lanes).is_ok());
    }
    machine.write_reg(4, status);
    Ok(machine)
}

/// All that a machine shows.
#[derive(Drop)]
struct Shown {
    registers: AllRegisters,
    dmem: [u8; 4096],
    imem: [u8; 4096],
    image: [u8; 128],
}

/// The bytes of the image.
fn image_of<A: Acc>(machine: &Machine<A>) -> [u8; 128] {
    let mut bytes = [0; 128];
    for i in 0..128u32 {
        bytes[i as usize] = machine.rdram().byte(i);
    }
    bytes
}

impl Shown {
    /// What a machine shows now.
    fn of<A: Acc>(machine: &Machine<A>) -> Shown {
        Shown {
            registers: machine.all_registers(),
            dmem: *machine.dmem().bytes(),
            imem: *machine.imem().bytes(),
            image: image_of(machine),
        }
    }

    /// Whether a machine shows the same now.
    fn is_seen<A: Acc>(&self, machine: &Machine<A>) -> bool {
        machine.all_registers() == self.registers
            && machine.dmem().bytes()[..] == self.dmem[..]
            && machine.imem().bytes()[..] == self.imem[..]
            && machine.rdram().bytes() == &self.image[..]
    }
}

/// Makes steps until one isn't Done, and returns what the machine showed before each, and its record. A step that starts a DMA has no
/// record, and the list begins after it.
fn walk<A: Acc>(
    alloc: Global,
    machine: &mut Machine<A>,
) -> Result<Vec<(Shown, Record)>, AllocError> {
    let mut trail = Vec::new(alloc);
    for _ in 0..STEPS {
        let shown = Shown::of(machine);
        match machine.step_recorded() {
            (_, Some(record)) => trail.push((shown, record))?,
            (StepEnd::Done, None) => trail.clear(),
            (_, None) => return Ok(trail),
        }
    }
    Ok(trail)
}

/// Runs a program of random words, and undoes as many steps as possible, each to what was seen on the way. Returns how many.
fn try_program<A: Acc>(
    rt: &impl Abort,
    alloc: Global,
    random: &mut Random,
) -> Result<usize, AllocError> {
    let words = any_words(random);
    // Intbreak, and a signal.
    let mut machine: Machine<A> = loaded(rt, alloc, random, &words, 0x0500)?;
    let trail = walk(alloc, &mut machine)?;
    for (shown, record) in trail.iter().rev() {
        machine.undo(record);
        assert!(rt; shown.is_seen(&machine));
    }
    Ok(trail.len())
}

#[test]
fn steps_are_undone(rt: HostRuntime) -> Result<(), AllocError> {
    let mut random = Random::new(0x9e37_79b9_7f4a_7c15);
    let mut undone: usize = 0;
    for _ in 0..PROGRAMS / 4 {
        undone = undone.wrapping_add(try_program::<PlainAcc>(&rt, rt.alloc(), &mut random)?);
        for _ in 0..3 {
            undone = undone.wrapping_add(try_program::<PlaneAcc>(&rt, rt.alloc(), &mut random)?);
        }
    }
    assert!(rt; undone > 6_000, "{undone}");
    Ok(())
}

/// Steps over the first word, and over the second with a record, which then undoes it. Returns whether the second step changed more
/// than the program counters, and all is undone.
fn is_undone<A: Acc>(rt: &impl Abort, alloc: Global, words: [u32; 2]) -> Result<bool, AllocError> {
    let mut random = Random::new(0x2545_f491_4f6c_dd1d);
    // Intbreak.
    let mut machine: Machine<A> = loaded(rt, alloc, &mut random, &words, 0x0100)?;
    let is_before = machine.step() == StepEnd::Done;
    let mut shown = Shown::of(&machine);
    let (StepEnd::Done, Some(record)) = machine.step_recorded() else {
        return Ok(false);
    };
    let [pc, npc] = [shown.registers.pc, shown.registers.npc];
    shown.registers.pc = machine.pc();
    shown.registers.npc = machine.npc();
    let is_changed = !shown.is_seen(&machine);
    shown.registers.pc = pc;
    shown.registers.npc = npc;
    machine.undo(&record);
    Ok(is_before && is_changed && shown.is_seen(&machine))
}

#[test]
fn rows_are_undone(rt: HostRuntime) -> Result<(), AllocError> {
    for (words, name) in [
        ([0, 0xe808_5901], "stv $v8[2], 16($0)"),
        ([0, 0xc808_5901], "ltv $v8[2], 16($0)"),
        ([0, 0x4a03_104f], "vmadh $v1, $v2, $v3"),
        ([0x4a03_1040, 0x4a03_104f], "vmadh after vmulf"),
        ([0, 0x4a03_1065], "vch $v1, $v2, $v3"),
        ([0, 0x4ba2_1872], "vrcph $v1[3], $v2[5]"),
        ([0, 0x48c1_0800], "ctc2 $1, $vcc"),
        ([0x3401_00a5, 0x48c1_1000], "ctc2 $1, $vce"),
        ([0, 0x4002_3800], "mfc0 $2, $c7"),
        ([0x4002_3800, 0x4080_3800], "mtc0 $0, $c7"),
        ([0x3401_0040, 0x4081_2000], "mtc0 that sets single step"),
        ([0, 0x0000_000d], "break"),
        ([0, 0x0c00_0040], "jal 0x100"),
        ([0, 0x0411_0003], "bgezal $0"),
        ([0, 0xac01_0ffe], "sw $1, 0xffe($0)"),
        ([0x3401_0ffb, 0xe822_2000], "sqv $v2[0], 0($1)"),
        ([0x3401_0ff9, 0xe822_1800], "sdv $v2[0], 0($1)"),
    ] {
        assert!(rt; is_undone::<PlaneAcc>(&rt, rt.alloc(), words)?, "{name}");
        assert!(rt; is_undone::<PlainAcc>(&rt, rt.alloc(), words)?, "{name}");
    }
    Ok(())
}

#[test]
fn no_way_leads_back(rt: HostRuntime) -> Result<(), AllocError> {
    // mtc0 $0, $c2; mtc0 $0, $c3; mfc0 $1, $c2; break
    let words = [0x4080_1000, 0x4080_1800, 0x4001_1000, 0x0000_000d];
    let mut machine: Machine<PlaneAcc> = machine_of(&rt, rt.alloc(), &words)?;
    for (end, is_recorded) in [
        (StepEnd::Done, false),
        (StepEnd::Done, false),
        (StepEnd::Done, true),
        (StepEnd::Done, true),
        (StepEnd::Halted, false),
    ] {
        let (answer, record) = machine.step_recorded();
        assert!(rt; answer == end && record.is_some() == is_recorded);
    }
    let shown = Shown::of(&machine);
    machine.undo(&Record::new());
    assert!(rt; shown.is_seen(&machine));
    Ok(())
}
