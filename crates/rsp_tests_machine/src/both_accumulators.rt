use crate::machines::start;
use crate::random::Random;
use rsp_acc::{Acc, Part, PlainAcc, PlaneAcc};
use rsp_decode::{decode, encode, is_canonical};
use rsp_machine::{AllRegisters, Machine, StepEnd};
use rsp_memory::Bank;
use std::alloc::AllocError;
use std::process::Abort;

/// How many lists are tried.
const LISTS: u32 = 1000;

/// The canonical word of a vector instruction that computes, with fields that look random. It has the function of VADD in place of
/// a reserved one.
fn vector_word(random: &mut Random) -> u32 {
    let word = 0x4a00_0000 | random.bits() & 0x01ff_ffff;
    match decode(word) {
        Some(inst) => encode(&inst),
        None => word & 0xffff_ffc0 | 0x10,
    }
}

/// 64 words of vector instructions.
fn list_of(rt: &impl Abort, random: &mut Random) -> [u32; 64] {
    let mut words = [0; 64];
    for i in 0..64 {
        let word = vector_word(random);
        assert!(rt; is_canonical(word), "{word:08x}");
        words[i] = word;
    }
    words
}

/// Lets a machine begin with these registers and these words.
fn begin<A: Acc>(
    rt: &impl Abort,
    machine: &mut Machine<A>,
    words: &[u32; 64],
    given: &AllRegisters,
) {
    assert!(rt; machine.load_words(Bank::Imem, 0, words).is_ok());
    assert!(rt; machine.set_all_registers(given).is_ok());
}

/// Runs both machines over a list, and compares all their registers after each step. Marks the low halves of the middle sixteen bits
/// that the first accumulator takes.
fn run_both(
    rt: &impl Abort,
    planes: &mut Machine<PlaneAcc>,
    plain: &mut Machine<PlainAcc>,
    seen: &mut [bool; 256],
) {
    for _ in 0..64 {
        assert!(rt; planes.step() == StepEnd::Done && plain.step() == StepEnd::Done);
        assert!(rt; planes.all_registers() == plain.all_registers());
        let [_, value] = planes.acc().part(Part::Middle).lane(0).to_be_bytes();
        seen[usize::from(value)] = true;
    }
}

/// Two machines that compute the same, and one that begins with another lane.
#[derive(Drop)]
struct Trial {
    planes: Machine<PlaneAcc>,
    plain: Machine<PlainAcc>,
    other: Machine<PlaneAcc>,
}

impl Trial {
    /// Tries one list of words. Returns whether the machine with one lane changed ends in another state.
    fn is_different(
        &mut self,
        rt: &impl Abort,
        random: &mut Random,
        seen: &mut [bool; 256],
    ) -> bool {
        let words = list_of(rt, random);
        let mut given = random.registers(self.planes.all_registers().sp);
        begin(rt, &mut self.planes, &words, &given);
        begin(rt, &mut self.plain, &words, &given);
        run_both(rt, &mut self.planes, &mut self.plain, seen);
        assert!(rt; self.are_memories_same());
        given.vectors[0][0] ^= 0x0100;
        begin(rt, &mut self.other, &words, &given);
        let _ = self.other.steps(64);
        self.other.all_registers() != self.plain.all_registers()
    }

    /// Whether the memories of the two machines are the same.
    fn are_memories_same(&self) -> bool {
        self.planes.dmem().bytes()[..] == self.plain.dmem().bytes()[..]
            && self.planes.imem().bytes()[..] == self.plain.imem().bytes()[..]
            && self.planes.rdram().bytes() == self.plain.rdram().bytes()
    }
}

#[test]
fn planes_are_whole_numbers(rt: HostRuntime) -> Result<(), AllocError> {
    let mut trial = Trial {
        planes: start(&rt, rt.alloc())?,
        plain: start(&rt, rt.alloc())?,
        other: start(&rt, rt.alloc())?,
    };
    let mut random = Random::new(0x2545_f491_4f6c_dd1d);
    let mut seen = [false; 256];
    let mut others: u32 = 0;
    for _ in 0..LISTS {
        others = others.wrapping_add(u32::from(trial.is_different(&rt, &mut random, &mut seen)));
    }
    // The trial would see a difference: one lane that is changed shows at the end of many lists, and accumulators take many values.
    assert!(rt; others > 100, "{others}");
    assert!(rt; count(&seen) > 100);
    Ok(())
}

/// How many places are marked.
fn count(seen: &[bool; 256]) -> u32 {
    let mut marked: u32 = 0;
    for place in seen {
        marked = marked.wrapping_add(u32::from(*place));
    }
    marked
}
