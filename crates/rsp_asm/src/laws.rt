//! Laws of the words of a source text, and of its fault. Each law is the contract of a function that does nothing.

ghost use Rattle.rsp_asm.specs.AssembleFaults.{NoTextMeansOutOfMemory};
ghost use Rattle.rsp_asm.specs.Decoding.{BlocksDecode, StatementsDecode};
ghost use Rattle.rsp_asm.specs.Explanations.{BoundsHold};
ghost use Rattle.rsp_asm.specs.TextFaults.{FirstFaultEnds};

/// The instruction table decodes what the assembler writes: an accepted statement of an instruction gives one word, and the table
/// decodes that word to the instruction with the values of the operands as fields. It is the canonical word of that instruction:
/// ignored bits are 0. `jalr` with one operand is `jalr` that links in register 31.
pub fn words_decode()
    ensures { StatementsDecode }
{}

/// The words of an accepted block are those of its lines: each is the number of an operand of `.word` (`nop` is `.word 0`), or the
/// one word of an instruction, as [`words_decode`] has it. A line may use the labels of all lines. The words follow
/// each other from the origin on, line by line, and none is left out.
pub fn blocks_decode()
    ensures { BlocksDecode }
{}

/// No text means the fault OutOfMemory, at no origin: if [`assemble`](crate::assemble) returns it, the fault isn't the text's.
pub fn no_text_means_out_of_memory()
    ensures { NoTextMeansOutOfMemory }
{}

/// The bounds of an operand are what the assembler takes: a value has the fault OutOfRange exactly if it is below the lowest number
/// or above the highest one, or no multiple of the step.
#[tactic(auto, using(crate::proofs::OperandBounds::bounds_hold))]
pub fn bounds_hold()
    ensures { BoundsHold }
{}

/// The first of all faults that [`faults_of`](crate::faults_of) finds in a text is the one with which the first pass of
/// [`assemble`](crate::assemble) ends, and there is none exactly if the first pass finds none.
#[tactic(auto, using(crate::proofs::FaultWalk::first_fault_ends))]
pub fn first_fault_ends()
    ensures { FirstFaultEnds }
{}
