//! Laws about any words and any state. The theorems about microcode are proved with them. Each is the
//! contract of a function that does nothing; a function that calls it may use it in its proof.

ghost use Rattle.rsp_microcode.specs.Blocks.{BlocksJoin, BothStand, FirstBlock, NextBlock, RanAt, RanOthers, RanReturns, StepsAfter};
ghost use Rattle.rsp_microcode.specs.Branches.{BlockRuns};
ghost use Rattle.rsp_microcode.specs.Clips.{ClipCodes, ClipsRun, CodeBits};
ghost use Rattle.rsp_microcode.specs.Calls.{CallRuns, RoutineRuns};
ghost use Rattle.rsp_microcode.specs.Buffers.{FilledNone, FilledOne, FilledSpares};
ghost use Rattle.rsp_microcode.specs.Fixed.{FixedAdds, FixedAddsInRange, FixedHigh, FixedParts, FixedPlusProduct, FixedProduct, FixedRange, FixedSum, FixedTimes};
ghost use Rattle.rsp_microcode.specs.Frames.{Frame, ScalarsAbove, ScalarsSpared, VectorsAbove, VectorsSpared};
ghost use Rattle.rsp_microcode.specs.Kept.{KeptBut};
ghost use Rattle.rsp_microcode.specs.Pieces.{PiecesRun, RunsOfPieces};
ghost use Rattle.rsp_microcode.specs.Lanes.{LoadsLanes, StoresLanes};
ghost use Rattle.rsp_microcode.specs.Loads.{RunsOfLoads};
ghost use Rattle.rsp_microcode.specs.Multiplies.{SumsOfMultiplies};
ghost use Rattle.rsp_microcode.specs.Ranges.{RangesKept};
ghost use Rattle.rsp_microcode.specs.Reads.{ByteReads, LaneReads, LanesReads, OthersRead, ScalarReads, VectorReads, WordReads};
ghost use Rattle.rsp_microcode.specs.Reciprocals.{Reciprocals, Roots};
ghost use Rattle.rsp_microcode.specs.Runs.{BranchRuns, StepsOver, StraightRuns};
ghost use Rattle.rsp_microcode.specs.Transfers.{FetchRuns, SendRuns};

use rsp_multiply::laws::l4;

/// A step over any instruction: if the word at pc means one, the step executes it, unless the machine is
/// halted or in single step.
pub fn steps_over()
    ensures { StepsOver }
{}

/// Straight microcode: steps over words that mean instructions that go on come to the state after those instructions.
pub fn straight_runs()
    ensures { StraightRuns }
{}

/// Straight microcode that ends with a branch or a jump, taken or not, and the instruction in its delay slot.
pub fn branch_runs()
    ensures { BranchRuns }
{}

/// LQV from an aligned address loads the eight lanes there.
pub fn loads_lanes()
    ensures { LoadsLanes }
{}

/// Runs of such loads are writes of registers.
pub fn runs_of_loads()
    ensures { RunsOfLoads }
{}

/// SQV to an aligned address stores eight lanes there.
pub fn stores_lanes()
    ensures { StoresLanes }
{}

/// Sums of products: a multiply that replaces the accumulators and ones that add to them leave in each
/// accumulator the wrapped sum of all addends, and in each result the clamp of the sum so far.
pub fn sums_of_multiplies()
    ensures { SumsOfMultiplies }
{
    l4();
}

/// Fixed-point numbers: by their halves, in their range, as the two clamps of a sum, as the product of two of them, as a sum of
/// products, times a whole number, and as the sum that VADDC and VADD make.
pub fn fixed_numbers()
    ensures parts { FixedParts }
    ensures high { FixedHigh }
    ensures range { FixedRange }
    ensures sum { FixedSum }
    ensures product { FixedProduct }
    ensures plus_product { FixedPlusProduct }
    ensures times { FixedTimes }
    ensures adds { FixedAdds }
    ensures adds_in_range { FixedAddsInRange }
{}

/// Reciprocals: what VRCPH, VRCPL and VRCPH leave is the table's reciprocal, as a fixed-point number.
pub fn reciprocals()
    ensures { Reciprocals }
{}

/// Inverse square roots: what VRSQH, VRSQL and VRSQH leave is the table's, as a fixed-point number.
pub fn roots()
    ensures { Roots }
{}

/// Clip codes: the flags that VCH and then VCL leave say of each number of 32 bits whether it is at most -w, and whether it is at
/// least w; CFC2 reads them as bits; and a run through the two instructions leaves them.
pub fn clip_codes()
    ensures flags { ClipCodes }
    ensures bits { CodeBits }
    ensures run { ClipsRun }
{}

/// A vector register after writes holds what was last written to it.
pub fn vector_reads()
    ensures { VectorReads }
{}

/// A scalar register after writes holds what was last written to it.
pub fn scalar_reads()
    ensures { ScalarReads }
{}

/// A lane of what was made lane by lane: a result, a flag, an accumulator.
pub fn lane_reads()
    ensures { LaneReads }
{}

/// A byte of DMEM after a write of one.
pub fn byte_reads()
    ensures { ByteReads }
{}

/// A word of DMEM after a write of one, both at aligned addresses.
pub fn word_reads()
    ensures { WordReads }
{}

/// Eight lanes of DMEM after a write of eight, both at aligned addresses.
pub fn lanes_reads()
    ensures { LanesReads }
{}

/// A byte of DMEM outside of eight lanes that are written.
pub fn others_read()
    ensures { OthersRead }
{}

/// Straight microcode, with branches: all that none of its instructions may change is as it was.
pub fn frames()
    ensures kept { Frame }
    ensures scalars { ScalarsSpared }
    ensures above { ScalarsAbove }
    ensures vectors { VectorsSpared }
    ensures vectors_above { VectorsAbove }
{}

/// Blocks of words, one after the other: where they are, and what two of them leave, as one block; also if a routine's end is last.
pub fn blocks()
    ensures steps { StepsAfter }
    ensures stand { BothStand }
    ensures first { FirstBlock }
    ensures next { NextBlock }
    ensures join { BlocksJoin }
    ensures at { RanAt }
    ensures others { RanOthers }
    ensures returns { RanReturns }
{}

/// Blocks that end with a branch, forward or back, and its delay slot: a branch that isn't taken goes on, as straight code does.
pub fn block_runs()
    ensures { BlockRuns }
{
    l4();
}

/// Transfers: three moves to SP registers take a row of bytes from RDRAM to DMEM, or from DMEM to RDRAM, and change nothing else
/// but the addresses and the skip of the SP registers.
pub fn transfers()
    ensures fetch { FetchRuns }
    ensures send { SendRuns }
{}

/// Calls: what `jal` with its delay slot does, and what a routine that ends with `jr $31` does.
pub fn calls()
    ensures call { CallRuns }
    ensures routine { RoutineRuns }
{
    l4();
}

/// A buffer that a loop fills: nothing at the start, one vector more by each store, and a buffer that it spares.
pub fn buffers()
    ensures none { FilledNone }
    ensures one { FilledOne }
    ensures spares { FilledSpares }
{}

/// The registers after instructions are those before them, but for the ones that they write.
pub fn registers_kept()
    ensures { KeptBut }
{}

/// From a state in its ranges, instructions come to a state in its ranges.
pub fn ranges_kept()
    ensures { RangesKept }
{}

/// Straight microcode by pieces: whole loads, sums of multiplies, clip codes, whole stores, and any other instructions that go on. The state
/// after them can be computed; steps over their words come to it, keep the ranges, and leave all else as it was.
pub fn runs_of_pieces()
    ensures pieces { RunsOfPieces }
    ensures steps { PiecesRun }
{
    l4();
}
