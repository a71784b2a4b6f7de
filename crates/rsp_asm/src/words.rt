// The words of a source text.

use arrayvec::ArrayVec;

/// The words of a source text, at most 1024: as many as IMEM has.
pub type Words = ArrayVec<u32, 1024>;
