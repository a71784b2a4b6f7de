//! A law of the root table: the contract of a function that does nothing.
ghost use Rattle.rsp_divide.specs.Entries.{RootsExist};

/// One root for each index: for each index below 512 there is exactly one number whose square, times the radicand, is
/// below 2^44 while the next number's isn't. The root table is defined by that number.
pub fn l2()
    ensures { RootsExist }
{}
