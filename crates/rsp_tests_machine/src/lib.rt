//! Tests of the machine and of the crates below it, and of disassembly.
//!
//! They are in one crate since a crate with tests is proved twice. Random programs compare two machines: one keeps its accumulators in
//! planes of 16 bits, the other as whole numbers. That the two never differ, and that listings assemble to their words, is proved in
//! the crates themselves; here the compiled program shows it.
#![tactic(auto)]

#[cfg(test)]
mod all_registers;
#[cfg(test)]
mod both_accumulators;
#[cfg(test)]
mod debugger;
#[cfg(test)]
mod disassembly;
#[cfg(test)]
mod divide;
#[cfg(test)]
mod machine;
#[cfg(test)]
mod machines;
#[cfg(test)]
mod memory;
#[cfg(test)]
mod out_of_memory;
#[cfg(test)]
mod random;
#[cfg(test)]
mod undo;
#[cfg(test)]
mod worked;
