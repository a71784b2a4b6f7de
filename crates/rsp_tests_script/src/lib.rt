//! Tests of the assembler and of scripts that no script can make: allocations, reads and writes that fail, and calls of a session.
//! The scripts of the repository test what texts mean and what commands reply.
#![tactic(auto)]

#[cfg(test)]
mod asm;
#[cfg(test)]
mod ends;
#[cfg(test)]
mod fakes;
#[cfg(test)]
mod out_of_memory;
#[cfg(test)]
mod runs;
#[cfg(test)]
mod session;
