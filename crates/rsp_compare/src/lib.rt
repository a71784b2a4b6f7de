//! The add, compare, clip, merge and logic instructions of the vector unit, over any implementation of the
//! accumulators.
//!
//! Each public call takes an operation, the register vs, the selected vt, the flags and the accumulators, and returns
//! the register that is written to vd. It refuses nothing. Three clauses state its effect by the operation's rule for
//! one lane: the results, the flags after it, and the accumulators: only their low sixteen bits are written.
//! docs/INSTRUCTIONS.md has the rules.
#![tactic(auto)]

mod adds;
mod clip_parts;
mod clips;
mod logic;
mod selects;

pub use adds::{AddOp, add_op};
pub use clips::{ClipOp, clip_op};
pub use logic::{LogicOp, logic_op};
pub use rsp_lanes::Flags;
pub use selects::{MergeOp, SelectOp, merge_op, select_op};
