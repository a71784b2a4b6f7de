//! The debugger: runs of a machine that stop at breakpoints and watches, queries of its state, and steps back.
#![tactic(auto)]

mod breaks;
mod conditions;
mod debugger;
mod history;
mod host;
pub mod laws;
mod moves;
mod queries;
mod run;
mod snapshot;
mod stop;
mod trace;
mod trace_entry;
mod watches;

pub use breaks::{BreakFault, NoBreak};
pub use debugger::{BackFault, CountFault, Debugger};
pub use moves::{MoveEnd, Moves};
pub use queries::{ListingLine, Scalars};
pub use stop::{Reason, Stop, Watch};
pub use trace_entry::{TraceEntry, entry_of};
pub use watches::{NoWatch, WatchFault};
