//! What `--explain` says: of the faults of a source text, and of the replies to a script that are faults.
//!
//! `rsp_advice` has the words, and knows neither texts nor scripts. `rsp_asm` finds the faults of a text and of its operands. Here each
//! gets its words, and a script is read again to find the line that a reply answers.
#![tactic(auto)]

mod allowed;
mod head;
mod lines;
mod places;
mod replies;
mod texts;

pub use head::Head;
pub use places::{Place, Places};
pub use replies::{explain_lines, explain_reply};
pub use texts::explain_text;
