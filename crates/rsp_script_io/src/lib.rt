//! Reading a script in pieces, and writing the replies to its lines.
//!
//! A script is cut into lines at its LF bytes. One CR directly before an LF is dropped, and bytes after the last LF are a line
//! if there are any. [`answer_script`] reads pieces of at most 4096 bytes and answers each line when it has ended. Of a longer
//! line it keeps 258 bytes. Its contract says what was written for the whole script, however the reads cut it, and what was
//! written before a run that ended early. What answers a line is a trait, [`LineHandler`], and so is what answers a whole script,
//! [`ScriptRunner`]: `rsp_bench` implements both.
//!
//! A script comes from a [`Source`] and the replies go to a [`Sink`]. Their contracts name the bytes that are left and the bytes
//! that were written. [`MemSource`] and [`MemSink`] name them; [`FromRead`] and [`ToWrite`], over a reader and a writer of the
//! standard library, name those that the reader or writer names. A [`Reply`] is the text of one reply.
//!
//! It answers a script for whatever answers a line, and knows no command: `rsp_commands` is a crate of its own beside
//! it.
#![tactic(auto)]

mod answer;
mod feed;
mod line;
mod line_handler;
mod reply;
mod run;
mod script_runner;
mod sink;
mod source;

pub use feed::{Feed, SCRIPT_LIMIT};
pub use line_handler::LineHandler;
pub use reply::{REPLY_LIMIT, Reply};
pub use run::{RunFault, answer_script};
pub use script_runner::ScriptRunner;
pub use sink::{MemSink, Sink, ToWrite};
pub use source::{EndFault, FromRead, MemSource, Source};
