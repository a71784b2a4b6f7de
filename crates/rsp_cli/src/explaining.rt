use crate::wrapped::Wrapped;
use rsp_cli_files::Terminals;
use rsp_explain::Place;
use std::io::Write;

/// The most replies that are explained to a file or a pipe. Of a block twenty faults are.
const EXPLAINED: u64 = 20;

/// How faults among the replies are explained.
#[derive(Clone, Copy)]
pub(crate) enum Style {
    /// Each of the first twenty, as editors read it.
    Full,
    /// Each, in lines that fit a terminal. If the replies are in the same terminal, what they have just said isn't said again.
    Typed {
        /// Whether the replies are in a terminal.
        after_reply: bool,
    },
}

impl Style {
    /// How the faults of a typed script are explained: as it is asked for, or because standard error is a terminal, too.
    pub(crate) fn of_input(with_explanation: bool, terminals: Terminals) -> Option<Style> {
        if terminals.input && terminals.errors {
            return Some(Style::Typed {
                after_reply: terminals.output,
            });
        }
        Style::asked(with_explanation)
    }

    /// How the faults of a script are explained if nobody types it.
    pub(crate) fn asked(with_explanation: bool) -> Option<Style> {
        if with_explanation {
            Some(Style::Full)
        } else {
            None
        }
    }

    /// How many faults remain without an explanation, if there are so many.
    pub(crate) fn more(self, count: u64) -> u64 {
        match self {
            Style::Full => count.saturating_sub(EXPLAINED),
            Style::Typed { .. } => 0,
        }
    }
}

/// Where explanations go, and how they look there.
#[derive(Drop)]
pub(crate) struct Explainer<E> {
    pub(crate) errors: E,
    pub(crate) style: Style,
}

impl<E: Write> Explainer<E> {
    /// Shows what is said of a reply to this place of the script.
    pub(crate) fn show(&mut self, place: Place<'_>, said: &str) {
        let _ = match self.style {
            Style::Full => self.errors.write_all(said.as_bytes()),
            Style::Typed { after_reply: false } => write!(self.errors, "{}", Wrapped(said)),
            Style::Typed { after_reply: true } => {
                let rest = without_echo(place, said);
                write!(self.errors, "{}", Wrapped(rest))
            }
        };
    }

    /// Says how many faults weren't explained, of so many.
    pub(crate) fn end(&mut self, count: u64) {
        let more = self.style.more(count);
        if more > 0 {
            let _ = writeln!(self.errors, ".. and {more} more");
        }
    }
}

/// What is said after the line with the reply and, if the reply answers one line, the line with its text, which was typed just before.
fn without_echo<'a>(place: Place<'_>, said: &'a str) -> &'a str {
    let rest = after_line(said);
    match place {
        Place::Line(..) => after_line(rest),
        Place::Block { .. } => rest,
    }
}

/// What follows the first line of a text.
fn after_line(text: &str) -> &str {
    match text.split_once('\n') {
        Some((_, rest)) => rest,
        None => "",
    }
}
