ghost use Rattle.std.specs.Prelude.{Some};
ghost use Rattle.rsp_explain.specs.Heads.{head_text};

use std::fmt::{self, Display, Formatter, Write};

/// What a message on a line begins with.
#[derive(Clone, Copy)]
pub enum Head<'a> {
    /// The file of the line, by its name: editors find the line by `FILE:LINE: `.
    File(&'a str),
    /// Nothing, because the line was read from standard input: `line LINE: `.
    Input,
}

/// The same with the number of the line.
#[derive(Clone, Copy)]
pub(crate) struct LineHead<'a> {
    pub(crate) head: Head<'a>,
    pub(crate) number: usize,
}

impl Display for LineHead<'_> {
    ghost output = { λ l. Some (head_text l.head l.number) };

    fn fmt<W: Write>(&self, f: &mut Formatter<W>) -> fmt::Result {
        let number = self.number;
        match self.head {
            Head::File(name) => write!(f, "{name}:{number}"),
            Head::Input => write!(f, "line {number}"),
        }
    }
}
