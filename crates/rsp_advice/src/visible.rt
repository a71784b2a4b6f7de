use std::fmt::{self, Display, Formatter, Write};

/// The most bytes of a text that are shown: as many as a line may have.
const LIMIT: usize = 256;

/// A text as a terminal may show it, at most as many bytes as a line may have: a dot for each that isn't 20 to 7e hexadecimal.
#[derive(Clone, Copy)]
pub struct Visible<'a>(pub &'a str);

impl Display for Visible<'_> {
    fn fmt<W: Write>(&self, f: &mut Formatter<W>) -> fmt::Result {
        for (index, &byte) in self.0.as_bytes().iter().enumerate() {
            if index == LIMIT {
                return f.write_str(" ..");
            }
            f.write_char(match byte {
                b'\t' => ' ',
                b' '..=b'~' => char::from(byte),
                _ => '.',
            })?;
        }
        Ok(())
    }
}

/// What a line of an explanation is.
#[derive(Clone, Copy)]
pub enum Label {
    /// What means the same as the line.
    Try,
    /// What helps.
    Help,
}

impl Label {
    fn text(self) -> &'static str {
        match self {
            Label::Try => "try: ",
            Label::Help => "help: ",
        }
    }
}

/// A text of an explanation after its label, if it has one: a line, or several, of which the others begin below the first.
#[derive(Clone, Copy)]
pub struct Labelled<'a>(pub Label, pub &'a str);

impl Display for Labelled<'_> {
    fn fmt<W: Write>(&self, f: &mut Formatter<W>) -> fmt::Result {
        if self.1.is_empty() {
            return Ok(());
        }
        let mut is_first = true;
        for line in self.1.split('\n') {
            let before = if is_first { self.0.text() } else { "     " };
            write!(f, "\n  {before}{}", Visible(line))?;
            is_first = false;
        }
        Ok(())
    }
}
