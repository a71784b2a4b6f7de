use std::fmt::{self, Display, Formatter, Write};

/// A text in which each control character is shown as `\x` and two hexadecimal digits. So a message that names a file stays one
/// line, and a terminal obeys no name.
#[derive(Clone, Copy)]
pub struct Escaped<'a>(pub &'a str);

impl Display for Escaped<'_> {
    fn fmt<W: Write>(&self, f: &mut Formatter<W>) -> fmt::Result {
        for character in self.0.chars() {
            let written = if character.is_control() {
                write!(f, "\\x{:02x}", u32::from(character))
            } else {
                f.write_char(character)
            };
            written?;
        }
        Ok(())
    }
}
