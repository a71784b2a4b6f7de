use std::fmt::{self, Display, Formatter, Write};

/// The columns of a terminal, as far as they are sure.
const COLUMNS: usize = 80;

/// What a line that is continued begins with, after the end of the line before it.
const CONTINUED: &str = "\n    ";

/// A text for a terminal: no line has more than 80 bytes. A longer one is broken at a space, or in a word that is too long itself.
#[derive(Clone, Copy)]
pub(crate) struct Wrapped<'a>(pub(crate) &'a str);

impl Display for Wrapped<'_> {
    fn fmt<W: Write>(&self, f: &mut Formatter<W>) -> fmt::Result {
        for line in self.0.lines() {
            put_line(f, line)?;
        }
        Ok(())
    }
}

fn put_line<W: Write>(f: &mut Formatter<W>, line: &str) -> fmt::Result {
    let mut rest = line;
    let mut room = COLUMNS;
    for _ in 0..line.len() {
        if rest.len() <= room {
            break;
        }
        let (first, more) = rest.split_at(rest.floor_char_boundary(last_break(rest, room)));
        f.write_str(first)?;
        f.write_str(CONTINUED)?;
        rest = more.trim_start();
        room = COLUMNS - 4;
    }
    f.write_str(rest)?;
    f.write_char('\n')
}

/// The index at which a text of more bytes than there is room for is broken: at its last space that leaves the room no more than three
/// quarters empty, or where the room ends.
fn last_break(text: &str, room: usize) -> usize {
    let (start, _) = text.split_at(text.floor_char_boundary(room));
    match start.rfind(' ') {
        Some(space) if space > room / 4 => space,
        _ => room,
    }
}
