ghost use Rattle.std.specs.Prelude.{◌≡◌, ℕ, List, ◌≤◌, true, length};
ghost use Rattle.std.specs.List.{list_all};
ghost use Rattle.rsp_syntax.specs.Chars.{is_line_byte};

use arrayvec::ArrayString;
use std::marker::Model;
use std::str;

/// A line of source text in an open block: at most 256 bytes, each a tab or a printable byte of ASCII. Contracts see its bytes.
#[derive(Drop, Debug)]
pub struct SourceLine {
    text: ArrayString<256>,
}

impl Model for SourceLine {
    ghost Value = { List ℕ };

    ghost view = { λ l. l.text.bytes };
}

impl SourceLine {
    /// The line of these bytes.
    #[tactic(auto, using(crate::proofs::Texts::text_is_utf8))]
    pub(crate) fn new(line: &[u8]) -> SourceLine
        requires fits { length line.now ≤ 256 }
        requires text { list_all is_line_byte line.now ≡ true }
        ensures { result ≡ line.now }
    {
        let mut text = ArrayString::new();
        let Ok(line) = str::from_utf8(line) else {
            unreachable!();
        };
        text.push_str(line);
        SourceLine { text }
    }

    /// The text of the line, without its line end.
    pub fn as_str(&self) -> &str
        ensures value { result.now ≡ self.now }
        ensures fits { length result.now ≤ 256 }
    {
        self.text.as_str()
    }
}
