// Search of the instruction table, by name and by word.

ghost use Rattle.std.specs.Prelude.{◌≡◌, map, find, option_map};
ghost use Rattle.rsp_decode.specs.Table.{entry, entry_of, row_of};
ghost use Rattle.rsp_syntax.specs.TableSearch.{has_name, is_selected};
ghost use Rattle.rsp_syntax.specs.Statement.{row_named};

use crate::line_bytes::is_same;
use rsp_decode::{TableRow, table};

/// Whether a row has this name, in either case. The bytes are compared first, because most names are written in lower case.
fn has_name(row: &TableRow, name: &[u8]) -> bool
    ensures { result ≡ has_name name.now (entry row.now) }
{
    name == row.name.as_bytes() || is_same(name, row.name.as_bytes())
}

/// The first instruction of the rows with this name, in either case.
fn find_in(rows: &'static [TableRow], name: &[u8]) -> Option<TableRow>
    ensures { option_map entry result ≡ find (has_name name.now) (map entry rows.now) }
{
    for row in rows {
        if has_name(row, name) {
            return Some(*row);
        }
    }
    None
}

/// The number of a row by the hash of its name, as [`guess`] computes it: the last one of rows with this hash, or 0 if no name has it.
static GUESSES: [u8; 256] = [
    0, 0, 98, 65, 0, 0, 71, 0, 100, 0, 0, 90, 74, 56, 0, 0, 10, 0, 0, 0, 101, 0, 24, 118, 36, 97,
    0, 20, 116, 0, 0, 46, 0, 27, 0, 0, 0, 0, 0, 7, 49, 115, 0, 82, 37, 0, 117, 0, 22, 0, 0, 0, 44,
    0, 0, 86, 0, 0, 89, 109, 0, 0, 11, 0, 111, 0, 68, 0, 0, 80, 0, 57, 62, 77, 0, 0, 112, 14, 0,
    79, 0, 0, 108, 0, 85, 0, 0, 0, 0, 0, 0, 50, 0, 34, 0, 0, 0, 17, 39, 0, 0, 0, 33, 0, 52, 83, 0,
    0, 0, 0, 43, 21, 0, 0, 92, 58, 87, 18, 54, 72, 0, 107, 0, 73, 0, 0, 78, 0, 0, 63, 0, 29, 69, 0,
    0, 19, 0, 0, 76, 102, 0, 23, 0, 0, 47, 0, 0, 42, 0, 81, 0, 0, 41, 0, 64, 0, 0, 103, 96, 91, 0,
    15, 0, 30, 45, 0, 0, 0, 0, 66, 0, 0, 0, 0, 0, 0, 60, 0, 119, 0, 67, 88, 0, 48, 0, 0, 94, 0, 95,
    0, 16, 0, 0, 99, 55, 0, 113, 28, 0, 0, 0, 0, 0, 0, 51, 0, 40, 0, 0, 0, 35, 0, 70, 114, 0, 0,
    53, 0, 84, 0, 0, 0, 0, 0, 0, 0, 0, 59, 105, 0, 26, 75, 31, 93, 0, 0, 0, 0, 9, 0, 0, 104, 0, 38,
    0, 25, 106, 0, 0, 110, 6, 0, 61, 0, 0, 0,
];

/// The number of the row that has this name: only a guess, which the caller verifies. It is wrong if no row has the name, or if a later
/// row's name has the same hash. The case makes no difference, because only the five low bits of each byte count.
fn guess(name: &[u8]) -> usize {
    let mut packed = 0_u32;
    for c in name {
        packed = packed << 5 | u32::from(*c & 31);
    }
    // Of many factors this one leaves the shortest search of rows whose guess is wrong: nine, all near the start of the table.
    let [hash, ..] = packed.wrapping_mul(1_270_406_931).to_be_bytes();
    usize::from(GUESSES[usize::from(hash)])
}

/// The instruction with this name, in either case; None if there is none.
pub fn find_row(name: &[u8]) -> Option<TableRow>
    ensures { option_map entry result ≡ option_map entry_of (row_named name.now) }
{
    let rows = table();
    let at = guess(name);
    if at < rows.len() && has_name(&rows[at], name) {
        return Some(rows[at]);
    }
    find_in(rows, name)
}

/// The first instruction of the rows whose fixed bits are those of the word.
fn select_in(rows: &'static [TableRow], word: u32) -> Option<TableRow>
    ensures { option_map entry result ≡ find (is_selected word) (map entry rows.now) }
{
    for row in rows {
        if word & row.mask == row.value {
            return Some(*row);
        }
    }
    None
}

/// The instruction of a word; None of a reserved word. The bits of the word that the instruction ignores may be set.
pub fn select_row(word: u32) -> Option<TableRow>
    ensures { option_map entry result ≡ option_map entry_of (row_of word) }
{
    select_in(table(), word)
}
