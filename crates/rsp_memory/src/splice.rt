ghost use Rattle.std.specs.Prelude.{◌≡◌, ◌≤◌, ◌+◌, ◌*◌, length};
ghost use Rattle.rsp_memory.specs.Splices.{spliced};
ghost use Rattle.rsp_memory.specs.Words.{words_bytes};

use byteorder::{BigEndian, ByteOrder};

/// Overwrites the bytes of a list from index `at` on.
#[inline(always)]
pub(crate) fn splice(list: &mut [u8], at: usize, bytes: &[u8])
    requires { at + length bytes.now ≤ length list.old }
    ensures { list.new ≡ spliced list.old at bytes.now }
{
    list[at..at + bytes.len()].copy_from_slice(bytes);
}

/// Overwrites the bytes of a list from index `at` on by those of words, the highest of each word first.
#[inline(always)]
pub(crate) fn splice_words(list: &mut [u8], at: usize, words: &[u32])
    requires { at + 4 * length words.now ≤ length list.old }
    ensures { list.new ≡ spliced list.old at (words_bytes words.now) }
{
    BigEndian::write_u32_into(words, &mut list[at..at + 4 * words.len()]);
}
