ghost use Rattle.std.specs.Prelude.{◌≡◌, ◌+◌, ◌*◌, ◌≤◌, length};
ghost use Rattle.arrayvec.specs.ArrayVec.{array_vec_len};
ghost use Rattle.rsp_machine.specs.Host.{with_bank_bytes};
ghost use Rattle.rsp_debug.specs.Debugging.{set_by_host};
ghost use Rattle.rsp_memory.specs.Words.{words_bytes};

use arrayvec::ArrayVec;
use byteorder::{BigEndian, ByteOrder};
use rsp_acc::Acc;
use rsp_debug::Debugger;
use rsp_memory::Bank;

/// The bytes of at most 1024 words, the highest byte of each first.
fn word_bytes(words: &[u32]) -> ArrayVec<u8, 4096>
    requires { length words.now ≤ 1024 }
    ensures bytes { result.items ≡ words_bytes words.now }
    ensures len { length result.items ≡ 4 * length words.now }
{
    let mut bytes = ArrayVec::from([0; 4096]);
    bytes.truncate(4 * words.len());
    BigEndian::write_u32_into(words, bytes.as_mut_slice());
    bytes
}

/// Writes words to IMEM from an address on. They must fit into it. That empties the history, even if there are no words.
pub(crate) fn load_words<A: Acc>(debugger: &mut Debugger<A>, address: u16, words: &[u32])
    requires { address + 4 * length words.now ≤ 4096 }
    ensures { debugger.new ≡ set_by_host (with_bank_bytes Bank.Imem address (words_bytes words.now) debugger.old.state) debugger.old }
{
    let bytes = word_bytes(words);
    let _ = debugger.load_bytes(Bank::Imem, u32::from(address), bytes.as_slice());
}
