// Numbers are printed by `itoa`, whose contract is over std's own definition of decimals, and bytes by `hex`. A single
// hexadecimal number has digits of our own: `hex` prints bytes, and a pc has three digits.

ghost use Rattle.std.specs.Prelude.{◌≡◌, ℕ, ◌+◌, ◌*◌, ◌/◌, ◌%◌, ◌^◌, ◌<◌, ◌≤◌, List, [], ◌∷◌, ◌++◌, length};
ghost use Rattle.rsp_script_io.specs.Text.{hex_text, two_digits, short_decimal};

use arrayvec::ArrayVec;
use rsp_syntax::hex_digit;
use std::marker::Model;

/// The most bytes of a reply.
pub const REPLY_LIMIT: usize = 8192;

/// The text of a reply: at most 8192 bytes, in place, so that a reply needs no memory. Contracts see the bytes.
#[derive(Drop)]
pub struct Reply {
    bytes: ArrayVec<u8, 8192>,
}

impl Model for Reply {
    ghost Value = { List ℕ };

    ghost view = { λ r. r.bytes.items };
}

/// The eight hexadecimal digits of a number, the highest first, in lower case. It is inlined, as `push_text` is, so that digits
/// that nobody asks for aren't computed.
#[inline(always)]
#[tactic(auto, unfolding(crate::specs::Text::hex_text))]
fn hex_digits(n: u32) -> [u8; 8]
    ensures { result ≡ hex_text 8 n }
{
    let upper = n / 16 / 16 / 16 / 16;
    [
        hex_digit(upper / 16 / 16 / 16 % 16),
        hex_digit(upper / 16 / 16 % 16),
        hex_digit(upper / 16 % 16),
        hex_digit(upper % 16),
        hex_digit(n / 16 / 16 / 16 % 16),
        hex_digit(n / 16 / 16 % 16),
        hex_digit(n / 16 % 16),
        hex_digit(n % 16),
    ]
}

impl Reply {
    /// A reply of no bytes.
    pub fn new() -> Reply
        ensures { result ≡ [] }
    {
        Reply {
            bytes: ArrayVec::new(),
        }
    }

    /// Empties the reply.
    pub fn clear(&mut self)
        ensures { self.new ≡ [] }
    {
        self.bytes.clear();
    }

    /// The bytes of the reply, at most 8192.
    pub fn bytes(&self) -> &[u8]
        ensures value { result.now ≡ self.now }
        ensures fits { length self.now ≤ REPLY_LIMIT }
    {
        self.bytes.as_slice()
    }

    /// Appends a text. There must be room for it.
    #[inline(always)]
    pub fn push_text(&mut self, text: &[u8])
        requires { length self.old + length text.now ≤ REPLY_LIMIT }
        ensures text { self.new ≡ self.old ++ text.now }
        ensures len { length self.new ≡ length self.old + length text.now }
    {
        let _ = self.bytes.try_extend_from_slice(text);
    }

    /// Appends the lowest `digits` hexadecimal digits of a number, in lower case. At most 8 digits, and there must be room for
    /// them.
    #[inline(always)]
    #[tactic(auto, using(crate::proofs::Texts::hex_last))]
    pub fn push_hex(&mut self, n: u32, digits: usize)
        requires few { digits ≤ 8 }
        requires room { length self.old + digits ≤ REPLY_LIMIT }
        ensures text { self.new ≡ self.old ++ hex_text digits n }
        ensures len { length self.new ≡ length self.old + digits }
    {
        self.push_text(&hex_digits(n)[8 - digits..]);
    }

    /// Appends the two decimal digits of a number below 100. There must be room for them.
    pub fn push_two_digits(&mut self, n: u8)
        requires two { n < 100 }
        requires room { length self.old + 2 ≤ REPLY_LIMIT }
        ensures text { self.new ≡ self.old ++ two_digits n }
        ensures len { length self.new ≡ length self.old + 2 }
    {
        self.bytes.push(b'0' + n / 10);
        self.bytes.push(b'0' + n % 10);
    }

    /// Appends a number below 100 in decimal, without leading zeros. There must be room for two digits.
    pub fn push_decimal(&mut self, n: u8)
        requires two { n < 100 }
        requires room { length self.old + 2 ≤ REPLY_LIMIT }
        ensures text { self.new ≡ self.old ++ short_decimal n }
        ensures len { length self.new ≤ length self.old + 2 }
    {
        if n < 10 {
            self.bytes.push(b'0' + n);
        } else {
            self.push_two_digits(n);
        }
    }
}
