// Numbers, elements and names as the disassembler writes them. Each function appends to a line, which must have room.

ghost use Rattle.std.specs.Prelude.{◌≡◌, ◌<◌, ◌≤◌, ◌+◌, ◌++◌, [], ◌∷◌, length, decimal, true};
ghost use Rattle.std.specs.Char.{digit_char};
ghost use Rattle.std.specs.Fmt.{signed_decimal};
ghost use Rattle.arrayvec.specs.ArrayString.{array_string_len};
ghost use Rattle.rsp_syntax.specs.Disassembly.{hex, small, signed_half, signed_scaled, byte_name, element_name, base_name, control_name};
ghost use Rattle.rsp_decode.specs.Table.{is_scale};

use crate::line::Line;
use itoa::Buffer;
use rsp_syntax::hex_digit;

/// Appends the hexadecimal digit of a number below 16.
#[tactic(auto, using(std::proofs::lemmas::Str::encode_ascii))]
fn push_digit(line: &mut Line, n: u32)
    requires below { n < 16 }
    requires room { array_string_len line.old + 1 ≤ 64 }
    ensures bytes { line.new.bytes ≡ line.old.bytes ++ digit_char n ∷ [] }
    ensures len { array_string_len line.new ≡ array_string_len line.old + 1 }
{
    line.push(char::from(hex_digit(n)));
}

/// Appends the lowest three hexadecimal digits of a number.
pub fn push_hex3(line: &mut Line, n: u32)
    requires { array_string_len line.old + 3 ≤ 64 }
    ensures bytes { line.new.bytes ≡ line.old.bytes ++ hex 3 n }
    ensures len { array_string_len line.new ≡ array_string_len line.old + 3 }
{
    push_digit(line, n / 16 / 16 % 16);
    push_digit(line, n / 16 % 16);
    push_digit(line, n % 16);
}

/// Appends the lowest four hexadecimal digits of a number.
pub fn push_hex4(line: &mut Line, n: u32)
    requires { array_string_len line.old + 4 ≤ 64 }
    ensures bytes { line.new.bytes ≡ line.old.bytes ++ hex 4 n }
    ensures len { array_string_len line.new ≡ array_string_len line.old + 4 }
{
    push_hex3(line, n / 16);
    push_digit(line, n % 16);
}

/// Appends a number below 100 in decimal, without a leading zero.
pub fn push_small(line: &mut Line, n: u8)
    requires below { n < 100 }
    requires room { array_string_len line.old + 2 ≤ 64 }
    ensures bytes { line.new.bytes ≡ line.old.bytes ++ small n }
    ensures len { array_string_len line.new ≤ array_string_len line.old + 2 }
{
    if n >= 10 {
        push_digit(line, u32::from(n / 10));
    }
    push_digit(line, u32::from(n % 10));
}

/// Appends a number in decimal.
fn push_decimal(line: &mut Line, n: u16)
    requires { array_string_len line.old + 5 ≤ 64 }
    ensures bytes { line.new.bytes ≡ line.old.bytes ++ decimal n }
    ensures len { array_string_len line.new ≤ array_string_len line.old + 5 }
{
    let mut buffer = Buffer::new();
    line.push_str(buffer.format(n));
}

/// Appends 16 bits as a signed number in decimal.
pub fn push_signed(line: &mut Line, n: u16)
    requires { array_string_len line.old + 6 ≤ 64 }
    ensures bytes { line.new.bytes ≡ line.old.bytes ++ signed_decimal (signed_half n) }
    ensures len { array_string_len line.new ≤ array_string_len line.old + 6 }
{
    if n < 32768 {
        push_decimal(line, n);
    } else {
        line.push_str("-");
        push_decimal(line, 65535 - n + 1);
    }
}

/// Appends the offset of a vector load or store: 7 bits as a signed number, times the instruction's scale.
pub fn push_scaled(line: &mut Line, scale: u8, n: u8)
    requires scale { is_scale scale ≡ true }
    requires bits { n < 128 }
    requires room { array_string_len line.old + 6 ≤ 64 }
    ensures bytes { line.new.bytes ≡ line.old.bytes ++ signed_decimal (signed_scaled scale n) }
    ensures len { array_string_len line.new ≤ array_string_len line.old + 6 }
{
    if n < 64 {
        push_decimal(line, u16::from(n) * u16::from(scale));
    } else {
        line.push_str("-");
        push_decimal(line, (128 - u16::from(n)) * u16::from(scale));
    }
}

/// Appends the byte of a vector register, or a lane, in brackets.
pub fn push_byte(line: &mut Line, e: u8)
    requires below { e < 100 }
    requires room { array_string_len line.old + 4 ≤ 64 }
    ensures bytes { line.new.bytes ≡ line.old.bytes ++ byte_name e }
    ensures len { array_string_len line.new ≤ array_string_len line.old + 4 }
{
    line.push_str("[");
    push_small(line, e);
    line.push_str("]");
}

/// An element of a computing instruction by its code; element 0 has no text.
fn element_text(e: u8) -> &'static str
    requires { e < 16 }
    ensures bytes { result.now ≡ element_name e }
    ensures len { length result.now ≤ 4 }
{
    match e {
        0 => "",
        1 => "[v]",
        2 => "[0q]",
        3 => "[1q]",
        4 => "[0h]",
        5 => "[1h]",
        6 => "[2h]",
        7 => "[3h]",
        8 => "[0]",
        9 => "[1]",
        10 => "[2]",
        11 => "[3]",
        12 => "[4]",
        13 => "[5]",
        14 => "[6]",
        _ => "[7]",
    }
}

/// Appends the element of a computing instruction by its code.
pub fn push_element(line: &mut Line, e: u8)
    requires below { e < 16 }
    requires room { array_string_len line.old + 4 ≤ 64 }
    ensures bytes { line.new.bytes ≡ line.old.bytes ++ element_name e }
    ensures len { array_string_len line.new ≤ array_string_len line.old + 4 }
{
    line.push_str(element_text(e));
}

/// Appends the base register of a memory operand, in parentheses.
pub fn push_base(line: &mut Line, n: u8)
    requires below { n < 32 }
    requires room { array_string_len line.old + 5 ≤ 64 }
    ensures bytes { line.new.bytes ≡ line.old.bytes ++ base_name n }
    ensures len { array_string_len line.new ≤ array_string_len line.old + 5 }
{
    line.push_str("($");
    push_small(line, n);
    line.push_str(")");
}

/// The name of a control register. Number 3 is VCE as 2 is: the instructions take the low two bits alone.
pub fn control_text(n: u8) -> &'static str
    ensures bytes { result.now ≡ control_name n }
    ensures len { length result.now ≤ 4 }
{
    match n {
        0 => "$vco",
        1 => "$vcc",
        _ => "$vce",
    }
}
