// Names of registers, and of elements of vector registers. Their letters may be in either case.

ghost use Rattle.std.specs.Prelude.{◌≡◌, ◌≤◌, map};
ghost use Rattle.rsp_syntax.specs.Names.{look_up, small_number, scalar_named, scalar_names, vector_named, sp_named, control_named, element_named};

use crate::line_bytes::is_same;

/// The names of scalar registers beside `$0` to `$31`.
static SCALARS: [(&str, u8); 31] = [
    ("$zero", 0),
    ("$at", 1),
    ("$a0", 4),
    ("$a1", 5),
    ("$a2", 6),
    ("$a3", 7),
    ("$t0", 8),
    ("$t1", 9),
    ("$t2", 10),
    ("$t3", 11),
    ("$t4", 12),
    ("$t5", 13),
    ("$t6", 14),
    ("$t7", 15),
    ("$s0", 16),
    ("$s1", 17),
    ("$s2", 18),
    ("$s3", 19),
    ("$s4", 20),
    ("$s5", 21),
    ("$s6", 22),
    ("$s7", 23),
    ("$t8", 24),
    ("$t9", 25),
    ("$k0", 26),
    ("$k1", 27),
    ("$gp", 28),
    ("$sp", 29),
    ("$fp", 30),
    ("$s8", 30),
    ("$ra", 31),
];

/// The number beside a name, whose letters may be in either case; None if the table hasn't the name.
fn look_up(table: &[(&str, u8)], text: &[u8]) -> Option<u8>
    ensures { result ≡ look_up (map (λ e. (e.0.now, e.1)) table.now) text.now }
{
    for (name, number) in table {
        if is_same(text, name.as_bytes()) {
            return Some(*number);
        }
    }
    None
}

/// Reads a decimal number below `limit`, of one digit, or of two digits without a leading zero. None if the text is none.
pub fn small_number(text: &[u8], limit: u8) -> Option<u8>
    ensures { result ≡ small_number limit text.now }
{
    let number = match text {
        [d @ b'0'..=b'9'] => *d - b'0',
        [t @ b'1'..=b'9', d @ b'0'..=b'9'] => 10 * (*t - b'0') + (*d - b'0'),
        _ => return None,
    };
    if number < limit { Some(number) } else { None }
}

/// The number of a scalar register, 0 to 31: of `$0` to `$31`, or of a name such as `$sp` or `$zero`. None of another text.
pub fn read_scalar(text: &[u8]) -> Option<u8>
    ensures { result ≡ scalar_named text.now }
{
    if let [b'$', digits @ ..] = text
        && let Some(number) = small_number(digits, 32)
    {
        return Some(number);
    }
    look_up(&SCALARS, text)
}

/// The number of a vector register, 0 to 31: of `$v0` to `$v31`. None of another text.
pub fn read_vector(text: &[u8]) -> Option<u8>
    ensures { result ≡ vector_named text.now }
{
    match text {
        [b'$', b'v' | b'V', digits @ ..] => small_number(digits, 32),
        _ => None,
    }
}

/// The number of an SP register, 0 to 15: of `$c0` to `$c15`. None of another text.
pub fn read_sp_register(text: &[u8]) -> Option<u8>
    ensures { result ≡ sp_named text.now }
{
    match text {
        [b'$', b'c' | b'C', digits @ ..] => small_number(digits, 16),
        _ => None,
    }
}

static CONTROLS: [(&str, u8); 3] = [("$vco", 0), ("$vcc", 1), ("$vce", 2)];

/// The number of a control register of the vector unit: 0 of `$vco`, 1 of `$vcc`, 2 of `$vce`. None of another text.
pub fn read_control(text: &[u8]) -> Option<u8>
    ensures { result ≡ control_named text.now }
{
    look_up(&CONTROLS, text)
}

/// The elements of computing instructions with their codes; code 0 is the element of a register without brackets.
static ELEMENTS: [(&str, u8); 15] = [
    ("v", 1),
    ("0q", 2),
    ("1q", 3),
    ("0h", 4),
    ("1h", 5),
    ("2h", 6),
    ("3h", 7),
    ("0", 8),
    ("1", 9),
    ("2", 10),
    ("3", 11),
    ("4", 12),
    ("5", 13),
    ("6", 14),
    ("7", 15),
];

/// The code of a computing instruction's element, 1 to 15, by the text between the brackets: `v`, `0q`, `1q`, `0h` to `3h`, or
/// a lane `0` to `7`. None of another text.
pub fn read_element(text: &[u8]) -> Option<u8>
    ensures { result ≡ element_named text.now }
{
    look_up(&ELEMENTS, text)
}
