/// The range of an operand's value, and how a value in it becomes a field of the word.
#[derive(Clone, Copy, PartialEq, Eq, Debug)]
pub enum OperandRange {
    /// An immediate, or the offset of a scalar load or store: -32768 to 65535, kept modulo 65536.
    Half,
    /// A shift amount: 0 to 31, kept as it is.
    Amount,
    /// The target of a jump, a byte address in IMEM: a multiple of 4 from 0 to 4092, kept divided by 4.
    Jump,
    /// The target of a branch, an address as of a jump. It is kept as the distance from the delay slot in words, modulo 65536.
    Branch,
    /// The offset of a vector load or store in bytes: -64 to 63 times the instruction's scale, kept divided by the scale,
    /// modulo 128.
    Scaled(u8),
    /// A number of `.word`: -2147483648 to 4294967295, kept modulo 2^32.
    Word,
}
