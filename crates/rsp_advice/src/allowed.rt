use rsp_decode::{ByteElements, Operand};

/// The form of an operand: what is said before its range, if it has one, and after it.
pub fn form_of(kind: Operand) -> (&'static str, &'static str) {
    let form = match kind {
        Operand::ShiftAmount | Operand::Signed | Operand::Unsigned => "a number or a label, ",
        Operand::JumpTarget | Operand::BranchTarget => "a number or a label, ",
        Operand::ScalarMemory | Operand::VectorMemory(_) => {
            return (
                "a number or a label, ",
                ", and a scalar register in parentheses",
            );
        }
        Operand::Scalar(_) => "a scalar register, $0 to $31 or as $t0, but not $v0 and $v1",
        Operand::SpRegister => "an SP register, $c0 to $c15",
        Operand::ControlRegister => "$vco, $vcc or $vce",
        Operand::Vector(_) => "a vector register, $v0 to $v31",
        Operand::VectorByte(_, ByteElements::All) => {
            "a vector register, $v0 to $v31, with a byte, [0] to [15], or none"
        }
        Operand::VectorByte(_, ByteElements::Halves) => {
            "a vector register, $v0 to $v31, with byte [0] or [8] or none"
        }
        Operand::VectorElement => {
            "a vector register, $v0 to $v31, with an element, [v], [0q], [1q], [0h] to [3h] or [0] to [7], or none"
        }
        Operand::VectorLane => "a vector register, $v0 to $v31, with a lane, [0] to [7]",
    };
    (form, "")
}
