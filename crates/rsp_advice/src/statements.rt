// What is written here in place of another assembler's statement.

use crate::fits::{Filled, Operands, fill, sample};
use crate::names::is_same;
use crate::visible::Label;
use std::fmt::{self, Display, Formatter, Write};

const CONDITIONS: &str =
    "no macros or conditions here: let a preprocessor such as m4 write the lines";

const DATA: &str =
    "the assembler makes only words of IMEM: write data to DMEM by load or by a DMA, and its address in DMEM as a number, because a label is an address in IMEM";

const DATA_AT: &str =
    "the assembler makes only words of IMEM: write data to DMEM from %1 on by load or by a DMA, and its address in DMEM as a number, because a label is an address in IMEM";

const END: &str =
    "end closes a block of a script, in lower case, alone on its line and without a comment";

const ENTRY: &str = "leave the line out; in a script, pc ADDR sets where the code begins";

const FILES: &str = "no other files here: let a preprocessor such as m4 join the texts";

const ITSELF: &str =
    "write the number or the register itself, or let a preprocessor such as m4 replace the name";

const LACKING: &str = "the RSP lacks this instruction of the CPU";

const MULTIPLY: &str = "the RSP multiplies and divides only in vector registers";

const LEFT_OUT: &str = "leave the line out";

const ORIGIN: &str =
    "before the first word, leave the line out and begin at the address (rsp asm --at ADDR, in a script asm ADDR); after it, write nop up to the address";

const ORIGIN_AT: &str =
    "before the first word, leave the line out and begin at %a (rsp asm --at %a, in a script asm %a); after it, write nop up to %a";

const REORDER: &str =
    "leave the line out, and write nop after each jump and branch: nothing else fills its delay slot";

const COMPARISONS: &str = "the RSP compares vectors by vlt, veq, vne and vge, and by no other";

const BYTES: &str = "the RSP has no vector sums of bytes: vadd and vsub add and subtract halves";

const SECTION: &str =
    "leave the line out; if the file has another section of code, as of an overlay, assemble each by itself at its address (rsp asm --at ADDR)";

const ANY_SECTION: &str =
    "assemble a section of code by itself at its address (rsp asm --at ADDR), which keeps overlays apart; write data to DMEM by load or by a DMA";

const UNSIGNED: &str = "the RSP has no unsigned vector sums: vaddc and vsubc don't clamp";

/// The statements of other assemblers: their names, a letter for each of their operands (see `fill`), whether what is written means the
/// same, and what is written. Of several of one name the first counts whose operands fit.
const OTHERS: &[(&str, &str, bool, &str)] = &[
    ("li", "ri", true, "addiu $%1, $0, %2"),
    ("li", "ru", true, "ori $%1, $0, %2"),
    ("li", "rw", true, "lui $%1, %h\nori $%1, $%1, %l"),
    (
        "la",
        "rt",
        false,
        "addiu $%1, $0, %2 for code; for data write the number of its address in DMEM",
    ),
    ("la", "ri", true, "addiu $%1, $0, %2"),
    ("la", "ru", true, "ori $%1, $0, %2"),
    ("la", "rw", true, "lui $%1, %h\nori $%1, $%1, %l"),
    ("move mov", "rr", true, "addu $%1, $%2, $0"),
    ("sgt", "rrr", true, "slt $%1, $%3, $%2"),
    ("sgtu", "rrr", true, "sltu $%1, $%3, $%2"),
    (
        "sge sgte",
        "rrr",
        true,
        "slt $%1, $%2, $%3\nxori $%1, $%1, 1",
    ),
    ("sgeu", "rrr", true, "sltu $%1, $%2, $%3\nxori $%1, $%1, 1"),
    (
        "sle slte",
        "rrr",
        true,
        "slt $%1, $%3, $%2\nxori $%1, $%1, 1",
    ),
    ("sleu", "rrr", true, "sltu $%1, $%3, $%2\nxori $%1, $%1, 1"),
    ("xnor", "rrr", true, "xor $%1, $%2, $%3\nnor $%1, $%1, $0"),
    ("jmp", "t", true, "j %1"),
    ("jmp", "r", true, "jr $%1"),
    ("brk", "", true, "break"),
    ("ret", "", false, "jr $ra, and nop in its delay slot"),
    (
        "abs",
        "rr",
        true,
        "sra $at, $%2, 31\nxor $%1, $%2, $at\nsubu $%1, $%1, $at",
    ),
    ("not", "rr", true, "nor $%1, $%2, $0"),
    ("neg negu", "rr", true, "subu $%1, $0, $%2"),
    ("subi subiu", "rrn", true, "addiu $%1, $%2, -%3"),
    ("subi subiu", "rrm", true, "addiu $%1, $%2, %3"),
    ("b bra", "t", true, "beq $0, $0, %1"),
    ("bal", "t", true, "bgezal $0, %1"),
    ("beqz", "rt", true, "beq $%1, $0, %2"),
    ("bnez", "rt", true, "bne $%1, $0, %2"),
    ("bge", "rrt", true, "slt $at, $%1, $%2\nbeq $at, $0, %3"),
    ("blt", "rrt", true, "slt $at, $%1, $%2\nbne $at, $0, %3"),
    ("bgt", "rrt", true, "slt $at, $%2, $%1\nbne $at, $0, %3"),
    ("ble", "rrt", true, "slt $at, $%2, $%1\nbeq $at, $0, %3"),
    ("bgeu", "rrt", true, "sltu $at, $%1, $%2\nbeq $at, $0, %3"),
    ("bltu", "rrt", true, "sltu $at, $%1, $%2\nbne $at, $0, %3"),
    ("bgtu", "rrt", true, "sltu $at, $%2, $%1\nbne $at, $0, %3"),
    ("bleu", "rrt", true, "sltu $at, $%2, $%1\nbeq $at, $0, %3"),
    ("bge", "rit", true, "slti $at, $%1, %2\nbeq $at, $0, %3"),
    ("blt", "rit", true, "slti $at, $%1, %2\nbne $at, $0, %3"),
    ("bgt", "rjt", true, "slti $at, $%1, %s\nbeq $at, $0, %3"),
    ("ble", "rjt", true, "slti $at, $%1, %s\nbne $at, $0, %3"),
    ("bgeu", "rit", true, "sltiu $at, $%1, %2\nbeq $at, $0, %3"),
    ("bltu", "rit", true, "sltiu $at, $%1, %2\nbne $at, $0, %3"),
    ("bgtu", "rkt", true, "sltiu $at, $%1, %s\nbeq $at, $0, %3"),
    ("bleu", "rkt", true, "sltiu $at, $%1, %s\nbne $at, $0, %3"),
    ("vzero", "v", true, "vxor $v%1, $v%1, $v%1"),
    ("vcopy", "vv", true, "vor $v%1, $v%2, $v%2"),
    (
        "vsll vsll8",
        "vvs",
        false,
        "vmudn $v%1, $v%2, $v31[0], with %p in lane 0 of $v31",
    ),
    (
        "vsrl vsrl8",
        "vvs",
        false,
        "vmudl $v%1, $v%2, $v31[0], with %q in lane 0 of $v31",
    ),
    (
        "vsra vsra8",
        "vvs",
        false,
        "vmudm $v%1, $v%2, $v31[0], with %q in lane 0 of $v31",
    ),
    (
        "jal_and_j",
        "tt",
        false,
        "j %1, and addiu $31, $0, %2 in its delay slot",
    ),
    (
        "mult multu mul div divu rem remu mfhi mflo mthi mtlo",
        "*",
        false,
        MULTIPLY,
    ),
    (
        "lwl lwr swl swr ld sd ldl ldr sdl sdr ll sc lld scd lwc1 swc1 ldc1 sdc1 beql bnel beqzl bnezl blezl bgtzl bltzl bgezl daddu daddiu dsubu dsll dsrl dsra dmfc0 dmtc0 syscall sync cache eret teq tne",
        "*",
        false,
        LACKING,
    ),
    ("vaddu vsubu", "*", false, UNSIGNED),
    ("vaddb vsubb vaccb vsucb", "*", false, BYTES),
    ("vgt vgtu vle vlte vltu vgeu", "*", false, COMPARISONS),
    (
        "lwc2",
        "*",
        false,
        "the LWC2 of the RSP are its vector loads, such as lqv $v1[0], 0($2): write the one that is meant",
    ),
    (
        "swc2",
        "*",
        false,
        "the SWC2 of the RSP are its vector stores, such as sqv $v1[0], 0($2): write the one that is meant",
    ),
    (
        "lwv",
        "*",
        false,
        "the RSP has only the store of this kind, swv",
    ),
    (
        "constant .definelabel .equ .eqv .equiv .symbol .name .unname",
        "*",
        false,
        ITSELF,
    ),
    ("end", "*", false, END),
    (".org origin .text", "a", false, ORIGIN_AT),
    (".text", "", true, LEFT_OUT),
    (".org origin .create .open base .text", "*", false, ORIGIN),
    (".section", "=.text", false, SECTION),
    (".section", "=.data", false, DATA),
    (".section", "=.bss", false, DATA),
    (".section", "=.rodata", false, DATA),
    (".section", "*", false, ANY_SECTION),
    (".data .bss .rdata .rodata .sdata", ".", false, DATA_AT),
    (
        ".data .bss .rdata .rodata .sdata .ds .ds.b .ds.h .ds.w .dcb .dcb.b .dcb.w .dcb.l .dc.b .dc.w .dc.l .half .hword .short .byte .dh .db .dw .dd dh db dw dd .long .int .dword .quad .2byte .4byte .8byte .zero .space .skip .fill .ascii .asciz .asciiz .string .float .double .comm .lcomm",
        "*",
        false,
        DATA,
    ),
    (
        ".macro .endm .rept .endr .irp .irpc .if .ifdef .ifndef .elseif .else .endif .endmacro macro endmacro",
        "*",
        false,
        CONDITIONS,
    ),
    (".include .incbin include insert", "*", false, FILES),
    (".set", "..", false, ITSELF),
    (".set", "=reorder", false, REORDER),
    (".entry", "*", false, ENTRY),
    (".bound .dmax .print", "*", false, LEFT_OUT),
    (
        ".set .global .globl .local .weak .func .endfunc .ent .end .type .size .file .loc .previous .n64 .rsp .close .area .endarea arch",
        "*",
        true,
        LEFT_OUT,
    ),
    (
        ".align .balign .p2align",
        "*",
        false,
        "leave the line out, or write nop up to the address",
    ),
];

/// The same of instructions, if their operands are those of another one, or of an assembler that writes the first only once.
const RESHAPED: &[(&str, &str, bool, &str)] = &[
    ("sub subu", "rrn", true, "addiu $%1, $%2, -%3"),
    ("sub subu", "rrm", true, "addiu $%1, $%2, %3"),
    ("sub subu", "rn", true, "addiu $%1, $%1, -%2"),
    ("sub subu", "rm", true, "addiu $%1, $%1, %2"),
    ("add addu", "rri", true, "addiu $%1, $%2, %3"),
    ("add addu addi addiu", "ri", true, "addiu $%1, $%1, %2"),
    ("and", "rrz", true, "andi $%1, $%2, %3"),
    ("and andi", "rz", true, "andi $%1, $%1, %2"),
    ("or", "rrz", true, "ori $%1, $%2, %3"),
    ("or ori", "rz", true, "ori $%1, $%1, %2"),
    ("xor", "rrz", true, "xori $%1, $%2, %3"),
    ("xor xori", "rz", true, "xori $%1, $%1, %2"),
    ("slt", "rri", true, "slti $%1, $%2, %3"),
    ("sltu", "rri", true, "sltiu $%1, $%2, %3"),
    ("sllv", "rrf", true, "sll $%1, $%2, %3"),
    ("srlv", "rrf", true, "srl $%1, $%2, %3"),
    ("srav", "rrf", true, "sra $%1, $%2, %3"),
    ("sll sllv", "rf", true, "sll $%1, $%1, %2"),
    ("srl srlv", "rf", true, "srl $%1, $%1, %2"),
    ("sra srav", "rf", true, "sra $%1, $%1, %2"),
    ("sll", "rrr", true, "sllv $%1, $%2, $%3"),
    ("srl", "rrr", true, "srlv $%1, $%2, $%3"),
    ("sra", "rrr", true, "srav $%1, $%2, $%3"),
    ("beq", "rit", true, "addiu $at, $0, %2\nbeq $%1, $at, %3"),
    ("bne", "rit", true, "addiu $at, $0, %2\nbne $%1, $at, %3"),
    ("break", "z", true, "break"),
];

/// What is advised in place of a statement.
#[derive(Clone, Copy)]
pub struct Statement<'a> {
    /// The name in an example, with letters for its operands; empty if the operands are the line's own.
    name: &'a str,
    letters: &'static str,
    is_sure: bool,
    filled: Filled<'a>,
}

impl Statement<'_> {
    /// Whether it means the same as the line.
    pub fn is_sure(&self) -> bool {
        self.is_sure && self.name.is_empty()
    }

    /// How it is labelled.
    pub fn label(&self) -> Label {
        if self.is_sure() {
            Label::Try
        } else {
            Label::Help
        }
    }

    /// Writes the statement that the example replaces.
    fn write_replaced<W: Write>(&self, f: &mut Formatter<W>) -> fmt::Result {
        f.write_str(self.name)?;
        for (index, letter) in self.letters.bytes().enumerate() {
            let mark = match letter {
                b'r' => "$",
                b'v' => "$v",
                _ => "",
            };
            let before = if index == 0 { " " } else { ", " };
            write!(f, "{before}{mark}{}", sample(letter, index))?;
        }
        f.write_str(" is ")
    }
}

impl Display for Statement<'_> {
    fn fmt<W: Write>(&self, f: &mut Formatter<W>) -> fmt::Result {
        if !self.name.is_empty() {
            self.write_replaced(f)?;
        }
        write!(f, "{}", self.filled)
    }
}

/// What is advised in place of a statement of another assembler. None if nothing is known of its name.
pub fn of_other<'a>(name: &'a str, operands: &Operands<'a>) -> Option<Statement<'a>> {
    let mut example = None;
    for (names, letters, is_sure, written) in OTHERS {
        if !has_name(names, name) {
            continue;
        }
        if let Some(filled) = fill(written, letters, operands) {
            return Some(Statement {
                name: "",
                letters,
                is_sure: *is_sure,
                filled,
            });
        }
        if example.is_none() {
            example = Some(Statement {
                name,
                letters,
                is_sure: false,
                filled: Filled::sample(written, letters),
            });
        }
    }
    example
}

/// What is advised in place of an instruction whose operands aren't its own. None if nothing is known of such operands.
pub fn of_reshaped<'a>(name: &str, operands: &Operands<'a>) -> Option<Statement<'a>> {
    for (names, letters, is_sure, written) in RESHAPED {
        if !has_name(names, name) {
            continue;
        }
        if let Some(filled) = fill(written, letters, operands) {
            return Some(Statement {
                name: "",
                letters,
                is_sure: *is_sure,
                filled,
            });
        }
    }
    None
}

/// Whether something is known of a name.
pub fn is_other(name: &str) -> bool {
    for (names, _, _, _) in OTHERS {
        if has_name(names, name) {
            return true;
        }
    }
    false
}

/// The names of the statements of other assemblers, those of a row separated by spaces.
pub(crate) fn other_names() -> &'static [(&'static str, &'static str, bool, &'static str)] {
    OTHERS
}

/// Whether one of these names is this one, in either case.
fn has_name(names: &str, name: &str) -> bool {
    for known in names.split(' ') {
        if is_same(name, known) {
            return true;
        }
    }
    false
}
