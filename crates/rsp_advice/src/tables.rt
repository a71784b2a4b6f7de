// Made by `tools/python rsp_tools.page_tables` of docs/data.

use crate::commands::{CommandForm, FaultText};

pub(crate) static COMMANDS: &[CommandForm] = &[
    CommandForm {
        name: "load",
        form: "load BANK ADDR HEX",
        range: "ADDR 0 to 16777215; HEX has two hexadecimal digits a byte, no 0x and no blanks",
    },
    CommandForm {
        name: "asm",
        form: "asm ADDR",
        range: "a multiple of 4 from 0 to 4092",
    },
    CommandForm {
        name: "step",
        form: "step",
        range: "",
    },
    CommandForm {
        name: "run",
        form: "run N",
        range: "1 to 1000000",
    },
    CommandForm {
        name: "break",
        form: "break ADDR",
        range: "a multiple of 4 from 0 to 4092",
    },
    CommandForm {
        name: "unbreak",
        form: "unbreak ADDR",
        range: "a multiple of 4 from 0 to 4092",
    },
    CommandForm {
        name: "watch",
        form: "watch ADDR LEN",
        range: "LEN 1 to 64; all bytes inside DMEM",
    },
    CommandForm {
        name: "unwatch",
        form: "unwatch K",
        range: "0 to 7",
    },
    CommandForm {
        name: "back",
        form: "back N",
        range: "1 to 1000000",
    },
    CommandForm {
        name: "pc",
        form: "pc ADDR",
        range: "a multiple of 4 from 0 to 4092",
    },
    CommandForm {
        name: "read",
        form: "read N",
        range: "0 to 15",
    },
    CommandForm {
        name: "write",
        form: "write N VALUE",
        range: "0 to 15; 0 to 4294967295",
    },
    CommandForm {
        name: "task",
        form: "task ADDR",
        range: "0 to 16777215",
    },
    CommandForm {
        name: "regs",
        form: "regs",
        range: "",
    },
    CommandForm {
        name: "vregs",
        form: "vregs",
        range: "",
    },
    CommandForm {
        name: "acc",
        form: "acc",
        range: "",
    },
    CommandForm {
        name: "flags",
        form: "flags",
        range: "",
    },
    CommandForm {
        name: "sp",
        form: "sp",
        range: "",
    },
    CommandForm {
        name: "mem",
        form: "mem BANK ADDR LEN",
        range: "ADDR 0 to 16777215, LEN 1 to 256",
    },
    CommandForm {
        name: "dis",
        form: "dis ADDR N",
        range: "a multiple of 4 from 0 to 4092; 1 to 64",
    },
];

pub(crate) static FAULTS: &[FaultText] = &[
    FaultText {
        number: 4,
        cause: "the address isn't a multiple of 8, or the 64 bytes from it on pass the end of RDRAM",
        help: "check the address: it counts from the start of RDRAM",
    },
    FaultText {
        number: 5,
        cause: "the size of the boot code, the word at 0c of the structure, isn't 1 to 4096",
        help: "show the structure with mem; often its bytes are reversed",
    },
    FaultText {
        number: 6,
        cause: "the bytes pass the end of the memory",
        help: "DMEM and IMEM have 4096 bytes, RDRAM as many as the file of --rdram",
    },
    FaultText {
        number: 20,
        cause: "there are sixteen breakpoints",
        help: "unbreak one",
    },
    FaultText {
        number: 21,
        cause: "the address has a breakpoint",
        help: "leave the line out: it is set already",
    },
    FaultText {
        number: 22,
        cause: "the address has no breakpoint",
        help: "check the address: what you type is decimal",
    },
    FaultText {
        number: 23,
        cause: "there are eight watches",
        help: "unwatch one",
    },
    FaultText {
        number: 24,
        cause: "the number has no watch",
        help: "use the number that watch replied",
    },
    FaultText {
        number: 25,
        cause: "LEN isn't 1 to 64, or the bytes aren't all inside DMEM",
        help: "for more than 64 bytes use several watches",
    },
    FaultText {
        number: 26,
        cause: "N isn't 1 to 1,000,000",
        help: "for more than 1,000,000 steps use several run lines; back undoes 256 at most",
    },
    FaultText {
        number: 27,
        cause: "the history holds fewer than N steps",
        help: "load, task, pc, write, end, read 7 and a step that starts a DMA empty it; to go back further, run the script again",
    },
    FaultText {
        number: 30,
        cause: "the command is unknown, the number of words is wrong, or a memory isn't dmem, imem or rdram",
        help: "use lower case; end only ends a block",
    },
    FaultText {
        number: 31,
        cause: "a word isn't a number in its range, or isn't HEX",
        help: "numbers are decimal, or 0x and hexadecimal",
    },
    FaultText {
        number: 32,
        cause: "the line has more than 256 bytes, comment included; the LF and a CR before it don't count",
        help: "split it; load takes some 120 bytes a line",
    },
    FaultText {
        number: 33,
        cause: "the line, or its comment, has a byte that is neither a tab nor from 20 to 7e (hexadecimal); or the text of rsp asm isn't UTF-8",
        help: "save the file as ASCII",
    },
];
