use super::case::{ASSEMBLY, Case, LISTING, check, separated};
use super::fakes::FakeWriter;
use rsp_cli::{FileFault, Status};
use std::alloc::{AllocError, Global};
use std::test::Fail;

const FAULTED: Case = Case {
    image: &[0; 4],
    room: 4,
    status: Status::Faulted,
    ..LISTING
};

/// Words at 0x080, and their lines with labels: a jump back, a branch to itself, one ahead, one to the address after the last word,
/// one before the first, a jump whose ignored bits are set, and a reserved word.
const WITH_TARGETS: [u8; 32] = [
    0x08, 0x00, 0x00, 0x21, 0x10, 0x00, 0xff, 0xff, 0x14, 0x22, 0x00, 0x04, 0x04, 0x11, 0x00, 0x04,
    0x0c, 0x00, 0x00, 0x1f, 0x08, 0x00, 0x10, 0x20, 0x00, 0x20, 0x00, 0x48, 0x00, 0x00, 0x00, 0x0d,
];

const LABELLED: &[u8] =
    b"j L084\nL084:\nbeq $0, $0, L084\nbne $1, $2, L09c\nbgezal $0, 0x0a0\njal 0x07c\n.word 0x08001020 # executes as j 0x080, which would be the word 0x08000020\n.word 0x00200048\nL09c:\nbreak\n";

const LABELLED_WITH_ADDRESSES: &[u8] =
    b"080 08000021 j L084\n084 L084:\n084 1000ffff beq $0, $0, L084\n088 14220004 bne $1, $2, L09c\n08c 04110004 bgezal $0, 0x0a0\n090 0c00001f jal 0x07c\n094 08001020 .word 0x08001020 # executes as j 0x080, which would be the word 0x08000020\n098 00200048 .word 0x00200048\n09c L09c:\n09c 0000000d break\n";

static CASES: [Case; 11] = [
    // Words are listed.
    Case {
        image: &[
            0x10, 0x00, 0xff, 0xfe, 0x10, 0x00, 0xff, 0xfe, 0x00, 0x20, 0x00, 0x48, 0x00, 0x20,
            0x00, 0x08, 0x00, 0x00, 0x00, 0x00,
        ],
        script: b"step\n",
        output: Some(b".word 0x1000fffe\nbeq $0, $0, 0x000\n.word 0x00200048\njr $1\nnop\n"),
        ..LISTING
    },
    Case {
        script: b"step\n",
        ..LISTING
    },
    // Targets are labels.
    Case {
        line: "rsp dis image --at 0x080 --labels",
        image: &WITH_TARGETS,
        output: Some(LABELLED),
        ..LISTING
    },
    Case {
        line: "rsp dis --labels --places image --at 128",
        image: &WITH_TARGETS,
        output: Some(LABELLED_WITH_ADDRESSES),
        ..LISTING
    },
    // Words may not be read or listed.
    Case {
        image: &[0; 3],
        message: Some(b"rsp: bad size\n"),
        ..FAULTED
    },
    Case {
        image: &[0; 4094],
        message: Some(b"rsp: bad size\n"),
        ..FAULTED
    },
    Case {
        image: &[0; 4097],
        message: Some(b"rsp: bad size\n"),
        ..FAULTED
    },
    Case {
        image: &[0; 4100],
        message: Some(b"rsp: bad size\n"),
        ..FAULTED
    },
    Case {
        line: "rsp dis missing",
        message: Some(b"rsp: cannot read missing\n"),
        ..FAULTED
    },
    Case {
        read_fault: Some(FileFault::OutOfMemory),
        message: Some(b"rsp: fault 17 OutOfMemory\n"),
        ..FAULTED
    },
    Case {
        image: &[0; 8],
        message: Some(b"rsp: fault 41 WriteFault\n"),
        output: Some(b"nop\n"),
        ..FAULTED
    },
];

#[test]
fn words_are_listed(rt: HostRuntime) -> Result<(), Fail> {
    check(&rt, &CASES)
}

/// Opcodes of instructions, some of them with many.
const OPCODES: [u32; 19] = [
    0, 1, 2, 3, 4, 5, 8, 13, 15, 16, 18, 18, 18, 32, 35, 40, 43, 50, 58,
];

/// The next number that looks random: xorshift over 32 bits.
fn next(state: &mut u32) -> u32 {
    *state ^= *state << 13;
    *state ^= *state >> 17;
    *state ^= *state << 5;
    *state
}

/// 1,024 words of any bits, or of any bits after the opcode of an instruction.
fn random_image(alloc: Global, state: &mut u32, has_opcodes: bool) -> Result<Vec<u8>, AllocError> {
    let mut bytes = Vec::new(alloc);
    for _ in 0..1024 {
        let mut word = next(state);
        if has_opcodes {
            word = OPCODES[(next(state) % 19) as usize] << 26 | word & 0x03ff_ffff;
        }
        bytes.extend_from_slice(&word.to_be_bytes())?;
    }
    Ok(bytes)
}

static ANY_LISTING: Case = LISTING;

/// The assembly of a listing of 1,024 words.
static BACK: Case = Case {
    output: Some(b"ok 1024 words\n"),
    written: 1,
    saved: None,
    ..ASSEMBLY
};

/// The lines of an image, by this command line; none if they can't be listed.
fn listing_of(rt: &HostRuntime, line: &str, image: &[u8]) -> Result<Vec<u8>, AllocError> {
    let words = separated(rt, line)?;
    let mut room = vec![in rt.alloc(); 0; 131_072]?;
    let mut output = FakeWriter::new(&mut room, usize::MAX);
    let mut errors = FakeWriter::new(&mut [], usize::MAX);
    let end = ANY_LISTING.work(rt, &words, image, &mut output, &mut errors);
    let length = match end.status {
        Status::Done => output.bytes().len(),
        _ => 0,
    };
    room.truncate(length);
    Ok(room)
}

/// Assembles a listing: whether these are its words.
fn comes_back(rt: &HostRuntime, listing: &[u8], image: &[u8]) -> Result<bool, AllocError> {
    let words = separated(rt, BACK.line)?;
    let mut room = [0; 64];
    let mut output = FakeWriter::new(&mut room, usize::MAX);
    let mut errors = FakeWriter::new(&mut [], usize::MAX);
    let end = BACK.work(rt, &words, listing, &mut output, &mut errors);
    Ok(BACK.is_met(&end, output.bytes(), errors.bytes()) && end.files.saved.as_slice() == image)
}

/// Lists and assembles 128 images, every eighth with labels.
fn check_images(rt: &HostRuntime, seed: u32, has_opcodes: bool) -> Result<(), Fail> {
    let mut state = seed;
    for number in 0..128 {
        let image = random_image(rt.alloc(), &mut state, has_opcodes)?;
        let line = if number % 8 == 0 {
            "rsp dis image --labels"
        } else {
            "rsp dis image"
        };
        let listing = listing_of(rt, line, &image)?;
        if !comes_back(rt, &listing, &image)? {
            return Err(Fail::new(line));
        }
    }
    Ok(())
}

#[test]
fn any_words_are_listed_and_assembled_back(rt: HostRuntime) -> Result<(), Fail> {
    check_images(&rt, 0x2545_f491, false)?;
    check_images(&rt, 0x9e37_79b9, true)
}
