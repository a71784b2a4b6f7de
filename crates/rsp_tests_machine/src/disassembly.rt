// Disassembly in the compiled program: a listing assembles to its words.

use crate::random::Random;
use rsp_listings::assembled_listing;
use std::alloc::{AllocError, Global};

/// How many blocks of words look random; those after them have all low halves after some high halves.
const RANDOM: u32 = 16;

/// These high halves are a branch, vector instructions and vector loads.
fn high_half(block: u32) -> u32 {
    match block / 64 {
        0 => 0x1022,
        1 => 0x4ba3,
        _ => 0xc8a4,
    }
}

/// A block of words.
fn words_of(n: u32, random: &mut Random) -> [u32; 1024] {
    let mut words = [0; 1024];
    for i in 0..1024u32 {
        words[i as usize] = match n.checked_sub(RANDOM) {
            None => random.bits(),
            Some(block) => high_half(block) << 16 | (block & 63) << 10 | i,
        };
    }
    words
}

/// Whether the listing of these words assembles to the same words.
fn is_read_back(alloc: Global, words: &[u32; 1024]) -> Result<bool, AllocError> {
    Ok(assembled_listing(alloc, 0, words)?.as_slice() == words.as_slice())
}

#[test]
fn listings_are_read_back(rt: HostRuntime) -> Result<(), AllocError> {
    let mut random = Random::new(0x0123_4567_89ab_cdef);
    for n in 0..RANDOM + 3 * 64 {
        let words = words_of(n, &mut random);
        assert!(rt; is_read_back(rt.alloc(), &words)?, "block {n}");
    }
    Ok(())
}
