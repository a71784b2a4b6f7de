ghost use Rattle.std.specs.Prelude.{◌≡◌};
ghost use Rattle.rsp_lanes.specs.Bytes.{IsBytes};

use std::marker::Model;
use std::simd::prelude::*;

/// Sixteen bytes in one vector. Contracts see the list of them, each below 256.
#[derive(Clone, Copy, Drop)]
pub struct Bytes16 {
    bytes: u8x16,
}

impl Model for Bytes16 {
    ghost use Rattle.std.specs.Prelude.{List, ℕ};
    ghost use Rattle.rsp_lanes.specs.Bytes.{IsBytes};

    ghost Value = { List ℕ };

    ghost view = { λ b. b.bytes };

    ghost invariant = { λ b. IsBytes b.bytes };

    ghost inverse = { λ l. record { bytes = l } };
}

impl Bytes16 {
    /// The vector of these bytes.
    #[inline(always)]
    pub fn from_array(bytes: [u8; 16]) -> Self
        ensures { result ≡ bytes }
    {
        Bytes16 {
            bytes: u8x16::from_array(bytes),
        }
    }

    /// The sixteen bytes, each below 256.
    #[inline(always)]
    pub(crate) fn to_simd(self) -> u8x16
        ensures value { result ≡ self }
        ensures bytes { IsBytes self }
    {
        self.bytes
    }
}
