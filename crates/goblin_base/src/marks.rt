//! Marks of sixteen bytes that are read at once: which are the delimiter, and which are not ASCII.
ghost use Rattle.std.specs.Prelude.{◌≡◌, ◌+◌, ◌-◌, ◌/◌, ◌^◌, ◌<◌, ◌≤◌, ◌↔◌, ◌==◌, max, min, length, nat_le, IsTrue, slice_range};
ghost use Rattle.goblin_base.specs.Common.{IsUtf8};
ghost use Rattle.goblin_base.specs.Ascii.{lowest_set};
ghost use Rattle.goblin_base.specs.Entries.{CountsAtLeast};
ghost use Rattle.goblin_base.specs.Marks.{AreAscii, HaveMarks, mask_of};
ghost use Rattle.goblin_base.specs.Pieces.{piece_end};

use std::simd::prelude::*;

/// How many bytes are read at once.
pub(crate) const LANES: usize = 16;

/// Which of the sixteen bytes before an offset are the delimiter, and which aren't ASCII: a bit for each.
#[derive(Clone, Copy, Default)]
pub(crate) struct Marks {
    pub(crate) until: usize,
    pub(crate) delims: u64,
    pub(crate) highs: u64,
}

impl Marks {
    /// Reads the marks of sixteen bytes, which end at an offset.
    #[inline(always)]
    pub(crate) fn of(bytes: &[u8], until: usize, delim: u8) -> Marks
        requires { length bytes.now ≡ 16 }
        ensures until { result.until ≡ until }
        ensures delims { result.delims ≡ mask_of (λ b. b == delim) bytes.now }
        ensures highs { result.highs ≡ mask_of (λ b. nat_le 128 b) bytes.now }
    {
        let lanes = u8x16::from_slice(bytes);
        Marks {
            until,
            delims: lanes.simd_eq(u8x16::splat(delim)).to_bitmask(),
            highs: lanes.simd_ge(u8x16::splat(0x80)).to_bitmask(),
        }
    }
}
