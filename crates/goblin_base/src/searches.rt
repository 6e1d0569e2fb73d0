//! Searches in counted bytes. Each reads only the bytes that it is charged for.
ghost use Rattle.std.specs.Prelude.{◌≡◌, ◌+◌, ◌-◌, ◌*◌, ◌/◌, ◌<◌, ◌≤◌, ◌==◌, IfErr, drop, length, min, MatchResult, slice_range};
ghost use Rattle.goblin_base.specs.Common.{leading_zeros, w64, position_or_len, IsUtf8, IsValidUpTo, error_len, valid_up_to, utf8_error_len};
ghost use Rattle.goblin_base.specs.Pieces.{piece_start};

use crate::counted_bytes::CountedBytes;
use crate::marks::LANES;
use std::result;
use std::simd::prelude::*;
use std::str::Utf8Error;

impl<'a> CountedBytes<'a> {
    /// Returns the bytes from one offset up to another as a text, or how far they are text. It is a look at each of
    /// them.
    pub fn str(&mut self, from: usize, to: usize) -> result::Result<&'a str, Utf8Error>
        requires ordered { from ≤ to }
        requires within { to ≤ length self.old.bytes }
        ensures cases { let range = slice_range self.old.bytes from to in
            MatchResult result (λ text. (text.now ≡ range) × IsUtf8 range)
            (λ e. ¬ (IsUtf8 range) × IsValidUpTo range (valid_up_to e)) }
        ensures fault { let range = slice_range self.old.bytes from to in
            IfErr result (λ e. error_len e ≡ utf8_error_len (drop (valid_up_to e) range)) }
        ensures counted { self.new ≡ record self.old { count = min (self.old.count + (to - from)) u128.MAX } }
        ensures unchanged { self.new.bytes ≡ self.old.bytes }
        ensures rising { self.old.count ≤ self.new.count }
    {
        std::str::from_utf8(self.bytes(from, to))
    }

    /// Returns the offset at which a byte stands first from one offset up to another, or that other offset. It is a
    /// look at each byte up to it.
    pub fn find(&mut self, byte: u8, from: usize, to: usize) -> usize
        requires ordered { from ≤ to }
        requires within { to ≤ length self.old.bytes }
        ensures value { let range = slice_range self.old.bytes from to in
            result ≡ from + position_or_len (λ b. b == byte) range }
        ensures ordered { from ≤ result }
        ensures bound { result ≤ to }
        ensures counted { let looks = min (result + 1) to - from in
            self.new ≡ record self.old { count = min (self.old.count + looks) u128.MAX } }
        ensures unchanged { self.new.bytes ≡ self.old.bytes }
        ensures rising { self.old.count ≤ self.new.count }
    {
        // (its type bounds it)
        let _count = self.count();
        let mut at = from;
        while at < to {
            if self.at(at) == byte {
                return at;
            }
            at += 1;
        }
        at
    }

    /// Returns the offset after the one at which a byte stands last from one offset up to another, or the first of
    /// these two. Sixteen bytes are read at a time, from the end on: it is a look at each byte that is read.
    pub fn rfind(&mut self, byte: u8, from: usize, to: usize) -> usize
        requires ordered { from ≤ to }
        requires within { to ≤ length self.old.bytes }
        ensures value { let range = slice_range self.old.bytes from to in
            result ≡ from + piece_start range byte (to - from) }
        ensures ordered { from ≤ result }
        ensures bound { result ≤ to }
        ensures counted { let looks = min (16 * ((to - result) / 16 + 1)) (to - from) in
            self.new ≡ record self.old { count = min (self.old.count + looks) u128.MAX } }
        ensures unchanged { self.new.bytes ≡ self.old.bytes }
        ensures rising { self.old.count ≤ self.new.count }
    {
        // (its type bounds it)
        let _count = self.count();
        let mut end = to;
        while LANES <= end - from {
            let start = end - LANES;
            let len = len_to_last(self.bytes(start, end), byte);
            if len > 0 {
                return start + len;
            }
            end = start;
        }
        from + last_start(self.bytes(from, end), byte)
    }
}

// Returns the length of sixteen bytes up to the last delimiter among them, which is counted, or 0 if there is none.
#[inline(always)]
fn len_to_last(bytes: &[u8], delim: u8) -> usize
    requires { length bytes.now ≡ LANES }
    ensures value { result ≡ piece_start bytes.now delim LANES }
    ensures within { result ≤ LANES }
{
    let lanes = u8x16::from_slice(bytes);
    digits_of(lanes.simd_eq(u8x16::splat(delim)).to_bitmask())
}

// Returns how many binary digits a mask has: the index of its highest bit that is set, and 1, or 0 if none is.
#[inline(always)]
fn digits_of(mask: u64) -> usize
    ensures { result ≡ 64 - leading_zeros w64 mask }
{
    (u64::BITS - mask.leading_zeros()) as usize
}

// Returns the offset at which the last piece begins: after the last delimiter, or 0 if there is none. The bytes are
// read one by one, from the end on.
#[tactic(auto, using(crate::proofs::LastLemmas::starts))]
fn last_start(bytes: &[u8], delim: u8) -> usize
    ensures value { result ≡ piece_start bytes.now delim (length bytes.now) }
    ensures bound { result ≤ length bytes.now }
{
    let mut start = bytes.len();
    while start > 0 && bytes[start - 1] != delim {
        start -= 1;
    }
    start
}
