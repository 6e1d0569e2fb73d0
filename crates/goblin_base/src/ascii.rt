//! The bytes at the start of a string, read sixteen at a time: up to the delimiter, and as long as they are ASCII.
ghost use Rattle.std.specs.Prelude.{◌≡◌, ◌≤◌, ◌+◌, ◌==◌, Ok, IfSome, length, take, drop};
ghost use Rattle.std.specs.List.{position, position_or_len};
ghost use Rattle.goblin_base.specs.Ascii.{ends_run, lowest_set};
ghost use Rattle.goblin_base.specs.Strtab.{plain};

use std::simd::prelude::*;

const LANES: usize = 16;

/// Returns the piece at the start of the bytes if all of it is ASCII.
pub(crate) fn ascii_piece(bytes: &[u8], delim: u8) -> Option<&str>
    ensures { IfSome result (λ text. plain bytes.now delim 0 ≡ Ok text.now) }
{
    let len = run_len(bytes, delim);
    if len < bytes.len() && bytes[len] != delim {
        return None;
    }
    Some(unsafe { std::str::from_utf8_unchecked(&bytes[..len]) })
}

// Returns how many bytes come before the first one that ends the run: the delimiter, or a byte of 128 or
// more.
#[tactic(auto, using(crate::proofs::AsciiLemmas::runs))]
fn run_len(bytes: &[u8], delim: u8) -> usize
    ensures { result ≡ position_or_len (ends_run delim) bytes.now }
{
    let mut at = 0;
    while LANES <= bytes.len() - at {
        let run = run_in(bytes, at, delim);
        if run < LANES {
            return at + run;
        }
        at += LANES;
    }
    let rest = &bytes[at..];
    at + run_end(rest, delim).unwrap_or(rest.len())
}

// Does the same for the sixteen bytes at an offset. Returns 16 if none of them ends the run.
#[inline(always)]
fn run_in(bytes: &[u8], at: usize, delim: u8) -> usize
    requires { at + LANES ≤ length bytes.now }
    ensures { result ≡ position_or_len (ends_run delim) (take LANES (drop at bytes.now)) }
{
    let lanes = u8x16::from_slice(&bytes[at..]);
    let ends = lanes.simd_eq(u8x16::splat(delim)) | lanes.simd_ge(u8x16::splat(0x80));
    lowest_set(ends.to_bitmask(), LANES)
}

/// Returns how many bytes come before the first delimiter, or how many there are if none is the delimiter.
#[tactic(auto, using(crate::proofs::AsciiLemmas::stops))]
pub(crate) fn len_before(bytes: &[u8], delim: u8) -> usize
    ensures { result ≡ position_or_len (λ b. b == delim) bytes.now }
{
    let mut at = 0;
    while LANES <= bytes.len() - at {
        let len = len_in::<LANES>(bytes, at, delim);
        if len < LANES {
            return at + len;
        }
        at += LANES;
    }
    let rest = &bytes[at..];
    at + position(rest, delim).unwrap_or(rest.len())
}

/// Returns the same. Most strings end in the first 112 bytes, which take three branches in place of seven.
#[inline(always)]
pub(crate) fn short_len_before(bytes: &[u8], delim: u8) -> usize
    ensures { result ≡ position_or_len (λ b. b == delim) bytes.now }
{
    if bytes.len() >= 112 {
        let len = len_in::<16>(bytes, 0, delim);
        if len < 16 {
            return len;
        }
        let len = len_in::<32>(bytes, 16, delim);
        if len < 32 {
            return 16 + len;
        }
        let len = len_in::<64>(bytes, 48, delim);
        if len < 64 {
            return 48 + len;
        }
    }
    len_before(bytes, delim)
}

// Does the same for the N bytes at an offset. Returns N if none of them is the delimiter.
#[inline(always)]
fn len_in<const N: usize>(bytes: &[u8], at: usize, delim: u8) -> usize
    requires { (N ≤ 64) × (at + N ≤ length bytes.now) }
    ensures { result ≡ position_or_len (λ b. b == delim) (take N (drop at bytes.now)) }
{
    let lanes = Simd::<u8, N>::from_slice(&bytes[at..]);
    lowest_set(lanes.simd_eq(Simd::splat(delim)).to_bitmask(), N)
}

// Returns the index of the lowest bit that is set, or `other` if none is.
#[inline(always)]
pub(crate) fn lowest_set(mask: u64, other: usize) -> usize
    ensures { result ≡ lowest_set mask other }
{
    if mask == 0 {
        other
    } else {
        mask.trailing_zeros() as usize
    }
}

// Returns the index of the first byte that ends the run.
fn run_end(bytes: &[u8], delim: u8) -> Option<usize>
    ensures { result ≡ position (ends_run delim) bytes.now }
{
    bytes.iter().position(|b| *b == delim || *b >= 0x80)
}

// Returns the offset of the first delimiter.
pub(crate) fn position(bytes: &[u8], delim: u8) -> Option<usize>
    ensures { result ≡ position (λ b. b == delim) bytes.now }
{
    bytes.iter().position(|b| *b == delim)
}
