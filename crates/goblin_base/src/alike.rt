//! Bytes that are compared with a text, many at a time, and the text with a delimiter in the same pass.
ghost use Rattle.std.specs.Prelude.{◌≡◌, ◌≤◌, ◌+◌, ◌*◌, ◌&&◌, length, take};
ghost use Rattle.goblin_base.specs.Common.{bytes_eq};
ghost use Rattle.std.specs.Bool.{Decides};
ghost use Rattle.goblin_base.specs.Wanted.{IsAlike, is_apart};

use std::simd::prelude::*;

/// Reports whether bytes begin with a text that doesn't contain the delimiter.
#[inline(always)]
#[tactic(auto, using(crate::proofs::AlikeLemmas::too_few))]
pub(crate) fn begins_apart(bytes: &[u8], delim: u8, text: &[u8]) -> bool
    ensures { result ≡ (bytes_eq (take (length text.now) bytes.now) text.now && is_apart delim text.now) }
{
    if bytes.len() < text.len() {
        return false;
    }
    match text.len() {
        8..16 => has_alike_ends::<8>(bytes, delim, text),
        16..=64 => has_alike_quarters::<16>(bytes, delim, text),
        4..8 => has_alike_ends::<4>(bytes, delim, text),
        65..=128 => has_alike_ends::<64>(bytes, delim, text),
        _ => begins_apart_slowly(bytes, delim, text),
    }
}

// Does the same for a text of any length. It stands apart, so that a caller saves no registers for the calls made here.
#[inline(never)]
#[tactic(auto, unfolding(crate::specs::Wanted::is_apart))]
fn begins_apart_slowly(bytes: &[u8], delim: u8, text: &[u8]) -> bool
    requires { length text.now ≤ length bytes.now }
    ensures { result ≡ (bytes_eq (take (length text.now) bytes.now) text.now && is_apart delim text.now) }
{
    &bytes[..text.len()] == text && !text.contains(&delim)
}

// Reports it of a text that N bytes at four offsets cover. No branch depends on its length.
#[inline(always)]
#[tactic(auto, using(crate::proofs::AlikeLemmas::quarters_are))]
fn has_alike_quarters<const N: usize>(bytes: &[u8], delim: u8, text: &[u8]) -> bool
    requires { (N ≤ 64) × (N ≤ length text.now) × (length text.now ≤ 4 * N) × (length text.now ≤ length bytes.now) }
    ensures { result ≡ (bytes_eq (take (length text.now) bytes.now) text.now && is_apart delim text.now) }
{
    let last = text.len() - N;
    let step = last.min(N);
    has_alike_lanes::<N>(bytes, delim, text, step)
        & has_alike_lanes::<N>(bytes, delim, text, last - step)
        & has_alike_lanes::<N>(bytes, delim, text, 0)
        & has_alike_lanes::<N>(bytes, delim, text, last)
}

// Reports it of a text that its first and its last N bytes cover. No branch depends on its length.
#[inline(always)]
#[tactic(auto, using(crate::proofs::AlikeLemmas::ends_are))]
fn has_alike_ends<const N: usize>(bytes: &[u8], delim: u8, text: &[u8]) -> bool
    requires { (N ≤ 64) × (N ≤ length text.now) × (length text.now ≤ 2 * N) × (length text.now ≤ length bytes.now) }
    ensures { result ≡ (bytes_eq (take (length text.now) bytes.now) text.now && is_apart delim text.now) }
{
    has_alike_lanes::<N>(bytes, delim, text, 0)
        & has_alike_lanes::<N>(bytes, delim, text, text.len() - N)
}

// Reports it of the N bytes at an index of both.
#[inline(always)]
fn has_alike_lanes<const N: usize>(bytes: &[u8], delim: u8, text: &[u8], at: usize) -> bool
    requires { (N ≤ 64) × (at + N ≤ length bytes.now) × (at + N ≤ length text.now) }
    ensures { Decides result (IsAlike delim bytes.now text.now at (at + N)) }
{
    let lanes = Simd::<u8, N>::from_slice(&bytes[at..]);
    let wanted = Simd::<u8, N>::from_slice(&text[at..]);
    let unlike = lanes.simd_ne(wanted) | wanted.simd_eq(Simd::splat(delim));
    unlike.to_bitmask() == 0
}
