//! The walk that makes the entries of a string table. It looks at most five times at each byte, on average.
ghost use Rattle.std.specs.Prelude.{◌≡◌, ◌+◌, ◌-◌, ◌*◌, ◌<◌, ◌≤◌, ◌≢◌, [], length, IfErr, IfOk, IsOk, ◌/◌, ◌^◌, ◌↔◌, ◌==◌, max, min, nat_le, IsTrue, slice_range};
ghost use Rattle.goblin_base.specs.Common.{Gives, out_of_memory, refusal_of, IsUtf8};
ghost use Rattle.std.specs.Str.{IsAscii};
ghost use Rattle.goblin_base.specs.Entries.{CountsAtLeast};
ghost use Rattle.goblin_base.specs.Pieces.{first_bad, piece_end};
ghost use Rattle.goblin_base.specs.Scan.{IsScan, IsWalkedTo, found_end, looks_of, scan_end};
ghost use Rattle.goblin_base.specs.Strtab.{RefusesFirst, walked};
ghost use Rattle.goblin_base.specs.Utf8.{invalid_utf8};
ghost use Rattle.goblin_base.specs.Ascii.{lowest_set};
ghost use Rattle.goblin_base.specs.Marks.{AreAscii, HaveMarks, mask_of};

use crate::ascii::lowest_set;
use crate::entries::{Entries, Looked};
use crate::error::Result;
use crate::marks::{LANES, Marks};
use crate::options::ParseMode;
use crate::utf8::{Awaited, invalid_utf8};
use std::alloc::{AllocError, Global};
use std::result;

/// Makes the entries of the view's bytes, which the delimiter cuts into pieces.
///
/// The walk starts at offset 0. If the piece from its offset on is UTF-8, that is an entry, and the walk goes on
/// after the piece and its delimiter. Otherwise strict mode refuses the piece; in permissive mode it becomes an
/// entry with an empty text, and the walk goes on one byte further:
///
/// ```text
/// bytes      a   b   0   FF  c   0   d      (the delimiter is 0)
/// entries    "ab"        ""  "c"     "d"    (each below the byte at its offset)
/// ```
///
/// An empty view allocates nothing.
///
/// # Errors
///
/// In strict mode fails with `BadInput` for the first piece that isn't UTF-8. Its size is the number of bytes
/// from that piece on. In either mode fails with out of memory. Errors come in the order of offsets: out of
/// memory for an entry comes before the error of a later piece.
///
/// <!-- quoted: crates/goblin_uses/src/names.rt -->
/// ```
/// let mut view = Looked::new(bytes);
/// let entries = walk(alloc, &mut view, 0, ParseMode::Strict)?;
/// let count = entries.len();
/// ```
pub fn walk<'a>(
    alloc: Global,
    view: &mut Looked<'a>,
    delim: u8,
    mode: ParseMode,
) -> Result<Entries<'a>>
    ensures given { Gives (λ entries. entries) result (walked mode view.old.bytes delim) }
    ensures unchanged { view.new.bytes ≡ view.old.bytes }
    ensures looks { view.new.count ≤ view.old.count + 5 * length view.old.bytes }
    ensures looks_ascii { IsAscii view.old.bytes → view.new.count ≤ view.old.count + length view.old.bytes }
    ensures rising { view.old.count ≤ view.new.count }
    ensures looks_least { let least = length view.old.bytes in
        IfOk result (λ _. CountsAtLeast view.old.count least view.new.count) }

    // Before a piece is refused, at least as many looks are taken as bytes come before its end.
    ensures looks_least_refused { let bad = first_bad view.old.bytes delim in
        let least = piece_end view.old.bytes delim bad in
        IfErr result (λ e. refusal_of e ≢ out_of_memory → CountsAtLeast view.old.count least view.new.count) }

    // The first piece is looked at and tested before anything is allocated.
    ensures looks_first { let least = piece_end view.old.bytes delim 0 in
        CountsAtLeast view.old.count least view.new.count }
    ensures first { RefusesFirst mode view.old.bytes delim result }
    ensures none { (view.old.bytes ≡ []) → IsOk result }
{
    let mut places = Vec::new(alloc);
    let mut marks = Marks::default();
    let mut i = 0;
    while i < view.len() {
        let (end, is_ascii) = next_end(view, &mut marks, delim, i);
        if is_text(view, i, end, is_ascii) {
            places.push(i)?;
            i = end + 1;
        } else if mode.is_permissive() {
            i = walk_damaged(view, delim, i, end, &mut places)?;
        } else {
            return Err(invalid_utf8(view.len() - i));
        }
    }
    Ok(view.entries(places, i))
}

// Adds the entries of a piece that isn't UTF-8 from its start on. Returns where the walk goes on: at the piece's
// end, or after its delimiter.
//
// `scan` reads from `i` on and stops at a byte that may not come there. Then no rest of the piece that begins
// before `next` is UTF-8: these are entries with an empty text, and the next attempt begins at `next`.
//
//     from             i                next              end
//     | empty entries  | empty entries  | not yet read .. | delimiter
//
// So each byte is looked at by at most two attempts.
fn walk_damaged(
    view: &mut Looked<'_>,
    delim: u8,
    from: usize,
    end: usize,
    places: &mut Vec<usize>,
) -> result::Result<usize, AllocError>
    requires piece { end ≡ piece_end view.old.bytes delim from }
    requires within { end ≤ length view.old.bytes }
    requires ordered { from ≤ end }
    requires bound { end < usize.MAX }
    requires before { IsWalkedTo view.old.bytes delim places.old.items from }
    ensures ok { IfOk result (IsWalkedTo view.old.bytes delim places.new.items) }
    ensures ordered { IfOk result (λ next. end ≤ next) }
    ensures within { IfOk result (λ next. next ≤ end + 1) }
    ensures unchanged { view.new.bytes ≡ view.old.bytes }
    ensures looks { view.new.count ≤ view.old.count + 2 * (end - from) }
    ensures rising { view.old.count ≤ view.new.count }
    ensures looks_least { IfOk result (λ _. CountsAtLeast view.old.count (end - from) view.new.count) }
{
    let mut i = from;
    while i < end {
        match scan(view, delim, i) {
            Found::Whole(end) => {
                places.push(i)?;
                return Ok(end + 1);
            }
            Found::Fault(next) => {
                for place in i..next {
                    places.push(place)?;
                }
                i = next;
            }
        }
    }
    Ok(i)
}

/// The result of reading a piece as UTF-8 from an offset on.
enum Found {
    /// The piece is UTF-8. It ends at this offset.
    Whole(usize),
    /// The piece isn't UTF-8, and neither is any rest of it that begins before this offset.
    Fault(usize),
}

// Reads from an offset on, up to the end of its piece or to a byte that may not come there.
fn scan(view: &mut Looked<'_>, delim: u8, from: usize) -> Found
    requires { from < length view.old.bytes }
    ensures value { IsScan view.old.bytes delim from result }
    ensures unchanged { view.new.bytes ≡ view.old.bytes }
    ensures looks { view.new.count ≤ view.old.count + looks_of from result }
    ensures rising { view.old.count ≤ view.new.count }
    ensures looks_least { CountsAtLeast view.old.count (found_end result - from) view.new.count }
{
    let mut at = from;
    let mut awaited = Awaited::first();
    while at < view.len() {
        let byte = view.at(at);
        if byte == delim {
            return ended(awaited, at);
        }
        match awaited.after(byte) {
            Some(next) => awaited = next,
            None => return Found::Fault(at.max(from + 1)),
        }
        at += 1;
    }
    ended(awaited, at)
}

// Returns the result of an attempt that reaches the end of its piece.
fn ended(awaited: Awaited, at: usize) -> Found
    ensures { result ≡ scan_end awaited at }
{
    if awaited.is_whole() {
        Found::Whole(at)
    } else {
        Found::Fault(at)
    }
}

// Returns how many of the last `left` bytes stand before the first that is marked.
#[inline(always)]
fn next_marked(mask: u64, left: usize) -> usize
    requires { left ≤ LANES }
    ensures { result ≡ lowest_set (mask / 2 ^ (LANES - left)) left }
{
    lowest_set(mask >> (LANES - left), left)
}

/// Returns where the piece at an offset ends, and whether its bytes are ASCII.
///
/// The marks are those of the bytes read last, so each byte is read once, whether its piece is short or long.
#[inline(always)]
pub(crate) fn next_end(
    view: &mut Looked<'_>,
    marks: &mut Marks,
    delim: u8,
    from: usize,
) -> (usize, bool)
    requires within { from ≤ length view.old.bytes }
    requires near { marks.old.until ≤ from + 16 }
    requires marked { HaveMarks view.old.bytes delim marks.old }
    ensures value { result.0 ≡ piece_end view.old.bytes delim from }
    ensures ordered { from ≤ result.0 }
    ensures within { result.0 ≤ length view.old.bytes }
    ensures ascii { IsTrue result.1 ↔ AreAscii view.old.bytes from result.0 }
    ensures near { marks.new.until ≤ result.0 + 16 }
    ensures grows { marks.old.until ≤ marks.new.until }
    ensures marked { HaveMarks view.old.bytes delim marks.new }
    ensures unchanged { view.new.bytes ≡ view.old.bytes }
    ensures looks { let past = min (result.0 + 1) (length view.old.bytes) in
        view.new.count ≤ view.old.count + (max marks.new.until past - max marks.old.until from) }
    ensures rising { view.old.count ≤ view.new.count }
    ensures looks_least { let past = min (result.0 + 1) (length view.old.bytes) in
        let least = max marks.new.until past - max marks.old.until from in
        CountsAtLeast view.old.count least view.new.count }
{
    let mut at = from;
    let mut is_ascii = true;
    if at < marks.until {
        let left = marks.until - at;
        let len = next_marked(marks.delims, left);
        is_ascii = len <= next_marked(marks.highs, left);
        if len < left {
            return (at + len, is_ascii);
        }
        at = marks.until;
    }
    while LANES <= view.len() - at {
        *marks = view.marks(at, delim);
        let len = next_marked(marks.delims, LANES);
        is_ascii &= len <= next_marked(marks.highs, LANES);
        if len < LANES {
            return (at + len, is_ascii);
        }
        at += LANES;
    }
    let (end, is_rest_ascii) = end_by_bytes(view, delim, at);
    (end, is_ascii & is_rest_ascii)
}

// Returns the same of a piece that ends among the last bytes, which are read one by one.
fn end_by_bytes(view: &mut Looked<'_>, delim: u8, from: usize) -> (usize, bool)
    requires { from ≤ length view.old.bytes }
    ensures value { result.0 ≡ piece_end view.old.bytes delim from }
    ensures ordered { from ≤ result.0 }
    ensures within { result.0 ≤ length view.old.bytes }
    ensures ascii { IsTrue result.1 ↔ AreAscii view.old.bytes from result.0 }
    ensures unchanged { view.new.bytes ≡ view.old.bytes }
    ensures looks { view.new.count ≤ view.old.count + (min (result.0 + 1) (length view.old.bytes) - from) }
    ensures rising { view.old.count ≤ view.new.count }
    ensures looks_least { let least = min (result.0 + 1) (length view.old.bytes) - from in
        CountsAtLeast view.old.count least view.new.count }
{
    let mut end = from;
    let mut is_ascii = true;
    while end < view.len() {
        let byte = view.at(end);
        if byte == delim {
            return (end, is_ascii);
        }
        is_ascii &= byte < 0x80;
        end += 1;
    }
    (end, is_ascii)
}

/// Reports whether a piece is text. One that is ASCII isn't looked at again.
pub(crate) fn is_text(view: &mut Looked<'_>, from: usize, to: usize, is_ascii: bool) -> bool
    requires ordered { from ≤ to }
    requires within { to ≤ length view.old.bytes }
    requires ascii { IsTrue is_ascii → AreAscii view.old.bytes from to }
    ensures value { IsTrue result ↔ IsUtf8 (slice_range view.old.bytes from to) }
    ensures unchanged { view.new.bytes ≡ view.old.bytes }
    ensures looks { view.new.count ≤ view.old.count + (to - from) }
    ensures looks_ascii { IsTrue is_ascii → view.new.count ≤ view.old.count }
    ensures rising { view.old.count ≤ view.new.count }
{
    is_ascii || view.text(from, to)
}
