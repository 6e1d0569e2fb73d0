//! Reading a file's bytes for names. Each function here takes its looks from the view that counts them.
ghost use Rattle.std.specs.Prelude.{◌≡◌, ◌+◌, ◌-◌, ◌*◌, ◌<◌, ◌≤◌, ◌↔◌, IfErr, IsTrue, OnOk, [], length, min, slice_range, if◌then◌else◌};
ghost use Rattle.goblin_text.specs.Common.{IsUtf8, is_utf8, Returns, table_of, CountsAtLeast, Reads};
ghost use Rattle.std.specs.Str.Lossy.{utf8_valid_len};
ghost use Rattle.goblin.specs.Pieces.{first_bad, piece_start};
ghost use Rattle.goblin_text.specs.StringRanges.{text_table};
ghost use Rattle.goblin_text.specs.BlockRuns.{EndsAt, IsTextUpTo, after_continuation, char_start, up_to_zero};

use goblin::error::Result;
use goblin::options::ParseMode;
use goblin_base::counted_bytes::CountedBytes;
use goblin_base::utf8::invalid_utf8;

/// Returns the place after a continuation byte, or the same place. It is one look.
#[tactic(auto, using(crate::proofs::ByteRanges::reads), unfolding(crate::specs::BlockRuns::after_continuation))]
pub fn after_continuation(view: &mut CountedBytes<'_>, from: usize) -> usize
    requires { from ≤ length view.old.bytes }
    ensures value { result ≡ after_continuation view.old.bytes from }
    ensures within { result ≤ length view.old.bytes }
    ensures ordered { from ≤ result }
    ensures bound { result ≤ from + 1 }
    ensures reading { Reads view.old view.new 1 1 }
{
    let b = view.get(from).unwrap_or(0);
    if from < view.len() && (0x80..0xC0).contains(&b) {
        from + 1
    } else {
        from
    }
}

/// Returns where the characters from a place on begin: after up to three continuation bytes. It is three
/// looks.
#[tactic(auto, unfolding(crate::specs::BlockRuns::char_start))]
pub fn char_start(view: &mut CountedBytes<'_>, place: usize) -> usize
    requires { place ≤ length view.old.bytes }
    ensures value { result ≡ char_start view.old.bytes place }
    ensures within { result ≤ length view.old.bytes }
    ensures ordered { place ≤ result }
    ensures bound { result ≤ place + 3 }
    ensures reading { Reads view.old view.new 3 3 }
{
    let second = after_continuation(view, place);
    let third = after_continuation(view, second);
    after_continuation(view, third)
}

/// Returns where the string from one place on ends, up to another: at a zero byte, or there. It is a look at each byte
/// up to the zero byte.
#[tactic(auto, using(crate::proofs::Strings::string_found))]
pub fn end_of_string(view: &mut CountedBytes<'_>, from: usize, to: usize) -> usize
    requires ordered { from ≤ to }
    requires within { to ≤ length view.old.bytes }
    ensures value { slice_range view.old.bytes from result ≡ up_to_zero (slice_range view.old.bytes from to) }
    ensures ordered { from ≤ result }
    ensures bound { result ≤ to }
    ensures reading { let looks = min (result + 1) to - from in Reads view.old view.new looks looks }
{
    view.find(0, from, to)
}

/// Reports whether the bytes from one place up to another are text. It is a look at each of them.
pub fn is_text(view: &mut CountedBytes<'_>, from: usize, to: usize) -> bool
    requires ordered { from ≤ to }
    requires within { to ≤ length view.old.bytes }
    ensures value { IsTrue result ↔ IsUtf8 (slice_range view.old.bytes from to) }
    ensures reading { Reads view.old view.new (to - from) (to - from) }
{
    view.str(from, to).is_ok()
}

/// Returns the bytes from one place up to another as a text, or an empty one if they are not UTF-8. It is a look at
/// each of them.
pub fn text<'a>(view: &mut CountedBytes<'a>, from: usize, to: usize) -> &'a str
    requires ordered { from ≤ to }
    requires within { to ≤ length view.old.bytes }
    ensures value { let bytes = slice_range view.old.bytes from to in
        result.now ≡ (if is_utf8 bytes then bytes else []) }
    ensures bound { length result.now ≤ to - from }
    ensures reading { Reads view.old view.new (to - from) (to - from) }
{
    match view.str(from, to) {
        Ok(text) => text,
        Err(_) => "",
    }
}

/// Refuses the string table of the bytes from one place up to another, unless it is UTF-8. The first whole piece that
/// is not UTF-8 is the one around the first fault: no others are looked for. It is at most two looks at each byte.
#[tactic(auto, using(crate::proofs::Faults::table_taken))]
pub fn refuse_unless_text(view: &mut CountedBytes<'_>, from: usize, to: usize) -> Result<()>
    requires ordered { from ≤ to }
    requires within { to ≤ length view.old.bytes }
    ensures given { let bytes = slice_range view.old.bytes from to in
        Returns (λ _. text_table bytes) result (table_of ParseMode.Strict bytes 0) }
    ensures ok { OnOk result (IsUtf8 (slice_range view.old.bytes from to)) }
    ensures reading { Reads view.old view.new (to - from) (2 * (to - from)) }
    ensures looks_least_refused { let bytes = slice_range view.old.bytes from to in
        let searched = utf8_valid_len bytes - first_bad bytes 0 in
        IfErr result (λ _. CountsAtLeast view.old.count (to - from + searched) view.new.count) }
{
    match view.str(from, to) {
        Ok(_) => Ok(()),
        Err(fault) => {
            let place = from + fault.valid_up_to();
            let start = start_of_last_string(view, from, place);
            Err(invalid_utf8(to - start))
        }
    }
}

/// Returns where the string from one place on ends, up to another, or `None` if it is not UTF-8. It is at most two
/// looks at each byte up to the zero byte.
pub fn end_of_text(view: &mut CountedBytes<'_>, from: usize, to: usize) -> Option<usize>
    requires ordered { from ≤ to }
    requires within { to ≤ length view.old.bytes }
    ensures end { EndsAt view.old.bytes from to result }
    ensures text { IsTextUpTo view.old.bytes from result }
    ensures reading { Reads view.old view.new 0 (2 * (to - from)) }
{
    let stop = end_of_string(view, from, to);
    if !is_text(view, from, stop) {
        return None;
    }
    Some(stop)
}

// Returns where the last string of a range begins: after its last zero byte, or where the range does.
fn start_of_last_string(view: &mut CountedBytes<'_>, from: usize, to: usize) -> usize
    requires ordered { from ≤ to }
    requires within { to ≤ length view.old.bytes }
    ensures value { let bytes = slice_range view.old.bytes from to in result ≡ from + piece_start bytes 0 (to - from) }
    ensures ordered { from ≤ result }
    ensures bound { result ≤ to }
    ensures reading { Reads view.old view.new (to - result) (to - from) }
{
    view.rfind(0, from, to)
}
