//! The names of a file's symbols, read with a count of the bytes and stored offsets that are read.
ghost use Rattle.std.specs.Prelude.{⊤, [], ◌==◌, ◌≡◌, ◌≢◌, ◌≤◌, ◌<◌, ◌+◌, ◌++◌, All, EachIndex, IfOk, IfSome, IsTrue, MatchOption, OnOk, Some, codes, decimal, length, slice_get, slice_index, string_bytes};
ghost use Rattle.std.specs.List.{list_any};
ghost use Rattle.goblin.specs.Texts.{◌&◌};
ghost use Rattle.goblin_base.specs.Entries.{places_of};
ghost use Rattle.goblin_base.specs.Search.{digits};
ghost use Rattle.goblin_base.specs.Strtab.{RefusesFirst, walked};

use goblin::error::Result;
use goblin::options::ParseMode;
use goblin::strtab::Strtab;
use goblin_base::entries::{Entries, Looked, Probes};
use goblin_base::find::find;
use goblin_base::walk::walk;
use std::alloc::{AllocError, Global};

/// Returns the offset of the last zero byte, which closes the last name.
pub fn last_zero(bytes: &[u8]) -> Option<usize>
    ensures zero { IfSome result (λ i. slice_get bytes.now i ≡ Some 0) }
    ensures last { IfSome result (λ i. EachIndex bytes.now (λ k. i < k → slice_index bytes.now k ≢ 0)) }
    ensures none { MatchOption result (All (λ byte. byte ≢ 0) bytes.now) (λ _. ⊤) }
{
    bytes.iter().rposition(|byte| *byte == 0)
}

/// Returns the length of the longest name in bytes, or `None` if there are no names.
pub fn longest(names: &[&str]) -> Option<usize>
    ensures greatest { MatchOption result (names.now ≡ [])
        (λ longest. All (λ name. length name.now ≤ longest) names.now) }
    ensures among { IfSome result (λ longest. IsTrue (list_any (λ name. length name.now == longest) names.now)) }
{
    names.iter().map(|name| name.len()).max()
}

/// Returns the number of stored offsets that the search for an offset reads: the number of binary
/// digits of their count, or one fewer. No clause says which of the two, nor that the search was
/// for this offset.
pub fn probes_of(entries: &Entries<'_>, offset: usize) -> u64
    ensures most { result ≤ digits (length (places_of entries.now)) }
    ensures least { digits (length (places_of entries.now) + 1) ≤ result + 1 }
{
    let mut probes = Probes::of(entries);
    let _ = find(&mut probes, offset);
    probes.count()
}

// Returns the number of names in these bytes, and the number of stored offsets that the search for
// one reads.
fn count_names(alloc: Global, bytes: &[u8], offset: usize) -> Result<(usize, u64)>
    ensures count { IfOk result (λ r. IfOk (walked ParseMode.Strict bytes.now 0) (λ entries. r.0 ≡ length entries)) }
    ensures most { IfOk result (λ r. r.1 ≤ digits r.0) }
    ensures least { IfOk result (λ r. digits (r.0 + 1) ≤ r.1 + 1) }
    ensures first { RefusesFirst ParseMode.Strict bytes.now 0 result }
{
    let mut view = Looked::new(bytes);
    let entries = walk(alloc, &mut view, 0, ParseMode::Strict)?;
    let count = entries.len();
    Ok((count, probes_of(&entries, offset)))
}

// Adds the line with the number of names.
fn push_line(
    text: &mut String,
    count: usize,
    longest: usize,
    probes: u64,
) -> std::result::Result<(), AllocError>
    ensures { OnOk result (string_bytes text.new ≡ string_bytes text.old ++ (decimal count
        & codes " names, the longest of " & decimal longest
        & codes " bytes, " & decimal probes & codes " probes to find one\n")) }
{
    write!(
        text,
        "{count} names, the longest of {longest} bytes, {probes} probes to find one\n"
    )
}

/// Adds a line on the names in these bytes, and on the search for the one at an offset.
///
/// # Errors
///
/// The error of bytes that aren't UTF-8, else out of memory.
pub fn push_names(alloc: Global, text: &mut String, bytes: &[u8], offset: usize) -> Result<()>
    ensures first { RefusesFirst ParseMode.Strict bytes.now 0 result }
{
    let (count, probes) = count_names(alloc, bytes, offset)?;
    let names = Strtab::new_preparsed(alloc, bytes, 0)?.to_vec(alloc)?;
    push_line(text, count, longest(names.as_slice()).unwrap_or(0), probes)?;
    if let Some(end) = last_zero(bytes) {
        write!(text, "the last name ends at byte {end}\n")?;
    }
    Ok(())
}
