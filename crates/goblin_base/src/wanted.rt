//! Names and texts that are searched for among strings, which are compared where they stand.
ghost use Rattle.std.specs.Prelude.{◌≡◌, ◌≤◌, ◌||◌, ◌==◌, length, nat_le, slice_index};
ghost use Rattle.goblin_base.specs.Strtab.{has_name};
ghost use Rattle.goblin_base.specs.Wanted.{can_be_string, is_piece, stands_at, starts_piece};

use crate::alike::begins_apart;
use std::marker::Model;

/// A name to search for, given as bytes. It is tested once: no string is equal to a name that isn't UTF-8 or
/// that contains the delimiter.
///
/// <!-- quoted: crates/goblin/src/elf/sym.rt -->
/// ```
/// let wanted = WantedName::new(name, delim);
/// ```
#[derive(Debug, Drop)]
pub struct WantedName<'n> {
    name: &'n [u8],
    delim: u8,
    is_possible: bool,
}

// In contracts it is the name and the delimiter.
impl<'n> Model for WantedName<'n> {
    ghost use Rattle.std.specs.Prelude.{◌≡◌};
    ghost use Rattle.goblin_base.specs.Wanted.{Name, can_be_string};

    ghost Value = { Name };

    ghost view = { λ w. record { bytes = w.name.now; delim = w.delim } };

    ghost invariant = { λ w. w.is_possible ≡ can_be_string w.delim w.name.now };
}

impl<'n> WantedName<'n> {
    /// Makes a search for a name among strings that a delimiter cuts.
    pub fn new(name: &'n [u8], delim: u8) -> Self
        ensures { result ≡ record { bytes = name.now; delim = delim } }
    {
        WantedName {
            name,
            delim,
            is_possible: can_be_string(delim, name),
        }
    }

    /// Reports whether the piece at an offset of these strings is the name, as
    /// [`Strtab::has_name`](crate::strtab::Strtab::has_name) does for their table. The name is read only to compare it.
    #[tactic(auto, using(crate::proofs::WantedLemmas::name_is_standing))]
    pub fn is_at(&self, strings: &[u8], offset: usize) -> bool
        ensures { result ≡ has_name strings.now self.now.delim offset self.now.bytes }
    {
        self.is_possible
            && offset < strings.len()
            && stands_at(strings, self.delim, offset, self.name)
    }
}

// Reports whether a string can have these bytes.
#[tactic(auto, using(crate::proofs::TextTests::utf8_tests), unfolding(crate::specs::Wanted::can_be_string))]
pub(crate) fn can_be_string(delim: u8, name: &[u8]) -> bool
    ensures { result ≡ can_be_string delim name.now }
{
    std::str::from_utf8(name).is_ok() && !name.contains(&delim)
}

// Reports whether the bytes at an offset begin with the name, and the delimiter or the end comes after it.
#[tactic(auto, unfolding(crate::specs::Wanted::stands_at))]
pub(crate) fn stands_at(bytes: &[u8], delim: u8, offset: usize, name: &[u8]) -> bool
    requires { offset ≤ length bytes.now }
    ensures { result ≡ stands_at bytes.now delim offset name.now }
{
    let rest = &bytes[offset..];
    match rest.get(name.len()) {
        Some(end) => *end == delim && &rest[..name.len()] == name,
        None => rest == name,
    }
}

// Reports whether the delimiter, or the end of the bytes, comes after that many of them.
#[inline(always)]
fn is_closed_after(bytes: &[u8], delim: u8, len: usize) -> bool
    ensures { result ≡ (nat_le (length bytes.now) len || (slice_index bytes.now len == delim)) }
{
    match bytes.get(len) {
        Some(end) => *end == delim,
        None => true,
    }
}

/// Reports whether the piece at an offset of bytes that a delimiter cuts into strings is this text, UTF-8 or not. It
/// is not if the text contains the delimiter, or if the offset is not below the number of bytes.
///
/// It reads at most one byte more of the piece than the text has.
#[tactic(auto, using(crate::proofs::WantedLemmas::piece_is_standing, crate::proofs::Common::take_rest))]
pub fn is_piece(bytes: &[u8], delim: u8, offset: usize, text: &[u8]) -> bool
    ensures { result ≡ is_piece bytes.now delim offset text.now }
{
    offset < bytes.len()
        && is_closed_after(&bytes[offset..], delim, text.len())
        && begins_apart(&bytes[offset..], delim, text)
}

/// Reports whether the piece at an offset of bytes that a delimiter cuts into strings begins with this text, UTF-8 or
/// not. It does not if the text contains the delimiter, or if the offset is not below the number of bytes.
///
/// It reads no more of the piece than the text has.
#[tactic(auto, using(crate::proofs::WantedLemmas::piece_begins, crate::proofs::Common::take_rest, crate::proofs::AlikeLemmas::first_differs))]
pub fn starts_piece(bytes: &[u8], delim: u8, offset: usize, text: &[u8]) -> bool
    ensures { result ≡ starts_piece bytes.now delim offset text.now }
{
    // (where many strings begin with another byte, this takes a fraction of the time of comparing them)
    if offset >= bytes.len() || !text.is_empty() && text[0] != bytes[offset] {
        return false;
    }
    begins_apart(&bytes[offset..], delim, text)
}
