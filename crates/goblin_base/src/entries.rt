//! Bytes that are read under a count, and the entries of a string table that are stored as places in them.
//!
//! The views here have private fields and can't be copied, and no public call of theirs returns more than it counts. So
//! code that reads through them can't read uncounted. ([`CountedBytes`](crate::counted_bytes::CountedBytes) also
//! returns texts, which can.)
ghost use Rattle.std.specs.Prelude.{◌≡◌, ◌↔◌, ◌+◌, ◌-◌, ◌<◌, ◌≤◌, [], min, length, IsTrue, slice_index, slice_index_or, slice_range};
ghost use Rattle.goblin_base.specs.Common.{IsUtf8};
ghost use Rattle.goblin_base.specs.Entries.{AreTexts, IsText, entries_between, places_of, text_of};
ghost use Rattle.goblin_base.specs.Marks.{AreMarks};
ghost use Rattle.goblin_base.specs.Search.{IsRising};

use crate::count::Count;
use crate::marks::{LANES, Marks};
use std::fmt;
use std::marker::Model;

/// Bytes that can be looked at only under a count of the bytes looked at.
#[derive(Drop)]
pub struct Looked<'a> {
    bytes: &'a [u8],
    count: Count,
}

// It is seen as its bytes and the count.
impl<'a> Model for Looked<'a> {
    ghost use Rattle.goblin_base.specs.Entries.{Seen};

    ghost Value = { Seen };

    ghost view = { λ seen. record { bytes = seen.bytes.now; count = seen.count } };
}

impl<'a> Looked<'a> {
    /// The bytes, none of which has been looked at.
    pub fn new(bytes: &'a [u8]) -> Looked<'a>
        ensures { result ≡ record { bytes = bytes.now; count = 0 } }
    {
        Looked {
            bytes,
            count: Count::none(),
        }
    }

    /// How many bytes there are.
    pub fn len(&self) -> usize
        ensures value { result ≡ length self.now.bytes }
        ensures bound { result < usize.MAX }
    {
        self.bytes.len()
    }

    /// The byte at a place. It is one look.
    pub fn at(&mut self, i: usize) -> u8
        requires { i < length self.old.bytes }
        ensures value { result ≡ slice_index self.old.bytes i }
        ensures counted { self.new ≡ record self.old { count = min (self.old.count + 1) u128.MAX } }
        ensures unchanged { self.new.bytes ≡ self.old.bytes }
        ensures rising { self.old.count ≤ self.new.count }
    {
        self.count.add(1);
        self.bytes[i]
    }

    /// Reads the marks of the sixteen bytes from an offset on. It is a look at each of them.
    pub(crate) fn marks(&mut self, at: usize, delim: u8) -> Marks
        requires { at + 16 ≤ length self.old.bytes }
        ensures until { result.until ≡ at + 16 }
        ensures marked { AreMarks self.old.bytes delim result }
        ensures counted { self.new ≡ record self.old { count = min (self.old.count + 16) u128.MAX } }
        ensures unchanged { self.new.bytes ≡ self.old.bytes }
        ensures rising { self.old.count ≤ self.new.count }
    {
        self.count.add(LANES as u64);
        Marks::of(&self.bytes[at..at + LANES], at + LANES, delim)
    }

    /// Whether the bytes from one place up to another are text. It is a look at each of them.
    pub fn text(&mut self, from: usize, to: usize) -> bool
        requires ordered { from ≤ to }
        requires within { to ≤ length self.old.bytes }
        ensures value { IsTrue result ↔ IsUtf8 (slice_range self.old.bytes from to) }
        ensures counted { self.new ≡ record self.old { count = min (self.old.count + (to - from)) u128.MAX } }
        ensures unchanged { self.new.bytes ≡ self.old.bytes }
        ensures rising { self.old.count ≤ self.new.count }
    {
        self.count.add((to - from) as u64);
        std::str::from_utf8(&self.bytes[from..to]).is_ok()
    }

    // The entries at these places over the bytes, the last of which ends one before the closing place.
    pub(crate) fn entries(&self, places: Vec<usize>, closing: usize) -> Entries<'a>
        requires { AreTexts self.now.bytes places.items closing }
        ensures { result ≡ entries_between self.now.bytes places.items closing }
    {
        Entries {
            bytes: self.bytes,
            places,
            closing,
        }
    }

    /// How many looks were taken, up to the greatest number.
    pub fn count(&self) -> u128
        ensures { result ≡ self.now.count }
    {
        self.count.value()
    }
}

/// How many bytes there are and how many looks were taken: the bytes themselves would be uncounted looks.
impl fmt::Debug for Looked<'_> {
    fn fmt<W: fmt::Write>(&self, f: &mut fmt::Formatter<W>) -> fmt::Result {
        f.debug_struct("Looked")
            .field("len", &self.len())
            .field("count", &self.count())
            .finish()
    }
}

/// The entries of a string table: each a place and a text.
///
/// Only the places are stored. A text is read from the bytes when it is asked for, and ends one byte before the
/// next place.
#[derive(Drop)]
pub struct Entries<'a> {
    bytes: &'a [u8],
    places: Vec<usize>,
    closing: usize,
}

// They are seen as the list of places and texts.
impl<'a> Model for Entries<'a> {
    ghost use Rattle.std.specs.Prelude.{List, ℕ};
    ghost use Rattle.goblin_base.specs.Entries.{AreTexts, entries_between};

    ghost Value = { List (ℕ × List ℕ) };

    ghost view = { λ e. entries_between e.bytes.now e.places.items e.closing };

    ghost invariant = { λ e. AreTexts e.bytes.now e.places.items e.closing };
}

#[tactic(auto, using(crate::proofs::EntriesLemmas::between))]
impl<'a> Entries<'a> {
    /// How many entries there are.
    pub fn len(&self) -> usize
        ensures value { result ≡ length self.now }
        ensures bound { result < usize.MAX }
    {
        self.places.len()
    }

    /// Whether there are none.
    pub fn is_empty(&self) -> bool
        ensures { IsTrue result ↔ (self.now ≡ []) }
    {
        self.places.is_empty()
    }

    /// The text of an entry.
    pub fn text(&self, i: usize) -> &'a str
        requires { i < length self.now }
        ensures { result.now ≡ text_of (slice_index_or self.now i (0, [])) }
    {
        let (from, next) = ends(&self.places, self.closing, i);
        text_before(self.bytes, from, next)
    }
}

/// How many entries there are: their texts would be uncounted looks.
impl fmt::Debug for Entries<'_> {
    fn fmt<W: fmt::Write>(&self, f: &mut fmt::Formatter<W>) -> fmt::Result {
        f.debug_struct("Entries").field("len", &self.len()).finish()
    }
}

// Where an entry begins, and where the next one does.
fn ends(places: &[usize], closing: usize, i: usize) -> (usize, usize)
    requires { i < length places.now }
    ensures from { result.0 ≡ slice_index places.now i }
    ensures next { result.1 ≡ slice_index_or places.now (i + 1) closing }
{
    let next = if i + 1 < places.len() {
        places[i + 1]
    } else {
        closing
    };
    (places[i], next)
}

// The text from a place up to one before the next entry's.
#[tactic(auto, using(crate::proofs::TextTests::utf8_tests))]
fn text_before(bytes: &[u8], from: usize, next: usize) -> &str
    requires { IsText bytes.now from next }
    ensures { result.now ≡ slice_range bytes.now from (next - 1) }
{
    unsafe { std::str::from_utf8_unchecked(&bytes[from..next - 1]) }
}

/// The places of entries, which can be read only under a count of the places read.
#[derive(Drop)]
pub struct Probes<'e> {
    entries: &'e Entries<'e>,
    count: u64,
}

// They are seen as the list of places and the count. The places rise.
impl<'e> Model for Probes<'e> {
    ghost use Rattle.goblin_base.specs.Entries.{Probed, places_of};
    ghost use Rattle.goblin_base.specs.Search.{IsRising};

    ghost Value = { Probed };

    ghost view = { λ p. record { places = places_of p.entries.now; count = p.count } };

    ghost invariant = { λ p. IsRising (places_of p.entries.now) };
}

#[tactic(auto, using(crate::proofs::EntriesLemmas::between))]
impl<'e> Probes<'e> {
    /// The places of these entries, none of which has been read.
    pub fn of(entries: &'e Entries<'e>) -> Probes<'e>
        ensures { result ≡ record { places = places_of entries.now; count = 0 } }
    {
        // (what the entries' invariant says of their places is known where they are read)
        let _places = &entries.places;
        Probes { entries, count: 0 }
    }

    /// How many places there are.
    pub fn len(&self) -> usize
        ensures value { result ≡ length self.now.places }
        ensures bound { result < usize.MAX }
        ensures rising { IsRising self.now.places }
    {
        self.entries.len()
    }

    /// The place of an entry. It is one probe.
    pub fn at(&mut self, i: usize) -> usize
        requires { i < length self.old.places }
        ensures value { result ≡ slice_index self.old.places i }
        ensures counted { self.new ≡ record self.old { count = min (self.old.count + 1) u64.MAX } }
        ensures unchanged { self.new.places ≡ self.old.places }
        ensures rising { self.old.count ≤ self.new.count }
    {
        self.count = self.count.saturating_add(1);
        let entries: &Entries<'e> = self.entries;
        entries.places[i]
    }

    /// How many probes were taken, up to the greatest number.
    pub fn count(&self) -> u64
        ensures { result ≡ self.now.count }
    {
        self.count
    }
}

/// How many places there are and how many probes were taken: the places themselves would be uncounted probes.
impl fmt::Debug for Probes<'_> {
    fn fmt<W: fmt::Write>(&self, f: &mut fmt::Formatter<W>) -> fmt::Result {
        f.debug_struct("Probes")
            .field("len", &self.len())
            .field("count", &self.count())
            .finish()
    }
}
