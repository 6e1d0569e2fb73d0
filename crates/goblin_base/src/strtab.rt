//! String tables, which are indexed by byte offsets: System V gABI, "String Table".
ghost use Rattle.std.specs.Prelude.{◌≡◌, ◌+◌, ◌<◌, ◌≤◌, ◌↔◌, [], false, drop, length, map, nat_lt, position};
ghost use Rattle.std.specs.Prelude.{◌==◌, if◌then◌else◌, Some, None, Ok, IfErr, IfOk, IfSome, IsNone, IsOk};
ghost use Rattle.std.specs.Prelude.{List, ℕ, MatchOption, EachIndex, alloc_error, min, slice_index, slice_range};
ghost use Rattle.std.specs.Option.{option_map};
ghost use Rattle.goblin_base.specs.Common.{IsCharBoundary, Returns, Gives};
ghost use Rattle.goblin_base.specs.Entries.{text_of};
ghost use Rattle.goblin_base.specs.Pieces.{piece};
ghost use Rattle.goblin_base.specs.Search.{IsLastUpTo, digits};
ghost use Rattle.goblin_base.specs.Strtab.{RefusesFirst, has_name, look_up, plain, range_in, strings_of, strtab_of};
ghost use Rattle.goblin_base.specs.Strtab.{table_of};
ghost use Rattle.goblin_base.specs.Wanted.{can_be_string, stands_at};
ghost use Rattle.goblin_base.specs.StrtabLaws.{ClosedForm, DependsOnRange, DigitsCount, JoinsAgain, LookUpHasPlain};
ghost use Rattle.goblin_base.specs.StrtabLaws.{PermissiveAccepts, StrictIsPermissive, StrictLookUpIsPlain, TextIsUtf8};
ghost use Rattle.goblin_base.specs.StrtabLaws.{NamesArePlain, TextIsTaken, StringsJoin, NamesAreRead};
ghost use Rattle.goblin_base.specs.StrtabLaws.{PiecesAreCompared, PiecesBegin, RangesRefused};

use crate::ascii::{ascii_piece, len_before, short_len_before};
use crate::entries::{Entries, Looked, Probes};
use crate::error::{Error, Result};
use crate::find::find;
use crate::options::{ParseMode, ParseOptions};
pub use crate::range::{bytes_in_range, range_of};
use crate::utf8::read_text;
use crate::walk::walk;
use crate::wanted::{can_be_string, stands_at};
pub use crate::wanted::{WantedName, is_piece, starts_piece};
use std::alloc::Global;
use std::marker::Model;

/// A string table: bytes that a delimiter cuts into strings. A string is found by its byte offset.
///
/// A parsed table also stores the offsets of its entries.
#[derive(Debug, Drop)]
pub struct Strtab<'a> {
    delim: u8,
    bytes: &'a [u8],
    entries: Option<Entries<'a>>,
}

// In contracts a string table is its bytes, its delimiter and whether it was parsed. Its entries follow from
// these.
impl<'a> Model for Strtab<'a> {
    ghost use Rattle.std.specs.Prelude.{◌≡◌, IfSome};
    ghost use Rattle.std.specs.Option.{is_some};
    ghost use Rattle.goblin_base.specs.Pieces.{entries as entries_of};
    ghost use Rattle.goblin_base.specs.Strtab.{StringTable};

    ghost Value = { StringTable };

    ghost view = { λ t. record { bytes = t.bytes.now; delim = t.delim; is_parsed = is_some t.entries } };

    ghost invariant = { λ t. IfSome t.entries (λ es. es ≡ entries_of t.bytes.now t.delim) };
}

// Returns the piece at an offset, or `BadInput` if it isn't UTF-8.
#[tactic(auto, using(crate::proofs::StrtabLemmas::rests), unfolding(crate::specs::Pieces::piece))]
fn get_str(offset: usize, bytes: &[u8], delim: u8) -> Result<&str>
    requires { offset ≤ length bytes.now }
    ensures { Returns (λ text. text.now) result (plain bytes.now delim offset) }
{
    let rest = &bytes[offset..];
    if let Some(text) = ascii_piece(rest, delim) {
        return Ok(text);
    }
    let len = piece_len(bytes, offset, delim);
    read_text(&rest[..len], rest.len())
}

/// Returns the length of the piece at an offset: the number of bytes before the next delimiter, or
/// before the end if there is none. It reads sixteen bytes at a time.
#[tactic(auto, using(crate::proofs::StrtabLemmas::rests), unfolding(crate::specs::Pieces::piece))]
pub fn piece_len(bytes: &[u8], offset: usize, delim: u8) -> usize
    requires { offset ≤ length bytes.now }
    ensures { result ≡ length (piece bytes.now delim offset) }
{
    len_before(&bytes[offset..], delim)
}

/// Returns the same as [`piece_len`], for a caller that asks for many strings, most of them of up to 111 bytes.
#[inline(always)]
#[tactic(auto, using(crate::proofs::StrtabLemmas::rests), unfolding(crate::specs::Pieces::piece))]
pub fn short_piece_len(bytes: &[u8], offset: usize, delim: u8) -> usize
    requires { offset ≤ length bytes.now }
    ensures { result ≡ length (piece bytes.now delim offset) }
{
    short_len_before(&bytes[offset..], delim)
}

impl<'a> Strtab<'a> {
    /// Makes the table of all the bytes, without parsing it.
    pub fn new(bytes: &'a [u8], delim: u8) -> Self
        ensures { result ≡ record { bytes = bytes.now; delim = delim; is_parsed = false } }
    {
        Self::from_slice_unparsed(bytes, 0, bytes.len(), delim)
    }

    /// Returns the number of bytes.
    pub fn len(&self) -> usize
        ensures value { result ≡ length self.now.bytes }
        ensures bound { result < usize.MAX }
    {
        self.bytes.len()
    }

    /// Makes the table of `len` bytes from an offset on, without parsing it.
    pub fn from_slice_unparsed(bytes: &'a [u8], offset: usize, len: usize, delim: u8) -> Self
        requires { offset + len ≤ length bytes.now }
        ensures { result ≡ record {
          bytes = slice_range bytes.now offset (offset + len);
          delim = delim;
          is_parsed = false;
        } }
    {
        Strtab {
            delim,
            bytes: &bytes[offset..offset + len],
            entries: None,
        }
    }

    /// Returns the piece at an offset, or `None` from `len()` on.
    ///
    /// The piece ends before the next delimiter, or at the end of the table. It must be UTF-8, which `get` tests.
    pub fn get_unsafe(&self, offset: usize) -> Option<&'a str>
        requires { offset < length self.now.bytes → IsOk (plain self.now.bytes self.now.delim offset) }
        ensures { option_map (λ text. text.now) result ≡ (if nat_lt offset (length self.now.bytes)
            then Some (piece self.now.bytes self.now.delim offset) else None) }
    {
        if offset >= self.bytes.len() {
            None
        } else {
            Some(get_str(offset, self.bytes, self.delim).unwrap())
        }
    }

    /// Parses the table of `len` bytes of a file from an offset on, as [`Strtab::parse_with_opts`] does in strict
    /// mode. The bytes of a section are parsed by [`Strtab::new_preparsed`]:
    ///
    /// <!-- quoted: crates/goblin_uses/src/functions.rt -->
    /// ```
    /// let names = Strtab::new_preparsed(alloc, bytes_of(bytes, strings), 0)?;
    ///
    /// let name = names.get_at(function.st_name).unwrap_or("?");
    /// ```
    ///
    /// # Errors
    ///
    /// Those of [`Strtab::parse_with_opts`] in strict mode.
    pub fn parse(
        alloc: Global,
        bytes: &'a [u8],
        offset: usize,
        len: usize,
        delim: u8,
    ) -> Result<Self>
        ensures given { let expected = strtab_of ParseMode.Strict bytes.now offset len delim in
            Gives (λ table. table) result expected }
        ensures range { IfErr (range_in ParseMode.Strict bytes.now offset len)
            (λ fault. result ≡ Err (Error.Malformed fault)) }
        ensures first { IfOk (range_in ParseMode.Strict bytes.now offset len)
            (λ range. RefusesFirst ParseMode.Strict range delim result) }
        ensures none { (range_in ParseMode.Strict bytes.now offset len ≡ Ok []) → IsOk result }
    {
        Self::parse_with_opts(alloc, bytes, offset, len, delim, &ParseOptions::strict())
    }

    /// Parses the table of `len` bytes of a file from an offset on.
    ///
    /// Permissive mode cuts the range at the end of the file. If a piece isn't UTF-8, its bytes become entries
    /// with an empty text, up to the first one from which the rest of the piece is UTF-8.
    ///
    /// The range and the first piece are tested before anything is allocated. A table of no bytes allocates
    /// nothing.
    ///
    /// # Errors
    ///
    /// Strict mode fails, in this order:
    /// - with `StrtabOffset` if the offset is past the end of the file;
    /// - with `StrtabRange` if the range ends past the end of the file, or past `usize::MAX`;
    /// - with `BadInput` for the first piece that isn't UTF-8. Its size is the number of bytes from that piece
    ///   to the end of the table.
    ///
    /// Either mode fails with out of memory. Out of memory for an entry comes before the error of a later piece.
    #[tactic(auto, unfolding(crate::specs::Strtab::strtab_of))]
    pub fn parse_with_opts(
        alloc: Global,
        bytes: &'a [u8],
        offset: usize,
        len: usize,
        delim: u8,
        opts: &ParseOptions,
    ) -> Result<Self>
        ensures given { let expected = strtab_of opts.now.parse_mode bytes.now offset len delim in
            Gives (λ table. table) result expected }
        ensures range { IfErr (range_in opts.now.parse_mode bytes.now offset len)
            (λ fault. result ≡ Err (Error.Malformed fault)) }
        ensures first { IfOk (range_in opts.now.parse_mode bytes.now offset len)
            (λ range. RefusesFirst opts.now.parse_mode range delim result) }
        ensures none { (range_in opts.now.parse_mode bytes.now offset len ≡ Ok []) → IsOk result }
    {
        let range = bytes_in_range(bytes, offset, len, opts.parse_mode)?;
        Self::of_bytes(alloc, range, delim, opts.parse_mode)
    }

    // Parses the table of all the bytes.
    fn of_bytes(alloc: Global, bytes: &'a [u8], delim: u8, mode: ParseMode) -> Result<Self>
        ensures given { Gives (λ table. table) result (table_of mode bytes.now delim) }
        ensures first { RefusesFirst mode bytes.now delim result }
        ensures none { (bytes.now ≡ []) → IsOk result }
    {
        let entries = walk(alloc, &mut Looked::new(bytes), delim, mode)?;
        Ok(Strtab {
            delim,
            bytes,
            entries: Some(entries),
        })
    }

    /// Parses the table of all the bytes in strict mode.
    ///
    /// # Errors
    ///
    /// Fails with `BadInput` for the first piece that isn't UTF-8, or with out of memory, as [`Strtab::parse`]
    /// does.
    #[tactic(auto, using(crate::proofs::StrtabLemmas::wholes))]
    pub fn new_preparsed(alloc: Global, bytes: &'a [u8], delim: u8) -> Result<Self>
        ensures given { let expected = table_of ParseMode.Strict bytes.now delim in
            Gives (λ table. table) result expected }
        ensures first { RefusesFirst ParseMode.Strict bytes.now delim result }
        ensures none { (bytes.now ≡ []) → IsOk result }
    {
        Self::parse(alloc, bytes, 0, bytes.len(), delim)
    }

    /// Returns the strings of the table: the texts of its entries. A table that wasn't parsed is parsed in strict
    /// mode for it.
    ///
    /// # Errors
    ///
    /// Fails with out of memory. A table that wasn't parsed also fails with `BadInput` for the first piece that
    /// isn't UTF-8.
    #[tactic(auto, using(crate::proofs::StrtabLemmas::empties))]
    pub fn to_vec(&self, alloc: Global) -> Result<Vec<&'a str>>
        ensures given { Gives (λ v. map (λ text. text.now) v.items) result (strings_of self.now) }
        ensures first { (self.now.is_parsed ≡ false)
            → RefusesFirst ParseMode.Strict self.now.bytes self.now.delim result }
        ensures none { (self.now.bytes ≡ []) → IsOk result }
    {
        match &self.entries {
            Some(entries) => texts(alloc, entries),
            None => {
                let mut view = Looked::new(self.bytes);
                let entries = walk(alloc, &mut view, self.delim, ParseMode::Strict)?;
                texts(alloc, &entries)
            }
        }
    }

    /// Returns the rest of the last entry at or before an offset, from the offset on. Each call is one search
    /// (`find`) and reads one more place.
    ///
    /// Returns `None` from `len()` on, inside a character, and at every offset of a table that wasn't parsed.
    #[tactic(auto, using(crate::proofs::StrtabLemmas::look_up_past))]
    pub fn get_at(&self, offset: usize) -> Option<&'a str>
        ensures { option_map (λ text. text.now) result ≡ look_up self.now offset }
    {
        if offset >= self.bytes.len() {
            return None;
        }
        let entries = self.entries.as_ref()?;
        let mut probes = Probes::of(&*entries);
        let (k, place) = last_entry(&mut probes, offset)?;
        rest_of(entries.text(k), offset - place)
    }

    /// Returns the piece at an offset, or `None` from `len()` on.
    ///
    /// # Errors
    ///
    /// A piece that isn't UTF-8 is a `BadInput`. Its size is the number of bytes from the offset on.
    pub fn get(&self, offset: usize) -> Option<Result<&'a str>>
        ensures past { IsNone result ↔ (length self.now.bytes ≤ offset) }
        ensures given { IfSome result (λ piece. let expected = plain self.now.bytes self.now.delim offset in
            Returns (λ text. text.now) piece expected) }
    {
        string_at(self.bytes, self.delim, offset)
    }

    /// Reports whether the piece at an offset is this name, given as bytes. A piece that isn't UTF-8 is no name,
    /// and from `len()` on there is no piece.
    ///
    /// It reads at most one byte more of the table than the name has. To test many offsets, [`Strtab::wanted`]
    /// tests the name itself only once.
    #[tactic(auto, using(crate::proofs::WantedLemmas::name_is_standing))]
    pub fn has_name(&self, offset: usize, name: &[u8]) -> bool
        ensures { result ≡ has_name self.now.bytes self.now.delim offset name.now }
    {
        offset < self.bytes.len()
            && stands_at(self.bytes, self.delim, offset, name)
            && can_be_string(self.delim, name)
    }

    /// Returns a search of this table for a name, given as bytes.
    pub fn wanted<'n>(&'n self, name: &'n [u8]) -> Wanted<'n>
        ensures { result ≡ record { table = self.now; name = name.now } }
    {
        Wanted {
            table: self,
            name: WantedName::new(name, self.delim),
        }
    }

    /// Returns the piece at an offset. The offset must be below `len()`, and the piece must be UTF-8. `get` tests
    /// both.
    pub fn index(&self, offset: usize) -> &'a str
        requires within { offset < length self.now.bytes }
        requires text { IsOk (plain self.now.bytes self.now.delim offset) }
        ensures { result.now ≡ piece self.now.bytes self.now.delim offset }
    {
        get_str(offset, self.bytes, self.delim).unwrap()
    }
}

/// A search of a string table for a name.
///
/// <!-- quoted: crates/goblin_headers/src/section_search.rt -->
/// ```
/// let wanted = names.wanted(name);
/// ```
#[derive(Debug, Drop)]
pub struct Wanted<'n> {
    table: &'n Strtab<'n>,
    name: WantedName<'n>,
}

// In contracts it is the table and the name.
impl<'n> Model for Wanted<'n> {
    ghost use Rattle.std.specs.Prelude.{◌≡◌};
    ghost use Rattle.goblin_base.specs.Wanted.{Search};

    ghost Value = { Search };

    ghost view = { λ w. record { table = w.table.now; name = w.name.bytes } };

    ghost invariant = { λ w. w.name.delim ≡ w.table.now.delim };
}

impl Wanted<'_> {
    /// Reports whether the piece at an offset is the name, as [`Strtab::has_name`] does. The name is read only to
    /// compare it.
    #[tactic(auto, unfolding(crate::specs::Strtab::has_name))]
    pub fn is_at(&self, offset: usize) -> bool
        ensures { let table = self.now.table in result ≡ has_name table.bytes table.delim offset self.now.name }
    {
        let table: &Strtab<'_> = self.table;
        self.name.is_at(table.bytes, offset)
    }
}

/// Returns the table of no bytes, with the delimiter 0, which isn't parsed.
impl Default for Strtab<'_> {
    ghost use Rattle.std.specs.Prelude.{◌≡◌, [], false};

    ghost is_default = { λ t. t ≡ record { bytes = []; delim = 0; is_parsed = false } };

    fn default() -> Self {
        Strtab::new(&[], 0)
    }
}

/// Returns the piece at an offset of bytes that a delimiter cuts into strings, or `None` from their length on.
///
/// # Errors
///
/// A piece that isn't UTF-8 is a `BadInput`. Its size is the number of bytes from the offset on.
pub fn string_at(bytes: &[u8], delim: u8, offset: usize) -> Option<Result<&str>>
    ensures past { IsNone result ↔ (length bytes.now ≤ offset) }
    ensures given { IfSome result (λ piece. let expected = plain bytes.now delim offset in
        Returns (λ text. text.now) piece expected) }
{
    if offset >= bytes.len() {
        None
    } else {
        Some(get_str(offset, bytes, delim))
    }
}

// Returns the texts of the entries.
fn texts<'a>(alloc: Global, entries: &Entries<'a>) -> Result<Vec<&'a str>>
    ensures ok { IfOk result (λ v. map (λ text. text.now) v.items ≡ map text_of entries.now) }
    ensures err { IfErr result (λ e. e ≡ Error.Memory alloc_error) }
    ensures none { (entries.now ≡ []) → IsOk result }
{
    let mut texts = Vec::new(alloc);
    for i in 0..entries.len() {
        texts.push(entries.text(i))?;
    }
    Ok(texts)
}

// Returns the index and the offset of the last entry at or before an offset. It reads one place more than `find`.
fn last_entry(view: &mut Probes<'_>, offset: usize) -> Option<(usize, usize)>
    ensures value { let places = view.old.places in
        MatchOption result (EachIndex places (λ k. offset < slice_index places k))
        (λ entry. IsLastUpTo places offset entry.0 × (entry.1 ≡ slice_index places entry.0)) }
    ensures probes { view.new.count ≤ view.old.count + digits (length view.old.places) + 1 }
    ensures probes_least { let least = view.old.count + digits (length view.old.places + 1) in
        IfSome result (λ _. min least u64.MAX ≤ view.new.count) }
{
    let k = find(view, offset)?;
    let place = view.at(k);
    Some((k, place))
}

// Returns the rest of a text, or `None` if it would begin inside a character.
fn rest_of(text: &str, from: usize) -> Option<&str>
    ensures { MatchOption result (¬ (IsCharBoundary text.now from))
        (λ rest. IsCharBoundary text.now from × (rest.now ≡ drop from text.now)) }
{
    if text.is_char_boundary(from) {
        Some(&text[from..])
    } else {
        None
    }
}

/// Laws of string tables. They speak of the definitions only.
pub fn laws()
    ensures text_is_utf8 { TextIsUtf8 }
    ensures closed_form { ClosedForm }
    ensures joins { JoinsAgain }
    ensures permissive_accepts { PermissiveAccepts }
    ensures strict_is_permissive { StrictIsPermissive }
    ensures look_up_has_plain { LookUpHasPlain }
    ensures strict_look_up_is_plain { StrictLookUpIsPlain }
    ensures depends_on_range { DependsOnRange }
    ensures ranges_refused { (file : List ℕ) (offset size : ℕ) → RangesRefused file offset size }
    ensures text_is_taken { TextIsTaken }
    ensures names_are_plain { NamesArePlain }
    ensures digits_count { DigitsCount }
    ensures strings_join { StringsJoin }
    ensures names_are_read { NamesAreRead }
    ensures pieces_are_compared { PiecesAreCompared }
    ensures pieces_begin { PiecesBegin }
{}
