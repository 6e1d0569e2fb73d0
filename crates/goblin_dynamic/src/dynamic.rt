//! The dynamic section: where it lies, its entries, and where its strings lie. System V gABI, "Dynamic Section".
ghost use Rattle.std.specs.Prelude.{◌≡◌, ◌<◌, ◌^◌, ◌/◌, length};
ghost use Rattle.std.specs.Iterator.{YieldsFirst, item_count};
ghost use Rattle.goblin_base.specs.Common.{ComparesAndClones};
ghost use Rattle.goblin_dynamic.specs.Dyn.{entry_size};
ghost use Rattle.goblin_dynamic.specs.DynamicLaws.{EndAtNull, EntriesInARow, EntriesOfARange, RangeOfTheFirst, RangesLieInFile, ValuesOfATag, WhereStringsLie};
ghost use Rattle.goblin_dynamic.specs.Dynamic.{dynamic_range, dynamic_section, dynamic_section_range, dynamic_segment, entries_at, entries_in, entries_up_to_null, first_value, in_file, section_range, strings_range, strings_section_range, values_with, whole_entries, whole_entries_in};

use crate::entry::{Dyn, SIZEOF_DYN32, SIZEOF_DYN64};
use crate::tags::{DT_NULL, DT_STRSZ, DT_STRTAB};
use goblin::elf::program_header::{PT_DYNAMIC, ProgramHeader};
use goblin::elf::section_header::{SHT_DYNAMIC, SectionHeader};
use goblin_base::container::{Container, Ctx};
use goblin_base::error::Result;
use goblin_base::room::room;
use goblin_base::table::{Table, TableIter};
use std::marker::Model;

/// A range of a file, as its headers state it. The file may be too short for it.
#[derive(Clone, Copy, Debug, PartialEq)]
pub struct FileRange {
    /// The offset in bytes.
    pub offset: usize,
    /// The size in bytes.
    pub size: usize,
}

/// The program headers of a file.
pub type Segments<'a> = Table<'a, ProgramHeader, Ctx>;

/// The section headers of a file.
pub type Sections<'a> = Table<'a, SectionHeader, Ctx>;

/// Entries, one after another.
pub type Entries<'a> = Table<'a, Dyn, Ctx>;

/// The entries of a dynamic section before its first `DT_NULL`.
///
/// Each is read from the file's bytes when it is asked for. It allocates nothing, and its entries outlive it.
#[derive(Debug, Drop)]
pub struct Dynamic<'a> {
    /// The entries.
    pub entries: Entries<'a>,
}

// A dynamic section is seen as the list of its entries.
impl<'a> Model for Dynamic<'a> {
    ghost use Rattle.std.specs.Prelude.{List};
    ghost use Rattle.goblin_dynamic.specs.declared.entry.Dyn.{Dyn};

    ghost Value = { List Dyn };

    ghost view = { λ d. d.entries };
}

impl<'a> Dynamic<'a> {
    /// Reads the entries of a range: those before the first `DT_NULL`, or all that lie whole in the range if it has no
    /// `DT_NULL`. The call goes through them to find the end.
    ///
    /// # Errors
    ///
    /// Those of [`room`] if the range doesn't lie in the bytes: `BadOffset` if its offset is past their end, or at
    /// their end and its size isn't 0, else `TooBig`.
    pub fn in_range(bytes: &'a [u8], range: FileRange, ctx: Ctx) -> Result<Dynamic<'a>>
        ensures { result ≡ entries_in bytes.now range ctx }
    {
        room(bytes.len(), range.offset, range.size)?;
        let part = &bytes[range.offset..range.offset + range.size];
        let entries = up_to_null(part, ctx);
        Ok(Dynamic { entries })
    }

    /// Reads all entries that lie whole in a range, also those after a `DT_NULL`.
    ///
    /// # Errors
    ///
    /// Those of [`Dynamic::in_range`].
    pub fn whole_in_range(bytes: &'a [u8], range: FileRange, ctx: Ctx) -> Result<Entries<'a>>
        ensures { result ≡ whole_entries_in bytes.now range ctx }
    {
        let FileRange { offset, size } = range;
        room(bytes.len(), offset, size)?;
        Ok(whole_entries(&bytes[offset..offset + size], ctx))
    }

    /// Reads the entries of the dynamic section by the first segment of type `PT_DYNAMIC`, at its offset in the file.
    /// There is no dynamic section if no segment has that type.
    ///
    /// # Errors
    ///
    /// Those of [`Dynamic::in_range`].
    pub fn by_segments(bytes: &'a [u8], segments: &Segments<'_>, ctx: Ctx) -> Result<Option<Self>>
        ensures { result ≡ entries_at bytes.now (dynamic_range segments.now) ctx }
    {
        Dynamic::range_by_segments(segments)
            .map(|range| Dynamic::in_range(bytes, range, ctx))
            .transpose()
    }

    /// Reads the entries of the first section of type `SHT_DYNAMIC`, for files without segments. There is no dynamic
    /// section if no section has that type, as in a file of debug information, where its type is `SHT_NOBITS`.
    ///
    /// # Errors
    ///
    /// Those of [`Dynamic::in_range`].
    pub fn by_sections(bytes: &'a [u8], sections: &Sections<'_>, ctx: Ctx) -> Result<Option<Self>>
        ensures { result ≡ entries_at bytes.now (dynamic_section_range sections.now) ctx }
    {
        Dynamic::range_by_sections(sections)
            .map(|range| Dynamic::in_range(bytes, range, ctx))
            .transpose()
    }

    /// Returns the range of the first segment of type `PT_DYNAMIC`, or `None` if there is none. The file may be too
    /// short for it.
    pub fn range_by_segments(segments: &Segments<'_>) -> Option<FileRange>
        ensures { result ≡ dynamic_range segments.now }
    {
        let segment = dynamic_segment(segments)?;
        Some(FileRange {
            offset: segment.p_offset as usize,
            size: segment.p_filesz as usize,
        })
    }

    /// Returns the range of the first section of type `SHT_DYNAMIC`, or `None` if there is none. The file may be too
    /// short for it.
    pub fn range_by_sections(sections: &Sections<'_>) -> Option<FileRange>
        ensures { result ≡ dynamic_section_range sections.now }
    {
        Some(range_of(&dynamic_section(sections)?))
    }

    /// Returns the range of the strings, as [`Dynamic::strings_range`] does, if the file holds it.
    ///
    /// # Errors
    ///
    /// Those of [`room`] if the range doesn't lie in the bytes.
    pub fn strings(&self, bytes: &[u8], segments: &Segments<'_>) -> Result<Option<FileRange>>
        ensures { result ≡ in_file bytes.now (strings_range self.now segments.now) }
    {
        in_file(bytes, self.strings_range(segments))
    }

    /// Returns the range of the strings by the segments: `DT_STRTAB` is its address, and `DT_STRSZ` its size. The
    /// offset is that of [`ProgramHeader::loaded_from`]. Returns `None` if one of the entries is missing, or if no
    /// segment loads a byte of the file at the address. The file may be too short for the range.
    pub fn strings_range(&self, segments: &Segments<'_>) -> Option<FileRange>
        ensures { result ≡ strings_range self.now segments.now }
    {
        let address = self.value(DT_STRTAB)?;
        let size = self.value(DT_STRSZ)?;
        let offset = ProgramHeader::loaded_from(segments, address)?;
        Some(FileRange {
            offset,
            size: size as usize,
        })
    }

    /// Returns the range of the strings by the sections: that of the section which the `sh_link` of the first section
    /// of type `SHT_DYNAMIC` names. Returns `None` if there is no such section, as [`SectionHeader::linked_in`] does.
    ///
    /// # Errors
    ///
    /// Those of [`room`] if the range doesn't lie in the bytes.
    pub fn strings_by_sections(bytes: &[u8], sections: &Sections<'_>) -> Result<Option<FileRange>>
        ensures { result ≡ in_file bytes.now (strings_section_range sections.now) }
    {
        in_file(bytes, Dynamic::strings_range_by_sections(sections))
    }

    /// Returns the range of the strings by the sections, as [`Dynamic::strings_by_sections`] does. The file may be too
    /// short for it.
    pub fn strings_range_by_sections(sections: &Sections<'_>) -> Option<FileRange>
        ensures { result ≡ strings_section_range sections.now }
    {
        let index = dynamic_section(sections)?.sh_link as usize;
        Some(range_of(&SectionHeader::linked_in(sections, index)?))
    }

    /// Returns the value of the first entry with a tag, or `None` if there is none.
    pub fn value(&self, tag: u64) -> Option<u64>
        ensures { result ≡ first_value tag self.now }
    {
        self.values(tag).next()
    }

    /// Returns an iterator over the values of the entries with a tag.
    #[tactic(auto, using(crate::proofs::FirstEntries::lengths))]
    pub fn values(&self, tag: u64) -> Values<'a>
        ensures value { result ≡ values_with tag self.now }
        ensures bound { length (values_with tag self.now) < 2 ^ 64 }
    {
        Values {
            left: self.entries.iter(),
            tag,
        }
    }
}

// Returns a range, if there is one, which must lie in the file.
fn in_file(bytes: &[u8], range: Option<FileRange>) -> Result<Option<FileRange>>
    ensures { result ≡ in_file bytes.now range }
{
    if let Some(FileRange { offset, size }) = range {
        room(bytes.len(), offset, size)?;
    }
    Ok(range)
}

// Returns the table of the entries before the first `DT_NULL` of some bytes.
#[tactic(auto, using(crate::proofs::FirstEntries::first_entries), unfolding(goblin_base::specs::Record::records))]
fn up_to_null<'a>(part: &'a [u8], ctx: Ctx) -> Entries<'a>
    ensures { result ≡ entries_up_to_null (whole_entries part.now ctx) }
{
    let count = count_before_null(&whole_entries(part, ctx));
    Table::of(part, count, ctx)
}

// Returns the table of the entries that lie whole in some bytes.
fn whole_entries<'a>(part: &'a [u8], ctx: Ctx) -> Entries<'a>
    ensures { result ≡ whole_entries part.now ctx }
{
    Table::of(part, count_in(part.len(), ctx.container), ctx)
}

// Returns how many entries a size holds. A division by a constant takes a fraction of the time.
fn count_in(size: usize, class: Container) -> usize
    ensures { result ≡ size / entry_size class }
{
    match class {
        Container::Little => size / SIZEOF_DYN32,
        Container::Big => size / SIZEOF_DYN64,
    }
}

// Returns the number of entries before the first `DT_NULL`.
fn count_before_null(entries: &Entries<'_>) -> usize
    ensures { result ≡ length (entries_up_to_null entries.now) }
{
    entries
        .iter()
        .take_while(|entry| entry.d_tag != DT_NULL)
        .count()
}

// Returns the first segment of type `PT_DYNAMIC`.
fn dynamic_segment(segments: &Segments<'_>) -> Option<ProgramHeader>
    ensures { result ≡ dynamic_segment segments.now }
{
    segments.iter().find(|segment| segment.p_type == PT_DYNAMIC)
}

// Returns the first section of type `SHT_DYNAMIC`.
fn dynamic_section(sections: &Sections<'_>) -> Option<SectionHeader>
    ensures { result ≡ dynamic_section sections.now }
{
    sections.iter().find(|s| s.sh_type == SHT_DYNAMIC)
}

// Returns the range of a section.
fn range_of(section: &SectionHeader) -> FileRange
    ensures { result ≡ section_range section.now }
{
    FileRange {
        offset: section.sh_offset as usize,
        size: section.sh_size as usize,
    }
}

/// An iterator over the values of a tag: from the first to the last, and `None` from then on.
#[derive(Debug, Drop)]
pub struct Values<'a> {
    left: TableIter<'a, Dyn, Ctx>,
    tag: u64,
}

// In contracts an iterator is the list of the values that are left.
impl<'a> Model for Values<'a> {
    ghost use Rattle.std.specs.Prelude.{ℕ, List};

    ghost Value = { List ℕ };

    ghost use Rattle.goblin_dynamic.specs.Dynamic.{values_with};

    ghost view = { λ v. values_with v.tag v.left };
}

impl<'a> Iterator for Values<'a> {
    type Item = u64;

    ghost next_gives = { YieldsFirst (λ left. left) };

    ghost remaining = { item_count (λ left. left) };

    fn next(&mut self) -> Option<u64> {
        while let Some(entry) = self.left.next() {
            if entry.d_tag == self.tag {
                return Some(entry.d_val);
            }
        }
        None
    }
}

/// Laws: `==` is true exactly if two ranges are the same. `clone` returns the range, and never fails.
///
/// Each entry is read where it lies, one after another, as long as the bytes hold it. A range that lies in the file has
/// all the entries of its bytes. [`Dynamic`] ends before the first of them with tag 0. The values of a tag are those of
/// the entries with it, in their order, and [`Dynamic::value`] is the first of them. The range is that of the first
/// segment of type `PT_DYNAMIC`, or of the first section of type `SHT_DYNAMIC`. The strings begin where `DT_STRTAB` is
/// loaded from, and have the size of `DT_STRSZ`; or they are the section that the `sh_link` of that section names.
/// Entries that are read, and strings that are found, lie in the file.
#[tactic(auto, using(crate::proofs::DynamicLemmas::dynamic_laws))]
pub fn laws()
    ensures derived { ComparesAndClones ⟦<FileRange as PartialEq>⟧ ⟦<FileRange as Clone>⟧ }
    ensures entries { EntriesInARow }
    ensures of_range { EntriesOfARange }
    ensures end { EndAtNull }
    ensures values { ValuesOfATag }
    ensures ranges { RangeOfTheFirst }
    ensures strings { WhereStringsLie }
    ensures room { RangesLieInFile }
{}
