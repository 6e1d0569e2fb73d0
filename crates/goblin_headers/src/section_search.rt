//! Sections that are found by a name, by an index in another header, or by the header of the file.
ghost use Rattle.std.specs.Prelude.{◌≡◌, ◌<◌, ◌+◌, ◌^◌, IfSome, drop, position, slice_get};
ghost use Rattle.std.specs.Option.{option_map};
ghost use Rattle.goblin_base.specs.Strtab.{has_name};
ghost use Rattle.goblin_headers.specs.SectionHeaders.{is_table, linked, names_index};

use crate::section_header::{SHN_XINDEX, SHT_NOBITS, SectionHeader};
use goblin_base::container::Ctx;
use goblin_base::strtab::{Strtab, WantedName};
use goblin_base::table::Table;

impl SectionHeader {
    /// Returns the index of the section that holds the section names, from the index in the file's
    /// header and the first section. It is the header's index, unless that is 0xffff (`SHN_XINDEX`):
    /// then it is the `sh_link` of the first section, or 0 if there are no sections.
    /// `Header::names_index` asks with the index of a header.
    pub fn names_index(index: u16, first: Option<&SectionHeader>) -> usize
        ensures { let seen = option_map (λ section. section.now) first.entry in result ≡ names_index index seen }
    {
        if u32::from(index) != SHN_XINDEX {
            return usize::from(index);
        }
        match first {
            Some(section) => section.sh_link as usize,
            None => 0,
        }
    }

    // Reports whether another section or the file's header may name this section by an index as a table.
    fn is_table(&self, index: usize) -> bool
        ensures { result ≡ is_table index self.now.sh_type }
    {
        index != 0 && self.sh_type != SHT_NOBITS
    }

    /// Returns the section at an index that another section or the file's header names as a table, or
    /// `None` for index 0, past the end, and for a section without bytes in the file (`SHT_NOBITS`).
    pub fn linked(sections: &[SectionHeader], index: usize) -> Option<&SectionHeader>
        ensures value { option_map (λ section. section.now) result ≡ linked index (slice_get sections.now index) }
    {
        sections
            .get(index)
            .filter(|section| section.is_table(index))
    }

    /// Returns the section at an index of a lazy table, as [`SectionHeader::linked`] does.
    pub fn linked_in(
        sections: &Table<'_, SectionHeader, Ctx>,
        index: usize,
    ) -> Option<SectionHeader>
        ensures value { result ≡ linked index (slice_get sections.now index) }
    {
        match sections.get(index) {
            Some(section) if section.is_table(index) => Some(section),
            _ => None,
        }
    }

    /// Returns the index of the first section with this name, or `None` if there is none.
    ///
    /// Names are read from the section name string table as [`Strtab::get`] reads them: a section
    /// whose name is past the table's end or isn't UTF-8 has no name. At most `name.len() + 1`
    /// bytes are read for each section.
    pub fn find(sections: &[SectionHeader], names: &Strtab<'_>, name: &[u8]) -> Option<usize>
        ensures { let is_named = has_name names.now.bytes names.now.delim in
            result ≡ position (λ section. is_named section.sh_name name.now) sections.now }
    {
        let wanted = names.wanted(name);
        sections
            .iter()
            .position(|section| wanted.is_at(section.sh_name))
    }

    /// Returns the index of the first section with this name in a lazy table, as
    /// [`SectionHeader::find`] does. The names are read from the bytes of the section name string
    /// table, whose strings end with `delim`.
    pub fn find_in(
        sections: &Table<'_, SectionHeader, Ctx>,
        strings: &[u8],
        delim: u8,
        name: &[u8],
    ) -> Option<usize>
        ensures { result ≡ position (λ section. has_name strings.now delim section.sh_name name.now) sections.now }
    {
        SectionHeader::position_from(sections, 0, strings, delim, name)
    }

    // Returns the position of the first section with this name among those from an index on.
    fn position_from(
        sections: &Table<'_, SectionHeader, Ctx>,
        first: usize,
        strings: &[u8],
        delim: u8,
        name: &[u8],
    ) -> Option<usize>
        ensures value { result ≡ position (λ section.
            has_name strings.now delim section.sh_name name.now) (drop first sections.now) }
        ensures bound { IfSome result (λ place. first + place < 2 ^ 64) }
    {
        let wanted = WantedName::new(name, delim);
        sections
            .iter()
            .skip(first)
            .position(|header| wanted.is_at(strings, header.sh_name))
    }

    /// Returns the index of the first section with this name from an index on, as
    /// [`SectionHeader::find_in`] does from index 0 on.
    pub fn find_in_from(
        sections: &Table<'_, SectionHeader, Ctx>,
        first: usize,
        strings: &[u8],
        delim: u8,
        name: &[u8],
    ) -> Option<usize>
        ensures { result ≡ option_map (λ place. first + place) (position (λ section.
            has_name strings.now delim section.sh_name name.now) (drop first sections.now)) }
    {
        let place = SectionHeader::position_from(sections, first, strings, delim, name)?;
        Some(first + place)
    }
}
