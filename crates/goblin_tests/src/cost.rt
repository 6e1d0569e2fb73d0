//! Calls over large tables of zero bytes, which are empty strings, and records whose fields are 0, and over long
//! strings of one or two bytes a character. Each takes a time in proportion to its table: one that read for each item
//! all that lies before it, or all of its string, would take longer than the 60 seconds that a test has.
use crate::compare::{differs, is};
use crate::container::LITTLE32;
use crate::sym::ZERO;
use goblin::elf::header::ET_EXEC;
use goblin::elf::note::NoteDataIterator;
use goblin::elf::reloc::{Reloc, RelocSection};
use goblin::elf::section_header::SectionHeader;
use goblin::elf::sym::Symtab;
use goblin_base::container::Ctx;
use goblin_base::options::ParseOptions;
use goblin_base::strtab::Strtab;
use goblin_base::table::Table;
use std::alloc::{AllocError, Global};

// Whether a table lists as many strings as it has bytes.
fn lists(rt: HostRuntime, table: &Strtab<'_>) -> bool {
    match table.to_vec(rt.alloc()) {
        Ok(strings) => is(rt, strings.len(), table.len()),
        Err(e) => differs(rt, &e, &table.len()),
    }
}

// Whether a table that is parsed by these options lists as many strings as it has bytes.
fn parses(rt: HostRuntime, bytes: &[u8], opts: &ParseOptions) -> bool {
    match Strtab::parse_with_opts(rt.alloc(), bytes, 0, bytes.len(), 0, opts) {
        Ok(table) => lists(rt, &table),
        Err(e) => differs(rt, &e, &bytes.len()),
    }
}

// Whether so many zero bytes are as many strings, parsed and not.
fn lists_zeros(rt: HostRuntime, count: usize) -> bool {
    match vec![in rt.alloc(); 0u8; count] {
        Ok(bytes) => {
            lists(rt, &Strtab::new(&bytes, 0))
                && parses(rt, &bytes, &ParseOptions::strict())
                && parses(rt, &bytes, &ParseOptions::permissive())
        }
        Err(e) => differs(rt, &e, &count),
    }
}

#[test]
fn lists_a_million_strings(rt: HostRuntime) {
    assert!(rt; lists_zeros(rt, 1000000));
}

const TWO_BYTES: &[u8] = b"\xc3\xa9";

// After a long string come so many empty ones, so that strings are short on average.
const EMPTY: usize = 100000;

// A character as often as this, and then a byte as often as that.
fn repeated(
    alloc: Global,
    character: &[u8],
    count: usize,
    byte: u8,
    bytes: usize,
) -> Result<Vec<u8>, AllocError> {
    let mut all = Vec::new(alloc);
    for _ in 0..count {
        all.extend_from_slice(character)?;
    }
    for _ in 0..bytes {
        all.push(byte)?;
    }
    Ok(all)
}

// Whether looking up each place of a string of so many bytes returns the rest of it, or nothing inside a character of
// two.
fn gets_rests(rt: HostRuntime, table: &Strtab<'_>, len: usize, has_two: bool) -> bool {
    for place in 0..len {
        let expected = if has_two && place % 2 == 1 {
            None
        } else {
            Some(len - place)
        };
        let found = table.get_at(place).map(|text| text.len());
        if found != expected {
            return differs(rt, &(place, found), &expected);
        }
    }
    true
}

// Whether the same holds of a table of this string that is parsed by these options.
fn looks_up(rt: HostRuntime, bytes: &[u8], has_two: bool, opts: &ParseOptions) -> bool {
    match Strtab::parse_with_opts(rt.alloc(), bytes, 0, bytes.len(), 0, opts) {
        Ok(table) => gets_rests(rt, &table, bytes.len().saturating_sub(EMPTY), has_two),
        Err(e) => differs(rt, &e, &bytes.len()),
    }
}

// Whether a string of so many characters is looked up, and below whether one with a bad last byte is listed byte by
// byte.
fn reads_a_long_string(rt: HostRuntime, character: &[u8], count: usize) -> bool {
    match repeated(rt.alloc(), character, count, 0, EMPTY) {
        Ok(bytes) => {
            let has_two = character.len() == 2;
            looks_up(rt, &bytes, has_two, &ParseOptions::strict())
                && looks_up(rt, &bytes, has_two, &ParseOptions::permissive())
        }
        Err(e) => differs(rt, &e, &count),
    }
}

fn lists_a_damaged_string(rt: HostRuntime, count: usize) -> bool {
    match repeated(rt.alloc(), TWO_BYTES, count, 0xff, 1) {
        Ok(bytes) => parses(rt, &bytes, &ParseOptions::permissive()),
        Err(e) => differs(rt, &e, &count),
    }
}

#[test]
fn reads_long_strings(rt: HostRuntime) {
    assert!(rt; reads_a_long_string(rt, TWO_BYTES, 500000));
    assert!(rt; reads_a_long_string(rt, b"a", 500000));
    assert!(rt; lists_a_damaged_string(rt, 500000));
}

const ZERO_RELOC: Reloc = Reloc {
    r_offset: 0,
    r_addend: None,
    r_sym: 0,
    r_type: 0,
};

// Whether these bytes have a symbol at each index, and none at an address.
fn gets_symbols(rt: HostRuntime, bytes: &[u8]) -> bool {
    let Ok(symbols) = Symtab::parse(bytes, 0, bytes.len() / 16, LITTLE32) else {
        return differs(rt, &"no table", &bytes.len());
    };
    for index in 0..symbols.len() {
        if symbols.get(index) != Some(ZERO) {
            return differs(rt, &"another symbol", &index);
        }
    }
    let sections = Table::<SectionHeader, Ctx>::of(&[], 0, LITTLE32);
    is(
        rt,
        (symbols.iter().count(), symbols.at(0, &sections, ET_EXEC)),
        (bytes.len() / 16, None),
    )
}

// Whether these bytes have a relocation at each index.
fn gets_relocs(rt: HostRuntime, bytes: &[u8]) -> bool {
    let Ok(relocs) = RelocSection::parse(bytes, 0, bytes.len(), false, LITTLE32) else {
        return differs(rt, &"no relocations", &bytes.len());
    };
    for index in 0..relocs.len() {
        if relocs.get(index) != Some(ZERO_RELOC) {
            return differs(rt, &"another relocation", &index);
        }
    }
    is(rt, relocs.iter().count(), bytes.len() / 8)
}

// Whether the bytes after the first 40 have a section header at each index.
fn gets_sections(rt: HostRuntime, bytes: &[u8]) -> bool {
    let count = (bytes.len() / 40).saturating_sub(1);
    let Ok(sections) = SectionHeader::table(bytes, 40, count, LITTLE32) else {
        return differs(rt, &"no sections", &count);
    };
    for index in 0..count {
        if sections.get(index).is_none() {
            return differs(rt, &"no section", &index);
        }
    }
    is(rt, sections.iter().count(), count)
}

// Whether these bytes are notes of 12 bytes.
fn gets_notes(rt: HostRuntime, bytes: &[u8]) -> bool {
    let notes = NoteDataIterator {
        bytes,
        size: bytes.len(),
        offset: 0,
        ctx: (4, LITTLE32),
    };
    is(rt, notes.count(), bytes.len() / 12)
}

// Whether so many zero bytes are records of each kind.
fn gets_zeros(rt: HostRuntime, size: usize) -> bool {
    match vec![in rt.alloc(); 0u8; size] {
        Ok(bytes) => {
            gets_symbols(rt, &bytes)
                && gets_relocs(rt, &bytes)
                && gets_sections(rt, &bytes)
                && gets_notes(rt, &bytes)
        }
        Err(e) => differs(rt, &e, &size),
    }
}

#[test]
fn gets_each_record_of_some_megabytes(rt: HostRuntime) {
    assert!(rt; gets_zeros(rt, 3600000));
}
