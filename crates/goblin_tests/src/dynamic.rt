//! Worked rows, by bytes written by hand: entries in each class and byte order, and where the section and its strings
//! lie by the segments and by the sections of two small files.
use crate::container::{BIG32, BIG64, LITTLE32, LITTLE64};
use crate::record::has_form;
use goblin::elf::program_header::ProgramHeader;
use goblin::elf::section_header::SectionHeader;
use goblin_base::container::Ctx;
use goblin_base::error::Error;
use goblin_base::scroll;
use goblin_dynamic::dynamic::{Dynamic, FileRange};
use goblin_dynamic::entry::Dyn;
use goblin_dynamic::tags::{DT_NEEDED, DT_NULL, DT_SONAME, DT_STRSZ, DT_STRTAB};

// Eight bytes of strings, and then six entries: two libraries, the address and the size of the strings between them,
// the end, and the library's own name after it.
static IN_LITTLE32: &[u8; 56] = b"\0liba\0b\0\
    \x01\0\0\0\x01\0\0\0\x05\0\0\0\0\x10\0\0\x0a\0\0\0\x08\0\0\0\
    \x01\0\0\0\x06\0\0\0\0\0\0\0\0\0\0\0\x0e\0\0\0\x01\0\0\0";

static IN_BIG32: &[u8; 56] = b"\0liba\0b\0\
    \0\0\0\x01\0\0\0\x01\0\0\0\x05\0\0\x10\0\0\0\0\x0a\0\0\0\x08\
    \0\0\0\x01\0\0\0\x06\0\0\0\0\0\0\0\0\0\0\0\x0e\0\0\0\x01";

static IN_LITTLE64: &[u8; 104] = b"\0liba\0b\0\
    \x01\0\0\0\0\0\0\0\x01\0\0\0\0\0\0\0\x05\0\0\0\0\0\0\0\0\x10\0\0\0\0\0\0\
    \x0a\0\0\0\0\0\0\0\x08\0\0\0\0\0\0\0\x01\0\0\0\0\0\0\0\x06\0\0\0\0\0\0\0\
    \0\0\0\0\0\0\0\0\0\0\0\0\0\0\0\0\x0e\0\0\0\0\0\0\0\x01\0\0\0\0\0\0\0";

static IN_BIG64: &[u8; 104] = b"\0liba\0b\0\
    \0\0\0\0\0\0\0\x01\0\0\0\0\0\0\0\x01\0\0\0\0\0\0\0\x05\0\0\0\0\0\0\x10\0\
    \0\0\0\0\0\0\0\x0a\0\0\0\0\0\0\0\x08\0\0\0\0\0\0\0\x01\0\0\0\0\0\0\0\x06\
    \0\0\0\0\0\0\0\0\0\0\0\0\0\0\0\0\0\0\0\0\0\0\0\x0e\0\0\0\0\0\0\0\x01";

// The entries before the end.
static ENTRIES: [(u64, u64); 4] = [(1, 1), (5, 0x1000), (10, 8), (1, 6)];

fn range(offset: usize, size: usize) -> FileRange {
    FileRange { offset, size }
}

// Reports whether these are the entries before the end, by index and in turn.
fn has_entries(dynamic: &Dynamic<'_>) -> bool {
    let mut entries = dynamic.entries.iter();
    let is_each = ENTRIES.iter().enumerate().all(|(i, expected)| {
        dynamic
            .entries
            .get(i)
            .is_some_and(|entry| (entry.d_tag, entry.d_val) == *expected)
    });
    let is_first = entries.next() == dynamic.entries.get(0) && entries.len() == 3;
    is_each
        && is_first
        && dynamic.entries.get(4).is_none()
        && dynamic.entries.len() == 4
        && !dynamic.entries.is_empty()
}

// Reports whether the value of each tag is the first one with it, and whether both libraries are listed.
fn has_values(dynamic: &Dynamic<'_>) -> bool {
    let mut needed = dynamic.values(DT_NEEDED);
    let is_both = needed.next() == Some(1) && needed.next() == Some(6);
    is_both
        && needed.next().is_none()
        && needed.next().is_none()
        && dynamic.value(DT_NEEDED) == Some(1)
        && dynamic.value(DT_STRTAB) == Some(0x1000)
        && dynamic.value(DT_STRSZ) == Some(8)
        && dynamic.value(DT_NULL).is_none()
        && dynamic.value(DT_SONAME).is_none()
        && dynamic.values(DT_SONAME).count() == 0
}

// Reports whether the range of so many bytes after the strings has these entries.
fn is_listed(bytes: &[u8], size: usize, ctx: Ctx) -> bool {
    match Dynamic::in_range(bytes, range(8, size), ctx) {
        Ok(dynamic) => has_entries(&dynamic) && has_values(&dynamic),
        Err(_) => false,
    }
}

#[test]
fn lists_entries_up_to_the_end(rt: HostRuntime) {
    assert!(rt; is_listed(IN_LITTLE32, 48, LITTLE32));
    assert!(rt; is_listed(IN_BIG32, 48, BIG32));
    assert!(rt; is_listed(IN_LITTLE64, 96, LITTLE64));
    assert!(rt; is_listed(IN_BIG64, 96, BIG64));
}

// The number of all entries of the range after the strings, and the tag and the value of the last one.
fn last_of(bytes: &[u8], size: usize, ctx: Ctx) -> (usize, u64, u64) {
    let Ok(entries) = Dynamic::whole_in_range(bytes, range(8, size), ctx) else {
        return (100, 0, 0);
    };
    match entries.iter().last() {
        Some(Dyn { d_tag, d_val }) => (entries.len(), d_tag, d_val),
        None => (0, 0, 0),
    }
}

#[test]
fn lists_entries_after_the_end(rt: HostRuntime) {
    assert!(rt; last_of(IN_LITTLE32, 48, LITTLE32) == (6, 14, 1));
    assert!(rt; last_of(IN_BIG64, 96, BIG64) == (6, 14, 1));
    assert!(rt; last_of(IN_BIG64, 95, BIG64) == (5, 0, 0));
    assert!(rt; last_of(IN_BIG64, 97, BIG64) == (100, 0, 0));
}

// Without an end, with or without a part of one more entry, the range's end is the end.
#[test]
fn lists_entries_without_an_end(rt: HostRuntime) {
    assert!(rt; is_listed(IN_LITTLE32, 32, LITTLE32) && is_listed(IN_LITTLE32, 39, LITTLE32));
    assert!(rt; is_listed(IN_BIG64, 64, BIG64) && is_listed(IN_BIG64, 79, BIG64));
    assert!(rt; !is_listed(IN_LITTLE32, 31, LITTLE32) && !is_listed(IN_BIG64, 63, BIG64));
}

// The number of entries of a range, or the numbers of the refusal: the size and the bytes left, or the offset.
fn count_in(bytes: &[u8], offset: usize, size: usize) -> (usize, usize, usize) {
    match Dynamic::in_range(bytes, range(offset, size), LITTLE32) {
        Ok(dynamic) => (dynamic.entries.len(), 0, 0),
        Err(Error::Scroll(scroll::Error::TooBig { size, len })) => (100, size, len),
        Err(Error::Scroll(scroll::Error::BadOffset(offset))) => (200, offset, 0),
        Err(_) => (300, 0, 0),
    }
}

#[test]
fn refuses_ranges_that_are_cut(rt: HostRuntime) {
    assert!(rt; count_in(IN_LITTLE32, 8, 49) == (100, 49, 48));
    assert!(rt; count_in(&IN_LITTLE32[..40], 8, 48) == (100, 48, 32));
    assert!(rt; count_in(IN_LITTLE32, 56, 8) == (200, 56, 0));
    assert!(rt; count_in(IN_LITTLE32, 57, 0) == (200, 57, 0));
    assert!(rt; count_in(IN_LITTLE32, usize::MAX, usize::MAX) == (200, usize::MAX, 0));
    assert!(rt; count_in(IN_LITTLE32, 56, 0) == (0, 0, 0));
}

fn entry(d_tag: u64, d_val: u64) -> Dyn {
    Dyn { d_tag, d_val }
}

#[test]
fn reads_and_writes_entries(rt: HostRuntime) {
    let most = b"\xfe\xff\xff\xff\xff\xff\xff\xff";
    assert!(rt; has_form(rt, entry(0xffff_fffe, 0xffff_ffff), LITTLE32, most));
    let bytes = b"\x6f\xff\xfe\xf5\x01\x02\x03\x04";
    assert!(rt; has_form(rt, entry(0x6fff_fef5, 0x0102_0304), BIG32, bytes));
    let bytes = b"\xfb\xff\xff\x6f\0\0\0\0\x01\0\0\x08\0\0\0\x80";
    let wide = entry(0x6fff_fffb, 0x8000_0000_0800_0001);
    assert!(rt; has_form(rt, wide, LITTLE64, bytes));
    let bytes = b"\0\0\0\0\0\0\0\x1e\0\0\0\0\0\0\0\x08";
    assert!(rt; has_form(rt, entry(30, 8), BIG64, bytes));
}

// Three program headers: the strings and entries are loaded at 0x1000, and two segments are of the dynamic section, of
// which the second lies past the end.
static SEGMENTS: &[u8; 96] =
    b"\x01\0\0\0\0\0\0\0\0\x10\0\0\0\0\0\0\x38\0\0\0\x38\0\0\0\x04\0\0\0\0\0\0\0\
    \x02\0\0\0\x08\0\0\0\x08\x10\0\0\0\0\0\0\x30\0\0\0\x31\0\0\0\x04\0\0\0\x04\0\0\0\
    \x02\0\0\0\x00\x01\0\0\0\0\0\0\0\0\0\0\x30\0\0\0\x30\0\0\0\x04\0\0\0\x04\0\0\0";

// The offset and the size of the strings of a file by so many of the segments from an offset on, what is missing, or
// the size and the bytes left of strings that are cut.
fn strings_of(bytes: &[u8], first: usize, count: usize) -> (usize, usize) {
    let Ok(segments) = ProgramHeader::table(SEGMENTS, first, count, LITTLE32) else {
        return (100, 0);
    };
    match Dynamic::by_segments(bytes, &segments, LITTLE32) {
        Ok(Some(dynamic)) => match dynamic.strings(bytes, &segments) {
            Ok(Some(found)) => (found.offset, found.size),
            Ok(None) => (200, dynamic.entries.len()),
            Err(Error::Scroll(scroll::Error::TooBig { size, len })) => (
                size,
                len.saturating_add(500),
            ),
            Err(_) => (600, 0),
        },
        Ok(None) => (300, 0),
        Err(_) => (400, 0),
    }
}

#[test]
fn finds_the_section_and_its_strings_by_segments(rt: HostRuntime) {
    assert!(rt; strings_of(IN_LITTLE32, 0, 3) == (0, 8));
    // Without the loaded segment, without the dynamic one, and with the one past the end alone.
    assert!(rt; strings_of(IN_LITTLE32, 32, 2) == (200, 4));
    assert!(rt; strings_of(IN_LITTLE32, 0, 1) == (300, 0));
    assert!(rt; strings_of(IN_LITTLE32, 64, 1) == (400, 0));
    // Without the entry of the strings' address, of their size, and in a cut file.
    let mut bytes = *IN_LITTLE32;
    bytes[16] = 6;
    assert!(rt; strings_of(&bytes, 0, 3) == (200, 4));
    bytes = *IN_LITTLE32;
    bytes[24] = 11;
    assert!(rt; strings_of(&bytes, 0, 3) == (200, 4));
    // With strings that end with the file, and with a byte more.
    bytes[24] = 10;
    bytes[28] = 56;
    assert!(rt; strings_of(&bytes, 0, 3) == (0, 56));
    bytes[28] = 57;
    assert!(rt; strings_of(&bytes, 0, 3) == (57, 556));
    assert!(rt; strings_of(&IN_LITTLE32[..55], 0, 3) == (400, 0));
}

// Eight bytes, since no section header lies at offset 0, and three section headers of a 64-bit file: the null one, the
// dynamic section, whose strings are the third, and these.
static SECTIONS: &[u8; 200] = b"\0\0\0\0\0\0\0\0\
    \0\0\0\0\0\0\0\0\0\0\0\0\0\0\0\0\0\0\0\0\0\0\0\0\0\0\0\0\0\0\0\0\
    \0\0\0\0\0\0\0\0\0\0\0\0\0\0\0\0\0\0\0\0\0\0\0\0\0\0\0\0\0\0\0\0\
    \0\0\0\0\0\0\0\x06\0\0\0\0\0\0\0\x03\0\0\0\0\0\0\x10\x08\0\0\0\0\0\0\0\x08\
    \0\0\0\0\0\0\0\x60\0\0\0\x02\0\0\0\0\0\0\0\0\0\0\0\x08\0\0\0\0\0\0\0\x10\
    \0\0\0\0\0\0\0\x03\0\0\0\0\0\0\0\x02\0\0\0\0\0\0\x10\0\0\0\0\0\0\0\0\0\
    \0\0\0\0\0\0\0\x08\0\0\0\0\0\0\0\0\0\0\0\0\0\0\0\x01\0\0\0\0\0\0\0\0";

// The number of entries of the section, and the offset and the size of its strings, what is missing, or the offset of
// strings that the file doesn't hold.
fn section_of(bytes: &[u8], headers: &[u8]) -> (usize, usize, usize) {
    let Ok(sections) = SectionHeader::table(headers, 8, 3, BIG64) else {
        return (100, 0, 0);
    };
    let count = match Dynamic::by_sections(bytes, &sections, BIG64) {
        Ok(Some(dynamic)) => dynamic.entries.len(),
        Ok(None) => 200,
        Err(_) => 300,
    };
    match Dynamic::strings_by_sections(bytes, &sections) {
        Ok(Some(found)) => (count, found.offset, found.size),
        Ok(None) => (count, 600, 0),
        Err(Error::Scroll(scroll::Error::BadOffset(offset))) => (count, 400, offset),
        Err(_) => (count, 500, 0),
    }
}

#[test]
fn finds_the_section_and_its_strings_by_sections(rt: HostRuntime) {
    assert!(rt; section_of(IN_BIG64, SECTIONS) == (4, 0, 8));
    assert!(rt; section_of(&IN_BIG64[..103], SECTIONS) == (300, 0, 8));
    // Of the type without bytes in the file, as in a file of debug information; and without a section of strings.
    let mut headers = *SECTIONS;
    headers[79] = 8;
    assert!(rt; section_of(IN_BIG64, &headers) == (200, 600, 0));
    headers[79] = 6;
    headers[115] = 0;
    assert!(rt; section_of(IN_BIG64, &headers) == (4, 600, 0));
    // With strings that have no bytes in the file, and with a second section of the type as strings.
    (headers[115], headers[143]) = (2, 8);
    assert!(rt; section_of(IN_BIG64, &headers) == (4, 600, 0));
    headers[143] = 6;
    assert!(rt; section_of(IN_BIG64, &headers) == (4, 0, 8));
    // With strings from the end of the file on.
    headers[143] = 3;
    headers[167] = 104;
    assert!(rt; section_of(IN_BIG64, &headers) == (4, 400, 104));
}
