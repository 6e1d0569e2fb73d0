//! Counts, the first section of a type, bytes and numbers, on a big endian file of the 32-bit class. It consists of
//! its header, two program headers, the strings "", "ab", two bytes that are not UTF-8, "" and "c", two relocations
//! without addends, the bytes 1 to 8, and four section headers. The first program header and the first section
//! header have type 0, so their sizes don't count. The third section has no bytes. The fourth ends past the file.
use crate::file::GoblinHeader;
use crate::layout::marked_layout;
use crate::numbers::GoblinRange;
use crate::results::GoblinRefusal;
use crate::tests::{called, file_of, found, number_shown, over, range, searched, stored};
use crate::*;

static FILE: &[u8; 308] = b"\x7fELF\x01\x02\x01\0\0\0\0\0\0\0\0\0\
    \0\x03\0\x01\0\0\0\x01\0\0\0\0\0\0\04\0\0\0\x94\0\0\0\0\04\0\x20\0\x02\0(\0\x04\0\0\
    \0\0\0\0\0\0\0\0\0\0\0\0\0\0\0\0\0\0\0\x08\0\0\0\x08\0\0\0\0\0\0\0\0\
    \0\0\0\x01\0\0\0t\0\0\x10\0\0\0\0\0\0\0\0\x20\0\0\0\x20\0\0\0\x05\0\0\0\x04\
    \0ab\0\xff\xfe\0c\
    \0\0\0\x10\0\0\x01\x01\0\0\0\x14\0\0\x02\x02\
    \x01\x02\x03\x04\x05\x06\x07\x08\
    \0\0\0\0\0\0\0\0\0\0\0\0\0\0\0\0\0\0\0\0\0\0\0\x05\0\0\0\0\0\0\0\0\0\0\0\0\0\0\0\0\
    \0\0\0\0\0\0\0\x03\0\0\0\0\0\0\0\0\0\0\0t\0\0\0\x08\0\0\0\0\0\0\0\0\0\0\0\0\0\0\0\0\
    \0\0\0\0\0\0\0\x08\0\0\0\0\0\0\0\0\0\0\0t\0\0\0\x10\0\0\0\0\0\0\0\0\0\0\0\0\0\0\0\0\
    \0\0\0\0\0\0\0\x03\0\0\0\0\0\0\0\0\0\0\x01,\0\0\0\x09\0\0\0\0\0\0\0\0\0\0\0\0\0\0\0\0";

const STRINGS: GoblinRange = GoblinRange {
    offset: 116,
    size: 8,
};

// The file's header.
fn header() -> GoblinHeader {
    file_of(FILE).1.header
}

fn segment_count() -> (u32, u64) {
    stored!(goblin_segment_count(&over(FILE, header())) => 9)
}

// The answer for the symbols of a range, with how many they are and the refusal's first number.
fn symbol_count(symbols: &GoblinRange) -> (u32, u64, u64) {
    let (status, count, why) = called!(goblin_symbol_count(&over(FILE, header()), symbols) => 9);
    (status, count, why.first)
}

fn reloc_count(is_rela: bool) -> (u32, u64) {
    stored!(goblin_reloc_count(&over(FILE, header()), &range(124, 23), is_rela) => 9)
}

#[test]
fn counts_segments_symbols_and_relocations(rt: HostRuntime) {
    assert!(rt; segment_count() == (0, 2));
    let (status, count, _) = symbol_count(&range(124, 24));
    assert!(rt; status == 0 && count == 1);
    assert!(rt; reloc_count(true) == (0, 1) && reloc_count(false) == (0, 2));
}

#[test]
fn refuses_symbols_at_the_end(rt: HostRuntime) {
    assert!(rt; symbol_count(&range(308, 0)) == (17, 9, 308));
}

// The offset of a section that is not stored.
const MARK: u64 = 0x0505_0505_0505_0505;

// The answer and the index of the first section of a type, from an index on, and where its bytes begin.
fn of_type(sh_type: u32, first: u64) -> (u32, u64, u64) {
    found!(goblin_section_by_type(&over(FILE, header()), sh_type, first) => section { file.offset })
}

#[test]
fn finds_sections_by_type(rt: HostRuntime) {
    assert!(rt; of_type(3, 0) == (0, 1, 116) && of_type(3, 1) == (0, 1, 116));
    assert!(rt; of_type(3, 2) == (0, 3, 300));
    assert!(rt; of_type(0, 0) == (0, 0, 0) && of_type(8, 2) == (0, 2, 116));
    assert!(rt; of_type(3, 4) == (1, 9, MARK) && of_type(9, 0) == (1, 9, MARK));
    assert!(rt; of_type(3, 18446744073709551615) == (1, 9, MARK));
}

// The answer for some bytes: their range, or the first two numbers of the refusal.
fn shown((status, found, why): (u32, GoblinRange, GoblinRefusal)) -> (u32, u64, u64) {
    if status > 1 {
        return (status, why.first, why.second);
    }
    (status, found.offset, found.size)
}

// That for the bytes of a section.
fn bytes_of_section(index: u64) -> (u32, u64, u64) {
    let (_, section, _) = called!(goblin_section(&over(FILE, header()), index) => section);
    shown(called!(goblin_section_range(&over(FILE, header()), &section) => range(0, 0)))
}

#[test]
fn finds_the_bytes_of_sections(rt: HostRuntime) {
    assert!(rt; bytes_of_section(0) == (1, 0, 0) && bytes_of_section(1) == (0, 116, 8));
    assert!(rt; bytes_of_section(2) == (1, 0, 0) && bytes_of_section(3) == (3, 9, 8));
}

// The same for those of a segment.
fn bytes_of_segment(index: u64, size: u64) -> (u32, u64, u64) {
    let (_, mut segment, _) = called!(goblin_segment(&over(FILE, header()), index) => segment);
    segment.file.size = size;
    shown(called!(goblin_segment_range(&over(FILE, header()), &segment) => range(0, 0)))
}

#[test]
fn finds_the_bytes_of_segments(rt: HostRuntime) {
    assert!(rt; bytes_of_segment(0, 8) == (1, 0, 0) && bytes_of_segment(1, 32) == (0, 116, 32));
    assert!(rt; bytes_of_segment(1, 0) == (1, 0, 0) && bytes_of_segment(1, 192) == (0, 116, 192));
    assert!(rt; bytes_of_segment(1, 193) == (3, 193, 192));
}

// The answer for the bytes of a string.
fn string_in(strings: &GoblinRange, offset: u64) -> (u32, u64, u64) {
    shown(called!(goblin_string(&over(FILE, header()), strings, offset) => range(0, 0)))
}

#[test]
fn finds_strings_that_are_not_utf8(rt: HostRuntime) {
    assert!(rt; string_in(&STRINGS, 0) == (0, 116, 0) && string_in(&STRINGS, 1) == (0, 117, 2));
    assert!(rt; string_in(&STRINGS, 4) == (0, 120, 2) && string_in(&STRINGS, 7) == (0, 123, 1));
    assert!(rt;
        string_in(&STRINGS, 8) == (1, 0, 0) && string_in(&range(300, 9), 0) == (21, 9, 300)
    );
}

// The offset of a refusal that is unchanged.
const OFFSET_MARK: u64 = 0x0707_0707_0707_0707;

// Whether the string at an offset is a name, and starts with it.
fn is_named(offset: u64, name: &[u8]) -> bool {
    goblin_string_is(&over(FILE, header()), &STRINGS, offset, name)
}

fn starts(offset: u64, start: &[u8]) -> bool {
    goblin_string_starts(&over(FILE, header()), &STRINGS, offset, start)
}

#[test]
fn compares_strings_in_place(rt: HostRuntime) {
    assert!(rt; is_named(1, b"ab") && is_named(2, b"b") && is_named(0, b"") && is_named(3, b""));
    assert!(rt; is_named(4, b"\xff\xfe") && is_named(7, b"c"));
    assert!(rt; !is_named(1, b"a") && !is_named(1, b"ac") && !is_named(1, b"abc"));
    assert!(rt; !is_named(1, b"") && !is_named(1, b"ab\0") && !is_named(7, b"c\0"));
    assert!(rt; !is_named(8, b"") && !is_named(u64::MAX, b"") && !is_named(117, b"ab"));
}

#[test]
fn compares_starts_of_strings_in_place(rt: HostRuntime) {
    assert!(rt; starts(1, b"") && starts(1, b"a") && starts(1, b"ab") && starts(3, b""));
    assert!(rt; starts(4, b"\xff") && starts(7, b"c"));
    assert!(rt; !starts(1, b"b") && !starts(1, b"abc"));
    assert!(rt; !starts(3, b"\0") && !starts(1, b"ab\0"));
    assert!(rt; !starts(8, b"") && !starts(7, b"c\0"));
    assert!(rt; !starts(u64::MAX, b"a"));
}

// Whether a string of a table is empty, and starts with nothing.
fn is_empty(strings: &GoblinRange, offset: u64) -> bool {
    goblin_string_is(&over(FILE, header()), strings, offset, b"")
}

fn is_there(strings: &GoblinRange, offset: u64) -> bool {
    goblin_string_starts(&over(FILE, header()), strings, offset, b"")
}

// (the zero byte at 304 is in the file, and the table is not)
#[test]
fn compares_no_strings_past_the_file(rt: HostRuntime) {
    assert!(rt; is_empty(&range(300, 8), 4) && is_there(&range(300, 8), 4));
    assert!(rt; !is_empty(&range(300, 9), 4) && !is_there(&range(300, 9), 4));
    assert!(rt; !is_empty(&range(309, 0), 0) && !is_there(&range(u64::MAX, 9), 0));
}

// The answer for a string that a zero byte closes.
fn closed_in(strings: &GoblinRange, offset: u64) -> (u32, u64, u64) {
    shown(called!(goblin_string_closed(&over(FILE, header()), strings, offset) => range(9, 9)))
}

// (after the string "c", which ends with its range, the file has a zero byte)
#[test]
fn finds_strings_that_are_closed(rt: HostRuntime) {
    assert!(rt; closed_in(&STRINGS, 0) == (0, 116, 0) && closed_in(&STRINGS, 1) == (0, 117, 2));
    assert!(rt; closed_in(&STRINGS, 4) == (0, 120, 2) && closed_in(&STRINGS, 6) == (0, 122, 0));
    assert!(rt; closed_in(&STRINGS, 7) == (1, 9, 9) && closed_in(&STRINGS, 8) == (1, 9, 9));
    assert!(rt; closed_in(&range(116, 9), 7) == (0, 123, 1));
    assert!(rt; closed_in(&range(300, 9), 0) == (21, 9, 300));
}

// The part of a table up to its last zero byte.
fn closed_part(strings: &GoblinRange) -> (u32, u64, u64) {
    shown(called!(goblin_closed_strings(&over(FILE, header()), strings) => range(9, 9)))
}

#[test]
fn finds_the_closed_part_of_strings(rt: HostRuntime) {
    assert!(rt; closed_part(&STRINGS) == (0, 116, 7) && closed_part(&range(116, 4)) == (0, 116, 4));
    assert!(rt;
        closed_part(&range(116, 3)) == (0, 116, 1) && closed_part(&range(117, 2)) == (0, 117, 0)
    );
    assert!(rt;
        closed_part(&range(308, 0)) == (0, 308, 0) && closed_part(&range(300, 9)) == (21, 9, 300)
    );
}

// Where a name that is not UTF-8 is found among sections whose names begin at byte 4 of the strings.
fn finds_bytes(name: &[u8]) -> (u32, u64) {
    let mut file = *FILE;
    file[151 + 40] = 4;
    let mut index = 9;
    let file = over(&file, header());
    let (status, _, _) =
        called!(goblin_section_by_name(&file, &STRINGS, name, 0, &mut index) => section);
    (status, index)
}

#[test]
fn finds_names_that_are_not_utf8(rt: HostRuntime) {
    assert!(rt; finds_bytes(b"\xff\xfe") == (0, 1) && finds_bytes(b"\xff") == (1, 9));
    assert!(rt; finds_bytes(b"") == (0, 0));
}

// What is stored for the strings at offsets: the answer, their number, the ranges, and where what is refused begins.
fn strings_in(strings: &GoblinRange, offsets: &[u64]) -> (u32, u64, [u64; 4], u64) {
    let mut found = [range(9, 9); 2];
    let (status, filled, why) =
        called!(goblin_strings(&over(FILE, header()), strings, offsets, &mut found) => 9);
    let [one, two] = found;
    (
        status,
        filled,
        [one.offset, one.size, two.offset, two.size],
        why.offset,
    )
}

#[test]
fn finds_many_strings_that_are_not_utf8(rt: HostRuntime) {
    assert!(rt; strings_in(&STRINGS, &[4, 7]) == (0, 2, [120, 2, 123, 1], OFFSET_MARK));
    assert!(rt; strings_in(&STRINGS, &[4, 8]) == (1, 1, [120, 2, 9, 9], OFFSET_MARK));
    assert!(rt; strings_in(&range(300, 9), &[0]) == (21, 0, [9, 9, 9, 9], 300));
    assert!(rt; strings_in(&range(300, 9), &[]) == (0, 0, [9, 9, 9, 9], OFFSET_MARK));
}

// Where what is refused begins, by the refusal of a call that is refused.
fn begins<T: Drop>((status, _, why): (u32, T, GoblinRefusal)) -> u64 {
    if status > 1 { why.offset } else { u64::MAX }
}

// The same of the strings, of one that is not UTF-8, and of a symbol's name that is searched for in strings past the
// end, or among symbols past the end.
fn strings_begin() -> bool {
    let past = &range(300, 9);
    let in_past = begins(called!(goblin_string_utf8(&over(FILE, header()), past, 0) => range));
    let no_text = begins(called!(goblin_string_utf8(&over(FILE, header()), &STRINGS, 4) => range));
    in_past == 300 && no_text == 120
}

fn searches_begin(symbols: &GoblinRange, names: &GoblinRange) -> u64 {
    let (status, index, _, why) =
        searched!(goblin_symbol_by_name(&over(FILE, header()), symbols, names, b"ab", 0) => symbol);
    begins((status, index, why))
}

// The same of a section's name, by where the section headers begin.
fn section_searches_begin(e_shoff: u64, names: &GoblinRange) -> u64 {
    let mut header = header();
    header.e_shoff = e_shoff;
    let (status, index, _, why) =
        searched!(goblin_section_by_name(&over(FILE, header), names, b"ab", 0) => section);
    begins((status, index, why))
}

fn headers_begin() -> bool {
    let mut header = header();
    header.e_shoff = 300;
    header.e_phoff = 301;
    let sections = begins(called!(goblin_section_count(&over(FILE, header)) => 9));
    let segments = begins(called!(goblin_segment_count(&over(FILE, header)) => 9));
    let own = begins(file_of(&FILE[..51]));
    own == 0 && sections == 300 && segments == 301
}

fn parts_begin() -> bool {
    let (notes, relocs) = (&range(300, 8), &range(299, 16));
    let note = begins(called!(goblin_note_utf8(&over(FILE, header()), notes, 4, 304) => note));
    let number = begins(called!(goblin_number(&over(FILE, header()), 305, 4) => 9));
    let relocs = begins(called!(goblin_reloc_count(&over(FILE, header()), relocs, false) => 9));
    note == 304 && number == 305 && relocs == 299
}

#[test]
fn says_where_what_is_refused_begins(rt: HostRuntime) {
    assert!(rt; headers_begin());
    assert!(rt; strings_begin());
    assert!(rt; parts_begin());
    assert!(rt; searches_begin(&range(124, 23), &range(300, 9)) == 300);
    assert!(rt; searches_begin(&range(308, 16), &range(300, 9)) == 308);
    assert!(rt; section_searches_begin(308, &range(300, 9)) == 308);
    assert!(rt; section_searches_begin(header().e_shoff, &range(300, 9)) == 300);
}

// The answer for a number of `width` bytes at an offset, big endian or little endian.
fn number_at(offset: u64, width: u64, order: u8) -> (u32, u64, u64) {
    let mut header = header();
    header.ei_data = order;
    number_shown(called!(goblin_number(&over(FILE, header), offset, width) => 9))
}

#[test]
fn reads_numbers(rt: HostRuntime) {
    assert!(rt; number_at(140, 1, 2) == (0, 1, 0) && number_at(140, 2, 2) == (0, 0x0102, 0));
    assert!(rt; number_at(140, 4, 2) == (0, 0x0102_0304, 0));
    assert!(rt; number_at(140, 8, 2) == (0, 0x0102_0304_0506_0708, 0));
    assert!(rt; number_at(141, 1, 1) == (0, 2, 0) && number_at(140, 2, 1) == (0, 0x0201, 0));
    assert!(rt; number_at(140, 4, 1) == (0, 0x0403_0201, 0));
    assert!(rt; number_at(140, 8, 1) == (0, 0x0807_0605_0403_0201, 0));
    assert!(rt; number_at(140, 0, 2) == (1, 9, 0) && number_at(140, 3, 2) == (1, 9, 0));
    assert!(rt; number_at(400, 16, 2) == (1, 9, 0) && number_at(308, 1, 2) == (4, 308, 308));
    assert!(rt; number_at(305, 4, 2) == (3, 4, 305) && number_at(304, 4, 2) == (0, 0, 0));
}
