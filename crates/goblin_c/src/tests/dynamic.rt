//! The calls for the dynamic section, on bytes with two program headers, strings, and the section: a library, the
//! address and the size of the strings, the end, and the library's own name after it.
use crate::layout::marked_layout;
use crate::numbers::GoblinRange;
use crate::results::GoblinRefusal;
use crate::tests::{called, header, over, range, stored, with_segments};
use crate::*;

static BYTES: &[u8; 112] =
    b"\x01\0\0\0\x40\0\0\0\0\x10\0\0\0\0\0\0\x30\0\0\0\x30\0\0\0\x04\0\0\0\0\0\0\0\
    \x02\0\0\0\x48\0\0\0\x08\x10\0\0\0\0\0\0\x28\0\0\0\x28\0\0\0\x04\0\0\0\0\0\0\0\
    \0liba\0b\0\
    \x01\0\0\0\x01\0\0\0\x05\0\0\0\0\x10\0\0\x0a\0\0\0\x08\0\0\0\0\0\0\0\0\0\0\0\x0e\0\0\0\x01\0\0\0";

const DYNAMIC: GoblinRange = GoblinRange {
    offset: 72,
    size: 40,
};

// The answer for a range: the range, or the first number of the refusal and where it begins.
fn range_shown((status, found, why): (u32, GoblinRange, GoblinRefusal)) -> (u32, u64, u64) {
    if status > 1 {
        return (status, why.first, why.offset);
    }
    (status, found.offset, found.size)
}

fn dynamic(bytes: &[u8], segments: u16) -> (u32, u64, u64) {
    range_shown(called!(goblin_dynamic(&over(bytes, with_segments(0, segments))) => range(9, 9)))
}

#[test]
fn finds_the_dynamic_section(rt: HostRuntime) {
    assert!(rt; dynamic(BYTES, 2) == (0, 72, 40) && dynamic(BYTES, 1) == (1, 9, 9));
    assert!(rt; dynamic(&BYTES[..111], 2) == (3, 40, 72));
    assert!(rt; dynamic(&BYTES[..72], 2) == (4, 72, 72));
    assert!(rt; dynamic(&BYTES[..63], 2) == (6, 2, 0));
    // (one with a size of 0 is found)
    let mut empty = *BYTES;
    empty[48] = 0;
    assert!(rt; dynamic(&empty, 2) == (0, 72, 0));
}

fn strings(dynamic: GoblinRange, segments: u16) -> (u32, u64, u64) {
    let header = with_segments(0, segments);
    range_shown(called!(goblin_dynamic_strings(&over(BYTES, header), &dynamic) => range(9, 9)))
}

#[test]
fn finds_its_strings(rt: HostRuntime) {
    assert!(rt; strings(DYNAMIC, 2) == (0, 64, 8) && strings(DYNAMIC, 1) == (0, 64, 8));
    assert!(rt; strings(range(72, 23), 2) == (1, 9, 9) && strings(range(72, 41), 2) == (3, 41, 72));
    assert!(rt; strings(DYNAMIC, 4) == (6, 4, 0) && strings(range(72, 41), 4) == (3, 41, 72));
}

// The same bytes with three section headers after them: none, the dynamic section, and its strings, which it links to.
fn with_sections() -> [u8; 232] {
    let mut file = [0; 232];
    for (place, byte) in file.iter_mut().zip(BYTES.iter()) {
        *place = *byte;
    }
    (file[156], file[168], file[172], file[176]) = (6, 72, 40, 2);
    (file[196], file[208], file[212]) = (3, 64, 8);
    file
}

// By these sections, and by so many segments, the range of the dynamic section, and that of its strings.
fn by_sections(count: u16) -> [(u32, u64, u64); 2] {
    let (file, mut header) = (with_sections(), with_segments(0, count));
    (header.e_shoff, header.e_shnum) = (112, 3);
    let file = over(&file, header);
    let place = range_shown(called!(goblin_dynamic(&file) => range(9, 9)));
    let strings = range_shown(called!(goblin_dynamic_strings(&file, &DYNAMIC) => range(9, 9)));
    [place, strings]
}

#[test]
fn goes_by_sections_without_segments(rt: HostRuntime) {
    assert!(rt; by_sections(0) == [(0, 72, 40), (0, 64, 8)]);
    assert!(rt; by_sections(1) == [(1, 9, 9), (0, 64, 8)]);
    assert!(rt; dynamic(BYTES, 0) == (3, 40, 88) && strings(DYNAMIC, 0) == (3, 40, 88));
}

fn count(dynamic: GoblinRange) -> (u32, u64) {
    stored!(goblin_dynamic_count(&over(BYTES, header()), &dynamic) => 9)
}

#[test]
fn counts_entries_up_to_the_end(rt: HostRuntime) {
    assert!(rt; count(DYNAMIC) == (0, 3) && count(range(72, 23)) == (0, 2));
    assert!(rt; count(range(96, 16)) == (0, 0) && count(range(72, 41)) == (3, 9));
}

// The index and the value of the first entry with a tag, from an index on.
fn value_from(tag: u64, first: u64) -> (u32, u64, u64) {
    let mut index = 9;
    let file = over(BYTES, header());
    let (status, value) =
        stored!(goblin_dynamic_value(&file, &DYNAMIC, tag, first, &mut index) => 9);
    (status, index, value)
}

fn value(tag: u64) -> (u32, u64) {
    let (status, _, value) = value_from(tag, 0);
    (status, value)
}

#[test]
fn finds_values_from_an_index_on(rt: HostRuntime) {
    assert!(rt; value_from(5, 0) == (0, 1, 0x1000) && value_from(5, 1) == (0, 1, 0x1000));
    assert!(rt; value_from(5, 2) == (1, 9, 9) && value_from(10, u64::MAX) == (1, 9, 9));
}

#[test]
fn finds_values_before_the_end(rt: HostRuntime) {
    assert!(rt; value(1) == (0, 1) && value(5) == (0, 0x1000) && value(10) == (0, 8));
    assert!(rt; value(0) == (1, 9) && value(14) == (1, 9));
}

// The status, the number of entries, and the tags of three, from an index on, of a buffer with a capacity.
fn entries(first: u64, capacity: usize) -> (u32, u64, [u64; 3]) {
    let mut all = [marked_layout().entry; 3];
    let buffer = &mut all[..capacity.min(3)];
    let (status, filled) =
        stored!(goblin_dynamic_entries(&over(BYTES, header()), &DYNAMIC, first, buffer) => 9);
    (status, filled, all.map(|entry| entry.d_tag))
}

// The tag of an entry that is not written.
const MARK: u64 = 0x0101_0101_0101_0101;

#[test]
fn fills_entries_up_to_the_end(rt: HostRuntime) {
    assert!(rt; entries(0, 3) == (0, 3, [1, 5, 10]) && entries(0, 2) == (0, 2, [1, 5, MARK]));
    assert!(rt; entries(1, 3) == (0, 2, [5, 10, MARK]) && entries(2, 0) == (0, 0, [MARK; 3]));
    assert!(rt; entries(3, 3) == (1, 9, [MARK; 3]) && entries(4, 3) == (0, 1, [14, MARK, MARK]));
    assert!(rt; entries(5, 3) == (1, 9, [MARK; 3]) && entries(u64::MAX, 3) == (1, 9, [MARK; 3]));
}
