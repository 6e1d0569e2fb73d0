//! Numbers in a range, offsets of addresses, and ranges that are cut to the file, on the file of `tests`.
use crate::layout::marked_layout;
use crate::numbers::GoblinRange;
use crate::tests::{FILE, STRINGS, called, header, number_shown, over, range, with_segments};
use crate::*;

fn number_in(part: GoblinRange, offset: u64, width: u64) -> (u32, u64, u64) {
    number_shown(called!(goblin_number_in(&over(FILE, header()), &part, offset, width) => 9))
}

#[test]
fn reads_numbers_in_ranges(rt: HostRuntime) {
    assert!(rt; number_in(STRINGS, 1, 1) == (0, 0x66, 0));
    assert!(rt; number_in(STRINGS, 0, 4) == (0, 0x6600, 0));
    assert!(rt; number_in(STRINGS, 3, 2) == (3, 2, 55) && number_in(STRINGS, 4, 1) == (4, 4, 56));
    assert!(rt; number_in(range(200, 9), 0, 1) == (3, 9, 200));
    assert!(rt; number_in(range(200, 9), 0, 3) == (1, 9, 0));
}

fn in_file(offset: u64, size: u64) -> (u64, u64) {
    let mut part = range(9, 9);
    goblin_range_in_file(&over(FILE, header()), &range(offset, size), &mut part);
    (part.offset, part.size)
}

#[test]
fn cuts_ranges(rt: HostRuntime) {
    assert!(rt; in_file(52, 4) == (52, 4) && in_file(200, 9) == (200, 8));
    assert!(rt; in_file(208, 1) == (208, 0) && in_file(u64::MAX, u64::MAX) == (208, 0));
}

// A program header, of a segment of 16 bytes of the file from offset 32 on that is loaded at the address 0x1000, and
// the first eight of these bytes.
static LOADED: &[u8; 40] = b"\x01\0\0\0\x20\0\0\0\0\x10\0\0\0\0\0\0\
    \x10\0\0\0\x20\0\0\0\0\0\0\0\0\0\0\0........";

fn offset_of(address: u64) -> (u32, u64, u64) {
    number_shown(
        called!(goblin_address_to_offset(&over(LOADED, with_segments(0, 1)), address) => 9),
    )
}

#[test]
fn converts_addresses_to_offsets(rt: HostRuntime) {
    assert!(rt; offset_of(0x1000) == (0, 32, 0) && offset_of(0x1007) == (0, 39, 0));
    assert!(rt; offset_of(0x1008) == (4, 40, 40) && offset_of(0x1010) == (1, 9, 0));
    assert!(rt; offset_of(0xfff) == (1, 9, 0));
}
