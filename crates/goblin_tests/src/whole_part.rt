//! Cases with their results: the number of segments, and headers that count only what lies whole in the file.
use crate::compare::{is, reports, returns};
use crate::container::{BIG64, LITTLE32};
use goblin::elf::header::Header;
use goblin::elf::program_header::ProgramHeader;
use goblin::elf::section_header::SectionHeader;
use goblin::elf::whole_part;
use goblin::error::Result;

// The bytes of two whole section headers of the 32-bit class at offset 8, and of a third without its last byte. The
// first one's size and information are these numbers, and those of the others are 0.
fn cut(sh_size: u8, sh_info: u8) -> [u8; 127] {
    let mut bytes = [0; 127];
    bytes[28] = sh_size;
    bytes[36] = sh_info;
    bytes
}

// The `e_shoff` and `e_shnum` of the whole part of that file.
fn sections(offset: usize, count: u16) -> (usize, u16) {
    let part = SectionHeader::whole_part(&cut(3, 0), offset, count, LITTLE32);
    (part.offset, part.count)
}

#[test]
fn keeps_sections_that_lie_in_the_file(rt: HostRuntime) {
    assert!(rt; is(rt, [sections(8, 1), sections(8, 2)], [(8, 1), (8, 2)]));
    assert!(rt; is(rt, [sections(0, 3), sections(0, 0)], [(0, 3), (0, 0)]));
    // (the size of the header at 48 is 0, so it is one)
    assert!(rt; is(rt, sections(48, 0), (48, 0)));
}

#[test]
fn cuts_sections_to_those_in_the_file(rt: HostRuntime) {
    assert!(rt; is(rt, [sections(8, 3), sections(8, 0xffff)], [(8, 2), (8, 2)]));
    assert!(rt; is(rt, sections(8, 0), (8, 2)));
    assert!(rt; is(rt, [sections(88, 1), sections(88, 0)], [(0, 0), (0, 0)]));
    assert!(rt; is(rt, [sections(127, 3), sections(usize::MAX, 0)], [(0, 0); 2]));
}

// The number of segments by `e_phnum` and the section headers' offset.
fn count_in(number: u16, sections: usize) -> Result<usize> {
    ProgramHeader::count_in(&cut(3, 2), number, sections, LITTLE32)
}

#[test]
fn counts_segments_by_section_0(rt: HostRuntime) {
    assert!(rt; returns(rt, count_in(5, 300), 5));
    assert!(rt; returns(rt, count_in(0xfffe, 8), 0xfffe));
    assert!(rt; returns(rt, count_in(0xffff, 8), 2));
    assert!(rt; returns(rt, count_in(0xffff, 0), 0xffff));
    assert!(rt; reports(rt, count_in(0xffff, 88), "type is too big (40) for 39"));
    assert!(rt; reports(rt, count_in(0xffff, 300), "bad offset 300"));
}

// The `e_phnum` of the whole part, with the program headers at offset 60, where two lie whole in the file.
fn segments(sh_info: u8, number: u16, sections: usize) -> u16 {
    ProgramHeader::whole_part(&cut(3, sh_info), number, 60, sections, LITTLE32)
}

#[test]
fn cuts_segments_to_those_in_the_file(rt: HostRuntime) {
    assert!(rt; is(rt, [segments(0, 2, 0), segments(0, 0, 300)], [2, 0]));
    assert!(rt; is(rt, [segments(0, 3, 0), segments(0, 0xfffe, 8)], [2, 2]));
    assert!(rt;
        is(
            rt,
            [segments(2, 0xffff, 8), segments(0, 0xffff, 8)],
            [0xffff; 2]
        )
    );
    assert!(rt; is(rt, [segments(3, 0xffff, 8), segments(0, 0xffff, 0)], [2, 2]));
    assert!(rt; is(rt, segments(0, 0xffff, 88), 2));
}

// The parts of a file of 70,000 whole section headers, which states 80,000 of them and as many segments: `e_shnum`, and
// `e_phnum` by section 0, without sections, with section 0 past the file's end, and with 70,000 whole program headers.
fn large(rt: HostRuntime) -> Option<[u16; 5]> {
    let mut bytes = vec![in rt.alloc(); 0u8; 40 + 70_000 * 40].ok()?;
    bytes[60..63].copy_from_slice(b"\x80\x38\x01");
    bytes[68..71].copy_from_slice(b"\x80\x38\x01");
    let bytes = bytes.as_slice();
    let part = SectionHeader::whole_part(bytes, 40, 0, LITTLE32);
    Some([
        part.count,
        ProgramHeader::whole_part(bytes, 0xffff, 2_000_000, 40, LITTLE32),
        ProgramHeader::whole_part(bytes, 0xffff, 40, 0, LITTLE32),
        ProgramHeader::whole_part(bytes, 0xffff, 40, bytes.len(), LITTLE32),
        ProgramHeader::whole_part(bytes, 0xffff, 560_040, 40, LITTLE32),
    ])
}

#[test]
fn cuts_to_what_the_fields_hold(rt: HostRuntime) {
    let counts = [0xffff, 25_001, 0xffff, 0xfffe, 0xfffe];
    assert!(rt; is(rt, large(rt), Some(counts)));
}

// A header of a file with three section headers at offset 8 and three program headers at offset 60.
fn stated() -> Header {
    let mut header = Header::new(LITTLE32);
    header.e_shoff = 8;
    header.e_shnum = 3;
    header.e_phoff = 60;
    header.e_phnum = 3;
    header.e_shstrndx = 2;
    header
}

#[test]
fn makes_headers_of_the_whole_part(rt: HostRuntime) {
    let mut whole = stated();
    whole.e_shnum = 2;
    whole.e_phnum = 2;
    assert!(rt; returns(rt, stated().whole(&cut(0, 0)), whole));
    assert!(rt; returns(rt, whole.whole(&cut(0, 0)), whole));
    whole.e_shoff = 0;
    whole.e_shnum = 0;
    whole.e_phnum = 0;
    assert!(rt; returns(rt, stated().whole(&[0; 47]), whole));
    assert!(rt; returns(rt, Header::new(BIG64).whole(&[]), Header::new(BIG64)));
    assert!(rt; whole_part::PN_XNUM == 0xffff);
}

#[test]
fn counts_segments_of_a_header(rt: HostRuntime) {
    let mut header = stated();
    assert!(rt; returns(rt, header.segment_count(&[]), 3));
    header.e_phnum = 0xffff;
    assert!(rt; returns(rt, header.segment_count(&cut(0, 7)), 7));
    header.e_ident[4] = 0;
    let text = "Malformed entity: Invalid class in Header: 0";
    assert!(rt; reports(rt, header.segment_count(&[]), text));
    assert!(rt; reports(rt, header.whole(&[]), text));
}
