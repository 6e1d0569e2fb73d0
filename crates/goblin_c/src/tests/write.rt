//! Records and numbers that are put into files of both classes and byte orders: the bytes after, and the refusals.
use crate::dynamic::GoblinDyn;
use crate::file::GoblinHeader;
use crate::layout::marked_layout;
use crate::numbers::GoblinRange;
use crate::relocs::GoblinReloc;
use crate::results::GoblinRefusal;
use crate::sections::GoblinSection;
use crate::segments::GoblinSegment;
use crate::symbols::GoblinSymbol;
use crate::tests::{FILE, SYMBOLS, called, changed, header, over, range, with_segments};
use crate::*;

// A refusal of marks.
fn unread() -> GoblinRefusal {
    marked_layout().refusal
}

// Whether a file has these bytes at an offset, and is the same as another before and after them.
fn has_at(file: &[u8], offset: usize, own: &[u8], old: &[u8]) -> bool {
    if file.len() != old.len() || offset > file.len() || own.len() > file.len() - offset {
        return false;
    }
    let end = offset + own.len();
    &file[offset..end] == own && file[..offset] == old[..offset] && file[end..] == old[end..]
}

// What a call that puts into a copy of these bytes returned, and whether the copy then has some bytes at an offset, and
// no other changed.
macro_rules! put {
    ($call:ident($old:expr $(, $given:expr)*) => $offset:expr, $own:expr) => {{
        let (mut file, mut why) = (*$old, unread());
        let status = $call(&mut file, $($given,)* &mut why);
        ((status, why.first, why.offset), has_at(&file, $offset, $own, $old))
    }};
}

// A header that names a class and a byte order, and no headers.
fn names(class: u8, order: u8) -> GoblinHeader {
    let mut header = marked_layout().header;
    (header.ei_class, header.ei_data, header.e_machine) = (class, order, 62);
    (header.e_shoff, header.e_phoff) = (0, 0);
    header
}

fn section() -> GoblinSection {
    GoblinSection {
        sh_name: 0x0506,
        sh_type: 0x0f10,
        sh_flags: 0x0708,
        sh_addr: 0x090a,
        file: range(0x0102, 0x0304),
        sh_link: 0x1112,
        sh_info: 0x1314,
        sh_addralign: 0x0b0c,
        sh_entsize: 0x0d0e,
    }
}

static SECTION: &[u8; 40] =
    b"\x06\x05\0\0\x10\x0f\0\0\x08\x07\0\0\x0a\x09\0\0\x02\x01\0\0\x04\x03\0\0\
    \x12\x11\0\0\x14\x13\0\0\x0c\x0b\0\0\x0e\x0d\0\0";

// What a call returned, and of its refusal the first number and the offset: of a value that doesn't fit its field, the
// value and where the field lies.
type Answer = (u32, u64, u64);

// The same, and whether the bytes then are as expected.
type Put = (Answer, bool);

// Puts a section at an index of the file, by the file's header but for the number of sections.
fn puts_section_of(count: u16, s: &GoblinSection, index: u64, offset: usize, own: &[u8]) -> Put {
    let mut header = header();
    header.e_shnum = count;
    put!(goblin_put_section(FILE, &header, index, s) => offset, own)
}

fn puts_section(s: &GoblinSection, index: u64, offset: usize, own: &[u8]) -> Put {
    puts_section_of(3, s, index, offset, own)
}

const MARK: u64 = 0x0707_0707_0707_0707;

// The answer of a call that puts, and of one that finds no place: the refusal has its marks.
const DONE: Answer = (0, 0x0303_0303_0303_0303, MARK);

const NONE: Answer = (1, 0x0303_0303_0303_0303, MARK);

#[test]
fn puts_sections(rt: HostRuntime) {
    assert!(rt; puts_section(&section(), 1, 128, SECTION) == (DONE, true));
    assert!(rt; puts_section(&section(), 2, 168, SECTION) == (DONE, true));
    assert!(rt; puts_section(&section(), 3, 0, b"") == (NONE, true));
    let mut wide = section();
    wide.sh_flags = 1 << 32;
    assert!(rt; puts_section(&wide, 1, 0, b"") == ((24, 1 << 32, 128 + 8), true));
    wide.file.size = (1 << 32) + 5;
    assert!(rt; puts_section(&wide, 2, 0, b"") == ((24, 1 << 32, 168 + 8), true));
    wide.sh_flags = 0;
    assert!(rt; puts_section(&wide, 2, 0, b"") == ((24, (1 << 32) + 5, 168 + 20), true));
    wide = section();
    wide.sh_entsize = u64::MAX;
    assert!(rt; puts_section(&wide, 0, 0, b"") == ((24, u64::MAX, 88 + 36), true));
    // Of a fourth section header there is no byte.
    assert!(rt; puts_section_of(4, &section(), 0, 0, b"") == ((4, 208, 88), true));
}

fn segment() -> GoblinSegment {
    GoblinSegment {
        p_type: 0x0d0e,
        p_flags: 0x0f10,
        file: range(0x0102, 0x0304),
        p_vaddr: 0x0506,
        p_paddr: 0x0708,
        p_memsz: 0x090a,
        p_align: 0x0b0c,
    }
}

// The segment in big endian, of the 64-bit class.
static SEGMENT: &[u8; 56] =
    b"\0\0\x0d\x0e\0\0\x0f\x10\0\0\0\0\0\0\x01\x02\0\0\0\0\0\0\x05\x06\0\0\0\0\0\0\x07\x08\
    \0\0\0\0\0\0\x03\x04\0\0\0\0\0\0\x09\x0a\0\0\0\0\0\0\x0b\x0c";

fn puts_segment(s: &GoblinSegment, class: u8, index: u64, own: &[u8]) -> Put {
    let mut header = names(class, 2);
    (header.e_phoff, header.e_phnum) = (8, 2);
    put!(goblin_put_segment(FILE, &header, index, s) => 64, own)
}

#[test]
fn puts_segments(rt: HostRuntime) {
    assert!(rt; puts_segment(&segment(), 2, 1, SEGMENT) == (DONE, true));
    assert!(rt; puts_segment(&segment(), 2, 2, b"") == (NONE, true));
    let mut wide = segment();
    wide.p_align = u64::MAX;
    assert!(rt; puts_segment(&wide, 2, 0, b"") == (DONE, false));
    assert!(rt; puts_segment(&wide, 1, 0, b"") == ((24, u64::MAX, 8 + 28), true));
    wide.p_memsz = 1 << 40;
    assert!(rt; puts_segment(&wide, 1, 1, b"") == ((24, 1 << 40, 40 + 20), true));
}

fn symbol() -> GoblinSymbol {
    GoblinSymbol {
        st_name: 2,
        st_info: 0x21,
        st_other: 3,
        st_shndx: 0xfff1,
        st_value: 0x2030_4050,
        st_size: 7,
    }
}

fn puts_symbol(s: &GoblinSymbol, index: u64, offset: usize, own: &[u8]) -> Put {
    put!(goblin_put_symbol(FILE, &header(), &SYMBOLS, index, s) => offset, own)
}

#[test]
fn puts_symbols(rt: HostRuntime) {
    let own = b"\x02\0\0\0\x50\x40\x30\x20\x07\0\0\0\x21\x03\xf1\xff";
    assert!(rt; puts_symbol(&symbol(), 1, 72, own) == (DONE, true));
    assert!(rt; puts_symbol(&symbol(), 2, 0, b"") == (NONE, true));
    let mut wide = symbol();
    wide.st_size = u64::MAX;
    assert!(rt; puts_symbol(&wide, 1, 0, b"") == ((24, u64::MAX, 72 + 8), true));
    wide.st_value = 1 << 32;
    assert!(rt; puts_symbol(&wide, 0, 0, b"") == ((24, 1 << 32, 56 + 4), true));
}

fn reloc(r_sym: u32, r_type: u32, r_addend: i64) -> GoblinReloc {
    GoblinReloc {
        r_offset: 16,
        r_type,
        r_sym,
        r_addend,
    }
}

static NOTHING: &[u8; 48] = &[0; 48];

// Puts a relocation at index 1 of 48 bytes. Returns the answer, and whether the bytes then are these at an offset.
fn puts_reloc(h: &GoblinHeader, is_rela: bool, r: &GoblinReloc, offset: usize, own: &[u8]) -> Put {
    put!(goblin_put_reloc(NOTHING, h, &range(0, 48), is_rela, 1, r) => offset, own)
}

#[test]
fn puts_relocations(rt: HostRuntime) {
    let own = b"\x10\0\0\0\x01\x02\0\0\xfc\xff\xff\xff";
    assert!(rt; puts_reloc(&names(1, 1), true, &reloc(2, 1, -4), 12, own) == (DONE, true));
    assert!(rt; puts_reloc(&names(1, 1), false, &reloc(2, 1, 0), 8, &own[..8]) == (DONE, true));
    let wide = b"\0\0\0\0\0\0\0\x10\0\0\0\x02\0\0\x01\x01\xff\xff\xff\xff\xff\xff\xff\xfc";
    assert!(rt; puts_reloc(&names(2, 2), true, &reloc(2, 0x101, -4), 24, wide) == (DONE, true));
    let refused = puts_reloc(&names(1, 1), true, &reloc(2, 0x101, -4), 0, b"");
    assert!(rt; refused == ((24, 0x101, 12 + 4), true));
    let refused = puts_reloc(&names(1, 1), true, &reloc(2, 1, 1 << 31), 0, b"");
    assert!(rt; refused == ((24, 1 << 31, 12 + 8), true));
    let refused = puts_reloc(&names(1, 1), true, &reloc(1 << 24, 0x101, -4), 0, b"");
    assert!(rt; refused == ((24, 1 << 24, 12 + 4), true));
}

// What is said of an addend that is put at index 0, of a relocation that fits but for it: the item of the refusal, its
// number and its offset.
fn refuses_addend(h: &GoblinHeader, is_rela: bool, r_addend: i64) -> (u32, u64, u64) {
    let (mut file, mut why) = (*NOTHING, unread());
    let own = reloc(2, 1, r_addend);
    let status = goblin_put_reloc(&mut file, h, &range(0, 48), is_rela, 0, &own, &mut why);
    if status == 24 && file == *NOTHING {
        return (why.item, why.first, why.offset);
    }
    (status, 0, 0)
}

#[test]
fn marks_addends_of_tables_without(rt: HostRuntime) {
    let (little, big) = (names(1, 1), names(2, 1));
    assert!(rt; refuses_addend(&little, false, 5) == (7, 5, 8));
    assert!(rt; refuses_addend(&big, false, -1) == (7, u64::MAX, 16));
    assert!(rt; refuses_addend(&little, true, 1 << 31) == (0, 1 << 31, 8));
    assert!(rt; refuses_addend(&little, true, -1 << 31) == (0, 0, 0));
}

// Of little-endian MIPS64: the symbol, then the type with its bytes in the other order.
#[test]
fn puts_pairs_of_mips64(rt: HostRuntime) {
    let mut mips = names(2, 1);
    mips.e_machine = 8;
    let own = b"\x10\0\0\0\0\0\0\0\x02\0\0\0\x04\x03\x02\x01";
    assert!(rt; puts_reloc(&mips, false, &reloc(2, 0x0403_0201, 0), 16, own) == (DONE, true));
}

fn entry(d_tag: u64, d_val: u64) -> GoblinDyn {
    GoblinDyn { d_tag, d_val }
}

// Puts an entry into 48 bytes that are read as a dynamic section: those of tag 0 are written, too.
fn puts_entry(h: &GoblinHeader, index: u64, d: &GoblinDyn, offset: usize, own: &[u8]) -> Put {
    put!(goblin_put_dynamic_entry(NOTHING, h, &range(0, 47), index, d) => offset, own)
}

#[test]
fn puts_entries(rt: HostRuntime) {
    let (little, big) = (names(1, 1), names(2, 2));
    let own = b"\x1d\0\0\0\x04\x03\x02\x01";
    assert!(rt; puts_entry(&little, 4, &entry(29, 0x0102_0304), 32, own) == (DONE, true));
    assert!(rt; puts_entry(&little, 5, &entry(29, 1), 0, b"") == (NONE, true));
    let wide = b"\0\0\0\x01\0\0\0\x02\0\0\0\0\0\0\0\x03";
    assert!(rt; puts_entry(&big, 1, &entry(0x1_0000_0002, 3), 16, wide) == (DONE, true));
    assert!(rt; puts_entry(&big, 2, &entry(1, 1), 0, b"") == (NONE, true));
    let refused = puts_entry(&little, 1, &entry(1 << 32, 1 << 33), 0, b"");
    assert!(rt; refused == ((24, 1 << 32, 8), true));
    assert!(rt; puts_entry(&little, 0, &entry(1, 1 << 33), 0, b"") == ((24, 1 << 33, 4), true));
}

fn puts_number(order: u8, offset: u64, width: u64, value: u64) -> (Answer, [u8; 4]) {
    let (mut bytes, mut why) = (*b"....", unread());
    let header = names(1, order);
    let status = goblin_put_number(&mut bytes, &header, offset, width, value, &mut why);
    ((status, why.first, why.offset), bytes)
}

#[test]
fn puts_numbers(rt: HostRuntime) {
    assert!(rt; puts_number(1, 1, 2, 0x4142) == (DONE, *b".BA."));
    assert!(rt; puts_number(2, 1, 2, 0x4142) == (DONE, *b".AB."));
    assert!(rt; puts_number(2, 0, 4, 0x4142_4344) == (DONE, *b"ABCD"));
    assert!(rt; puts_number(1, 3, 1, 0x41) == (DONE, *b"...A"));
    assert!(rt; puts_number(1, 0, 3, 1) == (NONE, *b"...."));
    assert!(rt; puts_number(1, 0, 1, 0x100) == ((24, 0x100, 0), *b"...."));
    assert!(rt; puts_number(1, 1, 2, 0x1_0000) == ((24, 0x1_0000, 1), *b"...."));
    assert!(rt; puts_number(1, 0, 4, 1 << 32) == ((24, 1 << 32, 0), *b"...."));
    assert!(rt; puts_number(1, 1, 4, 0) == ((3, 4, 1), *b"...."));
    assert!(rt; puts_number(1, 4, 1, 0) == ((4, 4, 4), *b"...."));
}

// The same in a range: the status, where the refusal begins, and the bytes.
fn puts_number_in(part: GoblinRange, offset: u64, width: u64, value: u64) -> (u32, u64, [u8; 4]) {
    let (mut bytes, mut why) = (*b"....", unread());
    let header = names(1, 1);
    let status = goblin_put_number_in(&mut bytes, &header, &part, offset, width, value, &mut why);
    (status, why.offset, bytes)
}

#[test]
fn puts_numbers_in_ranges(rt: HostRuntime) {
    assert!(rt; puts_number_in(range(1, 3), 0, 2, 0x4142) == (0, MARK, *b".BA."));
    assert!(rt; puts_number_in(range(1, 3), 1, 2, 0x4142) == (0, MARK, *b"..BA"));
    assert!(rt; puts_number_in(range(1, 3), 2, 2, 0x4142) == (3, 3, *b"...."));
    assert!(rt; puts_number_in(range(1, 2), 1, 2, 0x4142) == (3, 2, *b"...."));
    assert!(rt; puts_number_in(range(1, 3), 3, 1, 0) == (4, 4, *b"...."));
    assert!(rt; puts_number_in(range(2, 3), 0, 1, 0) == (3, 2, *b"...."));
    assert!(rt; puts_number_in(range(1, 3), 0, 3, 0) == (1, MARK, *b"...."));
    assert!(rt; puts_number_in(range(1, 3), 1, 1, 0x100) == (24, 2, *b"...."));
    assert!(rt; puts_number_in(range(u64::MAX, 1), u64::MAX, 1, 0) == (4, u64::MAX, *b"...."));
}

// A big-endian header over bytes that are all 0xaa: those after its first nine, up to the type, are not changed.
static HEADER: &[u8; 53] = b"\x7fELF\x01\x02\x01\x03\x04\xaa\xaa\xaa\xaa\xaa\xaa\xaa\
    \0\x03\0\0\0\0\0\x01\x12\x34\x56\x78\0\0\0\0\0\0\0\x58\0\0\0\0\
    \0\x34\0\x20\0\0\0\x28\0\x03\0\0\xaa";

#[test]
fn puts_headers(rt: HostRuntime) {
    let mut bytes = [0xaa; 53];
    let mut own = header();
    (own.ei_osabi, own.ei_abiversion, own.ei_data, own.e_entry) = (3, 4, 2, 0x1234_5678);
    assert!(rt; goblin_put_header(&mut bytes, &own, &mut unread()) == 0);
    assert!(rt; bytes == *HEADER);
}

fn refuses_header(class: u8, order: u8, len: usize, entry: u64) -> (u32, bool) {
    let mut bytes = [0xaa; 64];
    let mut own = header();
    (own.ei_class, own.ei_data, own.e_entry) = (class, order, entry);
    let status = goblin_put_header(&mut bytes[..len.min(64)], &own, &mut unread());
    (status, bytes.iter().all(|byte| *byte == 0xaa))
}

// Puts a 32-bit header with these offsets of headers. Returns what is said of the one that doesn't fit.
fn refuses_offsets(e_phoff: u64, e_shoff: u64) -> Answer {
    let (mut bytes, mut why, mut own) = ([0; 64], unread(), header());
    (own.e_phoff, own.e_shoff) = (e_phoff, e_shoff);
    let status = goblin_put_header(&mut bytes, &own, &mut why);
    (status, why.first, why.offset)
}

#[test]
fn refuses_headers_that_are_put(rt: HostRuntime) {
    assert!(rt; refuses_header(3, 3, 0, 0) == (10, true));
    assert!(rt; refuses_header(1, 3, 0, 0) == (15, true));
    assert!(rt; refuses_header(2, 0, 64, 0) == (15, true));
    assert!(rt; refuses_header(2, 1, 63, 0) == (3, true));
    assert!(rt; refuses_header(1, 1, 0, 0) == (4, true));
    assert!(rt; refuses_header(1, 1, 52, 1 << 32) == (24, true));
    assert!(rt; refuses_header(2, 1, 64, 1 << 32) == (0, false));
    assert!(rt; refuses_offsets(1 << 32, 1 << 33) == (24, 1 << 32, 28));
    assert!(rt; refuses_offsets(0, 1 << 33) == (24, 1 << 33, 32) && refuses_offsets(0, 0) == DONE);
}

// The whole part of a header by a file's first bytes: `e_shoff`, `e_shnum` and `e_phnum`.
fn whole(len: usize, h: &GoblinHeader) -> (u64, u16, u16) {
    let mut whole = over(b"", marked_layout().header);
    goblin_whole_header(&over(&FILE[..len.min(208)], *h), &mut whole);
    let part = whole.header;
    (part.e_shoff, part.e_shnum, part.e_phnum)
}

#[test]
fn counts_whole_headers(rt: HostRuntime) {
    let mut own = header();
    assert!(rt; whole(208, &own) == (88, 3, 0) && whole(207, &own) == (88, 2, 0));
    assert!(rt; whole(127, &own) == (0, 0, 0));
    own.e_shnum = 0;
    assert!(rt; whole(208, &own) == (88, 0, 0));
    (own.e_phoff, own.e_phnum) = (52, 5);
    assert!(rt; whole(208, &own).2 == 4 && whole(147, &own).2 == 2);
    own.e_phnum = 0xffff;
    assert!(rt; whole(208, &own).2 == 0xffff && whole(100, &own) == (0, 0, 1));
    own.e_shoff = 0;
    assert!(rt; whole(208, &own) == (0, 0, 4));
}

// The number of segments by section 0, whose `sh_info` is 2 here.
fn segments(count: u16, sections: u64) -> (u32, u64, u64) {
    let (file, mut own) = (changed(88 + 28, 2), with_segments(52, count));
    own.e_shoff = sections;
    let (status, found, why) = called!(goblin_segment_count(&over(&file, own)) => 9);
    (status, found, why.offset)
}

#[test]
fn counts_segments_by_section_0(rt: HostRuntime) {
    assert!(rt; segments(0xffff, 88) == (0, 2, MARK) && segments(3, 88) == (0, 3, MARK));
    assert!(rt; segments(0xffff, 169) == (3, 9, 169) && segments(0xffff, 209) == (4, 9, 209));
    assert!(rt; segments(0xffff, 0) == (6, 9, 52));
}
