//! Each export on a small little endian file of the 32-bit class. It consists of its header, the strings
//! "" and "f", two symbols, and three section headers: the null one, the strings' and the symbols'.
use crate::file::{GoblinFile, GoblinHeader};
use crate::layout::marked_layout;
use crate::notes::GoblinNote;
use crate::numbers::GoblinRange;
use crate::relocs::GoblinReloc;
use crate::results::GoblinRefusal;
use crate::*;

mod build_id;
mod bytes;
mod dynamic;
mod places;
mod write;

static FILE: &[u8; 208] = b"\x7fELF\x01\x01\x01\0\0\0\0\0\0\0\0\0\
    \x03\0\0\0\x01\0\0\0\0\0\0\0\0\0\0\0\x58\0\0\0\0\0\0\0\x34\0\x20\0\0\0\x28\0\x03\0\0\0\
    \0f\0\0\
    \0\0\0\0\0\0\0\0\0\0\0\0\0\0\0\0\
    \x01\0\0\0\0\x10\0\0\x05\0\0\0\x12\0\x01\0\
    \0\0\0\0\0\0\0\0\0\0\0\0\0\0\0\0\0\0\0\0\0\0\0\0\0\0\0\0\0\0\0\0\0\0\0\0\0\0\0\0\
    \0\0\0\0\x03\0\0\0\0\0\0\0\0\0\0\0\x34\0\0\0\x04\0\0\0\0\0\0\0\0\0\0\0\0\0\0\0\0\0\0\0\
    \0\0\0\0\x02\0\0\0\0\0\0\0\0\0\0\0\x38\0\0\0\x20\0\0\0\x01\0\0\0\0\0\0\0\0\0\0\0\0\0\0\0";

const STRINGS: GoblinRange = GoblinRange {
    offset: 52,
    size: 4,
};

const SYMBOLS: GoblinRange = GoblinRange {
    offset: 56,
    size: 32,
};

fn range(offset: u64, size: u64) -> GoblinRange {
    GoblinRange::new(offset, size)
}

// The status of a call, what it stores in place of a mark, and the refusal that it stores. The mark is the one of the
// layout with this name, or a number.
macro_rules! called {
    ($call:ident($($given:expr),*) => $mark:ident) => {
        called!($call($($given),*) => marked_layout().$mark)
    };
    ($call:ident($($given:expr),*) => $mark:expr) => {{
        let (mut found, mut why) = ($mark, marked_layout().refusal);
        let status = $call($($given,)* &mut found, &mut why);
        (status, found, why)
    }};
}

// The same of a call that searches, with the index that it stores after the status.
macro_rules! searched {
    ($call:ident($($given:expr),*) => $mark:ident) => {{
        let mut index = 9;
        let (status, found, why) = called!($call($($given,)* &mut index) => $mark);
        (status, index, found, why)
    }};
}

// The status of a call, and these fields of what it stores.
macro_rules! stored {
    ($call:ident($($given:expr),*) => $mark:ident { $($($field:ident).+),+ }) => {{
        let (status, found, _) = called!($call($($given),*) => $mark);
        (status, $(found.$($field).+),+)
    }};
    ($call:ident($($given:expr),*) => $mark:expr) => {{
        let (status, found, _) = called!($call($($given),*) => $mark);
        (status, found)
    }};
}

// The same of a call that searches, with the index.
macro_rules! found {
    ($call:ident($($given:expr),*) => $mark:ident { $($($field:ident).+),+ }) => {{
        let (status, index, found, _) = searched!($call($($given),*) => $mark);
        (status, index, $(found.$($field).+),+)
    }};
}

use called;
use found;
use searched;
use stored;

// The answer for a number: the number, or the first number of the refusal and where it begins.
fn number_shown((status, found, why): (u32, u64, GoblinRefusal)) -> (u32, u64, u64) {
    if status > 1 {
        return (status, why.first, why.offset);
    }
    (status, found, 0)
}

// Some bytes with a header.
fn over<'a>(bytes: &'a [u8], header: GoblinHeader) -> GoblinFile<'a> {
    GoblinFile { bytes, header }
}

// The answer for the file that some bytes are: marks where it is refused.
fn file_of<'a>(bytes: &'a [u8]) -> (u32, GoblinFile<'a>, GoblinRefusal) {
    called!(goblin_file(bytes) => over(b"", marked_layout().header))
}

// The file's header, or one of marks where it is refused.
fn header() -> GoblinHeader {
    file_of(FILE).1.header
}

// The same, with so many program headers from an offset on.
fn with_segments(offset: u64, count: u16) -> GoblinHeader {
    let mut header = header();
    (header.e_phoff, header.e_phnum) = (offset, count);
    header
}

#[test]
fn reads_the_header(rt: HostRuntime) {
    let found = header();
    assert!(rt; found.e_type == 3 && found.e_shoff == 88);
    assert!(rt; found.e_shnum == 3 && found.e_ehsize == 52);
    assert!(rt; found.ei_class == 1 && found.ei_data == 1);
    assert!(rt; found.ei_version == 1 && found.ei_osabi == 0);
}

// Whether a header is refused, by this kind with these numbers.
fn refuses(bytes: &[u8], kind: u32, first: u64, second: u64) -> bool {
    let (status, file, why) = file_of(bytes);
    let unchanged = file.bytes.is_empty() && file.header.e_type == 0x0606;
    unchanged && status == kind && why.kind == kind && why.first == first && why.second == second
}

#[test]
fn refuses_headers(rt: HostRuntime) {
    assert!(rt; refuses(b"", 12, 0, 0));
    assert!(rt; refuses(b"0123456789abcdef", 2, 0x3736_3534_3332_3130, 0));
    assert!(rt; refuses(&FILE[..51], 3, 52, 51));
}

// What the section header at an index is: its answer, type, place and link.
fn section(index: u64) -> (u32, u32, u64, u32) {
    stored!(goblin_section(&over(FILE, header()), index) => section { sh_type, file.offset, sh_link })
}

#[test]
fn reads_sections(rt: HostRuntime) {
    assert!(rt; section(1) == (0, 3, 52, 0));
    assert!(rt; section(2) == (0, 2, 56, 1));
    assert!(rt; section(3).0 == 1);
}

fn count() -> (u32, u64) {
    stored!(goblin_section_count(&over(FILE, header())) => 9)
}

fn fills_sections() -> bool {
    let mut found = [marked_layout().section; 4];
    let answer = stored!(goblin_sections(&over(FILE, header()), 1, &mut found) => 9);
    answer == (0, 2) && found[0].sh_type == 3 && found[1].sh_type == 2
}

#[test]
fn counts_and_fills_sections(rt: HostRuntime) {
    assert!(rt; count() == (0, 3));
    assert!(rt; fills_sections());
}

// A program header read from the strings on.
fn segment_type(index: u64) -> (u32, u32) {
    stored!(goblin_segment(&over(FILE, with_segments(52, 1)), index) => segment { p_type })
}

// The types of those from an index on, of two that are read there: the answer, how many are stored, and the types.
fn segment_types(first: u64) -> (u32, u64, [u32; 3]) {
    let (header, mut found) = (with_segments(52, 2), [marked_layout().segment; 3]);
    let (status, filled) = stored!(goblin_segments(&over(FILE, header), first, &mut found) => 9);
    (status, filled, found.map(|segment| segment.p_type))
}

#[test]
fn reads_segments(rt: HostRuntime) {
    assert!(rt; segment_type(0) == (0, 0x6600));
    assert!(rt; segment_type(1).0 == 1);
    let mark = 0x0101_0101;
    assert!(rt; segment_types(0) == (0, 2, [0x6600, 0x0001_0012, mark]));
    assert!(rt; segment_types(1) == (0, 1, [0x0001_0012, mark, mark]));
    assert!(rt; segment_types(2) == (1, 9, [mark; 3]));
}

// What the symbol at an index is: the answer, its value and its binding and type.
fn symbol(index: u64) -> (u32, u64, u8) {
    stored!(goblin_symbol(&over(FILE, header()), &SYMBOLS, index) => symbol { st_value, st_info })
}

fn fills_symbols() -> bool {
    let mut found = [marked_layout().symbol; 3];
    let answer = stored!(goblin_symbols(&over(FILE, header()), &SYMBOLS, 1, &mut found) => 9);
    answer == (0, 1) && found[0].st_value == 0x1000
}

#[test]
fn reads_symbols(rt: HostRuntime) {
    assert!(rt; symbol(1) == (0, 0x1000, 0x12));
    assert!(rt; symbol(2).0 == 1);
    assert!(rt; fills_symbols());
}

// Where a name is found from an index on: the answer, the index and the symbol's value.
fn finds_symbol(name: &[u8], first: u64) -> (u32, u64, u64) {
    let h = header();
    found!(goblin_symbol_by_name(&over(FILE, h), &SYMBOLS, &STRINGS, name, first) => symbol { st_value })
}

// The same for a section, with its type.
fn finds_section(name: &[u8], first: u64) -> (u32, u64, u32) {
    found!(goblin_section_by_name(&over(FILE, header()), &STRINGS, name, first) => section { sh_type })
}

const UNREAD: u64 = 0x0505_0505_0505_0505;

#[test]
fn finds_names(rt: HostRuntime) {
    assert!(rt; finds_symbol(b"f", 0) == (0, 1, 0x1000) && finds_symbol(b"f", 1) == (0, 1, 0x1000));
    assert!(rt; finds_symbol(b"f", 2) == (1, 9, UNREAD));
    assert!(rt; finds_symbol(b"f", u64::MAX) == (1, 9, UNREAD));
    assert!(rt; finds_symbol(b"g", 0) == (1, 9, UNREAD));
    assert!(rt; finds_symbol(b"f\0", 0) == (1, 9, UNREAD));
    assert!(rt; finds_symbol(b"", 0) == (0, 0, 0) && finds_symbol(b"", 1) == (1, 9, UNREAD));
    assert!(rt; finds_section(b"", 0) == (0, 0, 0) && finds_section(b"", 1) == (0, 1, 3));
    assert!(rt; finds_section(b"", 2) == (0, 2, 2) && finds_section(b"", 3) == (1, 9, 0x0202_0202));
    assert!(rt; finds_section(b"f", 0) == (1, 9, 0x0202_0202));
}

// The status of the call for an address, and the index.
fn symbol_at(bytes: &[u8], header: &GoblinHeader, table: &GoblinRange, address: u64) -> (u32, u64) {
    stored!(goblin_symbol_by_address(&over(bytes, *header), table, address) => 9)
}

// The same where the symbol has a size of 0, and its section has these flags and lies from 0x1000 to 0x1003.
fn label_at(flags: u8, address: u64) -> (u32, u64) {
    let mut file = changed(80, 0);
    file[88 + 40 + 8] = flags;
    file[88 + 40 + 13] = 0x10;
    symbol_at(&file, &header(), &SYMBOLS, address)
}

// The same in a relocatable file, with the value 0.
fn label_at_offset(address: u64) -> (u32, u64) {
    let (mut file, mut header) = (changed(80, 0), header());
    file[77] = 0;
    file[88 + 40 + 13] = 0x10;
    header.e_type = 1;
    symbol_at(&file, &header, &SYMBOLS, address)
}

// The kind and the offset of the refusal, where the sections are said to lie past the file.
fn symbol_refused(table: &GoblinRange) -> (u32, u64) {
    let mut header = header();
    header.e_shoff = 300;
    let (status, _, why) =
        called!(goblin_symbol_by_address(&over(FILE, header), table, 0x1000) => 9);
    (status, why.offset)
}

#[test]
fn finds_symbols_by_addresses(rt: HostRuntime) {
    assert!(rt; symbol_at(FILE, &header(), &SYMBOLS, 0xfff) == (1, 9));
    assert!(rt; symbol_at(FILE, &header(), &SYMBOLS, 0x1000) == (0, 1));
    assert!(rt; symbol_at(FILE, &header(), &SYMBOLS, 0x1004) == (0, 1));
    assert!(rt; symbol_at(FILE, &header(), &SYMBOLS, 0x1005) == (1, 9));
    assert!(rt; symbol_at(&changed(80, 0), &header(), &SYMBOLS, 0x1000) == (1, 9));
    assert!(rt; label_at(2, 0xfff) == (1, 9) && label_at(2, 0x1000) == (0, 1));
    assert!(rt; label_at(2, 0x1003) == (0, 1) && label_at(2, 0x1004) == (1, 9));
    // A section that is not in memory holds no address.
    assert!(rt; label_at(0, 0x1000) == (1, 9) && label_at(5, 0x1003) == (1, 9));
    assert!(rt; label_at_offset(0) == (0, 1) && label_at_offset(3) == (0, 1));
    assert!(rt; label_at_offset(4) == (1, 9) && label_at_offset(0x1000) == (1, 9));
    assert!(rt; symbol_refused(&SYMBOLS) == (4, 300));
    assert!(rt; symbol_refused(&range(208, 0)) == (17, 208));
}

// The file with another byte at a place.
fn changed(place: usize, byte: u8) -> [u8; 208] {
    let mut file = *FILE;
    if let Some(old) = file.get_mut(place) {
        *old = byte;
    }
    file
}

// Returns the status of the call for the table at an index, and the table's type, or a mark if there is none.
fn table(bytes: &[u8], index: u64) -> (u32, u32) {
    stored!(goblin_linked_section(&over(bytes, header()), index) => section { sh_type })
}

// The same of the section that holds names, by the number of sections and the index in the header.
fn names_of(bytes: &[u8], count: u16, index: u16) -> (u32, u32) {
    let mut header = header();
    (header.e_shnum, header.e_shstrndx) = (count, index);
    stored!(goblin_names_section(&over(bytes, header)) => section { sh_type })
}

fn names(bytes: &[u8], index: u16) -> (u32, u32) {
    names_of(bytes, 3, index)
}

const NONE: (u32, u32) = (1, 0x0202_0202);

const WITHOUT_BYTES: usize = 88 + 40 + 4;

const FIRST_SIZE: usize = 88 + 20;

const FIRST_LINK: usize = 88 + 24;

#[test]
fn takes_no_section_for_a_table(rt: HostRuntime) {
    assert!(rt; table(FILE, 1) == (0, 3) && table(FILE, 2) == (0, 2));
    assert!(rt; table(FILE, 0) == NONE && table(FILE, 3) == NONE);
    assert!(rt; table(FILE, u64::MAX) == NONE);
    assert!(rt; table(&changed(WITHOUT_BYTES, 8), 1) == NONE);
    assert!(rt; table(&changed(WITHOUT_BYTES, 7), 1) == (0, 7));
}

#[test]
fn takes_no_section_for_names(rt: HostRuntime) {
    assert!(rt; names(FILE, 1) == (0, 3));
    assert!(rt; names(FILE, 0) == NONE && names(FILE, 3) == NONE);
    assert!(rt; names(&changed(WITHOUT_BYTES, 8), 1) == NONE);
    assert!(rt; names(FILE, 0xffff) == NONE);
    assert!(rt; names(&changed(FIRST_LINK, 1), 0xffff) == (0, 3));
    assert!(rt; names(&changed(FIRST_LINK, 3), 0xffff) == NONE);
}

// The header has no number of sections. The first section's size is the number.
#[test]
fn takes_the_size_of_the_first_for_no_names(rt: HostRuntime) {
    let file = changed(FIRST_SIZE, 3);
    assert!(rt; names_of(&file, 0, 0) == NONE);
    assert!(rt; names_of(&file, 0, 1) == (0, 3));
}

// Where a string lies: the answer, its offset and its size.
fn string(offset: u64) -> (u32, u64, u64) {
    let (status, found) =
        stored!(goblin_string_utf8(&over(FILE, header()), &STRINGS, offset) => range(9, 9));
    (status, found.offset, found.size)
}

#[test]
fn places_strings(rt: HostRuntime) {
    assert!(rt; string(1) == (0, 53, 1));
    assert!(rt; string(4) == (1, 9, 9));
}

// A string of 17 bytes, one of 16 and a character of two, one of 16 and a byte that begins no character, and 16 bytes
// up to the end.
static LONG: &[u8; 71] = b"abcdefghijklmnopq\0\
    0123456789abcdef\xc2\xa2\0\
    0123456789abcdef\x80\0\
    0123456789abcdef";

// The answer for a string of these, with its size or the refusal's first number.
fn long_string(offset: u64) -> (u32, u64) {
    let (status, found, why) =
        called!(goblin_string_utf8(&over(LONG, header()), &range(0, 71), offset) => range);
    (status, if status > 1 { why.first } else { found.size })
}

#[test]
fn places_long_strings(rt: HostRuntime) {
    assert!(rt; long_string(0) == (0, 17) && long_string(1) == (0, 16));
    assert!(rt; long_string(17) == (0, 0) && long_string(18) == (0, 18));
    assert!(rt; long_string(55) == (0, 16) && long_string(70) == (0, 1));
    assert!(rt; long_string(37) == (5, 34) && long_string(40) == (5, 31));
    assert!(rt; long_string(53) == (5, 18));
}

// What is stored for the strings at offsets of these: the answer, their number, and the sizes in a buffer of at most
// three.
fn long_strings(offsets: &[u64], places: usize) -> (u32, u64, [u64; 3]) {
    let (strings, mut found) = (range(0, 71), [range(9, 9); 3]);
    let buffer = &mut found[..places.min(3)];
    let (status, filled) =
        stored!(goblin_strings(&over(LONG, header()), &strings, offsets, buffer) => 9);
    (status, filled, found.map(|part| part.size))
}

#[test]
fn places_many_strings(rt: HostRuntime) {
    assert!(rt; long_strings(&[0, 18, 55], 3) == (0, 3, [17, 18, 16]));
    assert!(rt; long_strings(&[0, 71, 18], 3) == (1, 1, [17, 9, 9]));
    assert!(rt; long_strings(&[0, 37, 18], 3) == (0, 3, [17, 17, 18]));
    assert!(rt; long_strings(&[71, 0], 3) == (1, 0, [9, 9, 9]));
    assert!(rt; long_strings(&[0, 18, 55], 2) == (0, 2, [17, 18, 9]));
    assert!(rt; long_strings(&[], 3) == (0, 0, [9, 9, 9]));
}

static RELOC: &[u8; 12] = b"\x10\0\0\0\x01\x02\0\0\xfc\xff\xff\xff";

fn is_reloc(found: &GoblinReloc) -> bool {
    found.r_offset == 16 && found.r_sym == 2 && found.r_type == 1 && found.r_addend == -4
}

fn reads_reloc() -> bool {
    let (status, r, _) =
        called!(goblin_reloc(&over(RELOC, header()), &range(0, 12), true, 0) => reloc);
    status == 0 && is_reloc(&r)
}

fn fills_reloc() -> bool {
    let (relocs, mut found) = (range(0, 12), [marked_layout().reloc; 2]);
    let answer = stored!(goblin_relocs(&over(RELOC, header()), &relocs, true, 0, &mut found) => 9);
    answer == (0, 1) && is_reloc(&found[0])
}

#[test]
fn reads_relocations(rt: HostRuntime) {
    assert!(rt; reads_reloc());
    assert!(rt; fills_reloc());
}

static PAIR: &[u8; 16] = b"\x10\0\0\0\0\0\0\0\x02\0\0\0\0\0\0\x01";

// Symbol and type of the relocation at an index of these bytes, by a header that a caller filled.
fn reads_pair(machine: u16, class: u8, order: u8, index: u64) -> (u32, u32, u32) {
    let mut header = marked_layout().header;
    (header.e_machine, header.ei_class, header.ei_data) = (machine, class, order);
    stored!(goblin_reloc(&over(PAIR, header), &range(0, 16), false, index) => reloc { r_sym, r_type })
}

#[test]
fn reads_each_order_but_2_alike(rt: HostRuntime) {
    assert!(rt; reads_pair(8, 2, 1, 0) == (0, 2, 1));
    assert!(rt; reads_pair(8, 2, 0, 0) == (0, 2, 1));
    assert!(rt; reads_pair(8, 2, 255, 0) == (0, 2, 1));
    assert!(rt; reads_pair(8, 2, 2, 0) == (0, 0x0200_0000, 1));
    assert!(rt; reads_pair(62, 2, 3, 0) == (0, 0x0100_0000, 2));
    assert!(rt; reads_pair(8, 0, 3, 1) == (0, 0x1_0000, 0));
}

// A big endian header of the 32-bit class, whose fields differ from one another: the first 16 bytes are followed
// by the bytes 1 to 40. A record of each kind is read from these too.
static EACH: &[u8; 56] = b"\x7fELF\x01\x02\x03\x04\x05\0\0\0\0\0\0\0\
    \x01\x02\x03\x04\x05\x06\x07\x08\x09\x0a\x0b\x0c\x0d\x0e\x0f\x10\x11\x12\x13\x14\
    \x15\x16\x17\x18\x19\x1a\x1b\x1c\x1d\x1e\x1f\x20\x21\x22\x23\x24\x25\x26\x27\x28";

// That header, by which a section and a segment lie after the first 16 bytes.
fn each_header() -> GoblinHeader {
    file_of(EACH).1.header
}

fn each_in_place() -> GoblinHeader {
    let mut header = each_header();
    (header.e_shoff, header.e_shnum) = (16, 1);
    (header.e_phoff, header.e_phnum) = (16, 1);
    header
}

fn has_each_of_header() -> bool {
    let h = each_header();
    let numbers = h.e_type == 0x0102 && h.e_machine == 0x0304 && h.e_version == 0x0506_0708;
    let places = h.e_entry == 0x090a_0b0c && h.e_phoff == 0x0d0e_0f10 && h.e_shoff == 0x1112_1314;
    let sizes = h.e_flags == 0x1516_1718 && h.e_ehsize == 0x191a && h.e_phentsize == 0x1b1c;
    let counts = h.e_phnum == 0x1d1e && h.e_shentsize == 0x1f20 && h.e_shnum == 0x2122;
    let first = h.ei_class == 1 && h.ei_data == 2 && h.ei_version == 3;
    numbers && places && sizes && counts && first && h.ei_osabi == 4 && h.ei_abiversion == 5
}

fn has_each_of_section() -> bool {
    let (status, s, _) = called!(goblin_section(&over(EACH, each_in_place()), 0) => section);
    let kind = s.sh_name == 0x0102_0304 && s.sh_type == 0x0506_0708 && s.sh_flags == 0x090a_0b0c;
    let place = s.sh_addr == 0x0d0e_0f10 && s.file.offset == 0x1112_1314;
    let links = s.file.size == 0x1516_1718 && s.sh_link == 0x191a_1b1c;
    let items = s.sh_info == 0x1d1e_1f20 && s.sh_addralign == 0x2122_2324;
    status == 0 && kind && place && links && items && s.sh_entsize == 0x2526_2728
}

fn has_each_of_segment() -> bool {
    let (status, s, _) = called!(goblin_segment(&over(EACH, each_in_place()), 0) => segment);
    let place = s.p_type == 0x0102_0304 && s.file.offset == 0x0506_0708 && s.p_vaddr == 0x090a_0b0c;
    let size = s.p_paddr == 0x0d0e_0f10 && s.file.size == 0x1112_1314 && s.p_memsz == 0x1516_1718;
    status == 0 && place && size && s.p_flags == 0x191a_1b1c && s.p_align == 0x1d1e_1f20
}

fn has_each_of_symbol() -> bool {
    let (status, s, _) =
        called!(goblin_symbol(&over(EACH, each_in_place()), &range(16, 16), 0) => symbol);
    let place = s.st_name == 0x0102_0304 && s.st_value == 0x0506_0708 && s.st_size == 0x090a_0b0c;
    status == 0 && place && s.st_info == 0x0d && s.st_other == 0x0e && s.st_shndx == 0x0f10
}

fn has_each_of_reloc() -> bool {
    let (status, r, _) =
        called!(goblin_reloc(&over(EACH, each_in_place()), &range(16, 12), true, 0) => reloc);
    let place = r.r_offset == 0x0102_0304 && r.r_sym == 0x0005_0607 && r.r_type == 8;
    status == 0 && place && r.r_addend == 0x090a_0b0c
}

#[test]
fn reads_each_field(rt: HostRuntime) {
    assert!(rt; has_each_of_header() && each_header().e_shstrndx == 0x2324);
    assert!(rt; has_each_of_section());
    assert!(rt; has_each_of_segment());
    assert!(rt; has_each_of_symbol());
    assert!(rt; has_each_of_reloc());
}

static NOTE: &[u8; 20] = b"\x04\0\0\0\x04\0\0\0\x03\0\0\0GNU\0\xaa\xbb\xcc\xdd";

// The status for the note, the note, and the refusal.
fn note_with(alignment: u64) -> (u32, GoblinNote, GoblinRefusal) {
    called!(goblin_note_utf8(&over(NOTE, header()), &range(0, 20), alignment, 0) => note)
}

fn reads_note() -> bool {
    let (status, found, _) = note_with(4);
    let parts = found.name.offset == 12 && found.name.size == 3 && found.desc.offset == 16;
    status == 0 && parts && found.desc.size == 4 && found.next == 20 && found.n_type == 3
}

// The status for the whole note in a range of a size, with the size of its name and the next offset, or with the item
// and the first number of its refusal.
fn whole_note(size: u64) -> (u32, u64, u64) {
    let (status, found, why) =
        called!(goblin_note_whole(&over(NOTE, header()), &range(0, size), 4, 0) => note);
    if status > 1 {
        return (status, why.item as u64, why.first);
    }
    (status, found.name.size, found.next)
}

#[test]
fn reads_notes(rt: HostRuntime) {
    assert!(rt; reads_note());
    assert!(rt; whole_note(20) == (0, 3, 20) && whole_note(19) == (3, 6, 4));
    assert!(rt; note_with(16).0 == 16);
}

// A note whose name is not UTF-8, and the size of its name by each call, or its status if it is refused.
static BYTES: &[u8; 16] = b"\x04\0\0\0\0\0\0\0\x01\0\0\0\xff\xfeN\0";

fn note_of_bytes() -> (u32, u32, u32) {
    let file = over(BYTES, header());
    let all = range(0, 16);
    let (plain, note, _) = called!(goblin_note(&file, &all, 4, 0) => note);
    let (text, _, why) = called!(goblin_note_utf8(&file, &all, 4, 0) => note);
    let (whole, same, _) = called!(goblin_note_whole(&file, &all, 4, 0) => note);
    let is_same = note.name.size == 3 && same.name.size == 3 && note.next == 16 && why.item == 1;
    (plain, text, if is_same { whole } else { 99 })
}

#[test]
fn reads_notes_of_bytes(rt: HostRuntime) {
    assert!(rt; note_of_bytes() == (0, 5, 0));
}

// What is written of a name into six bytes, and how long the name is.
fn machine(number: u16) -> ([u8; 6], u64) {
    let mut text = *b"......";
    let len = goblin_machine_to_str(number, &mut text);
    (text, len)
}

// How long the name of a flag is: "SHF_WRITE" or "SHF_UNKNOWN".
fn flag(number: u64) -> u64 {
    goblin_shf_to_str(number, &mut [0; 12])
}

fn note_type_name(name: &[u8], n_type: u32) -> u64 {
    let mut text = *b"..";
    goblin_note_type_to_str(name, n_type, &mut text)
}

#[test]
fn writes_names(rt: HostRuntime) {
    assert!(rt; machine(62) == (*b"X86_64", 6));
    assert!(rt; machine(258) == (*b"LOONGA", 9));
    assert!(rt; flag(1) == 9 && flag((1 << 32) + 1) == 11 && flag(1 << 32) == 11);
    assert!(rt; note_type_name(b"CORE", 3) == 11 && note_type_name(b"GNU", 3) == 15);
    assert!(rt; goblin_version() == 8);
}

// Whether this is the text of a refusal of a kind with these numbers.
fn says(kind: u32, item: u32, numbers: [u64; 4], text: &str) -> bool {
    let (mut room, mut why) = ([0; 160], marked_layout().refusal);
    (why.kind, why.item) = (kind, item);
    [why.first, why.second, why.third, why.fourth] = numbers;
    let len = goblin_refusal_to_str(&why, &mut room) as usize;
    room.get(..len) == Some(text.as_bytes())
}

// Asserts that each kind of refusal, with an item and numbers, has the text after it.
macro_rules! all_say {
    ($rt:expr; $($kind:expr, $item:expr, $numbers:expr => $text:literal;)+) => {
        $(assert!($rt; says($kind, $item, $numbers, $text));)+
    };
}

#[test]
fn writes_refusals(rt: HostRuntime) {
    all_say![rt;
        2, 0, [0x3736_3534_3332_3130, 0, 0, 0] => "Invalid magic number: 0x3736353433323130";
        3, 0, [64, 52, 0, 0] => "type is too big (64) for 52";
        4, 0, [88, 0, 0, 0] => "bad offset 88";
        5, 1, [2, 0, 0, 0] => "bad input invalid utf8 (2)";
        6, 3, [2, 0, 0, 0] => "Buffer is too short for 2 program headers";
        6, 2, [2, 0, 0, 0] => "Buffer is too short for 2 section headers";
        7, 0, [0; 4] => "Out of memory";
        9, 0, [1, 2, 3, 4] => "";
        u32::MAX, 0, [1, 2, 3, 4] => "";
    ];
}

#[test]
fn writes_faults_of_headers(rt: HostRuntime) {
    all_say![rt;
        10, 0, [7, 0, 0, 0] => "Malformed entity: Invalid class in Header: 7";
        11, 0, [7, 0, 0, 0] => "Malformed entity: Invalid endianness in Header: 7";
        12, 0, [0; 4] => "Malformed entity: Too small";
        13, 0, [31, 0, 0, 0] => "Malformed entity: invalid ELF class 1f";
        14, 0, [31, 0, 0, 0] => "Malformed entity: invalid ELF endianness DATA type 1f";
        15, 0, [31, 0, 0, 0] => "Malformed entity: invalid ELF DATA type 1f";
    ];
}

#[test]
fn writes_faults(rt: HostRuntime) {
    all_say![rt;
        16, 0, [31, 0, 0, 0] => "Malformed entity: Notes has unimplemented alignment requirement: 0x1f";
        17, 0, [31, 5, 0, 0] => "Malformed entity: Symbol table offset (31) is beyond file boundary (5)";
        18, 0, [31, 31, 0, 0] => "Malformed entity: Too many ELF symbols (offset 0x1f, count 31)";
        19, 0, [72, 48, 0, 0] => "Malformed entity: Symbol table extends beyond file boundary \
            (requested: 72, available: 48)";
        20, 0, [5, 4, 0, 0] => "Malformed entity: String table offset (5) is beyond file boundary (4)";
        21, 0, [u64::MAX, 1, 4, 1] => "Malformed entity: Strtable size (18446744073709551615) + \
            offset (1) is out of bounds for 4 #bytes. Overflowed: true";
        22, 0, [9, 31, 5, 0] => "Malformed entity: Section 9 size (31) + offset (5) is out of bounds. \
            Overflowed: false";
        23, 0, [9, 31, 5, 1] => "Malformed entity: Section 9 size (31) + addr (5) is out of bounds. \
            Overflowed: true";
        24, 0, [0; 4] => "Malformed entity: Integer do not fit: out of range integral type \
            conversion attempted";
        24, 7, [4294967296, 0, 0, 0] => "Malformed entity: Integer do not fit: out of range integral type \
            conversion attempted: 4294967296 at offset 506381209866536711";
    ];
}

// The text written into a buffer of eight bytes, of which all are 9 before.
fn closed_text(class: u8) -> ([u8; 8], u64) {
    let mut room = [9; 8];
    let len = goblin_class_to_str(class, &mut room);
    (room, len)
}

#[test]
fn closes_texts(rt: HostRuntime) {
    assert!(rt; closed_text(1) == (*b"ELF32\0\x09\x09", 5));
    assert!(rt; closed_text(3) == (*b"UNKNOWN_", 13));
    let mut room = [9; 3];
    let why = marked_layout().refusal;
    assert!(rt; goblin_refusal_to_str(&why, &mut room) == 0 && room == [0, 9, 9]);
}

// The text written into a buffer of four bytes, and the length that is returned.
fn cut_text() -> ([u8; 4], u64) {
    let mut room = [9; 4];
    let (_, _, why) = file_of(&FILE[..51]);
    let len = goblin_refusal_to_str(&why, &mut room);
    (room, len)
}

#[test]
fn cuts_refusals(rt: HostRuntime) {
    let (room, len) = cut_text();
    assert!(rt; &room == b"type" && len == 27);
}

// What is printed of the layout: the size of each struct, and each struct with its fields in the order in which
// goblin.h declares them, with their marks: numbers of one, two, four or eight bytes, of which each is the field's
// place in the struct, from 1 on.
static LAYOUT: &str = "GoblinLayout { size_of_refusal: 48, size_of_range: 16, size_of_header: 56, \
        size_of_section: 64, size_of_segment: 56, size_of_symbol: 24, size_of_reloc: 24, \
        size_of_note: 48, size_of_dyn: 16, size_of_file: 72, \
    refusal: GoblinRefusal { kind: 16843009, item: 33686018, first: 217020518514230019, \
        second: 289360691352306692, third: 361700864190383365, fourth: 434041037028460038, \
        offset: 506381209866536711 }, \
    range: GoblinRange { offset: 72340172838076673, size: 144680345676153346 }, \
    header: GoblinHeader { e_entry: 72340172838076673, e_phoff: 144680345676153346, \
        e_shoff: 217020518514230019, e_version: 67372036, e_flags: 84215045, e_type: 1542, \
        e_machine: 1799, e_ehsize: 2056, e_phentsize: 2313, e_phnum: 2570, e_shentsize: 2827, \
        e_shnum: 3084, e_shstrndx: 3341, ei_class: 14, ei_data: 15, ei_version: 16, ei_osabi: 17, \
        ei_abiversion: 18 }, \
    section: GoblinSection { sh_name: 16843009, sh_type: 33686018, sh_flags: 217020518514230019, \
        sh_addr: 289360691352306692, file: GoblinRange { offset: 361700864190383365, \
        size: 434041037028460038 }, sh_link: 117901063, sh_info: 134744072, \
        sh_addralign: 651061555542690057, sh_entsize: 723401728380766730 }, \
    segment: GoblinSegment { p_type: 16843009, p_flags: 33686018, \
        file: GoblinRange { offset: 217020518514230019, size: 289360691352306692 }, \
        p_vaddr: 361700864190383365, p_paddr: 434041037028460038, p_memsz: 506381209866536711, \
        p_align: 578721382704613384 }, \
    symbol: GoblinSymbol { st_name: 16843009, st_info: 2, st_other: 3, st_shndx: 1028, \
        st_value: 361700864190383365, st_size: 434041037028460038 }, \
    reloc: GoblinReloc { r_offset: 72340172838076673, r_type: 33686018, r_sym: 50529027, \
        r_addend: 289360691352306692 }, \
    note: GoblinNote { name: GoblinRange { offset: 72340172838076673, size: 144680345676153346 }, \
        desc: GoblinRange { offset: 217020518514230019, size: 289360691352306692 }, \
        next: 361700864190383365, n_type: 101058054 }, \
    entry: GoblinDyn { d_tag: 72340172838076673, d_val: 144680345676153346 } }";

#[test]
fn has_fields_in_order(rt: HostRuntime) -> std::io::Result<()> {
    let shown = format!(in rt.alloc(); "{:?}", marked_layout())?;
    assert!(rt; shown.as_str() == LAYOUT);
    Ok(())
}

// How many bytes are stored of the layout in a struct of a size, and the first mark then, of one that was 0.
fn stores_layout(size: usize) -> (usize, u32) {
    let mut layout = marked_layout();
    layout.refusal.kind = 0;
    (goblin_layout(&mut layout, size), layout.refusal.kind)
}

#[test]
fn stores_a_layout_in_what_holds_it(rt: HostRuntime) {
    assert!(rt; stores_layout(432) == (432, 0x0101_0101) && stores_layout(433).0 == 432);
    assert!(rt; stores_layout(431) == (0, 0) && stores_layout(0) == (0, 0));
}
