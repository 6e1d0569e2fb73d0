//! Cases with their results: section headers.
use crate::compare::{each_row, has_written, holds, is, reports, returns_list};
use crate::container::{BIG64, LITTLE32};
use crate::record::{SHORT, has_form, is_apart, lacks_room, lists, reads, with_each_default};
use goblin_base::container::{BE, Ctx, LE};
use goblin_base::error::Result as Answer;
use goblin_base::scroll::IntoCtx;
use goblin_base::strtab::Strtab;
use goblin_base::table::Table;
use goblin_headers::section_header::{
    SHF_ALLOC, SHT_NOBITS, SHT_PROGBITS, SHT_REL, SHT_RELA, SectionHeader, shf_to_str, sht_to_str,
};
use goblin_headers::{section_header, section_header32, section_header64};
use std::ops::Range;

// A section header of the 64-bit class in big byte order, each field with a number of its own.
const BIG: &[u8; 64] = b"\x00\x00\x00\x07\x00\x00\x00\x01\x00\x00\x00\x00\x00\x00\x00\x06\
    \x00\x00\x00\x00\x00\x40\x10\x00\x00\x00\x00\x00\x00\x00\x10\x00\
    \x00\x00\x00\x00\x00\x00\x00\x20\x00\x00\x00\x02\x00\x00\x00\x03\
    \x00\x00\x00\x00\x00\x00\x00\x10\x00\x00\x00\x00\x00\x00\x00\x18";

// A section header of the 32-bit class in little byte order, with the same numbers.
const LITTLE: &[u8; 40] = b"\x07\x00\x00\x00\x01\x00\x00\x00\x06\x00\x00\x00\x00\x10\x40\x00\
    \x00\x10\x00\x00\x20\x00\x00\x00\x02\x00\x00\x00\x03\x00\x00\x00\
    \x10\x00\x00\x00\x18\x00\x00\x00";

// The section header that both stand for.
fn section() -> SectionHeader {
    SectionHeader {
        sh_name: 7,
        sh_type: 1,
        sh_flags: 6,
        sh_addr: 0x401000,
        sh_offset: 0x1000,
        sh_size: 0x20,
        sh_link: 2,
        sh_info: 3,
        sh_addralign: 16,
        sh_entsize: 24,
    }
}

// Whether a section header has this form in this context.
fn is_written(rt: HostRuntime, ctx: Ctx, bytes: &'static [u8]) -> bool {
    let mut buffer = [0xaa; 70];
    section().into_ctx(&mut buffer, ctx);
    has_written(rt, &buffer, bytes)
        && is(rt, SectionHeader::size(ctx), bytes.len())
        && has_form(rt, section(), ctx, bytes)
}

#[test]
fn reads_and_writes_section_headers(rt: HostRuntime) {
    assert!(rt; is_written(rt, LITTLE32, LITTLE));
    assert!(rt; is_written(rt, BIG64, BIG));
}

#[test]
fn refuses_section_headers_without_room(rt: HostRuntime) {
    let text = "type is too big (40) for 39";
    assert!(rt; lacks_room(rt, SectionHeader::new(), LITTLE32, &SHORT[..39], text));
    let text = "type is too big (64) for 63";
    assert!(rt; lacks_room(rt, SectionHeader::new(), BIG64, &SHORT[..63], text));
    assert!(rt; lacks_room(rt, SectionHeader::new(), BIG64, &SHORT[..0], "bad offset 0"));
}

#[test]
fn converts_section_headers(rt: HostRuntime) {
    let raw = section_header32::SectionHeader::from(section());
    assert!(rt; has_form(rt, raw, LE, LITTLE) && is(rt, SectionHeader::from(raw), section()));
    let raw = section_header64::SectionHeader::from(section());
    assert!(rt; has_form(rt, raw, BE, BIG) && is(rt, SectionHeader::from(raw), section()));
}

fn wide() -> SectionHeader {
    SectionHeader {
        sh_name: 0x1_2345_6789,
        sh_size: 0x2_0000_0003,
        ..section()
    }
}

#[test]
fn keeps_low_bits(rt: HostRuntime) {
    let raw = section_header64::SectionHeader::from(wide());
    assert!(rt; is(rt, (raw.sh_name, raw.sh_size), (0x2345_6789, 0x2_0000_0003)));
    assert!(rt; is(rt, section_header32::SectionHeader::from(wide()).sh_size, 3));
}

// Copies of a section header, each with the default in one field.
macro_rules! others {
    ($header:expr) => {
        with_each_default!($header; sh_name sh_type sh_flags sh_addr sh_offset sh_size sh_link
            sh_info sh_addralign sh_entsize)
    };
}

#[test]
fn compares_section_headers(rt: HostRuntime) {
    assert!(rt; is_apart(rt, &section(), &others!(section())));
    let raw = section_header32::SectionHeader::from(section());
    assert!(rt; is_apart(rt, &raw, &others!(raw)));
    let raw = section_header64::SectionHeader::from(section());
    assert!(rt; is_apart(rt, &raw, &others!(raw)));
}

// Whether a section is in memory, writable and executable.
fn allows(header: &SectionHeader) -> [bool; 3] {
    [
        header.is_alloc(),
        header.is_writable(),
        header.is_executable(),
    ]
}

#[test]
fn makes_section_headers(rt: HostRuntime) {
    let new = SectionHeader::new();
    let parts = (new.sh_type, new.sh_flags, new.sh_addralign, allows(&new));
    assert!(rt; is(rt, parts, (1, 2, 512, [true, false, false])));
    let default = SectionHeader::default();
    assert!(rt; is(rt, default.sh_entsize, 0));
    assert!(rt; reads(rt, &[0; 64], BIG64, &default));
}

// Flags, and whether a section with them is in memory, writable and executable.
static FLAGS: [(u64, [bool; 3]); 7] = [
    (0, [false, false, false]),
    (2, [true, false, false]),
    (3, [true, true, false]),
    (6, [true, false, true]),
    (7, [true, true, true]),
    (5, [false, false, false]),
    (0x7_0000_0000, [false, false, false]),
];

fn asks(rt: HostRuntime, row: &(u64, [bool; 3])) -> bool {
    let header = SectionHeader {
        sh_flags: row.0,
        ..section()
    };
    holds(rt, row, is(rt, allows(&header), row.1))
}

#[test]
fn asks_for_flags(rt: HostRuntime) {
    assert!(rt; each_row!(rt; row in FLAGS => asks(rt, row)));
}

fn of_type(sh_type: u32) -> SectionHeader {
    SectionHeader {
        sh_type,
        ..section()
    }
}

#[test]
fn asks_for_relocations(rt: HostRuntime) {
    assert!(rt; of_type(SHT_RELA).is_relocation());
    assert!(rt; !of_type(SHT_REL).is_relocation());
    assert!(rt; !of_type(SHT_PROGBITS).is_relocation());
}

fn has_ranges(
    rt: HostRuntime,
    header: &SectionHeader,
    file: Option<Range<usize>>,
    memory: Range<usize>,
) -> bool {
    is(rt, (header.file_range(), header.vm_range()), (file, memory))
}

#[test]
fn returns_ranges(rt: HostRuntime) {
    let memory = 0x401000..0x401020;
    assert!(rt; has_ranges(rt, &section(), Some(0x1000..0x1020), memory));
    let memory = 0x401000..0x401020;
    assert!(rt; has_ranges(rt, &of_type(SHT_NOBITS), None, memory));
    let far = SectionHeader {
        sh_addr: u64::MAX - 1,
        sh_offset: u64::MAX,
        ..section()
    };
    let file = Some(usize::MAX..usize::MAX);
    assert!(rt; has_ranges(rt, &far, file, usize::MAX - 1..usize::MAX));
    let empty = SectionHeader {
        sh_size: 0,
        ..section()
    };
    assert!(rt; has_ranges(rt, &empty, Some(0x1000..0x1000), 0x401000..0x401000));
    let memory = 0x401000..0x401020;
    assert!(rt; has_ranges(rt, &of_type(0), Some(0x1000..0x1020), memory));
}

// The greatest number of which 50 more is none.
const NEAR: u64 = 18446744073709551566;

const OK: &str = "Ok";

const AT_100: &str =
    "Malformed entity: Section 7 size (50) + offset (100) is out of bounds. Overflowed: false";

const AT_71: &str =
    "Malformed entity: Section 7 size (50) + offset (71) is out of bounds. Overflowed: false";

const FAR_ADDRESS: &str = "Malformed entity: Section 7 size (50) + addr (18446744073709551566) is \
    out of bounds. Overflowed: true";

const FAR: &str = "Malformed entity: Section 7 size (50) + offset (18446744073709551566) is \
    out of bounds. Overflowed: true";

// A section of 50 bytes: its type, offset and address, and the text of its check against a file of
// 120 bytes.
static CHECKED: [(u32, u64, u64, &str); 7] = [
    (SHT_PROGBITS, 100, 0, AT_100),
    (SHT_NOBITS, 100, 0, OK),
    (SHT_PROGBITS, 70, 0, OK),
    (SHT_PROGBITS, 71, NEAR, AT_71),
    (SHT_PROGBITS, 0, NEAR, FAR_ADDRESS),
    (SHT_PROGBITS, 0, NEAR - 1, OK),
    (SHT_PROGBITS, NEAR, 0, FAR),
];

// The permissive check passes each.
fn checks(rt: HostRuntime, row: &(u32, u64, u64, &str)) -> bool {
    let header = SectionHeader {
        sh_type: row.0,
        sh_offset: row.1,
        sh_size: 50,
        sh_addr: row.2,
        ..section()
    };
    reports(rt, header.check_size(120), row.3)
        && reports(rt, header.check_size_with_opts(120, false), row.3)
        && reports(rt, header.check_size_with_opts(120, true), OK)
}

#[test]
fn checks_sizes(rt: HostRuntime) {
    assert!(rt; each_row!(rt; row in CHECKED => checks(rt, row)));
}

#[test]
fn checks_no_empty_section(rt: HostRuntime) {
    let empty = SectionHeader {
        sh_offset: u64::MAX,
        sh_size: 0,
        sh_addr: u64::MAX,
        ..section()
    };
    assert!(rt; reports(rt, empty.check_size(120), "Ok"));
}

// How many zero bytes there are, what `sh_size` of the header at their start is, the offset, the
// count, and how many headers are read or the text.
type Listed = (usize, u8, usize, usize, Result<usize, &'static str>);

const FEW: &str = "Buffer is too short for 2 section headers";

static LISTED: [Listed; 10] = [
    (64, 0, 0, 0, Ok(1)),
    (64, 0, 0, 1, Ok(1)),
    (64, 0, 1, 0, Err("type is too big (64) for 63")),
    (64, 0, 64, 0, Err("bad offset 64")),
    (64, 0, 0, 2, Err(FEW)),
    (64, 0, 64, 2, Err("bad offset 64")),
    (128, 0, 64, 2, Err("bad offset 128")),
    (128, 2, 0, 0, Ok(2)),
    (128, 2, 0, 1, Ok(1)),
    (100, 2, 0, 0, Err(FEW)),
];

// The list of a table.
fn listed(
    rt: HostRuntime,
    bytes: &[u8],
    offset: usize,
    count: usize,
) -> Answer<Vec<SectionHeader>> {
    SectionHeader::table(bytes, offset, count, BIG64)?.to_vec(rt.alloc())
}

// At offset 0 a file has no section headers; elsewhere it has those from there on.
fn is_listed(rt: HostRuntime, row: &Listed) -> bool {
    let (len, size, offset, count, ref wanted) = *row;
    let mut bytes = [0; 128];
    bytes[39] = size;
    let bytes = &bytes[..len.min(128)];
    let of_file = if offset == 0 { &Ok(0) } else { wanted };
    let from = SectionHeader::parse_from(rt.alloc(), bytes, offset, count, BIG64);
    let is_from = lists(rt, from, wanted);
    let whole = SectionHeader::parse(rt.alloc(), bytes, offset, count, BIG64);
    let is_whole = lists(rt, whole, of_file);
    is_from && is_whole && lists(rt, listed(rt, bytes, offset, count), of_file)
}

#[test]
fn reads_section_headers_at_once(rt: HostRuntime) {
    assert!(rt; each_row!(rt; row in LISTED => is_listed(rt, row)));
}

// 16 bytes of something else, and two section headers, of which the first has the size 2.
fn file() -> [u8; 144] {
    let mut bytes = [0xaa; 144];
    bytes[16..80].copy_from_slice(BIG);
    bytes[55] = 2;
    bytes[80..].copy_from_slice(BIG);
    bytes
}

fn first() -> SectionHeader {
    SectionHeader {
        sh_size: 2,
        ..section()
    }
}

fn read(rt: HostRuntime, count: usize, headers: &[SectionHeader]) -> bool {
    let answer = SectionHeader::parse(rt.alloc(), &file(), 16, count, BIG64);
    returns_list(rt, answer, headers) && returns_list(rt, listed(rt, &file(), 16, count), headers)
}

// Where the count is 0, the first header's size is the count.
#[test]
fn reads_the_section_headers_of_a_file(rt: HostRuntime) {
    assert!(rt; read(rt, 2, &[first(), section()]));
    assert!(rt; read(rt, 1, &[first()]));
    assert!(rt; read(rt, 0, &[first(), section()]));
}

#[test]
fn reads_one_section_header_of_zeros(rt: HostRuntime) {
    let one = SectionHeader::parse_from(rt.alloc(), &[0; 64], 0, 0, BIG64);
    assert!(rt; returns_list(rt, one, &[SectionHeader::default()]));
    let one = SectionHeader::parse_from(rt.alloc(), &[0; 40], 0, 0, LITTLE32);
    assert!(rt; returns_list(rt, one, &[SectionHeader::default()]));
}

// 40 zero bytes, and a section of four bytes of names at 52.
const NAMES: &[u8; 80] =
    b"\0\0\0\0\0\0\0\0\0\0\0\0\0\0\0\0\0\0\0\0\0\0\0\0\0\0\0\0\0\0\0\0\0\0\0\0\0\0\0\0\
    \x01\x00\x00\x00\x03\x00\x00\x00\x00\x00\x00\x00\x00\x00\x00\x00\
    \x34\x00\x00\x00\x04\x00\x00\x00\0\0\0\0\0\0\0\0\0\0\0\0\0\0\0\0";

#[test]
fn reads_raw_section_headers_from_bytes(rt: HostRuntime) {
    let none = section_header32::SectionHeader::default();
    let names = section_header32::SectionHeader {
        sh_name: 1,
        sh_type: 3,
        sh_offset: 52,
        sh_size: 4,
        ..none
    };
    let two = section_header32::SectionHeader::from_bytes(rt.alloc(), NAMES, 2);
    assert!(rt; returns_list(rt, two, &[none, names]));
}

#[test]
fn reads_raw_section_headers_of_zeros(rt: HostRuntime) {
    let zeros = section_header32::SectionHeader::default();
    let two = section_header32::SectionHeader::from_bytes(rt.alloc(), &[0; 80], 2);
    assert!(rt; zeros.sh_size == 0 && returns_list(rt, two, &[zeros, zeros]));
    let zeros = section_header64::SectionHeader::default();
    let two = section_header64::SectionHeader::from_bytes(rt.alloc(), &[0; 128], 2);
    assert!(rt; zeros.sh_size == 0 && returns_list(rt, two, &[zeros, zeros]));
}

// The functions that the modules of the classes pass on are these.
#[test]
fn passes_on_the_names(rt: HostRuntime) {
    assert!(rt; is(rt, section_header32::sht_to_str(2), "SHT_SYMTAB"));
    assert!(rt; is(rt, section_header64::sht_to_str(2), "SHT_SYMTAB"));
    assert!(rt; is(rt, section_header32::shf_to_str(2), "SHF_ALLOC"));
    assert!(rt; is(rt, section_header64::shf_to_str(2), "SHF_ALLOC"));
    assert!(rt; is(rt, section_header::section_header32::SIZEOF_SHDR, 40));
    assert!(rt; is(rt, section_header::section_header64::SIZEOF_SHDR, 64));
}

// A section of a type, whose name lies at a place.
fn named(sh_name: usize, sh_type: u32) -> SectionHeader {
    SectionHeader {
        sh_name,
        sh_type,
        ..SectionHeader::default()
    }
}

// Returns the index of the first section with this name, among sections over a string table, and in their table over
// its bytes. The names "f", one that is not UTF-8, and "f" are at 1, 3 and 5. The last section's name is past them.
fn found(name: &[u8]) -> [Option<usize>; 2] {
    let names = b"\0f\0\xff\0f\0";
    // Four little endian section headers of the 32-bit class. All fields but the offsets of their names are zero.
    let mut bytes = [0; 160];
    bytes[0] = 3;
    bytes[40] = 1;
    bytes[80] = 5;
    bytes[120] = 7;
    let sections = [named(3, 0), named(1, 0), named(5, 0), named(7, 0)];
    [
        SectionHeader::find(&sections, &Strtab::new(names, 0), name),
        SectionHeader::find_in(&Table::of(&bytes, 4, LITTLE32), names, 0, name),
    ]
}

#[test]
fn finds_the_first_section_of_a_name(rt: HostRuntime) {
    assert!(rt; is(rt, found(b"f"), [Some(1); 2]));
    assert!(rt; is(rt, found(b"\xff"), [None; 2]));
    assert!(rt; is(rt, found(b""), [None; 2]));
}

// Returns the index of the first section with the name "f" from an index on. The sections have the names "f", "" and
// "f".
fn found_from(first: usize) -> Option<usize> {
    let mut bytes = [0; 120];
    bytes[0] = 1;
    bytes[80] = 1;
    let table = Table::<SectionHeader, Ctx>::of(&bytes, 3, LITTLE32);
    SectionHeader::find_in_from(&table, first, b"\0f\0", 0, b"f")
}

#[test]
fn finds_the_next_section_of_a_name(rt: HostRuntime) {
    assert!(rt; is(rt, found_from(0), Some(0)));
    assert!(rt; is(rt, found_from(1), Some(2)) && is(rt, found_from(2), Some(2)));
    assert!(rt; is(rt, found_from(3), None) && is(rt, found_from(usize::MAX), None));
}

// The `sh_name` of the section that is a table at an index, in a list and in a lazy table: the sections have the types
// 3, 3, 8 and 0, and the names 1, 2, 3 and 4.
fn linked(index: usize) -> [Option<usize>; 2] {
    let mut bytes = [0; 160];
    bytes[0] = 1;
    bytes[4] = 3;
    bytes[40] = 2;
    bytes[44] = 3;
    bytes[80] = 3;
    bytes[84] = 8;
    bytes[120] = 4;
    let table = Table::<SectionHeader, Ctx>::of(&bytes, 4, LITTLE32);
    let sections = [named(1, 3), named(2, 3), named(3, SHT_NOBITS), named(4, 0)];
    [
        SectionHeader::linked(&sections, index).map(|section| section.sh_name),
        SectionHeader::linked_in(&table, index).map(|section| section.sh_name),
    ]
}

// Whether section 0xff00 of empty ones is found, whose index is reserved for symbols alone.
fn links_far(rt: HostRuntime) -> Option<bool> {
    let bytes = vec![in rt.alloc(); 0u8; 0xff01 * 40].ok()?;
    let table = Table::<SectionHeader, Ctx>::of(bytes.as_slice(), 0xff01, LITTLE32);
    Some(SectionHeader::linked_in(&table, 0xff00).is_some())
}

#[test]
fn links_to_sections_with_bytes(rt: HostRuntime) {
    assert!(rt; is(rt, links_far(rt), Some(true)));
    assert!(rt; is(rt, linked(0), [None; 2]));
    assert!(rt; is(rt, linked(1), [Some(2); 2]));
    assert!(rt; is(rt, linked(2), [None; 2]));
    assert!(rt; is(rt, linked(3), [Some(4); 2]));
    assert!(rt; is(rt, linked(4), [None; 2]));
}

// The index in a header, the `sh_link` of the first section if there is one, and the index of the section
// that holds the names.
static NAMES_AT: [(u16, Option<u32>, usize); 6] = [
    (2, Some(7), 2),
    (0, None, 0),
    (0, Some(7), 0),
    (0xfffe, Some(7), 0xfffe),
    (0xffff, Some(0x10000), 0x10000),
    (0xffff, None, 0),
];

fn names_at(index: u16, link: Option<u32>) -> usize {
    let first = link.map(|sh_link| SectionHeader {
        sh_link,
        ..section()
    });
    SectionHeader::names_index(index, first.as_ref())
}

#[test]
fn finds_the_section_of_the_names(rt: HostRuntime) {
    assert!(rt; each_row!(rt; row in NAMES_AT => is(rt, names_at(row.0, row.1), row.2)));
}
