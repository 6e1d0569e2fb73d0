//! Cases with their results: headers in their three forms, new headers, and names.
use crate::compare::{are_unchanged, differs, each_row, has_written, holds, is, reports, returns};
use crate::container::{BIG64, LITTLE32};
use crate::record::{is_apart, reads, with_each_default, writes};
use goblin_base::container::{BE, Container, Ctx, Endian, LE};
use goblin_base::scroll::{IntoCtx, SizeWith, TryFromCtx, TryIntoCtx};
use goblin_headers::header::{Header, class_to_str, et_to_str, machine_to_str};
use goblin_headers::section_header::SectionHeader;
use goblin_headers::{header, header32, header64};

// A 64-bit header in big byte order, each field with a number of its own, and the header.
const BIG: &[u8; 64] = b"\x7fELF\x02\x02\x01\0\0\0\0\0\0\0\0\0\
    \x00\x02\x00\x3e\x00\x00\x00\x01\
    \x00\x00\x00\x00\x00\x40\x10\x00\
    \x00\x00\x00\x00\x00\x00\x00\x40\
    \x00\x00\x00\x00\x00\x00\x00\xa0\
    \x00\x00\xf0\x0d\x00\x40\x00\x38\
    \x00\x0d\x00\x40\x00\x02\x00\x01";

const READ: Header = Header {
    e_ident: [0x7f, 0x45, 0x4c, 0x46, 2, 2, 1, 0, 0, 0, 0, 0, 0, 0, 0, 0],
    e_type: 2,
    e_machine: 62,
    e_version: 1,
    e_entry: 0x401000,
    e_phoff: 0x40,
    e_shoff: 0xa0,
    e_flags: 0xf00d,
    e_ehsize: 64,
    e_phentsize: 56,
    e_phnum: 13,
    e_shentsize: 64,
    e_shnum: 2,
    e_shstrndx: 1,
};

// The bytes of new headers: of the 32-bit class in little byte order, and of the 64-bit class in big
// byte order.
const NEW32: &[u8; 52] = b"\x7fELF\x01\x01\x01\0\0\0\0\0\0\0\0\0\
    \x03\x00\x00\x00\x01\x00\x00\x00\x00\x00\x00\x00\x00\x00\x00\x00\x00\x00\x00\x00\x00\x00\x00\x00\
    \x34\x00\x20\x00\x00\x00\x28\x00\x00\x00\x00\x00";

const NEW64: &[u8; 64] = b"\x7fELF\x02\x02\x01\0\0\0\0\0\0\0\0\0\
    \x00\x03\x00\x00\x00\x00\x00\x01\0\0\0\0\0\0\0\0\0\0\0\0\0\0\0\0\0\0\0\0\0\0\0\0\0\0\0\0\
    \x00\x40\x00\x38\x00\x00\x00\x40\x00\x00\x00\x00";

// The first of these put as a 64-bit header, and the second as a 32-bit one: each keeps its identification and its
// numbers.
const NEW32_IN_64: &[u8; 64] = b"\x7fELF\x01\x01\x01\0\0\0\0\0\0\0\0\0\
    \x03\x00\x00\x00\x01\x00\x00\x00\0\0\0\0\0\0\0\0\0\0\0\0\0\0\0\0\0\0\0\0\0\0\0\0\0\0\0\0\
    \x34\x00\x20\x00\x00\x00\x28\x00\x00\x00\x00\x00";

const NEW64_IN_32: &[u8; 52] = b"\x7fELF\x02\x02\x01\0\0\0\0\0\0\0\0\0\
    \x00\x03\x00\x00\x00\x00\x00\x01\x00\x00\x00\x00\x00\x00\x00\x00\x00\x00\x00\x00\x00\x00\x00\x00\
    \x00\x40\x00\x38\x00\x00\x00\x40\x00\x00\x00\x00";

// Whether a header has this form. Its own bytes name its class and its order: the order that is passed is ignored.
fn has_either_form(rt: HostRuntime, header: Header, bytes: &'static [u8]) -> bool {
    reads(rt, bytes, LE, &header)
        && reads(rt, bytes, BE, &header)
        && writes(rt, header, LE, bytes)
        && writes(rt, header, BE, bytes)
}

// Whether a header of a context has this size, and a new one is put as these bytes.
fn puts(rt: HostRuntime, ctx: Ctx, bytes: &[u8]) -> bool {
    let mut buffer = [0xaa; 70];
    Header::new(ctx).into_ctx(&mut buffer, ctx);
    let sizes = (Header::size(ctx), Header::size_with(&ctx));
    has_written(rt, &buffer, bytes) && is(rt, sizes, (bytes.len(), bytes.len()))
}

#[test]
fn reads_and_writes_headers(rt: HostRuntime) {
    assert!(rt; has_either_form(rt, READ, BIG));
    assert!(rt; has_either_form(rt, Header::new(LITTLE32), NEW32));
    assert!(rt; has_either_form(rt, Header::new(BIG64), NEW64));
    assert!(rt; puts(rt, LITTLE32, NEW32));
    assert!(rt; puts(rt, BIG64, NEW64));
}

// The context's class, and the order of the data byte, whatever order the context has. The buffer is just large enough.
#[test]
fn puts_headers_in_the_class_of_a_context(rt: HostRuntime) {
    let mut buffer = [0xaa; 64];
    Header::new(LITTLE32).into_ctx(&mut buffer, BIG64);
    assert!(rt; has_written(rt, &buffer, NEW32_IN_64));
    let mut buffer = [0xaa; 52];
    Header::new(BIG64).into_ctx(&mut buffer, LITTLE32);
    assert!(rt; has_written(rt, &buffer, NEW64_IN_32));
}

// What doesn't fit loses its high bits, and neither the identification nor a number beside it.
const MISFIT: &[u8; 52] = b"\x7fELF\x01\x02\x01\x02\x03\x04\x05\x06\x07\x08\x09\x0a\
    \x00\x02\x00\x3e\x00\x00\x00\x01\x00\x40\x10\x00\x00\x00\x00\x40\x00\x00\x00\xa0\x00\x00\xf0\x0d\
    \x00\x40\x00\x38\x00\x0d\x00\x40\x00\x02\x00\x01";

#[test]
fn writes_headers_that_do_not_fit(rt: HostRuntime) {
    let e_ident = [0x7f, 0x45, 0x4c, 0x46, 1, 2, 1, 2, 3, 4, 5, 6, 7, 8, 9, 10];
    let misfit = Header {
        e_ident,
        e_entry: 0x1_0040_1000,
        e_shoff: 0xffff_0000_0000_00a0,
        ..READ
    };
    assert!(rt; writes(rt, misfit, LE, MISFIT));
}

#[test]
fn reads_and_writes_raw_headers(rt: HostRuntime) {
    let raw = header64::Header::from(READ);
    assert!(rt; reads(rt, BIG, LE, &raw) && returns(rt, header64::Header::parse(BIG), raw));
    assert!(rt; is(rt, Header::from(raw), READ));
    let raw = header32::Header::from(Header::new(LITTLE32));
    assert!(rt; reads(rt, NEW32, BE, &raw) && returns(rt, header32::Header::parse(NEW32), raw));
    assert!(rt; writes(rt, raw, BE, NEW32));
    assert!(rt; is(rt, Header::from(raw), Header::new(LITTLE32)));
    assert!(rt; writes(rt, header64::Header::from(Header::new(BIG64)), LE, NEW64));
}

#[test]
fn default_headers_are_zeros(rt: HostRuntime) {
    let ident = header32::Header::default().e_ident;
    assert!(rt; is(rt, ident, [0; 16]));
    let zeros = header64::Header::default();
    let ident = zeros.e_ident;
    assert!(rt; is(rt, ident, [0; 16]) && zeros.e_entry == 0);
}

// Copies of a header, each with the default in one field.
macro_rules! others {
    ($header:expr) => {
        with_each_default!($header; e_ident e_type e_machine e_version e_entry e_phoff e_shoff
            e_flags e_ehsize e_phentsize e_phnum e_shentsize e_shnum e_shstrndx)
    };
}

#[test]
fn compares_headers(rt: HostRuntime) {
    assert!(rt; is_apart(rt, &READ, &others!(READ)));
    let raw = header32::Header::from(READ);
    assert!(rt; is_apart(rt, &raw, &others!(raw)));
    let raw = header64::Header::from(READ);
    assert!(rt; is_apart(rt, &raw, &others!(raw)));
}

const OK: &str = "Ok";

const DATA: &str = "Malformed entity: invalid ELF DATA type 0";

const DATA_TYPE: &str = "Malformed entity: invalid ELF endianness DATA type 0";

const CLASS: &str = "Malformed entity: invalid ELF class 3";

const MAGIC2: &str = "Invalid magic number: 0x10202464c4500";

const MAGIC3: &str = "Invalid magic number: 0x10003464c4500";

const SMALL: &str = "Malformed entity: Too small";

const CUT63: &str = "type is too big (64) for 63";

const CUT51: &str = "type is too big (52) for 51";

const CUT16: &str = "type is too big (64) for 16";

const CUT15: &str = "type is too big (16) for 15";

const NONE: &str = "bad offset 0";

// Byte 0, the class byte, the data byte and how many bytes there are of `BIG` with these; and the texts
// of the reader of both classes, and of `try_from_ctx` and `parse` of its own.
type Refused = ([u8; 3], usize, [&'static str; 3]);

static REFUSED: [Refused; 11] = [
    ([0x7f, 2, 2], 64, [OK, OK, OK]),
    ([0, 2, 2], 64, [MAGIC2, OK, OK]),
    ([0x7f, 3, 2], 64, [CLASS, OK, OK]),
    ([0x7f, 2, 0], 64, [DATA_TYPE, DATA_TYPE, DATA]),
    ([0x7f, 3, 0], 64, [CLASS, DATA_TYPE, DATA]),
    ([0, 3, 0], 64, [MAGIC3, DATA_TYPE, DATA]),
    ([0x7f, 2, 2], 63, [CUT63, CUT63, CUT63]),
    ([0x7f, 2, 2], 16, [CUT16, CUT16, CUT16]),
    ([0x7f, 2, 0], 16, [DATA_TYPE, DATA_TYPE, DATA]),
    ([0, 3, 0], 15, [SMALL, CUT15, CUT15]),
    ([0x7f, 2, 2], 0, [SMALL, NONE, NONE]),
];

fn refuses(rt: HostRuntime, row: &Refused) -> bool {
    let ([magic, class, order], len, texts) = *row;
    let mut bytes = *BIG;
    bytes[0] = magic;
    bytes[4] = class;
    bytes[5] = order;
    let cut = &bytes[..len.min(64)];
    reports(rt, Header::try_from_ctx(cut, BE), texts[0])
        && reports(rt, header64::Header::try_from_ctx(cut, BE), texts[1])
        && reports(rt, header64::Header::parse(cut), texts[2])
}

#[test]
fn refuses_headers_in_order(rt: HostRuntime) {
    assert!(rt; each_row!(rt; row in REFUSED => refuses(rt, row)));
}

#[test]
fn refuses_a_cut_32_bit_header(rt: HostRuntime) {
    let cut = &NEW32[..51];
    assert!(rt; reports(rt, header32::Header::parse(cut), CUT51));
    assert!(rt; reports(rt, header32::Header::try_from_ctx(cut, LE), CUT51));
    assert!(rt; reports(rt, Header::try_from_ctx(cut, LE), CUT51));
}

#[test]
fn asks_a_header(rt: HostRuntime) {
    assert!(rt; returns(rt, READ.container(), Container::Big));
    assert!(rt; returns(rt, READ.endianness(), BE));
    assert!(rt; returns(rt, READ.ctx(), BIG64));
    let new = Header::new(LITTLE32);
    assert!(rt; returns(rt, new.container(), Container::Little));
    assert!(rt; returns(rt, new.endianness(), LE));
    assert!(rt; returns(rt, new.ctx(), LITTLE32));
}

#[test]
fn refuses_a_bad_class_and_a_bad_order(rt: HostRuntime) {
    let mut header = READ;
    header.e_ident[4] = 10;
    header.e_ident[5] = 11;
    let text = "Malformed entity: Invalid class in Header: 10";
    assert!(rt; reports(rt, header.container(), text));
    assert!(rt; reports(rt, header.ctx(), text));
    let text = "Malformed entity: Invalid endianness in Header: 11";
    assert!(rt; reports(rt, header.endianness(), text));
    header.e_ident[4] = 1;
    assert!(rt; reports(rt, header.ctx(), text));
}

#[test]
fn keeps_low_bits(rt: HostRuntime) {
    let mut wide = Header::new(BIG64);
    wide.e_entry = 0x1_2345_6789;
    assert!(rt; is(rt, header32::Header::from(wide).e_entry, 0x2345_6789));
    assert!(rt; is(rt, header64::Header::from(wide).e_entry, 0x1_2345_6789));
}

// Little endian, whatever the data byte says.
#[test]
fn reads_headers_from_their_bytes(rt: HostRuntime) {
    let header = header32::Header::from_bytes(NEW32);
    assert!(rt; is(rt, Header::from(header), Header::new(LITTLE32)));
    let header = header64::Header::from_bytes(NEW64);
    assert!(rt; is(rt, (header.e_ident[5], header.e_type), (2, 0x300)));
    assert!(rt; is(rt, (header.e_version, header.e_ehsize), (0x1000000, 0x4000)));
}

const CLASS_BYTE0: &str = "Malformed entity: Invalid class in Header: 0";

const CLASS_BYTE3: &str = "Malformed entity: Invalid class in Header: 3";

// The class byte, the data byte, how many bytes there are, and the texts of writing the header of either
// class and the 32-bit one.
type Unwritten = (u8, u8, usize, [&'static str; 2]);

static UNWRITTEN: [Unwritten; 7] = [
    (1, 1, 52, [OK, OK]),
    (1, 1, 51, [CUT51, CUT51]),
    (1, 1, 0, [NONE, NONE]),
    (0, 0, 52, [CLASS_BYTE0, DATA]),
    (1, 0, 52, [DATA, DATA]),
    (1, 0, 0, [DATA, DATA]),
    (3, 1, 52, [CLASS_BYTE3, OK]),
];

// A new 32-bit header with this class byte and this data byte.
fn header_with(class: u8, order: u8) -> Header {
    let mut header = Header::new(LITTLE32);
    header.e_ident[4] = class;
    header.e_ident[5] = order;
    header
}

// Reports whether writing a header over so many bytes has this result, and writes nothing if it is refused.
fn is_written_or_refused<R: TryIntoCtx<Endian>>(
    rt: HostRuntime,
    header: R,
    len: usize,
    text: &str,
) -> bool {
    let mut buffer = [0xaa; 52];
    let buffer = &mut buffer[..len.min(52)];
    let written = header.try_into_ctx(buffer, BE);
    reports(rt, written, text) && is(rt, are_unchanged(buffer), text != OK)
}

fn refuses_to_write(rt: HostRuntime, row: &Unwritten) -> bool {
    let header = header_with(row.0, row.1);
    is_written_or_refused(rt, header, row.2, row.3[0])
        && is_written_or_refused(rt, header32::Header::from(header), row.2, row.3[1])
}

#[test]
fn refuses_to_write_in_order(rt: HostRuntime) {
    assert!(rt; each_row!(rt; row in UNWRITTEN => refuses_to_write(rt, row)));
}

fn reads_back(rt: HostRuntime, ctx: Ctx) -> bool {
    let mut header = Header::new(ctx);
    header.e_entry = 0x8000_1234;
    header.e_shstrndx = 0xffff;
    let mut buffer = [0; 64];
    match header.try_into_ctx(&mut buffer, LE) {
        Ok(size) => returns(rt, Header::try_from_ctx(&buffer, LE), (header, size)),
        Err(e) => differs(rt, &e, &header),
    }
}

#[test]
fn reads_what_was_written(rt: HostRuntime) {
    assert!(rt; reads_back(rt, Ctx::new(Container::Little, BE)));
    assert!(rt; reads_back(rt, Ctx::new(Container::Big, LE)));
}

// The index in a header, the `sh_link` of the first section if there is one, and the index of the section that holds
// the names.
static NAMES_AT: [(u16, Option<u32>, usize); 5] = [
    (0, Some(7), 0),
    (1, Some(7), 1),
    (0xfffe, Some(7), 0xfffe),
    (0xffff, Some(0x10000), 0x10000),
    (0xffff, None, 0),
];

fn names_at(e_shstrndx: u16, link: Option<u32>) -> usize {
    let header = Header { e_shstrndx, ..READ };
    let first = link.map(|sh_link| SectionHeader {
        sh_link,
        ..SectionHeader::new()
    });
    header.names_index(first.as_ref())
}

#[test]
fn finds_the_section_of_the_names(rt: HostRuntime) {
    assert!(rt; each_row!(rt; row in NAMES_AT => is(rt, names_at(row.0, row.1), row.2)));
}

// The functions that the modules of the classes pass on are these.
#[test]
fn passes_on_the_names(rt: HostRuntime) {
    let machines = [header32::machine_to_str(3), header64::machine_to_str(3)];
    let types = [header32::et_to_str(3), header64::et_to_str(3)];
    let classes = [header32::class_to_str(1), header64::class_to_str(1)];
    let names = [["386"; 2], ["DYN"; 2], ["ELF32"; 2]];
    assert!(rt; is(rt, [machines, types, classes], names));
    assert!(rt; is(rt, header::header32::SIZEOF_EHDR, 52));
    assert!(rt; is(rt, header::header64::SIZEOF_EHDR, 64));
}
