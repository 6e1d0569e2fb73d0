//! Cases with their results: program headers.
use crate::compare::{each_row, is, returns, returns_list};
use crate::container::{BIG64, LITTLE32};
use crate::record::{SHORT, has_form, is_apart, lacks_room, lists, reads, with_each_default};
use goblin_base::container::{BE, Container, Ctx, LE};
use goblin_base::error::Result as Answer;
use goblin_base::scroll::TryIntoCtx;
use goblin_headers::program_header::{PF_R, PF_W, PF_X, PT_LOAD, ProgramHeader, pt_to_str};
use goblin_headers::{program_header, program_header32, program_header64};
use std::alloc::Global;
use std::ops::Range;

// A program header of the 64-bit class in big byte order, each field with a number of its own.
const BIG: &[u8; 56] = b"\x00\x00\x00\x01\x00\x00\x00\x05\x00\x00\x00\x00\x00\x00\x10\x00\
    \x00\x00\x00\x00\x00\x40\x20\x00\x00\x00\x00\x00\x00\x40\x30\x00\
    \x00\x00\x00\x00\x00\x00\x00\x40\x00\x00\x00\x00\x00\x00\x00\x50\
    \x00\x00\x00\x00\x00\x00\x00\x08";

// A program header of the 32-bit class in little byte order, with the same numbers.
const LITTLE: &[u8; 32] = b"\x01\x00\x00\x00\x00\x10\x00\x00\x00\x20\x40\x00\x00\x30\x40\x00\
    \x40\x00\x00\x00\x50\x00\x00\x00\x05\x00\x00\x00\x08\x00\x00\x00";

// The program header that both stand for.
fn segment() -> ProgramHeader {
    ProgramHeader {
        p_type: 1,
        p_flags: 5,
        p_offset: 0x1000,
        p_vaddr: 0x402000,
        p_paddr: 0x403000,
        p_filesz: 0x40,
        p_memsz: 0x50,
        p_align: 8,
    }
}

// Whether a program header has this form in this context.
fn is_written(rt: HostRuntime, ctx: Ctx, bytes: &'static [u8]) -> bool {
    is(rt, ProgramHeader::size(ctx), bytes.len()) && has_form(rt, segment(), ctx, bytes)
}

#[test]
fn reads_and_writes_program_headers(rt: HostRuntime) {
    assert!(rt; is_written(rt, LITTLE32, LITTLE));
    assert!(rt; is_written(rt, BIG64, BIG));
}

#[test]
fn refuses_program_headers_without_room(rt: HostRuntime) {
    let text = "type is too big (32) for 31";
    assert!(rt; lacks_room(rt, ProgramHeader::new(), LITTLE32, &SHORT[..31], text));
    let text = "type is too big (56) for 55";
    assert!(rt; lacks_room(rt, ProgramHeader::new(), BIG64, &SHORT[..55], text));
    let text = "bad offset 0";
    assert!(rt; lacks_room(rt, ProgramHeader::new(), LITTLE32, &SHORT[..0], text));
    assert!(rt; lacks_room(rt, ProgramHeader::new(), BIG64, &SHORT[..0], text));
}

#[test]
fn converts_program_headers(rt: HostRuntime) {
    let raw = program_header32::ProgramHeader::from(segment());
    assert!(rt; has_form(rt, raw, LE, LITTLE) && is(rt, ProgramHeader::from(raw), segment()));
    let raw = program_header64::ProgramHeader::from(segment());
    assert!(rt; has_form(rt, raw, BE, BIG) && is(rt, ProgramHeader::from(raw), segment()));
}

#[test]
fn keeps_low_bits(rt: HostRuntime) {
    let wide = ProgramHeader {
        p_offset: 0x1_2345_6789,
        ..segment()
    };
    let raw = program_header32::ProgramHeader::from(wide);
    assert!(rt; is(rt, raw.p_offset, 0x2345_6789));
}

// Copies of a program header, each with the default in one field.
macro_rules! others {
    ($header:expr) => {
        with_each_default!($header; p_type p_flags p_offset p_vaddr p_paddr p_filesz p_memsz p_align)
    };
}

#[test]
fn compares_program_headers(rt: HostRuntime) {
    assert!(rt; is_apart(rt, &segment(), &others!(segment())));
    let raw = program_header32::ProgramHeader::from(segment());
    assert!(rt; is_apart(rt, &raw, &others!(raw)));
    let raw = program_header64::ProgramHeader::from(segment());
    assert!(rt; is_apart(rt, &raw, &others!(raw)));
}

fn allows(header: &ProgramHeader) -> [bool; 3] {
    [header.is_read(), header.is_write(), header.is_executable()]
}

#[test]
fn makes_program_headers(rt: HostRuntime) {
    let new = ProgramHeader::new();
    let parts = (new.p_type, new.p_flags, new.p_align, allows(&new));
    assert!(rt; is(rt, parts, (1, 0, 2_097_152, [false; 3])));
    let default = ProgramHeader::default();
    assert!(rt; is(rt, default.p_align, 0));
    assert!(rt; reads(rt, &[0; 56], BIG64, &default));
}

// What may be done is added to what might be done before.
fn sets_flags(rt: HostRuntime) -> bool {
    let mut header = ProgramHeader::new();
    header.read();
    let reads = (header.p_flags, allows(&header));
    header.executable();
    header.executable();
    let executes = (header.p_flags, allows(&header));
    header.write();
    let writes = (header.p_flags, allows(&header));
    is(rt, reads, (PF_R, [true, false, false]))
        && is(rt, executes, (PF_R | PF_X, [true, false, true]))
        && is(rt, writes, (7, [true, true, true]))
}

#[test]
fn sets_and_asks_flags(rt: HostRuntime) {
    assert!(rt; sets_flags(rt));
    let header = ProgramHeader {
        p_flags: !PF_W,
        ..segment()
    };
    assert!(rt; is(rt, allows(&header), [true, false, true]));
    let header = ProgramHeader {
        p_flags: PF_X,
        ..segment()
    };
    assert!(rt; is(rt, allows(&header), [false, false, true]));
}

fn has_ranges(
    rt: HostRuntime,
    header: &ProgramHeader,
    file: Range<usize>,
    memory: Range<usize>,
) -> bool {
    is(rt, (header.file_range(), header.vm_range()), (file, memory))
}

#[test]
fn returns_ranges(rt: HostRuntime) {
    assert!(rt; has_ranges(rt, &segment(), 0x1000..0x1040, 0x402000..0x402050));
    let far = ProgramHeader {
        p_offset: u64::MAX - 1,
        p_filesz: 2,
        p_vaddr: u64::MAX,
        p_memsz: u64::MAX,
        ..segment()
    };
    assert!(rt; has_ranges(rt, &far, usize::MAX - 1..usize::MAX, usize::MAX..usize::MAX));
}

// How many zero bytes there are, the offset, the count, and how many headers are read or the text.
type Listed = (usize, usize, usize, Result<usize, &'static str>);

static LISTED: [Listed; 7] = [
    (64, 40, 1, Err("type is too big (56) for 24")),
    (64, 1000, 0, Ok(0)),
    (64, 0, 2, Err("Buffer is too short for 2 program headers")),
    (64, 8, 1, Ok(1)),
    (64, usize::MAX, 1, Err("bad offset 18446744073709551615")),
    (112, 56, 2, Err("bad offset 112")),
    (112, 0, 2, Ok(2)),
];

// The list of a table.
fn listed(
    rt: HostRuntime,
    bytes: &[u8],
    offset: usize,
    count: usize,
    ctx: Ctx,
) -> Answer<Vec<ProgramHeader>> {
    ProgramHeader::table(bytes, offset, count, ctx)?.to_vec(rt.alloc())
}

fn is_listed(rt: HostRuntime, row: &Listed) -> bool {
    let (len, offset, count, ref wanted) = *row;
    let bytes = &[0; 112][..len.min(112)];
    let ctx = Ctx::new(Container::Big, LE);
    let whole = ProgramHeader::parse(rt.alloc(), bytes, offset, count, ctx);
    lists(rt, whole, wanted) && lists(rt, listed(rt, bytes, offset, count, ctx), wanted)
}

#[test]
fn reads_program_headers_at_once(rt: HostRuntime) {
    assert!(rt; each_row!(rt; row in LISTED => is_listed(rt, row)));
}

// 16 bytes of something else, and one program header.
fn file() -> [u8; 72] {
    let mut bytes = [0xaa; 72];
    bytes[16..].copy_from_slice(BIG);
    bytes
}

#[test]
fn reads_the_program_headers_of_a_file(rt: HostRuntime) {
    let one = ProgramHeader::parse(rt.alloc(), &file(), 16, 1, BIG64);
    assert!(rt; returns_list(rt, one, &[segment()]));
    assert!(rt; returns_list(rt, listed(rt, &file(), 16, 1, BIG64), &[segment()]));
    let raw = program_header64::ProgramHeader::from(segment());
    let one = program_header64::ProgramHeader::parse(rt.alloc(), &file(), 16, 1, BE);
    assert!(rt; returns_list(rt, one, &[raw]));
}

fn lists32(rt: HostRuntime, count: usize, wanted: Result<usize, &str>) -> bool {
    let list = program_header32::ProgramHeader::parse(rt.alloc(), &[0; 64], 0, count, LE);
    lists(rt, list, &wanted)
}

#[test]
fn reads_raw_program_headers_up_to_the_end(rt: HostRuntime) {
    assert!(rt; lists32(rt, 2, Ok(2)));
    assert!(rt; lists32(rt, 3, Err("bad offset 64")));
    assert!(rt; lists32(rt, usize::MAX, Err("bad offset 64")));
    let none = program_header64::ProgramHeader::parse(rt.alloc(), &[0; 112], usize::MAX, 0, BE);
    assert!(rt; returns_list(rt, none, &[]));
}

#[test]
fn reads_32_bit_program_headers_of_zeros(rt: HostRuntime) {
    let zeros = program_header32::ProgramHeader::default();
    let two = program_header32::ProgramHeader::parse(rt.alloc(), &[0; 64], 0, 2, LE);
    assert!(rt; zeros.p_align == 0 && returns_list(rt, two, &[zeros, zeros]));
    let two = program_header32::ProgramHeader::from_bytes(rt.alloc(), &[0; 64], 2);
    assert!(rt; returns_list(rt, two, &[zeros, zeros]));
}

#[test]
fn reads_64_bit_program_headers_of_zeros(rt: HostRuntime) {
    let zeros = program_header64::ProgramHeader::default();
    let two = program_header64::ProgramHeader::parse(rt.alloc(), &[0; 112], 0, 2, BE);
    assert!(rt; zeros.p_align == 0 && returns_list(rt, two, &[zeros, zeros]));
    let two = program_header64::ProgramHeader::from_bytes(rt.alloc(), &[0; 112], 2);
    assert!(rt; returns_list(rt, two, &[zeros, zeros]));
}

// The function that the modules of the classes pass on is this one.
#[test]
fn passes_on_the_names(rt: HostRuntime) {
    assert!(rt; is(rt, program_header32::pt_to_str(2), "PT_DYNAMIC"));
    assert!(rt; is(rt, program_header64::pt_to_str(2), "PT_DYNAMIC"));
    assert!(rt; is(rt, program_header::program_header32::SIZEOF_PHDR, 32));
    assert!(rt; is(rt, program_header::program_header64::SIZEOF_PHDR, 56));
}

// Segments by type, address, offset and file size: one that isn't loaded, two that overlap, and one past all offsets.
static SEGMENTS: [(u32, u64, u64, u64); 5] = [
    (2, 0x1000, 0x700, 0x100),
    (PT_LOAD, 0x1000, 0x40, 0x10),
    (PT_LOAD, 0x1008, 0x80, 0x20),
    (PT_LOAD, 0x9000, u64::MAX - 1, 9),
    (PT_LOAD, u64::MAX - 1, 0x200, 4),
];

// The bytes of these segments.
fn segments(alloc: Global) -> Answer<Vec<u8>> {
    let mut bytes = Vec::new(alloc);
    for row in &SEGMENTS {
        let (p_type, p_vaddr, p_offset, p_filesz) = *row;
        let mut written = [0; 56];
        let _ = ProgramHeader {
            p_type,
            p_offset,
            p_vaddr,
            p_filesz,
            ..segment()
        }
        .try_into_ctx(&mut written, BIG64)?;
        bytes.extend_from_slice(&written)?;
    }
    Ok(bytes)
}

// The offset of the byte at an address by these segments.
fn loaded_from(rt: HostRuntime, address: u64) -> Answer<Option<usize>> {
    let bytes = segments(rt.alloc())?;
    let table = ProgramHeader::table(bytes.as_slice(), 0, 5, BIG64)?;
    Ok(ProgramHeader::loaded_from(&table, address))
}

// Addresses, and the offset of the byte at each.
static OFFSETS: [(u64, Option<usize>); 9] = [
    (0xfff, None),
    (0x1000, Some(0x40)),
    (0x100f, Some(0x4f)),
    (0x1010, Some(0x88)),
    (0x1027, Some(0x9f)),
    (0x1028, None),
    (0x9001, Some(usize::MAX)),
    (0x9008, Some(usize::MAX)),
    (u64::MAX, Some(0x201)),
];

#[test]
fn finds_offsets_by_addresses(rt: HostRuntime) {
    assert!(rt; each_row!(rt; row in OFFSETS => returns(rt, loaded_from(rt, row.0), row.1)));
}
