//! What all lists of records share: tables asked in each way; lists of many lengths; and tables at the ends of their
//! bytes and of `usize`, each result against its rule, which is written out over u128.
ghost use Rattle.std.specs.Prelude.{◌≡◌, ◌≤◌, length};

use crate::compare::{are_alike, differs, each_row, holds, is, number, reports, returns_list};
use crate::container::{CONTEXTS, LITTLE64};
use crate::sym::{FUNCTION, WIDE, ZERO};
use goblin::elf::program_header::{ProgramHeader, program_header32, program_header64};
use goblin::elf::reloc::{Reloc, RelocCtx, RelocSection};
use goblin::elf::section_header::{SectionHeader, section_header32, section_header64};
use goblin::elf::sym::{Sym, Symtab};
use goblin_base::container::{Container, Ctx, LE};
use goblin_base::entries::Looked;
use goblin_base::error::{Error, Fault, Result};
use goblin_base::options::{ParseMode, ParseOptions};
use goblin_base::record::Record;
use goblin_base::scroll;
use goblin_base::scroll::{TryFromCtx, TryIntoCtx};
use goblin_base::strtab::Strtab;
use goblin_base::table::{Table, TableIter, read_back, same_range};
use goblin_base::walk::walk;
use std::fmt::Debug;

// Whether an iterator returns these records one after another, reports how many are left, and then returns `None`.
pub(crate) fn yields<R: Record<C> + Copy + PartialEq + Debug, C: Copy>(
    rt: HostRuntime,
    mut left: TableIter<'_, R, C>,
    wanted: &[R],
) -> bool {
    let mut count = wanted.len();
    for record in wanted {
        if !is(
            rt,
            (left.len(), left.size_hint()),
            (count, (count, Some(count))),
        ) || !is(rt, left.next(), Some(*record))
        {
            return false;
        }
        count = count.saturating_sub(1);
    }
    is(rt, left.len(), 0) && is(rt, left.next(), None) && is(rt, left.next(), None)
}

const THREE: &[Sym] = &[ZERO, FUNCTION, WIDE];

// Writes three symbols that fit both classes one after another.
fn put_symbols(bytes: &mut [u8; 73], ctx: Ctx) -> Result<()> {
    let size = Sym::size(ctx.container);
    let _ = ZERO.try_into_ctx(bytes, ctx)?;
    let _ = FUNCTION.try_into_ctx(&mut bytes[size..], ctx)?;
    let _ = WIDE.try_into_ctx(&mut bytes[2 * size..], ctx)?;
    Ok(())
}

// Whether a table has these records: by index, as a vector and in turn.
fn has_all(rt: HostRuntime, table: &Table<'_, Sym, Ctx>, wanted: &[Sym]) -> bool {
    for (index, record) in wanted.iter().enumerate() {
        if !is(rt, table.get(index), Some(*record)) {
            return false;
        }
    }
    is(
        rt,
        (table.len(), table.is_empty()),
        (wanted.len(), wanted.is_empty()),
    ) && is(rt, table.get(wanted.len()), None)
        && returns_list(rt, table.to_vec(rt.alloc()), wanted)
        && yields(rt, table.iter(), wanted)
}

// Whether a table is accepted and has these records.
fn is_table_of(rt: HostRuntime, table: Result<Table<'_, Sym, Ctx>>, wanted: &[Sym]) -> bool {
    match table {
        Ok(table) => has_all(rt, &table, wanted),
        Err(e) => differs(rt, &e, &wanted),
    }
}

// Whether a table of what was written has the symbols, and so have those in a range.
fn tabulates(rt: HostRuntime, ctx: Ctx) -> bool {
    let mut bytes = [0; 73];
    match put_symbols(&mut bytes, ctx) {
        Ok(()) => {
            let size = Sym::size(ctx.container);
            has_all(rt, &Table::of(&bytes, 3, ctx), THREE)
                && is_table_of(rt, Table::in_range(&bytes, size, 2, ctx), &THREE[1..])
                && is_table_of(rt, Table::counted(&bytes, 0, 3, ctx, "symbols"), THREE)
        }
        Err(e) => differs(rt, &e, &"three symbols"),
    }
}

#[test]
fn returns_symbols_by_index_as_a_vector_and_in_turn(rt: HostRuntime) {
    assert!(rt; each_row!(rt; ctx in CONTEXTS => tabulates(rt, *ctx)));
    // The laws of all records hold of these too.
    read_back::<Sym, Ctx>();
    same_range::<Sym, Ctx>();
    // Of just so many bytes, and of none.
    assert!(rt; has_all(rt, &Table::of(&[0; 48], 2, LITTLE64), &[ZERO, ZERO]));
    assert!(rt; has_all(rt, &Table::of(&[], 0, LITTLE64), &[]));
}

static ZEROS: [u8; 262_272] = [0; 262_272];

// As many zeros as the longest list takes, and 64 before it.
fn zeros() -> &'static [u8]
    ensures { length result.now ≡ 262_272 }
{
    &ZEROS
}

// Whether a list was given, of so many items.
fn lists<T: Debug + Drop>(rt: HostRuntime, name: &str, list: Result<Vec<T>>, count: usize) -> bool {
    match list {
        Ok(list) => holds(rt, &name, is(rt, list.len(), count)),
        Err(e) => differs(rt, &e, &(name, count)),
    }
}

// Whether each of these calls gives a list of so many items.
macro_rules! all_list {
    ($rt:expr, $count:expr; $($name:literal => $list:expr;)+) => {
        $(lists($rt, $name, $list, $count))&&+
    };
}

// Whether each call that takes memory gives a list of so many items: of program headers, and below of others.
fn lists_segments(rt: HostRuntime, count: usize) -> bool {
    all_list![rt, count;
        "segments" => ProgramHeader::parse(rt.alloc(), zeros(), 0, count, LITTLE64);
        "32-bit segments" => program_header32::ProgramHeader::parse(rt.alloc(), zeros(), 0, count, LE);
        "64-bit segments" => program_header64::ProgramHeader::parse(rt.alloc(), zeros(), 0, count, LE);
    ]
}

// Section headers that none are asked of are one, whose size says how many there are.
fn lists_sections(rt: HostRuntime, count: usize) -> bool {
    let most = count.max(1);
    all_list![rt, most;
        "sections" => SectionHeader::parse(rt.alloc(), zeros(), 64, count, LITTLE64);
        "sections from the first" => SectionHeader::parse_from(rt.alloc(), zeros(), 0, count, LITTLE64);
    ]
}

fn lists_segments_of_bytes(rt: HostRuntime, count: usize) -> bool
    requires { count ≤ 4097 }
{
    all_list![rt, count;
        "32-bit segments of bytes" => program_header32::ProgramHeader::from_bytes(rt.alloc(), zeros(), count);
        "64-bit segments of bytes" => program_header64::ProgramHeader::from_bytes(rt.alloc(), zeros(), count);
    ]
}

fn lists_sections_of_bytes(rt: HostRuntime, count: usize) -> bool
    requires { count ≤ 4097 }
{
    all_list![rt, count;
        "32-bit sections of bytes" => section_header32::SectionHeader::from_bytes(rt.alloc(), zeros(), count);
        "64-bit sections of bytes" => section_header64::SectionHeader::from_bytes(rt.alloc(), zeros(), count);
    ]
}

fn symtab_of_zeros(rt: HostRuntime, count: usize) -> Result<Vec<Sym>> {
    Symtab::parse(zeros(), 0, count, LITTLE64)?.to_vec(rt.alloc())
}

fn relocations_of_zeros(rt: HostRuntime, count: usize) -> Result<Vec<Reloc>>
    requires { count ≤ 4097 }
{
    RelocSection::parse(zeros(), 0, 16 * count, false, LITTLE64)?.to_vec(rt.alloc())
}

fn lists_records(rt: HostRuntime, count: usize) -> bool
    requires { count ≤ 4097 }
{
    all_list![rt, count;
        "symbols" => Sym::parse(rt.alloc(), zeros(), 0, count, LITTLE64);
        "a symbol table" => symtab_of_zeros(rt, count);
        "relocations" => relocations_of_zeros(rt, count);
        "records" => Table::<Sym, Ctx>::of(zeros(), count, LITTLE64).to_vec(rt.alloc());
    ]
}

// The strings of a table that was parsed. Each of so many zeros ends a string.
fn strings_of(rt: HostRuntime, bytes: &'static [u8]) -> Result<Vec<&'static str>> {
    Strtab::new_preparsed(rt.alloc(), bytes, 0)?.to_vec(rt.alloc())
}

fn walks(rt: HostRuntime, bytes: &[u8], mode: ParseMode) -> bool {
    match walk(rt.alloc(), &mut Looked::new(bytes), 0, mode) {
        Ok(entries) => is(rt, (entries.len(), mode), (bytes.len(), mode)),
        Err(e) => differs(rt, &e, &(mode, bytes.len())),
    }
}

fn lists_strings(rt: HostRuntime, count: usize) -> bool
    requires { count ≤ 4097 }
{
    let bytes = &zeros()[..count];
    let are_listed = all_list![rt, count;
        "strings" => strings_of(rt, bytes);
        "strings of no parse" => Strtab::new(bytes, 0).to_vec(rt.alloc());
    ];
    are_listed && walks(rt, bytes, ParseMode::Strict) && walks(rt, bytes, ParseMode::Permissive)
}

fn lists_headers(rt: HostRuntime, count: usize) -> bool
    requires { count ≤ 4097 }
{
    lists_segments(rt, count)
        && lists_segments_of_bytes(rt, count)
        && lists_sections(rt, count)
        && lists_sections_of_bytes(rt, count)
}

// Each count up to 1,010, and those about 4,096. (`rt try` takes longer for these than for others: `--seconds 300`.)
#[test]
fn lists_each_count_of_headers(rt: HostRuntime) {
    assert!(rt; (0..1_011).all(|count| lists_headers(rt, count)));
    assert!(rt; (4_095..4_098).all(|count| lists_headers(rt, count)));
}

#[test]
fn lists_each_count_of_symbols(rt: HostRuntime) {
    assert!(rt; (0..1_011).all(|count| lists_records(rt, count)));
    assert!(rt; (4_095..4_098).all(|count| lists_records(rt, count)));
}

#[test]
fn lists_each_count_of_strings(rt: HostRuntime) {
    assert!(rt; (0..1_011).all(|count| lists_strings(rt, count)));
    assert!(rt; (4_095..4_098).all(|count| lists_strings(rt, count)));
}

// Bytes that differ at each place, and ASCII. A 2 stands in the sh_size of the section headers at the offsets 0 and 1,
// in one order or the other.
static BYTES: &[u8] =
    b"\x01\x03\x04\x05\x06\x07\x08\x09\x0a\x0b\x0c\x0d\x0e\x0f\x10\x11\x12\x13\x14\x15\x02\0\0\0\
    \x02\x1a\x1b\x1c\x1d\x1e\x1f\x20\x02\0\0\0\0\0\0\0\x02\x2a\x2b\x2c\x2d\x2e\x2f\x30\x31\x32\
    \x33\x34\x35\x36\x37\x38\x39\x3a\x3b\x3c\x3d\x3e\x3f\x40\x41\x42\x43\x44\x45\x46\x47\x48\x49\
    \x4a\x4b\x4c\x4d\x4e\x4f\x50\x51\x52\x53\x54\x55\x56\x57\x58\x59\x5a\x5b\x5c\x5d\x5e\x5f\x60\
    \x61\x62\x63\x64\x65\x66\x67\x68\x69\x6a\x6b\x6c\x6d\x6e\x6f\x70\x71\x72\x73\x74\x75\x76\x77\
    \x78\x79\x7a\x7b\x7c\x7d\x7e\x7f\x16\x17\x18";

// No byte, one, and of each table one less than a record takes, as many, one more, and as many and one
// more as two records take.
static LENGTHS: [usize; 35] = [
    0, 1, 7, 8, 9, 11, 12, 13, 15, 16, 17, 23, 24, 25, 31, 32, 33, 39, 40, 41, 48, 49, 55, 56, 57,
    63, 64, 65, 80, 81, 112, 113, 128, 129, 130,
];

// The options of a reading that cuts tables to the file, and of one that refuses them.
fn opts(is_cut: bool) -> ParseOptions {
    match is_cut {
        true => ParseOptions::permissive(),
        false => ParseOptions::strict(),
    }
}

// The offsets, counts and sizes that are tried with so many bytes.
fn ends_of(len: usize) -> [usize; 7] {
    let less = len.saturating_sub(1);
    [0, 1, 2, less, len, len.saturating_add(1), usize::MAX]
}

// What a table is asked for: of these bytes, from an offset on, so many records or bytes, in a context.
type Case<'a> = (&'a [u8], usize, usize, Ctx);

// The length, the offset, the count and the size of a record, in numbers that no sum passes.
fn numbers(case: &Case, size: usize) -> [u128; 4] {
    [
        case.0.len() as u128,
        case.1 as u128,
        case.2 as u128,
        size as u128,
    ]
}

// The size of a record in the class of a case.
fn size_in(case: &Case, little: usize, big: usize) -> usize {
    match case.3.container {
        Container::Little => little,
        Container::Big => big,
    }
}

// What a table returns: so many records, or a refusal.
type Expected = std::result::Result<u128, Error>;

// How many whole records so many bytes hold.
fn whole(bytes: u128, size: u128) -> u128 {
    bytes.checked_div(size).unwrap_or(0)
}

// The fault of a place without room for so many bytes, of which there is one at least.
fn no_room(len: u128, place: u128, size: u128) -> Expected {
    Err(Error::Scroll(if place >= len {
        scroll::Error::BadOffset(number(place))
    } else {
        scroll::Error::TooBig {
            size: number(size),
            len: number(len.saturating_sub(place)),
        }
    }))
}

// Records that are read one after another: the first one without room is refused.
fn in_turn(case: &Case, size: usize) -> Expected {
    let [len, offset, count, size] = numbers(case, size);
    let held = whole(len.saturating_sub(offset), size);
    if count <= held {
        return Ok(count);
    }
    no_room(len, offset.saturating_add(held.saturating_mul(size)), size)
}

// The same, where more records than the bytes could hold anywhere are refused before.
fn counted(case: &Case, size: usize, items: &'static str) -> Expected {
    let [len, _, count, wide] = numbers(case, size);
    if count > whole(len, wide) {
        Err(Error::BufferTooShort(case.2, items))
    } else {
        in_turn(case, size)
    }
}

// The sh_size of the section header at the offset, or 0 if there is none.
fn size_of_first(case: &Case) -> usize {
    let here = case.0.get(case.1..).unwrap_or(b"");
    match SectionHeader::try_from_ctx(here, case.3) {
        Ok((first, _)) => first.sh_size as usize,
        Err(_) => 0,
    }
}

// Section headers: the first must have room, and its sh_size is the count if the count is 0.
fn section_headers(case: &Case, size: usize) -> Expected {
    let [len, offset, count, wide] = numbers(case, size);
    if offset.saturating_add(wide) > len {
        return no_room(len, offset, wide);
    }
    let mut meant = *case;
    if count == 0 {
        meant.2 = size_of_first(case).max(1);
    }
    counted(&meant, size, "section headers")
}

// A symbol table, which is cut to the bytes or must lie in them.
fn symbol_table(case: &Case, size: usize, is_cut: bool) -> Expected {
    let (_, offset, count, _) = *case;
    let [len, place, asked, size] = numbers(case, size);
    let requested = asked.saturating_mul(size);
    let rest = len.saturating_sub(place);
    let fault = if place >= len {
        Fault::SymtabOffset {
            offset,
            len: number(len),
        }
    } else if requested > usize::MAX as u128 {
        return Err(Error::Malformed(Fault::TooManySymbols { offset, count }));
    } else if requested <= rest {
        return Ok(asked);
    } else {
        Fault::SymtabPast {
            requested: number(requested),
            available: number(rest),
        }
    };
    if is_cut {
        Ok(whole(rest, size))
    } else {
        Err(Error::Malformed(fault))
    }
}

// A relocation section, which is asked for by its bytes.
fn relocation_section(case: &Case, size: usize) -> Expected {
    let [len, offset, filesz, size] = numbers(case, size);
    if filesz > 0 && offset.saturating_add(filesz) > len {
        no_room(len, offset, filesz)
    } else {
        Ok(whole(filesz, size))
    }
}

// A string table, which is asked for by its bytes, and is cut to the file or must lie in it.
fn string_table(case: &Case, is_cut: bool) -> Expected {
    let [len, offset, size, _] = numbers(case, 1);
    let end = offset.saturating_add(size);
    if offset <= len && end <= len {
        Ok(size)
    } else if is_cut {
        Ok(len.saturating_sub(offset))
    } else if offset > len {
        Err(Error::Malformed(Fault::StrtabOffset {
            offset: case.1,
            len: number(len),
        }))
    } else {
        Err(Error::Malformed(Fault::StrtabRange {
            size: case.2,
            offset: case.1,
            len: number(len),
            overflow: end > usize::MAX as u128,
        }))
    }
}

// Whether a record is read at the start of these bytes.
fn is_record<R: Record<C> + PartialEq + Debug + Drop, C: Copy>(
    rt: HostRuntime,
    bytes: &[u8],
    record: &R,
    ctx: C,
) -> bool {
    match R::read_record(bytes, ctx) {
        Ok(read) => is(rt, &read, record),
        Err(e) => differs(rt, &e, record),
    }
}

// Whether these are the records of a size that stand one after another from the offset on.
fn are_records<R: Record<C> + PartialEq + Debug + Drop, C: Copy>(
    rt: HostRuntime,
    list: &[R],
    case: &Case,
    size: usize,
    ctx: C,
) -> bool {
    let mut place = case.1;
    for record in list {
        let here = case.0.get(place..).unwrap_or(b"");
        if !is_record(rt, here, record, ctx) {
            return false;
        }
        place = place.saturating_add(size);
    }
    true
}

// Whether a refusal is the expected one.
fn is_refusal(rt: HostRuntime, refusal: &Error, expected: &Expected) -> bool {
    match expected {
        Err(wanted) => are_alike(rt, refusal, wanted),
        Ok(_) => differs(rt, refusal, expected),
    }
}

// Whether so many records are expected.
fn are_expected(rt: HostRuntime, count: usize, expected: &Expected) -> bool {
    matches!(expected, Ok(wanted) if *wanted == count as u128) || differs(rt, &count, expected)
}

// Whether an answer is the expected one, with the records at their places.
fn is_as_expected<R: Record<C> + PartialEq + Debug + Drop, C: Copy>(
    rt: HostRuntime,
    answer: Result<Vec<R>>,
    expected: Expected,
    case: &Case,
    size: usize,
    ctx: C,
) -> bool {
    match answer {
        Ok(list) => {
            are_expected(rt, list.len(), &expected)
                && are_records(rt, list.as_slice(), case, size, ctx)
        }
        Err(e) => is_refusal(rt, &e, &expected),
    }
}

fn segments(rt: HostRuntime, case: &Case) -> bool {
    let (bytes, offset, count, ctx) = *case;
    let size = size_in(case, 32, 56);
    let expected = counted(case, size, "program headers");
    let answer = ProgramHeader::parse(rt.alloc(), bytes, offset, count, ctx);
    is_as_expected(rt, answer, expected, case, size, ctx)
}

fn segments32(rt: HostRuntime, case: &Case) -> bool {
    let (bytes, offset, count, ctx) = *case;
    let answer = program_header32::ProgramHeader::parse(rt.alloc(), bytes, offset, count, ctx.le);
    is_as_expected(rt, answer, in_turn(case, 32), case, 32, ctx.le)
}

fn segments64(rt: HostRuntime, case: &Case) -> bool {
    let (bytes, offset, count, ctx) = *case;
    let answer = program_header64::ProgramHeader::parse(rt.alloc(), bytes, offset, count, ctx.le);
    is_as_expected(rt, answer, in_turn(case, 56), case, 56, ctx.le)
}

// At offset 0 there are none.
fn sections(rt: HostRuntime, case: &Case) -> bool {
    let (bytes, offset, count, ctx) = *case;
    let size = size_in(case, 40, 64);
    let expected = match offset {
        0 => Ok(0),
        _ => section_headers(case, size),
    };
    let answer = SectionHeader::parse(rt.alloc(), bytes, offset, count, ctx);
    is_as_expected(rt, answer, expected, case, size, ctx)
}

fn sections_from(rt: HostRuntime, case: &Case) -> bool {
    let (bytes, offset, count, ctx) = *case;
    let size = size_in(case, 40, 64);
    let answer = SectionHeader::parse_from(rt.alloc(), bytes, offset, count, ctx);
    is_as_expected(rt, answer, section_headers(case, size), case, size, ctx)
}

fn symbols(rt: HostRuntime, case: &Case) -> bool {
    let (bytes, offset, count, ctx) = *case;
    let size = size_in(case, 16, 24);
    let answer = Sym::parse(rt.alloc(), bytes, offset, count, ctx);
    is_as_expected(rt, answer, counted(case, size, "symbols"), case, size, ctx)
}

fn symtab(rt: HostRuntime, case: &Case, table: Result<Symtab<'_>>, is_cut: bool) -> bool {
    let size = size_in(case, 16, 24);
    let expected = symbol_table(case, size, is_cut);
    let answer = match table {
        Ok(table) => table.to_vec(rt.alloc()),
        Err(e) => Err(e),
    };
    is_as_expected(rt, answer, expected, case, size, case.3)
}

fn symtab_of<'a>(case: &Case<'a>) -> Result<Symtab<'a>> {
    Symtab::parse(case.0, case.1, case.2, case.3)
}

fn symtab_by<'a>(case: &Case<'a>, is_cut: bool) -> Result<Symtab<'a>> {
    Symtab::parse_with_opts(case.0, case.1, case.2, case.3, &opts(is_cut))
}

// The size of a relocation with an addend or without.
fn reloc_size(case: &Case, is_rela: bool) -> usize {
    match is_rela {
        true => size_in(case, 12, 24),
        false => size_in(case, 8, 16),
    }
}

fn relocs(rt: HostRuntime, case: &Case, is_rela: bool) -> bool {
    let size = reloc_size(case, is_rela);
    let expected = relocation_section(case, size);
    let answer = relocs_of(rt, case, is_rela);
    is_as_expected(rt, answer, expected, case, size, (is_rela, case.3))
}

fn relocs_of(rt: HostRuntime, case: &Case, is_rela: bool) -> Result<Vec<Reloc>> {
    RelocSection::parse(case.0, case.1, case.2, is_rela, case.3)?.to_vec(rt.alloc())
}

// The same as little-endian MIPS64 files store them, in either class and byte order.
fn mips_relocs(rt: HostRuntime, case: &Case, is_rela: bool) -> bool {
    let size = reloc_size(case, is_rela);
    let ctx = RelocCtx {
        is_rela,
        ctx: case.3,
        is_mips64el: true,
    };
    let answer = mips_relocs_of(rt, case, is_rela);
    is_as_expected(rt, answer, relocation_section(case, size), case, size, ctx)
}

fn mips_relocs_of(rt: HostRuntime, case: &Case, is_rela: bool) -> Result<Vec<Reloc>> {
    RelocSection::parse_inner(case.0, case.1, case.2, is_rela, case.3, true)?.to_vec(rt.alloc())
}

// The bytes from a place up to a delimiter or the end.
fn piece(bytes: &[u8], place: usize) -> &[u8] {
    let here = bytes.get(place..).unwrap_or(b"");
    let end = here.iter().position(|byte| *byte == 0);
    here.get(..end.unwrap_or(here.len())).unwrap_or(here)
}

// Reports whether a string table returns the piece at each offset of these bytes, and `None` after them.
fn returns_pieces(rt: HostRuntime, table: &Strtab<'_>, bytes: &[u8]) -> bool {
    for place in 0..bytes.len() {
        let is_piece = match table.get_at(place) {
            Some(text) => is(rt, text.as_bytes(), piece(bytes, place)),
            None => differs(rt, &"nothing", &place),
        };
        if !is_piece {
            return false;
        }
    }
    is(rt, table.get_at(bytes.len()), None)
}

// Returns the bytes of the range that exist.
fn cut<'a>(case: &Case<'a>) -> &'a [u8] {
    let rest = case.0.get(case.1..).unwrap_or(b"");
    rest.get(..case.2).unwrap_or(rest)
}

fn strtab(rt: HostRuntime, case: &Case, is_cut: bool) -> bool {
    let expected = string_table(case, is_cut);
    let (bytes, offset, count, _) = *case;
    match Strtab::parse_with_opts(rt.alloc(), bytes, offset, count, 0, &opts(is_cut)) {
        Ok(table) => {
            are_expected(rt, table.len(), &expected) && returns_pieces(rt, &table, cut(case))
        }
        Err(e) => is_refusal(rt, &e, &expected),
    }
}

// Whether each of these holds. One that doesn't is shown by its name.
macro_rules! all_hold {
    ($rt:expr; $($name:literal => $holds:expr;)+) => {
        $(holds($rt, &$name, $holds))&&+
    };
}

// Whether each call returns for a case what its rule says.
fn agree(rt: HostRuntime, case: &Case) -> bool {
    all_hold![rt;
        "segments" => segments(rt, case);
        "32-bit segments" => segments32(rt, case);
        "64-bit segments" => segments64(rt, case);
        "sections" => sections(rt, case);
        "sections from the first" => sections_from(rt, case);
        "symbols" => symbols(rt, case);
        "a symbol table" => symtab(rt, case, symtab_of(case), false);
        "a strict symbol table" => symtab(rt, case, symtab_by(case, false), false);
        "a permissive symbol table" => symtab(rt, case, symtab_by(case, true), true);
        "relocations" => relocs(rt, case, false);
        "relocations with addends" => relocs(rt, case, true);
        "relocations of MIPS64" => mips_relocs(rt, case, false);
        "relocations of MIPS64 with addends" => mips_relocs(rt, case, true);
        "a strict string table" => strtab(rt, case, false);
        "a permissive string table" => strtab(rt, case, true);
    ]
}

// The same for each offset and count that is tried with these bytes.
fn agree_at_ends(rt: HostRuntime, bytes: &[u8], ctx: Ctx) -> bool {
    let ends = ends_of(bytes.len());
    for offset in &ends {
        for count in &ends {
            let row = (bytes.len(), *offset, *count, ctx);
            if !holds(rt, &row, agree(rt, &(bytes, *offset, *count, ctx))) {
                return false;
            }
        }
    }
    true
}

// The same of so many bytes in each class and byte order.
fn agree_on(rt: HostRuntime, len: usize) -> bool {
    match BYTES.get(..len) {
        Some(bytes) => CONTEXTS.iter().all(|ctx| agree_at_ends(rt, bytes, *ctx)),
        None => false,
    }
}

#[test]
fn keep_their_rules(rt: HostRuntime) {
    assert!(rt; each_row!(rt; len in LENGTHS => agree_on(rt, *len)));
}

// Whether so many symbols at an offset of 48 zeros are refused with this text.
fn refuses(rt: HostRuntime, offset: usize, count: usize, text: &str) -> bool {
    reports(rt, Symtab::parse(&[0; 48], offset, count, LITTLE64), text)
}

#[test]
fn refuses_with_the_numbers_of_the_ends(rt: HostRuntime) {
    let too_many =
        "Malformed entity: Symbol table extends beyond file boundary (requested: 1128, available: 48)";
    assert!(rt; refuses(rt, 0, 47, too_many));
    let many = "Malformed entity: Too many ELF symbols (offset 0x2f, count 18446744073709551615)";
    assert!(rt; refuses(rt, 47, usize::MAX, many));
    let at_end = "Malformed entity: Symbol table offset (48) is beyond file boundary (48)";
    assert!(rt; refuses(rt, 48, usize::MAX, at_end));
    let after_end = "Malformed entity: Symbol table offset (49) is beyond file boundary (48)";
    assert!(rt; refuses(rt, 49, 0, after_end));
    let one = ProgramHeader::parse(rt.alloc(), &[0; 64], 9, 1, LITTLE64);
    assert!(rt; reports(rt, one, "type is too big (56) for 55"));
}
