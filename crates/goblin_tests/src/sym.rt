//! Cases with their results: symbols in their forms, lists and tables of them, their parts and names, and the symbol
//! for an address.
use crate::compare::{differs, each_row, has_written, holds, is, reports, returns_list};
use crate::container::{BIG32, BIG64, LITTLE32, LITTLE64};
use crate::record::{
    SHORT, has_form, is_apart, lacks_room, lists, refuses, with_each_default, writes,
};
use crate::table::yields;
use goblin::elf::header::{ET_DYN, ET_EXEC, ET_REL};
use goblin::elf::section_header::SectionHeader;
use goblin::elf::sym::Symtab;
use goblin_base::container::{BE, Ctx, LE};
use goblin_base::error::Result;
use goblin_base::options::ParseOptions;
use goblin_base::scroll::{IntoCtx, TryIntoCtx};
use goblin_base::strtab::Strtab;
use goblin_base::table::Table;
use goblin_records::sym::{
    STB_GLOBAL, STB_WEAK, STT_FUNC, Sym, bind_to_str, get_type, is_import, st_bind, st_type,
    st_visibility, type_to_str, visibility_to_str,
};
use goblin_records::{sym32, sym64};

// A symbol of zeros.
pub(crate) const ZERO: Sym = Sym {
    st_name: 0,
    st_info: 0,
    st_other: 0,
    st_shndx: 0,
    st_value: 0,
    st_size: 0,
};

// A function that all files see.
pub(crate) const FUNCTION: Sym = Sym {
    st_name: 1,
    st_info: 0x12,
    st_other: 0,
    st_shndx: 5,
    st_value: 0x1000,
    st_size: 0x20,
};

// A symbol of which each field is near the greatest number of the 32-bit class.
pub(crate) const WIDE: Sym = Sym {
    st_name: 0xffff_ffff,
    st_info: 0x21,
    st_other: 3,
    st_shndx: 0xfff1,
    st_value: 0xffff_fffe,
    st_size: 0xffff_fffd,
};

// The function in each class and byte order.
const IN_LITTLE32: &[u8] = b"\x01\0\0\0\0\x10\0\0\x20\0\0\0\x12\0\x05\0";

const IN_BIG32: &[u8] = b"\0\0\0\x01\0\0\x10\0\0\0\0\x20\x12\0\0\x05";

const IN_LITTLE64: &[u8] = b"\x01\0\0\0\x12\0\x05\0\0\x10\0\0\0\0\0\0\x20\0\0\0\0\0\0\0";

const IN_BIG64: &[u8] = b"\0\0\0\x01\x12\0\0\x05\0\0\0\0\0\0\x10\0\0\0\0\0\0\0\0\x20";

const FORMS: &[(Ctx, &[u8])] = &[
    (LITTLE32, IN_LITTLE32),
    (BIG32, IN_BIG32),
    (LITTLE64, IN_LITTLE64),
    (BIG64, IN_BIG64),
];

// Whether the function has this form, and is the one symbol that is read there.
fn is_function_in(rt: HostRuntime, ctx: Ctx, bytes: &'static [u8]) -> bool {
    has_form(rt, FUNCTION, ctx, bytes)
        && returns_list(rt, Sym::parse(rt.alloc(), bytes, 0, 1, ctx), &[FUNCTION])
}

#[test]
fn reads_and_writes_a_symbol(rt: HostRuntime) {
    assert!(rt; each_row!(rt; row in FORMS => is_function_in(rt, row.0, row.1)));
    let mut written = [0xaa; 25];
    FUNCTION.into_ctx(&mut written, BIG64);
    assert!(rt; has_written(rt, &written, IN_BIG64));
}

#[test]
fn reads_and_writes_raw_symbols(rt: HostRuntime) {
    let raw = sym32::Sym::from(FUNCTION);
    assert!(rt; has_form(rt, raw, LE, IN_LITTLE32) && has_form(rt, raw, BE, IN_BIG32));
    assert!(rt; is(rt, (Sym::from(raw), sym32::SIZEOF_SYM), (FUNCTION, 16)));
    let raw = sym64::Sym::from(FUNCTION);
    assert!(rt; has_form(rt, raw, LE, IN_LITTLE64) && has_form(rt, raw, BE, IN_BIG64));
    assert!(rt; is(rt, (Sym::from(raw), sym64::SIZEOF_SYM), (FUNCTION, 24)));
}

// Copies of a symbol, each with the default in one field.
macro_rules! others {
    ($sym:expr) => {
        with_each_default!($sym; st_name st_info st_other st_shndx st_value st_size)
    };
}

#[test]
fn compares_symbols(rt: HostRuntime) {
    assert!(rt; is_apart(rt, &WIDE, &others!(WIDE)));
    let raw = sym32::Sym::from(WIDE);
    assert!(rt; is_apart(rt, &raw, &others!(raw)));
    let raw = sym64::Sym::from(WIDE);
    assert!(rt; is_apart(rt, &raw, &others!(raw)));
}

// A symbol whose fields pass the 32-bit class.
const FAR: Sym = Sym {
    st_name: 0x1_0000_0002,
    st_info: 3,
    st_other: 4,
    st_shndx: 0x1_0005,
    st_value: 0x6_0000_0007,
    st_size: 0x8_0000_0009,
};

// The low bits of its fields.
const LOW: sym32::Sym = sym32::Sym {
    st_name: 2,
    st_value: 7,
    st_size: 9,
    st_info: 3,
    st_other: 4,
    st_shndx: 5,
};

#[test]
fn writes_the_low_bits(rt: HostRuntime) {
    assert!(rt; is(rt, sym32::Sym::from(FAR), LOW));
    let low = b"\x02\0\0\0\x07\0\0\0\x09\0\0\0\x03\x04\x05\0";
    assert!(rt; writes(rt, FAR, LITTLE32, low));
    // A section whose number passes two bytes.
    let far = Sym {
        st_shndx: 0x12345,
        ..ZERO
    };
    assert!(rt; writes(rt, far, LITTLE32, b"\0\0\0\0\0\0\0\0\0\0\0\0\0\0\x45\x23"));
}

#[test]
fn refuses_and_changes_nothing(rt: HostRuntime) {
    let text = "type is too big (16) for 15";
    assert!(rt; lacks_room(rt, FUNCTION, LITTLE32, &SHORT[..15], text));
    let text = "type is too big (24) for 23";
    assert!(rt; lacks_room(rt, FUNCTION, BIG64, &SHORT[..23], text));
    assert!(rt; lacks_room(rt, FUNCTION, BIG32, &SHORT[..0], "bad offset 0"));
    let raw = sym32::Sym::from(FUNCTION);
    assert!(rt; refuses(rt, raw, BE, 15, "type is too big (16) for 15"));
    assert!(rt; refuses(rt, raw, BE, 0, "bad offset 0"));
    let raw = sym64::Sym::from(FUNCTION);
    assert!(rt; refuses(rt, raw, LE, 15, "type is too big (24) for 15"));
    assert!(rt; refuses(rt, raw, LE, 0, "bad offset 0"));
}

static ZEROS: [u8; 50] = [0; 50];

const MAX: usize = usize::MAX;

const NONE_AT_MAX: &str = "bad offset 18446744073709551615";

const MANY: &str = "Buffer is too short for 18446744073709551615 symbols";

// How many there are, or why there are none.
type Counted = std::result::Result<usize, &'static str>;

// From where on and how many symbols are read from 48 bytes, and how many they are or why there are none.
static READ: [(usize, usize, Counted); 10] = [
    (0, 2, Ok(2)),
    (24, 1, Ok(1)),
    (48, 0, Ok(0)),
    (1000, 0, Ok(0)),
    (25, 1, Err("type is too big (24) for 23")),
    (24, 2, Err("bad offset 48")),
    (49, 1, Err("bad offset 49")),
    (MAX, 1, Err(NONE_AT_MAX)),
    (0, 3, Err("Buffer is too short for 3 symbols")),
    (0, MAX, Err(MANY)),
];

// The symbols that are read there.
fn parsed(rt: HostRuntime, offset: usize, count: usize) -> Result<Vec<Sym>> {
    Sym::parse(rt.alloc(), &ZEROS[..48], offset, count, LITTLE64)
}

#[test]
fn parses_or_refuses(rt: HostRuntime) {
    assert!(rt; each_row!(rt; row in READ => lists(rt, parsed(rt, row.0, row.1), &row.2)));
    assert!(rt; returns_list(rt, parsed(rt, 0, 2), &[ZERO, ZERO]));
    assert!(rt; returns_list(rt, parsed(rt, 24, 1), &[ZERO]));
}

// How many symbols of a table are functions.
fn functions_in(table: &Table<'_, Sym, Ctx>) -> usize {
    table.iter().filter(|symbol| symbol.is_function()).count()
}

// The index of the first function of a table.
fn first_function(table: &Table<'_, Sym, Ctx>) -> Option<usize> {
    for (i, symbol) in table.iter().enumerate() {
        if symbol.is_function() {
            return Some(i);
        }
    }
    None
}

#[test]
fn is_looped_over(rt: HostRuntime) {
    let mut bytes = [0; 72];
    bytes[24..48].copy_from_slice(IN_BIG64);
    WIDE.into_ctx(&mut bytes[48..], BIG64);
    let table: Table<Sym, Ctx> = Table::of(&bytes, 3, BIG64);
    let counts = (table.iter().count(), functions_in(&table));
    assert!(rt; is(rt, (counts, first_function(&table)), ((3, 1), Some(1))));
}

// The symbol with this information and value.
fn symbol_of(st_info: u8, st_value: u64) -> Sym {
    Sym {
        st_info,
        st_value,
        ..ZERO
    }
}

// Reports whether each function that reads a part of this information returns the expected one.
fn has_parts(rt: HostRuntime, info: u8, bind: u8, typ: u8) -> bool {
    let symbol = symbol_of(info, 0);
    let binds = [symbol.st_bind(), st_bind(info), sym32::st_bind(info)];
    let types = [symbol.st_type(), st_type(info), sym64::st_type(info)];
    let is_function = [
        symbol.is_function(),
        sym32::Sym::from(symbol).is_function(),
        sym64::Sym::from(symbol).is_function(),
    ];
    is(rt, (binds, types), ([bind; 3], [typ; 3])) && is(rt, is_function, [typ == STT_FUNC; 3])
}

// Whether each method reports that a symbol with this information and value is an import, or that it is not.
fn imports(rt: HostRuntime, info: u8, value: u64, wanted: bool) -> bool {
    let symbol = symbol_of(info, value);
    let is_import = [
        symbol.is_import(),
        sym32::Sym::from(symbol).is_import(),
        sym64::Sym::from(symbol).is_import(),
    ];
    is(rt, is_import, [wanted; 3])
}

#[test]
fn reads_the_parts_of_symbols(rt: HostRuntime) {
    assert!(rt; has_parts(rt, 0x12, 1, 2));
    assert!(rt; has_parts(rt, 0x30, 3, 0));
    assert!(rt; has_parts(rt, 0xfe, 15, 14));
    assert!(rt; has_parts(rt, 0x1a, 1, 10));
    let free = (st_visibility(0x0b), sym32::st_visibility(0xf8));
    assert!(rt; is(rt, free, (3, 0)) && is(rt, sym64::st_visibility(0xfe), 6));
    assert!(rt; is(rt, (FUNCTION.st_visibility(), WIDE.st_visibility()), (0, 3)));
}

const IMPORTS: &[(u8, u64, bool)] = &[
    (STB_GLOBAL << 4 | STT_FUNC, 0, true),
    (STB_WEAK << 4 | STT_FUNC, 0, true),
    (STT_FUNC, 0, false),
    (STB_GLOBAL << 4, 1, false),
    (0x30, 0, false),
    (0xa2, 0, false),
];

#[test]
fn finds_imports(rt: HostRuntime) {
    assert!(rt; each_row!(rt; row in IMPORTS => imports(rt, row.0, row.1, row.2)));
    // The free function counts global symbols alone.
    let imports = [is_import(0x12, 0), sym64::is_import(0x10, 0)];
    assert!(rt; is(rt, imports, [true; 2]));
    let others = [
        is_import(0x22, 0),
        is_import(0x12, 1),
        sym32::is_import(0x02, 0),
    ];
    assert!(rt; is(rt, others, [false; 3]));
}

// Section indices, and whether each is that of a section of the file: not 0 and below 0xff00, or the escape 0xffff.
static SECTION_INDICES: [(usize, bool); 7] = [
    (0, false),
    (1, true),
    (0xfeff, true),
    (0xff00, false),
    (0xfff1, false),
    (0xffff, true),
    (0x1_0001, false),
];

// Reports whether a symbol with this section index lies in a section of the file.
fn is_in_section(st_shndx: usize) -> bool {
    Sym { st_shndx, ..ZERO }.is_in_section()
}

#[test]
fn reports_symbols_in_sections(rt: HostRuntime) {
    assert!(rt; each_row!(rt; row in SECTION_INDICES => is(rt, is_in_section(row.0), row.1)));
}

#[test]
fn names_types_of_symbols(rt: HostRuntime) {
    let names = [get_type(0x12), sym32::get_type(0xf1), sym64::get_type(0x2f)];
    assert!(rt; is(rt, names, ["FUNC", "OBJECT", "UNKNOWN_STT"]));
}

// Whether both classes name this number as a symbol of either class does, as binding, type and visibility.
fn names_alike(number: u8) -> bool {
    let (bind, typ) = (bind_to_str(number), type_to_str(number));
    let visibility = visibility_to_str(number);
    [sym32::bind_to_str(number), sym64::bind_to_str(number)] == [bind; 2]
        && [sym32::type_to_str(number), sym64::type_to_str(number)] == [typ; 2]
        && sym32::visibility_to_str(number) == visibility
        && sym64::visibility_to_str(number) == visibility
}

#[test]
fn names_are_those_of_both_classes(rt: HostRuntime) {
    assert!(rt; (0..=u8::MAX).all(names_alike));
}

// Whether a table over the first bytes of zeros is accepted, with this offset and so many symbols, or refused with
// this line.
fn is_accepted(
    rt: HostRuntime,
    len: usize,
    offset: usize,
    asked: usize,
    opts: &ParseOptions,
    wanted: &Counted,
) -> bool {
    match (
        Symtab::parse_with_opts(&ZEROS[..len.min(50)], offset, asked, LITTLE64, opts),
        wanted,
    ) {
        (Ok(table), Ok(count)) => {
            is(rt, (table.len(), table.is_empty()), (*count, *count == 0))
                && is(rt, (table.offset(), *table.ctx()), (offset, LITTLE64))
                && is(rt, table.iter().count(), *count)
        }
        (answer, Err(line)) => reports(rt, answer, line),
        (answer, wanted) => differs(rt, &answer, wanted),
    }
}

const AT_END: &str = "Malformed entity: Symbol table offset (48) is beyond file boundary (48)";

const AT_MAX: &str =
    "Malformed entity: Symbol table offset (18446744073709551615) is beyond file boundary (48)";

const TOO_MANY: &str =
    "Malformed entity: Too many ELF symbols (offset 0x0, count 18446744073709551615)";

const PAST: &str =
    "Malformed entity: Symbol table extends beyond file boundary (requested: 72, available: 48)";

const LAST: &str =
    "Malformed entity: Symbol table extends beyond file boundary (requested: 24, available: 1)";

// How many bytes there are, the offset and the count of a table, and how many symbols it has, or the line.
type Asked = (usize, usize, usize, Counted);

static STRICT: [Asked; 8] = [
    (48, 0, 2, Ok(2)),
    (48, 24, 1, Ok(1)),
    (48, 47, 0, Ok(0)),
    (48, 48, 0, Err(AT_END)),
    (48, MAX, MAX, Err(AT_MAX)),
    (48, 0, MAX, Err(TOO_MANY)),
    (48, 0, 3, Err(PAST)),
    (48, 47, 1, Err(LAST)),
];

static PERMISSIVE: [Asked; 5] = [
    (50, 0, 3, Ok(2)),
    (50, 0, 1, Ok(1)),
    (48, 48, MAX, Ok(0)),
    (48, MAX, 1, Ok(0)),
    (48, 0, MAX, Err(TOO_MANY)),
];

#[test]
fn accepts_what_lies_in_the_file(rt: HostRuntime) {
    let opts = ParseOptions::strict();
    for row in &STRICT {
        assert!(rt; holds(rt, row, is_accepted(rt, row.0, row.1, row.2, &opts, &row.3)));
    }
}

#[test]
fn cuts_a_table_to_the_file_where_asked_to(rt: HostRuntime) {
    let opts = ParseOptions::permissive();
    for row in &PERMISSIVE {
        assert!(rt; holds(rt, row, is_accepted(rt, row.0, row.1, row.2, &opts, &row.3)));
    }
}

// The number of symbols in so many bytes from an offset on, of 48 zeros, or `None` if they are refused.
fn count_in_range(offset: usize, size: usize, opts: &ParseOptions) -> Option<usize> {
    match Symtab::in_range(&ZEROS[..48], offset, size, LITTLE64, opts) {
        Ok(table) => Some(table.len()),
        Err(_) => None,
    }
}

// The offset and the size of a range, and the number of symbols there, strictly and permissively.
static RANGES: [(usize, usize, Option<usize>, Option<usize>); 5] = [
    (0, 48, Some(2), Some(2)),
    (0, 47, Some(1), Some(1)),
    (24, 23, Some(0), Some(0)),
    (0, 72, None, Some(2)),
    (48, 0, None, Some(0)),
];

#[test]
fn counts_the_symbols_of_a_range(rt: HostRuntime) {
    let strict = ParseOptions::strict();
    let permissive = ParseOptions::permissive();
    for row in &RANGES {
        let strictly = count_in_range(row.0, row.1, &strict);
        let permissively = count_in_range(row.0, row.1, &permissive);
        assert!(rt; holds(rt, row, is(rt, (strictly, permissively), (row.2, row.3))));
    }
}

const ONE: Sym = Sym {
    st_name: 1,
    st_info: 0x12,
    st_other: 3,
    st_shndx: 5,
    st_value: 0x1000,
    st_size: 0x20,
};

const OTHER: Sym = Sym {
    st_name: 0xffff_ffff,
    st_shndx: 0xfff1,
    ..ZERO
};

// Bytes that hold the two symbols from place 1 on, or nothing where they can't be written.
fn two_symbols(ctx: Ctx) -> [u8; 50] {
    let mut bytes = [0xaa; 50];
    let first = ONE.try_into_ctx(&mut bytes[1..], ctx);
    let second = OTHER.try_into_ctx(&mut bytes[1 + Sym::size(ctx.container)..], ctx);
    if first.is_ok() && second.is_ok() {
        bytes
    } else {
        [0; 50]
    }
}

// The table of the symbols from a place on, or of none. Its iterator lives as long as the bytes.
fn table_of(bytes: &[u8], offset: usize, count: usize, ctx: Ctx) -> Symtab<'_> {
    Symtab::parse(bytes, offset, count, ctx).unwrap_or(Symtab::default())
}

// Whether the two symbols are returned by index, as a vector and in turn.
fn has_both(rt: HostRuntime, ctx: Ctx) -> bool {
    let bytes = two_symbols(ctx);
    let table = table_of(&bytes, 1, 2, ctx);
    is(
        rt,
        [table.get(0), table.get(1), table.get(2)],
        [Some(ONE), Some(OTHER), None],
    ) && returns_list(rt, table.to_vec(rt.alloc()), &[ONE, OTHER])
        && yields(rt, table_of(&bytes, 1, 2, ctx).iter(), &[ONE, OTHER])
}

// The values of all symbols, one bit over another.
fn values(ctx: Ctx) -> u64 {
    let bytes = two_symbols(ctx);
    let mut all = 0;
    for symbol in &table_of(&bytes, 1, 2, ctx) {
        all = symbol.st_value | all;
    }
    all
}

#[test]
fn returns_the_symbols_in_three_ways(rt: HostRuntime) {
    assert!(rt;
        each_row!(rt; row in FORMS => has_both(rt, row.0) && is(rt, values(row.0), 0x1000))
    );
    let zeros = table_of(&ZEROS, 0, 2, LITTLE64);
    assert!(rt; returns_list(rt, zeros.to_vec(rt.alloc()), &[ZERO, ZERO]));
}

#[test]
fn has_no_symbols_by_default(rt: HostRuntime) {
    let none = Symtab::default();
    assert!(rt; is(rt, (none.is_empty(), none.get(0)), (true, None)));
    assert!(rt; is(rt, (none.offset(), *none.ctx()), (0, Ctx::default())));
}

// Four little endian symbols of the 32-bit class. All fields but the offsets of their names are zero.
static PLACES: &[u8; 64] = b"\x03\0\0\0\0\0\0\0\0\0\0\0\0\0\0\0\x01\0\0\0\0\0\0\0\0\0\0\0\0\0\0\0\
    \x05\0\0\0\0\0\0\0\0\0\0\0\0\0\0\0\x07\0\0\0\0\0\0\0\0\0\0\0\0\0\0\0";

// Returns the index of the first of them with this name, over a string table and over its bytes. The names "f", one
// that is not UTF-8, and "f" are at 1, 3 and 5. The last symbol's name is past them.
fn found(name: &[u8]) -> [Option<usize>; 2] {
    let names = b"\0f\0\xff\0f\0";
    let table = table_of(PLACES, 0, 4, LITTLE32);
    [
        table.find(&Strtab::new(names, 0), name),
        table.find_in(names, 0, name),
    ]
}

#[test]
fn finds_the_first_of_a_name(rt: HostRuntime) {
    assert!(rt; is(rt, found(b"f"), [Some(1); 2]));
    assert!(rt; is(rt, found(b"\xff"), [None; 2]));
    assert!(rt; is(rt, found(b""), [None; 2]));
}

// Returns the index of the first of them with the name "f" from an index on.
fn found_from(first: usize) -> Option<usize> {
    let names = b"\0f\0\xff\0f\0";
    table_of(PLACES, 0, 4, LITTLE32).find_in_from(first, names, 0, b"f")
}

#[test]
fn finds_the_next_of_a_name(rt: HostRuntime) {
    assert!(rt; is(rt, [found_from(0), found_from(1)], [Some(1); 2]));
    assert!(rt; is(rt, found_from(2), Some(2)));
    assert!(rt;
        is(
            rt,
            [found_from(3), found_from(4), found_from(usize::MAX)],
            [None; 3]
        )
    );
}

// The null section, and one that holds the addresses from 8 to 0x57, in the 32-bit class and little endian.
static ONE_SECTION: &[u8; 80] =
    b"\0\0\0\0\0\0\0\0\0\0\0\0\0\0\0\0\0\0\0\0\0\0\0\0\0\0\0\0\0\0\0\0\0\0\0\0\0\0\0\0\
    \0\0\0\0\x01\0\0\0\x02\0\0\0\x08\0\0\0\0\0\0\0\x50\0\0\0\0\0\0\0\0\0\0\0\0\0\0\0\0\0\0\0";

// A table of sections.
fn sections_of(bytes: &[u8]) -> Table<'_, SectionHeader, Ctx> {
    Table::in_range(bytes, 0, bytes.len() / 40, LITTLE32).unwrap_or(Table::of(&[], 0, LITTLE32))
}

// A symbol of nothing; two functions at 0x10, of 4 bytes and of 8; at 0x20 an absolute symbol and a section's; one of
// no type and no size at 0x30, whose section index stands elsewhere; a thread's at 0x40; a function at 0x50 that is not
// defined; an indirect function of 4 bytes at 8; a label at 0x2c; a function of 4 bytes at 0x38 whose section index
// stands elsewhere; and at 0x54 a common block, a file and one of a processor's type, of 4 bytes each.
const ADDRESSED: &[u8; 224] = b"\0\0\0\0\0\0\0\0\0\0\0\0\0\0\0\0\
    \x01\0\0\0\x10\0\0\0\x04\0\0\0\x12\0\x01\0\
    \x01\0\0\0\x10\0\0\0\x08\0\0\0\x12\0\x01\0\
    \x01\0\0\0\x20\0\0\0\0\0\0\0\x10\0\xf1\xff\
    \x01\0\0\0\x20\0\0\0\0\0\0\0\x03\0\x01\0\
    \x01\0\0\0\x30\0\0\0\0\0\0\0\0\0\xff\xff\
    \x01\0\0\0\x40\0\0\0\x04\0\0\0\x16\0\x01\0\
    \x01\0\0\0\x50\0\0\0\x04\0\0\0\x12\0\0\0\
    \x01\0\0\0\x08\0\0\0\x04\0\0\0\x1a\0\x01\0\
    \x01\0\0\0\x2c\0\0\0\0\0\0\0\0\0\x01\0\
    \x01\0\0\0\x38\0\0\0\x04\0\0\0\x12\0\xff\xff\
    \x01\0\0\0\x54\0\0\0\x04\0\0\0\x15\0\x01\0\
    \x01\0\0\0\x54\0\0\0\x04\0\0\0\x14\0\x01\0\
    \x01\0\0\0\x54\0\0\0\x04\0\0\0\x1d\0\x01\0";

// The first and the last of some addresses, and the index of the symbol of all of them.
type Of = (u64, u64, Option<usize>);

// Reports whether each address of a row has its symbol in a file of a type.
fn finds(
    rt: HostRuntime,
    table: &Symtab<'_>,
    sections: &Table<'_, SectionHeader, Ctx>,
    e_type: u16,
    row: &Of,
) -> bool {
    (row.0..=row.1).all(|address| is(rt, table.at(address, sections, e_type), row.2))
}

// Addresses, and their symbol: the first that contains them, or else a label of their section.
static ADDRESSES: [Of; 11] = [
    (0, 7, None),
    (8, 0xb, Some(8)),
    (0xc, 0xf, None),
    (0x10, 0x13, Some(1)),
    (0x14, 0x17, Some(2)),
    (0x18, 0x2b, None),
    (0x2c, 0x37, Some(9)),
    (0x38, 0x3b, Some(10)),
    (0x3c, 0x57, Some(9)),
    (0x58, 0x5f, None),
    (18446744073709551615, 18446744073709551615, None),
];

#[test]
fn finds_the_symbol_at_an_address(rt: HostRuntime) {
    let table = table_of(ADDRESSED, 0, 14, LITTLE32);
    let sections = sections_of(ONE_SECTION);
    assert!(rt; each_row!(rt; row in ADDRESSES => finds(rt, &table, &sections, ET_EXEC, row)));
    // Without sections only the bytes of symbols count.
    let none = sections_of(&[]);
    assert!(rt; is(rt, table.at(0x14, &none, ET_EXEC), Some(2)));
    assert!(rt; is(rt, table.at(0x30, &none, ET_EXEC), None));
}

#[test]
fn finds_the_symbol_at_the_greatest_address(rt: HostRuntime) {
    let last = Sym {
        st_info: 0x12,
        st_shndx: 1,
        st_value: u64::MAX - 3,
        st_size: 4,
        ..ZERO
    };
    let mut bytes = [0; 24];
    assert!(rt; last.try_into_ctx(&mut bytes, LITTLE64).is_ok());
    let table = table_of(&bytes, 0, 1, LITTLE64);
    assert!(rt; is(rt, table.at(u64::MAX, &sections_of(&[]), ET_EXEC), Some(0)));
}

// A symbol of nothing; a function of 0x30 bytes at 0x10; in it one of 4 bytes at 0x20, and two labels at 0x28; a label
// and an object of 4 bytes at 0x50; and a function of 4 bytes at 0x60.
const NESTED: &[u8; 128] = b"\0\0\0\0\0\0\0\0\0\0\0\0\0\0\0\0\
    \x01\0\0\0\x10\0\0\0\x30\0\0\0\x12\0\x01\0\
    \x01\0\0\0\x20\0\0\0\x04\0\0\0\x12\0\x01\0\
    \x01\0\0\0\x28\0\0\0\0\0\0\0\x12\0\x01\0\
    \x01\0\0\0\x28\0\0\0\0\0\0\0\0\0\x01\0\
    \x01\0\0\0\x50\0\0\0\0\0\0\0\0\0\x01\0\
    \x01\0\0\0\x50\0\0\0\x04\0\0\0\x11\0\x01\0\
    \x01\0\0\0\x60\0\0\0\x04\0\0\0\x12\0\x01\0";

static NESTED_ADDRESSES: [Of; 10] = [
    (0, 0xf, None),
    (0x10, 0x1f, Some(1)),
    (0x20, 0x23, Some(2)),
    (0x24, 0x3f, Some(1)),
    (0x40, 0x4f, Some(3)),
    (0x50, 0x53, Some(6)),
    (0x54, 0x57, Some(5)),
    (0x58, 0x5f, None),
    (0x60, 0x63, Some(7)),
    (0x64, 0x6f, None),
];

#[test]
fn finds_the_symbol_that_contains_an_address(rt: HostRuntime) {
    let table = table_of(NESTED, 0, 8, LITTLE32);
    let sections = sections_of(ONE_SECTION);
    assert!(rt;
        each_row!(rt; row in NESTED_ADDRESSES => finds(rt, &table, &sections, ET_DYN, row))
    );
}

// The null section, code at 0x1000 of 0x100 bytes, constants of 0x80 bytes after it, variables of 0x10 bytes at 0x2000,
// and 0x2000 bytes of debug information, which are not in memory.
static FIVE_SECTIONS: &[u8; 200] =
    b"\0\0\0\0\0\0\0\0\0\0\0\0\0\0\0\0\0\0\0\0\0\0\0\0\0\0\0\0\0\0\0\0\0\0\0\0\0\0\0\0\
    \0\0\0\0\x01\0\0\0\x06\0\0\0\0\x10\0\0\0\0\0\0\0\x01\0\0\0\0\0\0\0\0\0\0\0\0\0\0\0\0\0\0\
    \0\0\0\0\x01\0\0\0\x02\0\0\0\0\x11\0\0\0\0\0\0\x80\0\0\0\0\0\0\0\0\0\0\0\0\0\0\0\0\0\0\0\
    \0\0\0\0\x01\0\0\0\x03\0\0\0\0\x20\0\0\0\0\0\0\x10\0\0\0\0\0\0\0\0\0\0\0\0\0\0\0\0\0\0\0\
    \0\0\0\0\x01\0\0\0\x30\0\0\0\0\0\0\0\0\0\0\0\0\x20\0\0\0\0\0\0\0\0\0\0\0\0\0\0\0\0\0\0";

// A symbol of nothing; a label at 0x1010, a function of 0x10 bytes at 0x1020 and a label at 0x1040 in the code; an
// object of 8 bytes at 0x1110 and a label at 0x1160 in the constants; a label at the variables' end; a label at 0x1120
// of a section that isn't there, and one at 0x1130 whose index stands elsewhere; a function of 0x20 bytes at 0x10f0
// that ends after the code; and labels at 0x800 and 0x1050 of the debug information.
const SCATTERED: &[u8; 192] = b"\0\0\0\0\0\0\0\0\0\0\0\0\0\0\0\0\
    \x01\0\0\0\x10\x10\0\0\0\0\0\0\0\0\x01\0\
    \x01\0\0\0\x20\x10\0\0\x10\0\0\0\x12\0\x01\0\
    \x01\0\0\0\x40\x10\0\0\0\0\0\0\0\0\x01\0\
    \x01\0\0\0\x10\x11\0\0\x08\0\0\0\x11\0\x02\0\
    \x01\0\0\0\x60\x11\0\0\0\0\0\0\x10\0\x02\0\
    \x01\0\0\0\x10\x20\0\0\0\0\0\0\x10\0\x03\0\
    \x01\0\0\0\x20\x11\0\0\0\0\0\0\0\0\x05\0\
    \x01\0\0\0\x30\x11\0\0\0\0\0\0\0\0\xff\xff\
    \x01\0\0\0\xf0\x10\0\0\x20\0\0\0\x12\0\x01\0\
    \x01\0\0\0\0\x08\0\0\0\0\0\0\0\0\x04\0\
    \x01\0\0\0\x50\x10\0\0\0\0\0\0\0\0\x04\0";

static SCATTERED_ADDRESSES: [Of; 12] = [
    (0x800, 0x100f, None),
    (0x1010, 0x101f, Some(1)),
    (0x1020, 0x102f, Some(2)),
    (0x1030, 0x103f, None),
    (0x1040, 0x10ef, Some(3)),
    (0x10f0, 0x110f, Some(9)),
    (0x1110, 0x1117, Some(4)),
    (0x1118, 0x115f, None),
    (0x1160, 0x117f, Some(5)),
    (0x1180, 0x118f, None),
    (0x2000, 0x2010, None),
    (0x7fff_ffff_ffff, 0x7fff_ffff_ffff, None),
];

#[test]
fn finds_labels_in_their_section(rt: HostRuntime) {
    let table = table_of(SCATTERED, 0, 12, LITTLE32);
    let sections = sections_of(FIVE_SECTIONS);
    assert!(rt;
        each_row!(rt; row in SCATTERED_ADDRESSES => finds(rt, &table, &sections, ET_EXEC, row))
    );
    // In a relocatable file a section that is not in memory holds offsets, too.
    assert!(rt; is(rt, table.at(0x1050, &sections, ET_REL), Some(11)));
}

// The null section, one at 0x1000 of 0x100 bytes, and one at 0 of 0x40 bytes.
static THREE_SECTIONS: &[u8; 120] =
    b"\0\0\0\0\0\0\0\0\0\0\0\0\0\0\0\0\0\0\0\0\0\0\0\0\0\0\0\0\0\0\0\0\0\0\0\0\0\0\0\0\
    \0\0\0\0\x01\0\0\0\x02\0\0\0\0\x10\0\0\0\0\0\0\0\x01\0\0\0\0\0\0\0\0\0\0\0\0\0\0\0\0\0\0\
    \0\0\0\0\x01\0\0\0\x02\0\0\0\0\0\0\0\0\0\0\0\x40\0\0\0\0\0\0\0\0\0\0\0\0\0\0\0\0\0\0\0";

// A symbol of nothing; labels at 0x10 and 0x50 and a function of 8 bytes at 0x30 in the first; and labels at 0x20 and
// 0x3c in the second.
const OFFSETS: &[u8; 96] = b"\0\0\0\0\0\0\0\0\0\0\0\0\0\0\0\0\
    \x01\0\0\0\x10\0\0\0\0\0\0\0\0\0\x01\0\
    \x01\0\0\0\x50\0\0\0\0\0\0\0\0\0\x01\0\
    \x01\0\0\0\x30\0\0\0\x08\0\0\0\x02\0\x01\0\
    \x01\0\0\0\x20\0\0\0\0\0\0\0\0\0\x02\0\
    \x01\0\0\0\x3c\0\0\0\0\0\0\0\0\0\x02\0";

// The first and the last of some addresses, and the index of the symbol of all of them in a relocatable file, where the
// values are offsets in the sections, and in a shared library, where they are addresses.
static OFFSETS_AND_ADDRESSES: [(u64, u64, Option<usize>, Option<usize>); 11] = [
    (0, 0xf, None, None),
    (0x10, 0x1f, Some(1), None),
    (0x20, 0x2f, Some(4), Some(4)),
    (0x30, 0x37, Some(3), Some(3)),
    (0x38, 0x3b, None, Some(4)),
    (0x3c, 0x3f, Some(5), Some(5)),
    (0x40, 0x4f, None, None),
    (0x50, 0xff, Some(2), None),
    (0x100, 0xfff, None, None),
    (0x1000, 0x10ff, None, Some(2)),
    (0x1100, 0x110f, None, None),
];

#[test]
fn finds_labels_by_offsets_in_relocatable_files(rt: HostRuntime) {
    let table = table_of(OFFSETS, 0, 6, LITTLE32);
    let sections = sections_of(THREE_SECTIONS);
    for row in &OFFSETS_AND_ADDRESSES {
        let (first, last, offset, address) = *row;
        let by_offset = finds(rt, &table, &sections, ET_REL, &(first, last, offset));
        let by_address = finds(rt, &table, &sections, ET_DYN, &(first, last, address));
        assert!(rt; holds(rt, row, by_offset && by_address));
    }
}
