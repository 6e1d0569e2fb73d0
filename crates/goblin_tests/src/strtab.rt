//! Cases of string tables with their results.
ghost use Rattle.std.specs.Prelude.{◌≤◌};

use crate::compare::{differs, each_row, is, reports, returns, returns_list, rows};
use goblin_base::error::Result;
use goblin_base::options::{ParseMode, ParseOptions};
use goblin_base::strtab::{
    Strtab, WantedName, bytes_in_range, is_piece, range_of, starts_piece, string_at,
};

// "\nƒoo\nmemmove\n🅱️usta\n"
const FOO: &[u8] = b"\n\xC6\x92oo\nmemmove\n\xF0\x9F\x85\xB1\xEF\xB8\x8Fusta\n";

const NAMES: &[u8] = b"\0.text\0.data\0";

const ZEROS: &[u8] = &[0; 4];

const SECTIONS: &[&str] = &["", ".text", ".data"];

const BUSTA: [&str; 4] = ["", "printf", "memmove", "busta"];

// Whether the table has these strings.
fn has_strings(rt: HostRuntime, table: Result<Strtab<'_>>, strings: &[&str]) -> bool {
    match table {
        Ok(table) => returns_list(rt, table.to_vec(rt.alloc()), strings),
        Err(e) => differs(rt, &e, &strings),
    }
}

// The same of the table that these bytes are.
fn splits(rt: HostRuntime, bytes: &[u8], delim: u8, strings: &[&str]) -> bool {
    has_strings(rt, Strtab::new_preparsed(rt.alloc(), bytes, delim), strings)
}

#[test]
fn lists_the_strings(rt: HostRuntime) {
    assert!(rt; splits(rt, NAMES, 0, SECTIONS));
    assert!(rt; returns_list(rt, Strtab::new(NAMES, 0).to_vec(rt.alloc()), SECTIONS));
    assert!(rt; splits(rt, b"\0printf\0memmove\0busta", 0, &BUSTA));
    assert!(rt; splits(rt, b"printf\0memmove\0busta", 0, &BUSTA[1..]));
}

// Whether these bytes, between newlines, are refused as a table with this line.
fn refuses_lines(rt: HostRuntime, bytes: &[u8], line: &str) -> bool {
    reports(rt, Strtab::new_preparsed(rt.alloc(), bytes, b'\n'), line)
}

#[test]
fn lists_the_strings_between_delimiters(rt: HostRuntime) {
    assert!(rt; splits(rt, b"\0printf\0memmove\0busta\0", 0, &BUSTA));
    assert!(rt; splits(rt, b"\nprintf\nmemmove\nbusta\n", b'\n', &BUSTA));
    assert!(rt; splits(rt, b"\xC6\x92oo", b'\n', &["\u{192}oo"]));
    assert!(rt; refuses_lines(rt, b"\x80\x80", "bad input invalid utf8 (2)"));
}

// Offsets, and what looking them up returns.
const IN_NAMES: &[(usize, Option<&str>)] = &[
    (3, Some("ext")),
    (6, Some("")),
    (12, Some("")),
    (13, None),
];

const IN_A: &[(usize, Option<&str>)] = &[(0, Some("a")), (1, None)];

const UNPARSED: &[(usize, Option<&str>)] = &[(3, None)];

const DAMAGED: &[(usize, Option<&str>)] = &[(3, None), (4, None)];

const IN_FOO: &[(usize, Option<&str>)] = &[
    (0, Some("")),
    (5, Some("")),
    (6, Some("memmove")),
    (14, Some("\u{1f171}\u{fe0f}usta")),
    (16, None),
    (18, Some("\u{fe0f}usta")),
    (21, Some("usta")),
    (25, Some("")),
    (26, None),
];

// Whether looking up each offset of a table has its result.
fn looks_up(rt: HostRuntime, table: &Strtab<'_>, expected: &[(usize, Option<&str>)]) -> bool {
    each_row!(rt; row in expected => is(rt, table.get_at(row.0), row.1))
}

// The same of a table that must be accepted.
fn looks_up_in(
    rt: HostRuntime,
    table: Result<Strtab<'_>>,
    expected: &[(usize, Option<&str>)],
) -> bool {
    match table {
        Ok(table) => looks_up(rt, &table, expected),
        Err(e) => differs(rt, &e, &expected),
    }
}

#[test]
fn looks_up_offsets(rt: HostRuntime) {
    assert!(rt; looks_up_in(rt, Strtab::new_preparsed(rt.alloc(), NAMES, 0), IN_NAMES));
    assert!(rt; looks_up(rt, &Strtab::new(NAMES, 0), UNPARSED));
    assert!(rt; looks_up_in(rt, Strtab::new_preparsed(rt.alloc(), b"a", 0), IN_A));
    assert!(rt; looks_up_in(rt, Strtab::new_preparsed(rt.alloc(), FOO, b'\n'), IN_FOO));
}

// Whether `get`, `get_unsafe` and `index` return this text, in a table of so many bytes.
fn reads(rt: HostRuntime, table: &Strtab<'_>, len: usize, offset: usize, text: &str) -> bool {
    match table.get(offset) {
        Some(Ok(found)) => is(
            rt,
            (
                table.len(),
                found,
                table.index(offset),
                table.get_unsafe(offset),
            ),
            (len, text, text, Some(text)),
        ),
        other => differs(rt, &other, &text),
    }
}

// Whether `get` fails with this message.
fn cannot_read(rt: HostRuntime, read: Option<Result<&str>>, text: &str) -> bool {
    match read {
        Some(answer) => reports(rt, answer, text),
        None => differs(rt, &"nothing", &text),
    }
}

// Whether `get` and `get_unsafe` return nothing, in a table of so many bytes.
fn has_none(rt: HostRuntime, table: &Strtab<'_>, len: usize, offset: usize) -> bool {
    match table.get(offset) {
        Some(answer) => differs(rt, &answer, &"nothing"),
        None => is(rt, (table.len(), table.get_unsafe(offset)), (len, None)),
    }
}

#[test]
fn reads_plainly(rt: HostRuntime) {
    assert!(rt; reads(rt, &Strtab::new(NAMES, 0), 13, 3, "ext"));
    assert!(rt; has_none(rt, &Strtab::new(NAMES, 0), 13, 13));
    let text = "bad input invalid utf8 (3)";
    assert!(rt; cannot_read(rt, Strtab::new(b"a\x80\0b", 0).get(1), text));
    assert!(rt; cannot_read(rt, string_at(b"a\x80\0b", 0, 1), text));
    assert!(rt; matches!(string_at(NAMES, 0, 3), Some(Ok(piece)) if piece == "ext"));
    assert!(rt; string_at(NAMES, 0, 13).is_none());
}

#[test]
fn reads_a_part_plainly(rt: HostRuntime) {
    assert!(rt; reads(rt, &Strtab::from_slice_unparsed(NAMES, 7, 3, 0), 3, 1, "da"));
    assert!(rt; has_none(rt, &Strtab::default(), 0, 0));
}

// Offsets, names, and whether the string there is the name.
const NAMED: &[(usize, &[u8], bool)] = &[
    (1, b".text", true),
    (3, b"ext", true),
    (12, b"", true),
    (1, b".tex", false),
    (7, b".text", false),
    (1, b".text\0", false),
    (13, b"", false),
];

// The same by the table, by a search of the table, and by a search of its bytes.
fn has_name(offset: usize, name: &[u8]) -> [bool; 3] {
    let table = Strtab::new(NAMES, 0);
    [
        table.has_name(offset, name),
        table.wanted(name).is_at(offset),
        WantedName::new(name, 0).is_at(NAMES, offset),
    ]
}

#[test]
fn compares_strings_with_names(rt: HostRuntime) {
    assert!(rt; each_row!(rt; row in NAMED => is(rt, has_name(row.0, row.1), [row.2; 3])));
}

// Ranges of four bytes that are no tables, by offset and length, and why.
const REFUSED: &[(usize, usize, &str)] = &rows![
    5, 0, "Malformed entity: String table offset (5) is beyond file boundary (4)";
    2, 3,
        "Malformed entity: Strtable size (3) + offset (2) is out of bounds for 4 #bytes. Overflowed: false";
    4, 1,
        "Malformed entity: Strtable size (1) + offset (4) is out of bounds for 4 #bytes. Overflowed: false";
    0, usize::MAX,
        "Malformed entity: Strtable size (18446744073709551615) + offset (0) is out of bounds for 4 #bytes. Overflowed: false";
    1, usize::MAX,
        "Malformed entity: Strtable size (18446744073709551615) + offset (1) is out of bounds for 4 #bytes. Overflowed: true";
    4, usize::MAX,
        "Malformed entity: Strtable size (18446744073709551615) + offset (4) is out of bounds for 4 #bytes. Overflowed: true";
];

// Whether the piece at an offset is this text, and whether it begins with it.
fn tests_piece(offset: usize, text: &[u8]) -> (bool, bool) {
    (
        is_piece(NAMES, 0, offset, text),
        starts_piece(NAMES, 0, offset, text),
    )
}

#[test]
fn compares_pieces_with_texts(rt: HostRuntime) {
    assert!(rt; is(rt, tests_piece(1, b".text"), (true, true)));
    assert!(rt; is(rt, tests_piece(1, b".te"), (false, true)));
    assert!(rt; is(rt, tests_piece(1, b".text\0"), (false, false)));
    assert!(rt; is(rt, tests_piece(13, b""), (false, false)));
}

// A string of 130 letters, with another first and last one, and a zero byte after it.
fn letters(first: u8, last: u8) -> [u8; 131] {
    let mut bytes = [b'a'; 131];
    bytes[0] = first;
    bytes[129] = last;
    bytes[130] = 0;
    bytes
}

// Whether the last letters of a string, so many of them, are a piece of its own: not with another first or last letter,
// and not if they are zero bytes.
fn is_itself_alone(len: usize) -> bool
    requires { len ≤ 130 }
{
    let (own, at, zeros) = (letters(b'a', b'a'), 130 - len, [0; 131]);
    let tests = |bytes: &[u8], text: &[u8]| {
        (
            is_piece(bytes, 0, at, text),
            starts_piece(bytes, 0, at, text),
        )
    };
    tests(&own, &own[..len]) == (true, true)
        && tests(&own, &letters(b'b', b'a')[..len]) == (false, false)
        && tests(&own, &letters(b'a', b'b')[at..130]) == (false, false)
        && tests(&zeros, &zeros[..len]) == (false, false)
}

#[test]
fn compares_texts_of_each_length(rt: HostRuntime) {
    assert!(rt; (1..131).all(|len| is_itself_alone(len)));
}

// Whether these bytes are refused as a table with this line.
fn refuses_table(rt: HostRuntime, bytes: &[u8], offset: usize, len: usize, line: &str) -> bool {
    reports(rt, Strtab::parse(rt.alloc(), bytes, offset, len, 0), line)
}

// The bytes of a table in zeros.
fn range(offset: usize, len: usize, mode: ParseMode) -> Result<&'static [u8]> {
    bytes_in_range(ZEROS, offset, len, mode)
}

// Whether a range of zeros is refused with this line, as a table and as its bytes.
fn refuses_range(rt: HostRuntime, offset: usize, len: usize, line: &str) -> bool {
    refuses_table(rt, ZEROS, offset, len, line)
        && reports(rt, range(offset, len, ParseMode::Strict), line)
}

#[test]
fn refuses_a_range_past_the_file(rt: HostRuntime) {
    assert!(rt; each_row!(rt; row in REFUSED => refuses_range(rt, row.0, row.1, row.2)));
    assert!(rt; has_strings(rt, Strtab::parse(rt.alloc(), ZEROS, 4, 0, 0), &[]));
    assert!(rt; refuses_table(rt, b"\x80\x80", 0, 2, "bad input invalid utf8 (2)"));
    let data = bytes_in_range(NAMES, 7, 5, ParseMode::Strict);
    assert!(rt; returns(rt, data, b".data"));
}

// Whether the permissive table has this length, and so have its bytes.
fn is_cut_to(rt: HostRuntime, offset: usize, len: usize, rest: usize) -> bool {
    let opts = ParseOptions::permissive();
    match Strtab::parse_with_opts(rt.alloc(), ZEROS, offset, len, 0, &opts) {
        Ok(table) => {
            let bytes = ZEROS.get(..rest).unwrap_or(b"too few");
            is(rt, table.len(), rest)
                && returns(rt, range(offset, len, ParseMode::Permissive), bytes)
        }
        Err(e) => differs(rt, &e, &rest),
    }
}

#[test]
fn cuts_a_range_to_the_file(rt: HostRuntime) {
    assert!(rt; is_cut_to(rt, 5, 0, 0));
    assert!(rt; is_cut_to(rt, 2, 3, 2));
    assert!(rt; is_cut_to(rt, 4, 0, 0));
    assert!(rt; is_cut_to(rt, 1, usize::MAX, 3));
    assert!(rt; is_cut_to(rt, 1, 2, 2));
}

// Whether a range of a file of eight bytes begins and ends at these offsets.
fn has_bounds(
    rt: HostRuntime,
    offset: usize,
    len: usize,
    mode: ParseMode,
    bounds: (usize, usize),
) -> bool {
    returns(rt, range_of(8, offset, len, mode), bounds)
}

// Whether strict mode refuses such a range with this line.
fn refuses_bounds(rt: HostRuntime, offset: usize, len: usize, line: &str) -> bool {
    reports(rt, range_of(8, offset, len, ParseMode::Strict), line)
}

#[test]
fn finds_the_bounds_of_a_range(rt: HostRuntime) {
    assert!(rt; has_bounds(rt, 2, 3, ParseMode::Strict, (2, 5)));
    assert!(rt; has_bounds(rt, 8, 0, ParseMode::Strict, (8, 8)));
    assert!(rt; has_bounds(rt, 2, 6, ParseMode::Permissive, (2, 8)));
    assert!(rt; has_bounds(rt, 2, 7, ParseMode::Permissive, (2, 8)));
    assert!(rt; has_bounds(rt, 9, 1, ParseMode::Permissive, (8, 8)));
    let past = "Malformed entity: String table offset (9) is beyond file boundary (8)";
    assert!(rt; refuses_bounds(rt, 9, 0, past));
    let outside =
        "Malformed entity: Strtable size (7) + offset (2) is out of bounds for 8 #bytes. Overflowed: false";
    assert!(rt; refuses_bounds(rt, 2, 7, outside));
}

#[test]
fn has_nothing_inside_a_character(rt: HostRuntime) {
    let (bytes, opts) = (b"\xE1\x80\xC2\xA2", ParseOptions::permissive());
    let damaged = Strtab::parse_with_opts(rt.alloc(), bytes, 0, 4, 0, &opts);
    assert!(rt; looks_up_in(rt, damaged, DAMAGED));
}
