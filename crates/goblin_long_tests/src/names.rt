//! Names from tables that begin and end at the edges of the file's blocks. What is cached leads to the same names as a
//! walk over each table, as `Strtab::parse_with_opts` makes it, or the same refusal.
use goblin::error::Result;
use goblin::options::ParseOptions;
use goblin::strtab::Strtab;
use goblin_text::names::{Names, Strings};
use std::alloc::Global;

// Letters of each width, each with a zero byte after it.
const LETTERS: [&[u8]; 4] = [
    b"a\0",
    b"\xC3\xA9\0",
    b"\xE2\x82\xAC\0",
    b"\xF0\x9F\x98\x80\0",
];

// Letters of each width, without a zero byte. Strings of them go on through blocks.
const LONG: [&[u8]; 4] = [b"a", b"\xC3\xA9", b"\xE2\x82\xAC", b"\xF0\x9F\x98\x80"];

// Places round the ends of the first two blocks of 512 bytes, of the eighth one and of the sixteenth.
const PLACES: [usize; 21] = [
    0, 1, 510, 511, 512, 513, 514, 1_022, 1_024, 1_025, 1_026, 4_094, 4_095, 4_096, 4_097, 4_099,
    8_190, 8_192, 8_193, 8_195, 12_300,
];

// Offsets of names: at the begin of a table, and round where blocks end in it.
const OFFSETS: [usize; 16] = [
    0, 1, 2, 3, 4, 511, 512, 513, 1_024, 4_093, 4_094, 4_095, 4_096, 4_097, 8_191, 8_192,
];

// Returns some bytes `a` and letters after them, with a byte that is not UTF-8 if its place is among these.
fn bytes_of(alloc: Global, letters: &[u8], before: usize, damage: usize) -> Option<Vec<u8>> {
    let mut bytes = vec![in alloc; b'a'; before].ok()?;
    for _ in 0..12_300 {
        if bytes.len() < 12_300 {
            bytes.extend_from_slice(letters).ok()?;
        }
    }
    if let Some(byte) = bytes.get_mut(damage) {
        *byte = 0xFF;
    }
    Some(bytes)
}

// The names of a table, as a walk over it makes them, or its refusal.
#[derive(Drop)]
struct Walked<'a> {
    offset: usize,
    size: usize,
    table: Result<Strtab<'a>>,
}

fn walk_over<'a>(
    alloc: Global,
    bytes: &'a [u8],
    offset: usize,
    size: usize,
    opts: &ParseOptions,
) -> Walked<'a> {
    Walked {
        offset,
        size,
        table: Strtab::parse_with_opts(alloc, bytes, offset, size, 0, opts),
    }
}

// Whether the names at these offsets are the table's, or it is refused as the table was.
fn agrees(alloc: Global, names: &mut Names<'_>, walked: &Walked<'_>, opts: &ParseOptions) -> bool {
    let strings = names.table(walked.offset, walked.size, opts);
    match (strings, &walked.table) {
        (Ok(strings), Ok(table)) => {
            for offset in OFFSETS {
                if names.name(strings, offset) != table.get_at(offset).unwrap_or("") {
                    return false;
                }
            }
            true
        }
        (Err(refused), Err(table)) => match (refused.line(alloc), table.line(alloc)) {
            (Ok(line), Ok(other)) => line.as_str() == other.as_str(),
            _ => false,
        },
        _ => false,
    }
}

// Whether they are for one table, for another one that lies over it, and for the first one again.
fn agrees_on_both(
    alloc: Global,
    bytes: &[u8],
    one: &Walked<'_>,
    other: &Walked<'_>,
    opts: &ParseOptions,
) -> bool {
    let mut names = Names::new(bytes);
    agrees(alloc, &mut names, one, opts)
        && agrees(alloc, &mut names, other, opts)
        && agrees(alloc, &mut names, one, opts)
}

// Whether they are for all tables that begin and end at these places.
fn agrees_on_each(alloc: Global, bytes: &[u8], opts: &ParseOptions) -> bool {
    for size in PLACES {
        let other = walk_over(alloc, bytes, size, 8_193, opts);
        for start in PLACES {
            let one = walk_over(alloc, bytes, start, size, opts);
            if !agrees_on_both(alloc, bytes, &one, &other, opts) {
                return false;
            }
        }
    }
    true
}

fn names_are_walked(alloc: Global, letters: &[u8], before: usize, damage: usize) -> bool {
    bytes_of(alloc, letters, before, damage).is_some_and(|bytes| {
        agrees_on_each(alloc, bytes.as_slice(), &ParseOptions::strict())
            && agrees_on_each(alloc, bytes.as_slice(), &ParseOptions::permissive())
    })
}

// Whether they are for each of these letters, with a byte that is not UTF-8 at any of the places.
fn damaged_names_are_walked(alloc: Global, all: &[&[u8]]) -> bool {
    all.iter().all(|letters| {
        PLACES
            .iter()
            .all(|damage| names_are_walked(alloc, letters, 0, *damage))
    })
}

#[test]
fn names_of_tables_round_block_ends(rt: HostRuntime) {
    let alloc = rt.alloc();
    assert!(rt;
        LETTERS.iter().all(|letters| (0..5).all(|before| {
            names_are_walked(alloc, letters, before, usize::MAX)
        }))
    );
}

#[test]
fn names_of_damaged_tables_round_block_ends(rt: HostRuntime) {
    assert!(rt; damaged_names_are_walked(rt.alloc(), &LETTERS));
}

#[test]
fn names_of_long_strings_round_block_ends(rt: HostRuntime) {
    assert!(rt; damaged_names_are_walked(rt.alloc(), &LONG));
}

// How many looks the names at these offsets take, of a table of all the bytes that is asked for before.
fn looks_at(bytes: &[u8], offsets: &[usize], opts: &ParseOptions) -> Option<u128> {
    let mut names = Names::new(bytes);
    let strings = names.table(0, bytes.len(), opts).ok()?;
    for offset in offsets {
        let _ = names.name(strings, *offset);
    }
    Some(names.count())
}

// A table of six bytes that must be text takes six looks. A name takes one at its first byte, one at each byte up to
// the zero byte, and one at each of its own; past the table there is none.
#[test]
fn counts_looks(rt: HostRuntime) {
    let bytes = b"ab\0cde";
    assert!(rt; looks_at(bytes, &[], &ParseOptions::strict()) == Some(6));
    assert!(rt; looks_at(bytes, &[], &ParseOptions::permissive()) == Some(0));
    assert!(rt; looks_at(bytes, &[0], &ParseOptions::permissive()) == Some(6));
    assert!(rt; looks_at(bytes, &[3, 3], &ParseOptions::permissive()) == Some(14));
    assert!(rt; looks_at(bytes, &[6], &ParseOptions::strict()) == Some(6));
}
