//! Cases of the walk and the search with their counts, and all short strings against a plain walk that tries
//! the whole piece at every byte.
use crate::compare::{differs, each_row, holds, is, rows};
use goblin_base::entries::{Entries, Looked, Probes};
use goblin_base::error::{Error, Result};
use goblin_base::find::find;
use goblin_base::options::{ParseMode, ParseOptions};
use goblin_base::scroll;
use goblin_base::strtab::Strtab;
use goblin_base::walk::walk;
use std::alloc::Global;

// Whether an entry has this place and this text.
fn is_entry(rt: HostRuntime, entries: &Entries<'_>, i: usize, want: (usize, &str)) -> bool {
    let mut probes = Probes::of(&*entries);
    if i >= entries.len() || i >= probes.len() {
        return differs(rt, entries, &want);
    }
    is(rt, (probes.at(i), entries.text(i)), want)
}

// Whether the entries are these.
fn are_entries(rt: HostRuntime, entries: &Entries<'_>, want: &[(usize, &str)]) -> bool {
    if !is(rt, entries.len(), want.len()) {
        return false;
    }
    (0..want.len()).all(|i| is_entry(rt, entries, i, want[i]))
}

// Whether so many looks or probes are within the most.
fn is_within(rt: HostRuntime, count: u128, most: u128) -> bool {
    count <= most || differs(rt, &count, &most)
}

// Whether the permissive walk finds these entries within so many looks.
fn walks(rt: HostRuntime, bytes: &[u8], delim: u8, most: u128, want: &[(usize, &str)]) -> bool {
    let mut view = Looked::new(bytes);
    match walk(rt.alloc(), &mut view, delim, ParseMode::Permissive) {
        Ok(entries) => is_within(rt, view.count(), most) && are_entries(rt, &entries, want),
        Err(e) => differs(rt, &e, &want),
    }
}

// Whether this is a bad input of so many bytes.
fn is_bad_input(rt: HostRuntime, walked: &Result<Entries<'_>>, bad: usize) -> bool {
    match walked {
        Err(Error::Scroll(scroll::Error::BadInput { size, msg })) => {
            is(rt, (*size, *msg), (bad, "invalid utf8"))
        }
        other => differs(rt, other, &bad),
    }
}

// Whether the strict walk refuses with a bad input of so many bytes, within five looks at each byte.
fn refuses(rt: HostRuntime, bytes: &[u8], delim: u8, bad: usize) -> bool {
    let mut view = Looked::new(bytes);
    let walked = walk(rt.alloc(), &mut view, delim, ParseMode::Strict);
    is_bad_input(rt, &walked, bad) && is_within(rt, view.count(), 5 * bytes.len() as u128)
}

// Damaged pieces, their delimiter, the most looks, and their entries.
const DAMAGED: &[(&[u8], u8, u128, &[(usize, &str)])] = &rows![
    b"a\xFFb\0", 0, 20, &[(0, ""), (1, ""), (2, "b")];
    b"\xE1\x80\xC2\xA2", 0, 20, &[(0, ""), (1, ""), (2, "\u{a2}")];
    b"\xE2\x82\xAC", 0x82, 15, &[(0, ""), (1, ""), (2, "")];
    b"\xF0\x9F\x85 ", 0, 20, &[(0, ""), (1, ""), (2, ""), (3, " ")];
    b"\xF4\x90\x80\x80", 0, 20, &[(0, ""), (1, ""), (2, ""), (3, "")];
    b"\xED\xA0\x80", 0, 15, &[(0, ""), (1, ""), (2, "")];
    b"\xED\x90\x80 ", 0, 20, &[(0, "\u{d400} ")];
    b"\xC2a", b'a', 10, &[(0, ""), (1, "")];
];

#[test]
fn walks_damaged_pieces(rt: HostRuntime) {
    assert!(rt; each_row!(rt; row in DAMAGED => walks(rt, row.0, row.1, row.2, row.3)));
    assert!(rt; refuses(rt, b"a\xFFb\0", 0, 4));
    assert!(rt; refuses(rt, b"\xE2\x82\xAC", 0x82, 3));
}

// Reports whether the permissive walk returns an entry with an empty text at each byte, within five looks a byte.
fn is_empty_at_each_byte(rt: HostRuntime, bytes: &[u8]) -> bool {
    let mut view = Looked::new(bytes);
    let Ok(entries) = walk(rt.alloc(), &mut view, 0, ParseMode::Permissive) else {
        return differs(rt, &"no entries", &bytes.len());
    };
    for i in 0..bytes.len() {
        if !is_entry(rt, &entries, i, (i, "")) {
            return false;
        }
    }
    is(rt, entries.len(), bytes.len()) && is_within(rt, view.count(), 5 * bytes.len() as u128)
}

// So many bytes of one number, and then another.
fn filled(alloc: Global, byte: u8, count: usize, last: u8) -> Option<Vec<u8>> {
    let mut bytes = vec![in alloc; byte; count].ok()?;
    bytes.push(last).ok()?;
    Some(bytes)
}

// Reports whether `count` bytes and a last one, with which no piece is UTF-8, are refused in strict mode. In
// permissive mode they must have an entry with an empty text at each byte.
fn walks_long(rt: HostRuntime, byte: u8, count: usize, last: u8) -> bool {
    match filled(rt.alloc(), byte, count, last) {
        Some(bytes) => is_empty_at_each_byte(rt, &bytes) && refuses(rt, &bytes, 0, bytes.len()),
        None => differs(rt, &"no memory", &count),
    }
}

#[test]
fn walks_long_damaged_pieces(rt: HostRuntime) {
    assert!(rt; walks_long(rt, 0x80, 999, 0x80));
    assert!(rt; walks_long(rt, 0x61, 2097151, 0xFF));
}

// Whether a search among the entries finds one within so many probes.
fn finds_one_within(rt: HostRuntime, entries: &Entries<'_>, offset: usize, most: u64) -> bool {
    let mut probes = Probes::of(&*entries);
    let found = find(&mut probes, offset);
    (found.is_some() && probes.count() <= most) || differs(rt, &(found, probes.count()), &most)
}

// Whether a search for each offset up to the length takes at most so many probes.
fn finds_within(rt: HostRuntime, bytes: &[u8], delim: u8, most: u64) -> bool {
    let mut view = Looked::new(bytes);
    let Ok(entries) = walk(rt.alloc(), &mut view, delim, ParseMode::Permissive) else {
        return differs(rt, &"no entries", &most);
    };
    (0..=bytes.len()).all(|offset| finds_one_within(rt, &entries, offset, most))
}

// Whether a search among no entries finds none and takes no probe.
fn finds_none(rt: HostRuntime) -> bool {
    let mut view = Looked::new(b"");
    match walk(rt.alloc(), &mut view, 0, ParseMode::Permissive) {
        Ok(entries) => finds_one_plainly(rt, &entries, 0, &[]),
        Err(e) => differs(rt, &e, &"no entries"),
    }
}

// Whether a search among a thousand entries takes at most ten probes.
fn finds_among_a_thousand(rt: HostRuntime) -> bool {
    match filled(rt.alloc(), 0x80, 999, 0x80) {
        Some(bytes) => finds_within(rt, &bytes, 0, 10),
        None => differs(rt, &"no memory", &1000),
    }
}

#[test]
fn finds_within_the_digits(rt: HostRuntime) {
    assert!(rt; finds_within(rt, b"\0.text\0.data\0", 0, 2));
    assert!(rt; finds_within(rt, b"a", 0, 1));
    let foo = b"\n\xC6\x92oo\nmemmove\n\xF0\x9F\x85\xB1\xEF\xB8\x8Fusta\n";
    assert!(rt; finds_within(rt, foo, b'\n', 3));
    assert!(rt; finds_among_a_thousand(rt));
    assert!(rt; finds_none(rt));
}

// Whether each offset of so many bytes looks up the empty text, in the table that they are by these options.
fn looks_up_each(rt: HostRuntime, byte: u8, count: usize, opts: &ParseOptions) -> bool {
    let Ok(bytes) = vec![in rt.alloc(); byte; count] else {
        return differs(rt, &"no memory", &count);
    };
    let Ok(table) = Strtab::parse_with_opts(rt.alloc(), &bytes, 0, bytes.len(), 0, opts) else {
        return differs(rt, &"no table", &count);
    };
    (0..count).all(|offset| is(rt, table.get_at(offset), Some("")))
}

#[test]
fn looks_up_a_million_offsets(rt: HostRuntime) {
    assert!(rt; looks_up_each(rt, 0, 1000000, &ParseOptions::strict()));
    assert!(rt; looks_up_each(rt, 0x80, 1000000, &ParseOptions::permissive()));
}

// ---- A plain model: each question is answered from the whole bytes.

// Where the piece at a place ends.
fn end(bytes: &[u8], delim: u8, place: usize) -> usize {
    for end in place..bytes.len() {
        if bytes[end] == delim {
            return end;
        }
    }
    bytes.len()
}

// The piece at each place as a text, where it is one.
fn pieces(alloc: Global, bytes: &[u8], delim: u8) -> Option<Vec<Option<&str>>> {
    let mut pieces = Vec::new(alloc);
    for place in 0..bytes.len() {
        let piece = bytes.get(place..end(bytes, delim, place))?;
        pieces.push(std::str::from_utf8(piece).ok()).ok()?;
    }
    Some(pieces)
}

// The plain walk. Returns the offset and the text of each entry, and the first offset whose piece is not UTF-8.
fn plain_walk<'a>(
    alloc: Global,
    pieces: &[Option<&'a str>],
) -> Option<(Vec<(usize, &'a str)>, Option<usize>)> {
    let mut entries = Vec::new(alloc);
    let mut bad = None;
    let mut next = 0;
    for place in 0..pieces.len() {
        if place == next {
            let text = pieces[place].unwrap_or("");
            entries.push((place, text)).ok()?;
            next = place.saturating_add(text.len()).saturating_add(1);
            if pieces[place].is_none() {
                bad = bad.or(Some(place));
            }
        }
    }
    Some((entries, bad))
}

// The look-up: the piece if it is text; else nothing, unless no place of the whole piece up to there has
// a text.
fn plain_look_up<'a>(
    pieces: &[Option<&'a str>],
    bytes: &[u8],
    delim: u8,
    offset: usize,
) -> Option<&'a str> {
    let piece = pieces.get(offset)?;
    if piece.is_some() {
        return *piece;
    }
    for start in (0..offset).rev() {
        if bytes.get(start) == Some(&delim) {
            break;
        }
        if pieces.get(start)?.is_some() {
            return None;
        }
    }
    Some("")
}

// The index of the last entry at or before an offset.
fn plain_find(entries: &[(usize, &str)], offset: usize) -> Option<usize> {
    let mut found = None;
    for i in 0..entries.len() {
        if entries[i].0 <= offset {
            found = Some(i);
        }
    }
    found
}

// How many binary digits a number has.
fn digits(number: usize) -> u64 {
    u64::from(usize::BITS.saturating_sub(number.leading_zeros()))
}

// Whether the walk in both modes finds what the plain one does, within five looks at each byte.
fn walks_plainly(
    rt: HostRuntime,
    bytes: &[u8],
    delim: u8,
    want: &[(usize, &str)],
    bad: Option<usize>,
) -> bool {
    let most = 5 * bytes.len() as u128;
    let mut view = Looked::new(bytes);
    let strict = walk(rt.alloc(), &mut view, delim, ParseMode::Strict);
    let same = match bad {
        Some(place) => is_bad_input(rt, &strict, bytes.len().saturating_sub(place)),
        None => match &strict {
            Ok(entries) => are_entries(rt, entries, want),
            Err(e) => differs(rt, e, &want),
        },
    };
    same && is_within(rt, view.count(), most) && walks(rt, bytes, delim, most, want)
}

// Whether looking up each offset up to the length of the bytes, in the table that they are, returns what the plain
// look-up does.
fn looks_up_plainly(rt: HostRuntime, bytes: &[u8], delim: u8, pieces: &[Option<&str>]) -> bool {
    let options = ParseOptions::permissive();
    let table = Strtab::parse_with_opts(rt.alloc(), bytes, 0, bytes.len(), delim, &options);
    let Ok(table) = table else {
        return differs(rt, &"no table", &pieces);
    };
    for offset in 0..=bytes.len() {
        let want = plain_look_up(pieces, bytes, delim, offset);
        if !is(rt, table.get_at(offset), want) {
            return false;
        }
    }
    true
}

// Whether searching for one offset returns what the plain search does, within the digits of the number of entries.
fn finds_one_plainly(
    rt: HostRuntime,
    entries: &Entries<'_>,
    offset: usize,
    want: &[(usize, &str)],
) -> bool {
    let mut probes = Probes::of(&*entries);
    let most = u128::from(digits(want.len()));
    is(rt, find(&mut probes, offset), plain_find(want, offset))
        && is_within(rt, u128::from(probes.count()), most)
}

// The same for each offset up to the length.
fn finds_plainly(rt: HostRuntime, bytes: &[u8], delim: u8, want: &[(usize, &str)]) -> bool {
    let mut view = Looked::new(bytes);
    let Ok(entries) = walk(rt.alloc(), &mut view, delim, ParseMode::Permissive) else {
        return differs(rt, &"no entries", &want);
    };
    (0..=bytes.len()).all(|offset| finds_one_plainly(rt, &entries, offset, want))
}

// Whether all of this holds of the bytes.
fn agrees(rt: HostRuntime, bytes: &[u8], delim: u8) -> bool {
    let Some(pieces) = pieces(rt.alloc(), bytes, delim) else {
        return differs(rt, &"no memory", &bytes);
    };
    match plain_walk(rt.alloc(), &pieces) {
        Some((want, bad)) => {
            walks_plainly(rt, bytes, delim, &want, bad)
                && looks_up_plainly(rt, bytes, delim, &pieces)
                && finds_plainly(rt, bytes, delim, &want)
        }
        None => differs(rt, &"no memory", &bytes),
    }
}

const DELIMITERS: [u8; 4] = [0x00, 0x61, 0x82, 0xC2];

const ALPHABET: [u8; 13] = [
    0x00, 0x20, 0x61, 0x80, 0x82, 0x90, 0xA0, 0xC2, 0xE2, 0xED, 0xF0, 0xF4, 0xFF,
];

// The byte of the alphabet that the last digit of a number to the base 13 stands for.
fn letter(number: usize) -> u8 {
    ALPHABET[number % 13]
}

// The four bytes of the alphabet that a number below 13 ^ 4 spells.
fn spelled(number: usize) -> [u8; 4] {
    [
        letter(number),
        letter(number / 13),
        letter(number / 169),
        letter(number / 2197),
    ]
}

// Whether the first bytes of this spelling show no difference with any delimiter.
fn agrees_on(rt: HostRuntime, number: usize, len: usize) -> bool {
    let bytes = spelled(number);
    let bytes = bytes.get(..len).unwrap_or(&[]);
    DELIMITERS.iter().all(|delim| holds(rt, &(bytes, *delim), agrees(rt, bytes, *delim)))
}

// Whether no string of this length, of which there are so many, shows a difference.
fn agrees_on_all(rt: HostRuntime, len: usize, count: usize) -> bool {
    (0..count).all(|number| agrees_on(rt, number, len))
}

#[test]
fn agrees_on_all_short_strings(rt: HostRuntime) {
    assert!(rt; agrees_on_all(rt, 0, 1));
    assert!(rt; agrees_on_all(rt, 1, 13));
    assert!(rt; agrees_on_all(rt, 2, 169));
    assert!(rt; agrees_on_all(rt, 3, 2197));
    assert!(rt; agrees_on_all(rt, 4, 28561));
}

// Whether it holds of so many repetitions of some bytes.
fn agrees_repeated(rt: HostRuntime, part: &[u8], count: usize) -> bool {
    let mut bytes = Vec::new(rt.alloc());
    for _ in 0..count {
        if bytes.extend_from_slice(part).is_err() {
            return differs(rt, &"no memory", &count);
        }
    }
    agrees(rt, &bytes, 0)
}

#[test]
fn agrees_on_long_strings(rt: HostRuntime) {
    assert!(rt; agrees_repeated(rt, b"\x80", 9));
    assert!(rt; agrees_repeated(rt, b"\x80", 10));
    assert!(rt; agrees_repeated(rt, b"\x80", 100));
    assert!(rt; agrees_repeated(rt, b"\x80", 4096));
    assert!(rt; agrees_repeated(rt, b"\xE1\x80", 2048));
    assert!(rt; agrees_repeated(rt, b"\xF0\x9F\x85", 1365));
}
