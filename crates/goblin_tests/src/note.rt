//! Cases with their results: the headers of notes, notes, and loops over them as a user writes them.
ghost use Rattle.std.specs.Prelude.{◌≡◌, length};
ghost use Rattle.goblin.specs.Notes.{items_left};

use crate::compare::{are_alike, differs, each_row, holds, is, number, reports, returns, rows};
use crate::container::{BIG32, LITTLE64};
use crate::record::{is_apart, refuses, with_each_default, writes};
use goblin::elf::note::{
    NT_GNU_BUILD_ID, Note, NoteDataIterator, NoteIterator, NotePart, NotePlaces,
};
use goblin::{elf32, elf64};
use goblin_base::container::{BE, Ctx, Endian, LE};
use goblin_base::error::{Error, Fault, Result};
use goblin_base::scroll;
use goblin_base::scroll::{SizeWith, TryFromCtx};
use goblin_records::note::{Nhdr32, Nhdr64};
use std::alloc::{AllocError, Global};
use std::result;

// The header of a note with a name of 4 bytes, a descriptor of 20 and type 3, in each class and byte order.
const HEADER_LITTLE32: &[u8] = b"\x04\0\0\0\x14\0\0\0\x03\0\0\0";

const HEADER_BIG32: &[u8] = b"\0\0\0\x04\0\0\0\x14\0\0\0\x03";

const HEADER_LITTLE64: &[u8] = b"\x04\0\0\0\0\0\0\0\x14\0\0\0\0\0\0\0\x03\0\0\0\0\0\0\0";

const HEADER_BIG64: &[u8] = b"\0\0\0\0\0\0\0\x04\0\0\0\0\0\0\0\x14\0\0\0\0\0\0\0\x03";

// The 32-bit header with these numbers, and its numbers.
fn header32([n_namesz, n_descsz, n_type]: [u32; 3]) -> Nhdr32 {
    Nhdr32 {
        n_namesz,
        n_descsz,
        n_type,
    }
}

fn numbers32(header: &Nhdr32) -> [u32; 3] {
    [header.n_namesz, header.n_descsz, header.n_type]
}

// The same of the 64-bit one.
fn header64([n_namesz, n_descsz, n_type]: [u64; 3]) -> Nhdr64 {
    Nhdr64 {
        n_namesz,
        n_descsz,
        n_type,
    }
}

fn numbers64(header: &Nhdr64) -> [u64; 3] {
    [header.n_namesz, header.n_descsz, header.n_type]
}

// Whether the 32-bit header with these numbers is read at the start of these bytes, and written as its 12.
pub(crate) fn has_form32(
    rt: HostRuntime,
    numbers: [u32; 3],
    order: Endian,
    bytes: &'static [u8],
) -> bool {
    match Nhdr32::try_from_ctx(bytes, order) {
        Ok((read, size)) => {
            is(rt, (numbers32(&read), size), (numbers, 12))
                && writes(rt, header32(numbers), order, &bytes[..bytes.len().min(12)])
        }
        Err(e) => differs(rt, &e, &numbers),
    }
}

// The same of the 64-bit one, which has 24.
pub(crate) fn has_form64(
    rt: HostRuntime,
    numbers: [u64; 3],
    order: Endian,
    bytes: &'static [u8],
) -> bool {
    match Nhdr64::try_from_ctx(bytes, order) {
        Ok((read, size)) => {
            is(rt, (numbers64(&read), size), (numbers, 24))
                && writes(rt, header64(numbers), order, &bytes[..bytes.len().min(24)])
        }
        Err(e) => differs(rt, &e, &numbers),
    }
}

#[test]
fn reads_and_writes_note_headers(rt: HostRuntime) {
    assert!(rt; has_form32(rt, [4, 20, 3], LE, HEADER_LITTLE32));
    assert!(rt; has_form32(rt, [4, 20, 3], BE, HEADER_BIG32));
    assert!(rt; has_form64(rt, [4, 20, 3], LE, HEADER_LITTLE64));
    assert!(rt; has_form64(rt, [4, 20, 3], BE, HEADER_BIG64));
}

#[test]
fn clones_note_headers(rt: HostRuntime) {
    let (small, large) = (header32([4, 20, 3]), header64([4, 20, 3]));
    assert!(rt; matches!(small.clone(), Ok(header) if is(rt, numbers32(&header), [4, 20, 3])));
    assert!(rt; matches!(large.clone(), Ok(header) if is(rt, numbers64(&header), [4, 20, 3])));
}

// The places of the second note.
const SECOND: NotePlaces = NotePlaces {
    n_type: 3,
    name: 12,
    name_size: 3,
    desc: 16,
    desc_size: 20,
    next: 36,
};

#[test]
fn compares_places_of_notes(rt: HostRuntime) {
    let others = with_each_default!(SECOND; n_type name name_size desc desc_size next);
    assert!(rt; is_apart(rt, &SECOND, &others));
    let (name, others) = (NotePart::Name, [NotePart::Header, NotePart::Desc]);
    assert!(rt; is_apart(rt, &name, &others));
    assert!(rt; NotePart::Header != NotePart::Desc);
}

#[test]
fn refuses_cut_note_headers(rt: HostRuntime) {
    let cut = Nhdr64::try_from_ctx(&HEADER_LITTLE64[..23], LE);
    assert!(rt; reports(rt, cut, "type is too big (24) for 23"));
    let cut = Nhdr32::try_from_ctx(&HEADER_LITTLE32[..11], LE);
    assert!(rt; reports(rt, cut, "type is too big (12) for 11"));
    let header = header64([u64::MAX, 0, 0]);
    assert!(rt; refuses(rt, header, LE, 23, "type is too big (24) for 23"));
}

// A note "GNU" of type 3 with four bytes.
const BUILD: &[u8] = b"\x04\0\0\0\x04\0\0\0\x03\0\0\0GNU\0\xAA\xBB\xCC\xDD";
// The same, big endian.
const BUILD_BIG: &[u8] = b"\0\0\0\x04\0\0\0\x04\0\0\0\x03GNU\0\xAA\xBB\xCC\xDD";
// A note "GNU" of type 1 without a descriptor.
const BARE: &[u8] = b"\x04\0\0\0\0\0\0\0\x01\0\0\0GNU\0";
// A note whose name lacks its last byte.
const CUT_NAME: &[u8] = b"\x05\0\0\0\0\0\0\0\x01\0\0\0CORE";
// A note of type 7 without name and descriptor.
const EMPTY: &[u8] = b"\0\0\0\0\0\0\0\0\x07\0\0\0";
// A note of type 7 with no name but a zero byte, and one byte of a descriptor: each is padded.
const PADDED: &[u8] = b"\x01\0\0\0\x01\0\0\0\x07\0\0\0\0\0\0\0\xAA";
// A note with a name of two bytes that are one letter, and one whose name is not UTF-8.
const ACCENT: &[u8] = b"\x03\0\0\0\0\0\0\0\x07\0\0\0\xC3\xA9\0\0";

const NO_TEXT: &[u8] = b"\x02\0\0\0\0\0\0\0\x01\0\0\0\xFF\0";
// Notes whose name and whose descriptor are the longest that a header can ask for.
const LONG_NAME: &[u8] = b"\xFF\xFF\xFF\xFF\0\0\0\0\x01\0\0\0GNU\0";

const LONG_DESC: &[u8] = b"\x04\0\0\0\xFF\xFF\xFF\xFF\x01\0\0\0GNU\0\0\0\0\0";
// The notes of a program: types 1, 3 and 5, at 0, 32 and 68.
const THREE: &[u8] = b"\x04\0\0\0\x10\0\0\0\x01\0\0\0GNU\0\0\0\0\0\x02\0\0\0\x06\0\0\0\x20\0\0\0\
    \x04\0\0\0\x14\0\0\0\x03\0\0\0GNU\0\xBC\xFC\x66\xCD\xC7\xD5\x14\x7B\x53\xB1\x10\x11\x94\x86\x8E\xF9\x4F\xE8\xDD\xDB\
    \x04\0\0\0\x30\0\0\0\x05\0\0\0GNU\0\x02\x80\0\xC0\x04\0\0\0\x01\0\0\0\0\0\0\0\
    \x01\0\x01\xC0\x04\0\0\0\x01\0\0\0\0\0\0\0\x02\0\x01\xC0\x04\0\0\0\0\0\0\0\0\0\0\0";

// The bytes of notes, their alignment and context, type, name and descriptor, and how many bytes are counted.
type Read = (
    &'static [u8],
    (usize, Ctx),
    (u32, &'static str, &'static [u8], usize),
);

const DESC: &[u8] = b"\xAA\xBB\xCC\xDD";

const READ: &[Read] = &[
    (BUILD, (4, LITTLE64), (3, "GNU", DESC, 20)),
    (BUILD, (8, LITTLE64), (3, "GNU", DESC, 24)),
    (BUILD_BIG, (4, BIG32), (3, "GNU", DESC, 20)),
    (BARE, (4, LITTLE64), (1, "GNU", b"", 16)),
    (EMPTY, (0, LITTLE64), (7, "", b"", 12)),
    (ACCENT, (4, LITTLE64), (7, "\u{e9}", b"", 16)),
    (PADDED, (0, LITTLE64), (7, "", b"\xAA", 20)),
    (PADDED, (1, LITTLE64), (7, "", b"\xAA", 20)),
    (PADDED, (2, LITTLE64), (7, "", b"\xAA", 20)),
    (PADDED, (3, LITTLE64), (7, "", b"\xAA", 20)),
];

fn is_read(rt: HostRuntime, row: &Read) -> bool {
    match Note::try_from_ctx(row.0, row.1) {
        Ok((note, counted)) => is(rt, (note.n_type, note.name, note.desc, counted), row.2),
        Err(e) => differs(rt, &e, row),
    }
}

#[test]
fn reads_notes(rt: HostRuntime) {
    assert!(rt; each_row!(rt; row in READ => is_read(rt, row)));
}

// Whether the note of a program at an offset lies at these places.
fn lies(rt: HostRuntime, offset: usize, alignment: usize, places: NotePlaces) -> bool {
    match Note::at(THREE, offset, (alignment, LITTLE64)) {
        Ok((_, found)) => is(rt, found, places),
        Err(e) => differs(rt, &e, &places),
    }
}

#[test]
fn finds_the_places_of_notes(rt: HostRuntime) {
    assert!(rt; lies(rt, 32, 4, SECOND));
    assert!(rt; lies(rt, 32, 8, NotePlaces { next: 40, ..SECOND }));
    let after_last = Note::at(THREE, 132, (4, LITTLE64));
    assert!(rt; reports(rt, after_last, "bad offset 132"));
}

const SIXTEEN: &str = "Malformed entity: Notes has unimplemented alignment requirement: 0x10";

const FIVE: &str = "Malformed entity: Notes has unimplemented alignment requirement: 0x5";

const MOST: &str =
    "Malformed entity: Notes has unimplemented alignment requirement: 0xffffffffffffffff";

// Bytes and an alignment that are refused: another alignment, too few bytes, or a name that is not UTF-8.
const REFUSED: &[(&[u8], usize, &str)] = &rows![
    BUILD, 16, SIXTEEN;
    BUILD, 5, FIVE;
    b"", 5, FIVE;
    BUILD, usize::MAX, MOST;
    b"\x04\0\0\0\x04\0\0\0\x03\0\0", 4, "type is too big (12) for 11";
    b"", 4, "bad offset 0";
    CUT_NAME, 4, "bad offset 20";
    NO_TEXT, 4, "bad input invalid utf8 (2)";
    b"\x02\0\0\0\0\0\0\0\x01\0\0\0\xFF\0\0\0more", 4, "bad input invalid utf8 (8)";
    LONG_NAME, 4, "type is too big (4294967294) for 4";
    LONG_DESC, 4, "type is too big (4294967295) for 4";
];

#[test]
fn refuses_what_is_no_note(rt: HostRuntime) {
    for row in REFUSED {
        let answer = Note::try_from_ctx(row.0, (row.1, LITTLE64));
        assert!(rt; holds(rt, row, reports(rt, answer, row.2)));
    }
}

// The range of these bytes from an offset up to an end.
fn range(bytes: &[u8], offset: usize, size: usize, alignment: usize) -> NoteDataIterator<'_> {
    NoteDataIterator {
        bytes,
        size,
        offset,
        ctx: (alignment, LITTLE64),
    }
}

// Whether the next item is a note of this type.
fn is_next(rt: HostRuntime, item: Option<Result<Note<'_>>>, n_type: u32) -> bool {
    match item {
        Some(Ok(note)) => is(rt, note.n_type, n_type),
        other => differs(rt, &other, &n_type),
    }
}

// Whether there is no item.
fn is_last(rt: HostRuntime, item: Option<Result<Note<'_>>>) -> bool {
    match item {
        None => true,
        other => differs(rt, &other, &"no note"),
    }
}

// Whether the notes of a range have just these types.
fn has_types(rt: HostRuntime, mut notes: NoteDataIterator, types: &[u32]) -> bool {
    types
        .iter()
        .all(|n_type| is_next(rt, notes.next(), *n_type))
        && is_last(rt, notes.next())
}

// Whether the notes of ranges, one range after another, have just these types.
fn all_have_types(rt: HostRuntime, mut notes: NoteIterator, types: &[u32]) -> bool {
    types
        .iter()
        .all(|n_type| is_next(rt, notes.next(), *n_type))
        && is_last(rt, notes.next())
}

// The three notes of a program in three ranges, and two of them around a range of none.
const PARTS: &[(usize, usize)] = &[(0, 32), (32, 68), (68, 132)];

const WITH_NONE: &[(usize, usize)] = &[(0, 32), (0, 0), (32, 68)];

// These ranges of a program's notes, from the range with an index on.
fn ranges(
    alloc: Global,
    ends: &[(usize, usize)],
    index: usize,
) -> result::Result<NoteIterator<'static>, AllocError> {
    let mut iters = Vec::new(alloc);
    for (offset, size) in ends {
        iters.push(range(THREE, *offset, *size, 4))?;
    }
    Ok(NoteIterator { iters, index })
}

// Whether these ranges of a program's notes, from the range with an index on, have notes of just these types.
fn ranges_have_types(
    rt: HostRuntime,
    ends: &[(usize, usize)],
    index: usize,
    types: &[u32],
) -> bool {
    match ranges(rt.alloc(), ends, index) {
        Ok(notes) => all_have_types(rt, notes, types),
        Err(e) => differs(rt, &e, &types),
    }
}

// Ranges, the index of the first one, and the types of their notes.
const RANGES: &[(&[(usize, usize)], usize, &[u32])] = &[
    (&[(0, 132)], 0, &[1, 3, 5]),
    (PARTS, 0, &[1, 3, 5]),
    (WITH_NONE, 0, &[1, 3]),
    (&[], 0, &[]),
    (PARTS, 1, &[3, 5]),
    (&[(0, 32), (32, 68)], 2, &[]),
    (&[(0, 32)], usize::MAX, &[]),
];

// Whether the first note is refused, and ends its own range alone.
fn ends_its_own_range(rt: HostRuntime, mut notes: NoteIterator) -> bool {
    matches!(notes.next(), Some(Err(_))) && notes.index == 0 && all_have_types(rt, notes, &[1])
}

#[test]
fn returns_the_notes_of_ranges(rt: HostRuntime) {
    assert!(rt; has_types(rt, range(THREE, 0, 132, 4), &[1, 3, 5]));
    assert!(rt; each_row!(rt; row in RANGES => ranges_have_types(rt, row.0, row.1, row.2)));
    let refused = ranges(rt.alloc(), &[(8, 32), (0, 32)], 0);
    assert!(rt; refused.is_ok_and(|notes| ends_its_own_range(rt, notes)));
}

// Whether the first item of a range is the fault of this text, the last one, and moves the offset to
// the end.
fn ends_with(rt: HostRuntime, mut notes: NoteDataIterator, text: &str) -> bool {
    match notes.next() {
        Some(item) => {
            reports(rt, item, text) && is_last(rt, notes.next()) && is(rt, notes.offset, notes.size)
        }
        None => differs(rt, &"no note", &text),
    }
}

// The bytes of a range, its offset, size and alignment, and the text of its fault.
const FAULTS: &[(&[u8], usize, usize, usize, &str)] = &rows![
    CUT_NAME, 0, 16, 4, "bad offset 20";
    b"", 0, 5, 4, "bad offset 0";
    b"\x04\0\0\0\x10\0\0\0", 0, 132, 4, "type is too big (12) for 8";
    // At the end of the bytes the alignment isn't looked at.
    THREE, 132, 133, 5, "bad offset 132";
    THREE, usize::MAX - 1, usize::MAX, 4, "bad offset 18446744073709551614";
];

#[test]
fn ends_a_range_with_its_fault(rt: HostRuntime) {
    assert!(rt;
        each_row!(rt; row in FAULTS => ends_with(rt, range(row.0, row.1, row.2, row.3), row.4))
    );
}

// How many items a range has.
#[tactic(auto, using(goblin::specs::NoteRuns::notes_run))]
fn count(notes: NoteDataIterator) -> usize
    ensures { result ≡ length (items_left notes.entry) }
{
    notes.count()
}

// The descriptor of the first note with a build ID, if each note before it can be read.
fn build_of(notes: NoteDataIterator<'_>) -> Result<Option<&[u8]>> {
    for note in notes {
        let note = note?;
        if note.n_type == NT_GNU_BUILD_ID && note.name == "GNU" {
            return Ok(Some(note.desc));
        }
    }
    Ok(None)
}

// How many bytes the descriptors of all notes take, if all can be read.
fn bytes_in(notes: NoteIterator) -> Result<usize> {
    let mut sum = 0usize;
    for note in notes {
        sum = sum.saturating_add(note?.desc.len());
    }
    Ok(sum)
}

// How many bytes the descriptors of these ranges of a program's notes take.
fn bytes_of(rt: HostRuntime, ends: &[(usize, usize)]) -> Result<usize> {
    bytes_in(ranges(rt.alloc(), ends, 0)?)
}

#[test]
fn serves_a_loop_and_a_count(rt: HostRuntime) {
    assert!(rt; is(rt, range(THREE, 0, 132, 4).size_hint(), (1, Some(11))));
    assert!(rt; is(rt, count(range(THREE, 0, 132, 4)), 3));
    assert!(rt; is(rt, count(range(THREE, 0, usize::MAX, 4)), 4));
    assert!(rt; returns(rt, build_of(range(THREE, 0, 132, 4)), Some(&THREE[48..68])));
    assert!(rt; reports(rt, build_of(range(CUT_NAME, 0, 16, 4)), "bad offset 20"));
    assert!(rt; returns(rt, bytes_of(rt, &[(0, 32), (32, 68)]), 36));
}

#[test]
fn leads_to_the_headers_of_notes(rt: HostRuntime) {
    let sizes = (elf32::Note::size_with(&LE), elf64::Note::size_with(&LE));
    assert!(rt; is(rt, sizes, (12, 24)));
}

// A note as its layout defines it, in numbers that no sum overflows: type, name, descriptor, and how many bytes it
// takes.
type NaiveNote<'a> = (u128, &'a [u8], &'a [u8], u128);

// The number that the four bytes at a place stand for; bytes that there aren't are zeros.
fn naive_number(bytes: &[u8], places: [usize; 4], order: Endian) -> u128 {
    let [first, second, third, fourth] = places;
    let ranked = match order {
        Endian::Little => [fourth, third, second, first],
        Endian::Big => [first, second, third, fourth],
    };
    let mut number = 0u128;
    for place in ranked {
        let byte = bytes.get(place).copied().unwrap_or(0);
        number = number.wrapping_mul(256).wrapping_add(u128::from(byte));
    }
    number
}

// The fault of a place without so many bytes.
fn bad_offset(place: u128) -> Error {
    Error::Scroll(scroll::Error::BadOffset(number(place)))
}

// The bytes of a size at a place, or the fault of room.
fn naive_part(bytes: &[u8], place: u128, size: u128) -> Result<&[u8]> {
    let len = bytes.len() as u128;
    if place > len || (place == len && size > 0) {
        return Err(bad_offset(place));
    }
    if size > len - place {
        return Err(Error::Scroll(scroll::Error::TooBig {
            size: number(size),
            len: number(len - place),
        }));
    }
    let start = place as usize;
    let end = (place + size) as usize;
    Ok(&bytes[start..end])
}

// The least multiple of 4, or of 8, from a place on.
fn naive_multiple(place: u128, align: usize) -> u128 {
    let mut up = place;
    for _ in 0..8 {
        if up % 4 == 0 && (align == 4 || up % 8 == 0) {
            return up;
        }
        up = up.wrapping_add(1);
    }
    up
}

// The note at the start of the bytes.
fn naive_note(bytes: &[u8], alignment: usize, order: Endian) -> Result<NaiveNote<'_>> {
    let align = alignment.max(4);
    if align != 4 && align != 8 {
        return Err(Error::Malformed(Fault::NoteAlign(align)));
    }
    let _ = naive_part(bytes, 0, 12)?;
    let namesz = naive_number(bytes, [0, 1, 2, 3], order);
    let descsz = naive_number(bytes, [4, 5, 6, 7], order);
    let n_type = naive_number(bytes, [8, 9, 10, 11], order);
    let named = if namesz > 0 { namesz - 1 } else { 0 };
    let name = naive_part(bytes, 12, named)?;
    // A name of these cases is either ASCII or not UTF-8.
    if name.iter().any(|byte| *byte >= 0x80) {
        return Err(Error::Scroll(scroll::Error::BadInput {
            size: bytes.len().saturating_sub(12),
            msg: "invalid utf8",
        }));
    }
    let place = naive_multiple(namesz.wrapping_add(12), align);
    let desc = naive_part(bytes, place, descsz)?;
    Ok((
        n_type,
        name,
        desc,
        naive_multiple(place.wrapping_add(descsz), align),
    ))
}

// The note at an offset.
fn naive_note_at(
    bytes: &[u8],
    offset: u128,
    alignment: usize,
    order: Endian,
) -> Result<NaiveNote<'_>> {
    if offset >= bytes.len() as u128 {
        return Err(bad_offset(offset));
    }
    naive_note(&bytes[offset as usize..], alignment, order)
}

// Whether an item at an offset is the expected one.
fn is_item(
    rt: HostRuntime,
    item: Option<Result<Note<'_>>>,
    expected: &Result<NaiveNote<'_>>,
) -> bool {
    match (item, expected) {
        (Some(Ok(note)), Ok((n_type, name, desc, _))) => {
            let came = (u128::from(note.n_type), note.name.as_bytes(), note.desc);
            is(rt, came, (*n_type, *name, *desc))
        }
        (Some(Err(e)), Err(fault)) => are_alike(rt, &e, fault),
        (item, expected) => differs(rt, &item, expected),
    }
}

// Whether the items of a range, and where its offset is after each, are the expected ones.
fn agrees(rt: HostRuntime, mut notes: NoteDataIterator) -> bool {
    let (alignment, ctx) = notes.ctx;
    for _ in 0..8 {
        let offset = notes.offset as u128;
        let item = notes.next();
        if offset >= notes.size as u128 {
            return is_last(rt, item) && is(rt, notes.offset as u128, offset);
        }
        let expected = naive_note_at(notes.bytes, offset, alignment, ctx.le);
        let next = match &expected {
            Ok(expected) => offset.wrapping_add(expected.3),
            Err(_) => notes.size as u128,
        };
        if !is_item(rt, item, &expected) || !is(rt, notes.offset as u128, next) {
            return false;
        }
    }
    differs(rt, &"more than 8 items", &"an end")
}

static ALIGNMENTS: [usize; 12] = [0, 1, 2, 3, 4, 5, 6, 7, 8, 9, 16, usize::MAX];

// Whether the notes of these bytes agree in each context, from each of some offsets up to each of some
// sizes, by each alignment.
fn agree(rt: HostRuntime, bytes: &[u8], ctx: Ctx) -> bool {
    let len = bytes.len();
    let ends = [
        0,
        1,
        len.saturating_sub(1),
        len,
        len.saturating_add(1),
        usize::MAX,
    ];
    for offset in &ends {
        for size in &ends {
            for alignment in &ALIGNMENTS {
                let notes = NoteDataIterator {
                    bytes,
                    size: *size,
                    offset: *offset,
                    ctx: (*alignment, ctx),
                };
                let row = (bytes, *offset, *size, *alignment);
                if !holds(rt, &row, agrees(rt, notes)) {
                    return false;
                }
            }
        }
    }
    true
}

// Notes whole and damaged.
const HOSTILE: &[(&[u8], Ctx)] = &[
    (b"", LITTLE64),
    (BUILD, LITTLE64),
    (BUILD_BIG, BIG32),
    (BARE, LITTLE64),
    (CUT_NAME, LITTLE64),
    (EMPTY, LITTLE64),
    (NO_TEXT, LITTLE64),
    (LONG_NAME, LITTLE64),
    (LONG_DESC, LITTLE64),
    (THREE, LITTLE64),
    (b"\x04\0\0\0\x10\0\0\0", LITTLE64),
    (THREE, BIG32),
];

#[test]
fn returns_the_naive_notes_of_hostile_ranges(rt: HostRuntime) {
    assert!(rt; each_row!(rt; notes in HOSTILE => agree(rt, notes.0, notes.1)));
}
