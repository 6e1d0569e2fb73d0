//! The calls of counted bytes, each by itself, with the looks that it takes.
use crate::compare::{differs, each_row, is};
use crate::entries::{Shown, shows};
use goblin_base::counted_bytes::CountedBytes;

// Zero bytes at 2 and 6, and a character of two bytes at 3.
const BYTES: &[u8] = b"ab\0\xC3\xA9c\0d";

// Reports whether a view has this byte at a place. It is one look, also past the end.
fn gets(rt: HostRuntime, place: usize, byte: Option<u8>) -> bool {
    let mut view = CountedBytes::new(BYTES);
    is(rt, view.get(place), byte) && is(rt, view.count(), 1)
}

#[test]
fn gets_bytes(rt: HostRuntime) {
    assert!(rt; gets(rt, 0, Some(b'a')));
    assert!(rt; gets(rt, 7, Some(b'd')));
    assert!(rt; gets(rt, 8, None));
    assert!(rt; gets(rt, usize::MAX, None));
}

// A range of places, the place that a search of it finds, and the looks that it takes.
type Found = (usize, usize, usize, u128);

const FOUND: &[Found] = &[
    (0, 8, 2, 3),
    (3, 8, 6, 4),
    (3, 7, 6, 4),
    (3, 6, 6, 3),
    (7, 8, 8, 1),
    (4, 4, 4, 0),
];

// Reports whether a zero byte is found as a row says.
fn finds(rt: HostRuntime, row: &Found) -> bool {
    let mut view = CountedBytes::new(BYTES);
    if row.0 > row.1 || row.1 > view.len() {
        return false;
    }
    is(rt, view.find(0, row.0, row.1), row.2) && is(rt, view.count(), row.3)
}

#[test]
fn finds_first_bytes(rt: HostRuntime) {
    assert!(rt; each_row!(rt; row in FOUND => finds(rt, row)));
}

// A zero byte at 20, among 50 bytes.
const LONG: &[u8] = b"aaaaaaaaaaaaaaaaaaaa\0aaaaaaaaaaaaaaaaaaaaaaaaaaaaa";

// The same of a search from the end, which reads sixteen bytes at once, or those that are left.
const FOUND_LAST: &[Found] = &[
    (0, 50, 21, 32),
    (10, 40, 21, 30),
    (0, 21, 21, 16),
    (6, 21, 21, 15),
    (20, 36, 21, 16),
    (20, 37, 21, 17),
    (21, 50, 21, 29),
    (0, 20, 0, 20),
    (33, 33, 33, 0),
];

fn finds_last(rt: HostRuntime, row: &Found) -> bool {
    let mut view = CountedBytes::new(LONG);
    if row.0 > row.1 || row.1 > view.len() {
        return false;
    }
    is(rt, view.rfind(0, row.0, row.1), row.2) && is(rt, view.count(), row.3)
}

// Reports whether each byte is found in some ranges that begin before it, and in all of these that end after it. No
// byte may be there twice.
fn finds_each(rt: HostRuntime, bytes: &[u8]) -> bool {
    for place in 0..bytes.len() {
        for to in place + 1..=bytes.len() {
            let mut view = CountedBytes::new(bytes);
            if !is(rt, view.rfind(bytes[place], place / 2, to), place + 1) {
                return false;
            }
        }
    }
    true
}

#[test]
fn finds_last_bytes(rt: HostRuntime) {
    assert!(rt; each_row!(rt; row in FOUND_LAST => finds_last(rt, row)));
    let all = b"0123456789abcdefghijklmnopqrstuvwxyzABCDEFGHIJKLMNOPQRSTUVWXYZ";
    assert!(rt; finds_each(rt, all));
}

// Reports whether the bytes of a range are this text, at a look for each.
fn reads_text(rt: HostRuntime, from: usize, to: usize, text: &str) -> bool {
    let mut view = CountedBytes::new(BYTES);
    if from > to || to > view.len() {
        return false;
    }
    match view.str(from, to) {
        Ok(read) => is(rt, read, text) && is(rt, view.count(), (to - from) as u128),
        Err(e) => differs(rt, &e, &text),
    }
}

// Reports whether so many bytes of a range are text, and no more, at a look for each byte.
fn reads_text_up_to(rt: HostRuntime, from: usize, to: usize, len: usize) -> bool {
    let mut view = CountedBytes::new(BYTES);
    if from > to || to > view.len() {
        return false;
    }
    match view.str(from, to) {
        Ok(read) => differs(rt, &read, &len),
        Err(e) => is(rt, e.valid_up_to(), len) && is(rt, view.count(), (to - from) as u128),
    }
}

#[test]
fn reads_texts(rt: HostRuntime) {
    assert!(rt; reads_text(rt, 0, 2, "ab"));
    assert!(rt; reads_text(rt, 2, 6, "\0\u{e9}c"));
    assert!(rt; reads_text(rt, 8, 8, ""));
    assert!(rt; reads_text_up_to(rt, 0, 4, 3));
    assert!(rt; reads_text_up_to(rt, 4, 8, 0));
}

const NUMBERS: Shown = (
    "CountedBytes { len: 8, count: 1 }",
    "CountedBytes {\n    len: 8,\n    count: 1,\n}",
);

// Reports whether a view shows numbers alone, after one look.
fn shows_numbers(rt: HostRuntime, text: Shown) -> bool {
    let mut view = CountedBytes::new(BYTES);
    let _ = view.get(0);
    shows(rt, &view, text)
}

#[test]
fn shows_no_counted_bytes(rt: HostRuntime) {
    assert!(rt; shows_numbers(rt, NUMBERS));
}
