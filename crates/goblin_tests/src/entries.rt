//! What the counted views and the entries of a string table show of themselves: numbers, and none of their bytes.
use crate::compare::{differs, is};
use goblin_base::entries::{Entries, Looked, Probes};
use goblin_base::options::ParseMode;
use goblin_base::walk::walk;
use std::fmt::Debug;

// What a value shows of itself, and in the alternate form.
pub(crate) type Shown = (&'static str, &'static str);

// Whether the view of these bytes shows this once they are walked.
fn shows_view(rt: HostRuntime, bytes: &[u8], text: Shown) -> bool {
    let mut view = Looked::new(bytes);
    match walk(rt.alloc(), &mut view, 0, ParseMode::Strict) {
        Ok(_) => shows(rt, &view, text),
        Err(e) => differs(rt, &e, &text),
    }
}

// Whether a value shows this.
pub(crate) fn shows<T: Debug>(rt: HostRuntime, value: &T, text: Shown) -> bool {
    let Ok(shown) = format!(in rt.alloc(); "{value:?}") else {
        return differs(rt, value, &text);
    };
    match format!(in rt.alloc(); "{value:#?}") {
        Ok(lines) => is(rt, (shown.as_str(), lines.as_str()), text),
        Err(e) => differs(rt, &e, &text),
    }
}

// Whether entries show this, and their places that, once the first was read.
fn shows_entries(rt: HostRuntime, entries: &Entries<'_>, text: Shown, places: Shown) -> bool {
    let mut probes = Probes::of(&*entries);
    if probes.len() == 0 {
        return differs(rt, entries, &text);
    }
    is(rt, probes.at(0), 0) && shows(rt, entries, text) && shows(rt, &probes, places)
}

// The same of the entries of these bytes.
fn shows_walked(rt: HostRuntime, bytes: &[u8], text: Shown, places: Shown) -> bool {
    match walk(rt.alloc(), &mut Looked::new(bytes), 0, ParseMode::Strict) {
        Ok(entries) => shows_entries(rt, &entries, text, places),
        Err(e) => differs(rt, &e, &text),
    }
}

const VIEW: Shown = (
    "Looked { len: 5, count: 5 }",
    "Looked {\n    len: 5,\n    count: 5,\n}",
);

const ENTRIES: Shown = ("Entries { len: 2 }", "Entries {\n    len: 2,\n}");

const PROBES: Shown = (
    "Probes { len: 2, count: 1 }",
    "Probes {\n    len: 2,\n    count: 1,\n}",
);

// Each byte is looked at once, since all are ASCII.
#[test]
fn views_show_no_bytes(rt: HostRuntime) {
    let bytes = b"a\0bc\0";
    assert!(rt; shows_view(rt, bytes, VIEW));
    assert!(rt; shows_walked(rt, bytes, ENTRIES, PROBES));
}

// A text, or what isn't one, is a look at each of its bytes.
#[test]
fn counts_the_looks_at_texts(rt: HostRuntime) {
    let mut view = Looked::new(b"a\xc3\xa9\xff");
    assert!(rt; view.text(1, 3) && is(rt, view.count(), 2));
    assert!(rt; !view.text(0, 4) && is(rt, view.count(), 6));
}
