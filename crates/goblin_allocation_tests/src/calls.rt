//! The calls by their names.
use crate::allocations::First;
use crate::answer::Answer;
use crate::{faults, held, records, strings};
use goblin::error::Result;
use std::alloc::Global;

// The calls that refuse their input before they take memory.
const TAKE_NONE: [&str; 9] = [
    "segments-many",
    "segments-late32",
    "segments-endless32",
    "segments-late64",
    "sections-outside",
    "sections-many",
    "symbols-many",
    "strings-outside",
    "strings-early",
];

// The calls that ask for less memory where the first allocation is refused.
const GO_ON: [&str; 9] = [
    "segments-parse32",
    "segments-parse64",
    "segments-bytes32",
    "segments-bytes64",
    "sections-bytes32",
    "sections-bytes64",
    "symbols-vector",
    "symbols-table",
    "symbols-relocs",
];

/// Makes the call with this name and returns its result, or `None` if there is no such call.
pub(crate) fn answer_to(alloc: Global, name: &str) -> Option<Result<Answer>> {
    match name.split_once('-') {
        Some(("segments", form)) => records::segments(alloc, form),
        Some(("sections", form)) => records::sections(alloc, form),
        Some(("symbols", form)) => records::symbols(alloc, form),
        Some(("strings", form)) => strings::tables(alloc, form),
        Some(("walk", form)) => strings::walks(alloc, form),
        Some(("line", kind)) => faults::line(alloc, kind),
        Some(("held", form)) => held::held(alloc, form),
        _ => None,
    }
}

/// Returns what the call with this name does if its first allocation is refused.
pub(crate) fn first_of(name: &str) -> First {
    if TAKE_NONE.contains(&name) {
        First::TakesNone
    } else if GO_ON.contains(&name) {
        First::GoesOn
    } else {
        First::Fails
    }
}
