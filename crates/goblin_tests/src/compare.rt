//! Comparisons for the tests. If one doesn't hold, it shows what was found, what was expected, and the row of the test.
use goblin_base::error::{Error, Result};
use std::fmt::Debug;

// A table of rows, each of which ends with `;`.
macro_rules! rows {
    ($($($cell:expr),+;)*) => {
        [$(($($cell),+)),*]
    };
}

pub(crate) use rows;

// Whether something holds of each row of a table. One of which it doesn't is shown.
macro_rules! each_row {
    ($rt:expr; $row:ident in $rows:expr => $holds:expr) => {
        $rows.iter().all(|$row| $crate::compare::holds($rt, $row, $holds))
    };
}

pub(crate) use each_row;

// Shows what was found and what was expected, and reports that they differ.
pub(crate) fn differs<A: Debug, B: Debug>(rt: HostRuntime, found: &A, expected: &B) -> bool {
    let _ = eprintln!(rt; "found:    {found:?}\nexpected: {expected:?}");
    false
}

// Reports whether what was found is what was expected. If it isn't, both are shown.
pub(crate) fn is<T: PartialEq + Debug + Drop>(rt: HostRuntime, found: T, expected: T) -> bool {
    found == expected || differs(rt, &found, &expected)
}

// Reports whether a row holds. If it doesn't, it is shown.
pub(crate) fn holds<R: Debug>(rt: HostRuntime, row: &R, is_so: bool) -> bool {
    if !is_so {
        let _ = eprintln!(rt; "row:      {row:?}");
    }
    is_so
}

// Reports whether a call returned this value.
pub(crate) fn returns<T: PartialEq + Debug + Drop>(
    rt: HostRuntime,
    outcome: Result<T>,
    expected: T,
) -> bool {
    match outcome {
        Ok(value) => is(rt, value, expected),
        Err(e) => differs(rt, &e, &expected),
    }
}

// Reports whether a call returned a list of these.
pub(crate) fn returns_list<T: PartialEq + Debug + Drop>(
    rt: HostRuntime,
    outcome: Result<Vec<T>>,
    expected: &[T],
) -> bool {
    match outcome {
        Ok(list) => is(rt, list.as_slice(), expected),
        Err(e) => differs(rt, &e, &expected),
    }
}

// Reports whether an error has this message.
pub(crate) fn has_message(rt: HostRuntime, error: &Error, text: &str) -> bool {
    match error.line(rt.alloc()) {
        Ok(line) => is(rt, line.as_str(), text),
        Err(e) => differs(rt, &e, &text),
    }
}

// Reports whether a call failed with an error of this message, or succeeded and the text is `Ok`.
pub(crate) fn reports<T: Debug + Drop>(rt: HostRuntime, outcome: Result<T>, text: &str) -> bool {
    match outcome {
        Ok(value) => text == "Ok" || differs(rt, &value, &text),
        Err(e) => has_message(rt, &e, text),
    }
}

// Reports whether all these bytes are as before, 0xaa.
pub(crate) fn are_unchanged(bytes: &[u8]) -> bool {
    for byte in bytes {
        if *byte != 0xaa {
            return false;
        }
    }
    true
}

// Reports whether these bytes were written at the start, and all after them are unchanged, 0xaa.
pub(crate) fn has_written(rt: HostRuntime, buffer: &[u8], bytes: &[u8]) -> bool {
    let is_written = match buffer.strip_prefix(bytes) {
        Some(rest) => are_unchanged(rest),
        None => false,
    };
    is_written || differs(rt, &buffer, &bytes)
}

// A number as an error has it, which is never so long.
pub(crate) fn number(value: u128) -> usize {
    usize::try_from(value).unwrap_or(0xdead)
}

// Reports whether an error is the expected one, with the same numbers.
pub(crate) fn are_alike(rt: HostRuntime, found: &Error, expected: &Error) -> bool {
    let Ok(text) = format!(in rt.alloc(); "{found:?}") else {
        return differs(rt, found, expected);
    };
    match format!(in rt.alloc(); "{expected:?}") {
        Ok(expected) => is(rt, text, expected),
        Err(e) => differs(rt, &e, expected),
    }
}
