//! Runs over cut files, and over readers and writers that fail at each of their calls.
use crate::run::{
    BIG, BIG_TEXT, NO_MAGIC, PERMISSIVE, STRICT, SYMBOLS, SYMBOLS_TEXT, TOO_LONG, TOO_SMALL, ZEROS,
    ends, outcome_of,
};
use crate::streams::{Balk, FAILURES, INTERRUPTIONS, Interrupted, Parts};
use goblin::options::ParseOptions;
use goblin_text::counted::Counted;
use goblin_text::input::{Input, input_within};
use goblin_text::run::{Outcome, run};
use std::alloc::Global;
use std::io::Cursor;

// How the file with symbols is refused if it is cut to less than so many bytes, and to no less than those of the row
// before: with this text, and after it, if an offset is given, the number of bytes from there on. It is cut in its
// header, before its section headers, and in each of them.
const CUTS: [(usize, &str, Option<usize>); 8] = [
    (16, "Malformed entity: Too small", None),
    (52, "type is too big (52) for ", Some(0)),
    (89, "bad offset 88", None),
    (128, "type is too big (40) for ", Some(88)),
    (129, "bad offset 128", None),
    (168, "type is too big (40) for ", Some(128)),
    (169, "bad offset 168", None),
    (208, "type is too big (40) for ", Some(168)),
];

// The line of the file that is cut to so many bytes.
fn line_of(alloc: Global, length: usize) -> Option<String> {
    match CUTS.iter().find(|(end, _, _)| length < *end)? {
        (_, text, Some(base)) => {
            let left = length.saturating_sub(*base);
            format!(in alloc; "refused: {text}{left}\n").ok()
        }
        (_, text, None) => format!(in alloc; "refused: {text}\n").ok(),
    }
}

// Whether the file with symbols is refused so at each length below its own.
fn are_refused(alloc: Global, opts: &ParseOptions) -> bool {
    (0..SYMBOLS.len()).all(|length| match (SYMBOLS.get(..length), line_of(alloc, length)) {
        (Some(cut), Some(line)) => ends(alloc, opts, Cursor::new(cut), line.as_str()),
        _ => false,
    })
}

#[test]
fn refuses_cut_files(rt: HostRuntime) {
    assert!(rt; are_refused(rt.alloc(), &STRICT));
    assert!(rt; are_refused(rt.alloc(), &PERMISSIVE));
}

// Whether a run over these bytes, so many at once, fails and writes nothing where any of so many read calls fails, and
// writes this text where the next one would.
fn heeds_reads(alloc: Global, bytes: &[u8], at_once: usize, calls: u32, text: &str) -> bool {
    FAILURES.iter().all(|error| {
        let parts = |call| Parts::new(bytes, at_once, call, *error);
        (1..=calls).all(|call| ends(alloc, &STRICT, parts(call), ""))
            && ends(alloc, &STRICT, parts(calls.saturating_add(1)), text)
    })
}

#[test]
fn fails_where_any_read_does(rt: HostRuntime) {
    // 13 parts of 16 bytes, and the end.
    assert!(rt; heeds_reads(rt.alloc(), SYMBOLS, 16, 14, SYMBOLS_TEXT));
    // 100,000 bytes, which take three read calls.
    assert!(rt; heeds_reads(rt.alloc(), &ZEROS[..100_000], usize::MAX, 3, NO_MAGIC));
}

#[test]
fn tries_an_interrupted_read_again(rt: HostRuntime) {
    assert!(rt;
        (1..5).all(|call| {
            let reader = Parts::new(&ZEROS[..100_000], usize::MAX, call, INTERRUPTIONS[0]);
            ends(rt.alloc(), &STRICT, reader, NO_MAGIC)
        })
    );
}

// How many calls a run over these bytes makes to a writer, if it writes this text.
fn written(alloc: Global, bytes: &[u8], writer: Parts<Vec<u8>>, text: &str) -> Option<u32> {
    let mut reader = Counted::new(Cursor::new(bytes));
    let mut writer = Counted::new(writer);
    let outcome = run(alloc, &mut reader, &mut writer, &STRICT);
    let written = writer.into_inner();
    let is_text = outcome == outcome_of(text) && written.bytes.as_slice() == text.as_bytes();
    is_text.then_some(written.calls)
}

// Whether a run over these bytes writes this text if it is interrupted at each other read call, and if it is at each
// other write, from the first call on or from the second one on.
fn goes_on(alloc: Global, bytes: &[u8], balk: Balk, first: u32, text: &str) -> bool {
    let writer = Parts::halting(Vec::new(alloc), 7, first, balk);
    ends(alloc, &STRICT, Parts::halting(bytes, 16, first, balk), text)
        && written(alloc, bytes, writer, text).is_some()
}

// Whether it does for each interruption, from either call on.
fn goes_on_from_either(alloc: Global, bytes: &[u8], text: &str) -> bool {
    INTERRUPTIONS.iter().all(|balk| (1..3).all(|first| goes_on(alloc, bytes, *balk, first, text)))
}

#[test]
fn goes_on_after_each_other_call(rt: HostRuntime) {
    assert!(rt; goes_on_from_either(rt.alloc(), SYMBOLS, SYMBOLS_TEXT));
    assert!(rt; goes_on_from_either(rt.alloc(), b"", TOO_SMALL));
}

// Whether a reader that is interrupted at each of its first calls is asked as often as the limit
// says, and no more, and whether its end is heeded if the last of these calls reports it.
fn asks_as_often(alloc: Global, limit: u32) -> bool {
    let mut reader = Counted::new(Interrupted { left: 1_000 });
    let input = input_within(alloc, &mut reader, u64::from(limit));
    if !matches!(input, Input::Failed)
        || reader.into_inner().left != 1_000_u32.saturating_sub(limit)
    {
        return false;
    }
    let Some(left) = limit.checked_sub(1) else {
        return true;
    };
    let mut reader = Counted::new(Interrupted { left });
    matches!(
        input_within(alloc, &mut reader, u64::from(limit)),
        Input::Whole(bytes) if bytes.is_empty()
    )
}

#[test]
fn asks_as_many_times_as_the_limit(rt: HostRuntime) {
    for limit in [0, 1, 2, 3, 999, 1_000] {
        assert!(rt; asks_as_often(rt.alloc(), limit), "{limit}");
    }
}

// Whether reading zeros one by one comes to no end if each other call is an interruption, and the last call reads a
// zero: whether it read so many.
fn comes_to_no_end(alloc: Global, limit: u64, given: usize) -> bool {
    let zeros = Parts::halting(ZEROS.as_slice(), 1, 1, INTERRUPTIONS[0]);
    let mut reader = Counted::new(zeros);
    matches!(input_within(alloc, &mut reader, limit), Input::Failed)
        && ZEROS.len().saturating_sub(reader.into_inner().bytes.len()) == given
}

#[test]
fn takes_no_zeros_without_end(rt: HostRuntime) {
    assert!(rt; comes_to_no_end(rt.alloc(), 2, 1));
    assert!(rt; comes_to_no_end(rt.alloc(), 200_000, 100_000));
}

// Whether a run over these bytes fails if this call balks, of a writer that takes so many bytes at once, and makes no
// further one.
fn fails_at(alloc: Global, bytes: &[u8], at_once: usize, balk: Balk, call: u32) -> bool {
    let mut reader = Counted::new(Cursor::new(bytes));
    let mut writer = Counted::new(Parts::new(Vec::new(alloc), at_once, call, balk));
    run(alloc, &mut reader, &mut writer, &STRICT) == Outcome::Failed
        && writer.into_inner().calls == call
}

// Whether a run over these bytes writes this text to such a writer by so many calls.
fn takes_calls(alloc: Global, bytes: &[u8], at_once: usize, calls: u32, text: &str) -> bool {
    let writer = Parts::new(Vec::new(alloc), at_once, 0, Balk::TakesNone);
    written(alloc, bytes, writer, text) == Some(calls)
}

// Whether a run over these bytes makes so many write calls and then a flush, writes this text, and fails if any of the
// calls does or any write takes no bytes. An interrupted flush isn't tried again.
fn heeds(alloc: Global, bytes: &[u8], at_once: usize, writes: u32, text: &str) -> bool {
    let flush = writes.saturating_add(1);
    let fails = |balk, call| fails_at(alloc, bytes, at_once, balk, call);
    takes_calls(alloc, bytes, at_once, flush, text)
        && FAILURES
            .iter()
            .all(|balk| (1..=flush).all(|call| fails(*balk, call)))
        && (1..flush).all(|call| fails(Balk::TakesNone, call))
        && INTERRUPTIONS.iter().all(|balk| fails(*balk, flush))
}

#[test]
fn fails_where_a_write_or_the_flush_does(rt: HostRuntime) {
    // A text or a refusal is written by one call, if the writer takes it.
    assert!(rt; heeds(rt.alloc(), BIG, 1_000, 1, BIG_TEXT));
    assert!(rt; heeds(rt.alloc(), SYMBOLS, 1_000, 1, SYMBOLS_TEXT));
    assert!(rt; heeds(rt.alloc(), b"", 1_000, 1, TOO_SMALL));
    // 310 bytes in parts of 7, and 37 bytes in parts of 7 and of 3.
    assert!(rt; heeds(rt.alloc(), SYMBOLS, 7, 45, SYMBOLS_TEXT));
    assert!(rt; heeds(rt.alloc(), b"", 7, 6, TOO_SMALL));
    assert!(rt; heeds(rt.alloc(), b"", 3, 13, TOO_SMALL));
}

// Whether a run over so many zeros writes this text by so many calls, and fails if any of them does.
fn heeds_over_zeros(alloc: Global, count: usize, calls: u32, text: &str) -> bool {
    vec![in alloc; 0; count].is_ok_and(|zeros| {
        let bytes = zeros.as_slice();
        takes_calls(alloc, bytes, 1_000, calls, text)
            && (1..=calls).all(|call| fails_at(alloc, bytes, 1_000, FAILURES[3], call))
    })
}

#[test]
fn takes_as_many_bytes_as_the_limit(rt: HostRuntime) {
    assert!(rt; heeds_over_zeros(rt.alloc(), 16_777_216, 2, NO_MAGIC));
    // The refusal of too many bytes is three writes and a flush.
    assert!(rt; heeds_over_zeros(rt.alloc(), 16_777_217, 4, TOO_LONG));
}
