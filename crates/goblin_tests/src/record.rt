//! What is asked of records of every kind: how they are read and written, and where there is no room for one.
use crate::compare::{differs, has_message, has_written, is, reports, returns};
use goblin_base::error::Result;
use goblin_base::scroll::{SizeWith, TryFromCtx, TryIntoCtx};
use std::fmt::Debug;

// Reports whether a record has the size of these bytes, is read from them, and is written as them and no more.
pub(crate) fn has_form<
    'a,
    R: TryFromCtx<'a, C> + TryIntoCtx<C> + SizeWith<C> + PartialEq + Debug + Drop,
    C: Copy,
>(rt: HostRuntime, record: R, ctx: C, bytes: &'a [u8]) -> bool {
    is(rt, R::size_with(&ctx), bytes.len())
        && reads(rt, bytes, ctx, &record)
        && writes(rt, record, ctx, bytes)
}

// Whether a record is read from these bytes, all of which are counted.
pub(crate) fn reads<'a, R: TryFromCtx<'a, C> + PartialEq + Debug + Drop, C>(
    rt: HostRuntime,
    bytes: &'a [u8],
    ctx: C,
    record: &R,
) -> bool {
    match R::try_from_ctx(bytes, ctx) {
        Ok((read, size)) => is(rt, &read, record) && is(rt, size, bytes.len()),
        Err(e) => differs(rt, &e, record),
    }
}

// Reports whether a record is written as these bytes, and nothing after them.
pub(crate) fn writes<R: TryIntoCtx<C>, C>(
    rt: HostRuntime,
    record: R,
    ctx: C,
    bytes: &[u8],
) -> bool {
    let mut buffer = [0xaa; 70];
    let written = record.try_into_ctx(&mut buffer, ctx);
    returns(rt, written, bytes.len()) && has_written(rt, &buffer, bytes)
}

// Copies of a record, each with the default in one of these fields.
macro_rules! with_each_default {
    ($record:expr; $($field:ident)*) => {
        [$({
            let mut other = $record;
            other.$field = Default::default();
            other
        }),*]
    };
}

pub(crate) use with_each_default;

// Reports whether a value equals none of these others, but itself and its clone.
pub(crate) fn is_apart<T: PartialEq + Clone + Debug>(
    rt: HostRuntime,
    value: &T,
    others: &[T],
) -> bool {
    match value.clone() {
        Ok(clone) => {
            *value == *value && others.iter().all(|other| *other != *value) && is(rt, &clone, value)
        }
        Err(e) => differs(rt, &e, value),
    }
}

// Bytes, the first of which are too few for a record.
pub(crate) static SHORT: [u8; 64] = [0xaa; 64];

// Whether both reading from so few bytes and writing over as many are refused with this text, and nothing is written.
pub(crate) fn lacks_room<'a, R: TryFromCtx<'a, C> + TryIntoCtx<C> + Debug + Drop, C: Copy>(
    rt: HostRuntime,
    record: R,
    ctx: C,
    bytes: &'a [u8],
    text: &str,
) -> bool {
    reports(rt, R::try_from_ctx(bytes, ctx), text) && refuses(rt, record, ctx, bytes.len(), text)
}

// Whether writing a record over so many bytes is refused with this text, and nothing is written.
pub(crate) fn refuses<R: TryIntoCtx<C>, C>(
    rt: HostRuntime,
    record: R,
    ctx: C,
    len: usize,
    text: &str,
) -> bool {
    let mut buffer = [0xaa; 64];
    let buffer = &mut buffer[..len.min(64)];
    reports(rt, record.try_into_ctx(buffer, ctx), text) && has_written(rt, buffer, b"")
}

// Whether so many are counted, or the answer is an error with this text.
pub(crate) fn counts(
    rt: HostRuntime,
    count: Result<usize>,
    wanted: &std::result::Result<usize, &str>,
) -> bool {
    match (count, wanted) {
        (Ok(count), Ok(wanted)) => is(rt, count, *wanted),
        (Err(e), Err(text)) => has_message(rt, &e, text),
        (count, _) => differs(rt, &count, wanted),
    }
}

// Whether a list has so many records, or is refused with this text.
pub(crate) fn lists<R: Drop>(
    rt: HostRuntime,
    list: Result<Vec<R>>,
    wanted: &std::result::Result<usize, &str>,
) -> bool {
    counts(rt, list.map(|list| list.len()), wanted)
}
