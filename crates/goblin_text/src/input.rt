//! The input: all bytes of a reader up to its end.
ghost use Rattle.std.specs.Prelude.{◌≡◌, ◌≢◌, ◌+◌, ◌<◌, ◌≤◌, OnOk, drop, take, vec_len};
ghost use Rattle.goblin_text.specs.Common.{ReadsAtMost, ReadConsumes};
ghost use Rattle.goblin_text.specs.StreamMarks.{ReadsNoFurther, after_read};
ghost use Rattle.goblin_text.specs.RunOutcome.{IsInput, IsInputWithin, ReadsAtMostOneMore, read_limit};

use crate::streams::{Source, is_interruption};
use std::alloc::{AllocError, Global};
use std::io;

/// The greatest number of bytes of input that the program takes.
pub const INPUT_LIMIT: usize = 16_777_216;

/// The line for an input that is longer.
pub const TOO_LONG: &str = "input is longer than 16777216 bytes";

/// The greatest number of read calls.
pub const READ_LIMIT: u64 = 2 * INPUT_LIMIT as u64;

// The number of bytes that the input grows by at once.
const ROOM: usize = 65_536;

// The number of bytes that are filled with zeros at once. From 2 KiB on the C library fills fresh memory in a
// slower way.
const STEP: usize = 1_984;

// The factor that memory grows by.
const GROWTH: usize = 4;

/// The result of reading.
#[derive(Drop)]
pub enum Input {
    /// All bytes, up to the end.
    Whole(Vec<u8>),
    /// More bytes than the program takes.
    TooLong,
    /// Memory ran out.
    OutOfMemory,
    /// The reader reported an error, or was called as often as it may be.
    Failed,
}

// Makes the bytes longer, if all of them are filled.
fn make_room(bytes: &mut Vec<u8>, filled: usize) -> Result<(), AllocError>
    requires bound { filled ≤ INPUT_LIMIT }
    requires fits { vec_len bytes.old ≤ INPUT_LIMIT + 1 }
    requires within { filled ≤ vec_len bytes.old }
    ensures unchanged { OnOk result (take filled bytes.new.items ≡ take filled bytes.old.items) }
    ensures ok { OnOk result (filled < vec_len bytes.new) }
    ensures fits { OnOk result (vec_len bytes.new ≤ INPUT_LIMIT + 1) }
{
    if filled < bytes.len() {
        return Ok(());
    }
    let end = (filled + ROOM).min(INPUT_LIMIT + 1);
    if bytes.capacity() < end {
        let most = (GROWTH * end).min(INPUT_LIMIT + 1);
        bytes.reserve_exact(most - filled)?;
    }
    while bytes.len() < end {
        bytes.resize((bytes.len() + STEP).min(end), 0)?;
    }
    Ok(())
}

// Reads into the bytes after the first `filled` ones.
fn read_into<R: Source>(reader: &mut R, bytes: &mut Vec<u8>, filled: usize) -> io::Result<usize>
    requires { filled < vec_len bytes.old }
    ensures size { vec_len bytes.new ≡ vec_len bytes.old }
    ensures unchanged { take filled bytes.new.items ≡ take filled bytes.old.items }
    ensures bound { ReadsAtMost result (drop filled bytes.new.items) }
    ensures bytes { ReadConsumes (R.remaining reader.old) (R.remaining reader.new) result
        (drop filled bytes.new.items) }
    ensures marks { R.marks reader.new ≡ after_read (R.marks reader.old) result (drop filled bytes.new.items) }
{
    reader.read(&mut bytes[filled..])
}

/// Reads up to the end. An interrupted read is tried again.
pub fn input_of<R: Source>(alloc: Global, reader: &mut R) -> Input
    ensures input { IsInput result (R.remaining reader.old) (R.remaining reader.new)
        (R.marks reader.old) (R.marks reader.new) }
    ensures most { ReadsAtMostOneMore (R.remaining reader.old) (R.remaining reader.new) }
    ensures calls { (R.marks reader.new).read_calls ≤ (R.marks reader.old).read_calls + read_limit }
    ensures heeded { result ≢ Input.Failed →
        (R.marks reader.new).reported_failure ≡ (R.marks reader.old).reported_failure }
    ensures stopped { ReadsNoFurther (R.marks reader.old) (R.marks reader.new) }
{
    input_within(alloc, reader, READ_LIMIT)
}

/// Reads up to the end, in at most so many read calls.
pub fn input_within<R: Source>(alloc: Global, reader: &mut R, limit: u64) -> Input
    ensures input { IsInputWithin limit result (R.remaining reader.old) (R.remaining reader.new)
        (R.marks reader.old) (R.marks reader.new) }
    ensures most { ReadsAtMostOneMore (R.remaining reader.old) (R.remaining reader.new) }
    ensures calls { (R.marks reader.new).read_calls ≤ (R.marks reader.old).read_calls + limit }
    ensures heeded { result ≢ Input.Failed →
        (R.marks reader.new).reported_failure ≡ (R.marks reader.old).reported_failure }
    ensures stopped { ReadsNoFurther (R.marks reader.old) (R.marks reader.new) }
{
    let mut bytes = Vec::new(alloc);
    let mut filled = 0;
    for _ in 0..limit {
        if make_room(&mut bytes, filled).is_err() {
            return Input::OutOfMemory;
        }
        match read_into(reader, &mut bytes, filled) {
            Ok(0) => {
                bytes.truncate(filled);
                return Input::Whole(bytes);
            }
            Ok(count) => {
                filled += count;
                if filled > INPUT_LIMIT {
                    return Input::TooLong;
                }
            }
            Err(e) => {
                if !is_interruption(&e) {
                    return Input::Failed;
                }
            }
        }
    }
    Input::Failed
}
