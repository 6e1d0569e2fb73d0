//! A run: from the bytes that a reader gives to the text that a writer holds.
ghost use Rattle.std.specs.Prelude.{◌≡◌, ◌≢◌, ℕ, ◌+◌, ◌*◌, ◌≤◌, ◌==◌, List, IsTrue, OnOk, OnErr, codes, filter, length, replicate, false, [], ◌∷◌, ◌<◌, ◌⊎◌, Option, Result, Some};
ghost use Rattle.goblin_text.specs.Common.{Appends, ComparesAndClones};
ghost use Rattle.goblin_text.specs.Common.{Consumes, Error as ReadError, Permissive, refusal_of, refusal_text};
ghost use Rattle.goblin_text.specs.Options.{asked};
ghost use Rattle.goblin_text.specs.Looks.{IsShort, IsUnread, LooksAtMost, ReadsNames, line_looks, lines_in, section_count, shown_looks, table_looks, tables_looks};
ghost use Rattle.goblin_text.specs.RunOutcome.{HasRun, ReadsAtMostOneMore, IsReasonOf, WritesRefusal, input_limit, read_limit, status_of};
ghost use Rattle.goblin_text.specs.Shown.{shown};
ghost use Rattle.goblin_text.specs.ShownLines.{printable};
ghost use Rattle.goblin_text.specs.StreamMarks.{StopsAtError, StreamMarks, after_read, after_write, no_marks};

use crate::accept::accept;
use crate::block_runs::{BLOCK, BLOCKS};
use crate::file_bytes::FileBytes;
use crate::input::{INPUT_LIMIT, Input, READ_LIMIT, TOO_LONG, input_of};
use crate::lines::put_error;
use crate::streams::{Sink, Source};
use crate::targets::{Buffered, Target};
use crate::text::write_text;
use goblin::error::Error;
use goblin::options::ParseOptions;
use std::alloc::Global;
use std::io;

/// How a run ended.
#[derive(Clone, Copy, Debug, PartialEq)]
pub enum Outcome {
    /// The text was written.
    Shown,
    /// One line was written: the reason why the file is refused.
    Refused,
    /// Reading or writing failed.
    Failed,
}

impl Outcome {
    /// Returns the exit status of a run that ended so: 0, 1 or 2.
    pub fn status(self) -> u8
        ensures { result ≡ status_of self }
    {
        match self {
            Outcome::Shown => 0,
            Outcome::Refused => 1,
            Outcome::Failed => 2,
        }
    }
}

const OUT_OF_MEMORY: &str = "Out of memory";

fn write_refusal<W: Sink>(writer: &mut W, line: &str) -> io::Result<()>
    ensures ok { OnOk result (WritesRefusal (W.contents writer.old) (W.contents writer.new) line.now) }
    ensures heeded { OnOk result ((W.marks writer.new).reported_error ≡ (W.marks writer.old).reported_error) }
    ensures err { OnErr result (IsTrue (W.marks writer.new).reported_error) }
    ensures stopped { StopsAtError (W.marks writer.old) (W.marks writer.new) }
{
    writer.write_all(b"refused: ")?;
    writer.write_all(line.as_bytes())?;
    writer.write_all(b"\n")?;
    writer.flush()
}

// Writes `refused: ` and a line, and returns how that ended.
fn refuse<W: Sink>(writer: &mut W, line: &str) -> Outcome
    ensures shown { result ≢ Outcome.Shown }
    ensures refused { result ≡ Outcome.Refused →
        WritesRefusal (W.contents writer.old) (W.contents writer.new) line.now }
    ensures heeded { result ≡ Outcome.Refused →
        (W.marks writer.new).reported_error ≡ (W.marks writer.old).reported_error }
    ensures failed { result ≡ Outcome.Failed → IsTrue (W.marks writer.new).reported_error }
    ensures stopped { StopsAtError (W.marks writer.old) (W.marks writer.new) }
{
    match write_refusal(writer, line) {
        Ok(()) => Outcome::Refused,
        Err(_) => Outcome::Failed,
    }
}

// Writes `refused: ` and the text of an error. It takes no memory.
fn write_error<W: Sink>(writer: &mut W, e: &Error) -> io::Result<()>
    ensures ok { OnOk result (WritesRefusal (W.contents writer.old) (W.contents writer.new)
        (refusal_text (refusal_of e.now))) }
    ensures heeded { OnOk result ((W.marks writer.new).reported_error ≡ (W.marks writer.old).reported_error) }
    ensures err { OnErr result (IsTrue (W.marks writer.new).reported_error) }
    ensures stopped { StopsAtError (W.marks writer.old) (W.marks writer.new) }
{
    let mut target = Buffered::new(writer);
    target.put("refused: ")?;
    put_error(&mut target, e)?;
    target.put("\n")?;
    target.finish()
}

/// Writes the text of a file, or one line with the reason why there is none: the bytes are refused, or memory ran out.
/// That is decided before the first line of the text is written.
///
/// Bytes looked at for names, from a fresh count: at most 5 times the file, its text, and 4,096 for each line, if the
/// file is shown; at most 7 times the file, and 1,040 for each section header and one more, if it is refused.
#[tactic(auto, using(crate::proofs::LineLooks::looks_shown))]
pub fn show_file<W: Sink>(
    alloc: Global,
    writer: &mut W,
    file: &mut FileBytes<'_>,
    opts: &ParseOptions,
) -> Outcome
    // The text was written.
    ensures shown { result ≡ Outcome.Shown → (text : List ℕ) × (shown opts.now.parse_mode file.old.bytes ≡ Ok text)
        × Appends (W.contents writer.old) (W.contents writer.new) text }

    // One line with the reason was written.
    ensures refused { result ≡ Outcome.Refused → (line : List ℕ) × IsReasonOf opts.now.parse_mode file.old.bytes line
        × WritesRefusal (W.contents writer.old) (W.contents writer.new) line }
    ensures heeded { result ≢ Outcome.Failed →
        (W.marks writer.new).reported_error ≡ (W.marks writer.old).reported_error }
    ensures failed { result ≡ Outcome.Failed → IsTrue (W.marks writer.new).reported_error }
    ensures stopped { StopsAtError (W.marks writer.old) (W.marks writer.new) }

    // The looks for names if the text was written, if it was refused, and however it ended.
    ensures looks_shown { IsShort file.old.bytes → (text : List ℕ) → result ≡ Outcome.Shown
        → shown opts.now.parse_mode file.old.bytes ≡ Ok text
        → LooksAtMost file.old file.new (length text + line_looks * lines_in text) }
    ensures looks_refused { IsShort file.old.bytes → result ≡ Outcome.Refused
        → LooksAtMost file.old file.new (tables_looks opts.now.parse_mode file.old.bytes) }
    ensures reading { ReadsNames file.old file.new 0
        (tables_looks opts.now.parse_mode file.old.bytes + shown_looks opts.now.parse_mode file.old.bytes) }

    // The looks for names, of a file of which no byte was looked at before.
    ensures most_shown { IsShort file.old.bytes → IsUnread file.old → (text : List ℕ)
        → result ≡ Outcome.Shown → shown opts.now.parse_mode file.old.bytes ≡ Ok text
        → file.new.count ≤ 5 * length file.old.bytes + length text + 4096 * lines_in text }
    ensures most_refused { IsShort file.old.bytes → IsUnread file.old → result ≡ Outcome.Refused
        → file.new.count ≤ 7 * length file.old.bytes + 1040 * (section_count opts.now.parse_mode file.old.bytes + 1) }
{
    match accept(alloc, file, opts) {
        Ok(accepted) => match write_text(writer, &mut file.names, &accepted) {
            Ok(()) => Outcome::Shown,
            Err(_) => Outcome::Failed,
        },
        Err(e) => match write_error(writer, &e) {
            Ok(()) => Outcome::Refused,
            Err(_) => Outcome::Failed,
        },
    }
}

/// Reads up to the end, and then writes the text of what was read, or one line with the reason why there is
/// none: the bytes are refused, there are too many of them, or memory ran out. That is decided before the first
/// line of the text is written.
///
/// An interrupted read is tried again. Any other error of the reader or the writer, or 33,554,432 read calls
/// without an end, is `Failed`. After an error of the reader nothing was written. After one of the writer it is
/// open how much was, and nothing is written or flushed any more.
pub fn run<R: Source, W: Sink>(
    alloc: Global,
    reader: &mut R,
    writer: &mut W,
    opts: &ParseOptions,
) -> Outcome
    ensures { HasRun opts.now.parse_mode result (R.remaining reader.old) (R.remaining reader.new)
        (R.marks reader.old) (R.marks reader.new) (W.contents writer.old) (W.contents writer.new)
        (W.marks writer.old) (W.marks writer.new) }
{
    let bytes = match input_of(alloc, reader) {
        Input::Whole(bytes) => bytes,
        Input::TooLong => return refuse(writer, TOO_LONG),
        Input::OutOfMemory => return refuse(writer, OUT_OF_MEMORY),
        Input::Failed => return Outcome::Failed,
    };
    let mut file = FileBytes::new(bytes.as_slice());
    show_file(alloc, writer, &mut file, opts)
}

/// The limits of a run, and of the looks for names, in numbers, and the line for an input that is too long. A text has
/// as many lines as newlines. Of names the bytes below 32 and 127 are printed as `?`, and all others as they are. A
/// read after a failure or the end counts as reading on, and a write or a flush after an error as going on; before any
/// call there was none of it.
#[tactic(auto, using(crate::proofs::LineLooks::lines_filtered))]
pub fn constants()
    ensures input { INPUT_LIMIT ≡ 16777216 }
    ensures reads { READ_LIMIT ≡ 33554432 }
    ensures too_long { TOO_LONG.now ≡ codes "input is longer than 16777216 bytes" }
    ensures block { BLOCK ≡ 512 }
    ensures blocks { BLOCKS ≡ 32768 }
    ensures limits { (input_limit ≡ 16777216) × (read_limit ≡ 33554432) }
    ensures looks { (line_looks ≡ 4096) × (table_looks ≡ 1040) }
    ensures lines { (text : List ℕ) → lines_in text ≡ length (filter (λ b. b == 10) text) }
    ensures printable { (byte : ℕ) → (byte < 32 → printable byte ≡ 63) × (printable 127 ≡ 63)
        × (32 ≤ byte → byte ≢ 127 → printable byte ≡ byte) }
    ensures words { asked (codes "permissive" ∷ []) ≡ Some (record { parse_mode = Permissive }) }
    ensures most { (old new : Option (List ℕ)) → ReadsAtMostOneMore old new
        → (bytes : List ℕ) × Consumes old new bytes × (length bytes ≤ 16777217) }
    ensures read_on { (m : StreamMarks) (answer : Result ℕ ReadError) (buf : List ℕ)
        → (IsTrue m.reported_failure ⊎ IsTrue m.reported_end) → IsTrue (after_read m answer buf).read_on }
    ensures no_marks { (no_marks.read_calls ≡ 0) × (no_marks.reported_error ∷ no_marks.reported_failure
        ∷ no_marks.reported_end ∷ no_marks.went_on ∷ no_marks.read_on ∷ [] ≡ replicate 5 false) }
    ensures went_on { (m : StreamMarks) (answer : Result ℕ ReadError)
        → IsTrue m.reported_error → IsTrue (after_write m answer).went_on }
{}

/// A law: `==` is true exactly if two outcomes are the same. `clone` returns the outcome, and never fails.
pub fn laws()
    ensures derived { ComparesAndClones ⟦<Outcome as PartialEq>⟧ ⟦<Outcome as Clone>⟧ }
{}
