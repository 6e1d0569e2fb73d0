//! The program: from its arguments, a reader and a writer to its exit status.
ghost use Rattle.std.specs.Prelude.{◌≡◌, ◌<◌, None, Some, OnErr, OnOk};
ghost use Rattle.goblin.specs.declared.options.ParseOptions.{ParseOptions};
ghost use Rattle.goblin_text.specs.declared.run.Outcome.{Outcome};
ghost use Rattle.goblin_text.specs.Options.{wanted};
ghost use Rattle.goblin_text.specs.RunOutcome.{HasRun, WritesUsage, status_of};

use crate::options::options_of;
use crate::run::{Outcome, run};
use crate::streams::{Sink, Source};
use std::alloc::Global;
use std::io;

// How the program is called.
const USAGE: &[u8; 32] = b"usage: goblin_show [permissive]\n";

// Writes how the program is called.
fn write_usage<W: Sink>(writer: &mut W)
    ensures { WritesUsage (W.contents writer.old) (W.contents writer.new) (W.marks writer.old) (W.marks writer.new) }
{
    if writer.write_all(USAGE).is_ok() {
        let _ = writer.flush();
    }
}

/// Runs with the options that the words ask for, which are the arguments after the program's name. Returns the
/// exit status.
///
/// The status is that of the run (`Outcome::status`). If the words ask for no options, it writes how the program is
/// called. If they can't be read, it writes nothing. In both cases the status is that of a run that failed.
pub fn show<R: Source, W: Sink>(
    alloc: Global,
    words: io::Result<Vec<String>>,
    reader: &mut R,
    writer: &mut W,
) -> u8
    ensures statuses { result < 3 }

    // Nothing was read or written.
    ensures unknown { OnErr words ((result ≡ 2) × (reader.new ≡ reader.old) × (writer.new ≡ writer.old)) }

    // Nothing was read, and the line on how the program is called was written.
    ensures usage { OnOk words (wanted words ≡ None → (result ≡ 2) × (reader.new ≡ reader.old)
        × WritesUsage (W.contents writer.old) (W.contents writer.new) (W.marks writer.old) (W.marks writer.new)) }

    // By the options that the words ask for there was a run, and this is its exit status.
    ensures ran { (opts : ParseOptions) → wanted words ≡ Some opts → (outcome : Outcome) × (result ≡ status_of outcome)
        × HasRun opts.parse_mode outcome (R.remaining reader.old) (R.remaining reader.new)
        (R.marks reader.old) (R.marks reader.new) (W.contents writer.old) (W.contents writer.new)
        (W.marks writer.old) (W.marks writer.new) }
{
    let Ok(words) = words else {
        return Outcome::Failed.status();
    };
    match options_of(words.as_slice()) {
        Some(opts) => run(alloc, reader, writer, &opts).status(),
        None => {
            write_usage(writer);
            Outcome::Failed.status()
        }
    }
}
