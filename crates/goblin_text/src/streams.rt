//! Readers and writers whose contracts say which bytes they read and write, and mark what they reported.
ghost use Rattle.std.specs.Prelude.{◌≡◌, ℕ, List, Option, OnOk};
ghost use Rattle.goblin_text.specs.Common.{ReadsAtMost, Appends, Keeps, ReadConsumes};
ghost use Rattle.std.specs.IoError.{error_kind};
ghost use Rattle.goblin_text.specs.StreamMarks.{StreamMarks, after_read, after_write, is_interruption};

use std::io;
use std::io::ErrorKind;

/// Reports whether an error is an interruption, after which the call is tried again.
pub fn is_interruption(e: &io::Error) -> bool
    ensures { result ≡ is_interruption (error_kind e.now) }
{
    matches!(e.kind(), ErrorKind::Interrupted)
}

/// A reader.
pub trait Source {
    // The bytes that reads will return from here on, if they are known.
    ghost remaining: { Self → Option (List ℕ) };

    // What it has reported so far.
    ghost marks: { Self → StreamMarks };

    /// Reads some bytes into the front of a buffer, and returns how many. 0 is the end, if the buffer isn't empty.
    fn read(&mut self, buf: &mut [u8]) -> io::Result<usize>
        ensures bound { ReadsAtMost result buf.new }
        ensures bytes { ReadConsumes (remaining self.old) (remaining self.new) result buf.new }
        ensures marks { marks self.new ≡ after_read (marks self.old) result buf.new };
}

/// A writer.
pub trait Sink {
    // The bytes that it holds, if they are known.
    ghost contents: { Self → Option (List ℕ) };

    // What it has reported so far.
    ghost marks: { Self → StreamMarks };

    /// Writes all of these bytes. After an error it is open how many were written.
    fn write_all(&mut self, bytes: &[u8]) -> io::Result<()>
        ensures bytes { OnOk result (Appends (contents self.old) (contents self.new) bytes.now) }
        ensures marks { marks self.new ≡ after_write (marks self.old) result };

    /// Flushes what was written.
    fn flush(&mut self) -> io::Result<()>
        ensures bytes { Keeps (contents self.old) (contents self.new) }
        ensures marks { marks self.new ≡ after_write (marks self.old) result };
}
