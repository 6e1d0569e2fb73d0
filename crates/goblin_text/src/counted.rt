//! A reader or a writer of std, with marks of what it reported.
ghost use Rattle.std.specs.Prelude.{◌≡◌};
ghost use Rattle.goblin_text.specs.Counted.{inner_of, marks_of};
ghost use Rattle.goblin_text.specs.StreamMarks.{no_marks};

use crate::streams::{Sink, Source, is_interruption};
use std::io;
use std::io::{Read, Write};

/// A reader or a writer of std that counts its read calls, and marks that it reported an error, a read error that
/// is no interruption, or the end, that it was written or flushed after an error, and that it was read after such an
/// error or the end.
#[derive(Drop)]
pub struct Counted<T> {
    inner: T,
    read_calls: u64,
    reported_error: bool,
    reported_failure: bool,
    reported_end: bool,
    went_on: bool,
    read_on: bool,
}

impl<T> Counted<T> {
    /// Returns a reader or writer with no mark set, and no read call counted.
    pub fn new(inner: T) -> Self
        ensures inner { inner_of result ≡ inner }
        ensures marks { marks_of result ≡ no_marks }
    {
        Counted {
            inner,
            read_calls: 0,
            reported_error: false,
            reported_failure: false,
            reported_end: false,
            went_on: false,
            read_on: false,
        }
    }

    /// Returns the reader or writer inside.
    pub fn into_inner(self) -> T
        ensures { result ≡ inner_of self }
    {
        self.inner
    }

    /// Borrows the reader or writer inside.
    pub fn inner(&self) -> &T
        ensures { result.now ≡ inner_of self.now }
    {
        &self.inner
    }

    /// Returns the number of read calls, up to the greatest number.
    pub fn read_calls(&self) -> u64
        ensures { result ≡ (marks_of self.now).read_calls }
    {
        self.read_calls
    }

    /// Reports whether there was an error.
    pub fn reported_error(&self) -> bool
        ensures { result ≡ (marks_of self.now).reported_error }
    {
        self.reported_error
    }

    /// Reports whether there was a read error that is no interruption.
    pub fn reported_failure(&self) -> bool
        ensures { result ≡ (marks_of self.now).reported_failure }
    {
        self.reported_failure
    }

    /// Reports whether a read found the end.
    pub fn reported_end(&self) -> bool
        ensures { result ≡ (marks_of self.now).reported_end }
    {
        self.reported_end
    }
}

impl<R: Read> Source for Counted<R> {
    ghost remaining = { λ c. R.remaining (inner_of c) };

    ghost marks = { marks_of };

    fn read(&mut self, buf: &mut [u8]) -> io::Result<usize> {
        self.read_on = self.read_on || self.reported_failure || self.reported_end;
        let answer = self.inner.read(buf);
        self.read_calls = self.read_calls.saturating_add(1);
        match &answer {
            Ok(count) => {
                if *count == 0 && !buf.is_empty() {
                    self.reported_end = true;
                }
            }
            Err(e) => {
                self.reported_error = true;
                if !is_interruption(e) {
                    self.reported_failure = true;
                }
            }
        }
        answer
    }
}

impl<W: Write> Sink for Counted<W> {
    ghost contents = { λ c. W.contents (inner_of c) };

    ghost marks = { marks_of };

    fn write_all(&mut self, bytes: &[u8]) -> io::Result<()> {
        self.went_on = self.went_on || self.reported_error;
        let answer = self.inner.write_all(bytes);
        if answer.is_err() {
            self.reported_error = true;
        }
        answer
    }

    fn flush(&mut self) -> io::Result<()> {
        self.went_on = self.went_on || self.reported_error;
        let answer = self.inner.flush();
        if answer.is_err() {
            self.reported_error = true;
        }
        answer
    }
}
