//! A `Counted` alone, over readers and writers that are interrupted, fail, and give one byte a call.
use crate::run::ZEROS;
use crate::streams::{Balk, Parts};
use goblin_text::counted::Counted;
use goblin_text::streams::{Sink, Source};
use std::alloc::Global;
use std::io;
use std::io::{ErrorKind, Read, Write};

// Whether each read call reads one byte and is counted by itself, up to the one that reports the end.
fn counts_reads(bytes: &[u8]) -> bool {
    let mut counted = Counted::new(Parts::new(bytes, 1, 0, Balk::TakesNone));
    let count = bytes.len() as u64;
    for call in 0..count {
        let is_one = matches!(Source::read(&mut counted, &mut [1; 8]), Ok(1));
        if !is_one || counted.read_calls() != call.saturating_add(1) || counted.reported_end() {
            return false;
        }
    }
    let is_end = matches!(Source::read(&mut counted, &mut [1; 8]), Ok(0));
    is_end
        && counted.reported_end()
        && !counted.reported_error()
        && !counted.reported_failure()
        && counted.read_calls() == count.saturating_add(1)
}

// Whether all bytes are written, one a call, and flushed by one more of so many calls, and no read call is counted.
fn writes_all(alloc: Global, bytes: &[u8], calls: u32) -> bool {
    let mut counted = Counted::new(Parts::new(Vec::new(alloc), 1, 0, Balk::TakesNone));
    let is_written = Sink::write_all(&mut counted, bytes).is_ok();
    let is_flushed = Sink::flush(&mut counted).is_ok();
    let is_marked = counted.reported_error() || counted.read_calls() > 0;
    let written = counted.into_inner();
    let is_each_written = written.bytes.as_slice() == bytes && written.calls == calls;
    is_written && is_flushed && !is_marked && is_each_written
}

// A reader and writer whose calls return in turn an interruption, a failure and one byte. It counts its calls.
#[derive(Drop)]
struct Turning {
    calls: u64,
}

impl Turning {
    fn turn(&mut self) -> io::Result<()> {
        let turn = self.calls % 3;
        self.calls = self.calls.saturating_add(1);
        match turn {
            0 => Err(io::Error::from(ErrorKind::Interrupted)),
            1 => Err(io::Error::from(ErrorKind::BrokenPipe)),
            _ => Ok(()),
        }
    }
}

impl Read for Turning {
    fn read(&mut self, buf: &mut [u8]) -> io::Result<usize> {
        self.turn()?;
        Ok(buf.len().min(1))
    }
}

impl Write for Turning {
    fn write(&mut self, buf: &[u8]) -> io::Result<usize> {
        self.turn()?;
        Ok(buf.len().min(1))
    }

    fn flush(&mut self) -> io::Result<()> {
        self.turn()
    }
}

// Whether each read of so many bytes at most is one call inside, whose result it returns.
fn passes_reads_on(buffer: &mut [u8]) -> bool {
    let given = buffer.len().min(1);
    let mut counted = Counted::new(Turning { calls: 0 });
    for call in 0..9_u64 {
        let is_passed_on = match Source::read(&mut counted, buffer) {
            Ok(count) => call % 3 == 2 && count == given,
            Err(e) => match call % 3 {
                0 => e.kind() == ErrorKind::Interrupted,
                1 => e.kind() == ErrorKind::BrokenPipe,
                _ => false,
            },
        };
        let is_counted = counted.read_calls() == call.saturating_add(1)
            && counted.inner().calls == counted.read_calls();
        let is_marked = counted.reported_error()
            && counted.reported_failure() == (call > 0)
            && !counted.reported_end();
        if !is_passed_on || !is_counted || !is_marked {
            return false;
        }
    }
    true
}

// Whether an answer is an error of a kind.
fn is_of_kind(answer: io::Result<()>, kind: ErrorKind) -> bool {
    match answer {
        Ok(()) => false,
        Err(e) => e.kind() == kind,
    }
}

// Whether a write goes on after an interruption and ends at a failure, and a flush is one call.
fn passes_writes_on(bytes: &[u8]) -> bool {
    let mut counted = Counted::new(Turning { calls: 0 });
    let written = Sink::write_all(&mut counted, bytes);
    let is_ended = is_of_kind(written, ErrorKind::BrokenPipe) && counted.reported_error();
    let at_failure = counted.inner().calls;
    let is_flushed = Sink::flush(&mut counted).is_ok();
    let is_interrupted = is_of_kind(Sink::flush(&mut counted), ErrorKind::Interrupted);
    is_ended && at_failure == 2 && is_flushed && is_interrupted && counted.into_inner().calls == 4
}

#[test]
fn passes_each_result_on(rt: HostRuntime) {
    assert!(rt; passes_reads_on(&mut []), "into an empty buffer");
    assert!(rt; passes_reads_on(&mut [1]), "into one byte");
    assert!(rt; passes_reads_on(&mut [1; 8]), "into eight bytes");
    assert!(rt; passes_writes_on(b"0"), "of one byte");
    assert!(rt; passes_writes_on(b"01234567"), "of eight bytes");
}

#[test]
fn counts_calls_one_by_one(rt: HostRuntime) {
    assert!(rt; counts_reads(b"") && counts_reads(b"0") && counts_reads(&ZEROS[..40]));
    assert!(rt; writes_all(rt.alloc(), b"", 1) && writes_all(rt.alloc(), b"0123456789", 11));
}
