//! Readers and writers in memory that take parts, are interrupted, and fail.
use std::io;
use std::io::{ErrorKind, Read, Write};

// What a call does in the place of reading or of taking bytes: it returns an error, by its kind or by its number in the
// system, or takes no bytes.
#[derive(Clone, Copy)]
pub(crate) enum Balk {
    Kind(ErrorKind),
    Number(i32),
    TakesNone,
}

impl Balk {
    fn result(self) -> io::Result<()> {
        match self {
            Balk::Kind(kind) => Err(io::Error::from(kind)),
            Balk::Number(number) => Err(io::Error::from_raw_os_error(number)),
            Balk::TakesNone => Ok(()),
        }
    }
}

// Errors that are no interruption: 5 is a device's, 9 a closed file's, 21 a folder's.
pub(crate) const FAILURES: [Balk; 15] = [
    Balk::Kind(ErrorKind::NotFound),
    Balk::Kind(ErrorKind::PermissionDenied),
    Balk::Kind(ErrorKind::ConnectionReset),
    Balk::Kind(ErrorKind::BrokenPipe),
    Balk::Kind(ErrorKind::InvalidInput),
    Balk::Kind(ErrorKind::InvalidData),
    Balk::Kind(ErrorKind::TimedOut),
    Balk::Kind(ErrorKind::WriteZero),
    Balk::Kind(ErrorKind::WouldBlock),
    Balk::Kind(ErrorKind::UnexpectedEof),
    Balk::Kind(ErrorKind::OutOfMemory),
    Balk::Kind(ErrorKind::Other),
    Balk::Number(5),
    Balk::Number(9),
    Balk::Number(21),
];

// Interruptions, by kind and by the system's number.
pub(crate) const INTERRUPTIONS: [Balk; 2] = [Balk::Kind(ErrorKind::Interrupted), Balk::Number(4)];

// A reader of some bytes, or a writer that holds them, of few bytes at once. It counts its calls, and balks at one, or
// at each other read or write.
#[derive(Drop)]
pub(crate) struct Parts<T> {
    pub(crate) bytes: T,
    pub(crate) calls: u32,
    at_once: usize,
    balk_at: u32,
    balk: Balk,
    is_halting: bool,
}

impl<T> Parts<T> {
    pub(crate) fn new(bytes: T, at_once: usize, balk_at: u32, balk: Balk) -> Self {
        Parts {
            bytes,
            calls: 0,
            at_once,
            balk_at,
            balk,
            is_halting: false,
        }
    }

    // One that balks at each other read or write, from the first call on or from the second one on.
    pub(crate) fn halting(bytes: T, at_once: usize, first: u32, balk: Balk) -> Self {
        let mut parts = Parts::new(bytes, at_once, first, balk);
        parts.is_halting = true;
        parts
    }

    // Counts a call. Reports whether it balks.
    fn balks(&mut self) -> bool {
        self.calls = self.calls.saturating_add(1);
        match self.is_halting {
            true => self.calls % 2 == self.balk_at % 2,
            false => self.calls == self.balk_at,
        }
    }
}

impl Read for Parts<&[u8]> {
    fn read(&mut self, buf: &mut [u8]) -> io::Result<usize> {
        if self.balks() {
            self.balk.result()?;
            return Ok(0);
        }
        let count = buf.len().min(self.bytes.len()).min(self.at_once);
        let (given, left) = self.bytes.split_at(count);
        buf[..count].copy_from_slice(given);
        self.bytes = left;
        Ok(count)
    }
}

impl Write for Parts<Vec<u8>> {
    fn write(&mut self, buf: &[u8]) -> io::Result<usize> {
        if self.balks() {
            self.balk.result()?;
            return Ok(0);
        }
        let count = buf.len().min(self.at_once);
        self.bytes.extend_from_slice(&buf[..count])?;
        Ok(count)
    }

    fn flush(&mut self) -> io::Result<()> {
        match !self.is_halting && self.balks() {
            true => self.balk.result(),
            false => Ok(()),
        }
    }
}

// A reader that is interrupted so many times before it reports its end.
#[derive(Drop)]
pub(crate) struct Interrupted {
    pub(crate) left: u32,
}

impl Read for Interrupted {
    fn read(&mut self, _buf: &mut [u8]) -> io::Result<usize> {
        if self.left == 0 {
            return Ok(0);
        }
        self.left -= 1;
        Err(io::Error::from(ErrorKind::Interrupted))
    }
}
