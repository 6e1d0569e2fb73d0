//! Targets that a text is put into part by part: a buffer of fixed size before a writer, and a text in memory.
ghost use Rattle.std.specs.Prelude.{◌≡◌, ◌↔◌, ◌+◌, ◌≤◌, ◌++◌, IsTrue, OnErr, OnOk, Some, false, length, [], string_bytes, take};
ghost use Rattle.goblin_text.specs.Common.{Appends, Keeps};
ghost use Rattle.std.specs.Borrow.{GName};
ghost use Rattle.goblin_text.specs.StreamMarks.{StopsAtError};
ghost use Rattle.goblin_text.specs.TargetState.{Prints, State, held};

use crate::streams::Sink;
use std::alloc::{AllocError, Global};
use std::io;

/// A target that a text is put into.
pub trait Target {
    /// The error of a part that isn't taken.
    type Error;

    // The bytes that it holds, if they are known, whether it reported an error, and whether it was called after that.
    ghost state: { Self → State };

    // The name of its reference to a writer, or 0: so generic callers know that it is the same writer.
    ghost writer_name: { Self → GName };

    /// Puts a part of the text. After an error it is open how much of it was put.
    fn put(&mut self, part: &str) -> Result<(), Self::Error>
        ensures put { Prints (state self.old) (state self.new) result part.now }
        ensures same_writer { writer_name self.new ≡ writer_name self.old };
}

// How many bytes a buffer has.
const ROOM: usize = 32_768;

/// A buffer before a writer.
#[derive(Drop)]
pub struct Buffered<'a, W> {
    writer: &'a mut W,
    room: [u8; ROOM],
    filled: usize,
}

impl<'a, W: Sink> Buffered<'a, W> {
    /// Returns an empty buffer.
    #[tactic(auto, using(crate::proofs::TargetLemmas::emptied))]
    pub fn new(writer: &'a mut W) -> Self
        ensures same_writer { result.writer.ghost_name ≡ writer.entry.ghost_name }
        ensures unchanged { result.writer.now ≡ writer.old }
        ensures empty { held (W.contents result.writer.now) result.room result.filled ≡ W.contents writer.old }
    {
        Buffered {
            writer,
            room: [0; ROOM],
            filled: 0,
        }
    }

    // Writes the buffer's bytes, and empties it.
    #[tactic(auto, using(crate::proofs::TargetLemmas::passed_on))]
    fn pass_on(&mut self) -> io::Result<()>
        ensures same_writer { self.new.writer.ghost_name ≡ self.old.writer.ghost_name }
        ensures ok { OnOk result (self.new.filled ≡ 0) }
        ensures bytes { OnOk result (Keeps (held (W.contents self.old.writer.now) self.old.room self.old.filled)
            (W.contents self.new.writer.now)) }
        ensures heeded { OnOk result ((W.marks self.new.writer.now).reported_error
            ≡ (W.marks self.old.writer.now).reported_error) }
        ensures err { OnErr result (IsTrue (W.marks self.new.writer.now).reported_error) }
        ensures stopped { StopsAtError (W.marks self.old.writer.now) (W.marks self.new.writer.now) }
    {
        self.writer.write_all(&self.room[..self.filled.min(ROOM)])?;
        self.filled = 0;
        Ok(())
    }

    // Reports whether the buffer has space for so many bytes more.
    fn has_room(&self, len: usize) -> bool
        ensures { IsTrue result ↔ self.now.filled + len ≤ ROOM }
    {
        self.filled <= ROOM && len <= ROOM - self.filled
    }

    // Adds bytes that the buffer has space for.
    fn add(&mut self, bytes: &[u8])
        requires { self.old.filled + length bytes.now ≤ ROOM }
        ensures same_writer { self.new.writer.ghost_name ≡ self.old.writer.ghost_name }
        ensures unchanged { self.new.writer.now ≡ self.old.writer.now }
        ensures written { take self.new.filled self.new.room ≡ take self.old.filled self.old.room ++ bytes.now }
    {
        let end = self.filled + bytes.len();
        copy(&mut self.room[self.filled..end], bytes);
        self.filled = end;
    }

    // Writes the buffer's bytes, and then puts others.
    #[cold]
    #[inline(never)]
    #[tactic(auto, using(crate::proofs::TargetLemmas::put_on))]
    fn put_after_writing(&mut self, bytes: &[u8]) -> io::Result<()>
        ensures same_writer { self.new.writer.ghost_name ≡ self.old.writer.ghost_name }
        ensures bytes { OnOk result (Appends (held (W.contents self.old.writer.now) self.old.room self.old.filled)
            (held (W.contents self.new.writer.now) self.new.room self.new.filled) bytes.now) }
        ensures heeded { OnOk result ((W.marks self.new.writer.now).reported_error
            ≡ (W.marks self.old.writer.now).reported_error) }
        ensures err { OnErr result (IsTrue (W.marks self.new.writer.now).reported_error) }
        ensures stopped { StopsAtError (W.marks self.old.writer.now) (W.marks self.new.writer.now) }
    {
        self.pass_on()?;
        if bytes.len() > ROOM {
            self.writer.write_all(bytes)?;
            return Ok(());
        }
        self.add(bytes);
        Ok(())
    }

    /// Writes the buffer's bytes, and flushes the writer.
    pub fn finish(&mut self) -> io::Result<()>
        ensures same_writer { self.new.writer.ghost_name ≡ self.old.writer.ghost_name }
        ensures bytes { OnOk result (Keeps (held (W.contents self.old.writer.now) self.old.room self.old.filled)
            (W.contents self.new.writer.now)) }
        ensures heeded { OnOk result ((W.marks self.new.writer.now).reported_error
            ≡ (W.marks self.old.writer.now).reported_error) }
        ensures err { OnErr result (IsTrue (W.marks self.new.writer.now).reported_error) }
        ensures stopped { StopsAtError (W.marks self.old.writer.now) (W.marks self.new.writer.now) }
    {
        self.pass_on()?;
        self.writer.flush()
    }
}

impl<W: Sink> Target for Buffered<'_, W> {
    type Error = io::Error;

    ghost state = { λ b. record {
      contents = held (W.contents b.writer.now) b.room b.filled;
      reported_error = (W.marks b.writer.now).reported_error;
      went_on = (W.marks b.writer.now).went_on;
    } };

    ghost writer_name = { λ b. b.writer.ghost_name };

    fn put(&mut self, part: &str) -> io::Result<()> {
        let bytes = part.as_bytes();
        if self.has_room(bytes.len()) {
            self.add(bytes);
            return Ok(());
        }
        self.put_after_writing(bytes)
    }
}

// Copies bytes over as many others. A single one, as most parts are, is copied without a call.
#[tactic(auto, using(crate::proofs::TargetLemmas::set_single))]
fn copy(room: &mut [u8], bytes: &[u8])
    requires { length room.old ≡ length bytes.now }
    ensures { room.new ≡ bytes.now }
{
    if bytes.len() == 1 {
        room[0] = bytes[0];
        return;
    }
    room.copy_from_slice(bytes);
}

/// A text in memory.
#[derive(Drop)]
pub struct Gathered {
    pub text: String,
    reported_error: bool,
}

impl Gathered {
    /// Returns an empty text.
    pub fn new(alloc: Global) -> Self
        ensures text { string_bytes result.text ≡ [] }
        ensures reported_error { result.reported_error ≡ false }
    {
        Gathered {
            text: String::new(alloc),
            reported_error: false,
        }
    }
}

// (It marks no call after an error: the text is let go then.)
impl Target for Gathered {
    type Error = AllocError;

    ghost state = { λ g. record {
      contents = Some (string_bytes g.text);
      reported_error = g.reported_error;
      went_on = false;
    } };

    ghost writer_name = { λ _. 0 };

    fn put(&mut self, part: &str) -> Result<(), AllocError> {
        let answer = self.text.push_str(part);
        if answer.is_err() {
            self.reported_error = true;
        }
        answer
    }
}
