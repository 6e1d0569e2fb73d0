//! The errors of reading and writing.
ghost use Rattle.std.specs.Prelude.{◌≡◌, ◌⊎◌, Err, IfOk, Ok, Result, Some, alloc_error, false, string_bytes};
ghost use Rattle.goblin_base.specs.Common.{Gives, Refusal, Refuses, Returns, misplaced, refusal_of, facts_of, fault_facts, fault_text, numbers, refusal_facts, refusal_text, with_item};

use crate::scroll;
use crate::texts::{Kind, Report};
use std::alloc::{AllocError, AllocFailed, Global};
use std::num::TryFromIntError;
use std::{fmt, result};
use thiserror::Error;

/// What is wrong with a file, or with a record that is to be written.
///
/// Offsets, lengths and sizes are in bytes. `len` is the length of the whole slice, and `overflow` is
/// whether a sum overflowed the type of its numbers.
#[derive(Debug, Drop, Error)]
pub enum Fault {
    /// The class byte of a header is neither 1 nor 2. The header is asked for it, or written.
    InvalidClass(u8),
    /// The data byte of a header is neither 1 nor 2. The header is asked for it.
    InvalidEndianness(u8),
    /// The bytes are fewer than a header's identification takes.
    TooSmall,
    /// The class byte of a file is neither 1 nor 2. Its header is read.
    ElfClass(u8),
    /// The data byte of a file is neither 1 nor 2. Its header is read.
    DataType(u8),
    /// The data byte is neither 1 nor 2. A raw header is parsed, or a header is written.
    Data(u8),
    /// Notes are aligned to neither 4 nor 8 bytes.
    NoteAlign(usize),
    /// A symbol table starts at the file's end or past it.
    SymtabOffset {
        /// Where it starts.
        offset: usize,
        /// The file's length.
        len: usize,
    },
    /// The size of a symbol table overflows `usize`.
    TooManySymbols {
        /// Where it starts.
        offset: usize,
        /// How many symbols are asked for.
        count: usize,
    },
    /// A symbol table ends past the file's end.
    SymtabPast {
        /// How many bytes it takes.
        requested: usize,
        /// How many bytes there are from its start on.
        available: usize,
    },
    /// A string table starts past the file's end.
    StrtabOffset {
        /// Where it starts.
        offset: usize,
        /// The file's length.
        len: usize,
    },
    /// A string table ends past the file's end.
    StrtabRange {
        /// How many bytes it takes.
        size: usize,
        /// Where it starts.
        offset: usize,
        /// The file's length.
        len: usize,
        /// Whether the sum of size and offset overflows `usize`.
        overflow: bool,
    },
    /// The bytes of a section end past the file's end.
    SectionOffset {
        /// Where the section's name lies in the string table.
        name: usize,
        /// How many bytes the section takes.
        size: u64,
        /// Where it starts in the file.
        offset: u64,
        /// Whether the sum of size and offset overflows `u64`.
        overflow: bool,
    },
    /// The addresses of a section end at the greatest address or past it.
    SectionAddr {
        /// Where the section's name lies in the string table.
        name: usize,
        /// How many bytes the section takes.
        size: u64,
        /// Its first address.
        addr: u64,
        /// Whether the sum of size and address overflows `u64`.
        overflow: bool,
    },
    /// A number does not fit the type that it is converted to.
    IntegerFit(TryFromIntError),
}

/// Why a call is refused.
#[derive(Debug, Drop, Error)]
pub enum Error {
    /// The file, or what is to be written, is not well formed.
    Malformed(Fault),
    /// The file does not begin with the magic number of ELF. Holds its first eight bytes as a little endian number.
    BadMagic(u64),
    /// The bytes at an offset are too few for what is read or written there, or they are no value of the
    /// type.
    Scroll(scroll::Error),
    /// The bytes are too few for so many of these items, at any offset.
    BufferTooShort(usize, &'static str),
    /// Out of memory.
    Memory(AllocError),
}

/// The result of reading or writing.
pub type Result<T> = result::Result<T, Error>;

impl From<TryFromIntError> for Error {
    ghost use Rattle.goblin_base.specs.declared.error.Error.TheVariants.{Malformed};
    ghost use Rattle.goblin_base.specs.declared.error.Fault.TheVariants.{IntegerFit};

    ghost from_gives = { λ err e. e ≡ Malformed (IntegerFit err) };

    fn from(err: TryFromIntError) -> Error {
        Error::Malformed(Fault::IntegerFit(err))
    }
}

impl From<scroll::Error> for Error {
    ghost use Rattle.goblin_base.specs.declared.error.Error.TheVariants.{Scroll};

    ghost from_gives = { λ err e. e ≡ Scroll err };

    fn from(err: scroll::Error) -> Error {
        Error::Scroll(err)
    }
}

impl From<AllocError> for Error {
    ghost use Rattle.goblin_base.specs.declared.error.Error.TheVariants.{Memory};

    ghost from_gives = { λ err e. e ≡ Memory err };

    fn from(err: AllocError) -> Error {
        Error::Memory(err)
    }
}

/// Drops the value that there was no memory for.
impl<T: Drop> From<AllocFailed<T>> for Error {
    ghost use Rattle.std.specs.Prelude.{alloc_error};
    ghost use Rattle.goblin_base.specs.declared.error.Error.TheVariants.{Memory};

    ghost from_gives = { λ _ e. e ≡ Memory alloc_error };

    fn from(_err: AllocFailed<T>) -> Error {
        Error::Memory(AllocError)
    }
}

// Returns the report of an error of a kind with numbers.
fn numbers(kind: Kind, first: u64, second: u64, third: u64, overflow: bool) -> Report
    ensures { facts_of result ≡ numbers kind first second third overflow }
{
    Report {
        kind,
        item: "",
        first,
        second,
        third,
        overflow,
    }
}

// Returns that of a kind with one number.
fn one(kind: Kind, first: u64) -> Report
    ensures { facts_of result ≡ numbers kind first 0 0 false }
{
    numbers(kind, first, 0, 0, false)
}

// Returns that of a kind with two numbers.
fn two(kind: Kind, first: usize, second: usize) -> Report
    ensures { facts_of result ≡ numbers kind first second 0 false }
{
    numbers(kind, first as u64, second as u64, 0, false)
}

// Returns the report of an error of a kind with a number and an item.
fn with_item(kind: Kind, first: usize, item: &'static str) -> Report
    ensures { facts_of result ≡ with_item kind first item.now }
{
    Report {
        item,
        ..one(kind, first as u64)
    }
}

impl Fault {
    /// Returns the fault as its kind and its numbers.
    pub fn report(&self) -> Report
        ensures { facts_of result ≡ fault_facts self.now }
    {
        match *self {
            Fault::InvalidClass(class) => one(Kind::InvalidClass, class as u64),
            Fault::InvalidEndianness(order) => one(Kind::InvalidEndianness, order as u64),
            Fault::TooSmall => numbers(Kind::TooSmall, 0, 0, 0, false),
            Fault::ElfClass(class) => one(Kind::ElfClass, class as u64),
            Fault::DataType(order) => one(Kind::DataType, order as u64),
            Fault::Data(order) => one(Kind::Data, order as u64),
            Fault::NoteAlign(align) => one(Kind::NoteAlign, align as u64),
            Fault::SymtabOffset { offset, len } => two(Kind::SymtabOffset, offset, len),
            Fault::TooManySymbols { offset, count } => two(Kind::TooManySymbols, offset, count),
            Fault::SymtabPast {
                requested,
                available,
            } => two(Kind::SymtabPast, requested, available),
            Fault::StrtabOffset { offset, len } => two(Kind::StrtabOffset, offset, len),
            Fault::StrtabRange {
                size,
                offset,
                len,
                overflow,
            } => numbers(
                Kind::StrtabRange,
                size as u64,
                offset as u64,
                len as u64,
                overflow,
            ),
            Fault::SectionOffset {
                name,
                size,
                offset,
                overflow,
            } => numbers(Kind::SectionOffset, name as u64, size, offset, overflow),
            Fault::SectionAddr {
                name,
                size,
                addr,
                overflow,
            } => numbers(Kind::SectionAddr, name as u64, size, addr, overflow),
            Fault::IntegerFit(_) => numbers(Kind::IntegerFit, 0, 0, 0, false),
        }
    }
}

impl scroll::Error {
    /// Returns the error as its kind, its numbers and its item.
    pub fn report(&self) -> Report
        ensures { facts_of result ≡ refusal_facts (misplaced self.now) }
    {
        match *self {
            scroll::Error::TooBig { size, len } => two(Kind::TooBig, size, len),
            scroll::Error::BadOffset(offset) => one(Kind::BadOffset, offset as u64),
            scroll::Error::BadInput { size, msg } => with_item(Kind::BadInput, size, msg),
        }
    }
}

impl Error {
    /// Returns the error as its kind, its numbers and its item.
    pub fn report(&self) -> Report
        ensures { facts_of result ≡ refusal_facts (refusal_of self.now) }
    {
        match self {
            Error::Malformed(fault) => fault.report(),
            Error::BadMagic(magic) => one(Kind::BadMagic, *magic),
            Error::Scroll(e) => e.report(),
            Error::BufferTooShort(count, item) => with_item(Kind::BufferTooShort, *count, item),
            Error::Memory(_) => numbers(Kind::OutOfMemory, 0, 0, 0, false),
        }
    }

    /// Returns the text that `Display` writes.
    ///
    /// # Errors
    ///
    /// Out of memory.
    pub fn line(&self, alloc: Global) -> result::Result<String, AllocError>
        ensures { IfOk result (λ text. string_bytes text ≡ refusal_text (refusal_of self.now)) }
    {
        self.to_string(alloc)
    }
}

impl fmt::Display for Fault {
    ghost output = { λ fault. Some (fault_text fault) };

    fn fmt<W: fmt::Write>(&self, f: &mut fmt::Formatter<W>) -> fmt::Result {
        self.report().write_parts(f)
    }
}

impl fmt::Display for scroll::Error {
    ghost output = { λ e. Some (refusal_text (misplaced e)) };

    fn fmt<W: fmt::Write>(&self, f: &mut fmt::Formatter<W>) -> fmt::Result {
        write!(f, "{}", self.report())
    }
}

impl fmt::Display for Error {
    ghost output = { λ e. Some (refusal_text (refusal_of e)) };

    fn fmt<W: fmt::Write>(&self, f: &mut fmt::Formatter<W>) -> fmt::Result {
        write!(f, "{}", self.report())
    }
}

/// Laws of what contracts say of results. By `Returns` a value is the expected one, and so is an error. By `Gives` an
/// error may also be out of memory, in place of any result. By `Refuses` there is an error, the expected one.
pub fn results<X, Y>()
    ensures value { (view : X → Y) (x : X) (expected : Result Y Refusal)
        → Returns view (Ok x) expected → expected ≡ Ok (view x) }
    ensures err { (view : X → Y) (e : Error) (expected : Result Y Refusal)
        → Returns view (Err e) expected → expected ≡ Err (refusal_of e) }
    ensures given { (view : X → Y) (x : X) (expected : Result Y Refusal)
        → Gives view (Ok x) expected → expected ≡ Ok (view x) }
    ensures given_err { (view : X → Y) (e : Error) (expected : Result Y Refusal)
        → Gives view (Err e) expected → (e ≡ Error.Memory alloc_error) ⊎ (expected ≡ Err (refusal_of e)) }
    ensures refused { (result : Result X Error) (refusal : Refusal)
        → Refuses result refusal → (e : Error) × (result ≡ Err e) × (refusal_of e ≡ refusal) }
{}
