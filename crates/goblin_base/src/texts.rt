//! An error as its kind, its numbers and its item, and the text of each kind, in parts.
ghost use Rattle.std.specs.Fmt.{WritesOnOk};
ghost use Rattle.std.specs.Prelude.{◌≡◌, [], ◌∷◌, IsTrue, Some, map};
ghost use Rattle.goblin_base.specs.Common.{find, ComparesAndClones, Facts, KindsAreFound, are_short, facts_of, facts_text, fault_facts, is_kind, parts_text, kind_number, kind_text, kind_with, out_of_memory, part_text, prefix, refusal_facts};

use crate::error::Fault;
use Part::{First, Hexadecimal, Item, Overflow, Second, Text, Third};
use std::fmt;

/// The kinds of errors. A kind's number stays for good: other languages know the kind by it. From 10 on
/// are the kinds of faults.
#[derive(Clone, Copy, Debug, PartialEq, Eq)]
pub enum Kind {
    /// `Error::BadMagic`, with the first eight bytes.
    BadMagic = 2,
    /// `scroll::Error::TooBig`, with the size and the length.
    TooBig = 3,
    /// `scroll::Error::BadOffset`, with the offset.
    BadOffset = 4,
    /// `scroll::Error::BadInput`, with the size and what is wrong.
    BadInput = 5,
    /// `Error::BufferTooShort`, with the number of items and their name.
    BufferTooShort = 6,
    /// `Error::Memory`.
    OutOfMemory = 7,
    /// `Fault::InvalidClass`, with the class byte.
    InvalidClass = 10,
    /// `Fault::InvalidEndianness`, with the data byte.
    InvalidEndianness = 11,
    /// `Fault::TooSmall`.
    TooSmall = 12,
    /// `Fault::ElfClass`, with the class byte.
    ElfClass = 13,
    /// `Fault::DataType`, with the data byte.
    DataType = 14,
    /// `Fault::Data`, with the data byte.
    Data = 15,
    /// `Fault::NoteAlign`, with the alignment.
    NoteAlign = 16,
    /// `Fault::SymtabOffset`, with the offset and the file's length.
    SymtabOffset = 17,
    /// `Fault::TooManySymbols`, with the offset and the number of symbols.
    TooManySymbols = 18,
    /// `Fault::SymtabPast`, with the bytes requested and available.
    SymtabPast = 19,
    /// `Fault::StrtabOffset`, with the offset and the file's length.
    StrtabOffset = 20,
    /// `Fault::StrtabRange`, with the size, the offset, the file's length and the overflow.
    StrtabRange = 21,
    /// `Fault::SectionOffset`, with the name, the size, the offset and the overflow.
    SectionOffset = 22,
    /// `Fault::SectionAddr`, with the name, the size, the address and the overflow.
    SectionAddr = 23,
    /// `Fault::IntegerFit`.
    IntegerFit = 24,
}

/// A part of the text of an error.
#[derive(Debug, Drop)]
pub enum Part {
    /// The same text in each error of the kind.
    Text(&'static str),
    /// The first number, by decimal digits.
    First,
    /// The second number, by decimal digits.
    Second,
    /// The third number, by decimal digits.
    Third,
    /// The first number, by hexadecimal digits.
    Hexadecimal,
    /// The item.
    Item,
    /// Whether a sum overflowed: `true` or `false`.
    Overflow,
}

/// An error as its kind, its numbers and its item.
#[derive(Debug, Drop)]
pub struct Report {
    /// The kind of the error.
    pub kind: Kind,
    /// The text or the items that the error names. Empty if it names none.
    pub item: &'static str,
    /// The numbers of the error in the order of its fields, followed by zeros.
    pub first: u64,
    pub second: u64,
    pub third: u64,
    /// Whether a sum overflowed.
    pub overflow: bool,
}

/// All kinds.
pub const KINDS: &[Kind] = &[
    Kind::BadMagic,
    Kind::TooBig,
    Kind::BadOffset,
    Kind::BadInput,
    Kind::BufferTooShort,
    Kind::OutOfMemory,
    Kind::InvalidClass,
    Kind::InvalidEndianness,
    Kind::TooSmall,
    Kind::ElfClass,
    Kind::DataType,
    Kind::Data,
    Kind::NoteAlign,
    Kind::SymtabOffset,
    Kind::TooManySymbols,
    Kind::SymtabPast,
    Kind::StrtabOffset,
    Kind::StrtabRange,
    Kind::SectionOffset,
    Kind::SectionAddr,
    Kind::IntegerFit,
];

// The parts of the longer texts.
const SYMTAB_OFFSET: &[Part] = &[
    Text("Symbol table offset ("),
    First,
    Text(") is beyond file boundary ("),
    Second,
    Text(")"),
];

const TOO_MANY_SYMBOLS: &[Part] = &[
    Text("Too many ELF symbols (offset 0x"),
    Hexadecimal,
    Text(", count "),
    Second,
    Text(")"),
];

const SYMTAB_PAST: &[Part] = &[
    Text("Symbol table extends beyond file boundary (requested: "),
    First,
    Text(", available: "),
    Second,
    Text(")"),
];

const STRTAB_OFFSET: &[Part] = &[
    Text("String table offset ("),
    First,
    Text(") is beyond file boundary ("),
    Second,
    Text(")"),
];

const STRTAB_RANGE: &[Part] = &[
    Text("Strtable size ("),
    First,
    Text(") + offset ("),
    Second,
    Text(") is out of bounds for "),
    Third,
    Text(" #bytes. Overflowed: "),
    Overflow,
];

const SECTION_OFFSET: &[Part] = &[
    Text("Section "),
    First,
    Text(" size ("),
    Second,
    Text(") + offset ("),
    Third,
    Text(") is out of bounds. Overflowed: "),
    Overflow,
];

const SECTION_ADDR: &[Part] = &[
    Text("Section "),
    First,
    Text(" size ("),
    Second,
    Text(") + addr ("),
    Third,
    Text(") is out of bounds. Overflowed: "),
    Overflow,
];

// Returns the first of some kinds with a number.
fn find_kind(kinds: &[Kind], number: u32) -> Option<Kind>
    ensures { result ≡ find (is_kind number) kinds.now }
{
    for kind in kinds {
        if kind.number() == number {
            return Some(*kind);
        }
    }
    None
}

impl Kind {
    /// Returns the number of the kind.
    pub fn number(self) -> u32
        ensures { result ≡ kind_number self }
    {
        self as u32
    }

    /// Returns the kind with a number, or `None` if no kind has it.
    pub fn with_number(number: u32) -> Option<Kind>
        ensures { result ≡ kind_with number }
    {
        find_kind(KINDS, number)
    }

    /// Returns the text before the parts: that an error is a fault, or nothing.
    pub fn prefix(self) -> &'static str
        ensures { result.now ≡ prefix self }
    {
        if self.number() < 10 {
            ""
        } else {
            "Malformed entity: "
        }
    }

    /// Returns the parts of the text of an error, without its prefix.
    pub fn parts(self) -> &'static [Part]
        ensures value { (facts : Facts) → parts_text facts result.now ≡ kind_text self facts }
        ensures bound { IsTrue (are_short result.now) }
    {
        match self {
            Kind::BadMagic => &[Text("Invalid magic number: 0x"), Hexadecimal],
            Kind::TooBig => &[Text("type is too big ("), First, Text(") for "), Second],
            Kind::BadOffset => &[Text("bad offset "), First],
            Kind::BadInput => &[Text("bad input "), Item, Text(" ("), First, Text(")")],
            Kind::BufferTooShort => &[Text("Buffer is too short for "), First, Text(" "), Item],
            Kind::OutOfMemory => &[Text("Out of memory")],
            Kind::InvalidClass => &[Text("Invalid class in Header: "), First],
            Kind::InvalidEndianness => &[Text("Invalid endianness in Header: "), First],
            Kind::TooSmall => &[Text("Too small")],
            Kind::ElfClass => &[Text("invalid ELF class "), Hexadecimal],
            Kind::DataType => &[Text("invalid ELF endianness DATA type "), Hexadecimal],
            Kind::Data => &[Text("invalid ELF DATA type "), Hexadecimal],
            Kind::NoteAlign => &[
                Text("Notes has unimplemented alignment requirement: 0x"),
                Hexadecimal,
            ],
            Kind::SymtabOffset => SYMTAB_OFFSET,
            Kind::TooManySymbols => TOO_MANY_SYMBOLS,
            Kind::SymtabPast => SYMTAB_PAST,
            Kind::StrtabOffset => STRTAB_OFFSET,
            Kind::StrtabRange => STRTAB_RANGE,
            Kind::SectionOffset => SECTION_OFFSET,
            Kind::SectionAddr => SECTION_ADDR,
            Kind::IntegerFit => &[Text(
                "Integer do not fit: out of range integral type conversion attempted",
            )],
        }
    }
}

impl Report {
    // Writes a part of the text.
    fn write_part<W: fmt::Write>(&self, part: &Part, f: &mut fmt::Formatter<W>) -> fmt::Result
        ensures { WritesOnOk W.write_str_gives f.old result (part_text (facts_of self.now) part.now) f.new }
    {
        match part {
            Text(text) => write!(f, "{text}"),
            First => write!(f, "{}", self.first),
            Second => write!(f, "{}", self.second),
            Third => write!(f, "{}", self.third),
            Hexadecimal => write!(f, "{:x}", self.first),
            Item => write!(f, "{}", self.item),
            Overflow => write!(f, "{}", self.overflow),
        }
    }

    /// Writes the text without its prefix.
    ///
    /// # Errors
    ///
    /// An error of the formatter.
    pub fn write_parts<W: fmt::Write>(&self, f: &mut fmt::Formatter<W>) -> fmt::Result
        ensures { WritesOnOk W.write_str_gives f.old result (kind_text self.now.kind (facts_of self.now)) f.new }
    {
        let parts = self.kind.parts();
        for part in parts {
            self.write_part(part, f)?;
        }
        Ok(())
    }
}

impl fmt::Display for Report {
    ghost output = { λ report. Some (facts_text (facts_of report)) };

    fn fmt<W: fmt::Write>(&self, f: &mut fmt::Formatter<W>) -> fmt::Result {
        write!(f, "{}", self.kind.prefix())?;
        self.write_parts(f)
    }
}

/// Laws: each kind is found by its number. They are listed by their numbers, each once. Faults and out of memory have
/// no item. `==` is true exactly if both kinds are the same. `clone` returns the kind, and never fails.
pub fn laws()
    ensures found { KindsAreFound }
    ensures listed { map kind_number KINDS.now ≡ 2 ∷ 3 ∷ 4 ∷ 5 ∷ 6 ∷ 7 ∷ 10 ∷ 11 ∷ 12 ∷ 13 ∷ 14 ∷ 15 ∷ 16 ∷ 17 ∷ 18 ∷ 19
        ∷ 20 ∷ 21 ∷ 22 ∷ 23 ∷ 24 ∷ [] }
    ensures faults { (f : Fault) → (fault_facts f).item ≡ [] }
    ensures memory { (refusal_facts out_of_memory).item ≡ [] }
    ensures derived { ComparesAndClones ⟦<Kind as PartialEq>⟧ ⟦<Kind as Clone>⟧ }
{}
