//! The texts of errors of each kind.
use crate::answer::Answer;
use goblin::error::{Error, Fault, Result};
use goblin::scroll;
use std::alloc::{AllocError, Global};

/// The text of an error of a kind.
pub(crate) fn line(alloc: Global, kind: &str) -> Option<Result<Answer>> {
    let error = error_of(kind)?;
    Some(error.line(alloc).map(Answer::Line).map_err(Error::Memory))
}

fn error_of(kind: &str) -> Option<Error> {
    match kind {
        "BadMagic" => Some(Error::BadMagic(0xabc)),
        "BufferTooShort" => Some(Error::BufferTooShort(7, "symbols")),
        "Memory" => Some(Error::Memory(AllocError)),
        "TooBig" => Some(Error::Scroll(scroll::Error::TooBig { size: 56, len: 24 })),
        "BadOffset" => Some(Error::Scroll(scroll::Error::BadOffset(64))),
        "BadInput" => Some(Error::Scroll(scroll::Error::BadInput {
            size: 3,
            msg: "invalid utf8",
        })),
        _ => Some(Error::Malformed(fault_of(kind)?)),
    }
}

// Faults of headers, notes and numbers.
fn fault_of(kind: &str) -> Option<Fault> {
    match kind {
        "InvalidClass" => Some(Fault::InvalidClass(200)),
        "InvalidEndianness" => Some(Fault::InvalidEndianness(200)),
        "TooSmall" => Some(Fault::TooSmall),
        "ElfClass" => Some(Fault::ElfClass(200)),
        "DataType" => Some(Fault::DataType(200)),
        "Data" => Some(Fault::Data(200)),
        "NoteAlign" => Some(Fault::NoteAlign(16)),
        "IntegerFit" => u8::try_from(256u16).err().map(Fault::IntegerFit),
        _ => fault_of_table(kind),
    }
}

// Faults of symbol tables, string tables and sections.
fn fault_of_table(kind: &str) -> Option<Fault> {
    match kind {
        "SymtabOffset" => Some(Fault::SymtabOffset { offset: 7, len: 6 }),
        "TooManySymbols" => Some(Fault::TooManySymbols {
            offset: 10,
            count: usize::MAX,
        }),
        "SymtabPast" => Some(Fault::SymtabPast {
            requested: 48,
            available: 40,
        }),
        "StrtabOffset" => Some(Fault::StrtabOffset { offset: 7, len: 6 }),
        "StrtabRange" => Some(Fault::StrtabRange {
            size: 5,
            offset: 2,
            len: 6,
            overflow: false,
        }),
        "SectionOffset" => Some(Fault::SectionOffset {
            name: 3,
            size: 8,
            offset: 9,
            overflow: false,
        }),
        "SectionAddr" => Some(Fault::SectionAddr {
            name: 3,
            size: u64::MAX,
            addr: 9,
            overflow: true,
        }),
        _ => None,
    }
}
