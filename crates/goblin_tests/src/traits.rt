//! What types derive: each trait is asked for at each type, by a call that compiles where it is there.
use goblin::container::{Container, Ctx, Endian};
use goblin::elf::header::Header;
use goblin::elf::note::{Nhdr32, Nhdr64, Note, NoteDataIterator, NoteIterator};
use goblin::elf::program_header::ProgramHeader;
use goblin::elf::reloc::{Reloc, RelocIterator, RelocSection};
use goblin::elf::section_header::SectionHeader;
use goblin::elf::sym::{Sym, SymIterator, Symtab};
use goblin::error::{Error, Fault};
use goblin::options::{ParseMode, ParseOptions};
use goblin::strtab::Strtab;
use goblin::{elf32, elf64, scroll};
use std::fmt::{Debug, Display};

fn is_value<T: Copy + PartialEq + Debug>() {}

fn is_copied<T: Copy + PartialEq + Default + Debug>() {}

fn is_cloned<T: Clone + PartialEq + Default + Debug>() {}

fn is_shown<T: Debug>() {}

fn is_defaulted<T: Default + Debug>() {}

fn is_eq<T: Eq>() {}

fn is_copy<T: Copy + Debug>() {}

fn is_displayed<T: Display + Debug>() {}

fn is_error<T: std::error::Error + Display + Debug>() {}

#[test]
fn derives_of_unified_records() {
    is_value::<Header>();
    is_cloned::<ProgramHeader>();
    is_cloned::<SectionHeader>();
    is_copied::<Sym>();
    is_copied::<Reloc>();
}

#[test]
fn derives_of_raw_records() {
    is_copied::<elf32::header::Header>();
    is_copied::<elf64::header::Header>();
    is_copied::<elf32::program_header::ProgramHeader>();
    is_copied::<elf64::program_header::ProgramHeader>();
    is_copied::<elf32::section_header::SectionHeader>();
    is_copied::<elf64::section_header::SectionHeader>();
    is_eq::<elf32::section_header::SectionHeader>();
    is_eq::<elf64::section_header::SectionHeader>();
    is_copied::<elf32::sym::Sym>();
    is_copied::<elf64::sym::Sym>();
    is_cloned::<elf32::reloc::Rel>();
    is_cloned::<elf64::reloc::Rel>();
    is_copied::<elf32::reloc::Rela>();
    is_copied::<elf64::reloc::Rela>();
    is_copy::<Nhdr32>();
    is_copy::<Nhdr64>();
}

#[test]
fn derives_of_other_types() {
    is_copied::<Endian>();
    is_copied::<Container>();
    is_copied::<Ctx>();
    is_copied::<ParseMode>();
    is_copied::<ParseOptions>();
    is_eq::<ParseMode>();
    is_eq::<ParseOptions>();
    is_error::<Error>();
    is_error::<scroll::Error>();
    is_displayed::<Fault>();
    is_defaulted::<Symtab>();
    is_defaulted::<RelocSection>();
    is_defaulted::<Strtab>();
    is_shown::<Note>();
    is_shown::<NoteDataIterator>();
    is_shown::<NoteIterator>();
    is_shown::<SymIterator>();
    is_shown::<RelocIterator>();
}
