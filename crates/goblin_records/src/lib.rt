//! The records of ELF tables: symbols and relocations of either class, and the headers of notes.
#![tactic(auto)]

mod constants_note;
mod constants_sym;
mod fits;
pub mod note;
pub mod reloc;
pub mod reloc32;
pub mod reloc64;
pub mod sym;
pub mod sym32;
pub mod sym64;
