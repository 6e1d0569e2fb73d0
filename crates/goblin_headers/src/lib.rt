//! The headers of ELF files: System V gABI, "ELF Header", "Program Header" and "Section Header".
#![tactic(auto)]

mod constants_header;
mod constants_program_header;
mod constants_section_header;
mod fits;
pub mod header;
pub mod header32;
pub mod header64;
mod ident;
pub mod program_header;
pub mod program_header32;
pub mod program_header64;
pub mod section_header;
pub mod section_header32;
pub mod section_header64;
mod section_search;
pub mod whole_part;
