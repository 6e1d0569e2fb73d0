//! The records of ELF files of either class. The 32-bit and 64-bit forms of a record are in modules
//! below its own, as `header::header32`.
pub use goblin_headers::{header, program_header, section_header, whole_part};

pub mod note;
pub mod reloc;
pub mod sym;
