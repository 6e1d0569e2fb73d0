//! The records of 64-bit ELF files, under the same names as in `elf32`.
ghost use Rattle.std.specs.Prelude.{◌≡◌, [], ◌∷◌};

use goblin_base::scroll::{LE, SizeWith};
pub use goblin_headers::{
    header64 as header, program_header64 as program_header, section_header64 as section_header,
};
pub use goblin_records::note::Nhdr64 as Note;
pub use goblin_records::{reloc64 as reloc, sym64 as sym};

// A law: the sizes of the records that this module re-exports, under the names that they have here.
fn sizes() -> [usize; 7]
    ensures { result ≡ 64 ∷ 56 ∷ 64 ∷ 24 ∷ 16 ∷ 24 ∷ 24 ∷ [] }
{
    [
        header::SIZEOF_EHDR,
        program_header::SIZEOF_PHDR,
        section_header::SIZEOF_SHDR,
        sym::SIZEOF_SYM,
        reloc::SIZEOF_REL,
        reloc::SIZEOF_RELA,
        Note::size_with(&LE),
    ]
}
