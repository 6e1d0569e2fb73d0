//! The records of 32-bit ELF files, under the same names as in `elf64`.
ghost use Rattle.std.specs.Prelude.{◌≡◌, [], ◌∷◌};

use goblin_base::scroll::{LE, SizeWith};
pub use goblin_headers::{
    header32 as header, program_header32 as program_header, section_header32 as section_header,
};
pub use goblin_records::note::Nhdr32 as Note;
pub use goblin_records::{reloc32 as reloc, sym32 as sym};

// A law: the sizes of the records that this module re-exports, under the names that they have here.
fn sizes() -> [usize; 7]
    ensures { result ≡ 52 ∷ 32 ∷ 40 ∷ 16 ∷ 8 ∷ 12 ∷ 12 ∷ [] }
{
    [
        header::SIZEOF_EHDR,
        program_header::SIZEOF_PHDR,
        section_header::SIZEOF_SHDR,
        sym::SIZEOF_SYM,
        reloc::SIZEOF_REL,
        reloc::SIZEOF_RELA,
        Note::size_with(&LE),
    ]
}
