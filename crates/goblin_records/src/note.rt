//! Note headers of both classes, and the types of notes: System V gABI, "Note Section".
ghost use Rattle.std.specs.Prelude.{◌≡◌, [], ◌∷◌};
ghost use Rattle.goblin_records.specs.Common.{Clones, HasFields, shaped};
ghost use Rattle.goblin_records.specs.Nhdr.{nhdr32, nhdr64};
ghost use Rattle.goblin_records.specs.NhdrLaws.{nhdr32_laws, nhdr64_laws};

use goblin_base::container::Endian;
use goblin_base::laid_out::LaidOut;
use goblin_base::number::{get_u32, get_u64, put_u32, put_u64};

/// The header of a note, in words of 4 bytes. Notes of both classes are read with it.
#[derive(Clone, Copy, Debug)]
pub struct Nhdr32 {
    /// The size of the name in bytes, including its closing zero byte; 0 if there is no name.
    pub n_namesz: u32,
    /// The size of the descriptor in bytes.
    pub n_descsz: u32,
    /// The type, whose meaning depends on the name.
    pub n_type: u32,
}

// The size of an `Nhdr32` in bytes.
const SIZEOF_NHDR32: usize = 4 + 4 + 4;

impl LaidOut<Endian> for Nhdr32 {
    ghost layout = { shaped nhdr32 };

    fn size_in(_order: Endian) -> usize {
        SIZEOF_NHDR32
    }

    fn get(bytes: &[u8], order: Endian) -> Nhdr32 {
        Nhdr32 {
            n_namesz: get_u32(bytes, 0, order),
            n_descsz: get_u32(bytes, 4, order),
            n_type: get_u32(bytes, 8, order),
        }
    }

    fn put(self, bytes: &mut [u8], order: Endian) {
        put_u32(bytes, 0, self.n_namesz, order);
        put_u32(bytes, 4, self.n_descsz, order);
        put_u32(bytes, 8, self.n_type, order);
    }

    ghost layout_laws = { nhdr32_laws };
}

/// The header of a note, in words of 8 bytes.
#[derive(Clone, Copy, Debug)]
pub struct Nhdr64 {
    /// The size of the name in bytes, including its closing zero byte; 0 if there is no name.
    pub n_namesz: u64,
    /// The size of the descriptor in bytes.
    pub n_descsz: u64,
    /// The type, whose meaning depends on the name.
    pub n_type: u64,
}

// The size of an `Nhdr64` in bytes.
const SIZEOF_NHDR64: usize = 8 + 8 + 8;

impl LaidOut<Endian> for Nhdr64 {
    ghost layout = { shaped nhdr64 };

    fn size_in(_order: Endian) -> usize {
        SIZEOF_NHDR64
    }

    fn get(bytes: &[u8], order: Endian) -> Nhdr64 {
        Nhdr64 {
            n_namesz: get_u64(bytes, 0, order),
            n_descsz: get_u64(bytes, 8, order),
            n_type: get_u64(bytes, 16, order),
        }
    }

    fn put(self, bytes: &mut [u8], order: Endian) {
        put_u64(bytes, 0, self.n_namesz, order);
        put_u64(bytes, 8, self.n_descsz, order);
        put_u64(bytes, 16, self.n_type, order);
    }

    ghost layout_laws = { nhdr64_laws };
}

/// Laws of note headers: their sizes, where each field lies, and which low bits of it are kept. `clone` returns the
/// header, and never fails.
pub fn laws()
    ensures sizes { (SIZEOF_NHDR32 ≡ 12) × (SIZEOF_NHDR64 ≡ 24) }
    ensures places32 { HasFields ⟦<Nhdr32 as LaidOut<Endian>>⟧.layout (λ h.
        h.n_namesz ∷ h.n_descsz ∷ h.n_type ∷ []) ((0, 4) ∷ (4, 4) ∷ (8, 4) ∷ []) }
    ensures places64 { HasFields ⟦<Nhdr64 as LaidOut<Endian>>⟧.layout (λ h.
        h.n_namesz ∷ h.n_descsz ∷ h.n_type ∷ []) ((0, 8) ∷ (8, 8) ∷ (16, 8) ∷ []) }
    ensures derived32 { Clones ⟦<Nhdr32 as Clone>⟧ }
    ensures derived64 { Clones ⟦<Nhdr64 as Clone>⟧ }
{}

// The types of notes, and the numbers of systems.
pub use crate::constants_note::{
    ELF_NOTE_ABI, ELF_NOTE_OS_FREEBSD, ELF_NOTE_OS_GNU, ELF_NOTE_OS_LINUX, ELF_NOTE_OS_SOLARIS2,
    NT_FILE, NT_GNU_ABI_TAG, NT_GNU_BUILD_ID, NT_GNU_GOLD_VERSION, NT_GNU_HWCAP,
    NT_GNU_PROPERTY_TYPE_0, NT_PRPSINFO, NT_PRSTATUS, NT_SIGINFO,
};

/// Laws: the numbers of this module's constants.
pub fn constants()
    ensures gnu { NT_GNU_ABI_TAG ∷ ELF_NOTE_ABI ∷ NT_GNU_HWCAP ∷ NT_GNU_BUILD_ID ∷
        NT_GNU_GOLD_VERSION ∷ NT_GNU_PROPERTY_TYPE_0 ∷ [] ≡ 1 ∷ 1 ∷ 2 ∷ 3 ∷ 4 ∷ 5 ∷ [] }
    ensures systems { ELF_NOTE_OS_LINUX ∷ ELF_NOTE_OS_GNU ∷ ELF_NOTE_OS_SOLARIS2 ∷ ELF_NOTE_OS_FREEBSD ∷ []
        ≡ 0 ∷ 1 ∷ 2 ∷ 3 ∷ [] }
    ensures core { NT_PRSTATUS ∷ NT_PRPSINFO ∷ NT_SIGINFO ∷ NT_FILE ∷ [] ≡ 1 ∷ 3 ∷ 0x5349_4749 ∷ 0x4649_4c45 ∷ [] }
{}
