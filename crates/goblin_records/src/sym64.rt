//! Symbols of the 64-bit class: System V gABI, "Symbol Table" (`Elf64_Sym`).
ghost use Rattle.std.specs.Prelude.{◌≡◌, ◌↔◌, IsTrue, [], ◌∷◌};
ghost use Rattle.goblin_records.specs.Common.{ComparesAndClones, HasFields, low_bits, shaped, zero};
ghost use Rattle.goblin_records.specs.Constants.{bind_numbers, type_numbers, visibility_numbers};
ghost use Rattle.goblin_records.specs.Sym.{sym64, widened64, as64};
ghost use Rattle.goblin_records.specs.SymParts.{bind_name, bind_of, type_name, type_of, visibility_name, visibility_of, IsGlobalImport, IsImport};
ghost use Rattle.goblin_records.specs.declared.sym64.Sym.{Sym};

use crate::sym::Sym as ElfSym;
use goblin_base::container::Endian;
use goblin_base::laid_out::LaidOut;
use goblin_base::number::{get_u8, get_u16, get_u32, get_u64, put_u8, put_u16, put_u32, put_u64};

/// A symbol of the 64-bit class.
#[derive(Clone, Copy, Debug, Default, PartialEq)]
pub struct Sym {
    /// The offset of the name in the string table, in bytes; 0 if there is none.
    pub st_name: u32,
    /// The binding in the high four bits and the type in the low four.
    pub st_info: u8,
    /// The visibility in the low three bits.
    pub st_other: u8,
    /// The index of the symbol's section, or a special index.
    pub st_shndx: u16,
    /// The value, an address for most symbols.
    pub st_value: u64,
    /// The size of the symbol in bytes; 0 if it has none or an unknown one.
    pub st_size: u64,
}

/// The size of a symbol in bytes.
pub const SIZEOF_SYM: usize = 4 + 1 + 1 + 2 + 8 + 8;

impl Sym {
    /// Reports whether the symbol is imported: its binding is `STB_GLOBAL` or `STB_WEAK`, and its
    /// value is 0.
    pub fn is_import(&self) -> bool
        ensures { IsTrue result ↔ IsImport self.now.st_info self.now.st_value }
    {
        let bind = st_bind(self.st_info);
        (bind == STB_GLOBAL || bind == STB_WEAK) && self.st_value == 0
    }

    /// Reports whether the symbol is a function: its type is `STT_FUNC`.
    pub fn is_function(&self) -> bool
        ensures { IsTrue result ↔ (type_of self.now.st_info ≡ STT_FUNC) }
    {
        st_type(self.st_info) == STT_FUNC
    }
}

impl From<Sym> for ElfSym {
    ghost from_gives = { λ raw sym. sym ≡ widened64 raw };

    fn from(sym: Sym) -> Self {
        ElfSym {
            st_name: sym.st_name as usize,
            st_info: sym.st_info,
            st_other: sym.st_other,
            st_shndx: sym.st_shndx as usize,
            st_value: sym.st_value,
            st_size: sym.st_size,
        }
    }
}

/// Keeps the low bits of each field, as many as its width holds.
impl From<ElfSym> for Sym {
    ghost from_gives = { λ sym raw. raw ≡ low_bits sym64 (as64 sym) };

    fn from(sym: ElfSym) -> Self {
        Sym {
            st_name: (sym.st_name % 0x1_0000_0000) as u32,
            st_info: sym.st_info,
            st_other: sym.st_other,
            st_shndx: (sym.st_shndx % 0x1_0000) as u16,
            st_value: sym.st_value,
            st_size: sym.st_size,
        }
    }
}

impl LaidOut<Endian> for Sym {
    ghost use Rattle.goblin_records.specs.SymLaws.{sym64_laws};

    ghost layout = { shaped sym64 };

    fn size_in(_order: Endian) -> usize {
        SIZEOF_SYM
    }

    fn get(bytes: &[u8], order: Endian) -> Sym {
        Sym {
            st_name: get_u32(bytes, 0, order),
            st_info: get_u8(bytes, 4),
            st_other: get_u8(bytes, 5),
            st_shndx: get_u16(bytes, 6, order),
            st_value: get_u64(bytes, 8, order),
            st_size: get_u64(bytes, 16, order),
        }
    }

    fn put(self, bytes: &mut [u8], order: Endian) {
        put_u32(bytes, 0, self.st_name, order);
        put_u8(bytes, 4, self.st_info);
        put_u8(bytes, 5, self.st_other);
        put_u16(bytes, 6, self.st_shndx, order);
        put_u64(bytes, 8, self.st_value, order);
        put_u64(bytes, 16, self.st_size, order);
    }

    ghost layout_laws = { sym64_laws };
}

/// Laws: where each field lies, and which low bits of it are kept. All fields of the default symbol are 0. `==` is true
/// exactly if all fields are equal. `clone` returns the symbol, and never fails.
pub fn laws()
    ensures places { HasFields ⟦<Sym as LaidOut<Endian>>⟧.layout (λ s.
        s.st_name ∷ s.st_info ∷ s.st_other ∷ s.st_shndx ∷ s.st_value ∷ s.st_size ∷ [])
        ((0, 4) ∷ (4, 1) ∷ (5, 1) ∷ (6, 2) ∷ (8, 8) ∷ (16, 8) ∷ []) }
    ensures zeros { (sym : Sym) → ⟦<Sym as Default>⟧.is_default sym → sym ≡ zero sym64 }
    ensures derived { ComparesAndClones ⟦<Sym as PartialEq>⟧ ⟦<Sym as Clone>⟧ }
{}

// The constants of symbols and their names.
pub use crate::constants_sym::{
    STB_GLOBAL, STB_GNU_UNIQUE, STB_HIOS, STB_HIPROC, STB_LOCAL, STB_LOOS, STB_LOPROC, STB_NUM,
    STB_WEAK, STT_COMMON, STT_FILE, STT_FUNC, STT_GNU_IFUNC, STT_HIOS, STT_HIPROC, STT_LOOS,
    STT_LOPROC, STT_NOTYPE, STT_NUM, STT_OBJECT, STT_SECTION, STT_TLS, STV_DEFAULT, STV_ELIMINATE,
    STV_EXPORTED, STV_HIDDEN, STV_INTERNAL, STV_PROTECTED, STV_SINGLETON, bind_to_str, type_to_str,
    visibility_to_str,
};

// The parts of `st_info` and `st_other`.
pub use crate::sym::{get_type, is_import, st_bind, st_type, st_visibility};

// A law: what the calls return that this module re-exports, under the names that they have here.
fn names(number: u8) -> (&'static str, &'static str, &'static str, &'static str)
    ensures bind { result.0.now ≡ bind_name number }
    ensures of_type { result.1.now ≡ type_name number }
    ensures visibility { result.2.now ≡ visibility_name number }
    ensures of_info { result.3.now ≡ type_name (type_of number) }
{
    (
        bind_to_str(number),
        type_to_str(number),
        visibility_to_str(number),
        get_type(number),
    )
}

// A law, as above.
fn parts(info: u8, other: u8, value: u64) -> (u8, u8, u8, bool)
    ensures bind { result.0 ≡ bind_of info }
    ensures of_type { result.1 ≡ type_of info }
    ensures visibility { result.2 ≡ visibility_of other }
    ensures import { IsTrue result.3 ↔ IsGlobalImport info value }
{
    (
        st_bind(info),
        st_type(info),
        st_visibility(other),
        is_import(info, value),
    )
}

/// Laws: the numbers of this module's own constants and of those that it re-exports, under the
/// names that they have here. A call does nothing.
pub fn constants()
    ensures size { SIZEOF_SYM ≡ 24 }
    ensures bindings { STB_LOCAL ∷ STB_GLOBAL ∷ STB_WEAK ∷ STB_NUM ∷ STB_LOOS ∷ STB_GNU_UNIQUE
        ∷ STB_HIOS ∷ STB_LOPROC ∷ STB_HIPROC ∷ [] ≡ bind_numbers }
    ensures types { STT_NOTYPE ∷ STT_OBJECT ∷ STT_FUNC ∷ STT_SECTION ∷ STT_FILE ∷ STT_COMMON
        ∷ STT_TLS ∷ STT_NUM ∷ STT_LOOS ∷ STT_GNU_IFUNC ∷ STT_HIOS ∷ STT_LOPROC ∷ STT_HIPROC ∷ [] ≡ type_numbers }
    ensures visibilities { STV_DEFAULT ∷ STV_INTERNAL ∷ STV_HIDDEN ∷ STV_PROTECTED ∷ STV_EXPORTED
        ∷ STV_SINGLETON ∷ STV_ELIMINATE ∷ [] ≡ visibility_numbers }
{}
