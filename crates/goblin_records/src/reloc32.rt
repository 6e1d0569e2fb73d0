//! Relocations of the 32-bit class: System V gABI, "Relocation" (`Elf32_Rel` and `Elf32_Rela`).
ghost use Rattle.std.specs.Prelude.{◌≡◌, ◌+◌, ◌*◌, ◌%◌, ◌^◌, ℕ};
ghost use Rattle.goblin_records.specs.Common.{ComparesAndClones, HasPlaces, low_bits, shaped, zero, signed_of};
ghost use Rattle.goblin_base.specs.declared.container.Container.TheVariants as class;
ghost use Rattle.goblin_records.specs.Reloc.{rel32, rela32, rela32_layout, rela32_low, rela_widened32, rel_widened32, rela_as32, rel_as32};
ghost use Rattle.goblin_records.specs.RelocInfo.{symbol_in, type_in, info_of, JoinsItsParts};
ghost use Rattle.goblin_records.specs.RelocLaws.{rela32_laws, rel32_laws};

use crate::reloc::Reloc;
use goblin_base::container::Endian;
use goblin_base::laid_out::LaidOut;
use goblin_base::number::{get_i32, get_u32, put_i32, put_u32};

/// A relocation with an addend, of the 32-bit class.
#[derive(Clone, Copy, Debug, Default, PartialEq)]
pub struct Rela {
    /// Where the relocation applies: the offset from the section's start in bytes in a relocatable
    /// file, the address in any other file.
    pub r_offset: u32,
    /// The symbol in the high 24 bits and the type in the low 8.
    pub r_info: u32,
    /// The addend.
    pub r_addend: i32,
}

/// A relocation without an addend, of the 32-bit class.
#[derive(Clone, Debug, Default, Drop, PartialEq)]
pub struct Rel {
    /// Where the relocation applies: the offset from the section's start in bytes in a relocatable
    /// file, the address in any other file.
    pub r_offset: u32,
    /// The symbol in the high 24 bits and the type in the low 8.
    pub r_info: u32,
}

/// The size of a relocation with an addend, in bytes.
pub const SIZEOF_RELA: usize = 4 + 4 + 4;
/// The size of a relocation without an addend, in bytes.
pub const SIZEOF_REL: usize = 4 + 4;

/// Returns the symbol of an `r_info`: its high 24 bits.
pub fn r_sym(info: u32) -> u32
    ensures { result ≡ symbol_in class.Little info }
{
    info >> 8
}

/// Returns the type of an `r_info`: its low 8 bits.
pub fn r_type(info: u32) -> u32
    ensures { result ≡ type_in class.Little info }
{
    info & 0xff
}

/// Returns the `r_info` of the low 24 bits of a symbol and the low 8 bits of a type.
pub fn r_info(sym: u32, typ: u32) -> u32
    ensures { result ≡ info_of class.Little sym typ }
{
    (sym << 8) + (typ & 0xff)
}

impl From<Rela> for Reloc {
    ghost from_gives = { λ raw reloc. reloc ≡ rela_widened32 raw };

    fn from(rela: Rela) -> Self {
        Reloc {
            r_offset: u64::from(rela.r_offset),
            r_addend: Some(i64::from(rela.r_addend)),
            r_sym: r_sym(rela.r_info) as usize,
            r_type: r_type(rela.r_info),
        }
    }
}

/// The result has no addend.
impl From<Rel> for Reloc {
    ghost from_gives = { λ raw reloc. reloc ≡ rel_widened32 raw };

    fn from(rel: Rel) -> Self {
        Reloc {
            r_offset: u64::from(rel.r_offset),
            r_addend: None,
            r_sym: r_sym(rel.r_info) as usize,
            r_type: r_type(rel.r_info),
        }
    }
}

/// Keeps the low bits of each field, as many as its width holds. A missing addend becomes 0.
impl From<Reloc> for Rela {
    ghost from_gives = { λ reloc raw. raw ≡ rela32_low (rela_as32 reloc) };

    fn from(rela: Reloc) -> Self {
        let addend = rela.r_addend.unwrap_or(0).cast_unsigned();
        Rela {
            r_offset: (rela.r_offset % 0x1_0000_0000) as u32,
            r_info: r_info((rela.r_sym % 0x1_0000_0000) as u32, rela.r_type),
            r_addend: ((addend % 0x1_0000_0000) as u32).cast_signed(),
        }
    }
}

/// Keeps the low bits of each field, as many as its width holds. Drops the addend.
impl From<Reloc> for Rel {
    ghost from_gives = { λ reloc raw. raw ≡ low_bits rel32 (rel_as32 reloc) };

    fn from(rel: Reloc) -> Self {
        Rel {
            r_offset: (rel.r_offset % 0x1_0000_0000) as u32,
            r_info: r_info((rel.r_sym % 0x1_0000_0000) as u32, rel.r_type),
        }
    }
}

impl LaidOut<Endian> for Rela {
    ghost layout = { rela32_layout };

    fn size_in(_order: Endian) -> usize {
        SIZEOF_RELA
    }

    fn get(bytes: &[u8], order: Endian) -> Rela {
        Rela {
            r_offset: get_u32(bytes, 0, order),
            r_info: get_u32(bytes, 4, order),
            r_addend: get_i32(bytes, 8, order),
        }
    }

    fn put(self, bytes: &mut [u8], order: Endian) {
        put_u32(bytes, 0, self.r_offset, order);
        put_u32(bytes, 4, self.r_info, order);
        put_i32(bytes, 8, self.r_addend, order);
    }

    ghost layout_laws = { rela32_laws };
}

impl LaidOut<Endian> for Rel {
    ghost layout = { shaped rel32 };

    fn size_in(_order: Endian) -> usize {
        SIZEOF_REL
    }

    fn get(bytes: &[u8], order: Endian) -> Rel {
        Rel {
            r_offset: get_u32(bytes, 0, order),
            r_info: get_u32(bytes, 4, order),
        }
    }

    fn put(self, bytes: &mut [u8], order: Endian) {
        put_u32(bytes, 0, self.r_offset, order);
        put_u32(bytes, 4, self.r_info, order);
    }

    ghost layout_laws = { rel32_laws };
}

/// Laws of relocations: the sizes; all fields of the default ones are 0; an `r_info` has the low bits of a symbol and a
/// type, and is the one of its own symbol and type. `==` is true exactly if all fields are equal. `clone` returns the
/// relocation, and never fails.
#[tactic(auto, using(crate::specs::RelocInfoLaws::info_laws))]
pub fn laws()
    ensures sizes { (SIZEOF_RELA ≡ 12) × (SIZEOF_REL ≡ 8) }
    ensures rela_zeros { (rela : Rela) → ⟦<Rela as Default>⟧.is_default rela → rela ≡ zero rela32 }
    ensures rel_zeros { (rel : Rel) → ⟦<Rel as Default>⟧.is_default rel → rel ≡ zero rel32 }
    ensures rel_places { HasPlaces ⟦<Rel as LaidOut<Endian>>⟧.layout (λ n r.
        (r.r_offset ≡ n 0 4) × (r.r_info ≡ n 4 4)) }
    ensures rela_places { HasPlaces ⟦<Rela as LaidOut<Endian>>⟧.layout (λ n r.
        (r.r_offset ≡ n 0 4) × (r.r_info ≡ n 4 4) × (r.r_addend ≡ signed_of 4 (n 8 4))) }
    ensures info { (sym typ : ℕ) → info_of class.Little sym typ ≡ (sym % 2 ^ 24) * 2 ^ 8 + typ % 2 ^ 8 }
    ensures joins { JoinsItsParts class.Little }
    ensures derived_rela { ComparesAndClones ⟦<Rela as PartialEq>⟧ ⟦<Rela as Clone>⟧ }
    ensures derived_rel { ComparesAndClones ⟦<Rel as PartialEq>⟧ ⟦<Rel as Clone>⟧ }
{}
