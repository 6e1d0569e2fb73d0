//! Relocations of the 64-bit class: System V gABI, "Relocation" (`Elf64_Rel` and `Elf64_Rela`).
ghost use Rattle.std.specs.Prelude.{◌≡◌, ◌<◌, ◌+◌, ◌*◌, ◌%◌, ◌^◌, ℕ};
ghost use Rattle.goblin_records.specs.Common.{ComparesAndClones, HasPlaces, low_bits, shaped, zero, signed_of};
ghost use Rattle.goblin_base.specs.declared.container.Container.TheVariants as class;
ghost use Rattle.goblin_records.specs.Reloc.{rel64, rela64, rela64_layout, rela64_low, rela_widened64, rel_widened64, rela_as64, rel_as64};
ghost use Rattle.goblin_records.specs.RelocInfo.{symbol_in, type_in, info_of, JoinsItsParts, mips64el_info, mips64el_info_inverse, Mips64elInverse, Mips64elOneToOne, Mips64elFourTimes};
ghost use Rattle.goblin_records.specs.RelocLaws.{rela64_laws, rel64_laws};

use crate::reloc::Reloc;
use goblin_base::container::Endian;
use goblin_base::laid_out::LaidOut;
use goblin_base::number::{get_i64, get_u64, put_i64, put_u64};

/// A relocation with an addend, of the 64-bit class.
#[derive(Clone, Copy, Debug, Default, PartialEq)]
pub struct Rela {
    /// Where the relocation applies: the offset from the section's start in bytes in a relocatable
    /// file, the address in any other file.
    pub r_offset: u64,
    /// The symbol in the high 32 bits and the type in the low 32.
    pub r_info: u64,
    /// The addend.
    pub r_addend: i64,
}

/// A relocation without an addend, of the 64-bit class.
#[derive(Clone, Debug, Default, Drop, PartialEq)]
pub struct Rel {
    /// Where the relocation applies: the offset from the section's start in bytes in a relocatable
    /// file, the address in any other file.
    pub r_offset: u64,
    /// The symbol in the high 32 bits and the type in the low 32.
    pub r_info: u64,
}

/// The size of a relocation with an addend, in bytes.
pub const SIZEOF_RELA: usize = 8 + 8 + 8;
/// The size of a relocation without an addend, in bytes.
pub const SIZEOF_REL: usize = 8 + 8;

/// Returns the symbol of an `r_info`: its high 32 bits.
pub fn r_sym(info: u64) -> u32
    ensures { result ≡ symbol_in class.Big info }
{
    (info >> 32) as u32
}

/// Returns the type of an `r_info`: its low 32 bits.
pub fn r_type(info: u64) -> u32
    ensures { result ≡ type_in class.Big info }
{
    (info & 0xffff_ffff) as u32
}

/// Returns the `r_info` of the low 32 bits of a symbol and of a type. The type must be below 2^32.
pub fn r_info(sym: u64, typ: u64) -> u64
    requires { typ < 2 ^ 32 }
    ensures { result ≡ info_of class.Big sym typ }
{
    (sym << 32) + typ
}

/// Returns the standard `r_info` of one that was read from a little-endian MIPS64 file. The low
/// word of such an `r_info` is the symbol; its high word is the type with its four bytes reversed.
pub fn mips64el_r_info(info: u64) -> u64
    ensures { result ≡ mips64el_info info }
{
    r_info(r_type(info) as u64, r_sym(info).swap_bytes() as u64)
}

/// Returns the `r_info` that a little-endian MIPS64 file stores for a standard one.
pub fn mips64el_r_info_inverse(info: u64) -> u64
    ensures { result ≡ mips64el_info_inverse info }
{
    r_info(r_type(info).swap_bytes() as u64, r_sym(info) as u64)
}

impl From<Rela> for Reloc {
    ghost from_gives = { λ raw reloc. reloc ≡ rela_widened64 raw };

    fn from(rela: Rela) -> Self {
        Reloc {
            r_offset: rela.r_offset,
            r_addend: Some(rela.r_addend),
            r_sym: r_sym(rela.r_info) as usize,
            r_type: r_type(rela.r_info),
        }
    }
}

/// The result has no addend.
impl From<Rel> for Reloc {
    ghost from_gives = { λ raw reloc. reloc ≡ rel_widened64 raw };

    fn from(rel: Rel) -> Self {
        Reloc {
            r_offset: rel.r_offset,
            r_addend: None,
            r_sym: r_sym(rel.r_info) as usize,
            r_type: r_type(rel.r_info),
        }
    }
}

/// Keeps the low bits of each field, as many as its width holds. A missing addend becomes 0.
impl From<Reloc> for Rela {
    ghost from_gives = { λ reloc raw. raw ≡ rela64_low (rela_as64 reloc) };

    fn from(rela: Reloc) -> Self {
        Rela {
            r_offset: rela.r_offset,
            r_info: r_info(rela.r_sym as u64, u64::from(rela.r_type)),
            r_addend: rela.r_addend.unwrap_or(0),
        }
    }
}

/// Keeps the low bits of each field, as many as its width holds. Drops the addend.
impl From<Reloc> for Rel {
    ghost from_gives = { λ reloc raw. raw ≡ low_bits rel64 (rel_as64 reloc) };

    fn from(rel: Reloc) -> Self {
        Rel {
            r_offset: rel.r_offset,
            r_info: r_info(rel.r_sym as u64, u64::from(rel.r_type)),
        }
    }
}

impl LaidOut<Endian> for Rela {
    ghost layout = { rela64_layout };

    fn size_in(_order: Endian) -> usize {
        SIZEOF_RELA
    }

    fn get(bytes: &[u8], order: Endian) -> Rela {
        Rela {
            r_offset: get_u64(bytes, 0, order),
            r_info: get_u64(bytes, 8, order),
            r_addend: get_i64(bytes, 16, order),
        }
    }

    fn put(self, bytes: &mut [u8], order: Endian) {
        put_u64(bytes, 0, self.r_offset, order);
        put_u64(bytes, 8, self.r_info, order);
        put_i64(bytes, 16, self.r_addend, order);
    }

    ghost layout_laws = { rela64_laws };
}

impl LaidOut<Endian> for Rel {
    ghost layout = { shaped rel64 };

    fn size_in(_order: Endian) -> usize {
        SIZEOF_REL
    }

    fn get(bytes: &[u8], order: Endian) -> Rel {
        Rel {
            r_offset: get_u64(bytes, 0, order),
            r_info: get_u64(bytes, 8, order),
        }
    }

    fn put(self, bytes: &mut [u8], order: Endian) {
        put_u64(bytes, 0, self.r_offset, order);
        put_u64(bytes, 8, self.r_info, order);
    }

    ghost layout_laws = { rel64_laws };
}

/// Laws of relocations: the sizes; all fields of the default ones are 0; an `r_info` has the low bits of a symbol and a
/// type, and is the one of its own symbol and type; `mips64el_r_info` and `mips64el_r_info_inverse` undo each other.
/// `==` is true exactly if all fields are equal. `clone` returns the relocation, and never fails.
#[tactic(auto, using(crate::specs::RelocInfoLaws::info_laws))]
pub fn laws()
    ensures sizes { (SIZEOF_RELA ≡ 24) × (SIZEOF_REL ≡ 16) }
    ensures rela_zeros { (rela : Rela) → ⟦<Rela as Default>⟧.is_default rela → rela ≡ zero rela64 }
    ensures rel_zeros { (rel : Rel) → ⟦<Rel as Default>⟧.is_default rel → rel ≡ zero rel64 }
    ensures rel_places { HasPlaces ⟦<Rel as LaidOut<Endian>>⟧.layout (λ n r.
        (r.r_offset ≡ n 0 8) × (r.r_info ≡ n 8 8)) }
    ensures rela_places { HasPlaces ⟦<Rela as LaidOut<Endian>>⟧.layout (λ n r.
        (r.r_offset ≡ n 0 8) × (r.r_info ≡ n 8 8) × (r.r_addend ≡ signed_of 8 (n 16 8))) }
    ensures info { (sym typ : ℕ) → info_of class.Big sym typ ≡ (sym % 2 ^ 32) * 2 ^ 32 + typ % 2 ^ 32 }
    ensures joins { JoinsItsParts class.Big }
    ensures inverse { Mips64elInverse }
    ensures one_to_one { Mips64elOneToOne }
    ensures four_times { Mips64elFourTimes }
    ensures derived_rela { ComparesAndClones ⟦<Rela as PartialEq>⟧ ⟦<Rela as Clone>⟧ }
    ensures derived_rel { ComparesAndClones ⟦<Rel as PartialEq>⟧ ⟦<Rel as Clone>⟧ }
{}
