//! Section headers of the 64-bit class: System V gABI, "Section Header" (`Elf64_Shdr`).
ghost use Rattle.std.specs.Prelude.{◌≡◌, ◌≤◌, ◌*◌, length, map, IfErr, IfOk, IsOk, alloc_error, replicate, [], ◌∷◌};
ghost use Rattle.goblin_headers.specs.Common.{ComparesAndClones, values_of, low_bits, shaped, records};
ghost use Rattle.goblin_headers.specs.Constants.{section_flag_numbers, section_index_numbers, section_type_numbers};
ghost use Rattle.goblin_headers.specs.SectionHeader.{section_header64, widened64, as64};
ghost use Rattle.goblin_headers.specs.SectionNames.{section_flag_name, section_flag_names, section_name};

use crate::section_header::SectionHeader as ElfSectionHeader;
use goblin_base::container::Endian;
use goblin_base::error::{Error, Result};
use goblin_base::laid_out::LaidOut;
use goblin_base::number::{get_u32, get_u64, put_u32, put_u64};
use goblin_base::scroll::LE;
use goblin_base::table::Table;
use std::alloc::Global;

/// A section header of the 64-bit class.
#[derive(Clone, Copy, Debug, Default, Eq, PartialEq)]
pub struct SectionHeader {
    /// The offset of the name in the section name string table, in bytes.
    pub sh_name: u32,
    /// The section type, one of the `SHT_` constants.
    pub sh_type: u32,
    /// The section's attributes: the `SHF_` flags.
    pub sh_flags: u64,
    /// The virtual address of the section, or 0.
    pub sh_addr: u64,
    /// The file offset of the section in bytes.
    pub sh_offset: u64,
    /// The size of the section in bytes.
    pub sh_size: u64,
    /// The index of a related section, whose meaning depends on the section type.
    pub sh_link: u32,
    /// Extra information, whose meaning depends on the section type.
    pub sh_info: u32,
    /// The alignment of the address in bytes; 0 and 1 mean none.
    pub sh_addralign: u64,
    /// The size of an entry in bytes, if the section is a table of entries of one size.
    pub sh_entsize: u64,
}

/// The size of a section header in bytes.
pub const SIZEOF_SHDR: usize = 64;

impl SectionHeader {
    ghost use Rattle.goblin_base.specs.declared.container.Endian.TheVariants as endian;

    /// Reads the first `n` section headers of the bytes as little endian. The bytes must hold `n`
    /// headers. If `n` is 0, nothing is allocated.
    ///
    /// # Errors
    ///
    /// Out of memory only.
    #[tactic(auto, using(goblin_base::specs::TableLaws::no_records))]
    pub fn from_bytes(alloc: Global, bytes: &[u8], n: usize) -> Result<Vec<SectionHeader>>
        requires { n * SIZEOF_SHDR ≤ length bytes.now }
        ensures ok { IfOk result (λ v.
            v.items ≡ records SIZEOF_SHDR ((shaped section_header64 endian.Little).read) n bytes.now) }
        ensures err { IfErr result (λ e. e ≡ Error.Memory alloc_error) }
        ensures none { (n ≡ 0) → IsOk result }
    {
        Table::<SectionHeader, Endian>::of(bytes, n, LE).to_vec(alloc)
    }
}

impl From<SectionHeader> for ElfSectionHeader {
    ghost from_gives = { λ raw header. header ≡ widened64 raw };

    fn from(header: SectionHeader) -> Self {
        ElfSectionHeader {
            sh_name: header.sh_name as usize,
            sh_type: header.sh_type,
            sh_flags: header.sh_flags,
            sh_addr: header.sh_addr,
            sh_offset: header.sh_offset,
            sh_size: header.sh_size,
            sh_link: header.sh_link,
            sh_info: header.sh_info,
            sh_addralign: header.sh_addralign,
            sh_entsize: header.sh_entsize,
        }
    }
}

/// Keeps the low 32 bits of the name's offset.
impl From<ElfSectionHeader> for SectionHeader {
    ghost from_gives = { λ header raw. raw ≡ low_bits section_header64 (as64 header) };

    fn from(header: ElfSectionHeader) -> Self {
        SectionHeader {
            sh_name: (header.sh_name % 0x1_0000_0000) as u32,
            sh_type: header.sh_type,
            sh_flags: header.sh_flags,
            sh_addr: header.sh_addr,
            sh_offset: header.sh_offset,
            sh_size: header.sh_size,
            sh_link: header.sh_link,
            sh_info: header.sh_info,
            sh_addralign: header.sh_addralign,
            sh_entsize: header.sh_entsize,
        }
    }
}

impl LaidOut<Endian> for SectionHeader {
    ghost use Rattle.goblin_headers.specs.SectionHeaderLaws.{section_header64_laws};

    ghost layout = { shaped section_header64 };

    fn size_in(_order: Endian) -> usize {
        SIZEOF_SHDR
    }

    fn get(bytes: &[u8], order: Endian) -> SectionHeader {
        SectionHeader {
            sh_name: get_u32(bytes, 0, order),
            sh_type: get_u32(bytes, 4, order),
            sh_flags: get_u64(bytes, 8, order),
            sh_addr: get_u64(bytes, 16, order),
            sh_offset: get_u64(bytes, 24, order),
            sh_size: get_u64(bytes, 32, order),
            sh_link: get_u32(bytes, 40, order),
            sh_info: get_u32(bytes, 44, order),
            sh_addralign: get_u64(bytes, 48, order),
            sh_entsize: get_u64(bytes, 56, order),
        }
    }

    fn put(self, bytes: &mut [u8], order: Endian) {
        put_u32(bytes, 0, self.sh_name, order);
        put_u32(bytes, 4, self.sh_type, order);
        put_u64(bytes, 8, self.sh_flags, order);
        put_u64(bytes, 16, self.sh_addr, order);
        put_u64(bytes, 24, self.sh_offset, order);
        put_u64(bytes, 32, self.sh_size, order);
        put_u32(bytes, 40, self.sh_link, order);
        put_u32(bytes, 44, self.sh_info, order);
        put_u64(bytes, 48, self.sh_addralign, order);
        put_u64(bytes, 56, self.sh_entsize, order);
    }

    ghost layout_laws = { section_header64_laws };
}

/// Laws: all fields of the default section header are 0. `==` is true exactly if all fields are equal. `clone` returns
/// the section header, and never fails.
pub fn laws()
    ensures zeros { (h : SectionHeader) → ⟦<SectionHeader as Default>⟧.is_default h
        → values_of (section_header64.fields h) ≡ replicate 10 0 }
    ensures derived { ComparesAndClones ⟦<SectionHeader as PartialEq>⟧ ⟦<SectionHeader as Clone>⟧ }
{}

// Special section indices.
pub use crate::constants_section_header::{
    SHN_ABS, SHN_AFTER, SHN_BEFORE, SHN_COMMON, SHN_HIOS, SHN_HIPROC, SHN_HIRESERVE, SHN_LOOS,
    SHN_LOPROC, SHN_LORESERVE, SHN_UNDEF, SHN_XINDEX,
};

// Section types.
pub use crate::constants_section_header::{
    SHT_CHECKSUM, SHT_DYNAMIC, SHT_DYNSYM, SHT_FINI_ARRAY, SHT_GNU_ATTRIBUTES, SHT_GNU_HASH,
    SHT_GNU_LIBLIST, SHT_GNU_VERDEF, SHT_GNU_VERNEED, SHT_GNU_VERSYM, SHT_GROUP, SHT_HASH,
    SHT_HIOS, SHT_HIPROC, SHT_HISUNW, SHT_HIUSER, SHT_INIT_ARRAY, SHT_LOOS, SHT_LOPROC, SHT_LOSUNW,
    SHT_LOUSER, SHT_NOBITS, SHT_NOTE, SHT_NULL, SHT_NUM, SHT_PREINIT_ARRAY, SHT_PROGBITS, SHT_REL,
    SHT_RELA, SHT_SHLIB, SHT_STRTAB, SHT_SUNW_COMDAT, SHT_SUNW_MOVE, SHT_SUNW_SYMINFO, SHT_SYMTAB,
    SHT_SYMTAB_SHNDX, SHT_X86_64_UNWIND, sht_to_str,
};

// Section attributes.
pub use crate::constants_section_header::{
    SHF_ALLOC, SHF_COMPRESSED, SHF_EXCLUDE, SHF_EXECINSTR, SHF_FLAGS, SHF_GROUP, SHF_INFO_LINK,
    SHF_LINK_ORDER, SHF_MASKOS, SHF_MASKPROC, SHF_MERGE, SHF_NUM_REGULAR_FLAGS, SHF_ORDERED,
    SHF_OS_NONCONFORMING, SHF_STRINGS, SHF_TLS, SHF_WRITE, shf_to_str,
};

// A law: what the calls return that this module re-exports, under the names that they have here.
fn names(section_type: u32, flag: u32) -> (&'static str, &'static str)
    ensures section_type { result.0.now ≡ section_name section_type }
    ensures flag { result.1.now ≡ section_flag_name flag }
{
    (sht_to_str(section_type), shf_to_str(flag))
}

/// Laws: the numbers of this module's own constants and of those that it re-exports, under the
/// names that they have here. A call does nothing.
pub fn constants()
    ensures size { SIZEOF_SHDR ≡ 64 }
    ensures indices { SHN_UNDEF ∷ SHN_LORESERVE ∷ SHN_LOPROC ∷ SHN_BEFORE ∷ SHN_AFTER ∷ SHN_HIPROC
        ∷ SHN_LOOS ∷ SHN_HIOS ∷ SHN_ABS ∷ SHN_COMMON ∷ SHN_XINDEX ∷ SHN_HIRESERVE ∷ [] ≡ section_index_numbers }
    ensures types { SHT_NULL ∷ SHT_PROGBITS ∷ SHT_SYMTAB ∷ SHT_STRTAB ∷ SHT_RELA ∷ SHT_HASH ∷ SHT_DYNAMIC ∷ SHT_NOTE
        ∷ SHT_NOBITS ∷ SHT_REL ∷ SHT_SHLIB ∷ SHT_DYNSYM ∷ SHT_INIT_ARRAY ∷ SHT_FINI_ARRAY ∷ SHT_PREINIT_ARRAY
        ∷ SHT_GROUP ∷ SHT_SYMTAB_SHNDX ∷ SHT_NUM ∷ SHT_LOOS ∷ SHT_HIOS ∷ SHT_LOPROC ∷ SHT_HIPROC ∷ SHT_LOUSER
        ∷ SHT_HIUSER ∷ SHT_GNU_ATTRIBUTES ∷ SHT_GNU_HASH ∷ SHT_GNU_LIBLIST ∷ SHT_CHECKSUM ∷ SHT_GNU_VERDEF
        ∷ SHT_GNU_VERNEED ∷ SHT_GNU_VERSYM ∷ SHT_LOSUNW ∷ SHT_SUNW_MOVE ∷ SHT_SUNW_COMDAT ∷ SHT_SUNW_SYMINFO
        ∷ SHT_HISUNW ∷ SHT_X86_64_UNWIND ∷ [] ≡ section_type_numbers }
    ensures flags { SHF_WRITE ∷ SHF_ALLOC ∷ SHF_EXECINSTR ∷ SHF_MERGE ∷ SHF_STRINGS ∷ SHF_INFO_LINK
        ∷ SHF_LINK_ORDER ∷ SHF_OS_NONCONFORMING ∷ SHF_GROUP ∷ SHF_TLS ∷ SHF_COMPRESSED ∷ SHF_ORDERED
        ∷ SHF_MASKOS ∷ SHF_MASKPROC ∷ SHF_EXCLUDE ∷ [] ≡ section_flag_numbers }
    ensures all_flags { SHF_FLAGS ≡ map (λ row. row.0) section_flag_names }
    ensures count { SHF_NUM_REGULAR_FLAGS ≡ 12 }
{}
