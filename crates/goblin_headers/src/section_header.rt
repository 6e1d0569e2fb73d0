//! Section headers, which describe what a file holds: System V gABI, "Section Header".
ghost use Rattle.std.specs.Prelude.{◌≡◌, ◌≢◌, ◌↔◌, ◌&&◌, codes, Err, None, Some, nat_le, true, IsTrue, IfErr, IsNone, IsOk, IfOk, IfSome, List, map, replicate, vec_capacity, slice_index, [], ◌∷◌, ◌^◌, ◌+◌, ◌<◌, ◌≤◌, ◌⊎◌, ℕ};
ghost use Rattle.goblin_headers.specs.Common.{IsBitSet, ComparesAndClones, Gives, HasFields, IsSameInEachClass, Refuses, Returns, values_of, span};
ghost use Rattle.goblin_base.specs.declared.container.Container.TheVariants as class;
ghost use Rattle.goblin_base.specs.declared.error.Fault.TheVariants.{SectionAddr, SectionOffset};
ghost use Rattle.goblin_headers.specs.Constants.{section_flag_numbers, section_index_numbers, section_type_numbers};
ghost use Rattle.goblin_headers.specs.SectionHeader.{as64, has_flag, is_executable, is_writable, section_header64, section_header_layout, section_header_of_values, section_header_size, section_header_values};
ghost use Rattle.goblin_headers.specs.SectionHeaders.{count_from, names_index, section_headers_from, section_headers_from_tested, section_headers_of, section_headers_of_tested, size_checked, size_checked_in};
ghost use Rattle.goblin_headers.specs.SectionNames.{section_flag_name, section_flag_names, section_name};

pub use crate::{section_header32, section_header64};
use goblin_base::container::{Container, Ctx, Endian};
use goblin_base::error::{Error, Fault, Result};
use goblin_base::laid_out::LaidOut;
use goblin_base::room::room;
use goblin_base::table::{Table, read_all, read_at};
use std::alloc::Global;
use std::ops::Range;

/// A section header of either class.
#[derive(Clone, Debug, Default, Drop, PartialEq)]
pub struct SectionHeader {
    /// The offset of the name in the section name string table, in bytes.
    pub sh_name: usize,
    /// The section type, one of the `SHT_` constants.
    pub sh_type: u32,
    /// The section's attributes: the `SHF_` flags.
    pub sh_flags: u64,
    /// The virtual address of the section, or 0.
    pub sh_addr: u64,
    /// The file offset of the section in bytes.
    pub sh_offset: u64,
    /// The size of the section in bytes.
    pub sh_size: u64,
    /// The index of a related section, whose meaning depends on the section type.
    pub sh_link: u32,
    /// Extra information, whose meaning depends on the section type.
    pub sh_info: u32,
    /// The alignment of the address in bytes; 0 and 1 mean none.
    pub sh_addralign: u64,
    /// The size of an entry in bytes, if the section is a table of entries of one size.
    pub sh_entsize: u64,
}

impl SectionHeader {
    /// Returns the size of a section header in this context: 40 or 64 bytes.
    pub fn size(ctx: Ctx) -> usize
        ensures { result ≡ section_header_size ctx.container }
    {
        SectionHeader::size_in(ctx)
    }

    /// Returns a header of type `SHT_PROGBITS` with the flag `SHF_ALLOC`, aligned to 512 bytes,
    /// with all other fields 0.
    pub fn new() -> Self
        ensures { result ≡ section_header_of_values (0 ∷ SHT_PROGBITS ∷ SHF_ALLOC ∷ 0 ∷ 0 ∷ 0 ∷ 0 ∷ 0 ∷ 512 ∷ 0 ∷ []) }
    {
        SectionHeader {
            sh_type: SHT_PROGBITS,
            sh_flags: u64::from(SHF_ALLOC),
            sh_addralign: 2 << 8,
            ..SectionHeader::default()
        }
    }

    /// Returns the section's range of file offsets in bytes, or `None` for a section without bytes
    /// in the file (`SHT_NOBITS`, type 8). An end past `usize::MAX` is `usize::MAX`.
    pub fn file_range(&self) -> Option<Range<usize>>
        ensures none { IsNone result ↔ (self.now.sh_type ≡ SHT_NOBITS) }
        ensures some { IfSome result (λ range. (range.start, range.end) ≡ span self.now.sh_offset self.now.sh_size) }
    {
        if self.sh_type == SHT_NOBITS {
            return None;
        }
        let start = self.sh_offset as usize;
        Some(start..start.saturating_add(self.sh_size as usize))
    }

    /// Returns the section's range of virtual addresses. An end past `usize::MAX` is `usize::MAX`.
    pub fn vm_range(&self) -> Range<usize>
        ensures { (result.start, result.end) ≡ span self.now.sh_addr self.now.sh_size }
    {
        let start = self.sh_addr as usize;
        start..start.saturating_add(self.sh_size as usize)
    }

    /// Reads the section headers of a file from an offset on. At offset 0 there are none; at any
    /// other offset this is [`SectionHeader::parse_from`].
    ///
    /// <!-- quoted: crates/goblin_uses/src/main.rt -->
    /// ```
    /// let count = usize::from(header.e_shnum);
    /// let sections = SectionHeader::parse(alloc, bytes, header.e_shoff as usize, count, ctx)?;
    ///
    /// for section in &sections {
    ///     match section.sh_type {
    /// ```
    pub fn parse(
        alloc: Global,
        bytes: &[u8],
        offset: usize,
        count: usize,
        ctx: Ctx,
    ) -> Result<Vec<SectionHeader>>
        ensures given { let expected = section_headers_of bytes.now offset count ctx in
            Gives (λ v. v.items) result expected }
        ensures tested { IfErr (section_headers_of_tested bytes.now offset count ctx)
            (λ refusal. Refuses result refusal) }
        ensures none { (offset ≡ 0) → IsOk result }
        ensures room { (offset ≡ 0) → IfOk result (λ headers. vec_capacity headers ≡ 0) }
    {
        if offset == 0 {
            return Ok(Vec::new(alloc));
        }
        SectionHeader::parse_from(alloc, bytes, offset, count, ctx)
    }

    /// Reads the section headers from an offset on, as a vector of at least one header. If `count`
    /// is 0, the number of headers is the first header's `sh_size`.
    ///
    /// # Errors
    ///
    /// In this order:
    ///
    /// - The fault of the first header, if the bytes don't hold it.
    /// - `BufferTooShort`, if that many headers don't fit into the bytes at any offset.
    /// - Out of memory. It never masks the two errors above, which are tested before the
    ///   allocation.
    /// - The fault of the first of the other headers that the bytes don't hold.
    pub fn parse_from(
        alloc: Global,
        bytes: &[u8],
        offset: usize,
        count: usize,
        ctx: Ctx,
    ) -> Result<Vec<SectionHeader>>
        ensures given { let expected = section_headers_from bytes.now offset count ctx in
            Gives (λ v. v.items) result expected }
        ensures tested { IfErr (section_headers_from_tested bytes.now offset count ctx)
            (λ refusal. Refuses result refusal) }
    {
        let asked = SectionHeader::count_from(bytes, offset, count, ctx)?;
        read_all(alloc, bytes, offset, asked, ctx, "section headers")
    }

    /// Returns the section headers of [`SectionHeader::parse`] as a lazy table, which reads each
    /// one when it is asked for. Allocates nothing.
    ///
    /// # Errors
    ///
    /// Those of [`SectionHeader::parse`] other than out of memory.
    #[inline]
    #[tactic(auto, unfolding(goblin_base::specs::Record::records))]
    pub fn table(
        bytes: &[u8],
        offset: usize,
        count: usize,
        ctx: Ctx,
    ) -> Result<Table<'_, SectionHeader, Ctx>>
        ensures { let expected = section_headers_of bytes.now offset count ctx in
            Returns (λ table. table) result expected }
    {
        if offset == 0 {
            return Ok(Table::of(&[], 0, ctx));
        }
        SectionHeader::table_from(bytes, offset, count, ctx)
    }

    // Returns the section headers of `parse_from` as a lazy table.
    fn table_from(
        bytes: &[u8],
        offset: usize,
        count: usize,
        ctx: Ctx,
    ) -> Result<Table<'_, SectionHeader, Ctx>>
        ensures { let expected = section_headers_from bytes.now offset count ctx in
            Returns (λ table. table) result expected }
    {
        let most = SectionHeader::count_from(bytes, offset, count, ctx)?;
        Table::counted(bytes, offset, most, ctx, "section headers")
    }

    /// Checks the section's size as [`SectionHeader::check_size_with_opts`] does with `permissive`
    /// false.
    pub fn check_size(&self, size: usize) -> Result<()>
        ensures { result ≡ size_checked size self.now }
    {
        self.check_size_with_opts(size, false)
    }

    /// Checks that the section lies inside a file of `size` bytes and that its addresses fit `u64`.
    /// Every section passes if `permissive` is true. So does a section without bytes in the file
    /// (`SHT_NOBITS`, or of size 0).
    ///
    /// # Errors
    ///
    /// The first of these that applies:
    ///
    /// - `SectionOffset`: the section ends past the file's end.
    /// - `SectionAddr`: `sh_addr + sh_size` doesn't fit `u64`.
    pub fn check_size_with_opts(&self, size: usize, permissive: bool) -> Result<()>
        ensures { result ≡ size_checked_in permissive size self.now }
    {
        if permissive || self.sh_type == SHT_NOBITS || self.sh_size == 0 {
            return Ok(());
        }
        let (end, overflow) = self.sh_offset.overflowing_add(self.sh_size);
        if overflow || end > size as u64 {
            return Err(Error::Malformed(Fault::SectionOffset {
                name: self.sh_name,
                size: self.sh_size,
                offset: self.sh_offset,
                overflow,
            }));
        }
        let (_, overflow) = self.sh_addr.overflowing_add(self.sh_size);
        if overflow {
            return Err(Error::Malformed(Fault::SectionAddr {
                name: self.sh_name,
                size: self.sh_size,
                addr: self.sh_addr,
                overflow,
            }));
        }
        Ok(())
    }

    /// Reports whether the section holds relocations with addends (`SHT_RELA`, type 4). It is false
    /// for relocations without addends (`SHT_REL`).
    pub fn is_relocation(&self) -> bool
        ensures { IsTrue result ↔ (self.now.sh_type ≡ 4) }
    {
        self.sh_type == SHT_RELA
    }

    /// Reports whether the section is in memory and may be executed: it has the flags 2 and 4 (`SHF_ALLOC`,
    /// `SHF_EXECINSTR`).
    pub fn is_executable(&self) -> bool
        ensures { result ≡ is_executable self.now }
    {
        self.is_alloc() && self.has_flag(SHF_EXECINSTR)
    }

    /// Reports whether the section is in memory and may be written: it has the flags 2 and 1 (`SHF_ALLOC`,
    /// `SHF_WRITE`).
    pub fn is_writable(&self) -> bool
        ensures { result ≡ is_writable self.now }
    {
        self.is_alloc() && self.has_flag(SHF_WRITE)
    }

    /// Reports whether the section is in memory while the program runs: it has the flag 2 (`SHF_ALLOC`).
    pub fn is_alloc(&self) -> bool
        ensures { result ≡ has_flag self.now 2 }
    {
        self.has_flag(SHF_ALLOC)
    }

    // Reports whether the section has at least one of these flags.
    fn has_flag(&self, flags: u32) -> bool
        ensures { result ≡ has_flag self.now flags }
    {
        self.sh_flags & u64::from(flags) != 0
    }

    /// Returns the number of headers to read from an offset on: as many as are asked for, or if
    /// `count` is 0, as many as the first header's `sh_size` says, but at least one.
    pub(crate) fn count_from(bytes: &[u8], offset: usize, count: usize, ctx: Ctx) -> Result<usize>
        ensures { result ≡ count_from bytes.now offset count ctx }
    {
        if count != 0 {
            room(bytes.len(), offset, SectionHeader::size_in(ctx))?;
            return Ok(count);
        }
        let first: SectionHeader = read_at(bytes, offset, ctx)?;
        Ok((first.sh_size as usize).max(1))
    }
}

// The raw forms.
type Raw32 = section_header32::SectionHeader;

type Raw64 = section_header64::SectionHeader;

impl LaidOut<Ctx> for SectionHeader {
    ghost use Rattle.goblin_headers.specs.SectionHeaderLaws.{section_header_laws};

    ghost layout = { λ ctx. section_header_layout ctx.container ctx.le };

    fn size_in(ctx: Ctx) -> usize {
        match ctx.container {
            Container::Little => section_header32::SIZEOF_SHDR,
            Container::Big => section_header64::SIZEOF_SHDR,
        }
    }

    #[inline]
    fn get(bytes: &[u8], ctx: Ctx) -> SectionHeader {
        // (asked here, the byte order isn't asked at each field)
        match (ctx.container, ctx.le) {
            (Container::Little, Endian::Little) => Raw32::get(bytes, Endian::Little).into(),
            (Container::Little, Endian::Big) => Raw32::get(bytes, Endian::Big).into(),
            (Container::Big, Endian::Little) => Raw64::get(bytes, Endian::Little).into(),
            (Container::Big, Endian::Big) => Raw64::get(bytes, Endian::Big).into(),
        }
    }

    fn put(self, bytes: &mut [u8], ctx: Ctx) {
        match ctx.container {
            Container::Little => Raw32::from(self).put(bytes, ctx.le),
            Container::Big => Raw64::from(self).put(bytes, ctx.le),
        }
    }

    ghost layout_laws = { λ ctx. section_header_laws ctx.container ctx.le };
}

/// Laws: a list of section headers that fit both classes is read back the same in each class and byte order. Where each
/// field of a section header lies, and of a raw one, and which low bits of it are kept. A flag is a bit of the third
/// field; of some the names. A section that may be executed or written has the flag 2, as all in memory, and 4 or 1. It
/// passes `check_size` exactly if its type is 8, its size is 0, or it lies in the file and its addresses end below
/// 2 ^ 64. Which numbers its refusal has. Which index is that of the section names. All fields of the default one are
/// 0. `==` is true exactly if all fields are equal. `clone` returns the section header, and never fails.
#[tactic(auto, using(crate::specs::SectionHeaderLaws::same_section_headers), unfolding(crate::specs::SectionNames::section_flag_name))]
pub fn laws()
    ensures same { IsSameInEachClass section_header_layout }
    ensures raw32 { HasFields ⟦<section_header32::SectionHeader as LaidOut<Endian>>⟧.layout (λ h.
        h.sh_name ∷ h.sh_type ∷ h.sh_flags ∷ h.sh_addr ∷ h.sh_offset ∷ h.sh_size ∷ h.sh_link ∷ h.sh_info
        ∷ h.sh_addralign ∷ h.sh_entsize ∷ [])
        ((0, 4) ∷ (4, 4) ∷ (8, 4) ∷ (12, 4) ∷ (16, 4) ∷ (20, 4) ∷ (24, 4) ∷ (28, 4) ∷ (32, 4) ∷ (36, 4) ∷ []) }
    ensures raw64 { HasFields ⟦<section_header64::SectionHeader as LaidOut<Endian>>⟧.layout (λ h.
        h.sh_name ∷ h.sh_type ∷ h.sh_flags ∷ h.sh_addr ∷ h.sh_offset ∷ h.sh_size ∷ h.sh_link ∷ h.sh_info
        ∷ h.sh_addralign ∷ h.sh_entsize ∷ [])
        ((0, 4) ∷ (4, 4) ∷ (8, 8) ∷ (16, 8) ∷ (24, 8) ∷ (32, 8) ∷ (40, 4) ∷ (44, 4) ∷ (48, 8) ∷ (56, 8) ∷ []) }
    ensures places { let fields : SectionHeader → List ℕ = λ h.
        h.sh_name ∷ h.sh_type ∷ h.sh_flags ∷ h.sh_addr ∷ h.sh_offset ∷ h.sh_size ∷ h.sh_link ∷ h.sh_info
        ∷ h.sh_addralign ∷ h.sh_entsize ∷ [] in
        HasFields (λ order. ⟦<SectionHeader as LaidOut<Ctx>>⟧.layout (record { container = class.Little; le = order }))
        fields ((0, 4) ∷ (4, 4) ∷ (8, 4) ∷ (12, 4) ∷ (16, 4) ∷ (20, 4) ∷ (24, 4) ∷ (28, 4) ∷ (32, 4) ∷ (36, 4) ∷ [])
        × HasFields (λ order. ⟦<SectionHeader as LaidOut<Ctx>>⟧.layout (record { container = class.Big; le = order }))
        fields ((0, 4) ∷ (4, 4) ∷ (8, 8) ∷ (16, 8) ∷ (24, 8) ∷ (32, 8) ∷ (40, 4) ∷ (44, 4) ∷ (48, 8) ∷ (56, 8) ∷ []) }
    ensures flags { (h : SectionHeader) (bit : ℕ) →
        IsTrue (has_flag h (2 ^ bit)) ↔ IsBitSet (slice_index (section_header_values h) 2) bit }
    ensures flag_names { map section_flag_name (0x10 ∷ 0x20 ∷ 0x40 ∷ 0x80 ∷ []) ≡ codes "SHF_MERGE"
        ∷ codes "SHF_STRINGS" ∷ codes "SHF_INFO_LINK" ∷ codes "SHF_LINK_ORDER" ∷ [] }
    ensures in_memory { (h : SectionHeader) → (is_executable h ≡ (has_flag h 2 && has_flag h 4))
        × (is_writable h ≡ (has_flag h 2 && has_flag h 1)) }
    ensures checked { (len : ℕ) (s : SectionHeader) → IsOk (size_checked len s) ↔ ((s.sh_type ≡ 8) ⊎ ((s.sh_size ≡ 0)
        ⊎ ((s.sh_offset + s.sh_size ≤ len) × (s.sh_addr + s.sh_size < 2 ^ 64)))) }
    ensures refused { (len : ℕ) (s : SectionHeader) → s.sh_type ≢ 8 → 0 < s.sh_size →
        (len < s.sh_offset + s.sh_size → size_checked len s ≡ Err (Error.Malformed (SectionOffset
        s.sh_name s.sh_size s.sh_offset (nat_le (2 ^ 64) (s.sh_offset + s.sh_size)))))
        × (s.sh_offset + s.sh_size ≤ len → 2 ^ 64 ≤ s.sh_addr + s.sh_size → size_checked len s
        ≡ Err (Error.Malformed (SectionAddr s.sh_name s.sh_size s.sh_addr true))) }
    ensures names_index { (index : ℕ) (first : SectionHeader) → (names_index 0xffff None ≡ 0)
        × (names_index 0xffff (Some first) ≡ first.sh_link)
        × (index ≢ 0xffff → (names_index index None ≡ index) × (names_index index (Some first) ≡ index)) }
    ensures zeros { (h : SectionHeader) → ⟦<SectionHeader as Default>⟧.is_default h
        → values_of (section_header64.fields (as64 h)) ≡ replicate 10 0 }
    ensures derived { ComparesAndClones ⟦<SectionHeader as PartialEq>⟧ ⟦<SectionHeader as Clone>⟧ }
{}

// Special section indices.
pub use crate::constants_section_header::{
    SHN_ABS, SHN_AFTER, SHN_BEFORE, SHN_COMMON, SHN_HIOS, SHN_HIPROC, SHN_HIRESERVE, SHN_LOOS,
    SHN_LOPROC, SHN_LORESERVE, SHN_UNDEF, SHN_XINDEX,
};

// Section types.
pub use crate::constants_section_header::{
    SHT_CHECKSUM, SHT_DYNAMIC, SHT_DYNSYM, SHT_FINI_ARRAY, SHT_GNU_ATTRIBUTES, SHT_GNU_HASH,
    SHT_GNU_LIBLIST, SHT_GNU_VERDEF, SHT_GNU_VERNEED, SHT_GNU_VERSYM, SHT_GROUP, SHT_HASH,
    SHT_HIOS, SHT_HIPROC, SHT_HISUNW, SHT_HIUSER, SHT_INIT_ARRAY, SHT_LOOS, SHT_LOPROC, SHT_LOSUNW,
    SHT_LOUSER, SHT_NOBITS, SHT_NOTE, SHT_NULL, SHT_NUM, SHT_PREINIT_ARRAY, SHT_PROGBITS, SHT_REL,
    SHT_RELA, SHT_SHLIB, SHT_STRTAB, SHT_SUNW_COMDAT, SHT_SUNW_MOVE, SHT_SUNW_SYMINFO, SHT_SYMTAB,
    SHT_SYMTAB_SHNDX, SHT_X86_64_UNWIND, sht_to_str,
};

// Section attributes.
pub use crate::constants_section_header::{
    SHF_ALLOC, SHF_COMPRESSED, SHF_EXCLUDE, SHF_EXECINSTR, SHF_FLAGS, SHF_GROUP, SHF_INFO_LINK,
    SHF_LINK_ORDER, SHF_MASKOS, SHF_MASKPROC, SHF_MERGE, SHF_NUM_REGULAR_FLAGS, SHF_ORDERED,
    SHF_OS_NONCONFORMING, SHF_STRINGS, SHF_TLS, SHF_WRITE, shf_to_str,
};

// A law: what the calls return that this module re-exports, under the names that they have here.
fn names(section_type: u32, flag: u32) -> (&'static str, &'static str)
    ensures section_type { result.0.now ≡ section_name section_type }
    ensures flag { result.1.now ≡ section_flag_name flag }
{
    (sht_to_str(section_type), shf_to_str(flag))
}

/// Laws: the numbers of the constants that this module re-exports, under the names that they have
/// here. A call does nothing.
pub fn constants()
    ensures indices { SHN_UNDEF ∷ SHN_LORESERVE ∷ SHN_LOPROC ∷ SHN_BEFORE ∷ SHN_AFTER ∷ SHN_HIPROC
        ∷ SHN_LOOS ∷ SHN_HIOS ∷ SHN_ABS ∷ SHN_COMMON ∷ SHN_XINDEX ∷ SHN_HIRESERVE ∷ [] ≡ section_index_numbers }
    ensures types { SHT_NULL ∷ SHT_PROGBITS ∷ SHT_SYMTAB ∷ SHT_STRTAB ∷ SHT_RELA ∷ SHT_HASH ∷ SHT_DYNAMIC ∷ SHT_NOTE
        ∷ SHT_NOBITS ∷ SHT_REL ∷ SHT_SHLIB ∷ SHT_DYNSYM ∷ SHT_INIT_ARRAY ∷ SHT_FINI_ARRAY ∷ SHT_PREINIT_ARRAY
        ∷ SHT_GROUP ∷ SHT_SYMTAB_SHNDX ∷ SHT_NUM ∷ SHT_LOOS ∷ SHT_HIOS ∷ SHT_LOPROC ∷ SHT_HIPROC ∷ SHT_LOUSER
        ∷ SHT_HIUSER ∷ SHT_GNU_ATTRIBUTES ∷ SHT_GNU_HASH ∷ SHT_GNU_LIBLIST ∷ SHT_CHECKSUM ∷ SHT_GNU_VERDEF
        ∷ SHT_GNU_VERNEED ∷ SHT_GNU_VERSYM ∷ SHT_LOSUNW ∷ SHT_SUNW_MOVE ∷ SHT_SUNW_COMDAT ∷ SHT_SUNW_SYMINFO
        ∷ SHT_HISUNW ∷ SHT_X86_64_UNWIND ∷ [] ≡ section_type_numbers }
    ensures flags { SHF_WRITE ∷ SHF_ALLOC ∷ SHF_EXECINSTR ∷ SHF_MERGE ∷ SHF_STRINGS ∷ SHF_INFO_LINK
        ∷ SHF_LINK_ORDER ∷ SHF_OS_NONCONFORMING ∷ SHF_GROUP ∷ SHF_TLS ∷ SHF_COMPRESSED ∷ SHF_ORDERED
        ∷ SHF_MASKOS ∷ SHF_MASKPROC ∷ SHF_EXCLUDE ∷ [] ≡ section_flag_numbers }
    ensures all_flags { SHF_FLAGS ≡ map (λ row. row.0) section_flag_names }
    ensures count { SHF_NUM_REGULAR_FLAGS ≡ 12 }
{}
