//! Program headers, which describe how a file is loaded: System V gABI, "Program Header".
ghost use Rattle.std.specs.Prelude.{◌≡◌, ◌↔◌, ◌+◌, ◌<◌, ◌≤◌, IsTrue, IfErr, IsOk, find, replicate, [], ◌∷◌, ℕ};
ghost use Rattle.goblin_headers.specs.Common.{IsBitSet, ComparesAndClones, Gives, HasFields, IsSameInEachClass, Refuses, Returns, values_of, span};
ghost use Rattle.std.specs.Int.Bits.{bit_or};
ghost use Rattle.goblin_base.specs.declared.container.Container.TheVariants as class;
ghost use Rattle.goblin_headers.specs.Constants.{segment_flag_numbers, segment_type_numbers};
ghost use Rattle.goblin_headers.specs.SegmentNames.{segment_name};
ghost use Rattle.goblin_headers.specs.ProgramHeader.{as64, program_header64, program_header_layout, program_header_size};
ghost use Rattle.goblin_headers.specs.ProgramHeaders.{loaded_from, loads, new_program_header, program_headers_from, program_headers_tested};

pub use crate::{program_header32, program_header64};
use goblin_base::container::{Container, Ctx, Endian};
use goblin_base::error::Result;
use goblin_base::laid_out::LaidOut;
use goblin_base::table::{Table, read_all};
use std::alloc::Global;
use std::ops::Range;

/// A program header of either class.
#[derive(Clone, Debug, Default, Drop, PartialEq)]
pub struct ProgramHeader {
    /// The segment type, one of the `PT_` constants.
    pub p_type: u32,
    /// The segment's permissions: the `PF_` flags.
    pub p_flags: u32,
    /// The file offset of the segment in bytes.
    pub p_offset: u64,
    /// The virtual address of the segment.
    pub p_vaddr: u64,
    /// The physical address of the segment, on systems where that is relevant.
    pub p_paddr: u64,
    /// The file size of the segment in bytes.
    pub p_filesz: u64,
    /// The memory size of the segment in bytes.
    pub p_memsz: u64,
    /// The alignment of address and offset in bytes; 0 and 1 mean none.
    pub p_align: u64,
}

impl ProgramHeader {
    /// Returns the size of a program header in this context: 32 or 56 bytes.
    pub fn size(ctx: Ctx) -> usize
        ensures { result ≡ program_header_size ctx.container }
    {
        ProgramHeader::size_in(ctx)
    }

    /// Returns a header of a loadable segment, aligned to 2 MiB, with all other fields 0.
    pub fn new() -> Self
        ensures { result ≡ new_program_header }
    {
        ProgramHeader {
            p_type: PT_LOAD,
            p_align: 2 << 20,
            ..ProgramHeader::default()
        }
    }

    /// Returns the segment's range of file offsets in bytes. An end past `usize::MAX` is
    /// `usize::MAX`.
    pub fn file_range(&self) -> Range<usize>
        ensures { (result.start, result.end) ≡ span self.now.p_offset self.now.p_filesz }
    {
        self.p_offset as usize..self.p_offset.saturating_add(self.p_filesz) as usize
    }

    /// Returns the segment's range of virtual addresses. An end past `usize::MAX` is `usize::MAX`.
    pub fn vm_range(&self) -> Range<usize>
        ensures { (result.start, result.end) ≡ span self.now.p_vaddr self.now.p_memsz }
    {
        self.p_vaddr as usize..self.p_vaddr.saturating_add(self.p_memsz) as usize
    }

    /// Sets the permission to execute the segment.
    pub fn executable(&mut self)
        ensures { self.new ≡ record self.old { p_flags = bit_or self.old.p_flags PF_X } }
    {
        self.p_flags |= PF_X;
    }

    /// Sets the permission to write the segment.
    pub fn write(&mut self)
        ensures { self.new ≡ record self.old { p_flags = bit_or self.old.p_flags PF_W } }
    {
        self.p_flags |= PF_W;
    }

    /// Sets the permission to read the segment.
    pub fn read(&mut self)
        ensures { self.new ≡ record self.old { p_flags = bit_or self.old.p_flags PF_R } }
    {
        self.p_flags |= PF_R;
    }

    /// Reports whether the segment may be executed: bit 0 of its flags.
    pub fn is_executable(&self) -> bool
        ensures { IsTrue result ↔ IsBitSet self.now.p_flags 0 }
    {
        self.p_flags & PF_X != 0
    }

    /// Reports whether the segment may be read: bit 2 of its flags.
    pub fn is_read(&self) -> bool
        ensures { IsTrue result ↔ IsBitSet self.now.p_flags 2 }
    {
        self.p_flags & PF_R != 0
    }

    /// Reports whether the segment may be written: bit 1 of its flags.
    pub fn is_write(&self) -> bool
        ensures { IsTrue result ↔ IsBitSet self.now.p_flags 1 }
    {
        self.p_flags & PF_W != 0
    }

    /// Reads the `count` program headers from an offset on, as a vector. If `count` is 0 the vector
    /// is empty, whatever the offset, and nothing is allocated.
    ///
    /// # Errors
    ///
    /// `BufferTooShort` if `count` headers don't fit into the bytes at any offset. This is tested
    /// before the allocation, so out-of-memory never masks it. Then memory for all headers is
    /// allocated at once. Then the fault of the first header that the bytes don't hold.
    pub fn parse(
        alloc: Global,
        bytes: &[u8],
        offset: usize,
        count: usize,
        ctx: Ctx,
    ) -> Result<Vec<ProgramHeader>>
        ensures given { let expected = program_headers_from bytes.now offset count ctx in
            Gives (λ v. v.items) result expected }
        ensures tested { IfErr (program_headers_tested bytes.now count ctx) (λ refusal. Refuses result refusal) }
        ensures none { (count ≡ 0) → IsOk result }
    {
        read_all(alloc, bytes, offset, count, ctx, "program headers")
    }

    /// Returns the program headers of [`ProgramHeader::parse`] as a lazy table, which reads each
    /// one when it is asked for. Allocates nothing.
    ///
    /// # Errors
    ///
    /// Those of [`ProgramHeader::parse`] other than out of memory.
    #[inline]
    pub fn table(
        bytes: &[u8],
        offset: usize,
        count: usize,
        ctx: Ctx,
    ) -> Result<Table<'_, ProgramHeader, Ctx>>
        ensures { let expected = program_headers_from bytes.now offset count ctx in
            Returns (λ table. table) result expected }
    {
        Table::counted(bytes, offset, count, ctx, "program headers")
    }

    // Reports whether the segment loads the byte at an address from the file.
    fn loads(&self, address: u64) -> bool
        ensures { result ≡ loads address self.now }
    {
        self.p_type == PT_LOAD && self.p_vaddr <= address && address - self.p_vaddr < self.p_filesz
    }

    // Returns the first segment that loads the byte at an address from the file.
    fn find_loaded(segments: &Table<'_, ProgramHeader, Ctx>, address: u64) -> Option<ProgramHeader>
        ensures { result ≡ find (loads address) segments.now }
    {
        segments.iter().find(|segment| segment.loads(address))
    }

    /// Returns the file offset of the byte that is loaded at an address, or `None` if no segment loads
    /// a byte of the file there. The first loadable segment that has the address counts. An offset past
    /// `usize::MAX` is `usize::MAX`.
    pub fn loaded_from(segments: &Table<'_, ProgramHeader, Ctx>, address: u64) -> Option<usize>
        ensures { result ≡ loaded_from address segments.now }
    {
        let segment = ProgramHeader::find_loaded(segments, address)?;
        let place = address.saturating_sub(segment.p_vaddr);
        Some(segment.p_offset.saturating_add(place) as usize)
    }
}

// The raw forms.
type Raw32 = program_header32::ProgramHeader;

type Raw64 = program_header64::ProgramHeader;

impl LaidOut<Ctx> for ProgramHeader {
    ghost use Rattle.goblin_headers.specs.ProgramHeaderLaws.{program_header_laws};

    ghost layout = { λ ctx. program_header_layout ctx.container ctx.le };

    fn size_in(ctx: Ctx) -> usize {
        match ctx.container {
            Container::Little => program_header32::SIZEOF_PHDR,
            Container::Big => program_header64::SIZEOF_PHDR,
        }
    }

    #[inline]
    fn get(bytes: &[u8], ctx: Ctx) -> ProgramHeader {
        // (asked here, the byte order isn't asked at each field)
        match (ctx.container, ctx.le) {
            (Container::Little, Endian::Little) => Raw32::get(bytes, Endian::Little).into(),
            (Container::Little, Endian::Big) => Raw32::get(bytes, Endian::Big).into(),
            (Container::Big, Endian::Little) => Raw64::get(bytes, Endian::Little).into(),
            (Container::Big, Endian::Big) => Raw64::get(bytes, Endian::Big).into(),
        }
    }

    fn put(self, bytes: &mut [u8], ctx: Ctx) {
        match ctx.container {
            Container::Little => Raw32::from(self).put(bytes, ctx.le),
            Container::Big => Raw64::from(self).put(bytes, ctx.le),
        }
    }

    ghost layout_laws = { λ ctx. program_header_laws ctx.container ctx.le };
}

/// Laws: a list of program headers that fit both classes is read back the same in each class and byte order. Where each
/// field of a program header lies, and of a raw one, and which low bits of it are kept. A segment loads an address
/// exactly if it is of type 1 and the address is of one of its bytes in the file. A new one is of type 1 and aligned to
/// 2,097,152 bytes. All fields of the default one are 0.
/// `==` is true exactly if all fields are equal. `clone` returns the program header, and never fails.
#[tactic(auto, using(crate::specs::ProgramHeaderLaws::same_program_headers))]
pub fn laws()
    ensures same { IsSameInEachClass program_header_layout }
    ensures raw32 { HasFields ⟦<program_header32::ProgramHeader as LaidOut<Endian>>⟧.layout (λ h.
        h.p_type ∷ h.p_offset ∷ h.p_vaddr ∷ h.p_paddr ∷ h.p_filesz ∷ h.p_memsz ∷ h.p_flags ∷ h.p_align ∷ [])
        ((0, 4) ∷ (4, 4) ∷ (8, 4) ∷ (12, 4) ∷ (16, 4) ∷ (20, 4) ∷ (24, 4) ∷ (28, 4) ∷ []) }
    ensures raw64 { HasFields ⟦<program_header64::ProgramHeader as LaidOut<Endian>>⟧.layout (λ h.
        h.p_type ∷ h.p_flags ∷ h.p_offset ∷ h.p_vaddr ∷ h.p_paddr ∷ h.p_filesz ∷ h.p_memsz ∷ h.p_align ∷ [])
        ((0, 4) ∷ (4, 4) ∷ (8, 8) ∷ (16, 8) ∷ (24, 8) ∷ (32, 8) ∷ (40, 8) ∷ (48, 8) ∷ []) }
    ensures places32 { HasFields
        (λ order. ⟦<ProgramHeader as LaidOut<Ctx>>⟧.layout (record { container = class.Little; le = order }))
        (λ h. h.p_type ∷ h.p_offset ∷ h.p_vaddr ∷ h.p_paddr ∷ h.p_filesz ∷ h.p_memsz ∷ h.p_flags ∷ h.p_align ∷ [])
        ((0, 4) ∷ (4, 4) ∷ (8, 4) ∷ (12, 4) ∷ (16, 4) ∷ (20, 4) ∷ (24, 4) ∷ (28, 4) ∷ []) }
    ensures places64 { HasFields
        (λ order. ⟦<ProgramHeader as LaidOut<Ctx>>⟧.layout (record { container = class.Big; le = order }))
        (λ h. h.p_type ∷ h.p_flags ∷ h.p_offset ∷ h.p_vaddr ∷ h.p_paddr ∷ h.p_filesz ∷ h.p_memsz ∷ h.p_align ∷ [])
        ((0, 4) ∷ (4, 4) ∷ (8, 8) ∷ (16, 8) ∷ (24, 8) ∷ (32, 8) ∷ (40, 8) ∷ (48, 8) ∷ []) }
    ensures loads { (address : ℕ) (s : ProgramHeader) → IsTrue (loads address s)
        ↔ ((s.p_type ≡ 1) × (s.p_vaddr ≤ address) × (address < s.p_vaddr + s.p_filesz)) }
    ensures new { values_of (program_header64.fields (as64 new_program_header))
        ≡ 1 ∷ 0 ∷ 0 ∷ 0 ∷ 0 ∷ 0 ∷ 0 ∷ 2097152 ∷ [] }
    ensures zeros { (h : ProgramHeader) → ⟦<ProgramHeader as Default>⟧.is_default h
        → values_of (program_header64.fields (as64 h)) ≡ replicate 8 0 }
    ensures derived { ComparesAndClones ⟦<ProgramHeader as PartialEq>⟧ ⟦<ProgramHeader as Clone>⟧ }
{}

// Segment types.
pub use crate::constants_program_header::{
    PT_ARM_EXIDX, PT_DYNAMIC, PT_GNU_EH_FRAME, PT_GNU_PROPERTY, PT_GNU_RELRO, PT_GNU_STACK,
    PT_HIOS, PT_HIPROC, PT_HISUNW, PT_INTERP, PT_LOAD, PT_LOOS, PT_LOPROC, PT_LOSUNW, PT_NOTE,
    PT_NULL, PT_NUM, PT_PHDR, PT_SHLIB, PT_SUNWBSS, PT_SUNWSTACK, PT_TLS, pt_to_str,
};

// Segment permissions.
pub use crate::constants_program_header::{PF_MASKOS, PF_MASKPROC, PF_R, PF_W, PF_X};

// A law: what the calls return that this module re-exports, under the names that they have here.
fn name(segment_type: u32) -> &'static str
    ensures { result.now ≡ segment_name segment_type }
{
    pt_to_str(segment_type)
}

/// Laws: the numbers of the constants that this module re-exports, under the names that they have
/// here. A call does nothing.
pub fn constants()
    ensures types { PT_NULL ∷ PT_LOAD ∷ PT_DYNAMIC ∷ PT_INTERP ∷ PT_NOTE ∷ PT_SHLIB ∷ PT_PHDR ∷ PT_TLS ∷ PT_NUM
        ∷ PT_LOOS ∷ PT_HIOS ∷ PT_LOPROC ∷ PT_HIPROC ∷ PT_GNU_EH_FRAME ∷ PT_GNU_STACK ∷ PT_GNU_RELRO ∷ PT_GNU_PROPERTY
        ∷ PT_LOSUNW ∷ PT_SUNWBSS ∷ PT_SUNWSTACK ∷ PT_HISUNW ∷ PT_ARM_EXIDX ∷ [] ≡ segment_type_numbers }
    ensures flags { PF_X ∷ PF_W ∷ PF_R ∷ PF_MASKOS ∷ PF_MASKPROC ∷ [] ≡ segment_flag_numbers }
{}
