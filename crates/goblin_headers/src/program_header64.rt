//! Program headers of the 64-bit class: System V gABI, "Program Header" (`Elf64_Phdr`).
ghost use Rattle.std.specs.Prelude.{◌≡◌, ◌≤◌, ◌*◌, length, IfErr, IfOk, IsOk, alloc_error, replicate, [], ◌∷◌};
ghost use Rattle.goblin_headers.specs.Common.{ComparesAndClones, records_in, room_of_each, values_of, shaped, Gives, records};
ghost use Rattle.goblin_headers.specs.Constants.{segment_flag_numbers, segment_type_numbers};
ghost use Rattle.goblin_headers.specs.SegmentNames.{segment_name};
ghost use Rattle.goblin_headers.specs.ProgramHeader.{program_header64, widened64, as64};

use crate::program_header::ProgramHeader as ElfProgramHeader;
use goblin_base::container::Endian;
use goblin_base::error::{Error, Result};
use goblin_base::laid_out::LaidOut;
use goblin_base::number::{get_u32, get_u64, put_u32, put_u64};
use goblin_base::scroll::LE;
use goblin_base::table::{Table, read_in_range};
use std::alloc::Global;

/// A program header of the 64-bit class.
#[derive(Clone, Copy, Debug, Default, PartialEq)]
pub struct ProgramHeader {
    /// The segment type, one of the `PT_` constants.
    pub p_type: u32,
    /// The segment's permissions: the `PF_` flags.
    pub p_flags: u32,
    /// The file offset of the segment in bytes.
    pub p_offset: u64,
    /// The virtual address of the segment.
    pub p_vaddr: u64,
    /// The physical address of the segment, on systems where that is relevant.
    pub p_paddr: u64,
    /// The file size of the segment in bytes.
    pub p_filesz: u64,
    /// The memory size of the segment in bytes.
    pub p_memsz: u64,
    /// The alignment of address and offset in bytes; 0 and 1 mean none.
    pub p_align: u64,
}

/// The size of a program header in bytes.
pub const SIZEOF_PHDR: usize = 56;

impl ProgramHeader {
    ghost use Rattle.goblin_base.specs.declared.container.Endian.TheVariants as endian;

    /// Reads the `count` program headers from an offset on, as a vector. If `count` is 0 the vector
    /// is empty, whatever the offset.
    ///
    /// # Errors
    ///
    /// The fault of the first header that the bytes don't hold. This is tested before the
    /// allocation, so out-of-memory never masks it.
    pub fn parse(
        alloc: Global,
        bytes: &[u8],
        offset: usize,
        count: usize,
        order: Endian,
    ) -> Result<Vec<ProgramHeader>>
        ensures given { let expected =
            records_in SIZEOF_PHDR ((shaped program_header64 order).read) bytes.now offset count in
            Gives (λ v. v.items) result expected }
        ensures range { IfErr (room_of_each (length bytes.now) offset SIZEOF_PHDR count)
            (λ e. result ≡ Err (Error.Scroll e)) }
        ensures none { (count ≡ 0) → IsOk result }
    {
        read_in_range(alloc, bytes, offset, count, order)
    }

    /// Reads the first `n` program headers of the bytes as little endian. The bytes must hold `n`
    /// headers. If `n` is 0, nothing is allocated.
    ///
    /// # Errors
    ///
    /// Out of memory only.
    #[tactic(auto, using(goblin_base::specs::TableLaws::no_records))]
    pub fn from_bytes(alloc: Global, bytes: &[u8], n: usize) -> Result<Vec<ProgramHeader>>
        requires { n * SIZEOF_PHDR ≤ length bytes.now }
        ensures ok { IfOk result (λ v.
            v.items ≡ records SIZEOF_PHDR ((shaped program_header64 endian.Little).read) n bytes.now) }
        ensures err { IfErr result (λ e. e ≡ Error.Memory alloc_error) }
        ensures none { (n ≡ 0) → IsOk result }
    {
        Table::<ProgramHeader, Endian>::of(bytes, n, LE).to_vec(alloc)
    }
}

impl From<ProgramHeader> for ElfProgramHeader {
    ghost from_gives = { λ raw header. header ≡ widened64 raw };

    fn from(header: ProgramHeader) -> Self {
        ElfProgramHeader {
            p_type: header.p_type,
            p_flags: header.p_flags,
            p_offset: header.p_offset,
            p_vaddr: header.p_vaddr,
            p_paddr: header.p_paddr,
            p_filesz: header.p_filesz,
            p_memsz: header.p_memsz,
            p_align: header.p_align,
        }
    }
}

impl From<ElfProgramHeader> for ProgramHeader {
    ghost from_gives = { λ header raw. raw ≡ as64 header };

    fn from(header: ElfProgramHeader) -> Self {
        ProgramHeader {
            p_type: header.p_type,
            p_flags: header.p_flags,
            p_offset: header.p_offset,
            p_vaddr: header.p_vaddr,
            p_paddr: header.p_paddr,
            p_filesz: header.p_filesz,
            p_memsz: header.p_memsz,
            p_align: header.p_align,
        }
    }
}

impl LaidOut<Endian> for ProgramHeader {
    ghost use Rattle.goblin_headers.specs.ProgramHeaderLaws.{program_header64_laws};

    ghost layout = { shaped program_header64 };

    fn size_in(_order: Endian) -> usize {
        SIZEOF_PHDR
    }

    fn get(bytes: &[u8], order: Endian) -> ProgramHeader {
        ProgramHeader {
            p_type: get_u32(bytes, 0, order),
            p_flags: get_u32(bytes, 4, order),
            p_offset: get_u64(bytes, 8, order),
            p_vaddr: get_u64(bytes, 16, order),
            p_paddr: get_u64(bytes, 24, order),
            p_filesz: get_u64(bytes, 32, order),
            p_memsz: get_u64(bytes, 40, order),
            p_align: get_u64(bytes, 48, order),
        }
    }

    fn put(self, bytes: &mut [u8], order: Endian) {
        put_u32(bytes, 0, self.p_type, order);
        put_u32(bytes, 4, self.p_flags, order);
        put_u64(bytes, 8, self.p_offset, order);
        put_u64(bytes, 16, self.p_vaddr, order);
        put_u64(bytes, 24, self.p_paddr, order);
        put_u64(bytes, 32, self.p_filesz, order);
        put_u64(bytes, 40, self.p_memsz, order);
        put_u64(bytes, 48, self.p_align, order);
    }

    ghost layout_laws = { program_header64_laws };
}

/// Laws: all fields of the default program header are 0. `==` is true exactly if all fields are equal. `clone` returns
/// the program header, and never fails.
pub fn laws()
    ensures zeros { (h : ProgramHeader) → ⟦<ProgramHeader as Default>⟧.is_default h
        → values_of (program_header64.fields h) ≡ replicate 8 0 }
    ensures derived { ComparesAndClones ⟦<ProgramHeader as PartialEq>⟧ ⟦<ProgramHeader as Clone>⟧ }
{}

// Segment types.
pub use crate::constants_program_header::{
    PT_ARM_EXIDX, PT_DYNAMIC, PT_GNU_EH_FRAME, PT_GNU_PROPERTY, PT_GNU_RELRO, PT_GNU_STACK,
    PT_HIOS, PT_HIPROC, PT_HISUNW, PT_INTERP, PT_LOAD, PT_LOOS, PT_LOPROC, PT_LOSUNW, PT_NOTE,
    PT_NULL, PT_NUM, PT_PHDR, PT_SHLIB, PT_SUNWBSS, PT_SUNWSTACK, PT_TLS, pt_to_str,
};

// Segment permissions.
pub use crate::constants_program_header::{PF_MASKOS, PF_MASKPROC, PF_R, PF_W, PF_X};

// A law: what the calls return that this module re-exports, under the names that they have here.
fn name(segment_type: u32) -> &'static str
    ensures { result.now ≡ segment_name segment_type }
{
    pt_to_str(segment_type)
}

/// Laws: the numbers of this module's own constants and of those that it re-exports, under the
/// names that they have here. A call does nothing.
pub fn constants()
    ensures size { SIZEOF_PHDR ≡ 56 }
    ensures types { PT_NULL ∷ PT_LOAD ∷ PT_DYNAMIC ∷ PT_INTERP ∷ PT_NOTE ∷ PT_SHLIB ∷ PT_PHDR ∷ PT_TLS ∷ PT_NUM
        ∷ PT_LOOS ∷ PT_HIOS ∷ PT_LOPROC ∷ PT_HIPROC ∷ PT_GNU_EH_FRAME ∷ PT_GNU_STACK ∷ PT_GNU_RELRO ∷ PT_GNU_PROPERTY
        ∷ PT_LOSUNW ∷ PT_SUNWBSS ∷ PT_SUNWSTACK ∷ PT_HISUNW ∷ PT_ARM_EXIDX ∷ [] ≡ segment_type_numbers }
    ensures flags { PF_X ∷ PF_W ∷ PF_R ∷ PF_MASKOS ∷ PF_MASKPROC ∷ [] ≡ segment_flag_numbers }
{}
