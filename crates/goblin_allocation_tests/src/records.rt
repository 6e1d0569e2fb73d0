//! The calls that give lists of records.
use crate::answer::{Answer, listed};
use goblin::container::{Container, Ctx, Endian};
use goblin::elf::program_header::ProgramHeader as Segment;
use goblin::elf::program_header::program_header32::ProgramHeader as Segment32;
use goblin::elf::program_header::program_header64::ProgramHeader as Segment64;
use goblin::elf::reloc::{Reloc, RelocSection};
use goblin::elf::section_header::SectionHeader as Section;
use goblin::elf::section_header::section_header32::SectionHeader as Section32;
use goblin::elf::section_header::section_header64::SectionHeader as Section64;
use goblin::elf::sym::{Sym, Symtab};
use goblin::error::Result;
use goblin::scroll::LE;
use goblin_base::table::Table;
use std::alloc::Global;

// The 64-bit class, in little byte order.
pub(crate) const CTX: Ctx = Ctx {
    container: Container::Big,
    le: Endian::Little,
};

// Ten records of zeros of a size, but that the first bytes of the records are 1, 2, 3 ..
fn numbered(size: usize) -> [u8; 640] {
    let mut bytes = [0; 640];
    let mut place = 0usize;
    for number in 1..11u8 {
        if let Some(byte) = bytes.get_mut(place) {
            *byte = number;
        }
        place = place.saturating_add(size);
    }
    bytes
}

/// Lists of program headers.
pub(crate) fn segments(alloc: Global, form: &str) -> Option<Result<Answer>> {
    let small = numbered(32);
    let large = numbered(56);
    let short = [0; 64];
    let first = |header: &Segment| u64::from(header.p_type);
    let first32 = |header: &Segment32| u64::from(header.p_type);
    let first64 = |header: &Segment64| u64::from(header.p_type);
    match form {
        "parse" => Some(listed(Segment::parse(alloc, &large, 0, 9, CTX), &first)),
        "parse32" => Some(listed(Segment32::parse(alloc, &small, 0, 9, LE), &first32)),
        "parse64" => Some(listed(Segment64::parse(alloc, &large, 0, 9, LE), &first64)),
        "bytes32" => Some(listed(Segment32::from_bytes(alloc, &small, 9), &first32)),
        "bytes64" => Some(listed(Segment64::from_bytes(alloc, &large, 9), &first64)),
        "many" => Some(listed(Segment::parse(alloc, &short, 0, 2, CTX), &first)),
        "late" => Some(listed(Segment::parse(alloc, &short, 40, 1, CTX), &first)),
        "late32" => Some(listed(Segment32::parse(alloc, &short, 0, 3, LE), &first32)),
        "endless32" => Some(listed(Segment32::parse(alloc, &short, 0, usize::MAX, LE), &first32)),
        "late64" => Some(listed(Segment64::parse(alloc, &short, 40, 1, LE), &first64)),
        _ => None,
    }
}

/// Lists of section headers.
pub(crate) fn sections(alloc: Global, form: &str) -> Option<Result<Answer>> {
    let small = numbered(40);
    let large = numbered(64);
    let first = |header: &Section| header.sh_name as u64;
    let first32 = |header: &Section32| u64::from(header.sh_name);
    let first64 = |header: &Section64| u64::from(header.sh_name);
    match form {
        "parse" => Some(listed(Section::parse(alloc, &large, 64, 9, CTX), &first)),
        "from" => Some(listed(Section::parse_from(alloc, &large, 0, 9, CTX), &first)),
        "outside" => Some(listed(Section::parse_from(alloc, &large, 700, 1, CTX), &first)),
        "many" => Some(listed(Section::parse_from(alloc, &large, 0, 11, CTX), &first)),
        "late" => Some(listed(Section::parse_from(alloc, &large, 576, 2, CTX), &first)),
        "bytes32" => Some(listed(Section32::from_bytes(alloc, &small, 9), &first32)),
        "bytes64" => Some(listed(Section64::from_bytes(alloc, &large, 9), &first64)),
        _ => None,
    }
}

/// Lists of symbols and relocations.
pub(crate) fn symbols(alloc: Global, form: &str) -> Option<Result<Answer>> {
    let bytes = numbered(24);
    let first = |symbol: &Sym| symbol.st_name as u64;
    match form {
        "parse" => Some(listed(Sym::parse(alloc, &bytes, 0, 9, CTX), &first)),
        "many" => Some(listed(Sym::parse(alloc, &bytes, 0, 27, CTX), &first)),
        "vector" => Some(listed(symtab(alloc, &bytes), &first)),
        "table" => Some(listed(Table::<Sym, Ctx>::of(&bytes, 9, CTX).to_vec(alloc), &first)),
        "relocs" => Some(listed(relocs(alloc, &bytes), &|reloc: &Reloc| reloc.r_offset)),
        _ => None,
    }
}

fn symtab(alloc: Global, bytes: &[u8]) -> Result<Vec<Sym>> {
    Symtab::parse(bytes, 0, 9, CTX)?.to_vec(alloc)
}

fn relocs(alloc: Global, bytes: &[u8]) -> Result<Vec<Reloc>> {
    RelocSection::parse(bytes, 0, 216, true, CTX)?.to_vec(alloc)
}
