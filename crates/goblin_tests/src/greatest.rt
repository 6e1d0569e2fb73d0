//! The greatest number of every field of every record, in each class and byte order: it fits, is written, and is read
//! back.
use crate::compare::returns;
use crate::container::{BIG32, BIG64, LITTLE32, LITTLE64};
use crate::note::{has_form32, has_form64};
use crate::record::{has_form, writes};
use goblin::elf::header::Header;
use goblin::elf::program_header::ProgramHeader;
use goblin::elf::reloc::{Reloc, RelocCtx};
use goblin::elf::section_header::SectionHeader;
use goblin::elf::sym::Sym;
use goblin::{elf32, elf64};
use goblin_base::container::{BE, Container, Ctx, Endian, LE};
use goblin_base::scroll::{SizeWith, TryFromCtx, TryIntoCtx};
use std::fmt::Debug;

// The greatest numbers of one, two, three, four and eight bytes.
const BYTE: u8 = 255;

const HALF: u16 = 65_535;

const THREE: usize = 16_777_215;

const WORD: u32 = 4_294_967_295;

const LONG: u64 = 18_446_744_073_709_551_615;

// As many bytes of all ones as the largest record has.
static ONES: [u8; 64] = [0xff; 64];

// Whether a raw record's bytes are so many in either byte order, all ones.
fn has_ones<
    'a,
    R: TryFromCtx<'a, Endian>
        + TryIntoCtx<Endian>
        + SizeWith<Endian>
        + Copy
        + PartialEq
        + Debug
        + Drop,
>(rt: HostRuntime, raw: R, size: usize) -> bool {
    let ones = &ONES[..size.min(64)];
    has_form(rt, raw, LE, ones) && has_form(rt, raw, BE, ones)
}

fn symbol(word: u64) -> Sym {
    Sym {
        st_name: WORD as usize,
        st_info: BYTE,
        st_other: BYTE,
        st_shndx: HALF as usize,
        st_value: word,
        st_size: word,
    }
}

// Whether this symbol fits a context, and its bytes are so many, all ones.
fn has_symbol(rt: HostRuntime, word: u64, ctx: Ctx, size: usize) -> bool {
    symbol(word).fits(ctx) && has_form(rt, symbol(word), ctx, &ONES[..size.min(64)])
}

#[test]
fn greatest_symbols(rt: HostRuntime) {
    let word = u64::from(WORD);
    assert!(rt; has_symbol(rt, word, LITTLE32, 16) && has_symbol(rt, word, BIG32, 16));
    assert!(rt; has_symbol(rt, LONG, LITTLE64, 24) && has_symbol(rt, LONG, BIG64, 24));
    assert!(rt; has_ones(rt, elf32::sym::Sym::from(symbol(word)), 16));
    assert!(rt; has_ones(rt, elf64::sym::Sym::from(symbol(LONG)), 24));
}

fn section(word: u64) -> SectionHeader {
    SectionHeader {
        sh_name: WORD as usize,
        sh_type: WORD,
        sh_flags: word,
        sh_addr: word,
        sh_offset: word,
        sh_size: word,
        sh_link: WORD,
        sh_info: WORD,
        sh_addralign: word,
        sh_entsize: word,
    }
}

fn has_section(rt: HostRuntime, word: u64, ctx: Ctx, size: usize) -> bool {
    section(word).fits(ctx) && has_form(rt, section(word), ctx, &ONES[..size.min(64)])
}

#[test]
fn greatest_section_headers(rt: HostRuntime) {
    let word = u64::from(WORD);
    assert!(rt; has_section(rt, word, LITTLE32, 40) && has_section(rt, word, BIG32, 40));
    assert!(rt; has_section(rt, LONG, LITTLE64, 64) && has_section(rt, LONG, BIG64, 64));
    let raw = elf32::section_header::SectionHeader::from(section(word));
    assert!(rt; has_ones(rt, raw, 40));
    let raw = elf64::section_header::SectionHeader::from(section(LONG));
    assert!(rt; has_ones(rt, raw, 64));
}

fn segment(word: u64) -> ProgramHeader {
    ProgramHeader {
        p_type: WORD,
        p_flags: WORD,
        p_offset: word,
        p_vaddr: word,
        p_paddr: word,
        p_filesz: word,
        p_memsz: word,
        p_align: word,
    }
}

fn has_segment(rt: HostRuntime, word: u64, ctx: Ctx, size: usize) -> bool {
    segment(word).fits(ctx) && has_form(rt, segment(word), ctx, &ONES[..size.min(64)])
}

#[test]
fn greatest_program_headers(rt: HostRuntime) {
    let word = u64::from(WORD);
    assert!(rt; has_segment(rt, word, LITTLE32, 32) && has_segment(rt, word, BIG32, 32));
    assert!(rt; has_segment(rt, LONG, LITTLE64, 56) && has_segment(rt, LONG, BIG64, 56));
    let raw = elf32::program_header::ProgramHeader::from(segment(word));
    assert!(rt; has_ones(rt, raw, 32));
    let raw = elf64::program_header::ProgramHeader::from(segment(LONG));
    assert!(rt; has_ones(rt, raw, 56));
}

// Whether a relocation with the greatest offset, symbol and type fits a context, and has these bytes.
fn has_reloc(
    rt: HostRuntime,
    class: Ctx,
    addend: Option<i64>,
    is_mips64el: bool,
    bytes: &'static [u8],
) -> bool {
    let is_long = class.container == Container::Big;
    let reloc = Reloc {
        r_offset: if is_long { LONG } else { u64::from(WORD) },
        r_addend: addend,
        r_sym: if is_long { WORD as usize } else { THREE },
        r_type: if is_long { WORD } else { u32::from(BYTE) },
    };
    let ctx = RelocCtx {
        is_rela: addend.is_some(),
        ctx: class,
        is_mips64el,
    };
    reloc.fits(ctx)
        && has_form(rt, reloc, ctx, bytes)
        && (is_mips64el || has_form(rt, reloc, (ctx.is_rela, class), bytes))
}

// The bytes of these with the greatest and the least addend: of the 32-bit class little and big endian, then of the
// other.
const MOST32: &[u8] = b"\xff\xff\xff\xff\xff\xff\xff\xff\xff\xff\xff\x7f";

const MOST32_BIG: &[u8] = b"\xff\xff\xff\xff\xff\xff\xff\xff\x7f\xff\xff\xff";

const LEAST32: &[u8] = b"\xff\xff\xff\xff\xff\xff\xff\xff\0\0\0\x80";

const LEAST32_BIG: &[u8] = b"\xff\xff\xff\xff\xff\xff\xff\xff\x80\0\0\0";

const MOST64: &[u8] =
    b"\xff\xff\xff\xff\xff\xff\xff\xff\xff\xff\xff\xff\xff\xff\xff\xff\xff\xff\xff\xff\xff\xff\xff\x7f";

const MOST64_BIG: &[u8] =
    b"\xff\xff\xff\xff\xff\xff\xff\xff\xff\xff\xff\xff\xff\xff\xff\xff\x7f\xff\xff\xff\xff\xff\xff\xff";

const LEAST64: &[u8] =
    b"\xff\xff\xff\xff\xff\xff\xff\xff\xff\xff\xff\xff\xff\xff\xff\xff\0\0\0\0\0\0\0\x80";

const LEAST64_BIG: &[u8] =
    b"\xff\xff\xff\xff\xff\xff\xff\xff\xff\xff\xff\xff\xff\xff\xff\xff\x80\0\0\0\0\0\0\0";

#[test]
fn greatest_relocations(rt: HostRuntime) {
    assert!(rt; has_reloc(rt, LITTLE32, None, false, &ONES[..8]));
    assert!(rt; has_reloc(rt, BIG32, None, false, &ONES[..8]));
    assert!(rt; has_reloc(rt, LITTLE64, None, false, &ONES[..16]));
    assert!(rt; has_reloc(rt, BIG64, None, false, &ONES[..16]));
    assert!(rt; has_reloc(rt, LITTLE64, None, true, &ONES[..16]));
    assert!(rt; has_reloc(rt, LITTLE32, Some(2_147_483_647), false, MOST32));
    assert!(rt; has_reloc(rt, BIG32, Some(2_147_483_647), false, MOST32_BIG));
    let most = Some(9_223_372_036_854_775_807);
    assert!(rt; has_reloc(rt, LITTLE64, most, false, MOST64));
    assert!(rt; has_reloc(rt, BIG64, most, false, MOST64_BIG));
    assert!(rt; has_reloc(rt, LITTLE64, most, true, MOST64));
}

#[test]
fn least_addends(rt: HostRuntime) {
    assert!(rt; has_reloc(rt, LITTLE32, Some(-2_147_483_648), false, LEAST32));
    assert!(rt; has_reloc(rt, BIG32, Some(-2_147_483_648), false, LEAST32_BIG));
    let least = Some(-9_223_372_036_854_775_808);
    assert!(rt; has_reloc(rt, LITTLE64, least, false, LEAST64));
    assert!(rt; has_reloc(rt, BIG64, least, false, LEAST64_BIG));
}

fn rel32() -> elf32::reloc::Rel {
    elf32::reloc::Rel {
        r_offset: WORD,
        r_info: WORD,
    }
}

fn rel64() -> elf64::reloc::Rel {
    elf64::reloc::Rel {
        r_offset: LONG,
        r_info: LONG,
    }
}

#[test]
fn greatest_raw_relocations(rt: HostRuntime) {
    assert!(rt; has_form(rt, rel32(), LE, &ONES[..8]) && has_form(rt, rel32(), BE, &ONES[..8]));
    assert!(rt; has_form(rt, rel64(), LE, &ONES[..16]) && has_form(rt, rel64(), BE, &ONES[..16]));
    let raw = elf32::reloc::Rela {
        r_offset: WORD,
        r_info: WORD,
        r_addend: 2_147_483_647,
    };
    assert!(rt; has_form(rt, raw, LE, MOST32) && has_form(rt, raw, BE, MOST32_BIG));
    let raw = elf64::reloc::Rela {
        r_offset: LONG,
        r_info: LONG,
        r_addend: 9_223_372_036_854_775_807,
    };
    assert!(rt; has_form(rt, raw, LE, MOST64) && has_form(rt, raw, BE, MOST64_BIG));
}

#[test]
fn greatest_note_headers(rt: HostRuntime) {
    assert!(rt; has_form32(rt, [WORD; 3], LE, &ONES) && has_form32(rt, [WORD; 3], BE, &ONES));
    assert!(rt; has_form64(rt, [LONG; 3], LE, &ONES) && has_form64(rt, [LONG; 3], BE, &ONES));
}

// The header with the greatest numbers, of a class and a byte order by their bytes.
fn header(class: u8, order: u8, word: u64) -> Header {
    Header {
        e_ident: [
            0x7f, 0x45, 0x4c, 0x46, class, order, BYTE, BYTE, BYTE, BYTE, BYTE, BYTE, BYTE, BYTE,
            BYTE, BYTE,
        ],
        e_type: HALF,
        e_machine: HALF,
        e_version: WORD,
        e_entry: word,
        e_phoff: word,
        e_shoff: word,
        e_flags: WORD,
        e_ehsize: HALF,
        e_phentsize: HALF,
        e_phnum: HALF,
        e_shentsize: HALF,
        e_shnum: HALF,
        e_shstrndx: HALF,
    }
}

// Whether it fits its class, is written as its identification and ones, and is read back from them; as a raw one too.
fn has_header(rt: HostRuntime, class: u8, order: u8) -> bool {
    let (container, word, size) = match class {
        1 => (Container::Little, u64::from(WORD), 52),
        _ => (Container::Big, LONG, 64),
    };
    let header = header(class, order, word);
    let mut bytes = ONES;
    bytes[..16].copy_from_slice(&header.e_ident);
    header.fits(container)
        && writes(rt, header, LE, &bytes[..size])
        && matches!(Header::try_from_ctx(&bytes, BE), Ok((read, len)) if read == header && len == size)
        && has_raw_header(rt, &header, &bytes)
}

fn has_raw_header(rt: HostRuntime, header: &Header, bytes: &[u8; 64]) -> bool {
    if header.e_ident[4] == 1 {
        let raw = elf32::header::Header::from(*header);
        writes(rt, raw, LE, &bytes[..52]) && returns(rt, elf32::header::Header::parse(bytes), raw)
    } else {
        let raw = elf64::header::Header::from(*header);
        writes(rt, raw, LE, bytes) && returns(rt, elf64::header::Header::parse(bytes), raw)
    }
}

#[test]
fn greatest_headers(rt: HostRuntime) {
    assert!(rt; has_header(rt, 1, 1) && has_header(rt, 1, 2));
    assert!(rt; has_header(rt, 2, 1) && has_header(rt, 2, 2));
}
