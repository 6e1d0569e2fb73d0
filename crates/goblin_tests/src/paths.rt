//! What goblin's paths lead to: each public item is reached once by its path, with its type.
use crate::compare::{differs, is, returns};
use crate::container::{BIG32, LITTLE32, LITTLE64};
use goblin::container::{BE, CONTAINER, Container, Ctx, Endian, LE};
use goblin::error::{Error, Fault};
use goblin::options::{ParseMode, ParseOptions};
use goblin::scroll::{IntoCtx, SizeWith, TryFromCtx, TryIntoCtx};
use goblin::strtab::Strtab;
use goblin::{elf, elf32, elf64, scroll};

// Whether a type's records take so many bytes by the path that it was named by.
fn takes<R: SizeWith<Endian>>(rt: HostRuntime, size: usize) -> bool {
    is(rt, R::size_with(&LE), size)
}

// Whether zeros are read as a value, of which so many bytes are taken.
fn reads<'a, R: TryFromCtx<'a, C> + Drop, C>(
    rt: HostRuntime,
    zeros: &'a [u8],
    ctx: C,
    size: usize,
) -> bool {
    match R::try_from_ctx(zeros, ctx) {
        Ok((_, counted)) => is(rt, counted, size),
        Err(e) => differs(rt, &e, &size),
    }
}

#[test]
fn leads_to_the_records_of_each_class(rt: HostRuntime) {
    assert!(rt; takes::<elf32::program_header::ProgramHeader>(rt, 32));
    assert!(rt; takes::<elf64::program_header::ProgramHeader>(rt, 56));
    assert!(rt; takes::<elf32::section_header::SectionHeader>(rt, 40));
    assert!(rt; takes::<elf64::section_header::SectionHeader>(rt, 64));
    assert!(rt; takes::<elf32::sym::Sym>(rt, 16));
    assert!(rt; takes::<elf64::sym::Sym>(rt, 24));
    assert!(rt; takes::<elf32::reloc::Rel>(rt, 8) && takes::<elf32::reloc::Rela>(rt, 12));
    assert!(rt; takes::<elf64::reloc::Rel>(rt, 16) && takes::<elf64::reloc::Rela>(rt, 24));
    assert!(rt; takes::<elf32::Note>(rt, 12) && takes::<elf64::Note>(rt, 24));
}

#[test]
fn leads_to_the_records_below_each_module(rt: HostRuntime) {
    assert!(rt; takes::<elf::program_header::program_header32::ProgramHeader>(rt, 32));
    assert!(rt; takes::<elf::program_header::program_header64::ProgramHeader>(rt, 56));
    assert!(rt; takes::<elf::section_header::section_header32::SectionHeader>(rt, 40));
    assert!(rt; takes::<elf::section_header::section_header64::SectionHeader>(rt, 64));
    assert!(rt; takes::<elf::sym::sym32::Sym>(rt, 16));
    assert!(rt; takes::<elf::sym::sym64::Sym>(rt, 24));
    assert!(rt; takes::<elf::reloc::reloc32::Rel>(rt, 8));
    assert!(rt; takes::<elf::reloc::reloc32::Rela>(rt, 12));
    assert!(rt; takes::<elf::reloc::reloc64::Rel>(rt, 16));
    assert!(rt; takes::<elf::reloc::reloc64::Rela>(rt, 24));
    assert!(rt; takes::<elf::note::Nhdr32>(rt, 12) && takes::<elf::note::Nhdr64>(rt, 24));
}

#[test]
fn leads_to_the_records_of_either_class(rt: HostRuntime) {
    let zeros = [0u8; 64];
    let ctx = LITTLE64;
    assert!(rt; reads::<elf::program_header::ProgramHeader, Ctx>(rt, &zeros, ctx, 56));
    assert!(rt; reads::<elf::section_header::SectionHeader, Ctx>(rt, &zeros, ctx, 64));
    assert!(rt; reads::<elf::sym::Sym, Ctx>(rt, &zeros, ctx, 24));
    assert!(rt; reads::<elf::reloc::Reloc, (bool, Ctx)>(rt, &zeros, (true, ctx), 24));
    assert!(rt; reads::<elf::note::Note, (usize, Ctx)>(rt, &zeros, (4, ctx), 12));
    let pair = elf::reloc::RelocCtx {
        is_rela: false,
        ctx,
        is_mips64el: true,
    };
    assert!(rt; reads::<elf::reloc::Reloc, elf::reloc::RelocCtx>(rt, &zeros, pair, 16));
}

// Whether a call returns this by its path below `elf`, `elf32` and `elf64`.
macro_rules! is_on_each_path {
    ($rt:expr; $module:ident::$call:ident($($given:expr),*) => $expected:expr) => {
        is($rt, elf::$module::$call($($given),*), $expected)
            && is($rt, elf32::$module::$call($($given),*), $expected)
            && is($rt, elf64::$module::$call($($given),*), $expected)
    };
}

#[test]
fn leads_to_the_names_of_headers(rt: HostRuntime) {
    assert!(rt; is_on_each_path!(rt; header::class_to_str(2) => "ELF64"));
    assert!(rt; is_on_each_path!(rt; header::et_to_str(2) => "EXEC"));
    assert!(rt; is_on_each_path!(rt; header::machine_to_str(62) => "X86_64"));
}

#[test]
fn leads_to_the_names_of_segments_and_sections(rt: HostRuntime) {
    assert!(rt; is_on_each_path!(rt; program_header::pt_to_str(1) => "PT_LOAD"));
    assert!(rt; is_on_each_path!(rt; section_header::sht_to_str(4) => "SHT_RELA"));
    assert!(rt; is_on_each_path!(rt; section_header::shf_to_str(4) => "SHF_EXECINSTR"));
}

#[test]
fn leads_to_the_names_of_symbols(rt: HostRuntime) {
    assert!(rt; is_on_each_path!(rt; sym::bind_to_str(2) => "WEAK"));
    assert!(rt; is_on_each_path!(rt; sym::type_to_str(3) => "SECTION"));
    assert!(rt; is_on_each_path!(rt; sym::visibility_to_str(1) => "INTERNAL"));
    assert!(rt; is_on_each_path!(rt; sym::get_type(0x23) => "SECTION"));
}

#[test]
fn leads_to_the_parts_of_symbols(rt: HostRuntime) {
    assert!(rt; is_on_each_path!(rt; sym::st_bind(0x23) => 2));
    assert!(rt; is_on_each_path!(rt; sym::st_type(0x23) => 3));
    assert!(rt; is_on_each_path!(rt; sym::st_visibility(0x1e) => 6));
    assert!(rt; is_on_each_path!(rt; sym::is_import(0x12, 0) => true));
}

#[test]
fn leads_to_the_parts_of_relocations(rt: HostRuntime) {
    let info = 0x123456ff;
    let parts = (elf32::reloc::r_sym(info), elf32::reloc::r_type(info));
    assert!(rt; is(rt, parts, (0x123456, 0xff)));
    assert!(rt; is(rt, elf32::reloc::r_info(0x123456, 0x1ff), info));
    assert!(rt; is(rt, elf::reloc::reloc32::r_sym(info), 0x123456));
    let info = 0x2A_0000_0007;
    let parts = (elf64::reloc::r_sym(info), elf64::reloc::r_type(info));
    assert!(rt; is(rt, parts, (42, 7)));
    assert!(rt; is(rt, elf64::reloc::r_info(42, 7), info));
    assert!(rt; is(rt, elf::reloc::reloc64::r_sym(info), 42));
    let (info, turned) = (0x0102030400000005, 0x0000000504030201);
    assert!(rt; is(rt, elf64::reloc::mips64el_r_info(info), turned));
    assert!(rt; is(rt, elf64::reloc::mips64el_r_info_inverse(turned), info));
}

#[test]
fn leads_to_the_tables(rt: HostRuntime) {
    let relocs = elf::reloc::RelocSection::parse(&[0u8; 8], 0, 8, false, BIG32);
    assert!(rt; matches!(relocs, Ok(relocs) if relocs.len() == 1));
    let table = elf::sym::Symtab::parse(&[0u8; 16], 0, 1, BIG32);
    assert!(rt; matches!(table, Ok(table) if table.len() == 1));
    assert!(rt; is(rt, Strtab::new(b"a\0bc", 0).len(), 4));
    assert!(rt; !elf::reloc::is_mips64el(&elf::header::Header::new(BIG32)));
}

#[test]
fn leads_to_what_all_modules_share(rt: HostRuntime) {
    let orders = [LE, scroll::LE, BE, scroll::BE];
    assert!(rt;
        is(
            rt,
            orders,
            [Endian::Little, Endian::Little, Endian::Big, Endian::Big]
        )
    );
    assert!(rt; is(rt, CONTAINER, Container::Big));
    assert!(rt; ParseOptions::permissive().parse_mode == ParseMode::Permissive);
    let small = elf::header::Header::try_from_ctx(&[], LE);
    assert!(rt; matches!(small, Err(Error::Malformed(Fault::TooSmall))));
    let none = elf32::Note::try_from_ctx(&[], LE);
    assert!(rt; matches!(none, Err(Error::Scroll(scroll::Error::BadOffset(0)))));
}

#[test]
fn leads_to_the_traits_of_writing(rt: HostRuntime) {
    let mut bytes = [1u8; 16];
    let written = elf::sym::Sym::default().try_into_ctx(&mut bytes, LITTLE32);
    assert!(rt; returns(rt, written, 16) && is(rt, bytes, [0u8; 16]));
    let mut bytes = [1u8; 40];
    elf::section_header::SectionHeader::default().into_ctx(&mut bytes, LITTLE32);
    assert!(rt; is(rt, bytes, [0u8; 40]));
}

#[test]
fn leads_to_the_headers_of_each_class(rt: HostRuntime) {
    let sizes = [
        elf32::header::SIZEOF_EHDR,
        elf64::header::SIZEOF_EHDR,
        elf::header::header32::SIZEOF_EHDR,
        elf::header::header64::SIZEOF_EHDR,
        elf::header::Header::size(LITTLE32),
    ];
    assert!(rt; is(rt, sizes, [52, 64, 52, 64, 52]));
    let classes = (elf32::header::ELFCLASS, elf64::header::ELFCLASS);
    assert!(rt; is(rt, classes, (1, 2)));
    let header = elf32::header::Header::from_bytes(&[0u8; 52]);
    assert!(rt; is(rt, header.e_entry, 0u32));
    let header = elf64::header::Header::from_bytes(&[0u8; 64]);
    assert!(rt; is(rt, header.e_entry, 0u64));
}
