//! Cases with their results: relocations in their forms, the parts of an `r_info`, and relocation sections.
use crate::compare::{
    differs, each_row, has_written, holds, is, reports, returns, returns_list, rows,
};
use crate::container::{BIG32, BIG64, LITTLE32, LITTLE64};
use crate::record::{counts, has_form, is_apart, reads, refuses, with_each_default, writes};
use crate::table::yields;
use goblin::elf::header::{EI_CLASS, EM_MIPS, EM_MIPS_RS3_LE, Header};
use goblin::elf::reloc::{RelocIterator, RelocSection, is_mips64el, is_mips64el_in};
use goblin::{elf, elf32, elf64};
use goblin_base::container::{BE, Ctx, LE};
use goblin_base::error::Result;
use goblin_base::scroll::{IntoCtx, SizeWith, TryFromCtx};
use goblin_records::reloc::{Reloc, RelocCtx};
use goblin_records::{reloc32, reloc64};

// A little endian relocation of the 32-bit class, with an addend.
const RELA_LITTLE: &[u8] = b"\x10\0\0\0\x01\x02\0\0\xfc\xff\xff\xff";

// The same, big endian.
const RELA_BIG: &[u8] = b"\0\0\0\x10\0\0\x02\x01\xff\xff\xff\xfc";

// The same of the 64-bit class, little endian and big endian.
const RELA64_LITTLE: &[u8] =
    b"\x10\0\0\0\0\0\0\0\x01\0\0\0\x02\0\0\0\xfc\xff\xff\xff\xff\xff\xff\xff";

const RELA64_BIG: &[u8] = b"\0\0\0\0\0\0\0\x10\0\0\0\x02\0\0\0\x01\xff\xff\xff\xff\xff\xff\xff\xfc";

// That relocation.
const CALL: Reloc = Reloc {
    r_offset: 16,
    r_addend: Some(-4),
    r_sym: 2,
    r_type: 1,
};

#[test]
fn compares_relocations(rt: HostRuntime) {
    let others = with_each_default!(CALL; r_offset r_addend r_sym r_type);
    assert!(rt; is_apart(rt, &CALL, &others));
    let ctx = context(true, BIG32, true);
    let others = with_each_default!(ctx; is_rela ctx is_mips64el);
    assert!(rt; is_apart(rt, &ctx, &others));
}

#[test]
fn compares_raw_relocations(rt: HostRuntime) {
    let rela = reloc32::Rela::from(CALL);
    let others = with_each_default!(rela; r_offset r_info r_addend);
    assert!(rt; is_apart(rt, &rela, &others));
    let rela = reloc64::Rela::from(CALL);
    let others = with_each_default!(rela; r_offset r_info r_addend);
    assert!(rt; is_apart(rt, &rela, &others));
}

#[test]
fn compares_raw_relocations_without_addends(rt: HostRuntime) {
    let rel = reloc32::Rel::from(CALL);
    let others = with_each_default!(reloc32::Rel::from(CALL); r_offset r_info);
    assert!(rt; is_apart(rt, &rel, &others));
    let rel = reloc64::Rel::from(CALL);
    let others = with_each_default!(reloc64::Rel::from(CALL); r_offset r_info);
    assert!(rt; is_apart(rt, &rel, &others));
}

// A little endian relocation of the 32-bit class, without an addend.
const REL: &[u8] = b"\0\0\0\0\x01\x02\0\0";

// That of the 64-bit class, big endian, without its addend.
const REL64_BIG: &[u8] = b"\0\0\0\0\0\0\0\x10\0\0\0\x02\0\0\0\x01";

// One of a little endian MIPS64 file.
const REL_MIPS: &[u8] = b"\xf0\x50\x01\0\0\0\0\0\0\0\0\0\0\0\x12\x03";

// The context of a class and an order, with addends or without, with the pair or not.
fn context(is_rela: bool, ctx: Ctx, is_mips64el: bool) -> RelocCtx {
    RelocCtx {
        is_rela,
        ctx,
        is_mips64el,
    }
}

// A relocation without an addend.
fn without_addend(r_offset: u64, r_sym: usize, r_type: u32) -> Reloc {
    Reloc {
        r_offset,
        r_addend: None,
        r_sym,
        r_type,
    }
}

// Relocations with addends in each class and order.
const WITH_ADDENDS: &[(Ctx, &[u8])] = &[
    (LITTLE32, RELA_LITTLE),
    (BIG32, RELA_BIG),
    (LITTLE64, RELA64_LITTLE),
    (BIG64, RELA64_BIG),
];

#[test]
fn reads_and_writes_a_relocation_of_each_class_and_order(rt: HostRuntime) {
    assert!(rt; each_row!(rt; row in WITH_ADDENDS => has_form(rt, CALL, (true, row.0), row.1)));
    let none = Reloc::try_from_ctx(b"", (true, LITTLE32));
    assert!(rt; reports(rt, none, "bad offset 0"));
    let mut buffer = [0xaa; 13];
    CALL.into_ctx(&mut buffer, (true, LITTLE32));
    assert!(rt; has_written(rt, &buffer, RELA_LITTLE));
}

// Whether a relocation is read from these bytes and written as them, through the pair or not. That is asked for by its
// context, and by a flag of its own.
fn passes(rt: HostRuntime, reloc: Reloc, ctx: Ctx, is_pair: bool, bytes: &'static [u8]) -> bool {
    let mut buffer = [0xaa; 25];
    let is_rela = reloc.r_addend.is_some();
    let written = reloc.write_inner(&mut buffer, (is_rela, ctx), is_pair);
    returns(rt, written, bytes.len())
        && has_written(rt, &buffer, bytes)
        && has_form(rt, reloc, context(is_rela, ctx, is_pair), bytes)
}

#[test]
fn goes_through_the_pair_where_asked(rt: HostRuntime) {
    assert!(rt; passes(rt, without_addend(0, 2, 1), LITTLE32, false, REL));
    assert!(rt; passes(rt, without_addend(0, 1, 33554432), LITTLE32, true, REL));
    let whole = without_addend(0x150f0, 51511296, 0);
    assert!(rt; passes(rt, whole, LITTLE64, false, REL_MIPS));
    let pair = without_addend(0x150f0, 0, 0x1203);
    assert!(rt; passes(rt, pair, LITTLE64, true, REL_MIPS));
    let mut pair = without_addend(16, 1, 33554432);
    assert!(rt; passes(rt, pair, BIG32, true, b"\0\0\0\x10\0\0\x02\x01"));
    assert!(rt; passes(rt, pair, BIG64, true, REL64_BIG));
    pair.r_addend = CALL.r_addend;
    assert!(rt; each_row!(rt; row in WITH_ADDENDS => passes(rt, pair, row.0, true, row.1)));
}

#[test]
fn reads_raw_relocations(rt: HostRuntime) {
    let rela32 = reloc32::Rela {
        r_offset: 16,
        r_info: 0x201,
        r_addend: -4,
    };
    assert!(rt; reads(rt, RELA_LITTLE, LE, &rela32) && reads(rt, RELA_BIG, BE, &rela32));
    let rel32 = reloc32::Rel {
        r_offset: 0,
        r_info: 0x201,
    };
    assert!(rt; reads(rt, REL, LE, &rel32));
    let rela64 = reloc64::Rela {
        r_offset: 16,
        r_info: 0x2_0000_0001,
        r_addend: -4,
    };
    assert!(rt; reads(rt, RELA64_LITTLE, LE, &rela64) && reads(rt, RELA64_BIG, BE, &rela64));
    let rel64 = reloc64::Rel {
        r_offset: 0x150f0,
        r_info: 0x0312_0000_0000_0000,
    };
    assert!(rt; reads(rt, REL_MIPS, LE, &rel64));
}

#[test]
fn writes_the_low_bits_and_a_missing_addend_as_0(rt: HostRuntime) {
    let bytes = b"\x10\0\0\0\xff\x56\x34\x12\0\0\0\0";
    let reloc = without_addend(16, 0x123456, 0x1ff);
    assert!(rt; writes(rt, reloc, (true, LITTLE32), bytes));
    let mut wide = without_addend(0x1_0000_0010, 0x100_0002, 0x101);
    wide.r_addend = Some(0xffff_fffc);
    assert!(rt; writes(rt, wide, (true, LITTLE32), RELA_LITTLE));
    let wide = without_addend(16, 0x1_0000_0002, 1);
    assert!(rt; writes(rt, wide, (false, BIG64), REL64_BIG));
}

#[test]
fn changes_nothing_where_a_relocation_has_no_room(rt: HostRuntime) {
    assert!(rt; refuses(rt, CALL, (true, LITTLE32), 7, "type is too big (12) for 7"));
    let pair = context(false, BIG64, true);
    assert!(rt; refuses(rt, CALL, pair, 7, "type is too big (16) for 7"));
    let raw = reloc32::Rel::from(CALL);
    assert!(rt; refuses(rt, raw, LE, 7, "type is too big (8) for 7"));
    let raw = reloc64::Rela::from(CALL);
    assert!(rt; refuses(rt, raw, BE, 7, "type is too big (24) for 7"));
}

#[test]
fn converts_to_raw_relocations_and_back(rt: HostRuntime) {
    let with = [
        Reloc::from(reloc32::Rela::from(CALL)),
        Reloc::from(reloc64::Rela::from(CALL)),
    ];
    assert!(rt; is(rt, with, [CALL; 2]));
    let bare = without_addend(16, 2, 1);
    let without = [
        Reloc::from(reloc32::Rel::from(CALL)),
        Reloc::from(reloc64::Rel::from(CALL)),
    ];
    assert!(rt; is(rt, without, [bare; 2]));
    assert!(rt; is(rt, reloc32::Rela::from(bare).r_addend, 0));
    assert!(rt; is(rt, reloc64::Rela::from(bare).r_addend, 0));
}

#[test]
fn splits_and_joins_an_info(rt: HostRuntime) {
    let info = 0x123456ff;
    let parts = (reloc32::r_sym(info), reloc32::r_type(info));
    assert!(rt; is(rt, parts, (0x123456, 0xff)));
    assert!(rt; is(rt, reloc32::r_info(0x5123456, 0x1ff), info));
    let info = 0x0000002A00000007;
    assert!(rt; is(rt, (reloc64::r_sym(info), reloc64::r_type(info)), (42, 7)));
    assert!(rt; is(rt, reloc64::r_info(0x5_0000_002a, 7), info));
}

// Infos, and what they are turned to.
static TURNED: [(u64, u64); 4] = [
    (0x0102030400000005, 0x0000000504030201),
    (0x0312000000000000, 0x1203),
    (0x0312000000000027, 0x0000002700001203),
    (0, 0),
];

#[test]
fn turns_an_info_of_mips64el(rt: HostRuntime) {
    let turn = reloc64::mips64el_r_info;
    assert!(rt; each_row!(rt; row in TURNED => is(rt, reloc64::mips64el_r_info(row.0), row.1)));
    let info = 0x0102030400000005;
    assert!(rt; is(rt, turn(turn(turn(turn(info)))), info));
    let back = reloc64::mips64el_r_info_inverse(0x0000000504030201);
    assert!(rt; is(rt, back, info));
}

#[test]
fn has_a_size_for_each_class_with_addends_and_without(rt: HostRuntime) {
    let sizes = [
        Reloc::size(false, LITTLE32),
        Reloc::size(true, LITTLE32),
        Reloc::size(false, LITTLE64),
        Reloc::size(true, LITTLE64),
        Reloc::size_with(&(true, LITTLE64)),
        reloc32::Rela::size_with(&BE),
    ];
    assert!(rt; is(rt, sizes, [8, 12, 16, 24, 24, 12]));
}

// 64 zero bytes, and after them a relocation of a little endian MIPS64 file.
const MIPS: &[u8] = b"\0\0\0\0\0\0\0\0\0\0\0\0\0\0\0\0\0\0\0\0\0\0\0\0\0\0\0\0\0\0\0\0\
\0\0\0\0\0\0\0\0\0\0\0\0\0\0\0\0\0\0\0\0\0\0\0\0\0\0\0\0\0\0\0\0\
\xf0\x50\x01\0\0\0\0\0\0\0\0\0\0\0\x12\x03";

// The relocation after the zeros, with the pair or without, as a section of its own.
fn after_zeros(bytes: &[u8], is_mips64el: bool) -> Result<RelocSection<'_>> {
    RelocSection::parse_inner(bytes, 64, 16, false, LITTLE64, is_mips64el)
}

// How many bytes there are, the offset and the size of a section of relocations with addends of the 64-bit class, and
// how many it has, or why it is refused.
static COUNTED: [(usize, usize, usize, std::result::Result<usize, &str>); 10] = rows![
    50, 0, 50, Ok(2);
    50, 1000, 0, Ok(0);
    48, 0, 47, Ok(1);
    48, 47, 1, Ok(0);
    48, usize::MAX, 0, Ok(0);
    50, 40, 24, Err("type is too big (24) for 10");
    50, 1, usize::MAX, Err("type is too big (18446744073709551615) for 49");
    48, 0, 49, Err("type is too big (49) for 48");
    48, 48, 1, Err("bad offset 48");
    48, usize::MAX, usize::MAX, Err("bad offset 18446744073709551615");
];

#[test]
fn counts_whole_relocations_or_refuses(rt: HostRuntime) {
    for row in &COUNTED {
        let bytes = &[0; 50][..row.0.min(50)];
        let count = match RelocSection::parse(bytes, row.1, row.2, true, LITTLE64) {
            Ok(section) => Ok(section.len()),
            Err(e) => Err(e),
        };
        assert!(rt; holds(rt, row, counts(rt, count, &row.3)));
    }
}

// Whether a loop over a section has this one relocation.
fn loops_over_one(rt: HostRuntime, section: &RelocSection, want: &Reloc) -> bool {
    let mut each = 0;
    for reloc in section {
        if each == 1 || !is(rt, &reloc, want) {
            return false;
        }
        each = 1;
    }
    is(rt, each, 1)
}

// Reports whether the section after the zeros has just this relocation, by each way of reading it.
fn has_one(rt: HostRuntime, is_mips64el: bool, want: &Reloc) -> bool {
    match after_zeros(MIPS, is_mips64el) {
        Ok(section) => {
            loops_over_one(rt, &section, want)
                && yields(rt, section.iter(), &[*want])
                && is(rt, (section.get(0), section.get(1)), (Some(*want), None))
                && is(rt, (section.len(), section.is_empty()), (1, false))
                && returns_list(rt, section.to_vec(rt.alloc()), &[*want])
        }
        Err(e) => differs(rt, &e, want),
    }
}

#[test]
fn returns_a_relocation_of_the_pair_in_each_way(rt: HostRuntime) {
    assert!(rt; has_one(rt, false, &without_addend(0x150f0, 51511296, 0)));
    assert!(rt; has_one(rt, true, &without_addend(0x150f0, 0, 0x1203)));
}

// The relocations that are left live as long as the bytes, and not only as long as the section.
fn relocs_of(bytes: &[u8]) -> Option<RelocIterator<'_>> {
    let section = after_zeros(bytes, false).ok()?;
    Some(section.iter())
}

// How many relocations name no symbol, and where the last of them lies.
fn without_symbol(section: &RelocSection) -> (usize, usize) {
    let mut last = 0;
    for (place, reloc) in section.iter().enumerate() {
        if reloc.r_sym == 0 {
            last = place;
        }
    }
    let count = section.iter().filter(|reloc| reloc.r_sym == 0).count();
    (count, last)
}

#[test]
fn counts_with_the_iterator_alone(rt: HostRuntime) {
    let Ok(zeros) = RelocSection::parse(MIPS, 0, 63, false, LITTLE64) else {
        return assert!(rt; false);
    };
    let counts = (zeros.iter().count(), without_symbol(&zeros));
    assert!(rt; is(rt, counts, (3, (3, 2))));
    let left = relocs_of(MIPS).and_then(|mut left| left.next());
    assert!(rt; is(rt, left, Some(without_addend(0x150f0, 51511296, 0))));
}

#[test]
fn has_no_relocations_by_default(rt: HostRuntime) {
    let none = RelocSection::default();
    let parts = (none.is_empty(), none.len(), none.get(0));
    assert!(rt; is(rt, parts, (true, 0, None)));
    assert!(rt; is(rt, none.iter().next(), None));
}

// Machines, contexts, and whether a header of these is one of a little endian MIPS64 file.
static MACHINES: [(u16, Ctx, bool); 5] = [
    (EM_MIPS, LITTLE64, true),
    (EM_MIPS, BIG64, false),
    (EM_MIPS, LITTLE32, false),
    (EM_MIPS_RS3_LE, LITTLE64, false),
    (0, LITTLE64, false),
];

fn is_mips(rt: HostRuntime, machine: u16, ctx: Ctx, wanted: bool) -> bool {
    let mut header = Header::new(ctx);
    header.e_machine = machine;
    is(
        rt,
        [is_mips64el(&header), is_mips64el_in(machine, ctx)],
        [wanted; 2],
    )
}

#[test]
fn knows_a_mips64el_file(rt: HostRuntime) {
    assert!(rt; each_row!(rt; row in MACHINES => is_mips(rt, row.0, row.1, row.2)));
    let mut header = Header::new(LITTLE64);
    header.e_machine = EM_MIPS;
    header.e_ident[EI_CLASS] = 3;
    assert!(rt; is(rt, is_mips64el(&header), false));
}

#[test]
fn has_the_raw_relocations_under_the_paths_of_each_class(rt: HostRuntime) {
    let sizes = [
        elf32::reloc::SIZEOF_RELA,
        elf64::reloc::SIZEOF_RELA,
        elf::reloc::reloc32::SIZEOF_REL,
        elf::reloc::reloc64::SIZEOF_REL,
    ];
    assert!(rt; is(rt, sizes, [12, 24, 8, 16]));
}
