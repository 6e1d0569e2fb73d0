//! The numbers of the kinds of errors, as a cast gives them.
use crate::compare::is;
use goblin_base::texts::Kind;

#[test]
fn casts_kinds_of_errors(rt: HostRuntime) {
    let kinds = [
        Kind::BadMagic as u32,
        Kind::TooBig as u32,
        Kind::BadOffset as u32,
        Kind::BadInput as u32,
        Kind::BufferTooShort as u32,
        Kind::OutOfMemory as u32,
    ];
    assert!(rt; is(rt, kinds, [2, 3, 4, 5, 6, 7]));
}

#[test]
fn casts_kinds_of_faults(rt: HostRuntime) {
    let kinds = [
        Kind::InvalidClass as u32,
        Kind::InvalidEndianness as u32,
        Kind::TooSmall as u32,
        Kind::ElfClass as u32,
        Kind::DataType as u32,
        Kind::Data as u32,
        Kind::NoteAlign as u32,
        Kind::SymtabOffset as u32,
        Kind::TooManySymbols as u32,
        Kind::SymtabPast as u32,
        Kind::StrtabOffset as u32,
        Kind::StrtabRange as u32,
        Kind::SectionOffset as u32,
        Kind::SectionAddr as u32,
        Kind::IntegerFit as u32,
    ];
    let numbers = [10, 11, 12, 13, 14, 15, 16, 17, 18, 19, 20, 21, 22, 23, 24];
    assert!(rt; is(rt, kinds, numbers));
}
