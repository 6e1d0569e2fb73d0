//! Calls over large input and over little, whose results are held at once. `checks/limits.py` runs them with little
//! memory.
use crate::answer::Answer;
use crate::records::CTX;
use goblin::container::Ctx;
use goblin::elf::program_header::ProgramHeader as Segment;
use goblin::elf::program_header::program_header32::ProgramHeader as Segment32;
use goblin::elf::program_header::program_header64::ProgramHeader as Segment64;
use goblin::elf::reloc::{Reloc, RelocSection, reloc64};
use goblin::elf::section_header::SectionHeader as Section;
use goblin::elf::section_header::section_header32::SectionHeader as Section32;
use goblin::elf::section_header::section_header64::SectionHeader as Section64;
use goblin::elf::sym::{Sym, Symtab};
use goblin::error::{Error, Result};
use goblin::options::{ParseMode, ParseOptions};
use goblin::scroll;
use goblin::scroll::LE;
use goblin::strtab::Strtab;
use goblin_base::entries::{Entries, Looked};
use goblin_base::table::Table;
use goblin_base::walk::walk;
use std::alloc::{AllocError, Global};

// The number of bytes that calls read, and of records that they hold, of any kind.
const BYTES: usize = 4 << 20;

const RECORDS: usize = BYTES / 64;

// The number of short lists that are held beside the long one.
const LISTS: usize = 500;

// Makes a list of so many items and the short lists, of one item each, and holds them all. Reports whether there was
// memory.
fn hold<T: Drop, F: Fn(usize) -> Option<T>>(alloc: Global, count: usize, list: &F) -> bool
    requires { F.IsAlwaysCallable list.now }
{
    let Some(long) = list(count) else {
        return false;
    };
    let mut lists = Vec::new(alloc);
    for _ in 0..LISTS {
        let Some(short) = list(1) else {
            return false;
        };
        if lists.push(short).is_err() {
            return false;
        }
    }
    drop(long);
    true
}

// Lists of headers of either class.
fn headers(alloc: Global, bytes: &[u8], form: &str) -> Option<bool> {
    let segments = |n| Segment::parse(alloc, bytes, 0, n, CTX).ok();
    let segments32 = |n| Segment32::parse(alloc, bytes, 0, n, LE).ok();
    let segments64 = |n| Segment64::parse(alloc, bytes, 0, n, LE).ok();
    let sections = |n| Section::parse(alloc, bytes, 64, n, CTX).ok();
    let sections_from = |n| Section::parse_from(alloc, bytes, 0, n, CTX).ok();
    match form {
        "segments" => Some(hold(alloc, RECORDS, &segments)),
        "segments32" => Some(hold(alloc, RECORDS, &segments32)),
        "segments64" => Some(hold(alloc, RECORDS, &segments64)),
        "sections" => Some(hold(alloc, RECORDS - 1, &sections)),
        "sections_from" => Some(hold(alloc, RECORDS, &sections_from)),
        _ => None,
    }
}

// Lists of raw headers from the start of the bytes.
fn raw_headers(alloc: Global, bytes: &[u8], form: &str) -> Option<bool> {
    let most = bytes.len() / 64;
    let segments32 = |n: usize| Segment32::from_bytes(alloc, bytes, n.min(most)).ok();
    let segments64 = |n: usize| Segment64::from_bytes(alloc, bytes, n.min(most)).ok();
    let sections32 = |n: usize| Section32::from_bytes(alloc, bytes, n.min(most)).ok();
    let sections64 = |n: usize| Section64::from_bytes(alloc, bytes, n.min(most)).ok();
    match form {
        "segments_bytes32" => Some(hold(alloc, RECORDS, &segments32)),
        "segments_bytes64" => Some(hold(alloc, RECORDS, &segments64)),
        "sections_bytes32" => Some(hold(alloc, RECORDS, &sections32)),
        "sections_bytes64" => Some(hold(alloc, RECORDS, &sections64)),
        _ => headers(alloc, bytes, form),
    }
}

fn symtab(alloc: Global, bytes: &[u8], count: usize) -> Option<Vec<Sym>> {
    Symtab::parse(bytes, 0, count, CTX).ok()?.to_vec(alloc).ok()
}

fn relocs(alloc: Global, bytes: &[u8], count: usize) -> Option<Vec<Reloc>> {
    let size = count.checked_mul(reloc64::SIZEOF_RELA)?;
    let relocs = RelocSection::parse(bytes, 0, size, true, CTX).ok()?;
    relocs.to_vec(alloc).ok()
}

fn table(alloc: Global, bytes: &[u8], count: usize) -> Option<Vec<Sym>> {
    let table = Table::<Sym, Ctx>::in_range(bytes, 0, count, CTX).ok()?;
    table.to_vec(alloc).ok()
}

fn line(alloc: Global, offset: usize) -> Option<String> {
    let error = Error::Scroll(scroll::Error::BadOffset(offset));
    error.line(alloc).ok()
}

// Lists of symbols and relocations, and messages.
fn records(alloc: Global, bytes: &[u8], form: &str) -> Option<bool> {
    let symbols = |n| Sym::parse(alloc, bytes, 0, n, CTX).ok();
    match form {
        "symbols" => Some(hold(alloc, RECORDS, &symbols)),
        "symtab" => Some(hold(alloc, RECORDS, &|n| symtab(alloc, bytes, n))),
        "relocs" => Some(hold(alloc, RECORDS, &|n| relocs(alloc, bytes, n))),
        "table" => Some(hold(alloc, RECORDS, &|n| table(alloc, bytes, n))),
        "lines" => Some(hold(alloc, RECORDS, &|n| line(alloc, n))),
        _ => raw_headers(alloc, bytes, form),
    }
}

fn permissive<'a>(alloc: Global, bytes: &'a [u8], len: usize) -> Option<Strtab<'a>> {
    Strtab::parse_with_opts(alloc, bytes, 0, len, 0, &ParseOptions::permissive()).ok()
}

fn parsed<'a>(alloc: Global, bytes: &'a [u8], len: usize) -> Option<Vec<&'a str>> {
    let table = Strtab::parse(alloc, bytes, 0, len, 0).ok()?;
    table.to_vec(alloc).ok()
}

fn unparsed<'a>(alloc: Global, bytes: &'a [u8], len: usize) -> Option<Vec<&'a str>> {
    Strtab::new(bytes.get(..len)?, 0).to_vec(alloc).ok()
}

fn entries<'a>(alloc: Global, bytes: &'a [u8], len: usize) -> Option<Entries<'a>> {
    let mut view = Looked::new(bytes.get(..len)?);
    walk(alloc, &mut view, 0, ParseMode::Strict).ok()
}

// String tables of one string, and what is made of them.
fn strings(alloc: Global, bytes: &[u8], form: &str) -> Option<bool> {
    let strict = |n| Strtab::parse(alloc, bytes, 0, n, 0).ok();
    match form {
        "strings" => Some(hold(alloc, BYTES, &strict)),
        "permissive" => Some(hold(alloc, BYTES, &|n| permissive(alloc, bytes, n))),
        "parsed" => Some(hold(alloc, BYTES, &|n| parsed(alloc, bytes, n))),
        "unparsed" => Some(hold(alloc, BYTES, &|n| unparsed(alloc, bytes, n))),
        "entries" => Some(hold(alloc, BYTES, &|n| entries(alloc, bytes, n))),
        _ => records(alloc, bytes, form),
    }
}

fn hold_all(alloc: Global, form: &str) -> Option<bool> {
    match vec![in alloc; b'a'; BYTES] {
        Ok(bytes) => strings(alloc, bytes.as_slice(), form),
        Err(_) => Some(false),
    }
}

/// Makes and holds the lists of a form.
pub(crate) fn held(alloc: Global, form: &str) -> Option<Result<Answer>> {
    let held = match hold_all(alloc, form)? {
        true => String::from_str(alloc, "held"),
        false => Err(AllocError),
    };
    Some(held.map(Answer::Line).map_err(Error::Memory))
}
