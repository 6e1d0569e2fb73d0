//! Lists what an ELF file on standard input holds: its loaded segments, its symbols, its functions,
//! its relocations and its notes. It is a small program over `goblin`, with no proof files.
//!
//! Contracts say what is taken from the file, what each line shows, and which error comes first.
//! No contract says that a loop adds a line for each item, that `list` lists each section, or what
//! is printed before an error. Two stored runs test that: of `stdin`, and of `checks/files/uses`.
#![tactic(auto)]

mod functions;
mod names;
mod notes;
mod relocations;
mod segments;
mod symbols;

use functions::push_functions;
use goblin::elf::header::Header;
use goblin::elf::program_header::ProgramHeader;
use goblin::elf::section_header::{SHT_NOTE, SHT_REL, SHT_RELA, SHT_SYMTAB, SectionHeader};
use goblin::error::Result;
use goblin::scroll::{LE, TryFromCtx};
use notes::push_notes;
use relocations::push_relocations;
use segments::push_segments;
use std::alloc::Global;
use std::io;
use std::io::Read;
use symbols::{push_symbols, strings_of};

// Adds the lines of a file, up to the first error.
fn list(alloc: Global, text: &mut String, bytes: &[u8]) -> Result<()> {
    let (header, _) = Header::try_from_ctx(bytes, LE)?;
    let ctx = header.ctx()?;
    let count = header.segment_count(bytes)?;
    let segments = ProgramHeader::parse(alloc, bytes, header.e_phoff as usize, count, ctx)?;
    push_segments(alloc, text, bytes, segments.as_slice())?;
    let count = usize::from(header.e_shnum);
    let sections = SectionHeader::parse(alloc, bytes, header.e_shoff as usize, count, ctx)?;
    push_symbols(alloc, text, bytes)?;
    for section in &sections {
        match section.sh_type {
            SHT_SYMTAB => {
                let strings = strings_of(sections.as_slice(), section);
                push_functions(alloc, text, bytes, section, strings, ctx)?;
            }
            SHT_REL | SHT_RELA => push_relocations(alloc, text, bytes, section, &header, ctx)?,
            SHT_NOTE => push_notes(text, bytes, section, ctx)?,
            _ => {}
        }
    }
    Ok(())
}

fn main(rt: HostRuntime) -> io::Result<()> {
    let mut bytes = Vec::new(rt.alloc());
    rt.stdin().read_to_end(&mut bytes)?;
    let mut text = String::new(rt.alloc());
    let listed = list(rt.alloc(), &mut text, bytes.as_slice());
    print!(rt; "{text}")?;
    match listed {
        Ok(()) => Ok(()),
        Err(e) => println!(rt; "refused: {e}"),
    }
}
