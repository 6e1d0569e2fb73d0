//! The symbols of a file, each with its name.
ghost use Rattle.std.specs.Prelude.{◌++◌, ◌≡◌, ◌≢◌, ◌≤◌, ◌<◌, ◌+◌, ◌==◌, [], Err, IfErr, IfNone, IfSome, OnOk, codes, drop, find, length, slice_get, string_bytes, take, unwrap_or};
ghost use Rattle.std.specs.Option.{option_map};
ghost use Rattle.goblin.specs.ReadHeader.{read_header};
ghost use Rattle.goblin.specs.SectionHeaders.{linked};
ghost use Rattle.goblin.specs.Strtab.{look_up};
ghost use Rattle.goblin.specs.Symtab.{symtab_in};
ghost use Rattle.goblin.specs.Texts.{◌&◌, hexadecimal};

use goblin::container::Ctx;
use goblin::elf::header::Header;
use goblin::elf::section_header::{SHT_SYMTAB, SectionHeader};
use goblin::elf::sym::{Sym, Symtab};
use goblin::error::Result;
use goblin::options::{ParseMode, ParseOptions};
use goblin::scroll::{LE, TryFromCtx};
use goblin::strtab::Strtab;
use std::alloc::{AllocError, Global};

/// Adds a line for each symbol of a file: its value, and its name if it has one.
///
/// # Errors
///
/// Those of the header, the section headers, the symbols and their strings, else out of memory.
pub fn push_symbols(alloc: Global, text: &mut String, bytes: &[u8]) -> Result<()>
    ensures first { IfErr (read_header bytes.now) (λ e. result ≡ Err e) }
{
    let (header, _) = Header::try_from_ctx(bytes, LE)?;
    let ctx = header.ctx()?;
    let count = usize::from(header.e_shnum);
    let sections = SectionHeader::parse(alloc, bytes, header.e_shoff as usize, count, ctx)?;
    let Some(section) = symbol_table(sections.as_slice()) else {
        return Ok(());
    };
    let symbols = symbols_of(bytes, section, ctx)?;
    let strings = strings_of(sections.as_slice(), section);
    let names = Strtab::new_preparsed(alloc, bytes_of(bytes, strings), 0)?;
    for symbol in &symbols {
        push_line(text, &names, &symbol)?;
    }
    Ok(())
}

// Adds the line of one symbol.
fn push_line(text: &mut String, names: &Strtab, symbol: &Sym) -> std::result::Result<(), AllocError>
    ensures { let name = unwrap_or (look_up names.now symbol.now.st_name) [] in
        OnOk result (string_bytes text.new ≡ string_bytes text.old
        ++ (hexadecimal symbol.now.st_value & codes " " & name & codes "\n")) }
{
    let value = symbol.st_value;
    let name = names.get_at(symbol.st_name).unwrap_or("");
    write!(text, "{value:x} {name}\n")
}

/// Returns the first symbol table among the sections.
pub fn symbol_table(sections: &[SectionHeader]) -> Option<&SectionHeader>
    ensures { option_map (λ s. s.now) result ≡ find (λ s. s.sh_type == 2) sections.now }
{
    sections
        .iter()
        .find(|section| section.sh_type == SHT_SYMTAB)
}

/// Returns the section with the strings of a section: the one that it links to.
pub fn strings_of<'a>(
    sections: &'a [SectionHeader],
    section: &SectionHeader,
) -> Option<&'a SectionHeader>
    ensures { let index = section.now.sh_link in
        option_map (λ s. s.now) result ≡ linked index (slice_get sections.now index) }
{
    SectionHeader::linked(sections, section.sh_link as usize)
}

/// Returns the bytes of a section in the file, or none if it has none there.
pub fn bytes_of<'a>(bytes: &'a [u8], section: Option<&SectionHeader>) -> &'a [u8]
    ensures there { IfSome section.entry (λ s. s.now.sh_type ≢ 8 → s.now.sh_offset + s.now.sh_size ≤ length bytes.now
        → result.now ≡ take s.now.sh_size (drop s.now.sh_offset bytes.now)) }
    ensures past { IfSome section.entry (λ s. length bytes.now < s.now.sh_offset + s.now.sh_size → result.now ≡ []) }
    ensures nobits { IfSome section.entry (λ s. s.now.sh_type ≡ 8 → result.now ≡ []) }
    ensures none { IfNone section.entry (result.now ≡ []) }
{
    match section.and_then(|section| section.file_range()) {
        Some(range) => bytes.get(range).unwrap_or(&[]),
        None => &[],
    }
}

/// Returns the symbols of a section, as many as it holds whole.
pub fn symbols_of<'a>(bytes: &'a [u8], section: &SectionHeader, ctx: Ctx) -> Result<Symtab<'a>>
    ensures { let s = section.now in result ≡ symtab_in ParseMode.Strict bytes.now s.sh_offset s.sh_size ctx }
{
    let offset = section.sh_offset as usize;
    let size = section.sh_size as usize;
    Symtab::in_range(bytes, offset, size, ctx, &ParseOptions::strict())
}
