//! The text that is shown of a file, written line by line.
ghost use Rattle.goblin.specs.Header.{ctx_of};
ghost use Rattle.goblin_base.specs.declared.container.Ctx.{Ctx};
ghost use Rattle.std.specs.Prelude.{◌≡◌, ℕ, List, Ok, Err, IfErr, IsTrue, OnErr, OnOk, string_bytes};
ghost use Rattle.goblin_text.specs.Common.{Header, Refusal, read_header, refusal_of, Appends, Gives, Refuses, section_headers_of_tested, refuse_as};
ghost use Rattle.goblin_text.specs.Accepted.{accepted_text, relocs_text, symbols_text};
ghost use Rattle.goblin_text.specs.StringRanges.{strings_in};
ghost use Rattle.goblin_text.specs.ShownLines.{section_line, symbol_line};
ghost use Rattle.goblin_text.specs.Looks.{ReadsNames, names_looks};
ghost use Rattle.goblin_text.specs.StreamMarks.{StopsAtError};
ghost use Rattle.goblin_text.specs.TargetState.{Prints};
ghost use Rattle.goblin_text.specs.Shown.{PermissiveShowsStrict, name_at, reloc_lines, section_lines, shown, symbol_lines, tested};

use crate::accept::{Accepted, RelocPart, SymbolPart, accept};
use crate::file_bytes::FileBytes;
use crate::lines::{put_header, put_reloc, put_section, put_symbol};
use crate::names::{Names, Strings};
use crate::streams::Sink;
use crate::targets::{Buffered, Gathered, Target};
use goblin::elf::reloc::RelocSection;
use goblin::elf::section_header::SectionHeader;
use goblin::elf::sym::Sym;
use goblin::error;
use goblin::options::ParseOptions;
use std::alloc::Global;
use std::io;

// Puts the line of the section with a number.
#[tactic(auto, using(crate::proofs::LineLooks::named_line_looks))]
fn put_named_section<T: Target>(
    target: &mut T,
    names: &mut Names<'_>,
    strings: Strings,
    number: usize,
    section: &SectionHeader,
) -> Result<(), T::Error>
    ensures put { let name = name_at (strings_in names.old.bytes strings) section.now.sh_name in
        Prints (T.state target.old) (T.state target.new) result (section_line number section.now name) }
    ensures same_writer { T.writer_name target.new ≡ T.writer_name target.old }
    ensures reading { let name = name_at (strings_in names.old.bytes strings) section.now.sh_name in
        ReadsNames names.old names.new 0 (names_looks (section_line number section.now name)) }
{
    let name = names.name(strings, section.sh_name);
    put_section(target, number, section, name)
}

// Puts the lines of all sections.
fn put_sections<T: Target>(
    target: &mut T,
    names: &mut Names<'_>,
    file: &Accepted<'_>,
) -> Result<(), T::Error>
    ensures put { let strings = strings_in names.old.bytes file.now.parts.strings in
        Prints (T.state target.old) (T.state target.new) result (section_lines strings 0 file.now.sections.items) }
    ensures same_writer { T.writer_name target.new ≡ T.writer_name target.old }
    ensures reading { let strings = strings_in names.old.bytes file.now.parts.strings in
        ReadsNames names.old names.new 0 (names_looks (section_lines strings 0 file.now.sections.items)) }
{
    let sections = file.sections.as_slice();
    for (number, section) in sections.iter().enumerate() {
        put_named_section(target, names, file.parts.strings, number, section)?;
    }
    Ok(())
}

// Puts the line of the symbol with a number, of a part.
#[tactic(auto, using(crate::proofs::LineLooks::named_line_looks))]
fn put_named_symbol<T: Target>(
    target: &mut T,
    names: &mut Names<'_>,
    part: &SymbolPart<'_>,
    number: usize,
    symbol: &Sym,
) -> Result<(), T::Error>
    ensures put { let name = name_at (strings_in names.old.bytes part.now.strings) symbol.now.st_name in
        Prints (T.state target.old) (T.state target.new) result (symbol_line part.now.section number symbol.now name) }
    ensures same_writer { T.writer_name target.new ≡ T.writer_name target.old }
    ensures reading { let name = name_at (strings_in names.old.bytes part.now.strings) symbol.now.st_name in
        ReadsNames names.old names.new 0 (names_looks (symbol_line part.now.section number symbol.now name)) }
{
    let name = names.name(part.strings, symbol.st_name);
    put_symbol(target, part.section, number, symbol, name)
}

// Puts the lines of the symbols of a part.
fn put_symbols<T: Target>(
    target: &mut T,
    names: &mut Names<'_>,
    part: &SymbolPart<'_>,
) -> Result<(), T::Error>
    ensures put { let strings = strings_in names.old.bytes part.now.strings in
        Prints (T.state target.old) (T.state target.new) result
        (symbol_lines strings part.now.section 0 part.now.table.symbols) }
    ensures same_writer { T.writer_name target.new ≡ T.writer_name target.old }
    ensures reading { let strings = strings_in names.old.bytes part.now.strings in
        ReadsNames names.old names.new 0
        (names_looks (symbol_lines strings part.now.section 0 part.now.table.symbols)) }
{
    for (number, symbol) in part.table.iter().enumerate() {
        put_named_symbol(target, names, part, number, &symbol)?;
    }
    Ok(())
}

// Puts the lines of the symbols of all parts.
fn put_all_symbols<T: Target>(
    target: &mut T,
    names: &mut Names<'_>,
    parts: &[SymbolPart<'_>],
) -> Result<(), T::Error>
    ensures put { Prints (T.state target.old) (T.state target.new) result (symbols_text names.old.bytes parts.now) }
    ensures same_writer { T.writer_name target.new ≡ T.writer_name target.old }
    ensures reading { let text = symbols_text names.old.bytes parts.now in
        ReadsNames names.old names.new 0 (names_looks text) }
{
    for part in parts {
        put_symbols(target, names, part)?;
    }
    Ok(())
}

// Puts the lines of the relocations of the section with a number.
fn put_relocs<T: Target>(
    target: &mut T,
    section: usize,
    relocs: &RelocSection<'_>,
) -> Result<(), T::Error>
    ensures put { Prints (T.state target.old) (T.state target.new) result (reloc_lines section 0 relocs.now) }
    ensures same_writer { T.writer_name target.new ≡ T.writer_name target.old }
{
    for (number, reloc) in relocs.iter().enumerate() {
        put_reloc(target, section, number, &reloc)?;
    }
    Ok(())
}

// Puts the lines of the relocations of all parts.
fn put_all_relocs<T: Target>(target: &mut T, parts: &[RelocPart<'_>]) -> Result<(), T::Error>
    ensures put { Prints (T.state target.old) (T.state target.new) result (relocs_text parts.now) }
    ensures same_writer { T.writer_name target.new ≡ T.writer_name target.old }
{
    for part in parts {
        put_relocs(target, part.section, &part.relocs)?;
    }
    Ok(())
}

// Puts the text of a file: the line of its header, one for each section, and after these one for
// each symbol and then one for each relocation.
fn put_text<T: Target>(
    target: &mut T,
    names: &mut Names<'_>,
    file: &Accepted<'_>,
) -> Result<(), T::Error>
    ensures put { let text = accepted_text names.old.bytes file.now in
        Prints (T.state target.old) (T.state target.new) result text }
    ensures same_writer { T.writer_name target.new ≡ T.writer_name target.old }
    ensures reading { let text = accepted_text names.old.bytes file.now in
        ReadsNames names.old names.new 0 (names_looks text) }
{
    put_header(target, &file.header)?;
    put_sections(target, names, file)?;
    put_all_symbols(target, names, file.parts.symbols.as_slice())?;
    put_all_relocs(target, file.parts.relocs.as_slice())
}

/// Writes the text of a file. It takes no memory.
pub fn write_text<W: Sink>(
    writer: &mut W,
    names: &mut Names<'_>,
    file: &Accepted<'_>,
) -> io::Result<()>
    ensures ok { OnOk result (Appends (W.contents writer.old) (W.contents writer.new)
        (accepted_text names.old.bytes file.now)) }
    ensures heeded { OnOk result ((W.marks writer.new).reported_error ≡ (W.marks writer.old).reported_error) }
    ensures err { OnErr result (IsTrue (W.marks writer.new).reported_error) }
    ensures stopped { StopsAtError (W.marks writer.old) (W.marks writer.new) }

    // The looks for names.
    ensures reading { let text = accepted_text names.old.bytes file.now in
        ReadsNames names.old names.new 0 (names_looks text) }
{
    let mut target = Buffered::new(writer);
    put_text(&mut target, names, file)?;
    target.finish()
}

/// Returns the text of a file with these bytes: the line of its header, one for each section, then one for each
/// symbol, and then one for each relocation.
///
/// # Errors
///
/// The first error of `accept` that applies, or out of memory.
pub fn text_of(alloc: Global, bytes: &[u8], opts: &ParseOptions) -> error::Result<String>
    ensures given { Gives string_bytes result (shown opts.now.parse_mode bytes.now) }

    // Out of memory masks no refusal of the header, and none of the section headers' first tests.
    ensures tested { IfErr (tested bytes.now) (λ refusal. Refuses result refusal) }
{
    let mut file = FileBytes::new(bytes);
    let accepted = accept(alloc, &mut file, opts)?;
    let mut target = Gathered::new(alloc);
    put_text(&mut target, &mut file.names, &accepted)?;
    Ok(target.text)
}

/// Laws: if strict options show a text, permissive ones show the same. A header that is refused, or the section headers
/// of another one, are refused before memory is taken.
#[tactic(auto, using(crate::proofs::StrictAndPermissive::permissive_shows_strict), unfolding(crate::specs::Shown::tested))]
pub fn laws()
    ensures permissive { PermissiveShowsStrict }
    ensures header { (bytes : List ℕ) (r : Refusal)
        → refuse_as refusal_of (read_header bytes) ≡ Err r → tested bytes ≡ Err r }
    ensures sections { (bytes : List ℕ) (h : Header) (size : ℕ) (ctx : Ctx) (r : Refusal)
        → read_header bytes ≡ Ok (h, size) → ctx_of h ≡ Ok ctx
        → section_headers_of_tested bytes h.e_shoff h.e_shnum ctx ≡ Err r → tested bytes ≡ Err r }
{
    goblin::strtab::laws();
}
