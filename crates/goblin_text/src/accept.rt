//! Accepting a file: all that can be refused is tested here, so that writing its text takes no memory.
ghost use Rattle.std.specs.Prelude.{◌≡◌, ◌+◌, ◌*◌, IfErr, IfOk, length};
ghost use Rattle.goblin_text.specs.Common.{Returns, Gives, Refuses, section_headers_of_tested};
ghost use Rattle.goblin_text.specs.Accepted.{accepted_text, parts_text, relocs_text, symbols_text};
ghost use Rattle.goblin_text.specs.StringRanges.{strings_in};
ghost use Rattle.goblin_text.specs.Looks.{ReadsNames, looks_by, section_count, table_looks};
ghost use Rattle.goblin_text.specs.Shown.{Adds, each_shown, file_shown, has_relocs, has_symbols, relocs_shown, sections_of, shown, sizes_checked, strings_at, symbols_shown, tested};

use crate::file_bytes::FileBytes;
use crate::names::{Names, Strings};
use goblin::container::Ctx;
use goblin::elf::header::Header;
use goblin::elf::reloc::{RelocSection, is_mips64el};
use goblin::elf::section_header::{SHT_DYNSYM, SHT_REL, SHT_RELA, SHT_SYMTAB, SectionHeader};
use goblin::elf::sym::{Sym, Symtab};
use goblin::error::Result;
use goblin::options::ParseOptions;
use std::alloc::Global;

/// The symbols of the section with a number, and the strings that hold their names.
#[derive(Drop)]
pub struct SymbolPart<'a> {
    pub section: usize,
    pub table: Symtab<'a>,
    pub strings: Strings,
}

/// The relocations of the section with a number.
#[derive(Drop)]
pub struct RelocPart<'a> {
    pub section: usize,
    pub relocs: RelocSection<'a>,
}

/// The strings of the sections' names, and the parts of a file that hold symbols and relocations.
#[derive(Drop)]
pub struct Parts<'a> {
    pub strings: Strings,
    pub symbols: Vec<SymbolPart<'a>>,
    pub relocs: Vec<RelocPart<'a>>,
}

/// What is shown of a file.
#[derive(Drop)]
pub struct Accepted<'a> {
    pub header: Header,
    pub sections: Vec<SectionHeader>,
    pub parts: Parts<'a>,
}

// Refuses a section that doesn't lie in a file of `len` bytes. Permissive options accept it.
fn check_sizes(sections: &[SectionHeader], len: usize, opts: &ParseOptions) -> Result<()>
    ensures { result ≡ sizes_checked opts.now.parse_mode len sections.now }
{
    for section in sections {
        section.check_size_with_opts(len, opts.parse_mode.is_permissive())?;
    }
    Ok(())
}

// Reads the section headers of a file with this header, and checks each of them.
#[tactic(auto, unfolding(crate::specs::Shown::sections_of))]
fn sections_of(
    alloc: Global,
    file: &FileBytes<'_>,
    header: &Header,
    ctx: Ctx,
    opts: &ParseOptions,
) -> Result<Vec<SectionHeader>>
    ensures given { let expected = sections_of opts.now.parse_mode file.now.bytes header.now ctx in
        Gives (λ v. v.items) result expected }
    ensures tested { let tested = section_headers_of_tested file.now.bytes header.now.e_shoff
        header.now.e_shnum ctx in IfErr tested (λ refusal. Refuses result refusal) }
{
    let offset = header.e_shoff as usize;
    let count = usize::from(header.e_shnum);
    let sections = file.section_headers(alloc, offset, count, ctx)?;
    check_sizes(sections.as_slice(), file.len(), opts)?;
    Ok(sections)
}

// Reports whether a section holds symbols.
fn has_symbols(section: &SectionHeader) -> bool
    ensures { result ≡ has_symbols section.now }
{
    matches!(section.sh_type, SHT_SYMTAB | SHT_DYNSYM) && section.sh_size > 0
}

// Reports whether a section holds relocations.
fn has_relocs(section: &SectionHeader) -> bool
    ensures { result ≡ has_relocs section.now }
{
    matches!(section.sh_type, SHT_REL | SHT_RELA) && section.sh_size > 0
}

// What is known of a file once its section headers are read.
#[derive(Clone, Copy)]
struct Context<'b> {
    header: &'b Header,
    ctx: Ctx,
    sections: &'b [SectionHeader],
    opts: &'b ParseOptions,
}

impl Context<'_> {
    // Returns the string table that the file's header or a section names by an index.
    #[tactic(auto, unfolding(crate::specs::Shown::strings_at))]
    fn strings_at(&self, names: &mut Names<'_>, index: usize) -> Result<Strings>
        ensures given { let expected = strings_at self.now.opts.now.parse_mode names.old.bytes
            self.now.sections.now index in
            Returns (strings_in names.old.bytes) result expected }
        ensures reading { let most = looks_by result table_looks names.old.bytes in
            ReadsNames names.old names.new 0 most }
    {
        let Some(section) = SectionHeader::linked(self.sections, index) else {
            return Ok(Strings { start: 0, end: 0 });
        };
        let offset = section.sh_offset as usize;
        let size = section.sh_size as usize;
        names.table(offset, size, self.opts)
    }

    // Adds the symbols of the section with a number to the parts, if it holds symbols.
    #[tactic(auto, unfolding(crate::specs::Shown::symbols_shown))]
    fn accept_symbols<'a>(
        &self,
        file: &mut FileBytes<'a>,
        parts: &mut Vec<SymbolPart<'a>>,
        number: usize,
        section: &SectionHeader,
    ) -> Result<()>
        ensures added { let expected = symbols_shown self.now.opts.now.parse_mode file.old.bytes
            self.now.ctx self.now.sections.now number section.now in
            Adds (symbols_text file.old.bytes parts.old.items)
            (symbols_text file.old.bytes parts.new.items) result expected }
        ensures reading { let most = looks_by result table_looks file.old.bytes in ReadsNames file.old file.new 0 most }
    {
        if !has_symbols(section) {
            return Ok(());
        }
        let offset = section.sh_offset as usize;
        let count = section.sh_size as usize / Sym::size(self.ctx.container);
        let table = file.symtab(offset, count, self.ctx, self.opts)?;
        let strings = self.strings_at(&mut file.names, section.sh_link as usize)?;
        Ok(parts.push(SymbolPart {
            section: number,
            table,
            strings,
        })?)
    }

    // Adds the symbols of all sections to the parts.
    fn accept_all_symbols<'a>(
        &self,
        file: &mut FileBytes<'a>,
        parts: &mut Vec<SymbolPart<'a>>,
    ) -> Result<()>
        ensures added { let shows = symbols_shown self.now.opts.now.parse_mode file.old.bytes
            self.now.ctx self.now.sections.now in
            Adds (symbols_text file.old.bytes parts.old.items) (symbols_text file.old.bytes parts.new.items) result
            (each_shown shows 0 self.now.sections.now) }
        ensures reading { let tables = table_looks * length self.now.sections.now in
            ReadsNames file.old file.new 0 (looks_by result tables file.old.bytes) }
    {
        for (number, section) in self.sections.iter().enumerate() {
            self.accept_symbols(file, parts, number, section)?;
        }
        Ok(())
    }

    // Adds the relocations of the section with a number to the parts, if it holds relocations.
    #[tactic(auto, unfolding(crate::specs::Shown::relocs_shown))]
    fn accept_relocs<'a>(
        &self,
        file: &FileBytes<'a>,
        parts: &mut Vec<RelocPart<'a>>,
        is_mips64el: bool,
        number: usize,
        section: &SectionHeader,
    ) -> Result<()>
        ensures { let expected = relocs_shown file.now.bytes self.now.ctx is_mips64el number section.now in
            Adds (relocs_text parts.old.items) (relocs_text parts.new.items) result expected }
    {
        if !has_relocs(section) {
            return Ok(());
        }
        let offset = section.sh_offset as usize;
        let size = section.sh_size as usize;
        let is_rela = section.sh_type == SHT_RELA;
        let relocs = file.relocs(offset, size, is_rela, self.ctx, is_mips64el)?;
        Ok(parts.push(RelocPart {
            section: number,
            relocs,
        })?)
    }

    // Adds the relocations of all sections to the parts.
    fn accept_all_relocs<'a>(
        &self,
        file: &FileBytes<'a>,
        parts: &mut Vec<RelocPart<'a>>,
        is_mips64el: bool,
    ) -> Result<()>
        ensures { let shows = relocs_shown file.now.bytes self.now.ctx is_mips64el in
            Adds (relocs_text parts.old.items) (relocs_text parts.new.items) result
            (each_shown shows 0 self.now.sections.now) }
    {
        for (number, section) in self.sections.iter().enumerate() {
            self.accept_relocs(file, parts, is_mips64el, number, section)?;
        }
        Ok(())
    }

    // Accepts the strings of the sections' names, the symbols and the relocations.
    #[tactic(auto, unfolding(crate::specs::Shown::file_shown))]
    fn parts<'a>(&self, alloc: Global, file: &mut FileBytes<'a>) -> Result<Parts<'a>>
        ensures given { let expected = file_shown self.now.opts.now.parse_mode file.old.bytes
            self.now.header.now self.now.ctx self.now.sections.now in
            Gives (parts_text file.old.bytes self.now.header.now self.now.sections.now) result expected }
        ensures reading { let tables = table_looks * (length self.now.sections.now + 1) in
            ReadsNames file.old file.new 0 (looks_by result tables file.old.bytes) }
    {
        let index = self.header.names_index(self.sections.first());
        let strings = self.strings_at(&mut file.names, index)?;
        let mut symbols = Vec::new(alloc);
        self.accept_all_symbols(file, &mut symbols)?;
        let mut relocs = Vec::new(alloc);
        self.accept_all_relocs(file, &mut relocs, is_mips64el(self.header))?;
        Ok(Parts {
            strings,
            symbols,
            relocs,
        })
    }
}

/// Returns the parts of a file, whose text can then be written without an allocation.
///
/// # Errors
///
/// The first of these that applies: an error of reading the header; of reading its section headers; under
/// strict options, a section that doesn't lie in the file, or whose `sh_addr + sh_size` doesn't fit 64 bits; of the
/// table of the sections' names; for each section of symbols, of its symbol table and then of its
/// string table; for each section of relocations, of reading it. Or it is out of memory.
#[tactic(auto, unfolding(crate::specs::Shown::shown, crate::specs::Shown::tested, crate::specs::Looks::section_count))]
pub fn accept<'a>(
    alloc: Global,
    file: &mut FileBytes<'a>,
    opts: &ParseOptions,
) -> Result<Accepted<'a>>
    ensures given { let expected = shown opts.now.parse_mode file.old.bytes in
        Gives (accepted_text file.old.bytes) result expected }

    // Out of memory masks no refusal of the header, and none of the section headers' first tests.
    ensures tested { IfErr (tested file.old.bytes) (λ refusal. Refuses result refusal) }
    ensures sections { IfOk result (λ accepted.
        length accepted.sections.items ≡ section_count opts.now.parse_mode file.old.bytes) }

    // Looks at string tables.
    ensures reading { let count = section_count opts.now.parse_mode file.old.bytes in
        let most = looks_by result (table_looks * (count + 1)) file.old.bytes in
        ReadsNames file.old file.new 0 most }
{
    let (header, _) = file.header()?;
    let ctx = header.ctx()?;
    let sections = sections_of(alloc, file, &header, ctx, opts)?;
    let context = Context {
        header: &header,
        ctx,
        sections: sections.as_slice(),
        opts,
    };
    let parts = context.parts(alloc, file)?;
    Ok(Accepted {
        header,
        sections,
        parts,
    })
}
