//! The bytes of a file. Records are read from them as they are, and names under a count of the bytes looked at.
//!
//! The bytes are private to this module, and each function here is one call of the library. So whoever accepts or shows
//! a file reads its records by these functions, and everything else by the counted calls of [`Names`].
ghost use Rattle.std.specs.Prelude.{◌≡◌, ◌*◌, ◌<◌, ◌≤◌, IfErr, length};
ghost use Rattle.goblin_text.specs.Common.{read_header, Gives, Refuses, section_headers_of, section_headers_of_tested};
ghost use Rattle.goblin.specs.RelocSection.{relocs_of};
ghost use Rattle.goblin.specs.Symtab.{symtab_by};
ghost use Rattle.goblin_text.specs.Looks.{IsUnread};

use crate::names::Names;
use goblin::container::Ctx;
use goblin::elf::header::Header;
use goblin::elf::reloc::RelocSection;
use goblin::elf::section_header::SectionHeader;
use goblin::elf::sym::Symtab;
use goblin::error::Result;
use goblin::options::ParseOptions;
use goblin::scroll::{LE, TryFromCtx};
use std::alloc::Global;
use std::marker::Model;

/// The bytes of a file.
#[derive(Drop)]
pub struct FileBytes<'a> {
    bytes: &'a [u8],
    /// Reads the names of the file.
    pub names: Names<'a>,
}

// They are seen as what is read of names: the bytes, and the looks taken.
impl<'a> Model for FileBytes<'a> {
    ghost use Rattle.std.specs.Prelude.{◌≡◌};
    ghost use Rattle.goblin_text.specs.Looks.{NamesView};

    ghost Value = { NamesView };

    ghost view = { λ file. file.names };

    ghost invariant = { λ file. file.bytes.now ≡ file.names.bytes };
}

impl<'a> FileBytes<'a> {
    /// Returns the bytes of a file, none of which has been looked at.
    pub fn new(bytes: &'a [u8]) -> Self
        ensures bytes { result.bytes ≡ bytes.now }
        ensures unread { IsUnread result }
    {
        FileBytes {
            bytes,
            names: Names::new(bytes),
        }
    }

    /// Returns how many bytes there are.
    pub fn len(&self) -> usize
        ensures value { result ≡ length self.now.bytes }
        ensures bound { result < usize.MAX }
    {
        self.bytes.len()
    }

    /// Reads the file's header, with its size.
    pub fn header(&self) -> Result<(Header, usize)>
        ensures { result ≡ read_header self.now.bytes }
    {
        Header::try_from_ctx(self.bytes, LE)
    }

    /// Reads the section headers, as `SectionHeader::parse` does.
    pub fn section_headers(
        &self,
        alloc: Global,
        offset: usize,
        count: usize,
        ctx: Ctx,
    ) -> Result<Vec<SectionHeader>>
        ensures given { let expected = section_headers_of self.now.bytes offset count ctx in
            Gives (λ v. v.items) result expected }
        ensures tested { IfErr (section_headers_of_tested self.now.bytes offset count ctx)
            (λ refusal. Refuses result refusal) }
    {
        SectionHeader::parse(alloc, self.bytes, offset, count, ctx)
    }

    /// Returns a symbol table, as `Symtab::parse_with_opts` does.
    pub fn symtab(
        &self,
        offset: usize,
        count: usize,
        ctx: Ctx,
        opts: &ParseOptions,
    ) -> Result<Symtab<'a>>
        ensures { result ≡ symtab_by opts.now.parse_mode self.now.bytes offset count ctx }
    {
        Symtab::parse_with_opts(self.bytes, offset, count, ctx, opts)
    }

    /// Returns a relocation section, as `RelocSection::parse_inner` does.
    pub fn relocs(
        &self,
        offset: usize,
        size: usize,
        is_rela: bool,
        ctx: Ctx,
        is_mips64el: bool,
    ) -> Result<RelocSection<'a>>
        ensures { result ≡ relocs_of self.now.bytes offset size is_rela ctx is_mips64el }
    {
        RelocSection::parse_inner(self.bytes, offset, size, is_rela, ctx, is_mips64el)
    }
}
