//! Relocations and relocation sections: System V gABI, "Relocation".
ghost use Rattle.std.specs.Prelude.{◌≡◌, ◌<◌, ◌/◌, ◌^◌, ◌↔◌, ℕ, [], false, length, slice_get, slice_index, IsTrue, IfOk, IfErr, IsOk, alloc_error};
ghost use Rattle.goblin.specs.RelocSection.{relocs_of, is_mips64el_in, is_of_mips64el, DependsOnItsRange, WritesItsBytes};
ghost use Rattle.goblin_base.specs.declared.container.Container.TheVariants as class;
ghost use Rattle.goblin_base.specs.declared.container.Endian.TheVariants as order;
ghost use Rattle.goblin_records.specs.Reloc.{reloc_size};

use goblin_base::container::{Container, Ctx};
use goblin_base::error::{Error, Result};
use goblin_base::room::room;
use goblin_base::table::{Table, TableIter};
use goblin_headers::header::{EM_MIPS, Header};
pub use goblin_records::reloc::{Reloc, RelocCtx, reloc32, reloc64};
use std::alloc::Global;
use std::marker::Model;

/// A relocation section. Each relocation is read from the file's bytes when it is asked for.
///
/// It allocates nothing, and its relocations outlive it. A section that was parsed with
/// `is_mips64el` decodes symbol and type in every call: `get`, iterators and `to_vec`.
#[derive(Debug, Drop)]
pub struct RelocSection<'a> {
    table: Table<'a, Reloc, RelocCtx>,
}

// A relocation section is seen as the list of its relocations.
impl<'a> Model for RelocSection<'a> {
    ghost use Rattle.std.specs.Prelude.{List};
    ghost use Rattle.goblin_records.specs.declared.reloc.Reloc.{Reloc};

    ghost Value = { List Reloc };

    ghost view = { λ s. s.table };
}

impl<'a> RelocSection<'a> {
    /// Parses the relocations in `filesz` bytes from an offset on, with or without addends. There
    /// are as many as those bytes hold whole; a remainder is not read. A `filesz` of 0 succeeds at
    /// any offset.
    ///
    /// # Errors
    ///
    /// Those of [`RelocSection::parse_inner`], which also serves little-endian MIPS64 files:
    ///
    /// <!-- quoted: crates/goblin_uses/src/relocations.rt -->
    /// ```
    /// let relocations = RelocSection::parse_inner(
    ///     bytes,
    ///     section.sh_offset as usize,
    ///     section.sh_size as usize,
    ///     section.sh_type == SHT_RELA,
    ///     ctx,
    ///     is_mips64el(header),
    /// )?;
    /// ```
    pub fn parse(
        bytes: &'a [u8],
        offset: usize,
        filesz: usize,
        is_rela: bool,
        ctx: Ctx,
    ) -> Result<RelocSection<'a>>
        ensures { result ≡ relocs_of bytes.now offset filesz is_rela ctx false }
    {
        Self::parse_inner(bytes, offset, filesz, is_rela, ctx, false)
    }

    /// Parses relocations as [`RelocSection::parse`] does. If `is_mips64el` is true, the symbol and
    /// the type of each are decoded as little-endian MIPS64 files store them, in either class.
    ///
    /// # Errors
    ///
    /// `BadOffset` if `filesz` isn't 0 and the offset is at the end of the bytes or past it, else
    /// `TooBig` if fewer than `filesz` bytes follow the offset.
    #[tactic(auto, unfolding(goblin_base::specs::Record::records))]
    pub fn parse_inner(
        bytes: &'a [u8],
        offset: usize,
        filesz: usize,
        is_rela: bool,
        ctx: Ctx,
        is_mips64el: bool,
    ) -> Result<RelocSection<'a>>
        ensures { result ≡ relocs_of bytes.now offset filesz is_rela ctx is_mips64el }
    {
        let layout = RelocCtx {
            is_rela,
            ctx,
            is_mips64el,
        };
        if filesz == 0 {
            return Ok(RelocSection {
                table: Table::of(&[], 0, layout),
            });
        }
        room(bytes.len(), offset, filesz)?;
        let part = &bytes[offset..offset + filesz];
        Ok(RelocSection {
            table: Table::of(part, count_in(filesz, is_rela, ctx.container), layout),
        })
    }

    /// Returns the relocation at an index, or `None` past the end.
    #[inline(always)]
    pub fn get(&self, index: usize) -> Option<Reloc>
        ensures { result ≡ slice_get self.now index }
    {
        self.table.get(index)
    }

    /// Returns the number of relocations.
    pub fn len(&self) -> usize
        ensures value { result ≡ length self.now }
        ensures bound { result < usize.MAX }
    {
        self.table.len()
    }

    /// Reports whether there are no relocations.
    pub fn is_empty(&self) -> bool
        ensures { IsTrue result ↔ (self.now ≡ []) }
    {
        self.table.is_empty()
    }

    /// Returns an iterator over the relocations.
    pub fn iter(&self) -> RelocIterator<'a>
        ensures value { result ≡ self.now }
        ensures bound { length self.now < 2 ^ 64 }
    {
        self.table.iter()
    }

    /// Returns the relocations as a vector. The only error is out of memory. An empty section
    /// allocates nothing.
    pub fn to_vec(&self, alloc: Global) -> Result<Vec<Reloc>>
        ensures ok { IfOk result (λ v. v.items ≡ self.now) }
        ensures err { IfErr result (λ e. e ≡ Error.Memory alloc_error) }
        ensures none { (self.now ≡ []) → IsOk result }
    {
        self.table.to_vec(alloc)
    }
}

// Returns how many relocations a size holds. A division by a constant takes a fraction of the time.
fn count_in(size: usize, is_rela: bool, class: Container) -> usize
    ensures { result ≡ size / reloc_size is_rela class }
{
    match (class, is_rela) {
        (Container::Little, true) => size / reloc32::SIZEOF_RELA,
        (Container::Little, false) => size / reloc32::SIZEOF_REL,
        (Container::Big, true) => size / reloc64::SIZEOF_RELA,
        (Container::Big, false) => size / reloc64::SIZEOF_REL,
    }
}

/// The default is an empty section, without addends and not of MIPS64.
impl Default for RelocSection<'_> {
    ghost is_default = { λ s. s ≡ [] };

    #[tactic(auto, unfolding(goblin_base::specs::Record::records))]
    fn default() -> Self {
        RelocSection {
            table: Table::of(&[], 0, RelocCtx::default()),
        }
    }
}

impl<'a, 'b> IntoIterator for &'b RelocSection<'a> {
    type Item = Reloc;

    type IntoIter = RelocIterator<'a>;

    ghost into_iter_gives = { λ s relocs. relocs ≡ s.now };

    fn into_iter(self) -> Self::IntoIter
        ensures value { result ≡ self.now }
        ensures bound { length self.now < 2 ^ 64 }
    {
        self.iter()
    }
}

/// An iterator over the relocations of a section, from the first to the last.
pub type RelocIterator<'a> = TableIter<'a, Reloc, RelocCtx>;

/// Reports whether files of this machine, class and byte order are little-endian MIPS64, whose
/// relocations are stored in a special way.
pub fn is_mips64el_in(machine: u16, ctx: Ctx) -> bool
    ensures { result ≡ is_mips64el_in machine ctx }
{
    machine == EM_MIPS && ctx.is_big() && ctx.is_little_endian()
}

/// Reports whether the header is of a little-endian MIPS64 file: its machine is `EM_MIPS`, its
/// class byte is `ELFCLASS64` and its data byte is `ELFDATA2LSB`.
pub fn is_mips64el(header: &Header) -> bool
    ensures { result ≡ is_of_mips64el header.now }
{
    match header.ctx() {
        Ok(ctx) => is_mips64el_in(header.e_machine, ctx),
        Err(_) => false,
    }
}

/// Laws: which machine, class and byte order are those of little-endian MIPS64. A relocation section depends only on
/// its own bytes and on the file's length, and its relocations are written as those bytes.
#[tactic(auto, using(crate::specs::RelocSectionLaws::depends_on_its_range, crate::specs::RelocSectionLaws::writes_its_bytes))]
pub fn laws()
    ensures machine { (machine : ℕ) (ctx : Ctx) → IsTrue (is_mips64el_in machine ctx)
        ↔ ((machine ≡ 8) × (ctx.container ≡ class.Big) × (ctx.le ≡ order.Little)) }
    ensures header { (h : Header) → IsTrue (is_of_mips64el h)
        ↔ ((h.e_machine ≡ 8) × (slice_index h.e_ident 4 ≡ 2) × (slice_index h.e_ident 5 ≡ 1)) }
    ensures range { DependsOnItsRange }
    ensures bytes { WritesItsBytes }
{}
