//! Relocations of either class, with an addend or without: System V gABI, "Relocation".
ghost use Rattle.std.specs.Prelude.{◌≡◌, ◌≤◌, ◌/◌, ◌%◌, ◌^◌, Bool, List, ℕ, Some, None, false, true, length};
ghost use Rattle.goblin_records.specs.Common.{ComparesAndClones, HasPlaces, Writes, signed_of, word_size};
ghost use Rattle.goblin_base.specs.Number.{number, spelled};
ghost use Rattle.goblin_base.specs.declared.container.Container.TheVariants as class;
ghost use Rattle.goblin_base.specs.declared.container.Ctx.{Ctx};
ghost use Rattle.goblin_base.specs.declared.container.Endian.TheVariants as order;
ghost use Rattle.goblin_records.specs.Reloc.{as_meant, as_stored, KeepsLow, KeepsLowAddend, reloc_ctx_default, reloc_image, reloc_layout, reloc_layout_in, reloc_of, reloc_size, reloc_zero, SameInEachClass};
ghost use Rattle.goblin_records.specs.RelocLaws.{reloc_laws, reloc_laws_in};

pub use crate::{reloc32, reloc64};
use goblin_base::container::{Container, Ctx, Endian};
use goblin_base::error::Result;
use goblin_base::laid_out::LaidOut;
use goblin_base::scroll::TryIntoCtx;

/// A relocation of either class, with an addend or without.
#[derive(Clone, Copy, Debug, Default, PartialEq)]
pub struct Reloc {
    /// Where the relocation applies: the offset from the section's start in bytes in a relocatable
    /// file, the address in any other file.
    pub r_offset: u64,
    /// The addend; `None` if it is stored at the location to be modified.
    pub r_addend: Option<i64>,
    /// The index of the symbol in the symbol table that the relocation section links to.
    pub r_sym: usize,
    /// The relocation type, which is processor-specific.
    pub r_type: u32,
}

/// The layout of a section's relocations: with or without addends, their class and byte order, and
/// whether symbol and type are stored as in little-endian MIPS64 files.
#[derive(Clone, Copy, Debug, Default, PartialEq)]
pub struct RelocCtx {
    /// Whether the relocations have addends.
    pub is_rela: bool,
    /// The class and the byte order.
    pub ctx: Ctx,
    /// Whether symbol and type are stored as in little-endian MIPS64 files.
    pub is_mips64el: bool,
}

impl Reloc {
    /// Returns the size of a relocation: 8 or 16 bytes without an addend, 12 or 24 with one.
    pub fn size(is_rela: bool, ctx: Ctx) -> usize
        ensures { result ≡ reloc_size is_rela ctx.container }
    {
        match (ctx.container, is_rela) {
            (Container::Little, true) => reloc32::SIZEOF_RELA,
            (Container::Little, false) => reloc32::SIZEOF_REL,
            (Container::Big, true) => reloc64::SIZEOF_RELA,
            (Container::Big, false) => reloc64::SIZEOF_REL,
        }
    }

    /// Writes the relocation. If `is_mips64el` is true, the low 32 bits of its symbol and its type
    /// are written as little-endian MIPS64 files store them.
    ///
    /// # Errors
    ///
    /// The fault of `room` if the buffer doesn't hold the relocation. No byte is written then.
    #[tactic(auto, using(goblin_base::specs::RecordLaws::record_answers))]
    pub fn write_inner(self, bytes: &mut [u8], ctx: (bool, Ctx), is_mips64el: bool) -> Result<usize>
        ensures { let size = reloc_size ctx.0 ctx.1.container in
            let image = reloc_image ctx.0 ctx.1.container ctx.1.le (as_stored is_mips64el self) in
            Writes size image bytes.old result bytes.new }
    {
        let (is_rela, ctx) = ctx;
        let layout = RelocCtx {
            is_rela,
            ctx,
            is_mips64el,
        };
        self.try_into_ctx(bytes, layout)
    }

    // Reads the relocation of a class and a byte order at the start of the bytes.
    #[inline(always)]
    fn get_in(bytes: &[u8], is_rela: bool, class: Container, order: Endian) -> Reloc
        requires { reloc_size is_rela class ≤ length bytes.now }
        ensures { result ≡ reloc_of is_rela class order bytes.now }
    {
        match (class, is_rela) {
            (Container::Little, true) => reloc32::Rela::get(bytes, order).into(),
            (Container::Little, false) => reloc32::Rel::get(bytes, order).into(),
            (Container::Big, true) => reloc64::Rela::get(bytes, order).into(),
            (Container::Big, false) => reloc64::Rel::get(bytes, order).into(),
        }
    }

    // Returns the relocation that a stored one means: for little-endian MIPS64, with symbol and
    // type decoded.
    fn meant(self, is_mips64el: bool) -> Reloc
        ensures { result ≡ as_meant is_mips64el self }
    {
        if !is_mips64el {
            return self;
        }
        let read = reloc64::r_info(self.r_sym as u64, u64::from(self.r_type));
        let info = reloc64::mips64el_r_info(read);
        Reloc {
            r_sym: reloc64::r_sym(info) as usize,
            r_type: reloc64::r_type(info),
            ..self
        }
    }

    // Returns the relocation to store: for little-endian MIPS64, with symbol and type encoded.
    pub(crate) fn stored(self, is_mips64el: bool) -> Reloc
        ensures { result ≡ as_stored is_mips64el self }
    {
        if !is_mips64el {
            return self;
        }
        let meant = reloc64::r_info(self.r_sym as u64, u64::from(self.r_type));
        let info = reloc64::mips64el_r_info_inverse(meant);
        Reloc {
            r_sym: reloc64::r_sym(info) as usize,
            r_type: reloc64::r_type(info),
            ..self
        }
    }
}

/// With addends, a missing one is written as 0; without addends, none is written.
impl LaidOut<(bool, Ctx)> for Reloc {
    ghost layout = { λ c. reloc_layout c.0 c.1.container c.1.le };

    fn size_in(ctx: (bool, Ctx)) -> usize {
        Reloc::size(ctx.0, ctx.1)
    }

    #[inline(always)]
    fn get(bytes: &[u8], ctx: (bool, Ctx)) -> Reloc {
        let (is_rela, ctx) = ctx;
        // (asked here, the byte order isn't asked at each field)
        match ctx.le {
            Endian::Little => Reloc::get_in(bytes, is_rela, ctx.container, Endian::Little),
            Endian::Big => Reloc::get_in(bytes, is_rela, ctx.container, Endian::Big),
        }
    }

    fn put(self, bytes: &mut [u8], ctx: (bool, Ctx)) {
        let (is_rela, ctx) = ctx;
        match (ctx.container, is_rela) {
            (Container::Little, true) => reloc32::Rela::from(self).put(bytes, ctx.le),
            (Container::Little, false) => reloc32::Rel::from(self).put(bytes, ctx.le),
            (Container::Big, true) => reloc64::Rela::from(self).put(bytes, ctx.le),
            (Container::Big, false) => reloc64::Rel::from(self).put(bytes, ctx.le),
        }
    }

    ghost layout_laws = { λ c. reloc_laws c.0 c.1.container c.1.le };
}

/// If the context says so, symbol and type are read and written as little-endian MIPS64 files store
/// them.
impl LaidOut<RelocCtx> for Reloc {
    ghost layout = { reloc_layout_in };

    fn size_in(ctx: RelocCtx) -> usize {
        Reloc::size(ctx.is_rela, ctx.ctx)
    }

    #[inline(always)]
    fn get(bytes: &[u8], ctx: RelocCtx) -> Reloc {
        let stored = Reloc::get(bytes, (ctx.is_rela, ctx.ctx));
        stored.meant(ctx.is_mips64el)
    }

    fn put(self, bytes: &mut [u8], ctx: RelocCtx) {
        let stored = self.stored(ctx.is_mips64el);
        stored.put(bytes, (ctx.is_rela, ctx.ctx));
    }

    ghost layout_laws = { reloc_laws_in };
}

/// Laws of relocations: where each part of one lies. In a [`RelocCtx`] it lies there too, but if that is of MIPS64, the
/// symbol is the type of a stored one, and the type its symbol with the bytes reversed. Of a relocation that doesn't
/// fit, the low bits of each field are written. A list of relocations that fit both classes is read back the same in
/// each class and byte order. The default relocation has all fields 0 and no addend. The default context has no
/// addends, isn't MIPS64, and is of the default class and byte order. `==` is true exactly if all fields are equal.
/// `clone` returns the value, and never fails.
pub fn laws()
    ensures same { SameInEachClass }
    ensures rel32 { HasPlaces
        (λ order. ⟦<Reloc as LaidOut<(bool, Ctx)>>⟧.layout (false, record { container = class.Little; le = order }))
        (λ n r. (r.r_offset ≡ n 0 4) × (r.r_sym ≡ n 4 4 / 2 ^ 8) × (r.r_type ≡ n 4 4 % 2 ^ 8) × (r.r_addend ≡ None)) }
    ensures rela32 { HasPlaces
        (λ order. ⟦<Reloc as LaidOut<(bool, Ctx)>>⟧.layout (true, record { container = class.Little; le = order }))
        (λ n r. (r.r_offset ≡ n 0 4) × (r.r_sym ≡ n 4 4 / 2 ^ 8) × (r.r_type ≡ n 4 4 % 2 ^ 8)
        × (r.r_addend ≡ Some (signed_of 4 (n 8 4)))) }
    ensures rel64 { HasPlaces
        (λ order. ⟦<Reloc as LaidOut<(bool, Ctx)>>⟧.layout (false, record { container = class.Big; le = order }))
        (λ n r. (r.r_offset ≡ n 0 8) × (r.r_sym ≡ n 8 8 / 2 ^ 32) × (r.r_type ≡ n 8 8 % 2 ^ 32) × (r.r_addend ≡ None)) }
    ensures rela64 { HasPlaces
        (λ order. ⟦<Reloc as LaidOut<(bool, Ctx)>>⟧.layout (true, record { container = class.Big; le = order }))
        (λ n r. (r.r_offset ≡ n 0 8) × (r.r_sym ≡ n 8 8 / 2 ^ 32) × (r.r_type ≡ n 8 8 % 2 ^ 32)
        × (r.r_addend ≡ Some (signed_of 8 (n 16 8)))) }
    ensures in_section { (is_rela : Bool) (ctx : Ctx) (bytes : List ℕ) →
        let c : RelocCtx = record { is_rela = is_rela; ctx = ctx; is_mips64el = false } in
        (⟦<Reloc as LaidOut<RelocCtx>>⟧.layout c).read bytes
        ≡ (⟦<Reloc as LaidOut<(bool, Ctx)>>⟧.layout (is_rela, ctx)).read bytes }
    ensures in_section_image { (is_rela : Bool) (ctx : Ctx) (r : Reloc) →
        let c : RelocCtx = record { is_rela = is_rela; ctx = ctx; is_mips64el = false } in
        (⟦<Reloc as LaidOut<RelocCtx>>⟧.layout c).image r
        ≡ (⟦<Reloc as LaidOut<(bool, Ctx)>>⟧.layout (is_rela, ctx)).image r }
    ensures mips64 { (is_rela : Bool) (ctx : Ctx) (bytes : List ℕ) →
        let c : RelocCtx = record { is_rela = is_rela; ctx = ctx; is_mips64el = true } in
        let stored = (⟦<Reloc as LaidOut<(bool, Ctx)>>⟧.layout (is_rela, ctx)).read bytes in
        let meant = (⟦<Reloc as LaidOut<RelocCtx>>⟧.layout c).read bytes in
        (meant.r_offset ≡ stored.r_offset) × (meant.r_sym ≡ stored.r_type)
        × (meant.r_type ≡ number order.Big (spelled order.Little 4 stored.r_sym)) × (meant.r_addend ≡ stored.r_addend) }
    ensures mips64_image { (is_rela : Bool) (ctx : Ctx) (r : Reloc) →
        let c : RelocCtx = record { is_rela = is_rela; ctx = ctx; is_mips64el = true } in
        let symbol = number order.Big (spelled order.Little 4 r.r_type) in
        (⟦<Reloc as LaidOut<RelocCtx>>⟧.layout c).image r
        ≡ (⟦<Reloc as LaidOut<(bool, Ctx)>>⟧.layout (is_rela, ctx)).image
        (record r { r_sym = symbol; r_type = r.r_sym % 2 ^ 32 }) }
    ensures low { (is_rela : Bool) (ctx : Ctx) (r : Reloc) →
        let cut = (⟦<Reloc as LaidOut<(bool, Ctx)>>⟧.layout (is_rela, ctx)).low r in
        KeepsLow ctx.container r cut × KeepsLowAddend is_rela (word_size ctx.container) r.r_addend cut.r_addend }
    ensures zeros { (reloc : Reloc) → ⟦<Reloc as Default>⟧.is_default reloc → reloc ≡ reloc_zero }
    ensures default_ctx { (ctx : RelocCtx) → ⟦<RelocCtx as Default>⟧.is_default ctx → ctx ≡ reloc_ctx_default }
    ensures derived { ComparesAndClones ⟦<Reloc as PartialEq>⟧ ⟦<Reloc as Clone>⟧ }
    ensures derived_ctx { ComparesAndClones ⟦<RelocCtx as PartialEq>⟧ ⟦<RelocCtx as Clone>⟧ }
{}
