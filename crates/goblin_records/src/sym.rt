//! Symbols of either class: System V gABI, "Symbol Table".
ghost use Rattle.std.specs.Prelude.{◌≡◌, ◌<◌, ◌/◌, ◌↔◌, IsTrue, length, map, codes, IsOk, [], ◌∷◌, ◌%◌, ℕ};
ghost use Rattle.goblin_records.specs.Common.{ComparesAndClones, HasFields, IsSameInEachClass, buffer_too_short, Gives, Refuses};
ghost use Rattle.goblin_base.specs.declared.container.Container.TheVariants as class;
ghost use Rattle.goblin_records.specs.Constants.{bind_numbers, type_numbers, visibility_numbers};
ghost use Rattle.goblin_records.specs.Sym.{is_in_section, sym_layout, sym_size, sym_zero, symbols_from};
ghost use Rattle.goblin_records.specs.SymParts.{bind_of, type_of, visibility_of, IsGlobalImport, IsImport, type_name};
ghost use Rattle.goblin_records.specs.declared.sym.Sym.{Sym};

pub use crate::{sym32, sym64};
use goblin_base::container::{Container, Ctx, Endian};
use goblin_base::error::Result;
use goblin_base::laid_out::LaidOut;
use goblin_base::table::read_all;
use std::alloc::Global;

/// A symbol of either class.
#[derive(Clone, Copy, Debug, Default, PartialEq)]
pub struct Sym {
    /// The offset of the name in the string table, in bytes; 0 if there is none.
    pub st_name: usize,
    /// The binding in the high four bits and the type in the low four.
    pub st_info: u8,
    /// The visibility in the low three bits.
    pub st_other: u8,
    /// The index of the symbol's section, or a special index.
    pub st_shndx: usize,
    /// The value, an address for most symbols.
    pub st_value: u64,
    /// The size of the symbol in bytes; 0 if it has none or an unknown one.
    pub st_size: u64,
}

impl Sym {
    /// Returns the size of a symbol of a class: 16 or 24 bytes.
    pub fn size(container: Container) -> usize
        ensures { result ≡ sym_size container }
    {
        match container {
            Container::Little => sym32::SIZEOF_SYM,
            Container::Big => sym64::SIZEOF_SYM,
        }
    }

    /// Reports whether the symbol is imported: its binding is `STB_GLOBAL` or `STB_WEAK`, and its
    /// value is 0.
    pub fn is_import(&self) -> bool
        ensures { IsTrue result ↔ IsImport self.now.st_info self.now.st_value }
    {
        let bind = self.st_bind();
        (bind == STB_GLOBAL || bind == STB_WEAK) && self.st_value == 0
    }

    /// Reports whether the symbol is a function: its type is `STT_FUNC`.
    pub fn is_function(&self) -> bool
        ensures { IsTrue result ↔ (type_of self.now.st_info ≡ STT_FUNC) }
    {
        st_type(self.st_info) == STT_FUNC
    }

    /// Returns the binding: the high four bits of `st_info`.
    pub fn st_bind(&self) -> u8
        ensures { result ≡ bind_of self.now.st_info }
    {
        st_bind(self.st_info)
    }

    /// Returns the type: the low four bits of `st_info`.
    pub fn st_type(&self) -> u8
        ensures { result ≡ type_of self.now.st_info }
    {
        st_type(self.st_info)
    }

    /// Returns the visibility: the low three bits of `st_other`.
    pub fn st_visibility(&self) -> u8
        ensures { result ≡ visibility_of self.now.st_other }
    {
        st_visibility(self.st_other)
    }

    /// Reports whether the symbol lies in a section of the file: `st_shndx` is from 1 on and below
    /// 0xff00 (`SHN_LORESERVE`), or it is 0xffff (`SHN_XINDEX`), which says that the index stands
    /// elsewhere.
    #[inline]
    pub fn is_in_section(&self) -> bool
        ensures value { result ≡ is_in_section self.now }
    {
        (self.st_shndx > 0 && self.st_shndx < 0xff00) || self.st_shndx == 0xffff
    }

    /// Reads the `count` symbols from an offset on, as a vector. If `count` is 0 the vector is
    /// empty, whatever the offset, and nothing is allocated.
    ///
    /// # Errors
    ///
    /// `BufferTooShort` if `count` symbols don't fit into the bytes at any offset. This is tested
    /// before the allocation, so out-of-memory never masks it. Then memory for all symbols is
    /// allocated at once. Then the fault of the first symbol that the bytes don't hold.
    pub fn parse(
        alloc: Global,
        bytes: &[u8],
        offset: usize,
        count: usize,
        ctx: Ctx,
    ) -> Result<Vec<Sym>>
        ensures given { let expected = symbols_from bytes.now offset count ctx in Gives (λ v. v.items) result expected }
        ensures too_many { length bytes.now / sym_size ctx.container < count →
            Refuses result (buffer_too_short count (codes "symbols")) }
        ensures none { (count ≡ 0) → IsOk result }
    {
        read_all(alloc, bytes, offset, count, ctx, "symbols")
    }
}

impl LaidOut<Ctx> for Sym {
    ghost use Rattle.goblin_records.specs.SymLaws.{sym_laws};

    ghost layout = { λ ctx. sym_layout ctx.container ctx.le };

    fn size_in(ctx: Ctx) -> usize {
        Sym::size(ctx.container)
    }

    #[inline]
    fn get(bytes: &[u8], ctx: Ctx) -> Sym {
        // (asked here, the byte order isn't asked at each field)
        match (ctx.container, ctx.le) {
            (Container::Little, Endian::Little) => sym32::Sym::get(bytes, Endian::Little).into(),
            (Container::Little, Endian::Big) => sym32::Sym::get(bytes, Endian::Big).into(),
            (Container::Big, Endian::Little) => sym64::Sym::get(bytes, Endian::Little).into(),
            (Container::Big, Endian::Big) => sym64::Sym::get(bytes, Endian::Big).into(),
        }
    }

    fn put(self, bytes: &mut [u8], ctx: Ctx) {
        match ctx.container {
            Container::Little => sym32::Sym::from(self).put(bytes, ctx.le),
            Container::Big => sym64::Sym::from(self).put(bytes, ctx.le),
        }
    }

    ghost layout_laws = { λ ctx. sym_laws ctx.container ctx.le };
}

/// Returns the binding: the high four bits of `st_info`.
pub fn st_bind(info: u8) -> u8
    ensures { result ≡ bind_of info }
{
    info >> 4
}

/// Returns the type: the low four bits of `st_info`.
pub fn st_type(info: u8) -> u8
    ensures { result ≡ type_of info }
{
    info & 0xf
}

/// Returns the visibility: the low three bits of `st_other`.
pub fn st_visibility(other: u8) -> u8
    ensures { result ≡ visibility_of other }
{
    other & 0x7
}

/// Reports whether a symbol with this `st_info` and value is global and its value is 0. It is false
/// for weak symbols, unlike the methods of the same name.
pub fn is_import(info: u8, value: u64) -> bool
    ensures { IsTrue result ↔ IsGlobalImport info value }
{
    st_bind(info) == STB_GLOBAL && value == 0
}

/// Returns the name of the type of an `st_info`, as `type_to_str` does.
pub fn get_type(info: u8) -> &'static str
    ensures { result.now ≡ type_name (type_of info) }
{
    type_to_str(st_type(info))
}

/// Laws of symbols: a list of symbols that fit both classes is read back the same in each class and byte order. Where
/// each field lies in each class, and which low bits of it are kept. The visibility has three bits. Types from 2 on
/// have their names. All fields of the default symbol are 0. `==` is true exactly if all fields are equal. `clone`
/// returns the symbol, and never fails.
#[tactic(auto, using(crate::specs::SymLaws::same_symbols), unfolding(crate::specs::SymParts::type_name))]
pub fn laws()
    ensures same { IsSameInEachClass sym_layout }
    ensures places32 { HasFields
        (λ order. ⟦<Sym as LaidOut<Ctx>>⟧.layout (record { container = class.Little; le = order }))
        (λ s. s.st_name ∷ s.st_value ∷ s.st_size ∷ s.st_info ∷ s.st_other ∷ s.st_shndx ∷ [])
        ((0, 4) ∷ (4, 4) ∷ (8, 4) ∷ (12, 1) ∷ (13, 1) ∷ (14, 2) ∷ []) }
    ensures places64 { HasFields
        (λ order. ⟦<Sym as LaidOut<Ctx>>⟧.layout (record { container = class.Big; le = order }))
        (λ s. s.st_name ∷ s.st_info ∷ s.st_other ∷ s.st_shndx ∷ s.st_value ∷ s.st_size ∷ [])
        ((0, 4) ∷ (4, 1) ∷ (5, 1) ∷ (6, 2) ∷ (8, 8) ∷ (16, 8) ∷ []) }
    ensures visibility { (other : ℕ) → visibility_of other ≡ other % 8 }
    ensures type_names { map type_name (2 ∷ 3 ∷ 4 ∷ 5 ∷ 6 ∷ 7 ∷ 10 ∷ []) ≡ codes "FUNC" ∷ codes "SECTION" ∷ codes "FILE"
        ∷ codes "COMMON" ∷ codes "TLS" ∷ codes "NUM" ∷ codes "GNU_IFUNC" ∷ [] }
    ensures zeros { (sym : Sym) → ⟦<Sym as Default>⟧.is_default sym → sym ≡ sym_zero }
    ensures derived { ComparesAndClones ⟦<Sym as PartialEq>⟧ ⟦<Sym as Clone>⟧ }
{}

// The constants of symbols and their names.
pub use crate::constants_sym::{
    STB_GLOBAL, STB_GNU_UNIQUE, STB_HIOS, STB_HIPROC, STB_LOCAL, STB_LOOS, STB_LOPROC, STB_NUM,
    STB_WEAK, STT_COMMON, STT_FILE, STT_FUNC, STT_GNU_IFUNC, STT_HIOS, STT_HIPROC, STT_LOOS,
    STT_LOPROC, STT_NOTYPE, STT_NUM, STT_OBJECT, STT_SECTION, STT_TLS, STV_DEFAULT, STV_ELIMINATE,
    STV_EXPORTED, STV_HIDDEN, STV_INTERNAL, STV_PROTECTED, STV_SINGLETON, bind_to_str, type_to_str,
    visibility_to_str,
};

/// Laws: the numbers of the constants that this module re-exports, under the names that they have
/// here. A call does nothing.
pub fn constants()
    ensures bindings { STB_LOCAL ∷ STB_GLOBAL ∷ STB_WEAK ∷ STB_NUM ∷ STB_LOOS ∷ STB_GNU_UNIQUE
        ∷ STB_HIOS ∷ STB_LOPROC ∷ STB_HIPROC ∷ [] ≡ bind_numbers }
    ensures types { STT_NOTYPE ∷ STT_OBJECT ∷ STT_FUNC ∷ STT_SECTION ∷ STT_FILE ∷ STT_COMMON
        ∷ STT_TLS ∷ STT_NUM ∷ STT_LOOS ∷ STT_GNU_IFUNC ∷ STT_HIOS ∷ STT_LOPROC ∷ STT_HIPROC ∷ [] ≡ type_numbers }
    ensures visibilities { STV_DEFAULT ∷ STV_INTERNAL ∷ STV_HIDDEN ∷ STV_PROTECTED ∷ STV_EXPORTED
        ∷ STV_SINGLETON ∷ STV_ELIMINATE ∷ [] ≡ visibility_numbers }
{}
