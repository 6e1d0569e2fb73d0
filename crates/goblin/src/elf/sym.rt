//! Symbols and symbol tables: System V gABI, "Symbol Table".
ghost use Rattle.std.specs.Prelude.{◌≡◌, ◌≤◌, ◌<◌, ◌+◌, ◌-◌, ◌*◌, ◌%◌, ◌^◌, ◌↔◌, ◌⊎◌, ℕ, List, [], ◌∷◌, drop, length, slice_get, IsTrue, IfOk, IfErr, IfSome, IsOk, alloc_error, position};
ghost use Rattle.std.specs.Option.{option_map};
ghost use Rattle.goblin.specs.Addresses.{found_at, has_place, holds, is_below, is_held, is_nearer, is_nearest, is_taken, reaches, symbol_at, taken, SymbolAtComesFirst};
ghost use Rattle.goblin.specs.Symtab.{symbols_at, symtab_by, symtab_in, symtab_of, DependsOnItsRange, PermissiveKeepsStrict, SymtabsRefused};
ghost use Rattle.goblin_base.specs.Strtab.{has_name};
ghost use Rattle.goblin_records.specs.Constants.{bind_numbers, type_numbers, visibility_numbers};
ghost use Rattle.goblin_records.specs.Sym.{sym_size};
ghost use Rattle.goblin_records.specs.SymParts.{bind_name, bind_of, type_name, type_of, visibility_name, visibility_of, IsGlobalImport};

use goblin_base::container::{Container, Ctx};
use goblin_base::error::{Error, Fault, Result};
use goblin_base::options::{ParseMode, ParseOptions};
use goblin_base::strtab::{Strtab, WantedName};
use goblin_base::table::{Table, TableIter};
use goblin_headers::header::ET_REL;
use goblin_headers::section_header::{SHN_LORESERVE, SectionHeader};
pub use goblin_records::sym::{
    STB_GLOBAL, STB_GNU_UNIQUE, STB_HIOS, STB_HIPROC, STB_LOCAL, STB_LOOS, STB_LOPROC, STB_NUM,
    STB_WEAK, STT_COMMON, STT_FILE, STT_FUNC, STT_GNU_IFUNC, STT_HIOS, STT_HIPROC, STT_LOOS,
    STT_LOPROC, STT_NOTYPE, STT_NUM, STT_OBJECT, STT_SECTION, STT_TLS, STV_DEFAULT, STV_ELIMINATE,
    STV_EXPORTED, STV_HIDDEN, STV_INTERNAL, STV_PROTECTED, STV_SINGLETON, Sym, bind_to_str,
    get_type, is_import, st_bind, st_type, st_visibility, sym32, sym64, type_to_str,
    visibility_to_str,
};
use std::alloc::Global;
use std::marker::Model;

/// A symbol table. Each symbol is read from the file's bytes when it is asked for.
///
/// It allocates nothing, and its symbols outlive it.
#[derive(Debug, Drop)]
pub struct Symtab<'a> {
    table: Table<'a, Sym, Ctx>,
    offset: usize,
    ctx: Ctx,
}

// A symbol table is seen as its symbols, with the offset and the context that it was parsed with.
impl<'a> Model for Symtab<'a> {
    ghost use Rattle.goblin.specs.Symtab.{Symbols};

    ghost Value = { Symbols };

    ghost view = { λ t. record { symbols = t.table; offset = t.offset; ctx = t.ctx } };
}

impl<'a> Symtab<'a> {
    /// Parses the table of `count` symbols from an offset on.
    ///
    /// # Errors
    ///
    /// The first of these that applies:
    ///
    /// - `SymtabOffset`: the offset is at the file's end or past it, even if `count` is 0.
    /// - `TooManySymbols`: the size of all symbols doesn't fit `usize`.
    /// - `SymtabPast`: fewer bytes follow the offset than the symbols take.
    ///
    /// <!-- quoted: crates/goblin_uses/src/functions.rt -->
    /// ```
    /// symbols.iter().filter(|symbol| symbol.is_function()).count()
    /// ```
    pub fn parse(bytes: &'a [u8], offset: usize, count: usize, ctx: Ctx) -> Result<Symtab<'a>>
        ensures { result ≡ symtab_of bytes.now offset count ctx }
    {
        Symtab::parse_with_opts(bytes, offset, count, ctx, &ParseOptions::strict())
    }

    /// Parses the table of `count` symbols from an offset on, with options.
    ///
    /// Strict options do what [`Symtab::parse`] does. Permissive options return an empty table if
    /// the offset is at the file's end or past it, and as many symbols as the bytes hold if `count`
    /// is greater.
    ///
    /// # Errors
    ///
    /// Strict: those of [`Symtab::parse`]. Permissive: only `TooManySymbols`.
    #[tactic(auto, unfolding(goblin_base::specs::Record::records))]
    pub fn parse_with_opts(
        bytes: &'a [u8],
        offset: usize,
        count: usize,
        ctx: Ctx,
        opts: &ParseOptions,
    ) -> Result<Symtab<'a>>
        ensures { result ≡ symtab_by opts.now.parse_mode bytes.now offset count ctx }
    {
        if offset >= bytes.len() {
            return match opts.parse_mode {
                ParseMode::Strict => Err(Error::Malformed(Fault::SymtabOffset {
                    offset,
                    len: bytes.len(),
                })),
                ParseMode::Permissive => Ok(Symtab {
                    table: Table::of(&[], 0, ctx),
                    offset,
                    ctx,
                }),
            };
        }
        let size = Sym::size(ctx.container);
        let Some(requested) = count.checked_mul(size) else {
            return Err(Error::Malformed(Fault::TooManySymbols { offset, count }));
        };
        let available = bytes.len() - offset;
        if requested <= available {
            return Ok(Symtab::of(bytes, offset, count, ctx));
        }
        match opts.parse_mode {
            ParseMode::Strict => Err(Error::Malformed(Fault::SymtabPast {
                requested,
                available,
            })),
            ParseMode::Permissive => Ok(Symtab::of(bytes, offset, available / size, ctx)),
        }
    }

    /// Parses the symbol table of a section: as many symbols as `size` bytes from an offset on hold
    /// whole.
    ///
    /// <!-- quoted: crates/goblin_uses/src/symbols.rt -->
    /// ```
    /// let offset = section.sh_offset as usize;
    /// let size = section.sh_size as usize;
    /// Symtab::in_range(bytes, offset, size, ctx, &ParseOptions::strict())
    /// ```
    ///
    /// # Errors
    ///
    /// Those of [`Symtab::parse_with_opts`] with that count.
    pub fn in_range(
        bytes: &'a [u8],
        offset: usize,
        size: usize,
        ctx: Ctx,
        opts: &ParseOptions,
    ) -> Result<Symtab<'a>>
        ensures value { result ≡ symtab_in opts.now.parse_mode bytes.now offset size ctx }
    {
        // (a division by a constant takes a fraction of the time)
        let count = match ctx.container {
            Container::Little => size / sym32::SIZEOF_SYM,
            Container::Big => size / sym64::SIZEOF_SYM,
        };
        Symtab::parse_with_opts(bytes, offset, count, ctx, opts)
    }

    // Returns the table of `count` symbols, which the bytes from the offset on must hold.
    fn of(bytes: &'a [u8], offset: usize, count: usize, ctx: Ctx) -> Symtab<'a>
        requires within { offset ≤ length bytes.now }
        requires room { count * sym_size ctx.container ≤ length bytes.now - offset }
        ensures { result ≡ symbols_at bytes.now offset count ctx }
    {
        Symtab {
            table: Table::of(&bytes[offset..], count, ctx),
            offset,
            ctx,
        }
    }

    /// Returns the symbol at an index, or `None` past the end.
    pub fn get(&self, index: usize) -> Option<Sym>
        ensures { result ≡ slice_get self.now.symbols index }
    {
        self.table.get(index)
    }

    /// Returns the number of symbols.
    pub fn len(&self) -> usize
        ensures value { result ≡ length self.now.symbols }
        ensures bound { result < usize.MAX }
    {
        self.table.len()
    }

    /// Returns the file offset of the table in bytes.
    pub fn offset(&self) -> usize
        ensures { result ≡ self.now.offset }
    {
        self.offset
    }

    /// Returns the class and the byte order of the symbols.
    pub fn ctx(&self) -> &Ctx
        ensures { result.now ≡ self.now.ctx }
    {
        &self.ctx
    }

    /// Reports whether there are no symbols.
    pub fn is_empty(&self) -> bool
        ensures { IsTrue result ↔ (self.now.symbols ≡ []) }
    {
        self.table.is_empty()
    }

    /// Returns an iterator over the symbols.
    pub fn iter(&self) -> SymIterator<'a>
        ensures value { result ≡ self.now.symbols }
        ensures bound { length self.now.symbols < 2 ^ 64 }
    {
        self.table.iter()
    }

    /// Returns the index of the first symbol with this name, or `None` if there is none.
    ///
    /// Names are read from the table's string table as [`Strtab::get`] reads them: a symbol whose
    /// name is past the table's end or isn't UTF-8 has no name. At most `name.len() + 1` bytes are
    /// read for each symbol.
    pub fn find(&self, names: &Strtab<'_>, name: &[u8]) -> Option<usize>
        ensures { let is_named = has_name names.now.bytes names.now.delim in
            result ≡ position (λ symbol. is_named symbol.st_name name.now) self.now.symbols }
    {
        let wanted = names.wanted(name);
        self.iter().position(|symbol| wanted.is_at(symbol.st_name))
    }

    /// Returns the index of the first symbol with this name, as [`Symtab::find`] does. The names
    /// are read from the bytes of a string table whose strings end with `delim`.
    pub fn find_in(&self, strings: &[u8], delim: u8, name: &[u8]) -> Option<usize>
        ensures { result ≡ position (λ symbol. has_name strings.now delim symbol.st_name name.now) self.now.symbols }
    {
        self.position_from(0, strings, delim, name)
    }

    // Returns the position of the first symbol with this name among those from an index on.
    fn position_from(&self, first: usize, strings: &[u8], delim: u8, name: &[u8]) -> Option<usize>
        ensures value { result ≡ position (λ symbol.
            has_name strings.now delim symbol.st_name name.now) (drop first self.now.symbols) }
        ensures bound { IfSome result (λ place. first + place < 2 ^ 64) }
    {
        let wanted = WantedName::new(name, delim);
        self.iter()
            .skip(first)
            .position(|symbol| wanted.is_at(strings, symbol.st_name))
    }

    /// Returns the index of the first symbol with this name from an index on, as [`Symtab::find_in`]
    /// does from index 0 on.
    pub fn find_in_from(
        &self,
        first: usize,
        strings: &[u8],
        delim: u8,
        name: &[u8],
    ) -> Option<usize>
        ensures { result ≡ option_map (λ place. first + place) (position (λ symbol.
            has_name strings.now delim symbol.st_name name.now) (drop first self.now.symbols)) }
    {
        let place = self.position_from(first, strings, delim, name)?;
        Some(first + place)
    }

    /// Returns the index of the symbol of an address, or `None` if there is none. `sections` are the
    /// section headers of the file, as `SectionHeader::table` reads them, and `e_type` is its type.
    ///
    /// It is the symbol with the highest value among those whose bytes contain the address, the first
    /// of several. If no symbol contains the address, it is a label of size 0. Of the symbols with a
    /// value that isn't above the address, only those whose section (`st_shndx`) holds it are
    /// considered. Of these with the highest value, the label is the first of size 0. A section in
    /// memory (`SHF_ALLOC`) holds the addresses from `sh_addr` to below `sh_addr + sh_size`, and any
    /// other none. In a relocatable file (`ET_REL`) values are offsets in sections, so there each
    /// section holds those below `sh_size`.
    ///
    /// Only symbols of a section of the file are considered, and of these only those without a type,
    /// objects, functions and indirect functions. The call reads all symbols once, and for each at most
    /// one section header.
    #[tactic(auto, using(crate::proofs::AddressLemmas::searched))]
    pub fn at(
        &self,
        address: u64,
        sections: &Table<'_, SectionHeader, Ctx>,
        e_type: u16,
    ) -> Option<usize>
        ensures { result ≡ symbol_at address sections.now e_type self.now.symbols }
    {
        let mut found = None;
        for i in 0..self.len() {
            if let Some(symbol) = self.get(i) {
                found = nearer(address, sections, e_type, i, symbol, found);
            }
        }
        found_at(address, found)
    }

    /// Returns the symbols as a vector. The only error is out of memory. An empty table allocates
    /// nothing.
    pub fn to_vec(&self, alloc: Global) -> Result<Vec<Sym>>
        ensures ok { IfOk result (λ v. v.items ≡ self.now.symbols) }
        ensures err { IfErr result (λ e. e ≡ Error.Memory alloc_error) }
        ensures none { (self.now.symbols ≡ []) → IsOk result }
    {
        self.table.to_vec(alloc)
    }
}

// Reports whether a symbol has an address in a section.
fn has_place(symbol: &Sym) -> bool
    ensures { result ≡ has_place symbol.now }
{
    let typ = symbol.st_type();
    let is_of_bytes = typ == STT_NOTYPE
        || typ == STT_OBJECT
        || typ == STT_FUNC
        || typ == STT_GNU_IFUNC;
    symbol.is_in_section() && is_of_bytes
}

// Reports whether a symbol that has a place is at an address or below it.
fn is_below(address: u64, symbol: &Sym) -> bool
    ensures { result ≡ is_below address symbol.now }
{
    has_place(symbol) && symbol.st_value <= address
}

// Reports whether the bytes of a symbol reach past an address.
fn reaches(address: u64, symbol: &Sym) -> bool
    ensures { result ≡ reaches address symbol.now }
{
    match symbol.st_value.checked_add(symbol.st_size) {
        Some(end) => address < end,
        None => true,
    }
}

// Reports whether a section holds an address, for which it must be in memory: in a relocatable file, an offset in the
// section.
fn holds(address: u64, e_type: u16, section: &SectionHeader) -> bool
    ensures { result ≡ holds address e_type section.now }
{
    if e_type == ET_REL {
        return address < section.sh_size;
    }
    section.is_alloc() && section.sh_addr <= address && address - section.sh_addr < section.sh_size
}

// Reports whether the section of a symbol holds an address.
fn is_held(
    address: u64,
    sections: &Table<'_, SectionHeader, Ctx>,
    e_type: u16,
    symbol: &Sym,
) -> bool
    ensures { result ≡ is_held address sections.now e_type symbol.now }
{
    if symbol.st_shndx >= SHN_LORESERVE as usize {
        return false;
    }
    match sections.get(symbol.st_shndx) {
        Some(section) => holds(address, e_type, &section),
        None => false,
    }
}

// Reports whether of two candidates for an address the first is nearer.
fn is_nearer(address: u64, symbol: &Sym, other: &Sym) -> bool
    ensures { result ≡ is_nearer address symbol.now other.now }
{
    let contains = reaches(address, symbol);
    if contains != reaches(address, other) {
        return contains;
    }
    if symbol.st_value != other.st_value {
        return symbol.st_value > other.st_value;
    }
    !contains && symbol.st_size == 0 && other.st_size != 0
}

// Reports whether a symbol is nearer than the one found before it, if there is one.
fn is_nearest(address: u64, symbol: &Sym, found: &Option<(usize, Sym)>) -> bool
    ensures { result ≡ is_nearest address symbol.now found.now }
{
    match found {
        Some((_, before)) => is_nearer(address, symbol, before),
        None => true,
    }
}

// Reports whether a symbol is a candidate and nearer than the one found before it. Its section header is read last, if
// nothing else decides.
fn is_taken(
    address: u64,
    sections: &Table<'_, SectionHeader, Ctx>,
    e_type: u16,
    symbol: &Sym,
    found: &Option<(usize, Sym)>,
) -> bool
    ensures { result ≡ is_taken address sections.now e_type symbol.now found.now }
{
    is_below(address, symbol)
        && is_nearest(address, symbol, found)
        && (reaches(address, symbol) || is_held(address, sections, e_type, symbol))
}

// Returns the nearer of the symbol at an index and the one found before it.
fn nearer(
    address: u64,
    sections: &Table<'_, SectionHeader, Ctx>,
    e_type: u16,
    i: usize,
    symbol: Sym,
    found: Option<(usize, Sym)>,
) -> Option<(usize, Sym)>
    ensures { result ≡ taken address sections.now e_type i symbol found }
{
    if is_taken(address, sections, e_type, &symbol, &found) {
        Some((i, symbol))
    } else {
        found
    }
}

// Returns the index of the symbol that was found, if it contains the address or has size 0.
fn found_at(address: u64, found: Option<(usize, Sym)>) -> Option<usize>
    ensures { result ≡ found_at address found }
{
    match found {
        Some((i, symbol)) if reaches(address, &symbol) || symbol.st_size == 0 => Some(i),
        _ => None,
    }
}

/// The default is an empty table at offset 0, in the default context.
impl Default for Symtab<'_> {
    ghost use Rattle.goblin_base.specs.declared.container.Container.TheVariants as class;
    ghost use Rattle.goblin_base.specs.declared.container.Endian.TheVariants as order;

    ghost is_default = { λ t. t ≡ record {
      symbols = [];
      offset = 0;
      ctx = record { container = class.Big; le = order.Little };
    } };

    #[tactic(auto, unfolding(goblin_base::specs::Record::records))]
    fn default() -> Self {
        Symtab {
            table: Table::of(&[], 0, Ctx::default()),
            offset: 0,
            ctx: Ctx::default(),
        }
    }
}

impl<'a, 'b> IntoIterator for &'b Symtab<'a> {
    type Item = Sym;

    type IntoIter = SymIterator<'a>;

    ghost into_iter_gives = { λ t symbols. symbols ≡ t.now.symbols };

    fn into_iter(self) -> Self::IntoIter
        ensures value { result ≡ self.now.symbols }
        ensures bound { length self.now.symbols < 2 ^ 64 }
    {
        self.iter()
    }
}

/// An iterator over the symbols of a table, from the first to the last.
pub type SymIterator<'a> = TableIter<'a, Sym, Ctx>;

// A law: what the calls return that this module re-exports, under the names that they have here.
fn names(number: u8) -> (&'static str, &'static str, &'static str, &'static str)
    ensures bind { result.0.now ≡ bind_name number }
    ensures of_type { result.1.now ≡ type_name number }
    ensures visibility { result.2.now ≡ visibility_name number }
    ensures of_info { result.3.now ≡ type_name (type_of number) }
{
    (
        bind_to_str(number),
        type_to_str(number),
        visibility_to_str(number),
        get_type(number),
    )
}

// A law, as above.
fn parts(info: u8, other: u8, value: u64) -> (u8, u8, u8, bool)
    ensures bind { result.0 ≡ bind_of info }
    ensures of_type { result.1 ≡ type_of info }
    ensures visibility { result.2 ≡ visibility_of other }
    ensures import { IsTrue result.3 ↔ IsGlobalImport info value }
{
    (
        st_bind(info),
        st_type(info),
        st_visibility(other),
        is_import(info, value),
    )
}

/// Laws: the numbers of the constants that this module re-exports.
pub fn constants()
    ensures bindings { STB_LOCAL ∷ STB_GLOBAL ∷ STB_WEAK ∷ STB_NUM ∷ STB_LOOS ∷ STB_GNU_UNIQUE ∷
        STB_HIOS ∷ STB_LOPROC ∷ STB_HIPROC ∷ [] ≡ bind_numbers }
    ensures types { STT_NOTYPE ∷ STT_OBJECT ∷ STT_FUNC ∷ STT_SECTION ∷ STT_FILE ∷ STT_COMMON ∷
        STT_TLS ∷ STT_NUM ∷ STT_LOOS ∷ STT_GNU_IFUNC ∷ STT_HIOS ∷ STT_LOPROC ∷ STT_HIPROC ∷ [] ≡ type_numbers }
    ensures visibilities { STV_DEFAULT ∷ STV_INTERNAL ∷ STV_HIDDEN ∷ STV_PROTECTED ∷ STV_EXPORTED ∷
        STV_SINGLETON ∷ STV_ELIMINATE ∷ [] ≡ visibility_numbers }
{}

/// Laws: which tables are refused, and as what. A table that strict options accept is the same with permissive ones. A
/// table depends only on the bytes of its range and on the file's length.
#[tactic(auto, using(crate::specs::SymtabLaws::permissive_keeps_strict, crate::specs::SymtabLaws::depends_on_its_range, crate::proofs::RefusalLemmas::symtabs_refused))]
pub fn laws()
    ensures refused { (bytes : List ℕ) (offset count : ℕ) (ctx : Ctx) → SymtabsRefused bytes offset count ctx }
    ensures permissive { PermissiveKeepsStrict }
    ensures range { DependsOnItsRange }
{}

/// Laws: which symbols have an address in a section, and which bytes are a symbol's. Of the symbols that contain an
/// address, the one that [`Symtab::at`] finds is as high as any and the first of those as high. If none contains it,
/// the one found has size 0, and is at the address or below it in a section that holds the address. Of the symbols
/// there it is as high as any, and the first of size 0 of those as high. `None` is returned exactly if no symbol
/// contains the address, and each one of size 0 there has a higher one there.
pub fn addresses()
    ensures first { SymbolAtComesFirst }
    ensures has_place { (s : Sym) → IsTrue (has_place s)
        ↔ (((0 < s.st_shndx) × (s.st_shndx < 0xff00)) ⊎ (s.st_shndx ≡ 0xffff))
        × ((s.st_info % 16 ≡ 0) ⊎ (s.st_info % 16 ≡ 1) ⊎ (s.st_info % 16 ≡ 2) ⊎ (s.st_info % 16 ≡ 10)) }
    ensures reaches { (address : ℕ) (s : Sym) → IsTrue (reaches address s) ↔ (address < s.st_value + s.st_size) }
{}
