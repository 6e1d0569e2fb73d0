//! Tags of entries, and the flags of two of them: System V gABI, "Dynamic Section", and the extensions of GNU.
ghost use Rattle.std.specs.Prelude.{◌≡◌, [], ◌∷◌};

// Tags of the standard. All sizes are in bytes.

/// No entry: the end of the entries.
pub const DT_NULL: u64 = 0;
/// The name of a library that is needed: an offset in the string table.
pub const DT_NEEDED: u64 = 1;
/// The size of the relocations of the procedure linkage table.
pub const DT_PLTRELSZ: u64 = 2;
/// The address of the symbol hash table.
pub const DT_HASH: u64 = 4;
/// The address of the string table.
pub const DT_STRTAB: u64 = 5;
/// The address of the symbol table.
pub const DT_SYMTAB: u64 = 6;
/// The address of relocations with addends.
pub const DT_RELA: u64 = 7;
/// The size of the relocations with addends.
pub const DT_RELASZ: u64 = 8;
/// The size of the string table.
pub const DT_STRSZ: u64 = 10;
/// The name of this library: an offset in the string table.
pub const DT_SONAME: u64 = 14;
/// The library search path in older files: an offset in the string table.
pub const DT_RPATH: u64 = 15;
/// The address of relocations without addends.
pub const DT_REL: u64 = 17;
/// The size of the relocations without addends.
pub const DT_RELSZ: u64 = 18;
/// The kind of the relocations of the procedure linkage table: `DT_REL` or `DT_RELA`.
pub const DT_PLTREL: u64 = 20;
/// For debuggers.
pub const DT_DEBUG: u64 = 21;
/// Relocations may change a segment that is not writable.
pub const DT_TEXTREL: u64 = 22;
/// The address of the relocations of the procedure linkage table.
pub const DT_JMPREL: u64 = 23;
/// All relocations are processed before the program runs.
pub const DT_BIND_NOW: u64 = 24;
/// The library search path: an offset in the string table.
pub const DT_RUNPATH: u64 = 29;
/// The `DF_` flags.
pub const DT_FLAGS: u64 = 30;
/// The size of the relative relocations.
pub const DT_RELRSZ: u64 = 35;
/// The address of relative relocations.
pub const DT_RELR: u64 = 36;

// Tags of GNU.

/// The address of the symbol hash table of GNU.
pub const DT_GNU_HASH: u64 = 0x6fff_fef5;
/// The `DF_1_` flags.
pub const DT_FLAGS_1: u64 = 0x6fff_fffb;
/// The address of the versions that are needed.
pub const DT_VERNEED: u64 = 0x6fff_fffe;
/// The number of libraries of which versions are needed.
pub const DT_VERNEEDNUM: u64 = 0x6fff_ffff;

// Flags of `DT_FLAGS`.

/// A search path may name the folder of this file (`$ORIGIN`).
pub const DF_ORIGIN: u64 = 1;
/// Symbols are searched in this library before the program.
pub const DF_SYMBOLIC: u64 = 1 << 1;
/// As `DT_TEXTREL`.
pub const DF_TEXTREL: u64 = 1 << 2;
/// As `DT_BIND_NOW`.
pub const DF_BIND_NOW: u64 = 1 << 3;
/// Thread-local storage is static, so the running program can't load the library.
pub const DF_STATIC_TLS: u64 = 1 << 4;

// Flags of `DT_FLAGS_1`.

/// As `DT_BIND_NOW`.
pub const DF_1_NOW: u64 = 1;
/// All libraries may use the symbols.
pub const DF_1_GLOBAL: u64 = 1 << 1;
/// The library is never unloaded.
pub const DF_1_NODELETE: u64 = 1 << 3;
/// The library is initialized before others.
pub const DF_1_INITFIRST: u64 = 1 << 5;
/// The running program can't load the library.
pub const DF_1_NOOPEN: u64 = 1 << 6;
/// As `DF_ORIGIN`.
pub const DF_1_ORIGIN: u64 = 1 << 7;
/// The symbols come before those of other libraries.
pub const DF_1_INTERPOSE: u64 = 1 << 10;
/// The default search path is not used.
pub const DF_1_NODEFLIB: u64 = 1 << 11;
/// A position-independent executable.
pub const DF_1_PIE: u64 = 1 << 27;

/// Laws: the numbers of the constants of this module. A call does nothing.
pub fn constants()
    ensures tags { DT_NULL ∷ DT_NEEDED ∷ DT_PLTRELSZ ∷ DT_HASH ∷ DT_STRTAB ∷ DT_SYMTAB ∷ DT_RELA ∷ DT_RELASZ
        ∷ DT_STRSZ ∷ DT_SONAME ∷ DT_RPATH ∷ DT_REL ∷ DT_RELSZ ∷ DT_PLTREL ∷ DT_DEBUG ∷ DT_TEXTREL ∷ DT_JMPREL
        ∷ DT_BIND_NOW ∷ DT_RUNPATH ∷ DT_FLAGS ∷ DT_RELRSZ ∷ DT_RELR ∷ []
        ≡ 0 ∷ 1 ∷ 2 ∷ 4 ∷ 5 ∷ 6 ∷ 7 ∷ 8 ∷ 10 ∷ 14 ∷ 15 ∷ 17 ∷ 18 ∷ 20 ∷ 21 ∷ 22 ∷ 23 ∷ 24 ∷ 29 ∷ 30 ∷ 35 ∷ 36
        ∷ [] }
    ensures gnu { DT_GNU_HASH ∷ DT_FLAGS_1 ∷ DT_VERNEED ∷ DT_VERNEEDNUM ∷ []
        ≡ 0x6fff_fef5 ∷ 0x6fff_fffb ∷ 0x6fff_fffe ∷ 0x6fff_ffff ∷ [] }
    ensures flags { DF_ORIGIN ∷ DF_SYMBOLIC ∷ DF_TEXTREL ∷ DF_BIND_NOW ∷ DF_STATIC_TLS ∷ []
        ≡ 0x1 ∷ 0x2 ∷ 0x4 ∷ 0x8 ∷ 0x10 ∷ [] }
    ensures flags_1 { DF_1_NOW ∷ DF_1_GLOBAL ∷ DF_1_NODELETE ∷ DF_1_INITFIRST ∷ DF_1_NOOPEN ∷ DF_1_ORIGIN
        ∷ DF_1_INTERPOSE ∷ DF_1_NODEFLIB ∷ DF_1_PIE ∷ []
        ≡ 0x1 ∷ 0x2 ∷ 0x8 ∷ 0x20 ∷ 0x40 ∷ 0x80 ∷ 0x400 ∷ 0x800 ∷ 0x800_0000 ∷ [] }
{}
