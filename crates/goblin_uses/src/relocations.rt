//! The relocations of a file.
ghost use Rattle.std.specs.Prelude.{◌≡◌, ◌++◌, ◌==◌, Err, IfErr, IfOk, OnOk, codes, count_by, decimal, length, map, not, pos, string_bytes, unwrap_or};
ghost use Rattle.std.specs.Fmt.{signed_decimal};
ghost use Rattle.goblin.specs.Texts.{◌&◌, hexadecimal};
ghost use Rattle.goblin_uses.specs.Listed.{relocations_of};

use goblin::container::Ctx;
use goblin::elf::header::Header;
use goblin::elf::reloc::{RelocSection, is_mips64el};
use goblin::elf::section_header::{SHT_RELA, SectionHeader};
use goblin::error::Result;
use std::alloc::{AllocError, Global};

/// What is shown of a relocation.
#[derive(Clone, Copy, Debug, PartialEq)]
pub struct Row {
    /// The offset or the address that is relocated.
    pub offset: u64,
    /// The index of the symbol, or 0 if there is none.
    pub symbol: usize,
    /// The addend, or 0 if there is none.
    pub addend: i64,
}

/// Returns the rows of the relocations of a section, in order.
///
/// # Errors
///
/// Those of the relocations, else out of memory.
pub fn rows(
    alloc: Global,
    bytes: &[u8],
    section: &SectionHeader,
    header: &Header,
    ctx: Ctx,
) -> Result<Vec<Row>>
    ensures ok { IfOk (relocations_of bytes.now section.now header.now ctx)
        (λ relocations. IfOk result (λ rows. rows.items ≡ map (λ r. record {
          offset = r.r_offset;
          symbol = r.r_sym;
          addend = unwrap_or r.r_addend (pos 0);
        }) relocations)) }
    ensures first { IfErr (relocations_of bytes.now section.now header.now ctx) (λ e. result ≡ Err e) }
{
    let relocations = RelocSection::parse_inner(
        bytes,
        section.sh_offset as usize,
        section.sh_size as usize,
        section.sh_type == SHT_RELA,
        ctx,
        is_mips64el(header),
    )?;
    let rows = relocations.iter().map(|reloc| Row {
        offset: reloc.r_offset,
        symbol: reloc.r_sym,
        addend: reloc.r_addend.unwrap_or(0),
    });
    Ok(rows.collect(alloc)?)
}

/// Returns the number of rows that name a symbol.
pub fn count_named(rows: &[Row]) -> usize
    ensures { result ≡ count_by (λ row. not (row.symbol == 0)) rows.now }
{
    rows.iter().filter(|row| row.symbol != 0).count()
}

/// Adds the lines of the relocations of a section.
///
/// # Errors
///
/// Those of the relocations, else out of memory.
pub fn push_relocations(
    alloc: Global,
    text: &mut String,
    bytes: &[u8],
    section: &SectionHeader,
    header: &Header,
    ctx: Ctx,
) -> Result<()>
    ensures first { IfErr (relocations_of bytes.now section.now header.now ctx) (λ e. result ≡ Err e) }
{
    let rows = rows(alloc, bytes, section, header, ctx)?;
    push_count(text, rows.as_slice())?;
    for (index, row) in rows.iter().enumerate() {
        push_line(text, index, row)?;
    }
    Ok(())
}

// Adds the line with the number of relocations that name a symbol.
fn push_count(text: &mut String, rows: &[Row]) -> std::result::Result<(), AllocError>
    ensures { let named = count_by (λ row. not (row.symbol == 0)) rows.now in
        OnOk result (string_bytes text.new ≡ string_bytes text.old ++ (decimal named & codes " of "
        & decimal (length rows.now) & codes " relocations name a symbol\n")) }
{
    let named = count_named(rows);
    let all = rows.len();
    write!(text, "{named} of {all} relocations name a symbol\n")
}

// Adds the line of one relocation.
fn push_line(text: &mut String, index: usize, row: &Row) -> std::result::Result<(), AllocError>
    ensures { OnOk result (string_bytes text.new ≡ string_bytes text.old ++ (decimal index
        & codes " at 0x" & hexadecimal row.now.offset & codes ": symbol " & decimal row.now.symbol
        & codes ", addend " & signed_decimal row.now.addend & codes "\n")) }
{
    let offset = row.offset;
    let symbol = row.symbol;
    let addend = row.addend;
    write!(
        text,
        "{index} at 0x{offset:x}: symbol {symbol}, addend {addend}\n"
    )
}
