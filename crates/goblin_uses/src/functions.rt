//! The functions among a file's symbols.
ghost use Rattle.std.specs.Prelude.{◌≡◌, ◌≤◌, ◌++◌, [], All, Contains, Err, IfErr, IfOk, IfSome, MatchOption, OnOk, alloc_error, codes, count_by, decimal, filter, length, string_bytes, unwrap_or};
ghost use Rattle.goblin.specs.Strtab.{look_up};
ghost use Rattle.goblin.specs.Symtab.{symtab_in};
ghost use Rattle.goblin.specs.Texts.{◌&◌, hexadecimal};
ghost use Rattle.goblin_uses.specs.Listed.{is_function};

use crate::names::push_names;
use crate::symbols::{bytes_of, symbols_of};
use goblin::container::Ctx;
use goblin::elf::section_header::SectionHeader;
use goblin::elf::sym::{Sym, Symtab};
use goblin::error::{Error, Result};
use goblin::options::ParseMode;
use goblin::strtab::Strtab;
use std::alloc::{AllocError, Global};

/// Returns the number of functions.
pub fn count_functions(symbols: &Symtab) -> usize
    ensures { result ≡ count_by is_function symbols.now.symbols }
{
    symbols.iter().filter(|symbol| symbol.is_function()).count()
}

/// Returns the functions. The only error is out of memory.
pub fn functions(alloc: Global, symbols: &Symtab) -> Result<Vec<Sym>>
    ensures ok { IfOk result (λ v. v.items ≡ filter is_function symbols.now.symbols) }
    ensures err { IfErr result (λ e. e ≡ Error.Memory alloc_error) }
{
    let functions = symbols.iter().filter(|symbol| symbol.is_function());
    Ok(functions.collect(alloc)?)
}

/// Returns a symbol of the greatest size, or `None` if there are no symbols.
pub fn largest(symbols: &[Sym]) -> Option<Sym>
    ensures greatest { MatchOption result (symbols.now ≡ [])
        (λ largest. All (λ s. s.st_size ≤ largest.st_size) symbols.now) }
    ensures among { IfSome result (λ largest. Contains symbols.now largest) }
{
    symbols.iter().copied().max_by_key(|symbol| symbol.st_size)
}

/// Adds the lines of the functions of a symbol section, whose names are in a string section.
///
/// # Errors
///
/// Those of the symbols, else those of the strings, else out of memory.
pub fn push_functions(
    alloc: Global,
    text: &mut String,
    bytes: &[u8],
    section: &SectionHeader,
    strings: Option<&SectionHeader>,
    ctx: Ctx,
) -> Result<()>
    ensures first { let s = section.now in
        IfErr (symtab_in ParseMode.Strict bytes.now s.sh_offset s.sh_size ctx) (λ e. result ≡ Err e) }
{
    let symbols = symbols_of(bytes, section, ctx)?;
    let names = Strtab::new_preparsed(alloc, bytes_of(bytes, strings), 0)?;
    push_count(text, &symbols)?;
    push_names(alloc, text, bytes_of(bytes, strings), 13)?;
    let functions = functions(alloc, &symbols)?;
    for function in &functions {
        push_line(text, &names, function)?;
    }
    if let Some(function) = largest(functions.as_slice()) {
        text.push_str("largest: ")?;
        push_line(text, &names, &function)?;
    }
    Ok(())
}

// Adds the line with the number of functions and the number of symbols.
fn push_count(text: &mut String, symbols: &Symtab) -> std::result::Result<(), AllocError>
    ensures { let all = symbols.now.symbols in OnOk result (string_bytes text.new
        ≡ string_bytes text.old ++ (decimal (count_by is_function all)
        & codes " functions of " & decimal (length all) & codes " symbols\n")) }
{
    let functions = count_functions(symbols);
    let all = symbols.len();
    write!(text, "{functions} functions of {all} symbols\n")
}

// Adds the line of one function.
fn push_line(
    text: &mut String,
    names: &Strtab,
    function: &Sym,
) -> std::result::Result<(), AllocError>
    ensures { let name = unwrap_or (look_up names.now function.now.st_name) (codes "?") in
        OnOk result (string_bytes text.new ≡ string_bytes text.old ++ (name & codes ": "
        & decimal function.now.st_size & codes " bytes at 0x" & hexadecimal function.now.st_value & codes "\n")) }
{
    let name = names.get_at(function.st_name).unwrap_or("?");
    let value = function.st_value;
    let size = function.st_size;
    write!(text, "{name}: {size} bytes at 0x{value:x}\n")
}
