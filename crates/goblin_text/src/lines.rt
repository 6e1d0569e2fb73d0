//! The lines of the text that is shown of a file, and the text of an error, put without an allocation.
ghost use Rattle.std.specs.Prelude.{◌≡◌, Some, map};
ghost use Rattle.goblin_text.specs.Common.{concat, ◌&◌, refusal_of};
ghost use Rattle.goblin_text.specs.ShownLines.{addend_text, header_line, is_control, newline, printable, printed, reloc_line, section_line, symbol_line};
ghost use Rattle.goblin_text.specs.TargetState.{Prints};
ghost use Rattle.goblin_base.specs.Texts.{facts_of, part_text, refusal_text};

use crate::targets::Target;
use goblin::elf::header::{
    EI_CLASS, EI_DATA, ELFDATA2LSB, Header, class_to_str, et_to_str, machine_to_str,
};
use goblin::elf::reloc::Reloc;
use goblin::elf::section_header::{SectionHeader, sht_to_str};
use goblin::elf::sym::{Sym, bind_to_str, type_to_str, visibility_to_str};
use goblin::error::Error;
use goblin_base::digits::Digits;
use goblin_base::texts::{Part, Report};

// Puts texts one after another.
fn put_all<T: Target>(target: &mut T, texts: &[&str]) -> Result<(), T::Error>
    ensures put { Prints (T.state target.old) (T.state target.new) result (concat (map (λ text. text.now) texts.now)) }
    ensures same_writer { T.writer_name target.new ≡ T.writer_name target.old }
{
    for text in texts {
        target.put(text)?;
    }
    Ok(())
}

// Reports whether a byte is a control character of ASCII.
fn is_control(byte: u8) -> bool
    ensures { result ≡ is_control byte }
{
    byte < b' ' || byte == 0x7f
}

// Returns a character as it prints.
fn printable(c: char) -> char
    ensures { result ≡ printable c }
{
    if c < ' ' || c == '\x7f' { '?' } else { c }
}

// Puts a name character by character, with a question mark for each control character.
#[cold]
#[inline(never)]
fn put_replaced<T: Target>(target: &mut T, name: &str) -> Result<(), T::Error>
    ensures put { Prints (T.state target.old) (T.state target.new) result (printed name.now) }
    ensures same_writer { T.writer_name target.new ≡ T.writer_name target.old }
{
    for c in name.chars() {
        target.put(printable(c).encode_utf8(&mut [0; 4]))?;
    }
    Ok(())
}

// Puts a name, with a question mark for each control character.
fn put_printed<T: Target>(target: &mut T, name: &str) -> Result<(), T::Error>
    ensures put { Prints (T.state target.old) (T.state target.new) result (printed name.now) }
    ensures same_writer { T.writer_name target.new ≡ T.writer_name target.old }
{
    if !name.as_bytes().iter().any(|byte| is_control(*byte)) {
        return target.put(name);
    }
    put_replaced(target, name)
}

// Puts a name as it prints, and the end of its line.
fn put_name<T: Target>(target: &mut T, name: &str) -> Result<(), T::Error>
    ensures put { Prints (T.state target.old) (T.state target.new) result (printed name.now & newline) }
    ensures same_writer { T.writer_name target.new ≡ T.writer_name target.old }
{
    if !name.is_empty() {
        put_printed(target, name)?;
    }
    target.put("\n")
}

/// Puts the line of a header.
pub fn put_header<T: Target>(target: &mut T, header: &Header) -> Result<(), T::Error>
    ensures put { Prints (T.state target.old) (T.state target.new) result (header_line header.now) }
    ensures same_writer { T.writer_name target.new ≡ T.writer_name target.old }
{
    let order = if header.e_ident[EI_DATA] == ELFDATA2LSB {
        "little"
    } else {
        "big"
    };
    put_all(
        target,
        &[
            "header ",
            class_to_str(header.e_ident[EI_CLASS]),
            " ",
            order,
            " ",
            et_to_str(header.e_type),
            " ",
            machine_to_str(header.e_machine),
            " entry 0x",
            Digits::hexadecimal(header.e_entry).as_str(),
            " phnum ",
            Digits::decimal(u64::from(header.e_phnum)).as_str(),
            " shnum ",
            Digits::decimal(u64::from(header.e_shnum)).as_str(),
            "\n",
        ],
    )
}

/// Puts the line of the section with a number and a name.
#[tactic(auto, unfolding(crate::specs::ShownLines::section_head))]
pub fn put_section<T: Target>(
    target: &mut T,
    number: usize,
    section: &SectionHeader,
    name: &str,
) -> Result<(), T::Error>
    ensures put { Prints (T.state target.old) (T.state target.new) result (section_line number section.now name.now) }
    ensures same_writer { T.writer_name target.new ≡ T.writer_name target.old }
{
    let offset = section.sh_offset;
    put_all(
        target,
        &[
            "section ",
            Digits::decimal(number as u64).as_str(),
            " ",
            sht_to_str(section.sh_type),
            " offset 0x",
            Digits::hexadecimal(offset).as_str(),
            " size ",
            Digits::decimal(section.sh_size).as_str(),
            " name=",
        ],
    )?;
    put_name(target, name)
}

/// Puts the line of the symbol with a number and a name, of the section with a number.
#[tactic(auto, unfolding(crate::specs::ShownLines::symbol_head))]
pub fn put_symbol<T: Target>(
    target: &mut T,
    section: usize,
    number: usize,
    symbol: &Sym,
    name: &str,
) -> Result<(), T::Error>
    ensures put { Prints (T.state target.old) (T.state target.new) result
        (symbol_line section number symbol.now name.now) }
    ensures same_writer { T.writer_name target.new ≡ T.writer_name target.old }
{
    put_all(
        target,
        &[
            "symbol ",
            Digits::decimal(section as u64).as_str(),
            " ",
            Digits::decimal(number as u64).as_str(),
            " ",
            type_to_str(symbol.st_type()),
            " ",
            bind_to_str(symbol.st_bind()),
            " ",
            visibility_to_str(symbol.st_visibility()),
            " value 0x",
            Digits::hexadecimal(symbol.st_value).as_str(),
            " size ",
            Digits::decimal(symbol.st_size).as_str(),
            " name=",
        ],
    )?;
    put_name(target, name)
}

// Puts an addend, and the end of its line.
fn put_signed<T: Target>(target: &mut T, addend: i64) -> Result<(), T::Error>
    ensures put { Prints (T.state target.old) (T.state target.new) result (addend_text (Some addend) & newline) }
    ensures same_writer { T.writer_name target.new ≡ T.writer_name target.old }
{
    if addend < 0 {
        target.put("-")?;
    }
    put_all(
        target,
        &[Digits::decimal(addend.unsigned_abs()).as_str(), "\n"],
    )
}

// Puts an addend, or a dash if there is none, and the end of its line.
fn put_addend<T: Target>(target: &mut T, addend: Option<i64>) -> Result<(), T::Error>
    ensures put { Prints (T.state target.old) (T.state target.new) result (addend_text addend & newline) }
    ensures same_writer { T.writer_name target.new ≡ T.writer_name target.old }
{
    match addend {
        Some(addend) => put_signed(target, addend),
        None => target.put("-\n"),
    }
}

/// Puts the line of the relocation with a number, of the section with a number.
pub fn put_reloc<T: Target>(
    target: &mut T,
    section: usize,
    number: usize,
    reloc: &Reloc,
) -> Result<(), T::Error>
    ensures put { Prints (T.state target.old) (T.state target.new) result (reloc_line section number reloc.now) }
    ensures same_writer { T.writer_name target.new ≡ T.writer_name target.old }
{
    put_all(
        target,
        &[
            "reloc ",
            Digits::decimal(section as u64).as_str(),
            " ",
            Digits::decimal(number as u64).as_str(),
            " offset 0x",
            Digits::hexadecimal(reloc.r_offset).as_str(),
            " sym ",
            Digits::decimal(reloc.r_sym as u64).as_str(),
            " type ",
            Digits::decimal(u64::from(reloc.r_type)).as_str(),
            " addend ",
        ],
    )?;
    put_addend(target, reloc.r_addend)
}

// Puts a part of the text of an error.
fn put_part<T: Target>(target: &mut T, report: &Report, part: &Part) -> Result<(), T::Error>
    ensures put { Prints (T.state target.old) (T.state target.new) result (part_text (facts_of report.now) part.now) }
    ensures same_writer { T.writer_name target.new ≡ T.writer_name target.old }
{
    match part {
        Part::Text(text) => target.put(text),
        Part::First => target.put(Digits::decimal(report.first).as_str()),
        Part::Second => target.put(Digits::decimal(report.second).as_str()),
        Part::Third => target.put(Digits::decimal(report.third).as_str()),
        Part::Hexadecimal => target.put(Digits::hexadecimal(report.first).as_str()),
        Part::Item => target.put(report.item),
        Part::Overflow => target.put(if report.overflow { "true" } else { "false" }),
    }
}

/// Puts the text of an error.
#[tactic(auto, using(crate::proofs::TargetLemmas::parts_put))]
pub fn put_error<T: Target>(target: &mut T, e: &Error) -> Result<(), T::Error>
    ensures put { Prints (T.state target.old) (T.state target.new) result (refusal_text (refusal_of e.now)) }
    ensures same_writer { T.writer_name target.new ≡ T.writer_name target.old }
{
    let report = e.report();
    target.put(report.kind.prefix())?;
    let parts = report.kind.parts();
    for part in parts {
        put_part(target, &report, part)?;
    }
    Ok(())
}
