//! Texts, written into a buffer of the caller's and cut at its end, and the text of a refusal.
ghost use Rattle.goblin_base.specs.Texts.{digits_text, facts_of, facts_text, is_short, part_text, word_of};
ghost use Rattle.goblin_c.specs.Buffers.{WritesText, laid};
ghost use Rattle.goblin_c.specs.Texts.{TextIsSame, converted_text, facts_from, is_misfit, item_text, misfit_text, with_misfit};
ghost use Rattle.std.specs.Prelude.{IsAscii, IsTrue, drop, length, take, ◌++◌, ◌+◌, ◌<◌, ◌^◌, ◌≡◌, ◌≤◌};

use crate::results::{GoblinRefusal, INVALID_UTF8, PROGRAM_HEADERS, SECTION_HEADERS};
use goblin_base::digits::Digits;
use goblin_base::texts::{Kind, Part, Report};

// Writes digits after the bytes so far. Returns how many bytes there are then, if none is cut.
fn write_digits(digits: &Digits, len: u64, buffer: &mut [u8]) -> u64
    requires ascii { IsAscii (digits_text digits.now) }
    requires start { digits.now.start < 20 }
    requires len { len ≤ 1000000 }
    ensures written { buffer.new ≡ take len buffer.old ++ laid (digits_text digits.now) (drop len buffer.old) }
    ensures value { result ≡ len + length (digits_text digits.now) }
    ensures bound { result ≤ len + 20 }
{
    write_after(digits.as_str().as_bytes(), len, buffer)
}

// Returns a truth value as a word.
fn word_of(b: bool) -> &'static str
    ensures value { result.now ≡ word_of b }
    ensures bound { length result.now ≤ 5 }
{
    if b { "true" } else { "false" }
}

// Returns the item with a number, or the empty text if no item has it.
fn item_text(item: u32) -> &'static str
    ensures value { result.now ≡ item_text item }
    ensures bound { length result.now ≤ 15 }
{
    match item {
        INVALID_UTF8 => "invalid utf8",
        SECTION_HEADERS => "section headers",
        PROGRAM_HEADERS => "program headers",
        _ => "",
    }
}

// Writes a part after the bytes so far. Returns how many bytes there are then, if none is cut.
fn write_part(report: &Report, part: &Part, len: u64, buffer: &mut [u8]) -> u64
    requires part { IsTrue (is_short part.now) }
    requires item { length report.now.item.now ≤ 15 }
    requires len { len ≤ 1000000 }
    ensures written { buffer.new ≡
        take len buffer.old ++ laid (part_text (facts_of report.now) part.now) (drop len buffer.old) }
    ensures value { result ≡ len + length (part_text (facts_of report.now) part.now) }
    ensures bound { result ≤ len + 100 }
{
    match part {
        Part::Text(text) => write_after(text.as_bytes(), len, buffer),
        Part::First => write_digits(&Digits::decimal(report.first), len, buffer),
        Part::Second => write_digits(&Digits::decimal(report.second), len, buffer),
        Part::Third => write_digits(&Digits::decimal(report.third), len, buffer),
        Part::Hexadecimal => write_digits(&Digits::hexadecimal(report.first), len, buffer),
        Part::Item => write_after(report.item.as_bytes(), len, buffer),
        Part::Overflow => write_after(word_of(report.overflow).as_bytes(), len, buffer),
    }
}

// Writes as much of the text of an error as the buffer holds. Returns the length of the whole text.
fn write_parts(report: &Report, buffer: &mut [u8]) -> u64
    requires item { length report.now.item.now ≤ 15 }
    ensures written { buffer.new ≡ laid (facts_text (facts_of report.now)) buffer.old }
    ensures value { result ≡ length (facts_text (facts_of report.now)) }
    ensures bound { result ≤ 1700 }
{
    let mut len = write_after(report.kind.prefix().as_bytes(), 0, buffer);
    let parts = report.kind.parts();
    for part in parts {
        len = write_part(report, part, len, buffer);
    }
    len
}

// Reports whether a refusal has a number that doesn't fit its field.
fn is_misfit(why: &GoblinRefusal) -> bool
    ensures { result ≡ is_misfit why.now }
{
    why.kind == Kind::IntegerFit.number() && why.first != 0
}

// Writes this number and the offset of the field after the bytes so far. Returns how many bytes there are then, if
// none is cut.
fn write_misfit(why: &GoblinRefusal, len: u64, buffer: &mut [u8]) -> u64
    requires len { len ≤ 1700 }
    ensures written { buffer.new ≡ take len buffer.old ++ laid (misfit_text why.now) (drop len buffer.old) }
    ensures value { result ≡ len + length (misfit_text why.now) }
    ensures bound { result ≤ 1800 }
{
    let len = write_after(b": ", len, buffer);
    let len = write_digits(&Digits::decimal(why.first), len, buffer);
    let len = write_after(b" at offset ", len, buffer);
    write_digits(&Digits::decimal(why.offset), len, buffer)
}

// Writes the text of a refusal, which is reported so, with a zero byte after it, or as much of them as the buffer
// holds. Returns the length of the text.
fn write_report(why: &GoblinRefusal, report: &Report, buffer: &mut [u8]) -> u64
    requires item { length report.now.item.now ≤ 15 }
    ensures { WritesText (with_misfit why.now (facts_text (facts_of report.now))) buffer.old result buffer.new }
{
    let mut end = write_parts(report, buffer);
    if is_misfit(why) {
        end = write_misfit(why, end, buffer);
    }
    write_after(b"\0", end, buffer);
    end
}

// Returns a refusal of a kind that C has, as the library's kind, numbers and item.
fn report_from(why: &GoblinRefusal, kind: Kind) -> Report
    ensures value { facts_of result ≡ facts_from why.now kind }
    ensures bound { length result.item.now ≤ 15 }
{
    Report {
        kind,
        item: item_text(why.item),
        first: why.first,
        second: why.second,
        third: why.third,
        overflow: why.fourth != 0,
    }
}

/// Writes the text of a refusal.
#[unsafe(no_mangle)]
pub extern "C" fn goblin_refusal_to_str(why: &GoblinRefusal, text: &mut [u8]) -> u64
    ensures { WritesText (converted_text why.now) text.old result text.new }
{
    match Kind::with_number(why.kind) {
        Some(kind) => write_report(why, &report_from(why, kind), text),
        None => write_text("", text),
    }
}

/// Law: a refusal converted for C has the text of the refusal.
#[tactic(auto, using(crate::specs::TextLaws::text_same))]
pub fn laws()
    ensures { TextIsSame }
{}

/// Writes a text with a zero byte after it, or as much of them as the buffer holds. Returns the length of the text.
#[tactic(auto, using(crate::proofs::BufferLemmas::laid_parts))]
pub fn write_text(text: &str, buffer: &mut [u8]) -> u64
    ensures { WritesText text.now buffer.old result buffer.new }
{
    let len = write_bytes(text.as_bytes(), buffer);
    write_after(b"\0", len, buffer);
    len
}

/// Writes as much of a text after the bytes so far as the buffer holds. Returns how many bytes there are then, if none
/// is cut.
#[tactic(auto, using(crate::proofs::BufferLemmas::laid_steps))]
pub fn write_after(text: &[u8], len: u64, buffer: &mut [u8]) -> u64
    requires { len + length text.now < 2 ^ 64 }
    ensures written { buffer.new ≡ take len buffer.old ++ laid text.now (drop len buffer.old) }
    ensures value { result ≡ len + length text.now }
{
    if len < buffer.len() as u64 {
        write_bytes(text, &mut buffer[len as usize..]);
    }
    len + text.len() as u64
}

// Writes as many bytes as the buffer holds. Returns the number of all bytes.
#[tactic(auto, using(crate::proofs::BufferLemmas::laid_steps))]
fn write_bytes(bytes: &[u8], buffer: &mut [u8]) -> u64
    ensures written { buffer.new ≡ laid bytes.now buffer.old }
    ensures value { result ≡ length bytes.now }
{
    let count = bytes.len().min(buffer.len());
    for i in 0..count {
        buffer[i] = bytes[i];
    }
    bytes.len() as u64
}
