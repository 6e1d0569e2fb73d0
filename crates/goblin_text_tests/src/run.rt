//! Runs over readers and writers in memory, and over ones that fail.
use crate::streams::{Balk, FAILURES, Interrupted, Parts};
use goblin::options::{ParseMode, ParseOptions};
use goblin_text::command::show;
use goblin_text::counted::Counted;
use goblin_text::file_bytes::FileBytes;
use goblin_text::options::options_of;
use goblin_text::run::{Outcome, run, show_file};
use goblin_text::text::text_of;
use std::alloc::Global;
use std::io;
use std::io::{Cursor, ErrorKind, Read};

pub(crate) const STRICT: ParseOptions = ParseOptions {
    parse_mode: ParseMode::Strict,
};

pub(crate) const PERMISSIVE: ParseOptions = ParseOptions {
    parse_mode: ParseMode::Permissive,
};

// A 64-bit header in big byte order.
pub(crate) static BIG: &[u8; 64] = b"\x7fELF\x02\x02\x01\0\0\0\0\0\0\0\0\0\
    \0\x02\0\x3e\0\0\0\x01\0\0\0\0\0\x40\x10\0\0\0\0\0\0\0\0\0\0\0\0\0\0\0\0\0\
    \0\0\0\0\0\x40\0\x38\0\x0d\0\x40\0\0\0\0";

pub(crate) const BIG_TEXT: &str = "header ELF64 big EXEC X86_64 entry 0x401000 phnum 13 shnum 0\n";

// A 32-bit file of 136 bytes: a header, the section names' table and two section headers.
static NAMES: &[u8; 136] = b"\x7fELF\x01\x01\x01\0\0\0\0\0\0\0\0\0\
    \x03\0\0\0\x01\0\0\0\0\0\0\0\0\0\0\0\x38\0\0\0\0\0\0\0\x34\0\x20\0\0\0\x28\0\x02\0\x01\0\
    \0.s\0\
    \0\0\0\0\0\0\0\0\0\0\0\0\0\0\0\0\0\0\0\0\0\0\0\0\0\0\0\0\0\0\0\0\0\0\0\0\0\0\0\0\
    \x01\0\0\0\x03\0\0\0\0\0\0\0\0\0\0\0\x34\0\0\0\x04\0\0\0\0\0\0\0\0\0\0\0\0\0\0\0\0\0\0\0";

// The text of a 32-bit file with so many sections, by what is shown after the first one.
macro_rules! sections {
    ($count:literal, $rest:literal) => {
        concat!(
            "header ELF32 little DYN EM_UNKNOWN entry 0x0 phnum 0 shnum ",
            $count,
            "\nsection 0 SHT_NULL offset 0x0 size 0 name=\n",
            $rest
        )
    };
}

const NAMES_TEXT: &str = sections!("2", "section 1 SHT_STRTAB offset 0x34 size 4 name=.s\n");

const NO_NAMES_TEXT: &str = sections!("2", "section 1 SHT_STRTAB offset 0x34 size 4 name=\n");

// A 32-bit file of 208 bytes: a header, a string table, a symbol table and three section headers.
pub(crate) static SYMBOLS: &[u8; 208] = b"\x7fELF\x01\x01\x01\0\0\0\0\0\0\0\0\0\
    \x03\0\0\0\x01\0\0\0\0\0\0\0\0\0\0\0\x58\0\0\0\0\0\0\0\x34\0\x20\0\0\0\x28\0\x03\0\0\0\
    \0f\0\0\
    \0\0\0\0\0\0\0\0\0\0\0\0\0\0\0\0\x01\0\0\0\0\x10\0\0\x05\0\0\0\x12\0\x01\0\
    \0\0\0\0\0\0\0\0\0\0\0\0\0\0\0\0\0\0\0\0\0\0\0\0\0\0\0\0\0\0\0\0\0\0\0\0\0\0\0\0\
    \0\0\0\0\x03\0\0\0\0\0\0\0\0\0\0\0\x34\0\0\0\x04\0\0\0\0\0\0\0\0\0\0\0\0\0\0\0\0\0\0\0\
    \0\0\0\0\x02\0\0\0\0\0\0\0\0\0\0\0\x38\0\0\0\x20\0\0\0\x01\0\0\0\0\0\0\0\0\0\0\0\0\0\0\0";

pub(crate) const SYMBOLS_TEXT: &str = sections!(
    "3",
    "section 1 SHT_STRTAB offset 0x34 size 4 name=\n\
    section 2 SHT_SYMTAB offset 0x38 size 32 name=\n\
    symbol 2 0 NOTYPE LOCAL DEFAULT value 0x0 size 0 name=\n\
    symbol 2 1 FUNC GLOBAL DEFAULT value 0x1000 size 5 name=f\n"
);

// A 32-bit file of 144 bytes: a header, a relocation with an addend, 40 zeros and a section header.
static ADDEND: &[u8; 144] = b"\x7fELF\x01\x01\x01\0\0\0\0\0\0\0\0\0\
    \x03\0\0\0\x01\0\0\0\0\0\0\0\0\0\0\0\x40\0\0\0\0\0\0\0\x34\0\x20\0\0\0\x28\0\x02\0\0\0\
    \x10\0\0\0\x01\x02\0\0\xfc\xff\xff\xff\
    \0\0\0\0\0\0\0\0\0\0\0\0\0\0\0\0\0\0\0\0\0\0\0\0\0\0\0\0\0\0\0\0\0\0\0\0\0\0\0\0\
    \0\0\0\0\x04\0\0\0\0\0\0\0\0\0\0\0\x34\0\0\0\x0c\0\0\0\0\0\0\0\0\0\0\0\0\0\0\0\0\0\0\0";

const ADDEND_TEXT: &str = sections!(
    "2",
    "section 1 SHT_RELA offset 0x34 size 12 name=\n\
    reloc 1 0 offset 0x10 sym 2 type 1 addend -4\n"
);

// A 64-bit file of 208 bytes: a header, a relocation of MIPS64 and two section headers.
static PAIR: &[u8; 208] = b"\x7fELF\x02\x01\x01\0\0\0\0\0\0\0\0\0\
    \x03\0\x08\0\x01\0\0\0\0\0\0\0\0\0\0\0\0\0\0\0\0\0\0\0\x50\0\0\0\0\0\0\0\
    \0\0\0\0\x40\0\x38\0\0\0\x40\0\x02\0\0\0\
    \xf0\x50\x01\0\0\0\0\0\0\0\0\0\0\0\x12\x03\
    \0\0\0\0\0\0\0\0\0\0\0\0\0\0\0\0\0\0\0\0\0\0\0\0\0\0\0\0\0\0\0\0\
    \0\0\0\0\0\0\0\0\0\0\0\0\0\0\0\0\0\0\0\0\0\0\0\0\0\0\0\0\0\0\0\0\
    \0\0\0\0\x09\0\0\0\0\0\0\0\0\0\0\0\0\0\0\0\0\0\0\0\x40\0\0\0\0\0\0\0\
    \x10\0\0\0\0\0\0\0\0\0\0\0\0\0\0\0\0\0\0\0\0\0\0\0\0\0\0\0\0\0\0\0";

const PAIR_TEXT: &str = "header ELF64 little DYN MIPS entry 0x0 phnum 0 shnum 2\n\
    section 0 SHT_NULL offset 0x0 size 0 name=\n\
    section 1 SHT_REL offset 0x40 size 16 name=\n\
    reloc 1 0 offset 0x150f0 sym 0 type 4611 addend -\n";

pub(crate) const TOO_SMALL: &str = "refused: Malformed entity: Too small\n";

pub(crate) const NO_MAGIC: &str = "refused: Invalid magic number: 0x0\n";

pub(crate) const TOO_LONG: &str = "refused: input is longer than 16777216 bytes\n";

pub(crate) static ZEROS: &[u8; 200_000] = &[0; 200_000];

// A file with other bytes at some places, where there is memory.
fn changed(alloc: Global, file: &[u8], changes: &[(usize, u8)]) -> Option<Vec<u8>> {
    let mut bytes = file.to_vec(alloc).ok()?;
    for (place, byte) in changes {
        *bytes.get_mut(*place)? = *byte;
    }
    Some(bytes)
}

// How a run ends that writes this text.
pub(crate) fn outcome_of(text: &str) -> Outcome {
    match text.split_once(' ') {
        Some(("header", _)) => Outcome::Shown,
        Some(("refused:", _)) => Outcome::Refused,
        _ => Outcome::Failed,
    }
}

// Whether a run over this reader writes this text, and ends as such a run does.
pub(crate) fn ends<R: Read + Drop>(
    alloc: Global,
    opts: &ParseOptions,
    reader: R,
    text: &str,
) -> bool {
    let mut reader = Counted::new(reader);
    let mut writer = Counted::new(Vec::new(alloc));
    run(alloc, &mut reader, &mut writer, opts) == outcome_of(text)
        && writer.into_inner().as_slice() == text.as_bytes()
}

// Whether a run over these bytes writes this text, and `text_of` makes it too if they are not refused.
fn is_written(alloc: Global, opts: &ParseOptions, bytes: &[u8], text: &str) -> bool {
    let is_made = match text_of(alloc, bytes, opts) {
        Ok(made) => made.as_str() == text,
        Err(_) => outcome_of(text) == Outcome::Refused,
    };
    is_made && ends(alloc, opts, Cursor::new(bytes), text)
}

// The same of a file with these changes, by a strict run and by a permissive one.
fn strict(alloc: Global, file: &[u8], changes: &[(usize, u8)], text: &str) -> bool {
    let bytes = changed(alloc, file, changes);
    bytes.is_some_and(|bytes| is_written(alloc, &STRICT, bytes.as_slice(), text))
}

fn permissive(alloc: Global, file: &[u8], changes: &[(usize, u8)], text: &str) -> bool {
    let bytes = changed(alloc, file, changes);
    bytes.is_some_and(|bytes| is_written(alloc, &PERMISSIVE, bytes.as_slice(), text))
}

// Whether a file ends so, after so many looks that were taken to find and to test names.
fn takes(alloc: Global, opts: &ParseOptions, bytes: &[u8], outcome: Outcome, looks: u128) -> bool {
    let mut file = FileBytes::new(bytes);
    let mut writer = Counted::new(Vec::new(alloc));
    show_file(alloc, &mut writer, &mut file, opts) == outcome && file.names.count() == looks
}

// A strict table of four bytes takes four looks. A name in it takes one at its first byte, one at each byte up to and
// with the zero byte, and one at each of its own bytes. A table that is not UTF-8 is tested once more, and then looked
// at from the fault back to the zero byte before its last string.
#[test]
fn counts_the_looks_of_a_file(rt: HostRuntime) {
    assert!(rt; takes(rt.alloc(), &STRICT, NAMES, Outcome::Shown, 4 + 2 + 6));
    assert!(rt; takes(rt.alloc(), &PERMISSIVE, NAMES, Outcome::Shown, 2 + 6));
    assert!(rt; takes(rt.alloc(), &STRICT, SYMBOLS, Outcome::Shown, 4 + 2 + 4));
    let mut bad = *SYMBOLS;
    bad[54] = 0xff;
    assert!(rt; takes(rt.alloc(), &STRICT, &bad, Outcome::Refused, 4 + 4 + 2));
    assert!(rt; takes(rt.alloc(), &STRICT, BIG, Outcome::Shown, 0));
}

#[test]
fn shows_a_header(rt: HostRuntime) {
    assert!(rt; strict(rt.alloc(), BIG, &[], BIG_TEXT));
}

#[test]
fn shows_names_of_sections(rt: HostRuntime) {
    assert!(rt; strict(rt.alloc(), NAMES, &[], NAMES_TEXT));
    // An index past the sections.
    assert!(rt; strict(rt.alloc(), NAMES, &[(50, 2)], NO_NAMES_TEXT));
    // The index is the first section's sh_link. If that is 0, there is no table.
    let linked = [(50, 0xff), (51, 0xff), (80, 1)];
    assert!(rt; strict(rt.alloc(), NAMES, &linked, NAMES_TEXT));
    let unlinked = [(50, 0xff), (51, 0xff)];
    assert!(rt; strict(rt.alloc(), NAMES, &unlinked, NO_NAMES_TEXT));
    // A table without bytes in the file.
    let text = sections!("2", "section 1 SHT_NOBITS offset 0x34 size 4 name=\n");
    assert!(rt; strict(rt.alloc(), NAMES, &[(100, 8)], text));
    // A table that begins with a name, which stands at offset 0.
    let text = "header ELF32 little DYN EM_UNKNOWN entry 0x0 phnum 0 shnum 2\n\
        section 0 SHT_NULL offset 0x0 size 0 name=x.s\n\
        section 1 SHT_STRTAB offset 0x34 size 4 name=.s\n";
    assert!(rt; strict(rt.alloc(), NAMES, &[(52, b'x')], text));
}

#[test]
fn shows_control_characters_as_question_marks(rt: HostRuntime) {
    let text = sections!("2", "section 1 SHT_STRTAB offset 0x34 size 4 name=?s\n");
    assert!(rt; strict(rt.alloc(), NAMES, &[(53, 0x09)], text));
    assert!(rt; strict(rt.alloc(), NAMES, &[(53, 0x1f)], text));
    assert!(rt; strict(rt.alloc(), NAMES, &[(53, 0x7f)], text));
}

#[test]
fn shows_symbols(rt: HostRuntime) {
    assert!(rt; strict(rt.alloc(), SYMBOLS, &[], SYMBOLS_TEXT));
    let text = sections!(
        "3",
        "section 1 SHT_STRTAB offset 0x34 size 4 name=\n\
        section 2 SHT_DYNSYM offset 0x38 size 32 name=\n\
        symbol 2 0 NOTYPE LOCAL DEFAULT value 0x0 size 0 name=\n\
        symbol 2 1 FUNC GLOBAL DEFAULT value 0x1000 size 5 name=f\n"
    );
    assert!(rt; strict(rt.alloc(), SYMBOLS, &[(172, 11)], text));
    // An sh_link of 0xffff is an index like any other, though the first section links to the table.
    let text = sections!(
        "3",
        "section 1 SHT_STRTAB offset 0x34 size 4 name=\n\
        section 2 SHT_SYMTAB offset 0x38 size 32 name=\n\
        symbol 2 0 NOTYPE LOCAL DEFAULT value 0x0 size 0 name=\n\
        symbol 2 1 FUNC GLOBAL DEFAULT value 0x1000 size 5 name=\n"
    );
    let changes = [(192, 0xff), (193, 0xff), (112, 1)];
    assert!(rt; strict(rt.alloc(), SYMBOLS, &changes, text));
    // Section 0 has the symbols, a part of a third one, and a name that is a control character.
    let text = "header ELF32 little DYN EM_UNKNOWN entry 0x0 phnum 0 shnum 3\n\
        section 0 SHT_SYMTAB offset 0x38 size 47 name=\n\
        section 1 SHT_STRTAB offset 0x34 size 4 name=\n\
        section 2 SHT_NULL offset 0x38 size 32 name=\n\
        symbol 0 0 NOTYPE LOCAL DEFAULT value 0x0 size 0 name=\n\
        symbol 0 1 FUNC GLOBAL DEFAULT value 0x1000 size 5 name=?\n";
    let changes = [(92, 2), (104, 0x38), (108, 47), (112, 1), (172, 0), (53, 7)];
    assert!(rt; strict(rt.alloc(), SYMBOLS, &changes, text));
}

#[test]
fn passes_over_empty_symbol_tables(rt: HostRuntime) {
    // The strings are not UTF-8. That is refused only if the symbol table has a byte.
    let text = sections!(
        "3",
        "section 1 SHT_STRTAB offset 0x34 size 4 name=\n\
        section 2 SHT_SYMTAB offset 0x38 size 0 name=\n"
    );
    let changes = [(53, 0xff), (188, 0)];
    assert!(rt; strict(rt.alloc(), SYMBOLS, &changes, text));
    let line = "refused: bad input invalid utf8 (3)\n";
    let changes = [(53, 0xff), (188, 1)];
    assert!(rt; strict(rt.alloc(), SYMBOLS, &changes, line));
}

#[test]
fn shows_relocations(rt: HostRuntime) {
    assert!(rt; strict(rt.alloc(), ADDEND, &[], ADDEND_TEXT));
    assert!(rt; strict(rt.alloc(), PAIR, &[], PAIR_TEXT));
    let text = "header ELF64 little DYN EM_UNKNOWN entry 0x0 phnum 0 shnum 2\n\
        section 0 SHT_NULL offset 0x0 size 0 name=\n\
        section 1 SHT_REL offset 0x40 size 16 name=\n\
        reloc 1 0 offset 0x150f0 sym 51511296 type 0 addend -\n";
    assert!(rt; strict(rt.alloc(), PAIR, &[(18, 0)], text));
    // Section 0 has relocations too.
    let text = "header ELF32 little DYN EM_UNKNOWN entry 0x0 phnum 0 shnum 2\n\
        section 0 SHT_RELA offset 0x34 size 12 name=\n\
        section 1 SHT_RELA offset 0x34 size 0 name=\n\
        reloc 0 0 offset 0x10 sym 2 type 1 addend -4\n";
    let changes = [(68, 4), (80, 0x34), (84, 12), (124, 0)];
    assert!(rt; strict(rt.alloc(), ADDEND, &changes, text));
}

#[test]
fn passes_over_damaged_parts(rt: HostRuntime) {
    let line = "refused: bad input invalid utf8 (3)\n";
    assert!(rt; strict(rt.alloc(), NAMES, &[(53, 0xff)], line));
    assert!(rt; permissive(rt.alloc(), NAMES, &[(53, 0xff)], NO_NAMES_TEXT));

    let line = "refused: Malformed entity: Section 0 size (208) + offset (56) is out of bounds. \
        Overflowed: false\n";
    assert!(rt; strict(rt.alloc(), SYMBOLS, &[(188, 208)], line));
    let text = sections!(
        "3",
        "section 1 SHT_STRTAB offset 0x34 size 4 name=\n\
        section 2 SHT_SYMTAB offset 0x38 size 208 name=\n\
        symbol 2 0 NOTYPE LOCAL DEFAULT value 0x0 size 0 name=\n\
        symbol 2 1 FUNC GLOBAL DEFAULT value 0x1000 size 5 name=f\n\
        symbol 2 2 NOTYPE LOCAL DEFAULT value 0x0 size 0 name=\n\
        symbol 2 3 NOTYPE LOCAL DEFAULT value 0x0 size 0 name=\n\
        symbol 2 4 SECTION LOCAL DEFAULT value 0x0 size 0 name=\n\
        symbol 2 5 FILE LOCAL DEFAULT value 0x0 size 52 name=\n\
        symbol 2 6 NOTYPE LOCAL DEFAULT value 0x0 size 0 name=\n\
        symbol 2 7 NOTYPE LOCAL DEFAULT value 0x2 size 0 name=\n\
        symbol 2 8 NOTYPE LOCAL DEFAULT value 0xd0 size 1 name=\n"
    );
    assert!(rt; permissive(rt.alloc(), SYMBOLS, &[(188, 208)], text));
}

#[test]
fn refuses_relocations_in_both_modes(rt: HostRuntime) {
    // 208 bytes of relocations at offset 64, and 16 at offset 208.
    let line = "refused: Malformed entity: Section 0 size (208) + offset (64) is out of bounds. \
        Overflowed: false\n";
    assert!(rt; strict(rt.alloc(), PAIR, &[(176, 208)], line));
    let line = "refused: type is too big (208) for 144\n";
    assert!(rt; permissive(rt.alloc(), PAIR, &[(176, 208)], line));
    let line = "refused: bad offset 208\n";
    assert!(rt; permissive(rt.alloc(), PAIR, &[(168, 208)], line));
}

#[test]
fn reports_why_a_header_is_refused(rt: HostRuntime) {
    assert!(rt; strict(rt.alloc(), b"", &[], TOO_SMALL));
    let line = "refused: Invalid magic number: 0x3736353433323130\n";
    assert!(rt; strict(rt.alloc(), b"0123456789abcdef", &[], line));
    let line = "refused: type is too big (64) for 52\n";
    assert!(rt; is_written(rt.alloc(), &STRICT, &BIG[..52], line));
    let line = "refused: Malformed entity: invalid ELF class 3\n";
    assert!(rt; permissive(rt.alloc(), BIG, &[(4, 3), (5, 0)], line));
    let line = "refused: Malformed entity: invalid ELF endianness DATA type 0\n";
    assert!(rt; strict(rt.alloc(), BIG, &[(5, 0)], line));
}

#[test]
fn reports_why_sections_are_refused(rt: HostRuntime) {
    // A fourth section header, of which there is no byte.
    let line = "refused: bad offset 208\n";
    assert!(rt; strict(rt.alloc(), SYMBOLS, &[(48, 4)], line));
    let line = "refused: Buffer is too short for 6 section headers\n";
    assert!(rt; permissive(rt.alloc(), SYMBOLS, &[(48, 6)], line));
    // The section headers start 8 bytes late.
    let line = "refused: type is too big (40) for 32\n";
    assert!(rt; strict(rt.alloc(), SYMBOLS, &[(32, 96)], line));
    // A string table of no bytes that starts past the file's end.
    let line =
        "refused: Malformed entity: String table offset (209) is beyond file boundary (208)\n";
    assert!(rt; strict(rt.alloc(), SYMBOLS, &[(144, 209), (148, 0)], line));
}

#[test]
fn reports_why_an_address_is_refused(rt: HostRuntime) {
    let line = "refused: Malformed entity: Section 0 size (16) + addr (18446744073709551615) is \
        out of bounds. Overflowed: true\n";
    // sh_addr of the second section is the greatest u64.
    let changes = [160, 161, 162, 163, 164, 165, 166, 167].map(|place| (place, 0xff));
    assert!(rt; strict(rt.alloc(), PAIR, &changes, line));
    assert!(rt; permissive(rt.alloc(), PAIR, &changes, PAIR_TEXT));
}

// The file with names, whose string table has 40,002 bytes and comes after it.
const LONG_NAMES: &[(usize, u8)] = &[(112, 0x88), (116, 0x42), (117, 0x9C)];

// Adds a text, and so many times two bytes more. Reports whether there is memory.
fn adds(bytes: &mut Vec<u8>, first: &str, two: &str) -> bool {
    let mut adds = bytes.extend_from_slice(first.as_bytes()).is_ok();
    for _ in 0..20_000 {
        adds = adds && bytes.extend_from_slice(two.as_bytes()).is_ok();
    }
    adds
}

// Whether a name of one byte and so many times two bytes is shown so.
fn shows_long_name(alloc: Global, first: &str, two: &str, shown: &str) -> bool {
    changed(alloc, NAMES, LONG_NAMES).is_some_and(|mut bytes| {
        let mut text = Vec::new(alloc);
        let is_added = adds(&mut bytes, first, two) && adds(&mut text, shown, two);
        let is_ended = text.push(b'\n').is_ok();
        match std::str::from_utf8(text.as_slice()) {
            Ok(text) => is_added && is_ended && is_written(alloc, &STRICT, bytes.as_slice(), text),
            Err(_) => false,
        }
    })
}

#[test]
fn shows_names_longer_than_what_is_written_at_once(rt: HostRuntime) {
    let shown = sections!("2", "section 1 SHT_STRTAB offset 0x88 size 40002 name=x");
    assert!(rt; shows_long_name(rt.alloc(), "\0x", "ab", shown));
    assert!(rt; shows_long_name(rt.alloc(), "\0x", "\u{e9}", shown));
    let shown = sections!("2", "section 1 SHT_STRTAB offset 0x88 size 40002 name=?");
    assert!(rt; shows_long_name(rt.alloc(), "\0\x07", "ab", shown));
    assert!(rt; shows_long_name(rt.alloc(), "\0\x07", "\u{e9}", shown));
}

#[test]
fn reads_on_through_many_interruptions(rt: HostRuntime) {
    let reader = Interrupted { left: 100_000 };
    assert!(rt; ends(rt.alloc(), &STRICT, reader, TOO_SMALL));
}

// The words, where there is memory.
fn words_of(alloc: Global, texts: &[&str]) -> Option<Vec<String>> {
    let mut words = Vec::new(alloc);
    for text in texts {
        words.push(String::from_str(alloc, text).ok()?).ok()?;
    }
    Some(words)
}

fn asks(alloc: Global, texts: &[&str], opts: Option<ParseOptions>) -> bool {
    words_of(alloc, texts).is_some_and(|words| options_of(words.as_slice()) == opts)
}

#[test]
fn takes_one_word(rt: HostRuntime) {
    assert!(rt; asks(rt.alloc(), &[], Some(STRICT)));
    assert!(rt; asks(rt.alloc(), &["permissive"], Some(PERMISSIVE)));
    assert!(rt; asks(rt.alloc(), &["strict"], None));
    assert!(rt; asks(rt.alloc(), &[""], None));
    assert!(rt; asks(rt.alloc(), &["permissive", "permissive"], None));
}

// Whether the program, with these words and this file, ends with a status, and writes this text by a write call and a
// flush, or ends with the first call if that fails.
fn answers(alloc: Global, args: &[&str], file: &[u8], fails: bool, status: u8, text: &str) -> bool {
    let Some(words) = words_of(alloc, args) else {
        return false;
    };
    let (balk_at, calls) = if fails { (1, 1) } else { (0, 2) };
    let mut reader = Counted::new(Cursor::new(file));
    let mut writer = Counted::new(Parts::new(Vec::new(alloc), 1_000, balk_at, FAILURES[3]));
    let ended = show(alloc, Ok(words), &mut reader, &mut writer);
    let written = writer.into_inner();
    ended == status && written.bytes.as_slice() == text.as_bytes() && written.calls == calls
}

// Whether nothing is read or written where the words can't be had, and the status is 2.
fn answers_no_words(alloc: Global) -> bool {
    let mut reader = Counted::new(Parts::new(b"0".as_slice(), 1, 0, Balk::TakesNone));
    let mut writer = Counted::new(Parts::new(Vec::new(alloc), 1, 0, Balk::TakesNone));
    let words = Err(io::Error::from(ErrorKind::InvalidData));
    show(alloc, words, &mut reader, &mut writer) == 2
        && reader.into_inner().calls == 0
        && writer.into_inner().calls == 0
}

#[test]
fn ends_with_a_status(rt: HostRuntime) {
    let (usage, twice) = (
        "usage: goblin_show [permissive]\n",
        ["permissive", "permissive"],
    );
    assert!(rt; answers(rt.alloc(), &[], BIG, false, 0, BIG_TEXT));
    assert!(rt; answers(rt.alloc(), &[], b"", false, 1, TOO_SMALL));
    assert!(rt; answers(rt.alloc(), &["permissive"], BIG, false, 0, BIG_TEXT));
    assert!(rt; answers(rt.alloc(), &["permissive"], b"", false, 1, TOO_SMALL));
    assert!(rt; answers(rt.alloc(), &["strict"], BIG, false, 2, usage));
    assert!(rt; answers(rt.alloc(), &twice, BIG, false, 2, usage));
    // After a write that fails nothing is written or flushed.
    assert!(rt; answers(rt.alloc(), &["strict"], b"", true, 2, ""));
    assert!(rt; answers_no_words(rt.alloc()));
}

#[test]
fn compares_outcomes(rt: HostRuntime) {
    let (shown, refused, failed) = (Outcome::Shown, Outcome::Refused, Outcome::Failed);
    let clone: Result<_, _> = failed.clone();
    assert!(rt; failed == failed && clone == Ok(failed));
    assert!(rt; shown != refused && refused != failed && failed != shown);
}
