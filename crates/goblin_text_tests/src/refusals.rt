//! Refusals of files for many numbers, with ample memory. Each line is what std's formatting makes of its numbers:
//! where the program is out of memory for a single number, it writes another line.
use crate::run::{PERMISSIVE, STRICT, ends};
use goblin::options::ParseOptions;
use goblin_text::counted::Counted;
use goblin_text::file_bytes::FileBytes;
use goblin_text::run::{Outcome, show_file};
use std::alloc::{AllocError, Global};
use std::io::Cursor;

// A 64-bit file of 208 bytes: a header, 16 bytes, and two section headers. The second section has the type of
// relocations, all 16 bytes, and the names.
static FILE: &[u8; 208] = b"\x7fELF\x02\x01\x01\0\0\0\0\0\0\0\0\0\
    \x03\0\x3e\0\x01\0\0\0\0\0\0\0\0\0\0\0\0\0\0\0\0\0\0\0\x50\0\0\0\0\0\0\0\
    \0\0\0\0\x40\0\x38\0\0\0\x40\0\x02\0\x01\0\
    \0\0\0\0\0\0\0\0\0\0\0\0\0\0\0\0\
    \0\0\0\0\0\0\0\0\0\0\0\0\0\0\0\0\0\0\0\0\0\0\0\0\0\0\0\0\0\0\0\0\
    \0\0\0\0\0\0\0\0\0\0\0\0\0\0\0\0\0\0\0\0\0\0\0\0\0\0\0\0\0\0\0\0\
    \0\0\0\0\x09\0\0\0\0\0\0\0\0\0\0\0\0\0\0\0\0\0\0\0\x40\0\0\0\0\0\0\0\
    \x10\0\0\0\0\0\0\0\0\0\0\0\0\0\0\0\0\0\0\0\0\0\0\0\0\0\0\0\0\0\0\0";

// Its length.
const LEN: u64 = 208;

// The offset and the width of fields: of the header, of the first section, and of the second one.
const CLASS: (usize, usize) = (4, 1);

const ORDER: (usize, usize) = (5, 1);

const SHOFF: (usize, usize) = (40, 8);

const SHNUM: (usize, usize) = (60, 2);

const COUNT: (usize, usize) = (112, 8);

const NAME: (usize, usize) = (144, 4);

const ADDR: (usize, usize) = (160, 8);

const OFFSET: (usize, usize) = (168, 8);

const SIZE: (usize, usize) = (176, 8);

// Fields, and their new numbers.
type Changes<'a> = &'a [((usize, usize), u64)];

// A text with numbers, as std formats them.
type Formatted = Result<String, AllocError>;

// Writes a number into a field.
fn put(bytes: &mut [u8], field: (usize, usize), number: u64) {
    let new = number.to_le_bytes();
    for (byte, new) in bytes.iter_mut().skip(field.0).take(field.1).zip(&new) {
        *byte = *new;
    }
}

// The file with some numbers changed.
fn changed(changes: Changes<'_>) -> [u8; 208] {
    let mut bytes = *FILE;
    for (field, number) in changes {
        put(&mut bytes, *field, *number);
    }
    bytes
}

// The line that refuses a file with this text.
fn line_of(alloc: Global, text: Formatted) -> Formatted {
    let text = text?;
    format!(in alloc; "refused: {text}\n")
}

// Whether these bytes are refused with this text. A run does the same after its reading, which takes most of its time.
fn refuses_bytes(alloc: Global, opts: &ParseOptions, bytes: &[u8], text: Formatted) -> bool {
    let Ok(line) = line_of(alloc, text) else {
        return false;
    };
    let mut file = FileBytes::new(bytes);
    let mut writer = Counted::new(Vec::new(alloc));
    show_file(alloc, &mut writer, &mut file, opts) == Outcome::Refused
        && writer.into_inner().as_slice() == line.as_bytes()
}

// The same of the file with some numbers changed.
fn refuses(alloc: Global, opts: &ParseOptions, changes: Changes<'_>, text: Formatted) -> bool {
    refuses_bytes(alloc, opts, &changed(changes), text)
}

// Whether each class, each byte order and each length of a header is refused that is none.
fn refuses_headers(alloc: Global) -> bool {
    (0..256).all(|n| {
        let class = format!(in alloc; "Malformed entity: invalid ELF class {n:x}");
        let order = format!(in alloc; "Malformed entity: invalid ELF endianness DATA type {n:x}");
        let is_one = n == 1 || n == 2;
        (is_one || refuses(alloc, &STRICT, &[(CLASS, n)], class))
            && (is_one || refuses(alloc, &STRICT, &[(ORDER, n)], order))
    })
}

fn refuses_cut_headers(alloc: Global) -> bool {
    (16..64).all(|len| {
        let text = format!(in alloc; "type is too big (64) for {len}");
        refuses_bytes(alloc, &STRICT, FILE.get(..len).unwrap_or(b""), text)
    })
}

// Whether a file that begins with a number is refused for it. Each of the following does so for a number of the file,
// if it is one that is refused.
fn refuses_a_magic_number(alloc: Global, n: u64) -> bool {
    let text = format!(in alloc; "Invalid magic number: 0x{n:x}");
    refuses_bytes(alloc, &STRICT, &u128::from(n).to_le_bytes(), text)
}

fn refuses_section_headers(alloc: Global, n: u64) -> bool {
    let offset = format!(in alloc; "bad offset {n}");
    let count = format!(in alloc; "Buffer is too short for {n} section headers");
    (n < LEN || refuses(alloc, &STRICT, &[(SHOFF, n)], offset))
        && (n < 4 || refuses(alloc, &STRICT, &[(SHNUM, 0), (COUNT, n)], count))
}

fn refuses_an_offset(alloc: Global, n: u64) -> bool {
    let name = n & 0xffff_ffff;
    let overflow = n.checked_add(LEN).is_none();
    let text = format!(in alloc;
        "Malformed entity: Section {name} size (208) + offset ({n}) is out of bounds. Overflowed: {overflow}"
    );
    let changes = [(NAME, n), (OFFSET, n), (SIZE, LEN)];
    n == 0 || refuses(alloc, &STRICT, &changes, text)
}

fn refuses_a_size(alloc: Global, n: u64) -> bool {
    let overflow = n.checked_add(LEN).is_none();
    let text = format!(in alloc;
        "Malformed entity: Section 0 size ({n}) + offset (208) is out of bounds. Overflowed: {overflow}"
    );
    n == 0 || refuses(alloc, &STRICT, &[(OFFSET, LEN), (SIZE, n)], text)
}

// The greatest addresses, one after another: the section's 16 bytes end past them.
fn refuses_an_address(alloc: Global, n: u64) -> bool {
    let name = n & 0xffff_ffff;
    let addr = u64::MAX - n % 16;
    let text = format!(in alloc;
        "Malformed entity: Section {name} size (16) + addr ({addr}) is out of bounds. Overflowed: true"
    );
    refuses(alloc, &STRICT, &[(NAME, n), (ADDR, addr)], text)
}

// A table of no bytes is read only for its names.
fn refuses_names(alloc: Global, n: u64) -> bool {
    let text = format!(in alloc;
        "Malformed entity: String table offset ({n}) is beyond file boundary (208)"
    );
    n <= LEN || refuses(alloc, &STRICT, &[(OFFSET, n), (SIZE, 0)], text)
}

// Permissive options pass the section, and refuse its relocations.
fn refuses_relocations(alloc: Global, n: u64) -> bool {
    let size = format!(in alloc; "type is too big ({n}) for 144");
    let offset = format!(in alloc; "bad offset {n}");
    (n <= 144 || refuses(alloc, &PERMISSIVE, &[(SIZE, n)], size))
        && (n < LEN || refuses(alloc, &PERMISSIVE, &[(OFFSET, n)], offset))
}

// Whether each refusal of a section with this number is reported.
fn refuses_with(alloc: Global, n: u64) -> bool {
    refuses_a_magic_number(alloc, n)
        && refuses_section_headers(alloc, n)
        && refuses_an_offset(alloc, n)
        && refuses_a_size(alloc, n)
        && refuses_an_address(alloc, n)
        && refuses_names(alloc, n)
        && refuses_relocations(alloc, n)
}

// The same of a number and of those beside it.
fn refuses_about(alloc: Global, n: u64) -> bool {
    refuses_with(alloc, n.wrapping_sub(1))
        && refuses_with(alloc, n)
        && refuses_with(alloc, n.wrapping_add(1))
}

// The same about each power of two and of ten. About the first one, 1, the number 0 is.
fn refuses_with_powers(alloc: Global, base: u64) -> bool {
    let mut power = 1_u64;
    (0..64).all(|_| {
        let refuses = refuses_about(alloc, power);
        power = power.wrapping_mul(base);
        refuses
    })
}

// Whether names that are not UTF-8 are refused with so many bytes of them: a zero byte, the bad one, and zero bytes
// after it.
fn refuses_bad_names(alloc: Global, n: u64) -> bool {
    let text = format!(in alloc; "bad input invalid utf8 ({n})");
    let size = n.saturating_add(1);
    changed(&[(OFFSET, LEN), (SIZE, size)])
        .to_vec(alloc)
        .is_ok_and(|mut bytes| {
            let is_resized = bytes.resize(LEN.saturating_add(size) as usize, 0).is_ok();
            put(bytes.as_mut_slice(), (209, 1), 0xff);
            is_resized && refuses_bytes(alloc, &STRICT, bytes.as_slice(), text)
        })
}

#[test]
fn reports_a_header_of_any_byte(rt: HostRuntime) {
    assert!(rt; refuses_headers(rt.alloc()));
    assert!(rt; refuses_cut_headers(rt.alloc()));
}

// Whether a run over a file that begins with this number is refused for it.
fn run_refuses_a_magic_number(alloc: Global, n: u64) -> bool {
    let bytes = u128::from(n).to_le_bytes();
    line_of(alloc, format!(in alloc; "Invalid magic number: 0x{n:x}")).is_ok_and(|line| ends(
        alloc,
        &STRICT,
        Cursor::new(bytes.as_slice()),
        line.as_str(),
    ))
}

#[test]
fn reports_powers_of_two_in_runs(rt: HostRuntime) {
    assert!(rt; (0..64).all(|bit| run_refuses_a_magic_number(rt.alloc(), 1 << bit)));
}

#[test]
fn reports_many_numbers(rt: HostRuntime) {
    assert!(rt; (0..301).all(|n| refuses_with(rt.alloc(), n)));
    assert!(rt; (4_090..4_101).all(|n| refuses_with(rt.alloc(), n)));
    assert!(rt; refuses_with_powers(rt.alloc(), 2));
    assert!(rt; refuses_with_powers(rt.alloc(), 10));
}

#[test]
fn reports_bad_names_of_many_lengths(rt: HostRuntime) {
    assert!(rt; (1..301).all(|n| refuses_bad_names(rt.alloc(), n)));
    assert!(rt; (4_090..4_101).all(|n| refuses_bad_names(rt.alloc(), n)));
    assert!(rt; (9_999..10_002).all(|n| refuses_bad_names(rt.alloc(), n)));
    assert!(rt; (65_534..65_538).all(|n| refuses_bad_names(rt.alloc(), n)));
}
