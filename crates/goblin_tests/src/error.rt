//! Cases with their results: texts of errors.
use crate::compare::{differs, each_row, has_message, holds, is, rows};
use goblin_base::error::{Error, Fault};
use goblin_base::scroll;
use std::alloc::{AllocError, AllocFailed};
use std::fmt;
use std::fmt::{Display, Write};

// What stands before the text of a fault.
const MALFORMED: &str = "Malformed entity: ";

// The greatest number of which 50 more is none.
const NEAR: u64 = 18446744073709551566;

// Errors, their kinds, their numbers in the order of their fields, and their texts. Each text that has a number has one
// of 10 or more, so that it differs in decimal and hexadecimal digits.
static ERRORS: [(Error, u32, [u64; 3], &str); 25] = rows![
    Error::Malformed(Fault::InvalidClass(200)), 10, [200, 0, 0],
        "Malformed entity: Invalid class in Header: 200";
    Error::Malformed(Fault::InvalidEndianness(200)), 11, [200, 0, 0],
        "Malformed entity: Invalid endianness in Header: 200";
    Error::Malformed(Fault::TooSmall), 12, [0; 3], "Malformed entity: Too small";
    Error::Malformed(Fault::ElfClass(200)), 13, [200, 0, 0], "Malformed entity: invalid ELF class c8";
    Error::Malformed(Fault::ElfClass(9)), 13, [9, 0, 0], "Malformed entity: invalid ELF class 9";
    Error::Malformed(Fault::DataType(200)), 14, [200, 0, 0],
        "Malformed entity: invalid ELF endianness DATA type c8";
    Error::Malformed(Fault::Data(200)), 15, [200, 0, 0], "Malformed entity: invalid ELF DATA type c8";
    Error::Malformed(Fault::NoteAlign(16)), 16, [16, 0, 0],
        "Malformed entity: Notes has unimplemented alignment requirement: 0x10";
    Error::Malformed(Fault::NoteAlign(0xab)), 16, [0xab, 0, 0],
        "Malformed entity: Notes has unimplemented alignment requirement: 0xab";
    Error::Malformed(Fault::SymtabOffset { offset: 48, len: 47 }), 17, [48, 47, 0],
        "Malformed entity: Symbol table offset (48) is beyond file boundary (47)";
    Error::Malformed(Fault::TooManySymbols { offset: 47, count: usize::MAX }), 18, [47, u64::MAX, 0],
        "Malformed entity: Too many ELF symbols (offset 0x2f, count 18446744073709551615)";
    Error::Malformed(Fault::SymtabPast { requested: 72, available: 48 }), 19, [72, 48, 0],
        "Malformed entity: Symbol table extends beyond file boundary (requested: 72, available: 48)";
    Error::Malformed(Fault::StrtabOffset { offset: 45, len: 34 }), 20, [45, 34, 0],
        "Malformed entity: String table offset (45) is beyond file boundary (34)";
    Error::Malformed(Fault::StrtabRange { size: 33, offset: 12, len: 44, overflow: false }), 21, [33, 12, 44],
        "Malformed entity: Strtable size (33) + offset (12) is out of bounds for 44 #bytes. Overflowed: false";
    Error::Malformed(Fault::SectionOffset { name: 7, size: 50, offset: 100, overflow: false }), 22, [7, 50, 100],
        "Malformed entity: Section 7 size (50) + offset (100) is out of bounds. Overflowed: false";
    Error::Malformed(Fault::SectionOffset { name: 12, size: 50, offset: 100, overflow: false }), 22, [12, 50, 100],
        "Malformed entity: Section 12 size (50) + offset (100) is out of bounds. Overflowed: false";
    Error::Malformed(Fault::SectionAddr { name: 7, size: 50, addr: NEAR, overflow: true }), 23, [7, 50, NEAR],
        "Malformed entity: Section 7 size (50) + addr (18446744073709551566) is out of bounds. Overflowed: true";
    Error::Malformed(Fault::SectionAddr { name: 10, size: 50, addr: NEAR, overflow: true }), 23, [10, 50, NEAR],
        "Malformed entity: Section 10 size (50) + addr (18446744073709551566) is out of bounds. Overflowed: true";
    Error::BadMagic(0xabc), 2, [0xabc, 0, 0], "Invalid magic number: 0xabc";
    Error::BufferTooShort(17, "symbols"), 6, [17, 0, 0], "Buffer is too short for 17 symbols";
    Error::Scroll(scroll::Error::TooBig { size: 64, len: 52 }), 3, [64, 52, 0], "type is too big (64) for 52";
    Error::Scroll(scroll::Error::BadOffset(20)), 4, [20, 0, 0], "bad offset 20";
    Error::Scroll(scroll::Error::BadInput { size: 30, msg: "invalid utf8" }), 5, [30, 0, 0],
        "bad input invalid utf8 (30)";
    Error::Scroll(scroll::Error::BadInput { size: 80, msg: "too long" }), 5, [80, 0, 0], "bad input too long (80)";
    Error::Memory(AllocError), 7, [0; 3], "Out of memory";
];

// A text, as std formats it.
type Formatted = Result<String, AllocError>;

// Whether this was formatted.
fn is_text(rt: HostRuntime, shown: Formatted, text: &str) -> bool {
    match shown {
        Ok(shown) => is(rt, shown.as_str(), text),
        Err(e) => differs(rt, &e, &text),
    }
}

// Whether `Display` writes an error, or a part of one, as this text, which neither the alternate form nor a width
// changes.
fn shows<E: Display>(rt: HostRuntime, part: &E, text: &str) -> bool {
    is_text(rt, format!(in rt.alloc(); "{part}"), text)
        && is_text(rt, format!(in rt.alloc(); "{part:#}"), text)
        && is_text(rt, format!(in rt.alloc(); "{part:1}"), text)
        && is_text(rt, format!(in rt.alloc(); "{part:120}"), text)
}

// Whether `line` and `Display` of an error and of its report write this message, and `Display` writes its part without
// the prefix.
fn has_messages(rt: HostRuntime, error: &Error, text: &str) -> bool {
    let is_shown = has_message(rt, error, text)
        && shows(rt, error, text)
        && shows(rt, &error.report(), text);
    match error {
        Error::Malformed(fault) => {
            is_shown
                && shows(
                    rt,
                    fault,
                    text.strip_prefix(MALFORMED).unwrap_or("no fault"),
                )
        }
        Error::Scroll(e) => is_shown && shows(rt, e, text),
        _ => is_shown,
    }
}

#[test]
fn returns_the_messages_of_errors(rt: HostRuntime) {
    assert!(rt; each_row!(rt; row in ERRORS => has_messages(rt, &row.0, row.3)));
}

// Whether the report of an error has this kind and these numbers, and an overflow if the text says so.
fn reports_numbers(rt: HostRuntime, row: &(Error, u32, [u64; 3], &str)) -> bool {
    let report = row.0.report();
    let found = [report.first, report.second, report.third];
    is(rt, (report.kind as u32, found), (row.1, row.2))
        && is(rt, report.overflow, row.3.ends_with("true"))
}

#[test]
fn reports_the_numbers_of_errors(rt: HostRuntime) {
    assert!(rt; each_row!(rt; row in ERRORS => reports_numbers(rt, row)));
}

// A writer that takes some texts and refuses all after them.
#[derive(Drop)]
struct Refusing {
    takes: usize,
    calls: usize,
}

impl Write for Refusing {
    fn write_str(&mut self, _text: &str) -> fmt::Result {
        self.calls = self.calls.saturating_add(1);
        if self.calls > self.takes {
            Err(fmt::Error)
        } else {
            Ok(())
        }
    }
}

// Whether `Display` of an error, or of a part of one, fails at the first text that such a writer refuses, and writes no
// other.
fn ends_refused<E: Display>(rt: HostRuntime, part: &E, takes: usize) -> bool {
    let mut writer = Refusing { takes, calls: 0 };
    let is_refused = write!(writer, "{part}").is_err();
    let calls = if is_refused {
        takes.saturating_add(1)
    } else {
        takes.min(writer.calls)
    };
    holds(rt, &takes, is(rt, writer.calls, calls))
}

// The same of the error, of its report and of its part.
fn ends_where_refused(rt: HostRuntime, error: &Error, takes: usize) -> bool {
    let is_so = ends_refused(rt, error, takes) && ends_refused(rt, &error.report(), takes);
    match error {
        Error::Malformed(fault) => is_so && ends_refused(rt, fault, takes),
        Error::Scroll(e) => is_so && ends_refused(rt, e, takes),
        _ => is_so,
    }
}

#[test]
fn writes_nothing_after_a_refusal(rt: HostRuntime) {
    for (error, _, _, text) in &ERRORS {
        assert!(rt; (0..12).all(|takes| holds(rt, text, ends_where_refused(rt, error, takes))));
    }
}

#[test]
fn makes_errors_of_others(rt: HostRuntime) {
    let past = scroll::Error::BadOffset(20);
    assert!(rt; has_messages(rt, &Error::from(past), "bad offset 20"));
    let long = scroll::Error::TooBig { size: 64, len: 52 };
    assert!(rt; has_messages(rt, &Error::from(long), "type is too big (64) for 52"));
    let (size, msg) = (30, "invalid utf8");
    let no_text = scroll::Error::BadInput { size, msg };
    assert!(rt; has_messages(rt, &Error::from(no_text), "bad input invalid utf8 (30)"));
    assert!(rt; has_messages(rt, &Error::from(AllocError), "Out of memory"));
    let failed = AllocFailed { value: 5u8 };
    assert!(rt; has_messages(rt, &Error::from(failed), "Out of memory"));
}

// Whether the error of a conversion that fails has its message, made by `From` and as a fault.
fn misfits(rt: HostRuntime, text: &str) -> bool {
    match (u8::try_from(256u16), u8::try_from(256u16)) {
        (Err(one), Err(other)) => {
            let fault = Error::Malformed(Fault::IntegerFit(other));
            has_messages(rt, &Error::from(one), text) && has_messages(rt, &fault, text)
        }
        (one, other) => differs(rt, &one, &other),
    }
}

#[test]
fn makes_errors_of_conversions(rt: HostRuntime) {
    let text =
        "Malformed entity: Integer do not fit: out of range integral type conversion attempted";
    assert!(rt; misfits(rt, text));
}

// Whether an error has the message.
fn says(rt: HostRuntime, error: Error, text: Formatted) -> bool {
    match text {
        Ok(text) => has_message(rt, &error, text.as_str()),
        Err(e) => differs(rt, &e, &error),
    }
}

// Whether each of these errors has the message after it.
macro_rules! all_say {
    ($rt:expr; $($error:expr => $text:literal;)+) => {
        $(says($rt, $error, format!(in $rt.alloc(); $text)))&&+
    };
}

// Whether each error of a byte has its message.
fn errors_of_a_byte_say(rt: HostRuntime, n: u8) -> bool {
    all_say![rt;
        Error::Malformed(Fault::InvalidClass(n)) => "Malformed entity: Invalid class in Header: {n}";
        Error::Malformed(Fault::InvalidEndianness(n)) => "Malformed entity: Invalid endianness in Header: {n}";
        Error::Malformed(Fault::ElfClass(n)) => "Malformed entity: invalid ELF class {n:x}";
        Error::Malformed(Fault::DataType(n)) => "Malformed entity: invalid ELF endianness DATA type {n:x}";
        Error::Malformed(Fault::Data(n)) => "Malformed entity: invalid ELF DATA type {n:x}";
    ]
}

// The same of each other error with this number as each of its numbers.
fn errors_of_places_say(rt: HostRuntime, n: u64) -> bool {
    let (size, len, msg) = (n as usize, n as usize, "invalid utf8");
    all_say![rt;
        Error::BadMagic(n) => "Invalid magic number: 0x{n:x}";
        Error::Scroll(scroll::Error::TooBig { size, len }) => "type is too big ({n}) for {n}";
        Error::Scroll(scroll::Error::BadOffset(size)) => "bad offset {n}";
        Error::Scroll(scroll::Error::BadInput { size, msg }) => "bad input invalid utf8 ({n})";
    ]
}

fn errors_of_items_say(rt: HostRuntime, n: u64, item: &'static str) -> bool {
    let count = n as usize;
    all_say![rt; Error::BufferTooShort(count, item) => "Buffer is too short for {n} {item}";]
}

fn faults_of_symbols_say(rt: HostRuntime, n: u64) -> bool {
    let (offset, len, count) = (n as usize, n as usize, n as usize);
    let (requested, available) = (n as usize, n as usize);
    all_say![rt;
        Error::Malformed(Fault::NoteAlign(len)) =>
            "Malformed entity: Notes has unimplemented alignment requirement: 0x{n:x}";
        Error::Malformed(Fault::SymtabOffset { offset, len }) =>
            "Malformed entity: Symbol table offset ({n}) is beyond file boundary ({n})";
        Error::Malformed(Fault::TooManySymbols { offset, count }) =>
            "Malformed entity: Too many ELF symbols (offset 0x{n:x}, count {n})";
        Error::Malformed(Fault::SymtabPast { requested, available }) =>
            "Malformed entity: Symbol table extends beyond file boundary (requested: {n}, available: {n})";
    ]
}

fn faults_of_strings_say(rt: HostRuntime, n: u64, overflow: bool) -> bool {
    let (size, offset, len) = (n as usize, n as usize, n as usize);
    all_say![rt;
        Error::Malformed(Fault::StrtabOffset { offset, len }) =>
            "Malformed entity: String table offset ({n}) is beyond file boundary ({n})";
        Error::Malformed(Fault::StrtabRange { size, offset, len, overflow }) =>
            "Malformed entity: Strtable size ({n}) + offset ({n}) is out of bounds for {n} #bytes. Overflowed: {overflow}";
    ]
}

fn faults_of_sections_say(rt: HostRuntime, n: u64, overflow: bool) -> bool {
    let (name, size, offset, addr) = (n as usize, n, n, n);
    all_say![rt;
        Error::Malformed(Fault::SectionOffset { name, size, offset, overflow }) =>
            "Malformed entity: Section {n} size ({n}) + offset ({n}) is out of bounds. Overflowed: {overflow}";
        Error::Malformed(Fault::SectionAddr { name, size, addr, overflow }) =>
            "Malformed entity: Section {n} size ({n}) + addr ({n}) is out of bounds. Overflowed: {overflow}";
    ]
}

// Whether each error with this number has its message.
fn errors_say(rt: HostRuntime, n: u64) -> bool {
    let are_said = errors_of_places_say(rt, n)
        && errors_of_items_say(rt, n, "symbols")
        && errors_of_items_say(rt, n, "section headers")
        && errors_of_items_say(rt, n, "program headers")
        && faults_of_symbols_say(rt, n)
        && faults_of_strings_say(rt, n, false)
        && faults_of_strings_say(rt, n, true)
        && faults_of_sections_say(rt, n, false)
        && faults_of_sections_say(rt, n, true);
    holds(rt, &n, are_said)
}

// The same of a number and of those beside it.
fn errors_say_about(rt: HostRuntime, n: u64) -> bool {
    errors_say(rt, n.wrapping_sub(1)) && errors_say(rt, n) && errors_say(rt, n.wrapping_add(1))
}

// Whether each error has its message about each power of two and of ten. About the first one, 1, the number 0 is.
fn errors_of_powers_say(rt: HostRuntime) -> bool {
    let mut two = 1_u64;
    let mut ten = 1_u64;
    for _ in 0..64 {
        if !errors_say_about(rt, two) || !errors_say_about(rt, ten) {
            return false;
        }
        two = two.wrapping_mul(2);
        ten = ten.wrapping_mul(10);
    }
    errors_say(rt, u64::MAX)
}

// A message that was refused by out of memory for a single number would stand in no row above.
#[test]
fn returns_the_messages_of_many_numbers(rt: HostRuntime) {
    assert!(rt; (0..=u8::MAX).all(|n| holds(rt, &n, errors_of_a_byte_say(rt, n))));
    assert!(rt; (0..5_001).all(|n| errors_say(rt, n)));
    assert!(rt; errors_of_powers_say(rt));
}
