//! The names of numbers.
use goblin::elf::header::{class_to_str, et_to_str, machine_to_str};
use goblin::elf::note::Note;
use goblin::elf::program_header::pt_to_str;
use goblin::elf::section_header::{shf_to_str, sht_to_str};
use goblin::elf::sym::{bind_to_str, type_to_str, visibility_to_str};
use std::io;

// All numbers of 8 bits, and of 16.
static BYTES: &[(u8, u8)] = &[(0, u8::MAX)];

static HALVES: &[(u16, u16)] = &[(0, u16::MAX)];

// The ranges of numbers of 32 bits that are tried: all around those that have a name.
static WORDS: &[(u32, u32)] = &[
    (0, 0x1000),
    (0x4000_0000, 0x4000_0001),
    (0x4649_4c45, 0x4649_4c46),
    (0x5349_4749, 0x5349_474a),
    (0x5fff_ffff, 0x6000_0001),
    (0x6474_e54f, 0x6474_e554),
    (0x6fff_fff0, 0x7000_0010),
    (0x7fff_fffe, 0x8000_0001),
    (0x8fff_fffe, 0x9000_0000),
    (u32::MAX, u32::MAX),
];

// Prints the names of the numbers of some ranges: each number whose name isn't that of the number before it.
macro_rules! names {
    ($rt:expr, $ranges:expr, $call:ident) => {
        names!($rt, $ranges, stringify!($call), number => $call(number))
    };
    ($rt:expr, $ranges:expr, $title:expr, $number:ident => $name:expr) => {{
        let title = $title;
        let mut last = "";
        for (first, end) in $ranges {
            for $number in *first..=*end {
                let name = $name;
                if name != last {
                    println!($rt; "{title} {} {name}", $number)?;
                    last = name;
                }
            }
        }
        Ok(())
    }};
}

fn classes(rt: HostRuntime) -> io::Result<()> {
    names!(rt, BYTES, class_to_str)
}

fn file_types(rt: HostRuntime) -> io::Result<()> {
    names!(rt, HALVES, et_to_str)
}

fn machines(rt: HostRuntime) -> io::Result<()> {
    names!(rt, HALVES, machine_to_str)
}

fn segment_types(rt: HostRuntime) -> io::Result<()> {
    names!(rt, WORDS, pt_to_str)
}

fn section_types(rt: HostRuntime) -> io::Result<()> {
    names!(rt, WORDS, sht_to_str)
}

fn section_flags(rt: HostRuntime) -> io::Result<()> {
    names!(rt, WORDS, shf_to_str)
}

fn bindings(rt: HostRuntime) -> io::Result<()> {
    names!(rt, BYTES, bind_to_str)
}

fn symbol_types(rt: HostRuntime) -> io::Result<()> {
    names!(rt, BYTES, type_to_str)
}

fn visibilities(rt: HostRuntime) -> io::Result<()> {
    names!(rt, BYTES, visibility_to_str)
}

// The names of the types of notes of a system.
fn note_types(rt: HostRuntime, name: &str) -> io::Result<()> {
    let desc = b"";
    names!(rt, WORDS, format_args!("note of {name:?}"), n_type =>
        Note { n_type, name, desc }.type_to_str())
}

/// Prints the names of all calls.
pub(crate) fn print(rt: HostRuntime) -> io::Result<()> {
    classes(rt)?;
    file_types(rt)?;
    machines(rt)?;
    segment_types(rt)?;
    section_types(rt)?;
    section_flags(rt)?;
    bindings(rt)?;
    symbol_types(rt)?;
    visibilities(rt)?;
    for name in ["CORE", "GNU", "Go", "CORE2", "core", ""] {
        note_types(rt, name)?;
    }
    Ok(())
}
