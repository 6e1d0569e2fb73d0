//! The calls on string tables.
use crate::answer::Answer;
use goblin::error::Result;
use goblin::options::{ParseMode, ParseOptions};
use goblin::strtab::Strtab;
use goblin_base::entries::Looked;
use goblin_base::walk::walk;
use std::alloc::Global;

// Nine strings.
const NINE: &[u8] = b"a\0b\0c\0d\0e\0f\0g\0h\0i";
// A string, eight bytes that are not UTF-8, a string right after these, and one more.
const DAMAGED: &[u8] = b"a\0\xff\xff\xff\xff\xff\xff\xff\xffb\0c";
// Ten entries. The fifth and the ninth are strings right after bytes that are not UTF-8.
const RESUMED: &[u8] = b"a\0b\0c\0\xffd\0\xff\xff\xffe\0f";

/// String tables and their strings.
pub(crate) fn tables(alloc: Global, form: &str) -> Option<Result<Answer>> {
    match form {
        "parse" => Some(Strtab::parse(alloc, NINE, 0, 17, 0).map(Answer::Table)),
        "outside" => Some(Strtab::parse(alloc, NINE, 18, 1, 0).map(Answer::Table)),
        "damaged" => Some(permissive(alloc, DAMAGED).map(Answer::Table)),
        "resumed" => Some(permissive(alloc, RESUMED).map(Answer::Table)),
        "whole" => Some(Strtab::new_preparsed(alloc, NINE, 0).map(Answer::Table)),
        "early" => Some(Strtab::new_preparsed(alloc, b"\xff\0a", 0).map(Answer::Table)),
        "late" => Some(Strtab::new_preparsed(alloc, b"a\0\xff", 0).map(Answer::Table)),
        "parsed" => Some(parsed_vector(alloc).map(Answer::Strings)),
        "unparsed" => Some(Strtab::new(NINE, 0).to_vec(alloc).map(Answer::Strings)),
        _ => None,
    }
}

fn permissive(alloc: Global, bytes: &'static [u8]) -> Result<Strtab<'static>> {
    Strtab::parse_with_opts(alloc, bytes, 0, bytes.len(), 0, &ParseOptions::permissive())
}

fn parsed_vector(alloc: Global) -> Result<Vec<&'static str>> {
    Strtab::new_preparsed(alloc, NINE, 0)?.to_vec(alloc)
}

/// Walks over the bytes of string tables.
pub(crate) fn walks(alloc: Global, form: &str) -> Option<Result<Answer>> {
    match form {
        "strict" => Some(walked(alloc, NINE, ParseMode::Strict)),
        "damaged" => Some(walked(alloc, DAMAGED, ParseMode::Permissive)),
        "resumed" => Some(walked(alloc, RESUMED, ParseMode::Permissive)),
        _ => None,
    }
}

fn walked(alloc: Global, bytes: &'static [u8], mode: ParseMode) -> Result<Answer> {
    let entries = walk(alloc, &mut Looked::new(bytes), 0, mode)?;
    Ok(Answer::Entries(entries))
}
