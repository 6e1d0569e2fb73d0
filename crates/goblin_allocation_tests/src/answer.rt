//! Answers, and their texts.
use goblin::error::Result;
use goblin::strtab::Strtab;
use goblin_base::entries::Entries;
use std::alloc::{AllocError, Global};
use std::fmt::Write;

/// The first fields of a list of records, of nine at most, and how many records there are.
#[derive(Drop)]
pub struct Firsts {
    count: usize,
    firsts: [u64; 9],
}

/// What a call returns.
#[derive(Drop)]
pub enum Answer {
    /// A list of records.
    Records(Firsts),
    /// A string table.
    Table(Strtab<'static>),
    /// The entries of a string table.
    Entries(Entries<'static>),
    /// The strings of a string table.
    Strings(Vec<&'static str>),
    /// The text of an error.
    Line(String),
}

// A text, where there is memory.
type Text = std::result::Result<String, AllocError>;

/// The answer that a list of records is, by the first field of each.
pub(crate) fn listed<T: Drop, F: Fn(&T) -> u64>(list: Result<Vec<T>>, first: &F) -> Result<Answer>
    requires { F.IsAlwaysCallable first.now }
{
    let list = list?;
    let mut firsts = [0; 9];
    for (place, record) in firsts.iter_mut().zip(list.iter()) {
        *place = first(record);
    }
    let count = list.len();
    Ok(Answer::Records(Firsts { count, firsts }))
}

fn text_of_records(alloc: Global, records: &Firsts) -> Text {
    let count = records.count;
    let mut text = format!(in alloc; "{count} records")?;
    for first in &records.firsts {
        write!(text, " {first}")?;
    }
    Ok(text)
}

fn text_of_strings(alloc: Global, strings: &[&str]) -> Text {
    let mut text = String::from_str(alloc, "|")?;
    for string in strings {
        write!(text, "{string}|")?;
    }
    Ok(text)
}

fn text_of_entries(alloc: Global, entries: &Entries<'_>) -> Text {
    let mut text = String::from_str(alloc, "|")?;
    for i in 0..entries.len() {
        let entry = entries.text(i);
        write!(text, "{entry}|")?;
    }
    Ok(text)
}

/// The text that an answer is compared and printed by. It takes memory.
pub(crate) fn text_of(alloc: Global, answer: &Result<Answer>) -> Result<String> {
    match answer {
        Ok(Answer::Records(records)) => Ok(text_of_records(alloc, records)?),
        Ok(Answer::Table(table)) => Ok(text_of_strings(alloc, table.to_vec(alloc)?.as_slice())?),
        Ok(Answer::Entries(entries)) => Ok(text_of_entries(alloc, entries)?),
        Ok(Answer::Strings(strings)) => Ok(text_of_strings(alloc, strings.as_slice())?),
        Ok(Answer::Line(line)) => Ok(format!(in alloc; "`{line}`")?),
        Err(e) => Ok(format!(in alloc; "refused: {e}")?),
    }
}
