//! What the crates of the ELF port share: the context of a file, errors and options, the test whether bytes
//! lie in a slice, numbers in bytes, records and tables of records, and string tables.
#![tactic(auto)]

mod alike;
mod ascii;
pub mod container;
mod count;
pub mod counted_bytes;
pub mod digits;
pub mod entries;
pub mod error;
pub mod find;
pub mod laid_out;
mod marks;
pub mod number;
pub mod options;
pub mod range;
pub mod record;
pub mod room;
pub mod scroll;
mod searches;
pub mod strtab;
pub mod table;
pub mod texts;
pub mod utf8;
pub mod walk;
pub mod wanted;
