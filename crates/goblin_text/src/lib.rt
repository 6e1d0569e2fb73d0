//! The text that `goblin_show` shows of an ELF file: its header, sections, symbols and relocations, from bytes to a
//! string, or from a reader to a writer.
#![tactic(auto)]

mod accept;
mod block_runs;
pub mod command;
pub mod counted;
pub mod file_bytes;
pub mod input;
mod lines;
mod looks;
pub mod names;
pub mod options;
pub mod run;
pub mod streams;
mod targets;
pub mod text;
