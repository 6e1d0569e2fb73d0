//! The ELF layer of `goblin`, under its module paths.
//!
//! A function whose doc begins with "A law" or "Laws" states in its clauses what holds of several
//! calls. A call of it does nothing, or returns the value that the law is about.
#![tactic(auto)]

pub mod elf;
pub mod elf32;
pub mod elf64;

pub use goblin_base::{container, error, options, scroll, strtab};
