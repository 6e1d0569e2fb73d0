//! Tests of `goblin`, of the crates below it and of `goblin_dynamic`, a file for each file of theirs, by its name: each
//! reaches its subject by the paths of the crate that it lies in.
#![tactic(auto)]

#[cfg(test)]
mod compare;
#[cfg(test)]
mod container;
#[cfg(test)]
mod cost;
#[cfg(test)]
mod counted_bytes;
#[cfg(test)]
mod dynamic;
#[cfg(test)]
mod entries;
#[cfg(test)]
mod error;
#[cfg(test)]
mod greatest;
#[cfg(test)]
mod header;
#[cfg(test)]
mod note;
#[cfg(test)]
mod number;
#[cfg(test)]
mod options;
mod own_record;
#[cfg(test)]
mod paths;
#[cfg(test)]
mod program_header;
#[cfg(test)]
mod record;
#[cfg(test)]
mod reloc;
#[cfg(test)]
mod room;
#[cfg(test)]
mod section_header;
#[cfg(test)]
mod strtab;
#[cfg(test)]
mod sym;
#[cfg(test)]
mod table;
#[cfg(test)]
mod texts;
#[cfg(test)]
mod traits;
#[cfg(test)]
mod walk;
#[cfg(test)]
mod whole_part;
