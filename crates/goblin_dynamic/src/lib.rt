//! The dynamic section, which says what a program needs of the loader: System V gABI, "Dynamic Section".
//!
//! This crate is no part of goblin that was ported: it is built on the crate `goblin`. No call allocates.
#![tactic(auto)]

pub mod dynamic;
pub mod entry;
pub mod tags;
