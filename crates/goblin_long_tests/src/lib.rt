//! Tests of `goblin_text` that take minutes if they run without a proof, with checks of each access. So they are proved
//! first.
#![tactic(auto)]

#[cfg(test)]
mod names;
#[cfg(test)]
mod reads;
