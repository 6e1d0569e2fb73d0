//! Tests of `goblin_text`: runs over readers and writers in memory, and over ones that fail.
#![tactic(auto)]

#[cfg(test)]
mod counted;
#[cfg(test)]
mod hostile;
#[cfg(test)]
mod refusals;
#[cfg(test)]
mod run;
#[cfg(test)]
mod streams;
