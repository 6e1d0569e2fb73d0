//! Prints each constant of the library with its number, and the names of numbers. The stored output, `stdout`, is a
//! table that was written from the standard's numbers and goblin's names, and not by this program.
//!
//! A constant's line has the name by which its number is read here. A name's line holds for its number and all greater
//! ones up to the next line.
#![tactic(auto)]

mod constants;
mod names;

use std::io;

fn main(rt: HostRuntime) -> io::Result<()> {
    constants::print(rt)?;
    names::print(rt)
}
