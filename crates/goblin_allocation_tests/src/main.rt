//! Makes each call that allocates, with one of its allocations refused.
//!
//! A line `NAME` of standard input makes the call with this name and prints its result. A line `NAME N R`
//! makes it twice, with its allocation N refused and with ample memory, and prints whether the two results
//! are as expected. The runner refuses allocation R of the program, so R - N are made before the call. With
//! `NAME N R last` it also prints if the call makes allocation N. `checks/allocations.py` tries all calls.
//! The calls of `held.rt` are made by `checks/limits.py` alone, with little memory.
#![tactic(auto)]

mod allocations;
mod answer;
mod calls;
mod faults;
mod held;
mod records;
mod strings;

use allocations::{MOST, Tried, judged, read_input, refusal_of, takes_all_before, was_met};
use answer::{Answer, text_of};
use calls::{answer_to, first_of};
use goblin::error::Result;
use std::alloc::Global;
use std::io;

// Reports whether an answer is that memory was refused, and whether it is the one with ample memory.
fn compared(
    alloc: Global,
    answer: &Result<Answer>,
    ample: &Result<Answer>,
) -> Result<(bool, bool)> {
    let text = text_of(alloc, answer)?;
    let ample = text_of(alloc, ample)?;
    Ok((text.as_str() == "refused: Out of memory", text == ample))
}

// Makes the call of a line with its allocation refused and with ample memory, and returns whether the results
// are as expected.
fn tried(alloc: Global, name: &str, numbers: &str) -> Result<&'static str> {
    let (number, refused, is_last) = refusal_of(numbers);
    let takes_all = takes_all_before(alloc, number, refused);
    let answer = answer_to(alloc, name);
    let is_met = was_met(alloc, number);
    let (Some(answer), Some(ample)) = (answer, answer_to(alloc, name)) else {
        return Ok("there is no such call");
    };
    if !takes_all {
        return Ok("an allocation before the call was refused");
    }
    let (is_out_of_memory, is_ample) = compared(alloc, &answer, &ample)?;
    let tried = Tried {
        number,
        is_last,
        is_met,
        is_out_of_memory,
        is_ample,
    };
    Ok(judged(first_of(name), &tried))
}

// Makes the call of a line and prints its result.
fn print_result(rt: &HostRuntime, line: &str) -> io::Result<()> {
    if let Some((name, numbers)) = line.split_once(' ') {
        return match tried(rt.alloc(), name, numbers) {
            Ok(judged) => println!(rt; "{judged}"),
            Err(e) => println!(rt; "{e}"),
        };
    }
    match answer_to(rt.alloc(), line).map(|answer| text_of(rt.alloc(), &answer)) {
        Some(Ok(text)) => println!(rt; "{line}: {text}"),
        Some(Err(e)) => println!(rt; "{line}: {e}"),
        None => println!(rt; "{line}: there is no such call"),
    }
}

fn main(rt: HostRuntime) -> io::Result<()> {
    let mut buffer = [0; MOST];
    let filled = read_input(&rt, &mut buffer)?;
    let text = std::str::from_utf8(&buffer[..filled]).unwrap_or("");
    for line in text.lines() {
        print_result(&rt, line)?;
    }
    Ok(())
}
