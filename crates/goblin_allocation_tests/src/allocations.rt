//! Makes allocations before and after a call, so that the runner refuses one of the call's own, and judges the call's
//! result.
ghost use Rattle.std.specs.Prelude.{◌≤◌, IfOk};

use std::alloc::Global;
use std::io;
use std::io::Read;

/// The most bytes of input.
pub(crate) const MOST: usize = 2048;

/// Reads the input into the buffer up to its end, and returns the number of bytes read.
pub(crate) fn read_input(rt: &HostRuntime, buffer: &mut [u8; MOST]) -> io::Result<usize>
    ensures { IfOk result (λ filled. filled ≤ MOST) }
{
    let mut filled = 0;
    for _ in 0..MOST {
        if filled >= MOST {
            break;
        }
        let count = rt.stdin().read(&mut buffer[filled..])?;
        if count == 0 {
            break;
        }
        filled += count;
    }
    Ok(filled.min(MOST))
}

/// Returns a word of a line as a number.
pub(crate) fn number_of(word: Option<&str>) -> u64 {
    word.unwrap_or("").parse::<u64>().unwrap_or(0)
}

/// Returns the numbers of the allocation that is refused, of the call's and of the program's, and whether the call
/// should not make it.
pub(crate) fn refusal_of(numbers: &str) -> (u64, u64, bool) {
    let mut words = numbers.split(' ');
    let (number, refused) = (number_of(words.next()), number_of(words.next()));
    (number, refused, words.next() == Some("last"))
}

// Reports whether an allocation of one byte is refused.
fn is_refused(alloc: Global) -> bool {
    let mut buffer: Vec<u8> = Vec::new(alloc);
    buffer.push(1).is_err()
}

/// Makes so many allocations before a call that the call's allocation `number` is the program's allocation `refused`,
/// which the runner refuses. Reports whether all of them succeeded.
pub(crate) fn takes_all_before(alloc: Global, number: u64, refused: u64) -> bool {
    let mut takes_all = true;
    for _ in number..refused {
        takes_all = !is_refused(alloc) && takes_all;
    }
    takes_all
}

/// Reports whether a call made its allocation with this number, which is refused. If it didn't, the refused
/// allocation is made here, so that all allocations after this succeed.
pub(crate) fn was_met(alloc: Global, number: u64) -> bool {
    let mut is_met = true;
    for _ in 0..number {
        is_met = !is_refused(alloc) && is_met;
    }
    is_met
}

/// What a call does if its first allocation is refused.
#[derive(Clone, Copy, PartialEq)]
pub enum First {
    /// It reports out of memory.
    Fails,
    /// It asks for less memory, and may return what it returns with ample memory.
    GoesOn,
    /// It makes no allocation, since it refuses its input first.
    TakesNone,
}

/// A call that was made with one allocation refused, and once more with ample memory.
#[derive(Drop)]
pub struct Tried {
    /// The number of the allocation that was refused.
    pub(crate) number: u64,
    /// Whether the call should not make that allocation.
    pub(crate) is_last: bool,
    /// Whether the call made it.
    pub(crate) is_met: bool,
    /// Whether the call reported out of memory.
    pub(crate) is_out_of_memory: bool,
    /// Whether the result was the same as with ample memory.
    pub(crate) is_ample: bool,
}

/// Returns what is printed for a call that should do this if its first allocation is refused.
pub(crate) fn judged(first: First, tried: &Tried) -> &'static str {
    if tried.number == 1 && tried.is_met != (first != First::TakesNone) {
        return "it should make a first allocation and does not, or the other way round";
    }
    if tried.number == 1 && first == First::Fails && !tried.is_out_of_memory {
        return "the first allocation was refused, and it did not report out of memory";
    }
    if tried.is_last && tried.is_met {
        return "it makes more allocations than were refused";
    }
    if tried.is_ample || (tried.is_met && tried.is_out_of_memory) {
        return "as expected";
    }
    "neither out of memory nor the result with ample memory"
}
