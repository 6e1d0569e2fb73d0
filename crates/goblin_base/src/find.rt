//! Binary search among sorted offsets.
ghost use Rattle.std.specs.Prelude.{◌≡◌, ◌+◌, ◌≤◌, if◌then◌else◌, min, length, nat_le};
ghost use Rattle.goblin_base.specs.Search.{FindsLast, digits};

use crate::entries::Probes;

/// Returns the index of the last place at or before the offset, or `None` if there is none.
///
/// It reads as many places as their number has binary digits, or one fewer: at most 64.
///
/// <!-- quoted: crates/goblin_uses/src/names.rt -->
/// ```
/// let mut probes = Probes::of(entries);
/// let _ = find(&mut probes, offset);
/// probes.count()
/// ```
#[tactic(auto, using(crate::proofs::DigitsLemmas::probes))]
pub fn find(view: &mut Probes<'_>, offset: usize) -> Option<usize>
    ensures value { FindsLast view.old.places offset result }
    ensures unchanged { view.new.places ≡ view.old.places }
    ensures probes { view.new.count ≤ view.old.count + digits (length view.old.places) }
    ensures probes_least { let least = view.old.count + digits (length view.old.places + 1) in
        min least u64.MAX ≤ view.new.count + 1 }
    ensures bound { digits (length view.old.places + 1) ≤ 64 }
    ensures rising { view.old.count ≤ view.new.count }
{
    // The places before `low` are at or before the offset. Those from `low + size` on are after it.
    //
    //     0               low           low + size           len
    //     | at or before  |  not known  |  after the offset  |
    let mut low = 0;
    let mut size = view.len();
    while size > 0 {
        let half = size / 2;
        low += step_past(view.at(low + half), offset, size - half);
        size = half;
    }
    if low == 0 { None } else { Some(low - 1) }
}

// Returns `step` if the place is at or before the offset, else 0. A branch would be mispredicted half the time, so the
// borrow of a subtraction masks the step.
#[inline(always)]
fn step_past(place: usize, offset: usize, step: usize) -> usize
    ensures { result ≡ (if nat_le place offset then step else 0) }
{
    let borrow = (place as u128).wrapping_sub(offset as u128 + 1) >> 64;
    step & borrow as usize
}
