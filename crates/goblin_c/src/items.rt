//! Lists whose items are converted for C: how many there are, one at an index, and many at once, into a
//! buffer of the caller's; and records that lie in the file, which are read at once.
ghost use Rattle.goblin_c.specs.Buffers.{laid};
ghost use Rattle.goblin_c.specs.File.{context_of};
ghost use Rattle.goblin_c.specs.Items.{count_of, item_at, items_from};
ghost use Rattle.goblin_c.specs.Results.{Fills, ReturnsAt, Stores, converted_list};
ghost use Rattle.std.specs.Prelude.{IfSome, IsSome, IsTrue, List, drop, length, min, slice_get, take, ◌*◌, ◌+◌, ◌-◌, ◌<◌, ◌^◌, ◌≡◌, ◌≤◌};
ghost use Rattle.goblin_base.specs.declared.container.Container.TheVariants as class;
ghost use Rattle.goblin_base.specs.declared.container.Endian.TheVariants as endian;

use crate::file::GoblinHeader;
use crate::results::{END, GoblinRefusal, OK, Result, refuse, store};
use goblin::elf::header::{ELFCLASS64, ELFDATA2MSB};
use goblin_base::laid_out::LaidOut;

/// A list whose items can be converted for C.
pub trait Listed: Drop {
    /// An item for C.
    type Converted: Copy;

    // the items for C, in their order
    ghost listed: { Self → List Self.Converted };

    /// Returns the number of items.
    fn count(&self) -> usize
        ensures { result ≡ length (listed self.now) };

    /// Returns the item at an index for C, or `None` from `count()` on.
    fn converted(&self, index: usize) -> Option<Self::Converted>
        ensures { result ≡ slice_get (listed self.now) index };
}

/// Returns the number of items of a list.
pub fn count_of<L: Listed>(list: Result<L>) -> Result<Option<u64>>
    ensures { ReturnsAt (λ found. found) result (count_of (converted_list L.listed list)) }
{
    Ok(Some(list?.count() as u64))
}

/// Returns the item of a list at an index.
#[inline(always)]
pub fn item_at<L: Listed>(list: Result<L>, index: u64) -> Result<Option<L::Converted>>
    ensures { ReturnsAt (λ found. found) result (item_at (converted_list L.listed list) index) }
{
    Ok(list?.converted(index as usize))
}

/// Stores the item of a list at an index. Returns 0 for an item, 1 for none, or the number of the kind of a refusal.
#[cold]
#[inline(never)]
pub fn store_item<L: Listed>(
    list: Result<L>,
    index: u64,
    place: &mut L::Converted,
    why: &mut GoblinRefusal,
) -> u32
    ensures { Stores (item_at (converted_list L.listed list) index) place.old why.old result place.new why.new }
{
    store(item_at(list, index), place, why)
}

// Fills a buffer with the items from an index on. Returns how many it holds.
#[tactic(auto, using(crate::proofs::BufferLemmas::laid_steps))]
fn fill<L: Listed>(all: &L, first: usize, buffer: &mut [L::Converted]) -> usize
    requires { first < length (L.listed all.now) }
    ensures written { buffer.new ≡ laid (drop first (L.listed all.now)) buffer.old }
    ensures value { result ≡ min (length (L.listed all.now) - first) (length buffer.old) }
{
    let count = buffer.len().min(all.count() - first);
    for (i, place) in buffer.iter_mut().enumerate() {
        match all.converted(first + i) {
            Some(item) => *place = item,
            None => break,
        }
    }
    count
}

/// Stores the items of a list from an index on, as many as the buffer holds, and their number, or the
/// refusal. Returns 0 if there are items, 1 if there are none, or the number of the kind.
pub fn store_from<L: Listed>(
    list: Result<L>,
    first: u64,
    buffer: &mut [L::Converted],
    filled: &mut u64,
    why: &mut GoblinRefusal,
) -> u32
    ensures { Fills (items_from (converted_list L.listed list) first)
        buffer.old filled.old why.old result buffer.new filled.new why.new }
{
    match list {
        Ok(all) => {
            if first >= all.count() as u64 {
                return END;
            }
            *filled = fill(&all, first as usize, buffer) as u64;
            OK
        }
        Err(e) => refuse(&e, why),
    }
}

// The greatest index and the greatest size of a record that are found here. No place wraps with them.
const MOST_INDEX: u64 = 0xffff_ffff;

const MOST_SIZE: u64 = 0xffff;

// Returns the record at an index of those that lie one after another in `size` bytes of the file from an offset on, if
// the file has these bytes and they hold it. Its end is compared, because the number of records asks for a division,
// which takes as long as all else.
#[inline(always)]
pub fn record_in<R: LaidOut<C>, C: Copy>(
    bytes: &[u8],
    offset: u64,
    size: u64,
    index: u64,
    ctx: C,
) -> Option<R>
    ensures file { IfSome result (λ _. offset + size ≤ length bytes.now) }
    ensures bound { IfSome result (λ _. size < 2 ^ 64) }
    ensures index { IfSome result (λ _. (index + 1) * (R.layout ctx).size ≤ size) }
    ensures value { let own = (R.layout ctx).size in IfSome result (λ found.
        found ≡ (R.layout ctx).read (take own (drop (offset + index * own) bytes.now))) }
    ensures found { offset + size ≤ length bytes.now → (index + 1) * (R.layout ctx).size ≤ size
        → index < 2 ^ 32 → (R.layout ctx).size < 2 ^ 16 → IsSome result }
{
    let own = R::size_in(ctx) as u64;
    let end = offset.checked_add(size)?;
    if end > bytes.len() as u64 || end < own || index > MOST_INDEX || own > MOST_SIZE {
        return None;
    }
    let place = offset + index * own;
    if place > end - own {
        return None;
    }
    let start = place as usize;
    Some(R::get(&bytes[start..start + own as usize], ctx))
}

// Reports whether a file is of the 64-bit class and in little endian, as most are. What is read of such a file at once
// asks for neither again.
#[inline(always)]
pub fn is_usual(header: &GoblinHeader) -> bool
    ensures value { IsTrue result → context_of header.now ≡ record { container = class.Big; le = endian.Little } }
    ensures found { context_of header.now ≡ record { container = class.Big; le = endian.Little } → IsTrue result }
{
    header.ei_class == ELFCLASS64 && header.ei_data != ELFDATA2MSB
}
