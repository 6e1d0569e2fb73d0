//! Runs of a file's blocks that are text, or text with no zero byte. Each block is read once for each of the two.
ghost use Rattle.std.specs.Prelude.{◌≡◌, ◌↔◌, ◌+◌, ◌-◌, ◌*◌, ◌<◌, ◌≤◌, IsTrue, List, ℕ, length, slice_index, slice_range};
ghost use Rattle.goblin_text.specs.Common.{Reads};
ghost use Rattle.goblin_text.specs.Looks.{block_looks};
ghost use Rattle.goblin_text.specs.BlockRuns.{AreRunEnds, IsBlock, IsRunEnd, IsOfKind, blocks, unknown};

use crate::input::INPUT_LIMIT;
use crate::looks::{char_start, end_of_string, is_text};
use goblin_base::counted_bytes::CountedBytes;

/// The number of bytes of a block.
pub const BLOCK: usize = 512;

/// The number of blocks of the longest file that the program takes.
pub const BLOCKS: usize = INPUT_LIMIT / BLOCK;

/// The kind of a run's blocks.
#[derive(Clone, Copy)]
pub enum Kind {
    /// Text.
    Text,
    /// Text with no zero byte.
    ZeroFree,
}

// How far a run was searched for its end.
#[derive(Clone, Copy)]
struct Found {
    // The first block after those that were read.
    read: usize,
    // Where the run ends.
    end: usize,
}

/// Returns the ends of no block: 0 stands for a block whose run isn't known.
pub fn none_known() -> [u16; BLOCKS]
    ensures known { (kind : Kind) → (bytes : List ℕ) → AreRunEnds kind bytes result }
    ensures unknown { (n : ℕ) → unknown n result ≤ n }
{
    [0; BLOCKS]
}

// Reports whether the bytes from one place up to another are of a kind. It is at most two looks at each.
fn is_of(view: &mut CountedBytes<'_>, kind: Kind, from: usize, to: usize) -> bool
    requires ordered { from ≤ to }
    requires within { to ≤ length view.old.bytes }
    ensures value { IsTrue result ↔ IsOfKind kind (slice_range view.old.bytes from to) }
    ensures reading { Reads view.old view.new 0 (2 * (to - from)) }
{
    match kind {
        Kind::Text => is_text(view, from, to),
        Kind::ZeroFree => end_of_string(view, from, to) == to && is_text(view, from, to),
    }
}

// Reports whether the block with a number is of a kind.
fn is_block_of(view: &mut CountedBytes<'_>, kind: Kind, block: usize) -> bool
    requires bound { block < BLOCKS }
    requires within { (block + 1) * BLOCK ≤ length view.old.bytes }
    ensures value { IsTrue result ↔ IsBlock kind view.old.bytes block }
    ensures reading { Reads view.old view.new 0 block_looks }
{
    let from = char_start(view, block * BLOCK);
    let to = char_start(view, (block + 1) * BLOCK);
    is_of(view, kind, from, to)
}

// Finds the end of the run from a block on. It reads block by block, up to one that isn't of the kind, or one whose run
// is known.
fn find_run_end(
    view: &mut CountedBytes<'_>,
    kind: Kind,
    ends: &[u16; BLOCKS],
    first: usize,
) -> Found
    requires first { first ≤ blocks view.old.bytes }
    requires known { AreRunEnds kind view.old.bytes ends.now }
    ensures end { IsRunEnd kind view.old.bytes first result.end }
    ensures ordered { first ≤ result.read }
    ensures within { result.read ≤ blocks view.old.bytes }
    ensures bound { result.read ≤ result.end + 1 }
    ensures unknown { (k : ℕ) → first ≤ k → k < result.read → slice_index ends.now k ≡ 0 }
    ensures reading { Reads view.old view.new 0 (block_looks * (result.read - first)) }
{
    let blocks = (view.len() / BLOCK).min(BLOCKS);
    let mut block = first;
    while block < blocks {
        let known = usize::from(ends[block]);
        if known > 0 {
            return Found {
                read: block,
                end: known,
            };
        }
        if !is_block_of(view, kind, block) {
            return Found {
                read: block + 1,
                end: block,
            };
        }
        block += 1;
    }
    Found {
        read: block,
        end: blocks,
    }
}

/// Returns where the run of a kind from a block on ends, and stores that for each block that it reads.
pub fn run_end(
    view: &mut CountedBytes<'_>,
    kind: Kind,
    ends: &mut [u16; BLOCKS],
    first: usize,
) -> usize
    requires some { 0 < first }
    requires first { first ≤ blocks view.old.bytes }
    requires known { AreRunEnds kind view.old.bytes ends.old }
    ensures end { IsRunEnd kind view.old.bytes first result }
    ensures known { AreRunEnds kind view.old.bytes ends.new }
    ensures fewer { let n = blocks view.old.bytes in unknown n ends.new ≤ unknown n ends.old }
    ensures reading { let n = blocks view.old.bytes in
        Reads view.old view.new 0 (block_looks * (unknown n ends.old - unknown n ends.new)) }
{
    let found = find_run_end(view, kind, ends, first);
    for block in first..found.read {
        ends[block] = found.end as u16;
    }
    found.end
}
