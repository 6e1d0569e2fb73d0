//! The string tables of a file and their names, read where they are. So that no byte is read again and again, `Names`
//! stores of the file's blocks how far text goes on from each.
ghost use Rattle.std.specs.Prelude.{◌≡◌, ◌↔◌, ◌+◌, ◌*◌, ◌<◌, ◌≤◌, ◌⊎◌, ◌-◌, ◌/◌, IfOk, IfSome, IsTrue, OnOk, length, min, slice_range};
ghost use Rattle.goblin_text.specs.Common.{IsUtf8, Clones, ParseMode, Returns, IsRange, strtab_of, table_of};
ghost use Rattle.goblin_text.specs.StringRanges.{strings_in, text_table};
ghost use Rattle.goblin_text.specs.Looks.{IsCached, IsShort, IsUnread, LooksAtMost, ReadsNames, looks_by, name_looks, table_looks};
ghost use Rattle.goblin_text.specs.BlockRuns.{EndsAt, IsLong, IsTextUpTo, last_block};
ghost use Rattle.goblin_text.specs.Shown.{name_at};

use crate::block_runs::{BLOCK, BLOCKS, Kind, none_known, run_end};
use crate::looks::{
    after_continuation, char_start, end_of_string, end_of_text, is_text, refuse_unless_text, text,
};
use goblin::error::Result;
use goblin::options::ParseOptions;
use goblin::strtab::range_of;
use goblin_base::counted_bytes::CountedBytes;
use std::marker::Model;

/// The strings that names come from: the file's bytes from one place to another, none if the places are the same.
#[derive(Clone, Copy)]
pub struct Strings {
    pub start: usize,
    pub end: usize,
}

/// A law: `clone` returns the strings, and never fails.
pub fn laws()
    ensures derived { Clones ⟦<Strings as Clone>⟧ }
{}

/// The bytes of a file, and what is known of its blocks: where the run of text from each one on ends, and where the run
/// of text with no zero byte does.
#[derive(Drop)]
pub struct Names<'a> {
    view: CountedBytes<'a>,
    texts: [u16; BLOCKS],
    zero_free: [u16; BLOCKS],
    // The range that was last found to be text.
    text_start: usize,
    text_end: usize,
}

// They are seen as the bytes, the looks taken, the looks that unread blocks may still take, and the range that was last
// found to be text.
impl<'a> Model for Names<'a> {
    ghost use Rattle.std.specs.Prelude.{◌+◌, ◌*◌, slice_range};
    ghost use Rattle.std.specs.Str.{IsUtf8};
    ghost use Rattle.goblin_text.specs.declared.block_runs.Kind.TheVariants.{Text, ZeroFree};
    ghost use Rattle.goblin_text.specs.Looks.{NamesView, block_looks};
    ghost use Rattle.goblin_text.specs.BlockRuns.{AreRunEnds, blocks, unknown};

    ghost Value = { NamesView };

    ghost view = { λ n. record {
      bytes = n.view.bytes;
      count = n.view.count;
      left = block_looks * (unknown (blocks n.view.bytes) n.texts + unknown (blocks n.view.bytes) n.zero_free);
      text_start = n.text_start;
      text_end = n.text_end;
    } };

    ghost invariant = { λ n. AreRunEnds Text n.view.bytes n.texts × AreRunEnds ZeroFree n.view.bytes n.zero_free
        × IsUtf8 (slice_range n.view.bytes n.text_start n.text_end) };
}

impl<'a> Names<'a> {
    /// Returns the names of a file, of which nothing was read yet.
    pub fn new(bytes: &'a [u8]) -> Self
        ensures bytes { result.bytes ≡ bytes.now }
        ensures unread { IsUnread result }
    {
        Names {
            view: CountedBytes::new(bytes),
            texts: none_known(),
            zero_free: none_known(),
            text_start: 0,
            text_end: 0,
        }
    }

    /// Returns the number of looks that were taken, up to the greatest number.
    pub fn count(&self) -> u128
        ensures { result ≡ self.now.count }
    {
        self.view.count()
    }

    /// Returns the string table of `size` bytes of the file from an offset on, whose strings end at zero bytes. Under
    /// strict options its bytes must be text.
    ///
    /// # Errors
    ///
    /// Those of `Strtab::parse_with_opts`.
    #[tactic(auto, using(crate::proofs::StringTables::tables))]
    pub fn table(&mut self, offset: usize, size: usize, opts: &ParseOptions) -> Result<Strings>
        ensures given { let expected = strtab_of opts.now.parse_mode self.old.bytes offset size 0 in
            Returns (strings_in self.old.bytes) result expected }
        ensures range { IfOk result (λ strings.
            IsRange opts.now.parse_mode self.old.bytes offset size strings.start strings.end) }
        ensures reading { let most = looks_by result table_looks self.old.bytes in ReadsNames self.old self.new 0 most }

        // A strict table that is asked for again at once takes no look.
        ensures cached { OnOk result (opts.now.parse_mode ≡ ParseMode.Strict
            → IsCached self.new offset (offset + size)) }
        ensures looks_cached { IsCached self.old offset (offset + size) → self.new.count ≡ self.old.count }
    {
        let (start, end) = range_of(self.view.len(), offset, size, opts.parse_mode)?;
        if !opts.parse_mode.is_permissive() {
            self.refuse_unless_text(start, end)?;
        }
        Ok(Strings { start, end })
    }

    // Refuses the string table of a range, unless it is text. It is read, unless it is the one that was last found to
    // be text.
    #[tactic(auto, using(crate::proofs::Faults::table_taken))]
    fn refuse_unless_text(&mut self, start: usize, end: usize) -> Result<()>
        requires ordered { start ≤ end }
        requires within { end ≤ length self.old.bytes }
        ensures given { let bytes = slice_range self.old.bytes start end in
            Returns (λ _. text_table bytes) result (table_of ParseMode.Strict bytes 0) }
        ensures reading { let most = looks_by result table_looks self.old.bytes in ReadsNames self.old self.new 0 most }
        ensures cached { OnOk result (IsCached self.new start end) }
        ensures looks_cached { IsCached self.old start end → self.new.count ≡ self.old.count }
    {
        if start == self.text_start && end == self.text_end {
            return Ok(());
        }
        if !self.reads_as_text(start, end) {
            return refuse_unless_text(&mut self.view, start, end);
        }
        self.text_start = start;
        self.text_end = end;
        Ok(())
    }

    // Reports whether a range is text. Its two ends are read, and of the blocks between them those of which it isn't
    // known how far text goes on. Six looks find the edges:
    //
    //     start       begin                               rest       end
    //       |-- read ---|-- block --| .. |-- block --|------|-- read --|
    //              first * BLOCK                      last * BLOCK
    //
    // begin and rest are where characters begin, up to three bytes after a multiple of BLOCK.
    fn reads_as_text(&mut self, start: usize, end: usize) -> bool
        requires ordered { start ≤ end }
        requires within { end ≤ length self.old.bytes }
        ensures value { IsTrue result ↔ IsUtf8 (slice_range self.old.bytes start end) }
        ensures reading { ReadsNames self.old self.new 0 table_looks }
    {
        let first = start / BLOCK + 1;
        let last = last_block(end);
        if first >= last {
            return is_text(&mut self.view, start, end);
        }
        let begin = char_start(&mut self.view, first * BLOCK);
        if !is_text(&mut self.view, start, begin) {
            return false;
        }
        if run_end(&mut self.view, Kind::Text, &mut self.texts, first) < last {
            return false;
        }
        let rest = char_start(&mut self.view, last * BLOCK);
        is_text(&mut self.view, rest, end)
    }

    /// Returns the string at an offset of a file's strings, or an empty one if there is none.
    pub fn name(&mut self, strings: Strings, offset: usize) -> &'a str
        ensures value { result.now ≡ name_at (strings_in self.old.bytes strings) offset }
        ensures cached { IsCached self.new self.old.text_start self.old.text_end }
        ensures reading { let len = length result.now in ReadsNames self.old self.new len (name_looks + len) }
    {
        let end = strings.end.min(self.view.len());
        self.name_within(strings.start.min(end), end, offset)
    }

    // Returns the string at an offset of the bytes from one place of the file to another.
    #[tactic(auto, using(crate::proofs::FoundNames::names_found))]
    fn name_within(&mut self, start: usize, end: usize, offset: usize) -> &'a str
        requires ordered { start ≤ end }
        requires within { end ≤ length self.old.bytes }
        ensures value { let table = text_table (slice_range self.old.bytes start end) in
            result.now ≡ name_at table offset }
        ensures cached { IsCached self.new self.old.text_start self.old.text_end }
        ensures reading { let len = length result.now in ReadsNames self.old self.new len (name_looks + len) }
    {
        if offset >= end - start {
            return "";
        }
        let place = start + offset;
        if after_continuation(&mut self.view, place) > place {
            return "";
        }
        match self.end_of_name(place, end) {
            Some(stop) => text(&mut self.view, place, stop),
            None => "",
        }
    }

    // Returns where the string from a place on ends, up to another, or `None` for a long one that is not UTF-8. It is
    // a look at each of BLOCK bytes. If they hold no zero byte, the table ends soon, or the string is a long one:
    //
    //     place            near                  end          place / BLOCK + 1 >= last_block(end)
    //       |-- BLOCK bytes --|-- up to BLOCK + 3 --|
    //
    //     place       begin                  from       to    end
    //       |-- text ---|-- block --| .. |-----|-- read --| .. |
    //              first * BLOCK          run * BLOCK
    //
    // from is where the run of blocks ends that are text with no zero byte.
    #[tactic(auto, using(crate::proofs::Strings::string_ends))]
    fn end_of_name(&mut self, place: usize, end: usize) -> Option<usize>
        requires ordered { place ≤ end }
        requires within { end ≤ length self.old.bytes }
        ensures end { EndsAt self.old.bytes place end result }
        ensures cached { IsCached self.new self.old.text_start self.old.text_end }
        ensures reading { ReadsNames self.old self.new 0 (4 * BLOCK + 32) }
        ensures looks_near { IsShort self.old.bytes → IfSome result (λ stop.
            ((stop ≤ place + (2 * BLOCK + 3)) × LooksAtMost self.old self.new (3 * BLOCK + 34))
            ⊎ IsUtf8 (slice_range self.old.bytes place stop)) }
    {
        let near = end.min(place.saturating_add(BLOCK));
        let stop = end_of_string(&mut self.view, place, near);
        if stop < near {
            return Some(stop);
        }
        if place / BLOCK + 1 >= last_block(end) {
            return Some(end_of_string(&mut self.view, near, end));
        }
        self.end_of_long_name(place, end)
    }

    // Returns where the string from a place on ends, up to another that lies some blocks after it, or `None` if it is
    // not UTF-8. It is nine looks at edges, one at each byte up to the first edge, and two in the block that the string
    // ends in.
    #[tactic(auto, using(crate::proofs::LongNames::refused_heads))]
    fn end_of_long_name(&mut self, place: usize, end: usize) -> Option<usize>
        requires { IsLong self.old.bytes place end }
        ensures end { EndsAt self.old.bytes place end result }
        ensures text { IsTextUpTo self.old.bytes place result }
        ensures cached { IsCached self.new self.old.text_start self.old.text_end }
        ensures reading { ReadsNames self.old self.new 0 (3 * BLOCK + 24) }
    {
        let first = place / BLOCK + 1;
        let last = last_block(end);
        let begin = char_start(&mut self.view, first * BLOCK);
        if !is_text(&mut self.view, place, begin) {
            return None;
        }
        let run = run_end(&mut self.view, Kind::ZeroFree, &mut self.zero_free, first).min(last);
        let from = char_start(&mut self.view, run * BLOCK);
        let to = if run == last {
            end
        } else {
            char_start(&mut self.view, (run + 1) * BLOCK)
        };
        end_of_text(&mut self.view, from, to)
    }
}

// Returns the block that bytes up to a place end in, or before which their last character begins.
fn last_block(end: usize) -> usize
    ensures { result ≡ last_block end }
{
    (end.saturating_sub(3) / BLOCK).min(BLOCKS)
}
