//! Tables of records in borrowed bytes. A record is read when it is asked for.
ghost use Rattle.std.specs.Prelude.{◌≡◌, ◌≤◌, ◌*◌, ◌↔◌, IsTrue, IfOk, IfSome, IfErr, alloc_error, ◌+◌, ◌/◌, ◌<◌, OnOk};
ghost use Rattle.std.specs.Prelude.{take, drop, [], List, length, slice_get, ◌^◌, ℕ, All, flat_map, IsOk};
ghost use Rattle.std.specs.Iterator.{UpTo, YieldsFirst, item_count};
ghost use Rattle.std.specs.Iterator.SizeHint.{IsWithinCount};
ghost use Rattle.goblin_base.specs.Common.{records_from, records_in, room_of_each, whole_of, unless_fault, records, buffer_too_short, Returns, Gives, Refuses, room_of};

use crate::error::{Error, Result};
use crate::record::Record;
use crate::room::room;
use crate::scroll;
use crate::scroll::SizeWith;
use std::alloc::Global;
use std::marker::{Model, PhantomData};
use std::result;

/// A table of records that lie one after another from the start of borrowed bytes.
///
/// It allocates nothing, and what it returns outlives it. Reading one of its records can't fail.
#[derive(Debug, Drop)]
pub struct Table<'a, R: Record<C>, C: Copy> {
    bytes: &'a [u8],
    count: usize,
    ctx: C,
    of: PhantomData<R>,
}

// In contracts a table is the list of its records.
impl<'a, R: Record<C>, C: Copy> Model for Table<'a, R, C> {
    ghost use Rattle.std.specs.Prelude.{◌≤◌, ◌*◌, List, length};
    ghost use Rattle.goblin_base.specs.Record.{records};

    ghost Value = { List R };

    ghost view = { λ t. records (R.size_of t.ctx) (R.read t.ctx) t.count t.bytes.now };

    ghost invariant = { λ t. t.count * R.size_of t.ctx ≤ length t.bytes.now };
}

impl<'a, R: Record<C>, C: Copy> Table<'a, R, C> {
    /// Makes the table of the first `count` records of the bytes, which must be long enough.
    pub fn of(bytes: &'a [u8], count: usize, ctx: C) -> Self
        requires { count * R.size_of ctx ≤ length bytes.now }
        ensures { result ≡ records (R.size_of ctx) (R.read ctx) count bytes.now }
    {
        Table {
            bytes,
            count,
            ctx,
            of: PhantomData,
        }
    }

    /// Makes the table of `count` records that lie one after another from an offset on.
    ///
    /// If `count` is 0 the table is empty, whatever the offset.
    ///
    /// # Errors
    ///
    /// Fails as [`room`] does for the first record that doesn't lie in the bytes.
    #[tactic(auto, using(crate::proofs::Eager::lists), unfolding(crate::specs::Eager::records_in, crate::specs::Eager::records_from))]
    pub fn in_range(bytes: &'a [u8], offset: usize, count: usize, ctx: C) -> Result<Self>
        ensures given { let expected = records_in (R.size_of ctx) (R.read ctx) bytes.now offset count in
            Returns (λ table. table) result expected }
        ensures range { IfErr (room_of_each (length bytes.now) offset (R.size_of ctx) count)
            (λ e. result ≡ Err (Error.Scroll e)) }
    {
        room_for_each(bytes.len(), offset, R::size_with(&ctx), count)?;
        if count == 0 {
            return Ok(Table::of(&[], 0, ctx));
        }
        Ok(Table::of(&bytes[offset..], count, ctx))
    }

    /// Makes the same table as [`Table::in_range`], but first tests whether all the bytes could hold so many
    /// records.
    ///
    /// # Errors
    ///
    /// Fails with `BufferTooShort`, which names `items`, if they couldn't, whatever the offset. Otherwise
    /// fails as [`Table::in_range`] does.
    #[tactic(auto, using(crate::proofs::Eager::lists), unfolding(crate::specs::Eager::records_in, crate::specs::Eager::records_from))]
    pub fn counted(
        bytes: &'a [u8],
        offset: usize,
        count: usize,
        ctx: C,
        items: &'static str,
    ) -> Result<Self>
        ensures { let expected = records_from (R.size_of ctx) (R.read ctx) bytes.now offset count items.now in
            Returns (λ table. table) result expected }
    {
        if fit(bytes.len(), R::size_with(&ctx), count) {
            Table::in_range(bytes, offset, count, ctx)
        } else {
            Err(Error::BufferTooShort(count, items))
        }
    }

    /// Returns the number of records.
    #[tactic(auto, using(crate::proofs::Eager::record_steps))]
    pub fn len(&self) -> usize
        ensures value { result ≡ length self.now }
        ensures bound { result < usize.MAX }
    {
        self.count
    }

    /// Reports whether the table has no records.
    #[tactic(auto, using(crate::proofs::Eager::record_steps))]
    pub fn is_empty(&self) -> bool
        ensures { IsTrue result ↔ (self.now ≡ []) }
    {
        self.count == 0
    }

    /// Returns the record at an index, or `None` from `len()` on.
    #[inline(always)]
    #[tactic(auto, using(crate::proofs::Eager::record_steps))]
    pub fn get(&self, index: usize) -> Option<R>
        ensures { result ≡ slice_get self.now index }
    {
        if index >= self.count {
            return None;
        }
        let size = R::size_with(&self.ctx);
        let start = index * size;
        R::read_record(&self.bytes[start..start + size], self.ctx).ok()
    }

    // Removes the first record and returns it, or returns `None` if none is left.
    #[tactic(auto, using(crate::proofs::Eager::record_steps))]
    fn take_first(&mut self) -> Option<R>
        ensures { YieldsFirst (λ left. left) self.old result self.new }
    {
        if self.count == 0 {
            return None;
        }
        let size = R::size_with(&self.ctx);
        let bytes = self.bytes;
        self.bytes = &bytes[size..];
        self.count -= 1;
        R::read_record(&bytes[..size], self.ctx).ok()
    }

    /// Returns an iterator over the records, from the first to the last.
    #[tactic(auto, using(crate::proofs::Eager::record_steps))]
    pub fn iter(&self) -> TableIter<'a, R, C>
        ensures value { result ≡ self.now }
        ensures bound { length self.now < 2 ^ 64 }
    {
        TableIter {
            left: Table::of(self.bytes, self.count, self.ctx),
        }
    }

    /// Returns the records as a vector. An empty table allocates nothing.
    ///
    /// # Errors
    ///
    /// Fails with out of memory only.
    pub fn to_vec(&self, alloc: Global) -> Result<Vec<R>>
        ensures ok { IfOk result (λ v. v.items ≡ self.now) }
        ensures err { IfErr result (λ e. e ≡ Error.Memory alloc_error) }
        ensures none { (self.now ≡ []) → IsOk result }
    {
        if self.is_empty() {
            return Ok(Vec::new(alloc));
        }
        Ok(self.iter().collect(alloc)?)
    }
}

/// An iterator over the records of a table: from the first to the last, and `None` from then on.
#[derive(Debug, Drop)]
pub struct TableIter<'a, R: Record<C>, C: Copy> {
    left: Table<'a, R, C>,
}

// In contracts an iterator is the list of the records that are left.
impl<'a, R: Record<C>, C: Copy> Model for TableIter<'a, R, C> {
    ghost use Rattle.std.specs.Prelude.{List};

    ghost Value = { List R };

    ghost view = { λ t. t.left };
}

impl<'a, R: Record<C>, C: Copy> Iterator for TableIter<'a, R, C> {
    type Item = R;

    ghost next_gives = { YieldsFirst (λ left. left) };

    ghost remaining = { item_count (λ left. left) };

    fn next(&mut self) -> Option<R> {
        self.left.take_first()
    }

    fn size_hint(&self) -> (usize, Option<usize>)
        ensures lower { IsWithinCount result.0 (item_count (λ left. left) self.now) }
        ensures upper { IfSome result.1 (UpTo (item_count (λ left. left) self.now)) }
        // Both bounds are the number of records left.
        ensures value { result ≡ (length self.now, Some (length self.now)) }
    {
        let len = self.len();
        (len, Some(len))
    }
}

impl<'a, R: Record<C>, C: Copy> ExactSizeIterator for TableIter<'a, R, C> {
    fn len(&self) -> usize {
        self.left.len()
    }
}

/// Reads the record at an offset.
///
/// # Errors
///
/// Fails as [`room`] does if the record doesn't lie in the bytes.
#[tactic(auto, using(crate::proofs::Eager::lists))]
pub fn read_at<R: Record<C>, C: Copy>(bytes: &[u8], place: usize, ctx: C) -> Result<R>
    ensures value { let size = R.size_of ctx in
        let piece = take size (drop place bytes.now) in
        result ≡ unless_fault (room_of (length bytes.now) place size) (R.read ctx piece) }
    ensures fits { OnOk result (place + R.size_of ctx ≤ length bytes.now) }
{
    let size = R::size_with(&ctx);
    room(bytes.len(), place, size)?;
    R::read_record(&bytes[place..place + size], ctx)
}

/// Returns how many of `count` records that lie one after another from an offset on lie whole in `len` bytes.
#[tactic(auto, using(crate::proofs::Eager::lists))]
pub fn whole_records<R: Record<C>, C: Copy>(len: usize, start: usize, count: usize, ctx: C) -> usize
    ensures { result ≡ whole_of len start (R.size_of ctx) count }
{
    count.min(len.saturating_sub(start) / R::size_with(&ctx))
}

/// Reads `count` records that lie one after another from an offset on, into a vector.
///
/// If `count` is 0 the vector is empty, whatever the offset, and nothing is allocated. Otherwise the whole
/// vector is allocated before the first record is read.
///
/// # Errors
///
/// Fails with `BufferTooShort`, which names `items`, if all the bytes couldn't hold so many records. Otherwise
/// fails as [`room`] does for the first record that doesn't lie in the bytes, or with out of memory. Out of
/// memory can mask a record's error, but never `BufferTooShort`.
#[tactic(auto, using(crate::proofs::Eager::lists), unfolding(crate::specs::Eager::records_in, crate::specs::Eager::records_from))]
pub fn read_all<R: Record<C>, C: Copy>(
    alloc: Global,
    bytes: &[u8],
    offset: usize,
    count: usize,
    ctx: C,
    items: &'static str,
) -> Result<Vec<R>>
    ensures given { let expected = records_from (R.size_of ctx) (R.read ctx) bytes.now offset count items.now in
        Gives (λ v. v.items) result expected }
    ensures too_many { length bytes.now / R.size_of ctx < count → Refuses result (buffer_too_short count items.now) }
    ensures none { (count ≡ 0) → IsOk result }
{
    let size = R::size_with(&ctx);
    if count > bytes.len() / size {
        return Err(Error::BufferTooShort(count, items));
    }
    if count == 0 {
        return Ok(Vec::new(alloc));
    }
    let mut all = Vec::with_capacity(alloc, count)?;
    let mut place = offset;
    // (the proof names the loop by its label)
    'each: for _ in 0..count {
        all.push(read_at(bytes, place, ctx)?)?;
        place += size;
    }
    Ok(all)
}

// Tests whether `count` records of a size lie in `len` bytes from an offset on. Otherwise fails as `room` does
// for the first one that doesn't: the one after those that fit.
#[tactic(auto, using(crate::proofs::Eager::rooms))]
fn room_for_each(
    len: usize,
    offset: usize,
    size: usize,
    count: usize,
) -> result::Result<(), scroll::Error>
    requires { 0 < size }
    ensures value { result ≡ room_of_each len offset size count }
    ensures fits { OnOk result (0 < count → offset + count * size ≤ len) }
{
    if count == 0 {
        return Ok(());
    }
    if offset > len {
        return room(len, offset, size);
    }
    if fit(len - offset, size, count) {
        return Ok(());
    }
    let fitting = (len - offset) / size;
    room(len, offset + fitting * size, size)
}

// Reports whether `len` bytes hold `count` records of a size. It multiplies, since a division takes longer.
#[tactic(auto, using(crate::proofs::Eager::quotients))]
fn fit(len: usize, size: usize, count: usize) -> bool
    requires { 0 < size }
    ensures { IsTrue result ↔ (count ≤ len / size) }
{
    match count.checked_mul(size) {
        Some(all) => all <= len,
        None => false,
    }
}

/// Reads the records of [`Table::in_range`] into a vector.
///
/// If `count` is 0 the vector is empty, whatever the offset, and nothing is allocated.
///
/// # Errors
///
/// Fails as [`room`] does for the first record that doesn't lie in the bytes. That is tested before anything
/// is allocated, so out of memory never masks it. Otherwise fails with out of memory only.
#[tactic(auto, using(crate::proofs::Eager::lists), unfolding(crate::specs::Eager::records_in, crate::specs::Eager::records_from))]
pub fn read_in_range<R: Record<C>, C: Copy>(
    alloc: Global,
    bytes: &[u8],
    offset: usize,
    count: usize,
    ctx: C,
) -> Result<Vec<R>>
    ensures given { let expected = records_in (R.size_of ctx) (R.read ctx) bytes.now offset count in
        Gives (λ v. v.items) result expected }
    ensures range { IfErr (room_of_each (length bytes.now) offset (R.size_of ctx) count)
        (λ e. result ≡ Err (Error.Scroll e)) }
    ensures none { (count ≡ 0) → IsOk result }
{
    Table::in_range(bytes, offset, count, ctx)?.to_vec(alloc)
}

/// A law: records that fit, written one after another, are read back as the same list.
pub fn read_back<R: Record<C>, C: Copy>()
    ensures { (ctx : C) (all : List R) → All (R.fits ctx) all
        → records (R.size_of ctx) (R.read ctx) (length all) (flat_map (R.image ctx) all) ≡ all }
{}

/// A law: the records of a range depend on that range only. Two byte lists that agree there hold the same
/// records there.
#[tactic(auto, using(crate::proofs::Eager::same))]
pub fn same_range<R: Record<C>, C: Copy>()
    ensures { (ctx : C) (count : ℕ) (bytes others : List ℕ)
        → take (count * R.size_of ctx) bytes ≡ take (count * R.size_of ctx) others
        → records (R.size_of ctx) (R.read ctx) count bytes ≡ records (R.size_of ctx) (R.read ctx) count others }
{}
