//! What each type of records states of its layout. All else that is said of records follows from it, in this file.
ghost use Rattle.std.specs.Prelude.{◌≡◌, ◌≤◌, ◌++◌, length, drop};
ghost use Rattle.goblin_base.specs.Common.{EachReadFits, FitsExactly, IsOneImage, IsRecord, Layout, read_within, Writes, with_size};
ghost use Rattle.goblin_base.specs.LayoutLaws.{obeys};

use crate::error::Result;
use crate::record::Record;
use crate::room::room;
use crate::scroll::{IntoCtx, SizeWith, TryFromCtx, TryIntoCtx};

/// A record whose layout depends on a context alone. It is a [`Record`].
pub trait LaidOut<C: Copy>: Drop {
    // How the records lie in bytes.
    ghost layout: { C → Layout Self };

    /// Returns the size of a record in bytes.
    fn size_in(ctx: C) -> usize
        ensures { result ≡ (layout ctx).size };

    /// Reads the record at the start of the bytes, which must hold one.
    fn get(bytes: &[u8], ctx: C) -> Self
        requires { (layout ctx).size ≤ length bytes.now }
        ensures { result ≡ (layout ctx).read bytes.now };

    /// Writes the record at the start of the bytes, which must have room for it.
    fn put(self, bytes: &mut [u8], ctx: C)
        requires { (layout ctx).size ≤ length bytes.old }
        ensures { bytes.new ≡ (layout ctx).image self ++ drop (layout ctx).size bytes.old };

    // The laws of records.
    ghost layout_laws: { (ctx : C) → IsRecord (layout ctx) };
}

impl<R: LaidOut<C>, C: Copy> SizeWith<C> for R {
    ghost size_of = { λ ctx. (R.layout ctx).size };

    fn size_with(ctx: &C) -> usize {
        R::size_in(*ctx)
    }
}

/// Fails with the fault of `room` if the bytes don't hold the record.
impl<'a, R: LaidOut<C>, C: Copy> TryFromCtx<'a, C> for R {
    ghost try_from_gives = { λ bytes ctx answer. let l = R.layout ctx in
        answer ≡ with_size l.size (read_within l.size l.read bytes) };

    fn try_from_ctx(bytes: &'a [u8], ctx: C) -> Result<(Self, usize)> {
        let found = R::read_record(bytes, ctx)?;
        Ok((found, R::size_in(ctx)))
    }
}

/// Fails with the fault of `room` if the buffer doesn't hold the record, and then writes no byte.
impl<R: LaidOut<C>, C: Copy> TryIntoCtx<C> for R {
    ghost try_into_gives = { λ x ctx old answer new. let l = R.layout ctx in Writes l.size (l.image x) old answer new };

    #[tactic(auto, using(crate::specs::RecordLaws::record_answers))]
    fn try_into_ctx(self, bytes: &mut [u8], ctx: C) -> Result<usize> {
        let size = R::size_in(ctx);
        room(bytes.len(), 0, size)?;
        self.put(bytes, ctx);
        Ok(size)
    }
}

/// The buffer must hold the record.
impl<R: LaidOut<C>, C: Copy> IntoCtx<C> for R {
    ghost can_into = { λ _ ctx old. (R.layout ctx).size ≤ length old };

    ghost into_gives = { λ x ctx old new. let l = R.layout ctx in new ≡ l.image x ++ drop l.size old };

    fn into_ctx(self, bytes: &mut [u8], ctx: C) {
        self.put(bytes, ctx);
    }
}

impl<R: LaidOut<C>, C: Copy> Record<C> for R {
    ghost read = { λ ctx. (R.layout ctx).read };

    ghost image = { λ ctx. (R.layout ctx).image };

    ghost fits = { λ ctx. (R.layout ctx).Fits };

    #[tactic(auto, using(crate::specs::RecordLaws::record_answers))]
    #[inline]
    fn read_record(bytes: &[u8], ctx: C) -> Result<Self> {
        room(bytes.len(), 0, R::size_in(ctx))?;
        Ok(R::get(bytes, ctx))
    }

    ghost laws = { λ ctx. obeys (R.layout_laws ctx) };
}

/// Laws of every record that is laid out. Its image is the only list of bytes that is read as the record with the low
/// bits of its fields. It fits exactly if its fields are their own low bits, and each record that was read fits.
pub fn laws<R: LaidOut<C>, C: Copy>()
    ensures image { (ctx : C) → IsOneImage (R.layout ctx) }
    ensures fits { (ctx : C) → FitsExactly (R.layout ctx) }
    ensures read { (ctx : C) → EachReadFits (R.layout ctx) }
{}
