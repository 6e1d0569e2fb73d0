//! Records: values of a fixed size that are read from bytes and written to them.
ghost use Rattle.std.specs.Prelude.{◌≡◌, List, ℕ};
ghost use Rattle.goblin_base.specs.Common.{Obeys, read_within};

use crate::error::Result;
use crate::scroll::{SizeWith, TryIntoCtx};

/// A record: its fields lie at fixed offsets. The context decides its size and its layout.
///
/// Tables and other generic callers rely only on what a type states here.
pub trait Record<C: Copy>: SizeWith<C> + TryIntoCtx<C> + Drop {
    // The record that the bytes hold.
    ghost read: { C → List ℕ → Self };

    // The bytes that a record is written as.
    ghost image: { C → Self → List ℕ };

    // Whether each field of the record is in the range of its width.
    ghost fits: { C → Self → Type 0 };

    /// Reads the record at the start of the bytes.
    ///
    /// # Errors
    ///
    /// Fails as [`room`](crate::room::room) does if there are too few bytes.
    fn read_record(bytes: &[u8], ctx: C) -> Result<Self>
        ensures { result ≡ read_within (Self.size_of ctx) (read ctx) bytes.now };

    // The laws of records, which `Obeys` lists.
    ghost laws: { (ctx : C)
        → Obeys (Self.size_of ctx) (read ctx) (image ctx) (fits ctx) (λ x. Self.try_into_gives x ctx) };
}
