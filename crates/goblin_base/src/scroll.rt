//! Reading and writing values at the start of a byte slice: the errors, and the traits of types that can
//! be read and written.
ghost use Rattle.std.specs.Prelude.{◌≡◌, ℕ, List, Result};
ghost use Rattle.goblin_base.specs.declared.error.Error.{Error as Refusing};

pub use crate::container::{BE, Endian, LE};

/// A law: the values of the constants that this module passes on.
pub fn constants()
    ensures { (LE ≡ Endian.Little) × (BE ≡ Endian.Big) }
{}

/// What is wrong with an offset, a size or some bytes. All numbers count bytes.
#[derive(Debug, Drop, thiserror::Error)]
pub enum Error {
    /// More bytes were needed than there are.
    TooBig {
        /// How many bytes were needed.
        size: usize,
        /// How many bytes are left from the offset on.
        len: usize,
    },
    /// The offset is past the end, or at the end when bytes are needed.
    BadOffset(usize),
    /// The bytes aren't a value of the type.
    BadInput {
        /// How many bytes are left from the offset on.
        size: usize,
        /// What is wrong with them.
        msg: &'static str,
    },
}

/// A type whose values have a size in bytes, which depends on a context.
pub trait SizeWith<C> {
    // The size of a value in bytes.
    ghost size_of: { C → ℕ };

    /// Returns the size of a value in bytes in this context.
    fn size_with(ctx: &C) -> usize
        ensures { result ≡ size_of ctx.now };
}

/// A type whose values are read from the start of a byte slice.
pub trait TryFromCtx<'a, C>: Sized {
    // The bytes, the context, and what reading them returns.
    ghost try_from_gives: { List ℕ → C → Result (Self × ℕ) Refusing → Type 0 };

    /// Reads the value at the start of the bytes. Returns it with the number of bytes it took.
    ///
    /// # Errors
    ///
    /// Each type says in `try_from_gives` when reading fails.
    fn try_from_ctx(bytes: &'a [u8], ctx: C) -> crate::error::Result<(Self, usize)>
        ensures { try_from_gives bytes.now ctx result };
}

/// A type whose values are written to the start of a buffer, if they fit into it.
pub trait TryIntoCtx<C>: Sized {
    // The value, the context, the bytes before, what writing returns, and the bytes after.
    ghost try_into_gives: { Self → C → List ℕ → Result ℕ Refusing → List ℕ → Type 0 };

    /// Writes the value. Returns the number of bytes written.
    ///
    /// # Errors
    ///
    /// Each type says in `try_into_gives` when writing fails.
    fn try_into_ctx(self, bytes: &mut [u8], ctx: C) -> crate::error::Result<usize>
        ensures { try_into_gives self ctx bytes.old result bytes.new };
}

/// A type whose values are written to the start of a buffer that must be large enough.
pub trait IntoCtx<C>: Sized {
    // Whether the value can be written over these bytes in this context.
    ghost can_into: { Self → C → List ℕ → Type 0 };

    // The value, the context, the bytes before, and the bytes after.
    ghost into_gives: { Self → C → List ℕ → List ℕ → Type 0 };

    /// Writes the value. `can_into` must hold.
    fn into_ctx(self, bytes: &mut [u8], ctx: C)
        requires { can_into self ctx bytes.old }
        ensures { into_gives self ctx bytes.old bytes.new };
}
