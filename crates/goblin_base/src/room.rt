//! The test whether some bytes lie in a slice.
ghost use Rattle.std.specs.Prelude.{◌≡◌, ◌<◌, ◌≤◌, ◌+◌, ◌-◌, ◌↔◌, Err, IsOk};
ghost use Rattle.goblin_base.specs.Common.{room_of};
ghost use Rattle.goblin_base.specs.declared.scroll.Error.TheVariants.{BadOffset, TooBig};

use crate::scroll;

/// Tests whether `size` bytes at `offset` lie in a slice of `len` bytes.
///
/// # Errors
///
/// Fails with `BadOffset` if the offset is past the end, or at the end when `size` is above 0. Otherwise
/// fails with `TooBig` if fewer than `size` bytes are left from the offset on.
#[tactic(auto, unfolding(crate::specs::Room::room_of))]
pub fn room(len: usize, offset: usize, size: usize) -> Result<(), scroll::Error>
    ensures value { result ≡ room_of len offset size }
    ensures fits { IsOk result ↔ (offset + size ≤ len) }
    ensures past { len < offset + size → len ≤ offset → result ≡ Err (BadOffset offset) }
    ensures few { len < offset + size → offset < len → result ≡ Err (TooBig size (len - offset)) }
{
    if offset <= len && size <= len - offset {
        return Ok(());
    }
    if offset >= len {
        return Err(scroll::Error::BadOffset(offset));
    }
    Err(scroll::Error::TooBig {
        size,
        len: len - offset,
    })
}
