//! Bytes that are read under a count, and are also returned.
//!
//! The count is that of [`Looked`](crate::entries::Looked): it never falls, and each byte that a call returns is
//! counted once. Code that has the bytes of [`CountedBytes::bytes`] can read them again without a count. It gets no
//! other bytes.
ghost use Rattle.std.specs.Prelude.{◌≡◌, ◌+◌, ◌-◌, ◌<◌, ◌≤◌, length, min, slice_get, slice_index, slice_range};

use crate::count::Count;
use std::fmt;
use std::marker::Model;

/// Bytes that can be read only under a count of the bytes returned.
#[derive(Drop)]
pub struct CountedBytes<'a> {
    bytes: &'a [u8],
    count: Count,
}

// In contracts they are the bytes and the count.
impl<'a> Model for CountedBytes<'a> {
    ghost use Rattle.goblin_base.specs.Entries.{Seen};

    ghost Value = { Seen };

    ghost view = { λ seen. record { bytes = seen.bytes.now; count = seen.count } };
}

impl<'a> CountedBytes<'a> {
    /// Makes the view of some bytes, with a count of 0.
    pub fn new(bytes: &'a [u8]) -> CountedBytes<'a>
        ensures { result ≡ record { bytes = bytes.now; count = 0 } }
    {
        CountedBytes {
            bytes,
            count: Count::none(),
        }
    }

    /// Returns the number of bytes.
    pub fn len(&self) -> usize
        ensures value { result ≡ length self.now.bytes }
        ensures bound { result < usize.MAX }
    {
        self.bytes.len()
    }

    /// Returns the byte at an offset. It is one look.
    pub fn at(&mut self, i: usize) -> u8
        requires { i < length self.old.bytes }
        ensures value { result ≡ slice_index self.old.bytes i }
        ensures counted { self.new ≡ record self.old { count = min (self.old.count + 1) u128.MAX } }
        ensures unchanged { self.new.bytes ≡ self.old.bytes }
        ensures rising { self.old.count ≤ self.new.count }
    {
        self.count.add(1);
        self.bytes[i]
    }

    /// Returns the byte at an offset, or `None` past the end. It is one look, whether there is a byte or not.
    pub fn get(&mut self, i: usize) -> Option<u8>
        ensures value { result ≡ slice_get self.old.bytes i }
        ensures counted { self.new ≡ record self.old { count = min (self.old.count + 1) u128.MAX } }
        ensures unchanged { self.new.bytes ≡ self.old.bytes }
        ensures rising { self.old.count ≤ self.new.count }
    {
        self.count.add(1);
        self.bytes.get(i).copied()
    }

    /// Returns the bytes from one offset up to another. It is a look at each of them.
    pub fn bytes(&mut self, from: usize, to: usize) -> &'a [u8]
        requires ordered { from ≤ to }
        requires within { to ≤ length self.old.bytes }
        ensures value { result.now ≡ slice_range self.old.bytes from to }
        ensures counted { self.new ≡ record self.old { count = min (self.old.count + (to - from)) u128.MAX } }
        ensures unchanged { self.new.bytes ≡ self.old.bytes }
        ensures rising { self.old.count ≤ self.new.count }
    {
        self.count.add((to - from) as u64);
        &self.bytes[from..to]
    }

    /// Returns the number of looks that were taken, up to the greatest number.
    pub fn count(&self) -> u128
        ensures { result ≡ self.now.count }
    {
        self.count.value()
    }
}

/// Shows the number of bytes and the number of looks: the bytes themselves would be uncounted looks.
impl fmt::Debug for CountedBytes<'_> {
    fn fmt<W: fmt::Write>(&self, f: &mut fmt::Formatter<W>) -> fmt::Result {
        f.debug_struct("CountedBytes")
            .field("len", &self.len())
            .field("count", &self.count())
            .finish()
    }
}
