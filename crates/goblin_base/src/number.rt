//! Numbers in bytes, in either byte order: System V gABI, "Data Representation" and "Data Encoding".
#![tactic(auto, using(crate::proofs::ByteorderLemmas::numbers))]

ghost use Rattle.std.specs.Prelude.{◌≡◌, ◌≤◌, ◌+◌, ◌↔◌, ◌<◌, ◌^◌, IsTrue, length};
ghost use Rattle.goblin_base.specs.Common.{Endian, number_at, ReadsSpelling, SpellsBack, SpellsWidth};
ghost use Rattle.goblin_base.specs.Place.{with_number, ReadsWhatWasPut};
ghost use Rattle.goblin_base.specs.Signed.{signed_number_at, complement, ReadsSigned, SpellsSigned, IsSignedSlice};
ghost use Rattle.goblin_base.specs.Signed.{ReadsSignedThere};

use crate::container::Endian;
pub use crate::room::room;
use byteorder::{BigEndian, ByteOrder, LittleEndian};

/// Reports whether a number fits into four bytes.
#[inline]
pub fn is_word(number: u64) -> bool
    ensures { IsTrue result ↔ (number < 256 ^ 4) }
{
    number <= u64::from(u32::MAX)
}

/// Returns the number in the byte at `place`. It is the same in both byte orders.
pub fn get_u8(bytes: &[u8], place: usize) -> u8
    requires { place + 1 ≤ length bytes.now }
    ensures { (order : Endian) → result ≡ number_at order bytes.now place 1 }
{
    bytes[place]
}

/// Returns the number in the two bytes at `place`.
pub fn get_u16(bytes: &[u8], place: usize, order: Endian) -> u16
    requires { place + 2 ≤ length bytes.now }
    ensures { result ≡ number_at order bytes.now place 2 }
{
    let field = &bytes[place..place + 2];
    match order {
        Endian::Little => LittleEndian::read_u16(field),
        Endian::Big => BigEndian::read_u16(field),
    }
}

/// Returns the number in the four bytes at `place`.
pub fn get_u32(bytes: &[u8], place: usize, order: Endian) -> u32
    requires { place + 4 ≤ length bytes.now }
    ensures { result ≡ number_at order bytes.now place 4 }
{
    let field = &bytes[place..place + 4];
    match order {
        Endian::Little => LittleEndian::read_u32(field),
        Endian::Big => BigEndian::read_u32(field),
    }
}

/// Returns the number in the eight bytes at `place`.
pub fn get_u64(bytes: &[u8], place: usize, order: Endian) -> u64
    requires { place + 8 ≤ length bytes.now }
    ensures { result ≡ number_at order bytes.now place 8 }
{
    let field = &bytes[place..place + 8];
    match order {
        Endian::Little => LittleEndian::read_u64(field),
        Endian::Big => BigEndian::read_u64(field),
    }
}

/// Returns the signed number in the four bytes at `place`, in two's complement.
pub fn get_i32(bytes: &[u8], place: usize, order: Endian) -> i32
    requires { place + 4 ≤ length bytes.now }
    ensures { result ≡ signed_number_at order bytes.now place 4 }
{
    get_u32(bytes, place, order).cast_signed()
}

/// Returns the signed number in the eight bytes at `place`, in two's complement.
pub fn get_i64(bytes: &[u8], place: usize, order: Endian) -> i64
    requires { place + 8 ≤ length bytes.now }
    ensures { result ≡ signed_number_at order bytes.now place 8 }
{
    get_u64(bytes, place, order).cast_signed()
}

/// Writes a number to the byte at `place`, which is the same in both byte orders. No other byte changes.
pub fn put_u8(bytes: &mut [u8], place: usize, value: u8)
    requires { place + 1 ≤ length bytes.old }
    ensures { (order : Endian) → bytes.new ≡ with_number order bytes.old place 1 value }
{
    bytes[place] = value;
}

/// Writes a number to the two bytes at `place`. No other byte changes.
pub fn put_u16(bytes: &mut [u8], place: usize, value: u16, order: Endian)
    requires { place + 2 ≤ length bytes.old }
    ensures { bytes.new ≡ with_number order bytes.old place 2 value }
{
    let field = &mut bytes[place..place + 2];
    match order {
        Endian::Little => LittleEndian::write_u16(field, value),
        Endian::Big => BigEndian::write_u16(field, value),
    }
}

/// Writes a number to the four bytes at `place`. No other byte changes.
pub fn put_u32(bytes: &mut [u8], place: usize, value: u32, order: Endian)
    requires { place + 4 ≤ length bytes.old }
    ensures { bytes.new ≡ with_number order bytes.old place 4 value }
{
    let field = &mut bytes[place..place + 4];
    match order {
        Endian::Little => LittleEndian::write_u32(field, value),
        Endian::Big => BigEndian::write_u32(field, value),
    }
}

/// Writes a number to the eight bytes at `place`. No other byte changes.
pub fn put_u64(bytes: &mut [u8], place: usize, value: u64, order: Endian)
    requires { place + 8 ≤ length bytes.old }
    ensures { bytes.new ≡ with_number order bytes.old place 8 value }
{
    let field = &mut bytes[place..place + 8];
    match order {
        Endian::Little => LittleEndian::write_u64(field, value),
        Endian::Big => BigEndian::write_u64(field, value),
    }
}

/// Writes a signed number to the four bytes at `place`, in two's complement. No other byte changes.
pub fn put_i32(bytes: &mut [u8], place: usize, value: i32, order: Endian)
    requires { place + 4 ≤ length bytes.old }
    ensures { bytes.new ≡ with_number order bytes.old place 4 (complement 4 value) }
{
    put_u32(bytes, place, value.cast_unsigned(), order);
}

/// Writes a signed number to the eight bytes at `place`, in two's complement. No other byte changes.
pub fn put_i64(bytes: &mut [u8], place: usize, value: i64, order: Endian)
    requires { place + 8 ≤ length bytes.old }
    ensures { bytes.new ≡ with_number order bytes.old place 8 (complement 8 value) }
{
    put_u64(bytes, place, value.cast_unsigned(), order);
}

/// Laws: a number of one width is written as one list of bytes, and is read back where it was written.
pub fn spellings()
    ensures width { SpellsWidth }
    ensures reads_back { ReadsSpelling }
    ensures spells_back { SpellsBack }
    ensures there { ReadsWhatWasPut }
{}

/// Laws: a signed number of one width is written as one list of bytes, and is read back where it was
/// written.
pub fn signed_spellings()
    ensures reads_back { ReadsSigned }
    ensures spells_back { SpellsSigned }
    ensures slice { IsSignedSlice }
    ensures there { ReadsSignedThere }
{}
