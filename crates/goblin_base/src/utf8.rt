//! Well-formed UTF-8: the Unicode Standard, definition D92 and table 3-7.
ghost use Rattle.std.specs.Str.{IsAscii, continuation_len};
ghost use Rattle.std.specs.Prelude.{◌≡◌, ◌↔◌, IsTrue};
ghost use Rattle.goblin_base.specs.Common.{second_byte_min, second_byte_max, Returns, refusal_of};
ghost use Rattle.goblin_base.specs.Utf8.{after_byte, after_first_byte, awaits_first, invalid_utf8, text_or_fault};

use crate::error::{Error, Result};
use crate::scroll;

// The most bytes of a text that is first tested for ASCII.
const SHORT: usize = 16;

/// Returns the bytes as a string.
///
/// # Errors
///
/// Fails with `BadInput`, which has this size, if they aren't UTF-8.
#[tactic(auto, using(crate::proofs::TextTests::ascii_tests))]
pub fn read_text(bytes: &[u8], size: usize) -> Result<&str>
    ensures { Returns (λ text. text.now) result (text_or_fault bytes.now size) }
{
    // (of so few bytes, as in the name of a note, this takes a fraction of the time of the test for UTF-8)
    if bytes.len() <= SHORT && is_ascii(bytes) {
        return Ok(unsafe { std::str::from_utf8_unchecked(bytes) });
    }
    match std::str::from_utf8(bytes) {
        Ok(text) => Ok(text),
        Err(_) => Err(invalid_utf8(size)),
    }
}

// Reports whether all bytes are ASCII.
#[inline]
fn is_ascii(bytes: &[u8]) -> bool
    ensures { IsTrue result → IsAscii bytes.now }
{
    bytes.iter().all(|byte| *byte < 0x80)
}

/// Returns the error for bytes that aren't UTF-8. The size is the number of bytes from their start on.
pub fn invalid_utf8(size: usize) -> Error
    ensures { refusal_of result ≡ invalid_utf8 size }
{
    Error::Scroll(scroll::Error::BadInput {
        size,
        msg: "invalid utf8",
    })
}

/// The state between two bytes of UTF-8: how many bytes of a character are missing, and the least and the
/// greatest value of the next one.
#[derive(Clone, Copy)]
pub(crate) struct Awaited {
    more: u8,
    least: u8,
    most: u8,
}

impl Awaited {
    /// Returns the state in which a character may begin.
    pub(crate) fn first() -> Awaited
        ensures { result ≡ awaits_first }
    {
        Awaited {
            more: 0,
            least: 0x80,
            most: 0xBF,
        }
    }

    /// Reports whether no byte is missing.
    pub(crate) fn is_whole(self) -> bool
        ensures { IsTrue result ↔ (self.more ≡ 0) }
    {
        self.more == 0
    }

    /// Returns the state after a byte, or `None` if the byte may not come here.
    pub(crate) fn after(self, byte: u8) -> Option<Awaited>
        ensures { result ≡ after_byte self byte }
    {
        if self.more == 0 {
            after_first_byte(byte)
        } else if self.least <= byte && byte <= self.most {
            Some(Awaited {
                more: self.more - 1,
                least: 0x80,
                most: 0xBF,
            })
        } else {
            None
        }
    }
}

// Returns the state after the first byte of a character, or `None` if no character begins with it.
//
//     first byte               missing   second byte
//     00..7F                   0
//     C2..DF                   1         80..BF
//     E0                       2         A0..BF
//     E1..EC, EE, EF           2         80..BF
//     ED                       2         80..9F
//     F0                       3         90..BF
//     F1..F3                   3         80..BF
//     F4                       3         80..8F
fn after_first_byte(byte: u8) -> Option<Awaited>
    ensures { result ≡ after_first_byte byte }
{
    if byte < 0x80 {
        Some(Awaited::first())
    } else if 0xC2 <= byte && byte <= 0xF4 {
        Some(Awaited {
            more: following(byte),
            least: least_second(byte),
            most: most_second(byte),
        })
    } else {
        None
    }
}

// Returns how many bytes follow a first byte.
fn following(first: u8) -> u8
    ensures { result ≡ continuation_len first }
{
    if first < 0x80 {
        0
    } else if first < 0xE0 {
        1
    } else if first < 0xF0 {
        2
    } else {
        3
    }
}

// Returns the least second byte.
fn least_second(first: u8) -> u8
    ensures { result ≡ second_byte_min first }
{
    if first == 0xE0 {
        0xA0
    } else if first == 0xF0 {
        0x90
    } else {
        0x80
    }
}

// Returns the greatest second byte.
fn most_second(first: u8) -> u8
    ensures { result ≡ second_byte_max first }
{
    if first == 0xED {
        0x9F
    } else if first == 0xF4 {
        0x8F
    } else {
        0xBF
    }
}
