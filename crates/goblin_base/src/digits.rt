//! Numbers as text. Nothing is allocated.
ghost use Rattle.std.specs.Prelude.{◌≡◌, ◌^◌, ◌<◌, ◌≤◌, IsAscii, decimal, false, length};
ghost use Rattle.std.specs.Fmt.{digit_glyph, digits};
ghost use Rattle.goblin_base.specs.Texts.{hexadecimal};
ghost use Rattle.goblin_base.specs.Texts.{digits_text};

// The most digits that a number has in decimal.
const DIGITS: usize = 20;

/// The digits of a number.
#[derive(Drop)]
pub struct Digits {
    bytes: [u8; DIGITS],
    start: usize,
}

impl Digits {
    /// Returns the digits of a number in decimal.
    pub fn decimal(number: u64) -> Self
        ensures value { digits_text result ≡ decimal number }
        ensures ascii { IsAscii (digits_text result) }
        ensures bound { result.start < 20 }
    {
        Self::by_base(10, number)
    }

    /// Returns the digits of a number in lower-case hexadecimal.
    pub fn hexadecimal(number: u64) -> Self
        ensures value { digits_text result ≡ hexadecimal number }
        ensures ascii { IsAscii (digits_text result) }
        ensures bound { result.start < 20 }
    {
        Self::by_base(16, number)
    }

    // Returns the digits of a number in some base. It is inlined so that the base is a constant in its divisions.
    #[inline(always)]
    fn by_base(base: u64, number: u64) -> Self
        requires short { 2 ^ 64 ≤ base ^ 20 }
        requires some { 0 < base }
        requires bound { base ≤ 16 }
        ensures value { digits_text result ≡ digits base false number }
        ensures ascii { IsAscii (digits_text result) }
        ensures bound { result.start < 20 }
    {
        let mut bytes = [0; DIGITS];
        let mut start = DIGITS - 1;
        let mut left = number;
        while left >= base && start > 0 {
            bytes[start] = digit((left % base) as u8);
            left /= base;
            start -= 1;
        }
        bytes[start] = digit((left % base) as u8);
        Digits { bytes, start }
    }

    /// Returns the digits as a string.
    pub fn as_str(&self) -> &str
        requires ascii { IsAscii (digits_text self.now) }
        requires start { self.now.start < 20 }
        ensures value { result.now ≡ digits_text self.now }
        ensures bound { length result.now ≤ 20 }
    {
        // The digits are ASCII, as is required.
        unsafe { std::str::from_utf8_unchecked(&self.bytes[self.start..]) }
    }
}

// Returns the digit of a number below 16.
fn digit(number: u8) -> u8
    requires { number < 16 }
    ensures { result ≡ digit_glyph false number }
{
    if number < 10 {
        b'0' + number
    } else {
        b'a' + (number - 10)
    }
}
