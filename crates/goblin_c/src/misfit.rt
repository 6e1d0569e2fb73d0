//! The widths of numbers, and which value of a record doesn't fit its field.
ghost use Rattle.goblin_base.specs.Fields.{field};
ghost use Rattle.goblin_c.specs.Numbers.{NumberFits, is_width};
ghost use Rattle.goblin_c.specs.Puts.{misfit_from, unfit};
ghost use Rattle.std.specs.Prelude.{All, IsTrue, length, map, ◌*◌, ◌+◌, ◌<◌, ◌^◌, ◌↔◌, ◌≡◌, ◌≤◌};

use crate::results::GoblinRefusal;
use goblin_base::texts::Kind;

/// Reports whether numbers of the format have this width in bytes.
pub fn is_width(width: u64) -> bool
    ensures { result ≡ is_width width }
{
    width == 1 || width == 2 || width == 4 || width == 8
}

/// Reports whether a number fits into so many bytes.
pub fn number_fits(width: u64, value: u64) -> bool
    requires { IsTrue (is_width width) }
    ensures { IsTrue result ↔ NumberFits width value }
{
    match width {
        1 => value < 1 << 8,
        2 => value < 1 << 16,
        4 => value < 1 << 32,
        _ => true,
    }
}

/// A value that doesn't fit its field.
#[derive(Clone, Copy, Debug)]
pub struct Misfit {
    /// The value, as an unsigned number.
    pub value: u64,
    /// The offset of the field in its record.
    pub offset: u8,
    /// The number of an item that the refusal names, or 0.
    pub item: u32,
}

impl Misfit {
    /// Stores the refusal of a record at an offset for the value. Returns the number of its kind.
    pub fn refuse_at(self, place: u64, why: &mut GoblinRefusal) -> u32
        requires { place + self.offset < 2 ^ 64 }
        ensures written { why.new ≡ unfit place self }
        ensures value { result ≡ 24 }
    {
        *why = GoblinRefusal {
            kind: Kind::IntegerFit.number(),
            item: self.item,
            first: self.value,
            second: 0,
            third: 0,
            fourth: 0,
            offset: place + u64::from(self.offset),
        };
        why.kind
    }
}

// Returns the first of some fields whose value doesn't fit its width. They are widths in bytes and values, and lie one
// after another from an offset in their record on.
pub fn first_misfit(start: u8, fields: &[(u8, u64)]) -> Misfit
    requires widths { All (λ f. IsTrue (is_width f.0)) fields.now }
    requires bound { start + 8 * length fields.now ≤ 255 }
    ensures { result ≡ misfit_from start (map (λ f. field f.0 f.1) fields.now) }
{
    let mut offset = start;
    for &(width, value) in fields {
        if !number_fits(u64::from(width), value) {
            return Misfit {
                value,
                offset,
                item: 0,
            };
        }
        offset += width;
    }
    Misfit {
        value: 0,
        offset,
        item: 0,
    }
}
