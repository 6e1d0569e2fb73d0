//! What a call returns and stores: a status, an item, or a refusal with the offset of what is refused.
ghost use Rattle.goblin.specs.Steps.{refuse_as};
ghost use Rattle.goblin_c.specs.Results.{Stored, Stores, StoresBoth, item_number, refusal_at, refusal_converted, with_offset};
ghost use Rattle.std.specs.Prelude.{[], ◌∷◌, ◌≡◌};

use goblin::error::Error;
use std::result;

/// The item was stored.
pub const OK: u32 = 0;

/// The index or the offset is past the last item, or nothing has the name.
pub const END: u32 = 1;

/// The text "invalid utf8".
pub const INVALID_UTF8: u32 = 1;

/// The text "section headers".
pub const SECTION_HEADERS: u32 = 2;

/// The text "program headers".
pub const PROGRAM_HEADERS: u32 = 3;

/// A note's header, which the range doesn't hold.
pub const NOTE_HEADER: u32 = 4;

/// A note's name, which the range doesn't hold.
pub const NOTE_NAME: u32 = 5;

/// A note's descriptor, which the range doesn't hold.
pub const NOTE_DESC: u32 = 6;

/// An addend, which the table has no field for.
pub const ADDEND: u32 = 7;

/// Laws: the number of each constant.
pub fn constants()
    ensures answers { OK ∷ END ∷ [] ≡ 0 ∷ 1 ∷ [] }
    ensures items { INVALID_UTF8 ∷ SECTION_HEADERS ∷ PROGRAM_HEADERS ∷ [] ≡ 1 ∷ 2 ∷ 3 ∷ [] }
    ensures notes { NOTE_HEADER ∷ NOTE_NAME ∷ NOTE_DESC ∷ [] ≡ 4 ∷ 5 ∷ 6 ∷ [] }
    ensures relocs { ADDEND ≡ 7 }
{}

/// An error, with the offset in the file at which the thing that is refused begins.
#[derive(Debug, Drop)]
pub struct Refused {
    /// The library's error.
    pub error: Error,
    /// The offset from the start of the file.
    pub offset: u64,
}

/// A result that is refused with an offset.
pub type Result<T> = result::Result<T, Refused>;

/// Returns a result of the library, whose error is of something at an offset.
pub fn refused_at<T>(offset: u64, answer: goblin::error::Result<T>) -> Result<T>
    ensures { result ≡ with_offset offset answer }
{
    match answer {
        Ok(found) => Ok(found),
        Err(error) => Err(Refused { error, offset }),
    }
}

/// Why a file is refused.
#[repr(C)]
#[derive(Clone, Copy, Debug)]
pub struct GoblinRefusal {
    /// The number of the kind of refusal, which the call returns.
    pub kind: u32,
    /// The number of the items or the text that the refusal names, or 0 if it names none.
    pub item: u32,
    /// The numbers that belong to the kind, followed by zeros.
    pub first: u64,
    pub second: u64,
    pub third: u64,
    pub fourth: u64,
    /// The offset in the file at which the thing that is refused begins.
    pub offset: u64,
}

// Returns the number of an item, or 0 if it has none.
fn item_number(item: &str) -> u32
    ensures { result ≡ item_number item.now }
{
    match item {
        "invalid utf8" => INVALID_UTF8,
        "section headers" => SECTION_HEADERS,
        "program headers" => PROGRAM_HEADERS,
        _ => 0,
    }
}

// Converts an error for C.
pub(crate) fn convert_refusal(e: &Refused) -> GoblinRefusal
    ensures { result ≡ refusal_converted (refusal_at e.now) }
{
    let report = e.error.report();
    GoblinRefusal {
        kind: report.kind.number(),
        item: item_number(report.item),
        first: report.first,
        second: report.second,
        third: report.third,
        fourth: if report.overflow { 1 } else { 0 },
        offset: e.offset,
    }
}

/// Stores an error as a refusal. Returns the number of its kind.
pub fn refuse(e: &Refused, why: &mut GoblinRefusal) -> u32
    ensures written { why.new ≡ refusal_converted (refusal_at e.now) }
    ensures value { result ≡ (refusal_converted (refusal_at e.now)).kind }
{
    *why = convert_refusal(e);
    why.kind
}

/// Stores the item or the refusal of a result. Returns 0 for an item, 1 for none, or the number of the kind.
#[inline(always)]
pub fn store<T: Copy>(answer: Result<Option<T>>, place: &mut T, why: &mut GoblinRefusal) -> u32
    ensures { Stores (refuse_as refusal_at answer) place.old why.old result place.new why.new }
{
    match answer {
        Ok(Some(item)) => {
            *place = item;
            OK
        }
        Ok(None) => END,
        Err(e) => refuse(&e, why),
    }
}

/// Does the same with a refusal for C. (A refusal is converted where it is stored, so that an item is not moved twice.)
pub fn store_converted<T: Copy>(
    answer: result::Result<Option<T>, GoblinRefusal>,
    place: &mut T,
    why: &mut GoblinRefusal,
) -> u32
    ensures { Stored answer place.old why.old result place.new why.new }
{
    match answer {
        Ok(item) => store(Ok(item), place, why),
        Err(refusal) => {
            *why = refusal;
            why.kind
        }
    }
}

/// Stores the two items or the refusal of a result, as [`store`] does with one.
pub fn store_both<T: Copy, U: Copy>(
    answer: Result<Option<(T, U)>>,
    first: &mut T,
    second: &mut U,
    why: &mut GoblinRefusal,
) -> u32
    ensures { StoresBoth (refuse_as refusal_at answer)
        first.old second.old why.old result first.new second.new why.new }
{
    let mut both = (*first, *second);
    let status = store(answer, &mut both, why);
    (*first, *second) = both;
    status
}
