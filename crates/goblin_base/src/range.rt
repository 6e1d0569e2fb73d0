//! The range of a file that a string table takes, or the refusal of one that the file doesn't hold.
ghost use Rattle.std.specs.Prelude.{◌≡◌, List, ℕ, length, Ok, Err, IfErr, IfOk, slice_range};
ghost use Rattle.goblin_base.specs.Common.{Returns, malformed, refuse_as};
ghost use Rattle.goblin_base.specs.Strtab.{IsRange, range_in};

use crate::error::{Error, Fault, Result};
use crate::options::ParseMode;

/// Returns where the `len` bytes of a string table at an offset of a file of `file_len` bytes begin and end.
///
/// Permissive mode cuts the range at the end of the file, and never fails. If the offset is past the end, the range is
/// empty and lies at the end.
///
/// # Errors
///
/// Strict mode fails with `StrtabOffset` if the offset is past the end of the file. Otherwise it fails with
/// `StrtabRange` if the range ends past the end of the file, or past `usize::MAX`.
#[tactic(auto, unfolding(crate::specs::Strtab::range_in))]
pub fn range_of(
    file_len: usize,
    offset: usize,
    len: usize,
    mode: ParseMode,
) -> Result<(usize, usize)>
    // What holds of each file of that length.
    ensures given { (file : List ℕ) → length file ≡ file_len →
        let expected = refuse_as malformed (range_in mode file offset len) in
        Returns (λ range. slice_range file range.0 range.1) result expected }
    ensures range { (file : List ℕ) → length file ≡ file_len → IfErr (range_in mode file offset len)
        (λ fault. result ≡ Err (Error.Malformed fault)) }
    ensures ok { (file : List ℕ) → length file ≡ file_len →
        IfOk result (λ range. IsRange mode file offset len range.0 range.1) }
{
    let (end, overflow) = offset.overflowing_add(len);
    if !overflow && end <= file_len {
        return Ok((offset, end));
    }
    if mode.is_permissive() {
        return Ok((offset.min(file_len), file_len));
    }
    Err(Error::Malformed(if offset > file_len {
        Fault::StrtabOffset {
            offset,
            len: file_len,
        }
    } else {
        Fault::StrtabRange {
            size: len,
            offset,
            len: file_len,
            overflow,
        }
    }))
}

/// Returns the `len` bytes of a string table at an offset of a file, which lie where [`range_of`] says.
///
/// # Errors
///
/// Those of [`range_of`].
pub fn bytes_in_range(bytes: &[u8], offset: usize, len: usize, mode: ParseMode) -> Result<&[u8]>
    ensures given { let expected = refuse_as malformed (range_in mode bytes.now offset len) in
        Returns (λ range. range.now) result expected }
    ensures range { IfErr (range_in mode bytes.now offset len) (λ fault. result ≡ Err (Error.Malformed fault)) }
{
    let (start, end) = range_of(bytes.len(), offset, len, mode)?;
    Ok(&bytes[start..end])
}
