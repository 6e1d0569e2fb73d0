//! Notes: by their offsets, with names that are bytes or UTF-8, or whole; and the names of their types.
ghost use Rattle.goblin.specs.NoteType.{note_type_name};
ghost use Rattle.goblin.specs.Notes.{LieWithin};
ghost use Rattle.goblin.specs.Refusal.{refusal_of};
ghost use Rattle.goblin_base.specs.Common.{Returns as Gives};
ghost use Rattle.goblin_c.specs.File.{context_of};
ghost use Rattle.goblin_c.specs.Notes.{bytes_from, note_converted, note_expected, note_utf8_expected, note_whole_expected, part_converted, part_number, parts_at, read_parts, whole_note, without_last};
ghost use Rattle.goblin_c.specs.Results.{Stored, Stores};
ghost use Rattle.std.specs.Prelude.{IfOk, IfSome, IsAscii, IsOk, IsSome, IsTrue, Ok, Some, drop, length, take, ◌+◌, ◌-◌, ◌<◌, ◌^◌, ◌≡◌, ◌≢◌, ◌≤◌, ◌⊎◌};
ghost use Rattle.std.specs.Str.{IsAscii};
ghost use Rattle.goblin_base.specs.declared.container.Endian.TheVariants as endian;

use crate::file::{GoblinFile, GoblinHeader};
use crate::numbers::{GoblinRange, fits};
use crate::results::{
    END, GoblinRefusal, NOTE_DESC, NOTE_HEADER, NOTE_NAME, OK, Refused, Result, convert_refusal,
    refuse, refused_at, store, store_converted,
};
use goblin::container::{Ctx, Endian};
use goblin::elf::header::{ELFDATA2MSB, Header};
use goblin::elf::note::{Nhdr32, Note, NotePart, NotePlaces, NoteRefusal};
use goblin::elf::sym::type_to_str;
use goblin::error::{Error, Fault};
use goblin::scroll;
use goblin::scroll::TryFromCtx;
use goblin_base::room::room;
use std::result;

/// A note.
#[repr(C)]
#[derive(Clone, Copy, Debug)]
pub struct GoblinNote {
    /// Its name, without its last byte, zero in most files.
    pub name: GoblinRange,
    /// Its descriptor.
    pub desc: GoblinRange,
    /// The offset of the next note.
    pub next: u64,
    pub n_type: u32,
}

// Converts the note at an offset, whose parts are at these places.
pub(crate) fn convert_note(offset: u64, places: &NotePlaces) -> GoblinNote
    requires name { offset + places.now.name < 2 ^ 64 }
    requires desc { offset + places.now.desc < 2 ^ 64 }
    requires next { offset + places.now.next < 2 ^ 64 }
    ensures { result ≡ note_converted offset places.now }
{
    GoblinNote {
        name: GoblinRange::new(offset + places.name as u64, places.name_size as u64),
        desc: GoblinRange::new(offset + places.desc as u64, places.desc_size as u64),
        next: offset + places.next as u64,
        n_type: places.n_type,
    }
}

// Finds the parts of the note at an offset of the file, whose name need not be UTF-8.
#[tactic(auto, unfolding(crate::specs::Notes::parts_at, crate::specs::Notes::read_parts))]
fn parts_at(
    bytes: &[u8],
    offset: usize,
    alignment: usize,
    ctx: Ctx,
) -> goblin::error::Result<NotePlaces>
    ensures value { Gives (λ places. places) result (parts_at bytes.now offset (alignment, ctx)) }
    ensures within { IfOk result (LieWithin (length bytes.now) offset) }
{
    if offset >= bytes.len() {
        return Err(Error::Scroll(scroll::Error::BadOffset(offset)));
    }
    let part = &bytes[offset..];
    let align = alignment.max(4);
    if align != 4 && align != 8 {
        return Err(Error::Malformed(Fault::NoteAlign(align)));
    }
    let (header, _) = Nhdr32::try_from_ctx(part, ctx.le)?;
    let places = NotePlaces::of(&header, align);
    room(part.len(), places.name, places.name_size)?;
    room(part.len(), places.desc, places.desc_size)?;
    Ok(places)
}

/// Stores the note at an offset of the file, among those of a range. The first one is at the range's
/// start, and each has the offset of the next one.
#[unsafe(no_mangle)]
pub extern "C" fn goblin_note(
    file: &GoblinFile<'_>,
    notes: &GoblinRange,
    alignment: u64,
    offset: u64,
    note: &mut GoblinNote,
    why: &mut GoblinRefusal,
) -> u32
    ensures { Stores (note_expected file.now.bytes.now file.now.header notes.now alignment offset)
        note.old why.old result note.new why.new }
{
    if let Some(found) = usual_note(file.bytes, &file.header, notes, alignment, offset) {
        *note = found;
        return OK;
    }
    store_any_note(file, notes, alignment, offset, note, why)
}

// Does the same for any note.
#[inline(never)]
fn store_any_note(
    file: &GoblinFile<'_>,
    range: &GoblinRange,
    alignment: u64,
    offset: u64,
    note: &mut GoblinNote,
    why: &mut GoblinRefusal,
) -> u32
    ensures { Stores (note_expected file.now.bytes.now file.now.header range.now alignment offset)
        note.old why.old result note.new why.new }
{
    if range.ends_before(offset) {
        return END;
    }
    let ctx = file.header.ctx();
    let found = parts_at(file.bytes, offset as usize, alignment as usize, ctx);
    let found = refused_at(offset, found).map(|places| Some(convert_note(offset, &places)));
    store(found, note, why)
}

/// Stores the note at an offset of the file, if its name is UTF-8.
#[unsafe(no_mangle)]
pub extern "C" fn goblin_note_utf8(
    file: &GoblinFile<'_>,
    notes: &GoblinRange,
    alignment: u64,
    offset: u64,
    note: &mut GoblinNote,
    why: &mut GoblinRefusal,
) -> u32
    ensures { Stores (note_utf8_expected file.now.bytes.now file.now.header notes.now alignment offset)
        note.old why.old result note.new why.new }
{
    if let Some(found) = usual_text_note(file.bytes, &file.header, notes, alignment, offset) {
        *note = found;
        return OK;
    }
    store_any_text_note(file, notes, alignment, offset, note, why)
}

// Does the same for any note.
#[inline(never)]
fn store_any_text_note(
    file: &GoblinFile<'_>,
    range: &GoblinRange,
    alignment: u64,
    offset: u64,
    note: &mut GoblinNote,
    why: &mut GoblinRefusal,
) -> u32
    ensures { Stores (note_utf8_expected file.now.bytes.now file.now.header range.now alignment offset)
        note.old why.old result note.new why.new }
{
    if range.ends_before(offset) {
        return END;
    }
    let ctx = (alignment as usize, file.header.ctx());
    let found = refused_at(offset, Note::at(file.bytes, offset as usize, ctx));
    let found = found.map(|(_, places)| Some(convert_note(offset, &places)));
    store(found, note, why)
}

// Returns the bytes up to the end of a range.
#[tactic(auto, using(crate::proofs::NoteLemmas::windows))]
fn bytes_up_to<'a>(bytes: &'a [u8], range: &GoblinRange) -> &'a [u8]
    ensures { result.now ≡ take (range.now.offset + range.now.size) bytes.now }
{
    match range.offset.checked_add(range.size) {
        Some(end) if end <= bytes.len() as u64 => &bytes[..end as usize],
        _ => bytes,
    }
}

// Returns the bytes of a range from an offset of the file on.
#[tactic(auto, using(crate::proofs::NoteLemmas::windows))]
fn bytes_from<'a>(bytes: &'a [u8], range: &GoblinRange, offset: u64) -> &'a [u8]
    ensures value { result.now ≡ bytes_from bytes.now range.now offset }
    ensures fits { length result.now ≤ length bytes.now - offset }
{
    let part = bytes_up_to(bytes, range);
    if offset >= part.len() as u64 {
        return &[];
    }
    &part[offset as usize..]
}

// Returns the number of a part of a note, or 0 for none.
fn part_number(part: &Option<NotePart>) -> u32
    ensures { result ≡ part_number part.now }
{
    match part {
        None => 0,
        Some(NotePart::Header) => NOTE_HEADER,
        Some(NotePart::Name) => NOTE_NAME,
        Some(NotePart::Desc) => NOTE_DESC,
    }
}

// Returns the refusal of the note at an offset, for C.
fn refused_note(e: NoteRefusal, offset: u64) -> GoblinRefusal
    ensures { result ≡ part_converted offset (record { part = e.part; refusal = refusal_of e.error }) }
{
    let item = part_number(&e.part);
    let error = e.error;
    GoblinRefusal {
        item,
        ..convert_refusal(&Refused { error, offset })
    }
}

// Returns the places of a note, without the last byte of its name.
fn without_last(places: &NotePlaces) -> NotePlaces
    ensures { result ≡ without_last places.now }
{
    NotePlaces {
        name_size: places.name_size.saturating_sub(1),
        ..*places
    }
}

/// Returns the note at an offset of the file as `goblin_note` stores it, if the note lies in the range whole.
pub fn whole_note(
    file: &GoblinFile<'_>,
    range: &GoblinRange,
    alignment: u64,
    offset: u64,
) -> result::Result<Option<GoblinNote>, GoblinRefusal>
    ensures { result ≡ whole_note file.now.bytes.now file.now.header range.now alignment offset }
{
    if range.ends_before(offset) {
        return Ok(None);
    }
    let part = bytes_from(file.bytes, range, offset);
    match NotePlaces::whole(part, (alignment as usize, file.header.ctx())) {
        Ok(places) => Ok(Some(convert_note(offset, &without_last(&places)))),
        Err(e) => Err(refused_note(e, offset)),
    }
}

/// Stores this note.
#[unsafe(no_mangle)]
pub extern "C" fn goblin_note_whole(
    file: &GoblinFile<'_>,
    range: &GoblinRange,
    alignment: u64,
    offset: u64,
    note: &mut GoblinNote,
    why: &mut GoblinRefusal,
) -> u32
    ensures { Stored (whole_note file.now.bytes.now file.now.header range.now alignment offset)
        note.old why.old result note.new why.new }
{
    store_converted(whole_note(file, range, alignment, offset), note, why)
}

// Returns the name of the type of a note, whose own name is UTF-8.
fn type_of(name: &str, n_type: u32) -> &'static str
    ensures { result.now ≡ note_type_name name.now n_type }
{
    let desc = &[];
    Note { n_type, name, desc }.type_to_str()
}

/// Returns the name of the type of a note with a name. All that counts of the name is whether it is `CORE`.
#[tactic(auto, unfolding(goblin::specs::NoteType::note_type_name))]
pub fn note_type(name: &[u8], n_type: u32) -> &'static str
    ensures { result.now ≡ note_type_name name.now n_type }
{
    if name == b"CORE".as_slice() {
        return type_of("CORE", n_type);
    }
    type_of("", n_type)
}

// The most bytes of a name that is short.
const SHORT: usize = 16;

// Reports whether a name is short and ASCII.
#[inline(always)]
fn is_short_ascii(name: &[u8]) -> bool
    ensures value { IsTrue result → IsAscii name.now }
    ensures found { IsAscii name.now → length name.now ≤ 16 → IsTrue result }
{
    // (most names are `GNU`)
    match name {
        [a, b, c] => *a < 0x80 && *b < 0x80 && *c < 0x80,
        _ => name.len() <= SHORT && name.iter().all(|byte| *byte < 0x80),
    }
}

// Returns the places of the parts of the note at the start of some bytes, if they hold it.
#[inline(always)]
#[tactic(auto, unfolding(crate::specs::Notes::read_parts))]
fn usual_places(bytes: &[u8], alignment: usize) -> Option<NotePlaces>
    requires known { (alignment ≡ 4) ⊎ (alignment ≡ 8) }
    ensures value { IfSome result (λ places. read_parts alignment endian.Little bytes.now ≡ Ok places) }
    ensures found { IsOk (read_parts alignment endian.Little bytes.now) → IsSome result }
    ensures within { IfSome result (LieWithin (length bytes.now) 0) }
{
    let Ok((header, _)) = Nhdr32::try_from_ctx(bytes, Endian::Little) else {
        return None;
    };
    let places = NotePlaces::of(&header, alignment);
    if room(bytes.len(), places.name, places.name_size).is_err() {
        return None;
    }
    if room(bytes.len(), places.desc, places.desc_size).is_err() {
        return None;
    }
    Some(places)
}

/// Returns the note at an offset, among those of a range, if it is a usual one.
#[inline(always)]
#[tactic(auto, unfolding(crate::specs::Notes::parts_at), using(crate::proofs::NoteLemmas::windows))]
pub fn usual_note(
    bytes: &[u8],
    header: &GoblinHeader,
    range: &GoblinRange,
    alignment: u64,
    offset: u64,
) -> Option<GoblinNote>
    ensures value { IfSome result
        (λ note. note_expected bytes.now header.now range.now alignment offset ≡ Ok (Some note)) }
    ensures name { IfSome result (λ note. note.name.offset + note.name.size ≤ length bytes.now) }
    ensures found { header.now.ei_data ≢ 2 → (alignment ≡ 4) ⊎ (alignment ≡ 8)
        → offset < range.now.offset + range.now.size
        → IsOk (parts_at bytes.now offset (alignment, context_of header.now)) → IsSome result }
{
    if header.ei_data == ELFDATA2MSB || offset >= bytes.len() as u64 {
        return None;
    }
    if range.ends_before(offset) {
        return None;
    }
    let part = &bytes[offset as usize..];
    let places = match alignment {
        4 => usual_places(part, 4)?,
        8 => usual_places(part, 8)?,
        _ => return None,
    };
    Some(convert_note(offset, &places))
}

/// Returns the same note if its name is short and ASCII, as most are.
#[inline(always)]
pub fn usual_text_note(
    bytes: &[u8],
    header: &GoblinHeader,
    range: &GoblinRange,
    alignment: u64,
    offset: u64,
) -> Option<GoblinNote>
    ensures value { IfSome result
        (λ note. note_utf8_expected bytes.now header.now range.now alignment offset ≡ Ok (Some note)) }
    ensures found { header.now.ei_data ≢ 2 → (alignment ≡ 4) ⊎ (alignment ≡ 8)
        → IfOk (note_expected bytes.now header.now range.now alignment offset) (λ found. IfSome found (λ note.
        note.name.size ≤ 16 → IsAscii (take note.name.size (drop note.name.offset bytes.now)) → IsSome result)) }
{
    let note = usual_note(bytes, header, range, alignment, offset)?;
    let start = note.name.offset as usize;
    if !is_short_ascii(&bytes[start..start + note.name.size as usize]) {
        return None;
    }
    Some(note)
}
