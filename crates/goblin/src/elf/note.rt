//! Notes: System V gABI, "Note Section".
ghost use Rattle.std.specs.Int.{next_multiple_of};
ghost use Rattle.std.specs.Prelude.{⊤, ◌⊎◌, ◌≡◌, List, ℕ, ◌+◌, ◌-◌, ◌≤◌, ◌<◌, ◌^◌, ◌++◌, IfOk, IfSome, length, min, [], ◌∷◌, take, drop, vec_capacity};
ghost use Rattle.std.specs.Iterator.{MakesProgress, UpTo, YieldsFirstBy, at_most};
ghost use Rattle.std.specs.Iterator.SizeHint.{IsWithinCount};
ghost use Rattle.goblin_base.specs.Common.{ComparesAndClones, Returns};
ghost use Rattle.goblin.specs.Notes.{NoteByNote, NotesAdvance, FewNotes, PlacesLieWithin, WholeIsNote, RangeByRange};
ghost use Rattle.goblin.specs.NoteType.{note_type_name};
ghost use Rattle.goblin.specs.Note.{FindsParts, NotesRefused, bytes_at, note_at, note_places, utf8_at, whole_places, with_part};

use goblin_base::container::{Ctx, LE};
use goblin_base::error::{Error, Fault, Result};
use goblin_base::room::room;
use goblin_base::scroll;
use goblin_base::scroll::{SizeWith, TryFromCtx};
use goblin_base::utf8::read_text;
pub use goblin_records::note::{
    ELF_NOTE_ABI, ELF_NOTE_OS_FREEBSD, ELF_NOTE_OS_GNU, ELF_NOTE_OS_LINUX, ELF_NOTE_OS_SOLARIS2,
    NT_FILE, NT_GNU_ABI_TAG, NT_GNU_BUILD_ID, NT_GNU_GOLD_VERSION, NT_GNU_HWCAP,
    NT_GNU_PROPERTY_TYPE_0, NT_PRPSINFO, NT_PRSTATUS, NT_SIGINFO, Nhdr32, Nhdr64,
};
use std::result;

/// An iterator over the notes of a range of bytes.
///
/// <!-- quoted: crates/goblin_tests/src/note.rt -->
/// ```
/// for note in notes {
///     let note = note?;
///     if note.n_type == NT_GNU_BUILD_ID && note.name == "GNU" {
/// ```
#[derive(Debug, Drop)]
pub struct NoteDataIterator<'a> {
    /// The bytes that hold the notes.
    pub bytes: &'a [u8],
    /// The offset of the range's end. No note begins there or after it, but a note may end after
    /// it.
    pub size: usize,
    /// The offset of the next note.
    pub offset: usize,
    /// The alignment of notes, and the file's class and byte order.
    pub ctx: (usize, Ctx),
}

impl<'a> NoteDataIterator<'a> {
    ghost use Rattle.goblin.specs.Notes.{after_next, item_of, items_left, most_left};

    // Returns what `next` returns, and moves the fields as it does.
    #[tactic(auto, using(crate::proofs::NoteLemmas::next_items))]
    fn advance(&mut self) -> Option<Result<Note<'a>>>
        ensures steps { YieldsFirstBy item_of items_left self.old result self.new }
        ensures goes { MakesProgress (λ _. ⊤) (λ it. at_most (most_left it)) self.old result self.new }
        ensures moves { self.new ≡ after_next self.old }
    {
        if self.offset >= self.size {
            return None;
        }
        match Note::at(self.bytes, self.offset, self.ctx) {
            Ok((note, places)) => {
                self.offset += places.next;
                Some(Ok(note))
            }
            Err(e) => {
                self.offset = self.size;
                Some(Err(e))
            }
        }
    }
}

/// Each item is the note at the offset, or the error of reading it. An offset at the end of the
/// bytes or past it, but before `size`, is a `BadOffset`. Other errors are those of reading a note,
/// with offsets relative to the note's start.
///
/// A note moves the offset to its end. An error moves it to `size`, so that it is the last item. No
/// other field moves, and no item allocates.
impl<'a> Iterator for NoteDataIterator<'a> {
    ghost use Rattle.goblin.specs.Notes.{TakesNote, item_of, items_left, most_left};

    type Item = Result<Note<'a>>;

    ghost next_gives = { TakesNote };

    ghost remaining = { λ it. at_most (most_left it) };

    fn next(&mut self) -> Option<Self::Item> {
        self.advance()
    }

    #[tactic(auto, using(crate::proofs::NoteLemmas::items_bounds))]
    fn size_hint(&self) -> (usize, Option<usize>)
        ensures lower { IsWithinCount result.0 (at_most (most_left self.now)) }
        ensures upper { IfSome result.1 (UpTo (at_most (most_left self.now))) }
        // Before the end at least one item is left, and at most as many as headers fit before it.
        ensures value { let most = most_left self.now in result ≡ (min 1 most, Some most) }
        ensures least { result.0 ≤ length (items_left self.now) }
        ensures most { IfSome result.1 (λ most. length (items_left self.now) ≤ most) }
    {
        let header_size = Nhdr32::size_with(&self.ctx.1.le);
        let most = self.size.saturating_sub(self.offset).div_ceil(header_size);
        (most.min(1), Some(most))
    }
}

/// An iterator over the notes of several ranges of bytes, one range after another.
#[derive(Debug, Drop)]
pub struct NoteIterator<'a> {
    /// The ranges.
    pub iters: Vec<NoteDataIterator<'a>>,
    /// The index of the range to read the next note from.
    pub index: usize,
}

impl<'a> NoteIterator<'a> {
    ghost use Rattle.goblin.specs.Notes.{after_next_of_first, all_items_left, index_of_next};
    ghost use Rattle.goblin.specs.Notes.{item_of, most_left_in};

    // Returns what `next` returns, and moves the fields as it does.
    fn advance(&mut self) -> Option<Result<Note<'a>>>
        ensures steps { YieldsFirstBy item_of all_items_left self.old result self.new }
        ensures goes { MakesProgress (λ _. ⊤)
            (λ it. at_most (most_left_in (drop it.index it.iters.items))) self.old result self.new }
        ensures index { self.new.index ≡ index_of_next self.old }
        ensures memory { vec_capacity self.new.iters ≡ vec_capacity self.old.iters }
        // Only the range that the item came from has moved.
        ensures ranges { let at = index_of_next self.old in
            let old = self.old.iters.items in
            self.new.iters.items ≡ take at old ++ after_next_of_first (drop at old) }
    {
        while self.index < self.iters.len() {
            let range = &mut self.iters[self.index];
            if let Some(item) = range.advance() {
                return Some(item);
            }
            self.index += 1;
        }
        None
    }
}

/// Returns the items of the ranges from the index on, one range after another. The index moves to
/// the range that the item comes from, or to the end of the ranges if no item is left. No other
/// range moves, and no item allocates.
impl<'a> Iterator for NoteIterator<'a> {
    ghost use Rattle.goblin.specs.Notes.{TakesNoteOfRanges, most_left_in};

    type Item = Result<Note<'a>>;

    ghost next_gives = { TakesNoteOfRanges };

    ghost remaining = { λ it. at_most (most_left_in (drop it.index it.iters.items)) };

    /// Says nothing about how many items are left.
    fn size_hint(&self) -> (usize, Option<usize>)
        ensures lower { IsWithinCount result.0 (at_most (most_left_in (drop self.now.index self.now.iters.items))) }
        ensures upper { IfSome result.1 (UpTo (at_most (most_left_in (drop self.now.index self.now.iters.items)))) }
        ensures value { result ≡ (0, None) }
    {
        (0, None)
    }

    fn next(&mut self) -> Option<Self::Item> {
        self.advance()
    }
}

/// The offsets and sizes of a note's parts in bytes. Offsets count from the note's start.
#[derive(Clone, Copy, Debug, PartialEq)]
pub struct NotePlaces {
    /// The type, whose meaning depends on the name.
    pub n_type: u32,
    /// The offset of the name.
    pub name: usize,
    /// The size of the name, without its last byte, zero in most files.
    pub name_size: usize,
    /// The offset of the descriptor.
    pub desc: usize,
    /// The size of the descriptor.
    pub desc_size: usize,
    /// The offset of the next note, which may be past the end of the bytes.
    pub next: usize,
}

impl NotePlaces {
    ghost use Rattle.goblin.specs.Notes.{LieWithin};

    /// Returns the parts of the note with a header, for an alignment of 4 or 8.
    #[inline(always)]
    pub fn of(header: &Nhdr32, alignment: usize) -> NotePlaces
        requires { (alignment ≡ 4) ⊎ (alignment ≡ 8) }
        ensures { result ≡ note_places alignment header.now }
    {
        let name = Nhdr32::size_with(&LE);
        let name_size = header.n_namesz as usize;
        let desc = aligned(name + name_size, alignment);
        let desc_size = header.n_descsz as usize;
        NotePlaces {
            n_type: header.n_type,
            name,
            name_size: name_size.saturating_sub(1),
            desc,
            desc_size,
            next: aligned(desc + desc_size, alignment),
        }
    }

    /// Finds the parts of the note at the start of the bytes, whose name need not be UTF-8. `name_size` is the size of
    /// the whole name, as the header has it, with the zero byte that closes it.
    ///
    /// # Errors
    ///
    /// The first of these that applies, with the part that it is about, and offsets relative to the note's start:
    ///
    /// - `NoteAlign`: the alignment is neither 4 nor 8. This is about no part.
    /// - The fault of `room`: the bytes don't hold the header, the name or the descriptor.
    #[tactic(auto, unfolding(crate::specs::Note::whole_places))]
    pub fn whole(bytes: &[u8], ctx: (usize, Ctx)) -> result::Result<NotePlaces, NoteRefusal>
        ensures value { FindsParts result (whole_places ctx.0 ctx.1.le bytes.now) }
        ensures within { IfOk result (LieWithin (length bytes.now) 0) }
    {
        let (alignment, ctx) = ctx;
        let align = alignment.max(4);
        if align != 4 && align != 8 {
            return Err(NoteRefusal {
                part: None,
                error: Error::Malformed(Fault::NoteAlign(align)),
            });
        }
        let (header, _) = about(NotePart::Header, Nhdr32::try_from_ctx(bytes, ctx.le))?;
        let name_size = header.n_namesz as usize;
        let places = NotePlaces {
            name_size,
            ..NotePlaces::of(&header, align)
        };
        about(NotePart::Name, bytes_at(bytes, places.name, name_size))?;
        about(
            NotePart::Desc,
            bytes_at(bytes, places.desc, places.desc_size),
        )?;
        Ok(places)
    }
}

/// A part of a note.
#[derive(Clone, Copy, Debug, PartialEq)]
pub enum NotePart {
    /// Its header: the sizes of name and descriptor, and the type.
    Header,
    /// Its name.
    Name,
    /// Its descriptor.
    Desc,
}

/// Why the parts of a note can't be found.
#[derive(Debug, Drop)]
pub struct NoteRefusal {
    /// The part that the bytes don't hold, or `None` if the alignment is refused.
    pub part: Option<NotePart>,
    /// The error.
    pub error: Error,
}

// Returns a result whose error is about a part.
fn about<T>(part: NotePart, answer: Result<T>) -> result::Result<T, NoteRefusal>
    ensures { result ≡ with_part (Some part) answer }
{
    match answer {
        Ok(found) => Ok(found),
        Err(error) => Err(NoteRefusal {
            part: Some(part),
            error,
        }),
    }
}

/// A note of either class.
#[derive(Debug, Drop)]
pub struct Note<'a> {
    /// The type, whose meaning depends on the name.
    pub n_type: u32,
    /// The name, without its last byte, zero in most files.
    pub name: &'a str,
    /// The descriptor, whose meaning depends on name and type.
    pub desc: &'a [u8],
}

impl<'a> Note<'a> {
    ghost use Rattle.goblin.specs.Note.{note_there, parts_of, places_at, read_places};
    ghost use Rattle.goblin.specs.Notes.{LieWithin};

    /// Reads the note at an offset, and returns it with the offsets of its parts.
    ///
    /// # Errors
    ///
    /// `BadOffset` if the offset is at the end of the bytes or past it, else the errors of reading
    /// a note from the offset on.
    #[tactic(auto, using(crate::proofs::NoteLemmas::no_notes))]
    pub fn at(bytes: &'a [u8], offset: usize, ctx: (usize, Ctx)) -> Result<(Self, NotePlaces)>
        ensures given { Returns (λ found. (parts_of found.0, found.1.next)) result (note_at bytes.now offset ctx) }
        ensures places { Returns (λ found. found.1) result (places_at bytes.now offset ctx) }
        ensures within { IfOk result (λ found. LieWithin (length bytes.now) offset found.1) }
    {
        if offset >= bytes.len() {
            return Err(Error::Scroll(scroll::Error::BadOffset(offset)));
        }
        Note::with_places(&bytes[offset..], ctx)
    }

    // Reads the note at the start of the bytes, and returns it with the offsets of its parts.
    #[tactic(auto, unfolding(crate::specs::Note::read_places))]
    fn with_places(bytes: &'a [u8], ctx: (usize, Ctx)) -> Result<(Self, NotePlaces)>
        ensures places { Returns (λ found. found.1) result (read_places ctx.0 ctx.1.le bytes.now) }
        ensures ok { IfOk result (λ found. parts_of found.0 ≡ note_there bytes.now found.1) }
    {
        let (alignment, ctx) = ctx;
        let alignment = alignment.max(4);
        if alignment != 4 && alignment != 8 {
            return Err(Error::Malformed(Fault::NoteAlign(alignment)));
        }
        let (header, _) = Nhdr32::try_from_ctx(bytes, ctx.le)?;
        let places = NotePlaces::of(&header, alignment);
        let name = utf8_at(bytes, places.name, places.name_size)?;
        let desc = bytes_at(bytes, places.desc, places.desc_size)?;
        let n_type = header.n_type;
        Ok((Note { n_type, name, desc }, places))
    }

    /// Returns the name of the note's type, which depends on the note's name, or `NT_UNKNOWN`.
    #[tactic(auto, unfolding(crate::specs::NoteType::note_type_name))]
    pub fn type_to_str(&self) -> &'static str
        ensures { result.now ≡ note_type_name self.now.name.now self.now.n_type }
    {
        if self.name == "CORE" {
            return match self.n_type {
                NT_PRPSINFO => "NT_PRPSINFO",
                NT_PRSTATUS => "NT_PRSTATUS",
                NT_SIGINFO => "NT_SIGINFO",
                _ => "NT_UNKNOWN",
            };
        }
        match self.n_type {
            NT_GNU_ABI_TAG => "NT_GNU_ABI_TAG",
            NT_GNU_HWCAP => "NT_GNU_HWCAP",
            NT_GNU_BUILD_ID => "NT_GNU_BUILD_ID",
            NT_GNU_GOLD_VERSION => "NT_GNU_GOLD_VERSION",
            NT_GNU_PROPERTY_TYPE_0 => "NT_GNU_PROPERTY_0",
            _ => "NT_UNKNOWN",
        }
    }
}

// Returns the least multiple of an alignment of 4 or 8 that is at least an offset. The alignments are constants here,
// since a division takes longer than the rest of a note's reading. `next_multiple_of` takes three instructions more.
#[inline]
fn aligned(offset: usize, alignment: usize) -> usize
    requires known { (alignment ≡ 4) ⊎ (alignment ≡ 8) }
    requires fits { next_multiple_of offset alignment < 2 ^ 64 }
    ensures { result ≡ next_multiple_of offset alignment }
{
    if alignment == 4 {
        let past = offset + 3;
        past - past % 4
    } else {
        let past = offset + 7;
        past - past % 8
    }
}

// Returns `size` bytes from an offset on, or the fault of `room`.
fn bytes_at(bytes: &[u8], place: usize, size: usize) -> Result<&[u8]>
    ensures given { Returns (λ part. part.now) result (bytes_at bytes.now place size) }
    ensures ok { IfOk result (λ part. part.now ≡ take size (drop place bytes.now)) }
    ensures fits { IfOk result (λ _. place + size ≤ length bytes.now) }
{
    room(bytes.len(), place, size)?;
    Ok(&bytes[place..place + size])
}

// Returns `size` bytes from an offset on as UTF-8, or the fault of `room`, or `BadInput`.
fn utf8_at(bytes: &[u8], place: usize, size: usize) -> Result<&str>
    ensures given { Returns (λ text. text.now) result (utf8_at bytes.now place size) }
    ensures ok { IfOk result (λ text. text.now ≡ take size (drop place bytes.now)) }
{
    let part = bytes_at(bytes, place, size)?;
    read_text(part, bytes.len() - place)
}

/// Reads the note at the start of the bytes. Returns it with the offset of the next note, which may
/// be past the end of the bytes. An alignment below 4 counts as 4.
///
/// # Errors
///
/// The first of these that applies, with offsets relative to the note's start:
///
/// - `NoteAlign`: the alignment is neither 4 nor 8. No byte is read.
/// - The fault of `room`: the bytes don't hold the header, or don't hold the name.
/// - `BadInput`: the name isn't UTF-8.
/// - The fault of `room`: the bytes don't hold the descriptor.
impl<'a> TryFromCtx<'a, (usize, Ctx)> for Note<'a> {
    ghost use Rattle.goblin.specs.Note.{note_and_len, read_note};

    ghost try_from_gives = { λ bytes ctx answer. Returns note_and_len answer (read_note ctx.0 ctx.1.le bytes) };

    #[tactic(auto, unfolding(crate::specs::Note::read_note))]
    fn try_from_ctx(bytes: &'a [u8], ctx: (usize, Ctx)) -> Result<(Self, usize)> {
        let (note, places) = Note::with_places(bytes, ctx)?;
        Ok((note, places.next))
    }
}

/// Laws: the numbers of this module's constants.
pub fn constants()
    ensures gnu { NT_GNU_ABI_TAG ∷ ELF_NOTE_ABI ∷ NT_GNU_HWCAP ∷ NT_GNU_BUILD_ID ∷
        NT_GNU_GOLD_VERSION ∷ NT_GNU_PROPERTY_TYPE_0 ∷ [] ≡ 1 ∷ 1 ∷ 2 ∷ 3 ∷ 4 ∷ 5 ∷ [] }
    ensures systems { ELF_NOTE_OS_LINUX ∷ ELF_NOTE_OS_GNU ∷ ELF_NOTE_OS_SOLARIS2 ∷ ELF_NOTE_OS_FREEBSD ∷ []
        ≡ 0 ∷ 1 ∷ 2 ∷ 3 ∷ [] }
    ensures core { NT_PRSTATUS ∷ NT_PRPSINFO ∷ NT_SIGINFO ∷ NT_FILE ∷ [] ≡ 1 ∷ 3 ∷ 0x5349_4749 ∷ 0x4649_4c45 ∷ [] }
{}

/// Laws of notes: how the items of a range follow one another, where the parts of a note are, also in numbers, where it
/// ends, how many items a range has, which note is a whole note, that a refusal ends its own range alone, and which
/// alignments and headers are refused. `==` is true exactly if two places or two parts are the same. `clone` returns
/// the value, and never fails.
#[tactic(auto, using(crate::specs::NoteLaws::note_laws, crate::proofs::RefusalLemmas::notes_refused))]
pub fn laws()
    ensures items { NoteByNote }
    ensures places { PlacesLieWithin }
    ensures parts { (align : ℕ) (h : Nhdr32) → let p = note_places align h in
        p.n_type ∷ p.name ∷ p.name_size ∷ p.desc ∷ p.desc_size ∷ p.next ∷ []
        ≡ h.n_type ∷ 12 ∷ (h.n_namesz - 1) ∷ next_multiple_of (12 + h.n_namesz) align ∷ h.n_descsz
        ∷ next_multiple_of (p.desc + h.n_descsz) align ∷ [] }
    ensures advance { NotesAdvance }
    ensures few { FewNotes }
    ensures whole { WholeIsNote }
    ensures ranges { RangeByRange }
    ensures refused { (alignment : ℕ) (ctx : Ctx) (bytes : List ℕ) → NotesRefused alignment ctx.le bytes }
    ensures derived_places { ComparesAndClones ⟦<NotePlaces as PartialEq>⟧ ⟦<NotePlaces as Clone>⟧ }
    ensures derived_part { ComparesAndClones ⟦<NotePart as PartialEq>⟧ ⟦<NotePart as Clone>⟧ }
{}
