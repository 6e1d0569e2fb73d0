//! The notes of a file.
ghost use Rattle.std.specs.Prelude.{◌≡◌, ◌++◌, ◌-◌, Err, IfErr, IfOk, IfSome, MatchOption, OnOk, codes, decimal, length, slice_get, slice_index_or, string_bytes};
ghost use Rattle.goblin.specs.Note.{note_items};
ghost use Rattle.goblin.specs.NoteType.{note_type_name};
ghost use Rattle.goblin.specs.Notes.{item_of, items_left};
ghost use Rattle.goblin.specs.Room.{span};
ghost use Rattle.goblin.specs.Refusal.{Refuses};
ghost use Rattle.goblin.specs.Texts.{◌&◌};

use goblin::container::Ctx;
use goblin::elf::note::{Note, NoteDataIterator};
use goblin::elf::section_header::SectionHeader;
use goblin::error::Result;
use std::alloc::AllocError;

/// Returns the notes of a section.
pub fn notes_of<'a>(bytes: &'a [u8], section: &SectionHeader, ctx: Ctx) -> NoteDataIterator<'a>
    ensures { let s = section.now in
        items_left result ≡ note_items bytes.now (span s.sh_offset s.sh_size).1 s.sh_offset (s.sh_addralign, ctx) }
{
    let offset = section.sh_offset as usize;
    NoteDataIterator {
        bytes,
        size: offset.saturating_add(section.sh_size as usize),
        offset,
        ctx: (section.sh_addralign as usize, ctx),
    }
}

// Returns the number of notes.
#[tactic(auto, using(goblin::specs::NoteRuns::notes_run))]
pub fn count_notes(notes: NoteDataIterator) -> usize
    ensures { result ≡ length (items_left notes.entry) }
{
    notes.count()
}

// Returns the last item of a range, or `None` if it has none.
#[tactic(auto, using(goblin::specs::NoteRuns::notes_run))]
fn last_note(notes: NoteDataIterator) -> Option<Result<Note>>
    ensures { let items = items_left notes.entry in
        MatchOption result (length items ≡ 0) (λ item.
        item_of item ≡ slice_index_or items (length items - 1) (item_of item)) }
{
    notes.last()
}

// Refuses a last item that can't be read.
fn refuse_unreadable(last: Option<Result<Note>>) -> Result<()>
    ensures { IfSome last.entry (λ item. IfErr (item_of item) (λ e. Refuses result e)) }
{
    match last {
        Some(Err(e)) => Err(e),
        _ => Ok(()),
    }
}

// Adds the line with the number of notes.
fn push_count(text: &mut String, notes: NoteDataIterator) -> std::result::Result<(), AllocError>
    ensures { OnOk result (string_bytes text.new ≡ string_bytes text.old
        ++ (decimal (length (items_left notes.entry)) & codes " notes\n")) }
{
    let count = count_notes(notes);
    write!(text, "{count} notes\n")
}

// Adds the line of a note, or returns the error of one that can't be read.
fn push_line(text: &mut String, note: Result<Note>) -> Result<()>
    ensures refused { IfErr note.entry (λ e. result ≡ Err e) }
    ensures read { IfOk note.entry (λ n. OnOk result (string_bytes text.new
        ≡ string_bytes text.old ++ (n.name.now & codes " " & note_type_name n.name.now n.n_type
        & codes ": " & decimal (length n.desc.now) & codes " bytes\n"))) }
{
    let note = note?;
    let kind = note.type_to_str();
    let name = note.name;
    let size = note.desc.len();
    write!(text, "{name} {kind}: {size} bytes\n")?;
    Ok(())
}

/// Adds the lines of the notes of a section: their number, and a line for each.
///
/// # Errors
///
/// The error of the first note that can't be read, before a line is added, else out of memory.
pub fn push_notes(text: &mut String, bytes: &[u8], section: &SectionHeader, ctx: Ctx) -> Result<()>
    ensures first { let s = section.now in
        let end = (span s.sh_offset s.sh_size).1 in
        let items = note_items bytes.now end s.sh_offset (s.sh_addralign, ctx) in
        IfSome (slice_get items (length items - 1)) (λ last. IfErr last (λ e. Refuses result e)) }
{
    refuse_unreadable(last_note(notes_of(bytes, section, ctx)))?;
    push_count(text, notes_of(bytes, section, ctx))?;
    let notes = notes_of(bytes, section, ctx);
    for note in notes {
        push_line(text, note)?;
    }
    Ok(())
}
