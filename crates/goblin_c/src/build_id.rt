//! The build ID: the descriptor of a note, in which a linker writes a number of its own for each file that it makes.
ghost use Rattle.goblin_c.specs.BuildId.{Seek, build_id_expected, holders_in, id_of_sections, is_build_id, notes_of, whole_notes};
ghost use Rattle.goblin_c.specs.Results.{Stored};
ghost use Rattle.std.specs.Prelude.{Some, length, slice_get, take, ◌<◌, ◌≡◌, ◌≤◌};

use crate::file::GoblinFile;
use crate::notes::{GoblinNote, whole_note};
use crate::numbers::GoblinRange;
use crate::results::{GoblinRefusal, convert_refusal, store_converted};
use goblin::container::Ctx;
use goblin::elf::program_header::{PT_NOTE, ProgramHeader};
use goblin::elf::section_header::{SHT_NOTE, SectionHeader};
use goblin_base::table::Table;
use std::result;

// The most notes that are read, of all that a file holds.
const MOST: u64 = 0x1_0000;

// The type of a note that is a build ID.
const NT_GNU_BUILD_ID: u32 = 3;

// A build ID, or why a note before it is refused.
type Sought = Option<result::Result<GoblinRange, GoblinRefusal>>;

// Reports whether a note is a build ID.
fn is_build_id(bytes: &[u8], note: &GoblinNote) -> bool
    ensures { result ≡ is_build_id bytes.now note.now }
{
    if note.n_type != NT_GNU_BUILD_ID || note.name.size != 3 {
        return false;
    }
    match bytes.get(note.name.offset as usize..) {
        Some([b'G', b'N', b'U', 0, ..]) => true,
        _ => false,
    }
}

// Looks for a build ID among the notes of a range, of which it reads so many at most. Returns how many more could be
// read, too.
#[tactic(auto, using(crate::proofs::BuildIdLemmas::notes_at))]
fn seek(file: &GoblinFile<'_>, range: &GoblinRange, alignment: u64, most: u64) -> (Sought, u64)
    ensures { Seek file.now.bytes.now
        (whole_notes most file.now.bytes.now file.now.header range.now alignment range.now.offset) most result }
{
    let mut offset = range.offset;
    for read in 0..most {
        let note = match whole_note(file, range, alignment, offset) {
            Ok(Some(note)) => note,
            Ok(None) => return (None, most - read),
            Err(why) => return (Some(Err(why)), 0),
        };
        if is_build_id(file.bytes, &note) {
            return (Some(Ok(note.desc)), 0);
        }
        offset = note.next;
    }
    (None, 0)
}

// The headers of which some hold notes.
#[derive(Drop)]
enum Holders<'a> {
    Segments(Table<'a, ProgramHeader, Ctx>),
    Sections(Table<'a, SectionHeader, Ctx>),
}

impl Holders<'_> {
    // Returns the number of headers.
    fn len(&self) -> usize
        ensures { result ≡ length (holders_in self.now) }
    {
        match self {
            Self::Segments(all) => all.len(),
            Self::Sections(all) => all.len(),
        }
    }

    // Returns the range and the alignment of the notes of the header at an index, if it holds some.
    fn get(&self, index: usize) -> Option<(GoblinRange, u64)>
        requires { index < length (holders_in self.now) }
        ensures { slice_get (holders_in self.now) index ≡ Some result }
    {
        match self {
            Self::Segments(all) => {
                let s = all.get(index)?;
                (s.p_type == PT_NOTE).then(|| (GoblinRange::new(s.p_offset, s.p_filesz), s.p_align))
            }
            Self::Sections(all) => {
                let s = all.get(index)?;
                (s.sh_type == SHT_NOTE).then(|| (
                    GoblinRange::new(s.sh_offset, s.sh_size),
                    s.sh_addralign,
                ))
            }
        }
    }
}

// Looks for a build ID among the notes of headers, as `seek` does in one range.
fn seek_in(file: &GoblinFile<'_>, all: &Holders<'_>, most: u64) -> (Sought, u64)
    requires { most ≤ 65536 }
    ensures { Seek file.now.bytes.now
        (take most (notes_of 65536 file.now.bytes.now file.now.header (holders_in all.now))) most result }
{
    let mut left = most;
    for i in 0..all.len() {
        if let Some((range, alignment)) = all.get(i) {
            let (found, more) = seek(file, &range, alignment, left);
            if found.is_some() {
                return (found, 0);
            }
            left = more;
        }
    }
    (None, left)
}

// Returns the range of the build ID of the sections, of whose notes it reads so many at most.
fn id_of_sections(
    file: &GoblinFile<'_>,
    most: u64,
) -> result::Result<Option<GoblinRange>, GoblinRefusal>
    requires { most ≤ 65536 }
    ensures { result ≡ id_of_sections file.now.bytes.now file.now.header most }
{
    match file.sections() {
        Ok(sections) => seek_in(file, &Holders::Sections(sections), most)
            .0
            .transpose(),
        Err(e) => Err(convert_refusal(&e)),
    }
}

// Returns the range of the build ID.
fn build_id(file: &GoblinFile<'_>) -> result::Result<Option<GoblinRange>, GoblinRefusal>
    ensures { result ≡ build_id_expected file.now.bytes.now file.now.header }
{
    match file.segments() {
        Ok(segments) => match seek_in(file, &Holders::Segments(segments), MOST) {
            (Some(found), _) => found.map(Some),
            (None, left) => id_of_sections(file, left),
        },
        Err(e) => Err(convert_refusal(&e)),
    }
}

/// Stores the range of the build ID: the descriptor of the first note of the segments, and then of the sections, whose
/// type and name say that it is one. It reads 65,536 notes at most.
#[unsafe(no_mangle)]
pub extern "C" fn goblin_build_id(
    file: &GoblinFile<'_>,
    id: &mut GoblinRange,
    why: &mut GoblinRefusal,
) -> u32
    ensures { Stored (build_id_expected file.now.bytes.now file.now.header) id.old why.old result id.new why.new }
{
    store_converted(build_id(file), id, why)
}
