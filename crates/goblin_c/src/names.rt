//! The names of numbers, written for C.
ghost use Rattle.goblin.specs.HeaderNames.{class_name, file_type_name};
ghost use Rattle.goblin.specs.Machines.{machine_name};
ghost use Rattle.goblin.specs.NoteType.{note_type_name};
ghost use Rattle.goblin.specs.SectionNames.{section_name};
ghost use Rattle.goblin.specs.SegmentNames.{segment_name};
ghost use Rattle.goblin.specs.SymParts.{bind_name, type_name, visibility_name};
ghost use Rattle.goblin_c.specs.Buffers.{WritesText};
ghost use Rattle.goblin_c.specs.Texts.{flag_name};
ghost use Rattle.std.specs.Prelude.{◌≡◌};

use crate::notes::note_type;
use crate::texts::write_text;
use goblin::elf::header::{class_to_str, et_to_str, machine_to_str};
use goblin::elf::program_header::pt_to_str;
use goblin::elf::section_header::{shf_to_str, sht_to_str};
use goblin::elf::sym::{bind_to_str, type_to_str, visibility_to_str};

/// Writes the name of a class.
#[unsafe(no_mangle)]
pub extern "C" fn goblin_class_to_str(ei_class: u8, text: &mut [u8]) -> u64
    ensures { WritesText (class_name ei_class) text.old result text.new }
{
    write_text(class_to_str(ei_class), text)
}

/// Writes the name of a file's type.
#[unsafe(no_mangle)]
pub extern "C" fn goblin_et_to_str(e_type: u16, text: &mut [u8]) -> u64
    ensures { WritesText (file_type_name e_type) text.old result text.new }
{
    write_text(et_to_str(e_type), text)
}

/// Writes the name of a machine.
#[unsafe(no_mangle)]
pub extern "C" fn goblin_machine_to_str(e_machine: u16, text: &mut [u8]) -> u64
    ensures { WritesText (machine_name e_machine) text.old result text.new }
{
    write_text(machine_to_str(e_machine), text)
}

/// Writes the name of a segment's type.
#[unsafe(no_mangle)]
pub extern "C" fn goblin_pt_to_str(p_type: u32, text: &mut [u8]) -> u64
    ensures { WritesText (segment_name p_type) text.old result text.new }
{
    write_text(pt_to_str(p_type), text)
}

/// Writes the name of a section's type.
#[unsafe(no_mangle)]
pub extern "C" fn goblin_sht_to_str(sh_type: u32, text: &mut [u8]) -> u64
    ensures { WritesText (section_name sh_type) text.old result text.new }
{
    write_text(sht_to_str(sh_type), text)
}

/// Writes the name of one flag of a section.
#[unsafe(no_mangle)]
pub extern "C" fn goblin_shf_to_str(flag: u64, text: &mut [u8]) -> u64
    ensures { WritesText (flag_name flag) text.old result text.new }
{
    write_text(flag_name(flag), text)
}

// Returns the name of one flag of a section. Those of more than 32 bits have none.
fn flag_name(flag: u64) -> &'static str
    ensures { result.now ≡ flag_name flag }
{
    let low = if flag < 1 << 32 { flag as u32 } else { 0 };
    shf_to_str(low)
}

/// Writes the name of a symbol's binding.
#[unsafe(no_mangle)]
pub extern "C" fn goblin_bind_to_str(binding: u8, text: &mut [u8]) -> u64
    ensures { WritesText (bind_name binding) text.old result text.new }
{
    write_text(bind_to_str(binding), text)
}

/// Writes the name of a symbol's type.
#[unsafe(no_mangle)]
pub extern "C" fn goblin_type_to_str(typ: u8, text: &mut [u8]) -> u64
    ensures { WritesText (type_name typ) text.old result text.new }
{
    write_text(type_to_str(typ), text)
}

/// Writes the name of a symbol's visibility.
#[unsafe(no_mangle)]
pub extern "C" fn goblin_visibility_to_str(visibility: u8, text: &mut [u8]) -> u64
    ensures { WritesText (visibility_name visibility) text.old result text.new }
{
    write_text(visibility_to_str(visibility), text)
}

/// Writes the name of a note's type, whose meaning depends on the note's name.
#[unsafe(no_mangle)]
pub extern "C" fn goblin_note_type_to_str(name: &[u8], n_type: u32, text: &mut [u8]) -> u64
    ensures { WritesText (note_type_name name.now n_type) text.old result text.new }
{
    write_text(note_type(name, n_type), text)
}
