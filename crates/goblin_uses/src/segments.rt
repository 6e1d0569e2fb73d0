//! The loaded segments of a file, as in a core: where each lies in memory and in the file.
ghost use Rattle.std.specs.Prelude.{◌≡◌, ◌++◌, ◌-◌, ◌==◌, IfErr, IfOk, OnOk, alloc_error, codes, decimal, filter, length, map, min, string_bytes};
ghost use Rattle.goblin.specs.Texts.{◌&◌, hexadecimal};

use goblin::elf::program_header::{PT_LOAD, ProgramHeader};
use goblin::error::{Error, Result};
use std::alloc::{AllocError, Global};

/// What is shown of a segment.
#[derive(Clone, Copy, Debug, PartialEq)]
pub struct Row {
    /// The virtual address.
    pub address: u64,
    /// The size in memory, in bytes.
    pub size: u64,
    /// The number of its bytes that the file holds.
    pub held: u64,
    /// The offset in the file, in bytes.
    pub offset: u64,
}

/// Returns how many bytes of a segment the file holds: fewer than its file size if the file is cut.
pub fn held(bytes: &[u8], segment: &ProgramHeader) -> u64
    ensures { let s = segment.now in result ≡ min s.p_filesz (length bytes.now - s.p_offset) }
{
    let left = (bytes.len() as u64).saturating_sub(segment.p_offset);
    segment.p_filesz.min(left)
}

/// Returns the rows of the loaded segments, in order. The only error is out of memory.
pub fn rows(alloc: Global, bytes: &[u8], segments: &[ProgramHeader]) -> Result<Vec<Row>>
    ensures ok { IfOk result (λ rows. rows.items ≡ map (λ s. record {
      address = s.p_vaddr;
      size = s.p_memsz;
      held = min s.p_filesz (length bytes.now - s.p_offset);
      offset = s.p_offset;
    }) (filter (λ s. s.p_type == 1) segments.now)) }
    ensures err { IfErr result (λ e. e ≡ Error.Memory alloc_error) }
{
    let loaded = segments.iter().filter(|segment| segment.p_type == PT_LOAD);
    let rows = loaded.map(|segment| Row {
        address: segment.p_vaddr,
        size: segment.p_memsz,
        held: held(bytes, segment),
        offset: segment.p_offset,
    });
    Ok(rows.collect(alloc)?)
}

/// Adds a line for each loaded segment. The only error is out of memory.
pub fn push_segments(
    alloc: Global,
    text: &mut String,
    bytes: &[u8],
    segments: &[ProgramHeader],
) -> Result<()>
    ensures { IfErr result (λ e. e ≡ Error.Memory alloc_error) }
{
    for row in &rows(alloc, bytes, segments)? {
        push_line(text, row)?;
    }
    Ok(())
}

// Adds the line of one segment.
fn push_line(text: &mut String, row: &Row) -> std::result::Result<(), AllocError>
    ensures { OnOk result (string_bytes text.new ≡ string_bytes text.old ++ (codes "0x"
        & hexadecimal row.now.address & codes ": " & decimal row.now.size & codes " bytes, "
        & decimal row.now.held & codes " in the file at " & decimal row.now.offset & codes "\n")) }
{
    let address = row.address;
    let size = row.size;
    let held = row.held;
    let offset = row.offset;
    write!(
        text,
        "0x{address:x}: {size} bytes, {held} in the file at {offset}\n"
    )
}
