//! goblin for C: the items of an ELF file, over the file's bytes. No call allocates, and none depends on
//! an earlier one. `faces/c/goblin.h` declares each call, and says what it returns and stores.
#![tactic(auto)]

ghost use Rattle.std.specs.Prelude.{◌≡◌};

mod build_id;
mod dynamic;
mod file;
mod items;
mod laws;
mod layout;
mod misfit;
mod names;
mod notes;
mod numbers;
mod puts;
mod relocs;
mod results;
mod sections;
mod segments;
mod strings;
mod symbols;
#[cfg(test)]
mod tests;
mod texts;

pub use build_id::goblin_build_id;
pub use dynamic::{
    goblin_dynamic, goblin_dynamic_count, goblin_dynamic_entries, goblin_dynamic_strings,
    goblin_dynamic_value, goblin_put_dynamic_entry,
};
pub use file::{goblin_file, goblin_put_header, goblin_whole_header};
pub use layout::goblin_layout;
pub use names::{
    goblin_bind_to_str, goblin_class_to_str, goblin_et_to_str, goblin_machine_to_str,
    goblin_note_type_to_str, goblin_pt_to_str, goblin_shf_to_str, goblin_sht_to_str,
    goblin_type_to_str, goblin_visibility_to_str,
};
pub use notes::{goblin_note, goblin_note_utf8, goblin_note_whole};
pub use numbers::{
    goblin_number, goblin_number_in, goblin_put_number, goblin_put_number_in, goblin_range_in_file,
};
pub use relocs::{goblin_put_reloc, goblin_reloc, goblin_reloc_count, goblin_relocs};
pub use sections::{
    goblin_linked_section, goblin_names_section, goblin_put_section, goblin_section,
    goblin_section_by_name, goblin_section_by_type, goblin_section_count, goblin_section_range,
    goblin_sections,
};
pub use segments::{
    goblin_address_to_offset, goblin_put_segment, goblin_segment, goblin_segment_count,
    goblin_segment_range, goblin_segments,
};
pub use strings::{
    goblin_closed_strings, goblin_string, goblin_string_closed, goblin_string_is,
    goblin_string_starts, goblin_string_utf8, goblin_strings,
};
pub use symbols::{
    goblin_put_symbol, goblin_symbol, goblin_symbol_by_address, goblin_symbol_by_name,
    goblin_symbol_count, goblin_symbols,
};
pub use texts::goblin_refusal_to_str;

/// The version of these calls and of their structs.
pub const VERSION: u32 = 8;

/// Returns the version of the library.
#[unsafe(no_mangle)]
pub extern "C" fn goblin_version() -> u32
    ensures number { result ≡ 8 }
    ensures constant { VERSION ≡ 8 }
{
    VERSION
}
