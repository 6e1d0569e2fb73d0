//! Laws of the calls: what they store is what the library reads, and what they put is read again.
ghost use Rattle.goblin_c.specs.Buffers.{BufferIsFilled, TextIsClosed};
ghost use Rattle.goblin_c.specs.Dynamic.{DynamicLiesInFile, EntriesAreCounted, EntriesAreListed, ValueIsTheFirst};
ghost use Rattle.goblin_c.specs.File.{ContextIsTheHeaders, HeadersAreRead, WholeHeaderIsTheLibrarys};
ghost use Rattle.goblin_c.specs.Laws.{BytesAreFound, BytesLieInFile, CountsStay, EmptyHaveNoBytes, FilledByIndex, ItemsAreWhole, PutsAreRead, PutsChangeOne, ReadsArePut, TextIsFound, UnfitAreRefused, WholeHeaderKeeps};
ghost use Rattle.goblin_c.specs.Notes.{NotesAreItems, NotesAreText, NotesInARow, NotesLieInFile, NotesRefuseThere, PartsAreNumbered, WholeNotesAreNotes};
ghost use Rattle.goblin_c.specs.Numbers.{NumbersAreFound, NumbersArePut, NumbersInRangesArePut, NumbersLieInRange, PartsLieInFile};
ghost use Rattle.goblin_c.specs.Relocs.{RelocsByIndex};
ghost use Rattle.goblin_c.specs.Results.{KindsAreAboveOne};
ghost use Rattle.goblin_c.specs.Sections.{NamesByIndex, SectionsByIndex, SectionsByName, SectionsByType, TablesByIndex};
ghost use Rattle.goblin_c.specs.Segments.{AddressesAreLoaded, SegmentsByIndex};
ghost use Rattle.goblin_c.specs.Strings.{StringsAreBytes, StringsAreCompared, StringsAreThere, StringsLieInFile, BytesAreText};
ghost use Rattle.goblin_c.specs.Symbols.{SymbolsByIndex, SymbolsByName};
ghost use Rattle.goblin_c.specs.TextLaws.{PartsHaveSameText, RefusalsHaveSameText};

/// Laws: calls of `goblin_note_utf8` at a range's start and then at each `next` store exactly the notes of the
/// library's iterator over the range, in its order, up to the end or the first refusal. `goblin_note` stores each of
/// them, and no other note whose name is UTF-8. The ranges that it stores are the note's name and descriptor, and lie
/// in the file. `next` is past the note's header. If the descriptor of a note of `goblin_note_utf8` lies in the range,
/// `goblin_note_whole` stores the same note. The parts that it names have the numbers of `goblin.h`.
#[tactic(auto, using(crate::proofs::NoteLemmas::note_laws))]
pub fn notes()
    ensures first { NotesAreItems }
    ensures row { NotesInARow }
    ensures within { NotesLieInFile }
    ensures whole { WholeNotesAreNotes }
    ensures text { NotesAreText }
    ensures numbers { PartsAreNumbered }
{}

/// Laws: for each refusal that a call stores, `goblin_refusal_to_str` writes the text that the library's
/// own error prints. So it does for those of `goblin_note_whole`, whose item is the part. Those that `goblin_build_id`
/// stores are of the lists of headers or of `goblin_note_whole`; no law says so.
pub fn texts()
    ensures calls { RefusalsHaveSameText }
    ensures notes { PartsHaveSameText }
{}

/// Law: the status of a call shows whether it stored an item, is past the end or is refused: the kind of
/// a refusal is above 1.
#[tactic(auto, using(crate::proofs::BufferLemmas::kinds_are_above_one))]
pub fn kinds()
    ensures { KindsAreAboveOne }
{}

/// Law: the header that `goblin_header` stores has, passed to any other call, the class and the byte
/// order that the library reads in the file's own header.
pub fn contexts()
    ensures { ContextIsTheHeaders }
{}

/// Laws: calls of `goblin_section`, `goblin_segment`, `goblin_symbol` or `goblin_reloc` with that header
/// at 0, 1, 2 and so on store the list that the library reads at once, in its order, and then return 1,
/// the end. If the list is refused, each index has that refusal. `goblin_section_count`,
/// `goblin_segment_count`, `goblin_symbol_count` and `goblin_reloc_count` store the number of items.
pub fn indices()
    ensures sections { SectionsByIndex }
    ensures segments { SegmentsByIndex }
    ensures symbols { SymbolsByIndex }
    ensures relocs { RelocsByIndex }
{}

/// Laws: with the header that `goblin_whole_header` stores, `goblin_section`, `goblin_segment` and the calls that count
/// them are not refused. What they store with the plain header where it is not refused, they store with this one. Only
/// `e_shoff`, `e_shnum` and `e_phnum` may differ from the plain one. Of a file's own header it is the library's.
pub fn whole()
    ensures keeps { WholeHeaderKeeps }
    ensures same { WholeHeaderIsTheLibrarys }
{}

/// Laws: `goblin_linked_section` stores what `goblin_section` stores at an index, but nothing at index 0 or of a
/// section without bytes in the file. `goblin_names_section` stores the table at the index in the header,
/// or if that is 0xffff at the index that the first section links to.
#[tactic(auto, using(crate::proofs::ListLemmas::by_index))]
pub fn names()
    ensures tables { TablesByIndex }
    ensures names { NamesByIndex }
{}

/// Laws: `goblin_sections`, `goblin_segments`, `goblin_symbols` and `goblin_relocs` store from each index on what the
/// calls for one item store there, one after another, and at least one before the end. The buffer holds as many
/// as fit, and is unchanged after them. So it is with each text. If the buffer is longer than the text, a zero byte
/// stands after the text.
pub fn buffers()
    ensures items { FilledByIndex }
    ensures held { BufferIsFilled }
    ensures closed { TextIsClosed }
{}

/// Laws: the range that `goblin_string_utf8` stores has the string that the library reads there, and lies in
/// the file.
#[tactic(auto, using(crate::proofs::StringLemmas::strings_are_there, crate::proofs::StringLemmas::strings_lie_in_file))]
pub fn strings()
    ensures there { StringsAreThere }
    ensures within { StringsLieInFile }
{}

/// Laws: `goblin_string_is` and `goblin_string_starts` return true exactly if `goblin_string` stores a range whose
/// bytes are the name, or start with it. With a name that is UTF-8 `goblin_section_by_name` and `goblin_symbol_by_name`
/// find what has the name by strings that are read as UTF-8.
#[tactic(auto, using(crate::proofs::StringLemmas::strings_are_compared, crate::proofs::StringLemmas::text_is_found))]
pub fn comparisons()
    ensures compared { StringsAreCompared }
    ensures text { TextIsFound }
{}

/// Laws: `goblin_section_by_name` and `goblin_symbol_by_name` store the index of the first item from an index on whose
/// string, at the range that `goblin_string` stores, has the bytes of the name, and return the end if
/// there is none. The item that is stored with the index is the one that `goblin_section` or `goblin_symbol` stores
/// there. They refuse what the calls for one item refuse at each index, and then what those for one string do.
#[tactic(auto, using(crate::proofs::StringLemmas::sections_by_name, crate::proofs::StringLemmas::symbols_by_name))]
pub fn searches()
    ensures sections { SectionsByName }
    ensures symbols { SymbolsByName }
{}

/// Law: `goblin_section_by_type` stores the first section from an index on that has the type, as
/// `goblin_section` stores it, with its index, and returns the end if there is none.
#[tactic(auto, using(crate::proofs::ListLemmas::sections_by_type))]
pub fn types()
    ensures { SectionsByType }
{}

/// Laws: the ranges that `goblin_section_range`, `goblin_segment_range` and `goblin_string` store lie
/// in the file. A section of type 0 or 8 or without a size has none, nor has a segment of type 0 or without a size. If
/// `goblin_string_utf8` stores a range, `goblin_string` stores the same one, and the reverse if its bytes are UTF-8.
#[tactic(auto, using(crate::proofs::StringLemmas::place_laws))]
pub fn places()
    ensures within { BytesLieInFile }
    ensures none { EmptyHaveNoBytes }
    ensures same { StringsAreBytes }
    ensures text { BytesAreText }
{}

/// Law: `goblin_section_range` stores the range of a section that has another type than 0 and 8 and a size, and
/// `goblin_segment_range` that of a segment that has another type than 0 and a size, if the range lies in the file.
/// Else they refuse it at its offset.
#[tactic(auto, using(crate::proofs::PlaceLemmas::bytes_are_found))]
pub fn bytes()
    ensures { BytesAreFound }
{}

/// Laws: a number that `goblin_number_in` stores lies in the range, and the range in the file. `goblin_number` stores
/// the same one at its offset in the file. One of 1, 2, 4 or 8 bytes that lies so is stored. Else the call refuses at
/// the offset of the range, if this doesn't lie in the file, and then at that of the number.
#[tactic(auto, using(crate::proofs::PlaceLemmas::numbers_are_found, crate::proofs::PlaceLemmas::numbers_lie_in_range))]
pub fn numbers_in_ranges()
    ensures within { NumbersLieInRange }
    ensures found { NumbersAreFound }
{}

/// Law: a refusal of `goblin_note_whole` has the note's offset.
#[tactic(auto, using(crate::proofs::PlaceLemmas::notes_refuse_there))]
pub fn note_refusals()
    ensures { NotesRefuseThere }
{}

/// Law: the offset that `goblin_address_to_offset` stores is that of a byte of the file, by the first segment that
/// loads the address. The call returns the end if no segment does. If the file has no byte there, the refusal has the
/// same offset, at most `u64::MAX`.
#[tactic(auto, using(crate::proofs::PlaceLemmas::addresses_are_loaded))]
pub fn addresses()
    ensures { AddressesAreLoaded }
{}

/// Laws: the range that `goblin_range_in_file` stores lies in the file, and has the same bytes of the file as the range
/// that it is given. A range that lies in the file stays the same.
#[tactic(auto, using(crate::proofs::PlaceLemmas::parts_lie_in_file))]
pub fn parts()
    ensures { PartsLieInFile }
{}

/// Laws: the entries that `goblin_dynamic_entries` stores from an index on are those that are left there of the
/// library's list, if the list does not end before the index. `goblin_dynamic_count` stores their number. The value
/// that `goblin_dynamic_value` stores from index 0 on is the library's. The ranges that `goblin_dynamic` and
/// `goblin_dynamic_strings` store lie in the file.
#[tactic(auto, using(crate::proofs::DynamicLemmas::dynamic_laws))]
pub fn dynamic()
    ensures entries { EntriesAreListed }
    ensures count { EntriesAreCounted }
    ensures value { ValueIsTheFirst }
    ensures within { DynamicLiesInFile }
{}

/// Laws: what `goblin_put_section`, `goblin_put_segment`, `goblin_put_symbol` or `goblin_put_reloc` puts at an index is
/// what the call that reads stores at this index then, if the list has as many items as before: in a file of the same
/// length a range has as many symbols and relocations. Only the bytes of the record change. An item that a call stores
/// changes no byte if it is put at its index, and a section header, a program header and a symbol fit then. The structs
/// for C have all of each item that is read.
#[tactic(auto, using(crate::proofs::PutLemmas::put_laws, crate::proofs::ListLemmas::items_are_whole))]
pub fn puts()
    ensures there { PutsAreRead }
    ensures one { PutsChangeOne }
    ensures back { ReadsArePut }
    ensures counts { CountsStay }
    ensures whole { ItemsAreWhole }
{}

/// Laws: a number that `goblin_put_number` puts is what `goblin_number` stores then, and no other byte changes. A
/// number that `goblin_number` stores fits, and changes no byte where it is put. Where `goblin_number_in` stores a
/// number of a range, `goblin_put_number_in` puts one as `goblin_put_number` does at its offset in the file.
#[tactic(auto, using(crate::proofs::PutLemmas::number_laws))]
pub fn put_numbers()
    ensures file { NumbersArePut }
    ensures ranges { NumbersInRangesArePut }
{}

/// Law: a header that `goblin_put_header` puts is what `goblin_header` stores then.
#[tactic(auto, using(crate::proofs::PutLemmas::headers_are_read))]
pub fn put_headers()
    ensures { HeadersAreRead }
{}

/// Law: an item or a number that doesn't fit is refused with the kind 24, the value that doesn't fit its field, and the
/// offset of this field.
#[tactic(auto, using(crate::proofs::PutLemmas::unfit_are_refused))]
pub fn refusals()
    ensures { UnfitAreRefused }
{}
