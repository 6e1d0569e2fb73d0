//! One of each struct that calls share with C, with numbers by which C can check the place of each field.
ghost use Rattle.goblin_c.specs.Layout.{each_byte, marked, range_marked};
ghost use Rattle.std.specs.Prelude.{if◌then◌else◌, nat_lt, ◌<◌, ◌==◌, ◌^◌, ◌≡◌};

use crate::dynamic::GoblinDyn;
use crate::file::{GoblinFile, GoblinHeader};
use crate::notes::GoblinNote;
use crate::numbers::GoblinRange;
use crate::relocs::GoblinReloc;
use crate::results::GoblinRefusal;
use crate::sections::GoblinSection;
use crate::segments::GoblinSegment;
use crate::symbols::GoblinSymbol;

/// The sizes of the structs in bytes, and one of each, in which each byte of the first field is 1, of
/// the second 2, and so on.
#[repr(C)]
#[derive(Clone, Copy, Debug)]
pub struct GoblinLayout {
    pub size_of_refusal: u64,
    pub size_of_range: u64,
    pub size_of_header: u64,
    pub size_of_section: u64,
    pub size_of_segment: u64,
    pub size_of_symbol: u64,
    pub size_of_reloc: u64,
    pub size_of_note: u64,
    pub size_of_dyn: u64,
    pub size_of_file: u64,
    pub refusal: GoblinRefusal,
    pub range: GoblinRange,
    pub header: GoblinHeader,
    pub section: GoblinSection,
    pub segment: GoblinSegment,
    pub symbol: GoblinSymbol,
    pub reloc: GoblinReloc,
    pub note: GoblinNote,
    pub entry: GoblinDyn,
}

/// Returns the sizes, and one of each struct.
pub fn marked_layout() -> GoblinLayout
    ensures { result ≡ marked }
{
    GoblinLayout {
        size_of_refusal: size_of::<GoblinRefusal>() as u64,
        size_of_range: size_of::<GoblinRange>() as u64,
        size_of_header: size_of::<GoblinHeader>() as u64,
        size_of_section: size_of::<GoblinSection>() as u64,
        size_of_segment: size_of::<GoblinSegment>() as u64,
        size_of_symbol: size_of::<GoblinSymbol>() as u64,
        size_of_reloc: size_of::<GoblinReloc>() as u64,
        size_of_note: size_of::<GoblinNote>() as u64,
        size_of_dyn: size_of::<GoblinDyn>() as u64,
        size_of_file: size_of::<GoblinFile>() as u64,
        refusal: GoblinRefusal {
            kind: word(1),
            item: word(2),
            first: wide(3),
            second: wide(4),
            third: wide(5),
            fourth: wide(6),
            offset: wide(7),
        },
        range: marked_range(1),
        header: GoblinHeader {
            e_entry: wide(1),
            e_phoff: wide(2),
            e_shoff: wide(3),
            e_version: word(4),
            e_flags: word(5),
            e_type: half(6),
            e_machine: half(7),
            e_ehsize: half(8),
            e_phentsize: half(9),
            e_phnum: half(10),
            e_shentsize: half(11),
            e_shnum: half(12),
            e_shstrndx: half(13),
            ei_class: 14,
            ei_data: 15,
            ei_version: 16,
            ei_osabi: 17,
            ei_abiversion: 18,
        },
        section: GoblinSection {
            sh_name: word(1),
            sh_type: word(2),
            sh_flags: wide(3),
            sh_addr: wide(4),
            file: marked_range(5),
            sh_link: word(7),
            sh_info: word(8),
            sh_addralign: wide(9),
            sh_entsize: wide(10),
        },
        segment: GoblinSegment {
            p_type: word(1),
            p_flags: word(2),
            file: marked_range(3),
            p_vaddr: wide(5),
            p_paddr: wide(6),
            p_memsz: wide(7),
            p_align: wide(8),
        },
        symbol: GoblinSymbol {
            st_name: word(1),
            st_info: 2,
            st_other: 3,
            st_shndx: half(4),
            st_value: wide(5),
            st_size: wide(6),
        },
        reloc: GoblinReloc {
            r_offset: wide(1),
            r_type: word(2),
            r_sym: word(3),
            r_addend: wide(4) as i64,
        },
        note: GoblinNote {
            name: marked_range(1),
            desc: marked_range(3),
            next: wide(5),
            n_type: word(6),
        },
        entry: GoblinDyn {
            d_tag: wide(1),
            d_val: wide(2),
        },
    }
}

/// Stores the sizes of the structs, and one of each, whose fields are numbered, if so many bytes hold them. Returns how
/// many bytes are stored. A later version may store more for a larger size.
#[unsafe(no_mangle)]
pub extern "C" fn goblin_layout(layout: &mut GoblinLayout, size: usize) -> usize
    ensures stored { layout.new ≡ (if result == 0 then layout.old else marked) }
    ensures value { result ≡ (if nat_lt size 432 then 0 else 432) }
{
    let own = size_of::<GoblinLayout>();
    if size < own {
        return 0;
    }
    *layout = marked_layout();
    own
}

// Returns a range whose fields have a mark and the next one.
fn marked_range(mark: u8) -> GoblinRange
    requires { mark < 2 ^ 7 }
    ensures { result ≡ range_marked mark }
{
    GoblinRange::new(wide(mark), wide(mark + 1))
}

// Returns the number of eight bytes, each of which is a mark.
fn wide(mark: u8) -> u64
    ensures { result ≡ each_byte 8 mark }
{
    mark as u64 * 0x0101_0101_0101_0101
}

// Returns the number of four bytes, each of which is a mark.
fn word(mark: u8) -> u32
    ensures { result ≡ each_byte 4 mark }
{
    mark as u32 * 0x0101_0101
}

// Returns the number of two bytes, each of which is a mark.
fn half(mark: u8) -> u16
    ensures { result ≡ each_byte 2 mark }
{
    mark as u16 * 0x0101
}
