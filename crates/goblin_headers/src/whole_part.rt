//! The number of segments, and headers that count only what lies whole in a cut file: System V gABI, "ELF Header".
ghost use Rattle.std.specs.Prelude.{◌≡◌};
ghost use Rattle.goblin_headers.specs.WholePart.{SectionsOfWhole, SegmentsOfWhole, WholeIsListed, sections_part, segment_count, segment_count_of, segments_part, whole_header_of};

use crate::header::Header;
use crate::program_header::ProgramHeader;
use crate::section_header::SectionHeader;
use goblin_base::container::Ctx;
use goblin_base::error::Result;
use goblin_base::table::{read_at, whole_records};

/// The `e_phnum` of a file whose number of segments is the `sh_info` of section 0: System V gABI,
/// "ELF Header", `PN_XNUM`.
pub const PN_XNUM: u16 = 0xffff;

/// Where the section headers of a file begin, and the number of them that its header states.
#[derive(Debug, Drop)]
pub struct WholePart {
    /// The file offset of the section headers in bytes, or 0, for `e_shoff`.
    pub offset: usize,
    /// The number of section headers, for `e_shnum`.
    pub count: u16,
}

impl SectionHeader {
    /// Returns the part of the section headers that lies whole in the file, from `e_shoff` and `e_shnum`
    /// of the file's header.
    ///
    /// It is the same offset and count if all of them lie in the file, or if the offset is 0. It is 0 and
    /// 0 if the first header doesn't lie in the file. Otherwise it is the same offset, and the number of
    /// headers that lie whole in the file, but at most 0xffff.
    pub fn whole_part(bytes: &[u8], offset: usize, count: u16, ctx: Ctx) -> WholePart
        ensures { result ≡ sections_part bytes.now offset count ctx }
    {
        if offset == 0 {
            return WholePart { offset, count };
        }
        match SectionHeader::count_from(bytes, offset, usize::from(count), ctx) {
            Ok(stated) => {
                let whole = whole_records::<SectionHeader, Ctx>(bytes.len(), offset, stated, ctx);
                let count = if whole == stated {
                    count
                } else {
                    whole.min(0xffff) as u16
                };
                WholePart { offset, count }
            }
            Err(_) => WholePart {
                offset: 0,
                count: 0,
            },
        }
    }
}

impl ProgramHeader {
    /// Returns the number of segments, from `e_phnum` and `e_shoff` of the file's header.
    ///
    /// It is `number`, unless that is 0xffff (`PN_XNUM`): then it is the `sh_info` of the first section
    /// header, which is at the offset `sections`. If that offset is 0 there is no section, and the number
    /// is 0xffff.
    ///
    /// # Errors
    ///
    /// The fault of the first section header, if that is asked for and the bytes don't hold it.
    pub fn count_in(bytes: &[u8], number: u16, sections: usize, ctx: Ctx) -> Result<usize>
        ensures { result ≡ segment_count bytes.now number sections ctx }
    {
        if number != PN_XNUM || sections == 0 {
            return Ok(usize::from(number));
        }
        let first: SectionHeader = read_at(bytes, sections, ctx)?;
        Ok(first.sh_info as usize)
    }

    /// Returns the `e_phnum` of a header that counts only the segments whose headers lie whole in the
    /// file, from `e_phnum`, `e_phoff` and `e_shoff` of the file's header.
    ///
    /// It is `number` if all headers lie in the file, as many as [`ProgramHeader::count_in`] returns.
    /// Otherwise it is the number of headers that lie whole in the file, but at most 0xfffe. If
    /// [`ProgramHeader::count_in`] fails, it is so for 0xffff headers.
    pub fn whole_part(bytes: &[u8], number: u16, offset: usize, sections: usize, ctx: Ctx) -> u16
        ensures { result ≡ segments_part bytes.now number offset sections ctx }
    {
        let most = usize::from(PN_XNUM);
        let (stated, known) = match ProgramHeader::count_in(bytes, number, sections, ctx) {
            Ok(stated) => (stated, true),
            Err(_) => (most, false),
        };
        let whole = whole_records::<ProgramHeader, Ctx>(bytes.len(), offset, stated, ctx);
        if known && whole == stated {
            number
        } else {
            whole.min(most - 1) as u16
        }
    }
}

impl Header {
    /// Returns the number of segments, as [`ProgramHeader::count_in`] does.
    ///
    /// # Errors
    ///
    /// First those of [`Header::ctx`], then those of [`ProgramHeader::count_in`].
    pub fn segment_count(&self, bytes: &[u8]) -> Result<usize>
        ensures { result ≡ segment_count_of bytes.now self.now }
    {
        let ctx = self.ctx()?;
        ProgramHeader::count_in(bytes, self.e_phnum, self.e_shoff as usize, ctx)
    }

    /// Returns a copy of the header that counts only the section headers and program headers that lie
    /// whole in the file: [`SectionHeader::whole_part`] and [`ProgramHeader::whole_part`]. With it the
    /// file's lists of headers are not refused, and a list that was not refused before is the same.
    ///
    /// # Errors
    ///
    /// Those of [`Header::ctx`].
    pub fn whole(&self, bytes: &[u8]) -> Result<Header>
        ensures { result ≡ whole_header_of bytes.now self.now }
    {
        let ctx = self.ctx()?;
        let start = self.e_shoff as usize;
        let sections = SectionHeader::whole_part(bytes, start, self.e_shnum, ctx);
        let offset = self.e_phoff as usize;
        Ok(Header {
            e_shoff: sections.offset as u64,
            e_shnum: sections.count,
            e_phnum: ProgramHeader::whole_part(bytes, self.e_phnum, offset, start, ctx),
            ..*self
        })
    }
}

/// Laws of whole parts, by their numbers and by headers: the list of section headers and that of program
/// headers is not refused. It is the file's own list if that isn't refused.
pub fn laws()
    ensures sections { SectionsOfWhole }
    ensures segments { SegmentsOfWhole }
    ensures headers { WholeIsListed }
{}

/// A law: the number of this module's constant. A call does nothing.
pub fn constants()
    ensures { PN_XNUM ≡ 0xffff }
{}
