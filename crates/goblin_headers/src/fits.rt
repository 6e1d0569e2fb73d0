//! Tests whether each field of a header is in the range of its width, so that the header is read back as it was
//! written.
ghost use Rattle.std.specs.Prelude.{◌↔◌, ◌<◌, ◌^◌, IsTrue};
ghost use Rattle.goblin_headers.specs.Header.{HeaderFits};
ghost use Rattle.goblin_headers.specs.ProgramHeader.{program_header_layout};
ghost use Rattle.goblin_headers.specs.SectionHeader.{section_header_layout};

use crate::header::Header;
use crate::program_header::ProgramHeader;
use crate::section_header::SectionHeader;
use crate::{program_header32, program_header64, section_header32, section_header64};
use goblin_base::container::{Container, Ctx};
use goblin_base::number::is_word;

impl SectionHeader {
    /// Reports whether each field is in the range that a class has for it: then the section header is read back as it
    /// was written.
    pub fn fits(&self, ctx: Ctx) -> bool
        ensures { IsTrue result ↔ (section_header_layout ctx.container ctx.le).Fits self.now }
    {
        let own = SectionHeader { ..*self };
        let low: SectionHeader = match ctx.container {
            Container::Little => section_header32::SectionHeader::from(own).into(),
            Container::Big => section_header64::SectionHeader::from(own).into(),
        };
        *self == low
    }
}

impl ProgramHeader {
    /// Reports whether each field is in the range that a class has for it: then the program header is read back as it
    /// was written.
    pub fn fits(&self, ctx: Ctx) -> bool
        ensures { IsTrue result ↔ (program_header_layout ctx.container ctx.le).Fits self.now }
    {
        let own = ProgramHeader { ..*self };
        let low: ProgramHeader = match ctx.container {
            Container::Little => program_header32::ProgramHeader::from(own).into(),
            Container::Big => program_header64::ProgramHeader::from(own).into(),
        };
        *self == low
    }
}

// Reports whether the numbers of a header whose width depends on the class fit the 32-bit class.
fn fits_class32(header: Header) -> bool
    ensures { IsTrue result ↔ (header.e_entry < 256 ^ 4) × (header.e_phoff < 256 ^ 4) × (header.e_shoff < 256 ^ 4) }
{
    is_word(header.e_entry) && is_word(header.e_phoff) && is_word(header.e_shoff)
}

// Reports whether each field of a header after its identification fits a class.
fn fits_class(header: Header, container: Container) -> bool
    ensures { IsTrue result ↔ HeaderFits container header }
{
    match container {
        Container::Little => fits_class32(header),
        Container::Big => true,
    }
}

impl Header {
    /// Reports whether each field after the identification is in the range that a class has for it: then the header is
    /// read back as it was written, if its identification names the class.
    pub fn fits(&self, container: Container) -> bool
        ensures { IsTrue result ↔ HeaderFits container self.now }
    {
        fits_class(*self, container)
    }
}
