//! Tests whether each field of a record is in the range of its width, so that the record is read back as it was
//! written.
ghost use Rattle.std.specs.Prelude.{◌↔◌, ◌<◌, ◌^◌, IsTrue, true};
ghost use Rattle.goblin_base.specs.Layout.{word_size};
ghost use Rattle.goblin_records.specs.Reloc.{AddendFits, RelocFits, StoredFits, reloc_layout_in};
ghost use Rattle.goblin_records.specs.Sym.{sym_layout};

use crate::reloc::{Reloc, RelocCtx};
use crate::sym::Sym;
use crate::{sym32, sym64};
use goblin_base::container::{Container, Ctx};
use goblin_base::number::is_word;

impl Sym {
    /// Reports whether each field is in the range that a class has for it: then the symbol is read back as it was
    /// written.
    pub fn fits(&self, ctx: Ctx) -> bool
        ensures { IsTrue result ↔ (sym_layout ctx.container ctx.le).Fits self.now }
    {
        let low: Sym = match ctx.container {
            Container::Little => sym32::Sym::from(*self).into(),
            Container::Big => sym64::Sym::from(*self).into(),
        };
        *self == low
    }
}

// Reports whether an addend is there exactly if one is written, and fits its width.
fn addend_fits(addend: Option<i64>, is_rela: bool, class: Container) -> bool
    ensures { IsTrue result ↔ AddendFits is_rela (word_size class) addend }
{
    match (addend, class) {
        (None, _) => !is_rela,
        (Some(addend), Container::Little) => {
            is_rela && addend >= i64::from(i32::MIN) && addend <= i64::from(i32::MAX)
        }
        (Some(_), Container::Big) => is_rela,
    }
}

impl Reloc {
    // Reports whether each field is in the range that a class has for it.
    fn fits_class(self, is_rela: bool, class: Container) -> bool
        ensures { IsTrue result ↔ RelocFits is_rela class self }
    {
        match class {
            Container::Little => {
                is_word(self.r_offset)
                    && self.r_sym < 1 << 24
                    && self.r_type < 1 << 8
                    && addend_fits(self.r_addend, is_rela, class)
            }
            Container::Big => {
                is_word(self.r_sym as u64) && addend_fits(self.r_addend, is_rela, class)
            }
        }
    }

    // Reports whether each field of a relocation of a MIPS64 file is in range: symbol and type are words, and what is
    // stored for them fits.
    fn fits_pair(self, is_rela: bool, class: Container) -> bool
        ensures { IsTrue result ↔ StoredFits true is_rela class self }
    {
        is_word(self.r_sym as u64) && self.stored(true).fits_class(is_rela, class)
    }

    /// Reports whether each field of the relocation that is stored is in the range that the context has for it, and
    /// whether there is an addend exactly if one is written: then the relocation is read back as it was written.
    pub fn fits(&self, ctx: RelocCtx) -> bool
        ensures { IsTrue result ↔ (reloc_layout_in ctx).Fits self.now }
    {
        let (is_rela, class) = (ctx.is_rela, ctx.ctx.container);
        if ctx.is_mips64el {
            self.fits_pair(is_rela, class)
        } else {
            self.fits_class(is_rela, class)
        }
    }
}
