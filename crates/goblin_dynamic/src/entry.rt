//! Entries of the dynamic section: System V gABI, "Dynamic Section" (`Elf32_Dyn` and `Elf64_Dyn`).
ghost use Rattle.std.specs.Prelude.{◌≡◌, [], ◌∷◌};
ghost use Rattle.goblin_base.specs.Common.{ComparesAndClones, HasFields, IsSameInEachClass, zero};
ghost use Rattle.goblin_base.specs.declared.container.Container.TheVariants as class;
ghost use Rattle.goblin_dynamic.specs.Dyn.{entry, entry_laws, entry_layout};

use goblin_base::container::{Container, Ctx};
use goblin_base::laid_out::LaidOut;
use goblin_base::number::{get_u32, get_u64, put_u32, put_u64};

/// An entry of either class.
#[derive(Clone, Copy, Debug, Default, PartialEq)]
pub struct Dyn {
    /// What the entry says: one of the `DT_` constants, or a number of a system or a processor.
    pub d_tag: u64,
    /// A number, an address or an offset in the string table, as the tag says.
    pub d_val: u64,
}

/// The size of an entry of the 32-bit class in bytes.
pub const SIZEOF_DYN32: usize = 4 + 4;

/// The size of an entry of the 64-bit class in bytes.
pub const SIZEOF_DYN64: usize = 8 + 8;

/// The fields of the 32-bit class are widened, and are written by their low four bytes.
impl LaidOut<Ctx> for Dyn {
    ghost layout = { λ ctx. entry_layout ctx.container ctx.le };

    fn size_in(ctx: Ctx) -> usize {
        match ctx.container {
            Container::Little => SIZEOF_DYN32,
            Container::Big => SIZEOF_DYN64,
        }
    }

    #[inline]
    fn get(bytes: &[u8], ctx: Ctx) -> Dyn {
        match ctx.container {
            Container::Little => Dyn {
                d_tag: u64::from(get_u32(bytes, 0, ctx.le)),
                d_val: u64::from(get_u32(bytes, 4, ctx.le)),
            },
            Container::Big => Dyn {
                d_tag: get_u64(bytes, 0, ctx.le),
                d_val: get_u64(bytes, 8, ctx.le),
            },
        }
    }

    fn put(self, bytes: &mut [u8], ctx: Ctx) {
        match ctx.container {
            Container::Little => {
                put_u32(bytes, 0, (self.d_tag % 0x1_0000_0000) as u32, ctx.le);
                put_u32(bytes, 4, (self.d_val % 0x1_0000_0000) as u32, ctx.le);
            }
            Container::Big => {
                put_u64(bytes, 0, self.d_tag, ctx.le);
                put_u64(bytes, 8, self.d_val, ctx.le);
            }
        }
    }

    ghost layout_laws = { λ ctx. entry_laws ctx.container ctx.le };
}

/// Laws of entries: their sizes. A list of entries that fit both classes is read back the same in each class and byte
/// order. Where each field lies in each class, and which low bits of it are kept. Both fields of the default entry are
/// 0. `==` is true exactly if both fields are equal. `clone` returns the entry, and never fails.
#[tactic(auto, using(crate::specs::Dyn::same_entries))]
pub fn laws()
    ensures sizes { (SIZEOF_DYN32 ≡ 8) × (SIZEOF_DYN64 ≡ 16) }
    ensures same { IsSameInEachClass entry_layout }
    ensures places32 { HasFields
        (λ order. ⟦<Dyn as LaidOut<Ctx>>⟧.layout (record { container = class.Little; le = order }))
        (λ d. d.d_tag ∷ d.d_val ∷ []) ((0, 4) ∷ (4, 4) ∷ []) }
    ensures places64 { HasFields
        (λ order. ⟦<Dyn as LaidOut<Ctx>>⟧.layout (record { container = class.Big; le = order }))
        (λ d. d.d_tag ∷ d.d_val ∷ []) ((0, 8) ∷ (8, 8) ∷ []) }
    ensures zeros { (d : Dyn) → ⟦<Dyn as Default>⟧.is_default d → d ≡ zero (entry 8) }
    ensures derived { ComparesAndClones ⟦<Dyn as PartialEq>⟧ ⟦<Dyn as Clone>⟧ }
{}
