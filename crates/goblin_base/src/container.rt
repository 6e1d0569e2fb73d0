//! The class and the byte order of a file: System V gABI, "ELF Identification" (`EI_CLASS` and
//! `EI_DATA`).
ghost use Rattle.std.specs.Prelude.{◌≡◌, ◌↔◌, IsTrue};
ghost use Rattle.goblin_base.specs.Common.{word_size, ComparesAndClones};

/// The byte order of numbers.
#[derive(Clone, Copy, Debug, Default, PartialEq)]
pub enum Endian {
    /// Little endian (`ELFDATA2LSB`).
    #[default]
    Little,
    /// Big endian (`ELFDATA2MSB`).
    Big,
}

/// Little endian.
pub const LE: Endian = Endian::Little;
/// Big endian.
pub const BE: Endian = Endian::Big;

impl Endian {
    /// Reports whether the order is little endian.
    pub fn is_little(&self) -> bool
        ensures { IsTrue result ↔ (self.now ≡ Endian.Little) }
    {
        *self == Endian::Little
    }
}

/// The class of a file. It decides how wide addresses and offsets are.
#[derive(Clone, Copy, Debug, Default, PartialEq)]
pub enum Container {
    /// The 32-bit class (`ELFCLASS32`).
    Little,
    /// The 64-bit class (`ELFCLASS64`).
    #[default]
    Big,
}

impl Container {
    /// Reports whether this is the 64-bit class.
    pub fn is_big(self) -> bool
        ensures { IsTrue result ↔ (self ≡ Container.Big) }
    {
        self == Container::Big
    }
}

/// The default class: 64-bit, on every machine.
pub const CONTAINER: Container = Container::Big;

/// How the records of a file are laid out: their class and their byte order.
#[derive(Clone, Copy, Debug, Default, PartialEq)]
pub struct Ctx {
    /// The class.
    pub container: Container,
    /// The byte order.
    pub le: Endian,
}

impl Ctx {
    /// Reports whether the class is the 64-bit one.
    pub fn is_big(self) -> bool
        ensures { IsTrue result ↔ (self.container ≡ Container.Big) }
    {
        self.container.is_big()
    }

    /// Reports whether the byte order is little endian.
    pub fn is_little_endian(self) -> bool
        ensures { IsTrue result ↔ (self.le ≡ Endian.Little) }
    {
        self.le.is_little()
    }

    /// Returns the context with this class and byte order.
    pub fn new(container: Container, le: Endian) -> Self
        ensures { result ≡ record { container = container; le = le } }
    {
        Ctx { container, le }
    }

    /// Returns the size of an address in bytes: 4 or 8.
    pub fn size(self) -> usize
        ensures { result ≡ word_size self.container }
    {
        match self.container {
            Container::Little => 4,
            Container::Big => 8,
        }
    }
}

/// Makes a little-endian context of a class.
impl From<Container> for Ctx {
    ghost use Rattle.goblin_base.specs.declared.container.Endian.TheVariants as endian;

    ghost from_gives = { λ container ctx. ctx ≡ record { container = container; le = endian.Little } };

    fn from(container: Container) -> Self {
        Ctx {
            container,
            le: Endian::default(),
        }
    }
}

/// Makes a 64-bit context of a byte order.
impl From<Endian> for Ctx {
    ghost use Rattle.goblin_base.specs.declared.container.Container.TheVariants as class;

    ghost from_gives = { λ le ctx. ctx ≡ record { container = class.Big; le = le } };

    fn from(le: Endian) -> Self {
        Ctx {
            container: Container::default(),
            le,
        }
    }
}

/// A law: the values of the constants of this module.
pub fn constants()
    ensures orders { (LE ≡ Endian.Little) × (BE ≡ Endian.Big) }
    ensures class { CONTAINER ≡ Container.Big }
{}

/// Laws of byte orders, classes and contexts: `==` is true exactly if both are the same. `clone` returns the value, and
/// never fails. The defaults are little endian and the 64-bit class.
pub fn laws()
    ensures derived_endian { ComparesAndClones ⟦<Endian as PartialEq>⟧ ⟦<Endian as Clone>⟧ }
    ensures derived_container { ComparesAndClones ⟦<Container as PartialEq>⟧ ⟦<Container as Clone>⟧ }
    ensures derived_ctx { ComparesAndClones ⟦<Ctx as PartialEq>⟧ ⟦<Ctx as Clone>⟧ }
    ensures default_endian { (order : Endian) → ⟦<Endian as Default>⟧.is_default order → order ≡ Endian.Little }
    ensures default_container { (class : Container) →
        ⟦<Container as Default>⟧.is_default class → class ≡ Container.Big }
    ensures default_ctx { (ctx : Ctx) → ⟦<Ctx as Default>⟧.is_default ctx
        → ctx ≡ record { container = Container.Big; le = Endian.Little } }
{}
