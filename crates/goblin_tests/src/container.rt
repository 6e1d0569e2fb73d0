//! Cases with their results: contexts.
use crate::compare::is;
use crate::record::is_apart;
use goblin_base::container::{BE, CONTAINER, Container, Ctx, Endian, LE};

// The contexts of both classes in either byte order.
pub(crate) const LITTLE32: Ctx = Ctx {
    container: Container::Little,
    le: LE,
};

pub(crate) const BIG32: Ctx = Ctx {
    container: Container::Little,
    le: BE,
};

pub(crate) const LITTLE64: Ctx = Ctx {
    container: Container::Big,
    le: LE,
};

pub(crate) const BIG64: Ctx = Ctx {
    container: Container::Big,
    le: BE,
};

pub(crate) static CONTEXTS: [Ctx; 4] = [LITTLE32, BIG32, LITTLE64, BIG64];

// Whether a new context is 64-bit and little endian, by both calls that report each, and how many bytes an address has
// there.
fn parts(container: Container, order: Endian) -> ([bool; 2], [bool; 2], usize) {
    let ctx = Ctx::new(container, order);
    let is_little = [ctx.is_little_endian(), ctx.le.is_little()];
    (
        [ctx.is_big(), ctx.container.is_big()],
        is_little,
        ctx.size(),
    )
}

#[test]
fn makes_contexts(rt: HostRuntime) {
    assert!(rt; is(rt, parts(Container::Big, BE), ([true; 2], [false; 2], 8)));
    assert!(rt; is(rt, parts(Container::Little, LE), ([false; 2], [true; 2], 4)));
}

#[test]
fn makes_contexts_of_one_part(rt: HostRuntime) {
    assert!(rt; is(rt, Ctx::from(Container::Little), LITTLE32));
    assert!(rt; is(rt, Ctx::from(Endian::Big), BIG64));
    assert!(rt; is(rt, Ctx::default(), Ctx::new(CONTAINER, LE)));
}

#[test]
fn compares_contexts(rt: HostRuntime) {
    assert!(rt; is_apart(rt, &BIG32, &[LITTLE32, BIG64, LITTLE64]));
    assert!(rt; is_apart(rt, &Container::Little, &[Container::Big]));
    assert!(rt; is_apart(rt, &BE, &[LE]));
    assert!(rt; is(rt, Ctx::default(), LITTLE64));
    let default = (Container::default(), Endian::default());
    assert!(rt; is(rt, default, (Container::Big, LE)));
}
