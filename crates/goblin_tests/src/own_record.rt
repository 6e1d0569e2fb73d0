//! Records of a caller's own: one that states its layout, which tables take like any other, and one whose impls are all
//! written out, which lists take.
ghost use Rattle.goblin_base.specs.Layout.{shaped};
ghost use Rattle.goblin_base.specs.LayoutLaws.{obeys};
ghost use Rattle.goblin_base.specs.Record.{Writes};
ghost use Rattle.goblin_tests.specs.OwnRecord.{place, place_laws, port, port_laws};

#[cfg(test)]
use crate::compare::{is, returns};
use goblin_base::container::Endian;
#[cfg(test)]
use goblin_base::container::{BE, LE};
use goblin_base::error::Result;
use goblin_base::laid_out::LaidOut;
#[cfg(test)]
use goblin_base::laid_out::laws;
use goblin_base::number::{get_u16, get_u32, put_u16, put_u32};
use goblin_base::record::Record;
use goblin_base::room::room;
use goblin_base::scroll::{SizeWith, TryIntoCtx};
#[cfg(test)]
use goblin_base::table::{Table, read_at};

#[derive(Clone, Copy, Debug, PartialEq)]
struct Place {
    address: u32,
    port: u16,
}

impl LaidOut<Endian> for Place {
    ghost layout = { shaped place };

    fn size_in(_order: Endian) -> usize {
        6
    }

    fn get(bytes: &[u8], order: Endian) -> Place {
        Place {
            address: get_u32(bytes, 0, order),
            port: get_u16(bytes, 4, order),
        }
    }

    fn put(self, bytes: &mut [u8], order: Endian) {
        put_u32(bytes, 0, self.address, order);
        put_u16(bytes, 4, self.port, order);
    }

    ghost layout_laws = { place_laws };
}

#[derive(Clone, Copy, Debug, PartialEq)]
struct Port {
    number: u16,
}

impl SizeWith<Endian> for Port {
    ghost size_of = { λ _. 2 };

    fn size_with(_order: &Endian) -> usize {
        2
    }
}

impl TryIntoCtx<Endian> for Port {
    ghost try_into_gives = { λ p order old answer new. Writes 2 ((shaped port order).image p) old answer new };

    #[tactic(auto, using(goblin_base::specs::RecordLaws::record_answers))]
    fn try_into_ctx(self, bytes: &mut [u8], order: Endian) -> Result<usize> {
        room(bytes.len(), 0, 2)?;
        put_u16(bytes, 0, self.number, order);
        Ok(2)
    }
}

impl Record<Endian> for Port {
    ghost read = { λ order. (shaped port order).read };

    ghost image = { λ order. (shaped port order).image };

    ghost fits = { λ order. (shaped port order).Fits };

    #[tactic(auto, using(goblin_base::specs::RecordLaws::record_answers))]
    fn read_record(bytes: &[u8], order: Endian) -> Result<Self> {
        room(bytes.len(), 0, 2)?;
        Ok(Port {
            number: get_u16(bytes, 0, order),
        })
    }

    ghost laws = { λ order. obeys (port_laws order) };
}

#[test]
fn tables_take_a_record_that_states_its_layout(rt: HostRuntime) {
    let table = Table::<Place, Endian>::of(b"\x7f\0\0\x01\x01\xbb\x0a\0\0\x02\0\x50\x99", 2, BE);
    let second = Place {
        address: 0x0a00_0002,
        port: 80,
    };
    assert!(rt; is(rt, table.get(1), Some(second)) && is(rt, table.get(2), None));
    laws::<Place, Endian>();
    let mut bytes = [0xaa; 7];
    let written = second.try_into_ctx(&mut bytes, LE);
    assert!(rt; returns(rt, written, 6) && bytes == [0x02, 0, 0, 0x0a, 0x50, 0, 0xaa]);
}

// Reports whether the second of two ports after one byte is this one.
#[cfg(test)]
fn has_second(rt: HostRuntime, order: Endian, number: u16) -> bool {
    match read_at::<Port, Endian>(b"\x99\x01\xbb\x00\x50", 3, order) {
        Ok(found) => is(rt, found, Port { number }),
        Err(_) => false,
    }
}

#[test]
fn lists_take_a_record_whose_impls_are_written_out(rt: HostRuntime) {
    assert!(rt; has_second(rt, BE, 80));
    assert!(rt; has_second(rt, LE, 0x5000));
    let mut bytes = [0xaa; 3];
    let written = Port { number: 443 }.try_into_ctx(&mut bytes, BE);
    assert!(rt; returns(rt, written, 2) && bytes == [0x01, 0xbb, 0xaa]);
}
