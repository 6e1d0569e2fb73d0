//! Whether there is room, in rows.
use crate::compare::{holds, reports};
use goblin_base::error::Error;
use goblin_base::number;
use goblin_base::room::room;

const MAX: usize = usize::MAX;

// How many bytes there are, an offset, a size, and whether there is room, or the fault.
static ROOMS: [(usize, usize, usize, &str); 10] = [
    (10, 0, 10, "Ok"),
    (10, 10, 0, "Ok"),
    (0, 0, 0, "Ok"),
    (10, 3, 7, "Ok"),
    (10, 10, 1, "bad offset 10"),
    (0, 0, 1, "bad offset 0"),
    (10, 11, 0, "bad offset 11"),
    (10, MAX, MAX, "bad offset 18446744073709551615"),
    (10, 3, 8, "type is too big (8) for 7"),
    (10, 1, MAX, "type is too big (18446744073709551615) for 9"),
];

#[test]
fn has_room_or_is_refused(rt: HostRuntime) {
    for row in &ROOMS {
        let answer = room(row.0, row.1, row.2).map_err(Error::from);
        assert!(rt; holds(rt, row, reports(rt, answer, row.3)));
    }
}

#[test]
fn is_reached_through_numbers_too(rt: HostRuntime) {
    for row in &ROOMS {
        let answer = number::room(row.0, row.1, row.2).map_err(Error::from);
        assert!(rt; holds(rt, row, reports(rt, answer, row.3)));
    }
}
