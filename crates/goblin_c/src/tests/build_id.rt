//! The build ID, in little endian files of the 32-bit class. They hold a note of another owner and one that is a build
//! ID: in a segment, after a segment of another type; or in a section, after a section of another type.
use crate::layout::marked_layout;
use crate::tests::{called, file_of, stored};
use crate::*;

static IN_SEGMENT: &[u8; 156] = b"\x7fELF\x01\x01\x01\0\0\0\0\0\0\0\0\0\x03\0\x03\0\x01\0\0\0\
    \0\0\0\0\x34\0\0\0\0\0\0\0\0\0\0\0\x34\0\x20\0\x02\0\x28\0\0\0\0\0\
    \x01\0\0\0\x88\0\0\0\0\0\0\0\0\0\0\0\x14\0\0\0\x14\0\0\0\x04\0\0\0\x04\0\0\0\
    \x04\0\0\0\x74\0\0\0\0\0\0\0\0\0\0\0\x28\0\0\0\x28\0\0\0\x04\0\0\0\x04\0\0\0\
    \x04\0\0\0\x04\0\0\0\x03\0\0\0ABC\0\x01\x02\x03\x04\
    \x04\0\0\0\x04\0\0\0\x03\0\0\0GNU\0\xaa\xbb\xcc\xdd";

static IN_SECTION: &[u8; 172] = b"\x7fELF\x01\x01\x01\0\0\0\0\0\0\0\0\0\x03\0\x03\0\x01\0\0\0\
    \0\0\0\0\0\0\0\0\x34\0\0\0\0\0\0\0\x34\0\x20\0\0\0\x28\0\x02\0\0\0\
    \0\0\0\0\x01\0\0\0\0\0\0\0\0\0\0\0\x98\0\0\0\x14\0\0\0\0\0\0\0\0\0\0\0\x04\0\0\0\0\0\0\0\
    \0\0\0\0\x07\0\0\0\0\0\0\0\0\0\0\0\x84\0\0\0\x28\0\0\0\0\0\0\0\0\0\0\0\x04\0\0\0\0\0\0\0\
    \x04\0\0\0\x04\0\0\0\x03\0\0\0ABC\0\x01\x02\x03\x04\
    \x04\0\0\0\x04\0\0\0\x03\0\0\0GNU\0\xaa\xbb\xcc\xdd";

// A note whose name has another end, and one of another type.
static OTHERS: &[u8; 124] = b"\x7fELF\x01\x01\x01\0\0\0\0\0\0\0\0\0\x03\0\x03\0\x01\0\0\0\
    \0\0\0\0\x34\0\0\0\0\0\0\0\0\0\0\0\x34\0\x20\0\x01\0\x28\0\0\0\0\0\
    \x04\0\0\0\x54\0\0\0\0\0\0\0\0\0\0\0\x28\0\0\0\x28\0\0\0\x04\0\0\0\x04\0\0\0\
    \x04\0\0\0\x04\0\0\0\x03\0\0\0GNUx\xaa\xbb\xcc\xdd\
    \x04\0\0\0\x04\0\0\0\x01\0\0\0GNU\0\xaa\xbb\xcc\xdd";

fn build_id(bytes: &[u8]) -> (u32, u64, u64) {
    stored!(goblin_build_id(&file_of(bytes).1) => range { offset, size })
}

#[test]
fn finds_the_build_id(rt: HostRuntime) {
    assert!(rt; build_id(IN_SEGMENT) == (0, 152, 4));
    assert!(rt; build_id(IN_SECTION) == (0, 168, 4));
}

// The answer for a file without its last byte, which cuts the descriptor of the last note: its kind, part and offset.
fn refused(bytes: &[u8]) -> (u32, u32, u64) {
    let (status, _, why) =
        called!(goblin_build_id(&file_of(&bytes[..bytes.len().saturating_sub(1)]).1) => range);
    (status, why.item, why.offset)
}

#[test]
fn refuses_a_note_that_is_cut(rt: HostRuntime) {
    assert!(rt; refused(IN_SEGMENT) == (3, 6, 136) && refused(IN_SECTION) == (3, 6, 152));
}

#[test]
fn finds_no_build_id_among_others(rt: HostRuntime) {
    let (status, _, _) = build_id(OTHERS);
    assert!(rt; status == 1);
}
