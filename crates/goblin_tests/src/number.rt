//! Cases with their results: numbers read and put.
use crate::compare::is;
use goblin_base::container::{BE, Endian, LE};
use goblin_base::number::{
    get_i32, get_i64, get_u8, get_u16, get_u32, get_u64, put_i32, put_i64, put_u8, put_u16,
    put_u32, put_u64,
};

const COUNTED: &[u8; 9] = b"\xff\x01\x02\x03\x04\x05\x06\x07\x08";

#[test]
fn reads_numbers(rt: HostRuntime) {
    assert!(rt; is(rt, (get_u8(COUNTED, 0), get_u8(COUNTED, 8)), (0xff, 8)));
    let numbers = (get_u16(COUNTED, 1, LE), get_u16(COUNTED, 1, BE));
    assert!(rt; is(rt, numbers, (0x0201, 0x0102)));
    assert!(rt; is(rt, get_u32(COUNTED, 1, LE), 0x04030201));
    assert!(rt; is(rt, get_u32(COUNTED, 1, BE), 0x01020304));
    assert!(rt; is(rt, get_u64(COUNTED, 1, LE), 0x0807060504030201));
    assert!(rt; is(rt, get_u64(COUNTED, 1, BE), 0x0102030405060708));
}

const TURNED: &[u8; 9] = b"\xfe\xff\xff\xff\xff\xff\xff\xff\x7f";

#[test]
fn reads_signed_numbers(rt: HostRuntime) {
    assert!(rt; is(rt, get_i32(TURNED, 0, LE), -2));
    assert!(rt; is(rt, get_i32(TURNED, 0, BE), -16777217));
    assert!(rt; is(rt, get_i32(TURNED, 5, LE), 2147483647));
    assert!(rt; is(rt, get_i32(TURNED, 5, BE), -129));
    assert!(rt; is(rt, get_i64(TURNED, 0, LE), -2));
    assert!(rt; is(rt, get_i64(TURNED, 1, LE), 9223372036854775807));
    assert!(rt; is(rt, get_i64(TURNED, 1, BE), -129));
}

// Whether numbers that are put over each other in one order leave these bytes.
fn puts(rt: HostRuntime, order: Endian, want: &[u8; 10]) -> bool {
    let mut bytes = [0xff; 10];
    put_u64(&mut bytes, 1, 0x0102030405060708, order);
    put_u32(&mut bytes, 1, 0x11121314, order);
    put_u16(&mut bytes, 1, 0x2122, order);
    put_u8(&mut bytes, 9, 0x31);
    is(rt, &bytes, want)
}

#[test]
fn puts_numbers(rt: HostRuntime) {
    assert!(rt; puts(rt, LE, b"\xff\x22\x21\x12\x11\x04\x03\x02\x01\x31"));
    assert!(rt; puts(rt, BE, b"\xff\x21\x22\x13\x14\x05\x06\x07\x08\x31"));
}

// Whether a signed number of eight bytes, with one of four put into its middle, leaves these bytes.
fn puts_signed(rt: HostRuntime, order: Endian, want: &[u8; 10]) -> bool {
    let mut bytes = [0xaa; 10];
    put_i64(&mut bytes, 1, -3, order);
    put_i32(&mut bytes, 3, -2147483648, order);
    is(rt, &bytes, want)
}

#[test]
fn puts_signed_numbers(rt: HostRuntime) {
    assert!(rt; puts_signed(rt, LE, b"\xaa\xfd\xff\0\0\0\x80\xff\xff\xaa"));
    assert!(rt; puts_signed(rt, BE, b"\xaa\xff\xff\x80\0\0\0\xff\xfd\xaa"));
}
