//! Fields that are read from the front of bytes, and written.

use spelling::{
    End, Input, NoMemory, NotHere, Unread, guard, put_byte, put_bytes, put_u16, put_u32, put_u64,
};
use std::alloc::Global;
use std::test::*;

const BYTES: [u8; 16] = [
    0x57, 0x53, 0x07, 0x01, 0x02, 0x00, 0x00, 0x00, 0x05, 0, 0, 0, 0, 0, 1, 0,
];

// The fields behind a word: a byte, a number and three bytes.
fn fields_of(input: &mut Input) -> Result<(u8, u16, [u8; 3]), Unread> {
    input.exactly(b"WS")?;
    Ok((input.byte()?, input.number_u16()?, input.array()?))
}

// Whether a byte 05 is next, how many bytes are taken with it, the number behind it, and what one of eight bytes ends with.
type Rest = (bool, usize, u32, Option<Unread>);

fn rest_of(alloc: Global, input: &mut Input) -> Result<Rest, Unread> {
    let one = input.vec(alloc, 1)?;
    let taken = input.taken_of(&BYTES);
    let number = input.number_u32()?;
    Ok((
        one.as_slice() == [5].as_slice(),
        taken,
        number,
        input.number_u64().err(),
    ))
}

#[test]
fn fields_in_order(rt: HostRuntime) {
    let mut input = Input::new(&BYTES);
    let len = input.len();
    let fields = fields_of(&mut input);
    let rest = rest_of(rt.alloc(), &mut input);
    let due = (
        16,
        Ok((7, 0x0102, [0, 0, 0])),
        Ok((true, 9, 0, Some(Unread::Part))),
    );
    assert!(rt; (len, fields, rest) == due);
}

// What is read of the bytes, where a word is due.
fn word(bytes: &[u8]) -> Result<(), Unread> {
    Input::new(bytes).exactly(b"WSY")
}

#[test]
fn part_and_wrong(rt: HostRuntime) {
    let words = [word(b"W"), word(b"WX"), guard(true), guard(false)];
    let numbers = (
        Input::new(b"").byte(),
        Input::new(&[1]).number_u16(),
        Input::new(&[0, 0, 0, 0, 0, 0, 1, 2]).number_u64(),
    );
    let (part, wrong) = (Err(Unread::Part), Err(Unread::Wrong));
    let due = (
        [part, wrong, Ok(()), wrong],
        (Err(Unread::Part), Err(Unread::Part), Ok(0x0102)),
    );
    assert!(rt; (words, numbers) == due);
}

const UP_TO_U16: &[(&[u8], u16, Result<u16, Unread>)] = &[
    (&[0x05, 0xe4], 1508, Ok(1508)),
    (&[0x05, 0xe5], 1508, Err(Unread::Wrong)),
    (&[0x05], 1508, Err(Unread::Part)),
    (&[0x06], 1508, Err(Unread::Wrong)),
    (&[], 0, Err(Unread::Part)),
];

const UP_TO_U32: &[(&[u8], u32, Result<u32, Unread>)] = &[
    (&[0, 2, 0, 0, 9], 131_072, Ok(131_072)),
    (&[0, 2, 0, 1], 131_072, Err(Unread::Wrong)),
    (&[0, 2, 0], 131_072, Err(Unread::Part)),
    (&[0, 3], 131_072, Err(Unread::Wrong)),
    (&[1], 131_072, Err(Unread::Wrong)),
];

const UP_TO_U8: &[(&[u8], u8, Result<u8, Unread>)] = &[
    (&[8, 1], 8, Ok(8)),
    (&[9], 8, Err(Unread::Wrong)),
    (&[], 8, Err(Unread::Part)),
];

#[test]
fn limits_of_two_bytes(rt: HostRuntime) {
    for (bytes, limit, due) in UP_TO_U16 {
        assert!(rt; Input::new(bytes).number_u16_up_to(*limit) == *due);
    }
}

#[test]
fn limits_of_four_bytes(rt: HostRuntime) {
    for (bytes, limit, due) in UP_TO_U32 {
        assert!(rt; Input::new(bytes).number_u32_up_to(*limit) == *due);
    }
}

#[test]
fn limits_of_a_byte(rt: HostRuntime) {
    for (bytes, limit, due) in UP_TO_U8 {
        assert!(rt; Input::new(bytes).byte_up_to(*limit) == *due);
    }
}

#[test]
fn ends(rt: HostRuntime) {
    let ends: [End<NotHere>; 3] = [
        Unread::Part.into(),
        Unread::Wrong.into(),
        Unread::NoMemory.into(),
    ];
    assert!(rt; ends == [End::Refused(NotHere), End::Refused(NotHere), End::NoMemory]);
}

// Writes a field of each width, and bytes.
fn put_fields(out: &mut Vec<u8>) -> Result<(), NoMemory> {
    put_byte(out, 9)?;
    put_u16(out, 0x0102)?;
    put_u32(out, 0x0304_0506)?;
    put_u64(out, 7)?;
    put_bytes(out, b"ab")
}

#[test]
fn bytes_written(rt: HostRuntime) {
    let mut out = Vec::new(rt.alloc());
    let put = put_fields(&mut out);
    let due = [9, 1, 2, 3, 4, 5, 6, 0, 0, 0, 0, 0, 0, 0, 7, 97, 98];
    assert!(rt; put.is_ok() && out.as_slice() == due.as_slice());
}
