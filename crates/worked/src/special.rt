// The cases that a line of text does not say: rooms, parts, and long inputs.
use crate::report::{bytes, number, words};
use std::io;
use tally::Tally;

// The empty dictionary into a room: the code, the room after it, and the code of the verdict on that.
fn empty(
    rt: &impl Print,
    t: Tally,
    room: &mut [u8],
    code: usize,
    want: &[u8],
    verdict: usize,
) -> io::Result<Tally> {
    print!(rt; "the empty dictionary into a room of {}", room.len())?;
    let t = number(
        rt,
        t,
        b"",
        lichenhusk::lichenhusk_empty(room) as usize,
        code,
    )?;
    let t = bytes(rt, t, b"the room after it", room, want)?;
    number(rt, t, b"its verdict", ask::dictionary(room).code, verdict)
}

pub fn rooms(rt: &impl Print, t: Tally) -> io::Result<Tally> {
    let t = empty(rt, t, &mut [9; 2], 42, b"\x09\x09", 12)?;
    let t = empty(rt, t, &mut [9; 3], 0, b"\x01\x00\x00", 0)?;
    empty(rt, t, &mut [9; 5], 0, b"\x01\x00\x00\x09\x09", 0)
}

// Whether P with the byte `b` after it has P's numbers.
fn as_p(b: u8) -> bool {
    let p = [
        0x02, 0x02, 0x00, 0x01, 0x01, 0x00, 0x03, 0x04, 0x0C, 0xFB, b,
    ];
    let a = ask::lookup(b"\x11\x02\x00\x04\x08flowroll", &p, b"flow");
    outcomes::expected::is(b"0 0 0 8 10 0", Ok(outcomes::Outcome::Answered(a)), &[0; 1])
}

// How many bytes from 0 on may stand after P.
fn bytes_after_p() -> usize {
    (0..=u8::MAX).take_while(|b| as_p(*b)).count()
}

// Word k of 16 that were 9, after names of P are looked up at one check.
fn word_after(ends: &[u32], k: usize) -> usize {
    let mut words = [9u32; 16];
    ask_into::lookup_all(
        b"\x11\x02\x00\x04\x08flowroll",
        b"\x02\x02\x00\x01\x01\x00\x03\x04\x0C\xFB",
        b"flowrolroll",
        ends,
        &mut words,
    );
    words.get(k).map_or(0, |word| print::wide(*word))
}

// The words after those of the names stay, and with a refusal all do.
fn words_that_stay(rt: &impl Print, t: Tally) -> io::Result<Tally> {
    let t = number(
        rt,
        t,
        b"P, three names into 16 words of 9, word 14",
        word_after(&[4, 7, 11], 14),
        10,
    )?;
    let t = number(
        rt,
        t,
        b"word 15, which stays",
        word_after(&[4, 7, 11], 15),
        9,
    )?;
    let t = number(
        rt,
        t,
        b"an end that falls, word 0, which stays",
        word_after(&[4, 3, 11], 0),
        9,
    )?;
    number(
        rt,
        t,
        b"four names into 16 words, word 0, which stays",
        word_after(&[4, 7, 11, 11], 0),
        9,
    )
}

// Six words of 9 after an object over D with a field of a byte and one of no bytes is refused: by the listing, and by many names.
fn words_of_refused(rt: &impl Print, t: Tally) -> io::Result<Tally> {
    let d = b"\x11\x02\x00\x04\x08flowroll";
    let o = b"\x02\x02\x00\x01\x00\x01\x01\x00";
    let mut listed = [9u32; 6];
    let t = number(
        rt,
        t,
        b"field 1 of no bytes, listed into six words of 9",
        ask_into::list(d, o, &mut listed).code,
        28,
    )?;
    let t = words(rt, t, b"the words, which stay", &listed, &[9; 6])?;
    let mut row = [9u32; 6];
    let t = number(
        rt,
        t,
        b"its \"flow\" into six words of 9",
        ask_into::lookup_all(d, o, b"flow", &[4; 1], &mut row).code,
        28,
    )?;
    words(rt, t, b"the words, which stay", &row, &[9; 6])
}

// Six words of 9 after the listing of an object over D whose second child is of type 21: the first is measured, and nothing is written.
fn words_of_unmeasured(rt: &impl Print, t: Tally) -> io::Result<Tally> {
    let d = b"\x11\x02\x00\x04\x08flowroll";
    let o = b"\x02\x02\x00\x01\x00\x02\x03\x0C\xFB\x54";
    let mut listed = [9u32; 6];
    let t = number(
        rt,
        t,
        b"field 1 of type 21, listed into six words of 9",
        ask_into::list(d, o, &mut listed).code,
        43,
    )?;
    words(rt, t, b"the words, which stay", &listed, &[9; 6])
}

// A value over D as a tree, with three marks of 9: the code, and the marks after it.
fn marked(
    rt: &impl Print,
    t: Tally,
    case: &[u8],
    value: &[u8],
    strip: &mut [u8],
    code: usize,
    want: &[u8],
) -> io::Result<Tally> {
    let mut marks = [9u8; 3];
    let d = b"\x11\x02\x00\x04\x08flowroll";
    let got = lichenhusk::lichenhusk_tree(d, value, &mut marks, strip);
    let t = number(rt, t, case, got as usize, code)?;
    bytes(rt, t, b"the marks, three of 9, after it", &marks, want)
}

fn marks_after(rt: &impl Print, t: Tally) -> io::Result<Tally> {
    let p = b"\x02\x02\x00\x01\x01\x00\x03\x04\x0C\xFB";
    let t = marked(rt, t, b"P as a tree", p, &mut [9; 24], 0, b"\x00\x00\x00")?;
    let t = marked(
        rt,
        t,
        b"type 21 as a tree",
        b"\x54",
        &mut [9; 24],
        51,
        b"\x00\x00\x00",
    )?;
    marked(
        rt,
        t,
        b"P as a tree, a strip of 23",
        p,
        &mut [9; 23],
        40,
        b"\x09\x09\x09",
    )
}

// Document 01's two lengths, 65,536 bytes and one more: both are read. For what 10 and 20 refuse no program has room: the host's Rust tests
// have those cases.
fn long(first: u8) -> [u8; 65537] {
    let mut bytes = [0u8; 65537];
    bytes[0] = first;
    bytes
}

fn long_dictionary(rt: &impl Print, t: Tally) -> io::Result<Tally> {
    let dict = long(1);
    let n: usize = 65536;
    let t = number(
        rt,
        t,
        b"01 00 00 in 65537 bytes",
        ask::dictionary(&dict).code,
        0,
    )?;
    number(
        rt,
        t,
        b"01 00 00 in 65536 bytes",
        ask::dictionary(&dict[0..n]).code,
        0,
    )
}

fn long_object(rt: &impl Print, t: Tally) -> io::Result<Tally> {
    let empty = b"\x01\x00\x00";
    let object = long(2);
    let n: usize = 65536;
    let t = number(
        rt,
        t,
        b"02 00 00 in 65537 bytes",
        ask::layer(empty, &object).code,
        0,
    )?;
    number(
        rt,
        t,
        b"02 00 00 in 65536 bytes",
        ask::layer(empty, &object[0..n]).code,
        0,
    )
}

// What has no line of a table, but the rooms of the empty dictionary.
pub fn run(rt: &impl Print, t: Tally) -> io::Result<Tally> {
    let t = words_that_stay(rt, t)?;
    let t = words_of_refused(rt, t)?;
    let t = words_of_unmeasured(rt, t)?;
    let t = marks_after(rt, t)?;
    let t = number(
        rt,
        t,
        b"P and any byte, \"flow\" found as in P",
        bytes_after_p(),
        256,
    )?;
    let t = long_dictionary(rt, t)?;
    long_object(rt, t)
}
