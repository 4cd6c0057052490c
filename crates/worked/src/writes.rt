// Writing into rooms lent, with scratch and without: what stands in them afterwards. A line is `DICT BYTES ROOM CODE ORDER SPARE STRIP N ..`: of
// a dictionary that is written the numbers are the ends of names in BYTES, and DICT is none; of an object they are the words of its pairs.
// ROOM, in hex, is what the room holds after the call. It is so long, and all in it was 9; ORDER, SPARE and STRIP are how long these are.
//
// What is written is the same whatever scratch there is. A refusal leaves the room, and so does a strip that is short.
use crate::report::{bytes, no_case, number};
use lichenhusk::{lichenhusk_write_dictionary, lichenhusk_write_object};
use operands::Tail;
use print::wide;
use slices::{first, part_of};
use std::io;
use tally::Tally;

#[derive(Clone, Copy)]
pub enum What {
    Dictionary,
    Object,
}

fn tell(rt: &impl Print, what: What, given: &[u8], numbers: &[u32]) -> io::Result<()> {
    match what {
        What::Dictionary => {
            print::tell(rt, given)?;
            print::tell(rt, b", ends")?;
        }
        What::Object => {
            print::tell(rt, b"pairs")?;
        }
    }
    print::write_words(rt, numbers)
}

fn write(
    what: What,
    dict: &[u8],
    given: &[u8],
    numbers: &[u32],
    order: &mut [u32],
    spare: &mut [u32],
    room: &mut [u8],
    strip: &mut [u8],
) -> u32 {
    match what {
        What::Dictionary => lichenhusk_write_dictionary(given, numbers, order, spare, room, strip),
        What::Object => lichenhusk_write_object(dict, given, numbers, order, spare, room, strip),
    }
}

// The code, and the room after the call.
fn written(
    rt: &impl Print,
    t: Tally,
    what: What,
    dict: &[u8],
    given: &[u8],
    numbers: &[u32],
    order: &mut [u32],
    spare: &mut [u32],
    room: &mut [u8],
    strip: &mut [u8],
    code: usize,
    want: &[u8],
) -> io::Result<Tally> {
    tell(rt, what, given, numbers)?;
    print!(rt; ", scratch of {} and {}", order.len(), spare.len())?;
    let got = write(what, dict, given, numbers, order, spare, room, strip);
    let t = number(rt, t, b" words", got as usize, code)?;
    bytes(rt, t, b"the room after it", room, want)
}

// `numbers` are ORDER, SPARE, STRIP and the others.
fn in_rooms(
    rt: &impl Print,
    t: Tally,
    what: What,
    dict: &[u8],
    given: &[u8],
    want: &[u8],
    code: usize,
    numbers: &[u32],
) -> io::Result<Tally> {
    let k = numbers.len();
    let n = want.len();
    if k < 3 || 16 < n {
        return no_case(rt, t);
    }
    let order = wide(numbers[0]);
    let spare = wide(numbers[1]);
    let strip = wide(numbers[2]);
    if 8 < order || 8 < spare || 24 < strip {
        return no_case(rt, t);
    }
    written(
        rt,
        t,
        what,
        dict,
        given,
        &numbers[3..k],
        &mut [9; 8][0..order],
        &mut [9; 8][0..spare],
        &mut [9; 16][0..n],
        &mut [9; 24][0..strip],
        code,
        want,
    )
}

pub fn case(rt: &impl Print, t: Tally, what: What, line: &[u8]) -> io::Result<Tally> {
    let mut dict = [0u8; 16];
    let mut given = [0u8; 16];
    let mut want = [0u8; 16];
    let mut numbers = [0u32; 16];
    let Ok(read) = operands::read(
        line,
        0,
        3,
        Tail::Numbers,
        &mut dict,
        &mut given,
        &mut want,
        &mut numbers,
    ) else {
        return no_case(rt, t);
    };
    in_rooms(
        rt,
        t,
        what,
        part_of(&dict, 0, read.one),
        part_of(&given, 0, read.two),
        part_of(&want, 0, read.three),
        read.number,
        first(&numbers, read.more),
    )
}
